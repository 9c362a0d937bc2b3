// A link of a network, by itself.
ghost use Rattle.std.specs.Prelude.{◌≡◌, ◌<◌};
ghost use Rattle.base.specs.Basics.{differ};
ghost use Rattle.base.specs.Word.{holds};
ghost use Rattle.min_cut.specs.Cut.{crossing};
ghost use Rattle.network.specs.Limits.{max_nodes};
ghost use Rattle.network.specs.Network.{link_within};

use crate::MAX_CAPACITY;
use node_set::contains;

#[derive(Clone, Copy, Debug, PartialEq, Eq)]
pub struct Link {
    pub a: u8,
    pub b: u8,
    pub capacity: u32,
}

impl Link {
    // whether it may stand in a network of n nodes
    #[tactic(auto, unfolding(base::specs::Basics::every))]
    pub fn is_within(self, n: usize) -> bool
        ensures { result ≡ link_within n self.a self.b self.capacity }
    {
        (self.a as usize) < n
            && (self.b as usize) < n
            && self.b != self.a
            && self.capacity <= MAX_CAPACITY
    }

    // its ends, as nodes are counted
    pub fn ends(self) -> (usize, usize)
        ensures { result ≡ (self.a, self.b) }
    {
        (self.a as usize, self.b as usize)
    }

    // whether a side crosses it
    // Kept: its ends are asked to be nodes here and in `crossing`; in the type it would be asked of every link, also of
    // those that `is_within` tests.
    #[tactic(auto, using(crate::proofs::laws::LinkLaws::crosses_by))]
    pub fn crosses(self, side: u64) -> bool
        requires { (self.a < max_nodes) × (self.b < max_nodes) }
        ensures { result ≡ differ (holds side self.a) (holds side self.b) }
    {
        let (a, b) = self.ends();
        contains(side, a) != contains(side, b)
    }

    // its capacity where a side crosses it, else 0
    pub fn crossing(self, side: u64) -> u32
        requires { (self.a < max_nodes) × (self.b < max_nodes) }
        ensures { result ≡ crossing (holds side self.a) (holds side self.b) self.capacity }
    {
        if self.crosses(side) { self.capacity } else { 0 }
    }
}
