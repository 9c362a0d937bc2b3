// The nodes of a set, one by one, the lowest first.
ghost use Rattle.std.specs.Prelude.{◌≡◌};

use crate::lowest;

// `rest` are the nodes still to come.
#[derive(Clone, Copy, Debug)]
pub struct Members {
    pub rest: u64,
}

// the nodes of x
pub fn nodes_in(x: u64) -> Members
    ensures { result.rest ≡ x }
{
    Members { rest: x }
}

impl Iterator for Members {
    ghost use Rattle.std.specs.Iterator.{at_most};
    ghost use Rattle.node_set.specs.Set.{width, size};
    ghost use Rattle.node_set.specs.code.Members.{TakesLowest};

    type Item = usize;

    ghost next_gives = { TakesLowest };

    ghost remaining = { λ m. at_most (size width m.rest) };

    #[tactic(auto, unfolding(crate::specs::Set::empty))]
    fn next(&mut self) -> Option<usize> {
        if self.rest == 0 {
            return None;
        }
        let i = lowest(self.rest);
        self.rest &= self.rest - 1;
        Some(i)
    }
}
