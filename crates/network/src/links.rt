// The links of a network, one by one.
ghost use Rattle.std.specs.Prelude.{◌≡◌};

use crate::{Link, ValidNetwork};

// `come` of the network's links have come.
#[derive(Clone, Copy)]
pub struct Links<'a> {
    pub net: &'a ValidNetwork,
    pub come: usize,
}

impl ValidNetwork {
    // its links, from link 0 on
    pub fn each_link(&self) -> Links<'_>
        ensures net { result.net.now ≡ self.now }
        ensures come { result.come ≡ 0 }
    {
        Links { net: self, come: 0 }
    }
}

impl Iterator for Links<'_> {
    ghost use Rattle.std.specs.Prelude.{◌-◌};
    ghost use Rattle.std.specs.Iterator.{at_most};
    ghost use Rattle.network.specs.code.Links.{TakesLink};

    type Item = Link;

    ghost next_gives = { TakesLink };

    ghost remaining = { λ s. at_most (s.net.now.network.links - s.come) };

    #[tactic(auto, using(crate::proofs::laws::NetworkLaws::links_le))]
    fn next(&mut self) -> Option<Link> {
        if self.come >= self.net.network.links {
            return None;
        }
        let link = self.net.network.link(self.come);
        self.come += 1;
        Some(link)
    }
}
