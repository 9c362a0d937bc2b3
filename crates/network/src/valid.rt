// A network that is within the limits: what a function needs that takes no other.
ghost use Rattle.std.specs.Prelude.{true, ◌≡◌, ◌<◌, ◌≤◌};
ghost use Rattle.network.specs.Limits.{max_capacity};
ghost use Rattle.network.specs.Network.{network_fits, with_capacity};

use crate::{Network, fits};

#[derive(Clone, Copy)]
pub struct ValidNetwork {
    pub network: Network,
    pub ghost fits: { network_fits network ≡ true },
}

impl ValidNetwork {
    ghost use Rattle.std.specs.Prelude.{false, MatchOption};

    // the record as such a network, if it is one
    // Kept: `TryFrom` asks for an error, and for a network that is handed over the table of checks has no refusal.
    pub fn new(network: Network) -> Option<ValidNetwork>
        ensures { MatchOption result (network_fits network ≡ false) (λ v. v.network ≡ network) }
    {
        if fits(network) {
            Some(ValidNetwork { network })
        } else {
            None
        }
    }

    // link k with another capacity
    // Kept: k and c are asked to be a link and a capacity, by number, as calls name them.
    #[tactic(auto, using(crate::proofs::laws::NetworkLaws::links_le, crate::proofs::laws::NetworkLaws::change_fits))]
    pub fn with_capacity(self, k: usize, c: u32) -> ValidNetwork
        requires { (k < self.network.links) × (c ≤ max_capacity) }
        ensures { result.network ≡ with_capacity self.network k c }
    {
        let mut network = self.network;
        network.capacity[k] = c;
        ValidNetwork { network }
    }
}
