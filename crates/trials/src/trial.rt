// What a trial draws from and counts in, and how often it is made.
ghost use Rattle.std.specs.Prelude.{◌<◌, ◌≤◌};
ghost use Rattle.network.specs.Limits.{max_links, max_nodes};

use crate::random::Random;
use crate::tally::{Kind, Tally};
use network::{MAX_CAPACITY, Network, ValidNetwork};

#[derive(Drop)]
pub struct Trial<'a> {
    pub random: Random,
    pub tally: &'a mut Tally,
}

impl Trial<'_> {
    // A trial apart: its draws are not those that follow here, and it counts in the same tally.
    pub fn apart(&mut self) -> Trial<'_> {
        Trial {
            random: self.random.apart(),
            tally: &mut *self.tally,
        }
    }

    // Counts a network, as wrong where it is not within the limits.
    fn counted(&mut self, net: Network) -> Option<ValidNetwork> {
        let drawn = ValidNetwork::new(net);
        self.tally.count(Kind::Network, drawn.is_some());
        drawn
    }

    // A random network of at most last + 1 nodes and at most `most` links.
    pub fn network(&mut self, last: usize, most: usize) -> Option<ValidNetwork>
        requires { (last < max_nodes) × (most ≤ max_links) }
    {
        let net = self.random.network(last, most);
        self.counted(net)
    }

    // The same, where every capacity is the highest or little less.
    pub fn high_network(&mut self, last: usize, most: usize) -> Option<ValidNetwork>
        requires { (last < max_nodes) × (most ≤ max_links) }
    {
        let mut net = self.random.network(last, most);
        let links = net.links;
        for capacity in net.capacity.iter_mut().take(links) {
            *capacity = MAX_CAPACITY - *capacity % 4;
        }
        self.counted(net)
    }
}

// Makes a trial so many times, with a generator that begins at a seed.
pub fn repeat<F: Fn(&mut Trial)>(seed: usize, times: usize, make: F) -> Tally
    requires { F.IsAlwaysCallable make }
{
    let mut tally = Tally::new();
    let mut trial = Trial {
        random: Random::new(seed),
        tally: &mut tally,
    };
    for _ in 0..times {
        make(&mut trial);
    }
    tally
}
