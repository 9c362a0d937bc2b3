// The network (docs/SCOPE.md, 1): the record, the test of its limits, and what searches and trials need of it.
#![tactic(auto)]

mod arc_link; // an arc, or none
mod blank; // unused places
mod cut; // the value of a cut
mod incidence; // each node's own arcs, for a search to walk
mod link; // one link
mod links; // its links, one by one
mod refusals; // the refusals and their numbers
mod valid; // a network within the limits

ghost use Rattle.std.specs.Prelude.{◌≡◌, ◌≤◌, ◌<◌, set};
ghost use Rattle.base.specs.Basics.{at, all};
ghost use Rattle.network.specs.Limits.{max_links};
ghost use Rattle.network.specs.Network.{blank_network, link_fits, network_fits};

pub use arc_link::ArcLink;
pub use blank::{Word, blank_from};
pub use cut::cut_value;
pub use incidence::{Incidence, incidence_of};
pub use link::Link;
pub use links::Links;
pub use refusals::Refusal;
pub use valid::ValidNetwork;

// The limits (docs/SCOPE.md, 1), as in specs/Limits.antt. Nodes (its houses) of a network.
pub const MAX_NODES: usize = 64;
// links of a network
pub const MAX_LINKS: usize = 256;
// arcs: each link there and back
pub const MAX_ARCS: usize = 2 * MAX_LINKS;
// a capacity, in tenths of a megabit per second
pub const MAX_CAPACITY: u32 = 8_000_000;
// a cut value: every link at its highest capacity
pub const MAX_VALUE: u32 = MAX_LINKS as u32 * MAX_CAPACITY;
// groups of seven bits in a number of the file
pub const MAX_GROUPS: usize = 4;

// A network: nodes 0 to nodes - 1, and links of which link k joins a[k] and b[k] and has capacity[k]. Unused places are
// 0.
// Kept: the C interface gives the links as three arrays of a fixed length.
#[repr(C)]
#[derive(Clone, Copy, Debug, PartialEq, Eq)]
pub struct Network {
    pub nodes: usize,
    pub links: usize,
    pub a: [u8; MAX_LINKS],
    pub b: [u8; MAX_LINKS],
    pub capacity: [u32; MAX_LINKS],
}

impl Network {
    // n nodes and m links, and all places 0
    pub fn new(n: usize, m: usize) -> Network
        ensures { result ≡ blank_network n m }
    {
        Network {
            nodes: n,
            links: m,
            a: [0; MAX_LINKS],
            b: [0; MAX_LINKS],
            capacity: [0; MAX_LINKS],
        }
    }

    // link k by itself
    // Kept: k is asked to be a place of the arrays here, in set_link and where a plan stacks a change; a number of a
    // type of its own would be made, with that proof, at each call.
    pub fn link(&self, k: usize) -> Link
        requires { k < max_links }
        ensures a { result.a ≡ at self.now.a k }
        ensures b { result.b ≡ at self.now.b k }
        ensures capacity { result.capacity ≡ at self.now.capacity k }
    {
        Link {
            a: self.a[k],
            b: self.b[k],
            capacity: self.capacity[k],
        }
    }

    // puts link k, where any link may stand
    pub fn set_link(&mut self, k: usize, link: Link)
        requires { k < max_links }
        ensures nodes { self.new.nodes ≡ self.old.nodes }
        ensures links { self.new.links ≡ self.old.links }
        ensures a { self.new.a ≡ set self.old.a k link.a }
        ensures b { self.new.b ≡ set self.old.b k link.b }
        ensures capacity { self.new.capacity ≡ set self.old.capacity k link.capacity }
    {
        self.a[k] = link.a;
        self.b[k] = link.b;
        self.capacity[k] = link.capacity;
    }

    fn links_fit(&self) -> bool
        requires { self.now.links ≤ max_links }
        ensures { result ≡ all self.now.links (link_fits self.now) }
    {
        // Kept: the compiler unrolls this loop, and not the `all` of a range, by which the test that a plan is sound
        // takes 37 in 100 longer and a pair misses its target (docs/BENCHMARKS.md).
        for k in 0..self.links {
            if !self.link(k).is_within(self.nodes) {
                return false;
            }
        }
        true
    }
}

// Whether a record, whatever it holds, is a network within the limits.
#[tactic(auto, unfolding(crate::specs::Network::network_fits, base::specs::Basics::every))]
pub fn fits(net: Network) -> bool
    ensures { result ≡ network_fits net }
{
    let m = net.links;
    1 <= net.nodes
        && net.nodes <= MAX_NODES
        && m <= MAX_LINKS
        && net.links_fit()
        && blank_from(&net.a, m)
        && blank_from(&net.b, m)
        && blank_from(&net.capacity, m)
}
