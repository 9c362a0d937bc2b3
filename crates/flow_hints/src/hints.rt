// Where flow may be sent, as far as is known.
ghost use Rattle.std.specs.Prelude.{◌≡◌, ◌<◌};
ghost use Rattle.network.specs.Limits.{max_nodes};

use crate::table::{ArcTable, Step};
use network::{MAX_NODES, ValidNetwork};
use node_set::{add, difference, intersection, nodes_in, remove, single, union};

// Sets of nodes: ahead[u] are those to which an arc with room leads from u, into[v] those from which one leads to v,
// and ring[l] those from which l arcs lead to t. Contracts are said of them, and this crate alone writes them.
// Kept: `ahead` and `into` have a set for each node, and no function takes both sets of one: a way is noted in `ahead`
// at one end and in `into` at the other, and a ring is gathered from `into` alone. A record of both for each node would
// be no plainer.
#[derive(Clone, Copy)]
pub struct Hints {
    pub ahead: [u64; MAX_NODES],
    pub into: [u64; MAX_NODES],
    pub ring: [u64; MAX_NODES],
}

// Kept: u and x are asked to be nodes, and l to be a ring, by number; numbers of types of their own would be made, with
// that proof, at each call, and made plain again at each place of an array.
impl Hints {
    ghost use Rattle.std.specs.Prelude.{IfSome};
    ghost use Rattle.flow_hints.specs.code.Hints.{leading_to, leads_to, sent_noted, short_noted, shut_noted};
    ghost use Rattle.flow_hints.specs.code.Hints.{start_hints, way_noted};

    // The hints before anything is sent: every arc has room.
    // Kept: each link there and back, as in `ArcTable::fill`.
    #[tactic(auto, unfolding(crate::specs::code::Hints::hints_up_to))]
    pub fn start(net: ValidNetwork) -> Hints
        ensures { result ≡ start_hints net.network }
    {
        let mut hints = Hints {
            ahead: [0u64; MAX_NODES],
            into: [0u64; MAX_NODES],
            ring: [0u64; MAX_NODES],
        };
        for link in net.each_link() {
            let (u, v) = link.ends();
            hints.note_way(u, v);
            hints.note_way(v, u);
        }
        hints
    }

    // The rings around t, outwards until an arc leads from s to one. Which one that is, if a way is found.
    pub fn sweep(&mut self, s: usize, t: usize) -> Option<usize>
        requires { (s < max_nodes) × (t < max_nodes) }
        ensures { IfSome result (λ l. l < max_nodes) }
    {
        let near = self.ahead[s];
        if near == 0 {
            return None;
        }
        let mut seen = single(t);
        let mut ring = seen;
        for l in 0..MAX_NODES {
            self.ring[l] = ring;
            if intersection(near, ring) != 0 {
                return Some(l);
            }
            ring = difference(self.leading_to(ring), seen);
            if ring == 0 {
                return None;
            }
            seen = union(seen, ring);
        }
        None
    }

    // the nodes from which an arc leads to one of `ring`
    fn leading_to(&self, ring: u64) -> u64
        ensures { result ≡ leading_to self.now ring }
    {
        nodes_in(ring).fold(0, |all, v| union(all, self.into[v]))
    }

    // the nodes of ring l to which an arc leads from u
    pub fn leads(&self, u: usize, l: usize) -> u64
        requires { (u < max_nodes) × (l < max_nodes) }
        ensures { result ≡ leads_to self.now u l }
    {
        intersection(self.ahead[u], self.ring[l])
    }

    // something was sent from u to x, and may be sent back
    #[tactic(auto, unfolding(crate::specs::code::Hints::way_noted))]
    pub fn note_way(&mut self, u: usize, x: usize)
        requires { (u < max_nodes) × (x < max_nodes) }
        ensures { self.new ≡ way_noted self.old u x }
    {
        self.ahead[x] = add(self.ahead[x], u);
        self.into[u] = add(self.into[u], x);
    }

    // nothing more can be sent from u to x
    // Kept: alike to note_way in shape alone: that puts into the sets of x and u what this takes from those of u and x.
    #[tactic(auto, unfolding(crate::specs::code::Hints::shut_noted))]
    pub fn note_shut(&mut self, u: usize, x: usize)
        requires { (u < max_nodes) × (x < max_nodes) }
        ensures { self.new ≡ shut_noted self.old u x }
    {
        self.ahead[u] = remove(self.ahead[u], x);
        self.into[x] = remove(self.into[x], u);
    }

    // d was sent from u by `step`, whose arc had `spare` left
    #[tactic(auto, unfolding(crate::specs::code::Hints::sent_noted))]
    pub fn note_sent(&mut self, table: &ArcTable, u: usize, step: Step, spare: u32, d: u32)
        requires { u < max_nodes }
        ensures { self.new ≡ sent_noted self.old table.now u step.node step.arc spare d }
    {
        if d == 0 {
            return;
        }
        self.note_way(u, step.node);
        if d == spare && table.is_last(step.arc) {
            self.note_shut(u, step.node);
        }
    }

    // d of `want` could be sent on from x, of ring l: where that is less, x has nothing left
    #[tactic(auto, unfolding(crate::specs::code::Hints::short_noted))]
    pub fn note_short(&mut self, x: usize, l: usize, want: u32, d: u32)
        requires { (x < max_nodes) × (l < max_nodes) }
        ensures { self.new ≡ short_noted self.old x l want d }
    {
        if d < want {
            self.ring[l] = remove(self.ring[l], x);
        }
    }
}
