// Each node's own arcs, chained, so that a search scans no other node's links: arc 2k goes from a[k] to b[k], and arc
// 2k + 1 back.
ghost use Rattle.std.specs.Prelude.{set, length, ◌≡◌, ◌*◌, ◌<◌};
ghost use Rattle.network.specs.code.ArcLinks.{link_at, link_to};
ghost use Rattle.network.specs.code.Incidence.{Chains};
ghost use Rattle.network.specs.Limits.{max_nodes, max_arcs};

use crate::{ArcLink, MAX_ARCS, MAX_NODES, ValidNetwork};

// first[u] is the last arc that leaves u, and next[e] the last arc before e with e's tail, or none. to[e] is where
// arc e leads. The lengths are those of the arrays, for whoever reads them through a reference.
// Kept: whoever tests an arc reads `to` alone, so that one array of records of next and to would be no plainer; and
// such a record takes four bytes and not three.
#[derive(Clone, Copy)]
pub struct Incidence {
    pub first: [ArcLink; MAX_NODES],
    pub next: [ArcLink; MAX_ARCS],
    pub to: [u8; MAX_ARCS],
    pub ghost first_length: { length first ≡ max_nodes },
    pub ghost next_length: { length next ≡ max_arcs },
}

impl Incidence {
    // arc e, from u to v, as the first of u's chain
    // Kept: e and u are asked to be an arc and a node, by number, as in `ArcLink::to`.
    fn add_arc(&mut self, e: usize, u: u8, v: u8)
        requires { (e < max_arcs) × (u < max_nodes) }
        ensures first_after { self.new.first ≡ set self.old.first u (link_to e) }
        ensures next_after { self.new.next ≡ set self.old.next e (link_at self.old.first u) }
        ensures to_after { self.new.to ≡ set self.old.to e v }
    {
        let tail = u as usize;
        self.next[e] = self.first[tail];
        self.first[tail] = ArcLink::to(e);
        self.to[e] = v;
    }
}

pub fn incidence_of(net: ValidNetwork) -> Incidence
    ensures { Chains net.network (2 * net.network.links) result.first result.next result.to }
{
    let mut arcs = Incidence {
        first: [ArcLink::NONE; MAX_NODES],
        next: [ArcLink::NONE; MAX_ARCS],
        to: [0; MAX_ARCS],
    };
    // Kept: each link there and back, as in flow_hints: an iterator over arcs, with its laws, would be longer than such
    // pairs of calls.
    for (k, link) in net.each_link().enumerate() {
        arcs.add_arc(2 * k, link.a, link.b);
        arcs.add_arc(2 * k + 1, link.b, link.a);
    }
    arcs
}
