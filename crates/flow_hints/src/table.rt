// The arcs of a network, by their ends.
ghost use Rattle.std.specs.Prelude.{◌≡◌, ◌<◌};
ghost use Rattle.network.specs.Limits.{max_nodes, max_arcs};

use crate::{Residual, room};
use network::{ArcLink, MAX_ARCS, MAX_LINKS, MAX_NODES, ValidNetwork};

// first[u][x] is an arc from u to x, and behind[j] another arc with the ends of arc j. Contracts are said of them, and
// this crate alone writes them.
#[derive(Clone, Copy)]
pub struct ArcTable {
    pub first: [[ArcLink; MAX_NODES]; MAX_NODES],
    pub behind: [ArcLink; MAX_ARCS],
}

// A node to go on to, and an arc that should lead there.
#[derive(Clone, Copy)]
pub struct Step {
    pub node: usize,
    pub arc: usize,
    pub ghost node_within: { node < max_nodes },
    pub ghost arc_within: { arc < max_arcs },
}

// Kept: u, x and j are asked to be nodes and an arc, by number, as in `Hints`.
impl ArcTable {
    ghost use Rattle.std.specs.Prelude.{IfSome};
    ghost use Rattle.flow_hints.specs.code.Hints.{arc_put, is_last, no_arcs, room_of, table_filled};

    // no arcs
    pub fn none() -> ArcTable
        ensures { result ≡ no_arcs }
    {
        ArcTable {
            first: [[ArcLink::NONE; MAX_NODES]; MAX_NODES],
            behind: [ArcLink::NONE; MAX_ARCS],
        }
    }

    // The arcs of this network are put in; in place, since a table is large.
    // Kept: each link there and back, as arcs 2k and 2k + 1, stands in network's `incidence_of`, too, and, without
    // numbers, in `Hints::start`. An iterator over arcs, with its laws, would be longer than these three pairs of
    // calls.
    #[tactic(auto, unfolding(crate::specs::code::Hints::table_up_to))]
    pub fn fill(&mut self, net: ValidNetwork)
        ensures { self.new ≡ table_filled net.network self.old }
    {
        for (k, link) in net.each_link().enumerate() {
            let (u, v) = link.ends();
            self.put(u, v, 2 * k);
            self.put(v, u, 2 * k + 1);
        }
    }

    // arc j, from u to x, as the first of those
    fn put(&mut self, u: usize, x: usize, j: usize)
        requires { (u < max_nodes) × (x < max_nodes) × (j < max_arcs) }
        ensures { self.new ≡ arc_put self.old u x j }
    {
        self.behind[j] = self.first[u][x];
        self.first[u][x] = ArcLink::to(j);
    }

    // whether no other arc with the ends of arc j stands behind it
    pub(crate) fn is_last(&self, j: usize) -> bool
        requires { j < max_arcs }
        ensures { result ≡ is_last self.now j }
    {
        self.behind[j].arc().is_none()
    }

    // A step from u to x, by an arc of the table that has room, if there is one.
    pub fn step(&self, residual: &Residual, u: usize, x: usize) -> Option<Step>
        requires { (u < max_nodes) × (x < max_nodes) }
        ensures { IfSome result (λ step. (step.node ≡ x) × (0 < room_of residual.now step.arc)) }
    {
        let arc = self.with_room(residual, self.first[u][x])?;
        Some(Step { node: x, arc })
    }

    // Another step with the ends of this one, by an arc behind its own that has room, if there is one.
    pub fn step_behind(&self, residual: &Residual, tried: Step) -> Option<Step>
        ensures { IfSome result (λ step. (step.node ≡ tried.node) × (0 < room_of residual.now step.arc)) }
    {
        let arc = self.with_room(residual, self.behind[tried.arc])?;
        Some(Step {
            node: tried.node,
            arc,
        })
    }

    // the first of this arc and those behind it that has room
    // Kept: a walk along a chain. By `successors`, `take` and `find` an opening takes 10 to 20 in 100 longer, since
    // these read one link more each time, and a sparse one misses its target (docs/BENCHMARKS.md, "Forms").
    fn with_room(&self, residual: &Residual, link: ArcLink) -> Option<usize>
        ensures { IfSome result (λ j. (j < max_arcs) × (0 < room_of residual.now j)) }
    {
        let mut next = link;
        for _ in 0..MAX_LINKS {
            let j = next.arc()?;
            if room(residual, j) > 0 {
                return Some(j);
            }
            next = self.behind[j];
        }
        None
    }
}
