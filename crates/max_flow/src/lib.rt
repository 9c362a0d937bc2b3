// Minimum cuts and maximum flows between two nodes of a network (docs/SCOPE.md, 3 and 4).
#![tactic(auto)]

mod augment; // flow sent until no search reaches the sink
mod ends; // two nodes, and the network that they are of
mod flow; // the flow as it grows
mod flows; // what each link carries
mod prepared; // what the cuts of one network share
mod residual; // residual capacities
mod search; // the search for an augmenting path
mod send; // flow sent in phases, along the hints
#[cfg(test)]
mod tests; // a network prepared and asked

ghost use Rattle.std.specs.Prelude.{length, ◌≡◌, ◌≤◌};
ghost use Rattle.max_flow.specs.code.Augment.{Augmented};
ghost use Rattle.max_flow.specs.LargestFlow.{LargestFlow};
ghost use Rattle.max_flow.specs.LeastCut.{Endpoints, least_cut_of};

use crate::ends::Ends;
pub use crate::prepared::{Prepared, PreparedRef, least_cut_by};
pub use crate::residual::full_residual;
pub use flow_hints::{ArcTable, Hints};
use network::{ValidNetwork, incidence_of};

// A cut: one of its sides, and its value.
#[derive(Clone, Copy, Debug, PartialEq, Eq)]
pub struct Cut {
    pub side: u64,
    pub value: u32,
}

// The least minimum cut of (s, t), and a flow of its value: a number for each link, where `out` has that many places.
// Which flow is left open.
#[tactic(auto, using(network::proofs::laws::NetworkLaws::nodes_le, crate::proofs::code::Scan::two_of))]
fn augment_net(net: ValidNetwork, s: usize, t: usize, out: &mut [i32]) -> Cut
    requires endpoints { Endpoints net.network s t }
    requires out_len { length out.old ≤ net.network.links }
    ensures { Augmented net.network s t result out.old out.new }
{
    let arcs = incidence_of(net);
    let mut table = ArcTable::none();
    table.fill(net);
    let full = full_residual(net);
    let start = Hints::start(net);
    let ends = Ends {
        arcs: &arcs,
        table: &table,
        full: &full,
        start: &start,
        s,
        t,
    };
    ends.augment(out)
}

// The least minimum cut of (s, t) (the paper: the least side), with its value.
// Kept: what is public asks that s and t are two nodes of the network: a caller has them by number, and would show the
// same where it makes a struct of them.
pub fn least_min_cut(net: ValidNetwork, s: usize, t: usize) -> Cut
    requires { Endpoints net.network s t }
    ensures { result ≡ least_cut_of net.network s t }
{
    let mut none = [0i32; 0];
    augment_net(net, s, t, &mut none)
}

// A lawful flow from s to t of the largest total, a number for each link. Which one is left open.
pub fn lawful_flow(net: ValidNetwork, s: usize, t: usize, out: &mut [i32])
    requires endpoints { Endpoints net.network s t }
    requires out_len { length out.old ≡ net.network.links }
    ensures { LargestFlow net.network s t out.new }
{
    let _cut = augment_net(net, s, t, out);
}
