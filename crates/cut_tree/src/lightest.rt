// The lightest edge of a tree: one pass over the weights.
ghost use Rattle.std.specs.Prelude.{◌≡◌, ◌<◌, ◌≤◌};
ghost use Rattle.network.specs.Limits.{max_nodes};
ghost use Rattle.cut_tree.specs.LightestEdge.{lightest_among, no_edge};

use crate::Edge;
use network::MAX_NODES;

impl Edge {
    pub fn none() -> Edge
        ensures { result ≡ no_edge }
    {
        Edge { node: 0, weight: 0 }
    }
}

// Of n nodes with these weights: the node from 1 up whose edge is lightest, the lowest among equals, and its weight.
// Of equal weights the first is found.
// Kept: a slice would still have to be of at most MAX_NODES weights, as far as `lightest_of` looks, and its callers
// would have to show that the first n weights have the lightest edge that the array has.
#[tactic(auto, using(crate::proofs::laws::FirstLightestLaws::no_lightest))]
pub fn lightest_edge(weight: &[u32; MAX_NODES], n: usize) -> Edge
    requires { n ≤ max_nodes }
    ensures { result ≡ lightest_among n weight.now }
{
    match (1..n).min_by_key(|&i| weight[i]) {
        Some(best) => Edge {
            node: best as u32,
            weight: weight[best],
        },
        None => Edge::none(),
    }
}
