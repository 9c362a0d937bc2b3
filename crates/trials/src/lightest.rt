// The lightest edge that a plan holds, judged by the tree's edges one by one and by a trial of every side.
use crate::sides::Sides;
use cut_tree::Edge;
use plan::Plan;

// Whether it is the lightest edge of the plan's tree, of equals the one with the lowest number; with one node, whether
// both its numbers are 0.
pub fn lightest_right(p: &Plan) -> bool {
    let Edge { node, weight } = p.lightest;
    let weights = p.tree.weight.iter().enumerate().take(p.network.nodes);
    let edges = weights.skip(1).map(|(v, &w)| (w, v));
    edges.min().unwrap_or((0, 0)) == (weight, node as usize)
}

// Whether its weight is the smallest value of all sides that are neither empty nor all nodes; with one node there is
// none.
pub fn least_right(p: &Plan, sides: &Sides) -> bool {
    p.network.nodes < 2 || sides.least() == Some(p.lightest.weight)
}
