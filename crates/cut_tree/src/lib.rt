// Cut trees (docs/SCOPE.md, 4 and 5): built by Gusfield's rule, worked out again after a change, asked for a pair and
// for their lightest edge.
#![tactic(auto)]

mod keep; // which steps are kept, and their cuts
mod lightest; // the lightest edge of a tree
mod path; // the pair query with its refusals, and whether a node reaches node 0
mod rooted; // a tree whose nodes all climb to node 0
mod rule; // one step of the rule
mod trees; // build and rebuild

pub use crate::lightest::lightest_edge;
pub use crate::path::{MAX_CLIMB, check_pair, query, reaches_root};
pub use crate::trees::{build, rebuild};
use max_flow::Cut;
use network::MAX_NODES;

// A cut tree: every node's parent, and the weight of the edge between them. Node 0 has parent 0 and weight 0.
// Kept: the C interface gives them as two arrays of a fixed length.
#[repr(C)]
#[derive(Clone, Copy, Debug, PartialEq, Eq)]
pub struct Tree {
    pub parent: [u8; MAX_NODES],
    pub weight: [u32; MAX_NODES],
}

// An edge of a tree: the node below it, and its weight. Both 0 where there is none.
// Kept: the C interface has these two fields in a plan, and no room there for an option.
#[repr(C)]
#[derive(Clone, Copy, Debug, PartialEq, Eq)]
pub struct Edge {
    pub node: u32,
    pub weight: u32,
}

// The steps that made a tree: for each node from 1 up its pivot, its least minimum cut and that cut's value.
// Kept: the C interface gives them as three arrays of a fixed length.
#[repr(C)]
#[derive(Clone, Copy, Debug, PartialEq, Eq)]
pub struct Steps {
    pub pivot: [u8; MAX_NODES],
    pub side: [u64; MAX_NODES],
    pub value: [u32; MAX_NODES],
}

// What is recorded of one step.
#[derive(Clone, Copy, Debug, PartialEq, Eq)]
pub struct Recorded {
    pub pivot: usize,
    pub cut: Cut,
}

// A tree, its steps, and how many of the steps were not kept.
#[derive(Clone, Copy, Debug, PartialEq, Eq)]
pub struct Built {
    pub tree: Tree,
    pub steps: Steps,
    pub count: u32,
}

// What a pair call finds: the lightest tree edge between s and t, the lowest number among equals, by its weight and the
// node below it, the side that holds s once that edge is cut, and how many nodes that side has.
#[derive(Clone, Copy, Debug, PartialEq, Eq)]
pub struct PairFound {
    pub weight: u32,
    pub node: usize,
    pub side: u64,
    pub size: u32,
}
