// The link plan (docs/SCOPE.md): a network with its cut tree and the changes that can be undone. Each call's contract
// is the definition of its name in specs/Calls.antt, and holds of every input.
#![tactic(auto)]

mod answers; // pairs and headrooms
mod changes; // change and undo
mod checks; // refusals of a change and of a preview
mod entries; // the stack's entries, pushed and popped
mod files; // opening and writing
mod flows; // the flow call
mod node_count; // how many nodes a network within the limits has
mod previews; // a pair as a change would leave it
mod sound; // number 19: the shape of a plan

pub use crate::answers::{MAX_DEMAND, headroom, pair};
pub use crate::changes::{change, undo};
pub use crate::files::{no_plan, open, write};
pub use crate::flows::flow;
pub use crate::previews::preview;
use cut_tree::{Edge, PairFound, Steps, Tree};
use network::Network;
use text::TEXT_WIDTH;

// entries of the stack
pub const MAX_DEPTH: usize = 64;

// Changes that can be undone: entry i is a link and the capacity that it had before; the top is entry depth - 1. Unused
// places are 0.
// Kept: the C interface gives the entries as arrays of a fixed length, and how many there are.
#[repr(C)]
#[derive(Clone, Copy, Debug, PartialEq, Eq)]
pub struct Stack {
    pub depth: usize,
    pub link: [u16; MAX_DEPTH],
    pub capacity: [u32; MAX_DEPTH],
}

// A network with its cut tree, the steps that made the tree, the changes that can be undone, and the tree's lightest
// edge.
#[repr(C)]
#[derive(Clone, Copy, Debug, PartialEq, Eq)]
pub struct Plan {
    pub network: Network,
    pub tree: Tree,
    pub steps: Steps,
    pub stack: Stack,
    pub lightest: Edge,
}

// What a change or an undo leaves: the plan, and how many steps of its tree were not kept.
#[derive(Clone, Copy, Debug, PartialEq, Eq)]
pub struct Altered {
    pub plan: Plan,
    pub count: u32,
}

// A pair as a change would leave it, and how many steps the change would not keep.
#[derive(Clone, Copy, Debug, PartialEq, Eq)]
pub struct PreviewFound {
    pub pair: PairFound,
    pub count: u32,
}

// A headroom in tenths, and its text.
#[derive(Clone, Copy, Debug, PartialEq, Eq)]
pub struct HeadroomFound {
    pub value: i32,
    pub text: [u8; TEXT_WIDTH],
}

// The same as C gets it: a refusal's number, or 0, beside it; refused, 0 and spaces.
// Kept: the C interface has no `Result`.
#[repr(C)]
#[derive(Clone, Copy, Debug, PartialEq, Eq)]
pub struct HeadroomReply {
    pub number: u32,
    pub value: i32,
    pub text: [u8; TEXT_WIDTH],
}
