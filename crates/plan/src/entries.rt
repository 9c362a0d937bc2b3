// The stack of changes that can be undone.
ghost use Rattle.std.specs.Prelude.{◌≡◌, ◌<◌, ◌≤◌};
ghost use Rattle.network.specs.Limits.{max_links};
ghost use Rattle.plan.specs.Plan.{max_depth, no_stack, push};
ghost use Rattle.plan.specs.code.StackParts.{top_of, without_top};

use crate::{MAX_DEPTH, Stack};

// A link and a capacity of it: one that it is to get, or the one before.
#[derive(Clone, Copy)]
pub struct LinkCapacity {
    pub link: usize,
    pub capacity: u32,
}

impl Stack {
    // one of no entries
    pub fn new() -> Stack
        ensures { result ≡ no_stack }
    {
        Stack {
            depth: 0,
            link: [0; MAX_DEPTH],
            capacity: [0; MAX_DEPTH],
        }
    }

    // a link, and the capacity that it had before
    // Kept: the depth is asked to be within the arrays here and in pop, and the link to be a place of a network's, by
    // number; in the types it would be asked of all that C hands in, and of the links that `check_change` tests.
    pub(crate) fn push(&mut self, before: LinkCapacity)
        requires { (self.old.depth < max_depth) × (before.link < max_links) }
        ensures { self.new ≡ push self.old before.link before.capacity }
    {
        let top = self.depth;
        self.link[top] = before.link as u16;
        self.capacity[top] = before.capacity;
        self.depth = top + 1;
    }

    // the entry on top, taken off, if there is one
    #[tactic(auto, unfolding(crate::specs::code::StackParts::top_of, crate::specs::code::StackParts::without_top))]
    pub(crate) fn pop(&mut self) -> Option<LinkCapacity>
        requires { self.old.depth ≤ max_depth }
        ensures entry { result ≡ top_of self.old }
        ensures rest { self.new ≡ without_top self.old }
    {
        if self.depth == 0 {
            return None;
        }
        let top = self.depth - 1;
        let before = LinkCapacity {
            link: usize::from(self.link[top]),
            capacity: self.capacity[top],
        };
        self.link[top] = 0;
        self.capacity[top] = 0;
        self.depth = top;
        Some(before)
    }
}
