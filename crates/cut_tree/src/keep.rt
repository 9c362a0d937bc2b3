// The steps that can be kept as one capacity changes (docs/SCOPE.md, 5).
ghost use Rattle.std.specs.Prelude.{◌<◌};
ghost use Rattle.network.specs.Limits.{max_nodes};

use crate::Recorded;
use max_flow::Cut;
use network::Link;
use std::cmp::Ordering;

// A link, whose capacity goes to `new`.
#[derive(Clone, Copy)]
pub struct Change {
    pub link: Link,
    pub new: u32,
    // its ends are nodes
    pub ghost ends: { (link.a < max_nodes) × (link.b < max_nodes) },
}

impl Change {
    ghost use Rattle.std.specs.Prelude.{◌≡◌};
    ghost use Rattle.cut_tree.specs.code.RebuildParts.{survived, kept};

    // Whether the cut of a step survives the change: the capacity is equal; or it rises and the side does not cross
    // the link; or it falls, the side crosses the link and its value is at least the fall.
    #[tactic(auto, using(crate::proofs::laws::TakingLaws::surviving))]
    fn survives(self, step: Recorded) -> bool
        ensures { result ≡ survived self step.cut.side step.cut.value }
    {
        let old = self.link.capacity;
        match old.cmp(&self.new) {
            Ordering::Equal => true,
            Ordering::Less => !self.link.crosses(step.cut.side),
            Ordering::Greater => self.link.crosses(step.cut.side)
                && old - self.new <= step.cut.value,
        }
    }

    // The cut of a step, whose pivot is now t, where it is kept: its value is less by the fall.
    #[tactic(auto, using(crate::proofs::laws::TakingLaws::keeping))]
    pub(crate) fn kept(self, step: Recorded, t: usize) -> Option<Cut>
        ensures { result ≡ kept self step t }
    {
        if step.pivot != t || !self.survives(step) {
            return None;
        }
        Some(Cut {
            side: step.cut.side,
            value: step.cut.value - self.link.capacity.saturating_sub(self.new),
        })
    }
}
