// Whether a change or a preview is refused, in the order of the table of checks.
ghost use Rattle.std.specs.Prelude.{◌≡◌};
ghost use Rattle.network.specs.Refusals.{outcome_number};
ghost use Rattle.plan.specs.Calls.{change_number, preview_number};

use crate::entries::LinkCapacity;
use crate::{MAX_DEPTH, Plan};
use network::{MAX_CAPACITY, Refusal};

// Whether a change is refused.
// Kept: a plan and what is to be changed of it go side by side, here, in `check_preview` and in `altered`, as in every
// call: a struct of both would be made in each and taken apart in it.
#[tactic(auto, unfolding(crate::specs::Calls::change_number))]
pub fn check_change(p: Plan, new: LinkCapacity) -> Result<(), Refusal>
    ensures { outcome_number result ≡ change_number p new.link new.capacity }
{
    p.check_sound()?;
    if new.link >= p.network.links {
        return Err(Refusal::NoSuchLink);
    }
    if new.capacity > MAX_CAPACITY {
        return Err(Refusal::CapacityTooLarge);
    }
    if p.stack.depth == MAX_DEPTH {
        return Err(Refusal::StackFull);
    }
    Ok(())
}

// A change's, and then a pair's.
#[tactic(auto, using(crate::proofs::laws::PreviewLaws::checking))]
pub fn check_preview(p: Plan, new: LinkCapacity, s: usize, t: usize) -> Result<(), Refusal>
    ensures { outcome_number result ≡ preview_number p new.link new.capacity s t }
{
    check_change(p, new)?;
    cut_tree::check_pair(p.network.nodes, s, t)
}
