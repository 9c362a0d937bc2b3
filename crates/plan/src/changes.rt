// Changes of a capacity, and their undoing (docs/SCOPE.md, 5).
ghost use Rattle.std.specs.Prelude.{Ok, ◌≡◌};
ghost use Rattle.cut_tree.specs.code.RebuildParts.{Changes};
ghost use Rattle.plan.specs.Calls.{altered, change_of, undo_of};
ghost use Rattle.plan.specs.Results.{as_changed};

use crate::checks::check_change;
use crate::entries::LinkCapacity;
use crate::files::plan_of;
use crate::{Altered, Plan, Stack};
use network::{Refusal, ValidNetwork};

// A link to a capacity, with the stack as given: the tree is worked out again, and the steps that can be kept are.
// Kept: link and capacity are asked to be a network's, by number, as `cut_tree::rebuild` asks them.
#[tactic(auto, unfolding(crate::specs::Calls::altered))]
fn altered(p: Plan, new: LinkCapacity, stack: Stack) -> Altered
    requires { Changes p.network new.link new.capacity }
    ensures { as_changed p (Ok result) ≡ altered p new.link new.capacity stack }
{
    let net = ValidNetwork { network: p.network };
    let built = cut_tree::rebuild(net, p.steps, new.link, new.capacity);
    let changed = net.with_capacity(new.link, new.capacity);
    Altered {
        plan: plan_of(changed, built, stack),
        count: built.count,
    }
}

// Link k gets capacity c; the link and its capacity before go on the stack.
#[tactic(auto, using(crate::proofs::laws::ChangesLaws::changing))]
pub fn change(p: Plan, k: usize, c: u32) -> Result<Altered, Refusal>
    ensures { as_changed p result ≡ change_of p k c }
{
    let new = LinkCapacity {
        link: k,
        capacity: c,
    };
    check_change(p, new)?;
    let mut stack = p.stack;
    stack.push(LinkCapacity {
        link: k,
        capacity: p.network.capacity[k],
    });
    Ok(altered(p, new, stack))
}

// The last change that stands is taken back: the same work towards the capacity on top of the stack.
#[tactic(auto, using(crate::proofs::laws::ChangesLaws::undoing))]
pub fn undo(p: Plan) -> Result<Altered, Refusal>
    ensures { as_changed p result ≡ undo_of p }
{
    p.check_sound()?;
    let mut stack = p.stack;
    let Some(before) = stack.pop() else {
        return Err(Refusal::NothingToUndo);
    };
    Ok(altered(p, before, stack))
}
