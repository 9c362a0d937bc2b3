// A pair as a change would leave it (docs/SCOPE.md, 6): the tree is worked out for the new capacity, the pair is asked
// of it, and nothing is stacked or given back.
ghost use Rattle.std.specs.Prelude.{◌≡◌};
ghost use Rattle.plan.specs.Calls.{preview_of};
ghost use Rattle.plan.specs.Results.{as_preview};

use crate::checks::check_preview;
use crate::entries::LinkCapacity;
use crate::{Plan, PreviewFound};
use network::{Refusal, ValidNetwork};

// All refusals come before any work. A change leaves a sound plan sound, so the copy is not tested again.
#[tactic(auto, using(crate::proofs::laws::PreviewLaws::previewing))]
pub fn preview(p: Plan, k: usize, c: u32, s: usize, t: usize) -> Result<PreviewFound, Refusal>
    ensures { as_preview result ≡ preview_of p k c s t }
{
    let new = LinkCapacity {
        link: k,
        capacity: c,
    };
    check_preview(p, new, s, t)?;
    let net = ValidNetwork { network: p.network };
    let built = cut_tree::rebuild(net, p.steps, k, c);
    let pair = cut_tree::query(built.tree, p.network.nodes, s, t)?;
    Ok(PreviewFound {
        pair,
        count: built.count,
    })
}
