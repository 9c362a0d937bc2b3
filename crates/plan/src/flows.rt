// A flow shown link by link (docs/SCOPE.md, 6).
ghost use Rattle.network.specs.Refusals.{outcome_number};
ghost use Rattle.plan.specs.Calls.{Flowed};

use crate::Plan;
use network::{Refusal, ValidNetwork};

// Fills a buffer of one number for each link with a lawful flow from s to t of the largest total.
#[tactic(auto, using(crate::proofs::laws::FlowsLaws::flowing))]
pub fn flow(p: Plan, s: usize, t: usize, out: &mut [i32]) -> Result<(), Refusal>
    ensures { Flowed p s t out.old (outcome_number result) out.new }
{
    p.check_sound()?;
    cut_tree::check_pair(p.network.nodes, s, t)?;
    if out.len() != p.network.links {
        return Err(Refusal::FlowLength);
    }
    let net = ValidNetwork { network: p.network };
    max_flow::lawful_flow(net, s, t, &mut *out);
    Ok(())
}
