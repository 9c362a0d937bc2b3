// Pairs and headrooms (docs/SCOPE.md, 6).
ghost use Rattle.std.specs.Prelude.{◌≡◌};
ghost use Rattle.cut_tree.specs.Results.{as_answer};
ghost use Rattle.plan.specs.Calls.{pair_of, headroom_of};
ghost use Rattle.plan.specs.Results.{as_headroom};

use crate::{HeadroomFound, HeadroomReply, Plan};
use cut_tree::PairFound;
use network::Refusal;
use text::TEXT_WIDTH;

// the highest demand (the paper: need) of a headroom
pub const MAX_DEMAND: u32 = 1_000_000_000;

// The lightest edge of the tree path between s and t, the lowest number among equals, with the side that holds s once
// that edge is cut.
// Kept: this call and the others take a plan, two nodes, a link and a capacity one by one, as C's calls do, which hand
// them on.
#[tactic(auto, using(crate::proofs::laws::AnswersLaws::pairing))]
pub fn pair(p: Plan, s: usize, t: usize) -> Result<PairFound, Refusal>
    ensures { as_answer result ≡ pair_of p s t }
{
    p.check_sound()?;
    cut_tree::query(p.tree, p.network.nodes, s, t)
}

// What the pair's weight leaves beside a demand, signed, with its text. The pair's own checks come first.
#[tactic(auto, using(crate::proofs::laws::AnswersLaws::headrooms))]
pub fn headroom(p: Plan, s: usize, t: usize, demand: u32) -> Result<HeadroomFound, Refusal>
    ensures { as_headroom result ≡ headroom_of p s t demand }
{
    let weight = pair(p, s, t)?.weight;
    if demand > MAX_DEMAND {
        return Err(Refusal::DemandTooLarge);
    }
    let value = text::difference(weight, demand);
    Ok(HeadroomFound {
        value,
        text: text::tenths(value),
    })
}

// Kept: a generic reply of a number and a value would serve two of C's three (a pair's weight stands at 4), and needs a
// trait for the value beside a refusal, with an `impl` for each of the two, in place of this one `match`.
impl From<Result<HeadroomFound, Refusal>> for HeadroomReply {
    ghost from_gives = { λ r reply. reply ≡ as_headroom r };

    fn from(found: Result<HeadroomFound, Refusal>) -> HeadroomReply {
        match found {
            Ok(x) => {
                let text = x.text;
                HeadroomReply {
                    number: 0,
                    value: x.value,
                    text,
                }
            }
            Err(refusal) => HeadroomReply {
                number: refusal.number(),
                value: 0,
                text: [b' '; TEXT_WIDTH],
            },
        }
    }
}
