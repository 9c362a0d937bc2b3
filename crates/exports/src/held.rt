// A plan in the caller's memory, lent to one call after another. Every content of that memory is taken: a plan that is
// not sound is refused with 19. Each function gives its refusal number, or 0. The work is done by value in `plan`; here
// the plan is copied out, and what comes back is stored.
ghost use Rattle.std.specs.Prelude.{length, ◌≡◌};
ghost use Rattle.network.specs.Refusals.{outcome_number};
ghost use Rattle.cut_tree.specs.Results.{as_answer};
ghost use Rattle.exports.specs.PairReply.{pair_reply};
ghost use Rattle.plan.specs.Calls.{open_of, change_of, undo_of, pair_of, preview_of, Flowed};
ghost use Rattle.plan.specs.Calls.{headroom_of, write_of, written_to};
ghost use Rattle.plan.specs.Results.{as_changed};

use cut_tree::PairFound;
use network::Refusal;
use plan::{Altered, HeadroomReply, Plan};

// A pair's answer as numbers: zeros beside a refusal.
// Kept: the C interface has no `Result`.
#[repr(C)]
#[derive(Clone, Copy, Debug, PartialEq, Eq)]
pub struct PairReply {
    pub number: u32,
    pub weight: u32,
    pub side: u64,
    pub node: usize,
    pub size: usize,
}

// Kept: C has three such replies and each is flat: in a `Reply<T>` of a number and a `T` a pair's weight (`PairReply`)
// would stand at 8 and not at 4; and a trait of replies asks for two functions in place of this one `match`.
impl From<Result<PairFound, Refusal>> for PairReply {
    ghost from_gives = { λ r reply. reply ≡ pair_reply (as_answer r) };

    fn from(answer: Result<PairFound, Refusal>) -> PairReply {
        match answer {
            Ok(found) => PairReply {
                number: 0,
                weight: found.weight,
                side: found.side,
                node: found.node,
                size: found.size as usize,
            },
            Err(refusal) => {
                let number = refusal.number();
                PairReply {
                    number,
                    weight: 0,
                    side: 0,
                    node: 0,
                    size: 0,
                }
            }
        }
    }
}

// The number of a call's result: 0, accepted, or the refusal's.
// Kept: the C interface has numbers for refusals.
fn number_of<T>(outcome: &Result<T, Refusal>) -> u32
    ensures { result ≡ outcome_number outcome.now }
{
    match outcome {
        Ok(_) => 0,
        Err(refusal) => refusal.number(),
    }
}

// A file's plan; beside a refusal the place of the fault and a plan of zeros, which every call refuses.
// Kept: the C interface has a number, and behind pointers what comes with it.
#[unsafe(no_mangle)]
pub extern "C" fn pamzolit_open(file: &[u8], plan: &mut Plan, place: &mut usize) -> u32
    ensures { record { number = result; place = place.new; plan = plan.new }
        ≡ open_of file.now }
{
    match plan::open(file) {
        Ok(opened) => {
            *plan = opened;
            *place = 0;
            0
        }
        Err(fault) => {
            *plan = plan::no_plan();
            *place = fault.place;
            fault.refusal.number()
        }
    }
}

// Stores what a change or an undo leaves; refused, the plan stays and the count is 0.
// Kept: the C interface has a number, and behind pointers what comes with it, here and in the two calls below.
fn store(altered: Result<Altered, Refusal>, plan: &mut Plan, count: &mut u32) -> u32
    ensures { as_changed plan.old altered
        ≡ record { number = result; count = count.new; plan = plan.new } }
{
    match altered {
        Ok(altered) => {
            *plan = altered.plan;
            *count = altered.count;
            0
        }
        Err(refusal) => {
            *count = 0;
            refusal.number()
        }
    }
}

// A link gets a capacity; the count is of the steps that were not kept.
#[unsafe(no_mangle)]
pub extern "C" fn pamzolit_change(
    plan: &mut Plan,
    link: usize,
    capacity: u32,
    count: &mut u32,
) -> u32
    ensures { record { number = result; count = count.new; plan = plan.new }
        ≡ change_of plan.old link capacity }
{
    store(plan::change(*plan, link, capacity), plan, count)
}

// The newest change that stands is undone.
#[unsafe(no_mangle)]
pub extern "C" fn pamzolit_undo(plan: &mut Plan, count: &mut u32) -> u32
    ensures { record { number = result; count = count.new; plan = plan.new } ≡ undo_of plan.old }
{
    store(plan::undo(*plan), plan, count)
}

// The lightest edge of the tree path between two nodes.
#[unsafe(no_mangle)]
pub extern "C" fn pamzolit_pair(plan: &Plan, s: usize, t: usize, reply: &mut PairReply) -> u32
    ensures { (result ≡ (pair_reply (pair_of plan.now s t)).number)
        × (reply.new ≡ pair_reply (pair_of plan.now s t))
        × (plan.now ≡ plan.now) }
{
    *reply = PairReply::from(plan::pair(*plan, s, t));
    reply.number
}

// The pair as a change would leave it; the plan stays as it is. The count is of the steps that the change would not
// keep.
#[unsafe(no_mangle)]
pub extern "C" fn pamzolit_preview(
    plan: &Plan,
    link: usize,
    capacity: u32,
    s: usize,
    t: usize,
    reply: &mut PairReply,
    count: &mut u32,
) -> u32
    ensures { let shown = preview_of plan.now link capacity s t in
        (result ≡ (pair_reply shown.answer).number) × (reply.new ≡ pair_reply shown.answer)
        × (count.new ≡ shown.count) × (plan.now ≡ plan.now) }
{
    let found = plan::preview(*plan, link, capacity, s, t);
    *reply = PairReply::from(found.map(|found| found.pair));
    *count = found.map_or(0, |found| found.count);
    number_of(&found)
}

// The pair's weight less a demand, as a number and as text.
#[unsafe(no_mangle)]
pub extern "C" fn pamzolit_headroom(
    plan: &Plan,
    s: usize,
    t: usize,
    demand: u32,
    reply: &mut HeadroomReply,
) -> u32
    ensures { (result ≡ (headroom_of plan.now s t demand).number)
        × (reply.new ≡ headroom_of plan.now s t demand)
        × (plan.now ≡ plan.now) }
{
    *reply = HeadroomReply::from(plan::headroom(*plan, s, t, demand));
    reply.number
}

// A lawful flow of the largest total, link by link.
#[unsafe(no_mangle)]
pub extern "C" fn pamzolit_flow(plan: &Plan, s: usize, t: usize, out: &mut [i32]) -> u32
    ensures { Flowed plan.now s t out.old result out.new
        × (plan.now ≡ plan.now) }
{
    number_of(&plan::flow(*plan, s, t, out))
}

// The plan's file, into the first places of a buffer; `used` gets its length.
#[unsafe(no_mangle)]
pub extern "C" fn pamzolit_write(plan: &Plan, out: &mut [u8], used: &mut usize) -> u32
    ensures { (record { number = result; length = used.new } ≡ write_of plan.now (length out.old))
        × (out.new ≡ written_to plan.now out.old)
        × (plan.now ≡ plan.now) }
{
    let written = plan::write(*plan, out);
    *used = written.unwrap_or(0);
    number_of(&written)
}
