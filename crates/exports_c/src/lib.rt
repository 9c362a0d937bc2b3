// The archive: the functions of `exports` that C and Rust programs call (include/pamzolit.h), under the same names and
// with the same clauses. Each hands on what it is given.
// Kept: C finds only the names of the crate that is built as an archive.
#![tactic(auto)]

ghost use Rattle.std.specs.Prelude.{length, ◌≡◌};
ghost use Rattle.exports.specs.PairReply.{pair_reply};
ghost use Rattle.gate_window.specs.Reading.{no_readings, reading_of};
ghost use Rattle.listing.specs.Listing.{listed_length, listed_to};
ghost use Rattle.plan.specs.Calls.{open_of, change_of, undo_of, pair_of, preview_of, Flowed};
ghost use Rattle.plan.specs.Calls.{headroom_of, write_of, written_to};

use exports::PairReply;
use gate_window::{Window, WindowReply};
use plan::{HeadroomReply, Plan};

// ---- calls on a plan

// A file's plan; beside a refusal the place of the fault and a plan of zeros, which every call refuses.
#[unsafe(no_mangle)]
pub extern "C" fn pamzolit_open(file: &[u8], plan: &mut Plan, place: &mut usize) -> u32
    ensures { record { number = result; place = place.new; plan = plan.new }
        ≡ open_of file.now }
{
    exports::pamzolit_open(file, plan, place)
}

// A link gets a capacity; the count is of the steps that were not kept.
#[unsafe(no_mangle)]
pub extern "C" fn pamzolit_change(
    plan: &mut Plan,
    link: usize,
    capacity: u32,
    count: &mut u32,
) -> u32
    ensures { record { number = result; count = count.new; plan = plan.new }
        ≡ change_of plan.old link capacity }
{
    exports::pamzolit_change(plan, link, capacity, count)
}

// The newest change that stands is undone.
#[unsafe(no_mangle)]
pub extern "C" fn pamzolit_undo(plan: &mut Plan, count: &mut u32) -> u32
    ensures { record { number = result; count = count.new; plan = plan.new } ≡ undo_of plan.old }
{
    exports::pamzolit_undo(plan, count)
}

// The lightest edge of the tree path between two nodes.
#[unsafe(no_mangle)]
pub extern "C" fn pamzolit_pair(plan: &Plan, s: usize, t: usize, reply: &mut PairReply) -> u32
    ensures { (result ≡ (pair_reply (pair_of plan.now s t)).number)
        × (reply.new ≡ pair_reply (pair_of plan.now s t))
        × (plan.now ≡ plan.now) }
{
    exports::pamzolit_pair(plan, s, t, reply)
}

// The pair as a change would leave it; the plan stays as it is. The count is of the steps that the change would not
// keep.
#[unsafe(no_mangle)]
pub extern "C" fn pamzolit_preview(
    plan: &Plan,
    link: usize,
    capacity: u32,
    s: usize,
    t: usize,
    reply: &mut PairReply,
    count: &mut u32,
) -> u32
    ensures { let shown = preview_of plan.now link capacity s t in
        (result ≡ (pair_reply shown.answer).number) × (reply.new ≡ pair_reply shown.answer)
        × (count.new ≡ shown.count) × (plan.now ≡ plan.now) }
{
    exports::pamzolit_preview(plan, link, capacity, s, t, reply, count)
}

// The pair's weight less a demand, as a number and as text.
#[unsafe(no_mangle)]
pub extern "C" fn pamzolit_headroom(
    plan: &Plan,
    s: usize,
    t: usize,
    demand: u32,
    reply: &mut HeadroomReply,
) -> u32
    ensures { (result ≡ (headroom_of plan.now s t demand).number)
        × (reply.new ≡ headroom_of plan.now s t demand)
        × (plan.now ≡ plan.now) }
{
    exports::pamzolit_headroom(plan, s, t, demand, reply)
}

// A lawful flow of the largest total, link by link.
#[unsafe(no_mangle)]
pub extern "C" fn pamzolit_flow(plan: &Plan, s: usize, t: usize, out: &mut [i32]) -> u32
    ensures { Flowed plan.now s t out.old result out.new
        × (plan.now ≡ plan.now) }
{
    exports::pamzolit_flow(plan, s, t, out)
}

// The plan's file, into the first places of a buffer; `used` gets its length.
#[unsafe(no_mangle)]
pub extern "C" fn pamzolit_write(plan: &Plan, out: &mut [u8], used: &mut usize) -> u32
    ensures { (record { number = result; length = used.new } ≡ write_of plan.now (length out.old))
        × (out.new ≡ written_to plan.now out.old)
        × (plan.now ≡ plan.now) }
{
    exports::pamzolit_write(plan, out, used)
}

// ---- calls on a gate's record

// Makes all three numbers 0.
#[unsafe(no_mangle)]
pub extern "C" fn pamzolit_reset(window: &mut Window)
    ensures { window.new ≡ no_readings }
{
    exports::pamzolit_reset(window)
}

// A pair's headroom, noted in the record and shown: the plan is only looked at.
#[unsafe(no_mangle)]
pub extern "C" fn pamzolit_reading(
    window: &mut Window,
    plan: &Plan,
    s: usize,
    t: usize,
    demand: u32,
    reply: &mut WindowReply,
) -> u32
    ensures { let read = reading_of plan.now window.old s t demand in
        (result ≡ read.reply.number) × (window.new ≡ read.window) × (reply.new ≡ read.reply)
        × (plan.now ≡ plan.now) }
{
    exports::pamzolit_reading(window, plan, s, t, demand, reply)
}

// ---- a call on a file

// What the program `pairs` prints for a file.
#[unsafe(no_mangle)]
pub extern "C" fn pamzolit_listing(file: &[u8], out: &mut [u8]) -> usize
    ensures value { result ≡ listed_length file.now (length out.old) }
    ensures out_after { out.new ≡ listed_to file.now out.old }
{
    exports::pamzolit_listing(file, out)
}
