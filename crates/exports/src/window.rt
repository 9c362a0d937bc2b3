// A gate's three numbers in the caller's memory, lent to one call after another. Every content of that memory is taken.
ghost use Rattle.std.specs.Prelude.{◌≡◌};
ghost use Rattle.gate_window.specs.Reading.{no_readings, reading_of};

use gate_window::{Window, WindowReply};
use plan::Plan;

// Makes all three numbers 0.
#[unsafe(no_mangle)]
pub extern "C" fn pamzolit_reset(window: &mut Window)
    ensures { window.new ≡ no_readings }
{
    gate_window::reset(window);
}

// A pair's headroom, noted in the record and shown: the plan is only looked at.
#[unsafe(no_mangle)]
pub extern "C" fn pamzolit_reading(
    window: &mut Window,
    plan: &Plan,
    s: usize,
    t: usize,
    demand: u32,
    reply: &mut WindowReply,
) -> u32
    ensures { let read = reading_of plan.now window.old s t demand in
        (result ≡ read.reply.number) × (window.new ≡ read.window) × (reply.new ≡ read.reply)
        × (plan.now ≡ plan.now) }
{
    *reply = WindowReply::from(gate_window::reading(window, *plan, s, t, demand));
    reply.number
}
