// The gate window (docs/SCOPE.md, 6): a gate's three running numbers in a record that its caller holds, and the four
// characters that it shows. It calls the plan's headroom, and knows of it what is stated. Each contract is an equality,
// of every record: also of one that no reset made.
#![tactic(auto)]

mod shown; // the four characters
mod tally; // a reading of a record that is passed by value

ghost use Rattle.std.specs.Prelude.{◌≡◌};
ghost use Rattle.gate_window.specs.Reading.{no_readings, reading_of};
ghost use Rattle.gate_window.specs.Results.{as_reply};

pub use crate::shown::window_text;
pub use crate::tally::after_reading;
use network::Refusal;
use plan::Plan;

// the readings that a record takes between two resets
pub const MAX_READINGS: u32 = 1_000_000;

// the characters of a window
pub const WINDOW_WIDTH: usize = 4;

// The last headroom, the lowest since the last reset, and the number of readings accepted since then.
#[repr(C)]
#[derive(Clone, Copy, Debug, PartialEq, Eq)]
pub struct Window {
    pub last: i32,
    pub lowest: i32,
    pub count: u32,
}

impl Window {
    // one of no readings
    pub fn new() -> Window
        ensures { result ≡ no_readings }
    {
        Window {
            last: 0,
            lowest: 0,
            count: 0,
        }
    }
}

// What C gets of a reading: a refusal's number, or 0, and what the window shows, four spaces beside a refusal.
// Kept: the C interface has the number beside the text.
#[repr(C)]
#[derive(Clone, Copy, Debug, PartialEq, Eq)]
pub struct WindowReply {
    pub number: u32,
    pub text: [u8; WINDOW_WIDTH],
}

// Kept: a generic reply of a number and a value would serve two of C's three (a pair's weight stands at 4), and needs a
// trait for the value beside a refusal, and a struct of the text, since an array gets no such `impl` here, in place of
// this one `match`.
impl From<Result<[u8; WINDOW_WIDTH], Refusal>> for WindowReply {
    ghost from_gives = { λ r reply. reply ≡ as_reply r };

    fn from(shown: Result<[u8; WINDOW_WIDTH], Refusal>) -> WindowReply {
        match shown {
            Ok(text) => WindowReply { number: 0, text },
            Err(refusal) => WindowReply {
                number: refusal.number(),
                text: [b' '; WINDOW_WIDTH],
            },
        }
    }
}

// What a reading leaves of the record that it was given, and what the window shows.
#[derive(Clone, Copy, Debug, PartialEq, Eq)]
pub struct Noted {
    pub window: Window,
    pub text: [u8; WINDOW_WIDTH],
}

// Makes all three numbers 0.
pub fn reset(w: &mut Window)
    ensures { w.new ≡ no_readings }
{
    *w = Window::new();
}

// The plan's headroom between s and t beside a demand, noted in the record and shown. Refused, the record stays.
pub fn reading(
    w: &mut Window,
    p: Plan,
    s: usize,
    t: usize,
    demand: u32,
) -> Result<[u8; WINDOW_WIDTH], Refusal>
    ensures { record { window = w.new; reply = as_reply result } ≡ reading_of p w.old s t demand }
{
    let noted = after_reading(p, *w, s, t, demand)?;
    *w = noted.window;
    Ok(noted.text)
}
