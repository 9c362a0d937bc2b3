// A reading of a record that is passed by value: the headroom's checks, then the record's own, then the three numbers.
ghost use Rattle.std.specs.Prelude.{◌≡◌, ◌<◌};
ghost use Rattle.gate_window.specs.Reading.{max_readings, lowest_by, noted, reading_of};
ghost use Rattle.gate_window.specs.Results.{as_updated};

use crate::shown::window_text;
use crate::{MAX_READINGS, Noted, Window};
use network::Refusal;
use plan::Plan;

impl Window {
    // The first reading sets the lowest, whatever stands there.
    // Kept: C's record has three numbers and no room for an option: a count of 0 says that there is no lowest yet.
    fn lowest_by(self, headroom: i32) -> i32
        ensures { result ≡ lowest_by self.count self.lowest headroom }
    {
        if self.count == 0 {
            return headroom;
        }
        headroom.min(self.lowest)
    }

    // One more reading, accepted.
    fn noted(self, headroom: i32) -> Window
        requires { self.count < max_readings }
        ensures { result ≡ noted self headroom }
    {
        Window {
            last: headroom,
            lowest: self.lowest_by(headroom),
            count: self.count + 1,
        }
    }
}

// The same of a record that is passed by value: what a reading leaves of it, and what the window shows.
pub fn after_reading(p: Plan, w: Window, s: usize, t: usize, demand: u32) -> Result<Noted, Refusal>
    ensures { as_updated w result ≡ reading_of p w s t demand }
{
    let left = plan::headroom(p, s, t, demand)?;
    if w.count >= MAX_READINGS {
        return Err(Refusal::TooManyReadings);
    }
    let window = w.noted(left.value);
    let text = window_text(left.value);
    Ok(Noted { window, text })
}
