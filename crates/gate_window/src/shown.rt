// The four characters of a window: the right end of the headroom's text where it fits, else LOW or HIGH.
ghost use Rattle.std.specs.Prelude.{drop, ◌≡◌};
ghost use Rattle.gate_window.specs.Shown.{window_text};

use crate::WINDOW_WIDTH;
use text::TEXT_WIDTH;

// -9.9 and 99.9, in tenths
const LOWEST_SHOWN: i32 = -99;

const HIGHEST_SHOWN: i32 = 999;

fn last_four(whole: [u8; TEXT_WIDTH]) -> [u8; WINDOW_WIDTH]
    ensures { result ≡ drop 8 whole }
{
    *whole.last_chunk().unwrap()
}

// What the window shows of a headroom.
pub fn window_text(headroom: i32) -> [u8; WINDOW_WIDTH]
    ensures { result ≡ window_text headroom }
{
    if headroom < LOWEST_SHOWN {
        return *b"LOW ";
    }
    if headroom > HIGHEST_SHOWN {
        return *b"HIGH";
    }
    last_four(text::tenths(headroom))
}
