// What C and Rust programs call (include/pamzolit.h). Each function takes every input.
#![tactic(auto)]

mod held; // a plan that the caller holds
mod window; // a gate's record that the caller holds

ghost use Rattle.std.specs.Prelude.{length, ◌≡◌};
ghost use Rattle.listing.specs.Listing.{listed_length, listed_to};

pub use crate::held::{
    PairReply, pamzolit_change, pamzolit_flow, pamzolit_headroom, pamzolit_open, pamzolit_pair,
    pamzolit_preview, pamzolit_undo, pamzolit_write,
};
pub use crate::window::{pamzolit_reading, pamzolit_reset};
use listing::NOT_LISTED;

// What the program `pairs` prints for a file.
#[unsafe(no_mangle)]
pub extern "C" fn pamzolit_listing(file: &[u8], out: &mut [u8]) -> usize
    ensures value { result ≡ listed_length file.now (length out.old) }
    ensures out_after { out.new ≡ listed_to file.now out.old }
{
    listing::listing(file, out).unwrap_or(NOT_LISTED)
}
