// Headrooms and their text (docs/SCOPE.md, 6), written a second time.
use arrayvec::ArrayString;
use network::Refusal;
use plan::{HeadroomFound, HeadroomReply};
use std::fmt::Write;

// Room for a text of every number of tenths.
pub const TEXT_ROOM: usize = 24;

// So many tenths, below zero with a minus.
pub fn tenths(headroom: i64) -> ArrayString<TEXT_ROOM> {
    let sign = if headroom < 0 { "-" } else { "" };
    let size = headroom.unsigned_abs();
    let mut text = ArrayString::new();
    let _fits = write!(text, "{sign}{}.{}", size / 10, size % 10);
    text
}

// Whether a headroom is the weight less the demand, with its text; refused, as C gets it, 0 and twelve spaces.
// Kept: a number is compared, since the `From` that makes C's reply is tried here too.
pub fn headroom_right(
    found: Result<HeadroomFound, Refusal>,
    weight: Option<u32>,
    demand: u32,
) -> bool {
    let reply = HeadroomReply::from(found);
    match (found, weight) {
        (Ok(_), Some(weight)) => {
            let headroom = weight as i64 - demand as i64;
            let mut text: ArrayString<TEXT_ROOM> = ArrayString::new();
            let _fits = write!(text, "{:>12}", tenths(headroom));
            reply.number == 0
                && reply.value as i64 == headroom
                && reply.text.as_slice() == text.as_bytes()
        }
        (Ok(_), None) => false,
        (Err(refusal), _) => {
            reply.number == refusal.number() && reply.value == 0 && reply.text == [b' '; 12]
        }
    }
}
