// Signed tenths: their difference, and their text of twelve bytes; and decimal numbers put into a buffer.
#![tactic(auto)]

ghost use Rattle.std.specs.Prelude.{nat_abs, pos, ◌-ℤ◌, ◌≡◌, length, drop, ◌++◌, ◌<◌, ◌≤◌, ◌^◌};
ghost use Rattle.text.specs.Text.{decimal, text_of};

use itoa::{Buffer, write_digits};

// The bytes of a text: a sign, nine digits, a point and a digit.
pub const TEXT_WIDTH: usize = 12;

// the point, the tenth
const POINT: usize = TEXT_WIDTH - 2;

const TENTH: usize = TEXT_WIDTH - 1;

// What is left of a weight beside a demand.
pub fn difference(weight: u32, demand: u32) -> i32
    requires { (weight < 2 ^ 31) × (demand < 2 ^ 31) }
    ensures { result ≡ pos weight -ℤ pos demand }
{
    weight as i32 - demand as i32
}

// The size of a number. Below zero the number one above is negated: the least number's own negation would not fit.
// Kept: the project's rule wants the negation written out, with its exact sign.
fn magnitude(z: i32) -> u32
    ensures value { result ≡ nat_abs z }
    ensures most { result ≤ 2 ^ 31 }
{
    if z < 0 {
        (-(z + 1)) as u32 + 1
    } else {
        z as u32
    }
}

// A number of tenths as text, with a minus before it if it is below zero.
pub fn tenths(z: i32) -> [u8; TEXT_WIDTH]
    ensures { result ≡ text_of z }
{
    let m = magnitude(z);
    let mut out = [b' '; TEXT_WIDTH];
    out[POINT] = b'.';
    out[TENTH] = b'0' + (m % 10) as u8;
    let start = write_digits((m / 10) as u64, &mut out, POINT);
    if z < 0 {
        out[start - 1] = b'-';
    }
    out
}

// Writes n in decimal at the front of a buffer, and gives how many bytes that takes.
#[tactic(auto, using(crate::proofs::laws::PlacedLaws::putting))]
pub fn put_decimal(out: &mut [u8], n: u64) -> usize
    requires { length (decimal n) ≤ length out.old }
    ensures size { result ≡ length (decimal n) }
    ensures written { out.new ≡ decimal n ++ drop (length (decimal n)) out.old }
{
    let mut buffer = Buffer::new();
    let digits = buffer.format(n).as_bytes();
    let end = digits.len();
    out[..end].copy_from_slice(digits);
    end
}
