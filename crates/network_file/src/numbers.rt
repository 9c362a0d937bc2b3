// Numbers of a file: groups of seven bits, lowest first, one byte a group, the top bit set in all but the last byte, in
// the fewest groups.
ghost use Rattle.std.specs.Prelude.{length, ◌≡◌, ◌≤◌, ◌<◌};
ghost use Rattle.network.specs.Limits.{max_groups};
ghost use Rattle.network_file.specs.Number.{continued, read_groups, read_number, group_bytes, number_bytes};
ghost use Rattle.network_file.specs.Results.{as_number};

use crate::FileNumber;
use network::{MAX_GROUPS, Refusal};

// The number at the front of s, in at most `left` groups.
// Kept: the definition goes down `left`, too; by an iterator over the bytes the first fault in the order of the table
// of checks would have to be found among what it gives.
#[cycle(groups)]
fn read_groups(s: &[u8], left: usize) -> Result<FileNumber, Refusal>
    requires { left ≤ max_groups }
    ensures { as_number result ≡ read_groups left s.now }
{
    if left == 0 {
        return Err(Refusal::NumberTooLong);
    }
    let Some((&x, behind)) = s.split_first() else {
        return Err(Refusal::EndsEarly);
    };
    if x < 128 {
        return Ok(FileNumber {
            value: x as u32,
            size: 1,
        });
    }
    continued_by(x, behind, left - 1)
}

// The number that byte x, with its top bit set, begins, in at most `left` groups behind x. It is not inlined, so that
// the reading of a number of one byte can be.
#[cycle(groups)]
#[inline(never)]
fn continued_by(x: u8, behind: &[u8], left: usize) -> Result<FileNumber, Refusal>
    requires { (128 ≤ x) × (left < max_groups) }
    ensures { as_number result ≡ continued x (read_groups left behind.now) }
{
    let rest = read_groups(behind, left)?;
    if rest.value == 0 {
        return Err(Refusal::ZeroGroup);
    }
    Ok(FileNumber {
        value: x as u32 - 128 + 128 * rest.value,
        size: rest.size + 1,
    })
}

// The number at the front of what is left of a file.
pub fn read_number(s: &[u8]) -> Result<FileNumber, Refusal>
    ensures { as_number result ≡ read_number s.now }
{
    read_groups(s, MAX_GROUPS)
}

// How many bytes v has, in at most `left` groups.
// Kept: the definition goes down `left`, too; by `successors`, `take` and `count` the last group is tested twice.
fn groups_length(v: u32, left: usize) -> usize
    requires { left ≤ max_groups }
    ensures { result ≡ length (group_bytes left v) }
{
    if left == 0 {
        return 0;
    }
    if v < 128 {
        return 1;
    }
    groups_length(v / 128, left - 1) + 1
}

// How many bytes v has.
pub fn number_length(v: u32) -> usize
    ensures { result ≡ length (number_bytes v) }
{
    groups_length(v, MAX_GROUPS)
}
