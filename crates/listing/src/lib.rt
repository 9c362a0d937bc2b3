// What the program `pairs` prints for a file.
#![tactic(auto)]

mod line; // a word and numbers
mod lines; // the lines of a file

ghost use Rattle.std.specs.Prelude.{◌≡◌, length};
ghost use Rattle.listing.specs.Listing.{listed, listed_to};

use crate::line::Lines;
use network::MAX_NODES;

// So many bytes of a file are listed as the whole file is.
pub const MAX_READ: usize = network_file::MAX_FILE + 1;
// A line: a word of four bytes and four numbers of 64 bits, each with a space before it.
const MAX_DIGITS: usize = 20;

const MAX_LINE: usize = 4 + 4 * (1 + MAX_DIGITS);
// A buffer of this length holds every listing: a line for each node, and for every two.
pub const MAX_LISTING: usize = MAX_LINE * (MAX_NODES + MAX_NODES * (MAX_NODES - 1) / 2);
// What C is answered of a shorter buffer.
// Kept: the C interface has a length or this number.
pub const NOT_LISTED: usize = 0xffff_ffff_ffff_ffff;

// Writes the listing of a file into the first bytes of a buffer, leaves the rest, and gives its length. A buffer that
// is shorter than MAX_LISTING is left as it is.
pub fn listing(file: &[u8], out: &mut [u8]) -> Option<usize>
    ensures value { result ≡ listed file.now (length out.old) }
    ensures out_after { out.new ≡ listed_to file.now out.old }
{
    if out.len() < MAX_LISTING {
        return None;
    }
    let mut lines = Lines::new(out);
    lines.file(file);
    Some(lines.place)
}
