// The file of a network: numbers, a file read into a network, a network written into a file.
#![tactic(auto)]

mod numbers; // numbers in groups of seven bits
mod reader; // a file read into a network
mod rows; // what a number has to pass
mod writer; // a network written into a file

ghost use Rattle.std.specs.Prelude.{◌≡◌};
ghost use Rattle.network_file.specs.Writing.{max_file};

use network::{MAX_CAPACITY, MAX_LINKS, MAX_NODES, Refusal};

// The bytes of the highest n, m, end and capacity: one, and one more for each further group of seven bits.
// Kept: a constant may call no function here, and a macro for four sums of two to five terms, one of which tests
// otherwise, would be no shorter than they are.
const NODES_BYTES: usize = 1 + (MAX_NODES >= 1 << 7) as usize;

const LINKS_BYTES: usize = 1 + (MAX_LINKS >= 1 << 7) as usize + (MAX_LINKS >= 1 << 14) as usize;

const END_BYTES: usize = 1 + (MAX_NODES > 1 << 7) as usize;

const CAPACITY_BYTES: usize = 1
    + (MAX_CAPACITY >= 1 << 7) as usize
    + (MAX_CAPACITY >= 1 << 14) as usize
    + (MAX_CAPACITY >= 1 << 21) as usize
    + (MAX_CAPACITY >= 1 << 28) as usize;

// The bytes of the longest file.
pub const MAX_FILE: usize = NODES_BYTES
    + LINKS_BYTES
    + MAX_LINKS * (2 * END_BYTES + CAPACITY_BYTES);

pub use numbers::read_number;
pub use reader::read;
pub use writer::{file_length, write};

// The constant is the definition's.
pub fn max_file() -> usize
    ensures { result ≡ max_file }
{
    MAX_FILE
}

// A number of the file, and how many bytes it has.
#[derive(Clone, Copy, Debug, PartialEq, Eq)]
pub struct FileNumber {
    pub value: u32,
    pub size: usize,
}

// Why a file is refused, and the place of the fault.
#[derive(Clone, Copy, Debug, PartialEq, Eq)]
pub struct Fault {
    pub refusal: Refusal,
    pub place: usize,
}

// What a number of the file has to pass: n; at most so much, or it is refused so; an end; the other end of a.
#[derive(Clone, Copy)]
enum Row {
    Nodes,
    AtMost { most: u32, refusal: Refusal },
    End { n: usize },
    OtherEnd { n: usize, a: u32 },
}
