// What opening and writing do with files. These are written a second time here: n, m, then a, b, c for each link, each
// number in groups of seven bits, lowest first.
use arrayvec::ArrayVec;
use network::{Network, Refusal};
use network_file::{Fault, MAX_FILE};
use plan::{Plan, Stack};

// The bytes of the longest file, and one more.
const ROOM: usize = MAX_FILE + 1;

// A file, with a byte more or not.
pub type File = ArrayVec<u8, ROOM>;

// What stands in a buffer where nothing is written.
const UNWRITTEN: u8 = 170;

// Kept: `for rest in successors(Some(number), |rest| (*rest > 127).then_some(*rest / 128))` asks a second time, in its
// body, whether a group is the last, and has to be shown to end.
fn push_number(file: &mut File, number: usize) {
    let mut rest = number;
    while rest > 127 {
        let _fits = file.try_push((128 + rest % 128) as u8);
        rest /= 128;
    }
    let _fits = file.try_push(rest as u8);
}

// The file of a network.
// Kept: this is the library's writing written again, since by it the files are judged.
pub fn file_of(net: &Network) -> File {
    let mut file = ArrayVec::new();
    push_number(&mut file, net.nodes);
    push_number(&mut file, net.links);
    let ends = net.a.iter().zip(&net.b);
    for ((&a, &b), &capacity) in ends.zip(&net.capacity).take(net.links) {
        push_number(&mut file, a as usize);
        push_number(&mut file, b as usize);
        push_number(&mut file, capacity as usize);
    }
    file
}

fn is_unwritten(buffer: &[u8]) -> bool {
    buffer.iter().all(|&byte| byte == UNWRITTEN)
}

// Whether a buffer that is too short for a file of this length is refused and left.
fn short_right(p: &Plan, length: usize) -> bool {
    let mut room = [UNWRITTEN; MAX_FILE];
    let out = &mut room[..length.saturating_sub(1).min(MAX_FILE)];
    let refused = plan::write(*p, out);
    refused == Err(Refusal::BufferTooShort) && is_unwritten(out)
}

// Whether writing gives this file and leaves the rest.
fn written_right(p: &Plan, file: &[u8]) -> bool {
    let mut out = [UNWRITTEN; MAX_FILE];
    let written = plan::write(*p, &mut out);
    written == Ok(file.len())
        && out
            .strip_prefix(file)
            .is_some_and(|rest| is_unwritten(rest))
}

// Whether writing gives the file of this network, and opening that file gives the plan again, with an empty stack.
pub fn file_right(p: &Plan, net: &Network) -> bool {
    let file = file_of(net);
    let stack = Stack::new();
    written_right(p, &file)
        && short_right(p, file.len())
        && plan::open(&file) == Ok(Plan { stack, ..*p })
}

// A file without its last byte.
pub fn cut(file: &[u8]) -> &[u8] {
    file.split_last().map_or(file, |(_, front)| front)
}

// The place of a file's last number.
fn last_place(file: &[u8]) -> usize {
    let ends = cut(file).iter().rposition(|byte| *byte < 128);
    ends.map_or(0, |end| end.saturating_add(1))
}

// Whether the file is refused where its last number goes on, and where it goes on with a zero: one that has four groups
// is then too long.
pub fn lengthened_right(mut file: File) -> bool {
    let place = last_place(&file);
    let too_long = file.len().saturating_sub(place) > 3;
    let expected = |refusal| {
        let refusal = if too_long {
            Refusal::NumberTooLong
        } else {
            refusal
        };
        Err(Fault { refusal, place })
    };
    if let Some(last) = file.last_mut() {
        *last |= 128;
    }
    let ended = plan::open(&file) == expected(Refusal::EndsEarly);
    let _fits = file.try_push(0);
    ended && plan::open(&file) == expected(Refusal::ZeroGroup)
}

// Whether the file without its last byte, and with a byte more, are refused.
pub fn damaged_right(mut file: File) -> bool {
    let place = file.len();
    let early = plan::open(cut(&file)).is_err_and(|fault| fault.refusal == Refusal::EndsEarly);
    let _fits = file.try_push(0);
    let refusal = Refusal::BytesFollow;
    early && plan::open(&file) == Err(Fault { refusal, place })
}
