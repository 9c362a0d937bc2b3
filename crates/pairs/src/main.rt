// The program `pairs` (docs/SCOPE.md, 6): it takes a network file on standard input and prints its cut tree and every
// pair, or why it is refused. What is printed is `listing`'s contract; that 1,540 bytes of a longer input are listed as
// the whole is `listing_front` there.
#![tactic(auto)]

ghost use Rattle.std.specs.Prelude.{◌≤◌, length, IfOk};

use listing::{MAX_LISTING, MAX_READ};
use std::io;
use std::io::Read;

// Reads until the buffer is full or the input ends, and gives how many bytes were read.
// Kept: `read_to_end` needs a heap, and at first asks for less than what fits.
fn read_full(input: &mut impl Read, buffer: &mut [u8]) -> io::Result<usize>
    ensures { IfOk result (λ n. n ≤ length buffer.new) }
{
    let mut done = 0;
    while done < buffer.len() {
        let n = input.read(&mut buffer[done..])?;
        if n == 0 {
            break;
        }
        done += n;
    }
    Ok(done)
}

fn main(rt: HostRuntime) -> io::Result<()> {
    let mut file = [0u8; MAX_READ];
    let read = read_full(&mut rt.stdin(), &mut file)?;
    let mut out = [0u8; MAX_LISTING];
    let length = listing::listing(&file[..read], &mut out).unwrap();
    rt.write_all(&out[..length])
}
