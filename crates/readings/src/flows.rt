// The command `flow S T LENGTH`. Which lawful flow the call gives is free, so what every lawful one of that total has
// is printed: the balance of each node (what leaves it less what enters it), and how many links carry more than their
// capacity.
use crate::Run;
use network::{MAX_LINKS, Network};
use std::io;

// A buffer has one place more than links: what each holds before a call.
const PLACES: usize = MAX_LINKS + 1;

const BEFORE: i32 = 7;

// What the flow carries along the links of which this end is node x.
// Kept: `sum` asks that each sum fits in 64 bits, and a slice may be too long: `sum-requires-clause-fits` stays open.
fn carried(ends: &[u8], flow: &[i32], x: usize) -> i64 {
    let carries = ends.iter().zip(flow);
    carries
        .filter(|(end, _carries)| usize::from(**end) == x)
        .map(|(_end, carries)| i64::from(*carries))
        .fold(0, i64::wrapping_add)
}

// A network, and what its links carry.
#[derive(Clone, Copy)]
struct Carrying<'a> {
    net: &'a Network,
    flow: &'a [i32],
}

impl Carrying<'_> {
    // What leaves node x less what enters it.
    fn balance(self, x: usize) -> i64 {
        carried(&self.net.a, self.flow, x).wrapping_sub(carried(&self.net.b, self.flow, x))
    }

    // How many links carry more than their capacity.
    fn overfull(self) -> usize {
        let carries = self.net.capacity.iter().zip(self.flow);
        carries
            .filter(|(capacity, carries)| carries.unsigned_abs() > **capacity)
            .count()
    }

    fn put(self, rt: &impl Print) -> io::Result<()> {
        print!(rt; " balances")?;
        for x in 0..self.net.nodes {
            print!(rt; " {}", self.balance(x))?;
        }
        print!(rt; " over {}", self.overfull())
    }
}

impl<R: Print> Run<'_, R> {
    // The call, with a buffer of so many numbers, and of a refused one how many places hold what they held before.
    pub fn flow(&self, s: usize, t: usize, length: usize) -> io::Result<()> {
        let mut room = [BEFORE; PLACES];
        let out = &mut room[..length.min(PLACES)];
        match plan::flow(self.plan, s, t, out) {
            Ok(()) => Carrying {
                net: &self.plan.network,
                flow: out,
            }
            .put(self.rt),
            Err(refusal) => {
                let unaltered = room.iter().filter(|number| **number == BEFORE).count();
                print!(self.rt; " refused {refusal} unaltered {unaltered}")
            }
        }
    }
}
