// The keeping rule (docs/SCOPE.md, 5), written down a second time: how many steps a change does not keep.
use crate::sides::holds;
use cut_tree::Steps;
use network::Network;
use std::cmp::Ordering;

// A link from a to b whose capacity changes.
// Kept: this is the library's rule written again, since by it the rule's count is judged.
#[derive(Clone, Copy)]
pub struct Change {
    a: usize,
    b: usize,
    old: u32,
    new: u32,
}

impl Change {
    // Link k goes to capacity d.
    pub fn of(net: &Network, k: usize, d: u32) -> Option<Change> {
        Some(Change {
            a: *net.a.get(k)? as usize,
            b: *net.b.get(k)? as usize,
            old: *net.capacity.get(k)?,
            new: d,
        })
    }

    // Whether a recorded step, whose pivot is t afterwards, is kept.
    fn keeps(self, pivot: u8, side: u64, value: u32, t: u8) -> bool {
        let crossed = holds(side, self.a) != holds(side, self.b);
        pivot == t
            && match self.new.cmp(&self.old) {
                Ordering::Equal => true,
                Ordering::Greater => !crossed,
                Ordering::Less => crossed && self.old - self.new <= value,
            }
    }

    // How many steps of n nodes are not kept, by the steps before and the pivots afterwards.
    pub fn steps_not_kept(self, old: &Steps, new: &Steps, n: usize) -> usize {
        let recorded = old.pivot.iter().zip(&old.side).zip(&old.value);
        recorded
            .zip(&new.pivot)
            .take(n)
            .skip(1)
            .filter(|(((pivot, side), value), t)| !self.keeps(**pivot, **side, **value, **t))
            .count()
    }
}

// The network with another capacity of link k.
// Kept: this is the library's `with_capacity` written again, since by it the library is judged.
pub fn with_capacity(net: Network, k: usize, d: u32) -> Network {
    let mut changed = net;
    if let Some(capacity) = changed.capacity.get_mut(k) {
        *capacity = d;
    }
    changed
}
