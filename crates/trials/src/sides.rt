// A trial of every side. It shares nothing with the code that it judges but the value of a cut, whose contract is its
// definition.
use arrayvec::ArrayVec;
use max_flow::Cut;
use network::{MAX_NODES, Network, ValidNetwork};
use std::cmp::Ordering;

// Sides of networks of more nodes are not tried.
const MOST_NODES: usize = 10;

const MOST_SIDES: usize = 1 << MOST_NODES;

// Kept: this is `node_set::contains` written again, since by it the answers are judged.
pub fn holds(side: u64, i: usize) -> bool {
    i < MAX_NODES && (side >> i) % 2 == 1
}

// The one of smaller value; of the same value, the nodes that both share.
fn best_of(one: Cut, other: Cut) -> Cut {
    match other.value.cmp(&one.value) {
        Ordering::Less => other,
        Ordering::Equal => Cut {
            side: one.side & other.side,
            ..one
        },
        Ordering::Greater => one,
    }
}

// The value of every side: side x is the number x.
#[derive(Drop)]
pub struct Sides {
    values: ArrayVec<u32, MOST_SIDES>,
}

impl Sides {
    pub fn of(net: ValidNetwork) -> Sides {
        let n = net.network.nodes;
        let sides = if n > MOST_NODES { 0 } else { 1u64 << n };
        let mut values = ArrayVec::new();
        for side in 0..sides {
            let _fits = values.try_push(network::cut_value(net, side));
        }
        Sides { values }
    }

    // The same of any record; none where it is no network within the limits.
    pub fn if_fits(net: &Network) -> Sides {
        match ValidNetwork::new(*net) {
            Some(valid) => Sides::of(valid),
            None => Sides {
                values: ArrayVec::new(),
            },
        }
    }

    pub fn value(&self, side: u64) -> Option<u32> {
        self.values.get(side as usize).copied()
    }

    // The smallest value of all sides that hold s and not t, and what all sides of that value share.
    pub fn best(&self, s: usize, t: usize) -> Option<Cut> {
        let sides = self.values.iter().enumerate();
        sides
            .map(|(x, &value)| Cut {
                side: x as u64,
                value,
            })
            .filter(|one| holds(one.side, s) && !holds(one.side, t))
            .reduce(best_of)
    }

    // The smallest value of all sides that hold s and not t.
    pub fn weight(&self, s: usize, t: usize) -> Option<u32> {
        self.best(s, t).map(|best| best.value)
    }

    // The smallest value of all sides that are neither empty nor all nodes: the first one and the last one.
    pub fn least(&self) -> Option<u32> {
        match self.values.as_slice() {
            [_, proper @ .., _] => proper.iter().copied().min(),
            _ => None,
        }
    }
}
