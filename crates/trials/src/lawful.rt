// Whether numbers on the links are a lawful flow of a given total (docs/SCOPE.md, 3).
use network::{MAX_NODES, Network};

// What enters each node less what leaves it; none where a link carries more than its capacity, or an end is no node.
fn surplus_of(net: &Network, flow: &[i32]) -> Option<[i64; MAX_NODES]> {
    let mut surplus = [0i64; MAX_NODES];
    let ends = net.a.iter().zip(&net.b);
    for (((&a, &b), &capacity), &carried) in ends.zip(&net.capacity).zip(flow) {
        if carried.unsigned_abs() > capacity {
            return None;
        }
        let from = surplus.get_mut(a as usize)?;
        *from = from.checked_sub(carried as i64)?;
        let to = surplus.get_mut(b as usize)?;
        *to = to.checked_add(carried as i64)?;
    }
    Some(surplus)
}

// What node x has to have of a flow from s to t.
fn wanted(x: usize, s: usize, t: usize, value: u32) -> i64 {
    if x == s {
        -(value as i64)
    } else if x == t {
        value as i64
    } else {
        0
    }
}

// Whether every link is within its capacity, what enters leaves at each node but s and t, and the total is `value`.
pub fn is_lawful(net: &Network, flow: &[i32], s: usize, t: usize, value: u32) -> bool {
    surplus_of(net, flow).is_some_and(|surplus| {
        surplus
            .iter()
            .enumerate()
            .all(|(x, &left)| left == wanted(x, s, t, value))
    })
}
