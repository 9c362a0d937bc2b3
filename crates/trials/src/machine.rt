// The history as a plain machine (docs/SCOPE.md, 9), kept beside the plan: it is fed the calls and never the plan.
use crate::keeping::with_capacity;
use arrayvec::ArrayVec;
use network::{MAX_CAPACITY, Network, Refusal};
use plan::{MAX_DEMAND, MAX_DEPTH, Stack};

// A link, and the capacity that it goes to, or that it had before a change.
#[derive(Clone, Copy, Default, PartialEq, Eq)]
pub struct Entry {
    pub link: usize,
    pub capacity: u32,
}

// What the table of checks says of two nodes on a plan of n.
// Kept: s and t stand side by side, as in the calls that are judged; a struct of both would be made for each call and
// taken apart in each. And this is the library's check written again, since by it the refusals are judged.
pub fn check_pair(n: usize, s: usize, t: usize) -> Result<(), Refusal> {
    if s >= n || t >= n {
        Err(Refusal::NoSuchNode)
    } else if s == t {
        Err(Refusal::SameNode)
    } else {
        Ok(())
    }
}

// The same with a demand.
pub fn check_headroom(n: usize, s: usize, t: usize, demand: u32) -> Result<(), Refusal> {
    check_pair(n, s, t)?;
    if demand > MAX_DEMAND {
        return Err(Refusal::DemandTooLarge);
    }
    Ok(())
}

// The capacities, in the network that was opened, and the changes that can be undone.
#[derive(Drop)]
pub struct Machine {
    pub network: Network,
    entries: ArrayVec<Entry, MAX_DEPTH>,
}

impl Machine {
    pub fn started(network: Network) -> Machine {
        Machine {
            network,
            entries: ArrayVec::new(),
        }
    }

    // The same again, which cannot fail as `clone` can.
    pub fn copy(&self) -> Machine {
        let mut copy = Machine::started(self.network);
        let _fits = copy.entries.try_extend_from_slice(&self.entries);
        copy
    }

    // What the table of checks says of each call.

    pub fn check_change(&self, change: Entry) -> Result<(), Refusal> {
        if change.link >= self.network.links {
            Err(Refusal::NoSuchLink)
        } else if change.capacity > MAX_CAPACITY {
            Err(Refusal::CapacityTooLarge)
        } else if self.entries.len() == MAX_DEPTH {
            Err(Refusal::StackFull)
        } else {
            Ok(())
        }
    }

    pub fn check_pair(&self, s: usize, t: usize) -> Result<(), Refusal> {
        check_pair(self.network.nodes, s, t)
    }

    pub fn check_preview(&self, change: Entry, s: usize, t: usize) -> Result<(), Refusal> {
        self.check_change(change)?;
        self.check_pair(s, t)
    }

    pub fn check_flow(&self, s: usize, t: usize, length: usize) -> Result<(), Refusal> {
        self.check_pair(s, t)?;
        if length != self.network.links {
            return Err(Refusal::FlowLength);
        }
        Ok(())
    }

    pub fn check_headroom(&self, s: usize, t: usize, demand: u32) -> Result<(), Refusal> {
        check_headroom(self.network.nodes, s, t, demand)
    }

    // A change: accepted, the link and its old capacity are pushed and the capacity is set.
    pub fn change(&mut self, change: Entry) -> Result<(), Refusal> {
        let outcome = self.check_change(change);
        if outcome.is_ok() {
            let Entry { link, .. } = change;
            let capacity = self.network.capacity.get(link).copied().unwrap_or(0);
            let _fits = self.entries.try_push(Entry { link, capacity });
            self.network = with_capacity(self.network, link, change.capacity);
        }
        outcome
    }

    // An undo: accepted, the entry on top is popped and its capacity restored.
    pub fn undo(&mut self) -> Result<Entry, Refusal> {
        let top = self.entries.pop().ok_or(Refusal::NothingToUndo)?;
        self.network = with_capacity(self.network, top.link, top.capacity);
        Ok(top)
    }

    // Whether a plan's stack has these entries, and 0 in the places behind them.
    pub fn has_stack(&self, stack: &Stack) -> bool {
        let places = stack.link.iter().zip(&stack.capacity).enumerate();
        stack.depth == self.entries.len()
            && places
                .map(|(i, (&link, &capacity))| (i, link as usize, capacity))
                .all(|(i, link, capacity)| {
                    self.entries.get(i).copied().unwrap_or_default() == Entry { link, capacity }
                })
    }
}
