// Calls on a plan, accepted and refused, each judged by the machine and by a trial of every side.
use crate::headrooms::headroom_right;
use crate::keeping::Change;
use crate::lawful::is_lawful;
use crate::lightest::lightest_right;
use crate::machine::{Entry, Machine};
use crate::pairs::Judge;
use crate::sides::Sides;
use network::{MAX_LINKS, Refusal};
use plan::{Altered, Plan};

// A buffer of flows has at most one place more than links, and what stands in it where it is not filled.
const PLACES: usize = MAX_LINKS + 1;

const UNFILLED: i32 = 7;

// Whether a change of a link to a capacity, or an undo that is one, was accepted on this plan: it leaves the capacities
// and the stack that the machine has then, the new tree's lightest edge, and the keeping rule's count.
pub fn altered_right(
    p: &Plan,
    change: Entry,
    reply: Result<Altered, Refusal>,
    after: &Machine,
) -> bool {
    let Ok(altered) = reply else {
        return false;
    };
    let left = altered.plan;
    left.network == after.network
        && after.has_stack(&left.stack)
        && lightest_right(&left)
        && Change::of(&p.network, change.link, change.capacity).is_some_and(|change| {
            change.steps_not_kept(&p.steps, &left.steps, p.network.nodes) == altered.count as usize
        })
}

// Two nodes that a plan is asked for, the machine beside it, and the value of every side.
#[derive(Clone, Copy)]
pub struct Question<'a> {
    pub plan: &'a Plan,
    pub machine: &'a Machine,
    pub sides: &'a Sides,
    pub s: usize,
    pub t: usize,
}

impl Question<'_> {
    // Whether the pair is answered rightly, and from both ends alike.
    pub fn pair_right(self) -> bool {
        let Question {
            plan,
            machine,
            sides,
            s,
            t,
        } = self;
        let here = plan::pair(*plan, s, t);
        let there = plan::pair(*plan, t, s);
        if let Err(refusal) = machine.check_pair(s, t) {
            return here == Err(refusal) && there == Err(refusal);
        }
        let judge = Judge {
            tree: &plan.tree,
            nodes: plan.network.nodes,
            sides,
        };
        judge.both_right(here, there, s, t)
    }

    // Whether a flow is written rightly to a buffer of this length; refused, the buffer is left.
    pub fn flow_right(self, length: usize) -> bool {
        let Question {
            plan,
            machine,
            sides,
            s,
            t,
        } = self;
        let mut room = [UNFILLED; PLACES];
        let out = &mut room[..length.min(PLACES)];
        let reply = plan::flow(*plan, s, t, out);
        let outcome = machine.check_flow(s, t, length);
        reply == outcome
            && match outcome {
                Err(_) => out.iter().all(|&x| x == UNFILLED),
                Ok(()) => sides
                    .weight(s, t)
                    .is_some_and(|weight| is_lawful(&machine.network, out, s, t, weight)),
            }
    }

    // Whether the headroom beside a demand is right.
    pub fn headroom_right(self, demand: u32) -> bool {
        let Question {
            plan,
            machine,
            sides,
            s,
            t,
        } = self;
        let found = plan::headroom(*plan, s, t, demand);
        found.err() == machine.check_headroom(s, t, demand).err()
            && headroom_right(found, sides.weight(s, t), demand)
    }
}
