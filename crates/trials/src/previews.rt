// Previews, judged by the machine, by a change that is made on a copy, and by a trial of every side.
use crate::calls::altered_right;
use crate::machine::{Entry, Machine};
use crate::pairs::Judge;
use crate::sides::Sides;
use plan::Plan;

// Whether a preview is right: refused as the machine says; or with the count of the change, and an answer that is right
// in the tree that the change leaves and by a trial of every side. The change itself, which is made on a copy, has to
// be right too.
// Kept: a `Question` also has the value of every side before the change, by which no preview is judged, so that it
// would be worked out for nothing.
pub fn preview_right(p: &Plan, machine: &Machine, change: Entry, s: usize, t: usize) -> bool {
    let Entry { link, capacity } = change;
    let reply = plan::preview(*p, link, capacity, s, t);
    if let Err(refusal) = machine.check_preview(change, s, t) {
        return reply == Err(refusal);
    }
    let mut after = machine.copy();
    let _ = after.change(change);
    let copy = plan::change(*p, link, capacity);
    let sides = Sides::if_fits(&after.network);
    match (reply, copy) {
        (Ok(found), Ok(altered)) => {
            let judge = Judge {
                tree: &altered.plan.tree,
                nodes: after.network.nodes,
                sides: &sides,
            };
            altered_right(p, change, copy, &after)
                && found.count == altered.count
                && judge.found_right(found.pair, s, t)
        }
        _ => false,
    }
}
