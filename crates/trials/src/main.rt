// Compares the proved code with a trial of every side, on random networks and their changes. Each line counts what was
// compared, and the disagreements.
#![tactic(auto)]

mod calls; // calls on a plan
mod files; // network files
mod flows; // least minimum cuts and flows
mod headrooms; // headrooms and their text
mod keeping; // which steps a change keeps
mod lawful; // lawful flows
mod lightest; // the lightest edge
mod machine; // the history as a plain machine
mod pairs; // answers for pairs
mod plans; // histories of plans
mod previews; // previews of changes
mod random; // random networks
mod sides; // a trial of every side
mod tally; // counts
mod trees; // trees and changes
mod trial; // what a trial draws from and counts in
mod windows; // a gate's readings

use crate::tally::print_refusals;
use crate::trial::repeat;
use std::io;

fn main(rt: HostRuntime) -> io::Result<()> {
    repeat(1, 1000, flows::try_network).print(&rt, "flow")?;
    repeat(2, 300, trees::try_network).print(&rt, "tree")?;
    let plans = repeat(3, 100, plans::try_network);
    plans.print(&rt, "plan")?;
    print_refusals(&rt, "refusals", &plans.refusals)?;
    print_refusals(&rt, "refusals of previews", &plans.preview_refusals)?;
    let windows = repeat(4, 400, windows::try_network);
    windows.print(&rt, "window")?;
    print_refusals(&rt, "refusals of readings", &windows.refusals)?;
    repeat(5, 100, flows::try_high_network).print(&rt, "flow at the limits")?;
    repeat(6, 50, trees::try_high_network).print(&rt, "tree at the limits")
}
