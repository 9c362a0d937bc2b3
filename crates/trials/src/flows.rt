// Least minimum cuts and lawful flows, for all pairs of random networks.
ghost use Rattle.max_flow.specs.LeastCut.{Endpoints};

use crate::lawful::is_lawful;
use crate::sides::Sides;
use crate::trial::Trial;
use network::{MAX_LINKS, ValidNetwork};

// Of how many nodes and links the networks are.
const LAST_NODE: usize = 9;

const LINKS: usize = 20;

// Of how many nodes those are that have many links of the highest capacities.
const LAST_OF_FEW: usize = 3;

// Whether the cut for s and t is the one that a trial of every side finds, and the flow a lawful one of its value.
fn pair_right(net: ValidNetwork, sides: &Sides, s: usize, t: usize) -> bool
    requires { Endpoints net.network s t }
{
    let cut = max_flow::least_min_cut(net, s, t);
    let mut room = [0; MAX_LINKS];
    let flow = &mut room[..net.network.links];
    max_flow::lawful_flow(net, s, t, flow);
    sides.best(s, t) == Some(cut)
        && sides.value(cut.side) == Some(cut.value)
        && is_lawful(&net.network, flow, s, t, cut.value)
}

// All pairs of a network, where there is one.
fn try_pairs(trial: &mut Trial, drawn: Option<ValidNetwork>) {
    let Some(net) = drawn else {
        return;
    };
    let sides = Sides::of(net);
    trial
        .tally
        .count_pairs(net.network.nodes, |s, t| pair_right(net, &sides, s, t));
}

// A random network.
pub fn try_network(trial: &mut Trial) {
    let drawn = trial.network(LAST_NODE, LINKS);
    try_pairs(trial, drawn);
}

// A network of the highest weights.
pub fn try_high_network(trial: &mut Trial) {
    let drawn = trial.high_network(LAST_OF_FEW, MAX_LINKS);
    try_pairs(trial, drawn);
}
