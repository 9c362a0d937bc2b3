// Trees built and worked out again after changes of one capacity, on random networks.
ghost use Rattle.cut_tree.specs.Path.{Climbs};
ghost use Rattle.cut_tree.specs.code.RebuildParts.{Changes};

use crate::keeping::{Change, with_capacity};
use crate::pairs::Judge;
use crate::sides::Sides;
use crate::tally::{Kind, Tally};
use crate::trial::Trial;
use cut_tree::Steps;
use network::{MAX_CAPACITY, MAX_LINKS, ValidNetwork};

// How often a network is changed, and of how many nodes and links the networks are.
const CHANGES: usize = 5;

const LAST_NODE: usize = 8;

const LINKS: usize = 16;

// Of how many nodes those are that have many links of the highest capacities.
const LAST_OF_FEW: usize = 3;

// Counts all pairs of a judge's tree.
fn try_pairs(tally: &mut Tally, judge: Judge)
    requires { Climbs judge.nodes judge.tree.now.parent }
{
    let Judge { tree, nodes, .. } = judge;
    tally.count_pairs(nodes, |s, t| {
        let here = cut_tree::query(*tree, nodes, s, t);
        let there = cut_tree::query(*tree, nodes, t, s);
        judge.both_right(here, there, s, t)
    });
}

// A network on its way through changes, with the steps of its tree, and the trial that draws and counts them.
#[derive(Drop)]
struct Walk<'a> {
    trial: Trial<'a>,
    network: ValidNetwork,
    steps: Steps,
}

impl Walk<'_> {
    // Link k goes to capacity d, which makes the network `changed`: whether a rebuild is what a fresh build is, and its
    // count the keeping rule's; and all pairs of the fresh tree.
    fn compare(&mut self, changed: ValidNetwork, k: usize, d: u32)
        requires { Changes self.old.network.network k d }
    {
        let n = changed.network.nodes;
        let rebuilt = cut_tree::rebuild(self.network, self.steps, k, d);
        let fresh = cut_tree::build(changed);
        let counted = Change::of(&self.network.network, k, d).map(|change| change.steps_not_kept(
            &self.steps,
            &fresh.steps,
            n,
        ));
        let right = rebuilt.tree == fresh.tree
            && rebuilt.steps == fresh.steps
            && counted == Some(rebuilt.count as usize);
        self.trial.tally.count(Kind::Change, right);
        let judge = Judge {
            tree: &fresh.tree,
            nodes: n,
            sides: &Sides::of(changed),
        };
        try_pairs(self.trial.tally, judge);
        self.network = changed;
        self.steps = rebuilt.steps;
    }

    // One change of a random link, where there is a link.
    fn change_once(&mut self) {
        let net = self.network.network;
        if net.links == 0 {
            return;
        }
        let k = self.trial.random.draw(net.links - 1);
        let mut ahead = self.trial.random;
        self.trial.random.skip(2);
        let d = ahead.new_capacity(&net, k);
        match ValidNetwork::new(with_capacity(net, k, d)) {
            Some(changed) if d <= MAX_CAPACITY => self.compare(changed, k, d),
            _ => self.trial.tally.count(Kind::Change, false),
        }
    }
}

// A network, where there is one, and its changes.
fn try_changes(trial: &mut Trial, drawn: Option<ValidNetwork>) {
    let Some(network) = drawn else {
        return;
    };
    let mut walk = Walk {
        trial: trial.apart(),
        network,
        steps: cut_tree::build(network).steps,
    };
    for _ in 0..CHANGES {
        walk.change_once();
    }
}

// A random network.
pub fn try_network(trial: &mut Trial) {
    let drawn = trial.network(LAST_NODE, LINKS);
    try_changes(trial, drawn);
}

// A network of the highest weights.
pub fn try_high_network(trial: &mut Trial) {
    let drawn = trial.high_network(LAST_OF_FEW, MAX_LINKS);
    try_changes(trial, drawn);
}
