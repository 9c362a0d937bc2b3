// Whether a plan, whatever it holds, is sound (docs/SCOPE.md, 7; number 19). Every call on a plan asks it first, so the
// tests go over an array's used places once, and once over those behind them; but over the parents twice, since all are
// found to be nodes before a climb goes along them.
ghost use Rattle.std.specs.Prelude.{ltb, true, false, MatchResult, ◌≡◌, ◌<◌, ◌≤◌};
ghost use Rattle.std.specs.List.{list_all};
ghost use Rattle.base.specs.Basics.{all, at};
ghost use Rattle.network.specs.declared.refusals.Refusal.TheVariants.{NotSound};
ghost use Rattle.plan.specs.Plan.{max_depth, step_fits, steps_fit, entry_fits, stack_fits, sound};
ghost use Rattle.plan.specs.code.SoundParts.{parents_within, is_edge, weight_within, weights_fit, rooted};
ghost use Rattle.plan.specs.code.SoundParts.{tree_with_edge, root_step_within, step_within, entry_within};

use crate::node_count::NodeCount;
use crate::{MAX_DEPTH, Plan, Stack};
use cut_tree::{Edge, MAX_CLIMB, Recorded, Steps, Tree};
use max_flow::Cut;
use network::{MAX_CAPACITY, MAX_NODES, MAX_VALUE, Refusal};

fn are_nodes(xs: &[u8], n: usize) -> bool
    ensures { result ≡ list_all (λ x. ltb x n) xs.now }
{
    xs.iter().all(|&x| usize::from(x) < n)
}

// Node i's weight: within the limit, and its edge is not lighter than the lightest, nor as light with a lower number.
// Kept: by `(lightest.weight, lightest.node as usize) <= (weight, i)` a turn takes an instruction more, and a pair,
// which has next to nothing left below its target, 2 in 100 longer.
#[tactic(auto, using(crate::proofs::laws::Tests::rules), unfolding(crate::specs::code::SoundParts::weight_within))]
fn weight_within(lightest: Edge, i: usize, weight: u32) -> bool
    ensures { result ≡ weight_within lightest i weight }
{
    weight <= MAX_VALUE
        && weight >= lightest.weight
        && (weight > lightest.weight || i >= lightest.node as usize)
}

#[tactic(auto, using(crate::proofs::laws::Tests::rules))]
fn root_step_within(step: Recorded) -> bool
    ensures { result ≡ root_step_within step.pivot step.cut.side step.cut.value }
{
    let cut = Cut { side: 0, value: 0 };
    step == Recorded { pivot: 0, cut }
}

#[tactic(auto, using(crate::proofs::laws::Tests::rules))]
fn entry_within(m: usize, link: u16, capacity: u32) -> bool
    ensures { result ≡ entry_within m link capacity }
{
    usize::from(link) < m && capacity <= MAX_CAPACITY
}

impl NodeCount {
    fn parents_within(self, parent: &[u8; MAX_NODES]) -> bool
        ensures { result ≡ parents_within self.count parent.now }
    {
        are_nodes(&parent[..self.count], self.count)
    }

    // Whether an edge is that of one of the nodes, with its weight; of one node it is none.
    #[tactic(auto, using(crate::proofs::laws::Tests::rules), unfolding(crate::specs::code::SoundParts::is_edge))]
    fn is_edge(self, weight: &[u32; MAX_NODES], edge: Edge) -> bool
        ensures { result ≡ is_edge self.count weight.now edge }
    {
        if self.count <= 1 {
            return edge == Edge::none();
        }
        let v = edge.node as usize;
        v != 0 && v < self.count && weight[v] == edge.weight
    }

    // The weights, and that the edge is the lightest: one pass over the nodes from 1 up.
    // Kept: i is a node that the test is asked of, and no mere place; by `enumerate` and `skip` the line is longer, and
    // a turn takes as many instructions.
    fn weights_fit(self, weight: &[u32; MAX_NODES], lightest: Edge) -> bool
        requires { at weight.now 0 ≡ 0 }
        ensures { result ≡ weights_fit self.count weight.now lightest }
    {
        self.is_edge(weight, lightest)
            && (1..self.count).all(|i| weight_within(lightest, i, weight[i]))
    }

    fn rooted(self, parent: &[u8; MAX_NODES]) -> bool
        requires { parents_within self.count parent.now ≡ true }
        ensures { result ≡ rooted self.count parent.now }
    {
        (0..self.count).all(|i| cut_tree::reaches_root(parent, MAX_CLIMB, i))
    }

    // The tree, and its lightest edge.
    #[tactic(auto, using(crate::proofs::laws::Tests::rules), unfolding(crate::specs::code::SoundParts::tree_with_edge))]
    fn tree_fits(self, tree: Tree, lightest: Edge) -> bool
        ensures { result ≡ tree_with_edge self.count tree lightest }
    {
        tree.parent[0] == 0
            && tree.weight[0] == 0
            && self.parents_within(&tree.parent)
            && self.weights_fit(&tree.weight, lightest)
            && self.rooted(&tree.parent)
            && network::blank_from(&tree.parent, self.count)
            && network::blank_from(&tree.weight, self.count)
    }

    #[tactic(auto, using(crate::proofs::laws::Tests::rules))]
    fn step_within(self, s: usize, step: Recorded) -> bool
        requires { s < self.count }
        ensures { result ≡ step_within self.count s step.pivot step.cut.side step.cut.value }
    {
        let side = step.cut.side;
        step.pivot < self.count
            && side <= node_set::all_below(self.count)
            && step.cut.value <= MAX_VALUE
            && node_set::contains(side, s)
            && !node_set::contains(side, step.pivot)
    }

    fn each_step_fits(self, steps: Steps) -> bool
        ensures { result ≡ all self.count (step_fits self.count steps) }
    {
        root_step_within(steps.step(0))
            && (1..self.count).all(|s| self.step_within(s, steps.step(s)))
    }

    #[tactic(auto, using(crate::proofs::laws::Tests::rules), unfolding(crate::specs::Plan::steps_fit))]
    fn steps_fit(self, steps: Steps) -> bool
        ensures { result ≡ steps_fit self.count steps }
    {
        self.each_step_fits(steps)
            && network::blank_from(&steps.pivot, self.count)
            && network::blank_from(&steps.side, self.count)
            && network::blank_from(&steps.value, self.count)
    }
}

impl Stack {
    fn each_entry_fits(self, m: usize) -> bool
        requires { self.depth ≤ max_depth }
        ensures { result ≡ all self.depth (entry_fits m self) }
    {
        self.link[..self.depth]
            .iter()
            .zip(&self.capacity[..self.depth])
            .all(|(&link, &capacity)| entry_within(m, link, capacity))
    }

    // In a network of m links.
    #[tactic(auto, using(crate::proofs::laws::Tests::rules), unfolding(crate::specs::Plan::stack_fits))]
    fn fits_links(self, m: usize) -> bool
        ensures { result ≡ stack_fits m self }
    {
        self.depth <= MAX_DEPTH
            && self.each_entry_fits(m)
            && network::blank_from(&self.link, self.depth)
            && network::blank_from(&self.capacity, self.depth)
    }
}

impl Plan {
    // The network first: its limits keep the other tests within the arrays.
    #[tactic(auto, using(crate::proofs::laws::Tests::rules), unfolding(crate::specs::Plan::sound))]
    fn is_sound(self) -> bool
        ensures { result ≡ sound self }
    {
        if !network::fits(self.network) {
            return false;
        }
        let nodes = NodeCount {
            count: self.network.nodes,
        };
        nodes.tree_fits(self.tree, self.lightest)
            && nodes.steps_fit(self.steps)
            && self.stack.fits_links(self.network.links)
    }

    // Ok, or number 19: each call asks it first.
    pub(crate) fn check_sound(self) -> Result<(), Refusal>
        ensures { MatchResult result (λ x. sound self ≡ true) (λ e. (e ≡ NotSound) × (sound self ≡ false)) }
    {
        if self.is_sound() {
            Ok(())
        } else {
            Err(Refusal::NotSound)
        }
    }
}
