// The tree of a network, and the tree worked out again after a change of one capacity: one loop serves both.
ghost use Rattle.std.specs.Prelude.{◌≡◌, ◌-◌, ◌<◌, ℕ};
ghost use Rattle.network.specs.Limits.{max_nodes};
ghost use Rattle.cut_tree.specs.Rebuild.{rebuilt};
ghost use Rattle.cut_tree.specs.code.RebuildParts.{Changes, Gives, step_of};
ghost use Rattle.cut_tree.specs.Rule.{StepCut, no_tree, no_steps, rule, rule_by};

use crate::keep::Change;
use crate::{Built, Recorded, Steps, Tree};
use max_flow::{ArcTable, Cut, Hints, PreparedRef, full_residual};
use network::{MAX_NODES, ValidNetwork, incidence_of};

impl Tree {
    // one of zeros: all nodes are beside node 0, by edges of weight 0
    pub fn new() -> Tree
        ensures { result ≡ no_tree }
    {
        Tree {
            parent: [0; MAX_NODES],
            weight: [0; MAX_NODES],
        }
    }
}

impl Steps {
    // none recorded: zeros
    pub fn new() -> Steps
        ensures { result ≡ no_steps }
    {
        Steps {
            pivot: [0; MAX_NODES],
            side: [0; MAX_NODES],
            value: [0; MAX_NODES],
        }
    }

    // what is recorded of step s
    pub fn step(&self, s: usize) -> Recorded
        requires { s < max_nodes }
        ensures { result ≡ step_of self.now s }
    {
        Recorded {
            pivot: self.pivot[s] as usize,
            cut: Cut {
                side: self.side[s],
                value: self.value[s],
            },
        }
    }
}

// The tree of the rule on `net`, with the cuts that are kept: `kept` gives that of step s, whose pivot is t, if it has
// one. What the other cuts share is made once.
// Not inlined, so that a file that is refused takes no memory for its cuts.
#[inline(never)]
#[tactic(auto, using(network::proofs::laws::NetworkLaws::nodes_le))]
fn worked_out<F: Fn(usize, usize) -> Option<Cut>>(net: ValidNetwork, kept: F) -> Built
    requires { (s t : ℕ) → s < max_nodes → t < s → F.pre kept s t }
    ensures { (cut : ℕ → ℕ → StepCut)
        → Gives net.network (F.post kept) cut
        → result ≡ rule_by cut (net.network.nodes - 1) }
{
    let arcs = incidence_of(net);
    let mut table = ArcTable::none();
    table.fill(net);
    let full = full_residual(net);
    let hints = Hints::start(net);
    let prepared = PreparedRef {
        net: &net,
        arcs: &arcs,
        table: &table,
        full: &full,
        hints: &hints,
    };
    let mut tree = Tree::new();
    let mut steps = Steps::new();
    let mut count: u32 = 0;
    for s in 1..net.network.nodes {
        let t = tree.parent[s] as usize;
        let cut = match kept(s, t) {
            Some(cut) => cut,
            None => {
                count += 1;
                prepared.least_cut(s, t)
            }
        };
        tree.place(s, t, cut);
        steps.record(s, t, cut);
    }
    Built { tree, steps, count }
}

// The tree as link k of `net` goes to capacity d, by the recorded steps.
// Kept: `Changes` is asked here, by `altered` of plan and by `compare` of trials: a struct of the network, the link and
// the capacity would be made for one call and taken apart in it.
#[tactic(auto, using(network::proofs::laws::NetworkLaws::links_le))]
pub fn rebuild(net: ValidNetwork, steps: Steps, k: usize, d: u32) -> Built
    requires { Changes net.network k d }
    ensures { result ≡ rebuilt net.network steps k d }
{
    // Kept: the memory is fixed and lies on the caller's stack (docs/DECISIONS.md, 87): with `net.with_capacity(k, d)`,
    // beside a link that is read from `net`, the compiler lays one more network there, 1.5 KB.
    let mut network = net.network;
    let change = Change {
        link: network.link(k),
        new: d,
    };
    network.capacity[k] = d;
    worked_out(ValidNetwork { network }, |s, t| {
        change.kept(steps.step(s), t)
    })
}

// The tree of a network: no step is kept.
pub fn build(net: ValidNetwork) -> Built
    ensures { result ≡ rule net.network }
{
    worked_out(net, |_, _| None)
}
