// One step of Gusfield's rule (docs/SCOPE.md, 4).
ghost use Rattle.std.specs.Prelude.{◌≡◌, ◌<◌};
ghost use Rattle.base.specs.Word.{holds};
ghost use Rattle.base.specs.Basics.{at};
ghost use Rattle.network.specs.Limits.{max_nodes};
ghost use Rattle.cut_tree.specs.Rule.{moved, placed, recorded};
ghost use Rattle.cut_tree.specs.code.RebuildParts.{moved_one};

use crate::{Steps, Tree};
use max_flow::Cut;
use network::MAX_NODES;
use node_set::nodes_in;

// The parent p of a node of the step's side: s in place of t.
fn moved_one(p: u8, s: u8, t: u8) -> u8
    ensures { result ≡ moved_one p s t }
{
    if p == t { s } else { p }
}

// Every node in x with parent t gets parent s.
fn move_nodes(parent: &mut [u8; MAX_NODES], x: u64, s: u8, t: u8)
    ensures { parent.new ≡ moved x s t 0 parent.old }
{
    for i in nodes_in(x) {
        parent[i] = moved_one(parent[i], s, t);
    }
}

impl Tree {
    // Node s, of pivot t, is placed by its cut: beside t; or, where the cut's side holds the parent of t, between that
    // parent and t.
    // Kept: s and t are asked to be nodes, by number, here, in `record` and in `step`; numbers of a type of its own
    // would be made at each turn of the loop, with the same proof.
    pub(crate) fn place(&mut self, s: usize, t: usize, cut: Cut)
        requires { (s < max_nodes) × (t < max_nodes) × (at self.old.parent t < max_nodes) }
        ensures { self.new ≡ placed (holds cut.side (at self.old.parent t)) self.old s t cut.side cut.value }
    {
        let q = self.parent[t];
        move_nodes(&mut self.parent, cut.side, s as u8, t as u8);
        if node_set::contains(cut.side, q as usize) {
            self.parent[s] = q;
            self.parent[t] = s as u8;
            self.weight[s] = self.weight[t];
            self.weight[t] = cut.value;
        } else {
            self.parent[s] = t as u8;
            self.weight[s] = cut.value;
        }
    }
}

impl Steps {
    // the pivot of s and its cut are recorded
    pub(crate) fn record(&mut self, s: usize, t: usize, cut: Cut)
        requires { (s < max_nodes) × (t < max_nodes) }
        ensures { self.new ≡ recorded self.old s t cut.side cut.value }
    {
        self.pivot[s] = t as u8;
        self.side[s] = cut.side;
        self.value[s] = cut.value;
    }
}
