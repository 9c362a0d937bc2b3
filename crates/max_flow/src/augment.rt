// Flow sent from s to t until no search reaches t: in phases as far as the hints lead, then along a path that a search
// finds.
ghost use Rattle.std.specs.Prelude.{length, ◌≡◌, ℕ, ◌-◌, ◌≤◌};
ghost use Rattle.base.specs.Basics.{at};
ghost use Rattle.max_flow.specs.code.Augment.{Augmented};
ghost use Rattle.max_flow.specs.code.Ends.{OfNetwork};
ghost use Rattle.max_flow.specs.code.Push.{Sending};
ghost use Rattle.max_flow.specs.code.Residuals.{Sent};
ghost use Rattle.network.specs.declared.Network.{Network};

use crate::Cut;
use crate::ends::Ends;
use crate::flow::Flow;
use crate::flows::write_flow;
use crate::residual::along;
use crate::search::SearchTree;
use flow_hints::{Hints, Residual};
use node_set::contains;

// One improvement: d is sent from the first node of the tree to the one reached last, link by link. What that leaves of
// the residual capacities holds a flow between the two if they did, and its total is d more.
fn push(tree: &SearchTree, d: u32, hints: &mut Hints, residual: Residual) -> Residual
    requires { (net : Network) × (s : ℕ) × Sending net s residual tree.now d }
    ensures { (net : Network) (s : ℕ)
        → Sending net s residual tree.now d
        → Sent net s (at tree.now.node (tree.now.count - 1)) d residual result }
{
    let mut left = residual;
    let mut i = tree.count - 1;
    // Kept: `successors` gives the root, too, at which nothing is pushed, and the place before each has to be asked for
    // a second time.
    while i > 0 {
        let e = tree.arc[i] as usize;
        let f = tree.from[i] as usize;
        let u = tree.node[f] as usize;
        let v = tree.node[i] as usize;
        along(&mut left, e, d);
        hints.note_way(u, v);
        i = f;
    }
    left
}

impl Ends<'_> {
    // Flow is sent until no search reaches t. `total` is carried along and raised by each improvement: at every turn it
    // is what leaves s less what enters s, of the flow that `flow` holds (`Flowing`). What was reached at the end is
    // the least minimum cut, and what each link carries is written to `out`, as far as that has places.
    pub(crate) fn augment(&self, out: &mut [i32]) -> Cut
        requires { (net : Network) × OfNetwork net self.now × (length out.old ≤ net.links) }
        ensures { (net : Network)
            → OfNetwork net self.now
            → Augmented net self.now.s self.now.t result out.old out.new }
    {
        let mut flow = Flow {
            residual: *self.full,
            hints: *self.start,
        };
        let mut total: u32 = 0;
        loop {
            total = self.send_all(&mut flow, total);
            // a field of `flow`, passed on by value, would be copied twice
            let residual = flow.residual;
            let tree = self.search(residual);
            if !contains(tree.reached, self.t) {
                write_flow(self.full, &flow.residual, out);
                return Cut {
                    side: tree.reached,
                    value: total,
                };
            }
            let last = tree.count - 1;
            let d = tree.bottleneck[last];
            flow.residual = push(&tree, d, &mut flow.hints, flow.residual);
            total = total + d;
        }
    }
}
