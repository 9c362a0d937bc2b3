// The search for an augmenting path (the paper: the search for a way), over the arcs that have residual capacity.
ghost use Rattle.std.specs.Prelude.{◌≡◌, ◌<◌};
ghost use Rattle.max_flow.specs.code.Ends.{OfNetwork};
ghost use Rattle.max_flow.specs.code.Search.{seed_of, Searched};
ghost use Rattle.network.specs.declared.Network.{Network};
ghost use Rattle.network.specs.Limits.{max_nodes};

use crate::ends::Ends;
use crate::residual::UNLIMITED;
use flow_hints::{Residual, room};
use network::MAX_NODES;
use node_set::{add, contains, empty};

// The nodes reached, by place, in the order in which they were: node[i] was entered by arc[i] from the node at the
// earlier place from[i], and bottleneck[i] can be sent to it along the tree.
// Kept: fixed memory, so the places are counted beside the arrays; with one array of records an opening takes 5 to 10
// in 100 longer, and a sparse one misses its target (docs/BENCHMARKS.md, "Forms").
#[derive(Clone, Copy)]
pub struct SearchTree {
    pub count: usize,
    pub reached: u64,
    pub node: [u8; MAX_NODES],
    pub arc: [u16; MAX_NODES],
    pub from: [u8; MAX_NODES],
    pub bottleneck: [u32; MAX_NODES],
}

// the tree of s alone
// Kept: s is asked to be a node, by number, as in `Hints`.
fn seed(s: usize) -> SearchTree
    requires { s < max_nodes }
    ensures { result ≡ seed_of s }
{
    SearchTree {
        count: 1,
        reached: add(empty(), s),
        node: [s as u8; MAX_NODES],
        arc: [0u16; MAX_NODES],
        from: [0u8; MAX_NODES],
        bottleneck: [UNLIMITED; MAX_NODES],
    }
}

impl Ends<'_> {
    // Breadth first, until t is reached. The places before i are done: what their arcs lead to is reached.
    // Kept: the project asks for nested loops here, left by a label at the first arc that reaches t; the tree grows as
    // its places are gone over, so no range names them.
    pub(crate) fn search(&self, residual: Residual) -> SearchTree
        ensures { (net : Network) → OfNetwork net self.now → Searched net residual self.now.s self.now.t result }
    {
        let Ends { arcs, s, t, .. } = *self;
        let mut tree = seed(s);
        let mut i: usize = 0;
        'search: while i < tree.count {
            let u = tree.node[i] as usize;
            let mut link = arcs.first[u];
            // Kept: a walk along a chain of arcs: `successors` asks for the next link before the arc is looked at, and
            // once more than is needed where the search is left.
            while let Some(j) = link.arc() {
                link = arcs.next[j];
                let x = arcs.to[j] as usize;
                if !contains(tree.reached, x) {
                    let d = room(&residual, j);
                    if d > 0 {
                        let n = tree.count;
                        tree.reached = add(tree.reached, x);
                        tree.node[n] = x as u8;
                        tree.arc[n] = j as u16;
                        tree.from[n] = i as u8;
                        tree.bottleneck[n] = d.min(tree.bottleneck[i]);
                        tree.count = n + 1;
                        if x == t {
                            break 'search;
                        }
                    }
                }
            }
            i = i + 1;
        }
        tree
    }
}
