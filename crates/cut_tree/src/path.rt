// The pair query (docs/SCOPE.md, 6). The path is found by recursion along parents with a count that
// falls, and so is whether every node reaches node 0.
ghost use Rattle.std.specs.Prelude.{◌≡◌, ◌≢◌, ◌<◌};
ghost use Rattle.base.specs.Word.{word};
ghost use Rattle.network.specs.Limits.{max_nodes};
ghost use Rattle.network.specs.Refusals.{outcome_number};
ghost use Rattle.cut_tree.specs.Path.{max_climb, reaches, Climbs, climb, under, lightest_on, side_of};
ghost use Rattle.cut_tree.specs.Path.{query_number, query_of};
ghost use Rattle.cut_tree.specs.Results.{as_answer};
ghost use Rattle.base.specs.Basics.{among};
ghost use Rattle.cut_tree.specs.code.QueryParts.{Inside, Known, climb_to, added_all, lighter};
ghost use Rattle.cut_tree.specs.code.QueryParts.{IsNode, lightest_from};

use crate::rooted::RootedTree;
use crate::{PairFound, Tree};
use network::{MAX_NODES, Refusal};

// The most parents on the way to node 0: all other nodes.
pub const MAX_CLIMB: usize = MAX_NODES - 1;

// Whether node i reaches node 0 by at most `left` parents.
// Kept: a recursion, whose measure is the count that falls. By `successors`, `take(left)` and `any` node i is tested
// and its parent read apart, since `left + 1` may not fit in 64 bits; the machine code is the same, the proof longer.
#[tactic(auto, using(crate::proofs::laws::ClimbLaws::reaching))]
pub fn reaches_root(parent: &[u8; MAX_NODES], left: usize, i: usize) -> bool
    requires { Inside parent.now i }
    ensures { result ≡ reaches parent.now left i }
{
    if i == 0 {
        return true;
    }
    if left == 0 {
        return false;
    }
    let up = parent[i] as usize;
    reaches_root(parent, left - 1, up)
}

impl Tree {
    // the lighter of the edges of best and i, the lower number where they are equal; i where there is no best yet
    // Kept: both are asked to be nodes, by number, as in `RootedTree`.
    #[tactic(auto, using(crate::proofs::laws::QueryLaws::lighter_ways))]
    fn lighter(&self, best: Option<usize>, i: usize) -> usize
        requires { IsNode best × (i < max_nodes) }
        ensures { result ≡ lighter self.now.weight best i }
    {
        let Some(best) = best else {
            return i;
        };
        let (_, lesser) = (self.weight[i], i).min((self.weight[best], best));
        lesser
    }
}

// Kept: nodes are asked to be below `nodes`, by number, in five functions: a number of a type of its own would be made,
// with that proof, of each parent that is read.
impl<'a> RootedTree<'a> {
    // the set x with the nodes from i up to node 0, without it
    // Kept: a recursion here and in two functions below, as in `reaches_root`: loops over an iterator of the nodes on
    // the way would be as long, and that iterator, a struct with laws of its own, would come on top.
    #[tactic(auto, using(crate::proofs::laws::QueryLaws::gathering))]
    fn ancestors(&self, left: usize, i: usize, x: u64) -> u64
        requires { i < self.now.nodes }
        ensures { result ≡ added_all x (climb self.now.tree.now.parent left i) }
    {
        if i == 0 || left == 0 {
            return x;
        }
        let up = self.tree.parent[i] as usize;
        self.ancestors(left - 1, up, node_set::add(x, i))
    }

    // The lightest of best's edge and those on the way up from i, as far as the set `stop`; the lowest number among
    // equals.
    #[tactic(auto, using(crate::proofs::laws::QueryLaws::going_up))]
    fn lightest_up(&self, left: usize, i: usize, stop: u64, best: Option<usize>) -> Option<usize>
        requires { (i < self.now.nodes) × IsNode best }
        ensures { result ≡ lightest_from self.now.tree.now.weight best (climb_to stop self.now.tree.now.parent left i) }
    {
        if i == 0 || left == 0 || node_set::contains(stop, i) {
            return best;
        }
        let up = self.tree.parent[i] as usize;
        self.lightest_up(left - 1, up, stop, Some(self.tree.lighter(best, i)))
    }

    // the node of the lightest edge on the path between s and t, the lowest among equals: up from s, then up from t
    fn lightest_on(&self, s: usize, t: usize) -> usize
        requires { (s < self.now.nodes) × (t < self.now.nodes) × (s ≢ t) }
        ensures { result ≡ lightest_on self.now.tree.now s t }
    {
        let above_s = self.ancestors(MAX_CLIMB, s, node_set::empty());
        let above_t = self.ancestors(MAX_CLIMB, t, node_set::empty());
        let best = self.lightest_up(MAX_CLIMB, s, above_t, None);
        self.lightest_up(MAX_CLIMB, t, above_s, best).unwrap()
    }

    // whether the climb from j goes through v; of the nodes below i that is known: those that do are in x
    #[tactic(auto, using(crate::proofs::laws::SideLaws::through))]
    fn climbs_through(&self, v: usize, x: u64, i: usize, left: usize, j: usize) -> bool
        requires { (j < self.now.nodes) × Known self.now.tree.now.parent v x i left j }
        ensures { result ≡ among v (climb self.now.tree.now.parent left j) }
    {
        if j == 0 {
            return false;
        }
        if j == v {
            return true;
        }
        if j < i {
            return node_set::contains(x, j);
        }
        if left == 0 {
            return false;
        }
        let up = self.tree.parent[j] as usize;
        self.climbs_through(v, x, i, left - 1, up)
    }

    // the subtree of v: the nodes that climb through it
    #[tactic(auto, using(crate::proofs::laws::SideLaws::passing))]
    fn subtree(&self, v: usize) -> u64
        ensures { result ≡ word self.now.nodes (under self.now.tree.now.parent v) }
    {
        let mut x = node_set::empty();
        for i in 0..self.nodes {
            if self.climbs_through(v, x, i, MAX_CLIMB, i) {
                x = node_set::add(x, i);
            }
        }
        x
    }

    // the side that holds s once the edge of v is cut
    #[tactic(auto, using(crate::proofs::laws::SideLaws::sides))]
    fn side_of(&self, v: usize, s: usize) -> u64
        requires { s < self.now.nodes }
        ensures { result ≡ side_of self.now.tree.now.parent self.now.nodes v s }
    {
        let x = self.subtree(v);
        if node_set::contains(x, s) {
            x
        } else {
            node_set::complement(x, self.nodes)
        }
    }
}

// Whether two nodes of n can be asked for, in the order of the table of checks.
pub fn check_pair(n: usize, s: usize, t: usize) -> Result<(), Refusal>
    ensures { outcome_number result ≡ query_number n s t }
{
    if n <= s || n <= t {
        return Err(Refusal::NoSuchNode);
    }
    if s == t {
        return Err(Refusal::SameNode);
    }
    Ok(())
}

// The answer for a pair: the lightest edge of its path and the side that holds s once that edge is cut.
pub fn query(tree: Tree, n: usize, s: usize, t: usize) -> Result<PairFound, Refusal>
    requires { Climbs n tree.parent }
    ensures { as_answer result ≡ query_of tree n s t }
{
    check_pair(n, s, t)?;
    let rooted = RootedTree {
        tree: &tree,
        nodes: n,
    };
    let node = rooted.lightest_on(s, t);
    let side = rooted.side_of(node, s);
    Ok(PairFound {
        weight: tree.weight[node],
        node,
        side,
        size: node_set::size(side),
    })
}
