// An answer for a pair of nodes, judged by a trial of every side and by the tree's edges one by one.
use crate::sides::{Sides, holds};
use cut_tree::{PairFound, Tree};
use network::{MAX_NODES, Refusal};

// The nodes from i up to node 0, and node 0, which every way up ends at.
// Kept: with `successors(..).take(MAX_NODES).fold(..)` the test stands twice, where the next node is read and where
// `node_set::add` asks for one.
fn way_up(parent: &[u8; MAX_NODES], i: usize) -> u64 {
    let mut up = 0;
    let mut at = i;
    for _ in 0..MAX_NODES {
        if at < MAX_NODES {
            up = node_set::add(up, at);
            at = parent[at] as usize;
        }
    }
    up
}

// Whether v is a node with an edge above it.
fn has_edge(v: usize, n: usize) -> bool {
    0 < v && v < n
}

// Whether the edge of u, of this weight, is as it must be in this tree beside an answer: on the path between s and t
// there is no lighter one than the one found, and none as light with a lower number; and that one alone leads from its
// side to another.
fn edge_right(found: PairFound, path: u64, u: usize, parent: u8, weight: u32) -> bool {
    let below = holds(found.side, u);
    let above = holds(found.side, parent as usize);
    let on_path = holds(path, u);
    if u == found.node {
        below != above && on_path && weight == found.weight
    } else {
        below == above && (!on_path || (found.weight, found.node) <= (weight, u))
    }
}

// Whether a side holds s and not t, and has this size.
fn side_right(side: u64, size: u32, s: usize, t: usize) -> bool {
    side.count_ones() == size && holds(side, s) && !holds(side, t)
}

// Whether two sides share no node and together hold all of n nodes, where n is below 64.
fn complementary(x: u64, y: u64, n: usize) -> bool {
    x & y == 0 && n < MAX_NODES && (x | y) == (1u64 << n) - 1
}

// Whether the answers for (s, t) and (t, s), two of n nodes, show the same edge, and complementary sides.
fn both_ends_right(here: PairFound, there: PairFound, n: usize) -> bool {
    here.weight == there.weight
        && here.node == there.node
        && complementary(here.side, there.side, n)
}

// A tree of so many nodes, and the value of every side, by which its answers are judged.
#[derive(Clone, Copy)]
pub struct Judge<'a> {
    pub tree: &'a Tree,
    pub nodes: usize,
    pub sides: &'a Sides,
}

impl Judge<'_> {
    fn edges_right(self, found: PairFound, path: u64) -> bool {
        let edges = self.tree.parent.iter().zip(&self.tree.weight).enumerate();
        edges.take(self.nodes).skip(1).all(|(u, (&parent, &weight))| edge_right(
            found, path, u, parent, weight,
        ))
    }

    // Whether an answer for (s, t) is right in this tree: the lightest edge on the path, of equals the one with the
    // lowest number, and the side of s once it is cut; and whether its weight is the smallest value of all sides that
    // hold s and not t, which that side has.
    pub fn found_right(self, found: PairFound, s: usize, t: usize) -> bool {
        let Judge { tree, nodes, sides } = self;
        let path = way_up(&tree.parent, s) ^ way_up(&tree.parent, t);
        side_right(found.side, found.size, s, t)
            && sides.weight(s, t) == Some(found.weight)
            && sides.value(found.side) == Some(found.weight)
            && has_edge(found.node, nodes)
            && self.edges_right(found, path)
    }

    // Whether these are right answers for (s, t) and (t, s).
    pub fn both_right(
        self,
        here: Result<PairFound, Refusal>,
        there: Result<PairFound, Refusal>,
        s: usize,
        t: usize,
    ) -> bool {
        match (here, there) {
            (Ok(here), Ok(there)) => {
                both_ends_right(here, there, self.nodes) && self.found_right(here, s, t)
            }
            _ => false,
        }
    }
}
