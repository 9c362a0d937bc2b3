// A tree of so many nodes, once it is known that they all climb to node 0.
ghost use Rattle.cut_tree.specs.Path.{Climbs};

use crate::Tree;

#[derive(Clone, Copy)]
pub struct RootedTree<'a> {
    pub tree: &'a Tree,
    pub nodes: usize,
    pub ghost climbs: { Climbs nodes tree.now.parent },
}
