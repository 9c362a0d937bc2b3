// The lines of a file: its plan's tree and every two nodes, or why it is refused.
ghost use Rattle.std.specs.Prelude.{suc, ◌-◌, ◌<◌, ◌≤◌};
ghost use Rattle.network.specs.Limits.{max_nodes};
ghost use Rattle.network.specs.Refusals.{refusal_number};
ghost use Rattle.listing.specs.Listing.{tree_line, tree_lines, pair_line, pairs_of, pair_lines, plan_lines};
ghost use Rattle.listing.specs.Listing.{refused_line, listing_of};
ghost use Rattle.listing.specs.code.Adds.{Adds, Room};

use crate::line::Lines;
use cut_tree::Tree;
use network_file::Fault;
use plan::Plan;

// Kept: a node, and how many a tree has, are asked to be within the arrays, by number, in tree_line, tree_lines and
// plan_lines, and s to be a node in pairs_of; numbers of a type of its own would be made, with that proof, at each
// call.
impl Lines<'_> {
    #[tactic(auto, unfolding(crate::specs::Listing::tree_line))]
    fn tree_line(&mut self, tree: Tree, node: usize)
        requires node_lt_max_nodes { node < max_nodes }
        requires node_in_bounds { Room self.old (tree_line tree node) }
        ensures { Adds self.old (tree_line tree node) self.new }
    {
        let parent = tree.parent[node] as u64;
        let weight = tree.weight[node] as u64;
        self.line(b"tree", &[node as u64, parent, weight]);
    }

    // Nodes 1 up.
    fn tree_lines(&mut self, tree: Tree, nodes: usize)
        requires nodes_le_max_nodes { nodes ≤ max_nodes }
        requires nodes_in_bounds { Room self.old (tree_lines tree (nodes - 1)) }
        ensures { Adds self.old (tree_lines tree (nodes - 1)) self.new }
    {
        for i in 1..nodes {
            self.tree_line(tree, i);
        }
    }

    // No pair of two nodes of a sound plan is refused; zeros where one is.
    fn pair_line(&mut self, p: Plan, s: usize, t: usize)
        requires { Room self.old (pair_line p s t) }
        ensures { Adds self.old (pair_line p s t) self.new }
    {
        let (weight, side) = plan::pair(p, s, t).map_or((0, 0), |found| (found.weight, found.side));
        self.line(b"pair", &[s as u64, t as u64, weight as u64, side]);
    }

    // Node s with every node above it.
    fn pairs_of(&mut self, p: Plan, s: usize)
        requires s_lt_nodes { s < p.network.nodes }
        requires s_in_bounds { Room self.old (pairs_of p s (p.network.nodes - suc s)) }
        ensures { Adds self.old (pairs_of p s (p.network.nodes - suc s)) self.new }
    {
        for t in s + 1..p.network.nodes {
            self.pair_line(p, s, t);
        }
    }

    fn pair_lines(&mut self, p: Plan)
        requires { Room self.old (pair_lines p p.network.nodes) }
        ensures { Adds self.old (pair_lines p p.network.nodes) self.new }
    {
        for s in 0..p.network.nodes {
            self.pairs_of(p, s);
        }
    }

    fn plan_lines(&mut self, p: Plan)
        requires nodes_le_max_nodes { p.network.nodes ≤ max_nodes }
        requires p_in_bounds { Room self.old (plan_lines p) }
        ensures { Adds self.old (plan_lines p) self.new }
    {
        self.tree_lines(p.tree, p.network.nodes);
        self.pair_lines(p);
    }

    #[tactic(auto, unfolding(crate::specs::Listing::refused_line))]
    fn refused_line(&mut self, fault: Fault)
        requires { Room self.old (refused_line (refusal_number fault.refusal) fault.place) }
        ensures { Adds self.old (refused_line (refusal_number fault.refusal) fault.place) self.new }
    {
        let number = fault.refusal.number();
        self.line(b"refused", &[number as u64, fault.place as u64]);
    }

    pub fn file(&mut self, file: &[u8])
        requires { Room self.old (listing_of file.now) }
        ensures { Adds self.old (listing_of file.now) self.new }
    {
        match plan::open(file) {
            Ok(plan) => self.plan_lines(plan),
            Err(fault) => self.refused_line(fault),
        }
    }
}
