// Commands that show the plan.
use crate::Run;
use std::io;

impl<R: Print> Run<'_, R> {
    // `tree`: each node from 1 on, its parent and its weight.
    pub fn tree(&self) -> io::Result<()> {
        let Run { rt, plan } = self;
        let edges = plan.tree.parent.iter().zip(&plan.tree.weight);
        for (node, (parent, weight)) in edges.enumerate().take(plan.network.nodes).skip(1) {
            print!(rt; " ({node} {parent} {weight})")?;
        }
        Ok(())
    }

    // `edge`: the tree's lightest edge as the plan holds it, the node below it and its weight.
    pub fn edge(&self) -> io::Result<()> {
        let lightest = self.plan.lightest;
        print!(self.rt; " node {} weight {}", lightest.node, lightest.weight)
    }

    // `steps`: of each node from 1 on the pivot, the side as a number, and the side's cost.
    pub fn steps(&self) -> io::Result<()> {
        let Run { rt, plan } = self;
        let steps = &plan.steps;
        let steps = steps.pivot.iter().zip(&steps.side).zip(&steps.value);
        for ((pivot, side), value) in steps.take(plan.network.nodes).skip(1) {
            print!(rt; " ({pivot} {side} {value})")?;
        }
        Ok(())
    }

    // `network`: the capacities in order, and the stack's entries: place, link, capacity before.
    pub fn network(&self) -> io::Result<()> {
        let Run { rt, plan } = self;
        print!(rt; " capacities")?;
        for capacity in plan.network.capacity.iter().take(plan.network.links) {
            print!(rt; " {capacity}")?;
        }
        print!(rt; " stack")?;
        let entries = plan.stack.link.iter().zip(&plan.stack.capacity);
        for (place, (link, capacity)) in entries.enumerate().take(plan.stack.depth) {
            print!(rt; " ({place} {link} {capacity})")?;
        }
        Ok(())
    }
}
