// A plan opened from a network's file, and the file written back.
ghost use Rattle.std.specs.Prelude.{length, ◌≡◌};
ghost use Rattle.plan.specs.Calls.{fresh, open_of, write_of, written_to};
ghost use Rattle.plan.specs.Plan.{no_plan, plan_of};
ghost use Rattle.plan.specs.Results.{as_opening, as_written};

use crate::{Plan, Stack};
use cut_tree::{Built, Edge, Steps, Tree};
use network::{Network, Refusal, ValidNetwork};
use network_file::Fault;

// All zeros: what C finds beside a refused file.
pub fn no_plan() -> Plan
    ensures { result ≡ no_plan }
{
    Plan {
        network: Network::new(0, 0),
        tree: Tree::new(),
        steps: Steps::new(),
        stack: Stack::new(),
        lightest: Edge::none(),
    }
}

// A plan of a network and what was built of it, with its tree's lightest edge.
#[tactic(auto, using(network::proofs::laws::NetworkLaws::nodes_le))]
pub fn plan_of(net: ValidNetwork, built: Built, stack: Stack) -> Plan
    ensures { result ≡ plan_of net.network built.tree built.steps stack }
{
    let tree = built.tree;
    Plan {
        network: net.network,
        tree,
        steps: built.steps,
        stack,
        lightest: cut_tree::lightest_edge(&tree.weight, net.network.nodes),
    }
}

// The plan of a network, with an empty stack.
fn fresh(net: ValidNetwork) -> Plan
    ensures { result ≡ fresh net.network }
{
    plan_of(net, cut_tree::build(net), Stack::new())
}

// Reads a file and builds its plan.
#[tactic(auto, using(crate::proofs::laws::FilesLaws::opening))]
pub fn open(file: &[u8]) -> Result<Plan, Fault>
    ensures { as_opening result ≡ open_of file.now }
{
    let net = network_file::read(file)?;
    Ok(fresh(net))
}

// Writes the plan's file to the front of a buffer and gives its length.
#[tactic(auto, using(crate::proofs::laws::FilesLaws::writing))]
pub fn write(p: Plan, out: &mut [u8]) -> Result<usize, Refusal>
    ensures value { as_written result ≡ write_of p (length out.old) }
    ensures out_after { out.new ≡ written_to p out.old }
{
    p.check_sound()?;
    let net = ValidNetwork { network: p.network };
    network_file::write(net, &mut *out)
}
