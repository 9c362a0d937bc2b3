// The tree of a file worked out several times, so that its cuts can be timed apart from reading and from the plan.
#![tactic(auto)]

ghost use Rattle.std.specs.Prelude.{◌≡◌};
ghost use Rattle.timing.specs.Timing.{weight_of, weight_after, timed_of};

use network::ValidNetwork;

// The weight of node 1 in the tree of a network.
#[tactic(auto, unfolding(crate::specs::Timing::weight_of))]
fn weight_of(net: ValidNetwork) -> u32
    ensures { result ≡ weight_of net.network }
{
    cut_tree::build(net).tree.weight[1]
}

// The same, of the tree worked out `rounds` times; 0 where it never is.
#[tactic(auto, using(crate::proofs::laws::TimingLaws::weight_none, crate::proofs::laws::TimingLaws::weight_more))]
fn weight_after(net: ValidNetwork, rounds: u32) -> u32
    ensures { result ≡ weight_after net.network rounds }
{
    let mut weight: u32 = 0;
    for _ in 0..rounds {
        weight = weight_of(net);
    }
    weight
}

// Reads a file, works its tree out `rounds` times and gives the weight of node 1; 0 where the file is refused.
// Kept: the C interface has one number here, and no `Result`.
#[unsafe(no_mangle)]
pub extern "C" fn pamzolit_timing(file: &[u8], rounds: u32) -> u32
    ensures { result ≡ timed_of file.now rounds }
{
    match network_file::read(file) {
        Ok(net) => weight_after(net, rounds),
        Err(_) => 0,
    }
}
