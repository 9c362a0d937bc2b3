// What each link carries, from the residual capacities: flows are signed, positive from a to b.
ghost use Rattle.std.specs.Prelude.{length, ◌≡◌};
ghost use Rattle.max_flow.specs.code.LinkFlows.{Moderate, link_flows};

use flow_hints::Residual;

// What each link carries is written to its place: as many as `out` has places for. `full` are the residual capacities
// before anything is sent.
#[tactic(auto, unfolding(crate::specs::code::LinkFlows::link_flows_up_to))]
pub fn write_flow(full: &Residual, residual: &Residual, out: &mut [i32])
    requires { Moderate full.now residual.now (length out.old) }
    ensures { out.new ≡ link_flows full.now residual.now out.old }
{
    // Kept: tried by `zip`; what is written through a `zip` of `iter_mut` is not known after its loop, so that no
    // invariant can say it.
    for (k, carries) in out.iter_mut().enumerate() {
        *carries = full[k][0] as i32 - residual[k][0] as i32;
    }
}
