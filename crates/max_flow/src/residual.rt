// Residual capacities (the paper: each link has two spare capacities, one each way).
ghost use Rattle.std.specs.Prelude.{[], cond, ◌≡◌, ◌∷◌, ◌+◌, ◌*◌, ◌≤◌};
ghost use Rattle.max_flow.specs.code.Residuals.{full_residual, row_after, sent_along, MaySend};
ghost use Rattle.network.specs.Limits.{max_capacity};

use flow_hints::Residual;
use network::{MAX_LINKS, ValidNetwork};

// no limit to what can be sent
// Kept: with an option of a limit an opening takes 12 to 16 in 100 longer, and a sparse one misses its target
// (docs/BENCHMARKS.md, "Forms").
pub const UNLIMITED: u32 = u32::MAX;

// Nothing is sent yet: each link may take its capacity each way, and an unused place has none.
// Kept: k only says which place is written: what is written through a `zip` of `iter_mut` is not known after its loop,
// as in `write_flow`, and by `map` over the capacities a flow takes up to a third longer (docs/DECISIONS.md, 88).
#[tactic(auto, unfolding(crate::specs::code::Residuals::full_up_to))]
pub fn full_residual(net: ValidNetwork) -> Residual
    ensures { result ≡ full_residual net.network }
{
    let mut residual = [[0u32; 2]; MAX_LINKS];
    for (k, link) in net.each_link().enumerate() {
        residual[k] = [link.capacity, link.capacity];
    }
    residual
}

// a link's residual capacities x and y after d more is sent along it, ahead or back: what is taken from one way is
// added to the other
fn row_after(ahead: bool, x: u32, y: u32, d: u32) -> [u32; 2]
    requires { (d ≤ cond ahead x y) × (x + y ≤ 2 * max_capacity) }
    ensures { result ≡ row_after ahead x y d }
{
    if ahead {
        return [x - d, y + d];
    }
    [x + d, y - d]
}

// d more is sent along arc e
pub fn along(residual: &mut Residual, e: usize, d: u32)
    requires { MaySend residual.old e d }
    ensures { residual.new ≡ sent_along residual.old e d }
{
    let k = e / 2;
    let x = residual[k][0];
    let y = residual[k][1];
    residual[k] = row_after(e % 2 == 0, x, y, d);
}
