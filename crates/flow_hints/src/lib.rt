// Hints for the flow core: where flow is to be sent first. A wrong one costs time and nothing else, so what a hint
// leads to is promised nowhere: whoever follows one tests it. The contracts say what each function writes into the
// hints or the table, or reads from them; of `sweep` and of a step only that what they name is in bounds, and that the
// step's arc has room.
#![tactic(auto)]

mod hints; // where flow may be sent
mod table; // the arcs of a network by their ends

ghost use Rattle.std.specs.Prelude.{◌≡◌, ◌<◌};
ghost use Rattle.flow_hints.specs.code.Hints.{room_of};
ghost use Rattle.network.specs.Limits.{max_arcs};

pub use crate::hints::Hints;
pub use crate::table::{ArcTable, Step};
use network::MAX_LINKS;

// What may still be sent along each link, from its end a to b and back.
pub type Residual = [[u32; 2]; MAX_LINKS];

// what may still be sent along arc j
// Kept: j is asked to be an arc, by number, as in `ArcTable`.
pub fn room(residual: &Residual, j: usize) -> u32
    requires { j < max_arcs }
    ensures { result ≡ room_of residual.now j }
{
    residual[j / 2][j % 2]
}
