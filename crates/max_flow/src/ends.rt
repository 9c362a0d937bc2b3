// Two nodes of a network, and what is lent of it.
ghost use Rattle.std.specs.Prelude.{◌≡◌, ◌<◌};
ghost use Rattle.max_flow.specs.code.Residuals.{full_residual};
ghost use Rattle.max_flow.specs.code.Search.{Ready};
ghost use Rattle.network.specs.declared.Network.{Network};
ghost use Rattle.network.specs.Limits.{max_nodes};

use flow_hints::{ArcTable, Hints, Residual};
use network::Incidence;

// The two that flow is sent between, from s to t, with the arcs of their network, a table of these, its full residual
// capacities and hints to start with. There is such a network (`two`); it is named in contracts (`OfNetwork`), and not
// handed over.
#[derive(Clone, Copy)]
pub struct Ends<'a> {
    pub arcs: &'a Incidence,
    pub table: &'a ArcTable,
    pub full: &'a Residual,
    pub start: &'a Hints,
    pub s: usize,
    pub t: usize,
    pub ghost s_within: { s < max_nodes },
    pub ghost t_within: { t < max_nodes },
    pub ghost two: { ∥ ((net : Network)
        × Ready net arcs.now.first arcs.now.next arcs.now.to s t
        × (full.now ≡ full_residual net)) ∥₁ },
}
