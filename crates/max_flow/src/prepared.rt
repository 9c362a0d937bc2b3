// What the cuts of one network share: made once, or lent part by part.
ghost use Rattle.std.specs.Prelude.{◌≡◌, ◌*◌};
ghost use Rattle.max_flow.specs.LeastCut.{Endpoints, least_cut_of};
ghost use Rattle.max_flow.specs.code.Residuals.{full_residual};
ghost use Rattle.max_flow.specs.code.Search.{Ready};
ghost use Rattle.network.specs.code.Incidence.{Chains};
ghost use Rattle.network.specs.declared.Network.{Network};

use crate::Cut;
use crate::ends::Ends;
use crate::residual::full_residual;
use flow_hints::{ArcTable, Hints, Residual};
use network::{Incidence, ValidNetwork, incidence_of};

// A network with its arcs, their table, and the flow of nothing to start with, for a caller that keeps them as one
// value. They are large, 7 KB beside the table.
#[derive(Clone, Copy)]
pub struct Prepared<'a> {
    pub net: ValidNetwork,
    pub(crate) arcs: Incidence,
    pub(crate) table: &'a ArcTable,
    pub(crate) full: Residual,
    pub(crate) hints: Hints,
    pub ghost chains: { Chains net.network (2 * net.network.links) arcs.first arcs.next arcs.to },
    pub ghost unsent: { full ≡ full_residual net.network },
}

impl<'a> Prepared<'a> {
    // What the cuts of this network share, made once. The table, of no arcs so far, is filled in the caller's memory,
    // since it is large.
    pub fn new(net: ValidNetwork, table: &'a mut ArcTable) -> Prepared<'a>
        ensures { result.net.network ≡ net.network }
    {
        table.fill(net);
        Prepared {
            net,
            arcs: incidence_of(net),
            table,
            full: full_residual(net),
            hints: Hints::start(net),
        }
    }

    // The least minimum cut of (s, t), for a caller that asks for many of one network.
    pub fn least_cut(&self, s: usize, t: usize) -> Cut
        requires { Endpoints self.now.net.network s t }
        ensures { result ≡ least_cut_of self.now.net.network s t }
    {
        least_cut_by(&self.full, &self.arcs, self.table, &self.hints, s, t)
    }
}

// The same with each part lent, for a caller whose memory is scarce: what is lent lies in its frame once
// (docs/DECISIONS.md, 85).
#[derive(Clone, Copy)]
pub struct PreparedRef<'a> {
    pub net: &'a ValidNetwork,
    pub arcs: &'a Incidence,
    pub table: &'a ArcTable,
    pub full: &'a Residual,
    pub hints: &'a Hints,
    pub ghost chains: { Chains net.now.network (2 * net.now.network.links) arcs.now.first arcs.now.next arcs.now.to },
    pub ghost unsent: { full.now ≡ full_residual net.now.network },
}

impl PreparedRef<'_> {
    // The least minimum cut of (s, t), for a caller that asks for many of one network.
    pub fn least_cut(&self, s: usize, t: usize) -> Cut
        requires { Endpoints self.now.net.now.network s t }
        ensures { result ≡ least_cut_of self.now.net.now.network s t }
    {
        least_cut_by(self.full, self.arcs, self.table, self.hints, s, t)
    }
}

// The same for a caller that has made for itself, once, the network's full residual capacities and its arcs; the table
// and the hints to start with may be any. The network is named in the contract, and not handed over.
#[tactic(auto, using(network::proofs::laws::NetworkLaws::nodes_le, crate::proofs::code::Scan::two_of))]
pub fn least_cut_by(
    full: &Residual,
    arcs: &Incidence,
    table: &ArcTable,
    start: &Hints,
    s: usize,
    t: usize,
) -> Cut
    requires { (net : Network)
        × Ready net arcs.now.first arcs.now.next arcs.now.to s t
        × (full.now ≡ full_residual net) }
    ensures { (net : Network)
        → Ready net arcs.now.first arcs.now.next arcs.now.to s t
        → full.now ≡ full_residual net
        → result ≡ least_cut_of net s t }
{
    let ends = Ends {
        arcs,
        table,
        full,
        start,
        s,
        t,
    };
    let mut none = [0i32; 0];
    ends.augment(&mut none)
}
