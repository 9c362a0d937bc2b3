// Flow sent in phases: along arcs that the hints name, from ring to ring around t. Each arc is tested before it is
// used, so that what is sent is a flow whatever the hints say.
ghost use Rattle.std.specs.Prelude.{true, ◌≡◌, ◌<◌, ◌≤◌};
ghost use Rattle.flow_hints.specs.code.Hints.{room_of};
ghost use Rattle.max_flow.specs.code.Ends.{OfNetwork};
ghost use Rattle.max_flow.specs.code.Residuals.{Balanced, Flowing};
ghost use Rattle.max_flow.specs.code.Send.{other_way};
ghost use Rattle.network.specs.declared.Network.{Network};
ghost use Rattle.network.specs.Limits.{max_arcs, max_nodes};

use crate::ends::Ends;
use crate::flow::Flow;
use crate::residual::{UNLIMITED, along};
use flow_hints::{Step, room};
use network::{MAX_ARCS, MAX_NODES};
use node_set::{add, contains, lowest, single};

// What is to be sent on: at most `limit`, from `node` and on to ring `ring`. `on` are the nodes on the way to `node`,
// and `node`: arcs that lead to those keep their room.
// Kept: two loads below are another but for one field, and are written field by field, since the language has no `..`
// beside a ghost field.
#[derive(Clone, Copy)]
struct Load {
    node: usize,
    ring: usize,
    on: u64,
    limit: u32,
    ghost node_within: { node < max_nodes },
    ghost ring_within: { ring < max_nodes },
}

// What stays the same while flow is sent on: what is lent of the network, and the sink t.
// Kept: none of the methods below would read s of `Ends`; tried as methods of `Ends`, by value and lent, a cut of a
// sparse network takes 2 to 3 in 100 longer (docs/BENCHMARKS.md, "Forms").
#[derive(Clone, Copy)]
struct Sender<'a> {
    ends: &'a Ends<'a>,
    t: usize,
}

// the arc back
// Kept: j is asked to be an arc, by number, as in `flow_hints::room`.
fn other_way(j: usize) -> usize
    requires { j < max_arcs }
    ensures { result ≡ other_way j }
{
    j + 1 - 2 * (j % 2)
}

// Kept: three methods ask that the residual capacities are balanced. They are so in the network that contracts
// name, which is not handed over: of a struct that could only be a fact of some network.
impl Sender<'_> {
    ghost use Rattle.max_flow.specs.code.Sender.{Onward, SendsLoad};

    // whether `step` leads on: its arc from the load's node to that of the step, which is not on the way already
    fn leads_on(self, load: Load, step: Step) -> bool
        ensures { result ≡ true → Onward self.entry load step }
    {
        let to = &self.ends.arcs.to;
        let tip = to[step.arc] as usize;
        let tail = to[other_way(step.arc)] as usize;
        tip == step.node && tail == load.node && !contains(load.on, step.node)
    }

    // Sends the load to t by `step`, and on from there; how much that is.
    #[cycle(send_send_by_send_from)]
    fn send_by(self, flow: &mut Flow, load: Load, step: Step) -> u32
        requires balanced { (net : Network) × OfNetwork net self.ends.now × Balanced net flow.old.residual }
        requires has_room { 0 < room_of flow.old.residual step.arc }
        ensures { (net : Network)
            → OfNetwork net self.entry.ends.now
            → Balanced net flow.old.residual
            → SendsLoad net self.entry load result flow.old.residual flow.new.residual }
    {
        if !self.leads_on(load, step) {
            flow.hints.note_shut(load.node, step.node);
            return 0;
        }
        let spare = room(&flow.residual, step.arc);
        let want = spare.min(load.limit);
        let next = Load {
            node: step.node,
            ring: load.ring,
            on: add(load.on, step.node),
            limit: want,
        };
        let d = self.send_from(flow, next);
        along(&mut flow.residual, step.arc, d);
        flow.hints
            .note_sent(self.ends.table, load.node, step, spare, d);
        flow.hints.note_short(step.node, load.ring, want, d);
        d
    }

    // The same from a node of the load's ring: all of it at t itself, else what can be sent on to the ring below.
    #[cycle(send_send_by_send_from)]
    fn send_from(self, flow: &mut Flow, load: Load) -> u32
        requires { (net : Network) × OfNetwork net self.ends.now × Balanced net flow.old.residual }
        ensures { (net : Network)
            → OfNetwork net self.entry.ends.now
            → Balanced net flow.old.residual
            → SendsLoad net self.entry load result flow.old.residual flow.new.residual }
    {
        if load.node == self.t {
            return load.limit;
        }
        if load.ring == 0 {
            return 0;
        }
        let next = Load {
            node: load.node,
            ring: load.ring - 1,
            on: load.on,
            limit: load.limit,
        };
        self.send(flow, next)
    }

    // The same along arcs that the hints name to the load's ring, as long as they name one.
    #[cycle(send_send_by_send_from)]
    fn send(self, flow: &mut Flow, load: Load) -> u32
        requires { (net : Network) × OfNetwork net self.ends.now × Balanced net flow.old.residual }
        ensures { (net : Network)
            → OfNetwork net self.entry.ends.now
            → Balanced net flow.old.residual
            → SendsLoad net self.entry load result flow.old.residual flow.new.residual }
    {
        let mut sent: u32 = 0;
        let mut last: Option<Step> = None;
        for _ in 0..MAX_ARCS {
            let rest = flow.hints.leads(load.node, load.ring);
            if rest == 0 {
                return sent;
            }
            let x = lowest(rest);
            let table = self.ends.table;
            let found = match last {
                Some(tried) if tried.node == x => table.step_behind(&flow.residual, tried),
                _ => table.step(&flow.residual, load.node, x),
            };
            let Some(step) = found else {
                flow.hints.note_shut(load.node, x);
                continue;
            };
            last = Some(step);
            let left = Load {
                node: load.node,
                ring: load.ring,
                on: load.on,
                limit: load.limit - sent,
            };
            let d = self.send_by(flow, left, step);
            sent = sent + d;
            if sent == load.limit {
                return sent;
            }
        }
        sent
    }
}

impl Ends<'_> {
    // Flow is sent from s to t in phases, as long as the hints find a way. `total` is that of the flow which `flow`
    // holds; each phase raises it by what it sends, and the result is that of the flow then.
    pub(crate) fn send_all(&self, flow: &mut Flow, total: u32) -> u32
        requires { (net : Network)
            × OfNetwork net self.now
            × Flowing net self.now.s self.now.t total flow.old.residual }
        ensures lower_bound { total ≤ result }
        ensures flowing { (net : Network)
            → OfNetwork net self.now
            → Flowing net self.now.s self.now.t total flow.old.residual
            → Flowing net self.now.s self.now.t result flow.new.residual }
    {
        let Ends { s, t, .. } = *self;
        let sender = Sender { ends: self, t };
        let mut raised = total;
        for _ in 0..MAX_NODES {
            let Some(ring) = flow.hints.sweep(s, t) else {
                return raised;
            };
            let load = Load {
                node: s,
                ring,
                on: single(s),
                limit: UNLIMITED,
            };
            let d = sender.send(flow, load);
            raised = raised + d;
        }
        raised
    }
}
