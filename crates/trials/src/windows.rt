// A gate's record through random lists of resets and readings on random plans (docs/SCOPE.md, 6), written again: the
// headrooms since the last reset are kept in order, and limits come from a trial of every side.
use crate::files::{cut, file_of};
use crate::headrooms::{TEXT_ROOM, tenths};
use crate::machine::check_headroom;
use crate::random::Random;
use crate::sides::Sides;
use crate::tally::Kind;
use crate::trial::Trial;
use arrayvec::{ArrayString, ArrayVec};
use gate_window::{MAX_READINGS, Noted, Window, WindowReply};
use network::{MAX_NODES, Refusal};
use plan::{MAX_DEMAND, Plan};
use std::fmt::Write;

// The resets and readings of a list, and of how many nodes and links the networks are.
const LIST: usize = 40;

const LAST_NODE: usize = 8;

const LINKS: usize = 14;

// The headrooms that a demand may leave, in tenths: near -10.0, 0, 10.0 or 100.0, or between.
const HEADROOMS: [i64; 7] = [-102, -100, -50, -2, 98, 490, 998];

// A reading for s and t, whose limit is `weight`.
#[derive(Clone, Copy)]
struct Reading {
    s: usize,
    t: usize,
    demand: u32,
    weight: Option<u32>,
}

impl Reading {
    // A reading for nodes of n that may be none or equal.
    fn drawn(random: &mut Random, n: usize, sides: &Sides) -> Reading {
        let last = n.min(MAX_NODES);
        let s = random.draw(last);
        let t = random.draw(last);
        let weight = sides.weight(s, t);
        Reading {
            s,
            t,
            demand: some_demand(random, weight.unwrap_or(0)),
            weight,
        }
    }

    // What the table of checks says of it on a plan of n nodes, where there is room for it or not; with no node it is
    // no sound one.
    fn check(self, n: usize, has_room: bool) -> Result<(), Refusal> {
        if n == 0 {
            return Err(Refusal::NotSound);
        }
        check_headroom(n, self.s, self.t, self.demand)?;
        if !has_room {
            return Err(Refusal::TooManyReadings);
        }
        Ok(())
    }

    // The weight less the demand.
    fn headroom(self) -> Option<i32> {
        i32::try_from(self.weight? as i64 - self.demand as i64).ok()
    }
}

// A demand that leaves one of these headrooms, or one that is a little higher; now and then one at its own limit. Where
// the weight is too small for it, one above the limit.
fn some_demand(random: &mut Random, weight: u32) -> u32 {
    if random.draw(10) == 0 {
        return MAX_DEMAND + random.draw(1) as u32;
    }
    let more = random.last(3) as i64;
    let headroom = HEADROOMS[random.draw(6)] + more;
    u32::try_from(weight as i64 - headroom).unwrap_or(MAX_DEMAND + 1)
}

// The record as it started, and the headrooms of the readings accepted since then, in order.
#[derive(Drop)]
struct Kept {
    start: Window,
    headrooms: ArrayVec<i32, LIST>,
}

impl Kept {
    fn new(start: Window) -> Kept {
        Kept {
            start,
            headrooms: ArrayVec::new(),
        }
    }

    fn count(&self) -> u32 {
        u32::try_from(self.headrooms.len()).map_or(
            u32::MAX,
            |more| self.start.count.saturating_add(more),
        )
    }

    // What a record is that has their count, the last and the least.
    fn window(&self) -> Window {
        let Window {
            last,
            lowest,
            count,
        } = self.start;
        let started = (count > 0).then_some(lowest);
        Window {
            last: self.headrooms.last().copied().unwrap_or(last),
            lowest: self
                .headrooms
                .iter()
                .copied()
                .chain(started)
                .min()
                .unwrap_or(lowest),
            count: self.count(),
        }
    }
}

// A text behind as many spaces as make it four bytes.
fn padded(text: &str) -> ArrayString<TEXT_ROOM> {
    let mut padded = ArrayString::new();
    let _fits = write!(padded, "{text:>4}");
    padded
}

// What a window shows of a headroom.
fn shown(headroom: i32) -> ArrayString<TEXT_ROOM> {
    match headroom {
        ..-99 => padded("LOW "),
        -99..1000 => padded(tenths(headroom as i64).as_str()),
        1000.. => padded("HIGH"),
    }
}

// A record on its way through a list on a plan, and the trial that draws and counts its readings.
#[derive(Drop)]
struct Run<'a> {
    trial: Trial<'a>,
    plan: &'a Plan,
    sides: &'a Sides,
    window: Window,
    kept: Kept,
}

impl<'a> Run<'a> {
    // A record that no reset made, with no readings or about as many as it takes.
    fn started(mut trial: Trial<'a>, plan: &'a Plan, sides: &'a Sides) -> Run<'a> {
        let headroom = trial.random.draw(400) as i32 - 200;
        let count = if trial.random.draw(2) == 0 {
            let mut ahead = trial.random;
            MAX_READINGS - 4 + ahead.draw(6) as u32
        } else {
            0
        };
        let window = Window {
            last: headroom,
            lowest: headroom,
            count,
        };
        let kept = Kept::new(window);
        Run {
            trial,
            plan,
            sides,
            window,
            kept,
        }
    }

    // Whether a reading gives the reply and leaves the record that it has to, by itself and on a copy.
    fn try_reading(&mut self, r: Reading) {
        let p = self.plan;
        let Reading { s, t, demand, .. } = r;
        let before = self.window;
        let outcome = r.check(p.network.nodes, self.kept.count() < MAX_READINGS);
        let (expected, text) = match outcome {
            Ok(()) => {
                let headroom = r.headroom().unwrap_or(0);
                let _fits = self.kept.headrooms.try_push(headroom);
                (0, shown(headroom))
            }
            Err(refusal) => (refusal.number(), padded("")),
        };
        let reply = gate_window::reading(&mut self.window, *p, s, t, demand);
        let window = self.window;
        let noted = gate_window::after_reading(*p, before, s, t, demand);
        // Kept: a number is compared, since the `From` that makes C's reply is tried here too.
        let got = WindowReply::from(reply);
        let right = got.number == expected
            && got.text.as_slice() == text.as_bytes()
            && window == self.kept.window()
            && noted == reply.map(|text| Noted { window, text });
        self.trial.tally.count_call(Kind::Reading, outcome, right);
    }

    // A reset, or mostly a reading. A reset leaves out the draws of a reading.
    fn one_step(&mut self) {
        if self.trial.random.draw(12) == 0 {
            self.trial.random.skip(4);
            gate_window::reset(&mut self.window);
            self.kept = Kept::new(Window::new());
            return;
        }
        let (n, sides) = (self.plan.network.nodes, self.sides);
        let reading = Reading::drawn(&mut self.trial.random, n, sides);
        self.try_reading(reading);
    }
}

// A list on the plan of a file, or sometimes on that beside the refusal of the file without its last byte.
pub fn try_network(trial: &mut Trial) {
    let net = trial.random.network(LAST_NODE, LINKS);
    let apart = trial.apart();
    let file = file_of(&net);
    let sides = Sides::if_fits(&net);
    let is_cut = apart.random.last(9) == 9;
    let opened = plan::open(if is_cut { cut(&file) } else { &file });
    let expected = is_cut.then_some(Refusal::EndsEarly);
    apart.tally.count(
        Kind::List,
        opened.err().map(|fault| fault.refusal) == expected,
    );
    let plan = opened.unwrap_or(plan::no_plan());
    let mut run = Run::started(apart, &plan, &sides);
    for _ in 0..LIST {
        run.one_step();
    }
}
