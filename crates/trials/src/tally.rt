// What was compared, and how often it disagreed.
ghost use Rattle.std.specs.Prelude.{ℕ, ◌<◌, ◌≢◌};

use network::Refusal;
use std::{fmt, io};

// What is compared, in the order that it is printed in.
#[derive(Clone, Copy)]
pub enum Kind {
    Network,
    Change,
    List,
    Call,
    Preview,
    RefusedPreview,
    Reading,
    RefusedReading,
    Pair,
}

// How many there are, and all of them in that order.
const KINDS: usize = 9;

const ALL: [Kind; KINDS] = [
    Kind::Network,
    Kind::Change,
    Kind::List,
    Kind::Call,
    Kind::Preview,
    Kind::RefusedPreview,
    Kind::Reading,
    Kind::RefusedReading,
    Kind::Pair,
];

impl Kind {
    // What a call of this kind is counted as where it is refused.
    fn refused(self) -> Kind {
        match self {
            Kind::Preview => Kind::RefusedPreview,
            Kind::Reading => Kind::RefusedReading,
            _ => self,
        }
    }
}

// As many of them are called.
impl fmt::Display for Kind {
    fn fmt<W: fmt::Write>(&self, f: &mut fmt::Formatter<W>) -> fmt::Result {
        f.write_str(match self {
            Kind::Network => "networks",
            Kind::Change => "changes",
            Kind::List => "lists",
            Kind::Call => "calls",
            Kind::Preview => "previews",
            Kind::RefusedPreview => "refused previews",
            Kind::Reading => "readings",
            Kind::RefusedReading => "refused readings",
            Kind::Pair => "pairs",
        })
    }
}

// One more than the highest number of a refusal.
const NUMBERS: usize = 21;

// The refusals that came, each at its number.
// Kept: a `BTreeSet` needs a heap, as a `BTreeMap` of the counts by kind would below.
#[derive(Clone, Copy)]
pub struct Refusals([Option<Refusal>; NUMBERS]);

impl Refusals {
    fn insert(&mut self, refusal: Refusal) {
        if let Some(place) = self.0.get_mut(refusal.number() as usize) {
            *place = Some(refusal);
        }
    }
}

// How many of each kind were compared, in their order, and how many disagreed. The counts stay far below 2^64.
#[derive(Clone, Copy)]
pub struct Tally {
    counts: [u64; KINDS],
    wrong: u64,
    // the refusals that came, and those of previews
    pub refusals: Refusals,
    pub preview_refusals: Refusals,
}

impl Tally {
    pub fn new() -> Tally {
        Tally {
            counts: [0; KINDS],
            wrong: 0,
            refusals: Refusals([None; NUMBERS]),
            preview_refusals: Refusals([None; NUMBERS]),
        }
    }

    pub fn count(&mut self, kind: Kind, right: bool) {
        if let Some(times) = self.counts.get_mut(kind as usize) {
            *times = times.saturating_add(1);
        }
        if !right {
            self.wrong = self.wrong.saturating_add(1);
        }
    }

    // Counts a call, and notes its refusal, if it was refused. Previews have a set of their own.
    pub fn count_call(&mut self, kind: Kind, outcome: Result<(), Refusal>, right: bool) {
        let Err(refusal) = outcome else {
            return self.count(kind, right);
        };
        self.count(kind.refused(), right);
        let refusals = match kind {
            Kind::Preview => &mut self.preview_refusals,
            _ => &mut self.refusals,
        };
        refusals.insert(refusal);
    }

    // Counts each two of n nodes, in both orders, as they are judged.
    pub fn count_pairs<F: Fn(usize, usize) -> bool>(&mut self, n: usize, judge: F)
        requires { (s t : ℕ) → s < n → t < n → s ≢ t → F.pre judge s t }
    {
        for s in 0..n {
            for t in 0..n {
                if s != t {
                    self.count(Kind::Pair, judge(s, t));
                }
            }
        }
    }

    // " 12 things" of each kind that there is, and the disagreements
    pub fn print(&self, rt: &impl Print, name: &str) -> io::Result<()> {
        print!(rt; "{name}")?;
        for (kind, count) in ALL.iter().zip(&self.counts) {
            if *count > 0 {
                print!(rt; " {count} {kind}")?;
            }
        }
        println!(rt; " {} disagreements", self.wrong)
    }
}

// Words, and the numbers of the refusals that came.
pub fn print_refusals(rt: &impl Print, words: &str, refusals: &Refusals) -> io::Result<()> {
    print!(rt; "{words}")?;
    for refusal in refusals.0.iter().flatten() {
        print!(rt; " {refusal}")?;
    }
    println!(rt)
}
