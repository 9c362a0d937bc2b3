// Commands that change the plan.
use crate::Run;
use network::Refusal;
use plan::{Altered, Plan};
use std::io;

// The most turns of `repeat` and `drain`.
const MOST_TURNS: u32 = 100;

impl<R: Print> Run<'_, R> {
    // What a change or an undo left: its count, or its refusal, which leaves the plan.
    fn note(&mut self, outcome: Result<Altered, Refusal>) -> io::Result<()> {
        match outcome {
            Ok(altered) => {
                self.plan = altered.plan;
                print!(self.rt; " not kept {}", altered.count)
            }
            Err(refusal) => print!(self.rt; " refused {refusal} not kept 0"),
        }
    }

    // The same call until it is refused: after how many turns, and the refusal.
    fn until_refused<F: Fn(Plan) -> Result<Altered, Refusal>>(&mut self, call: F) -> io::Result<()>
        requires { F.IsAlwaysCallable call }
    {
        for turns in 0..MOST_TURNS {
            match call(self.plan) {
                Ok(altered) => self.plan = altered.plan,
                refused => {
                    print!(self.rt; " turns {turns}")?;
                    return self.note(refused);
                }
            }
        }
        Ok(())
    }

    // `change LINK CAPACITY`
    pub fn change(&mut self, link: usize, capacity: u32) -> io::Result<()> {
        self.note(plan::change(self.plan, link, capacity))
    }

    // `undo`
    pub fn undo(&mut self) -> io::Result<()> {
        self.note(plan::undo(self.plan))
    }

    // `repeat LINK CAPACITY`: the same change until it is refused.
    pub fn repeat(&mut self, link: usize, capacity: u32) -> io::Result<()> {
        self.until_refused(|now| plan::change(now, link, capacity))
    }

    // `drain`: undo until it is refused.
    // Kept: with `plan::undo` itself in place of the closure the check admits no statement of the call, and so shows no
    // goal: "module `Rattle.plan.specs.contracts.changes.undo`: it has no file".
    pub fn drain(&mut self) -> io::Result<()> {
        self.until_refused(|now| plan::undo(now))
    }
}
