// Commands that ask the plan.
use crate::Run;
use crate::print::{Found, Text};
use std::io;

impl<R: Print> Run<'_, R> {
    // `pair S T`
    pub fn pair(&self, s: usize, t: usize) -> io::Result<()> {
        match plan::pair(self.plan, s, t) {
            Ok(pair) => print!(self.rt; "{}", Found(pair)),
            Err(refusal) => print!(self.rt; " refused {refusal}"),
        }
    }

    // `view LINK CAPACITY S T`: a preview, the pair's answer and the change's count; refused, 0.
    pub fn view(&self, link: usize, capacity: u32, s: usize, t: usize) -> io::Result<()> {
        match plan::preview(self.plan, link, capacity, s, t) {
            Ok(preview) => { print!(self.rt; "{} not kept {}", Found(preview.pair), preview.count) }
            Err(refusal) => print!(self.rt; " refused {refusal} not kept 0"),
        }
    }

    // `headroom S T DEMAND`: the value, and the text between brackets; refused, 0 and spaces.
    pub fn headroom(&self, s: usize, t: usize, demand: u32) -> io::Result<()> {
        match plan::headroom(self.plan, s, t, demand) {
            Ok(headroom) => print!(self.rt; " {} [{}]", headroom.value, Text(&headroom.text)),
            Err(refusal) => print!(self.rt; " refused {refusal} 0 [{:12}]", ""),
        }
    }
}
