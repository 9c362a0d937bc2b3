// Runs the code on the lines of its input, and prints behind each line what came of it. A line is a label, a colon, a
// command and its arguments, as in `n 64: open 40 00` or `P3: change 1 1`; of the command only the first letter counts.
// A command works on the plan that the lines before it left; at first there is none, which is a plan of all zeros. What
// must come of each line is in the file stdout.
#![tactic(auto)]

mod answers; // commands that ask the plan: pair, view (a preview), headroom
mod bend; // the command that sets one number of the plan by hand
mod changes; // commands that change the plan: change, undo, repeat, drain
mod commands; // the commands, and how they stand in a line
mod files; // commands that open a file: open, longest, joined, many
mod flows; // the command flow
mod gate; // the command gate, a reading of a gate's record
mod print; // what several commands print
mod show; // commands that show the plan: tree, edge, steps, network
mod writing; // the commands write, and again, which opens what is written

ghost use Rattle.std.specs.Prelude.{◌≤◌, length, IfOk};

use commands::Command;
use plan::Plan;
use std::io;
use std::io::Read;

// So many bytes of the input are read.
const MAX_INPUT: usize = 65536;

// The plan that the lines so far left, and where it is printed what comes of the next.
#[derive(Drop)]
pub struct Run<'a, R> {
    pub rt: &'a R,
    pub plan: Plan,
}

impl<R: Print> Run<'_, R> {
    // Does what a command says, on the plan and to it.
    fn obey(&mut self, command: Command) -> io::Result<()> {
        match command {
            Command::Open { file } => self.open(&file),
            Command::Longest { length } => self.open_longest(length),
            Command::Joined { length } => self.open_joined(length),
            Command::Many { low, high, length } => self.open_many(low, high, length),
            Command::Again => self.open_again(),
            Command::Change { link, capacity } => self.change(link, capacity),
            Command::Undo => self.undo(),
            Command::Repeat { link, capacity } => self.repeat(link, capacity),
            Command::Drain => self.drain(),
            Command::Bend {
                field,
                place,
                value,
            } => self.bend(field, place, value),
            Command::Tree => self.tree(),
            Command::Edge => self.edge(),
            Command::Steps => self.steps(),
            Command::Network => self.network(),
            Command::Pair { s, t } => self.pair(s, t),
            Command::View {
                link,
                capacity,
                s,
                t,
            } => self.view(link, capacity, s, t),
            Command::Headroom { s, t, demand } => self.headroom(s, t, demand),
            Command::Flow { s, t, length } => self.flow(s, t, length),
            Command::Gate {
                s,
                t,
                demand,
                window,
            } => self.reading(s, t, demand, window),
            Command::Write { length } => self.write(length),
        }
    }

    // A line, and what comes of it.
    fn turn(&mut self, line: &[u8]) -> io::Result<()> {
        self.rt.write_all(line)?;
        print!(self.rt; " ->")?;
        match Command::of_line(line) {
            Some(command) => self.obey(command)?,
            None => print!(self.rt; " no command")?,
        }
        println!(self.rt;)
    }
}

// Reads until the buffer is full or the input ends, and gives how many bytes were read.
// Kept: as in `pairs`, `read_to_end` needs a heap, and at first asks for less than what fits.
fn read_full(input: &mut impl Read, buffer: &mut [u8]) -> io::Result<usize>
    ensures { IfOk result (λ n. n ≤ length buffer.new) }
{
    let mut done = 0;
    while done < buffer.len() {
        let n = input.read(&mut buffer[done..])?;
        if n == 0 {
            break;
        }
        done += n;
    }
    Ok(done)
}

fn main(rt: HostRuntime) -> io::Result<()> {
    let mut input = [0u8; MAX_INPUT];
    let read = read_full(&mut rt.stdin(), &mut input)?;
    let mut run = Run {
        rt: &rt,
        plan: plan::no_plan(),
    };
    for line in input[..read].split_inclusive(|byte| *byte == b'\n') {
        run.turn(line.strip_suffix(b"\n").unwrap_or(line))?;
    }
    Ok(())
}
