// Random networks, from a linear congruential generator that each run starts alike, so that every run draws the same
// ones.
ghost use Rattle.std.specs.Prelude.{◌<◌, ◌≤◌};
ghost use Rattle.network.specs.Limits.{max_capacity, max_links, max_nodes};

use network::{MAX_CAPACITY, Network};

#[derive(Clone, Copy)]
pub struct Random {
    state: usize,
}

impl Random {
    pub fn new(seed: usize) -> Random {
        Random { state: seed }
    }

    // One to go on with beside this one, for draws that are not those of this one.
    pub fn apart(self) -> Random {
        Random {
            state: self.state ^ 1431655765,
        }
    }

    // Moves on by so many draws.
    pub fn skip(&mut self, draws: usize) {
        for _ in 0..draws {
            self.state = (self.state % 2147483648 * 1103515245 + 12345) % 2147483648;
        }
    }

    // The number from 0 to most that the last state gives. It leaves out the eight lowest bits, which repeat soonest.
    pub fn last(self, most: usize) -> usize
        requires { most < 4294967296 }
        ensures { result ≤ most }
    {
        self.state / 256 % (most + 1)
    }

    // Moves on, and gives a number from 0 to most.
    pub fn draw(&mut self, most: usize) -> usize
        requires { most < 4294967296 }
        ensures { result ≤ most }
    {
        self.skip(1);
        self.last(most)
    }

    // A node from 0 to last that is not a, where last is not 0.
    fn other_node(&mut self, a: usize, last: usize) -> usize
        requires { (a ≤ last) × (last < max_nodes) }
        ensures { result ≤ last }
    {
        let b = self.draw(last);
        if b != a { b } else { (a + 1) % (last + 1) }
    }

    // The highest capacity that is drawn: mostly so small that ties and zeros are common; else of two, three or four
    // groups in a file.
    fn highest(&mut self) -> usize
        ensures { result ≤ max_capacity }
    {
        match self.draw(7) {
            0 | 1 => 1,
            2 | 3 => 3,
            4 => 12,
            5 => 16_383,
            6 => 2_097_151,
            _ => MAX_CAPACITY as usize,
        }
    }

    // A network of at most last + 1 nodes and at most `most` links; of none where it has one node.
    // Kept: these come from constants, so that their limits need no proof where they are handed in; a struct of both
    // would be made of them and taken apart here.
    pub fn network(&mut self, last: usize, most: usize) -> Network
        requires { (last < max_nodes) × (most ≤ max_links) }
    {
        let last = self.draw(last);
        let links = self.draw(if last == 0 { 0 } else { most });
        let highest = self.highest();
        let mut net = Network::new(last + 1, links);
        let ends = net.a.iter_mut().zip(&mut net.b);
        for ((a, b), capacity) in ends.zip(&mut net.capacity).take(links) {
            let from = self.draw(last);
            *a = from as u8;
            *b = self.other_node(from, last) as u8;
            *capacity = self.draw(highest) as u32;
        }
        net
    }

    // A capacity for link k to change to: sometimes the one that it has.
    pub fn new_capacity(&mut self, net: &Network, k: usize) -> u32 {
        if self.draw(7) == 0 {
            return net.capacity.get(k).copied().unwrap_or(0);
        }
        let highest = self.highest();
        self.draw(highest) as u32
    }
}
