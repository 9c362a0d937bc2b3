// Commands that open a file.
use crate::Run;
use network::{MAX_LINKS, MAX_NODES, Network};
use std::io;

// The bytes before the links of a file: n, and m in two bytes.
const HEAD: usize = 3;

// The bytes of a link of the longest file: its ends, and a capacity in four bytes.
const LONG_LINK: usize = 6;

// The bytes of a link of a capacity below 128: its ends and the capacity.
const SHORT_LINK: usize = 3;

// The longest file, and one byte more.
const LONGEST: usize = HEAD + LONG_LINK * MAX_LINKS + 1;

// A file of one link more than a network can have.
const MANY: usize = HEAD + SHORT_LINK * (MAX_LINKS + 1);

// The number of nodes, the number of links, and the last link.
fn put_network(rt: &impl Print, net: &Network) -> io::Result<()> {
    print!(rt; " accepted nodes {} links {}", net.nodes, net.links)?;
    let links = net.a.iter().zip(&net.b).zip(&net.capacity);
    match links.take(net.links).last() {
        Some(((a, b), capacity)) => print!(rt; " last {a} {b} {capacity}"),
        None => Ok(()),
    }
}

// The first bytes of a file, all where there are not so many.
fn front(file: &[u8], length: usize) -> &[u8] {
    file.get(..length).unwrap_or(file)
}

// The longest file, of 64 nodes and 256 links, with one byte more, 0. Link k is to the next node, of a capacity up to
// 8,000,000, in four bytes.
// Kept: one function for this file and the two below would be lent the head, both lengths and a closure for the link,
// with clauses that the head fits and that a link has a byte: it would be longer than the three.
fn longest_file() -> [u8; LONGEST] {
    let mut file = [0; LONGEST];
    file[..HEAD].copy_from_slice(&[0x40, 0x80, 0x02]);
    for (k, link) in file[HEAD..].chunks_exact_mut(LONG_LINK).enumerate() {
        let a = (k % MAX_NODES) as u8;
        let b = ((k + 1) % MAX_NODES) as u8;
        link.copy_from_slice(&[a, b, 0x80, (128 + k % 37) as u8, 0xe8, 0x03]);
    }
    file
}

// Two nodes with 256 links of 8,000,000 between them, and one byte more, 0.
fn joined_nodes() -> [u8; LONGEST] {
    let mut file = [0; LONGEST];
    file[..HEAD].copy_from_slice(&[0x02, 0x80, 0x02]);
    for link in file[HEAD..].chunks_exact_mut(LONG_LINK) {
        link.copy_from_slice(&[0, 1, 0x80, 0xa4, 0xe8, 0x03]);
    }
    file
}

// Two nodes, m in the two bytes given, and 257 links of capacity 0 from node 0 to node 1.
fn many_links(low: u8, high: u8) -> [u8; MANY] {
    let mut file = [0; MANY];
    file[..HEAD].copy_from_slice(&[0x02, low, high]);
    for link in file[HEAD..].chunks_exact_mut(SHORT_LINK) {
        link.copy_from_slice(&[0, 1, 0]);
    }
    file
}

impl<R: Print> Run<'_, R> {
    // `open BYTES`: the file that the line gives. Refused, no plan is left.
    pub fn open(&mut self, file: &[u8]) -> io::Result<()> {
        match plan::open(file) {
            Ok(opened) => {
                self.plan = opened;
                put_network(self.rt, &opened.network)
            }
            Err(fault) => {
                self.plan = plan::no_plan();
                print!(self.rt; " refused {} at {}", fault.refusal, fault.place)
            }
        }
    }

    // `longest LENGTH`: the longest file with one byte more, its first LENGTH bytes.
    pub fn open_longest(&mut self, length: usize) -> io::Result<()> {
        self.open(front(&longest_file(), length))
    }

    // `joined LENGTH`: the file of the highest weight with one byte more, its first LENGTH bytes.
    pub fn open_joined(&mut self, length: usize) -> io::Result<()> {
        self.open(front(&joined_nodes(), length))
    }

    // `many LOW HIGH LENGTH`: a file of 257 links with m in the bytes LOW and HIGH, its first LENGTH bytes.
    pub fn open_many(&mut self, low: u8, high: u8, length: usize) -> io::Result<()> {
        self.open(front(&many_links(low, high), length))
    }
}
