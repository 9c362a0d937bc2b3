// What several commands print.
use cut_tree::PairFound;
use std::fmt;
use std::fmt::Write;

// The weight, the node whose parent edge it is, the side as a number, and how many nodes the side has.
#[derive(Clone, Copy, Debug)]
pub struct Found(pub PairFound);

impl fmt::Display for Found {
    fn fmt<W: fmt::Write>(&self, f: &mut fmt::Formatter<W>) -> fmt::Result {
        let PairFound {
            weight,
            node,
            side,
            size,
        } = self.0;
        write!(f, " weight {weight} node {node} side {side} size {size}")
    }
}

// The characters of a text.
#[derive(Clone, Copy, Debug)]
pub struct Text<'a>(pub &'a [u8]);

impl fmt::Display for Text<'_> {
    fn fmt<W: fmt::Write>(&self, f: &mut fmt::Formatter<W>) -> fmt::Result {
        for byte in self.0 {
            f.write_char(char::from(*byte))?;
        }
        Ok(())
    }
}
