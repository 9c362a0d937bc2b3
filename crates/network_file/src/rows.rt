// What a number of the file has to pass beside 1 to 3: its own row, 4 to 8.
ghost use Rattle.std.specs.Prelude.{◌≡◌};
ghost use Rattle.network.specs.Refusals.{outcome_number};
ghost use Rattle.network_file.specs.code.Rows.{row_of};

use crate::Row;
use network::{MAX_NODES, Refusal};

impl Row {
    // Whether a value passes.
    pub fn check(self, value: u32) -> Result<(), Refusal>
        ensures { outcome_number result ≡ row_of self value }
    {
        let v = value as usize;
        match self {
            Row::Nodes if v == 0 || v > MAX_NODES => Err(Refusal::BadNodeCount),
            Row::AtMost { most, refusal } if value > most => Err(refusal),
            Row::End { n } | Row::OtherEnd { n, .. } if v >= n => Err(Refusal::EndNotANode),
            Row::OtherEnd { a, .. } if value == a => Err(Refusal::EqualEnds),
            _ => Ok(()),
        }
    }
}
