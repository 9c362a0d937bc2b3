// A file read into a network. A number passes 1 to 3, then its own row, before the next is read.
ghost use Rattle.std.specs.Prelude.{length, ◌≡◌, ◌≤◌};
ghost use Rattle.network.specs.Limits.{max_nodes, max_links, max_groups};
ghost use Rattle.network_file.specs.Reading.{taken, link_at, going, unread, read_links, read_by, read_file};
ghost use Rattle.network_file.specs.Results.{as_reading};
ghost use Rattle.network_file.specs.code.Parts.{as_taken, as_link, as_progress, as_read};
ghost use Rattle.network_file.specs.code.Rows.{row_of};

use crate::numbers::read_number;
use crate::{Fault, Row};
use network::{Link, MAX_CAPACITY, MAX_LINKS, Network, Refusal, ValidNetwork};

// The rows of m and of a capacity.
const LINKS_ROW: Row = Row::AtMost {
    most: MAX_LINKS as u32,
    refusal: Refusal::TooManyLinks,
};

const CAPACITY_ROW: Row = Row::AtMost {
    most: MAX_CAPACITY,
    refusal: Refusal::LinkTooLarge,
};

// A file, and the place where reading goes on.
#[derive(Clone, Copy)]
struct Reader<'a> {
    file: &'a [u8],
    place: usize,
    ghost within: { place ≤ length file.now },
}

// Kept: `third`, the row of a link's third number, goes beside the reader: as a field of it, each contract would have
// to say that it stays, too.
impl Reader<'_> {
    // The next number, by its row.
    fn take(&mut self, row: Row) -> Result<u32, Fault>
        ensures file { self.new.file.now ≡ self.old.file.now }
        ensures value { as_taken self.new.place result
            ≡ taken max_groups self.old.file.now self.old.place (row_of row) }
    {
        let place = self.place;
        let at_place = |refusal| Fault { refusal, place };
        let number = read_number(&self.file[place..]).map_err(at_place)?;
        row.check(number.value).map_err(at_place)?;
        self.place = place + number.size;
        Ok(number.value)
    }

    // The next link, of a network of n nodes; its third number passes the row given.
    fn link(&mut self, n: usize, third: Row) -> Result<Link, Fault>
        requires { n ≤ max_nodes }
        ensures file { self.new.file.now ≡ self.old.file.now }
        ensures value { as_link self.new.place result
            ≡ link_at max_groups (row_of third) self.old.file.now self.old.place n }
    {
        let a = self.take(Row::End { n })?;
        let b = self.take(Row::OtherEnd { n, a })?;
        let capacity = self.take(third)?;
        Ok(Link {
            a: a as u8,
            b: b as u8,
            capacity,
        })
    }

    // The next m links, of a network of n nodes.
    fn links(&mut self, n: usize, m: usize, third: Row) -> Result<Network, Fault>
        requires { (n ≤ max_nodes) × (m ≤ max_links) }
        ensures file { self.new.file.now ≡ self.old.file.now }
        ensures value { as_progress self.new.place result
            ≡ read_links max_groups (row_of third) self.old.file.now m (going self.old.place (unread n m)) }
    {
        let mut network = Network::new(n, m);
        // Kept: what is written through a `zip` of places and links is not known after the loop, so that no invariant
        // can say it.
        for k in 0..m {
            let link = self.link(n, third)?;
            network.set_link(k, link);
        }
        Ok(network)
    }
}

// What a file reads as, where the third number of a link passes the row given.
fn read_by(file: &[u8], third: Row) -> Result<Network, Fault>
    ensures { as_read result ≡ read_by max_groups (row_of third) file.now }
{
    let mut reader = Reader { file, place: 0 };
    let n = reader.take(Row::Nodes)?;
    let m = reader.take(LINKS_ROW)?;
    let network = reader.links(n as usize, m as usize, third)?;
    if reader.place < file.len() {
        return Err(Fault {
            refusal: Refusal::BytesFollow,
            place: reader.place,
        });
    }
    Ok(network)
}

// Reads a file into its network.
pub fn read(file: &[u8]) -> Result<ValidNetwork, Fault>
    ensures { as_reading result ≡ read_file file.now }
{
    let network = read_by(file, CAPACITY_ROW)?;
    Ok(ValidNetwork { network })
}
