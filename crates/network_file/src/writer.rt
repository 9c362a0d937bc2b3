// A network written into a file: n, m, then a, b, c for each link in order.
ghost use Rattle.std.specs.Prelude.{[], length, ◌≡◌, ◌∷◌, ◌≤◌, ◌<◌};
ghost use Rattle.network.specs.Limits.{max_groups};
ghost use Rattle.network_file.specs.Number.{group_bytes, number_bytes};
ghost use Rattle.network_file.specs.Results.{as_written};
ghost use Rattle.network_file.specs.Writing.{bytes_of_link, link_bytes, file_of, file_write_of, file_written_to};
ghost use Rattle.network_file.specs.code.Writers.{HasRoom, Wrote};

use crate::numbers::number_length;
use network::{Link, MAX_GROUPS, Refusal, ValidNetwork};

// How many bytes a link has.
#[tactic(auto, using(crate::proofs::laws::LengthLaws::number_most))]
fn link_length(link: Link) -> usize
    ensures { result ≡ length (bytes_of_link max_groups link.a link.b link.capacity) }
{
    number_length(link.a as u32) + number_length(link.b as u32) + number_length(link.capacity)
}

// How many bytes all links have.
fn links_length(net: ValidNetwork) -> usize
    ensures { result ≡ length (link_bytes max_groups net.network net.network.links) }
{
    net.each_link().map(link_length).sum()
}

// How many bytes a network's file has.
#[tactic(auto, using(crate::proofs::laws::WritingSteps::file_limits))]
pub fn file_length(net: ValidNetwork) -> usize
    ensures { result ≡ length (file_of net.network) }
{
    number_length(net.network.nodes as u32)
        + number_length(net.network.links as u32)
        + links_length(net)
}

// A buffer, and the place where writing goes on.
// Kept: `listing` has a struct with these two fields, too. Of std's `Cursor` only `write` tells which bytes it wrote,
// and gives a result to unwrap each time; and the methods of a struct for both crates would be functions or a trait of
// each.
#[derive(Drop)]
struct Writer<'a> {
    out: &'a mut [u8],
    place: usize,
}

impl Writer<'_> {
    // Writes a byte.
    fn put(&mut self, x: u8)
        requires { self.old.place < length self.old.out.now }
        ensures { Wrote self.old self.new (x ∷ []) }
    {
        self.out[self.place] = x;
        self.place += 1;
    }

    // Writes v, in at most `left` groups.
    // Kept: the definition goes down `left`, too, as in `groups_length`.
    fn put_groups(&mut self, v: u32, left: usize)
        requires { HasRoom self.old (group_bytes left v) }
        ensures { Wrote self.old self.new (group_bytes left v) }
    {
        if left == 0 {
            return;
        }
        if v < 128 {
            self.put(v as u8);
            return;
        }
        self.put((128 + v % 128) as u8);
        self.put_groups(v / 128, left - 1);
    }

    // Writes v.
    fn put_number(&mut self, v: u32)
        requires { HasRoom self.old (number_bytes v) }
        ensures { Wrote self.old self.new (number_bytes v) }
    {
        self.put_groups(v, MAX_GROUPS);
    }

    // Writes a link.
    fn put_link(&mut self, link: Link)
        requires { HasRoom self.old (bytes_of_link max_groups link.a link.b link.capacity) }
        ensures { Wrote self.old self.new (bytes_of_link max_groups link.a link.b link.capacity) }
    {
        self.put_number(link.a as u32);
        self.put_number(link.b as u32);
        self.put_number(link.capacity);
    }

    // Writes all links.
    #[tactic(auto, using(network::proofs::laws::NetworkLaws::limits))]
    fn put_links(&mut self, net: ValidNetwork)
        requires { HasRoom self.old (link_bytes max_groups net.network net.network.links) }
        ensures { Wrote self.old self.new (link_bytes max_groups net.network net.network.links) }
    {
        for link in net.each_link() {
            self.put_link(link);
        }
    }
}

// Writes a network's file to the front of a buffer, and gives its length; a buffer that is too short stays as it was.
#[tactic(auto, using(network::proofs::laws::NetworkLaws::limits))]
pub fn write(net: ValidNetwork, out: &mut [u8]) -> Result<usize, Refusal>
    ensures value { as_written result ≡ file_write_of net.network (length out.old) }
    ensures out_after { out.new ≡ file_written_to net.network out.old }
{
    let length = file_length(net);
    if out.len() < length {
        return Err(Refusal::BufferTooShort);
    }
    let mut writer = Writer { out, place: 0 };
    writer.put_number(net.network.nodes as u32);
    writer.put_number(net.network.links as u32);
    writer.put_links(net);
    Ok(length)
}
