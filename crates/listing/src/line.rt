// A line of the listing: a word and numbers, one space before each number, a line feed after the last.
ghost use Rattle.std.specs.Prelude.{◌≡◌};
ghost use Rattle.text.specs.Text.{decimal};
ghost use Rattle.listing.specs.Listing.{decimals_of, line_of};
ghost use Rattle.listing.specs.code.Adds.{Adds, Room};

// A listing while it is written: its buffer, and the place behind what stands there.
// Kept: the library does not allocate, so that no string can grow here; and of std's `Cursor` only `write` tells which
// bytes it wrote, and gives a result to unwrap each time.
#[derive(Drop)]
pub struct Lines<'a> {
    pub out: &'a mut [u8],
    pub place: usize,
}

impl<'a> Lines<'a> {
    pub fn new(out: &'a mut [u8]) -> Lines<'a>
        ensures same { result.out.ghost_name ≡ out.entry.ghost_name }
        ensures out { result.out.now ≡ out.old }
        ensures place { result.place ≡ 0 }
    {
        Lines { out, place: 0 }
    }

    fn word(&mut self, word: &[u8])
        requires { Room self.old word.now }
        ensures { Adds self.old word.now self.new }
    {
        // Kept: `copy_from_slice` would have the archive for C ask for a `memmove` from outside.
        let mut next = self.place;
        for byte in word {
            self.out[next] = *byte;
            next += 1;
        }
        self.place = next;
    }

    fn number(&mut self, number: u64)
        requires { Room self.old (decimal number) }
        ensures { Adds self.old (decimal number) self.new }
    {
        self.place += text::put_decimal(&mut self.out[self.place..], number);
    }

    // The numbers and the line feed.
    fn numbers(&mut self, numbers: &[u64])
        requires { Room self.old (decimals_of numbers.now) }
        ensures { Adds self.old (decimals_of numbers.now) self.new }
    {
        for number in numbers {
            self.word(b" ");
            self.number(*number);
        }
        self.word(b"\n");
    }

    pub fn line(&mut self, word: &[u8], numbers: &[u64])
        requires { Room self.old (line_of word.now numbers.now) }
        ensures { Adds self.old (line_of word.now numbers.now) self.new }
    {
        self.word(word);
        self.numbers(numbers);
    }
}
