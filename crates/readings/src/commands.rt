// The commands, each with its arguments, and how they stand in a line. A line may hold any bytes: a number that is
// missing reads as 0, and in a number what is no digit is passed over.
use crate::bend::Field;
use arrayvec::ArrayVec;
use gate_window::Window;

// The most bytes of a file that a line gives, and their digits.
const MOST_BYTES: usize = 64;

const MOST_DIGITS: usize = 128;

#[derive(Debug, Drop)]
pub enum Command {
    // `open BYTES`: a file in hexadecimal
    Open {
        file: ArrayVec<u8, MOST_BYTES>,
    },
    // `longest LENGTH`
    Longest {
        length: usize,
    },
    // `joined LENGTH`
    Joined {
        length: usize,
    },
    // `many LOW HIGH LENGTH`
    Many {
        low: u8,
        high: u8,
        length: usize,
    },
    // `again`
    Again,
    // `change LINK CAPACITY`
    Change {
        link: usize,
        capacity: u32,
    },
    // `undo`
    Undo,
    // `repeat LINK CAPACITY`
    Repeat {
        link: usize,
        capacity: u32,
    },
    // `drain`
    Drain,
    // `bend FIELD PLACE VALUE`
    Bend {
        field: Option<Field>,
        place: usize,
        value: u32,
    },
    // `tree`
    Tree,
    // `edge`
    Edge,
    // `steps`
    Steps,
    // `network`
    Network,
    // `pair S T`
    Pair {
        s: usize,
        t: usize,
    },
    // `view LINK CAPACITY S T`
    View {
        link: usize,
        capacity: u32,
        s: usize,
        t: usize,
    },
    // `headroom S T DEMAND`
    Headroom {
        s: usize,
        t: usize,
        demand: u32,
    },
    // `flow S T LENGTH`
    Flow {
        s: usize,
        t: usize,
        length: usize,
    },
    // `gate S T DEMAND LAST LOWEST COUNT`
    Gate {
        s: usize,
        t: usize,
        demand: u32,
        window: Window,
    },
    // `write LENGTH`
    Write {
        length: usize,
    },
}

// What stands before the first such byte, and what stands behind it; where there is none, all and nothing.
fn split_once(text: &[u8], separator: u8) -> (&[u8], &[u8]) {
    let mut parts = text.splitn(2, |byte| *byte == separator);
    let before = parts.next().unwrap_or_default();
    (before, parts.next().unwrap_or_default())
}

// A number with one digit more, where that fits.
// Kept: `parse` refuses all of a number that is too large, where this leaves out the digit that makes it so.
fn longer(number: u32, digit: u32) -> u32 {
    number
        .checked_mul(10)
        .and_then(|tens| tens.checked_add(digit))
        .unwrap_or(number)
}

// The decimal number of a word's digits, without each that would make it too large.
// Kept: `parse` refuses a word with something else in it, and all of a number that is too large; here `1-2` is 12, and
// `42949672999` is 429496729.
fn number(word: &[u8]) -> u32 {
    word.iter()
        .filter_map(|byte| char::from(*byte).to_digit(10))
        .fold(0, longer)
}

// A number's low 31 bits.
fn low_bits(number: u32) -> i32 {
    (number % 2_147_483_648) as i32
}

// The decimal number of a word, below zero where the word begins with a minus. A larger size is cut.
// Kept: `parse` refuses `-1x2`, which is -12 here, and `2147483648`, of which 31 bits are 0.
fn signed(word: &[u8]) -> i32 {
    let size = number(word);
    match size.checked_sub(1) {
        Some(less) if word.starts_with(b"-") => -1 - low_bits(less),
        _ => low_bits(size),
    }
}

// The value of a digit of base 16, of which the letters are small.
// Kept: `to_digit` and `from_str_radix` take capitals as well, which are left out here as all other bytes are.
fn hex_digit(byte: &u8) -> Option<u32> {
    let digit = char::from(*byte).to_digit(16);
    digit.filter(|_| !byte.is_ascii_uppercase())
}

// The words of a command that are still to be read, with one space between two. A word that is missing is empty.
#[derive(Clone, Copy)]
struct Words<'a>(&'a [u8]);

impl<'a> Words<'a> {
    fn word(&mut self) -> &'a [u8] {
        let (word, rest) = split_once(self.0, b' ');
        self.0 = rest;
        word
    }

    // The first letter of the next word.
    fn letter(&mut self) -> Option<u8> {
        self.word().first().copied()
    }

    // The next word, as a number.
    fn number(&mut self) -> u32 {
        number(self.word())
    }

    // The next word, as a number of nodes, links or bytes, or a place.
    fn size(&mut self) -> usize {
        self.number() as usize
    }

    // The next word, as a number whose low byte counts.
    fn byte(&mut self) -> u8 {
        (self.number() & 0xff) as u8
    }

    // The next word, as a number with its sign.
    fn signed(&mut self) -> i32 {
        signed(self.word())
    }

    // The bytes whose digits are left, two for each, wherever they stand.
    fn bytes(self) -> ArrayVec<u8, MOST_BYTES> {
        let mut digits: ArrayVec<u32, MOST_DIGITS> = ArrayVec::new();
        for digit in self.0.iter().filter_map(hex_digit) {
            let _fits = digits.try_push(digit);
        }
        let mut bytes = ArrayVec::new();
        let (pairs, _half) = digits.as_chunks::<2>();
        for [high, low] in pairs {
            let _fits = bytes.try_push(((*high << 4 | *low) & 0xff) as u8);
        }
        bytes
    }
}

impl Command {
    // The command of a line, behind the first space behind the label and its colon; none where the letter there is none
    // of theirs.
    // Kept: an arm for each letter is the shortest way to say which command it names.
    pub fn of_line(line: &[u8]) -> Option<Command> {
        let (_label, behind) = split_once(line, b':');
        let (_between, command) = split_once(behind, b' ');
        let mut words = Words(command);
        Some(match words.letter() {
            Some(b'o') => Command::Open {
                file: words.bytes(),
            },
            Some(b'l') => Command::Longest {
                length: words.size(),
            },
            Some(b'j') => Command::Joined {
                length: words.size(),
            },
            Some(b'm') => Command::Many {
                low: words.byte(),
                high: words.byte(),
                length: words.size(),
            },
            Some(b'a') => Command::Again,
            Some(b'c') => Command::Change {
                link: words.size(),
                capacity: words.number(),
            },
            Some(b'u') => Command::Undo,
            Some(b'r') => Command::Repeat {
                link: words.size(),
                capacity: words.number(),
            },
            Some(b'd') => Command::Drain,
            Some(b'b') => Command::Bend {
                field: words.letter().and_then(Field::of_letter),
                place: words.size(),
                value: words.number(),
            },
            Some(b't') => Command::Tree,
            Some(b'e') => Command::Edge,
            Some(b's') => Command::Steps,
            Some(b'n') => Command::Network,
            Some(b'p') => Command::Pair {
                s: words.size(),
                t: words.size(),
            },
            Some(b'v') => Command::View {
                link: words.size(),
                capacity: words.number(),
                s: words.size(),
                t: words.size(),
            },
            Some(b'h') => Command::Headroom {
                s: words.size(),
                t: words.size(),
                demand: words.number(),
            },
            Some(b'f') => Command::Flow {
                s: words.size(),
                t: words.size(),
                length: words.size(),
            },
            Some(b'g') => Command::Gate {
                s: words.size(),
                t: words.size(),
                demand: words.number(),
                window: Window {
                    last: words.signed(),
                    lowest: words.signed(),
                    count: words.number(),
                },
            },
            Some(b'w') => Command::Write {
                length: words.size(),
            },
            _ => return None,
        })
    }
}
