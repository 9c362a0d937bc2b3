// The commands `write LENGTH` and `again`.
use crate::Run;
use std::io;

// The bytes of a buffer for every file, and what each is before.
const ROOM: usize = 1560;

const UNWRITTEN: u8 = 0xee;

// The bytes of the longest buffer that is shown.
const SHOWN: usize = 24;

impl<R: Print> Run<'_, R> {
    // `write LENGTH`: the file's length, and of a buffer of at most 24 bytes all that it holds afterwards; before, each
    // is ee.
    pub fn write(&self, length: usize) -> io::Result<()> {
        let mut room = [UNWRITTEN; ROOM];
        let out = &mut room[..length.min(ROOM)];
        match plan::write(self.plan, out) {
            Ok(written) => print!(self.rt; " length {written}")?,
            Err(refusal) => print!(self.rt; " refused {refusal} length 0")?,
        }
        if length <= SHOWN {
            for byte in out {
                print!(self.rt; " {byte:02x}")?;
            }
        }
        Ok(())
    }

    // `again`: the file then written, opened; refused, an empty one.
    pub fn open_again(&mut self) -> io::Result<()> {
        let mut out = [UNWRITTEN; ROOM];
        let length = plan::write(self.plan, &mut out).unwrap_or(0);
        self.open(out.get(..length).unwrap_or(&out))
    }
}
