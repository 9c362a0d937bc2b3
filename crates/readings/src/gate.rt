// The command `gate S T DEMAND LAST LOWEST COUNT`: a reading of the record of the last three numbers. It prints what
// the window shows between brackets, and the record that the reading leaves; refused, spaces and the record given.
use crate::Run;
use crate::print::Text;
use gate_window::Window;
use std::io;

impl<R: Print> Run<'_, R> {
    pub fn reading(&self, s: usize, t: usize, demand: u32, window: Window) -> io::Result<()> {
        let left = match gate_window::after_reading(self.plan, window, s, t, demand) {
            Ok(noted) => {
                print!(self.rt; " [{}]", Text(&noted.text))?;
                noted.window
            }
            Err(refusal) => {
                print!(self.rt; " refused {refusal} [    ]")?;
                window
            }
        };
        print!(self.rt;
            " last {} lowest {} count {}",
            left.last, left.lowest, left.count
        )
    }
}
