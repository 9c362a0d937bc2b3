// The archive of the benchmark's own function (bench/timed.h): that of `timing`, under the same name and with the same
// clause.
// Kept: C finds only the names of the crate that is built as an archive.
#![tactic(auto)]

ghost use Rattle.std.specs.Prelude.{◌≡◌};
ghost use Rattle.timing.specs.Timing.{timed_of};

// Reads a file, works its tree out `rounds` times and gives the weight of node 1; 0 where the file is refused.
#[unsafe(no_mangle)]
pub extern "C" fn pamzolit_timing(file: &[u8], rounds: u32) -> u32
    ensures { result ≡ timed_of file.now rounds }
{
    timing::pamzolit_timing(file, rounds)
}
