// What the program says on standard error.
// Where standard error takes nothing there is no other place to say it, so that error is let go.
use std::fmt;

// Why output is missing.
#[derive(Clone, Copy, Debug, PartialEq, Eq)]
pub enum Lost {
    NoOrder,
    Unwritten,
}

impl fmt::Display for Lost {
    fn fmt<W: fmt::Write>(&self, f: &mut fmt::Formatter<W>) -> fmt::Result {
        match self {
            Lost::NoOrder => write!(
                f,
                "standard input has no order of 9 bytes: seed and count, 4 each, little-endian, then 0 for lines or 1 for records"
            ),
            Lost::Unwritten => write!(f, "the output could not all be written"),
        }
    }
}

// Tells the command ./workload that output is missing, by a line that begins with 'lost': the program always ends with status 0.
pub fn report(rt: &impl Eprint, lost: Lost) {
    let _ = eprintln!(rt; "lost: {lost}");
}

// The checksum of the lines, how many bytes they have, and how many they are.
pub fn summed(rt: &impl Eprint, checksum: u32, bytes: u64, lines: u32) {
    let _ = eprintln!(rt; "checksum {checksum}, {bytes} bytes in {lines} lines");
}
