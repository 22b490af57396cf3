// What the program says on standard error.
// Where standard error takes nothing there is no other place to say it, so that error is let go.
use std::fmt;

// Why lines are missing.
#[derive(Clone, Copy, Debug, PartialEq, Eq)]
pub enum Lost {
    Unread,
    Unwritten,
}

impl fmt::Display for Lost {
    fn fmt<W: fmt::Write>(&self, f: &mut fmt::Formatter<W>) -> fmt::Result {
        match self {
            Lost::Unread => write!(f, "the input could not be read to its end"),
            Lost::Unwritten => write!(f, "the lines could not all be written"),
        }
    }
}

// Tells the command ./listing that lines are missing, by a line that begins with 'lost': the program always ends with status 0.
pub fn report(rt: &impl Eprint, lost: Lost) {
    let _ = eprintln!(rt; "lost: {lost}");
}

// Hints at the end of the input, where it looks like no recording: bytes after the last whole record, and most records no calls.
pub fn ended(rt: &impl Eprint, part: usize, records: u64, odd: u64) {
    if 0 < part {
        let _ = eprintln!(rt;
            "a part record of {part} bytes at the end is left out; is this a recording?"
        );
    }
    if records / 2 < odd {
        let _ = rt.eprintln(
            "most records have a call outside 1 to 9 or a length above 9; is this a recording?",
        );
    }
}
