// The numbers of a record's line, from the answer of its call.
ghost use Rattle.std.specs.Prelude.{◌≡◌};
ghost use Rattle.rules.specs.RefusalNumbers.{number_of};
ghost use Rattle.machine.specs.Answers.{done_answer, fix_answer, find_answer};
ghost use Rattle.recording.specs.Lines.{line_with, line_for};

use crate::fields;
use page::{FrameIndex, PageNumber};
use pool::{Found, Pinned, Refusal};

// The four numbers of a record's line.
#[derive(Clone, Copy, PartialEq, Eq)]
pub struct Line {
    pub call: u8,
    pub refusal: u8,
    pub frame: FrameIndex,
    pub page: PageNumber,
}

// The line of a record where no handle or frame is given.
pub fn bare(entry: &[u8; 16], refusal: u8) -> Line
    ensures { result ≡ line_with entry.now refusal 0 0 }
{
    Line {
        call: entry[fields::CALL],
        refusal,
        frame: FrameIndex(0),
        page: PageNumber(0),
    }
}

// The line of a record that is refused.
pub fn refused(entry: &[u8; 16], refusal: Refusal) -> Line
    ensures { result ≡ line_with entry.now (number_of refusal) 0 0 }
{
    bare(entry, refusal.number())
}

// The line of a record where a handle, or a frame with its page, is given.
fn placed(entry: &[u8; 16], frame: FrameIndex, page: PageNumber) -> Line
    ensures { result ≡ line_with entry.now 0 frame.0 page.0 }
{
    Line {
        frame,
        page,
        ..bare(entry, 0)
    }
}

// The line of a call without an answer of its own.
pub fn of_done(answer: Result<(), Refusal>, entry: &[u8; 16]) -> Line
    ensures { result ≡ line_for entry.now (done_answer answer) }
{
    match answer {
        Ok(()) => bare(entry, 0),
        Err(refusal) => refused(entry, refusal),
    }
}

// The line of root and fix.
pub fn of_fix(answer: Result<Pinned, Refusal>, entry: &[u8; 16]) -> Line
    ensures { result ≡ line_for entry.now (fix_answer answer) }
{
    match answer {
        Ok(pinned) => placed(entry, pinned.handle.frame, pinned.handle.page),
        Err(refusal) => refused(entry, refusal),
    }
}

// The line of find, which gives its page beside the frame, and not the entries compared.
pub fn of_find(answer: Result<Found, Refusal>, entry: &[u8; 16]) -> Line
    ensures { result ≡ line_for entry.now (find_answer answer) }
{
    match answer {
        Ok(found) => match found.frame {
            Some(frame) => placed(entry, frame, fields::page(entry)),
            None => bare(entry, 0),
        },
        Err(refusal) => refused(entry, refusal),
    }
}
