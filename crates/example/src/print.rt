// The lines of the example.
use pool::{Found, Pinned, Refusal};
use std::io;

fn refused(rt: &impl Print, call: &str, number: u8) -> io::Result<()> {
    println!(rt; "{call}: refused by rule {number}")
}

// A call without an answer of its own.
pub fn done(rt: &impl Print, call: &str, answer: Result<(), Refusal>) -> io::Result<()> {
    match answer {
        Ok(()) => println!(rt; "{call}: done"),
        Err(refusal) => refused(rt, call, refusal.number()),
    }
}

// Root and fix.
pub fn pinned(rt: &impl Print, call: &str, answer: Result<Pinned, Refusal>) -> io::Result<()> {
    match answer {
        Ok(pinned) => {
            let page = pinned.handle.page.0;
            let of_store = pinned.handle.store.0;
            let frame = pinned.handle.frame.0;
            let looks = pinned.looks;
            println!(rt;
                "{call}: page {page} of store {of_store} in frame {frame} after {looks} looks"
            )
        }
        Err(refusal) => refused(rt, call, refusal.number()),
    }
}

// Find, with the entries compared.
pub fn found(rt: &impl Print, call: &str, answer: Result<Found, Refusal>) -> io::Result<()> {
    match answer {
        Ok(found) => {
            let compared = found.compared;
            match found.frame {
                Some(frame) => {
                    let frame = frame.0;
                    println!(rt; "{call}: in frame {frame}, entries compared: {compared}")
                }
                None => println!(rt; "{call}: absent, entries compared: {compared}"),
            }
        }
        Err(refusal) => refused(rt, call, refusal.number()),
    }
}

// Show and peek: the payload up to its first zero byte.
pub fn payload(rt: &impl Print, call: &str, number: u8, part: &[u8]) -> io::Result<()> {
    if number != 0 {
        return refused(rt, call, number);
    }
    let end = part
        .iter()
        .position(|byte| *byte == 0)
        .unwrap_or(part.len());
    print!(rt; "{call}: ")?;
    rt.write_all(&part[..end])?;
    rt.println("")
}
