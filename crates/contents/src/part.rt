// The place of a payload, and the part of a lent buffer there.
ghost use Rattle.std.specs.Prelude.{◌≡◌, true, false};
ghost use Rattle.machine.specs.Answers.{lent, handed_at};
ghost use Rattle.contents.specs.Places.{Within, payload_in};

use machine::{Payload, Refusal};
use page::{FrameIndex, PageNumber, StorePlace};

// The place of a frame's payload.
pub fn in_frame(frame: FrameIndex) -> Payload
    ensures { result ≡ payload_in false frame.0 }
{
    Payload {
        in_store: false,
        start: frame.start() + PageNumber::PAYLOAD_START,
        size: PageNumber::PAYLOAD_SIZE,
    }
}

// The place of a stored page's payload.
pub fn in_store(place: StorePlace) -> Payload
    ensures { result ≡ payload_in true place.0 }
{
    Payload {
        in_store: true,
        start: place.start() + PageNumber::PAYLOAD_START,
        size: PageNumber::PAYLOAD_SIZE,
    }
}

// The part of frames or store at a place, or the empty part at the start of the frames where the call was refused, and its number for the caller.
pub fn part_at<'a>(
    place: Result<Payload, Refusal>,
    frames: &'a [u8],
    store: &'a [u8],
    number: &mut u8,
) -> &'a [u8]
    requires { Within place frames.now store.now }
    ensures { record { part = lent result; number = number.new } ≡ handed_at (lent frames.entry) (lent store.entry) place }
{
    match place {
        Ok(payload) => {
            *number = 0;
            let buffer = if payload.in_store { store } else { frames };
            &buffer[payload.start..payload.start + payload.size]
        }
        Err(refusal) => {
            *number = refusal.number();
            &frames[..0]
        }
    }
}
