// Why a page stays in its frame, or that it is open to eviction.
ghost use Rattle.std.specs.Prelude.{◌≡◌, ◌+◌, ◌*◌, ◌≤◌, length};
ghost use Rattle.page.specs.Figures.{page_size};
ghost use Rattle.machine.specs.Sweep.{standing};

use crate::look;
use machine::{FrameRecord, Standing};
use page::FrameIndex;

// The reason why the page of a frame stays, the first that holds.
#[tactic(auto, unfolding(machine::specs::Sweep::standing, rules::specs::Tests::pick))]
pub fn of(rec: FrameRecord, frames: &[u8], frame: FrameIndex, stores: u8) -> Standing
    requires { page_size * frame.0 + page_size ≤ length frames.now }
    ensures { result ≡ standing stores rec frames.now frame.0 }
{
    if frame.0 < stores {
        return Standing::Root;
    }
    if rec.pins != 0 {
        return Standing::Pinned;
    }
    if look::childless(frames, frame) {
        return Standing::Evictable;
    }
    Standing::Parent
}
