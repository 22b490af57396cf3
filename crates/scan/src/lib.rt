// Finding a frame: the one that holds a page, the first empty one, and the one that a clock sweep takes.
#![tactic(auto)]

pub mod look;
pub mod standing;

ghost use Rattle.std.specs.Prelude.{◌≡◌, ◌≢◌, ◌+◌, ◌*◌, ◌%◌, ◌≤◌, ◌<◌, ◌==◌, length};
ghost use Rattle.std.specs.List.{position};
ghost use Rattle.page.specs.Figures.{page_size, most_frames, most_pages, most_stores, max_usage};
ghost use Rattle.rules.specs.Tests.{pick};
ghost use Rattle.machine.specs.Machine.{frame_index};
ghost use Rattle.machine.specs.Sweep.{after, rest, kind};
ghost use Rattle.residents.specs.Residents.{key_of};
ghost use Rattle.scan.specs.FoundByTable.{Told, found_by, empty_by};
ghost use Rattle.scan.specs.Walk.{sight as class_and_usage, warmest, looked_at, Walked};

use machine::{FrameRecord, Standing};
use page::{FrameIndex, PageNumber, StoreNumber};
use residents::Residents;

// The usages that there are. What a sweep sees of a frame is one number, so that a look takes one comparison or two: its usage, and above that its class, 0 for a frame that is open to eviction.
const USAGES: u8 = 4;

// The class of a frame that a look warms, with the least usage and with the largest.
const WARM: u8 = 4;

const WARMEST: u8 = 7;

// The class of a frame that a look leaves as it is.
const REST: u8 = 8;

// What a sweep ends with: the frame that was taken, if one was, the looks, and the hand after it.
#[derive(Clone, Copy)]
pub struct Walk {
    pub frame: Option<FrameIndex>,
    pub looks: u16,
    pub hand: FrameIndex,
}

// How often a sweep may go round: once for each usage that a frame can lose, and once more.
const ROUNDS: u16 = 4;

// The place of the first frame of that key.
fn place_of(keys: &[u16], sought: u16) -> Option<usize>
    ensures { result ≡ position (λ key. key == sought) keys.now }
{
    keys.iter().position(|key| *key == sought)
}

// The frame that holds a page, if one does, by the table of the page in each frame.
pub fn find_frame(
    residents: &Residents,
    count: usize,
    of_store: StoreNumber,
    page: PageNumber,
) -> Option<FrameIndex>
    requires { (count ≤ most_frames) × (of_store.0 < most_stores) × (page.0 < most_pages) }
    ensures { Told count (found_by residents.now (key_of of_store.0 page.0) count 0) result }
{
    let sought = residents::key(of_store, page);
    let f = place_of(&residents[..count], sought)?;
    Some(FrameIndex(f as u8))
}

// The frame after this one, going round.
#[tactic(auto, unfolding(machine::specs::Sweep::after, rules::specs::Tests::pick))]
fn next_frame(frame: FrameIndex, count: u16) -> FrameIndex
    requires { (frame.0 < count) × (count ≤ most_frames) }
    ensures { (result ≡ frame_index (after count frame.0)) × (result.0 < count) }
{
    let next = frame.0 + 1;
    if u16::from(next) < count {
        return FrameIndex(next);
    }
    FrameIndex(0)
}

// The first empty frame at or after the hand, going round, if there is one, by the table of the page in each frame.
pub fn first_empty(residents: &Residents, count: u16, hand: FrameIndex) -> Option<FrameIndex>
    requires { (count ≤ most_frames) × (hand.0 < count) }
    ensures { Told count (empty_by residents.now count count hand.0) result }
{
    let mut frame = hand;
    for _passed in 0..count {
        if !residents::holds_page(residents, frame) {
            return Some(frame);
        }
        frame = next_frame(frame, count);
    }
    None
}

// What a sweep sees of a frame. One at rest, whoever's page it holds, it leaves as it is.
#[tactic(auto, unfolding(crate::specs::Walk::sight, rules::specs::Tests::pick))]
pub fn sight(rec: FrameRecord, frames: &[u8], frame: FrameIndex, stores: u8, resting: bool) -> u8
    requires { (page_size * frame.0 + page_size ≤ length frames.now) × (rec.usage ≤ max_usage) }
    ensures { result ≡ class_and_usage (pick resting rest (kind stores frames.now rec frame.0)) rec.usage }
{
    if resting {
        return REST + rec.usage;
    }
    let reason = standing::of(rec, frames, frame, stores);
    match reason {
        Standing::Root => REST + rec.usage,
        Standing::Pinned => WARM + rec.usage,
        Standing::Parent => REST + rec.usage,
        Standing::Evictable => rec.usage,
    }
}

// What a look that takes nothing leaves of what it saw, where that changes.
#[tactic(auto, unfolding(crate::specs::Walk::looked_at, rules::specs::Tests::pick))]
fn looked_at(sight: u8) -> u8
    requires { (sight ≢ 0) × (sight < warmest) }
    ensures { result ≡ looked_at sight }
{
    if sight < WARM {
        return sight - 1;
    }
    sight + 1
}

// The usage of a frame of which a sweep left this.
pub fn usage_left(sight: u8) -> u8
    ensures { result ≡ sight % 4 }
{
    sight % USAGES
}

// The clock sweep over what it sees of the frames: at most 4 × F looks, until one open to eviction at usage 0 is taken.
pub fn sweep(sights: &mut [u8; FrameIndex::MOST], count: u16, start: FrameIndex) -> Walk
    requires { (count ≤ most_frames) × (start.0 < count) }
    ensures { Walked count start.0 sights.old sights.new result }
{
    let most = ROUNDS * count;
    let mut hand = start;
    for looks in 0..most {
        let frame = hand;
        let at = usize::from(frame);
        let sight = sights[at];
        hand = next_frame(frame, count);
        if sight == 0 {
            return Walk {
                frame: Some(frame),
                looks: looks + 1,
                hand,
            };
        }
        if sight < WARMEST {
            sights[at] = looked_at(sight);
        }
    }
    Walk {
        frame: None,
        looks: most,
        hand,
    }
}
