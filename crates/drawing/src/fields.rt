// Five draws, and the fields of a call record that they give.
ghost use Rattle.std.specs.Prelude.{◌≡◌, ◌≤◌};
ghost use Rattle.page.specs.Figures.{most_frames, most_pages};
ghost use Rattle.drawing.specs.Drawing.{fields_from};

use generator::Generator;
use page::{FrameIndex, PageNumber};

// The fields, and the generator after the draws.
#[derive(Clone, Copy)]
pub struct Fields {
    pub call: u8,
    pub frame: FrameIndex,
    pub page: PageNumber,
    pub slot: u8,
    pub offset: u8,
    pub generator: Generator,
}

// What the draws are divided by beside F and N: the calls, the slots of a page, the offsets in a payload.
const CALLS: u32 = 9;

const SLOTS: u32 = PageNumber::SLOTS as u32;

const OFFSETS: u32 = PageNumber::PAYLOAD_SIZE as u32 + 1;

// Five draws, for F frames and N pages.
pub fn draw_fields(generator: Generator, count: u32, pages: u32) -> Fields
    requires { (1 ≤ count) × (count ≤ most_frames) × (1 ≤ pages) × (pages ≤ most_pages) }
    ensures { result ≡ fields_from count pages generator.number }
{
    let first = generator::drawn(generator);
    let second = generator::drawn(first);
    let third = generator::drawn(second);
    let fourth = generator::drawn(third);
    let fifth = generator::drawn(fourth);
    Fields {
        call: (first.number % CALLS + 1) as u8,
        frame: FrameIndex((second.number % count) as u8),
        page: PageNumber((third.number % pages) as u16),
        slot: (fourth.number % SLOTS) as u8,
        offset: (fifth.number % OFFSETS) as u8,
        generator: fifth,
    }
}
