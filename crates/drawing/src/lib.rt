// The next call record of a workload (request A.10), made of a pool by five draws.
#![tactic(auto)]

mod entry;
mod fields;

ghost use Rattle.std.specs.Prelude.{◌≡◌, ◌<◌};
ghost use Rattle.page.specs.Figures.{most_frames};
ghost use Rattle.machine.specs.Machine.{page_number};
ghost use Rattle.machine.specs.Buffers.{buffered};
ghost use Rattle.drawing.specs.Drawing.{refused_draw, drawn_out};
ghost use Rattle.drawing.specs.ParentByTable.{parent_by};

use generator::Generator;
use machine::{Buffers, Pool};
use page::{FrameIndex, PageNumber};
use residents::{Residents, Tables};

// A record of 16 bytes, as the call listing reads it, and the generator after its draws. Beside a refusal: no byte but 0, and the generator as it was.
#[repr(C)]
#[derive(Clone, Copy)]
pub struct Drawn {
    pub refusal: u8,
    pub entry: [u8; 16],
    pub generator: Generator,
}

// The number of the call that takes a parent's page.
const LINK: u8 = 5;

// Refused, no draw is made.
fn refused(refusal: u8, generator: Generator) -> Drawn
    ensures { result ≡ refused_draw generator refusal }
{
    Drawn {
        refusal,
        entry: [0; 16],
        generator,
    }
}

// Link's parent page by the table of the page in each frame, which has page 0 for an empty one; 0 for every other call.
fn parent_page(residents: &Residents, call: u8, frame: FrameIndex) -> PageNumber
    requires { frame.0 < most_frames }
    ensures { result ≡ page_number (parent_by residents.now call frame.0) }
{
    if call != LINK {
        return PageNumber(0);
    }
    residents::page_in(residents, frame)
}

// The next record of a workload on the pool as it stands.
pub fn draw_record(pool: &Pool, buffers: Buffers, generator: Generator) -> Drawn
    ensures { result ≡ drawn_out (buffered pool.now buffers.entry) generator }
{
    let mut tables = Tables::cleared();
    match guard::pool_rules(pool, buffers, &mut tables) {
        Ok(()) => {
            let count = u32::from(pool.count);
            let pages = u32::from(pool.pages);
            let fields = fields::draw_fields(generator, count, pages);
            let parent = parent_page(&tables.residents, fields.call, fields.frame);
            Drawn {
                refusal: 0,
                entry: entry::of_fields(fields, parent),
                generator: fields.generator,
            }
        }
        Err(refusal) => refused(refusal.number(), generator),
    }
}
