// The calls that only read: show, peek, word and find.
#![tactic(auto)]

mod part;

ghost use Rattle.std.specs.Prelude.{◌≡◌};
ghost use Rattle.machine.specs.Machine.{state, page_number};
ghost use Rattle.machine.specs.Buffers.{buffered};
ghost use Rattle.machine.specs.Moves.{plain};
ghost use Rattle.machine.specs.Answers.{lent, handed_back, payload_answer, word_answer, find_answer};
ghost use Rattle.machine.specs.Calls.{show_call, peek_call, word_call, find_call};
ghost use Rattle.residents.specs.Residents.{page_by};
ghost use Rattle.contents.specs.Words.{Resolvable};

use machine::{Buffers, Found, Handle, Named, Payload, Pool, Refusal};
use page::{FrameIndex, PageNumber, StoreNumber, StorePlace};
use residents::{Residents, Tables};

// Where the payload of the handle's page lies.
pub fn show_place(pool: &Pool, buffers: Buffers, handle: Handle) -> Result<Payload, Refusal>
    ensures { payload_answer result ≡ (show_call (buffered pool.now buffers.entry) handle).answer }
{
    let mut tables = Tables::cleared();
    guard::handle_rules(pool, buffers, handle, &mut tables)?;
    Ok(part::in_frame(handle.frame))
}

// Where the payload of a page lies: in its frame if it is resident, otherwise in the store.
pub fn peek_place(
    pool: &Pool,
    buffers: Buffers,
    of_store: StoreNumber,
    page: PageNumber,
) -> Result<Payload, Refusal>
    ensures { payload_answer result ≡ (peek_call (buffered pool.now buffers.entry) of_store.0 page).answer }
{
    let mut tables = Tables::cleared();
    guard::page_rules(pool, buffers, of_store, page, &mut tables)?;
    let entry = directory::seek(&tables.residents, buffers.directory, of_store, page);
    match entry.frame {
        Some(frame) => Ok(part::in_frame(frame)),
        None => Ok(part::in_store(StorePlace::of(of_store, page, pool.pages))),
    }
}

// The payload of the handle's page. Document 01: "A refused show or peek gives the empty part at the start of the frames; both put their number, 0 if accepted, into a number the caller lends." It is a part of the frames or the store, which it is lent with; the directory need not outlive the call.
pub fn show<'a>(
    pool: &Pool,
    frames: &'a [u8],
    store: &'a [u8],
    directory: &[u8],
    handle: Handle,
    number: &mut u8,
) -> &'a [u8]
    ensures { record { part = lent result; number = number.new } ≡ handed_back (lent frames.entry) (lent store.entry) (show_call (state pool.now frames.now store.now directory.now) handle).answer }
{
    let buffers = Buffers {
        frames,
        store,
        directory,
    };
    let place = show_place(pool, buffers, handle);
    part::part_at(place, frames, store, number)
}

// The payload of a page, of the frames if it is resident, otherwise of the store.
pub fn peek<'a>(
    pool: &Pool,
    frames: &'a [u8],
    store: &'a [u8],
    directory: &[u8],
    of_store: StoreNumber,
    page: PageNumber,
    number: &mut u8,
) -> &'a [u8]
    ensures { record { part = lent result; number = number.new } ≡ handed_back (lent frames.entry) (lent store.entry) (peek_call (state pool.now frames.now store.now directory.now) of_store.0 page).answer }
{
    let buffers = Buffers {
        frames,
        store,
        directory,
    };
    let place = peek_place(pool, buffers, of_store, page);
    part::part_at(place, frames, store, number)
}

// The page number that the name in a resident page stands for, swizzled or not, by the table of the page in each frame.
fn page_named(residents: &Residents, name: u32) -> PageNumber
    requires { Resolvable name }
    ensures { result ≡ page_number (plain (page_by residents.now) name) }
{
    if page::word::is_number(name) {
        let number = name as u16;
        return PageNumber(number);
    }
    let g = page::word::frame_in(name);
    residents::page_in(residents, FrameIndex(g as u8))
}

// The page number in a slot of the handle's page, 0 for none, and whether that page is locked.
pub fn word(pool: &Pool, buffers: Buffers, handle: Handle, slot: usize) -> Result<Named, Refusal>
    ensures { word_answer result ≡ (word_call (buffered pool.now buffers.entry) handle slot).answer }
{
    let mut tables = Tables::cleared();
    guard::word_rules(pool, buffers, handle, slot, &mut tables)?;
    let word = page::slot::slot_word(buffers.frames, handle.frame, slot);
    Ok(Named {
        page: page_named(&tables.residents, page::word::name_of(word)),
        locked: page::word::is_marked(word),
    })
}

// The frame that holds a page, and how many entries of the directory were compared.
pub fn find(
    pool: &Pool,
    buffers: Buffers,
    of_store: StoreNumber,
    page: PageNumber,
) -> Result<Found, Refusal>
    ensures { find_answer result ≡ (find_call (buffered pool.now buffers.entry) of_store.0 page).answer }
{
    let mut tables = Tables::cleared();
    guard::page_rules(pool, buffers, of_store, page, &mut tables)?;
    let sought = directory::seek(&tables.residents, buffers.directory, of_store, page);
    Ok(Found {
        frame: sought.frame,
        compared: sought.compared,
    })
}
