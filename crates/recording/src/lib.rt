// The call listing: its pool is opened, and one record of 16 bytes is run on it, and gives the four numbers of its line.
#![tactic(auto)]

mod call;
mod calls;
mod fields;
mod lines;

ghost use Rattle.std.specs.Prelude.{◌≡◌};
ghost use Rattle.machine.specs.Machine.{state};
ghost use Rattle.machine.specs.Answers.{opened_out};
ghost use Rattle.recording.specs.Listing.{line_numbers, listed, open_listing};

use call::Call;
pub use lines::Line;
use page::StoreNumber;
use pool::{Buffers, Pool, Refusal};

// The figures of the listing's pool: F, T, and a ceiling of F for its one store.
pub const FRAMES: usize = 4;

const STORES: u8 = 1;

const CEILINGS: [u8; StoreNumber::MOST] = [FRAMES as u8, 0, 0, 0];

// Opens the listing's pool.
pub fn open_listing(frames: &mut [u8], store: &[u8], directory: &mut [u8]) -> Result<Pool, Refusal>
    ensures { opened_out result frames.new store.now directory.new ≡ open_listing frames.old store.now directory.old }
{
    pool::open(frames, store, directory, STORES, CEILINGS)
}

// Runs a record on the pool: rule 17, and the call that it names.
pub fn list_record(
    pool: &mut Pool,
    frames: &mut [u8],
    store: &mut [u8],
    directory: &mut [u8],
    entry: &[u8; 16],
) -> Line
    ensures { record { line = line_numbers result.call result.refusal result.frame.0 result.page.0; left = state pool.new frames.new store.new directory.new } ≡ listed (state pool.old frames.old store.old directory.old) entry.now }
{
    let call = match fields::call(entry) {
        Ok(call) => call,
        Err(refusal) => return lines::refused(entry, refusal),
    };
    match call {
        Call::Root => calls::root(
            pool,
            Buffers {
                frames,
                store,
                directory,
            },
            entry,
        ),
        Call::Fix => calls::fix(pool, frames, store, directory, entry),
        Call::Unfix => calls::unfix(
            pool,
            Buffers {
                frames,
                store,
                directory,
            },
            entry,
        ),
        Call::Write => calls::write(pool, frames, store, directory, entry),
        Call::Link => calls::link(pool, frames, store, directory, entry),
        Call::Unlink => calls::unlink(pool, frames, store, directory, entry),
        Call::Evict => calls::evict(pool, frames, store, directory, entry),
        Call::Settle => calls::settle(pool, frames, store, directory, entry),
        Call::Find => calls::find(
            pool,
            Buffers {
                frames,
                store,
                directory,
            },
            entry,
        ),
    }
}
