// Settle: dirty pages go to the store.
ghost use Rattle.std.specs.Prelude.{◌≡◌};
ghost use Rattle.machine.specs.Machine.{state};
ghost use Rattle.machine.specs.Answers.{out, done_answer};
ghost use Rattle.machine.specs.Calls.{settle_call};

use machine::{Buffers, Pool, Refusal};
use residents::Tables;

// Writes the image of each dirty page to the store, and marks it clean.
pub fn settle(
    pool: &mut Pool,
    frames: &[u8],
    store: &mut [u8],
    directory: &[u8],
) -> Result<(), Refusal>
    ensures { out (done_answer result) (state pool.new frames.now store.new directory.now) ≡ settle_call (state pool.old frames.now store.old directory.now) }
{
    let mut tables = Tables::cleared();
    let buffers = Buffers {
        frames,
        store,
        directory,
    };
    guard::pool_rules(pool, buffers, &mut tables)?;
    moves::settle_pages(pool, &tables.residents, frames, store);
    Ok(())
}
