// The records in a block of bytes.
ghost use Rattle.std.specs.Prelude.{◌≡◌, ◌-◌, ◌*◌, ◌/◌, ◌%◌, ◌≤◌, [], length, take, drop};
ghost use Rattle.io.specs.Counts.{IsPrefixLen};
ghost use Rattle.machine.specs.Machine.{state};
ghost use Rattle.printing.specs.Printing.{printed, listed_from};

use pool::Pool;

// The bytes of a record.
pub const RECORD: usize = 16;

// What the records of a block leave beside the pool: where their lines end in the text, and how many are no call (rule 17).
#[derive(Clone, Copy)]
pub struct Run {
    pub end: usize,
    pub odd: u64,
}

// Runs every whole record of a block, one after the other, and puts their lines into a text. A slice of any length will do, where a vector's room would stand in its type.
pub fn list_records(
    pool: &mut Pool,
    frames: &mut [u8],
    store: &mut [u8],
    directory: &mut [u8],
    block: &[u8],
    text: &mut [u8],
) -> Run
    requires { 24 * (length block.now / 16) ≤ length text.old }
    ensures prefix_len { IsPrefixLen result.end text.new }
    ensures directory_after { printed (take result.end text.new) (state pool.new frames.new store.new directory.new) ≡ listed_from (length block.now / 16) block.now 0 (printed [] (state pool.old frames.old store.old directory.old)) }
{
    let mut end = 0;
    let mut odd = 0u64;
    let (records, _) = block.as_chunks::<RECORD>();
    for entry in records {
        let line = recording::list_record(pool, frames, store, directory, entry);
        odd = odd.wrapping_add(u64::from(line.refusal == 17));
        end = printing::put_line(text, end, line);
    }
    Run { end, odd }
}

// Moves the part record at the end of a block to its start, and gives how many bytes it has.
pub fn keep_rest(block: &mut [u8], end: usize) -> usize
    requires { end ≤ length block.old }
    ensures { (result ≡ end % 16) × (take result block.new ≡ take result (drop (end - result) block.old)) }
{
    let rest = end % RECORD;
    block.copy_within(end - rest..end, 0);
    rest
}
