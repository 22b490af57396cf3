// The records of a workload, some at a time: each is drawn, put among the records, run, and its line put into a text.
ghost use Rattle.std.specs.Prelude.{◌+◌, ◌*◌, ◌≤◌, ◌≡◌, ◌++◌, length, take};
ghost use Rattle.io.specs.Counts.{IsPrefixLen};
ghost use Rattle.machine.specs.Machine.{state};
ghost use Rattle.workload.specs.Workload.{worked, worked_from, begun};

use generator::Generator;
use pool::{Buffers, Pool};

// The bytes of a record.
pub const RECORD: usize = 16;

// Puts a record among others, from `at` on.
fn put_entry(entries: &mut [u8], at: usize, entry: &[u8; 16])
    requires { at + 16 ≤ length entries.old }
    ensures { take (at + 16) entries.new ≡ take at entries.old ++ entry.now }
{
    entries[at..at + RECORD].copy_from_slice(entry);
}

// Draws so many records and runs each on the pool that the one before left. Gives where their lines end in the text. Slices of any length will do, where a vector's room would stand in its type.
pub fn run_records(
    pool: &mut Pool,
    frames: &mut [u8],
    store: &mut [u8],
    directory: &mut [u8],
    generator: &mut Generator,
    count: usize,
    entries: &mut [u8],
    text: &mut [u8],
) -> usize
    requires { (16 * count ≤ length entries.old) × (24 * count ≤ length text.old) }
    ensures prefix_len { IsPrefixLen result text.new }
    ensures generator_after { worked (take (16 * count) entries.new) (take result text.new) (state pool.new frames.new store.new directory.new) generator.new ≡ worked_from count (begun (state pool.old frames.old store.old directory.old) generator.old) }
{
    let mut end = 0;
    for i in 0..count {
        let buffers = Buffers {
            frames,
            store,
            directory,
        };
        let drawn = drawing::draw_record(pool, buffers, *generator);
        let entry = drawn.entry;
        put_entry(entries, RECORD * i, &entry);
        let line = recording::list_record(pool, frames, store, directory, &entry);
        end = printing::put_line(text, end, line);
        *generator = drawn.generator;
    }
    end
}
