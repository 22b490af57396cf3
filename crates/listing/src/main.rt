// The call listing: reads records of 16 bytes from standard input to its end, and prints a line for each. What is there is read in one block, and its lines are out before more is read.
#![tactic(auto)]

mod block;
mod message;

ghost use Rattle.std.specs.Prelude.{◌<◌};

use message::Lost;
use page::PageNumber;
use pool::Pool;
use std::io::Read;

// 4 frames, a store of 16 pages, and the directory.
const FRAMES: usize = recording::FRAMES * PageNumber::SIZE;

const STORE: usize = 16 * PageNumber::SIZE;

const DIRECTORY: usize = directory::SIZE;

// The bytes of a block, and of the lines of as many records as it can hold.
const BLOCK: usize = printing::LINES * block::RECORD;

const TEXT: usize = printing::LINES * printing::LINE;

// What was listed so far: the pool that it leaves, how many bytes of a part record stand at the start of the block, and how many records there were, and how many that are no calls.
#[derive(Drop)]
struct Progress {
    pool: Pool,
    part: usize,
    records: u64,
    odd: u64,
    ghost no_whole: { part < 16 },
}

// Reads what is there after the part record, lists it and writes its lines. Gives how many bytes were read, 0 at the end of the input.
fn list_next(
    rt: &(impl Print + Eprint),
    input: &mut impl Read,
    progress: &mut Progress,
    frames: &mut [u8; FRAMES],
    store: &mut [u8; STORE],
    directory: &mut [u8; DIRECTORY],
    block: &mut [u8; BLOCK],
) -> Result<usize, Lost> {
    let bytes: &mut [u8] = block;
    let part = progress.part;
    let read = input.read(&mut bytes[part..]).map_err(|_| Lost::Unread)?;
    if read == 0 {
        message::ended(rt, part, progress.records, progress.odd);
        return Ok(0);
    }
    let end = part + read;
    let mut text = [0u8; TEXT];
    let run = block::list_records(
        &mut progress.pool,
        frames,
        store,
        directory,
        &bytes[..end],
        &mut text,
    );
    rt.write_all(&text[..run.end]).map_err(|_| Lost::Unwritten)?;
    progress.part = block::keep_rest(bytes, end);
    progress.records = progress.records.wrapping_add((end / block::RECORD) as u64);
    progress.odd = progress.odd.wrapping_add(run.odd);
    Ok(read)
}

// Lists all on a pool just opened over zero pages. Nothing says that the input ends, so the turns are as many as no input takes.
fn list_all(rt: &(impl Print + Eprint), input: &mut impl Read) -> Result<(), Lost> {
    let mut frames = [0u8; FRAMES];
    let mut store = [0u8; STORE];
    let mut directory = [0u8; DIRECTORY];
    let mut block = [0u8; BLOCK];
    let opened = recording::open_listing(&mut frames, &store, &mut directory);
    let mut progress = Progress {
        pool: opened.unwrap_or(pool::no_pool()),
        part: 0,
        records: 0,
        odd: 0,
    };
    for _ in 0..u64::MAX {
        let read = list_next(
            rt,
            input,
            &mut progress,
            &mut frames,
            &mut store,
            &mut directory,
            &mut block,
        )?;
        if read == 0 {
            break;
        }
    }
    Ok(())
}

fn main(rt: HostRuntime) {
    if let Err(lost) = list_all(&rt, &mut rt.stdin()) {
        message::report(&rt, lost);
    }
}
