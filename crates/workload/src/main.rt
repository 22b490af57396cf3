// A workload on the listing's pool: takes an order from standard input, draws so many records and runs each, and writes the listing's lines or the records. At the end a checksum of the lines goes to standard error.
#![tactic(auto)]

mod block;
mod message;
mod order;

ghost use Rattle.std.specs.Prelude.{◌≤◌, ◌≡◌, IfOk};
ghost use Rattle.machine.specs.Machine.{state};
ghost use Rattle.checksum.specs.Parts.{Over};
ghost use Rattle.workload.specs.Workload.{begun, worked_from, workload_of, summed, summed_by};

use checksum::Sum;
use generator::Generator;
use message::Lost;
use order::Form;
use page::PageNumber;
use pool::Pool;
use std::io::Read;
use std::mem;

// 4 frames, a store of 16 pages, and the directory.
const FRAMES: usize = recording::FRAMES * PageNumber::SIZE;

const STORE: usize = 16 * PageNumber::SIZE;

const DIRECTORY: usize = directory::SIZE;

// The records that are run before anything is written, their bytes, and those of their lines.
const MOST: usize = printing::LINES;

const ENTRIES: usize = MOST * block::RECORD;

const TEXT: usize = MOST * printing::LINE;

// What the records so far leave: the pool, the generator, and the sum over their lines.
#[derive(Drop)]
struct Run {
    pool: Pool,
    generator: Generator,
    sum: Sum,
}

// Runs so many records, and writes their lines or their bytes.
fn run_next(
    rt: &impl Print,
    run: &mut Run,
    frames: &mut [u8; FRAMES],
    store: &mut [u8; STORE],
    directory: &mut [u8; DIRECTORY],
    count: usize,
    form: Form,
) -> Result<(), Lost>
    requires { count ≤ 256 }
    ensures { summed (state run.new.pool frames.new store.new directory.new) run.new.generator run.new.sum ≡ summed_by count (state run.old.pool frames.old store.old directory.old) run.old.generator run.old.sum }
{
    let mut entries = [0u8; ENTRIES];
    let mut text = [0u8; TEXT];
    let end = block::run_records(
        &mut run.pool,
        frames,
        store,
        directory,
        &mut run.generator,
        count,
        &mut entries,
        &mut text,
    );
    let so_far = mem::replace(&mut run.sum, checksum::empty());
    run.sum = checksum::add(so_far, &text[..end]);
    let output = match form {
        Form::Lines => &text[..end],
        Form::Records => &entries[..block::RECORD * count],
    };
    rt.write_all(output).map_err(|_| Lost::Unwritten)
}

// Runs all records, and gives the sum over all of their lines.
fn run_all(
    rt: &impl Print,
    pool: Pool,
    frames: &mut [u8; FRAMES],
    store: &mut [u8; STORE],
    directory: &mut [u8; DIRECTORY],
    generator: Generator,
    count: u32,
    form: Form,
) -> Result<Sum, Lost>
    ensures { IfOk result (λ sum. Over sum (worked_from count (begun (state pool frames.old store.old directory.old) generator)).text) }
{
    let mut run = Run {
        pool,
        generator,
        sum: checksum::empty(),
    };
    let mut left = count as usize;
    while left > 0 {
        let next = left.min(MOST);
        run_next(rt, &mut run, frames, store, directory, next, form)?;
        left -= next;
    }
    Ok(run.sum)
}

// Runs the records of a seed, on a pool just opened over zero pages.
fn run_seed(rt: &impl Print, seed: u32, count: u32, form: Form) -> Result<Sum, Lost>
    ensures { IfOk result (λ sum. Over sum (workload_of seed count).text) }
{
    let mut frames = [0u8; FRAMES];
    let mut store = [0u8; STORE];
    let mut directory = [0u8; DIRECTORY];
    let opened = recording::open_listing(&mut frames, &store, &mut directory);
    let pool = opened.unwrap_or(pool::no_pool());
    let generator = generator::seeded(seed);
    run_all(
        rt,
        pool,
        &mut frames,
        &mut store,
        &mut directory,
        generator,
        count,
        form,
    )
}

// Runs what the order says.
fn run_order(rt: &(impl Print + Eprint), input: &mut impl Read) -> Result<(), Lost> {
    let order = order::read(input).ok_or(Lost::NoOrder)?;
    let sum = run_seed(rt, order.seed, order.count, order.form)?;
    let bytes = sum.length;
    message::summed(rt, checksum::value(sum), bytes, order.count);
    Ok(())
}

fn main(rt: HostRuntime) {
    if let Err(lost) = run_order(&rt, &mut rt.stdin()) {
        message::report(&rt, lost);
    }
}
