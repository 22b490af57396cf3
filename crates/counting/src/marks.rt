// The depths of a recording. For each page the time of its last reference is kept, and for each time a mark where it is the last
// reference of its page: the marks after a page's last reference are the different pages since. Marks stand in blocks of 64, a bit
// each, the lowest first, and beside each block stands how many there are, so that a depth takes one block and some counts.
ghost use Rattle.std.specs.Prelude.{◌≡◌, ℕ, ◌-◌, ◌*◌, ◌/◌, ◌^◌, ◌<◌, ◌≤◌, length, get_or, replicate};
ghost use Rattle.std.specs.Int.Count.{ones};
ghost use Rattle.depths.specs.Depths.{depths};
ghost use Rattle.depths.specs.Tallying.{one_counted, all_counted, depth_count};
ghost use Rattle.counting.specs.Marks.{sum_of, lower_block, lower_count, raise_block, raise_count, table_depth};
ghost use Rattle.counting.specs.Passing.{Countable, SmallCounts, CanLower, CanRaise, CanCount};

const TIMES: usize = 4096;

const BLOCK: usize = 64;

const BLOCKS: usize = 64;

// How many marks each block has, and the marks. The counts stand in an array of their own, and not each in one struct with its block: a depth adds many of them side by side, and takes up to 1.8 times as long where they lie apart.
#[derive(Drop)]
struct Marks {
    counts: [u16; BLOCKS],
    blocks: [u64; BLOCKS],
}

// The bit of a place in a block.
fn bit(j: usize) -> u64
    requires { j < 64 }
    ensures { result ≡ 2 ^ j }
{
    1u64 << j
}

// The marks of a block after a place.
fn marks_after(block: u64, j: usize) -> u16
    requires { j < 64 }
    ensures { (result ≡ ones (block / 2 ^ j / 2 ^ 1)) × (result ≤ 64) }
{
    ((block >> j) >> 1).count_ones() as u16
}

// The marks of the blocks from one to before another.
fn sum_marks(counts: &[u16; BLOCKS], from: usize, to: usize) -> u16
    requires { (from ≤ to) × (to ≤ 64) × SmallCounts counts.now }
    ensures { (result ≡ sum_of (λ (k : ℕ). get_or counts.now k 0) from (to - from)) × (result ≤ 64 * (to - from)) }
{
    let mut sum: u16 = 0;
    for i in from..to {
        sum += counts[i];
    }
    sum
}

impl Marks {
    // Before the first reference.
    fn none() -> Marks
        ensures { (result.blocks ≡ replicate 64 0) × (result.counts ≡ replicate 64 0) }
    {
        Marks {
            counts: [0; BLOCKS],
            blocks: [0; BLOCKS],
        }
    }

    // The depth of a reference after t others to a page whose last one was at time s; 0 for none.
    #[tactic(auto, unfolding(crate::specs::Marks::table_depth, rules::specs::Tests::pick))]
    fn depth_of(&self, s: usize, t: usize) -> usize
        requires { (s ≤ t) × (t < 4096) × SmallCounts self.now.counts }
        ensures { result ≡ table_depth self.now.blocks self.now.counts s t }
    {
        if s == 0 {
            return 0;
        }
        let k = (s - 1) / BLOCK;
        let near = marks_after(self.blocks[k], (s - 1) % BLOCK);
        let far = sum_marks(&self.counts, k + 1, t / BLOCK + 1);
        usize::from(near) + usize::from(far) + 1
    }

    // Takes the mark of time s away, if there is one.
    #[tactic(auto, unfolding(crate::specs::Marks::lower_block, crate::specs::Marks::lower_count, rules::specs::Tests::pick))]
    fn lower(&mut self, s: usize)
        requires { CanLower self.old.blocks self.old.counts s }
        ensures { (self.new.blocks ≡ lower_block self.old.blocks s) × (self.new.counts ≡ lower_count self.old.counts s) }
    {
        if s == 0 {
            return;
        }
        let k = (s - 1) / BLOCK;
        self.blocks[k] -= bit((s - 1) % BLOCK);
        self.counts[k] -= 1;
    }

    // Marks the place t.
    #[tactic(auto, unfolding(crate::specs::Marks::raise_block, crate::specs::Marks::raise_count))]
    fn raise(&mut self, t: usize)
        requires { CanRaise self.old.blocks self.old.counts t }
        ensures { (self.new.blocks ≡ raise_block self.old.blocks t) × (self.new.counts ≡ raise_count self.old.counts t) }
    {
        let k = t / BLOCK;
        self.blocks[k] += bit(t % BLOCK);
        self.counts[k] += 1;
    }

    // Moves a page's mark from the time of its last reference to the place t.
    fn move_mark(&mut self, s: usize, t: usize)
        requires { CanLower self.old.blocks self.old.counts s × CanRaise (lower_block self.old.blocks s) (lower_count self.old.counts s) t }
        ensures { (self.new.blocks ≡ raise_block (lower_block self.old.blocks s) t) × (self.new.counts ≡ raise_count (lower_count self.old.counts s) t) }
    {
        self.lower(s);
        self.raise(t);
    }
}

// Counts a reference of a depth.
#[tactic(auto, unfolding(depths::specs::Tallying::one_counted))]
fn count(counts: &mut [u32], d: usize)
    requires { (d ≤ depth_count) × Countable counts.old }
    ensures { counts.new ≡ one_counted counts.old d }
{
    if d == 0 {
        return;
    }
    counts[d - 1] += 1;
}

// Counts the references of a recording by their depths.
pub fn count_depths(counts: &mut [u32], pages: &[u16])
    requires { CanCount counts.old pages.now }
    ensures { counts.new ≡ all_counted counts.old (depths pages.now) }
{
    let mut last = [0u16; TIMES];
    let mut marks = Marks::none();
    for (t, page) in pages.iter().enumerate() {
        let p = usize::from(*page);
        let s = usize::from(last[p]);
        let d = marks.depth_of(s, t);
        count(counts, d);
        marks.move_mark(s, t);
        last[p] = (t + 1) as u16;
    }
}
