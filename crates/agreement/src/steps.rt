// Following parents by a table.
ghost use Rattle.std.specs.Prelude.{◌≡◌, true, ◌≤◌};
ghost use Rattle.page.specs.Figures.{most_frames};
ghost use Rattle.rules.specs.Deciding.{Decides};
ghost use Rattle.agreement.specs.Fit.{entry, AllLead};
ghost use Rattle.agreement.specs.ParentSteps.{Below, Round, InOrder};

use page::FrameIndex;

// How often steps are doubled from one until they are as many as frames at most.
const ROUNDS: u32 = 6;

// Do all parents lie before their frames, frame 0's excepted, which is always counted: nothing lies before it. No entry is branched on, so that the compiler takes them side by side.
fn in_order(parents: &[u8; FrameIndex::MOST]) -> bool
    ensures { result ≡ true → InOrder most_frames parents.now }
{
    let mut late: u8 = 0;
    for (f, parent) in parents.iter().enumerate() {
        if f as u8 <= *parent {
            late += 1;
        }
    }
    late <= 1
}

// Moves each of the first entries on to what its entry has: are all at frame 0 then.
fn jump(table: &mut [u8; FrameIndex::MOST], count: usize) -> bool
    requires { (count ≤ most_frames) × Below count table.old }
    ensures { Round count table.old table.new result }
{
    let mut at_root = true;
    for f in 0..count {
        let x = table[usize::from(table[f])];
        table[f] = x;
        if x != 0 {
            at_root = false;
        }
    }
    at_root
}

// Does following parents lead each frame to frame 0. Where all lie before their frames, as in frames filled from the root on, it does. Otherwise they are followed: each round of jumps doubles the steps at least, so that 64 steps take six rounds.
pub fn lead_to_root(parents: [u8; FrameIndex::MOST], count: usize) -> bool
    requires { (count ≤ most_frames) × Below count parents × (entry parents 0 ≡ 0) }
    ensures { Decides result (AllLead (entry parents) count) }
{
    if in_order(&parents) {
        return true;
    }
    let mut table = parents;
    for round in 0..ROUNDS {
        if jump(&mut table, count) {
            return true;
        }
    }
    false
}
