// The calls of a tally: a recording is added, the share at a size, and the report.
#![tactic(auto)]

mod marks;
mod refusal;
mod sums;

ghost use Rattle.std.specs.Prelude.{◌≡◌};
ghost use Rattle.depths.specs.Tallying.{Left, add_out, share_out, Reported, report_out};

use depths::{Added, Share, Tally};

// Adds a recording.
pub fn add(tally: Tally, counts: &mut [u32], pages: &[u16]) -> Added
    ensures { ◌≡◌ {A = Left} (record { added = result; counts = counts.new }) (add_out tally counts.old pages.now) }
{
    let broken = refusal::first_broken(tally, counts, pages);
    if broken != 0 {
        return Added {
            refusal: broken,
            tally,
        };
    }
    marks::count_depths(counts, pages);
    let recordings = tally.recordings + 1;
    let references = tally.references + pages.len() as u32;
    Added {
        refusal: 0,
        tally: Tally {
            recordings,
            references,
        },
    }
}

// The share at or below a size.
pub fn share_at(tally: Tally, counts: &[u32], size: u64) -> Share
    ensures { result ≡ share_out tally counts.now size }
{
    if counts.len() != Tally::DEPTHS {
        return Share {
            refusal: 1,
            within: 0,
            all: 0,
        };
    }
    let within = sums::first(counts, sums::depths_within(size));
    Share {
        refusal: 0,
        within,
        all: u64::from(tally.references),
    }
}

// The report: the hits of a cache of each size from 1 on, beside the lent counters, which are the references of each depth.
pub fn report(counts: &[u32], hits: &mut [u64]) -> u8
    ensures { ◌≡◌ {A = Reported} (record { refusal = result; hits = hits.new }) (report_out counts.now hits.old) }
{
    if counts.len() != Tally::DEPTHS {
        return 1;
    }
    if hits.len() != Tally::DEPTHS {
        return 1;
    }
    sums::each(counts, hits);
    0
}
