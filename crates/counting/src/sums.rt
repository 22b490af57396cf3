// Sums of counters. They are made in 64 bits, which no tally exceeds, whatever its counters are.
ghost use Rattle.std.specs.Prelude.{◌≡◌, ◌≤◌, min, length};
ghost use Rattle.depths.specs.Tallying.{total, within, depth_count, hits_of_all};

use depths::Tally;

// A size as a number of depths: from the largest depth on, all.
pub fn depths_within(size: u64) -> usize
    ensures { result ≡ min size depth_count }
{
    size.min(Tally::DEPTHS as u64) as usize
}

// The sum of counters.
fn all(counts: &[u32]) -> u64
    requires { length counts.now ≤ depth_count }
    ensures { result ≡ total counts.now }
{
    counts.iter().map(|count| u64::from(*count)).sum()
}

// The sum of the first n counters.
#[tactic(auto, unfolding(depths::specs::Tallying::within))]
pub fn first(counts: &[u32], n: usize) -> u64
    requires { (n ≤ depth_count) × (length counts.now ≡ depth_count) }
    ensures { result ≡ within n counts.now }
{
    all(&counts[..n])
}

// The sum of the first, of the first two, and so on.
pub fn each(counts: &[u32], hits: &mut [u64])
    requires { (length counts.now ≡ depth_count) × (length hits.old ≡ depth_count) }
    ensures { hits.new ≡ hits_of_all counts.now }
{
    let mut sum: u64 = 0;
    for (i, count) in counts.iter().enumerate() {
        sum += u64::from(*count);
        hits[i] = sum;
    }
}
