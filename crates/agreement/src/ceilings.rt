// The ceilings of the stores.
ghost use Rattle.std.specs.Prelude.{◌<◌, ◌≤◌};
ghost use Rattle.page.specs.Figures.{most_frames, most_stores};
ghost use Rattle.rules.specs.Deciding.{Decides};
ghost use Rattle.agreement.specs.Fit.{HeldAlone, UnderCeilings};

use machine::Pool;
use page::StoreNumber;
use residents::Residents;

// Has no store more pages in the frames than its ceiling, by the table. Where there is one store, its pages are those in all occupied frames.
pub fn hold(pool: &Pool, residents: &Residents, occupied: u32) -> bool
    requires { (0 < pool.now.count) × (pool.now.count ≤ most_frames) × (pool.now.stores ≤ most_stores) × HeldAlone residents.now pool.now.count pool.now.stores occupied }
    ensures { Decides result (UnderCeilings residents.now pool.now.count pool.now.stores pool.now.ceilings) }
{
    if pool.stores == 1 {
        return occupied <= u32::from(pool.ceilings[0]);
    }
    let count = usize::from(pool.count);
    for t in 0..pool.stores {
        let ceiling = u16::from(pool.ceilings[usize::from(t)]);
        if ceiling < residents::held(residents, count, StoreNumber(t)) {
            return false;
        }
    }
    true
}
