// The calls that begin with a pool, release its pages and write them out: open, unfix, evict and settle.
#![tactic(auto)]

mod opening;
mod releasing;
mod settling;

pub use opening::{no_pool, open};
pub use releasing::{evict, unfix};
pub use settling::settle;
