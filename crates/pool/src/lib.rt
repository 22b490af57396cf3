// The page pool: its thirteen calls, and the kinds that they take and give.
#![tactic(auto)]

pub use changes::{link, unlink, write};
pub use contents::{find, peek, peek_place, show, show_place, word};
pub use fixing::{fix, root};
pub use machine::{Buffers, Found, FrameRecord, Handle, Named, Payload, Pinned, Pool, Refusal};
pub use page::{FrameIndex, PageNumber, StoreNumber};
pub use residency::{evict, no_pool, open, settle, unfix};
