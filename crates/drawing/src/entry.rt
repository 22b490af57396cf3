// The 16 bytes of a call record.
ghost use Rattle.std.specs.Prelude.{◌≡◌};
ghost use Rattle.drawing.specs.Drawing.{entry_from};

use crate::fields::Fields;
use page::PageNumber;

// The bytes for these fields: no length, and no data but link's parent page.
pub fn of_fields(fields: Fields, parent: PageNumber) -> [u8; 16]
    ensures { result ≡ entry_from fields parent.0 }
{
    let [page_low, page_high] = fields.page.0.to_le_bytes();
    let [parent_low, parent_high] = parent.0.to_le_bytes();
    [
        fields.call,
        fields.frame.0,
        page_low,
        page_high,
        fields.slot,
        fields.offset,
        0,
        parent_low,
        parent_high,
        0,
        0,
        0,
        0,
        0,
        0,
        0,
    ]
}
