// The words of a page, looked at side by side. Words are taken as they stand, with their marks, where that is enough.
ghost use Rattle.std.specs.Prelude.{◌≡◌, false, ◌+◌, ◌*◌, ◌≤◌, length};
ghost use Rattle.page.specs.Figures.{word_size, payload_start, slot_count};
ghost use Rattle.page.specs.Page.{words_from};
ghost use Rattle.seen.specs.Among.{among, has_any, has_word};

use crate::flags;
use page::{PageNumber, word};

// The halves of a page's words.
const HALVES: usize = 2 * PageNumber::SLOTS;

// Is one of the `count` words from byte `at` on not 0.
pub fn has_any(buffer: &[u8], at: usize, count: usize) -> bool
    requires { at + word_size * count ≤ length buffer.now }
    ensures { result ≡ has_any (words_from buffer.now at) count }
{
    flags::any_below(
        count,
        |k| word::word_at(buffer, at + word::SIZE * k) != word::NOTHING,
    )
}

// Is one of the 16 words from byte `at` on not 0.
pub fn has_word(buffer: &[u8], at: usize) -> bool
    requires { at + payload_start ≤ length buffer.now }
    ensures { result ≡ has_word (words_from buffer.now at) }
{
    has_any(buffer, at, PageNumber::SLOTS)
}

// Is the low half of a name among the 32 halves of the 16 words from byte `at` on. Where it isn't, no word has the name, with a mark or without: the mark is in the other half, and need not be taken off.
fn has_half(buffer: &[u8], at: usize, name: u32) -> bool
    requires { at + payload_start ≤ length buffer.now }
    ensures { result ≡ false → among (words_from buffer.now at) slot_count name ≡ false }
{
    let half = name % word::HALF_RADIX;
    flags::any_below(
        HALVES,
        |k| word::half_at(buffer, at + word::HALF_SIZE * k) == half,
    )
}

// Has one of the 16 words from byte `at` on this name.
fn has_name(buffer: &[u8], at: usize, name: u32) -> bool
    requires { at + payload_start ≤ length buffer.now }
    ensures { result ≡ among (words_from buffer.now at) slot_count name }
{
    flags::any_below(
        PageNumber::SLOTS,
        |k| word::name_at(buffer, at + word::SIZE * k) == name,
    )
}

// The same, for a search of many pages: names are looked at only where a half fits.
pub fn has(buffer: &[u8], at: usize, name: u32) -> bool
    requires { at + payload_start ≤ length buffer.now }
    ensures { result ≡ among (words_from buffer.now at) slot_count name }
{
    if has_half(buffer, at, name) {
        return has_name(buffer, at, name);
    }
    false
}
