// The word: four bytes, little-endian, what it names and its mark, and the two readings of a name. Words and names are u32 until their range was tested.
ghost use Rattle.std.specs.Prelude.{◌≡◌, ◌+◌, ◌-◌, ◌%◌, ◌≤◌, ◌<◌, length};
ghost use Rattle.page.specs.Word.{word_at, put_word, is_marked, name_of, name_at, marked, renamed, is_number, is_marked_number, half_radix, frame_in, frame_word};
ghost use Rattle.page.specs.Figures.{most_frames};

// Bit 31: set where the word names a frame.
pub const SWIZZLE_BIT: u32 = 0x8000_0000;

// Bit 30: set where the page that the word names is locked.
const LOCK_BIT: u32 = 0x4000_0000;

// The bytes of a word.
pub const SIZE: usize = 4;

// The bytes of half a word, and its values.
pub const HALF_SIZE: usize = 2;

pub const HALF_RADIX: u32 = 65536;

// The name of nothing, and the word that names nothing.
pub const NOTHING: u32 = 0;

// The word in the four bytes from `at` on.
pub fn word_at(b: &[u8], at: usize) -> u32
    requires { at + 4 ≤ length b.now }
    ensures { result ≡ word_at b.now at }
{
    u32::from_le_bytes([b[at], b[at + 1], b[at + 2], b[at + 3]])
}

// The low half of the word in the four bytes from `at` on, which is that of what the word names.
pub fn half_at(b: &[u8], at: usize) -> u32
    requires { at + 2 ≤ length b.now }
    ensures { result ≡ word_at b.now at % half_radix }
{
    u32::from(u16::from_le_bytes([b[at], b[at + 1]]))
}

// Puts a word into the four bytes from `at` on.
pub fn put_word(b: &mut [u8], at: usize, w: u32)
    requires { at + 4 ≤ length b.old }
    ensures { b.new ≡ put_word b.old at w }
{
    b[at..at + SIZE].copy_from_slice(&w.to_le_bytes());
}

// Has the word a mark. The most words have none, and are told by one comparison.
pub fn is_marked(w: u32) -> bool
    ensures { result ≡ is_marked w }
{
    if w <= LOCK_BIT {
        return false;
    }
    w / LOCK_BIT % 2 == 1
}

// What a word names: the word without its mark.
pub fn name_of(w: u32) -> u32
    ensures { result ≡ name_of w }
{
    if is_marked(w) {
        return w - LOCK_BIT;
    }
    w
}

// What the word in the four bytes from `at` on names.
pub fn name_at(b: &[u8], at: usize) -> u32
    requires { at + 4 ≤ length b.now }
    ensures { result ≡ name_at b.now at }
{
    name_of(word_at(b, at))
}

// The word with this name, with a mark or without.
#[tactic(auto, unfolding(crate::specs::Word::marked))]
pub fn marked(locked: bool, name: u32) -> u32
    requires { name < frame_word most_frames }
    ensures { result ≡ marked locked name }
{
    if locked {
        return LOCK_BIT + name;
    }
    name
}

// The word with this name that goes into the place of the word `old`: it keeps that one's mark.
pub fn renamed(old: u32, name: u32) -> u32
    requires { name < frame_word most_frames }
    ensures { result ≡ renamed old name }
{
    marked(is_marked(old), name)
}

// Does the name give a page, or nothing, and no frame.
pub fn is_number(name: u32) -> bool
    ensures { result ≡ is_number name }
{
    name < SWIZZLE_BIT
}

// Has the word a mark, and names no frame.
pub fn is_marked_number(w: u32) -> bool
    ensures { result ≡ is_marked_number w }
{
    if w < SWIZZLE_BIT {
        return LOCK_BIT < w;
    }
    false
}

// The frame that a name gives, before its range was tested; 0 for another name.
pub fn frame_in(name: u32) -> usize
    ensures { result ≡ frame_in name }
{
    if name < SWIZZLE_BIT {
        return 0;
    }
    (name - SWIZZLE_BIT) as usize
}
