// Pages, frames and words: the kinds of count with their figures and places, the word and what it names, the slots of a frame, and bytes copied.
#![tactic(auto)]

pub mod copy;
pub mod slot;
pub mod word;

ghost use Rattle.std.specs.Prelude.{◌≡◌, ℕ, ◌+◌, ◌*◌, ◌≤◌, ◌<◌};
ghost use Rattle.page.specs.Word.{frame_word, number_word};
ghost use Rattle.page.specs.Figures.{page_size, most_pages, most_stores};
ghost use Rattle.page.specs.StorePlaces.{store_place};

// A page number. Its figures are those of a page.
#[repr(C)]
#[derive(Clone, Copy, PartialEq, Eq)]
pub struct PageNumber(pub u16);

// A frame index. Its figures are those of a frame and of its record.
#[repr(C)]
#[derive(Clone, Copy, PartialEq, Eq)]
pub struct FrameIndex(pub u8);

// Which of up to four stores a page is of.
#[repr(C)]
#[derive(Clone, Copy, PartialEq, Eq)]
pub struct StoreNumber(pub u8);

// A page's place in the buffer of the stores, counted in pages.
#[derive(Clone, Copy, PartialEq, Eq)]
pub struct StorePlace(pub u16);

// Which page of a buffer that is counted in pages.
pub trait PageIndex: Copy {
    ghost index: { Self → ℕ };

    fn index(self) -> u16
        ensures { result ≡ index self };

    // Where it starts there.
    final fn start(self) -> usize
        ensures { result ≡ page_size * index self }
    {
        PageNumber::SIZE * usize::from(self.index())
    }
}

impl PageNumber {
    pub const SIZE: usize = 256;

    pub const SLOTS: usize = 16;

    pub const PAYLOAD_START: usize = 64;

    pub const PAYLOAD_SIZE: usize = 192;

    // The largest N.
    pub const MOST: usize = 4096;

    // The name of this page.
    pub fn word(self) -> u32
        ensures { result ≡ number_word self.0 }
    {
        u32::from(self)
    }
}

impl From<PageNumber> for usize {
    ghost from_gives = { λ page n. n ≡ page.0 };

    fn from(page: PageNumber) -> usize {
        usize::from(page.0)
    }
}

impl From<PageNumber> for u32 {
    ghost from_gives = { λ page n. n ≡ page.0 };

    fn from(page: PageNumber) -> u32 {
        u32::from(page.0)
    }
}

impl StoreNumber {
    // The largest T.
    pub const MOST: usize = 4;
}

impl From<StoreNumber> for usize {
    ghost from_gives = { λ of_store n. n ≡ of_store.0 };

    fn from(of_store: StoreNumber) -> usize {
        usize::from(of_store.0)
    }
}

impl FrameIndex {
    // The least and the largest F.
    pub const LEAST: usize = 2;

    pub const MOST: usize = 64;

    // Document 01: the largest heat.
    pub const MAX_USAGE: u8 = 3;

    pub const MAX_PINS: u16 = 65535;

    // The name of this frame, to which a word is then swizzled.
    pub fn word(self) -> u32
        ensures { result ≡ frame_word self.0 }
    {
        word::SWIZZLE_BIT + u32::from(self.0)
    }

    // Where it starts in the frames, for callers that don't import `PageIndex`.
    pub fn start(self) -> usize
        ensures { result ≡ page_size * self.0 }
    {
        PageIndex::start(self)
    }
}

impl PageIndex for FrameIndex {
    ghost index = { λ frame. frame.0 };

    fn index(self) -> u16 {
        u16::from(self.0)
    }
}

impl From<FrameIndex> for usize {
    ghost from_gives = { λ frame n. n ≡ frame.0 };

    fn from(frame: FrameIndex) -> usize {
        usize::from(frame.0)
    }
}

impl StorePlace {
    // The place of a page of a store: the stores stand one after another, of as many pages each, in the order of their numbers.
    pub fn of(of_store: StoreNumber, page: PageNumber, pages: u16) -> StorePlace
        requires { (of_store.0 < most_stores) × (page.0 < most_pages) × (pages ≤ most_pages) }
        ensures { result.0 ≡ store_place pages of_store.0 page.0 }
    {
        StorePlace(pages * u16::from(of_store.0) + page.0)
    }

    // Where it starts in the stores, for callers that don't import `PageIndex`.
    pub fn start(self) -> usize
        ensures { result ≡ page_size * self.0 }
    {
        PageIndex::start(self)
    }
}

impl PageIndex for StorePlace {
    ghost index = { λ place. place.0 };

    fn index(self) -> u16 {
        self.0
    }
}

impl From<StorePlace> for usize {
    ghost from_gives = { λ place n. n ≡ place.0 };

    fn from(place: StorePlace) -> usize {
        usize::from(place.0)
    }
}
