// The page and the 16 words of a frame, noted in the table of the numbers seen. Words are taken as they stand: one with a mark isn't below N.
ghost use Rattle.std.specs.Prelude.{◌≡◌, ◌+◌, ◌*◌, ◌-◌, ◌≤◌, ◌<◌, length, is_some};
ghost use Rattle.std.specs.Option.{unwrap_or};
ghost use Rattle.page.specs.Figures.{page_size, slot_count, most_pages, most_stores};
ghost use Rattle.page.specs.Page.{slot};
ghost use Rattle.seen.specs.Seen.{Notes};
ghost use Rattle.agreement.specs.Fit.{number_below, weight, low_sum, SumsWords, BelowOf, WordsNoted, NumbersNoted, Alone};

use page::{FrameIndex, PageNumber, StoreNumber};
use seen::Seen;

// What a word that isn't below N counts for in a sum of words: more than 16 numbers below 4,096 add up to.
const OVER: u32 = 65536;

// The words of a frame that a page of `of_store` occupies, where a store has `pages` pages.
#[derive(Clone, Copy)]
pub struct Words<'a> {
    pub frames: &'a [u8],
    pub frame: FrameIndex,
    pub of_store: StoreNumber,
    pub pages: u32,
    ghost inside: { page_size * frame.0 + page_size ≤ length frames.now },
    ghost in_range: { (of_store.0 < most_stores) × (1 ≤ pages) × (pages ≤ most_pages) },
}

// A word that is below N; 0 in place of any other.
fn number_below(pages: u32, w: u32) -> u32
    ensures { result ≡ number_below pages w }
{
    if w < pages { w } else { 0 }
}

// What a word counts for: a number up to N − 1, the last, for itself, any other for OVER. It is a function beside `number_below` so that the two compare differently: where the sum and the numbers share a comparison, the compiler takes the words one by one, and the pass takes a fifth longer.
fn word_weight(last: u32, w: u32) -> u32
    ensures { result ≡ weight last w }
{
    if w <= last { w } else { OVER }
}

impl Words<'_> {
    // The word in slot k, as it stands.
    pub fn at(&self, k: usize) -> u32
        requires { k < slot_count }
        ensures { result ≡ slot self.now.frames.now self.now.frame.0 k }
    {
        let frames = self.frames;
        page::slot::slot_word(frames, self.frame, k)
    }

    // The sum of the words, of which each that isn't below N counts for OVER. No word is branched on, so that the compiler takes them side by side.
    fn sum(&self) -> u32
        ensures { SumsWords (slot self.now.frames.now self.now.frame.0) self.now.pages result }
    {
        let mut sum = 0;
        for k in 0..PageNumber::SLOTS {
            sum += word_weight(self.pages - 1, self.at(k));
        }
        sum
    }

    // The numbers below N among the words, 0 in place of any other. No word is branched on, so that the compiler takes them side by side.
    fn numbers(&self) -> [u32; PageNumber::SLOTS]
        ensures { BelowOf (slot self.now.frames.now self.now.frame.0) self.now.pages result }
    {
        let mut numbers = [0; PageNumber::SLOTS];
        for k in 0..PageNumber::SLOTS {
            numbers[k] = number_below(self.pages, self.at(k));
        }
        numbers
    }

    // Notes the numbers below N among the words, one after the other until nothing is left of their sum: were they all new.
    fn note_each(&self, sum: u32, seen: &mut Seen) -> bool
        requires { sum ≡ low_sum (slot self.now.frames.now self.now.frame.0) self.now.pages slot_count }
        ensures { WordsNoted (slot self.now.frames.now self.now.frame.0) self.now.pages self.now.of_store.0 seen.old seen.new result }
    {
        let mut left = sum;
        let mut k: usize = 0;
        // Not a `for` over the slots that leaves where nothing is left: that takes the pass over two stores' frames a sixth longer.
        while left != 0 {
            let x = number_below(self.pages, self.at(k));
            if !seen.note(self.of_store, x as usize) {
                return false;
            }
            left -= x;
            k += 1;
        }
        true
    }

    // The same; where there is one store, they are taken side by side.
    fn note_words(&self, sum: u32, alone: bool, seen: &mut Seen) -> bool
        requires { (sum ≡ low_sum (slot self.now.frames.now self.now.frame.0) self.now.pages slot_count) × Alone alone self.now.of_store.0 seen.old }
        ensures { WordsNoted (slot self.now.frames.now self.now.frame.0) self.now.pages self.now.of_store.0 seen.old seen.new result }
    {
        if sum == 0 {
            true
        } else if alone {
            seen.mark_numbers(&self.numbers())
        } else {
            self.note_each(sum, seen)
        }
    }

    // Notes the page: was it new. `alone` where there is one store.
    fn note_page(&self, page: PageNumber, alone: bool, seen: &mut Seen) -> bool
        requires { (page.0 < most_pages) × Alone alone self.now.of_store.0 seen.old }
        ensures { Notes self.now.of_store.0 page.0 seen.old seen.new result }
    {
        let x = usize::from(page);
        if alone {
            seen.note_alone(x)
        } else {
            seen.note(self.of_store, x)
        }
    }

    // Notes the page and the words of the frame: how many of the words are not below N, or nothing where a number was noted before.
    pub fn note(&self, page: PageNumber, alone: bool, seen: &mut Seen) -> Option<u32>
        requires { (page.0 < self.now.pages) × Alone alone self.now.of_store.0 seen.old }
        ensures { NumbersNoted (slot self.now.frames.now self.now.frame.0) self.now.pages self.now.of_store.0 page.0 seen.old seen.new (unwrap_or result 0) (is_some result) }
    {
        if !self.note_page(page, alone, seen) {
            return None;
        }
        let sum = self.sum();
        if !self.note_words(sum % OVER, alone, seen) {
            return None;
        }
        Some(sum / OVER)
    }
}
