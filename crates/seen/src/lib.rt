// The table of the page numbers seen, of up to four stores, a bit for each: what is noted in it, and asked of it. No other crate goes by its form.
#![tactic(auto)]

pub mod flags;
pub mod words;

ghost use Rattle.std.specs.Prelude.{ℕ, MatchOption, ◌≡◌, true, false, ◌+◌, ◌*◌, ◌-◌, ◌^◌, ◌≤◌, ◌<◌, length};
ghost use Rattle.page.specs.Figures.{word_size, payload_start, slot_count, most_pages, most_stores};
ghost use Rattle.page.specs.Page.{words_from};
ghost use Rattle.seen.specs.Among.{has_any};
ghost use Rattle.seen.specs.Seen.{first_slots, none, noted, Table, OneStore, Marks, Notes, row_of, PageNumbers, Marked, Reads, Large, MarksTo};

use page::{PageNumber, StoreNumber, word};
use std::marker::Model;

// The entries of a table: one for each page number, with a bit for each store that has noted it.
pub type Entries = [u8; PageNumber::MOST];

// The entry of a number that no store has noted.
const UNMARKED: u8 = 0;

// No number is noted.
pub const NONE: Entries = [0; PageNumber::MOST];

// How many slots of a page are marked one by one before the others are looked at.
const FIRST: usize = 4;

// Is the number of a store noted.
pub fn is_noted(seen: &Entries, of_store: StoreNumber, x: usize) -> bool
    requires { (of_store.0 < most_stores) × (x < most_pages) }
    ensures { result ≡ noted seen.now of_store.0 x }
{
    (seen[x] >> of_store.0) % 2 == 1
}

// The bit of a store.
fn bit(of_store: StoreNumber) -> u8
    requires { of_store.0 < most_stores }
    ensures { result ≡ 2 ^ of_store.0 }
{
    1u8 << of_store.0
}

// Marks the entry of a number for a store: was it not marked.
fn mark(seen: &mut Entries, of_store: StoreNumber, x: usize) -> bool
    requires { (of_store.0 < most_stores) × (x < most_pages) }
    ensures { Marks of_store.0 x seen.old seen.new result }
{
    let new = !is_noted(seen, of_store, x);
    seen[x] |= bit(of_store);
    new
}

// Notes a number of a store: was it new. 0 stands for no number, in every store, and its mark is taken back.
pub fn note(seen: &mut Entries, of_store: StoreNumber, x: usize) -> bool
    requires { (of_store.0 < most_stores) × (x < most_pages) }
    ensures { Notes of_store.0 x seen.old seen.new result }
{
    let new = mark(seen, of_store, x);
    seen[0] = UNMARKED;
    new
}

// The same for store 0, where no other store has a number noted: what is written doesn't wait for what was read. By `note`, 16 numbers take 16.4 ns and not 12.7.
pub fn note_alone(seen: &mut Entries, x: usize) -> bool
    requires { (x < most_pages) × OneStore seen.old }
    ensures { Notes 0 x seen.old seen.new result }
{
    let new = seen[x] == UNMARKED;
    seen[x] = 1;
    seen[0] = UNMARKED;
    new
}

// Is the last of a page's first slots empty, and all that come after them: those are looked at side by side.
fn names_few(buffer: &[u8], at: usize) -> bool
    requires { at + payload_start ≤ length buffer.now }
    ensures { result ≡ true → has_any (words_from buffer.now (at + word_size * first_slots)) (slot_count - first_slots) ≡ false }
{
    if word::word_at(buffer, at + word::SIZE * (FIRST - 1)) != word::NOTHING {
        return false;
    }
    !words::has_any(buffer, at + word::SIZE * FIRST, PageNumber::SLOTS - FIRST)
}

// Notes for a store the numbers in the slots from `first` to before `end`, as `read` has them, for as long as they are below `limit`. The slot up to which that went; None where a number was noted before.
fn mark_row<F: Fn(usize) -> u32>(
    first: usize,
    end: usize,
    limit: usize,
    of_store: StoreNumber,
    seen: &mut Entries,
    read: &F,
) -> Option<usize>
    requires sizes { (limit ≤ most_pages) × (of_store.0 < most_stores) × (first ≤ end) }
    requires readable { (k : ℕ) → k < end → F.pre read.now k }
    ensures marked { (w : ℕ → ℕ) → Reads (F.post read.now) end w → MarksTo of_store.0 first result end w limit seen.old seen.new }
    ensures stopped { MatchOption result Unit (λ k. k < end → Large (F.post read.now) k limit) }
{
    for k in first..end {
        let x = read(k) as usize;
        if x != 0 {
            if limit <= x {
                return Some(k);
            }
            if !mark(seen, of_store, x) {
                return None;
            }
        }
    }
    Some(end)
}

// The same for the slots of the page from byte `at` on. A page that names few has them in its first slots, most likely.
fn mark_slots<F: Fn(usize) -> u32>(
    buffer: &[u8],
    at: usize,
    first: usize,
    limit: usize,
    of_store: StoreNumber,
    seen: &mut Entries,
    read: &F,
) -> Option<usize>
    requires sizes { (limit ≤ most_pages) × (of_store.0 < most_stores) × (first ≤ slot_count) × (at + payload_start ≤ length buffer.now) }
    requires readable { (k : ℕ) → k < slot_count → F.pre read.now k }
    requires names { Reads (F.post read.now) slot_count (words_from buffer.now at) }
    ensures marked { MarksTo of_store.0 first result slot_count (words_from buffer.now at) limit seen.old seen.new }
    ensures stopped { MatchOption result Unit (λ k. k < slot_count → Large (F.post read.now) k limit) }
{
    if FIRST <= first {
        return mark_row(first, PageNumber::SLOTS, limit, of_store, seen, read);
    }
    let k = mark_row(first, FIRST, limit, of_store, seen, read)?;
    if k < FIRST {
        return Some(k);
    }
    if names_few(buffer, at) {
        return Some(PageNumber::SLOTS);
    }
    mark_row(FIRST, PageNumber::SLOTS, limit, of_store, seen, read)
}

// Notes for a store the numbers in the 16 words of the page from byte `at` on; false where one isn't below `limit` or was noted before. Most words have no mark, and are their own names: only from the first other one on do they go by names.
pub fn mark_page(
    buffer: &[u8],
    at: usize,
    limit: usize,
    of_store: StoreNumber,
    seen: &mut Entries,
) -> bool
    requires { (limit ≤ most_pages) × (of_store.0 < most_stores) × (at + payload_start ≤ length buffer.now) × Table seen.old }
    ensures { Marked of_store.0 slot_count (words_from buffer.now at) limit seen.old seen.new result }
{
    let plain = |k: usize| word::word_at(buffer, at + word::SIZE * k);
    let by_name = |k: usize| word::name_at(buffer, at + word::SIZE * k);
    let Some(k) = mark_slots(buffer, at, 0, limit, of_store, seen, &plain) else {
        return false;
    };
    mark_slots(buffer, at, k, limit, of_store, seen, &by_name) == Some(PageNumber::SLOTS)
}

// Notes 16 numbers of store 0, where no other store has any: were they all new. No number is branched on. It stays a call, so that the numbers stand in memory, where the compiler makes them side by side; inlined, it makes them one by one, and rule 2 of 64 frames takes a quarter longer.
#[inline(never)]
pub fn mark_numbers(numbers: &[u32; PageNumber::SLOTS], seen: &mut Entries) -> bool
    requires { PageNumbers numbers.now × Table seen.old × OneStore seen.old }
    ensures { Marked 0 slot_count (row_of numbers.now) most_pages seen.old seen.new result }
{
    let mut fresh = true;
    for x in numbers {
        fresh &= note_alone(seen, *x as usize);
    }
    fresh
}

// A table that is whole, in which 0, which names no page, is never noted.
#[derive(Clone, Copy)]
pub struct Seen {
    entries: Entries,
}

impl Model for Seen {
    ghost use Rattle.std.specs.Prelude.{List, ℕ};
    ghost use Rattle.seen.specs.Seen.{Table};

    ghost Value = { List ℕ };

    ghost view = { λ s. s.entries };

    ghost inverse = { λ d. record { entries = d } };

    ghost invariant = { λ s. Table s.entries };
}

// Each method but `new` is the function of its name, over the entries.
impl Seen {
    // No number is noted.
    pub fn new() -> Seen
        ensures { result ≡ none }
    {
        Seen { entries: NONE }
    }

    pub fn is_noted(&self, of_store: StoreNumber, x: usize) -> bool
        requires { (of_store.0 < most_stores) × (x < most_pages) }
        ensures { result ≡ noted self.now of_store.0 x }
    {
        is_noted(&self.entries, of_store, x)
    }

    pub fn note(&mut self, of_store: StoreNumber, x: usize) -> bool
        requires { (of_store.0 < most_stores) × (x < most_pages) }
        ensures { Notes of_store.0 x self.old self.new result }
    {
        note(&mut self.entries, of_store, x)
    }

    pub fn note_alone(&mut self, x: usize) -> bool
        requires { (x < most_pages) × OneStore self.old }
        ensures { Notes 0 x self.old self.new result }
    {
        note_alone(&mut self.entries, x)
    }

    pub fn mark_page(
        &mut self,
        of_store: StoreNumber,
        buffer: &[u8],
        at: usize,
        limit: usize,
    ) -> bool
        requires { (limit ≤ most_pages) × (of_store.0 < most_stores) × (at + payload_start ≤ length buffer.now) }
        ensures { Marked of_store.0 slot_count (words_from buffer.now at) limit self.old self.new result }
    {
        mark_page(buffer, at, limit, of_store, &mut self.entries)
    }

    pub fn mark_numbers(&mut self, numbers: &[u32; PageNumber::SLOTS]) -> bool
        requires { PageNumbers numbers.now × OneStore self.old }
        ensures { Marked 0 slot_count (row_of numbers.now) most_pages self.old self.new result }
    {
        mark_numbers(numbers, &mut self.entries)
    }
}
