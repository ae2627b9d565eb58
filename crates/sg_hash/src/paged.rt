//! Rows of words that are kept by pages, so that they take time by the pages in which words stand and not by their places.

ghost use Rattle.std.specs.Prelude.{◌≡◌, ℕ, ◌+◌, ◌*◌, ◌/◌, ◌%◌, ◌^◌, ◌<◌, ◌≤◌, length, replicate, slice_index, slice_set, vec_capacity, IfOk};
ghost use Rattle.sg_hash.specs.Rows.{IsNext};
ghost use Rattle.sg_hash.specs.steps.Paging.{paged_word, filled_up};

use sg_words::Memory;
use std::alloc::Global;
use std::marker::Model;

/// A word for each of so many places, with room for all of them. The words are kept by pages of 64 places; a page stands once a word of it
/// was given that isn't 0, and in all others the words are 0. A write asks for no memory. Contracts see the words of all places.
#[derive(Debug, Drop)]
pub struct PagedRow {
    // page after page, in the order in which they were given; the first one is of zeros
    words: Vec<u64>,
    // for each 64 places the number of their page, up to the last that stands; 0 where it doesn't
    pages: Vec<usize>,
    places: usize,
}

impl Model for PagedRow {
    ghost use Rattle.std.specs.Prelude.{ℕ, List, vec_capacity};
    ghost use Rattle.sg_hash.specs.steps.Paging.{paged, IsKept};

    ghost Value = { List ℕ };

    ghost view = { λ row. paged row.words.items row.pages.items row.places };

    ghost invariant = { λ row. IsKept row.words.items row.pages.items row.places (vec_capacity row.words) (vec_capacity row.pages) };
}

impl PagedRow {
    /// A row of zeros for so many places. In time by none of them.
    pub fn zeros(alloc: Global, places: usize) -> Result<PagedRow, Memory>
        ensures { IfOk result (λ row. row ≡ replicate places 0) }
    {
        let Some(room) = places.checked_add(128) else {
            return Err(Memory);
        };
        let mut words = Vec::with_capacity(alloc, room)?;
        grow(&mut words, 64, 0);
        let pages = Vec::with_capacity(alloc, places / 64 + 1)?;
        Ok(PagedRow {
            words,
            pages,
            places,
        })
    }

    /// A copy of the row. In time by the pages that stand, and 8 bytes for each 64 places.
    pub fn copy(&self, alloc: Global) -> Result<PagedRow, Memory>
        ensures { IfOk result (λ copy. copy ≡ self.now) }
    {
        let mut words = Vec::with_capacity(alloc, self.words.capacity())?;
        words.extend_from_slice(self.words.as_slice())?;
        let mut pages = Vec::with_capacity(alloc, self.pages.capacity())?;
        pages.extend_from_slice(self.pages.as_slice())?;
        Ok(PagedRow {
            words,
            pages,
            places: self.places,
        })
    }

    /// How many places there are.
    pub fn len(&self) -> usize
        ensures { result ≡ length self.now }
    {
        self.places
    }

    /// The word of a place; 0 past the last.
    pub fn get(&self, place: usize) -> u64
        ensures { result ≡ slice_index self.now place }
    {
        if place < self.places {
            word_at(self.words.as_slice(), self.pages.as_slice(), place)
        } else {
            0
        }
    }

    /// Gives a place a word.
    pub fn set(&mut self, place: usize, word: u64)
        requires { place < length self.old }
        ensures { self.new ≡ slice_set self.old place word }
    {
        let page = page_at(self.pages.as_slice(), place / 64);
        if page != 0 {
            self.words[64 * page + place % 64] = word;
        } else if word != 0 {
            give_page(&mut self.words, &mut self.pages, place, word);
        }
    }

    /// The words of all places.
    pub fn whole(&self, alloc: Global) -> Result<Vec<u64>, Memory>
        ensures { IfOk result (λ words. words.items ≡ self.now) }
    {
        let mut words = Vec::with_capacity(alloc, self.places)?;
        for place in 0..self.places {
            words.push(self.get(place))?;
        }
        Ok(words)
    }

    /// Gives all places other words.
    pub fn overwrite(&mut self, values: &[u64])
        requires { length values.now ≡ length self.old }
        ensures { self.new ≡ values.now }
    {
        for (place, word) in values.iter().enumerate() {
            self.set(place, *word);
        }
    }

    /// Makes the row equal to another of as many places. In time by the other's pages that stand, and asks for no memory.
    pub fn become_like(&mut self, other: &PagedRow)
        requires { length other.now ≡ length self.old }
        ensures { self.new ≡ other.now }
    {
        refill(&mut self.words, other.words.as_slice());
        refill(&mut self.pages, other.pages.as_slice());
    }

    /// The first place from one on whose word isn't 0. A walk over all such places takes time by the pages that stand, and one step for
    /// each 64 places up to the last of these.
    pub fn next(&self, from: usize) -> Option<usize>
        ensures next { IsNext self.now from result }
        ensures few { length self.now < 2 ^ 64 }
    {
        let end = self.end();
        let mut place = from;
        while place < end {
            if self.get(place) != 0 {
                return Some(place);
            }
            place = self.past(place);
        }
        None
    }

    /// The place after the last page that stands, or after the last place: from there on all words are 0.
    fn end(&self) -> usize
        ensures within { result ≤ length self.now }
        ensures zeros { (place : ℕ) → result ≤ place → slice_index self.now place ≡ 0 }
        ensures few { length self.now + 64 < 2 ^ 64 }
    {
        let last = 64 * self.pages.len();
        if last < self.places {
            last
        } else {
            self.places
        }
    }

    /// A place after one whose word is 0: the next one, or the first past its page if this doesn't stand.
    fn past(&self, place: usize) -> usize
        requires there { place < length self.now }
        requires none { slice_index self.now place ≡ 0 }
        requires small { place + 64 < 2 ^ 64 }
        ensures further { place < result }
        ensures zeros { (other : ℕ) → place ≤ other → other < result → slice_index self.now other ≡ 0 }
    {
        if page_at(self.pages.as_slice(), place / 64) == 0 {
            place - place % 64 + 64
        } else {
            place + 1
        }
    }
}

/// Gives a place whose page doesn't stand a word: its page is the next one.
fn give_page(words: &mut Vec<u64>, pages: &mut Vec<usize>, place: usize, word: u64)
    requires room { length words.old.items + 64 ≤ vec_capacity words.old }
    requires pages_room { place / 64 + 1 ≤ vec_capacity pages.old }
    ensures words { words.new.items ≡ slice_set (filled_up words.old.items (length words.old.items + 64) 0) (length words.old.items + place % 64) word }
    ensures pages { pages.new.items ≡ slice_set (filled_up pages.old.items (place / 64 + 1) 0) (place / 64) (length words.old.items / 64) }
    ensures words_stay { vec_capacity words.old ≤ vec_capacity words.new }
    ensures pages_stay { vec_capacity pages.old ≤ vec_capacity pages.new }
{
    let first = words.len();
    grow(words, first + 64, 0);
    grow(pages, place / 64 + 1, 0);
    pages[place / 64] = first / 64;
    words[first + place % 64] = word;
}

/// The word of a place, in the page that its 64 places have.
fn word_at(words: &[u64], pages: &[usize], place: usize) -> u64
    requires { 64 * slice_index pages.now (place / 64) + place % 64 < length words.now }
    ensures { result ≡ paged_word words.now pages.now place }
{
    words[64 * page_at(pages, place / 64) + place % 64]
}

/// The number of a page; 0 past the last that stands.
fn page_at(pages: &[usize], index: usize) -> usize
    ensures { result ≡ slice_index pages.now index }
{
    if index < pages.len() { pages[index] } else { 0 }
}

/// Makes a list at least as long, within its room: what is added is the same item.
fn grow<T: Copy>(items: &mut Vec<T>, many: usize, rest: T)
    requires { many ≤ vec_capacity items.old }
    ensures items { items.new.items ≡ filled_up items.old.items many rest }
    ensures room { vec_capacity items.old ≤ vec_capacity items.new }
{
    if items.len() < many {
        items.resize(many, rest).unwrap();
    }
}

/// Gives a list other items, for which it has room.
fn refill<T: Copy>(items: &mut Vec<T>, others: &[T])
    requires { length others.now ≤ vec_capacity items.old }
    ensures items { items.new.items ≡ others.now }
    ensures room { vec_capacity items.old ≤ vec_capacity items.new }
{
    items.clear();
    items.extend_from_slice(others).unwrap();
}
