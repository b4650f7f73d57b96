//! Dirty sets, the bitmap of a guest's pages. Callers mark what they write, senders walk one, and
//! `Target` marks a round's places in one.

ghost use Rattle.std.specs.Prelude.{◌≡◌, ℕ, ◌<◌, ◌≤◌, length, false, replicate, not, find, IfOk, IfSome, IfNone, Ok, [], ◌^◌, All, sum_by};
ghost use Rattle.mig_mem.specs.Place.{IsPlace, IsAscending, place_at, place_lt, has_place};
ghost use Rattle.mig_mem.specs.PlaceSet.{PlaceSet, IsPlaceSet, IsFirstIn, with_place, without_place};
ghost use Rattle.mig_mem.specs.Buffers.{buffers_of};
ghost use Rattle.mig_mem.specs.Marks.{AreCleared, AreMarks, marks_in, set_in};

use crate::{NoMemory, Place, Table, marks};
use std::alloc::{Allocator, Global};
use std::fmt;
use std::marker::Model;

/// A set of the places of a table: which pages are dirty, as in QEMU's dirty bitmap
/// (`RAMBlock.bmap`).
///
/// # Examples
///
/// A guest writes a byte, and its page is marked:
///
/// <!-- quoted from crates/mig_uses/src/live_guest.rt -->
/// ```rust
/// let page = offset / table.page_size();
/// let place = Place { block, page };
/// if !self.dirty.table().holds(place) {
///     return false;
/// }
/// self.memory.set(block, offset, byte);
/// self.dirty.mark(place).is_ok()
/// ```
pub struct Dirty<A: Allocator = Global> {
    pub(crate) table: Table<A>,
    // the marks of each block, 64 to a word
    pub(crate) words: Vec<Vec<u64, A>, A>,
    // how many marks there are
    pub(crate) count: u64,
}

// Written out, so that a caller's proof passes a call where a value is dropped.
impl<A: Allocator> Drop for Dirty<A> {
    fn drop(self) {
        let Dirty {
            table: _,
            words: _,
            count: _,
        } = self;
    }
}

impl<A: Allocator> Model for Dirty<A> {
    ghost use Rattle.mig_mem.specs.PlaceSet.{PlaceSet};

    ghost Value = { PlaceSet };

    ghost use Rattle.mig_mem.specs.Marks.{set_in, IsCounted};

    ghost view = { λ d. set_in d.table d.words.items };

    ghost invariant = { λ d. IsCounted d.table d.words.items d.count };
}

impl<A: Allocator> fmt::Debug for Dirty<A> {
    fn fmt<W: fmt::Write>(&self, f: &mut fmt::Formatter<W>) -> fmt::Result {
        f.pad("Dirty { .. }")
    }
}

// Returns words without a mark.
fn no_words<A: Allocator>(alloc: A, len: usize) -> Result<Vec<u64, A>, NoMemory>
    ensures { IfOk result (λ v. v.items ≡ replicate len 0) }
{
    Ok(vec![in alloc; 0u64; len]?)
}

// Removes all marks of all blocks.
fn clear_rows<A: Allocator>(rows: &mut [Vec<u64, A>])
    ensures { AreCleared (buffers_of rows.old) (buffers_of rows.new) }
{
    for i in 0..rows.len() {
        marks::clear(&mut rows[i]);
    }
}

// Returns the number of marks in all blocks.
fn count_rows<A: Allocator>(rows: &[Vec<u64, A>]) -> u64
    requires few { length rows.now ≤ 256 }
    requires short { All (λ row. length row < 2 ^ 50) (buffers_of rows.now) }
    ensures { result ≡ sum_by marks_in (buffers_of rows.now) }
{
    let mut count = 0;
    for row in rows {
        count += marks::count(row);
    }
    count
}

impl<A: Allocator + Copy> Dirty<A> {
    /// Creates the empty set. It keeps a copy of the table.
    ///
    /// # Errors
    ///
    /// `NoMemory`: an allocation was refused.
    pub fn none<B: Allocator>(alloc: A, table: &Table<B>) -> Result<Dirty<A>, NoMemory>
        ensures { IfOk result (λ d. d ≡ record { table = table.now; marked = [] }) }
    {
        let mut words = Vec::with_capacity(alloc, table.len())?;
        for i in 0..table.len() {
            let len = marks::words_for(table.pages(i)) as usize;
            words.push(no_words(alloc, len)?)?;
        }
        let table = table.copy_in(alloc)?;
        Ok(Dirty {
            table,
            words,
            count: 0,
        })
    }

    /// Returns the places of the set, in ascending order.
    ///
    /// # Errors
    ///
    /// `NoMemory`: the list could not be allocated.
    pub fn pages(&self) -> Result<Vec<Place, A>, NoMemory>
        ensures value { IfOk result (λ v. v.items ≡ self.now.marked) }
        ensures ascending { IsAscending self.now.marked }
    {
        let mut places = Vec::with_capacity(*self.words.allocator(), self.count() as usize)?;
        let mut from = Place { block: 0, page: 0 };
        'marks: while let Some(place) = self.first_from(from) {
            places.push(place)?;
            from = Place {
                block: place.block,
                page: place.page + 1,
            };
        }
        Ok(places)
    }
}

impl<A: Allocator> Dirty<A> {
    /// Creates the set of the pages that `words` marks.
    pub(crate) fn from_rows(table: Table<A>, words: Vec<Vec<u64, A>, A>) -> Dirty<A>
        requires { AreMarks table (buffers_of words.items) }
        ensures { result ≡ set_in table words.items }
    {
        let count = count_rows(&words);
        Dirty {
            table,
            words,
            count,
        }
    }

    /// Returns the table of the set. The contract also says that the places of a set are the
    /// table's, ascending.
    pub fn table(&self) -> &Table<A>
        ensures value { result.now ≡ self.now.table }
        ensures set { IsPlaceSet self.now }
    {
        &self.table
    }

    /// Adds `place`, and returns whether it is new. A caller tests the place by `Table::holds`. The
    /// call allocates nothing, and always returns `Ok`.
    pub fn mark(&mut self, place: Place) -> Result<bool, NoMemory>
        requires { IsPlace self.old.table place }
        ensures set { self.new ≡ with_place self.old place }
        ensures new { result ≡ Ok (not (has_place self.old.marked place)) }
    {
        if marks::is_set(&self.words[place.block], place.page) {
            return Ok(false);
        }
        marks::set(&mut self.words[place.block], place.page);
        self.count += 1;
        Ok(true)
    }

    /// Removes `place` from the set, if it is there. A caller tests the place by `Table::holds`.
    pub fn unmark(&mut self, place: Place)
        requires { IsPlace self.old.table place }
        ensures { self.new ≡ without_place self.old place }
    {
        if !marks::is_set(&self.words[place.block], place.page) {
            return;
        }
        marks::unset(&mut self.words[place.block], place.page);
        self.count -= 1;
    }

    /// Returns whether `place` is in the set. It is false for a place outside the table.
    pub fn has(&self, place: Place) -> bool
        ensures { result ≡ has_place self.now.marked place }
    {
        self.table.holds(place) && marks::is_set(&self.words[place.block], place.page)
    }

    /// Returns the number of places in the set.
    pub fn count(&self) -> u64
        ensures value { result ≡ length self.now.marked }
        ensures set { IsPlaceSet self.now }
    {
        self.count
    }

    /// Removes all places from the set.
    pub fn clear(&mut self)
        ensures { self.new ≡ record self.old { marked = [] } }
    {
        clear_rows(&mut self.words);
        self.count = 0;
    }

    /// Returns the first place of the set that isn't before `from`. With it a caller walks the set
    /// in ascending order without a list of its places. On an empty set it returns at once, also
    /// for a large guest.
    pub fn first_from(&self, from: Place) -> Option<Place>
        ensures { result ≡ find (λ p. not (place_lt p from)) self.now.marked }
    {
        if self.count() == 0 {
            return None;
        }
        let mut page = from.page;
        for block in from.block..self.table().len() {
            if let Some(page) = self.first_in(block, page) {
                return Some(Place { block, page });
            }
            page = 0;
        }
        None
    }

    // Returns the first page of `block`, from page `from` on, that is in the set.
    fn first_in(&self, block: usize, from: u64) -> Option<u64>
        requires { block < length self.now.table.blocks }
        ensures some { IfSome result (λ page. IsFirstIn self.now block from page) }
        ensures none { IfNone result ((page : ℕ) → from ≤ page → has_place self.now.marked (place_at block page) ≡ false) }
    {
        let page = marks::first_set(&self.words[block], from)?;
        if page >= self.table.pages(block) {
            return None;
        }
        Some(page)
    }
}
