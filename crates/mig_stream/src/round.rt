//! The rounds of a stream: their page records. `Progress` fills them, `StreamReader::take_round`
//! returns them, and `Target` reads them.

ghost use Rattle.std.specs.Prelude.{◌≡◌, ◌<◌, ◌^◌, ◌++◌, [], ◌∷◌, length, take, None, Some, IfSome, IfOk, OnOk, OnErr, vec_len, vec_capacity};
ghost use Rattle.std.specs.Option.{option_copied};
ghost use Rattle.mig_stream.specs.Kept.{bytes_of, buffers_of_records, record_in, IsHeld, IsShort, records_after, AreHeldAfter};
ghost use Rattle.mig_stream.specs.Items.{has_none};
ghost use Rattle.mig_stream.specs.Round.{record_at, AreWhole};

use crate::piece::Piece;
use crate::record::{Record, content_at, next_buffer, place_of, put_after};
use mig_mem::{NoMemory, Place};
use std::alloc::{Allocator, Global};
use std::marker::Model;
use std::{fmt, mem};

// Makes room for one more record: doubles the room, and begins with one, since a stream may have
// many rounds of few records.
#[inline(never)]
fn grow<A: Allocator>(records: &mut Vec<Record<'_, A>, A>) -> Result<(), NoMemory>
    ensures items { records.new.items ≡ records.old.items }
    ensures room { OnOk result (vec_len records.new < vec_capacity records.new) }
{
    records.reserve_exact(records.len().max(1))?;
    Ok(())
}

// Makes room for one more record, if there is none.
#[inline(always)]
fn make_room<A: Allocator>(records: &mut Vec<Record<'_, A>, A>) -> Result<(), NoMemory>
    ensures items { records.new.items ≡ records.old.items }
    ensures room { OnOk result (vec_len records.new < vec_capacity records.new) }
{
    if records.len() == records.capacity() {
        return grow(records);
    }
    Ok(())
}

// Adds a record.
#[inline(always)]
fn push<'a, A: Allocator>(
    records: &mut Vec<Record<'a, A>, A>,
    item: Record<'a, A>,
) -> Result<(), NoMemory>
    requires records { AreHeldAfter [] records.old.items }
    requires item { IsHeld (buffers_of_records records.old.items) item }
    ensures held { AreHeldAfter [] records.new.items }
    ensures ok { OnOk result (records_after [] records.new.items
        ≡ records_after [] records.old.items ++ record_in (buffers_of_records records.old.items) item.entry ∷ []) }
    ensures err { OnErr result (records_after [] records.new.items ≡ records_after [] records.old.items) }
{
    make_room(records)?;
    records.push_reserved(item);
    Ok(())
}

/// Page records, one after another.
pub(crate) struct Records<'a, A: Allocator> {
    items: Vec<Record<'a, A>, A>,
}

// Written out, so that a caller's proof passes a call where a value is dropped.
impl<'a, A: Allocator> Drop for Records<'a, A> {
    fn drop(self) {
        let Records { items: _ } = self;
    }
}

impl<'a, A: Allocator> Model for Records<'a, A> {
    ghost use Rattle.std.specs.Prelude.{List, []};
    ghost use Rattle.mig_stream.specs.PageRecord.{PageRecord};
    ghost use Rattle.mig_stream.specs.Kept.{records_after, AreHeldAfter};

    ghost Value = { List PageRecord };

    ghost view = { λ r. records_after [] r.items.items };

    ghost invariant = { λ r. AreHeldAfter [] r.items.items };
}

impl<'a, A: Allocator> Records<'a, A> {
    pub(crate) fn len(&self) -> usize
        ensures { result ≡ length self.now }
    {
        self.items.len()
    }

    /// Returns whether there are no records.
    pub(crate) fn is_empty(&self) -> bool
        ensures { result ≡ has_none self.now }
    {
        self.len() == 0
    }

    /// Keeps the first `n` records alone.
    pub(crate) fn truncate(&mut self, n: usize)
        ensures { self.new ≡ take n self.old }
    {
        self.items.truncate(n);
    }

    /// Frees the room that no record needs.
    pub(crate) fn fit(&mut self)
        ensures { self.new ≡ self.old }
    {
        self.items.shrink_to_fit();
    }

    /// Adds a record of a page of zeros. An `Err` changes nothing.
    #[inline(always)]
    pub(crate) fn push_zeros(&mut self, place: Place) -> Result<(), NoMemory>
        requires { IsShort place }
        ensures ok { OnOk result (self.new ≡ self.old ++ record { place = place; content = None } ∷ []) }
        ensures err { OnErr result (self.new ≡ self.old) }
    {
        let record = Record::Zeros(place.block as u8, place.page as u32);
        push(&mut self.items, record)
    }

    pub(crate) fn place(&self, i: usize) -> Place
        requires { i < length self.now }
        ensures { result ≡ (record_at self.now i).place }
    {
        self.items[i].place()
    }

    pub(crate) fn content(&self, i: usize) -> Option<&[u8]>
        requires { i < length self.now }
        ensures { option_copied result ≡ (record_at self.now i).content }
    {
        content_at(&self.items, i)
    }

    /// Returns the place and the content together. For a page of zeros it reads one item alone.
    #[inline(always)]
    pub(crate) fn get(&self, i: usize) -> (Place, Option<&[u8]>)
        requires { i < length self.now }
        ensures place { result.0 ≡ (record_at self.now i).place }
        ensures content { option_copied result.1 ≡ (record_at self.now i).content }
    {
        match self.items[i] {
            Record::Zeros(block, page) => (place_of(block, page), None),
            _ => (self.place(i), self.content(i)),
        }
    }
}

impl<'a, A: Allocator + Copy> Records<'a, A> {
    pub(crate) fn new(alloc: A) -> Records<'a, A>
        ensures { result ≡ [] }
    {
        Records {
            items: Vec::new(alloc),
        }
    }

    /// Returns the allocator of its lists and buffers.
    pub(crate) fn alloc(&self) -> A {
        *self.items.allocator()
    }

    /// Adds a record of a page with these bytes, which may go into the buffer of record `owner`.
    /// Returns the number of the record whose buffer may have room for the next one. An `Err`
    /// changes nothing.
    pub(crate) fn push_page(
        &mut self,
        owner: usize,
        place: Place,
        page: Piece<'a, '_>,
    ) -> Result<usize, NoMemory>
        requires place { IsShort place }
        requires size { length (bytes_of page) < 2 ^ 32 }
        ensures ok { OnOk result (self.new ≡ self.old ++ record { place = place; content = Some (bytes_of page.entry) } ∷ []) }
        ensures err { OnErr result (self.new ≡ self.old) }
    {
        match page {
            Piece::Passing(bytes) => self.push_kept(owner, place, bytes),
            Piece::Staying(bytes) => {
                self.push_lent(place, bytes)?;
                Ok(owner)
            }
        }
    }

    // Adds a record of a page with these bytes, which it lends.
    fn push_lent(&mut self, place: Place, bytes: &'a [u8]) -> Result<(), NoMemory>
        requires { IsShort place }
        ensures ok { OnOk result (self.new ≡ self.old ++ record { place = place; content = Some bytes.now } ∷ []) }
        ensures err { OnErr result (self.new ≡ self.old) }
    {
        let record = Record::Lent(place.block as u8, place.page as u32, bytes);
        push(&mut self.items, record)
    }

    // Adds a record of a page with these bytes, which it copies.
    fn push_kept(&mut self, owner: usize, place: Place, bytes: &[u8]) -> Result<usize, NoMemory>
        requires place { IsShort place }
        requires size { length bytes.now < 2 ^ 32 }
        ensures ok { OnOk result (self.new ≡ self.old ++ record { place = place; content = Some bytes.now } ∷ []) }
        ensures err { OnErr result (self.new ≡ self.old) }
    {
        let (block, page) = (place.block as u8, place.page as u32);
        if let Some(span) = put_after(&mut self.items, owner, bytes) {
            push(&mut self.items, Record::Behind(block, page, span))?;
            return Ok(owner);
        }
        let number = self.items.len();
        let buffer = next_buffer(*self.items.allocator(), &self.items, owner, bytes)?;
        let record = Record::Kept(block, page, bytes.len() as u32, buffer);
        push(&mut self.items, record)?;
        Ok(number)
    }
}

/// A complete round: its page records, in the order of the stream.
pub struct StreamRound<'a, A: Allocator = Global> {
    page_size: u64,
    records: Records<'a, A>,
}

// Written out, so that a caller's proof passes a call where a value is dropped.
impl<'a, A: Allocator> Drop for StreamRound<'a, A> {
    fn drop(self) {
        let StreamRound {
            page_size: _,
            records: _,
        } = self;
    }
}

impl<'a, A: Allocator> Model for StreamRound<'a, A> {
    ghost use Rattle.mig_stream.specs.Round.{RoundOfRecords, AreWhole};

    ghost Value = { RoundOfRecords };

    ghost view = { λ r. record { page_size = r.page_size; records = r.records } };

    ghost invariant = { λ r. AreWhole r.page_size r.records };
}

// Guest memory isn't printed.
impl<'a, A: Allocator> fmt::Debug for StreamRound<'a, A> {
    fn fmt<W: fmt::Write>(&self, f: &mut fmt::Formatter<W>) -> fmt::Result {
        f.pad("StreamRound { .. }")
    }
}

impl<'a, A: Allocator> StreamRound<'a, A> {
    pub(crate) fn new(page_size: u64, records: Records<'a, A>) -> StreamRound<'a, A>
        requires { AreWhole page_size records }
        ensures { result ≡ record { page_size = page_size; records = records.entry } }
    {
        StreamRound { page_size, records }
    }

    /// Takes these records, of pages of `page_size` bytes, in place of its own.
    pub(crate) fn fill(&mut self, page_size: u64, records: &mut Records<'a, A>)
        requires { AreWhole page_size records.old }
        ensures filled { self.new ≡ record { page_size = page_size; records = records.old } }
        ensures taken { records.new ≡ [] }
    {
        self.page_size = page_size;
        self.records.truncate(0);
        mem::swap(&mut self.records, records);
    }

    /// Returns the number of page records. It may be 0.
    #[allow(clippy::len_without_is_empty)]
    pub fn len(&self) -> usize
        ensures { result ≡ length self.now.records }
    {
        self.records.len()
    }

    /// Returns where the page of record `i` is.
    pub fn place(&self, i: usize) -> Place
        requires { i < length self.now.records }
        ensures { result ≡ (record_at self.now.records i).place }
    {
        self.records.place(i)
    }

    /// Returns the content of record `i`, as many bytes as the page size. None is a zero record.
    pub fn content(&self, i: usize) -> Option<&[u8]>
        requires { i < length self.now.records }
        ensures value { option_copied result ≡ (record_at self.now.records i).content }
        ensures size { IfSome result (λ bytes. length bytes.now ≡ self.now.page_size) }
    {
        self.records.content(i)
    }

    /// Returns the place and the content of record `i`.
    #[inline(always)]
    pub fn record(&self, i: usize) -> (Place, Option<&[u8]>)
        requires { i < length self.now.records }
        ensures place { result.0 ≡ (record_at self.now.records i).place }
        ensures content { option_copied result.1 ≡ (record_at self.now.records i).content }
        ensures size { IfSome result.1 (λ bytes. length bytes.now ≡ self.now.page_size) }
    {
        self.records.get(i)
    }

    /// Returns the number of bytes of a page.
    pub fn page_size(&self) -> u64
        ensures { result ≡ self.now.page_size }
    {
        self.page_size
    }
}
