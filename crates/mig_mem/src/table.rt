//! The table of a guest's memory: its page size and its RAM blocks. Callers create one, or the
//! reader of a stream creates one from the size list.

ghost use Rattle.std.specs.Prelude.{◌≡◌, ◌*◌, ◌^◌, ◌<◌, ◌≤◌, ◌⊎◌, ◌↔◌, length, IfOk, IfErr, IfSome, OnOk, IsTrue, None, Some};
ghost use Rattle.mig_mem.specs.PageSize.{IsPageSize};
ghost use Rattle.mig_mem.specs.RamTable.{block, block_of, same_tables, same_tables_equiv, same_tables_partial_equiv, IsTable, table_from};
ghost use Rattle.mig_mem.specs.Place.{IsPlace};
ghost use Rattle.mig_mem.specs.Refusal.{refusal};

use crate::refusal::fault;
use crate::{NoMemory, Place, TableFault};
use std::alloc::{Allocator, Global};
use std::cmp::Ordering;
use std::fmt;
use std::marker::Model;

/// The most blocks that a table has.
pub const MAX_BLOCKS: usize = 256;

/// The most bytes that a block's id has.
pub const MAX_ID_LEN: usize = 255;

/// The most bytes that all blocks have together: 1 TiB.
pub const MAX_TOTAL: u64 = 1 << 40;

// Where a block's id lies in the buffer of all ids, and how many pages the block has.
#[derive(Clone, Copy)]
struct Span {
    start: usize,
    len: usize,
    pages: u64,
}

// A block in the order in which ids are looked up: the front of its id, and its number.
#[derive(Clone, Copy)]
struct Entry {
    front: u128,
    block: usize,
}

/// The table of a guest's memory: the page size and the RAM blocks (QEMU's `RAMBlock` list). Blocks
/// are numbered from 0, in the order of the list.
///
/// # Examples
///
/// A table of two blocks, of one page and of two:
///
/// <!-- quoted from crates/mig_stream_tests/src/lent.rt -->
/// ```rust
/// let first = Vec::from_slice(alloc, b"a").ok()?;
/// let second = Vec::from_slice(alloc, b"b").ok()?;
/// let mut blocks = Vec::new(alloc);
/// blocks.push((first, 1)).ok()?;
/// blocks.push((second, 2)).ok()?;
/// Table::new(alloc, PAGE_SIZE_4K, blocks).ok()
/// ```
pub struct Table<A: Allocator = Global> {
    page_size: u64,
    ids: Vec<u8, A>,
    spans: Vec<Span, A>,
    // The blocks in the order of their ids' fronts, then of their ids. It says where to look for an
    // id first. No contract relies on it.
    order: Vec<Entry, A>,
}

// Written out, so that a caller's proof passes a call where a value is dropped.
impl<A: Allocator> Drop for Table<A> {
    fn drop(self) {
        let Table {
            page_size: _,
            ids: _,
            spans: _,
            order: _,
        } = self;
    }
}

impl<A: Allocator> Model for Table<A> {
    ghost use Rattle.mig_mem.specs.RamTable.{RamTable, IsTable};

    ghost Value = { RamTable };

    ghost use Rattle.mig_mem.specs.Packed.{table_of_spans, AllWithin};

    ghost view = { λ t. table_of_spans t.page_size t.ids.items t.spans.items };

    ghost invariant = { λ t. AllWithin t.ids.items t.spans.items × IsTable (table_of_spans t.page_size t.ids.items t.spans.items) };
}

/// Compares as `Table::same` does (`equal_tables_are_the_same`).
impl<A: Allocator> PartialEq for Table<A> {
    ghost eq = { same_tables };

    ghost laws = { same_tables_partial_equiv };

    fn eq(&self, other: &Table<A>) -> bool {
        self.same(other)
    }
}

impl<A: Allocator> Eq for Table<A> {
    ghost laws = { same_tables_equiv };
}

impl<A: Allocator> fmt::Debug for Table<A> {
    fn fmt<W: fmt::Write>(&self, f: &mut fmt::Formatter<W>) -> fmt::Result {
        f.pad("Table { .. }")
    }
}

// Returns the id of a block; empty if there is no such block.
fn id_of<'a>(ids: &'a [u8], spans: &[Span], i: usize) -> &'a [u8] {
    let Some(span) = spans.get(i) else {
        return &[];
    };
    let Some(rest) = ids.get(span.start..) else {
        return &[];
    };
    rest.get(..span.len).unwrap_or_default()
}

// Returns the first sixteen bytes of an id as one number. Two ids share it only if both have
// sixteen bytes or more: no byte of an id is zero, so a shorter id is a number with fewer bytes.
fn front_of(id: &[u8]) -> u128 {
    match id.first_chunk::<16>() {
        Some(front) => u128::from_be_bytes(*front),
        None => number_of(id),
    }
}

// Returns the number that up to sixteen bytes are, the first byte the highest.
fn number_of(bytes: &[u8]) -> u128 {
    let mut number = 0;
    for byte in bytes {
        number = number << 8 | u128::from(*byte);
    }
    number
}

// Compares two ids that share a front: by their lengths, then by eight bytes at a time, and finally
// by their last eight bytes, which include those that the whole words leave.
fn compare_ids(a: &[u8], b: &[u8]) -> Ordering {
    if a.len() != b.len() {
        return a.len().cmp(&b.len());
    }
    for (word, other) in a.as_chunks::<8>().0.iter().zip(b.as_chunks::<8>().0) {
        if word != other {
            return u64::from_be_bytes(*word).cmp(&u64::from_be_bytes(*other));
        }
    }
    last_word(a).cmp(&last_word(b))
}

// Returns the last eight bytes of an id as a number, or 0 where it has fewer.
fn last_word(id: &[u8]) -> u64 {
    match id.last_chunk::<8>() {
        Some(word) => u64::from_be_bytes(*word),
        None => 0,
    }
}

// Compares a block's id with another id, whose front is `front`.
fn compare_to(ids: &[u8], spans: &[Span], entry: Entry, front: u128, id: &[u8]) -> Ordering {
    match entry.front.cmp(&front) {
        Ordering::Equal => compare_ids(id_of(ids, spans, entry.block), id),
        other => other,
    }
}

// Returns the blocks in the order of `compare_to`.
fn order_of<A: Allocator>(alloc: A, ids: &[u8], spans: &[Span]) -> Result<Vec<Entry, A>, NoMemory> {
    let mut order = Vec::with_capacity(alloc, spans.len())?;
    for block in 0..spans.len() {
        let front = front_of(id_of(ids, spans, block));
        order.push(Entry { front, block })?;
    }
    order.sort_unstable_by(|a, b| {
        compare_to(ids, spans, *a, b.front, id_of(ids, spans, b.block))
    });
    Ok(order)
}

// Returns the index in `order` of the last block whose front is at most `front`, or 0. It finds the
// index digit by digit, the highest first. The number of steps is fixed, so this compiles to code
// without a loop and without branches on fronts, which a processor couldn't predict.
fn last_up_to(order: &[Entry], front: u128) -> usize {
    let mut place = 0;
    for digit in [128, 64, 32, 16, 8, 4, 2, 1] {
        let next = place | digit;
        match order.get(next) {
            Some(entry) if entry.front <= front => place = next,
            _ => {}
        }
    }
    place
}

// Copies the list's ids into one buffer.
fn packed_from<A: Allocator + Copy>(
    alloc: A,
    page_size: u64,
    list: &[(Vec<u8, A>, u64)],
) -> Result<Table<A>, NoMemory>
    requires { IsTable (table_from page_size list.now) }
    ensures { IfOk result (λ t. t ≡ table_from page_size list.now) }
{
    let mut ids = Vec::new(alloc);
    let mut spans = Vec::new(alloc);
    for (id, pages) in list {
        let start = ids.len();
        ids.extend_from_slice(id)?;
        spans.push(Span {
            start,
            len: id.len(),
            pages: *pages,
        })?;
    }
    let order = order_of(alloc, &ids, &spans)?;
    Ok(Table {
        page_size,
        ids,
        spans,
        order,
    })
}

impl<A: Allocator + Copy> Table<A> {
    /// Creates a table of a list of ids with their numbers of pages, in the list's order. A caller
    /// tests the page size by `is_page_size`.
    ///
    /// # Errors
    ///
    /// The first fault that applies, in the order of `TableFault`. `NoMemory` may take the place of
    /// any: an allocation was refused. The list is dropped.
    pub fn new(
        alloc: A,
        page_size: u64,
        list: Vec<(Vec<u8, A>, u64), A>,
    ) -> Result<Table<A>, TableFault>
        requires { IsPageSize page_size }
        ensures ok { IfOk result (λ t. t ≡ table_from page_size list.items) }
        ensures lawful { OnOk result (refusal (table_from page_size list.items) ≡ None) }
        ensures err { IfErr result (λ e. (e ≡ TableFault.NoMemory) ⊎ (refusal (table_from page_size list.items) ≡ Some e)) }
    {
        if let Some(fault) = fault(page_size, &list) {
            return Err(fault);
        }
        Ok(packed_from(alloc, page_size, &list)?)
    }
}

impl<A: Allocator> Table<A> {
    /// Copies the table, with the same page size and blocks, into memory of another allocator.
    ///
    /// # Errors
    ///
    /// `NoMemory`: an allocation was refused.
    pub fn copy_in<B: Allocator + Copy>(&self, alloc: B) -> Result<Table<B>, NoMemory>
        ensures { IfOk result (λ t. t ≡ self.now) }
    {
        let mut ids = Vec::new(alloc);
        let mut spans = Vec::new(alloc);
        let mut order = Vec::new(alloc);
        ids.extend_from_slice(&self.ids)?;
        spans.extend_from_slice(&self.spans)?;
        order.extend_from_slice(&self.order)?;
        Ok(Table {
            page_size: self.page_size,
            ids,
            spans,
            order,
        })
    }

    /// Copies the table: the same page size and blocks.
    ///
    /// # Errors
    ///
    /// `NoMemory`: an allocation was refused.
    pub fn try_copy(&self) -> Result<Table<A>, NoMemory>
    where
        A: Copy,
        ensures { IfOk result (λ t. t ≡ self.now) }
    {
        self.copy_in(*self.ids.allocator())
    }

    /// Returns the number of bytes of a page.
    pub fn page_size(&self) -> u64
        ensures { result ≡ self.now.page_size }
    {
        self.page_size
    }

    /// Returns the number of blocks, which is never 0.
    #[allow(clippy::len_without_is_empty)]
    pub fn len(&self) -> usize
        ensures value { result ≡ length self.now.blocks }
        ensures table { IsTable self.now }
    {
        self.spans.len()
    }

    /// Shows that the table keeps the limits on its page size, its blocks and their ids. It does
    /// nothing, and is called where a proof needs that.
    pub fn keeps_limits(&self)
        ensures { IsTable self.now }
    {
        let _ = &self.page_size;
    }

    /// Returns the id of a block.
    pub fn id(&self, i: usize) -> &[u8]
        requires { i < length self.now.blocks }
        ensures value { result.now ≡ (block self.now.blocks i).id }
        ensures len { (0 < length result.now) × (length result.now ≤ 255) }
    {
        let span = self.spans[i];
        &self.ids[span.start..span.start + span.len]
    }

    /// Returns the number of pages of a block.
    pub fn pages(&self, i: usize) -> u64
        requires { i < length self.now.blocks }
        ensures value { result ≡ (block self.now.blocks i).pages }
        ensures some { 0 < result }
        ensures room { result * self.now.page_size ≤ 2 ^ 40 }
    {
        self.spans[i].pages
    }

    /// Returns the number of the block with the id `id`.
    pub fn find(&self, id: &[u8]) -> Option<usize>
        ensures { result ≡ block_of self.now.blocks id.now }
    {
        let front = front_of(id);
        match self.find_by_front(front, id) {
            Some(block) => Some(block),
            None => self.find_otherwise(front, id),
        }
    }

    // Returns the block if it is the last one with the front of `id`. None doesn't say that there
    // is none.
    fn find_by_front(&self, front: u128, id: &[u8]) -> Option<usize>
        ensures { IfSome result (λ i. block_of self.now.blocks id.now ≡ Some i) }
    {
        self.block_at(last_up_to(&self.order, front), id)
    }

    // Returns the block: by halving `order`, and if that finds none by comparing each one.
    fn find_otherwise(&self, front: u128, id: &[u8]) -> Option<usize>
        ensures { result ≡ block_of self.now.blocks id.now }
    {
        match self.find_ordered(front, id) {
            Some(block) => Some(block),
            None => self.find_in_turn(id),
        }
    }

    // Returns the block by halving `order`. None doesn't say that there is none.
    fn find_ordered(&self, front: u128, id: &[u8]) -> Option<usize>
        ensures { IfSome result (λ i. block_of self.now.blocks id.now ≡ Some i) }
    {
        let order = &self.order;
        let place = order.binary_search_by(|e| compare_to(&self.ids, &self.spans, *e, front, id));
        self.block_at(place.ok()?, id)
    }

    // Returns the block at index `place` of `order`, if its id is `id`.
    fn block_at(&self, place: usize, id: &[u8]) -> Option<usize>
        ensures { IfSome result (λ i. block_of self.now.blocks id.now ≡ Some i) }
    {
        let i = self.order.get(place)?.block;
        if i < self.len() && self.id(i) == id {
            return Some(i);
        }
        None
    }

    // Returns the block by comparing each one.
    fn find_in_turn(&self, id: &[u8]) -> Option<usize>
        ensures { result ≡ block_of self.now.blocks id.now }
    {
        for i in 0..self.len() {
            if self.id(i) == id {
                return Some(i);
            }
        }
        None
    }

    /// Returns whether the table has a page at `place`.
    pub fn holds(&self, place: Place) -> bool
        ensures { IsTrue result ↔ IsPlace self.now place }
    {
        place.block < self.len() && place.page < self.pages(place.block)
    }

    /// Returns whether two tables have the same page size and the same blocks in the same order.
    pub fn same<B: Allocator>(&self, other: &Table<B>) -> bool
        ensures { IsTrue result ↔ (self.now ≡ other.now) }
    {
        if self.page_size() != other.page_size() || self.len() != other.len() {
            return false;
        }
        for i in 0..self.len() {
            if self.pages(i) != other.pages(i) || self.id(i) != other.id(i) {
                return false;
            }
        }
        true
    }
}
