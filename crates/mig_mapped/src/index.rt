//! The index of a file with mapped-ram: its blocks, their bitmaps, and where their pages lie. A
//! load reads it first, and then the pages that are there, in any order and by any threads.

ghost use Rattle.std.specs.Prelude.{◌≡◌, ◌+◌, ◌*◌, ◌<◌, ◌≤◌, ◌^◌, ℕ, length, None, IfOk, IfSome, IfNone, OnOk, OnErr, false};
ghost use Rattle.mig_mem.specs.First.{first_of};
ghost use Rattle.mig_mem.specs.PageSize.{IsPageSize};
ghost use Rattle.mig_mem.specs.RamTable.{IsTable};
ghost use Rattle.mig_mem.specs.declared.fault.TableFault.TheVariants as table_fault;
ghost use Rattle.mig_stream.specs.Items.{id_in, length_in};
ghost use Rattle.mig_mapped.specs.declared.fault.MappedFault.TheVariants as fault;
ghost use Rattle.mig_mapped.specs.Bitmap.{is_set, bitmap_len};
ghost use Rattle.mig_mapped.specs.Block.{mapped_block, table_of, page_offset, IsRun};
ghost use Rattle.mig_mapped.specs.Head.{start, entry_len, bitmap_start, bitmap_end, pages_offset_in, is_bad_place, has_id, entry_faults, header_faults, bitmap_faults, head_fault, block_in, after_head};
ghost use Rattle.mig_mapped.specs.Index.{TakesHead};

use crate::bitmap::{bitmap_len, first_with, has_tail, is_set};
use crate::head::{HEADER_LEN, HEADER_VERSION, entry_len, header_in, id_in, length_in};
use crate::{MappedFault, MappedSettings, MappedStop};
use mig_mem::{MAX_BLOCKS, NoMemory, Table, TableFault, is_id};
use std::alloc::{Allocator, Global};
use std::fmt::{self, Debug, Formatter};
use std::marker::Model;

/// A block of the file.
pub(crate) struct IndexedBlock<A: Allocator> {
    pub(crate) id: Vec<u8, A>,
    pub(crate) pages: u64,
    pub(crate) bitmap: Vec<u8, A>,
    pub(crate) pages_at: u64,
}

// Written out, so that a caller's proof passes a call where a value is dropped.
impl<A: Allocator> Drop for IndexedBlock<A> {
    fn drop(self) {
        let IndexedBlock {
            id: _,
            pages: _,
            bitmap: _,
            pages_at: _,
        } = self;
    }
}

impl<A: Allocator> Model for IndexedBlock<A> {
    ghost use Rattle.mig_mapped.specs.Block.{MappedBlock};

    ghost Value = { MappedBlock };

    ghost view = { λ b. record { id = b.id.items; pages = b.pages; bitmap = b.bitmap.items; pages_at = b.pages_at } };
}

/// Pages of a block that follow each other in the file, each with its bit set.
#[derive(Clone, Copy, Debug, PartialEq, Eq)]
pub struct MappedRun {
    /// The first page.
    pub page: u64,
    /// The number of pages.
    pub pages: u64,
    /// The offset in the file at which the first page's content begins. The others follow it.
    pub offset: u64,
}

/// The index of a file with mapped-ram, as far as it was read.
///
/// It keeps for each block its id and its bitmap: 32 KiB for each GiB of the guest with pages of
/// 4 KiB.
pub struct MappedIndex<A: Allocator = Global> {
    settings: MappedSettings,
    place: u64,
    left: u64,
    blocks: Vec<IndexedBlock<A>, A>,
}

// Written out, so that a caller's proof passes a call where a value is dropped.
impl<A: Allocator> Drop for MappedIndex<A> {
    fn drop(self) {
        let MappedIndex {
            settings: _,
            place: _,
            left: _,
            blocks: _,
        } = self;
    }
}

impl<A: Allocator> Model for MappedIndex<A> {
    ghost use Rattle.mig_mapped.specs.Head.{MappedProgress};
    ghost use Rattle.mig_mapped.specs.Index.{IsIndex};

    ghost Value = { MappedProgress };

    ghost view = { λ i. record { given = i.settings; place = i.place; left = i.left; blocks = i.blocks.items } };

    ghost invariant = { λ i. IsIndex (record { given = i.settings; place = i.place; left = i.left; blocks = i.blocks.items }) };
}

/// Prints an opaque value.
impl<A: Allocator> Debug for MappedIndex<A> {
    fn fmt<W: fmt::Write>(&self, f: &mut Formatter<W>) -> fmt::Result {
        f.write_str("MappedIndex { .. }")
    }
}

// Returns `NoMemory`, the only fault for which a lawful table is refused.
fn no_memory(_fault: TableFault) -> NoMemory
    requires { _fault ≡ table_fault.NoMemory }
{
    NoMemory
}

// Copies the blocks' ids and numbers of pages into a table.
fn table_from<A: Allocator, B: Allocator + Copy>(
    alloc: B,
    page_size: u64,
    blocks: &[IndexedBlock<A>],
) -> Result<Table<B>, NoMemory>
    requires { IsTable (table_of page_size blocks.now) }
    ensures { IfOk result (λ t. t ≡ table_of page_size blocks.now) }
{
    let mut list = Vec::with_capacity(alloc, blocks.len())?;
    for block in blocks {
        list.push((Vec::from_slice(alloc, block.id.as_slice())?, block.pages))?;
    }
    match Table::new(alloc, page_size, list) {
        Ok(table) => Ok(table),
        Err(fault) => Err(no_memory(fault)),
    }
}

impl<A: Allocator> MappedIndex<A> {
    /// Creates the index of a file, before its first entry. The entry is at the offset `place` of
    /// the file, and the entries have `total` bytes together, as the head of the size list says.
    pub fn new(alloc: A, settings: MappedSettings, place: u64, total: u64) -> MappedIndex<A>
        requires page_size { IsPageSize settings.page_size }
        requires place { place < 2 ^ 63 }
        requires some { 0 < total }
        requires limit { total ≤ 2 ^ 40 }
        ensures { result ≡ start settings place total }
    {
        MappedIndex {
            settings,
            place,
            left: total,
            blocks: Vec::new(alloc),
        }
    }

    /// Returns the offset in the file of the next block's head. After the last block it is the
    /// offset after its pages, where the list's EOS is.
    pub fn place(&self) -> u64
        ensures { result ≡ self.now.place }
    {
        self.place
    }

    /// Returns how many bytes of the list's total no entry has yet. With 0 all blocks were read.
    pub fn left(&self) -> u64
        ensures { result ≡ self.now.left }
    {
        self.left
    }

    /// Returns the number of blocks so far.
    #[allow(clippy::len_without_is_empty)]
    pub fn len(&self) -> usize
        ensures { result ≡ length self.now.blocks }
    {
        self.blocks.len()
    }

    /// Returns the number of pages of a block.
    pub fn pages(&self, block: usize) -> u64
        requires { block < length self.now.blocks }
        ensures { result ≡ (mapped_block self.now.blocks block).pages }
    {
        self.blocks[block].pages
    }

    /// Returns the number of bytes of a page.
    pub(crate) fn page_size(&self) -> u64
        ensures value { result ≡ self.now.given.page_size }
        ensures size { IsPageSize result }
    {
        self.settings.page_size
    }

    /// Returns the offset in the file at which a block's pages begin.
    pub(crate) fn pages_offset(&self, block: usize) -> u64
        requires { block < length self.now.blocks }
        ensures { result ≡ (mapped_block self.now.blocks block).pages_at }
    {
        self.blocks[block].pages_at
    }

    /// Copies the table, once all blocks were read.
    ///
    /// # Errors
    ///
    /// `NoMemory`: an allocation was refused.
    pub fn table<B: Allocator + Copy>(&self, alloc: B) -> Result<Table<B>, NoMemory>
        requires { self.now.left ≡ 0 }
        ensures { IfOk result (λ t. t ≡ table_of self.now.given.page_size self.now.blocks) }
    {
        table_from(alloc, self.settings.page_size, &self.blocks)
    }

    /// Returns whether the file has the content of a page of a block. If it hasn't, the page is
    /// zeros.
    pub fn has(&self, block: usize, page: u64) -> bool
        requires { block < length self.now.blocks }
        ensures { result ≡ is_set self.now.given.order (mapped_block self.now.blocks block).bitmap page }
    {
        is_set(self.settings.order, &self.blocks[block].bitmap, page)
    }

    /// Returns the first pages of a block, from page `from` on, whose content the file has, and
    /// where it is. Returns None if all pages from there on are zeros.
    ///
    /// So a thread that loads a part of a block asks for one run after another, from the first page
    /// of its part on, and reads each at its offset.
    pub fn wanted(&self, block: usize, from: u64) -> Option<MappedRun>
        requires { block < length self.now.blocks }
        ensures run { IfSome result (λ run. IsRun self.now.given.order (mapped_block self.now.blocks block) from run.page run.pages) }
        ensures offset { IfSome result (λ run. run.offset ≡ page_offset self.now.given.page_size (mapped_block self.now.blocks block) run.page) }
        ensures none { IfNone result ((q : ℕ) → from ≤ q → q < (mapped_block self.now.blocks block).pages → is_set self.now.given.order (mapped_block self.now.blocks block).bitmap q ≡ false) }
    {
        let block = &self.blocks[block];
        if from >= block.pages {
            return None;
        }
        let order = self.settings.order;
        let page = first_with(order, &block.bitmap, true, from, block.pages);
        if page == block.pages {
            return None;
        }
        let end = first_with(order, &block.bitmap, false, page, block.pages);
        Some(MappedRun {
            page,
            pages: end - page,
            offset: block.pages_at + page * self.settings.page_size,
        })
    }

    // Returns whether an earlier entry has the id.
    fn has_id(&self, id: &[u8]) -> bool
        ensures { result ≡ has_id self.now.blocks id.now }
    {
        self.blocks.iter().any(|block| block.id.as_slice() == id)
    }

    // Returns the first fault of the entry at the front of `bytes`.
    fn entry_fault(&self, bytes: &[u8]) -> Option<MappedFault>
        ensures { result ≡ first_of (entry_faults self.now bytes.now) }
    {
        if bytes.len() < entry_len(bytes) {
            return Some(MappedFault::Truncated);
        }
        if self.blocks.len() >= MAX_BLOCKS {
            return Some(MappedFault::TooManyBlocks);
        }
        let id = id_in(bytes);
        if !is_id(id) {
            return Some(MappedFault::Id);
        }
        if self.has_id(id) {
            return Some(MappedFault::IdTwice);
        }
        let len = length_in(bytes);
        if len == 0 || len % self.settings.page_size != 0 {
            return Some(MappedFault::Length);
        }
        if self.left < len {
            return Some(MappedFault::SizeSum);
        }
        None
    }

    /// Returns the place in `bytes` after the bitmap of the head at their front.
    pub(crate) fn bitmap_end(&self, bytes: &[u8]) -> usize
        requires { entry_len bytes.now ≤ length bytes.now }
        ensures value { result ≡ bitmap_end self.now.given.page_size bytes.now }
        ensures small { result < 2 ^ 50 }
    {
        let pages = length_in(bytes) / self.settings.page_size;
        entry_len(bytes) + HEADER_LEN + bitmap_len(pages) as usize
    }

    // Returns whether no block's pages may be at `offset`.
    fn is_bad_place(&self, bytes: &[u8], offset: u64) -> bool
        requires entry { entry_len bytes.now ≤ length bytes.now }
        requires offset { offset ≡ pages_offset_in bytes.now }
        ensures { result ≡ is_bad_place self.now bytes.now }
    {
        offset < self.place + self.bitmap_end(bytes) as u64
            || offset % self.settings.page_size != 0
            || u128::from(offset) + u128::from(length_in(bytes)) >= 1 << 63
    }

    // Returns the first fault of the header after the entry.
    fn header_fault(&self, bytes: &[u8]) -> Option<MappedFault>
        requires { entry_len bytes.now ≤ length bytes.now }
        ensures { result ≡ first_of (header_faults self.now bytes.now) }
    {
        let end = entry_len(bytes) + HEADER_LEN;
        if bytes.len() < end {
            return Some(MappedFault::Truncated);
        }
        let header = header_in(bytes);
        if header.version != HEADER_VERSION {
            return Some(MappedFault::HeaderVersion);
        }
        if header.page_size != self.settings.page_size {
            return Some(MappedFault::HeaderPageSize);
        }
        if header.bitmap_offset != self.place + end as u64 {
            return Some(MappedFault::BitmapOffset);
        }
        if self.is_bad_place(bytes, header.pages_offset) {
            return Some(MappedFault::PagesOffset);
        }
        None
    }

    // Returns the first fault of the bitmap after the header.
    fn bitmap_fault(&self, bytes: &[u8]) -> Option<MappedFault>
        requires { bitmap_start bytes.now ≤ length bytes.now }
        ensures { result ≡ first_of (bitmap_faults self.now bytes.now) }
    {
        let end = self.bitmap_end(bytes);
        if bytes.len() < end {
            return Some(MappedFault::Truncated);
        }
        let bitmap = &bytes[entry_len(bytes) + HEADER_LEN..end];
        if has_tail(
            self.settings.order,
            bitmap,
            length_in(bytes) / self.settings.page_size,
        ) {
            return Some(MappedFault::BitmapTail);
        }
        None
    }

    /// Returns the first fault of the next block's head, given the bytes of the file from `place`
    /// on, or as many of them as there are. With `Truncated` they end inside it. More bytes change
    /// no other answer.
    pub fn head_fault(&self, bytes: &[u8]) -> Option<MappedFault>
        ensures { result ≡ head_fault self.now bytes.now }
    {
        if let Some(fault) = self.entry_fault(bytes) {
            return Some(fault);
        }
        if let Some(fault) = self.header_fault(bytes) {
            return Some(fault);
        }
        self.bitmap_fault(bytes)
    }
}

impl<A: Allocator + Copy> MappedIndex<A> {
    // Copies the block whose head is at the front of `bytes`.
    fn block_from(&self, bytes: &[u8]) -> Result<IndexedBlock<A>, NoMemory>
        requires { head_fault self.now bytes.now ≡ None }
        ensures { IfOk result (λ b. b ≡ block_in self.now.given.page_size bytes.now) }
    {
        let alloc = *self.blocks.allocator();
        let bitmap = &bytes[entry_len(bytes) + HEADER_LEN..self.bitmap_end(bytes)];
        let id = Vec::from_slice(alloc, id_in(bytes))?;
        Ok(IndexedBlock {
            id,
            pages: length_in(bytes) / self.settings.page_size,
            bitmap: Vec::from_slice(alloc, bitmap)?,
            pages_at: header_in(bytes).pages_offset,
        })
    }

    /// Takes a head without a fault. An `Err` changes nothing.
    pub(crate) fn push(&mut self, bytes: &[u8]) -> Result<(), NoMemory>
        requires { head_fault self.old bytes.now ≡ None }
        ensures ok { OnOk result (self.new ≡ after_head self.old bytes.now) }
        ensures err { OnErr result (self.new ≡ self.old) }
    {
        let len = length_in(bytes);
        let place = header_in(bytes).pages_offset + len;
        let block = self.block_from(bytes)?;
        self.blocks.push(block)?;
        self.place = place;
        self.left -= len;
        Ok(())
    }

    /// Takes the next block's head from the bytes of the file from `place` on, or as many of them
    /// as there are. The block's pages aren't read.
    ///
    /// # Errors
    ///
    /// The head's first fault, or `NoMemory`: an allocation was refused. Nothing has changed then.
    /// After `Truncated` the head may be taken from more bytes.
    pub fn take(&mut self, bytes: &[u8]) -> Result<(), MappedStop>
        ensures { TakesHead self.old bytes.now self.new result }
    {
        match self.head_fault(bytes) {
            Some(fault) => Err(MappedStop::Fault(fault)),
            None => Ok(self.push(bytes)?),
        }
    }
}
