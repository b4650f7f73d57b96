//! The writer of a file with mapped-ram: it keeps a bit for each page, and says which bytes are
//! written at which offset. The caller writes them (`pwrite`), in any order and by any threads.

ghost use Rattle.std.specs.Prelude.{◌≡◌, ◌+◌, ◌*◌, ◌<◌, ◌≤◌, ◌^◌, ℕ, List, length, replicate, not, Some, None, IfOk, IfErr, if◌then◌else◌, false};
ghost use Rattle.mig_mem.specs.RamTable.{block as block_at};
ghost use Rattle.mig_mem.specs.Place.{IsPlace};
ghost use Rattle.mig_mem.specs.Image.{Image, zero_image, zero_page, with_page};
ghost use Rattle.mig_zero.specs.Zero.{is_zero as zero_test};
ghost use Rattle.mig_mapped.specs.declared.fault.MappedStop.TheVariants as stop;
ghost use Rattle.mig_mapped.specs.declared.fault.MappedFault.TheVariants as fault;
ghost use Rattle.mig_mapped.specs.Bitmap.{byte_of};
ghost use Rattle.mig_mapped.specs.Block.{mapped_block, end_of};
ghost use Rattle.mig_mapped.specs.Head.{most_file_bytes};
ghost use Rattle.mig_mapped.specs.Write.{written_table, head_offset, end_offset, bitmap_offset, offset_at, head_bytes, head_len, aligned, laid_block, AreLaid, IsBegun, IsRefused, PutsBit, PutsBlockBit, StandsFor, PartsAreRead, HasAFile};

use crate::bitmap::{bitmap_len, put_bit};
use crate::head::{HEADER_LEN, HEADER_VERSION};
use crate::index::IndexedBlock;
use crate::{MappedFault, MappedSettings, MappedStop, WordOrder};
use mig_mem::{NoMemory, Place, Table};
use mig_zero::is_zero;
use std::alloc::{Allocator, Global};
use std::fmt::{self, Debug, Formatter};
use std::marker::Model;

/// `MAPPED_RAM_FILE_OFFSET_ALIGNMENT`: the first pages of blocks lie at multiples of it.
const PAGES_ALIGNMENT: u64 = 0x10_0000;

/// A file has fewer bytes than this, as offsets of files are signed.
const MOST_FILE_BYTES: u64 = 1 << 63;

/// Writes a guest's memory as a file with mapped-ram, from the first entry of the size list on.
///
/// It keeps for each block its id and its bitmap: 32 KiB for each GiB of the guest with pages of
/// 4 KiB. It never holds a page.
///
/// A caller writes the head of each block once, at any time, and each page whose content `put`
/// doesn't find to be zeros at the offset that it returns. A page that is written again lies at the
/// same offset, and its last content counts. When no page is left the caller writes the bitmaps,
/// and at `end` the EOS of the size list's section.
pub struct MappedWriter<A: Allocator = Global> {
    settings: MappedSettings,
    place: u64,
    blocks: Vec<IndexedBlock<A>, A>,
}

// Written out, so that a caller's proof passes a call where a value is dropped.
impl<A: Allocator> Drop for MappedWriter<A> {
    fn drop(self) {
        let MappedWriter {
            settings: _,
            place: _,
            blocks: _,
        } = self;
    }
}

impl<A: Allocator> Model for MappedWriter<A> {
    ghost use Rattle.mig_mapped.specs.Head.{most_file_bytes};
    ghost use Rattle.mig_mapped.specs.Write.{MappedWriting, IsWriting};

    ghost Value = { MappedWriting };

    ghost view = { λ w. record { given = w.settings; place = w.place; blocks = w.blocks.items } };

    ghost invariant = { λ w. IsWriting (record { given = w.settings; place = w.place; blocks = w.blocks.items }) };
}

/// Prints an opaque value.
impl<A: Allocator> Debug for MappedWriter<A> {
    fn fmt<W: fmt::Write>(&self, f: &mut Formatter<W>) -> fmt::Result {
        f.write_str("MappedWriter { .. }")
    }
}

// Returns the first multiple of 1 MiB that isn't before `offset`.
fn aligned(offset: u64) -> u64
    requires { offset < 2 ^ 63 + 2 ^ 62 }
    ensures { result ≡ aligned offset }
{
    (offset + (PAGES_ALIGNMENT - 1)) / PAGES_ALIGNMENT * PAGES_ALIGNMENT
}

// Returns a bitmap without a bit.
fn no_bits<A: Allocator>(alloc: A, len: usize) -> Result<Vec<u8, A>, NoMemory>
    ensures { IfOk result (λ v. v.items ≡ replicate len 0) }
{
    Ok(vec![in alloc; 0u8; len]?)
}

// Returns the number of pages of block `i` of the table.
fn pages_of<B: Allocator>(table: &Table<B>, i: usize) -> u64
    requires { i < length table.now.blocks }
    ensures value { result ≡ (block_at table.now.blocks i).pages }
    ensures few { result ≤ 2 ^ 28 }
    ensures room { result * table.now.page_size ≤ 2 ^ 40 }
{
    table.keeps_limits();
    table.pages(i)
}

// Returns an offset up to which a file has bytes, or its fault if no file has as many.
fn in_file(offset: u64) -> Result<u64, MappedStop>
    ensures same { IfOk result (λ n. n ≡ offset) }
    ensures low { IfOk result (λ n. n < most_file_bytes) }
    ensures fault { IfErr result (λ e. e ≡ stop.Fault fault.PagesOffset) }
    ensures high { IfErr result (λ _. most_file_bytes ≤ offset) }
{
    if offset >= MOST_FILE_BYTES {
        return Err(MappedStop::Fault(MappedFault::PagesOffset));
    }
    Ok(offset)
}

// Returns the block with the number `i` of the table, whose head is at `offset`.
fn laid<A: Allocator + Copy, B: Allocator>(
    alloc: A,
    table: &Table<B>,
    i: usize,
    offset: u64,
) -> Result<IndexedBlock<A>, NoMemory>
    requires block { i < length table.now.blocks }
    requires offset { offset < most_file_bytes }
    ensures block { IfOk result (λ b. b ≡ laid_block (block_at table.now.blocks i) offset) }
    ensures end { IfOk result (λ b. end_of table.now.page_size b ≤ offset + 2 ^ 41) }
{
    let id = table.id(i);
    let pages = pages_of(table, i);
    let len = bitmap_len(pages);
    let bitmap = offset + (9 + id.len() + HEADER_LEN) as u64;
    Ok(IndexedBlock {
        id: Vec::from_slice(alloc, id)?,
        pages,
        bitmap: no_bits(alloc, len as usize)?,
        pages_at: aligned(bitmap + len),
    })
}

// Returns whether a page is of zeros.
fn is_zero_page(content: &[u8]) -> bool
    ensures { result ≡ zero_test content.now }
{
    is_zero(content)
}

impl<A: Allocator> IndexedBlock<A> {
    // Sets the bit of `page` if `bit` is true, and clears it otherwise.
    fn put_bit(&mut self, order: WordOrder, page: u64, bit: bool)
        requires { byte_of order page < length self.old.bitmap }
        ensures { PutsBlockBit order self.old page bit self.new }
    {
        put_bit(order, &mut self.bitmap, page, bit);
    }
}

impl<A: Allocator + Copy> MappedWriter<A> {
    /// Creates the writer of a memory with this table, all of whose pages are zeros so far. The
    /// first entry of the size list is at the offset `place` of the file. `order` is the order in
    /// which bitmaps' words are written, that of the host that is to load them.
    ///
    /// # Errors
    ///
    /// `PagesOffset`: the last block's pages would end at 2^63 or later, where no file has bytes.
    /// `NoMemory`: an allocation was refused.
    pub fn new<B: Allocator>(
        alloc: A,
        table: &Table<B>,
        order: WordOrder,
        place: u64,
    ) -> Result<MappedWriter<A>, MappedStop>
        ensures begun { IfOk result (λ w. IsBegun order place table.now w) }
        ensures zeros { IfOk result (λ w. StandsFor w (zero_image table.now)) }
        ensures room { IfOk result (λ w. end_offset w < most_file_bytes) }
        ensures refused { IfErr result (λ e. IsRefused order place table.now e) }
    {
        let page_size = table.page_size();
        let mut blocks = Vec::with_capacity(alloc, table.len())?;
        let mut next = in_file(place)?;
        for i in 0..table.len() {
            let block = laid(alloc, table, i, next)?;
            let end = in_file(block.pages_at + block.pages * page_size)?;
            blocks.push(block)?;
            next = end;
        }
        Ok(MappedWriter {
            settings: MappedSettings { page_size, order },
            place,
            blocks,
        })
    }
}

impl<A: Allocator> MappedWriter<A> {
    /// Returns the number of blocks.
    #[allow(clippy::len_without_is_empty)]
    pub fn len(&self) -> usize
        ensures value { result ≡ length self.now.blocks }
        ensures laid { AreLaid self.now }
    {
        self.blocks.len()
    }

    /// Returns the offset at which the head of a block is written.
    pub fn head_offset(&self, block: usize) -> u64
        requires { block < length self.now.blocks }
        ensures { result ≡ head_offset self.now block }
    {
        self.offset_of(block)
    }

    // Returns the offset of a block's head, or the end after the last block.
    fn offset_of(&self, block: usize) -> u64
        requires { block ≤ length self.now.blocks }
        ensures { result ≡ head_offset self.now block }
    {
        if block == 0 {
            return self.place;
        }
        let before = &self.blocks[block - 1];
        before.pages_at + before.pages * self.settings.page_size
    }

    /// Returns the offset after the last block's pages. The EOS of the size list's section is
    /// written there, also if no page is.
    ///
    /// The contract also says what the file is: if it has the heads, the bitmaps and the pages
    /// whose bits are set at their offsets, and goes on to this one, then it is read without a
    /// fault and stands for the memory that the writer was passed. There is such a file for each
    /// memory: its parts don't overlap.
    pub fn end(&self) -> u64
        ensures value { result ≡ end_offset self.now }
        ensures read { PartsAreRead self.now }
        ensures exists { HasAFile self.now }
    {
        self.offset_of(self.blocks.len())
    }

    /// Returns the offset at which the bitmap of a block is written.
    pub fn bitmap_offset(&self, block: usize) -> u64
        requires { block < length self.now.blocks }
        ensures { result ≡ bitmap_offset self.now block }
    {
        self.offset_of(block) + (9 + self.blocks[block].id.len() + HEADER_LEN) as u64
    }

    /// Returns the bitmap of a block. It has the bits so far.
    pub fn bitmap(&self, block: usize) -> &[u8]
        requires { block < length self.now.blocks }
        ensures { result.now ≡ (mapped_block self.now.blocks block).bitmap }
    {
        &self.blocks[block].bitmap
    }

    /// Returns the entry and the header of a block, which no page changes.
    ///
    /// # Errors
    ///
    /// `NoMemory`: an allocation was refused.
    pub fn head<B: Allocator>(&self, alloc: B, block: usize) -> Result<Vec<u8, B>, NoMemory>
        requires { block < length self.now.blocks }
        ensures { IfOk result (λ v. v.items ≡ head_bytes self.now block) }
    {
        let bitmap_offset = self.bitmap_offset(block);
        let page_size = self.settings.page_size;
        let block = &self.blocks[block];
        let len = block.pages * page_size;
        let mut bytes = Vec::new(alloc);
        bytes.push(block.id.len() as u8)?;
        bytes.extend_from_slice(&block.id)?;
        bytes.extend_from_slice(&len.to_be_bytes())?;
        bytes.extend_from_slice(&HEADER_VERSION.to_be_bytes())?;
        bytes.extend_from_slice(&page_size.to_be_bytes())?;
        bytes.extend_from_slice(&bitmap_offset.to_be_bytes())?;
        bytes.extend_from_slice(&block.pages_at.to_be_bytes())?;
        Ok(bytes)
    }

    /// Returns the offset of a page. It is the same each time, so that several threads may write
    /// pages apart, and one of them marks them.
    pub fn page_offset(&self, place: Place) -> u64
        requires { IsPlace (written_table self.now) place }
        ensures { result ≡ offset_at self.now place }
    {
        self.blocks[place.block].pages_at + place.page * self.settings.page_size
    }

    /// Sets the bit of a page if `bit` is true, and clears it otherwise. A caller sets it after it
    /// wrote the page's content, and clears it for a page of zeros, whose content isn't written.
    pub fn mark(&mut self, place: Place, bit: bool)
        requires { IsPlace (written_table self.old) place }
        ensures bit { PutsBit self.old place bit self.new }
        ensures memory { (m : Image) (content : List ℕ) → StandsFor self.old m → length content ≡ self.old.given.page_size
            → (bit ≡ false → content ≡ zero_page self.old.given.page_size) → StandsFor self.new (with_page m place content) }
    {
        self.blocks[place.block].put_bit(self.settings.order, place.page, bit);
    }

    /// Takes the content of a page. Returns the offset at which the caller writes it, or None if it
    /// is zeros, and isn't written.
    pub fn put(&mut self, place: Place, content: &[u8]) -> Option<u64>
        requires place { IsPlace (written_table self.old) place }
        requires len { length content.now ≡ self.old.given.page_size }
        ensures bit { PutsBit self.old place (not (zero_test content.now)) self.new }
        ensures offset { result ≡ (if zero_test content.now then None else Some (offset_at self.old place)) }
        ensures memory { (m : Image) → StandsFor self.old m → StandsFor self.new (with_page m place content.now) }
    {
        let is_zero = is_zero_page(content);
        let offset = self.page_offset(place);
        self.mark(place, !is_zero);
        if is_zero {
            return None;
        }
        Some(offset)
    }
}
