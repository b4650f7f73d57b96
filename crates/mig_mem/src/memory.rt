//! A guest's memory that owns its pages. Callers and the tool write to one, senders read it, and
//! loaders build one.

ghost use Rattle.std.specs.Prelude.{◌≡◌, ◌*◌, ◌<◌, ◌↔◌, length, map, All, IfOk, IfSome, IsSome, IsTrue};
ghost use Rattle.std.specs.Option.{option_copied};
ghost use Rattle.mig_mem.specs.RamTable.{block as block_at};
ghost use Rattle.mig_mem.specs.Place.{IsPlace};
ghost use Rattle.mig_mem.specs.Image.{IsImage, content, content_at, zero_image, zero_page, with_page, with_byte};
ghost use Rattle.mig_mem.specs.Puts.{round_page, HasPageSize};
ghost use Rattle.mig_mem.specs.Round.{with_round};

use crate::regions::{Regions, put_in_blocks};
use crate::{NoMemory, Place, RoundPage, Table};
use std::alloc::{Allocator, Global};
use std::fmt;
use std::marker::Model;
use std::thread::Threads;

/// The memory of a guest: the content of each page of its table.
///
/// # Examples
///
/// A memory of zeros, in which one byte is set. The contract of `set` requires that the byte
/// exists:
///
/// <!-- quoted from crates/mig_uses/src/first.rt -->
/// ```rust
/// let mut memory = Memory::zeroed(alloc, &table).ok()?;
/// // shows that the byte of `set` exists
/// let table = memory.table();
/// if table.len() == 0 || 4101 >= table.pages(0) * table.page_size() {
///     return None;
/// }
/// memory.set(0, 4101, 7);
/// ```
pub struct Memory<A: Allocator = Global> {
    table: Table<A>,
    // the pages of each block
    blocks: Vec<Regions<A>, A>,
}

// Written out, so that a caller's proof passes a call where a value is dropped.
impl<A: Allocator> Drop for Memory<A> {
    fn drop(self) {
        let Memory {
            table: _,
            blocks: _,
        } = self;
    }
}

impl<A: Allocator> Model for Memory<A> {
    ghost use Rattle.mig_mem.specs.Image.{Image};

    ghost Value = { Image };

    ghost use Rattle.mig_mem.specs.Buffers.{image_in, IsHeld};

    ghost view = { λ m. image_in m.table m.blocks.items };

    ghost invariant = { λ m. IsHeld m.table m.blocks.items };
}

impl<A: Allocator> fmt::Debug for Memory<A> {
    fn fmt<W: fmt::Write>(&self, f: &mut fmt::Formatter<W>) -> fmt::Result {
        f.pad("Memory { .. }")
    }
}

impl<A: Allocator + Copy> Memory<A> {
    /// Creates a memory of zeros. It allocates the guest's complete memory at once, and keeps a
    /// copy of the table.
    ///
    /// # Errors
    ///
    /// `NoMemory`: an allocation was refused.
    pub fn zeroed<B: Allocator>(alloc: A, table: &Table<B>) -> Result<Memory<A>, NoMemory>
        ensures { IfOk result (λ m. m ≡ zero_image table.now) }
    {
        let mut blocks = Vec::with_capacity(alloc, table.len())?;
        for i in 0..table.len() {
            blocks.push(Regions::zeroed(alloc, table.page_size(), table.pages(i))?)?;
        }
        let table = table.copy_in(alloc)?;
        Ok(Memory { table, blocks })
    }

    /// Copies the memory: the same table, and the same content at each place.
    ///
    /// # Errors
    ///
    /// `NoMemory`: an allocation was refused.
    pub fn try_copy(&self) -> Result<Memory<A>, NoMemory>
        ensures { IfOk result (λ m. m ≡ self.now) }
    {
        let alloc = *self.blocks.allocator();
        let mut blocks = Vec::with_capacity(alloc, self.blocks.len())?;
        for pages in &self.blocks {
            blocks.push(pages.try_copy()?)?;
        }
        let table = self.table.copy_in(alloc)?;
        Ok(Memory { table, blocks })
    }
}

impl<A: Allocator> Memory<A> {
    /// Returns the table of the memory. The contract also says that a memory has one content of the
    /// page size for each place of it.
    pub fn table(&self) -> &Table<A>
        ensures value { result.now ≡ self.now.table }
        ensures image { IsImage self.now }
    {
        &self.table
    }

    // Returns the content of a page.
    pub(crate) fn page_in(&self, place: Place) -> &[u8]
        requires { IsPlace self.now.table place }
        ensures { result.now ≡ content_at self.now place }
    {
        self.blocks[place.block].page(place.page)
    }

    /// Returns whether a page was never written, and so is zeros. It reads none of its bytes. A
    /// page of zeros that was written isn't blank.
    pub fn is_blank(&self, place: Place) -> bool
        requires { IsPlace self.now.table place }
        ensures { IsTrue result → content_at self.now place ≡ zero_page self.now.table.page_size }
    {
        self.blocks[place.block].is_blank(place.page)
    }

    /// Returns the content of a page, if the table has it: as many bytes as the page size.
    pub fn page(&self, place: Place) -> Option<&[u8]>
        ensures value { option_copied result ≡ content self.now place }
        ensures there { IsSome result ↔ IsPlace self.now.table place }
        ensures size { IfSome result (λ bytes. length bytes.now ≡ self.now.table.page_size) }
    {
        if !self.table().holds(place) {
            return None;
        }
        Some(self.page_in(place))
    }

    /// Writes a complete page. A caller tests the place by `Table::holds`.
    pub fn put_page(&mut self, place: Place, bytes: &[u8])
        requires place { IsPlace self.old.table place }
        requires bytes { length bytes.now ≡ self.old.table.page_size }
        ensures { self.new ≡ with_page self.old place bytes.now }
    {
        self.blocks[place.block].put(place.page, bytes);
    }

    /// Sets a page to zeros. It takes less time than writing zeros: a page that was never written
    /// is zeros already.
    pub fn put_zero_page(&mut self, place: Place)
        requires { IsPlace self.old.table place }
        ensures { self.new ≡ with_page self.old place (zero_page self.old.table.page_size) }
    {
        self.blocks[place.block].put_zeros(place.page);
    }

    /// Writes one byte, `offset` bytes into a block.
    pub fn set(&mut self, block: usize, offset: u64, byte: u8)
        requires has_block { block < length self.old.table.blocks }
        requires in_block { offset < (block_at self.old.table.blocks block).pages * self.old.table.page_size }
        ensures { self.new ≡ with_byte self.old block offset byte }
    {
        let size = self.table.page_size();
        self.blocks[block].set(offset / size, offset % size, byte);
    }

    /// Sets all pages to zeros, as `zeroed` makes them: no page counts as written (`is_blank`). It
    /// allocates nothing and touches no page, but writes 8 bytes for each 512 of them. Pages that
    /// are written later take the room of those that were.
    pub fn clear(&mut self)
        ensures { self.new ≡ zero_image self.old.table }
    {
        for pages in self.blocks.iter_mut() {
            pages.clear();
        }
    }
}

impl<A: Allocator + Send> Memory<A> {
    /// Writes the pages of a round by at most `threads` threads, the caller's thread among them.
    /// All others have ended when the call returns. It allocates nothing.
    ///
    /// If a page comes more than once, the last one counts. A page whose place is outside the table
    /// isn't written.
    ///
    /// The blocks are written one after another. A block of more than 16,384 pages has regions of
    /// so many, or 64 larger ones, and each thread has some of them. No more threads are used than
    /// the round has thousands of pages. Each thread walks all pages of the round, once for each
    /// block.
    pub fn put_pages<R: Threads + Sync>(&mut self, rt: &R, threads: u64, pages: &[RoundPage<'_>])
        requires threads { 0 < threads }
        requires sizes { All (HasPageSize self.old.table.page_size) pages.now }
        ensures { self.new ≡ with_round self.old (map (round_page self.old.table.page_size) pages.now) }
    {
        put_in_blocks(rt, &mut self.blocks, threads, pages);
    }
}
