//! The load of a file with mapped-ram into memory that is there already, in one forward pass. The
//! load says what the next bytes of the file are, and the caller reads them and passes them on.

ghost use Rattle.std.specs.Prelude.{◌≡◌, ◌+◌, ◌<◌, ◌≤◌, ◌^◌, ◌↔◌, ℕ, List, length, IsTrue, None, IfOk, OnErr};
ghost use Rattle.mig_mem.specs.PageSize.{IsPageSize};
ghost use Rattle.mig_mem.specs.RamTable.{block as block_at};
ghost use Rattle.mig_mem.specs.Place.{IsPlace};
ghost use Rattle.mig_mapped.specs.Block.{mapped_block, ram_block};
ghost use Rattle.mig_mem.specs.Image.{Image, IsImage};
ghost use Rattle.mig_mapped.specs.Head.{start, head_fault};
ghost use Rattle.mig_mapped.specs.Load.{LoadsMapped, AreSkipped, IsDue, IsAtHead, IsNextPage, LoadsMore, PutsHead, TakesOwnHead, IsNextOwn, Wants, cleared};

use crate::head::{id_in, length_in};
use crate::{MappedIndex, MappedLoadFault, MappedSettings};
use mig_mem::{GuestTarget, NoMemory, Place};
use std::alloc::{Allocator, Global};
use std::fmt::{self, Debug, Formatter};
use std::marker::Model;

/// The next bytes of a file.
#[derive(Clone, Copy, Debug, PartialEq, Eq)]
pub enum MappedWanted {
    /// The head of the next block.
    Head,
    /// This many bytes, at least 1, that are passed over.
    Skip(u64),
    /// The content of the page at this place.
    Page(Place),
    /// What follows the last block's pages: the list's EOS.
    End,
}

/// Loads a guest from a file with mapped-ram that is read in order, into memory that is passed with
/// each call. It keeps the index of the blocks so far.
///
/// At any time the memory has the content of each page that was read. Each other page whose bit is
/// set still has what it held before, and so have those of blocks whose heads weren't read. A page
/// whose bit isn't set is zeros once the head of its block was read.
pub struct MappedLoad<A: Allocator = Global> {
    index: MappedIndex<A>,
    // the offset in the file of the next byte
    place: u64,
}

// Written out, so that a caller's proof passes a call where a value is dropped.
impl<A: Allocator> Drop for MappedLoad<A> {
    fn drop(self) {
        let MappedLoad { index: _, place: _ } = self;
    }
}

impl<A: Allocator> Model for MappedLoad<A> {
    ghost use Rattle.mig_mapped.specs.Load.{MappedLoading, IsLoading};

    ghost Value = { MappedLoading };

    ghost view = { λ l. record { index = l.index; place = l.place } };

    ghost invariant = { λ l. IsLoading (record { index = l.index; place = l.place }) };
}

/// Prints an opaque value.
impl<A: Allocator> Debug for MappedLoad<A> {
    fn fmt<W: fmt::Write>(&self, f: &mut Formatter<W>) -> fmt::Result {
        f.write_str("MappedLoad { .. }")
    }
}

// Sets the pages of block `block` whose bits aren't set to zeros.
fn clear_unset<A: Allocator, M: GuestTarget>(index: &MappedIndex<A>, block: usize, memory: &mut M)
    requires block { block < length index.now.blocks }
    requires room { block < length (M.image memory.old).table.blocks }
    requires own { block_at (M.image memory.old).table.blocks block ≡ ram_block (mapped_block index.now.blocks block) }
    ensures { M.image memory.new ≡ cleared index.now.given (mapped_block index.now.blocks block) block (mapped_block index.now.blocks block).pages (M.image memory.old) }
{
    for page in 0..memory.table().pages(block) {
        if !index.has(block, page) {
            memory.put_zero_page(Place { block, page });
        }
    }
}

// Returns whether the memory's next block is that of the head at the front of `bytes`.
fn is_next_own<A: Allocator, M: GuestTarget>(
    index: &MappedIndex<A>,
    memory: &M,
    bytes: &[u8],
) -> bool
    requires { head_fault index.now bytes.now ≡ None }
    ensures { IsTrue result ↔ IsNextOwn (M.image memory.now).table index.now bytes.now }
{
    let table = memory.table();
    let block = index.len();
    if block >= table.len() || table.id(block) != id_in(bytes) {
        return false;
    }
    table.pages(block) == length_in(bytes) / index.page_size()
}

impl<A: Allocator> MappedLoad<A> {
    /// Creates a load of a file, before its first entry. The entry is at the offset `place` of the
    /// file, and the entries have `total` bytes together, as the head of the size list says.
    pub fn new(alloc: A, settings: MappedSettings, place: u64, total: u64) -> MappedLoad<A>
        requires page_size { IsPageSize settings.page_size }
        requires place { place < 2 ^ 63 }
        requires some { 0 < total }
        requires limit { total ≤ 2 ^ 40 }
        ensures value { result ≡ record { index = start settings place total; place = place } }
        ensures loads { (first : Image) (file : List ℕ) → IsImage first → length file ≡ place → LoadsMapped place total first file result first }
    {
        MappedLoad {
            index: MappedIndex::new(alloc, settings, place, total),
            place,
        }
    }

    /// Returns the index of the blocks so far.
    pub fn index(&self) -> &MappedIndex<A>
        ensures { result.now ≡ self.now.index }
    {
        &self.index
    }

    /// Returns the offset in the file of the next byte.
    pub fn place(&self) -> u64
        ensures { result ≡ self.now.place }
    {
        self.place
    }

    // Returns the first page of the last block whose content isn't before the next byte.
    fn next_page(&self) -> u64
        requires { 0 < length self.now.index.blocks }
        ensures { IsNextPage self.now result }
    {
        let block = self.index.len() - 1;
        let begun = self.place.saturating_sub(self.index.pages_offset(block));
        begun.div_ceil(self.index.page_size())
    }

    /// Returns what the next bytes of the file are.
    pub fn wanted(&self) -> MappedWanted
        ensures { Wants self.now result }
    {
        let end = self.index.place();
        if self.place == end {
            return match self.index.left() {
                0 => MappedWanted::End,
                _ => MappedWanted::Head,
            };
        }
        let block = self.index.len() - 1;
        match self.index.wanted(block, self.next_page()) {
            Some(run) if run.offset == self.place => MappedWanted::Page(Place {
                block,
                page: run.page,
            }),
            Some(run) => MappedWanted::Skip(run.offset - self.place),
            None => MappedWanted::Skip(end - self.place),
        }
    }

    /// Passes over the next `count` bytes, which `wanted` said are passed over, or the first of
    /// them.
    pub fn skip(&mut self, count: u64)
        requires { AreSkipped self.old count }
        ensures value { self.new ≡ record self.old { place = self.old.place + count } }
        ensures loads { (memory : Image) (bytes : List ℕ) → length bytes ≡ count → LoadsMore self.old memory bytes self.new memory }
    {
        self.place += count;
    }

    /// Writes the content of the page that is next.
    pub fn put_page<M: GuestTarget>(&mut self, memory: &mut M, place: Place, content: &[u8])
        requires due { IsDue self.old place }
        requires place { IsPlace (M.image memory.old).table place }
        requires size { (M.image memory.old).table.page_size ≡ self.old.index.given.page_size }
        requires len { length content.now ≡ self.old.index.given.page_size }
        ensures value { self.new ≡ record self.old { place = self.old.place + length content.now } }
        ensures loads { LoadsMore self.old (M.image memory.old) content.now self.new (M.image memory.new) }
    {
        memory.put_page(place, content);
        self.place += content.len() as u64;
    }
}

impl<A: Allocator + Copy> MappedLoad<A> {
    // Takes a head without a fault, of the memory's next block, and sets the pages whose bits
    // aren't set to zeros. Returns how many bytes it has. An `Err` changes nothing.
    fn put_head<M: GuestTarget>(&mut self, memory: &mut M, bytes: &[u8]) -> Result<usize, NoMemory>
        requires head { IsAtHead self.old }
        requires good { head_fault self.old.index bytes.now ≡ None }
        requires own { IsNextOwn (M.image memory.old).table self.old.index bytes.now }
        requires size { (M.image memory.old).table.page_size ≡ self.old.index.given.page_size }
        ensures ok { IfOk result (PutsHead self.old (M.image memory.old) bytes.now self.new (M.image memory.new)) }
        ensures err { OnErr result (self.new ≡ self.old) }
        ensures memory { OnErr result (M.image memory.new ≡ M.image memory.old) }
    {
        let block = self.index.len();
        let len = self.index.bitmap_end(bytes);
        self.index.push(bytes)?;
        clear_unset(&self.index, block, memory);
        self.place += len as u64;
        Ok(len)
    }

    /// Takes the next block's head from the bytes that follow, or as many of them as there are, and
    /// sets the pages whose bits aren't set to zeros. Returns how many of the bytes the head has:
    /// the others come after it.
    ///
    /// # Errors
    ///
    /// Why the head wasn't taken. Nothing has changed then. After `Truncated` it may be taken from
    /// more bytes.
    pub fn take_head<M: GuestTarget>(
        &mut self,
        memory: &mut M,
        bytes: &[u8],
    ) -> Result<usize, MappedLoadFault>
        requires head { IsAtHead self.old }
        requires size { (M.image memory.old).table.page_size ≡ self.old.index.given.page_size }
        ensures { TakesOwnHead self.old (M.image memory.old) bytes.now self.new (M.image memory.new) result }
    {
        if let Some(fault) = self.index.head_fault(bytes) {
            return Err(MappedLoadFault::Fault(fault));
        }
        if !is_next_own(&self.index, memory, bytes) {
            return Err(MappedLoadFault::OtherTable);
        }
        Ok(self.put_head(memory, bytes)?)
    }
}
