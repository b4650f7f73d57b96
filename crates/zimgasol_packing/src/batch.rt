//! The pages of one block that go into a packet.

ghost use Rattle.std.specs.Prelude.{ℕ, ◌≡◌, ◌+◌, ◌*◌, ◌<◌, ◌≤◌, ◌^◌, ◌++◌, ◌∷◌, [], List, length, false, OnOk, IsTrue, IsFalse};
ghost use Rattle.mig_mem.specs.Image.{Page};
ghost use Rattle.mig_packet.specs.PageSize.{IsPageSize, page_limit};
ghost use Rattle.mig_packet.specs.Written.{written_packet};
ghost use Rattle.mig_send.specs.Dealing.{sync_packet};
ghost use Rattle.zimgasol_packing.specs.Packing.{HasPages};

use mig_mem::NoMemory;
use mig_packet::{page_limit, put_packet};
use mig_zero::is_zero;
use std::alloc::Global;

/// The most bytes of an id in a packet.
const MOST_ID_LEN: usize = 255;

/// Pages of one block.
#[derive(Drop)]
pub(crate) struct Batch {
    pub block: usize,
    // the offsets of pages with contents, their contents, and the offsets of pages of zeros
    normal: Vec<u64>,
    contents: Vec<u8>,
    zeros: Vec<u64>,
}

impl Batch {
    /// Creates a batch without pages.
    pub(crate) fn new(alloc: Global) -> Batch
        ensures { (size : ℕ) → HasPages size result [] }
    {
        Batch {
            block: 0,
            normal: Vec::new(alloc),
            contents: Vec::new(alloc),
            zeros: Vec::new(alloc),
        }
    }

    /// Returns how many pages there are.
    pub(crate) fn len(&self) -> usize
        ensures { (size : ℕ) (pages : List Page) → HasPages size self.now pages → length pages < 2 ^ 64 → result ≡ length pages }
    {
        self.normal.len().saturating_add(self.zeros.len())
    }

    /// Returns whether the pages are of `block`, and fewer than `limit`.
    pub(crate) fn takes(&self, block: usize, limit: usize) -> bool
        ensures block { IsTrue result → self.now.block ≡ block }
        ensures few { IsTrue result → (size : ℕ) (pages : List Page) → HasPages size self.now pages → length pages < 2 ^ 64 → length pages < limit }
        ensures full { IsFalse result → self.now.block ≡ block
            → (size : ℕ) (pages : List Page) → HasPages size self.now pages → length pages < 2 ^ 64 → limit ≤ length pages }
    {
        self.block == block && self.len() < limit
    }

    /// Adds the page at the byte `offset` of the block.
    ///
    /// # Errors
    ///
    /// `NoMemory`: an allocation was refused.
    pub(crate) fn add(&mut self, offset: u64, content: &[u8]) -> Result<(), NoMemory>
        ensures block { self.new.block ≡ self.old.block }
        ensures pages { OnOk result ((size : ℕ) (pages : List Page) (page : Page) → page.place.page * size ≡ offset → page.content ≡ content.now
            → HasPages size self.old pages → HasPages size self.new (pages ++ page ∷ [])) }
    {
        if is_zero(content) {
            self.zeros.push(offset)?;
            return Ok(());
        }
        self.contents.extend_from_slice(content)?;
        self.normal.push(offset)?;
        Ok(())
    }

    /// Removes all pages.
    pub(crate) fn clear(&mut self)
        ensures { (size : ℕ) → HasPages size self.new [] }
    {
        self.normal.clear();
        self.contents.clear();
        self.zeros.clear();
    }

    // Returns whether a packet of the block `id` takes the pages.
    fn fits(&self, page_size: u64, id: &[u8]) -> bool
        requires { IsPageSize page_size }
        ensures few { IsTrue result → length self.now.normal.items + length self.now.zeros.items ≤ page_limit page_size }
        ensures contents { IsTrue result → length self.now.contents.items ≡ length self.now.normal.items * page_size }
        ensures id { IsTrue result → length id.now ≤ 255 }
    {
        let limit = page_limit(page_size);
        let normal = self.normal.len();
        if normal > limit || self.zeros.len() > limit - normal || id.len() > MOST_ID_LEN {
            return false;
        }
        match (normal as u64).checked_mul(page_size) {
            Some(len) => self.contents.len() as u64 == len,
            None => false,
        }
    }

    /// Writes the packet `number` of the pages into `bytes`, whose content it replaces. `id` is
    /// that of the block.
    ///
    /// # Errors
    ///
    /// `NoMemory`: an allocation was refused, or a packet doesn't take them.
    pub(crate) fn write(
        &self,
        page_size: u64,
        bytes: &mut Vec<u8>,
        number: u64,
        id: &[u8],
    ) -> Result<(), NoMemory>
        requires { IsPageSize page_size }
        ensures { OnOk result (bytes.new.items ≡ written_packet page_size number false id.now self.now.normal.items self.now.contents.items self.now.zeros.items) }
    {
        bytes.clear();
        if !self.fits(page_size, id) {
            return Err(NoMemory);
        }
        let (normal, contents, zeros) = (&self.normal, &self.contents, &self.zeros);
        match put_packet(page_size, bytes, number, false, id, normal, contents, zeros) {
            Ok(()) => Ok(()),
            Err(_) => Err(NoMemory),
        }
    }
}

/// Writes the SYNC packet `number` into `bytes`, whose content it replaces.
///
/// # Errors
///
/// `NoMemory`: an allocation was refused.
pub(crate) fn write_sync(page_size: u64, bytes: &mut Vec<u8>, number: u64) -> Result<(), NoMemory>
    requires { IsPageSize page_size }
    ensures { OnOk result (bytes.new.items ≡ sync_packet page_size number) }
{
    bytes.clear();
    match put_packet(page_size, bytes, number, true, &[], &[], &[], &[]) {
        Ok(()) => Ok(()),
        Err(_) => Err(NoMemory),
    }
}
