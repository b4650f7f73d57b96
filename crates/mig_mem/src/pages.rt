//! Pages of a block. Only pages that were written have bytes of their own. `Regions` keeps one such
//! value for each region of a block.

ghost use Rattle.std.specs.Prelude.{◌≡◌, ◌+◌, ◌*◌, ◌^◌, ◌<◌, ◌≤◌, length, replicate, slice_set, IfOk, IsTrue, vec_capacity};
ghost use Rattle.mig_mem.specs.PageSize.{IsPageSize};
ghost use Rattle.mig_mem.specs.Image.{zero_page};
ghost use Rattle.mig_mem.specs.BlockPages.{page_at, with_content, cleared};
ghost use Rattle.mig_mem.specs.Parts.{ChangesPart};

use crate::NoMemory;
use crate::parts::{append, append_with, part_of, write_in_part, write_part};
use crate::slots::Slots;
use std::alloc::Allocator;
use std::marker::Model;

// A page of zeros, of the largest page size (8 KiB).
const ZEROS: [u8; 8192] = [0; 8192];

/// Some pages of a block. A page has bytes of its own from its first write on, and is zeros until
/// then. The room for all pages is reserved from the start, and isn't touched before it is needed.
pub(crate) struct Pages<A: Allocator> {
    size: u64,
    // for each page the slot of its bytes, from 1 on in the order of first writes, or 0 if it has
    // none
    slots: Slots<A>,
    // the bytes of the slots, one page after another
    bytes: Vec<u8, A>,
}

// Written out, so that a caller's proof passes a call where a value is dropped.
impl<A: Allocator> Drop for Pages<A> {
    fn drop(self) {
        let Pages {
            size: _,
            slots: _,
            bytes: _,
        } = self;
    }
}

impl<A: Allocator> Model for Pages<A> {
    ghost use Rattle.mig_mem.specs.Parts.{parts_in};
    ghost use Rattle.mig_mem.specs.BlockPages.{BlockPages, ArePages};
    ghost use Rattle.std.specs.Prelude.{vec_capacity};

    ghost Value = { BlockPages };

    ghost view = { λ p. record { size = p.size; pages = parts_in p.size p.slots p.bytes.items } };

    ghost invariant = { λ p. ArePages p.size p.slots p.bytes.items (vec_capacity p.bytes) };
}

/// Returns a page of zeros.
pub(crate) fn zeros(size: u64) -> &'static [u8]
    requires { IsPageSize size }
    ensures { result.now ≡ zero_page size }
{
    front(&ZEROS, size)
}

// Returns the first `len` bytes of `zeros`.
fn front(zeros: &[u8], len: u64) -> &[u8]
    requires zeros { zeros.now ≡ replicate (length zeros.now) 0 }
    requires len { len ≤ length zeros.now }
    ensures { result.now ≡ replicate len 0 }
{
    &zeros[..len as usize]
}

/// Sets a page of a block's bytes to zeros. A page that is zeros isn't written.
pub(crate) fn clear_part(bytes: &mut [u8], size: u64, page: u64)
    requires size { IsPageSize size }
    requires room { page * size + size ≤ length bytes.old }
    ensures { ChangesPart size bytes.old bytes.new page (zero_page size) }
{
    if part_of(bytes, size, page) != zeros(size) {
        write_part(bytes, size, page, zeros(size));
    }
}

impl<A: Allocator + Copy> Pages<A> {
    /// Creates pages of zeros, with room for all of them.
    pub(crate) fn zeroed(alloc: A, size: u64, count: u64) -> Result<Pages<A>, NoMemory>
        requires size { IsPageSize size }
        requires room { count * size ≤ 2 ^ 40 }
        ensures { IfOk result (λ p. p ≡ record { size = size; pages = replicate count (zero_page size) }) }
    {
        let slots = Slots::zeroed(alloc, count)?;
        let bytes = Vec::with_capacity(alloc, (count * size) as usize)?;
        Ok(Pages { size, slots, bytes })
    }

    /// Copies the pages. The copy has room for all of them.
    pub(crate) fn try_copy(&self) -> Result<Pages<A>, NoMemory>
        ensures { IfOk result (λ p. p ≡ self.now) }
    {
        let slots = self.slots.try_copy()?;
        let room = (self.slots.len() * self.size) as usize;
        let mut bytes = Vec::with_capacity(*self.bytes.allocator(), room)?;
        bytes.extend_from_slice(&self.bytes)?;
        Ok(Pages {
            size: self.size,
            slots,
            bytes,
        })
    }
}

impl<A: Allocator> Pages<A> {
    /// Returns how many pages there are.
    pub(crate) fn len(&self) -> u64
        ensures { result ≡ length self.now.pages }
    {
        self.slots.len()
    }

    /// Returns the content of a page.
    pub(crate) fn page(&self, i: u64) -> &[u8]
        requires { i < length self.now.pages }
        ensures { result.now ≡ page_at self.now i }
    {
        let slot = self.slots.get(i);
        if slot == 0 {
            return zeros(self.size);
        }
        part_of(&self.bytes, self.size, slot - 1)
    }

    /// Returns whether a page was never written, and so is zeros.
    pub(crate) fn is_blank(&self, i: u64) -> bool
        requires { i < length self.now.pages }
        ensures { IsTrue result → page_at self.now i ≡ zero_page self.now.size }
    {
        self.slots.get(i) == 0
    }

    /// Writes a page. It allocates nothing.
    pub(crate) fn put(&mut self, i: u64, content: &[u8])
        requires page { i < length self.old.pages }
        requires size { length content.now ≡ self.old.size }
        ensures { self.new ≡ with_content self.old i content.now }
    {
        let slot = self.slots.get(i);
        if slot == 0 {
            append(&mut self.bytes, content);
            self.slots.set(i, self.bytes.len() as u64 / self.size);
        } else {
            write_part(&mut self.bytes, self.size, slot - 1, content);
        }
    }

    /// Sets a page to zeros. It allocates nothing, and touches no page that was never written.
    pub(crate) fn put_zeros(&mut self, i: u64)
        requires { i < length self.old.pages }
        ensures { self.new ≡ with_content self.old i (zero_page self.old.size) }
    {
        let slot = self.slots.get(i);
        if slot != 0 {
            write_part(&mut self.bytes, self.size, slot - 1, zeros(self.size));
        }
    }

    /// Writes one byte of a page. It allocates nothing.
    pub(crate) fn set(&mut self, i: u64, offset: u64, byte: u8)
        requires page { i < length self.old.pages }
        requires offset { offset < self.old.size }
        ensures { self.new ≡ with_content self.old i (slice_set (page_at self.old i) offset byte) }
    {
        let slot = self.slots.get(i);
        if slot == 0 {
            append_with(&mut self.bytes, zeros(self.size), offset, byte);
            self.slots.set(i, self.bytes.len() as u64 / self.size);
        } else {
            write_in_part(&mut self.bytes, self.size, slot - 1, offset, byte);
        }
    }

    /// Sets all pages to zeros, as if none was ever written. It allocates nothing and touches no
    /// page. Pages that are written later take the room of those that were.
    pub(crate) fn clear(&mut self)
        ensures { self.new ≡ cleared self.old }
    {
        self.slots.clear();
        self.bytes.clear();
    }
}
