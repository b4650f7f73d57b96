//! The traits by which senders read a guest's memory (`GuestPages`) and loads write one
//! (`GuestTarget`). Callers may implement both.

ghost use Rattle.std.specs.Prelude.{◌≡◌, ◌↔◌, ◌<◌, All, map, length, IfSome, IsSome, Option, None};
ghost use Rattle.std.specs.Option.{option_copied};
ghost use Rattle.std.specs.Thread.{IsSync};
ghost use Rattle.mig_mem.specs.Image.{Image, IsImage, content, zero_page, with_page};
ghost use Rattle.mig_mem.specs.Place.{IsPlace};
ghost use Rattle.mig_mem.specs.Puts.{round_page, HasPageSize};
ghost use Rattle.mig_mem.specs.Round.{with_round};

use crate::{Memory, Place, RoundPage, Table};
use std::alloc::Allocator;
use std::thread::Threads;

/// Guest memory that is read page by page: a `Memory`, or a `LentMemory` of bytes that another
/// owns. Its contents don't change as long as it is borrowed.
pub trait GuestPages {
    /// The allocator of the table.
    type Alloc: Allocator;

    /// The image that it holds.
    ghost image: { Self → Image };

    /// Returns the table of the memory. The contract also says that a memory has one content of the
    /// page size for each place of it.
    fn table(&self) -> &Table<Self::Alloc>
        ensures value { result.now ≡ (image self.now).table }
        ensures image { IsImage (image self.now) };

    /// Returns the content of a page, if the table has it: as many bytes as the page size.
    fn page(&self, place: Place) -> Option<&[u8]>
        ensures value { option_copied result ≡ content (image self.now) place }
        ensures there { IsSome result ↔ IsPlace (image self.now).table place }
        ensures size { IfSome result (λ bytes. length bytes.now ≡ (image self.now).table.page_size) };
}

impl<A: Allocator> GuestPages for Memory<A> {
    type Alloc = A;

    ghost image = { λ m. m };

    fn table(&self) -> &Table<A> {
        Memory::table(self)
    }

    fn page(&self, place: Place) -> Option<&[u8]> {
        Memory::page(self, place)
    }
}

/// Guest memory into which pages are written: a `Memory`, or a `LentMemoryMut` of the caller's own
/// bytes. A write allocates nothing, so it can't be refused. The trait has no call that reads a
/// page.
pub trait GuestTarget {
    /// The allocator of the table.
    type Alloc: Allocator;

    /// The image that it holds.
    ghost image: { Self → Image };

    /// What no write changes. Of a target that keeps the pages of a round apart until the round was
    /// judged, it is the memory without them. Others leave it out.
    ghost kept: { Self → Option Image } = { λ _. None };

    /// Returns the table of the memory. The contract also says that a memory has one content of the
    /// page size for each place of it.
    fn table(&self) -> &Table<Self::Alloc>
        ensures value { result.now ≡ (image self.now).table }
        ensures image { IsImage (image self.now) };

    /// Writes a complete page. A caller tests the place by `Table::holds`.
    fn put_page(&mut self, place: Place, bytes: &[u8])
        requires place { IsPlace (image self.old).table place }
        requires bytes { length bytes.now ≡ (image self.old).table.page_size }
        ensures image { image self.new ≡ with_page (image self.old) place bytes.now }
        ensures kept { kept self.new ≡ kept self.old };

    /// Sets a page to zeros. Lent bytes that are zeros aren't written, and neither is a page of a
    /// `Memory` that was never written. So such a page takes no memory from the system. The
    /// contract doesn't say so.
    fn put_zero_page(&mut self, place: Place)
        requires { IsPlace (image self.old).table place }
        ensures image { image self.new ≡ with_page (image self.old) place (zero_page (image self.old).table.page_size) }
        ensures kept { kept self.new ≡ kept self.old };
}

impl<A: Allocator> GuestTarget for Memory<A> {
    type Alloc = A;

    ghost image = { λ m. m };

    fn table(&self) -> &Table<A> {
        Memory::table(self)
    }

    fn put_page(&mut self, place: Place, bytes: &[u8]) {
        Memory::put_page(self, place, bytes);
    }

    fn put_zero_page(&mut self, place: Place) {
        Memory::put_zero_page(self, place);
    }
}

/// Guest memory into which one call writes all pages of a round, by several threads.
pub trait ThreadedTarget: GuestTarget {
    /// Writes the pages of a round by at most `threads` threads, including the caller's. All others
    /// have ended when the call returns. If a page occurs more than once, the last one counts. A
    /// caller tests each place by `Table::holds`.
    fn put_pages<R: Threads + Sync>(&mut self, rt: &R, threads: u64, pages: &[RoundPage<'_>])
        requires sync { IsSync R.row }
        requires threads { 0 < threads }
        requires places { All (λ x. IsPlace (Self.image self.old).table x.place) pages.now }
        requires sizes { All (HasPageSize (Self.image self.old).table.page_size) pages.now }
        ensures { Self.image self.new ≡ with_round (Self.image self.old) (map (round_page (Self.image self.old).table.page_size) pages.now) };
}
