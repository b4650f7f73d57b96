//! Guest memory that marks each page that a load writes into it. So whatever load it is, the
//! memory tells which pages came, and how many didn't.

ghost use Rattle.std.specs.Prelude.{◌≡◌, ◌<◌, ◌^◌, All, [], IfOk, IfErr, true};
ghost use Rattle.mig_mem.specs.declared.place.Place.{Place};
ghost use Rattle.mig_mem.specs.Place.{has_place};
ghost use Rattle.mig_mem.specs.Image.{IsImage, content_at};
ghost use Rattle.mig_mem.specs.PlaceSet.{IsPlaceSet};
ghost use Rattle.mig_marking.specs.Marking.{IsMarked, none_written, missing};

use crate::counting::lacking;
use mig_mem::{Dirty, GuestTarget, Place, Table};
use std::alloc::{Allocator, Global};
use std::marker::Model;

/// A memory into which a load writes, and the set of the pages that it wrote. Pass it to a load in
/// place of the memory: it has a bit for each page, and writes each page once.
///
/// A stream can be complete and still lack pages: the main stream of a multifd migration whose
/// channels were lost, or a stream of changes alone. A load reports such a stream as complete, and
/// `missing` tells them from a whole guest.
///
/// In a load's contract the image of a `Marking` is `seen`: a page that wasn't written shows as
/// numbers that are no bytes. So what the contract says of the image says also which pages were
/// written ([`written_is_seen`](crate::written_is_seen)).
pub struct Marking<M: GuestTarget, A: Allocator = Global> {
    memory: M,
    written: Dirty<A>,
}

// Written out, so that a caller's proof passes a call where a value is dropped.
impl<M: GuestTarget + Drop, A: Allocator> Drop for Marking<M, A> {
    fn drop(self) {
        let Marking {
            memory: _,
            written: _,
        } = self;
    }
}

impl<M: GuestTarget, A: Allocator> Model for Marking<M, A> {
    ghost use Rattle.mig_marking.specs.Marking.{Marked, IsMarked};

    ghost Value = { Marked };

    ghost view = { λ m. record { memory = M.image m.memory; written = m.written } };

    ghost invariant = { λ m. IsMarked (record { memory = M.image m.memory; written = m.written }) };
}

impl<M: GuestTarget, A: Allocator> Marking<M, A> {
    /// Returns the memory.
    pub fn memory(&self) -> &M
        ensures { M.image result.now ≡ self.now.memory }
    {
        &self.memory
    }

    /// Returns the pages that were written.
    pub fn written(&self) -> &Dirty<A>
        ensures { result.now ≡ self.now.written }
    {
        &self.written
    }

    /// Returns how many pages of the table weren't written. After a load into a memory of which no
    /// page was written before, these are the pages that had no record.
    pub fn missing(&self) -> u64
        ensures value { result ≡ missing self.now }
        ensures marked { IsMarked self.now }
        ensures image { IsImage self.now.memory }
        ensures set { IsPlaceSet self.now.written }
    {
        // shows that the memory has a content for each place (`IsImage`)
        let _table = self.memory.table();
        lacking(&self.written)
    }

    /// Returns the memory and the pages that were written.
    pub fn into_parts(self) -> (M, Dirty<A>)
        ensures memory { M.image result.0 ≡ self.memory }
        ensures written { result.1 ≡ self.written }
        ensures marked { IsMarked self }
    {
        let Marking { memory, written } = self;
        (memory, written)
    }
}

impl<M: GuestTarget, A: Allocator + Copy> Marking<M, A> {
    /// Takes a memory, of which no page was written yet. It allocates a bit for each page.
    ///
    /// # Errors
    ///
    /// The memory, as it was: an allocation was refused.
    pub fn new(alloc: A, memory: M) -> Result<Marking<M, A>, M>
        ensures ok { IfOk result (λ m. m ≡ none_written (M.image memory)) }
        ensures err { IfErr result (λ m. M.image m ≡ M.image memory) }
        ensures image { IsImage (M.image memory) }
    {
        let Ok(written) = Dirty::none(alloc, memory.table()) else {
            return Err(memory);
        };
        Ok(Marking { memory, written })
    }
}

impl<M: GuestTarget, A: Allocator> GuestTarget for Marking<M, A> {
    type Alloc = M::Alloc;

    ghost use Rattle.mig_marking.specs.Marking.{seen};

    ghost image = { λ m. seen m };

    fn table(&self) -> &Table<M::Alloc> {
        self.memory.table()
    }

    fn put_page(&mut self, place: Place, bytes: &[u8]) {
        let Ok(_) = self.written.mark(place) else {
            unreachable!();
        };
        self.memory.put_page(place, bytes);
    }

    fn put_zero_page(&mut self, place: Place) {
        let Ok(_) = self.written.mark(place) else {
            unreachable!();
        };
        self.memory.put_zero_page(place);
    }
}
