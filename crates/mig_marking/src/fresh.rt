//! Guest memory that was zeros when a load began. A page of zeros that comes again and again is
//! neither written nor read: so blocks that the system backs with pages only once they are touched
//! stay as small as what they hold.

ghost use Rattle.std.specs.Prelude.{◌≡◌, [], IfOk, IfErr};
ghost use Rattle.mig_mem.specs.Image.{IsImage, zero_image};
ghost use Rattle.mig_mem.specs.PlaceSet.{IsPlaceSet};
ghost use Rattle.mig_marking.specs.Fresh.{AreZeros};

use mig_mem::{Dirty, GuestTarget, Place, Table};
use std::alloc::{Allocator, Global};
use std::marker::Model;

/// A memory that was zeros, and the set of its pages that may hold something else. Pass it to a
/// load in place of the memory, which is then the same as without it. It has a bit for each page.
///
/// A page that comes as zeros is cleared only if a content was written to it before. Any other is
/// left alone: it isn't read either. So a `memfd`, a file and huge pages keep their holes, and a
/// sender that repeats pages of zeros costs little.
pub struct Fresh<M: GuestTarget, A: Allocator = Global> {
    memory: M,
    written: Dirty<A>,
}

// Written out, so that a caller's proof passes a call where a value is dropped.
impl<M: GuestTarget + Drop, A: Allocator> Drop for Fresh<M, A> {
    fn drop(self) {
        let Fresh {
            memory: _,
            written: _,
        } = self;
    }
}

impl<M: GuestTarget, A: Allocator> Model for Fresh<M, A> {
    ghost use Rattle.mig_mem.specs.Image.{Image};
    ghost use Rattle.mig_marking.specs.Fresh.{AreZeros};

    ghost Value = { Image };

    ghost view = { λ f. M.image f.memory };

    ghost invariant = { λ f. AreZeros (M.image f.memory) f.written };
}

impl<M: GuestTarget, A: Allocator> Fresh<M, A> {
    /// Returns the memory.
    pub fn memory(&self) -> &M
        ensures { M.image result.now ≡ self.now }
    {
        &self.memory
    }

    /// Returns the pages that may hold other bytes than zeros.
    pub fn written(&self) -> &Dirty<A>
        ensures zeros { AreZeros self.now result.now }
    {
        &self.written
    }

    /// Returns the memory.
    pub fn into_memory(self) -> M
        ensures { M.image result ≡ self }
    {
        let Fresh { memory, written: _ } = self;
        memory
    }

    /// Takes a memory, and the pages of it that may hold other bytes than zeros: those that
    /// `into_parts` returned, if the memory wasn't changed since.
    pub fn from_parts(memory: M, written: Dirty<A>) -> Fresh<M, A>
        requires zeros { AreZeros (M.image memory) written }
        ensures { result ≡ M.image memory }
    {
        Fresh { memory, written }
    }

    /// Returns the memory, and the pages that may hold other bytes than zeros.
    pub fn into_parts(self) -> (M, Dirty<A>)
        ensures memory { M.image result.0 ≡ self }
        ensures zeros { AreZeros self result.1 }
    {
        let Fresh { memory, written } = self;
        (memory, written)
    }
}

impl<M: GuestTarget, A: Allocator + Copy> Fresh<M, A> {
    /// Takes a memory of zeros. It allocates a bit for each page.
    ///
    /// # Errors
    ///
    /// The memory, as it was: an allocation was refused.
    pub fn new(alloc: A, memory: M) -> Result<Fresh<M, A>, M>
        requires zeros { M.image memory ≡ zero_image (M.image memory).table }
        ensures ok { IfOk result (λ f. f ≡ M.image memory) }
        ensures err { IfErr result (λ m. M.image m ≡ M.image memory) }
    {
        let Ok(written) = Dirty::none(alloc, memory.table()) else {
            return Err(memory);
        };
        Ok(Fresh { memory, written })
    }
}

impl<M: GuestTarget, A: Allocator> GuestTarget for Fresh<M, A> {
    type Alloc = M::Alloc;

    ghost image = { λ m. m };

    fn table(&self) -> &Table<M::Alloc> {
        self.memory.table()
    }

    fn put_page(&mut self, place: Place, bytes: &[u8]) {
        let Ok(_) = self.written.mark(place) else {
            unreachable!();
        };
        self.memory.put_page(place, bytes);
    }

    fn put_zero_page(&mut self, place: Place) {
        // shows that each content of the memory has the page size (`IsImage`)
        let _table = self.memory.table();
        if self.written.has(place) {
            self.written.unmark(place);
            self.memory.put_zero_page(place);
        }
    }
}
