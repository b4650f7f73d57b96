//! The memory into which a single stream is loaded, with the number of sections in it and the
//! places that they named, for `settle`.

ghost use Rattle.std.specs.Prelude.{◌≡◌, ◌+◌, ◌<◌, ◌^◌, IfOk};
ghost use Rattle.mig_mem.specs.Round.{with_round};
ghost use Rattle.mig_assemble.specs.Judging.{places_of};
ghost use Rattle.mig_assemble.specs.NamedPlaces.{with_places};
ghost use Rattle.mig_assemble.specs.Target.{new_target, pages_of_round, FitsTable};

use mig_assemble::{name_records, put_records};
use mig_mem::{Dirty, Memory, NoMemory, Table};
use mig_stream::StreamRound;
use std::alloc::{Allocator, Global};
use std::marker::Model;

/// The memory into which a single stream is loaded, the places that its sections named, and the
/// number of sections in it. A `Target` also has marks by which it judges, which only packets need.
pub(crate) struct Filling<A: Allocator = Global> {
    memory: Memory<A>,
    named: Dirty<A>,
    sections: u64,
}

// Written out, so that a caller's proof passes a call where a value is dropped.
impl<A: Allocator> Drop for Filling<A> {
    fn drop(self) {
        let Filling {
            memory: _,
            named: _,
            sections: _,
        } = self;
    }
}

impl<A: Allocator> Model for Filling<A> {
    ghost use Rattle.mig_assemble.specs.Target.{LoadTarget};
    ghost use Rattle.mig_single_load.specs.Loader.{memory_with};

    ghost Value = { LoadTarget };

    ghost view = { λ f. memory_with f.memory f.named f.sections };

    ghost use Rattle.std.specs.Prelude.{◌≡◌};

    ghost invariant = { λ f. f.named.table ≡ f.memory.table };
}

impl<A: Allocator + Copy> Filling<A> {
    /// Creates a memory of zeros, without a section.
    pub(crate) fn new<B: Allocator>(alloc: A, table: &Table<B>) -> Result<Filling<A>, NoMemory>
        ensures { IfOk result (λ f. f ≡ new_target table.now) }
    {
        Ok(Filling {
            memory: Memory::zeroed(alloc, table)?,
            named: Dirty::none(alloc, table)?,
            sections: 0,
        })
    }
}

impl<A: Allocator> Filling<A> {
    /// Writes the next section's records into the memory, in their order.
    pub(crate) fn section<B: Allocator>(&mut self, section: &StreamRound<B>)
        requires fits { FitsTable self.old.memory.table section.now }
        requires room { self.old.rounds < 2 ^ 63 }
        ensures memory { self.new.memory ≡ with_round self.old.memory (pages_of_round section.now) }
        ensures named { self.new.named ≡ with_places self.old.named (places_of (pages_of_round section.now)) }
        ensures rounds { self.new.rounds ≡ self.old.rounds + 1 }
    {
        put_records(&mut self.memory, section);
        name_records(&mut self.named, section);
        self.sections += 1;
    }

    /// Returns the memory.
    pub(crate) fn memory(&self) -> &Memory<A>
        ensures { result.now ≡ self.now.memory }
    {
        &self.memory
    }

    /// Returns the places that the sections named.
    pub(crate) fn named(&self) -> &Dirty<A>
        ensures { result.now ≡ self.now.named }
    {
        &self.named
    }

    /// Returns the number of sections in the memory.
    pub(crate) fn rounds(&self) -> u64
        ensures { result ≡ self.now.rounds }
    {
        self.sections
    }

    /// Returns the memory.
    pub(crate) fn into_memory(self) -> Memory<A>
        ensures { result ≡ self.memory }
    {
        let Filling {
            memory,
            named: _,
            sections: _,
        } = self;
        memory
    }
}
