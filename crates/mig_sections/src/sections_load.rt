//! The load of a single stream by whole sections. What it keeps between two calls is all but the
//! memory.

ghost use Rattle.std.specs.Prelude.{◌≡◌, ◌≢◌, ◌+◌, ◌<◌, ◌≤◌, ◌^◌, ◌++◌, ◌↔◌, ℕ, Bool, List, [], length, true, false, Err, IsTrue, IsFalse, IfOk, OnOk, OnErr};
ghost use Rattle.mig_mem.specs.Image.{Image, IsImage};
ghost use Rattle.mig_stream.specs.Reader.{IsFinal};
ghost use Rattle.mig_load_types.specs.declared.fault.InPlaceFault.TheVariants as in_place_fault;
ghost use Rattle.mig_load_types.specs.declared.settings.LoadSettings.{LoadSettings};
ghost use Rattle.mig_single_load.specs.InPlace.{settings_of, HasVerdictOnto, HasOtherTable};
ghost use Rattle.mig_single_load.specs.LoadInPlace.{HasClosedAtOnto, IsValidUpToOnto};
ghost use Rattle.mig_sections.specs.Sections.{LoadsSections, HasMissingSections, GoesOn, reader_if, SentIsLoadedBySections, MachineSentIsLoadedBySections};

use crate::putting::read_piece;
use mig_load_types::{InPlaceFault, LoadFault, LoadSettings};
use mig_marking::lacking;
use mig_mem::{Dirty, GuestTarget, NoMemory, Table};
use mig_single_load::{other_table, verdict_at};
use mig_stream::{Mode, StreamReader, StreamState};
use std::alloc::{Allocator, Global};
use std::fmt::{self, Debug, Formatter};
use std::marker::Model;

/// Loads a guest from the pieces of a single stream into memory that is passed with each piece, by
/// whole sections. Each section is written by the call that brings its footer. Until then its
/// records are kept apart, as many as the setting `waiting` lets through.
///
/// At any time the memory has the complete sections of the stream on top of what it held at first,
/// and nothing else, also if the stream turns out to be bad or cut.
///
/// Each piece is fed with the memory as the piece before left it. The stream must have the memory's
/// table: the same blocks in the same order. No page of a stream of another table is written, and
/// the verdict is `OtherTable`.
pub struct SectionsLoad<A: Allocator = Global> {
    // None once the stream has another table than the memory
    reader: Option<StreamReader<'static, A>>,
    // the memory's table
    table: Table<A>,
    // the places that the complete sections named
    named: Dirty<A>,
    sections: u64,
    fed: u64,
    ended: bool,
}

// Written out, so that a caller's proof passes a call where a value is dropped.
impl<A: Allocator> Drop for SectionsLoad<A> {
    fn drop(self) {
        let SectionsLoad {
            reader: _,
            table: _,
            named: _,
            sections: _,
            fed: _,
            ended: _,
        } = self;
    }
}

impl<A: Allocator> Model for SectionsLoad<A> {
    ghost use Rattle.mig_sections.specs.Sections.{SectionsLoad, sections_load, IsSectionsLoad};

    ghost Value = { SectionsLoad };

    ghost view = { λ s. sections_load s.reader s.table s.named s.sections s.fed s.ended };

    ghost invariant = { λ s. IsSectionsLoad (sections_load s.reader s.table s.named s.sections s.fed s.ended) };
}

/// Prints an opaque value: it holds guest memory.
impl<A: Allocator> Debug for SectionsLoad<A> {
    fn fmt<W: fmt::Write>(&self, f: &mut Formatter<W>) -> fmt::Result {
        f.write_str("SectionsLoad { .. }")
    }
}

// Returns a reader if the stream has the memory's table, or none yet.
fn reader_if<A: Allocator>(
    own: bool,
    reader: StreamReader<'static, A>,
) -> Option<StreamReader<'static, A>>
    ensures { result ≡ reader_if own reader.entry }
{
    if own { Some(reader) } else { None }
}

impl<A: Allocator + Copy> SectionsLoad<A> {
    /// Creates a load into a memory of `table`, which it copies, with `settings`. Their page size
    /// doesn't count: pages have the size that `table` has. The limit must be at least the table's
    /// own total.
    ///
    /// # Errors
    ///
    /// `NoMemory`: an allocation was refused.
    pub fn new<B: Allocator>(
        alloc: A,
        settings: LoadSettings,
        table: &Table<B>,
    ) -> Result<SectionsLoad<A>, NoMemory>
        requires { settings.limit ≤ 2 ^ 40 }
        ensures loads { IfOk result (λ s. (first : Image) → IsImage first → first.table ≡ table.now → LoadsSections first settings first s [] false) }
        ensures table { IfOk result (λ s. s.table ≡ table.now) }
        ensures open { IfOk result (λ s. IsFalse s.ended) }
        ensures fed { IfOk result (λ s. s.fed ≡ 0) }
    {
        table.keeps_limits();
        let page_size = table.page_size();
        let named = Dirty::none(alloc, table)?;
        let table = table.copy_in(alloc)?;
        let reader = StreamReader::new_with(
            alloc,
            settings.frame,
            Mode::Single,
            page_size,
            settings.limit,
            settings.waiting,
        );
        Ok(SectionsLoad {
            reader: Some(reader),
            table,
            named,
            sections: 0,
            fed: 0,
            ended: false,
        })
    }

    /// Reads the next piece of the stream, and writes the sections that it completes into the
    /// memory. After the end byte, a fault or another table nothing more is read: the bytes are
    /// only counted, and the call never fails with `NoMemory`.
    ///
    /// # Errors
    ///
    /// - `OtherTable`: `memory` has another table than the load. Nothing changes.
    /// - `NoMemory`: an allocation was refused. Nothing changes, and the piece can be fed again.
    pub fn feed<M: GuestTarget>(&mut self, memory: &mut M, piece: &[u8]) -> Result<(), InPlaceFault>
        requires open { IsFalse self.old.ended }
        requires room { self.old.fed + length piece.now < 2 ^ 63 }
        ensures ok { OnOk result ((given : LoadSettings) (first : Image) (text : List ℕ) → LoadsSections (M.image memory.old) given first self.old text false
            → LoadsSections (M.image memory.new) given first self.new (text ++ piece.now) false) }
        ensures other { (result ≡ Err in_place_fault.OtherTable) ↔ ((M.image memory.old).table ≢ self.old.table) }
        ensures err { OnErr result ((self.new ≡ self.old) × (M.image memory.new ≡ M.image memory.old)) }
        ensures settled { (given : LoadSettings) (first : Image) (text : List ℕ) → LoadsSections (M.image memory.old) given first self.old text false → IsFinal (settings_of first given) text
            → result ≢ Err in_place_fault.NoMemory }
        ensures another { (given : LoadSettings) (first : Image) (text : List ℕ) → LoadsSections (M.image memory.old) given first self.old text false → HasOtherTable given first text
            → result ≢ Err in_place_fault.NoMemory }
        ensures table { (self.new.table ≡ self.old.table) × ((M.image memory.new).table ≡ (M.image memory.old).table) }
        ensures open { IsFalse self.new.ended }
        ensures fed { OnOk result (self.new.fed ≡ self.old.fed + length piece.now) }
    {
        if !self.table.same(memory.table()) {
            return Err(InPlaceFault::OtherTable);
        }
        let Some(mut reader) = self.reader.take() else {
            self.fed += piece.len() as u64;
            return Ok(());
        };
        let named = &mut self.named;
        match read_piece(&mut reader, memory, named, &mut self.sections, piece) {
            Ok(own) => {
                self.reader = reader_if(own, reader);
                self.fed += piece.len() as u64;
                Ok(())
            }
            Err(NoMemory) => {
                self.reader = reader_if(true, reader);
                Err(InPlaceFault::NoMemory)
            }
        }
    }
}

impl<A: Allocator> SectionsLoad<A> {
    /// Marks the end of the stream: no piece may be fed after it. A second call changes nothing.
    pub fn end(&mut self)
        ensures value { self.new ≡ record self.old { ended = true } }
        ensures loads { (memory : Image) (given : LoadSettings) (first : Image) (text : List ℕ) (ended : Bool) → LoadsSections memory given first self.old text ended
            → LoadsSections memory given first self.new text true }
    {
        self.ended = true;
    }

    /// Returns whether `end` was called.
    pub fn ended(&self) -> bool
        ensures { result ≡ self.now.ended }
    {
        self.ended
    }

    /// Returns the number of bytes fed.
    pub fn fed(&self) -> u64
        ensures { result ≡ self.now.fed }
    {
        self.fed
    }

    /// Returns whether more of the stream is read: it has the memory's table, or none yet, and
    /// neither its end nor a fault.
    pub fn goes_on(&self) -> bool
        ensures { (memory : Image) (given : LoadSettings) (first : Image) (text : List ℕ) (ended : Bool) → LoadsSections memory given first self.now text ended
            → (IsTrue result ↔ GoesOn given first text) }
    {
        match &self.reader {
            Some(reader) => matches!(reader.state(), StreamState::Reading),
            None => false,
        }
    }

    /// Returns how many of the bytes fed the stream has, once it is closed: those up to its end
    /// byte, or in a machine's stream up to the footer of RAM's END, or up to the first device's
    /// section of a background snapshot. The bytes fed after them are left to the caller.
    ///
    /// None for a stream of another table, which isn't read to its end.
    pub fn closed_at(&self) -> Option<u64>
        ensures { (memory : Image) (given : LoadSettings) (first : Image) (text : List ℕ) (ended : Bool) → LoadsSections memory given first self.now text ended
            → HasClosedAtOnto given first text result }
    {
        match &self.reader {
            Some(reader) => reader.closed_at(),
            None => None,
        }
    }

    /// Returns how many of the bytes fed are complete items without a fault, from the first byte
    /// on. If the verdict is a fault of the stream, the item at fault begins after them.
    ///
    /// None for a stream of another table, which isn't read on: `OtherTable` is a fault of no item.
    pub fn valid_up_to(&self) -> Option<u64>
        ensures { (memory : Image) (given : LoadSettings) (first : Image) (text : List ℕ) (ended : Bool) → LoadsSections memory given first self.now text ended
            → IsValidUpToOnto given first text result }
    {
        match &self.reader {
            Some(reader) => Some(reader.valid_up_to()),
            None => None,
        }
    }

    /// Returns the table of the memory.
    pub fn table(&self) -> &Table<A>
        ensures { result.now ≡ self.now.table }
    {
        &self.table
    }

    /// Returns how many pages of the memory no complete section of the stream named. Once the
    /// stream is closed these are the pages that it doesn't have: the memory holds there what it
    /// held before. All pages lack if the stream has another table.
    ///
    /// A stream can be complete and lack pages: the main stream of a multifd migration without its
    /// channels, or a stream of changes alone. The verdict is Ok then. A whole guest lacks none.
    pub fn missing(&self) -> u64
        ensures { (memory : Image) (given : LoadSettings) (first : Image) (text : List ℕ) (ended : Bool) → LoadsSections memory given first self.now text ended
            → HasMissingSections given first text result }
    {
        lacking(&self.named)
    }

    /// Returns the number of complete sections, START and END among them. The memory has these, and
    /// nothing else.
    pub fn rounds(&self) -> u64
        ensures { result ≡ self.now.sections }
    {
        self.sections
    }

    /// Returns the verdict on the stream as if it ended here.
    ///
    /// # Errors
    ///
    /// - the stream's first fault, or `Truncated` if there is none and the end byte is missing;
    /// - `OtherTable` if the size list is complete and names another table than the memory's.
    pub fn verdict(&self) -> Result<(), LoadFault>
        ensures { (memory : Image) (given : LoadSettings) (first : Image) (text : List ℕ) (ended : Bool) → LoadsSections memory given first self.now text ended
            → HasVerdictOnto given first text result }
    {
        match &self.reader {
            Some(reader) => verdict_at(self.sections, reader.state()),
            None => other_table(),
        }
    }
}

/// What a sender made of the memory's table is loaded completely: the memory has the sender's
/// rounds in it, on top of what it held, and the verdict is Ok.
pub fn sent_is_loaded_by_sections()
    ensures { SentIsLoadedBySections }
{}

/// What a sender wrote of RAM in a machine's stream is loaded so, too, whatever follows RAM's END.
pub fn machine_sent_is_loaded_by_sections()
    ensures { MachineSentIsLoadedBySections }
{}
