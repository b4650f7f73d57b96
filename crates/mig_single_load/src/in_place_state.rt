//! The load in place of a single stream: it writes each page when its bytes have come, before its
//! section is judged. What it keeps between two calls is all but the memory.

ghost use Rattle.std.specs.Prelude.{◌≡◌, ◌≢◌, ◌+◌, ◌<◌, ◌≤◌, ◌^◌, ◌++◌, ◌↔◌, ◌⊎◌, ℕ, Bool, List, [], length, true, false, Some, None, Err, IsTrue, IsFalse, IsSome, IsOk, IfSome, IfOk, OnOk, OnErr};
ghost use Rattle.std.specs.Option.{option_copied};
ghost use Rattle.mig_mem.specs.RamTable.{RamTable};
ghost use Rattle.mig_mem.specs.Image.{Image, IsImage, with_page};
ghost use Rattle.mig_mem.specs.Place.{IsPlace};
ghost use Rattle.mig_stream.specs.Progress.{whole_table};
ghost use Rattle.mig_stream.specs.Reader.{IsFinal};
ghost use Rattle.mig_stream.specs.Giving.{Giver, GivenSoFar, Gives};
ghost use Rattle.mig_load_types.specs.declared.fault.InPlaceFault.TheVariants as in_place_fault;
ghost use Rattle.mig_single_load.specs.declared.in_place_state.LoadState.TheVariants as load_state;
ghost use Rattle.mig_load_types.specs.declared.settings.LoadSettings.{LoadSettings};
ghost use Rattle.mig_single_load.specs.SingleLoad.{no_memory_at};
ghost use Rattle.mig_single_load.specs.InPlace.{settings_of, HasMissingOnto, HasVerdictOnto, HasOtherTable};
ghost use Rattle.mig_single_load.specs.LoadInPlace.{InPlaceKeepsOtherPlaces, InPlaceOkIsWhole, LoadsInPlace, settings_for, GaveNext, PutsNextSome, PutsAll, GivesAll, NamesAll, IsEnd, PausesSome, PausesOnto, StandsOnto, NamesAt, Names, PutsSome, HasSomeOnto, LacksMemory, closed_place, valid_place, HasClosedAtOnto, IsValidUpToOnto};
ghost use Rattle.mig_single_load.specs.ComesNext.{page_wanted, page_asked, ComesNext};

use crate::settle::{no_memory, other_table, verdict_at};
use mig_assemble::{name_records, put_records};
use mig_load_types::{InPlaceFault, LoadFault, LoadSettings};
use mig_marking::lacking;
use mig_mem::{Dirty, GuestTarget, NoMemory, Table};
use mig_stream::{Pause, RecordEvent, RecordReader, StreamState, Wanted};
use std::alloc::{Allocator, Global};
use std::fmt::{self, Debug, Formatter};
use std::marker::Model;

/// The state of a load in place.
#[derive(Clone, Copy)]
pub(crate) enum LoadState {
    /// The state of the stream, and how many of its bytes are complete items without a fault. More
    /// of it is read only while the state is `Reading`.
    Stream(StreamState, u64),
    /// The stream has another table than the memory, and isn't read further.
    OtherTable,
    /// An allocation was refused, and the stream isn't read further.
    NoMemory,
}

/// Loads a guest from the pieces of a single stream into memory that is passed with each piece. It
/// writes each page once, when its bytes have arrived. No section is kept: between two calls the
/// load holds the beginning of one item of the stream at most, and a bit for each page.
///
/// At any time the memory has all page records read so far, on top of what it held at first. Those
/// of a section that isn't complete are there, too. They stay there if the stream turns out to be
/// bad or cut. A `SingleLoader` writes complete sections only, into a memory of its own. An
/// `InPlaceLoader` is this with its memory.
///
/// Each piece is fed with the memory as the piece before left it. The stream must have the memory's
/// table: the same blocks in the same order. No page of a stream of another table is written, and
/// the verdict is `OtherTable`.
///
/// # Examples
///
/// A stream is fed in pieces of `len` bytes. After each piece the memory has the page records so
/// far. `feed` tests what the contract of `InPlaceState::feed` requires:
///
/// <!-- quoted from crates/mig_relay_tests/src/in_place.rt -->
/// ```rust
/// let settings = LoadSettings::new(4096, LIMIT);
/// let mut state = InPlaceState::new(rt.alloc(), settings, memory.table()).expect(rt, "a load");
/// for piece in text.chunks(len.max(1)) {
///     assert!(rt; feed(rt, &mut state, &mut memory, piece) == Ok(()));
///     let fed = state.fed();
///     assert!(rt; bytes_of(rt, &memory) == bytes_after(fed));
///     assert!(rt; (state.rounds(), state.verdict()) == (sections_after(fed), verdict_after(fed)));
/// }
/// assert!(rt; state.fed() == LEN && state.verdict() == Ok(()));
/// ```
pub struct InPlaceState<A: Allocator = Global> {
    // where the next piece is read on; None once no more is read
    pause: Option<Pause<A>>,
    state: LoadState,
    // the memory's table
    table: Table<A>,
    // the places that the records so far named
    named: Dirty<A>,
    // complete sections
    rounds: u64,
    fed: u64,
    ended: bool,
}

// Written out, so that a caller's proof passes a call where a value is dropped.
impl<A: Allocator> Drop for InPlaceState<A> {
    fn drop(self) {
        let InPlaceState {
            pause: _,
            state: _,
            table: _,
            named: _,
            rounds: _,
            fed: _,
            ended: _,
        } = self;
    }
}

impl<A: Allocator> Model for InPlaceState<A> {
    ghost use Rattle.mig_single_load.specs.LoadInPlace.{LoadInPlace, load_in_place, IsLoadInPlace};

    ghost Value = { LoadInPlace };

    ghost view = { λ s. load_in_place s.pause s.state s.table s.named s.rounds s.fed s.ended };

    ghost invariant = { λ s. IsLoadInPlace (load_in_place s.pause s.state s.table s.named s.rounds s.fed s.ended) };
}

/// Prints an opaque value: it holds guest memory.
impl<A: Allocator> Debug for InPlaceState<A> {
    fn fmt<W: fmt::Write>(&self, f: &mut Formatter<W>) -> fmt::Result {
        f.write_str("InPlaceState { .. }")
    }
}

// Reads until the table is known, or to the end of the bytes. Returns what the reader gave last.
fn find_table<A: Allocator + Copy>(
    reader: &mut RecordReader<'_, A>,
) -> Result<RecordEvent, NoMemory>
    requires { reader.old.given.records ≡ [] }
    ensures gave { IfOk result (λ gave. (given : LoadSettings) (table : RamTable) (text : List ℕ) (so_far : GivenSoFar) → Gives (settings_for table given) text so_far reader.old
        → reader.old.given.page_size ≡ table.page_size → GaveNext given table text so_far gave reader.new) }
    ensures there { IfOk result (λ gave. IsEnd gave ⊎ (whole_table reader.new.progress ≢ None)) }
{
    let mut gave = RecordEvent::Records;
    'items: while reader.table().is_none() {
        gave = reader.read_on()?;
        if let RecordEvent::End(_) = gave {
            return Ok(gave);
        }
    }
    Ok(gave)
}

// Returns whether the stream has another table than the memory. False while its table isn't known.
fn is_of_other_table<A: Allocator, M: GuestTarget>(reader: &RecordReader<'_, A>, memory: &M) -> bool
    ensures other { IsTrue result → (table : RamTable) × (whole_table reader.now.progress ≡ Some table) × (table ≢ (M.image memory.now).table) }
    ensures own { IsFalse result → (whole_table reader.now.progress ≡ None) ⊎ (whole_table reader.now.progress ≡ Some (M.image memory.now).table) }
{
    match reader.table() {
        Some(table) => !table.same(memory.table()),
        None => false,
    }
}

// Writes the records that the reader gave last, and all that it gives next, into a memory of the
// stream's table, adds their places to `named`, and counts the sections that they complete. Returns
// the state of the stream.
fn put_given<A: Allocator + Copy, M: GuestTarget>(
    reader: &mut RecordReader<'_, A>,
    first: RecordEvent,
    memory: &mut M,
    named: &mut Dirty<A>,
    sections: &mut u64,
) -> Result<StreamState, NoMemory>
    requires some { PutsNextSome (M.image memory.old).table first reader.old sections.old }
    requires named { named.old.table ≡ (M.image memory.old).table }
    ensures ok { IfOk result (λ found. PutsAll first reader.old (M.image memory.old) sections.old found reader.new (M.image memory.new) sections.new) }
    ensures gives { IfOk result (λ found. GivesAll first reader.old sections.old found reader.new sections.new) }
    ensures names { IfOk result (λ found. NamesAll first reader.old named.old sections.old found reader.new named.new sections.new) }
    ensures err { OnErr result (PutsSome first reader.old (M.image memory.old) sections.old (M.image memory.new) sections.new) }
    ensures table { (M.image memory.new).table ≡ (M.image memory.old).table }
    ensures named_table { named.new.table ≡ named.old.table }
{
    let mut gave = first;
    'records: loop {
        match gave {
            RecordEvent::Records => {}
            RecordEvent::Section => *sections += 1,
            RecordEvent::End(found) => return Ok(found),
        }
        put_records(memory, reader.given());
        name_records(named, reader.given());
        gave = reader.read_on()?;
    }
}

// Reads a piece after a pause, writes its records, and adds their places to `named`. Returns the
// state of the load, and the next pause if the stream goes on.
fn load_piece<A: Allocator + Copy, M: GuestTarget>(
    pause: Pause<A>,
    piece: &[u8],
    memory: &mut M,
    named: &mut Dirty<A>,
    sections: &mut u64,
) -> Result<(Option<Pause<A>>, LoadState), NoMemory>
    requires named { named.old.table ≡ (M.image memory.old).table }
    requires some { (given : LoadSettings) × (fed : ℕ) × PausesSome given (M.image memory.old).table pause sections.old fed × (fed + length piece.now < 2 ^ 63) }
    ensures ok { IfOk result (λ r. (given : LoadSettings) (first : Image) (text : List ℕ) → IsImage first → PausesOnto given first text pause (M.image memory.old) sections.old
        → length (text ++ piece.now) < 2 ^ 64 → StandsOnto given first (text ++ piece.now) (M.image memory.new) sections.new r.0 r.1) }
    ensures some { IfOk result (λ r. (given : LoadSettings) (fed : ℕ) → PausesSome given (M.image memory.old).table pause sections.old fed
        → IfSome r.0 (λ p. PausesSome given (M.image memory.old).table p sections.new (fed + length piece.now))) }
    ensures err { OnErr result ((given : LoadSettings) (first : Image) (text : List ℕ) → PausesOnto given first text pause (M.image memory.old) sections.old
        → HasSomeOnto given first (text ++ piece.now) (M.image memory.new) sections.new) }
    ensures names { IfOk result (λ r. (given : LoadSettings) (first : Image) (text : List ℕ) → first.table ≡ (M.image memory.old).table → NamesAt given first text pause named.old sections.old
        → Names given first (text ++ piece.now) named.new sections.new r.0) }
    ensures table { (M.image memory.new).table ≡ (M.image memory.old).table }
    ensures named_table { named.new.table ≡ named.old.table }
{
    let mut reader = pause.resume(piece);
    let gave = find_table(&mut reader)?;
    if is_of_other_table(&reader, memory) {
        return Ok((None, LoadState::OtherTable));
    }
    let found = put_given(&mut reader, gave, memory, named, sections)?;
    let state = LoadState::Stream(found, reader.valid_up_to());
    match found {
        StreamState::Reading => Ok((Some(reader.pause()?), state)),
        _ => Ok((None, state)),
    }
}

// Returns where the stream is closed.
fn closed_in(state: LoadState) -> Option<u64>
    ensures { result ≡ closed_place state }
{
    match state {
        LoadState::Stream(StreamState::Closed, at) => Some(at),
        _ => None,
    }
}

// Returns up to which byte the stream is valid, as long as it is read as one of the memory's table.
fn valid_in(state: LoadState) -> Option<u64>
    ensures { result ≡ valid_place state }
{
    match state {
        LoadState::Stream(_, at) => Some(at),
        LoadState::OtherTable | LoadState::NoMemory => None,
    }
}

impl<A: Allocator + Copy> InPlaceState<A> {
    /// Creates a load into a memory of `table`, which it copies, with `settings`. Their page size
    /// doesn't count: pages have the size that `table` has. The limit must be at least the table's
    /// own total.
    ///
    /// # Errors
    ///
    /// `NoMemory`: an allocation was refused.
    pub fn new<B: Allocator>(
        alloc: A,
        settings: LoadSettings,
        table: &Table<B>,
    ) -> Result<InPlaceState<A>, NoMemory>
        requires { settings.limit ≤ 2 ^ 40 }
        ensures loads { IfOk result (λ s. (first : Image) → IsImage first → first.table ≡ table.now → LoadsInPlace first settings first s [] false) }
        ensures table { IfOk result (λ s. s.table ≡ table.now) }
        ensures open { IfOk result (λ s. IsFalse s.ended) }
        ensures fed { IfOk result (λ s. s.fed ≡ 0) }
    {
        table.keeps_limits();
        let page_size = table.page_size();
        let named = Dirty::none(alloc, table)?;
        let table = table.copy_in(alloc)?;
        Ok(InPlaceState {
            pause: Some(Pause::new(
                alloc,
                settings.frame,
                page_size,
                settings.limit,
                settings.waiting,
            )),
            state: LoadState::Stream(StreamState::Reading, 0),
            table,
            named,
            rounds: 0,
            fed: 0,
            ended: false,
        })
    }

    /// Reads the next piece of the stream, and writes its page records into the memory. After the
    /// end byte, a fault, another table or a refused allocation nothing more is read: the bytes are
    /// only counted, and the call never fails with `NoMemory`.
    ///
    /// # Errors
    ///
    /// - `OtherTable`: `memory` has another table than the load. Nothing has changed.
    /// - `NoMemory`: an allocation was refused. The load has failed for good: the verdict is
    ///   `NoMemory` from now on, and the piece can't be fed again. The memory has the first of the
    ///   stream's page records, in their order.
    pub fn feed<M: GuestTarget>(&mut self, memory: &mut M, piece: &[u8]) -> Result<(), InPlaceFault>
        requires open { IsFalse self.old.ended }
        requires room { self.old.fed + length piece.now < 2 ^ 63 }
        ensures ok { OnOk result ((given : LoadSettings) (first : Image) (text : List ℕ) → LoadsInPlace (M.image memory.old) given first self.old text false
            → LoadsInPlace (M.image memory.new) given first self.new (text ++ piece.now) false) }
        ensures other { (result ≡ Err in_place_fault.OtherTable) ↔ ((M.image memory.old).table ≢ self.old.table) }
        ensures unchanged { result ≡ Err in_place_fault.OtherTable → (self.new ≡ self.old) × (M.image memory.new ≡ M.image memory.old) }
        ensures failed { result ≡ Err in_place_fault.NoMemory → (given : LoadSettings) (first : Image) (text : List ℕ) → LoadsInPlace (M.image memory.old) given first self.old text false
            → LacksMemory (M.image memory.new) given first self.new (text ++ piece.now) false }
        ensures lacking { result ≢ Err in_place_fault.OtherTable → (given : LoadSettings) (first : Image) (text : List ℕ) → LacksMemory (M.image memory.old) given first self.old text false
            → LacksMemory (M.image memory.new) given first self.new (text ++ piece.now) false × IsOk result }
        ensures settled { (given : LoadSettings) (first : Image) (text : List ℕ) → LoadsInPlace (M.image memory.old) given first self.old text false → IsFinal (settings_of first given) text
            → result ≢ Err in_place_fault.NoMemory }
        ensures another { (given : LoadSettings) (first : Image) (text : List ℕ) → LoadsInPlace (M.image memory.old) given first self.old text false → HasOtherTable given first text
            → result ≢ Err in_place_fault.NoMemory }
        ensures table { (self.new.table ≡ self.old.table) × ((M.image memory.new).table ≡ (M.image memory.old).table) }
        ensures open { IsFalse self.new.ended }
        ensures fed { result ≢ Err in_place_fault.OtherTable → self.new.fed ≡ self.old.fed + length piece.now }
    {
        if !self.table.same(memory.table()) {
            return Err(InPlaceFault::OtherTable);
        }
        self.fed += piece.len() as u64;
        let Some(pause) = self.pause.take() else {
            return Ok(());
        };
        let named = &mut self.named;
        match load_piece(pause, piece, memory, named, &mut self.rounds) {
            Ok((pause, state)) => {
                self.pause = pause;
                self.state = state;
                Ok(())
            }
            Err(NoMemory) => {
                self.state = LoadState::NoMemory;
                Err(InPlaceFault::NoMemory)
            }
        }
    }

    /// Returns what the next bytes of the stream are, so that its caller reads a page straight to
    /// where it belongs. None once no more of it is read: after its end, a fault, another table or
    /// a refused allocation.
    ///
    /// A caller that has `Bytes` reads no more than those, and feeds them. One that has a `Page`
    /// reads its content into the memory, and calls `take_page`, or feeds it as any other bytes. So
    /// no byte after the stream is read, and none of a page is copied.
    pub fn wanted(&self) -> Option<Wanted>
        ensures page { page_asked result ≡ page_wanted self.now }
        ensures place { IfSome (page_wanted self.now) (λ place. IsPlace self.now.table place) }
        ensures loads { (memory : Image) (given : LoadSettings) (first : Image) (text : List ℕ) (ended : Bool) → LoadsInPlace memory given first self.now text ended
            → ComesNext given first text result }
        ensures lacking { (memory : Image) (given : LoadSettings) (first : Image) (text : List ℕ) (ended : Bool) → LacksMemory memory given first self.now text ended
            → result ≡ None }
    {
        match &self.pause {
            Some(pause) => Some(pause.wanted()),
            None => None,
        }
    }

    /// Takes the content of the page that is wanted, all of it, as the next bytes of the stream.
    /// The caller has read them into that page of the memory. They aren't looked at and not kept.
    ///
    /// It allocates nothing, and can't fail.
    pub fn take_page(&mut self, content: &[u8])
        requires open { IsFalse self.old.ended }
        requires wanted { IsSome (page_wanted self.old) }
        requires len { length content.now ≡ self.old.table.page_size }
        requires room { self.old.fed + length content.now < 2 ^ 63 }
        ensures loads { IfSome (page_wanted self.old) (λ place. (memory : Image) (given : LoadSettings) (first : Image) (text : List ℕ) → LoadsInPlace memory given first self.old text false
            → LoadsInPlace (with_page memory place content.now) given first self.new (text ++ content.now) false) }
        ensures table { self.new.table ≡ self.old.table }
        ensures rounds { self.new.rounds ≡ self.old.rounds }
        ensures open { IsFalse self.new.ended }
        ensures fed { self.new.fed ≡ self.old.fed + length content.now }
    {
        let Some(mut pause) = self.pause.take() else {
            unreachable!();
        };
        let Wanted::Page(place) = pause.wanted() else {
            unreachable!();
        };
        let Ok(_) = self.named.mark(place) else {
            unreachable!();
        };
        pause.take_page(content);
        self.state = LoadState::Stream(StreamState::Reading, pause.valid_up_to());
        self.pause = Some(pause);
        self.fed += content.len() as u64;
    }
}

impl<A: Allocator> InPlaceState<A> {
    /// Marks the end of the stream: no piece may be fed after it. A second call changes nothing.
    pub fn end(&mut self)
        ensures value { self.new ≡ record self.old { ended = true } }
        ensures loads { (memory : Image) (given : LoadSettings) (first : Image) (text : List ℕ) (ended : Bool) → LoadsInPlace memory given first self.old text ended
            → LoadsInPlace memory given first self.new text true }
    {
        self.ended = true;
    }

    /// Returns whether `end` was called.
    pub fn ended(&self) -> bool
        ensures { result ≡ self.now.ended }
    {
        self.ended
    }

    /// Returns the number of bytes fed.
    pub fn fed(&self) -> u64
        ensures { result ≡ self.now.fed }
    {
        self.fed
    }

    /// Returns how many of the bytes fed the stream has, once it is closed: those up to its end
    /// byte, or in a machine's stream up to the footer of RAM's END, or up to the first device's
    /// section of a background snapshot. The bytes fed after them are left to the caller.
    ///
    /// None for a stream of another table, which isn't read to its end, and after a refused
    /// allocation.
    pub fn closed_at(&self) -> Option<u64>
        ensures loads { (memory : Image) (given : LoadSettings) (first : Image) (text : List ℕ) (ended : Bool) → LoadsInPlace memory given first self.now text ended
            → HasClosedAtOnto given first text result }
        ensures lacking { (memory : Image) (given : LoadSettings) (first : Image) (text : List ℕ) (ended : Bool) → LacksMemory memory given first self.now text ended
            → result ≡ None }
    {
        closed_in(self.state)
    }

    /// Returns how many of the bytes fed are complete items without a fault, from the first byte
    /// on. If the verdict is a fault of the stream, the item at fault begins after them.
    ///
    /// None for a stream of another table, which isn't read on, and after a refused allocation:
    /// `OtherTable` and `NoMemory` are faults of no item.
    pub fn valid_up_to(&self) -> Option<u64>
        ensures loads { (memory : Image) (given : LoadSettings) (first : Image) (text : List ℕ) (ended : Bool) → LoadsInPlace memory given first self.now text ended
            → IsValidUpToOnto given first text result }
        ensures lacking { (memory : Image) (given : LoadSettings) (first : Image) (text : List ℕ) (ended : Bool) → LacksMemory memory given first self.now text ended
            → result ≡ None }
    {
        valid_in(self.state)
    }

    /// Returns the table of the memory.
    pub fn table(&self) -> &Table<A>
        ensures { result.now ≡ self.now.table }
    {
        &self.table
    }

    /// Returns how many pages of the memory no record of the stream so far named, those of the
    /// section that isn't complete included. Once the stream is closed these are the pages that it
    /// doesn't have: the memory holds there what it held before.
    ///
    /// A stream can be complete and lack pages: the main stream of a multifd migration without its
    /// channels, or a stream of changes alone. The verdict is Ok then. A whole guest lacks none.
    /// All pages lack if the stream has another table. Nothing is promised after a refused
    /// allocation.
    pub fn missing(&self) -> u64
        ensures { (memory : Image) (given : LoadSettings) (first : Image) (text : List ℕ) (ended : Bool) → LoadsInPlace memory given first self.now text ended
            → HasMissingOnto given first text result }
    {
        lacking(&self.named)
    }

    /// Returns the number of complete sections, START and END among them. The memory has all of
    /// them, and may have records of the section after them.
    pub fn rounds(&self) -> u64
        ensures { result ≡ self.now.rounds }
    {
        self.rounds
    }

    /// Returns the verdict on the stream as if it ended here.
    ///
    /// # Errors
    ///
    /// - the stream's first fault, or `Truncated` if there is none and the end byte is missing;
    /// - `OtherTable` if the size list is complete and names another table than the memory's;
    /// - `NoMemory` if an allocation was refused in a `feed`.
    pub fn verdict(&self) -> Result<(), LoadFault>
        ensures lacking { (memory : Image) (given : LoadSettings) (first : Image) (text : List ℕ) (ended : Bool) → LacksMemory memory given first self.now text ended
            → result ≡ no_memory_at self.now.rounds }
        ensures loads { (memory : Image) (given : LoadSettings) (first : Image) (text : List ℕ) (ended : Bool) → LoadsInPlace memory given first self.now text ended
            → HasVerdictOnto given first text result }
    {
        match self.state {
            LoadState::Stream(found, _) => verdict_at(self.rounds, found),
            LoadState::OtherTable => other_table(),
            LoadState::NoMemory => no_memory(self.rounds),
        }
    }
}

/// A load in place writes no page but those that the stream has a record of: a place without a
/// record in the section that isn't complete holds what the complete sections left there.
pub fn in_place_keeps_other_places()
    ensures { InPlaceKeepsOtherPlaces }
{}

/// A load in place whose verdict is Ok gives the complete sections of the stream, on top of what
/// the memory held first, and nothing else.
pub fn in_place_ok_is_whole()
    ensures { InPlaceOkIsWhole }
{}
