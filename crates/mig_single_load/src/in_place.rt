//! The loader of a single stream that is fed in pieces, into existing memory: for hypervisors that
//! lend their blocks.

ghost use Rattle.std.specs.Prelude.{◌≡◌, ◌≢◌, ◌+◌, ◌<◌, ◌≤◌, ◌^◌, ◌++◌, ℕ, Bool, List, [], length, true, false, IsFalse, IsOk, OnOk, OnErr, IfOk, IfErr};
ghost use Rattle.mig_mem.specs.Image.{Image};
ghost use Rattle.mig_stream.specs.Reader.{IsFinal};
ghost use Rattle.mig_load_types.specs.declared.settings.LoadSettings.{LoadSettings};
ghost use Rattle.mig_single_load.specs.SingleLoad.{no_memory_at};
ghost use Rattle.mig_single_load.specs.InPlace.{settings_of, HasMissingOnto, HasVerdictOnto, HasOtherTable};
ghost use Rattle.mig_single_load.specs.LoadInPlace.{LoadsOnto, LacksOnto, HasClosedAtOnto, IsValidUpToOnto, SentIsLoadedInPlace};
ghost use Rattle.mig_single_load.specs.MachineSent.{SentIsLoadedWithin, MachineSentIsLoadedInPlace};

use crate::InPlaceState;
use mig_load_types::{InPlaceFault, LoadFault, LoadSettings};
use mig_mem::{GuestTarget, Memory, NoMemory};
use std::alloc::{Allocator, Global};
use std::fmt::{self, Debug, Formatter};
use std::marker::Model;

/// Loads a guest from the pieces of a single stream into memory that is there already. That may be
/// the blocks of a machine that is to run it (`LentMemoryMut`). It is an `InPlaceState` with its
/// memory: each page is written once, when its bytes have come, on top of what the memory holds,
/// and no section is kept.
///
/// The records of a section that isn't complete are in the memory, too. They stay there if the
/// stream turns out to be bad or cut. The stream must have the memory's table: the same blocks in
/// the same order. Of a stream of another table nothing is written, and the verdict is
/// `OtherTable`.
///
/// # Examples
///
/// A guest is loaded into a memory. `send` feeds what a sender drains:
///
/// <!-- quoted from crates/mig_stream_tests/src/in_place.rt -->
/// ```rust
/// let settings = LoadSettings::new(memory.table().page_size(), MAX_TOTAL);
/// let mut loader = InPlaceLoader::new(alloc, settings, memory).ok()?;
/// send(alloc, guest, dirty, most, &mut loader)?;
/// loader.end();
/// Some((loader.rounds(), loader.verdict()))
/// ```
pub struct InPlaceLoader<A: Allocator = Global, M: GuestTarget = Memory<A>> {
    state: InPlaceState<A>,
    memory: M,
}

// Written out, so that a caller's proof passes a call where a value is dropped.
impl<A: Allocator, M: GuestTarget + Drop> Drop for InPlaceLoader<A, M> {
    fn drop(self) {
        let InPlaceLoader {
            state: _,
            memory: _,
        } = self;
    }
}

impl<A: Allocator, M: GuestTarget> Model for InPlaceLoader<A, M> {
    ghost use Rattle.std.specs.Prelude.{◌≡◌};
    ghost use Rattle.mig_single_load.specs.LoadInPlace.{InPlace, in_place};

    ghost Value = { InPlace };

    ghost view = { λ l. in_place l.state (M.image l.memory) };

    ghost invariant = { λ l. (M.image l.memory).table ≡ l.state.table };
}

/// Prints an opaque value: it holds guest memory.
impl<A: Allocator, M: GuestTarget> Debug for InPlaceLoader<A, M> {
    fn fmt<W: fmt::Write>(&self, f: &mut Formatter<W>) -> fmt::Result {
        f.write_str("InPlaceLoader { .. }")
    }
}

impl<A: Allocator + Copy, M: GuestTarget> InPlaceLoader<A, M> {
    /// Creates a loader into `memory`, whose table it copies, with `settings`. No bytes were fed.
    /// The page size of the settings doesn't count: pages have the size that the memory has. The
    /// limit must be at least the memory's own total.
    ///
    /// # Errors
    ///
    /// The memory, as it was: an allocation was refused.
    pub fn new(alloc: A, settings: LoadSettings, memory: M) -> Result<InPlaceLoader<A, M>, M>
        requires { settings.limit ≤ 2 ^ 40 }
        ensures loads { IfOk result (λ l. LoadsOnto settings (M.image memory) l [] false) }
        ensures first { IfOk result (λ l. l.memory ≡ M.image memory) }
        ensures open { IfOk result (λ l. IsFalse l.load.ended) }
        ensures fed { IfOk result (λ l. l.load.fed ≡ 0) }
        ensures err { IfErr result (λ m. M.image m ≡ M.image memory) }
    {
        let Ok(state) = InPlaceState::new(alloc, settings, memory.table()) else {
            return Err(memory);
        };
        Ok(InPlaceLoader { state, memory })
    }

    /// Reads the next piece of the stream, and writes its page records. After the end byte, a
    /// fault, another table or a refused allocation nothing more is read: the bytes are only
    /// counted, and the call never fails.
    ///
    /// # Errors
    ///
    /// `NoMemory`: an allocation was refused. The load has failed for good: the verdict is
    /// `NoMemory` from now on, and the piece can't be fed again. The memory has the first of the
    /// stream's page records, in their order.
    pub fn feed(&mut self, piece: &[u8]) -> Result<(), NoMemory>
        requires open { IsFalse self.old.load.ended }
        requires room { self.old.load.fed + length piece.now < 2 ^ 63 }
        ensures ok { OnOk result ((given : LoadSettings) (first : Image) (text : List ℕ) → LoadsOnto given first self.old text false
            → LoadsOnto given first self.new (text ++ piece.now) false) }
        ensures settled { (given : LoadSettings) (first : Image) (text : List ℕ) → LoadsOnto given first self.old text false → IsFinal (settings_of first given) text → IsOk result }
        ensures another { (given : LoadSettings) (first : Image) (text : List ℕ) → LoadsOnto given first self.old text false → HasOtherTable given first text → IsOk result }
        ensures failed { OnErr result ((given : LoadSettings) (first : Image) (text : List ℕ) → LoadsOnto given first self.old text false
            → LacksOnto given first self.new (text ++ piece.now) false) }
        ensures lacking { (given : LoadSettings) (first : Image) (text : List ℕ) → LacksOnto given first self.old text false
            → LacksOnto given first self.new (text ++ piece.now) false × IsOk result }
        ensures open { IsFalse self.new.load.ended }
        ensures fed { self.new.load.fed ≡ self.old.load.fed + length piece.now }
    {
        let Err(fault) = self.state.feed(&mut self.memory, piece) else {
            return Ok(());
        };
        match fault {
            InPlaceFault::NoMemory => Err(NoMemory),
            InPlaceFault::OtherTable => unreachable!(),
        }
    }
}

impl<A: Allocator, M: GuestTarget> InPlaceLoader<A, M> {
    /// Marks the end of the stream: no piece may be fed after it. A second call changes nothing.
    pub fn end(&mut self)
        ensures value { self.new ≡ record self.old { load = record self.old.load { ended = true } } }
        ensures loads { (given : LoadSettings) (first : Image) (text : List ℕ) (ended : Bool) → LoadsOnto given first self.old text ended → LoadsOnto given first self.new text true }
    {
        self.state.end();
    }

    /// Returns whether `end` was called.
    pub fn ended(&self) -> bool
        ensures { result ≡ self.now.load.ended }
    {
        self.state.ended()
    }

    /// Returns the number of bytes fed.
    pub fn fed(&self) -> u64
        ensures { result ≡ self.now.load.fed }
    {
        self.state.fed()
    }

    /// Returns how many of the bytes fed the stream has, once it is closed: those up to its end
    /// byte, or in a machine's stream up to the footer of RAM's END, or up to the first device's
    /// section of a background snapshot. The bytes fed after them are left to the caller.
    ///
    /// None for a stream of another table, which isn't read to its end, and after a refused
    /// allocation.
    pub fn closed_at(&self) -> Option<u64>
        ensures loads { (given : LoadSettings) (first : Image) (text : List ℕ) (ended : Bool) → LoadsOnto given first self.now text ended → HasClosedAtOnto given first text result }
        ensures lacking { (given : LoadSettings) (first : Image) (text : List ℕ) (ended : Bool) → LacksOnto given first self.now text ended → result ≡ None }
    {
        self.state.closed_at()
    }

    /// Returns how many of the bytes fed are complete items without a fault, from the first byte
    /// on. If the verdict is a fault of the stream, the item at fault begins after them.
    ///
    /// None for a stream of another table, which isn't read on, and after a refused allocation:
    /// `OtherTable` and `NoMemory` are faults of no item.
    pub fn valid_up_to(&self) -> Option<u64>
        ensures loads { (given : LoadSettings) (first : Image) (text : List ℕ) (ended : Bool) → LoadsOnto given first self.now text ended → IsValidUpToOnto given first text result }
        ensures lacking { (given : LoadSettings) (first : Image) (text : List ℕ) (ended : Bool) → LacksOnto given first self.now text ended → result ≡ None }
    {
        self.state.valid_up_to()
    }

    /// Returns the memory after the page records so far.
    pub fn memory(&self) -> &M
        ensures { M.image result.now ≡ self.now.memory }
    {
        &self.memory
    }

    /// Returns how many pages of the memory no record of the stream so far named, as
    /// `InPlaceState::missing` does.
    pub fn missing(&self) -> u64
        ensures { (given : LoadSettings) (first : Image) (text : List ℕ) (ended : Bool) → LoadsOnto given first self.now text ended → HasMissingOnto given first text result }
    {
        self.state.missing()
    }

    /// Returns the number of complete sections, START and END among them. The memory has all of
    /// them, and may have records of the section after them.
    pub fn rounds(&self) -> u64
        ensures { result ≡ self.now.load.rounds }
    {
        self.state.rounds()
    }

    /// Returns the verdict on the stream as if it ended here.
    ///
    /// # Errors
    ///
    /// - the stream's first fault; `Truncated` if it has none, and the end byte is missing;
    /// - `OtherTable` if the size list is complete and names another table than the memory's;
    /// - `NoMemory` if an allocation was refused in a `feed`.
    pub fn verdict(&self) -> Result<(), LoadFault>
        ensures loads { (given : LoadSettings) (first : Image) (text : List ℕ) (ended : Bool) → LoadsOnto given first self.now text ended → HasVerdictOnto given first text result }
        ensures lacking { (given : LoadSettings) (first : Image) (text : List ℕ) (ended : Bool) → LacksOnto given first self.now text ended → result ≡ no_memory_at self.now.load.rounds }
    {
        self.state.verdict()
    }

    /// Returns the memory.
    pub fn into_memory(self) -> M
        ensures { M.image result ≡ self.memory }
    {
        let InPlaceLoader { memory, state: _ } = self;
        memory
    }
}

/// The stream that a sender made of the memory's table is loaded completely: the memory has the
/// sender's rounds in it, on top of what it held, and the verdict is Ok.
pub fn sent_is_loaded_in_place()
    ensures sent { SentIsLoadedInPlace }
    ensures within { SentIsLoadedWithin }
{}

/// What a sender wrote of RAM in a machine's stream is loaded so, too, whatever follows RAM's END.
pub fn machine_sent_is_loaded_in_place()
    ensures { MachineSentIsLoadedInPlace }
{}
