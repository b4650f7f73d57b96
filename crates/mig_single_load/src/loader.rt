//! The loader of a single stream that is fed in pieces, into a memory of its own: for callers that
//! read from a connection.

ghost use Rattle.std.specs.Prelude.{◌≡◌, ◌⊎◌, ◌+◌, ◌<◌, ◌≤◌, ◌^◌, ◌++◌, ℕ, Bool, List, [], length, All, None, true, false, IsFalse, IsOk, OnOk, OnErr, IfErr};
ghost use Rattle.std.specs.Option.{option_copied};
ghost use Rattle.mig_mem.specs.PageSize.{IsPageSize};
ghost use Rattle.mig_mem.specs.RamTable.{RamTable, IsTable};
ghost use Rattle.mig_mem.specs.Image.{Page};
ghost use Rattle.mig_mem.specs.Round.{IsRound};
ghost use Rattle.mig_stream.specs.declared.item.Frame.TheVariants.{Ram, Machine};
ghost use Rattle.mig_stream.specs.Reader.{IsFinal, HasClosedAt, IsValidUpTo};
ghost use Rattle.mig_stream.specs.Text.{total_bytes};
ghost use Rattle.mig_stream.specs.Written.{single};
ghost use Rattle.mig_load_types.specs.declared.fault.FeedFault.TheVariants.{NoMemory as fault_no_memory, NoGuestMemory as fault_no_guest_memory};
ghost use Rattle.mig_load_types.specs.declared.settings.LoadSettings.{LoadSettings};
ghost use Rattle.mig_load_types.specs.Settings.{ram_settings, single_of, LetsThrough};
ghost use Rattle.mig_single_load.specs.SingleLoad.{HasLoadedRounds, unloaded};
ghost use Rattle.mig_single_load.specs.MachineSent.{IsSent, IsMachineSent};
ghost use Rattle.mig_single_load.specs.Loader.{memory_of, sections_loaded, HasAllSections, Waits, Loads, Judges, TellsMissing, Answers};

use crate::filling::Filling;
use crate::settle::{answer, settle, verdict};
use mig_load_types::{FeedFault, LoadFault, LoadSettings, Loaded};
use mig_marking::lacking;
use mig_mem::{Memory, NoMemory};
use mig_stream::{Mode, StreamReader};
use std::alloc::{Allocator, Global};
use std::fmt::{self, Debug, Formatter};
use std::marker::Model;

/// Loads a guest from the pieces of a single stream. Each section is applied by the call that
/// brings its footer, and its buffers are freed.
///
/// So between calls a loader holds the guest, a bit for each page, and the pages of one section,
/// which isn't complete. If an allocation was refused it may also hold sections that wait. In a
/// call it also holds the pages of the piece.
///
/// # Examples
///
/// A machine's stream is loaded in pieces of `len` bytes:
///
/// <!-- quoted from crates/mig_uses/src/machine.rt -->
/// ```rust
/// let settings = LoadSettings::new(PAGE_SIZE_4K, MAX_TOTAL).with_frame(Frame::Machine);
/// let mut loader = SingleLoader::new(alloc, settings);
/// for piece in text.chunks(len.max(1)) {
///     if loader.ended() || loader.fed() > MAX_TOTAL || piece.len() as u64 > MAX_TOTAL {
///         return Err(Trouble::Input);
///     }
///     loader.feed(piece).ok().ok_or(Trouble::NoMemory)?;
/// }
/// Ok(loader.finish())
/// ```
pub struct SingleLoader<A: Allocator = Global> {
    alloc: A,
    reader: StreamReader<'static, A>,
    // created once the table is there
    target: Option<Filling<A>>,
}

// Written out, so that a caller's proof passes a call where a value is dropped.
impl<A: Allocator> Drop for SingleLoader<A> {
    fn drop(self) {
        let SingleLoader {
            alloc: _,
            reader: _,
            target: _,
        } = self;
    }
}

impl<A: Allocator> Model for SingleLoader<A> {
    ghost use Rattle.mig_single_load.specs.Loader.{Loader, loader, LoadsSome};

    ghost Value = { Loader };

    ghost view = { λ l. loader l.reader l.target };

    ghost invariant = { λ l. LoadsSome (loader l.reader l.target) };
}

/// Prints an opaque value: it holds guest memory.
impl<A: Allocator> Debug for SingleLoader<A> {
    fn fmt<W: fmt::Write>(&self, f: &mut Formatter<W>) -> fmt::Result {
        f.write_str("SingleLoader { .. }")
    }
}

impl<A: Allocator + Copy> SingleLoader<A> {
    /// Creates a loader of a stream that is read with `settings`. No bytes were fed.
    pub fn new(alloc: A, settings: LoadSettings) -> SingleLoader<A>
        requires page_size { IsPageSize settings.page_size }
        requires limit { settings.limit ≤ 2 ^ 40 }
        ensures loads { Loads settings result [] false }
        ensures sections { HasAllSections settings result [] }
        ensures open { IsFalse result.reader.ended }
        ensures fed { result.reader.fed ≡ 0 }
    {
        SingleLoader {
            alloc,
            reader: StreamReader::new_with(
                alloc,
                settings.frame,
                Mode::Single,
                settings.page_size,
                settings.limit,
                settings.waiting,
            ),
            target: None,
        }
    }

    /// Takes the next piece of the stream, and applies the sections that it completes. After the
    /// end byte, or a fault, the piece's bytes are only counted, and `NoMemory` isn't returned.
    ///
    /// # Errors
    ///
    /// - `NoMemory`: an allocation was refused. Nothing changes, and the piece can be fed again.
    /// - `NoGuestMemory`: the piece was taken, and the guest's memory couldn't be allocated. The
    ///   sections wait for `settle`, or for the next piece.
    pub fn feed(&mut self, piece: &[u8]) -> Result<(), FeedFault>
        requires open { IsFalse self.old.reader.ended }
        requires room { self.old.reader.fed + length piece.now < 2 ^ 63 }
        ensures ok { OnOk result ((given : LoadSettings) (text : List ℕ) → Loads given self.old text false
            → Loads given self.new (text ++ piece.now) false × HasAllSections given self.new (text ++ piece.now)) }
        ensures refused { IfErr result (λ fault. fault ≡ fault_no_memory → self.new ≡ self.old) }
        ensures waiting { IfErr result (λ fault. fault ≡ fault_no_guest_memory → (given : LoadSettings) (text : List ℕ) → Loads given self.old text false
            → Loads given self.new (text ++ piece.now) false × Waits given self.new (text ++ piece.now)) }
        ensures open { IsFalse self.new.reader.ended }
        ensures settled { IfErr result (λ fault. fault ≡ fault_no_memory → (given : LoadSettings) (text : List ℕ) → Loads given self.old text false
            → IsFinal (single_of given) text → ⊥) }
        ensures fed { OnOk result (self.new.reader.fed ≡ self.old.reader.fed + length piece.now) }
        ensures counted { IfErr result (λ fault. fault ≡ fault_no_guest_memory → self.new.reader.fed ≡ self.old.reader.fed + length piece.now) }
    {
        let Ok(()) = self.reader.feed(piece) else {
            return Err(FeedFault::NoMemory);
        };
        let Ok(()) = settle(self.alloc, &mut self.reader, &mut self.target) else {
            return Err(FeedFault::NoGuestMemory);
        };
        Ok(())
    }

    /// Applies the sections that wait because the guest's memory couldn't be allocated.
    ///
    /// # Errors
    ///
    /// `NoMemory`: an allocation was refused. Nothing changes.
    pub fn settle(&mut self) -> Result<(), NoMemory>
        ensures ok { OnOk result ((given : LoadSettings) (text : List ℕ) (ended : Bool) → Loads given self.old text ended
            → Loads given self.new text ended × HasAllSections given self.new text) }
        ensures err { OnErr result (self.new ≡ self.old) }
        ensures waits { OnErr result ((given : LoadSettings) (text : List ℕ) (ended : Bool) → Loads given self.old text ended → Waits given self.old text) }
        ensures same { (self.new.reader.fed ≡ self.old.reader.fed) × (self.new.reader.ended ≡ self.old.reader.ended) }
    {
        settle(self.alloc, &mut self.reader, &mut self.target)
    }
}

impl<A: Allocator> SingleLoader<A> {
    /// Ends the stream: no piece is fed from now on. A second call changes nothing.
    pub fn end(&mut self)
        ensures value { self.new ≡ record self.old { reader = record self.old.reader { ended = true } } }
        ensures loads { (given : LoadSettings) (text : List ℕ) (ended : Bool) → Loads given self.old text ended → Loads given self.new text true }
    {
        self.reader.end();
    }

    /// Returns whether `end` was called.
    pub fn ended(&self) -> bool
        ensures { result ≡ self.now.reader.ended }
    {
        self.reader.ended()
    }

    /// Returns how many bytes were fed.
    pub fn fed(&self) -> u64
        ensures { result ≡ self.now.reader.fed }
    {
        self.reader.fed()
    }

    /// Returns how many of the bytes fed the stream has, once it is closed: those up to its end
    /// byte, or in a machine's stream up to the footer of RAM's END, or up to the first device's
    /// section of a background snapshot. The bytes fed after them are left to the caller.
    pub fn closed_at(&self) -> Option<u64>
        ensures { (given : LoadSettings) (text : List ℕ) (ended : Bool) → Loads given self.now text ended → HasClosedAt (single_of given) text result }
    {
        self.reader.closed_at()
    }

    /// Returns how many of the bytes fed are complete items without a fault, from the first byte
    /// on. If the verdict is a fault of the stream, the item at fault begins after them. `NoMemory`
    /// is a fault of no item.
    pub fn valid_up_to(&self) -> u64
        ensures { (given : LoadSettings) (text : List ℕ) (ended : Bool) → Loads given self.now text ended → IsValidUpTo (single_of given) text result }
    {
        self.reader.valid_up_to()
    }

    /// Returns the memory after the sections so far. None as long as the size list isn't complete,
    /// or while its sections wait.
    pub fn memory(&self) -> Option<&Memory<A>>
        ensures { option_copied result ≡ memory_of self.now }
    {
        self.target.as_ref().map(|target| target.memory())
    }

    /// Returns how many pages of the guest no record of the sections in the memory named: these are
    /// zeros, as the memory was at first. None as long as the size list isn't complete, or while
    /// sections wait.
    ///
    /// A stream can be complete and lack pages: the main stream of a multifd migration without its
    /// channels, or a stream of changes alone. The verdict is Ok then. A whole guest lacks none.
    pub fn missing(&self) -> Option<u64>
        ensures { (given : LoadSettings) (text : List ℕ) (ended : Bool) → Loads given self.now text ended → TellsMissing given self.now text result }
    {
        match &self.target {
            Some(target) => Some(lacking(target.named())),
            None => None,
        }
    }

    /// Returns how many sections are in the memory.
    pub fn rounds(&self) -> u64
        ensures { result ≡ sections_loaded self.now }
    {
        match &self.target {
            Some(target) => target.rounds(),
            None => 0,
        }
    }

    /// Returns the verdict that `finish` would return now: Ok if the end byte was read, else the
    /// stream's first fault. If it has no fault so far, that is `Truncated`. While sections wait it
    /// is `NoMemory`.
    ///
    /// # Errors
    ///
    /// A fault of the stream (`Fault::Stream`), or `NoMemory`, and no other `Fault`.
    pub fn verdict(&self) -> Result<(), LoadFault>
        ensures { (given : LoadSettings) (text : List ℕ) (ended : Bool) → Loads given self.now text ended → Judges given self.now text result }
    {
        verdict(&self.reader, &self.target)
    }

    /// Returns the answer on the stream, as if it ended here: that of `load_single`. If sections
    /// wait it is the one without memory. What a sender wrote is loaded whole, or sections wait.
    pub fn finish(self) -> Loaded<A>
        ensures answers { (given : LoadSettings) (text : List ℕ) (ended : Bool) → Loads given self text ended → Answers given self text result }
        ensures sent { (table : RamTable) (rounds : List (List Page)) (limit : ℕ) (ended : Bool) → IsTable table → total_bytes table ≤ limit → All (IsRound table) rounds
            → Loads (ram_settings table.page_size limit) self (single table rounds) ended → HasLoadedRounds table rounds result ⊎ (result ≡ unloaded) }
        ensures within { (table : RamTable) (rounds : List (List Page)) (given : LoadSettings) (text : List ℕ) (ended : Bool) → given.frame ≡ Ram → LetsThrough given.waiting rounds
            → table.page_size ≡ given.page_size → IsSent given.limit table rounds text → Loads given self text ended → HasLoadedRounds table rounds result ⊎ (result ≡ unloaded) }
        ensures machine { (table : RamTable) (rounds : List (List Page)) (given : LoadSettings) (text : List ℕ) (ended : Bool) → given.frame ≡ Machine → LetsThrough given.waiting rounds
            → table.page_size ≡ given.page_size → IsMachineSent given.limit table rounds text → Loads given self text ended → HasLoadedRounds table rounds result ⊎ (result ≡ unloaded) }
    {
        let SingleLoader {
            alloc: _,
            reader,
            target,
        } = self;
        answer(&reader, target)
    }
}
