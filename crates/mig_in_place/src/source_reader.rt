//! Turns of a load in place. A source's bytes are read into a buffer of its own once the load takes
//! some of them, and fed from there. So live connections don't wait for one another.

ghost use Rattle.std.specs.Prelude.{ℕ, ◌≡◌, ◌≢◌, ◌+◌, ◌<◌, ◌≤◌, ◌^◌, ◌↔◌, List, [], length, take, drop, IsTrue, IsFalse, IfOk, OnErr, Ok, Err};
ghost use Rattle.std.specs.Option.{option_copied};
ghost use Rattle.mig_mem.specs.Image.{Image};
ghost use Rattle.mig_load_types.specs.declared.fault.InPlaceFault.TheVariants as in_place_fault;
ghost use Rattle.mig_stream.specs.Reading.{Settings};
ghost use Rattle.mig_load_types.specs.Settings.{main_of, for_table};
ghost use Rattle.mig_sources.specs.Reads.{piece_limit};
ghost use Rattle.mig_sources.specs.Sources.{HasSource, count_of, with_fed, feed_step};
ghost use Rattle.mig_in_place.specs.declared.source_reader.Turn.TheVariants as turn;
ghost use Rattle.mig_in_place.specs.Sources.{counts_of};
ghost use Rattle.mig_in_place.specs.Session.{StepsOn, RunsOut, Tells};
ghost use Rattle.mig_in_place.specs.Turns.{HasBytes, Fills, FindsEnd, FailsToRead, Takes, TakesNone, TurnsTo, EndsWithTaken, HasLastPiece, HasBehind, new_source, without_first};
ghost use Rattle.mig_in_place.specs.TurnFaultNumber.{turn_fault_number};

use crate::InPlaceSession;
use mig_load_types::InPlaceFault;
use mig_mem::{GuestTarget, NoMemory};
use mig_sources::{PieceReader, ReadFailed, Source};
use std::alloc::{Allocator, Global};
use std::error::Error;
use std::fmt::{self, Debug, Display, Formatter};
use std::marker::Model;

pub(crate) const PIECE_LIMIT: usize = 65_536;

const READ_LIMIT: u64 = 1 << 62;

/// The result of a source's turn.
#[derive(Clone, Copy, Debug, PartialEq, Eq)]
pub enum Turn {
    /// The load took this many bytes of it.
    Taken(usize),
    /// Its input is at its end, all of it was taken, and the source was ended.
    Ended,
    /// The load takes no bytes of it now, so none were read.
    Waits,
}

/// Why a turn failed.
#[derive(Clone, Copy, Debug, PartialEq, Eq)]
pub enum TurnFault {
    /// The reader returned an error, or was read 2^62 times. Nothing else has changed: the next
    /// turn reads again.
    Read,
    /// The memory is of another table than the load.
    OtherTable,
    /// An allocation was refused. The load has failed for good.
    NoMemory,
}

impl TurnFault {
    /// Returns the fault's number, as documents and the tool's output have it.
    pub fn number(self) -> u8
        ensures { result ≡ turn_fault_number self }
    {
        match self {
            TurnFault::Read => 70,
            TurnFault::OtherTable => 63,
            TurnFault::NoMemory => NoMemory.number(),
        }
    }
}

/// Writes the fault's number and its message.
impl Display for TurnFault {
    fn fmt<W: fmt::Write>(&self, f: &mut Formatter<W>) -> fmt::Result {
        match self {
            TurnFault::Read => write!(f, "{}: a read failed", self.number()),
            TurnFault::OtherTable => Display::fmt(&InPlaceFault::OtherTable, f),
            TurnFault::NoMemory => Display::fmt(&NoMemory, f),
        }
    }
}

impl Error for TurnFault {}

/// A source of a load in place: its reader, and a buffer of 65,536 bytes for what was read and not
/// taken yet.
#[derive(Drop)]
pub struct SourceReader<P: PieceReader, A: Allocator = Global> {
    reader: P,
    // how often it may still be read
    left: u64,
    buffer: Vec<u8, A>,
    // the bytes that wait begin and end there, after those that were taken
    from: usize,
    to: usize,
}

impl<P: PieceReader, A: Allocator> Model for SourceReader<P, A> {
    ghost use Rattle.std.specs.Prelude.{◌≡◌, ◌≤◌, ◌+◌, ◌-◌, ◌^◌, length, take, drop};
    ghost use Rattle.mig_sources.specs.Reads.{piece_limit};
    ghost use Rattle.mig_in_place.specs.Turns.{KeptSource};

    ghost Value = { KeptSource };

    ghost view = { λ s. record {
      reads = P.reads s.reader;
      left = s.left;
      remaining = P.remaining s.reader;
      taken = take s.from s.buffer.items;
      waiting = take (s.to - s.from) (drop s.from s.buffer.items);
    } };

    ghost invariant = { λ s. (s.from ≤ s.to) × (s.to ≤ length s.buffer.items) × (length s.buffer.items ≡ piece_limit) × ((P.reads s.reader).reads + s.left ≤ 2 ^ 63) };
}

/// Prints an opaque value: its buffer may hold guest memory.
impl<P: PieceReader, A: Allocator> Debug for SourceReader<P, A> {
    fn fmt<W: fmt::Write>(&self, f: &mut Formatter<W>) -> fmt::Result {
        f.write_str("SourceReader { .. }")
    }
}

impl<P: PieceReader + Drop, A: Allocator> SourceReader<P, A> {
    /// Wraps the reader of a source. Its buffer is empty.
    ///
    /// # Errors
    ///
    /// `NoMemory`: the buffer's allocation was refused. The reader is dropped.
    pub fn new(alloc: A, reader: P) -> Result<SourceReader<P, A>, NoMemory>
        requires { (P.reads reader).reads ≤ 2 ^ 62 }
        ensures value { IfOk result (λ s. s ≡ new_source (P.reads reader) (P.remaining reader)) }
        ensures first { IfOk result (λ s. (given : Settings) → EndsWithTaken given [] s) }
    {
        Ok(SourceReader {
            reader,
            left: READ_LIMIT,
            buffer: vec![in alloc; 0u8; PIECE_LIMIT]?,
            from: 0,
            to: 0,
        })
    }
}

impl<P: PieceReader, A: Allocator> SourceReader<P, A> {
    /// Returns the bytes that were read, and weren't taken yet: at most 65,536.
    pub fn waiting(&self) -> &[u8]
        ensures value { result.now ≡ self.now.waiting }
        ensures few { length result.now ≤ piece_limit }
    {
        &self.buffer[self.from..self.to]
    }

    /// Returns the bytes that were read after the end of the main stream, whose reader this is: in
    /// a machine's stream, the first ones of its devices. The reader gives those that follow. None
    /// as long as the main stream isn't closed. The reader of a channel has no such bytes: don't
    /// ask it.
    pub fn unread<B: Allocator + Copy>(&self, load: &InPlaceSession<B>) -> Option<&[u8]>
        ensures { (memory : Image) → Tells memory load.now (λ given uuid first texts. HasLastPiece given first texts self.now
            → HasBehind (main_of (for_table first.table given)) texts.main.bytes self.now (option_copied result)) }
    {
        let closed = load.closed_at()?;
        let count = load.fed(Source::Main).checked_sub(closed)?;
        let first = (self.from as u64).checked_sub(count)?;
        Some(&self.buffer[first as usize..self.to])
    }

    // Reads a piece into the buffer, which is empty. Returns false at the end of the input.
    fn fill(&mut self) -> Result<bool, ReadFailed>
        requires { self.old.waiting ≡ [] }
        ensures some { IfOk result (λ some. IsTrue some → Fills self.old self.new) }
        ensures end { IfOk result (λ some. IsFalse some → FindsEnd self.old self.new) }
        ensures failed { OnErr result (FailsToRead self.old self.new) }
    {
        if self.left == 0 {
            return Err(ReadFailed);
        }
        self.left -= 1;
        self.from = 0;
        self.to = 0;
        let count = self.reader.read_piece(&mut self.buffer)?;
        self.to = count;
        Ok(count != 0)
    }

    // Returns whether bytes wait, and reads a piece, if none did: false at the end of the input.
    fn has_bytes(&mut self) -> Result<bool, ReadFailed>
        ensures some { IfOk result (λ some. IsTrue some → HasBytes self.old self.new) }
        ensures end { IfOk result (λ some. IsFalse some → FindsEnd self.old self.new) }
        ensures failed { OnErr result (FailsToRead self.old self.new) }
    {
        if !self.waiting().is_empty() {
            return Ok(true);
        }
        self.fill()
    }

    // Feeds the bytes that wait.
    fn feed<B: Allocator + Copy, M: GuestTarget>(
        &mut self,
        load: &mut InPlaceSession<B>,
        memory: &mut M,
        source: Source,
    ) -> Result<usize, InPlaceFault>
        requires source { HasSource (counts_of load.old.sources) source }
        requires open { IsFalse (count_of (counts_of load.old.sources) source).ended }
        requires room { (count_of (counts_of load.old.sources) source).fed + piece_limit < 2 ^ 64 }
        ensures taken { IfOk result (λ n. (n ≤ length self.old.waiting) × (self.new ≡ without_first n self.old)) }
        ensures steps { IfOk result (λ n. StepsOn (feed_step source (take n self.old.waiting)) (M.image memory.old) load.old (M.image memory.new) load.new) }
        ensures waits { IfOk result (λ n. n < length self.old.waiting → TakesNone source (M.image memory.new) load.new) }
        ensures counts { IfOk result (λ n. counts_of load.new.sources ≡ with_fed (counts_of load.old.sources) source n) }
        ensures waiting { OnErr result (self.new ≡ self.old) }
        ensures other { result ≡ Err in_place_fault.OtherTable → ((M.image memory.old).table ≢ load.old.table) × (load.new ≡ load.old) × (M.image memory.new ≡ M.image memory.old) }
        ensures failed { result ≡ Err in_place_fault.NoMemory → RunsOut source self.old.waiting (M.image memory.old) load.old (M.image memory.new) load.new }
    {
        let taken = load.feed(memory, source, self.waiting())?;
        self.from += taken;
        Ok(taken)
    }

    /// Takes a turn of `source`, whose reader this is. If `load` takes bytes of it, feeds those
    /// that wait, or, if none wait, one piece that it reads. At the end of the input it ends the
    /// source.
    ///
    /// # Errors
    ///
    /// - `Read`: the read failed. Nothing else has changed.
    /// - `OtherTable`: `memory` has another table than the load. The bytes that were read wait.
    /// - `NoMemory`: an allocation was refused. The load has failed for good.
    pub fn turn<B: Allocator + Copy, M: GuestTarget>(
        &mut self,
        load: &mut InPlaceSession<B>,
        memory: &mut M,
        source: Source,
    ) -> Result<Turn, TurnFault>
        requires source { HasSource (counts_of load.old.sources) source }
        requires room { (count_of (counts_of load.old.sources) source).fed + piece_limit < 2 ^ 64 }
        ensures { TurnsTo source result (record { load = load.old; memory = M.image memory.old; source = self.old })
            (record { load = load.new; memory = M.image memory.new; source = self.new }) }
    {
        if takes(load, source) {
            self.take_turn(load, memory, source)
        } else {
            Ok(Turn::Waits)
        }
    }

    // Takes a turn of a source of which the load takes bytes.
    pub(crate) fn take_turn<B: Allocator + Copy, M: GuestTarget>(
        &mut self,
        load: &mut InPlaceSession<B>,
        memory: &mut M,
        source: Source,
    ) -> Result<Turn, TurnFault>
        requires takes { Takes source (M.image memory.old) load.old }
        requires source { HasSource (counts_of load.old.sources) source }
        requires room { (count_of (counts_of load.old.sources) source).fed + piece_limit < 2 ^ 64 }
        ensures turns { TurnsTo source result (record { load = load.old; memory = M.image memory.old; source = self.old })
            (record { load = load.new; memory = M.image memory.new; source = self.new }) }
        ensures some { result ≢ Ok turn.Waits }
    {
        match self.has_bytes() {
            Ok(true) => match self.feed(load, memory, source) {
                Ok(taken) => Ok(Turn::Taken(taken)),
                Err(InPlaceFault::OtherTable) => Err(TurnFault::OtherTable),
                Err(InPlaceFault::NoMemory) => Err(TurnFault::NoMemory),
            },
            Ok(false) => {
                load.end(source);
                Ok(Turn::Ended)
            }
            Err(ReadFailed) => Err(TurnFault::Read),
        }
    }
}

// Returns whether a load takes bytes of a source that wasn't ended.
pub(crate) fn takes<B: Allocator + Copy>(load: &InPlaceSession<B>, source: Source) -> bool
    requires { HasSource (counts_of load.now.sources) source }
    ensures takes { IsTrue result → (memory : Image) → Takes source memory load.now }
    ensures none { IsFalse result → (memory : Image) → TakesNone source memory load.now }
{
    !load.ended(source) && load.is_taking(source)
}
