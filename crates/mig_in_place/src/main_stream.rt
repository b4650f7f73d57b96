//! The main stream of a load in place: the reader, and the state of the current round.

ghost use Rattle.std.specs.Prelude.{ℕ, ◌≡◌, ◌+◌, ◌<◌, ◌≤◌, ◌^◌, true, false, List, All, length, None, Some, IsTrue, IsFalse, IfSome, IfNone, OnOk, OnErr};
ghost use Rattle.std.specs.Option.{option_copied};
ghost use Rattle.mig_mem.specs.PageSize.{IsPageSize};
ghost use Rattle.mig_mem.specs.RamTable.{RamTable};
ghost use Rattle.mig_mem.specs.Place.{IsPlace};
ghost use Rattle.mig_stream.specs.Reading.{Settings};
ghost use Rattle.mig_stream.specs.Reader.{HasTable, HasRound, HasClosedAt, IsValidUpTo};
ghost use Rattle.mig_load_types.specs.Settings.{main_of};
ghost use Rattle.mig_answer.specs.Texts.{Text, no_text, with_piece, over};
ghost use Rattle.mig_answer.specs.Status.{is_pending, is_clean, fault_of};
ghost use Rattle.mig_answer.specs.declared.status.Status.TheVariants.{Whole as whole};
ghost use Rattle.mig_in_place.specs.Sources.{StandsAt, HasNoRound, HoldsMain, TellsMainStatus, TellsMainFault, TellsList, main_count};

use mig_answer::{Status, stream_end};
use mig_load_types::{Fault, LoadSettings};
use mig_mem::{NoMemory, Table};
use mig_stream::{StreamReader, StreamRound, StreamState};
use std::alloc::{Allocator, Global};
use std::marker::Model;

/// The state of the main stream's size list.
#[derive(Clone, Copy, PartialEq, Eq)]
pub(crate) enum SizeList {
    /// It is complete.
    Complete,
    /// It may still follow.
    Awaited,
    /// It is missing: the stream ended before it, or has a fault there.
    Lost,
}

/// Returns whether a source needs more of its bytes.
pub(crate) fn is_pending(status: Status) -> bool
    ensures { result ≡ is_pending status }
{
    matches!(status, Status::Pending)
}

/// Returns whether a source is closed.
pub(crate) fn is_clean(status: Status) -> bool
    ensures { result ≡ is_clean status }
{
    matches!(status, Status::Clean)
}

/// Returns the fault of a source that has one.
pub(crate) fn fault_of(status: Status) -> Option<Fault>
    ensures { result ≡ fault_of status }
{
    match status {
        Status::Bad(fault) => Some(fault),
        Status::Whole | Status::Clean | Status::Pending => None,
    }
}

/// The main stream, with its bytes so far.
#[derive(Drop)]
pub(crate) struct MainStream<A: Allocator = Global> {
    reader: StreamReader<'static, A>,
    // whether the current round is complete, and was taken from the reader
    is_whole: bool,
}

impl<A: Allocator> Model for MainStream<A> {
    ghost use Rattle.mig_in_place.specs.Sources.{KeptMain};

    ghost Value = { KeptMain };

    ghost view = { λ m. record { reader = m.reader; is_whole = m.is_whole } };
}

impl<A: Allocator + Copy> MainStream<A> {
    /// Creates the main stream before its first byte.
    pub(crate) fn new(alloc: A, settings: LoadSettings) -> MainStream<A>
        requires page_size { IsPageSize settings.page_size }
        requires limit { settings.limit ≤ 2 ^ 40 }
        ensures holds { HoldsMain (main_of settings) 0 no_text result }
        ensures whole { IsFalse result.is_whole }
        ensures count { main_count result ≡ record { fed = 0; ended = false } }
    {
        MainStream {
            reader: StreamReader::new_with(
                alloc,
                settings.frame,
                settings.main_mode(),
                settings.page_size,
                settings.limit,
                settings.waiting,
            ),
            is_whole: false,
        }
    }

    /// Reads the next piece.
    ///
    /// # Errors
    ///
    /// `NoMemory`: an allocation was refused. Nothing has changed.
    pub(crate) fn feed(&mut self, piece: &[u8]) -> Result<(), NoMemory>
        requires open { IsFalse self.old.reader.ended }
        requires room { self.old.reader.fed + length piece.now < 2 ^ 64 }
        ensures stands { OnOk result ((given : Settings) (k : ℕ) (text : Text) → StandsAt given k text self.old → StandsAt given k (with_piece piece.now text) self.new) }
        ensures whole { self.new.is_whole ≡ self.old.is_whole }
        ensures count { OnOk result ((self.new.reader.fed ≡ self.old.reader.fed + length piece.now) × (self.new.reader.ended ≡ self.old.reader.ended)) }
        ensures err { OnErr result (self.new ≡ self.old) }
    {
        self.reader.feed(piece)?;
        Ok(())
    }
}

impl<A: Allocator> MainStream<A> {
    /// Takes the current round, if it is complete and wasn't taken.
    pub(crate) fn take_round(&mut self) -> Option<StreamRound<'static, A>>
        ensures stands { (given : Settings) (k : ℕ) (text : Text) → StandsAt given k text self.old → StandsAt given k text self.new }
        ensures none { IfNone result (self.new ≡ self.old) }
        ensures last { IfNone result (IsFalse self.old.is_whole → (given : Settings) (k : ℕ) (text : Text) → StandsAt given k text self.old → HasNoRound given k text) }
        ensures whole { IfSome result (λ round. IsFalse self.old.is_whole × IsTrue self.new.is_whole) }
        ensures round { IfSome result (λ round. (given : Settings) (k : ℕ) (text : Text) → StandsAt given k text self.old
            → (round.page_size ≡ given.page_size) × HasRound given text.bytes k round.records) }
        ensures places { IfSome result (λ round. (given : Settings) (k : ℕ) (text : Text) (table : RamTable) → StandsAt given k text self.old
            → HasTable given text.bytes (Some table) → All (λ x. IsPlace table x.place) round.records) }
        ensures count { main_count self.new ≡ main_count self.old }
    {
        if self.is_whole {
            return None;
        }
        let Ok(round) = self.reader.take_round() else {
            return None;
        };
        self.is_whole = round.is_some();
        round
    }

    /// Goes on to the next round.
    pub(crate) fn advance(&mut self)
        ensures { self.new ≡ record self.old { is_whole = false } }
    {
        self.is_whole = false;
    }

    /// Ends the main stream.
    pub(crate) fn end(&mut self)
        ensures stands { (given : Settings) (k : ℕ) (text : Text) → StandsAt given k text self.old → StandsAt given k (over text) self.new }
        ensures value { self.new ≡ record self.old { reader = record self.old.reader { ended = true } } }
    {
        self.reader.end();
    }

    /// Returns whether the main stream was ended.
    pub(crate) fn ended(&self) -> bool
        ensures { result ≡ self.now.reader.ended }
    {
        self.reader.ended()
    }

    /// Returns how many bytes were taken.
    pub(crate) fn fed(&self) -> u64
        ensures { result ≡ self.now.reader.fed }
    {
        self.reader.fed()
    }

    /// Returns the status of the main stream at the current round.
    pub(crate) fn status(&self) -> Status
        ensures tells { TellsMainStatus self.now result }
        ensures whole { IsTrue self.now.is_whole → result ≡ whole }
    {
        if self.is_whole {
            return Status::Whole;
        }
        stream_end(self.reader.state())
    }

    /// Returns the fault of the bytes taken.
    pub(crate) fn fault(&self) -> Option<Fault>
        ensures { TellsMainFault self.now result }
    {
        fault_of(stream_end(self.reader.state()))
    }

    /// Returns the table, once the size list is complete.
    pub(crate) fn table(&self) -> Option<&Table<A>>
        ensures { (given : Settings) (k : ℕ) (text : Text) → StandsAt given k text self.now → HasTable given text.bytes (option_copied result) }
    {
        self.reader.table()
    }

    /// Returns up to where the main stream is valid.
    pub(crate) fn valid_up_to(&self) -> u64
        ensures { (given : Settings) (k : ℕ) (text : Text) → StandsAt given k text self.now → IsValidUpTo given text.bytes result }
    {
        self.reader.valid_up_to()
    }

    /// Returns where the main stream is closed, if it is.
    pub(crate) fn closed_at(&self) -> Option<u64>
        ensures { (given : Settings) (k : ℕ) (text : Text) → StandsAt given k text self.now → HasClosedAt given text.bytes result }
    {
        self.reader.closed_at()
    }

    /// Returns the state of the size list.
    pub(crate) fn size_list(&self) -> SizeList
        ensures { TellsList self.now result }
    {
        if self.reader.table().is_some() {
            return SizeList::Complete;
        }
        match self.reader.state() {
            StreamState::Reading => SizeList::Awaited,
            StreamState::Closed | StreamState::Bad(_) => SizeList::Lost,
        }
    }
}
