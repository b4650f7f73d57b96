//! A main stream that is read to its last byte, whatever round the load is at: its table, its
//! fault, up to where it is valid, and where it is closed. None of its page records is kept.

ghost use Rattle.std.specs.Prelude.{ℕ, ◌≡◌, ◌+◌, ◌<◌, ◌≤◌, ◌^◌, ◌↔◌, IsTrue, IsFalse, None, OnOk, length};
ghost use Rattle.std.specs.Option.{option_copied};
ghost use Rattle.mig_mem.specs.PageSize.{IsPageSize};
ghost use Rattle.mig_stream.specs.Reading.{Settings};
ghost use Rattle.mig_stream.specs.Reader.{HasTable, HasClosedAt, IsValidUpTo};
ghost use Rattle.mig_load_types.specs.Settings.{main_of};
ghost use Rattle.mig_answer.specs.declared.status.Status.TheVariants.{Clean as clean};
ghost use Rattle.mig_answer.specs.Status.{main_status};
ghost use Rattle.mig_answer.specs.Texts.{Text, no_text, with_piece, over};
ghost use Rattle.mig_sources.specs.Faults.{HasMainFault};
ghost use Rattle.mig_session.specs.Scan.{ScansMain, DropsRounds, SaysMain, IsClosedAfter};

use crate::places::fault_of;
use crate::scan::counted;
use mig_answer::{Status, stream_end};
use mig_load_types::{Fault, LoadSettings};
use mig_mem::{NoMemory, Table};
use mig_stream::StreamReader;
use std::alloc::{Allocator, Global};
use std::marker::Model;

/// The scan of a main stream.
#[derive(Drop)]
pub(crate) struct MainScan<A: Allocator = Global> {
    reader: StreamReader<'static, A>,
    // how many rounds are complete
    rounds: u64,
}

impl<A: Allocator> Model for MainScan<A> {
    ghost use Rattle.mig_session.specs.Scan.{MainScan};

    ghost Value = { MainScan };

    ghost view = { λ s. record { reader = s.reader; rounds = s.rounds } };
}

// Drops the rounds that are complete. Returns how many there are with those dropped before.
fn drop_rounds<A: Allocator>(reader: &mut StreamReader<'static, A>, rounds: u64) -> u64
    ensures { DropsRounds reader.old rounds reader.new result }
{
    let mut rounds = rounds;
    'rounds: loop {
        let Ok(round) = reader.take_round() else {
            unreachable!();
        };
        if round.is_some() {
            rounds = counted(rounds, true);
        } else {
            return rounds;
        }
    }
}

impl<A: Allocator + Copy> MainScan<A> {
    /// Creates the scan of a main stream before its first byte.
    pub(crate) fn new(alloc: A, settings: LoadSettings) -> MainScan<A>
        requires page_size { IsPageSize settings.page_size }
        requires limit { settings.limit ≤ 2 ^ 40 }
        ensures { ScansMain (main_of settings) no_text result }
    {
        let mut scan = MainScan {
            reader: StreamReader::new_with(
                alloc,
                settings.frame,
                settings.main_mode(),
                settings.page_size,
                settings.limit,
                settings.waiting,
            ),
            rounds: 0,
        };
        scan.drop_rounds();
        scan
    }

    /// Reads a piece. `Err` is `NoMemory`.
    pub(crate) fn feed(&mut self, piece: &[u8]) -> Result<(), NoMemory>
        requires open { IsFalse self.old.reader.ended }
        requires room { self.old.reader.fed + length piece.now < 2 ^ 64 }
        ensures { OnOk result ((given : Settings) (text : Text) → ScansMain given text self.old → ScansMain given (with_piece piece.now text) self.new) }
    {
        self.reader.feed(piece)?;
        self.drop_rounds();
        Ok(())
    }
}

impl<A: Allocator> MainScan<A> {
    // Drops the rounds that are complete, and counts them.
    fn drop_rounds(&mut self)
        ensures { DropsRounds self.old.reader self.old.rounds self.new.reader self.new.rounds }
    {
        self.rounds = drop_rounds(&mut self.reader, self.rounds);
    }

    /// Ends the stream.
    pub(crate) fn end(&mut self)
        ensures { (given : Settings) (text : Text) → ScansMain given text self.old → ScansMain given (over text) self.new }
    {
        self.reader.end();
    }

    /// Returns the table, once the size list is complete.
    pub(crate) fn table(&self) -> Option<&Table<A>>
        ensures { (given : Settings) (text : Text) → ScansMain given text self.now → HasTable given text.bytes (option_copied result) }
    {
        self.reader.table()
    }

    /// Returns up to which byte the stream is valid.
    pub(crate) fn valid_up_to(&self) -> u64
        ensures { (given : Settings) (text : Text) → ScansMain given text self.now → IsValidUpTo given text.bytes result }
    {
        self.reader.valid_up_to()
    }

    /// Returns the fault of the stream's bytes.
    pub(crate) fn fault(&self) -> Option<Fault>
        ensures { (given : Settings) (text : Text) → ScansMain given text self.now → HasMainFault given text result }
    {
        fault_of(stream_end(self.reader.state()))
    }

    /// Returns where the stream is closed, if it is.
    pub(crate) fn closed_at(&self) -> Option<u64>
        ensures { (given : Settings) (text : Text) → ScansMain given text self.now → HasClosedAt given text.bytes result }
    {
        self.reader.closed_at()
    }

    /// Returns the stream's status at the first round, before its table is known.
    pub(crate) fn first_status(&self) -> Status
        ensures { SaysMain self.now (λ reading. reading.table ≡ None → result ≡ main_status 0 reading) }
    {
        stream_end(self.reader.state())
    }

    /// Returns whether the stream is closed after `rounds` rounds.
    pub(crate) fn is_closed_after(&self, rounds: u64) -> bool
        requires { rounds ≤ 2 ^ 63 }
        ensures { SaysMain self.now (λ reading. IsTrue result ↔ IsClosedAfter rounds reading) }
    {
        let state = self.reader.state();
        if self.rounds != rounds {
            return false;
        }
        is_clean(stream_end(state))
    }
}

fn is_clean(status: Status) -> bool
    ensures { IsTrue result ↔ status ≡ clean }
{
    matches!(status, Status::Clean)
}
