//! The reader of a single stream that gives page records as they are read: of a complete stream, or
//! piece after piece, with a `Pause` between two. `load_single` reads a complete stream by it, and
//! `InPlaceState` the pieces as they come.
//!
//! It gives a section's records before the section is complete, so that a page can be copied as
//! soon as its bytes were read. Its caller must drop the records of an incomplete section if the
//! stream has a fault, or say what it leaves. `StreamReader` keeps the records instead.

ghost use Rattle.std.specs.Prelude.{◌≡◌, ◌≢◌, ◌<◌, ◌≤◌, ◌+◌, ◌*◌, ◌^◌, length, [], All, IsTrue, IsFalse, IsSome, None, Some, IfOk, IfSome, OnOk, OnErr, ◌++◌, ℕ, List, take, IfNone};
ghost use Rattle.std.specs.Option.{option_copied};
ghost use Rattle.mig_mem.specs.PageSize.{IsPageSize};
ghost use Rattle.mig_mem.specs.RamTable.{RamTable};
ghost use Rattle.mig_mem.specs.Place.{IsPlace};
ghost use Rattle.mig_stream.specs.declared.item.Mode.TheVariants.{Single};
ghost use Rattle.mig_stream.specs.declared.item.StreamState.TheVariants as state;
ghost use Rattle.mig_stream.specs.Progress.{whole_table};
ghost use Rattle.mig_stream.specs.Reading.{settings, in_frame, with_waiting, Settings, Ends};
ghost use Rattle.mig_stream.specs.Reader.{HasTable, HasFront, IsValidUpTo, IsUnfinished};
ghost use Rattle.mig_stream.specs.Giving.{none_given, with_given, Gives, GivesOn, left, LeavesLess, GiverTells, EndsSo, TellsFound, IsBehind, GivenSoFar, LeavesNone, HasNoneLeft, IsUnread, PausesAt, PauseTells};
ghost use Rattle.mig_stream.specs.Taking.{HasTaken, HasTakenTo};
ghost use Rattle.mig_stream.specs.Kept.{bytes_of};
ghost use Rattle.mig_stream.specs.Report.{ItemAt, Reported, nothing_reported, IsReport, Reports, ReportsTo, ReportsOn, EndsReport};

use crate::item::{Frame, Mode, StreamState};
use crate::piece::Piece;
use crate::progress::Progress;
use crate::reader::complete;
use crate::report::Report;
use crate::reporting::read_to_pause_reporting;
use crate::round::{Records, StreamRound};
use crate::stop::Stop;
use mig_mem::{NoMemory, Table};
use std::alloc::{Allocator, Global};
use std::marker::Model;
use std::{fmt, mem};

/// The result of `RecordReader::read_on`.
#[derive(Clone, Copy, Debug, PartialEq, Eq)]
pub enum RecordEvent {
    /// Page records of a section that isn't complete yet. There may be none.
    Records,
    /// The last page records of a section. There may be none.
    Section,
    /// No records: all were given. This is the state of the stream.
    End(StreamState),
}

/// Reads a complete single stream, or its next piece after a `Pause`, and gives its page records as
/// they are read. It lends their pages from those bytes, but for a page whose first bytes an
/// earlier piece had.
pub struct RecordReader<'a, A: Allocator = Global> {
    progress: Progress<'a, A>,
    // the bytes of the next item that earlier pieces had
    pending: Vec<u8, A>,
    rest: Piece<'a, 'a>,
    // the state of the pending bytes and the rest, once they aren't read any further
    found: Option<StreamState>,
    given: StreamRound<'a, A>,
    // how many bytes the stream has up to the end of the rest
    fed: u64,
}

// Written out, so that a caller's proof passes a call where a value is dropped.
impl<'a, A: Allocator> Drop for RecordReader<'a, A> {
    fn drop(self) {
        let RecordReader {
            progress: _,
            pending: _,
            rest: _,
            found: _,
            given: _,
            fed: _,
        } = self;
    }
}

impl<'a, A: Allocator> Model for RecordReader<'a, A> {
    ghost use Rattle.std.specs.Prelude.{◌++◌};
    ghost use Rattle.mig_stream.specs.Kept.{bytes_of};
    ghost use Rattle.mig_stream.specs.Giving.{Giver, IsUnread};

    ghost Value = { Giver };

    ghost view = { λ r. record { progress = r.progress; rest = r.pending.items ++ bytes_of r.rest; found = r.found; given = r.given; fed = r.fed } };

    ghost invariant = { λ r. IsUnread r.found r.progress r.pending.items (bytes_of r.rest) };
}

// Guest memory isn't printed.
impl<'a, A: Allocator> fmt::Debug for RecordReader<'a, A> {
    fn fmt<W: fmt::Write>(&self, f: &mut fmt::Formatter<W>) -> fmt::Result {
        f.pad("RecordReader { .. }")
    }
}

/// A single stream between two of its pieces: its progress, and the bytes of an item that isn't
/// complete yet. All records that were read have been given.
///
/// Load piece after piece: `resume` with the next one, `read_on` until `End(Reading)`, and `pause`.
/// A caller that reads pages straight to their destination asks for each piece by `wanted`.
pub struct Pause<A: Allocator = Global> {
    pub(crate) progress: Progress<'static, A>,
    pub(crate) pending: Vec<u8, A>,
    // how many bytes the stream has so far
    pub(crate) fed: u64,
}

// Written out, so that a caller's proof passes a call where a value is dropped.
impl<A: Allocator> Drop for Pause<A> {
    fn drop(self) {
        let Pause {
            progress: _,
            pending: _,
            fed: _,
        } = self;
    }
}

impl<A: Allocator> Model for Pause<A> {
    ghost use Rattle.mig_stream.specs.Giving.{Paused, IsPaused};

    ghost Value = { Paused };

    ghost view = { λ p. record { progress = p.progress; pending = p.pending.items; fed = p.fed } };

    ghost invariant = { λ p. IsPaused (record { progress = p.progress; pending = p.pending.items; fed = p.fed }) };
}

// Guest memory isn't printed.
impl<A: Allocator> fmt::Debug for Pause<A> {
    fn fmt<W: fmt::Write>(&self, f: &mut fmt::Formatter<W>) -> fmt::Result {
        f.pad("Pause { .. }")
    }
}

// Reads the item whose first bytes are pending, with the rest of it from a piece. Returns what is
// left of the piece, and the state of the pending bytes and of it, if they aren't to be read any
// further. An `Err` takes no item.
fn read_pending<'b, A: Allocator + Copy>(
    progress: &mut Progress<'_, A>,
    pending: &mut Vec<u8, A>,
    piece: &'b [u8],
) -> Result<(&'b [u8], Option<StreamState>), NoMemory>
    requires part { IsUnfinished progress.old pending.old.items }
    requires some { 0 < length pending.old.items }
    ensures taken { IfOk result (λ r. HasTakenTo progress.old (pending.old.items ++ piece.now) (pending.new.items ++ r.0.now) progress.new) }
    ensures stands { IfOk result (λ r. IfSome r.1 (λ found. Ends progress.new (pending.new.items ++ r.0.now) found)) }
    ensures moves { IfOk result (λ r. IfNone r.1 (length (pending.new.items ++ r.0.now) < length (pending.old.items ++ piece.now))) }
    ensures none { IfOk result (λ r. IfNone r.1 (pending.new.items ≡ [])) }
    ensures closed { IfOk result (λ r. r.1 ≢ Some state.Closed) }
    ensures err { OnErr result (progress.new ≡ progress.old) }
    ensures kept { OnErr result (take (length pending.old.items) pending.new.items ≡ pending.old.items) }
{
    let Some(rest) = complete(progress, pending, piece)? else {
        return Ok((&[], Some(StreamState::Reading)));
    };
    match progress.take(Piece::Passing(pending)) {
        Ok(()) => {
            pending.clear();
            Ok((rest, None))
        }
        Err(Stop::Fault(fault)) => Ok((rest, Some(StreamState::Bad(fault)))),
        Err(Stop::Memory) => Err(NoMemory),
    }
}

// Reads up to the next pause. Returns what is left of the bytes, and the state of the pending bytes
// and of it, if they aren't to be read any further. After an `Err` some items were taken, and other
// bytes may follow the pending ones.
fn read_to_pause<'a, A: Allocator + Copy>(
    progress: &mut Progress<'a, A>,
    pending: &mut Vec<u8, A>,
    rest: Piece<'a, 'a>,
) -> Result<(Piece<'a, 'a>, Option<StreamState>), NoMemory>
    requires { IsUnread None progress.old pending.old.items (bytes_of rest) }
    ensures taken { IfOk result (λ r. HasTakenTo progress.old (pending.old.items ++ bytes_of rest.entry) (pending.new.items ++ bytes_of r.0) progress.new) }
    ensures stands { IfOk result (λ r. IfSome r.1 (λ found. Ends progress.new (pending.new.items ++ bytes_of r.0) found)) }
    ensures moves { IfOk result (λ r. IfNone r.1 (length (pending.new.items ++ bytes_of r.0) < length (pending.old.items ++ bytes_of rest.entry))) }
    ensures none { IfOk result (λ r. IfNone r.1 (pending.new.items ≡ [])) }
    ensures closed { IfOk result (λ r. r.1 ≡ Some state.Closed → pending.new.items ≡ []) }
    ensures err { OnErr result (HasTaken progress.old (pending.old.items ++ bytes_of rest.entry) progress.new) }
    ensures kept { OnErr result (take (length pending.old.items) pending.new.items ≡ pending.old.items) }
{
    if pending.is_empty() {
        return progress.run_on(rest, true);
    }
    let (rest, found) = read_pending(progress, pending, rest.into_bytes())?;
    Ok((Piece::Staying(rest), found))
}

impl<A: Allocator + Copy> Pause<A> {
    /// Creates the pause before the first byte of a single stream of `frame`, with pages of
    /// `page_size` bytes. Its size list may add up to at most `limit` bytes. A section may have at
    /// most `waiting` page records: one more is the fault `Waiting`. `None` is any number.
    pub fn new(alloc: A, frame: Frame, page_size: u64, limit: u64, waiting: Option<u64>) -> Pause<A>
        requires page_size { IsPageSize page_size }
        requires limit { limit ≤ 2 ^ 40 }
        ensures pauses { PausesAt (with_waiting waiting (in_frame frame (settings Single page_size limit))) [] none_given result }
    {
        Pause {
            progress: Progress::new(alloc, frame, Mode::Single, page_size, limit, waiting),
            pending: Vec::new(alloc),
            fed: 0,
        }
    }

    /// Returns a reader of `piece`, the next bytes of the stream. It has given no records of them
    /// yet.
    pub fn resume<'b>(self, piece: &'b [u8]) -> RecordReader<'b, A>
        ensures gives { (given : Settings) (text : List ℕ) (so_far : GivenSoFar)
            → PausesAt given text so_far self → Gives given (text ++ piece.now) so_far result }
        ensures left { left result ≡ 2 * length (self.pending ++ piece.now) + 1 }
        ensures given { result.given ≡ record { page_size = self.progress.page_size; records = [] } }
        ensures reports { (given : Settings) (text : List ℕ) (so_far : GivenSoFar) (cleared : List ItemAt) (report : Reported)
            → PausesAt given text so_far self → IsReport given text cleared report → Reports given (text ++ piece.now) so_far cleared result report }
    {
        let Pause {
            progress,
            pending,
            fed,
        } = self;
        let progress = progress.without_records();
        let given = progress.no_round();
        RecordReader {
            progress,
            pending,
            rest: Piece::Staying(piece),
            found: None,
            given,
            fed: fed.saturating_add(piece.len() as u64),
        }
    }
}

impl<A: Allocator> Pause<A> {
    /// Returns how many of the stream's bytes are complete items, from the first byte on. The item
    /// that isn't complete yet begins after them.
    ///
    /// The number is exact for a stream of less than 2^64 bytes.
    pub fn valid_up_to(&self) -> u64
        ensures { PauseTells self.now (λ given text so_far. length text < 2 ^ 64 → IsValidUpTo given text result) }
    {
        self.fed.saturating_sub(self.pending.len() as u64)
    }

    /// Returns how many bytes a page of the stream has, which is what `take_page` takes.
    pub fn page_size(&self) -> u64
        ensures value { result ≡ self.now.progress.page_size }
        ensures given { PauseTells self.now (λ given text so_far. result ≡ given.page_size) }
    {
        self.progress.entries.page_size()
    }

    /// Returns the stream's table, once its size list is complete.
    pub fn table(&self) -> Option<&Table<A>>
        ensures whole { option_copied result ≡ whole_table self.now.progress }
        ensures table { PauseTells self.now (λ given text so_far. HasTable given text (option_copied result)) }
    {
        self.progress.table()
    }
}

impl<'a, A: Allocator + Copy> RecordReader<'a, A> {
    /// Creates a reader of `text`, a single stream of `frame` with pages of `page_size` bytes. Its
    /// size list may add up to at most `limit` bytes. A section may have at most `waiting` page
    /// records: one more is the fault `Waiting`. `None` is any number.
    pub fn new(
        alloc: A,
        frame: Frame,
        page_size: u64,
        limit: u64,
        waiting: Option<u64>,
        text: &'a [u8],
    ) -> RecordReader<'a, A>
        requires page_size { IsPageSize page_size }
        requires limit { limit ≤ 2 ^ 40 }
        ensures gives { Gives (with_waiting waiting (in_frame frame (settings Single page_size limit))) text.now none_given result }
        ensures reports { Reports (with_waiting waiting (in_frame frame (settings Single page_size limit))) text.now none_given [] result nothing_reported }
        ensures left { left result ≡ 2 * length text.now + 1 }
        ensures given { result.given ≡ record { page_size = page_size; records = [] } }
    {
        let progress = Progress::new(alloc, frame, Mode::Single, page_size, limit, waiting);
        RecordReader {
            progress,
            pending: Vec::new(alloc),
            rest: Piece::Staying(text),
            found: None,
            given: StreamRound::new(page_size, Records::new(alloc)),
            fed: text.len() as u64,
        }
    }

    /// Reads on, in most cases up to the end of a page or of a section, and gives the records that
    /// it found: `given` has them until the next call.
    ///
    /// # Errors
    ///
    /// `NoMemory`: an allocation was refused. Nothing changes.
    pub fn read_on(&mut self) -> Result<RecordEvent, NoMemory>
        ensures ok { IfOk result (λ gave. GivesOn (with_given gave self.new.given.records) self.old self.new) }
        ensures page_size { OnOk result (GiverTells self.old (λ given text so_far. self.new.given.page_size ≡ given.page_size)) }
        ensures places { OnOk result (GiverTells self.old (λ given text so_far. (table : RamTable) → HasTable given text (Some table)
            → All (λ x. IsPlace table x.place) self.new.given.records)) }
        ensures end { IfOk result (λ gave. GiverTells self.old (EndsSo gave)) }
        ensures found { IfOk result (λ gave. TellsFound gave self.new) }
        ensures less { IfOk result (λ gave. LeavesLess gave self.old self.new) }
        ensures none { IfOk result (λ gave. LeavesNone gave self.new) }
        ensures err { OnErr result (self.new ≡ self.old) }
    {
        if self.found.is_none() {
            self.read()?;
        }
        Ok(self.give())
    }

    // Reads up to the next pause. An `Err` changes nothing.
    fn read(&mut self) -> Result<(), NoMemory>
        requires { self.old.found ≡ None }
        ensures ok { OnOk result (GivesOn (λ so_far. so_far) self.old self.new) }
        ensures less { OnOk result (left self.new < left self.old) }
        ensures err { OnErr result (self.new ≡ self.old) }
    {
        let checkpoint = self.progress.checkpoint();
        let len = self.pending.len();
        match read_to_pause(&mut self.progress, &mut self.pending, self.rest) {
            Ok((rest, found)) => {
                self.rest = rest;
                self.found = found;
                Ok(())
            }
            Err(error) => {
                self.progress.undo(checkpoint);
                self.pending.truncate(len);
                Err(error)
            }
        }
    }

    /// Reads on as `read_on` does, and adds to `report` each item that it reads, but the parts of
    /// page records. `report` is the one that all earlier calls for this stream had.
    ///
    /// # Errors
    ///
    /// `NoMemory`: an allocation was refused. Nothing changes.
    pub fn read_on_reporting(&mut self, report: &mut Report<A>) -> Result<RecordEvent, NoMemory>
        ensures reports { IfOk result (λ gave. ReportsOn (with_given gave self.new.given.records) self.old report.old self.new report.new) }
        ensures report { IfOk result (λ gave. (given : Settings) (text : List ℕ) (so_far : GivenSoFar) (cleared : List ItemAt)
            → Reports given text so_far cleared self.old report.old → EndsReport gave given text cleared report.new) }
        ensures ok { IfOk result (λ gave. GivesOn (with_given gave self.new.given.records) self.old self.new) }
        ensures page_size { OnOk result (GiverTells self.old (λ given text so_far. self.new.given.page_size ≡ given.page_size)) }
        ensures places { OnOk result (GiverTells self.old (λ given text so_far. (table : RamTable) → HasTable given text (Some table)
            → All (λ x. IsPlace table x.place) self.new.given.records)) }
        ensures end { IfOk result (λ gave. GiverTells self.old (EndsSo gave)) }
        ensures found { IfOk result (λ gave. TellsFound gave self.new) }
        ensures less { IfOk result (λ gave. LeavesLess gave self.old self.new) }
        ensures none { IfOk result (λ gave. LeavesNone gave self.new) }
        ensures err { OnErr result ((self.new ≡ self.old) × (report.new ≡ report.old)) }
    {
        if self.found.is_none() {
            self.read_reporting(report)?;
        }
        Ok(self.give())
    }

    // Reads up to the next pause as `read` does, and adds the items to `report`.
    fn read_reporting(&mut self, report: &mut Report<A>) -> Result<(), NoMemory>
        requires { self.old.found ≡ None }
        ensures ok { OnOk result (GivesOn (λ so_far. so_far) self.old self.new) }
        ensures reports { OnOk result (ReportsOn (λ so_far. so_far) self.old report.old self.new report.new) }
        ensures less { OnOk result (left self.new < left self.old) }
        ensures err { OnErr result (self.new ≡ self.old) }
        ensures same { OnErr result (report.new ≡ report.old) }
    {
        let checkpoint = self.progress.checkpoint();
        let len = self.pending.len();
        let mark = report.mark();
        match read_to_pause_reporting(&mut self.progress, &mut self.pending, self.rest, report) {
            Ok((rest, found)) => {
                self.rest = rest;
                self.found = found;
                Ok(())
            }
            Err(error) => {
                self.progress.undo(checkpoint);
                self.pending.truncate(len);
                report.go_back(mark);
                Err(error)
            }
        }
    }

    /// Returns the pause after this piece, once `read_on` returned `End(Reading)`. It keeps a copy
    /// of the bytes of an item that isn't complete.
    ///
    /// # Errors
    ///
    /// `NoMemory`: the copy's allocation was refused. The reader is dropped, so the stream can't be
    /// read on.
    pub fn pause(self) -> Result<Pause<A>, NoMemory>
        requires { HasNoneLeft state.Reading self }
        ensures { IfOk result (λ p. (given : Settings) (text : List ℕ) (so_far : GivenSoFar)
            → Gives given text so_far self.entry → PausesAt given text so_far p) }
    {
        let RecordReader {
            progress,
            mut pending,
            rest,
            found: _,
            given: _,
            fed,
        } = self;
        pending.extend_from_slice(rest.bytes())?;
        Ok(Pause {
            progress: progress.without_records(),
            pending,
            fed,
        })
    }
}

impl<'a, A: Allocator> RecordReader<'a, A> {
    // Returns what was read and not given.
    fn give(&mut self) -> RecordEvent
        ensures reports { (report : Reported) → ReportsOn (with_given result self.new.given.records) self.old report self.new report }
        ensures less { self.old.found ≢ None → LeavesLess result self.old self.new }
        ensures no_more { left self.new ≤ left self.old }
        ensures gives { GivesOn (with_given result self.new.given.records) self.old self.new }
        ensures page_size { GiverTells self.old (λ given text so_far. self.new.given.page_size ≡ given.page_size) }
        ensures places { GiverTells self.old (λ given text so_far. (table : RamTable) → HasTable given text (Some table)
            → All (λ x. IsPlace table x.place) self.new.given.records) }
        ensures end { GiverTells self.old (EndsSo result) }
        ensures found { TellsFound result self.new }
        ensures none { LeavesNone result self.new }
    {
        match self.progress.take_round() {
            Some(section) => {
                let _before = mem::replace(&mut self.given, section);
                RecordEvent::Section
            }
            None => self.give_open(),
        }
    }

    // Returns what was read and not given, if no section is complete.
    fn give_open(&mut self) -> RecordEvent
        requires { self.old.progress.rounds ≡ [] }
        ensures reports { (report : Reported) → ReportsOn (with_given result self.new.given.records) self.old report self.new report }
        ensures less { self.old.found ≢ None → LeavesLess result self.old self.new }
        ensures no_more { left self.new ≤ left self.old }
        ensures gives { GivesOn (with_given result self.new.given.records) self.old self.new }
        ensures page_size { GiverTells self.old (λ given text so_far. self.new.given.page_size ≡ given.page_size) }
        ensures places { GiverTells self.old (λ given text so_far. (table : RamTable) → HasTable given text (Some table)
            → All (λ x. IsPlace table x.place) self.new.given.records) }
        ensures end { GiverTells self.old (EndsSo result) }
        ensures found { TellsFound result self.new }
        ensures none { LeavesNone result self.new }
    {
        self.progress.give_records(&mut self.given);
        if self.given.len() != 0 {
            return RecordEvent::Records;
        }
        match self.found {
            Some(found) => RecordEvent::End(found),
            None => RecordEvent::Records,
        }
    }

    /// Returns the records that the last call of `read_on` gave: none before the first call, and at
    /// the end.
    pub fn given(&self) -> &StreamRound<'a, A>
        ensures { result.now ≡ self.now.given }
    {
        &self.given
    }

    /// Returns the bytes after the stream, once `read_on` returned `End(Closed)`: those after its
    /// end byte, or in a machine's stream those after the footer of RAM's END. In a background
    /// snapshot they begin with the type byte of the first device's section.
    pub fn unread(&self) -> Option<&'a [u8]>
        ensures behind { IfSome result (λ rest. GiverTells self.now (λ given text so_far. IsBehind given text rest.now)) }
        ensures some { self.now.found ≡ Some state.Closed → IsSome result }
    {
        if !self.is_closed() {
            return None;
        }
        Some(self.rest.into_bytes())
    }

    /// Returns how many of the stream's bytes are complete items without a fault that were read,
    /// from the first byte on. Once `read_on` returned `End`, no more of them follow: if the stream
    /// is bad, the item at fault begins after them; if it is closed, it ends there; otherwise an
    /// item that isn't complete begins there.
    ///
    /// Bytes of the pieces before this one count. The number is exact for a stream of less than
    /// 2^64 bytes.
    pub fn valid_up_to(&self) -> u64
        ensures front { GiverTells self.now (λ given text so_far. length text < 2 ^ 64 → HasFront given text result) }
        ensures end { self.now.found ≢ None → GiverTells self.now (λ given text so_far. length text < 2 ^ 64 → IsValidUpTo given text result) }
    {
        let left = self.pending.len() + self.rest.bytes().len();
        self.fed.saturating_sub(left as u64)
    }

    fn is_closed(&self) -> bool
        ensures closed { IsTrue result → self.now.found ≡ Some state.Closed }
        ensures other { IsFalse result → self.now.found ≢ Some state.Closed }
    {
        match self.found {
            Some(StreamState::Closed) => true,
            _ => false,
        }
    }

    /// Returns the stream's table, as soon as the size list was read completely. Page records
    /// follow it.
    pub fn table(&self) -> Option<&Table<A>>
        ensures whole { option_copied result ≡ whole_table self.now.progress }
        ensures table { IfSome (option_copied result) (λ table. GiverTells self.now (λ given text so_far. HasTable given text (Some table))) }
    {
        self.progress.table()
    }
}
