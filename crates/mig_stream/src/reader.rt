//! The reader of a stream that is fed in pieces, or is complete. Loaders keep one.
//!
//! It keeps what was read as a `Progress`. It keeps only the stream's bytes of an item that isn't
//! complete yet. It reads a piece in place, but for the bytes that complete such an item.

ghost use Rattle.std.specs.Prelude.{◌≡◌, ◌≢◌, ◌+◌, ◌<◌, ◌≤◌, ◌^◌, ◌++◌, ◌↔◌, ℕ, Bool, List, [], ◌∷◌, length, take, true, false, IsTrue, IsFalse, IsOk, Some, All, IfOk, IfSome, IfNone, OnOk, OnErr};
ghost use Rattle.std.specs.Option.{option_copied};
ghost use Rattle.mig_mem.specs.PageSize.{IsPageSize};
ghost use Rattle.mig_mem.specs.RamTable.{RamTable};
ghost use Rattle.mig_mem.specs.Place.{IsPlace};
ghost use Rattle.mig_stream.specs.declared.item.StreamState.TheVariants as state;
ghost use Rattle.mig_stream.specs.PageRecord.{PageRecord};
ghost use Rattle.mig_stream.specs.Items.{size};
ghost use Rattle.mig_stream.specs.Taking.{HasTaken};
ghost use Rattle.mig_stream.specs.Reading.{settings, in_frame, with_waiting, state_at};
ghost use Rattle.mig_stream.specs.Kept.{bytes_of};
ghost use Rattle.mig_stream.specs.Report.{ItemAt, IsReport, ReadsReporting};
ghost use Rattle.mig_stream.specs.Reader.{IsUnfinished, ReadsOn, nothing_yet, with_piece, over, one_taken, Stands, StepsOn, Tells, waiting, HasState, IsFinal, IsValidUpTo, HasClosedAt, HasTable, HasRound};

use crate::StreamFault;
use crate::item::{Frame, Mode, StreamState};
use crate::piece::Piece;
use crate::progress::Progress;
use crate::report::Report;
use crate::reporting::read_reporting;
use crate::round::StreamRound;
use crate::stop::Stop;
use mig_mem::{NoMemory, Table};
use std::alloc::{Allocator, Global};
use std::fmt;
use std::marker::Model;

/// Reads a stream from pieces of its bytes. It returns the reading of all bytes fed, however they
/// were cut.
///
/// # Examples
///
/// A main stream is fed in pieces of `len` bytes, to find where RAM's part of it ends:
///
/// <!-- quoted from crates/mig_uses/src/machine.rt -->
/// ```rust
/// let frame = Frame::Machine;
/// let mut reader = StreamReader::new_with(
///     alloc,
///     frame,
///     Mode::Main,
///     PAGE_SIZE_4K,
///     MAX_TOTAL,
///     None,
/// );
/// for piece in text.chunks(len.max(1)) {
///     if reader.ended() || reader.fed().checked_add(piece.len() as u64).is_none() {
///         return Err(Trouble::Input);
///     }
///     reader.feed(piece)?;
/// }
/// Ok(reader.closed_at())
/// ```
pub struct StreamReader<'a, A: Allocator = Global> {
    progress: Progress<'a, A>,
    // the bytes of the item that isn't complete yet
    pending: Vec<u8, A>,
    // the state of the bytes fed
    found: StreamState,
    // how many of the bytes fed are complete items without a fault
    valid_up_to: u64,
    fed: u64,
    ended: bool,
}

// Written out, so that a caller's proof passes a call where a value is dropped.
impl<'a, A: Allocator> Drop for StreamReader<'a, A> {
    fn drop(self) {
        let StreamReader {
            progress: _,
            pending: _,
            found: _,
            valid_up_to: _,
            fed: _,
            ended: _,
        } = self;
    }
}

impl<'a, A: Allocator> Model for StreamReader<'a, A> {
    ghost use Rattle.std.specs.Prelude.{◌≡◌};
    ghost use Rattle.mig_stream.specs.declared.item.StreamState.TheVariants as state;
    ghost use Rattle.mig_stream.specs.Reader.{Reader, IsUnfinished};

    ghost Value = { Reader };

    ghost view = { λ r. record { progress = r.progress; pending = r.pending.items; found = r.found; valid_up_to = r.valid_up_to; fed = r.fed; ended = r.ended } };

    ghost invariant = { λ r. r.found ≡ state.Reading → IsUnfinished r.progress r.pending.items };
}

// Guest memory isn't printed.
impl<'a, A: Allocator> fmt::Debug for StreamReader<'a, A> {
    fn fmt<W: fmt::Write>(&self, f: &mut fmt::Formatter<W>) -> fmt::Result {
        f.pad("StreamReader { .. }")
    }
}

// Returns the state of a stream that may have ended.
fn state_at(ended: bool, found: StreamState) -> StreamState
    ensures { result ≡ state_at ended found }
{
    match (ended, found) {
        (true, StreamState::Reading) => StreamState::Bad(StreamFault::Truncated),
        _ => found,
    }
}

/// Completes the pending item from the beginning of a piece. Returns what is left of the piece, or
/// None if the item isn't complete with all of it.
pub(crate) fn complete<'b, A: Allocator>(
    progress: &Progress<'_, A>,
    pending: &mut Vec<u8, A>,
    piece: &'b [u8],
) -> Result<Option<&'b [u8]>, NoMemory>
    requires { IsUnfinished progress.now pending.old.items }
    ensures text { IfOk result (λ o. IfSome o (λ rest. pending.new.items ++ rest.now ≡ pending.old.items ++ piece.now)) }
    ensures whole { IfOk result (λ o. IfSome o (λ rest. length pending.new.items ≡ size progress.now.page_size progress.now.due pending.new.items)) }
    ensures short { IfOk result (λ o. IfNone o ((pending.new.items ≡ pending.old.items ++ piece.now) × IsUnfinished progress.now pending.new.items)) }
    ensures front { take (length pending.old.items) pending.new.items ≡ pending.old.items }
{
    let mut rest = piece;
    'bytes: while pending.len() < progress.size(pending) {
        if rest.is_empty() {
            return Ok(None);
        }
        let missing = progress.size(pending) - pending.len();
        let (front, behind) = rest.split_at(missing.min(rest.len()));
        pending.extend_from_slice(front)?;
        rest = behind;
    }
    Ok(Some(rest))
}

/// Replaces the bytes of `kept` by `bytes`. An `Err` changes nothing.
pub(crate) fn keep<A: Allocator>(kept: &mut Vec<u8, A>, bytes: &[u8]) -> Result<(), NoMemory>
    ensures ok { OnOk result (kept.new.items ≡ bytes.now) }
    ensures err { OnErr result (kept.new.items ≡ kept.old.items) }
{
    let len = kept.len();
    if len < bytes.len() {
        kept.extend_from_slice(&bytes[len..])?;
    }
    kept.truncate(bytes.len());
    kept.copy_from_slice(bytes);
    Ok(())
}

// Reads bytes in place, and keeps those of an item that isn't complete. Returns the state of the
// stream, and how many bytes are left. After an `Err` some items were taken.
fn read_in_place<'a, A: Allocator + Copy>(
    progress: &mut Progress<'a, A>,
    pending: &mut Vec<u8, A>,
    bytes: Piece<'a, '_>,
) -> Result<(StreamState, usize), NoMemory>
    ensures ok { IfOk result (λ r. ReadsOn progress.old (bytes_of bytes.entry) progress.new pending.new.items r.1 r.0) }
    ensures err { OnErr result (HasTaken progress.old (bytes_of bytes.entry) progress.new) }
    ensures kept { OnErr result (pending.new.items ≡ pending.old.items) }
{
    let (rest, found) = progress.run(bytes)?;
    match found {
        StreamState::Reading => keep(pending, rest.bytes())?,
        _ => pending.clear(),
    }
    Ok((found, rest.bytes().len()))
}

// Reads a piece that follows the pending bytes. After an `Err` some items were taken, and other
// bytes may follow the pending ones.
fn read<A: Allocator + Copy>(
    progress: &mut Progress<'_, A>,
    pending: &mut Vec<u8, A>,
    piece: &[u8],
) -> Result<(StreamState, usize), NoMemory>
    requires { IsUnfinished progress.old pending.old.items }
    ensures ok { IfOk result (λ r. ReadsOn progress.old (pending.old.items ++ piece.now) progress.new pending.new.items r.1 r.0) }
    ensures err { OnErr result (HasTaken progress.old (pending.old.items ++ piece.now) progress.new) }
    ensures kept { OnErr result (take (length pending.old.items) pending.new.items ≡ pending.old.items) }
{
    if pending.is_empty() {
        return read_in_place(progress, pending, Piece::Passing(piece));
    }
    let Some(rest) = complete(progress, pending, piece)? else {
        return Ok((StreamState::Reading, pending.len()));
    };
    match progress.take(Piece::Passing(pending)) {
        Ok(()) => read_in_place(progress, pending, Piece::Passing(rest)),
        Err(Stop::Fault(fault)) => Ok((StreamState::Bad(fault), pending.len() + rest.len())),
        Err(Stop::Memory) => Err(NoMemory),
    }
}

impl<'a, A: Allocator + Copy> StreamReader<'a, A> {
    /// Creates a reader for a stream of `mode` of RAM's sections alone with pages of `page_size`
    /// bytes. No bytes were fed. Its size list may add up to at most `limit` bytes.
    pub fn new(alloc: A, mode: Mode, page_size: u64, limit: u64) -> StreamReader<'a, A>
        requires page_size { IsPageSize page_size }
        requires limit { limit ≤ 2 ^ 40 }
        ensures stands { Stands (settings mode page_size limit) nothing_yet result }
        ensures open { IsFalse result.ended }
        ensures fed { result.fed ≡ 0 }
    {
        StreamReader::new_with(alloc, Frame::Ram, mode, page_size, limit, None)
    }

    /// Creates a reader for a stream of `frame` and `mode` with pages of `page_size` bytes. No
    /// bytes were fed. Its size list may add up to at most `limit` bytes.
    ///
    /// A section of a single stream, or a round of a main stream, may have at most `waiting` page
    /// records: one more is the fault `Waiting`. Complete rounds that weren't taken aren't counted.
    /// `None` is any number.
    pub fn new_with(
        alloc: A,
        frame: Frame,
        mode: Mode,
        page_size: u64,
        limit: u64,
        waiting: Option<u64>,
    ) -> StreamReader<'a, A>
        requires page_size { IsPageSize page_size }
        requires limit { limit ≤ 2 ^ 40 }
        ensures stands { Stands (with_waiting waiting (in_frame frame (settings mode page_size limit))) nothing_yet result }
        ensures open { IsFalse result.ended }
        ensures fed { result.fed ≡ 0 }
    {
        StreamReader {
            progress: Progress::new(alloc, frame, mode, page_size, limit, waiting),
            pending: Vec::new(alloc),
            found: StreamState::Reading,
            valid_up_to: 0,
            fed: 0,
            ended: false,
        }
    }

    /// Creates a reader that was fed `text`, a stream of `mode` of RAM's sections alone with pages
    /// of `page_size` bytes. Its size list may add up to at most `limit` bytes. The bytes of pages
    /// are not copied: the rounds lend them from `text`.
    ///
    /// # Errors
    ///
    /// `NoMemory`: an allocation was refused.
    pub fn of_text(
        alloc: A,
        mode: Mode,
        page_size: u64,
        limit: u64,
        text: &'a [u8],
    ) -> Result<StreamReader<'a, A>, NoMemory>
        requires page_size { IsPageSize page_size }
        requires limit { limit ≤ 2 ^ 40 }
        ensures stands { IfOk result (λ r. Stands (settings mode page_size limit) (with_piece text.now nothing_yet) r) }
        ensures open { IfOk result (λ r. IsFalse r.ended) }
        ensures fed { IfOk result (λ r. r.fed ≡ length text.now) }
    {
        StreamReader::of_text_with(alloc, Frame::Ram, mode, page_size, limit, None, text)
    }

    /// Creates a reader that was fed `text`, a stream of `frame` and `mode` with pages of
    /// `page_size` bytes. Its size list may add up to at most `limit` bytes. The bytes of pages are
    /// not copied: the rounds lend them from `text`.
    ///
    /// A section of a single stream, or a round of a main stream, may have at most `waiting` page
    /// records: one more is the fault `Waiting`. `None` is any number.
    ///
    /// # Errors
    ///
    /// `NoMemory`: an allocation was refused.
    pub fn of_text_with(
        alloc: A,
        frame: Frame,
        mode: Mode,
        page_size: u64,
        limit: u64,
        waiting: Option<u64>,
        text: &'a [u8],
    ) -> Result<StreamReader<'a, A>, NoMemory>
        requires page_size { IsPageSize page_size }
        requires limit { limit ≤ 2 ^ 40 }
        ensures stands { IfOk result (λ r. Stands (with_waiting waiting (in_frame frame (settings mode page_size limit))) (with_piece text.now nothing_yet) r) }
        ensures open { IfOk result (λ r. IsFalse r.ended) }
        ensures fed { IfOk result (λ r. r.fed ≡ length text.now) }
    {
        let mut progress = Progress::new(alloc, frame, mode, page_size, limit, waiting);
        let mut pending = Vec::new(alloc);
        let (found, left) = read_in_place(&mut progress, &mut pending, Piece::Staying(text))?;
        Ok(StreamReader {
            progress,
            pending,
            found,
            valid_up_to: text.len().saturating_sub(left) as u64,
            fed: text.len() as u64,
            ended: false,
        })
    }

    /// Takes the next piece of the stream. Once the stream is closed or bad, the bytes fed are only
    /// counted, and the call never fails.
    ///
    /// # Errors
    ///
    /// `NoMemory`: an allocation was refused. Nothing changes.
    pub fn feed(&mut self, piece: &[u8]) -> Result<(), NoMemory>
        requires open { IsFalse self.old.ended }
        requires room { self.old.fed + length piece.now < 2 ^ 64 }
        ensures stands { OnOk result (StepsOn (with_piece piece.now) self.old self.new) }
        ensures settled { Tells self.old (λ given so_far. IsFinal given so_far.text → IsOk result) }
        ensures fed { OnOk result (self.new.fed ≡ self.old.fed + length piece.now) }
        ensures open { IsFalse self.new.ended }
        ensures err { OnErr result (self.new ≡ self.old) }
    {
        if !self.is_reading() {
            self.fed += piece.len() as u64;
            return Ok(());
        }
        let left = self.read_on(piece)?;
        self.fed += piece.len() as u64;
        self.valid_up_to = self.fed.saturating_sub(left as u64);
        Ok(())
    }

    /// Takes the next piece of the stream as `feed` does, and adds to `report` each item that is
    /// complete with it, but the parts of page records. `report` is the one that the earlier pieces
    /// had.
    ///
    /// # Errors
    ///
    /// `NoMemory`: an allocation was refused. Nothing changes.
    pub fn feed_reporting(&mut self, piece: &[u8], report: &mut Report<A>) -> Result<(), NoMemory>
        requires open { IsFalse self.old.ended }
        requires room { self.old.fed + length piece.now < 2 ^ 64 }
        ensures report { OnOk result (Tells self.old (λ given so_far. (cleared : List ItemAt)
            → IsReport given so_far.text cleared report.old → IsReport given (so_far.text ++ piece.now) cleared report.new)) }
        ensures stands { OnOk result (StepsOn (with_piece piece.now) self.old self.new) }
        ensures settled { Tells self.old (λ given so_far. IsFinal given so_far.text → IsOk result) }
        ensures fed { OnOk result (self.new.fed ≡ self.old.fed + length piece.now) }
        ensures open { IsFalse self.new.ended }
        ensures err { OnErr result ((self.new ≡ self.old) × (report.new ≡ report.old)) }
    {
        if !self.is_reading() {
            self.fed += piece.len() as u64;
            return Ok(());
        }
        let left = self.read_on_reporting(piece, report)?;
        self.fed += piece.len() as u64;
        self.valid_up_to = self.fed.saturating_sub(left as u64);
        Ok(())
    }

    // Reads on, and returns how many bytes are left. An `Err` changes nothing.
    fn read_on(&mut self, piece: &[u8]) -> Result<usize, NoMemory>
        requires { self.old.found ≡ state.Reading }
        ensures ok { IfOk result (λ left. ReadsOn self.old.progress (self.old.pending ++ piece.now) self.new.progress self.new.pending left self.new.found) }
        ensures same { OnOk result ((self.new.fed ≡ self.old.fed) × (self.new.ended ≡ self.old.ended)) }
        ensures err { OnErr result (self.new ≡ self.old) }
    {
        let checkpoint = self.progress.checkpoint();
        let len = self.pending.len();
        match read(&mut self.progress, &mut self.pending, piece) {
            Ok((found, left)) => {
                self.found = found;
                Ok(left)
            }
            Err(error) => {
                self.progress.undo(checkpoint);
                self.pending.truncate(len);
                Err(error)
            }
        }
    }

    // Reads on as `read_on` does, and adds the items to `report`. An `Err` changes nothing.
    fn read_on_reporting(&mut self, piece: &[u8], report: &mut Report<A>) -> Result<usize, NoMemory>
        requires { self.old.found ≡ state.Reading }
        ensures ok { IfOk result (λ left. ReadsReporting self.old.progress (self.old.pending ++ piece.now) self.new.progress self.new.pending left self.new.found report.old report.new) }
        ensures same { OnOk result ((self.new.fed ≡ self.old.fed) × (self.new.ended ≡ self.old.ended)) }
        ensures err { OnErr result (self.new ≡ self.old) }
        ensures kept { OnErr result (report.new ≡ report.old) }
    {
        let before = self.progress.checkpoint();
        let len = self.pending.len();
        let mark = report.mark();
        match read_reporting(&mut self.progress, &mut self.pending, piece, report) {
            Ok((found, left)) => {
                self.found = found;
                Ok(left)
            }
            Err(error) => {
                self.progress.undo(before);
                self.pending.truncate(len);
                report.go_back(mark);
                Err(error)
            }
        }
    }
}

impl<'a, A: Allocator> StreamReader<'a, A> {
    fn is_reading(&self) -> bool
        ensures reading { IsTrue result → self.now.found ≡ state.Reading }
        ensures other { IsFalse result → self.now.found ≢ state.Reading }
    {
        match self.found {
            StreamState::Reading => true,
            _ => false,
        }
    }

    /// Ends the stream: if it isn't closed or bad, it is bad from now on, with `Truncated`. A
    /// second call changes nothing.
    pub fn end(&mut self)
        ensures value { self.new ≡ record self.old { ended = true } }
        ensures stands { StepsOn over self.old self.new }
    {
        self.ended = true;
    }

    /// Returns whether the stream was ended.
    pub fn ended(&self) -> bool
        ensures { result ≡ self.now.ended }
    {
        self.ended
    }

    /// Returns how many bytes were fed.
    pub fn fed(&self) -> u64
        ensures { result ≡ self.now.fed }
    {
        self.fed
    }

    /// Returns the state of the stream that was fed: more bytes are needed, closed, or bad.
    pub fn state(&self) -> StreamState
        ensures { Tells self.now (λ given so_far. HasState given so_far.text so_far.ended result) }
    {
        state_at(self.ended, self.found)
    }

    /// Returns how many of the bytes fed are complete items without a fault, from the first byte
    /// on. If the stream is bad, the item at fault begins after them. If it is closed, it ends
    /// there. Otherwise an item that isn't complete begins there.
    pub fn valid_up_to(&self) -> u64
        ensures { Tells self.now (λ given so_far. IsValidUpTo given so_far.text result) }
    {
        self.valid_up_to
    }

    /// Returns how many of the bytes fed the stream has, once it is closed: those up to its end
    /// byte, or in a machine's stream up to the footer of RAM's END, or up to the first device's
    /// section of a background snapshot. The bytes fed after them are left to the caller.
    pub fn closed_at(&self) -> Option<u64>
        ensures { Tells self.now (λ given so_far. HasClosedAt given so_far.text result) }
    {
        match self.found {
            StreamState::Closed => Some(self.valid_up_to),
            _ => None,
        }
    }

    /// Returns the table, once the size list is complete. It stays, also if a fault follows.
    pub fn table(&self) -> Option<&Table<A>>
        ensures { Tells self.now (λ given so_far. HasTable given so_far.text (option_copied result)) }
    {
        self.progress.table()
    }

    /// Takes the next complete round that was not taken, in the order of the stream. It allocates
    /// nothing, and is always `Ok`.
    pub fn take_round(&mut self) -> Result<Option<StreamRound<'a, A>>, NoMemory>
        ensures ok { IsOk result }
        ensures none { IfOk result (λ o. IfNone o (self.new ≡ self.old)) }
        ensures last { IfOk result (λ o. IfNone o (Tells self.old (λ given so_far. (i : ℕ) (round : List PageRecord) →
            HasRound given so_far.text i round → i < so_far.taken))) }
        ensures round { IfOk result (λ o. IfSome o (λ r. Tells self.old (λ given so_far.
            (r.page_size ≡ given.page_size) × HasRound given so_far.text so_far.taken r.records))) }
        ensures places { IfOk result (λ o. IfSome o (λ r. Tells self.old (λ given so_far. (table : RamTable) →
            HasTable given so_far.text (Some table) → All (λ x. IsPlace table x.place) r.records))) }
        ensures stands { IfOk result (λ o. IfSome o (λ r. StepsOn one_taken self.old self.new)) }
        ensures fewer { IfOk result (λ o. IfSome o (λ r. waiting self.old ≡ waiting self.new + 1)) }
        ensures same { (self.new.fed ≡ self.old.fed) × (self.new.ended ≡ self.old.ended) }
    {
        Ok(self.progress.take_round())
    }
}
