//! Reads a single stream piece after piece, and gives each of its records to a taker.

ghost use Rattle.std.specs.Prelude.{◌≡◌, ◌≢◌, ◌<◌, ◌≤◌, ◌-◌, ◌++◌, ◌^◌, ℕ, List, [], length, take, drop, ⊤, None, Some, IfOk, OnOk, IsTrue, true, false};
ghost use Rattle.std.specs.Io.KnownBytes.{IsAtEnd};
ghost use Rattle.mig_mem.specs.PageSize.{IsPageSize};
ghost use Rattle.mig_stream.specs.Progress.{whole_table};
ghost use Rattle.mig_stream.specs.Reading.{Settings, settings, in_frame};
ghost use Rattle.mig_stream.specs.declared.item.Mode.TheVariants.{Single};
ghost use Rattle.mig_stream.specs.declared.item.StreamState.TheVariants.{Closed};
ghost use Rattle.mig_stream.specs.Giving.{GivenSoFar, HasNoneLeft, with_given};
ghost use Rattle.zimgasol_course.specs.Course.{Begins, Puts, Counts, Keeps, Waits, Taken, TakesAll, Stands};
ghost use Rattle.zimgasol_course.specs.Seen.{OfStream, StillSees, HasSeen};

use crate::taker::Taker;
use mig_stream::{Frame, Pause, RecordEvent, RecordReader, Report, StreamState};
use std::alloc::Global;
use std::io::{self, ErrorKind, Read};
use zimgasol_files::{Trouble, read_piece};

/// How far a stream was read.
#[derive(Drop)]
pub struct Course {
    /// Whether the stream is closed, has a fault, or goes on.
    pub state: StreamState,
    /// The complete sections.
    pub sections: u64,
    /// The bytes of the stream that are complete items without a fault.
    pub valid: u64,
    /// Whether the taker has the stream's table.
    pub has_begun: bool,
    /// The reader for the next piece; None after the stream's end or fault.
    pub pause: Option<Pause>,
    /// What the reader passed over, until the taker takes it.
    pub report: Report,
}

// Gives the taker the table, as soon as `reader` has it. Returns whether the taker has it.
fn begin<T: Taker>(
    reader: &RecordReader<'_>,
    taker: &mut T,
    has_begun: bool,
) -> Result<bool, Trouble>
    ensures ok { IfOk result (λ then. Begins (T.holds taker.old) (T.holds taker.new) (whole_table reader.now.progress) has_begun then) }
    ensures seen { OnOk result (StillSees (T.sees taker.old) (T.sees taker.new)) }
{
    if has_begun {
        return Ok(true);
    }
    match reader.table() {
        Some(table) => {
            taker.begin(table)?;
            Ok(true)
        }
        None => Ok(false),
    }
}

// Gives the taker the records that `reader` returned last.
fn take_given<T: Taker>(reader: &RecordReader<'_>, taker: &mut T) -> Result<(), Trouble>
    ensures ok { OnOk result (Puts true (T.holds taker.old) (T.holds taker.new) reader.now.given) }
    ensures seen { OnOk result (StillSees (T.sees taker.old) (T.sees taker.new)) }
{
    let given = reader.given();
    let count = given.len();
    for i in 0..count {
        let (place, content) = given.record(i);
        taker.put(place, content)?;
    }
    Ok(())
}

// Gives the taker these records if it has the table.
fn take_known<T: Taker>(
    reader: &RecordReader<'_>,
    taker: &mut T,
    has_begun: bool,
) -> Result<(), Trouble>
    ensures ok { OnOk result (Puts has_begun (T.holds taker.old) (T.holds taker.new) reader.now.given) }
    ensures seen { OnOk result (StillSees (T.sees taker.old) (T.sees taker.new)) }
{
    if has_begun {
        return take_given(reader, taker);
    }
    Ok(())
}

// Counts a section that was completed.
fn count_section(gave: RecordEvent, sections: u64) -> u64
    ensures { Counts gave sections result }
{
    if let RecordEvent::Section = gave {
        return sections.saturating_add(1);
    }
    sections
}

// Gives the taker what `reader` returned last, and counts it.
fn take_next<T: Taker>(
    gave: RecordEvent,
    reader: &RecordReader<'_>,
    taker: &mut T,
    has_begun: &mut bool,
    sections: &mut u64,
) -> Result<(), Trouble>
    ensures ok { OnOk result ((given : Settings) (text : List ℕ) (so_far : GivenSoFar) → Waits (T.holds taker.old) given text so_far gave reader.now has_begun.old sections.old
        → Taken (T.holds taker.new) given text (with_given gave reader.now.given.records so_far) reader.now has_begun.new sections.new) }
    ensures seen { OnOk result (StillSees (T.sees taker.old) (T.sees taker.new)) }
{
    *has_begun = begin(reader, taker, *has_begun)?;
    take_known(reader, taker, *has_begun)?;
    *sections = count_section(gave, *sections);
    Ok(())
}

// Gives the taker all that `reader` returns. Returns where the stream stands after it.
fn take_all<T: Taker>(
    reader: &mut RecordReader<'_>,
    report: &mut Report,
    taker: &mut T,
    has_begun: &mut bool,
    sections: &mut u64,
) -> Result<StreamState, Trouble>
    ensures ok { IfOk result (λ found. TakesAll (T.holds taker.old) reader.old has_begun.old sections.old (T.holds taker.new) reader.new has_begun.new sections.new found) }
    ensures none { IfOk result (λ found. HasNoneLeft found reader.new) }
    ensures seen { OnOk result (StillSees (T.sees taker.old) (T.sees taker.new)) }
{
    'records: loop {
        let gave = reader.read_on_reporting(report)?;
        taker.note(report)?;
        if let RecordEvent::End(found) = gave {
            return Ok(found);
        }
        take_next(gave, reader, taker, has_begun, sections)?;
    }
}

// Reads a piece after a pause, and gives its records to the taker. Returns the next pause if the
// stream goes on, its state, and up to which byte it is valid.
fn take_piece<T: Taker>(
    pause: Pause,
    piece: &[u8],
    report: &mut Report,
    taker: &mut T,
    has_begun: &mut bool,
    sections: &mut u64,
) -> Result<(Option<Pause>, StreamState, u64), Trouble>
    ensures ok { IfOk result (λ r. (given : Settings) (text : List ℕ) (found : StreamState) (valid : ℕ) → length (text ++ piece.now) < 2 ^ 63
        → Stands (T.holds taker.old) given text (Some pause) found sections.old valid has_begun.old
        → Stands (T.holds taker.new) given (text ++ piece.now) r.0 r.1 sections.new r.2 has_begun.new) }
    ensures seen { IfOk result (λ r. (given : Settings) (text : List ℕ) (found : StreamState) (valid : ℕ) → length (text ++ piece.now) < 2 ^ 63
        → Stands (T.holds taker.old) given text (Some pause) found sections.old valid has_begun.old
        → T.sees taker.old (OfStream text) → HasSeen (T.sees taker.new) (text ++ piece.now) r.0 r.1 r.2) }
{
    let mut reader = pause.resume(piece);
    let found = take_all(&mut reader, report, taker, has_begun, sections)?;
    let valid = reader.valid_up_to();
    taker.end_piece(piece, valid, found, reader.table())?;
    match found {
        StreamState::Reading => Ok((Some(reader.pause()?), found, valid)),
        _ => Ok((None, found, valid)),
    }
}

impl Course {
    /// Creates the course of a stream before its first byte was read.
    pub fn new(alloc: Global, frame: Frame, page_size: u64, limit: u64) -> Course
        requires page_size { IsPageSize page_size }
        requires limit { limit ≤ 2 ^ 40 }
        ensures begun { result.has_begun ≡ false }
        ensures goes_on { result.pause ≢ None }
        ensures ok { Stands (λ _ _. ⊤) (in_frame frame (settings Single page_size limit)) [] result.pause result.state result.sections result.valid result.has_begun }
    {
        Course {
            state: StreamState::Reading,
            sections: 0,
            valid: 0,
            has_begun: false,
            pause: Some(Pause::new(alloc, frame, page_size, limit, None)),
            report: Report::new(alloc),
        }
    }

    // Reads the next piece of the stream. After the stream's end or a fault the taker only sees it.
    fn feed<T: Taker>(&mut self, piece: &[u8], taker: &mut T) -> Result<(), Trouble>
        ensures ok { OnOk result ((given : Settings) (text : List ℕ) → length (text ++ piece.now) < 2 ^ 63
            → Stands (T.holds taker.old) given text self.old.pause self.old.state self.old.sections self.old.valid self.old.has_begun
            → Stands (T.holds taker.new) given (text ++ piece.now) self.new.pause self.new.state self.new.sections self.new.valid self.new.has_begun) }
        ensures seen { OnOk result ((given : Settings) (text : List ℕ) → length (text ++ piece.now) < 2 ^ 63
            → Stands (T.holds taker.old) given text self.old.pause self.old.state self.old.sections self.old.valid self.old.has_begun
            → HasSeen (T.sees taker.old) text self.old.pause self.old.state self.old.valid
            → HasSeen (T.sees taker.new) (text ++ piece.now) self.new.pause self.new.state self.new.valid) }
    {
        let Some(pause) = self.pause.take() else {
            taker.look_after(piece)?;
            return Ok(());
        };
        let (pause, state, valid) = take_piece(
            pause,
            piece,
            &mut self.report,
            taker,
            &mut self.has_begun,
            &mut self.sections,
        )?;
        self.pause = pause;
        self.state = state;
        self.valid = valid;
        Ok(())
    }

    // Reads the piece that is the first `len` bytes of `buffer`, without the first `skip` of its
    // bytes. Returns how many bytes have still to be skipped.
    fn feed_part<T: Taker>(
        &mut self,
        buffer: &[u8],
        len: usize,
        skip: u64,
        taker: &mut T,
    ) -> Result<u64, Trouble>
        requires { len ≤ length buffer.now }
        ensures skip { IfOk result (λ left. left ≡ skip - len) }
        ensures ok { OnOk result ((given : Settings) (text : List ℕ) → length (text ++ drop skip (take len buffer.now)) < 2 ^ 63
            → Stands (T.holds taker.old) given text self.old.pause self.old.state self.old.sections self.old.valid self.old.has_begun
            → Stands (T.holds taker.new) given (text ++ drop skip (take len buffer.now)) self.new.pause self.new.state self.new.sections self.new.valid self.new.has_begun) }
        ensures seen { OnOk result ((given : Settings) (text : List ℕ) → length (text ++ drop skip (take len buffer.now)) < 2 ^ 63
            → Stands (T.holds taker.old) given text self.old.pause self.old.state self.old.sections self.old.valid self.old.has_begun
            → HasSeen (T.sees taker.old) text self.old.pause self.old.state self.old.valid
            → HasSeen (T.sees taker.new) (text ++ drop skip (take len buffer.now)) self.new.pause self.new.state self.new.valid) }
    {
        let skipped = skip.min(len as u64);
        let piece = &buffer[..len];
        taker.look_before(&piece[..skipped as usize])?;
        self.feed(&piece[skipped as usize..], taker)?;
        taker.progress(len);
        Ok(skip - skipped)
    }

    // Returns whether the stream has a fault, so that nothing after it is read.
    fn is_bad(&self) -> bool
        ensures over { IsTrue result → self.now.pause ≡ None }
        ensures other { IsTrue result → self.now.state ≢ Closed }
    {
        match (&self.pause, self.state) {
            (None, StreamState::Bad(_)) => true,
            _ => false,
        }
    }

    /// Reads the stream that begins `before` bytes after the beginning of the input, up to the
    /// input's end or to a fault of the stream. Returns whether the input's end was reached. The
    /// first `len` bytes of the input are in `buffer`; it is full, unless the input has ended.
    ///
    /// # Errors
    ///
    /// `Trouble::Unread` if a read fails, `Trouble::NoMemory`, and those of `taker`.
    pub fn read<R: Read, T: Taker>(
        &mut self,
        input: &mut R,
        buffer: &mut [u8],
        len: usize,
        before: u64,
        taker: &mut T,
    ) -> Result<bool, Trouble>
        requires room { 0 < length buffer.old }
        requires within { len ≤ length buffer.old }
        requires end { len < length buffer.old → IsAtEnd (R.remaining input.old) }
        ensures ok { OnOk result ((given : Settings) (rest : List ℕ) → R.remaining input.old ≡ Some rest → length (take len buffer.old ++ rest) < 2 ^ 63
            → Stands (T.holds taker.old) given [] self.old.pause self.old.state self.old.sections self.old.valid self.old.has_begun
            → Stands (T.holds taker.new) given (drop before (take len buffer.old ++ rest)) self.new.pause self.new.state self.new.sections self.new.valid self.new.has_begun) }
        ensures seen { OnOk result ((given : Settings) (rest : List ℕ) → R.remaining input.old ≡ Some rest → length (take len buffer.old ++ rest) < 2 ^ 63
            → Stands (T.holds taker.old) given [] self.old.pause self.old.state self.old.sections self.old.valid self.old.has_begun
            → HasSeen (T.sees taker.old) [] self.old.pause self.old.state self.old.valid
            → HasSeen (T.sees taker.new) (drop before (take len buffer.old ++ rest)) self.new.pause self.new.state self.new.valid) }
    {
        let mut len = len;
        let mut skip = before;
        'pieces: for _ in 0..u64::MAX {
            if len == 0 {
                return Ok(true);
            }
            skip = self.feed_part(buffer, len, skip, taker)?;
            if self.is_bad() {
                return Ok(false);
            }
            len = read_piece(input, buffer)?;
        }
        Err(Trouble::Unread(io::Error::from(ErrorKind::Interrupted)))
    }
}
