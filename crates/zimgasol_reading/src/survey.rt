//! Reads a single stream in pieces. Passes each page on as it is read, counts the stream's items,
//! and finds its fault.

ghost use Rattle.std.specs.Prelude.{◌≡◌, ◌↔◌, ◌<◌, ◌≤◌, ◌++◌, ◌^◌, ℕ, List, [], length, take, drop, Some, All, IfOk, OnOk, IfSome, IsNone, IsTrue, true, false};
ghost use Rattle.std.specs.Io.KnownBytes.{Consumes, IsAtEnd};
ghost use Rattle.mig_mem.specs.PageSize.{IsPageSize};
ghost use Rattle.mig_stream.specs.declared.item.Mode.TheVariants.{Single};
ghost use Rattle.mig_stream.specs.declared.item.StreamState.TheVariants.{Closed};
ghost use Rattle.mig_stream.specs.Reading.{Settings, settings, in_frame};
ghost use Rattle.zimgasol_course.specs.Course.{Stands};
ghost use Rattle.zimgasol_course.specs.Seen.{OfStream, HasSeen};
ghost use Rattle.zimgasol_files.specs.Asked.{page_bytes, most_total, ChecksEnding};
ghost use Rattle.zimgasol_reading.specs.Coverage.{IsWhole, HasItsPages};
ghost use Rattle.zimgasol_reading.specs.Libvirt.{IsHeader, IsBefore};
ghost use Rattle.zimgasol_reading.specs.Recorded.{AreCountedAndTaken};
ghost use Rattle.zimgasol_reading.specs.Surveyed.{IsSurveyed, IsTaken, IsAsked, IsEnded, before_of};
ghost use Rattle.zimgasol_reading.specs.Tailed.{HasSeenBytes, HasEnding};

use crate::beside::{Beside, Parts};
use crate::blocks::{Blocks, Coverage};
use crate::heads::Head;
use crate::libvirt::{LibvirtHeader, header_of};
use crate::notes::Notes;
use crate::noting::Noting;
use crate::sink::GuestSink;
use crate::tail::{Ending, Tail};
use mig_mem::Place;
use mig_stream::{Frame, StreamState};
use std::alloc::{AllocGlobal, Global};
use std::fs::{Files, Metadata};
use std::io::{Read, Write};
use std::rt::Clock;
use zimgasol_course::Course;
use zimgasol_files::{StreamWords, Trouble, Watch, piece_buffer, read_piece};

/// The survey of a stream.
#[derive(Drop)]
pub struct Survey {
    /// The frame that the stream was read in.
    pub frame: Frame,
    pub page_size: u64,
    /// The header of libvirt's before the stream.
    pub libvirt: Option<LibvirtHeader>,
    /// The blocks and their records, once the size list is complete.
    pub blocks: Option<Blocks>,
    /// The page of the last page record.
    pub last: Option<Place>,
    /// The items between the sections.
    pub notes: Notes,
    /// The first bytes of the item that isn't complete, or has the fault.
    pub head: Head,
    /// Whether the stream is closed, has a fault, or has ended too early.
    pub state: StreamState,
    /// The complete sections.
    pub sections: u64,
    /// The bytes of the stream that are complete items without a fault.
    pub valid: u64,
    /// The bytes of the input that were read, with libvirt's header and the bytes after the stream.
    /// After a fault no more are read.
    pub len: u64,
    /// What is known of the bytes after RAM, once the input's end was reached.
    pub ending: Ending,
    /// The progress that is printed.
    pub watch: Watch,
    /// Whether the stream is applied to existing memory, so that it needn't have a record of each
    /// page.
    pub is_laid_over: bool,
    /// Whether pages without a record are meant (`--partial`).
    pub is_partial: bool,
    /// The most bytes of guest memory that the size list may have.
    pub limit: u64,
    // whether the bytes after RAM are checked
    checks_tail: bool,
    // whether the input's end was reached, and the length of the file that it is
    is_over: bool,
    file_len: Option<u64>,
}

impl Survey {
    /// Creates the survey of a stream before its first byte was read.
    pub fn new(alloc: Global, words: &StreamWords<'_>, watch: Watch) -> Survey
        ensures page_size { IsPageSize result.page_size }
        ensures limit { result.limit ≤ 2 ^ 40 }
        ensures asked { (result.frame ≡ words.now.frame) × (result.is_partial ≡ words.now.partial) × (result.is_laid_over ≡ false) }
        ensures sizes { (result.page_size ≡ page_bytes words.now.page_size) × (result.limit ≡ most_total words.now) }
        ensures tail { result.checks_tail ≡ true ↔ ChecksEnding words.now }
    {
        let page_size = words.page_size.bytes();
        Survey {
            frame: words.frame,
            page_size,
            libvirt: None,
            blocks: None,
            last: None,
            notes: Notes::new(alloc),
            head: Head::new(alloc),
            state: StreamState::Reading,
            sections: 0,
            valid: 0,
            len: 0,
            ending: Ending::unchecked(),
            watch,
            is_laid_over: false,
            is_partial: words.partial,
            limit: words.limit(),
            checks_tail: words.checks_tail(),
            is_over: false,
            file_len: None,
        }
    }

    /// Returns the number of bytes before the stream: those of libvirt's header.
    pub fn before(&self) -> u64
        ensures { result ≡ before_of self.now.libvirt }
    {
        match self.libvirt {
            Some(header) => header.len,
            None => 0,
        }
    }

    /// Returns whether each page has a record or needn't have one, after the stream was read.
    pub fn has_its_pages(&self) -> bool
        ensures { IsTrue result ↔ HasItsPages self.now.is_laid_over self.now.is_partial (IfSome self.now.blocks IsWhole) }
    {
        if self.is_laid_over || self.is_partial {
            return true;
        }
        match &self.blocks {
            Some(blocks) => blocks.is_whole(),
            None => true,
        }
    }

    /// Returns how much of the memory the stream has, after it was read to its end.
    pub fn coverage(&self) -> Coverage {
        match &self.blocks {
            Some(blocks) if !self.is_laid_over => blocks.coverage(self.is_partial),
            _ => Coverage::Whole,
        }
    }

    /// Takes the length of the file that the stream is read from.
    pub fn expect_file(&mut self, metadata: &Metadata)
        ensures { IsAsked self.old self.new }
    {
        if metadata.is_file() {
            self.file_len = Some(metadata.len());
            self.watch.expect_total(metadata.len());
        }
    }

    /// Returns the length of the input in bytes; None if reading stopped at a fault, and the input
    /// is no plain file.
    pub fn input_len(&self) -> Option<u64> {
        if self.is_over {
            return Some(self.len);
        }
        self.file_len
    }

    // Reads the first piece of `input`, and libvirt's header in it. Returns the piece's length.
    fn read_first<R: Read>(&mut self, input: &mut R, buffer: &mut [u8]) -> Result<usize, Trouble>
        ensures room { length buffer.new ≡ length buffer.old }
        ensures within { IfOk result (λ len. len ≤ length buffer.new) }
        ensures bytes { IfOk result (λ len. Consumes (R.remaining input.old) (R.remaining input.new) (take len buffer.new)) }
        ensures end { IfOk result (λ len. len < length buffer.new → IsAtEnd (R.remaining input.new)) }
        ensures header { IfOk result (λ len. IfSome self.new.libvirt (λ header. IsHeader (take len buffer.new) header.len)) }
        ensures before { IfOk result (λ len. IsBefore (take len buffer.new) (before_of self.new.libvirt)) }
        ensures asked { IsAsked self.old self.new }
    {
        let len = read_piece(input, buffer)?;
        self.libvirt = header_of(&buffer[..len])?;
        Ok(len)
    }

    // Takes how far a stream was read.
    fn take_course(
        &mut self,
        course: Course,
        blocks: Option<Blocks>,
        is_over: bool,
        tail: &Tail,
    ) -> Result<(), Trouble>
        ensures asked { IsAsked self.old self.new }
        ensures libvirt { self.new.libvirt ≡ self.old.libvirt }
        ensures state { self.new.state ≡ course.state }
        ensures sections { self.new.sections ≡ course.sections }
        ensures valid { self.new.valid ≡ course.valid }
        ensures blocks { self.new.blocks ≡ blocks }
        ensures ending { OnOk result (course.state ≡ Closed → HasEnding self.old.checks_tail tail.now self.new.ending.fault) }
    {
        self.blocks = blocks;
        self.is_over = is_over;
        self.state = course.state;
        self.sections = course.sections;
        self.valid = course.valid;
        self.ending = ending_of(tail, self.checks_tail, self.state)?;
        Ok(())
    }

    /// Reads `input` to its end, or to a fault, and passes the pages of its stream to `sink`, which
    /// it returns. What it finds is what the one reading of the bytes after libvirt's header has,
    /// and the sink has taken the records of that reading.
    ///
    /// # Errors
    ///
    /// `Trouble::Unread` if a read fails, `Trouble::Libvirt` and `Trouble::Packed` of libvirt's
    /// header, `Trouble::NoMemory`, and those of `sink`.
    pub fn read<H: AllocGlobal + Files + Clock, R: Read, S: GuestSink<H> + Drop, E: Write>(
        &mut self,
        rt: &H,
        input: &mut R,
        buffer: &mut [u8],
        sink: S,
        errors: &mut E,
    ) -> (Result<(), Trouble>, S)
        requires room { 0 < length buffer.old }
        requires page_size { IsPageSize self.old.page_size }
        requires limit { self.old.limit ≤ 2 ^ 40 }
        ensures asked { OnOk result.0 (IsAsked self.old self.new) }
        ensures header { OnOk result.0 ((text : List ℕ) → R.remaining input.old ≡ Some text → IfSome self.new.libvirt (λ header. IsHeader text header.len)) }
        ensures found { OnOk result.0 ((text : List ℕ) → R.remaining input.old ≡ Some text → length text < 2 ^ 63
            → IsSurveyed (in_frame self.old.frame (settings Single self.old.page_size self.old.limit)) (drop (before_of self.new.libvirt) text) self.new.state self.new.sections self.new.valid self.new.blocks) }
        ensures taken { OnOk result.0 ((text : List ℕ) → R.remaining input.old ≡ Some text → length text < 2 ^ 63
            → IsTaken (S.holds result.1) (in_frame self.old.frame (settings Single self.old.page_size self.old.limit)) (drop (before_of self.new.libvirt) text) self.new.state) }
        ensures before { OnOk result.0 (16 ≤ length buffer.old → (text : List ℕ) → R.remaining input.old ≡ Some text → IsBefore text (before_of self.new.libvirt)) }
        ensures ended { OnOk result.0 ((text : List ℕ) → R.remaining input.old ≡ Some text → length text < 2 ^ 63 → All (λ byte. byte < 2 ^ 8) text → self.new.state ≡ Closed
            → IsEnded (self.old.checks_tail ≡ true) (in_frame self.old.frame (settings Single self.old.page_size self.old.limit)) (drop (before_of self.new.libvirt) text) self.new.ending.fault) }
    {
        let len = match self.read_first(input, buffer) {
            Ok(len) => len,
            Err(trouble) => return (Err(trouble), sink),
        };
        let before = self.before();
        let course = Course::new(rt.alloc(), self.frame, self.page_size, self.limit);
        let tail = Tail::new(rt.alloc(), self.checks_tail);
        let parts = Parts {
            rt,
            errors,
            last: &mut self.last,
            notes: &mut self.notes,
            head: &mut self.head,
            watch: &mut self.watch,
            len: &mut self.len,
        };
        let noting = Noting::new(rt.alloc(), parts, sink, tail);
        let (read, sink) = read_course(course, input, buffer, len, before, noting);
        match read {
            Ok((course, blocks, is_over, tail)) => {
                (self.take_course(course, blocks, is_over, &tail), sink)
            }
            Err(trouble) => (Err(trouble), sink),
        }
    }
}

// Returns what is known of the bytes after RAM, if the stream has them and they are checked.
fn ending_of(tail: &Tail, checks: bool, found: StreamState) -> Result<Ending, Trouble>
    ensures { IfOk result (λ ending. found ≡ Closed → HasEnding checks tail.now ending.fault) }
{
    match found {
        StreamState::Closed if checks => {
            let ending = tail.ending()?;
            Ok(ending)
        }
        _ => Ok(Ending::unchecked()),
    }
}

// Reads a stream. Returns how far it was read, its blocks, whether the input's end was reached, and
// the bytes after RAM; and the sink.
fn read_course<H: AllocGlobal + Files, R: Read, B: Beside<H> + Drop, S: GuestSink<H> + Drop>(
    mut course: Course,
    input: &mut R,
    buffer: &mut [u8],
    len: usize,
    before: u64,
    mut noting: Noting<H, B, S>,
) -> (Result<(Course, Option<Blocks>, bool, Tail), Trouble>, S)
    requires room { 0 < length buffer.old }
    requires within { len ≤ length buffer.old }
    requires end { len < length buffer.old → IsAtEnd (R.remaining input.old) }
    ensures ok { IfOk result.0 (λ r. (given : Settings) (rest : List ℕ) → R.remaining input.old ≡ Some rest → length (take len buffer.old ++ rest) < 2 ^ 63
        → Stands (AreCountedAndTaken noting.blocks (S.holds noting.sink)) given [] course.pause course.state course.sections course.valid course.has_begun
        → Stands (AreCountedAndTaken r.1 (S.holds result.1)) given (drop before (take len buffer.old ++ rest)) r.0.pause r.0.state r.0.sections r.0.valid r.0.has_begun) }
    ensures seen { IfOk result.0 (λ r. (given : Settings) (rest : List ℕ) → R.remaining input.old ≡ Some rest → length (take len buffer.old ++ rest) < 2 ^ 63
        → Stands (AreCountedAndTaken noting.blocks (S.holds noting.sink)) given [] course.pause course.state course.sections course.valid course.has_begun
        → HasSeen (HasSeenBytes noting.fed noting.tail) [] course.pause course.state course.valid
        → (fed : ℕ) × HasSeen (HasSeenBytes fed r.3) (drop before (take len buffer.old ++ rest)) r.0.pause r.0.state r.0.valid) }
{
    let read = course.read(input, buffer, len, before, &mut noting);
    let (blocks, sink, tail) = noting.into_parts();
    match read {
        Ok(is_over) => (Ok((course, blocks, is_over, tail)), sink),
        Err(trouble) => (Err(trouble), sink),
    }
}

// Returns the buffer that a stream is read into, and the survey before its first byte.
fn begin_survey<H: AllocGlobal + Clock>(
    rt: &H,
    words: &StreamWords<'_>,
    metadata: Option<&Metadata>,
) -> Result<(Vec<u8>, Survey), Trouble>
    ensures some { IfOk result (λ r. 0 < length r.0.items) }
    ensures room { IfOk result (λ r. 16 ≤ length r.0.items) }
    ensures asked { IfOk result (λ r. (r.1.frame ≡ words.now.frame) × (r.1.is_partial ≡ words.now.partial) × (r.1.is_laid_over ≡ false)) }
    ensures bounds { IfOk result (λ r. IsPageSize r.1.page_size × (r.1.limit ≤ 2 ^ 40)) }
    ensures sizes { IfOk result (λ r. (r.1.page_size ≡ page_bytes words.now.page_size) × (r.1.limit ≡ most_total words.now)) }
    ensures tail { IfOk result (λ r. r.1.checks_tail ≡ true ↔ ChecksEnding words.now) }
{
    let buffer = piece_buffer(rt.alloc())?;
    let watch = Watch::new(rt, rt.alloc(), words.talk, words.file)?;
    let mut survey = Survey::new(rt.alloc(), words, watch);
    if let Some(metadata) = metadata {
        survey.expect_file(metadata);
    }
    Ok((buffer, survey))
}

/// Reads the stream in `input` to its end or to a fault, and passes its pages to `sink`, which it
/// returns. `metadata` is that of the file that `input` is, if it is one. A fault of the stream is
/// no error: the survey has it.
///
/// What the survey has is what the one reading of the bytes after libvirt's header has, and the
/// sink has taken the records of that reading.
///
/// # Errors
///
/// `Trouble::Unread` if a read fails, `Trouble::Libvirt` and `Trouble::Packed` of libvirt's header,
/// `Trouble::NoMemory`, and those of `sink`.
pub fn read_input<H: AllocGlobal + Files + Clock, R: Read, S: GuestSink<H> + Drop, E: Write>(
    rt: &H,
    words: &StreamWords<'_>,
    metadata: Option<&Metadata>,
    input: &mut R,
    sink: S,
    errors: &mut E,
) -> (Result<Survey, Trouble>, S)
    ensures asked { IfOk result.0 (λ s. (s.frame ≡ words.now.frame) × (s.is_partial ≡ words.now.partial) × (s.is_laid_over ≡ false)) }
    ensures bounds { IfOk result.0 (λ s. IsPageSize s.page_size × (s.limit ≤ 2 ^ 40)) }
    ensures sizes { IfOk result.0 (λ s. (s.page_size ≡ page_bytes words.now.page_size) × (s.limit ≡ most_total words.now)) }
    ensures before { IfOk result.0 (λ s. (text : List ℕ) → R.remaining input.old ≡ Some text → IsBefore text (before_of s.libvirt)) }
    ensures header { IfOk result.0 (λ s. (text : List ℕ) → R.remaining input.old ≡ Some text → IfSome s.libvirt (λ header. IsHeader text header.len)) }
    ensures found { IfOk result.0 (λ s. (text : List ℕ) → R.remaining input.old ≡ Some text → length text < 2 ^ 63
        → IsSurveyed (in_frame s.frame (settings Single s.page_size s.limit)) (drop (before_of s.libvirt) text) s.state s.sections s.valid s.blocks) }
    ensures taken { IfOk result.0 (λ s. (text : List ℕ) → R.remaining input.old ≡ Some text → length text < 2 ^ 63
        → IsTaken (S.holds result.1) (in_frame s.frame (settings Single s.page_size s.limit)) (drop (before_of s.libvirt) text) s.state) }
    ensures ended { IfOk result.0 (λ s. (text : List ℕ) → R.remaining input.old ≡ Some text → length text < 2 ^ 63 → All (λ byte. byte < 2 ^ 8) text → s.state ≡ Closed
        → IsEnded (ChecksEnding words.now) (in_frame s.frame (settings Single s.page_size s.limit)) (drop (before_of s.libvirt) text) s.ending.fault) }
{
    let (mut buffer, mut survey) = match begin_survey(rt, words, metadata) {
        Ok(begun) => begun,
        Err(trouble) => return (Err(trouble), sink),
    };
    let (read, sink) = survey.read(rt, input, &mut buffer, sink, errors);
    survey.watch.end(errors);
    match read {
        Ok(()) => (Ok(survey), sink),
        Err(trouble) => (Err(trouble), sink),
    }
}
