//! Reads a main stream that has channels, round by round. It feeds the bytes to the load, and reads
//! them itself for what a person wants to know beside.

ghost use Rattle.std.specs.Prelude.{◌≡◌, ◌+◌, ◌<◌, ◌≤◌, ◌^◌, ℕ, List, [], length, Option, IfOk, OnOk, true, false};
ghost use Rattle.std.specs.Io.KnownBytes.{Keeps, IsAtEnd, prepend_known};
ghost use Rattle.mig_sources.specs.declared.source.Source.TheVariants.{Main as main_source};
ghost use Rattle.zimgasol_files.specs.Waiting.{waits};
ghost use Rattle.zimgasol_reading.specs.Left.{main_left, main_held, IsOver};
ghost use Rattle.zimgasol_reading.specs.Loaded.{TakesOf};
ghost use Rattle.zimgasol_reading.specs.Recorded.{StillHolds};

use crate::blocks::Blocks;
use crate::front::Front;
use crate::heads::Head;
use crate::load::{Load, Reporting};
use crate::notes::{Note, Notes, SectionKind};
use crate::sink::GuestSink;
use crate::tail::{Ending, Tail};
use mig_mem::Table;
use mig_sources::Source;
use mig_stream::{Mode, Report, StreamReader, StreamState};
use std::alloc::Global;
use std::fs::{Files, Metadata};
use std::io::Read;
use zimgasol_files::{Pieces, StreamWords, Trouble};

/// The reading of a main stream.
#[derive(Drop)]
pub struct MainStream {
    reader: StreamReader<'static>,
    pieces: Pieces,
    // what it passed over, and what is noted of that
    report: Report,
    notes: Notes,
    // the first bytes of the item that isn't complete, or has the fault
    head: Head,
    // the bytes that were read before there was a load
    held: Vec<u8>,
    // the bytes before RAM's records, if they are taken, until the sink takes them; and those after
    // RAM that were read with its end
    front: Front,
    after: Vec<u8>,
    /// What is known of the bytes after RAM, once the input's end was reached.
    pub ending: Ending,
    // the bytes after RAM
    tail: Tail,
    // whether the input's end was reached, and the length of the file that it is
    is_over: bool,
    file_len: Option<u64>,
}

impl MainStream {
    /// Creates the reading of a main stream, before its first byte was read.
    pub fn new(alloc: Global, words: &StreamWords<'_>) -> Result<MainStream, Trouble>
        ensures { IfOk result (λ m. (m.held.items ≡ []) × (waits m.pieces ≡ []) × (m.is_over ≡ false)) }
    {
        let page_size = words.page_size.bytes();
        Ok(MainStream {
            reader: StreamReader::new_with(
                alloc,
                words.frame,
                Mode::MainAsShown,
                page_size,
                words.limit(),
                None,
            ),
            pieces: Pieces::new(alloc)?,
            report: Report::new(alloc),
            notes: Notes::new(alloc),
            head: Head::new(alloc),
            held: Vec::new(alloc),
            front: Front::new(alloc),
            after: Vec::new(alloc),
            ending: Ending::unchecked(),
            tail: Tail::new(alloc, words.checks_tail()),
            is_over: false,
            file_len: None,
        })
    }

    /// Takes the length of the file that the stream is read from.
    pub fn expect_file(&mut self, metadata: &Metadata)
        ensures { self.new ≡ record self.old { file_len = self.new.file_len } }
    {
        if metadata.is_file() {
            self.file_len = Some(metadata.len());
        }
    }

    /// Reads up to the end of the size list, to a fault or to the input's end. Holds the bytes for
    /// the load.
    ///
    /// # Errors
    ///
    /// `Trouble::Unread` if a read fails, `Trouble::NoMemory`.
    pub(crate) fn read_head<R: Read>(&mut self, input: &mut R) -> Result<(), Trouble>
        ensures { OnOk result (Keeps (main_held (R.remaining input.old) self.old) (main_held (R.remaining input.new) self.new)
            × (IsOver (R.remaining input.old) self.old → IsOver (R.remaining input.new) self.new)) }
    {
        'pieces: for _ in 0..u64::MAX {
            if self.table().is_some() || !self.is_reading() {
                return Ok(());
            }
            self.hold_piece(input)?;
        }
        Ok(())
    }

    // Reads the next piece, and holds it for the load; or ends the stream, if there is none.
    fn hold_piece<R: Read>(&mut self, input: &mut R) -> Result<(), Trouble>
        ensures { OnOk result (Keeps (main_held (R.remaining input.old) self.old) (main_held (R.remaining input.new) self.new)
            × (IsOver (R.remaining input.old) self.old → IsOver (R.remaining input.new) self.new)) }
    {
        let is_more = self.refill(input)?;
        if !is_more {
            return Ok(());
        }
        self.held.extend_from_slice(self.pieces.waiting())?;
        self.pieces.take_all();
        Ok(())
    }

    /// Returns the table, once the size list is complete.
    pub(crate) fn table(&self) -> Option<&Table> {
        self.reader.table()
    }

    /// Feeds `load` the bytes that were read before it.
    ///
    /// # Errors
    ///
    /// `Trouble::NoMemory`, and those of the load's sink.
    pub(crate) fn begin<M: Reporting>(&mut self, load: &mut Load<M>) -> Result<(), Trouble>
        ensures takes { OnOk result ((left : Option (List ℕ)) → (self.old.is_over ≡ true → IsAtEnd left)
            → TakesOf main_source (prepend_known self.old.held.items left) left load.old load.new) }
        ensures others { self.new ≡ record self.old { held = self.new.held } }
    {
        let taken = load.feed(Source::Main, &self.held)?;
        if taken != self.held.len() {
            return Err(Trouble::NoMemory);
        }
        self.held = Vec::new(*self.held.allocator());
        let is_over = self.is_over;
        if !is_over {
            return Ok(());
        }
        load.end(Source::Main);
        Ok(())
    }

    /// Reads up to the end of the current round, and feeds it to `load`. Counts the records in
    /// `blocks`.
    ///
    /// # Errors
    ///
    /// `Trouble::Unread` if a read fails, `Trouble::NoMemory`, and those of the load's sink.
    pub(crate) fn read_round<R: Read, M: Reporting>(
        &mut self,
        input: &mut R,
        blocks: &mut Option<Blocks>,
        load: &mut Load<M>,
    ) -> Result<(), Trouble>
        ensures { OnOk result (TakesOf main_source (main_left (R.remaining input.old) self.old) (main_left (R.remaining input.new) self.new) load.old load.new) }
    {
        self.read_pieces(input, load)?;
        self.count_round(blocks)?;
        Ok(())
    }

    // Reads up to the end of the current round, and feeds it to `load`.
    fn read_pieces<R: Read, M: Reporting>(
        &mut self,
        input: &mut R,
        load: &mut Load<M>,
    ) -> Result<(), Trouble>
        ensures { OnOk result (TakesOf main_source (main_left (R.remaining input.old) self.old) (main_left (R.remaining input.new) self.new) load.old load.new) }
    {
        'pieces: for _ in 0..u64::MAX {
            if !load.takes(Source::Main) {
                return Ok(());
            }
            self.feed_piece(input, load)?;
        }
        Ok(())
    }

    // Reads the next piece, and feeds it to `load`; or ends the stream, if there is none.
    fn feed_piece<R: Read, M: Reporting>(
        &mut self,
        input: &mut R,
        load: &mut Load<M>,
    ) -> Result<(), Trouble>
        ensures { OnOk result (TakesOf main_source (main_left (R.remaining input.old) self.old) (main_left (R.remaining input.new) self.new) load.old load.new) }
    {
        let is_more = self.refill(input)?;
        if !is_more {
            load.end(Source::Main);
            return Ok(());
        }
        let taken = load.feed(Source::Main, self.pieces.waiting())?;
        self.pieces.take(taken);
        Ok(())
    }

    // Returns whether the stream continues.
    fn is_reading(&self) -> bool {
        matches!(self.reader.state(), StreamState::Reading)
    }

    // Reads the next piece, if no byte waits. Returns false, and ends the stream, if there is none.
    fn refill<R: Read>(&mut self, input: &mut R) -> Result<bool, Trouble>
        ensures kept { OnOk result (Keeps (main_left (R.remaining input.old) self.old) (main_left (R.remaining input.new) self.new)) }
        ensures end { IfOk result (λ is_more. is_more ≡ false → IsAtEnd (main_left (R.remaining input.new) self.new)) }
        ensures over { OnOk result (IsOver (R.remaining input.old) self.old → IsOver (R.remaining input.new) self.new) }
        ensures held { self.new.held ≡ self.old.held }
    {
        if !self.pieces.waiting().is_empty() {
            return Ok(true);
        }
        let is_more = self.pieces.refill(input)?;
        self.is_over = !is_more;
        if is_more {
            self.look()?;
            return Ok(true);
        }
        self.reader.end();
        Ok(false)
    }

    // Looks at the piece that was read.
    fn look(&mut self) -> Result<(), Trouble>
        ensures { (self.new.pieces ≡ self.old.pieces) × (self.new.held ≡ self.old.held) × (self.new.is_over ≡ self.old.is_over) }
    {
        let piece = self.pieces.waiting();
        let fed = self.reader.fed();
        if self.reader.ended() || piece.len() as u64 > u64::MAX - fed {
            return Err(Trouble::NoMemory);
        }
        if self.notes.front().is_none() && !self.front.is_taken {
            self.front.keep(piece)?;
        }
        self.reader.feed_reporting(piece, &mut self.report)?;
        self.notes.take(&mut self.report)?;
        self.head.look(piece, fed, self.reader.valid_up_to())?;
        if let StreamState::Closed = self.reader.state() {
            let before = self.reader.valid_up_to().saturating_sub(fed);
            let from = before.min(piece.len() as u64) as usize;
            self.tail.look(&piece[from..])?;
            self.after.extend_from_slice(&piece[from..])?;
        }
        Ok(())
    }

    // Counts the records of the current round, if it is complete.
    fn count_round(&mut self, blocks: &mut Option<Blocks>) -> Result<(), Trouble>
        ensures { self.new ≡ record self.old { reader = self.new.reader } }
    {
        let Some(blocks) = blocks else {
            return Ok(());
        };
        let Some(round) = self.reader.take_round()? else {
            return Ok(());
        };
        for i in 0..round.len() {
            let (place, content) = round.record(i);
            blocks.count(place, content.is_none())?;
        }
        Ok(())
    }

    /// Keeps the bytes before RAM's records for the sink, or drops them, if it doesn't take them.
    pub(crate) fn keep_front(&mut self, is_kept: bool)
        ensures { self.new ≡ record self.old { front = self.new.front } }
    {
        if !is_kept {
            self.front.set_taken();
        }
    }

    /// Passes the bytes before RAM's records to `sink`, if it takes them, after the load.
    ///
    /// # Errors
    ///
    /// Those of `sink`.
    pub(crate) fn pass_front<H: Files, S: GuestSink<H>>(
        &mut self,
        rt: &H,
        sink: &mut S,
    ) -> Result<(), Trouble>
        ensures { OnOk result (StillHolds (S.holds sink.old) (S.holds sink.new)) }
    {
        if let Some(places) = self.notes.front()
            && !self.front.is_taken
        {
            self.front.arrange(&places)?;
            sink.take_front(rt, &[], &self.front.stream)?;
            self.front.set_taken();
        }
        Ok(())
    }

    /// Reads the rest of `input`, and passes the bytes after RAM to `sink`.
    ///
    /// # Errors
    ///
    /// `Trouble::Unread` if a read fails, `Trouble::NoMemory`, and those of `sink`.
    pub(crate) fn read_rest<H: Files, R: Read, S: GuestSink<H>>(
        &mut self,
        input: &mut R,
        sink: &mut S,
    ) -> Result<(), Trouble>
        ensures { OnOk result (StillHolds (S.holds sink.old) (S.holds sink.new)) }
    {
        sink.take_after(&self.after)?;
        self.pass_pieces::<H, R, S>(input, sink)?;
        self.is_over = true;
        self.ending = self.tail.ending()?;
        Ok(())
    }

    // Reads the rest of `input`, and passes it to `sink`.
    fn pass_pieces<H: Files, R: Read, S: GuestSink<H>>(
        &mut self,
        input: &mut R,
        sink: &mut S,
    ) -> Result<(), Trouble>
        ensures { OnOk result (StillHolds (S.holds sink.old) (S.holds sink.new)) }
    {
        'pieces: for _ in 0..u64::MAX {
            self.pieces.take_all();
            let is_more = self.pieces.refill(input)?;
            if !is_more {
                return Ok(());
            }
            self.tail.look(self.pieces.waiting())?;
            sink.take_after(self.pieces.waiting())?;
        }
        Ok(())
    }

    /// Returns the items between the sections that were read.
    pub fn read_notes(&self) -> &[Note] {
        &self.notes.notes
    }

    /// Returns the first bytes of the item that isn't complete, or has the fault.
    pub fn item(&self) -> &[u8] {
        self.head.bytes()
    }

    /// Returns whether shared memory was left out of the stream (`x-ignore-shared`).
    pub fn leaves_shared_out(&self) -> bool {
        self.notes.leaves_shared_out()
    }

    /// Returns how many sections are complete, and the kind of the one that is open.
    pub fn section(&self) -> (u64, Option<SectionKind>) {
        (self.notes.sections, self.notes.open)
    }

    /// Returns how many bytes of the stream are complete items without a fault.
    pub fn valid(&self) -> u64 {
        self.reader.valid_up_to()
    }

    /// Returns how many bytes were read of the input.
    pub fn len(&self) -> u64 {
        self.pieces.read
    }

    /// Returns the length of the input in bytes; None if reading stopped at a fault, and the input
    /// is no plain file.
    pub fn input_len(&self) -> Option<u64> {
        if self.is_over {
            return Some(self.pieces.read);
        }
        self.file_len
    }
}
