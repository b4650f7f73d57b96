//! What takes the records of a stream for its survey: it passes them to a sink, and notes what is
//! printed of them.

ghost use Rattle.std.specs.Prelude.{◌≡◌, ◌≤◌, ℕ, List, [], ◌∷◌, ◌++◌, length, drop, None, Some, OnOk};
ghost use Rattle.std.specs.Option.{option_copied};
ghost use Rattle.mig_mem.specs.RamTable.{RamTable};
ghost use Rattle.mig_mem.specs.Place.{IsPlace};
ghost use Rattle.mig_stream.specs.PageRecord.{PageRecord};
ghost use Rattle.zimgasol_course.specs.Course.{Keeps};
ghost use Rattle.zimgasol_reading.specs.Recorded.{AreCounted, StillHolds};

use crate::beside::Beside;
use crate::blocks::Blocks;
use crate::front::Front;
use crate::sink::GuestSink;
use crate::tail::Tail;
use mig_mem::{Place, Table};
use mig_stream::{Report, StreamState};
use std::alloc::{AllocGlobal, Global};
use std::fs::Files;
use std::marker::PhantomData;
use zimgasol_course::Taker;
use zimgasol_files::Trouble;

/// A sink, and what notes what a stream has.
#[derive(Drop)]
pub(crate) struct Noting<H, B: Drop, S: Drop> {
    pub(crate) beside: B,
    pub(crate) sink: S,
    // the blocks and their records, once the size list is complete
    blocks: Option<Blocks>,
    // the bytes before RAM's records, until the sink takes them, and whether it has the table
    front: Front,
    has_begun: bool,
    // the number of the stream's bytes that were read, and the bytes after RAM
    fed: u64,
    tail: Tail,
    // the handle by which the sink opens files
    handle: PhantomData<H>,
}

impl<H: AllocGlobal + Files, B: Beside<H> + Drop, S: GuestSink<H> + Drop> Noting<H, B, S> {
    /// Creates what passes a stream to `sink`, before its first byte was read.
    pub(crate) fn new(alloc: Global, beside: B, sink: S, tail: Tail) -> Noting<H, B, S>
        ensures blocks { result.blocks ≡ None }
        ensures sink { result.sink ≡ sink }
        ensures fed { result.fed ≡ 0 }
        ensures tail { result.tail ≡ tail }
    {
        Noting {
            beside,
            sink,
            blocks: None,
            front: Front::new(alloc),
            has_begun: false,
            fed: 0,
            tail,
            handle: PhantomData,
        }
    }

    // Keeps `piece`, after it was read, until the bytes before RAM's records are complete, and
    // passes them to the sink, if it takes them.
    fn keep_front(&mut self, piece: &[u8]) -> Result<(), Trouble>
        ensures blocks { self.new.blocks ≡ self.old.blocks }
        ensures sink { OnOk result (StillHolds (S.holds self.old.sink) (S.holds self.new.sink)) }
        ensures fed { self.new.fed ≡ self.old.fed }
        ensures tail { self.new.tail ≡ self.old.tail }
    {
        if self.front.is_taken || !self.sink.keeps_state() {
            return Ok(());
        }
        self.front.keep(piece)?;
        if self.has_begun
            && let Some(places) = self.beside.front()
        {
            self.front.arrange(&places)?;
            self.sink
                .take_front(self.beside.rt(), &self.front.libvirt, &self.front.stream)?;
            self.front.set_taken();
        }
        Ok(())
    }

    /// Returns the blocks and their records, the sink, and the bytes after RAM.
    pub(crate) fn into_parts(self) -> (Option<Blocks>, S, Tail)
        ensures blocks { result.0 ≡ self.blocks }
        ensures sink { result.1 ≡ self.sink }
        ensures tail { result.2 ≡ self.tail }
    {
        (self.blocks, self.sink, self.tail)
    }
}

// Returns the bytes of a piece that follow the stream's byte `valid`. The piece begins at the
// stream's byte `start`.
fn after_in(piece: &[u8], start: u64, valid: u64) -> &[u8]
    ensures { (text : List ℕ) → start ≡ length text → start ≤ valid → valid ≤ length (text ++ piece.now) → result.now ≡ drop valid (text ++ piece.now) }
{
    let from = valid.saturating_sub(start).min(piece.len() as u64);
    let (_, after) = piece.split_at(from as usize);
    after
}

// Counts a record in the blocks, if there are some.
fn count(blocks: &mut Option<Blocks>, place: Place, content: Option<&[u8]>) -> Result<(), Trouble>
    ensures { OnOk result ((table : RamTable) (records : List PageRecord) → IsPlace table place → AreCounted blocks.old (Some table) records
        → AreCounted blocks.new (Some table) (records ++ record { place = place; content = option_copied content.entry } ∷ [])) }
{
    if let Some(blocks) = blocks {
        blocks.count(place, content.is_none())?;
    }
    Ok(())
}

// Lists the blocks of `table`, unless they are listed.
fn list_blocks(
    alloc: Global,
    blocks: &mut Option<Blocks>,
    table: Option<&Table>,
) -> Result<(), Trouble>
    ensures { OnOk result (Keeps (AreCounted blocks.old) (AreCounted blocks.new)) }
{
    if blocks.is_some() {
        return Ok(());
    }
    if let Some(table) = table {
        *blocks = Some(Blocks::new(alloc, table.try_copy()?)?);
    }
    Ok(())
}

impl<H: AllocGlobal + Files, B: Beside<H> + Drop, S: GuestSink<H> + Drop> Taker
    for Noting<H, B, S> {
    ghost use Rattle.zimgasol_reading.specs.Recorded.{AreCountedAndTaken};
    ghost use Rattle.zimgasol_reading.specs.Tailed.{HasSeenBytes};

    ghost holds = { λ noting. AreCountedAndTaken noting.blocks (S.holds noting.sink) };

    ghost sees = { λ noting. HasSeenBytes noting.fed noting.tail };

    // Lists the blocks, and passes the table to the sink.
    fn begin(&mut self, table: &Table) -> Result<(), Trouble> {
        self.sink.begin(self.beside.rt(), table)?;
        self.has_begun = true;
        let alloc = self.beside.rt().alloc();
        self.blocks = Some(Blocks::new(alloc, table.try_copy()?)?);
        Ok(())
    }

    // Counts a record, and passes it to the sink.
    fn put(&mut self, place: Place, content: Option<&[u8]>) -> Result<(), Trouble> {
        self.sink.take_page(place, content)?;
        self.beside.set_last(place);
        count(&mut self.blocks, place, content)
    }

    fn note(&mut self, report: &mut Report) -> Result<(), Trouble> {
        self.beside.note(report)
    }

    // Keeps the first bytes of the item that isn't complete, and those after RAM. Lists the blocks
    // if no record followed the table. Lets the sink work beside the reading.
    fn end_piece(
        &mut self,
        piece: &[u8],
        valid: u64,
        found: StreamState,
        table: Option<&Table>,
    ) -> Result<(), Trouble> {
        list_blocks(self.beside.rt().alloc(), &mut self.blocks, table)?;
        let start = self.fed;
        self.fed = start.saturating_add(piece.len() as u64);
        self.beside.look(piece, start, valid)?;
        self.sink.between_pieces(self.beside.rt())?;
        self.keep_front(piece)?;
        if let StreamState::Closed = found {
            let after = after_in(piece, start, valid);
            self.tail.look(after)?;
            self.sink.take_after(after)?;
        }
        Ok(())
    }

    // Keeps libvirt's header, if the sink takes it.
    fn look_before(&mut self, bytes: &[u8]) -> Result<(), Trouble> {
        if self.sink.keeps_state() {
            self.front.keep_libvirt(bytes)?;
        }
        Ok(())
    }

    fn look_after(&mut self, piece: &[u8]) -> Result<(), Trouble> {
        self.tail.look(piece)?;
        self.sink.take_after(piece)
    }

    fn progress(&mut self, len: usize) {
        self.beside.progress(len);
    }
}
