//! Sends the memory of blocks: each file is read in pieces of 256 pages, and each piece is sent
//! before the next one is read, so the guest's memory is never held.

ghost use Rattle.std.specs.Prelude.{◌≡◌, ◌++◌, ◌*◌, ◌/◌, ◌<◌, ◌^◌, ℕ, List, length, Option, Some, IfOk, OnOk, IsTrue};
ghost use Rattle.std.specs.Option.{option_copied};
ghost use Rattle.mig_mem.specs.Image.{Page};
ghost use Rattle.mig_mem.specs.RamTable.{RamTable};
ghost use Rattle.zimgasol_files.specs.Differing.{Piece, piece_of};
ghost use Rattle.zimgasol_files.specs.ReadOn.{HasPiece, IsReadTo};
ghost use Rattle.zimgasol_saving.specs.Sent.{Source};
ghost use Rattle.zimgasol_saving.specs.Written.{Front, Named, Kept, IsSending, SendsPiece};
ghost use Rattle.zimgasol_saving.specs.Blocks.{AreFilesOf, AreKnown, IsSaved, SendsBlock, SendsBlocks, HoldsSending};

use crate::send::Sending;
use mig_mem::Table;
use mig_stream::Frame;
use std::alloc::AllocGlobal;
use std::io::{Read, Write};
use std::rt::Clock;
use zimgasol_files::{Opened, Pages, Reading, Trouble, Watch};

/// The files with the memory of a guest's blocks.
pub trait BlockFiles {
    /// A file that is read.
    type File: Read + Drop;

    /// The bytes of a block's file and of its older file, where they are known.
    ghost source: { Self → ℕ → Option Source };

    /// Opens the file of a block, and its older file if there is one. Of a block with an older file
    /// only the pages that differ are sent.
    fn open(
        &self,
        block: usize,
    ) -> Result<(Opened<Self::File>, Option<Opened<Self::File>>), Trouble>
        ensures { IfOk result (λ files. (s : Source) → source self.now block ≡ Some s → AreFilesOf Self.File.remaining files s) };
}

/// Sends the pieces of blocks.
pub(crate) trait PieceSink: Drop {
    /// What holds of it once it has written these bytes of a stream with this front and this table,
    /// and has sent these pages.
    ghost holds: { Self → Front → RamTable → List ℕ → List Page → Type 0 };

    /// Sends the differing pages of `pages`; the first of `pages` is the block's page `first`.
    /// Writes the stream to `out`. Returns false if the stream's table lacks the place of one of
    /// them.
    fn send<W: Write>(
        &mut self,
        out: &mut W,
        block: usize,
        first: u64,
        pages: &Pages<'_>,
    ) -> Result<bool, Trouble>
        ensures { IfOk result (λ sent. IsTrue sent
            → SendsPiece (holds self.old) (holds self.new) (W.contents out.old) (W.contents out.new) block first (piece_of pages.now)) };
}

// Sends pieces as sections of a single stream.
#[derive(Drop)]
struct Single {
    // None after a piece that couldn't be sent
    sending: Option<Sending>,
}

impl PieceSink for Single {
    ghost holds = { λ s. HoldsSending s.sending };

    fn send<W: Write>(
        &mut self,
        out: &mut W,
        block: usize,
        first: u64,
        pages: &Pages<'_>,
    ) -> Result<bool, Trouble> {
        let Some(sending) = self.sending.take() else {
            return Ok(false);
        };
        match sending.send(out, block, first, pages)? {
            Some(sending) => {
                self.sending = Some(sending);
                Ok(true)
            }
            None => Ok(false),
        }
    }
}

// A block that is being sent.
#[derive(Clone, Copy)]
struct Part {
    block: usize,
    page_size: u64,
    pages: u64,
    // the bytes of the blocks before it
    before: u64,
}

// Sends the piece that was read last, which begins at the block's page `first`. Returns how many
// pages it has.
fn send_piece<F: Read + Drop, S: PieceSink, W: Write>(
    reading: &Reading<F>,
    block: usize,
    first: u64,
    sink: &mut S,
    out: &mut W,
) -> Result<u64, Trouble>
    ensures count { IfOk result (λ count. (piece : Piece) → HasPiece reading.now piece → 0 < piece.size → count ≡ length piece.bytes / piece.size) }
    ensures sent { OnOk result ((piece : Piece) → HasPiece reading.now piece
        → SendsPiece (S.holds sink.old) (S.holds sink.new) (W.contents out.old) (W.contents out.new) block first piece) }
{
    let pages = reading.pages();
    let is_sent = sink.send(out, block, first, &pages)?;
    if !is_sent {
        return Err(reading.changed());
    }
    Ok(pages.count())
}

// Sends what `reading` reads of a block, piece after piece. Returns how many pages there were.
fn send_pieces<H: Clock, F: Read + Drop, S: PieceSink, W: Write, E: Write>(
    rt: &H,
    part: &Part,
    reading: &mut Reading<F>,
    sink: &mut S,
    out: &mut W,
    watch: &mut Watch,
    errors: &mut E,
) -> Result<u64, Trouble>
    ensures { OnOk result ((size n : ℕ) (s : Source) → 0 < size → n < 2 ^ 64 → IsReadTo F.remaining size (n * size) s.bytes s.before reading.old
        → SendsBlock (S.holds sink.old) (S.holds sink.new) (W.contents out.old) (W.contents out.new) size part.now.block n s) }
{
    let block = part.block;
    let mut first = 0u64;
    'pieces: for _ in 0..u64::MAX {
        let is_more = reading.read_on()?;
        if !is_more {
            return Ok(first);
        }
        let count = send_piece(reading, block, first, sink, out)?;
        first = first.saturating_add(count);
        let bytes = first.saturating_mul(part.page_size);
        watch.show(rt, errors, part.before.saturating_add(bytes));
    }
    Err(reading.changed())
}

// Sends a block.
fn send_block<H: AllocGlobal + Clock, B: BlockFiles, S: PieceSink, W: Write, E: Write>(
    rt: &H,
    part: &Part,
    files: &B,
    sink: &mut S,
    out: &mut W,
    watch: &mut Watch,
    errors: &mut E,
) -> Result<(), Trouble>
    ensures { OnOk result ((s : Source) → 0 < part.now.page_size → part.now.page_size * 256 < 2 ^ 64 → part.now.pages * part.now.page_size < 2 ^ 64
        → B.source files.now part.now.block ≡ Some s
        → SendsBlock (S.holds sink.old) (S.holds sink.new) (W.contents out.old) (W.contents out.new) part.now.page_size part.now.block part.now.pages s) }
{
    let (file, before) = files.open(part.block)?;
    let page_size = part.page_size as usize;
    let wanted = part.pages;
    let len = wanted.saturating_mul(part.page_size);
    let mut reading = Reading::new(rt.alloc(), file, before, page_size, len)?;
    let pages = send_pieces(rt, part, &mut reading, sink, out, watch, errors)?;
    if pages != wanted {
        return Err(reading.changed());
    }
    Ok(())
}

/// Sends all blocks of `table`, in their order.
///
/// # Errors
///
/// Those of `files` and of `sink`, `Trouble::OfFile` if a file can't be read, `Trouble::Unfit` if
/// it hasn't the block's length.
pub(crate) fn send_blocks<H: AllocGlobal + Clock, B: BlockFiles, S: PieceSink, W: Write, E: Write>(
    rt: &H,
    table: &Table,
    files: &B,
    sink: &mut S,
    out: &mut W,
    watch: &mut Watch,
    errors: &mut E,
) -> Result<(), Trouble>
    ensures { OnOk result ((sources : List Source) → AreKnown (B.source files.now) table.now sources
        → SendsBlocks (S.holds sink.old) (S.holds sink.new) (W.contents out.old) (W.contents out.new) table.now sources (length table.now.blocks)) }
{
    table.keeps_limits();
    let page_size = table.page_size();
    let mut before = 0u64;
    'each: for block in 0..table.len() {
        let pages = table.pages(block);
        let part = Part {
            block,
            page_size,
            pages,
            before,
        };
        send_block(rt, &part, files, sink, out, watch, errors)?;
        before = before.saturating_add(pages.saturating_mul(page_size));
    }
    Ok(())
}

/// Sends all blocks of `table` in the stream of `sending`. Returns the stream, which isn't ended.
///
/// # Errors
///
/// Those of `send_blocks`.
pub(crate) fn send_single<H: AllocGlobal + Clock, B: BlockFiles, W: Write, E: Write>(
    rt: &H,
    table: &Table,
    files: &B,
    sending: Sending,
    out: &mut W,
    watch: &mut Watch,
    errors: &mut E,
) -> Result<Sending, Trouble>
    ensures { IfOk result (λ s. (sources : List Source) → AreKnown (B.source files.now) table.now sources
        → SendsBlocks (IsSending sending) (IsSending s) (W.contents out.old) (W.contents out.new) table.now sources (length table.now.blocks)) }
{
    let mut single = Single {
        sending: Some(sending),
    };
    send_blocks(rt, table, files, &mut single, out, watch, errors)?;
    let Single { sending } = single;
    match sending {
        Some(sending) => Ok(sending),
        None => Err(Trouble::NoMemory),
    }
}

/// Saves the memory of the blocks of `table` as a single stream, which is written to `out`. A
/// machine's stream has its name, of at most 1,024 bytes, if one is given. Returns how many pages
/// were sent, and how many bytes were written.
///
/// What was written is the stream of rounds with the pages that the older files haven't. So a load
/// of it into a memory with the older files' bytes leaves the memory in the files. Without older
/// files a load into any memory does.
///
/// # Errors
///
/// Those of `files`, `Trouble::OfFile` if a file can't be read, `Trouble::Unfit` if it hasn't the
/// block's length, `Trouble::Output` if `out` can't be written, `Trouble::NoMemory`. Then `out` may
/// have a part of the stream.
pub fn save_blocks<H: AllocGlobal + Clock, B: BlockFiles, W: Write, E: Write>(
    rt: &H,
    table: &Table,
    name: Option<&[u8]>,
    frame: Frame,
    files: &B,
    out: &mut W,
    watch: &mut Watch,
    errors: &mut E,
) -> Result<(u64, u64), Trouble>
    ensures { OnOk result ((sources : List Source) → AreKnown (B.source files.now) table.now sources
        → IsSaved (Named (option_copied name.entry)) table.now sources (W.contents out.old) (W.contents out.new)) }
{
    let sending = Sending::begin(rt.alloc(), out, table, name)?;
    let sent = send_single(rt, table, files, sending, out, watch, errors)?;
    let counts = sent.finish(out, frame)?;
    Ok(counts)
}

/// Saves the memory of the blocks of `table` in the stream of a machine that is restored. It is
/// written to `out` up to RAM's END; the caller writes the state of the devices after it.
/// `libvirt` is libvirt's header, which may be empty, `before` has the stream's bytes up to the end
/// of its size list, and `id` is the id of RAM's section there. Returns how many pages were sent,
/// and how many bytes were written.
///
/// What was written is these bytes, and then the records of rounds with the pages that the older
/// files haven't, as `save_blocks` writes them.
///
/// # Errors
///
/// Those of `save_blocks`.
pub fn save_kept<H: AllocGlobal + Clock, B: BlockFiles, W: Write, E: Write>(
    rt: &H,
    table: &Table,
    libvirt: &[u8],
    before: &[u8],
    id: u32,
    files: &B,
    out: &mut W,
    watch: &mut Watch,
    errors: &mut E,
) -> Result<(u64, u64), Trouble>
    ensures { OnOk result ((sources : List Source) → AreKnown (B.source files.now) table.now sources
        → IsSaved (Kept (libvirt.now ++ before.now) id) table.now sources (W.contents out.old) (W.contents out.new)) }
{
    let sending = Sending::begin_kept(rt.alloc(), out, table, libvirt, before, id)?;
    let sent = send_single(rt, table, files, sending, out, watch, errors)?;
    // with an id RAM alone is ended, whatever the frame
    let counts = sent.finish(out, Frame::Machine)?;
    Ok(counts)
}
