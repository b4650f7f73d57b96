//! Sends the memory of blocks as packets on channels, beside a main stream.

ghost use Rattle.std.specs.Prelude.{◌≡◌, [], List, length, IfOk};
ghost use Rattle.std.specs.Option.{option_copied};
ghost use Rattle.zimgasol_packing.specs.Packing.{HaveTexts};
ghost use Rattle.zimgasol_saving.specs.Sent.{Source};
ghost use Rattle.zimgasol_saving.specs.Blocks.{AreKnown};
ghost use Rattle.zimgasol_saving.specs.Channels.{IsSavedOver, HoldsPacking};

use crate::blocks::{BlockFiles, PieceSink, send_blocks};
use mig_mem::Table;
use mig_stream::Frame;
use std::alloc::AllocGlobal;
use std::fs::OpenFile;
use std::io::Write;
use std::rt::Clock;
use uuid::Uuid;
use zimgasol_files::{Outlet, Pages, Trouble, Watch};
use zimgasol_packing::Packing;

// Sends pieces as packets.
#[derive(Drop)]
struct Packets<F: Drop> {
    packing: Packing<F>,
}

impl<F: Write + OpenFile + Drop> PieceSink for Packets<F> {
    ghost holds = { λ s. HoldsPacking F.contents s.packing };

    fn send<W: Write>(
        &mut self,
        _out: &mut W,
        block: usize,
        first: u64,
        pages: &Pages<'_>,
    ) -> Result<bool, Trouble> {
        if pages.are_same() {
            return Ok(true);
        }
        let has_places = self.packing.send(block, first, pages)?;
        Ok(has_places)
    }
}

/// Saves the memory of the blocks of `table` as a main stream, which is written to `out`, and
/// channels under `uuid`, which are written to `channels`: 1 to 255, empty. A machine's main stream
/// has its name, of at most 1,024 bytes, if one is given. Returns the channels, how many pages were
/// sent, and how many bytes were written to `out`.
///
/// What was written is a sending of a round without pages, and of one with the pages that the older
/// files haven't. So a load of it into a memory with the older files' bytes leaves the memory in
/// the files. Without older files a load into any memory does.
///
/// # Errors
///
/// Those of `files`, `Trouble::OfFile` if a file can't be read or a channel can't be written,
/// `Trouble::Unfit` if a file hasn't the block's length, `Trouble::Output` if `out` can't be
/// written, `Trouble::NoMemory`. Then a part of the streams may have been written.
pub fn save_packets<
    H: AllocGlobal + Clock,
    B: BlockFiles,
    F: Write + OpenFile + Drop,
    W: Write,
    E: Write,
>(
    rt: &H,
    table: &Table,
    name: Option<&[u8]>,
    frame: Frame,
    uuid: Uuid,
    files: &B,
    channels: Vec<Outlet<F>>,
    out: &mut W,
    watch: &mut Watch,
    errors: &mut E,
) -> Result<(Vec<Outlet<F>>, u64, u64), Trouble>
    ensures { IfOk result (λ r. (sources : List Source) → AreKnown (B.source files.now) table.now sources → HaveTexts F.contents channels.items (λ _. [])
        → (length r.0.items ≡ length channels.items)
        × IsSavedOver F.contents (option_copied name.entry) uuid table.now sources r.0.items (W.contents out.old) (W.contents out.new)) }
{
    table.keeps_limits();
    let packing = Packing::begin(rt.alloc(), out, channels, table, name, uuid)?;
    let mut packets = Packets { packing };
    send_blocks(rt, table, files, &mut packets, out, watch, errors)?;
    let Packets { packing } = packets;
    let ended = packing.finish(out, frame)?;
    Ok(ended)
}
