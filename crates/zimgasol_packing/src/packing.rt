//! A main stream and its channels that are being written.

ghost use Rattle.std.specs.Prelude.{◌≡◌, ◌+◌, ◌*◌, ◌<◌, ◌≤◌, false, ◌++◌, ◌∷◌, [], ℕ, List, length, Option, Some, None, IfOk, OnOk, IsTrue};
ghost use Rattle.std.specs.Option.{option_copied};
ghost use Rattle.std.specs.Io.KnownBytes.{Appends};
ghost use Rattle.mig_mem.specs.Image.{Page};
ghost use Rattle.mig_mem.specs.RamTable.{block};
ghost use Rattle.mig_packet.specs.Written.{written_packet};
ghost use Rattle.mig_stream.specs.Format.{most_name_bytes};
ghost use Rattle.mig_stream.specs.Text.{file_header};
ghost use Rattle.mig_stream.specs.Written.{Part};
ghost use Rattle.mig_stream.specs.Writer.{HasDrained};
ghost use Rattle.mig_stream.specs.MachineWritten.{machine_closed};
ghost use Rattle.zimgasol_files.specs.Differing.{piece_of, AreSent};
ghost use Rattle.zimgasol_packing.specs.Packing.{Begun, HaveTexts, front_of, drained_of, IsPacking, SendsBatch, HasRoom, SendsPage, SendsPages, IsPackedAll};

use crate::batch::Batch;
use crate::channels::{put_hellos, put_on, put_syncs};
use mig_mem::{NoMemory, Place, Table};
use mig_packet::page_limit;
use mig_stream::{Frame, StreamWriter};
use std::alloc::Global;
use std::fs::OpenFile;
use std::io::Write;
use uuid::Uuid;
use zimgasol_files::{Outlet, PIECE_PAGES, Pages, Trouble};

/// The most bytes of a machine's name.
const MOST_NAME_LEN: usize = 1024;

/// A main stream and channels that are being written.
#[derive(Drop)]
pub struct Packing<F: Drop> {
    main: StreamWriter,
    channels: Vec<Outlet<F>>,
    batch: Batch,
    // the number of the next packet, and the channel that the next batch is written on
    number: u64,
    turn: usize,
    // the packet that was written last
    bytes: Vec<u8>,
    /// The pages that were sent.
    pub pages: u64,
    /// The bytes of the main stream that were written.
    pub written: u64,
}

// Writes `bytes` to `out`.
fn write<W: Write>(out: &mut W, bytes: &[u8]) -> Result<(), Trouble>
    ensures { OnOk result (Appends (W.contents out.old) (W.contents out.new) bytes.now) }
{
    match out.write_all(bytes) {
        Ok(()) => Ok(()),
        Err(error) => Err(Trouble::Output(error)),
    }
}

// Begins a main stream: writes its first bytes, if there is a machine's name. Returns their number,
// and the writer of the rest.
fn begin_main<W: Write>(
    alloc: Global,
    out: &mut W,
    table: &Table,
    name: Option<&[u8]>,
) -> Result<(u64, StreamWriter), Trouble>
    ensures first { OnOk result (Appends (W.contents out.old) (W.contents out.new) (front_of (option_copied name.entry))) }
    ensures table { IfOk result (λ r. r.1.table ≡ table.now) }
    ensures none { IfOk result (λ r. HasDrained (drained_of (option_copied name.entry)) r.1 []) }
{
    let Some(name) = name else {
        let main = StreamWriter::new(alloc, table)?;
        return Ok((0, main));
    };
    if name.len() > MOST_NAME_LEN {
        return Err(Trouble::NoMemory);
    }
    let (first, main) = StreamWriter::with_configuration(alloc, table, name)?;
    write(out, &first)?;
    Ok((first.len() as u64, main))
}

// Returns the channel after `turn`, of `count`.
fn next_turn(turn: usize, count: usize) -> usize
    ensures { turn < count → result < count }
{
    let next = turn.saturating_add(1);
    if next < count { next } else { 0 }
}

// Writes the packet `number` of a batch into `bytes`, whose content it replaces.
fn write_batch(
    main: &StreamWriter,
    batch: &Batch,
    number: u64,
    bytes: &mut Vec<u8>,
) -> Result<(), Trouble>
    ensures { OnOk result (bytes.new.items ≡ written_packet main.now.table.page_size number false (block main.now.table.blocks batch.now.block).id
        batch.now.normal.items batch.now.contents.items batch.now.zeros.items) }
{
    let table = main.table();
    table.keeps_limits();
    if batch.block >= table.len() {
        return Err(Trouble::NoMemory);
    }
    let id = table.id(batch.block);
    batch.write(table.page_size(), bytes, number, id)?;
    Ok(())
}

impl<F: Write + OpenFile + Drop> Packing<F> {
    /// Begins a main stream and its channels, with a hello under `uuid` on each, and sends the
    /// empty round. The machine's name has at most 1,024 bytes; without a name no configuration is
    /// written.
    ///
    /// # Errors
    ///
    /// `Trouble::Output` if `out` can't be written, `Trouble::OfFile` of a channel,
    /// `Trouble::NoMemory`, also for no channel or more than 255.
    pub fn begin<W: Write>(
        alloc: Global,
        out: &mut W,
        channels: Vec<Outlet<F>>,
        table: &Table,
        name: Option<&[u8]>,
        uuid: Uuid,
    ) -> Result<Packing<F>, Trouble>
        ensures first { OnOk result (Appends (W.contents out.old) (W.contents out.new) (front_of (option_copied name.entry))) }
        ensures count { IfOk result (λ s. (0 < length s.channels.items) × (length s.channels.items ≤ 255) × (length s.channels.items ≡ length channels.items)) }
        ensures uuid { OnOk result (length uuid ≡ 16) }
        ensures begun { IfOk result (λ s. HaveTexts F.contents channels.items (λ _. [])
            → IsPacking F.contents (record { name = option_copied name.entry; uuid = uuid; table = table.now }) [] s) }
    {
        if channels.is_empty() {
            return Err(Trouble::NoMemory);
        }
        let mut channels = channels;
        put_hellos(&mut channels, &uuid)?;
        let (written, mut main) = begin_main(alloc, out, table, name)?;
        table.keeps_limits();
        let mut bytes = Vec::new(alloc);
        let number = put_syncs(&mut channels, &mut bytes, table.page_size(), 0)?;
        main.flush_part()?;
        Ok(Packing {
            main,
            channels,
            batch: Batch::new(alloc),
            number,
            turn: 0,
            bytes,
            pages: 0,
            written,
        })
    }

    // Sends the batch, if it has pages.
    fn send_batch(&mut self) -> Result<(), Trouble>
        ensures count { length self.new.channels.items ≡ length self.old.channels.items }
        ensures sent { OnOk result (SendsBatch F.contents self.old self.new) }
    {
        if self.batch.len() == 0 {
            return Ok(());
        }
        write_batch(&self.main, &self.batch, self.number, &mut self.bytes)?;
        let Some(next) = self.number.checked_add(1) else {
            return Err(Trouble::NoMemory);
        };
        put_on(&mut self.channels, self.turn, &self.bytes)?;
        self.number = next;
        self.turn = next_turn(self.turn, self.channels.len());
        self.batch.clear();
        Ok(())
    }

    // Makes room for a page of `block` in the batch, which is sent first if it is full or of
    // another block.
    fn make_room(&mut self, block: usize) -> Result<(), Trouble>
        ensures count { length self.new.channels.items ≡ length self.old.channels.items }
        ensures room { OnOk result ((begun : Begun) (pages : List Page) → IsPacking F.contents begun pages self.old
            → HasRoom F.contents begun pages block self.new) }
    {
        let table = self.main.table();
        table.keeps_limits();
        let limit = page_limit(table.page_size());
        if self.batch.takes(block, limit) {
            return Ok(());
        }
        self.send_batch()?;
        self.batch.block = block;
        Ok(())
    }

    // Sends a page. Returns whether the stream's table has `place`.
    fn add(&mut self, place: Place, content: &[u8]) -> Result<bool, Trouble>
        ensures count { length self.new.channels.items ≡ length self.old.channels.items }
        ensures sent { IfOk result (λ has_place. IsTrue has_place → SendsPage F.contents (record { place = place; content = content.now }) self.old self.new) }
    {
        let table = self.main.table();
        let page_size = table.page_size();
        if !table.holds(place) || content.len() as u64 != page_size {
            return Ok(false);
        }
        let Some(offset) = place.page.checked_mul(page_size) else {
            return Ok(false);
        };
        self.make_room(place.block)?;
        self.batch.add(offset, content)?;
        self.pages = self.pages.saturating_add(1);
        Ok(true)
    }

    // Sends the page `page` of `pages`, if it differs. Returns false if the stream's table lacks
    // its place.
    fn add_differing(
        &mut self,
        block: usize,
        first: u64,
        pages: &Pages<'_>,
        page: usize,
    ) -> Result<bool, Trouble>
        ensures count { length self.new.channels.items ≡ length self.old.channels.items }
        ensures sent { IfOk result (λ has_place. IsTrue has_place → (begun : Begun) (all sent : List Page)
            → AreSent block first (piece_of pages.now) page sent → IsPacking F.contents begun (all ++ sent) self.old
            → (more : List Page) × AreSent block first (piece_of pages.now) (page + 1) more × IsPacking F.contents begun (all ++ more) self.new) }
    {
        let Some(content) = pages.differing(page) else {
            return Ok(true);
        };
        let Some(number) = first.checked_add(page as u64) else {
            return Ok(false);
        };
        let place = Place {
            block,
            page: number,
        };
        let has_place = self.add(place, content)?;
        Ok(has_place)
    }

    /// Sends the differing pages of `pages`; the first of `pages` is the block's page `first`.
    /// Returns false if the stream's table lacks the place of one of them.
    ///
    /// # Errors
    ///
    /// `Trouble::OfFile` if a channel can't be written, `Trouble::NoMemory`.
    pub fn send(&mut self, block: usize, first: u64, pages: &Pages<'_>) -> Result<bool, Trouble>
        ensures count { length self.new.channels.items ≡ length self.old.channels.items }
        ensures sent { IfOk result (λ has_places. IsTrue has_places → SendsPages F.contents block first (piece_of pages.now) self.old self.new) }
    {
        for page in 0..PIECE_PAGES {
            if !self.add_differing(block, first, pages, page)? {
                return Ok(false);
            }
        }
        Ok(true)
    }

    /// Ends the round and the main stream: one of RAM with its end byte, a machine's with RAM's END
    /// and the byte `QEMU_VM_EOF`. Returns the channels, the number of pages sent, and the number
    /// of bytes written on the main stream.
    ///
    /// # Errors
    ///
    /// `Trouble::Output` if `out` can't be written, `Trouble::OfFile` of a channel,
    /// `Trouble::NoMemory`.
    pub fn finish<W: Write>(
        mut self,
        out: &mut W,
        frame: Frame,
    ) -> Result<(Vec<Outlet<F>>, u64, u64), Trouble>
        ensures count { IfOk result (λ r. length r.0.items ≡ length self.channels.items) }
        ensures all { IfOk result (λ r. (begun : Begun) (pages : List Page) → IsPacking F.contents begun pages self
            → IsPackedAll F.contents begun pages r.0.items (W.contents out.old) (W.contents out.new)) }
    {
        self.send_batch()?;
        let Packing {
            mut main,
            mut channels,
            batch: _,
            number,
            turn: _,
            mut bytes,
            pages,
            written,
        } = self;
        let table = main.table();
        table.keeps_limits();
        put_syncs(&mut channels, &mut bytes, table.page_size(), number)?;
        main.flush_part()?;
        let last = last_bytes(main, frame)?;
        write(out, &last)?;
        Ok((channels, pages, written.saturating_add(last.len() as u64)))
    }
}

// Returns the last bytes of a main stream.
fn last_bytes(main: StreamWriter, frame: Frame) -> Result<Vec<u8>, NoMemory>
    ensures { IfOk result (λ last. (name : Option (List ℕ)) (parts : List Part) → HasDrained (drained_of name) main parts
        → front_of name ++ last.items ≡ machine_closed name main.table parts) }
{
    match frame {
        Frame::Ram => ram_end(main),
        Frame::Machine => machine_end(main),
    }
}

// Ends a main stream of RAM.
fn ram_end(main: StreamWriter) -> Result<Vec<u8>, NoMemory>
    ensures { IfOk result (λ last. (name : Option (List ℕ)) (parts : List Part) → HasDrained (drained_of name) main parts
        → front_of name ++ last.items ≡ machine_closed name main.table parts) }
{
    match main.finish() {
        Ok(last) => Ok(last),
        Err(_) => Err(NoMemory),
    }
}

// Ends a machine's main stream that has no devices.
fn machine_end(main: StreamWriter) -> Result<Vec<u8>, NoMemory>
    ensures { IfOk result (λ last. (name : Option (List ℕ)) (parts : List Part) → HasDrained (drained_of name) main parts
        → front_of name ++ last.items ≡ machine_closed name main.table parts) }
{
    let Ok(mut last) = main.finish_open() else {
        return Err(NoMemory);
    };
    last.push(0)?;
    Ok(last)
}
