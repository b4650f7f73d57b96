//! Writes the single stream of `save`: a section for each piece that has pages to send.

ghost use Rattle.std.specs.Prelude.{◌≡◌, ◌+◌, ◌++◌, ◌∷◌, [], ℕ, List, Option, Some, None, IfOk, IfSome, OnOk, IsTrue};
ghost use Rattle.std.specs.Io.KnownBytes.{Appends};
ghost use Rattle.std.specs.Option.{option_copied};
ghost use Rattle.mig_mem.specs.Image.{Page};
ghost use Rattle.mig_mem.specs.RamTable.{RamTable};
ghost use Rattle.mig_stream.specs.declared.item.Section.{Section};
ghost use Rattle.mig_stream.specs.Text.{Record, section};
ghost use Rattle.mig_stream.specs.Writer.{HasPut};
ghost use Rattle.mig_stream.specs.Written.{written_id};
ghost use Rattle.zimgasol_files.specs.Differing.{piece_of, AreSent};
ghost use Rattle.zimgasol_saving.specs.Written.{Front, Named, Kept, IsSending, IsStreamOf, Ends, HasSentSection, SendsPiece};

use crate::section::{set_section_id, start_end};
use mig_mem::{NoMemory, Place, Table};
use mig_send::{OpenRound, SingleSender};
use mig_stream::Frame;
use std::alloc::Global;
use std::io::Write;
use zimgasol_files::{PIECE_PAGES, Pages, Trouble};

/// The most bytes of a machine's name.
pub(crate) const MOST_NAME_LEN: usize = 1024;

/// A stream that is being written.
#[derive(Drop)]
pub(crate) struct Sending {
    sender: SingleSender,
    // the bytes of the stream that were drained last
    bytes: Vec<u8>,
    /// The page records that were sent.
    pub pages: u64,
    /// The bytes that were written.
    pub written: u64,
    // the id of RAM's section in the stream of a machine with its state
    id: Option<u32>,
}

// Adds a page to `round`. Returns whether its table has the place.
fn put(round: &mut OpenRound, place: Place, page: &[u8]) -> Result<bool, NoMemory>
    ensures before { round.new.before ≡ round.old.before }
    ensures put { IfOk result (λ has_place. IsTrue has_place → (done : List Page) → HasPut round.old done
        → HasPut round.new (done ++ record { place = place; content = page.now } ∷ [])) }
{
    let table = round.table();
    if !table.holds(place) || page.len() as u64 != table.page_size() {
        return Ok(false);
    }
    round.put_page(place, page)?;
    Ok(true)
}

// Adds the page `page` of `pages`, if it differs. Returns whether it does; None if the stream's
// table lacks its place.
fn put_differing(
    round: &mut OpenRound,
    block: usize,
    first: u64,
    pages: &Pages<'_>,
    page: usize,
) -> Result<Option<bool>, NoMemory>
    ensures before { round.new.before ≡ round.old.before }
    ensures sent { IfOk result (λ r. IfSome r (λ _. (sent : List Page)
        → AreSent block first (piece_of pages.now) page sent → HasPut round.old sent
        → (more : List Page) × AreSent block first (piece_of pages.now) (page + 1) more × HasPut round.new more)) }
{
    let Some(bytes) = pages.differing(page) else {
        return Ok(Some(false));
    };
    let Some(number) = first.checked_add(page as u64) else {
        return Ok(None);
    };
    let place = Place {
        block,
        page: number,
    };
    if !put(round, place, bytes)? {
        return Ok(None);
    }
    Ok(Some(true))
}

// Adds the pages that differ. Returns their number; None if the stream's table lacks the place of
// one of them.
fn put_all_differing(
    round: &mut OpenRound,
    block: usize,
    first: u64,
    pages: &Pages<'_>,
) -> Result<Option<u64>, NoMemory>
    ensures before { round.new.before ≡ round.old.before }
    ensures sent { IfOk result (λ r. IfSome r (λ _. HasPut round.old []
        → (sent : List Page) × AreSent block first (piece_of pages.now) 256 sent × HasPut round.new sent)) }
{
    let mut count = 0u64;
    for page in 0..PIECE_PAGES {
        match put_differing(round, block, first, pages, page)? {
            Some(true) => count = count.saturating_add(1),
            Some(false) => {}
            None => return Ok(None),
        }
    }
    Ok(Some(count))
}

// Sends the pages that differ as a section. Returns their number, and the sender; None if the
// stream's table lacks the place of one of them.
fn send_section(
    sender: SingleSender,
    block: usize,
    first: u64,
    pages: &Pages<'_>,
) -> Result<Option<(u64, SingleSender)>, NoMemory>
    ensures sent { IfOk result (λ r. IfSome r (λ s. HasSentSection block first (piece_of pages.now) sender s.1)) }
{
    let Ok(mut round) = sender.begin_round() else {
        return Err(NoMemory);
    };
    let Some(count) = put_all_differing(&mut round, block, first, pages)? else {
        return Ok(None);
    };
    match round.end_round() {
        Ok(sender) => Ok(Some((count, sender))),
        Err(_) => Err(NoMemory),
    }
}

/// Writes `bytes` of the stream to `out`.
///
/// # Errors
///
/// `Trouble::Output` if `out` doesn't take them.
pub(crate) fn write<W: Write>(out: &mut W, bytes: &[u8]) -> Result<(), Trouble>
    ensures { OnOk result (Appends (W.contents out.old) (W.contents out.new) bytes.now) }
{
    match out.write_all(bytes) {
        Ok(()) => Ok(()),
        Err(error) => Err(Trouble::Output(error)),
    }
}

// Sets the section's id, if it isn't the sender's.
fn set_id(bytes: &mut Vec<u8>, id: Option<u32>)
    ensures none { id ≡ None → bytes.new ≡ bytes.old }
    ensures section { (own : ℕ) (table : RamTable) (kind : Section) (records : List Record) → id ≡ Some own
        → bytes.old.items ≡ section table kind written_id records → bytes.new.items ≡ section table kind own records }
{
    let Some(id) = id else {
        return;
    };
    set_section_id(bytes, id);
}

// Begins a stream without a name, of which nothing is written yet.
fn begin_plain(alloc: Global, table: &Table) -> Result<Sending, Trouble>
    ensures { IfOk result (λ s. IsSending s (Named None) table.now [] []) }
{
    let sender = SingleSender::new(alloc, table)?;
    Ok(Sending {
        sender,
        bytes: Vec::new(alloc),
        pages: 0,
        written: 0,
        id: None,
    })
}

// Begins a machine's stream: writes its first bytes, with its name.
fn begin_named<W: Write>(
    alloc: Global,
    out: &mut W,
    table: &Table,
    name: &[u8],
) -> Result<Sending, Trouble>
    ensures { IfOk result (λ s. (first : List ℕ) × Appends (W.contents out.old) (W.contents out.new) first
        × IsSending s (Named (Some name.now)) table.now first []) }
{
    if name.len() > MOST_NAME_LEN {
        return Err(Trouble::NoMemory);
    }
    let (first, sender) = SingleSender::with_configuration(alloc, table, name)?;
    write(out, &first)?;
    Ok(Sending {
        sender,
        bytes: Vec::new(alloc),
        pages: 0,
        written: first.len() as u64,
        id: None,
    })
}

impl Sending {
    /// Begins a stream of the blocks of `table`. The machine's name has at most 1,024 bytes;
    /// without a name no configuration is written.
    ///
    /// # Errors
    ///
    /// `Trouble::Output` if `out` can't be written, `Trouble::NoMemory`.
    pub(crate) fn begin<W: Write>(
        alloc: Global,
        out: &mut W,
        table: &Table,
        name: Option<&[u8]>,
    ) -> Result<Sending, Trouble>
        ensures { IfOk result (λ s. (first : List ℕ) × Appends (W.contents out.old) (W.contents out.new) first
            × IsSending s (Named (option_copied name.entry)) table.now first []) }
    {
        let Some(name) = name else {
            let sending = begin_plain(alloc, table)?;
            return Ok(sending);
        };
        begin_named(alloc, out, table, name)
    }

    /// Begins the stream of a machine that is restored: writes the bytes before RAM's records, and
    /// the end of START. The machine's blocks are those of `table`.
    ///
    /// # Errors
    ///
    /// `Trouble::Output` if `out` can't be written, `Trouble::NoMemory`.
    pub(crate) fn begin_kept<W: Write>(
        alloc: Global,
        out: &mut W,
        table: &Table,
        libvirt: &[u8],
        before: &[u8],
        id: u32,
    ) -> Result<Sending, Trouble>
        ensures { IfOk result (λ s. (first : List ℕ) × Appends (W.contents out.old) (W.contents out.new) first
            × IsSending s (Kept (libvirt.now ++ before.now) id) table.now first []) }
    {
        let (_, mut sender) = SingleSender::with_configuration(alloc, table, &[])?;
        // START as the sender writes it: the machine's own is among the bytes before the records
        let mut bytes = Vec::new(alloc);
        sender.drain_into(&mut bytes);
        let end = start_end(id);
        write(out, libvirt)?;
        write(out, before)?;
        write(out, &end)?;
        let front = libvirt.len().saturating_add(before.len());
        Ok(Sending {
            sender,
            bytes,
            pages: 0,
            written: front.saturating_add(end.len()) as u64,
            id: Some(id),
        })
    }

    /// Sends the differing pages of `pages`; the first of `pages` is the block's page `first`.
    /// Returns None if the stream's table lacks the place of one of them.
    ///
    /// # Errors
    ///
    /// `Trouble::Output` if `out` can't be written, `Trouble::NoMemory`.
    pub(crate) fn send<W: Write>(
        self,
        out: &mut W,
        block: usize,
        first: u64,
        pages: &Pages<'_>,
    ) -> Result<Option<Sending>, Trouble>
        ensures { IfOk result (λ r. IfSome r (λ s.
            SendsPiece (IsSending self) (IsSending s) (W.contents out.old) (W.contents out.new) block first (piece_of pages.now))) }
    {
        if pages.are_same() {
            return Ok(Some(self));
        }
        let Sending {
            sender,
            mut bytes,
            pages: sent,
            written,
            id,
        } = self;
        let Some((count, mut sender)) = send_section(sender, block, first, pages)? else {
            return Ok(None);
        };
        sender.drain_into(&mut bytes);
        set_id(&mut bytes, id);
        write(out, &bytes)?;
        Ok(Some(Sending {
            sender,
            pages: sent.saturating_add(count),
            written: written.saturating_add(bytes.len() as u64),
            bytes,
            id,
        }))
    }

    /// Ends the stream: one of RAM with its end byte, a machine's with RAM's END and the byte
    /// `QEMU_VM_EOF`. With a state it ends RAM alone. Returns how many pages were sent, and how
    /// many bytes were written.
    ///
    /// # Errors
    ///
    /// `Trouble::Output` if `out` can't be written, `Trouble::NoMemory`.
    pub(crate) fn finish<W: Write>(self, out: &mut W, frame: Frame) -> Result<(u64, u64), Trouble>
        ensures { OnOk result ((front : Front) (table : RamTable) (text : List ℕ) (pages : List Page) → IsSending self front table text pages
            → (last : List ℕ) × Appends (W.contents out.old) (W.contents out.new) last × IsStreamOf front table pages (text ++ last)) }
    {
        let Sending {
            sender,
            bytes: _,
            pages,
            written,
            id,
        } = self;
        let last = last_bytes(sender, frame, id)?;
        write(out, &last)?;
        Ok((pages, written.saturating_add(last.len() as u64)))
    }
}

// Returns the last bytes of a stream; of one with a state, those up to the end of RAM, whose
// section has the id `id`.
fn last_bytes(sender: SingleSender, frame: Frame, id: Option<u32>) -> Result<Vec<u8>, NoMemory>
    ensures { IfOk result (λ last. Ends id sender last.items) }
{
    match (id, frame) {
        (Some(id), _) => state_end(sender, id),
        (None, Frame::Ram) => ram_end(sender),
        (None, Frame::Machine) => machine_end(sender),
    }
}

// Ends a stream of RAM.
fn ram_end(sender: SingleSender) -> Result<Vec<u8>, NoMemory>
    ensures { IfOk result (λ last. Ends None sender last.items) }
{
    match sender.finish() {
        Ok(last) => Ok(last),
        Err(_) => Err(NoMemory),
    }
}

// Ends a machine's stream that has no devices.
fn machine_end(sender: SingleSender) -> Result<Vec<u8>, NoMemory>
    ensures { IfOk result (λ last. Ends None sender last.items) }
{
    let Ok(mut last) = sender.finish_open() else {
        return Err(NoMemory);
    };
    last.push(0)?;
    Ok(last)
}

// Ends RAM in a machine's stream whose devices follow.
fn state_end(sender: SingleSender, id: u32) -> Result<Vec<u8>, NoMemory>
    ensures { IfOk result (λ last. Ends (Some id) sender last.items) }
{
    match sender.finish_open() {
        Ok(mut last) => {
            set_section_id(&mut last, id);
            Ok(last)
        }
        Err(_) => Err(NoMemory),
    }
}
