//! Packs batches: into a packet of its own for `worker`, and after a channel's bytes for `share`.

ghost use Rattle.std.specs.Prelude.{◌≡◌, ◌+◌, ◌<◌, ◌≤◌, ◌++◌, length, map, zip, All, IfOk, OnOk, OnErr};
ghost use Rattle.mig_mem.specs.RamTable.{IsTable};
ghost use Rattle.mig_mem.specs.Place.{IsPlace, place_at};
ghost use Rattle.mig_mem.specs.Image.{content_at};
ghost use Rattle.mig_zero.specs.Zero.{is_zero as zero_test};
ghost use Rattle.mig_send.specs.Batches.{IsBatch};
ghost use Rattle.mig_packet.specs.PageSize.{page_limit};
ghost use Rattle.mig_send.specs.Heads.{zeros_at, others_at, batch_head};
ghost use Rattle.mig_send.specs.Packing.{IsPacked, IsPrefix, packed_of, normal_offsets, zero_offsets, contents_at, packet_at};

use crate::Batch;
use mig_mem::{GuestPages, NoMemory, Place, Table};
use mig_packet::{head_len, put_packet_head};
use mig_zero::is_zero;
use std::alloc::{Allocator, Global};
use std::fmt::{self, Debug, Formatter};
use std::marker::Model;

/// The packet of a batch. The type's contract keeps that its bytes are one, so that a caller who
/// sends it need not test it again.
pub struct Packed<A: Allocator = Global> {
    page_size: u64,
    number: u64,
    bytes: Vec<u8, A>,
}

// Written out, so that a caller's proof passes a call where a value is dropped.
impl<A: Allocator> Drop for Packed<A> {
    fn drop(self) {
        let Packed {
            page_size: _,
            number: _,
            bytes: _,
        } = self;
    }
}

impl<A: Allocator> Model for Packed<A> {
    ghost use Rattle.mig_send.specs.Packing.{PackedBatch, IsPacked};

    ghost Value = { PackedBatch };

    ghost view = { λ p. record { page_size = p.page_size; number = p.number; bytes = p.bytes.items } };

    ghost invariant = { λ p. IsPacked (record { page_size = p.page_size; number = p.number; bytes = p.bytes.items }) };
}

impl<A: Allocator> Packed<A> {
    /// Returns the packet's number.
    pub fn number(&self) -> u64
        ensures { result ≡ self.now.number }
    {
        self.number
    }

    /// Returns the packet's bytes. The contract also says what such a packet keeps.
    pub fn bytes(&self) -> &[u8]
        ensures bytes { result.now ≡ self.now.bytes }
        ensures packed { IsPacked self.now }
    {
        &self.bytes
    }
}

/// Prints the packet's number, and not its bytes.
impl<A: Allocator> Debug for Packed<A> {
    fn fmt<W: fmt::Write>(&self, f: &mut Formatter<W>) -> fmt::Result {
        f.debug_struct("Packed")
            .field("number", &self.number)
            .finish_non_exhaustive()
    }
}

/// Packs the pages of a batch into packet `number`: those that aren't zeros with their contents,
/// the others by their offsets alone. Each page is tested once, and copied at most once.
///
/// # Errors
///
/// `NoMemory`: an allocation was refused.
pub fn pack<A: Allocator + Copy, M: GuestPages, C: Allocator>(
    alloc: A,
    memory: &M,
    batch: &Batch<C>,
    number: u64,
) -> Result<Packed<A>, NoMemory>
    requires { IsBatch (M.image memory.now).table batch.now }
    ensures { IfOk result (λ packed. packed ≡ packed_of (M.image memory.now) batch.now number) }
{
    // shows that packets of the table can be written: its ids, page numbers and page size
    memory.table().keeps_limits();
    let mut bytes = Vec::new(alloc);
    append_packet(&mut bytes, &mut Offsets::new(alloc), memory, batch, number)?;
    Ok(Packed {
        page_size: memory.table().page_size(),
        number,
        bytes,
    })
}

/// The offsets of some pages of a block, in bytes: of those that aren't zeros, and of those that
/// are. A caller that packs several batches keeps one, so that the lists' memory is reused.
#[derive(Drop)]
pub(crate) struct Offsets<A: Allocator> {
    normal: Vec<u64, A>,
    zero: Vec<u64, A>,
}

impl<A: Allocator + Copy> Offsets<A> {
    /// Creates empty lists.
    pub(crate) fn new(alloc: A) -> Offsets<A> {
        Offsets {
            normal: Vec::new(alloc),
            zero: Vec::new(alloc),
        }
    }
}

/// Appends the packet of a batch to `text`, with room made for all of it at once. After an `Err` a
/// part of it may have been appended.
pub(crate) fn append_packet<A: Allocator, M: GuestPages, C: Allocator>(
    text: &mut Vec<u8, A>,
    offsets: &mut Offsets<A>,
    memory: &M,
    batch: &Batch<C>,
    number: u64,
) -> Result<(), NoMemory>
    requires { IsBatch (M.image memory.now).table batch.now }
    ensures ok { OnOk result (text.new.items ≡ text.old.items ++ (packed_of (M.image memory.now) batch.now number).bytes) }
    ensures prefix { IsPrefix text.old.items text.new.items }
{
    // as in `pack`
    memory.table().keeps_limits();
    let Offsets { normal, zero } = offsets;
    put_offsets(normal, zero, memory, batch.block, &batch.pages)?;
    append_pages(text, memory, batch.block, number, normal, zero)
}

// Puts the offsets of some pages of a block into two lists, in place of what these had.
fn put_offsets<A: Allocator, M: GuestPages>(
    normal: &mut Vec<u64, A>,
    zero: &mut Vec<u64, A>,
    memory: &M,
    block: usize,
    pages: &[u64],
) -> Result<(), NoMemory>
    requires table { IsTable (M.image memory.now).table }
    requires places { All (IsPlace (M.image memory.now).table) (map (place_at block) pages.now) }
    ensures normal { OnOk result (normal.new.items ≡ normal_offsets (M.image memory.now) (map (place_at block) pages.now)) }
    ensures zero { OnOk result (zero.new.items ≡ zero_offsets (M.image memory.now) (map (place_at block) pages.now)) }
{
    let page_size = memory.table().page_size();
    normal.clear();
    zero.clear();
    normal.reserve(pages.len())?;
    zero.reserve(pages.len())?;
    for page in pages {
        let offset = *page * page_size;
        let place = Place { block, page: *page };
        if is_zero_page(memory, place) {
            zero.push(offset)?;
            continue;
        }
        normal.push(offset)?;
    }
    Ok(())
}

// Returns whether a page is zeros. A place outside the memory counts as one of no bytes.
fn is_zero_page<M: GuestPages>(memory: &M, place: Place) -> bool
    ensures { result ≡ zero_test (content_at (M.image memory.now) place) }
{
    match memory.page(place) {
        Some(content) => is_zero(content),
        None => true,
    }
}

// Appends packet `number` with pages of a block: the normal pages and the zero pages by their
// offsets.
fn append_pages<A: Allocator, M: GuestPages>(
    text: &mut Vec<u8, A>,
    memory: &M,
    block: usize,
    number: u64,
    normal: &[u64],
    zero: &[u64],
) -> Result<(), NoMemory>
    requires table { IsTable (M.image memory.now).table }
    requires block { block < length (M.image memory.now).table.blocks }
    requires few { length normal.now + length zero.now ≤ page_limit (M.image memory.now).table.page_size }
    ensures ok { OnOk result (text.new.items ≡ text.old.items ++ packet_at (M.image memory.now) block number normal.now zero.now) }
    ensures prefix { IsPrefix text.old.items text.new.items }
{
    let table = memory.table();
    let page_size = table.page_size();
    text.reserve(head_len(page_size) + normal.len() * page_size as usize)?;
    let id = table.id(block);
    let Ok(()) = put_packet_head(page_size, text, number, false, id, normal, zero) else {
        return Err(NoMemory);
    };
    append_contents(text, memory, block, normal)
}

// Appends the contents of the pages of a block that are at `offsets`. After an `Err` some of them
// may have been appended.
fn append_contents<A: Allocator, M: GuestPages>(
    text: &mut Vec<u8, A>,
    memory: &M,
    block: usize,
    offsets: &[u64],
) -> Result<(), NoMemory>
    requires { IsTable (M.image memory.now).table }
    ensures ok { OnOk result (text.new.items ≡ text.old.items ++ contents_at (M.image memory.now) block offsets.now) }
    ensures prefix { IsPrefix text.old.items text.new.items }
{
    let page_size = memory.table().page_size();
    for offset in offsets {
        let page = *offset / page_size;
        if let Some(content) = memory.page(Place { block, page }) {
            text.extend_from_slice(content)?;
        }
    }
    Ok(())
}

/// Appends the head of the packet of a batch to `text`: `zeros` says of each of its pages whether
/// it is zeros. After an `Err` `text` has its bytes.
pub(crate) fn append_head<A: Allocator, C: Allocator, D: Allocator>(
    text: &mut Vec<u8, A>,
    offsets: &mut Offsets<A>,
    table: &Table<D>,
    batch: &Batch<C>,
    number: u64,
    zeros: &[bool],
) -> Result<(), NoMemory>
    requires batch { IsBatch table.now batch.now }
    requires zeros { length zeros.now ≡ length batch.now.pages }
    ensures ok { OnOk result (text.new.items ≡ text.old.items ++ batch_head table.now batch.now number zeros.now) }
    ensures err { OnErr result (text.new.items ≡ text.old.items) }
{
    // as in `pack`
    table.keeps_limits();
    let Offsets { normal, zero } = offsets;
    let Ok(()) = put_flagged(normal, zero, table, batch.block, &batch.pages, zeros) else {
        return Err(NoMemory);
    };
    let id = table.id(batch.block);
    match put_packet_head(table.page_size(), text, number, false, id, normal, zero) {
        Ok(()) => Ok(()),
        Err(_) => Err(NoMemory),
    }
}

// Puts the offsets of some pages of a block into two lists, in place of what these had: of those
// that are said to be zeros, and of the others.
fn put_flagged<A: Allocator, D: Allocator>(
    others: &mut Vec<u64, A>,
    blank: &mut Vec<u64, A>,
    table: &Table<D>,
    block: usize,
    pages: &[u64],
    zeros: &[bool],
) -> Result<(), NoMemory>
    requires table { IsTable table.now }
    requires places { All (IsPlace table.now) (map (place_at block) pages.now) }
    requires zeros { length zeros.now ≡ length pages.now }
    ensures normal { OnOk result (others.new.items ≡ others_at table.now.page_size (zip pages.now zeros.now)) }
    ensures zero { OnOk result (blank.new.items ≡ zeros_at table.now.page_size (zip pages.now zeros.now)) }
{
    let page_size = table.page_size();
    others.clear();
    blank.clear();
    others.reserve(pages.len())?;
    blank.reserve(pages.len())?;
    for i in 0..pages.len() {
        let offset = pages[i] * page_size;
        if zeros[i] {
            blank.push(offset)?;
            continue;
        }
        others.push(offset)?;
    }
    Ok(())
}
