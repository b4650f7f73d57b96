//! Reads the heads of all blocks of a file with mapped-ram.

ghost use Rattle.std.specs.Prelude.{◌≡◌, ◌<◌, ◌≤◌, ◌^◌, ℕ, List, Some, IfOk, OnOk};
ghost use Rattle.mig_mem.specs.PageSize.{IsPageSize};
ghost use Rattle.zimgasol_mapped.specs.Placed.{IsPartAt};
ghost use Rattle.zimgasol_mapped.specs.Heads.{IsNextHead, IsIndexOf};

use crate::placed::PlacedFile;
use mig_mapped::{MappedFault, MappedIndex, MappedSettings, MappedStop, WordOrder};
use std::alloc::Global;
use zimgasol_files::Trouble;

/// The bytes of a head that are read at first. A longer one is read on.
const FIRST_LEN: usize = 4096;

/// The most bytes of a head: its bitmap has 32 MiB, if the block has 2^40 bytes.
const MOST_LEN: usize = 0x400_0000;

/// Where the size list of a file is, and what its head says.
#[derive(Clone, Copy)]
pub(crate) struct ListPlace {
    /// The byte of the file at which the first entry begins.
    pub(crate) place: u64,
    /// How many bytes the blocks have together.
    pub(crate) total: u64,
    /// The number of bytes of a page.
    pub(crate) page_size: u64,
}

// Returns the message of `fault`.
fn words_of(fault: MappedFault) -> &'static str {
    match fault {
        MappedFault::Id => "bad block id",
        MappedFault::IdTwice => "block id twice",
        MappedFault::Length => "bad block length",
        MappedFault::TooManyBlocks => "more than 256 blocks",
        MappedFault::SizeSum => "blocks longer than the RAM total",
        MappedFault::Truncated => {
            "the file ends early; the file was cut, or the save didn't come to its end"
        }
        MappedFault::HeaderVersion => "mapped-ram: the header's version isn't 1",
        MappedFault::HeaderPageSize => "mapped-ram: the header's page size isn't the guest's",
        MappedFault::BitmapOffset => "mapped-ram: the bitmap doesn't follow its header",
        MappedFault::PagesOffset => "mapped-ram: bad offset of a block's pages",
        MappedFault::BitmapTail => "mapped-ram: a bit is set after the last page's",
    }
}

// Returns the trouble of a head at the byte `place` that wasn't taken.
fn trouble_of(place: u64, stop: MappedStop) -> Trouble {
    match stop {
        MappedStop::Fault(fault) => Trouble::Fault(place, fault.number(), words_of(fault)),
        MappedStop::NoMemory => Trouble::NoMemory,
    }
}

// Reads more bytes of the head at the byte `place` to the end of `bytes`: as many as there are, or
// `FIRST_LEN`. Returns whether the file may go on.
fn read_more<F: PlacedFile>(
    alloc: Global,
    file: &mut F,
    place: u64,
    bytes: &mut Vec<u8>,
) -> Result<bool, Trouble>
    ensures same { F.file_bytes file.new ≡ F.file_bytes file.old }
    ensures bytes { OnOk result ((all : List ℕ) → F.file_bytes file.old ≡ Some all → IsPartAt all place bytes.old.items → IsPartAt all place bytes.new.items) }
{
    let more = bytes.len().clamp(FIRST_LEN, MOST_LEN);
    let mut piece = vec![in alloc; 0u8; more]?;
    let at = place.saturating_add(bytes.len() as u64);
    let read = match file.read_at(at, &mut piece) {
        Ok(read) => read,
        Err(error) => return Err(Trouble::Unread(error)),
    };
    bytes.extend_from_slice(&piece[..read])?;
    Ok(read == more)
}

// Reads the next head, and takes it into `index`.
fn read_head<F: PlacedFile>(
    alloc: Global,
    file: &mut F,
    bytes: &mut Vec<u8>,
    index: &mut MappedIndex,
) -> Result<(), Trouble>
    ensures same { F.file_bytes file.new ≡ F.file_bytes file.old }
    ensures given { OnOk result (index.new.given ≡ index.old.given) }
    ensures next { OnOk result ((all : List ℕ) → F.file_bytes file.old ≡ Some all → IsNextHead all index.old index.new) }
{
    let place = index.place();
    bytes.clear();
    for _ in 0..u64::MAX {
        let goes_on = read_more(alloc, file, place, bytes)?;
        match index.take(bytes) {
            Ok(()) => return Ok(()),
            Err(MappedStop::Fault(MappedFault::Truncated)) if goes_on => {}
            Err(stop) => return Err(trouble_of(place, stop)),
        }
    }
    Err(trouble_of(place, MappedStop::Fault(MappedFault::Truncated)))
}

// Reads all heads, with bitmaps in words of `order`.
fn read_ordered<F: PlacedFile>(
    alloc: Global,
    file: &mut F,
    list: ListPlace,
    order: WordOrder,
) -> Result<MappedIndex, Trouble>
    requires page_size { IsPageSize list.page_size }
    requires place { list.place < 2 ^ 63 }
    requires some { 0 < list.total }
    requires limit { list.total ≤ 2 ^ 40 }
    ensures same { F.file_bytes file.new ≡ F.file_bytes file.old }
    ensures all { IfOk result (λ index. index.left ≡ 0) }
    ensures size { IfOk result (λ index. index.given.page_size ≡ list.page_size) }
    ensures index { IfOk result (λ index. (all : List ℕ) → F.file_bytes file.old ≡ Some all → IsIndexOf all list.page_size list.place list.total index) }
{
    let settings = MappedSettings {
        page_size: list.page_size,
        order,
    };
    let mut index = MappedIndex::new(alloc, settings, list.place, list.total);
    let mut bytes = Vec::new(alloc);
    for _ in 0..u64::MAX {
        if index.left() == 0 {
            return Ok(index);
        }
        read_head(alloc, file, &mut bytes, &mut index)?;
    }
    Err(trouble_of(index.place(), MappedStop::Fault(MappedFault::TooManyBlocks)))
}

// Returns whether a head has a bit after that of the block's last page.
fn has_tail(read: &Result<MappedIndex, Trouble>) -> bool {
    let tail = MappedFault::BitmapTail.number();
    match read {
        Err(Trouble::Fault(_, number, _)) => *number == tail,
        _ => false,
    }
}

// Returns whether a head has a fault.
fn is_fault(read: &Result<MappedIndex, Trouble>) -> bool {
    matches!(read, Err(Trouble::Fault(_, _, _)))
}

/// Reads the heads of all blocks. The file doesn't name the order of the bytes in a bitmap's word.
/// They are read as little-endian, and if a bit is set then that no page has, as big-endian.
///
/// # Errors
///
/// `Trouble::Fault`: the first fault of the first head at fault. `Trouble::Unread` if a read fails,
/// and `Trouble::NoMemory`.
pub(crate) fn read_heads<F: PlacedFile>(
    alloc: Global,
    file: &mut F,
    list: ListPlace,
) -> Result<MappedIndex, Trouble>
    requires page_size { IsPageSize list.page_size }
    requires place { list.place < 2 ^ 63 }
    requires some { 0 < list.total }
    requires limit { list.total ≤ 2 ^ 40 }
    ensures same { F.file_bytes file.new ≡ F.file_bytes file.old }
    ensures all { IfOk result (λ index. index.left ≡ 0) }
    ensures size { IfOk result (λ index. index.given.page_size ≡ list.page_size) }
    ensures index { IfOk result (λ index. (all : List ℕ) → F.file_bytes file.old ≡ Some all → IsIndexOf all list.page_size list.place list.total index) }
{
    let little = read_ordered(alloc, file, list, WordOrder::Little);
    if !has_tail(&little) {
        return little;
    }
    let big = read_ordered(alloc, file, list, WordOrder::Big);
    if is_fault(&big) {
        return little;
    }
    big
}
