//! Finds the front of a file with mapped-ram in its first bytes, and begins its load.

ghost use Rattle.std.specs.Prelude.{◌≡◌, ◌≢◌, ◌<◌, ◌≤◌, ◌^◌, false, IsFalse, IfOk, IfErr, IfSome, IfNone, Some, None};
ghost use Rattle.mig_mem.specs.PageSize.{IsPageSize};
ghost use Rattle.mig_mapped.specs.declared.front.MappedFront.{MappedFront};
ghost use Rattle.mig_mapped.specs.Front.{HasFront};
ghost use Rattle.mig_c_calls.specs.Status.{done};
ghost use Rattle.mig_c_mapped.specs.Loads.{order_of, file_settings, IsBegun, OpensFile};
ghost use Rattle.mig_stream.specs.Reader.{Stands};

use crate::load::MappedFile;
use mig_c_calls::status::{BAD_PAGE_SIZE, MAX_LIMIT, NO_MEMORY, ROOM, RUNNING, TOO_LONG};
use mig_mapped::{MappedFront, MappedIndex, MappedSettings, WordOrder, front_in, plain_front};
use mig_mem::{NoMemory, is_page_size};
use mig_stream::{Frame, Mode, StreamReader};
use std::alloc::Global;

// Returns the order of the bytes in a bitmap's word, of a file that such a host wrote.
fn order_of(big_endian: bool) -> WordOrder
    ensures { result ≡ order_of big_endian }
{
    if big_endian {
        WordOrder::Big
    } else {
        WordOrder::Little
    }
}

// Says how many bytes the blocks of a file with this front may have together.
fn keeps_total(bytes: &[u8], front: MappedFront)
    requires { HasFront bytes.now front }
    ensures some { 0 < front.total }
    ensures limit { front.total ≤ 2 ^ 40 }
{}

// Finds the front of a file.
fn found(bytes: &[u8]) -> Option<MappedFront>
    ensures found { IfSome result (λ front. HasFront bytes.now front) }
    ensures none { IfNone result ((front : MappedFront) → HasFront bytes.now front → ⊥) }
{
    front_in(bytes)
}

// Creates the reader of the plain stream, which has read the front.
fn reader_of(
    alloc: Global,
    page_size: u64,
    plain: &[u8],
) -> Result<StreamReader<'static, Global>, NoMemory>
    requires { IsPageSize page_size }
    ensures stands { IfOk result (λ r. Stands (file_settings page_size) (record { text = plain.now; ended = false; taken = 0 }) r) }
    ensures open { IfOk result (λ r. IsFalse r.ended) }
{
    let mut reader: StreamReader<'static, Global> = StreamReader::new_with(
        alloc,
        Frame::Machine,
        Mode::Single,
        page_size,
        MAX_LIMIT,
        Some(0),
    );
    reader.feed(plain)?;
    Ok(reader)
}

// Begins the load of a file, whose first bytes have this front.
fn begun(
    alloc: Global,
    settings: MappedSettings,
    place: u64,
    bytes: &[u8],
    front: MappedFront,
) -> Result<MappedFile, NoMemory>
    requires page_size { IsPageSize settings.page_size }
    requires place { place < 2 ^ 63 }
    requires front { HasFront bytes.now front }
    ensures { IfOk result (λ f. IsBegun settings place bytes.now front f) }
{
    keeps_total(bytes, front);
    let plain = plain_front(alloc, bytes, front)?;
    let stream = reader_of(alloc, settings.page_size, &plain)?;
    Ok(MappedFile {
        index: MappedIndex::new(alloc, settings, place, front.total),
        stream,
        tail: 0,
        is_lost: false,
    })
}

/// Begins the load of a file with mapped-ram with pages of `page_size` bytes. Its stream begins with
/// `bytes`, which lie at the byte `base` of the file. Returns the status if there is none.
pub fn open_file(
    alloc: Global,
    page_size: u64,
    big_endian: bool,
    base: u64,
    bytes: &[u8],
) -> Result<MappedFile, u32>
    ensures ok { IfOk result (λ f. OpensFile page_size big_endian base bytes.now done (Some f)) }
    ensures err { IfErr result (λ status. OpensFile page_size big_endian base bytes.now status None) }
    ensures refused { IfErr result (λ status. status ≢ done) }
{
    if !is_page_size(page_size) {
        return Err(BAD_PAGE_SIZE);
    }
    let Some(front) = found(bytes) else {
        return Err(RUNNING);
    };
    let at = front.place as u64;
    if base >= ROOM || at >= ROOM - base {
        return Err(TOO_LONG);
    }
    let settings = MappedSettings {
        page_size,
        order: order_of(big_endian),
    };
    match begun(alloc, settings, base + at, bytes, front) {
        Ok(file) => Ok(file),
        Err(NoMemory) => Err(NO_MEMORY),
    }
}
