//! Hellos and packets, written into buffers of C.

ghost use Rattle.std.specs.Prelude.{◌≡◌, ◌*◌, ◌+◌, ◌≤◌, IfOk, length};
ghost use Rattle.mig_packet.specs.PageSize.{IsPageSize, page_limit};
ghost use Rattle.mig_packet.specs.Written.{written_packet};
ghost use Rattle.mig_c_calls.specs.Packets.{Greets, CopiesOut, PutsPacket};

use crate::status::{BAD_LENGTH, BAD_PAGE_SIZE, DONE, NO_MEMORY, TOO_MANY_PAGES};
use mig_mem::is_page_size;
use mig_packet::{NoMemory, hello, page_limit, put_packet};
use std::alloc::Global;
use uuid::Uuid;

/// Writes the hello of a channel, with a UUID of 16 bytes, into a buffer of 64. Returns the status:
/// `DONE` or `BAD_LENGTH`.
pub fn write_hello(uuid: &[u8], id: u8, out: &mut [u8]) -> u32
    ensures { Greets uuid.now id result out.old out.new }
{
    let Ok(uuid) = Uuid::from_slice(uuid) else {
        return BAD_LENGTH;
    };
    if out.len() != 64 {
        return BAD_LENGTH;
    }
    out.copy_from_slice(&hello(&uuid, id));
    DONE
}

// Creates a packet in memory of its own.
fn packet(
    alloc: Global,
    page_size: u64,
    number: u64,
    sync: bool,
    id: &[u8],
    normal: &[u64],
    contents: &[u8],
    zero: &[u64],
) -> Result<Vec<u8>, NoMemory>
    requires page_size { IsPageSize page_size }
    requires few { length normal.now + length zero.now ≤ page_limit page_size }
    requires contents { length contents.now ≡ length normal.now * page_size }
    requires id { length id.now ≤ 255 }
    ensures { IfOk result (λ bytes. bytes.items ≡ written_packet page_size number sync id.now normal.now contents.now zero.now) }
{
    let mut bytes = Vec::new(alloc);
    put_packet(
        page_size, &mut bytes, number, sync, id, normal, contents, zero,
    )?;
    Ok(bytes)
}

// Copies bytes to the front of a buffer that has room for them.
fn copy_out(bytes: &[u8], out: &mut [u8], written: &mut usize) -> u32
    ensures { CopiesOut bytes.now result out.old out.new written.new }
{
    *written = bytes.len();
    if out.len() < bytes.len() {
        return BAD_LENGTH;
    }
    out[..bytes.len()].copy_from_slice(bytes);
    DONE
}

/// Writes one packet to the front of a buffer, and its length to `written`. If the buffer alone is
/// too short, writes the length that is needed to `written`, and returns `BAD_LENGTH`. Otherwise
/// returns `DONE`, or the first that applies of `BAD_PAGE_SIZE`, `TOO_MANY_PAGES`, `BAD_LENGTH` and
/// `NO_MEMORY`.
pub fn write_packet(
    alloc: Global,
    page_size: u64,
    number: u64,
    sync: bool,
    id: &[u8],
    normal: &[u64],
    contents: &[u8],
    zero: &[u64],
    out: &mut [u8],
    written: &mut usize,
) -> u32
    ensures { PutsPacket page_size number sync id.now normal.now contents.now zero.now result out.old out.new written.old written.new }
{
    if !is_page_size(page_size) {
        return BAD_PAGE_SIZE;
    }
    let limit = page_limit(page_size);
    if normal.len() > limit || zero.len() > limit - normal.len() {
        return TOO_MANY_PAGES;
    }
    if contents.len() as u64 != normal.len() as u64 * page_size || id.len() > 255 {
        return BAD_LENGTH;
    }
    let Ok(bytes) = packet(alloc, page_size, number, sync, id, normal, contents, zero) else {
        return NO_MEMORY;
    };
    copy_out(&bytes, out, written)
}
