//! The calls that write hellos and packets into buffers of C.

ghost use Rattle.mig_c_calls.specs.Packets.{Greets, PutsPacket};

use mig_c_calls::{write_hello, write_packet};
use std::alloc::Global;

/// Writes the hello of a channel, with a UUID of 16 bytes, into a buffer of 64.
#[unsafe(no_mangle)]
pub extern "C" fn zimgasol_hello(uuid: &[u8], id: u8, out: &mut [u8]) -> u32
    ensures greets { Greets uuid.now id result out.old out.new }
{
    write_hello(uuid, id, out)
}

/// Writes one packet to the front of a buffer, and reports its length. If the buffer is too short,
/// it reports the length that is needed.
#[unsafe(no_mangle)]
pub extern "C" fn zimgasol_put_packet(
    alloc: Global,
    page_size: u64,
    number: u64,
    sync: bool,
    id: &[u8],
    normal: &[u64],
    contents: &[u8],
    zero: &[u64],
    out: &mut [u8],
    written: &mut usize,
) -> u32
    ensures puts { PutsPacket page_size number sync id.now normal.now contents.now zero.now result out.old out.new written.old written.new }
{
    write_packet(
        alloc, page_size, number, sync, id, normal, contents, zero, out, written,
    )
}
