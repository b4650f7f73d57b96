//! Writes the bytes of a memory's file, many pages at a time.

ghost use Rattle.std.specs.Prelude.{◌≡◌, ◌<◌, [], length, OnOk};
ghost use Rattle.std.specs.Io.KnownBytes.{Appends, append_known};
ghost use Rattle.mig_image.specs.File.{image_bytes, block_bytes};

use mig_mem::{Memory, Place};
use std::alloc::Allocator;
use std::io::{self, Write};

/// The number of bytes that are written at once.
const BUFFER_LEN: usize = 65_536;

/// The capacity of a buffer: the bytes that are written at once, and a page or more.
pub const BUFFER_ROOM: usize = 2 * BUFFER_LEN;

// Writes the collected bytes.
fn write_out<W: Write, A: Allocator>(out: &mut W, buffer: &mut Vec<u8, A>) -> io::Result<()>
    ensures bytes { OnOk result (Appends (W.contents out.old) (W.contents out.new) buffer.old.items) }
    ensures none { OnOk result (buffer.new.items ≡ []) }
{
    out.write_all(buffer)?;
    buffer.clear();
    Ok(())
}

// Collects a page, and writes first what was collected if that is enough for a write.
fn collect<W: Write, A: Allocator>(
    out: &mut W,
    buffer: &mut Vec<u8, A>,
    page: &[u8],
) -> io::Result<()>
    ensures { OnOk result (Appends (append_known (W.contents out.old) buffer.old.items) (append_known (W.contents out.new) buffer.new.items) page.now) }
{
    if buffer.len() >= BUFFER_LEN {
        write_out(out, buffer)?;
    }
    buffer.extend_from_slice(page)?;
    Ok(())
}

// Collects the pages of a block, and writes what is enough for a write.
fn put_block<W: Write, A: Allocator, B: Allocator>(
    out: &mut W,
    buffer: &mut Vec<u8, A>,
    memory: &Memory<B>,
    block: usize,
) -> io::Result<()>
    requires { block < length memory.now.table.blocks }
    ensures { OnOk result (Appends (append_known (W.contents out.old) buffer.old.items) (append_known (W.contents out.new) buffer.new.items) (block_bytes memory.now block)) }
{
    for page in 0..memory.table().pages(block) {
        if let Some(bytes) = memory.page(Place { block, page }) {
            collect(out, buffer, bytes)?;
        }
    }
    Ok(())
}

/// Writes the bytes of a memory's file: those of its pages, block after block in the table's order.
/// It doesn't flush `out`. `buffer` collects the bytes of a write, and what stood in it is lost. It
/// doesn't grow, if the caller passes it with a capacity of [`BUFFER_ROOM`] bytes.
///
/// # Errors
///
/// The first error of writing. The bytes written before it stay.
pub fn put_image<W: Write, A: Allocator, B: Allocator>(
    out: &mut W,
    buffer: &mut Vec<u8, A>,
    memory: &Memory<B>,
) -> io::Result<()>
    ensures { OnOk result (Appends (W.contents out.old) (W.contents out.new) (image_bytes memory.now)) }
{
    buffer.clear();
    for block in 0..memory.table().len() {
        put_block(out, buffer, memory, block)?;
    }
    write_out(out, buffer)
}
