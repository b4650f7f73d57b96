//! Writes a memory into a file, with holes for its pages of zeros.

ghost use Rattle.std.specs.Prelude.{◌<◌, ◌≤◌, length, take, IsTrue};
ghost use Rattle.mig_zero.specs.Zero.{IsZero};

use crate::writing::put_image;
use mig_mem::{Memory, Table};
use mig_zero::is_zero;
use std::alloc::Allocator;
use std::fs::{File, Files, OpenFile};
use std::io::{self, Seek, SeekFrom, Write};

// Returns how many of the first bytes are in pages of zeros, or in other pages if `of_zeros` is
// false. The last page may be cut off.
fn run_len(bytes: &[u8], page_size: usize, of_zeros: bool) -> usize
    requires { 0 < page_size }
    ensures len { result ≤ length bytes.now }
    ensures zeros { IsTrue of_zeros → IsZero (take result bytes.now) }
{
    let mut rest = bytes;
    while !rest.is_empty() {
        let (page, after) = rest.split_at(rest.len().min(page_size));
        if is_zero(page) != of_zeros {
            break;
        }
        rest = after;
    }
    bytes.len() - rest.len()
}

// Writes a file from its beginning to its end, complete pages at a time. Pages of zeros are skipped
// in a regular file, since a hole reads as zeros.
#[derive(Drop)]
struct FileWithHoles<'t, F: Drop, A: Allocator> {
    file: F,
    table: &'t Table<A>,
    is_regular: bool,
    // the file's length so far, and whether its last bytes were skipped
    len: u64,
    has_skipped: bool,
}

impl<F: Write + Seek + Drop, A: Allocator> Write for FileWithHoles<'_, F, A> {
    fn write(&mut self, bytes: &[u8]) -> io::Result<usize> {
        if !self.is_regular {
            return self.file.write(bytes);
        }
        // shows that a page has bytes
        self.table.keeps_limits();
        let page_size = self.table.page_size() as usize;
        let zeros = run_len(bytes, page_size, true);
        if zeros > 0 {
            self.len = self.len.saturating_add(zeros as u64);
            self.has_skipped = true;
            return Ok(zeros);
        }
        if self.has_skipped {
            self.file.seek(SeekFrom::Start(self.len))?;
            self.has_skipped = false;
        }
        let others = run_len(bytes, page_size, false);
        self.file.write_all(&bytes[..others])?;
        self.len = self.len.saturating_add(others as u64);
        Ok(others)
    }

    fn flush(&mut self) -> io::Result<()> {
        self.file.flush()
    }
}

/// Writes a memory into a file, which is created if it doesn't exist, and truncated if it does.
/// Pages of zeros are skipped in a regular file. `buffer` collects the bytes of a write: the caller
/// passes it with a capacity of [`BUFFER_ROOM`](crate::BUFFER_ROOM) bytes.
///
/// # Errors
///
/// The first error of opening or writing the file. The bytes written before it stay.
pub fn write_image<H: Files, A: Allocator, B: Allocator>(
    rt: &H,
    name: &str,
    buffer: &mut Vec<u8, A>,
    memory: &Memory<B>,
) -> io::Result<()> {
    let file = File::create(rt, name)?;
    let is_regular = file.metadata()?.is_file();
    let mut out = FileWithHoles {
        file,
        table: memory.table(),
        is_regular,
        len: 0,
        has_skipped: false,
    };
    put_image(&mut out, buffer, memory)?;
    if out.is_regular {
        // zeros at the end were skipped
        out.file.set_len(out.len)?;
    }
    out.flush()
}
