//! Reads an input in pieces, through one buffer.

ghost use Rattle.std.specs.Prelude.{◌≡◌, ◌<◌, ◌≤◌, length, take, IfOk};
ghost use Rattle.std.specs.Io.KnownBytes.{Consumes, IsAtEnd, ReadConsumes};

use crate::trouble::Trouble;
use std::alloc::Global;
use std::io::{self, ErrorKind, Read};

/// The most bytes of a piece.
pub(crate) const PIECE_LEN: usize = 262_144;

/// Returns the buffer that pieces are read into.
pub fn piece_buffer(alloc: Global) -> Result<Vec<u8>, Trouble>
    ensures some { IfOk result (λ v. 0 < length v.items) }
    ensures room { IfOk result (λ v. 16 ≤ length v.items) }
{
    let buffer = vec![in alloc; 0u8; PIECE_LEN]?;
    Ok(buffer)
}

// Reads once, and once more after each signal that interrupts the read.
fn read_some<R: Read>(input: &mut R, buffer: &mut [u8]) -> io::Result<usize>
    ensures len { length buffer.new ≡ length buffer.old }
    ensures count { IfOk result (λ n. n ≤ length buffer.old) }
    ensures bytes { ReadConsumes (R.remaining input.old) (R.remaining input.new) result buffer.new }
{
    'tries: for _ in 0..u64::MAX {
        match input.read(buffer) {
            Ok(len) => return Ok(len),
            Err(error) if error.kind() == ErrorKind::Interrupted => {}
            Err(error) => return Err(error),
        }
    }
    Err(io::Error::from(ErrorKind::Interrupted))
}

/// Reads until `buffer` is full or the input ends. Returns the number of bytes that it read: if it
/// is less than the length of `buffer`, the input has ended.
///
/// # Errors
///
/// `Trouble::Unread` if a read fails. The bytes read before it are in `buffer`, and their number is
/// lost.
pub fn read_piece<R: Read>(input: &mut R, buffer: &mut [u8]) -> Result<usize, Trouble>
    ensures len { length buffer.new ≡ length buffer.old }
    ensures count { IfOk result (λ n. n ≤ length buffer.old) }
    ensures bytes { IfOk result (λ n. Consumes (R.remaining input.old) (R.remaining input.new) (take n buffer.new)) }
    ensures end { IfOk result (λ n. n < length buffer.old → IsAtEnd (R.remaining input.new)) }
{
    let mut len = 0;
    'reads: for _ in 0..u64::MAX {
        if len == buffer.len() {
            return Ok(len);
        }
        match read_some(input, &mut buffer[len..]) {
            Ok(0) => return Ok(len),
            Ok(more) => len += more,
            Err(error) => return Err(Trouble::Unread(error)),
        }
    }
    Err(Trouble::Unread(io::Error::from(ErrorKind::Interrupted)))
}
