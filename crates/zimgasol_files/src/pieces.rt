//! Reads one of several inputs in pieces, and keeps the last piece's bytes that weren't taken yet.

ghost use Rattle.std.specs.Prelude.{◌≡◌, ◌≤◌, [], length, drop, IfOk, OnOk, false};
ghost use Rattle.std.specs.Io.KnownBytes.{Keeps, IsAtEnd};
ghost use Rattle.zimgasol_files.specs.Waiting.{waits, to_come};

use crate::input::read_piece;
use crate::trouble::Trouble;
use std::alloc::Global;
use std::io::Read;

/// The most bytes of a piece, if several inputs are read.
const PIECE_LEN: usize = 131_072;

/// The piece that was read last.
#[derive(Drop)]
pub struct Pieces {
    buffer: Vec<u8>,
    // the bytes that wait begin and end here
    start: usize,
    end: usize,
    /// The bytes of the input that were read.
    pub read: u64,
}

impl Pieces {
    /// Creates an empty piece: nothing of the input was read.
    pub fn new(alloc: Global) -> Result<Pieces, Trouble>
        ensures { IfOk result (λ p. waits p ≡ []) }
    {
        let buffer = vec![in alloc; 0u8; PIECE_LEN]?;
        Ok(Pieces {
            buffer,
            start: 0,
            end: 0,
            read: 0,
        })
    }

    /// Reads the next piece, if no byte waits. Returns whether bytes wait: if none do, the input
    /// has ended.
    ///
    /// # Errors
    ///
    /// `Trouble::Unread` if a read fails.
    pub fn refill<R: Read>(&mut self, input: &mut R) -> Result<bool, Trouble>
        ensures kept { OnOk result (Keeps (to_come (R.remaining input.old) self.old) (to_come (R.remaining input.new) self.new)) }
        ensures end { IfOk result (λ is_more. is_more ≡ false → IsAtEnd (to_come (R.remaining input.new) self.new)) }
        ensures none { IfOk result (λ is_more. is_more ≡ false → waits self.new ≡ []) }
    {
        if self.start < self.end {
            return Ok(true);
        }
        // never: the buffer of `new` has room
        if self.buffer.is_empty() {
            return Err(Trouble::NoMemory);
        }
        let len = read_piece(input, &mut self.buffer)?;
        self.start = 0;
        self.end = len;
        self.read = self.read.saturating_add(len as u64);
        Ok(len != 0)
    }

    /// Returns the bytes that wait.
    pub fn waiting(&self) -> &[u8]
        ensures { result.now ≡ waits self.now }
    {
        let end = self.end.min(self.buffer.len());
        let start = self.start.min(end);
        &self.buffer[start..end]
    }

    /// Takes `len` of the bytes that wait.
    pub fn take(&mut self, len: usize)
        ensures { waits self.new ≡ drop len (waits self.old) }
    {
        let from = self.start.saturating_add(len).min(self.end);
        self.start = from;
    }

    /// Takes all bytes that wait.
    pub fn take_all(&mut self)
        ensures { waits self.new ≡ [] }
    {
        self.start = self.end;
    }
}
