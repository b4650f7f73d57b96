//! Readers of pieces, from which a pump has its bytes. Callers pass one, in most cases a `Counted`
//! over a reader of theirs.

ghost use Rattle.std.specs.Prelude.{ℕ, ◌≡◌, ◌+◌, ◌<◌, ◌≤◌, ◌^◌, List, length, Option, None, IfOk};
ghost use Rattle.std.specs.Io.KnownBytes.{ReadConsumes};
ghost use Rattle.mig_sources.specs.Reads.{ReadsSoFar, no_reads, after_read};

use std::fmt::{self, Debug, Formatter};
use std::io::Read;
use std::marker::Model;

/// A read failed. The reason isn't reported.
#[derive(Clone, Copy, Debug, PartialEq, Eq)]
pub struct ReadFailed;

/// A reader of pieces, which may be read 2^63 times.
pub trait PieceReader {
    // How often the reader was read, how many of these reads failed, and how many found the end.
    ghost reads: { Self → ReadsSoFar };

    // The bytes that will follow, if they are known.
    ghost remaining: { Self → Option (List ℕ) } = { λ _. None };

    /// Reads into the beginning of `piece`, and returns the number of bytes. It is 0 at the end of
    /// the input, or if `piece` is empty.
    ///
    /// # Errors
    ///
    /// `ReadFailed`: the reader failed.
    fn read_piece(&mut self, piece: &mut [u8]) -> Result<usize, ReadFailed>
        requires room { (reads self.old).reads < 2 ^ 63 }
        ensures len { length piece.new ≡ length piece.old }
        ensures within { IfOk result (λ n. n ≤ length piece.old) }
        ensures reads { reads self.new ≡ after_read (reads self.old) (length piece.old) result }
        ensures bytes { ReadConsumes (remaining self.old) (remaining self.new) result piece.new };
}

// The counts of a reader's reads.
#[derive(Drop)]
struct ReadCounts {
    reads: u64,
    failed: u64,
    ends: u64,
}

impl Model for ReadCounts {
    ghost Value = { ReadsSoFar };

    ghost view = { λ c. record { reads = c.reads; failed = c.failed; ends = c.ends } };

    ghost invariant = { λ c. (c.failed ≤ c.reads) × (c.ends ≤ c.reads) };
}

impl ReadCounts {
    fn new() -> ReadCounts
        ensures { result ≡ no_reads }
    {
        ReadCounts {
            reads: 0,
            failed: 0,
            ends: 0,
        }
    }

    // Counts a read of a piece with room for `room` bytes.
    fn count(&mut self, room: usize, read: Result<usize, ReadFailed>)
        requires { self.old.reads < 2 ^ 63 }
        ensures { self.new ≡ after_read self.old room read }
    {
        self.reads += 1;
        match read {
            Ok(0) if 0 < room => self.ends += 1,
            Ok(_) => {}
            Err(ReadFailed) => self.failed += 1,
        }
    }
}

/// A reader of pieces over any reader. Each error of that reader is a failed read, an interrupted
/// read too. The bytes after it can still be read.
pub struct Counted<R> {
    reader: R,
    counts: ReadCounts,
}

// Written out, so that a caller's proof passes a call where a value is dropped.
impl<R: Drop> Drop for Counted<R> {
    fn drop(self) {
        let Counted {
            reader: _,
            counts: _,
        } = self;
    }
}

/// Prints an opaque value: its reader may hold guest memory.
impl<R> Debug for Counted<R> {
    fn fmt<W: fmt::Write>(&self, f: &mut Formatter<W>) -> fmt::Result {
        f.write_str("Counted { .. }")
    }
}

impl<R: Read> Counted<R> {
    /// Wraps `reader`. All counts start at zero.
    pub fn new(reader: R) -> Counted<R>
        ensures reads { ⟦<Counted<R> as PieceReader>⟧.reads result ≡ no_reads }
        ensures bytes { ⟦<Counted<R> as PieceReader>⟧.remaining result ≡ R.remaining reader }
    {
        Counted {
            reader,
            counts: ReadCounts::new(),
        }
    }
}

impl<R: Read> PieceReader for Counted<R> {
    ghost reads = { λ c. c.counts };

    ghost remaining = { λ c. R.remaining c.reader };

    fn read_piece(&mut self, piece: &mut [u8]) -> Result<usize, ReadFailed> {
        let read = self.reader.read(piece).map_err(|_| ReadFailed);
        self.counts.count(piece.len(), read);
        read
    }
}
