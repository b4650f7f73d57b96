//! Pieces of files that one thread hashes.

use sha2::{Digest, Sha256};
use std::alloc::{AllocError, Global};

/// The bytes of a piece. A file's last piece may have fewer.
pub(crate) const PIECE: usize = 65_536;

// The fewest pieces that are given to a thread, and the most that wait for one: 1 and 4 MiB.
const FEWEST: usize = 16;

const MOST: usize = 64;

/// A piece of a file: the file's number, and the piece's.
#[derive(Clone, Copy, PartialEq, Eq, PartialOrd, Ord, Drop)]
pub(crate) struct Piece {
    pub(crate) file: usize,
    pub(crate) number: u64,
}

/// A whole piece, the turn in which it came, and its SHA-256.
#[derive(Clone, Copy)]
pub(crate) struct Whole {
    pub(crate) piece: Piece,
    pub(crate) turn: u64,
    /// Zeros until it is hashed.
    pub(crate) digest: [u8; 32],
}

/// Whole pieces, and their bytes one after another.
#[derive(Drop)]
pub(crate) struct Batch {
    pub(crate) pieces: Vec<Whole>,
    bytes: Vec<u8>,
}

impl Batch {
    /// Creates a batch of no piece.
    pub(crate) fn new(alloc: Global) -> Batch {
        Batch {
            pieces: Vec::new(alloc),
            bytes: Vec::new(alloc),
        }
    }

    /// Returns whether it has enough pieces for a thread.
    pub(crate) fn is_full(&self) -> bool {
        self.pieces.len() >= FEWEST
    }

    /// Returns whether it has room for a piece.
    pub(crate) fn has_room(&self) -> bool {
        self.pieces.len() < MOST
    }

    /// Adds a piece that came in this turn. `bytes` are all of it.
    ///
    /// # Errors
    ///
    /// `AllocError`: an allocation was refused.
    pub(crate) fn push(&mut self, piece: Piece, turn: u64, bytes: &[u8]) -> Result<(), AllocError> {
        self.bytes.extend_from_slice(bytes)?;
        self.pieces.push(Whole {
            piece,
            turn,
            digest: [0; 32],
        })?;
        Ok(())
    }

    /// Hashes all pieces.
    pub(crate) fn hashed(mut self) -> Batch {
        for (whole, bytes) in self.pieces.iter_mut().zip(self.bytes.chunks(PIECE)) {
            whole.digest = Sha256::digest(bytes);
        }
        self
    }

    /// Removes all pieces, and keeps the memory.
    pub(crate) fn clear(&mut self) {
        self.pieces.clear();
        self.bytes.clear();
    }
}
