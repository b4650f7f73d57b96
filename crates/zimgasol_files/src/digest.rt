//! The digests that a file gets: the SHA-256 of its bytes, and that of the SHA-256s of its pieces
//! of 64 KiB.

/// The digests that each file gets.
#[derive(Clone, Copy)]
pub struct DigestWords {
    /// The SHA-256 of its bytes.
    pub plain: bool,
    /// The SHA-256 of the SHA-256s of its pieces, one after another.
    pub pieces: bool,
}

impl DigestWords {
    /// Returns whether a file gets a digest.
    pub fn are_some(&self) -> bool {
        self.plain || self.pieces
    }
}

/// The digests of a file.
#[derive(Clone, Copy)]
pub struct Digests {
    pub plain: Option<[u8; 32]>,
    pub pieces: Option<[u8; 32]>,
}

impl Digests {
    /// Returns no digest.
    pub fn none() -> Digests {
        Digests {
            plain: None,
            pieces: None,
        }
    }
}
