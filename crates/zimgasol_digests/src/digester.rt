//! The digests of complete files.

ghost use Rattle.std.specs.Prelude.{◌≡◌, ◌≤◌, length, IfOk};

use crate::background::{Background, Bytes};
use crate::batch::{PIECE, Piece};
use sha2::{Digest, Sha256};
use std::alloc::Global;
use std::io::{Read, Seek, SeekFrom, Write};
use std::rt::Clock;
use std::thread::Threads;
use zimgasol_files::{Digests, Trouble, Watch, read_piece};

/// What computes digests of files, one after another.
#[derive(Drop)]
pub struct Digester {
    // whether a file gets the SHA-256 of its bytes
    plain: bool,
    // the pieces of the files, if they get the digest of these
    background: Option<Background>,
    // the digest of a whole piece of zeros
    zeros: [u8; 32],
    // the bytes of a piece
    buffer: Vec<u8>,
    watch: Watch,
    // the bytes of all files that are done
    done: u64,
}

// Reads the bytes of a file from its byte `at` on, as many as `buffer` has room for. Returns their
// number.
fn read_at<F: Read + Seek>(file: &mut F, at: u64, buffer: &mut [u8]) -> Result<usize, Trouble>
    ensures len { length buffer.new ≡ length buffer.old }
    ensures count { IfOk result (λ n. n ≤ length buffer.old) }
{
    match file.seek(SeekFrom::Start(at)) {
        Ok(_) => {}
        Err(error) => return Err(Trouble::Unread(error)),
    }
    let len = read_piece(file, buffer)?;
    Ok(len)
}

impl Digester {
    /// Creates what computes the SHA-256 of each file if `plain` is set, and the digest of its
    /// pieces if there is a `background`, which took each page of the files. `watch` shows the
    /// bytes that are done.
    ///
    /// # Errors
    ///
    /// `Trouble::NoMemory`: an allocation was refused.
    pub fn new(
        alloc: Global,
        plain: bool,
        background: Option<Background>,
        watch: Watch,
    ) -> Result<Digester, Trouble> {
        let buffer = vec![in alloc; 0u8; PIECE]?;
        Ok(Digester {
            plain,
            background,
            zeros: Sha256::digest(&buffer),
            buffer,
            watch,
            done: 0,
        })
    }

    /// Returns the digests of a file of `len` bytes, which has the number `number`.
    ///
    /// # Errors
    ///
    /// `Trouble::Unread` if a read fails, and `Trouble::NoMemory`.
    pub fn digests_of<H: Clock + Threads, F: Read + Seek, E: Write>(
        &mut self,
        rt: &H,
        number: usize,
        file: &mut F,
        len: u64,
        errors: &mut E,
    ) -> Result<Digests, Trouble> {
        let mut digests = Digests::none();
        if let Some(mut background) = self.background.take() {
            self.hash_unknown(rt, &mut background, number, file, len, errors)?;
            digests.pieces = Some(self.pieces_of(&background, number, file, len)?);
            self.background = Some(background);
        }
        if self.plain {
            digests.plain = Some(self.plain_of(rt, file, errors)?);
        }
        self.done = self.done.saturating_add(len);
        Ok(digests)
    }

    // Returns the SHA-256 of a file's bytes.
    fn plain_of<H: Clock, F: Read + Seek, E: Write>(
        &mut self,
        rt: &H,
        file: &mut F,
        errors: &mut E,
    ) -> Result<[u8; 32], Trouble> {
        let mut hasher = Sha256::new();
        let mut at = 0u64;
        'pieces: for _ in 0..u64::MAX {
            let len = read_at(file, at, &mut self.buffer)?;
            if len == 0 {
                break;
            }
            hasher.update(&self.buffer[..len]);
            at = at.saturating_add(len as u64);
            self.watch.show(rt, errors, self.done.saturating_add(at));
        }
        Ok(hasher.finalize())
    }

    // Has the threads of `background` hash the pieces of a file whose digests aren't known.
    fn hash_unknown<H: Clock + Threads, F: Read + Seek, E: Write>(
        &mut self,
        rt: &H,
        background: &mut Background,
        file_number: usize,
        file: &mut F,
        len: u64,
        errors: &mut E,
    ) -> Result<(), Trouble> {
        background.settle(rt)?;
        for number in 0..len / PIECE as u64 {
            let at = number.saturating_mul(PIECE as u64);
            let piece = Piece {
                file: file_number,
                number,
            };
            if let Bytes::Unknown = background.bytes_of(piece) {
                let len = read_at(file, at, &mut self.buffer)?;
                background.take(piece, &self.buffer[..len])?;
                background.start(rt)?;
            }
            if !self.plain {
                self.watch.show(rt, errors, self.done.saturating_add(at));
            }
        }
        background.settle(rt)?;
        Ok(())
    }

    // Returns the SHA-256 of the SHA-256s of the pieces of a file.
    fn pieces_of<F: Read + Seek>(
        &mut self,
        background: &Background,
        file_number: usize,
        file: &mut F,
        len: u64,
    ) -> Result<[u8; 32], Trouble> {
        let mut hasher = Sha256::new();
        for number in 0..len.div_ceil(PIECE as u64) {
            let at = number.saturating_mul(PIECE as u64);
            let piece = Piece {
                file: file_number,
                number,
            };
            let digest = match background.bytes_of(piece) {
                Bytes::Hashed(digest) => digest,
                Bytes::Zeros if len.saturating_sub(at) >= PIECE as u64 => self.zeros,
                _ => self.digest_at(file, at)?,
            };
            hasher.update(&digest);
        }
        Ok(hasher.finalize())
    }

    // Returns the SHA-256 of the piece of a file that begins at its byte `at`.
    fn digest_at<F: Read + Seek>(&mut self, file: &mut F, at: u64) -> Result<[u8; 32], Trouble> {
        let len = read_at(file, at, &mut self.buffer)?;
        Ok(Sha256::digest(&self.buffer[..len]))
    }

    /// Removes the line of progress.
    pub fn end<E: Write>(&mut self, errors: &mut E) {
        self.watch.end(errors);
    }
}
