//! The pieces of files whose pages are coming, and the threads that hash them meanwhile.

use crate::batch::{Batch, PIECE, Piece};
use std::alloc::{AllocError, Global};
use std::collections::{BTreeMap, VecDeque};
use std::mem;
use std::thread::{self, JoinHandle, Threads};

// The most threads that hash at a time.
const MOST_THREADS: usize = 64;

/// What is known of a piece's bytes.
#[derive(Clone, Copy)]
pub(crate) enum Bytes {
    /// They are zeros.
    Zeros,
    /// Their SHA-256.
    Hashed([u8; 32]),
    /// Nothing.
    Unknown,
}

// The last turn in which a piece had a page, and the SHA-256 of its bytes since then.
#[derive(Clone, Copy)]
struct Last {
    turn: u64,
    digest: Option<[u8; 32]>,
}

// A piece whose pages come in their order: its bytes so far, and the turn in which it began. None
// as long as it had zeros before, and only zeros came.
#[derive(Drop)]
struct Coming {
    piece: Piece,
    turn: Option<u64>,
    bytes: Vec<u8>,
}

/// The pieces of files, and the threads that hash them.
#[derive(Drop)]
pub struct Background {
    alloc: Global,
    // whether the files had zeros alone before the first page
    were_zeros: bool,
    // the pieces that had a page
    last: BTreeMap<Piece, Last>,
    // the number of turns
    turn: u64,
    coming: Coming,
    // whole pieces that wait for a thread
    batch: Batch,
    // the threads that hash, oldest first, and the most that do
    running: VecDeque<JoinHandle<Batch>>,
    threads: usize,
}

impl Background {
    /// Creates what hashes files whose pages come from now on. `were_zeros` is whether they have
    /// zeros alone.
    pub fn new<R: Threads>(rt: &R, alloc: Global, were_zeros: bool) -> Background {
        let threads = match thread::available_parallelism(rt) {
            Ok(count) => count.get().min(MOST_THREADS),
            Err(_) => 1,
        };
        Background {
            alloc,
            were_zeros,
            last: BTreeMap::new(alloc),
            turn: 0,
            coming: Coming {
                piece: Piece { file: 0, number: 0 },
                turn: None,
                bytes: Vec::new(alloc),
            },
            batch: Batch::new(alloc),
            running: VecDeque::new(alloc),
            threads,
        }
    }

    /// Takes a page of the file `file`: its bytes, or None for `len` zeros. `at` is its first byte
    /// in the file.
    ///
    /// # Errors
    ///
    /// `AllocError`: an allocation was refused.
    pub fn note(
        &mut self,
        file: usize,
        at: u64,
        content: Option<&[u8]>,
        len: usize,
    ) -> Result<(), AllocError> {
        let number = at / PIECE as u64;
        let piece = Piece { file, number };
        let before = (at % PIECE as u64) as usize;
        if before == 0 {
            self.coming.piece = piece;
            self.coming.turn = None;
            self.coming.bytes.clear();
        }
        let follows = self.coming.piece == piece && self.coming.bytes.len() == before;
        if !follows || len > PIECE - before {
            return self.note_part(piece, content.is_some());
        }
        self.note_next(piece, content, len)
    }

    // Notes that a part of a piece came, apart from others: then nothing is known of its bytes.
    // `has_bytes` is whether the part may have other bytes than zeros.
    fn note_part(&mut self, piece: Piece, has_bytes: bool) -> Result<(), AllocError> {
        self.coming.turn = None;
        self.coming.bytes.clear();
        self.coming.piece.number = u64::MAX;
        self.begin_turn(piece, has_bytes)?;
        Ok(())
    }

    // Begins a turn of a piece. Returns its number; None if the piece has zeros and gets zeros.
    fn begin_turn(&mut self, piece: Piece, has_bytes: bool) -> Result<Option<u64>, AllocError> {
        if !has_bytes && self.were_zeros && self.last.get(&piece).is_none() {
            return Ok(None);
        }
        self.turn = self.turn.saturating_add(1);
        let last = Last {
            turn: self.turn,
            digest: None,
        };
        self.last.insert(piece, last)?;
        Ok(Some(self.turn))
    }

    // Notes the page that follows in the piece that is coming.
    fn note_next(
        &mut self,
        piece: Piece,
        content: Option<&[u8]>,
        len: usize,
    ) -> Result<(), AllocError> {
        if self.coming.turn.is_none() {
            self.coming.turn = self.begin_turn(piece, content.is_some())?;
        }
        let end = self.coming.bytes.len().saturating_add(len);
        match content {
            Some(bytes) => self.coming.bytes.extend_from_slice(bytes)?,
            None => self.coming.bytes.resize(end, 0)?,
        }
        if self.coming.bytes.len() == PIECE {
            self.end_piece(piece)?;
        }
        Ok(())
    }

    // Has the piece that came wait for a thread, if there is room. Otherwise its bytes stay unknown.
    fn end_piece(&mut self, piece: Piece) -> Result<(), AllocError> {
        if let Some(turn) = self.coming.turn
            && self.batch.has_room()
        {
            self.batch.push(piece, turn, &self.coming.bytes)?;
        }
        Ok(())
    }

    /// Takes all bytes of a piece, which waits for a thread then. If there are too few, they stay
    /// unknown.
    ///
    /// # Errors
    ///
    /// `AllocError`: an allocation was refused.
    pub(crate) fn take(&mut self, piece: Piece, bytes: &[u8]) -> Result<(), AllocError> {
        if let Some(turn) = self.begin_turn(piece, true)?
            && bytes.len() == PIECE
        {
            self.batch.push(piece, turn, bytes)?;
        }
        Ok(())
    }

    /// Gives the pieces that wait to a thread, if they are enough. Waits for the oldest thread if
    /// there are as many as may be. If none can be made, the bytes of the pieces stay unknown.
    ///
    /// # Errors
    ///
    /// `AllocError`: an allocation was refused.
    pub fn start<R: Threads>(&mut self, rt: &R) -> Result<(), AllocError> {
        if !self.batch.is_full() {
            return Ok(());
        }
        self.start_one(rt)
    }

    // Gives the pieces that wait to a thread.
    fn start_one<R: Threads>(&mut self, rt: &R) -> Result<(), AllocError> {
        let empty = self.empty_batch(rt);
        self.running.reserve(1)?;
        let batch = mem::replace(&mut self.batch, empty);
        if let Ok(thread) = thread::spawn(rt, move || batch.hashed()) {
            self.running.push_back(thread)?;
        }
        Ok(())
    }

    // Returns a batch of no piece. Waits for the oldest thread if there are as many as may be.
    fn empty_batch<R: Threads>(&mut self, rt: &R) -> Batch {
        if self.running.len() < self.threads {
            return Batch::new(self.alloc);
        }
        match self.running.pop_front() {
            Some(thread) => self.join(rt, thread),
            None => Batch::new(self.alloc),
        }
    }

    // Waits for a thread, and keeps what it hashed. Returns its batch, with no piece.
    fn join<R: Threads>(&mut self, rt: &R, thread: JoinHandle<Batch>) -> Batch {
        let mut batch = thread.join(rt);
        for whole in &batch.pieces {
            if let Some(last) = self.last.get_mut(&whole.piece)
                && last.turn == whole.turn
            {
                last.digest = Some(whole.digest);
            }
        }
        batch.clear();
        batch
    }

    /// Waits for all threads. What they hashed is known then.
    ///
    /// # Errors
    ///
    /// `AllocError`: an allocation was refused.
    pub(crate) fn settle<R: Threads>(&mut self, rt: &R) -> Result<(), AllocError> {
        self.start_one(rt)?;
        for _ in 0..self.running.len() {
            if let Some(thread) = self.running.pop_front() {
                drop(self.join(rt, thread));
            }
        }
        Ok(())
    }

    /// Returns what is known of the bytes of a piece.
    pub(crate) fn bytes_of(&self, piece: Piece) -> Bytes {
        match self.last.get(&piece) {
            None if self.were_zeros => Bytes::Zeros,
            None => Bytes::Unknown,
            Some(last) => match last.digest {
                Some(digest) => Bytes::Hashed(digest),
                None => Bytes::Unknown,
            },
        }
    }
}
