//! Files that are in no folder: a read returns a test's own bytes, and written bytes are dropped.
//! One read or one change can fail, and a log keeps the order of the calls.

use crate::script::answer_in;
use std::alloc::{Alloc, AllocGlobal, Allocator, Global};
use std::fs::{Files, Metadata, OpenFile, OpenOptions};
use std::io::{self, Read, Seek, SeekFrom, Write};
use std::sync::Wait;
use std::sync::atomic::{AtomicBool, AtomicU64, Ordering};
use std::thread::Threads;

/// The length of a read of the tool.
const READ_LEN: usize = 65_536;

/// The content of the files, and the call that fails.
#[derive(Clone, Copy)]
pub(crate) struct Plan<'t> {
    /// The bytes of each file except for the channels'.
    pub(crate) text: &'t [u8],
    /// The bytes of a channel's file.
    pub(crate) channel: &'t [u8],
    /// The most bytes that a read returns.
    pub(crate) piece: usize,
    /// The reads of a file before the one that fails.
    pub(crate) reads: u64,
    /// The changes of all files together before the one that fails.
    pub(crate) changes: u64,
}

impl<'t> Plan<'t> {
    /// Returns the plan of files that all have the bytes `text`, with no failing call.
    pub(crate) fn good(text: &'t [u8]) -> Plan<'t> {
        Plan {
            text,
            channel: text,
            piece: READ_LEN,
            reads: u64::MAX,
            changes: u64::MAX,
        }
    }
}

/// The log of the calls on the files.
#[derive(Drop)]
struct Calls {
    // the changes before the one that fails
    changes: AtomicU64,
    has_failed: AtomicBool,
    log: AtomicU64,
    has_other_len: AtomicBool,
}

impl Calls {
    // Appends a hexadecimal digit to the log. Changes that follow one another are logged once.
    fn note(&self, digit: u64) {
        let log = self.log.load(Ordering::SeqCst);
        if digit != CHANGED || log % 16 != CHANGED {
            let longer = log.wrapping_mul(16).wrapping_add(digit);
            self.log.store(longer, Ordering::SeqCst);
        }
    }

    // Counts a change. The planned one fails, and later ones don't.
    fn change(&self) -> io::Result<()> {
        if self.changes.fetch_sub(1, Ordering::SeqCst) == 0 {
            return Err(self.failure());
        }
        Ok(())
    }

    // Notes that a call failed, and returns its error.
    fn failure(&self) -> io::Error {
        self.has_failed.store(true, Ordering::SeqCst);
        io::Error::from(io::ErrorKind::Other)
    }
}

// ---- the log

/// The digit of a change: a write, a seek or a new length.
const CHANGED: u64 = 8;

/// The number that is added to a file's digit if it was read to its end, or flushed.
const DONE: u64 = 8;

// Returns the digit of the file `name`.
fn digit_of(name: &str) -> u64 {
    match name {
        "m" => 1,
        "m.0" => 2,
        "m.1" => 3,
        "i" => 4,
        "s" => 5,
        _ => 7,
    }
}

// ---- an opened file

/// An opened file, for reading or for writing.
#[derive(Drop)]
pub(crate) struct FakeFile<'t> {
    calls: &'t Calls,
    digit: u64,
    is_written: bool,
    rest: &'t [u8],
    piece: usize,
    // the reads before the one that fails
    reads: u64,
}

impl Read for FakeFile<'_> {
    fn read(&mut self, buf: &mut [u8]) -> io::Result<usize> {
        if buf.len() != READ_LEN {
            self.calls.has_other_len.store(true, Ordering::SeqCst);
        }
        if self.reads == 0 {
            // (the next one would succeed)
            self.reads = u64::MAX;
            return Err(self.calls.failure());
        }
        self.reads -= 1;
        let mut piece = &self.rest[..self.rest.len().min(self.piece)];
        let len = piece.read(buf)?;
        self.rest = &self.rest[len.min(self.rest.len())..];
        if len == 0 {
            self.calls.note(self.digit.saturating_add(DONE));
        }
        Ok(len)
    }
}

impl Write for FakeFile<'_> {
    fn write(&mut self, buf: &[u8]) -> io::Result<usize> {
        self.calls.change()?;
        self.calls.note(CHANGED);
        Ok(buf.len())
    }

    fn flush(&mut self) -> io::Result<()> {
        self.calls.change()?;
        self.calls.note(self.digit.saturating_add(DONE));
        Ok(())
    }
}

impl Seek for FakeFile<'_> {
    fn seek(&mut self, _to: SeekFrom) -> io::Result<u64> {
        self.calls.change()?;
        self.calls.note(CHANGED);
        Ok(0)
    }
}

impl OpenFile for FakeFile<'_> {
    // Fails for each file that is read, whose length is only a hint.
    fn metadata(&self) -> io::Result<Metadata> {
        if !self.is_written {
            return Err(io::Error::from(io::ErrorKind::Other));
        }
        self.calls.change()?;
        Ok(Metadata::of_file(0))
    }

    fn set_len(&self, _size: u64) -> io::Result<()> {
        self.calls.change()?;
        self.calls.note(CHANGED);
        Ok(())
    }

    fn sync_all(&self) -> io::Result<()> {
        Ok(())
    }

    fn sync_data(&self) -> io::Result<()> {
        Ok(())
    }
}

// ---- the files

// A runtime with such files.
#[derive(Drop)]
struct FakeFiles<'t, H> {
    rt: &'t H,
    plan: Plan<'t>,
    calls: &'t Calls,
}

// Refuses a call that the tool doesn't make.
fn refused<T>() -> io::Result<T> {
    Err(io::Error::from(io::ErrorKind::Other))
}

impl<'t, H: Threads> Threads for FakeFiles<'t, H> {}

impl<'t, H: Wait> Wait for FakeFiles<'t, H> {}

impl<'t, H: AllocGlobal> Alloc for FakeFiles<'t, H> {
    type A = Global;

    fn alloc(&self) -> Global {
        self.rt.alloc()
    }
}

impl<'t, H> Files for FakeFiles<'t, H> {
    type File = FakeFile<'t>;

    type Dir = FakeFile<'t>;

    fn open_file(&self, how: &OpenOptions, path: &str) -> io::Result<FakeFile<'t>> {
        how.check()?;
        let digit = digit_of(path);
        self.calls.note(digit);
        Ok(FakeFile {
            calls: self.calls,
            digit,
            is_written: how.asks_write(),
            rest: if path.contains('.') {
                self.plan.channel
            } else {
                self.plan.text
            },
            piece: self.plan.piece,
            reads: self.plan.reads,
        })
    }

    fn open_dir(&self, _path: &str) -> io::Result<FakeFile<'t>> {
        refused()
    }

    fn metadata(&self, _path: &str) -> io::Result<Metadata> {
        refused()
    }

    fn symlink_metadata(&self, _path: &str) -> io::Result<Metadata> {
        refused()
    }

    fn copy(&self, _from: &str, _to: &str) -> io::Result<u64> {
        refused()
    }

    fn rename(&self, _from: &str, _to: &str) -> io::Result<()> {
        refused()
    }

    fn remove_file(&self, _path: &str) -> io::Result<()> {
        refused()
    }

    fn create_dir(&self, _path: &str) -> io::Result<()> {
        refused()
    }

    fn remove_dir(&self, _path: &str) -> io::Result<()> {
        refused()
    }

    fn remove_dir_all<B: Allocator>(&self, _alloc: B, _path: &str) -> io::Result<()> {
        refused()
    }
}

// ---- a run

/// The outcome of a run on such files.
#[derive(Drop)]
pub(crate) struct Outcome {
    pub(crate) answer: (u8, Vec<u8>),
    /// Whether a read or a change failed.
    pub(crate) has_failed: bool,
    /// Hexadecimal digits in the order of the calls: the file's digit for an open, 8 for a change,
    /// and the sum of the file's digit and 8 for a read to its end or a flush.
    pub(crate) log: u64,
    /// Whether the length of a read wasn't 65,536 bytes.
    pub(crate) has_other_len: bool,
}

/// Runs the tool on arguments, with such files and no input.
pub(crate) fn outcome_of<H: AllocGlobal + Files + Threads + Wait + Sync>(
    rt: &H,
    words: &[String],
    plan: Plan,
) -> Outcome {
    let calls = Calls {
        changes: AtomicU64::new(plan.changes),
        has_failed: AtomicBool::new(false),
        log: AtomicU64::new(0),
        has_other_len: AtomicBool::new(false),
    };
    let files = FakeFiles {
        rt,
        plan,
        calls: &calls,
    };
    let answer = answer_in(&files, rt.alloc(), words, b"");
    Outcome {
        answer,
        has_failed: calls.has_failed.load(Ordering::SeqCst),
        log: calls.log.load(Ordering::SeqCst),
        has_other_len: calls.has_other_len.load(Ordering::SeqCst),
    }
}
