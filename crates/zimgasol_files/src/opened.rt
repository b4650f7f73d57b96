//! Opens a file for reading, and keeps its name for messages.

ghost use Rattle.std.specs.Prelude.{◌≡◌, ◌<◌, ◌≤◌, [], length, take, IfOk, OnOk, false};
ghost use Rattle.std.specs.Io.KnownBytes.{Consumes, IsAtEnd, Keeps};
ghost use Rattle.zimgasol_files.specs.Waiting.{waits, to_come, left_of};

use crate::input::read_piece;
use crate::pieces::Pieces;
use crate::shown_name;
use crate::target::unwritten;
use crate::trouble::{Trouble, Unfit};
use std::alloc::Global;
use std::fs::{File, Files, OpenFile};
use std::io::Read;

/// A file that is read.
#[derive(Drop)]
pub struct Opened<F: Drop> {
    alloc: Global,
    path: String,
    file: F,
}

/// Opens the file `path` for reading.
///
/// # Errors
///
/// `Trouble::OfFile` where it can't be opened, `Trouble::NoMemory`.
pub fn open<H: Files>(rt: &H, alloc: Global, path: &str) -> Result<Opened<H::File>, Trouble> {
    match File::open(rt, path) {
        Ok(file) => Opened::new(alloc, path, file),
        Err(error) => Err(unwritten(alloc, path, error)),
    }
}

/// Returns the error that the file or folder `path` is unsuitable.
pub fn unfit(alloc: Global, path: &str, why: Unfit) -> Trouble {
    match shown_name(alloc, path) {
        Ok(path) => Trouble::Unfit(path, why),
        Err(_) => Trouble::NoMemory,
    }
}

impl<F: Drop> Opened<F> {
    /// Takes `file`, which is open for reading. Messages call it `path`.
    ///
    /// # Errors
    ///
    /// `Trouble::NoMemory`.
    pub fn new(alloc: Global, path: &str, file: F) -> Result<Opened<F>, Trouble>
        ensures { IfOk result (λ opened. opened.file ≡ file) }
    {
        Ok(Opened {
            alloc,
            path: String::from_str(alloc, path)?,
            file,
        })
    }

    /// Returns the error that this file is unsuitable.
    pub fn unfit(&self, why: Unfit) -> Trouble {
        unfit(self.alloc, &self.path, why)
    }
}

impl<F: Read + Drop> Opened<F> {
    /// Reads until `buffer` is full or the file ends. Returns how many bytes it read.
    ///
    /// # Errors
    ///
    /// `Trouble::OfFile` if a read fails.
    pub fn read(&mut self, buffer: &mut [u8]) -> Result<usize, Trouble>
        ensures len { length buffer.new ≡ length buffer.old }
        ensures count { IfOk result (λ n. n ≤ length buffer.old) }
        ensures bytes { IfOk result (λ n. Consumes (F.remaining self.old.file) (F.remaining self.new.file) (take n buffer.new)) }
        ensures end { IfOk result (λ n. n < length buffer.old → IsAtEnd (F.remaining self.new.file)) }
    {
        match read_piece(&mut self.file, buffer) {
            Ok(len) => Ok(len),
            Err(Trouble::Unread(error)) => Err(unwritten(self.alloc, &self.path, error)),
            Err(trouble) => Err(trouble),
        }
    }

    /// Reads the next piece into `pieces`, if no byte of the last piece waits. Returns whether
    /// bytes wait.
    ///
    /// # Errors
    ///
    /// `Trouble::OfFile` if a read fails.
    pub fn refill(&mut self, pieces: &mut Pieces) -> Result<bool, Trouble>
        ensures kept { OnOk result (Keeps (to_come (left_of F.remaining self.old) pieces.old) (to_come (left_of F.remaining self.new) pieces.new)) }
        ensures end { IfOk result (λ is_more. is_more ≡ false → IsAtEnd (to_come (left_of F.remaining self.new) pieces.new)) }
        ensures none { IfOk result (λ is_more. is_more ≡ false → waits pieces.new ≡ []) }
    {
        match pieces.refill(&mut self.file) {
            Ok(is_there) => Ok(is_there),
            Err(Trouble::Unread(error)) => Err(unwritten(self.alloc, &self.path, error)),
            Err(trouble) => Err(trouble),
        }
    }
}

impl<F: OpenFile + Drop> Opened<F> {
    /// Returns the length of the file in bytes; 0 of a pipe.
    ///
    /// # Errors
    ///
    /// `Trouble::OfFile` if the system doesn't report it.
    pub fn len(&self) -> Result<u64, Trouble> {
        match self.file.metadata() {
            Ok(metadata) => Ok(metadata.len()),
            Err(error) => Err(unwritten(self.alloc, &self.path, error)),
        }
    }
}
