//! Errors that end a command, other than a fault of the stream.

use crate::shown;
use mig_mem::NoMemory;
use std::alloc::{AllocError, AllocFailed, Global};
use std::io;

/// An error other than a fault of the stream. Names are as they are printed.
#[derive(Drop)]
pub enum Trouble {
    /// An allocation was refused.
    NoMemory,
    /// The input can't be opened or read.
    Unread(io::Error),
    /// The standard output can't be written.
    Output(io::Error),
    /// A file or a folder of this name can't be made, opened, read, written or renamed.
    OfFile(String, io::Error),
    /// A file of this name exists.
    Exists(String),
    /// A file or a folder of this name is unsuitable.
    Unfit(String, Unfit),
    /// The sum of the saved blocks' lengths is more than 2^40 bytes.
    TooLarge,
    /// The stream has more bytes before RAM's records than are kept: this many.
    LongFront(u64),
    /// A stream of this name can't be read, with the reason.
    Refused(String, &'static str),
    /// The file has a fault before its memory is read: the byte at which the part with it begins,
    /// the fault's number, and its message.
    Fault(u64, u8, &'static str),
    /// These arguments are wrong.
    Words(String, &'static str),
    /// The stream has no block of this id.
    NoBlock(String),
    /// The stream after libvirt's header can't be read, with the reason.
    Libvirt(&'static str),
    /// libvirt compressed the stream. The name is None of the file that the command reads.
    Packed(Option<String>, Packed),
}

/// A stream that libvirt compressed.
#[derive(Clone, Copy)]
pub struct Packed {
    /// The program that compressed it, and decompresses it with `-dc`.
    pub packer: &'static str,
    /// The byte of the file at which it begins, counted from 1.
    pub first: u64,
}

/// Why a file isn't the memory of a block, or a folder isn't what `extract` makes.
#[derive(Clone, Copy)]
pub enum Unfit {
    /// Its length in bytes, which isn't a multiple of the page size; and the page size.
    Pages(u64, u64),
    /// It has no bytes.
    Empty,
    /// It isn't a plain file.
    NoFile,
    /// It is the temporary folder of another run.
    OtherRun,
    /// Its length changed while it was read.
    Changed,
    /// It isn't a list of blocks.
    NoList,
    /// The folder of `--since` has no block of this id.
    NoBlock,
    /// Its length in bytes, and the different length in the folder of `--since`.
    OtherLen(u64, u64),
    /// Its page size, and the different page size of the other operand.
    OtherPages(u64, u64),
    /// The page size of the folder of `--since`, and the different one of the stream that is saved.
    SavedPages(u64, u64),
    /// Its length in bytes, and the different length in the list of its folder.
    ListedLen(u64, u64),
    /// It lists an id twice.
    IdTwice,
    /// It lists no state.
    NoState,
    /// The guest whose state is saved has no block of this id.
    NotInState,
    /// The guest whose state is saved has a block of this id, and no file has its memory.
    NoMemory,
    /// Its length in bytes, and the different length of the block in the guest whose state is
    /// saved.
    StateLen(u64, u64),
}

impl From<AllocError> for Trouble {
    fn from(_: AllocError) -> Trouble {
        Trouble::NoMemory
    }
}

impl<T: Drop> From<AllocFailed<T>> for Trouble {
    fn from(_: AllocFailed<T>) -> Trouble {
        Trouble::NoMemory
    }
}

impl From<NoMemory> for Trouble {
    fn from(_: NoMemory) -> Trouble {
        Trouble::NoMemory
    }
}

/// Returns the trouble of the value `word` of `option`, which is wrong.
pub fn wrong(alloc: Global, option: &str, word: &str, why: &'static str) -> Trouble {
    match named_word(alloc, option, word) {
        Ok(words) => Trouble::Words(words, why),
        Err(_) => Trouble::NoMemory,
    }
}

// Returns an option with its value, as they are printed.
fn named_word(alloc: Global, option: &str, word: &str) -> Result<String, AllocError> {
    let word = shown(alloc, word.as_bytes())?;
    format!(in alloc; "{option} \"{word}\"")
}
