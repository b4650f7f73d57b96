//! Reads and writes complete files.

ghost use Rattle.std.specs.Prelude.{◌≡◌, ◌++◌, IfOk, codes, decimal, string_bytes};

use crate::answer::Answer;
use crate::fault::ToolFault;
use crate::input::{MAX_LEN, read_whole};
use itoa::Buffer;
use mig_mem::NoMemory;
use std::alloc::Allocator;
use std::fs::{File, Files, OpenFile};
use std::io::{self, Write};

/// Opens a file for reading.
pub(crate) fn open<H: Files>(rt: &H, name: &str) -> Result<H::File, ToolFault> {
    File::open(rt, name).map_err(|_| ToolFault::Unread)
}

// Returns the length that a file is expected to have. It is only a hint: it can be 0, and the file
// can change.
fn expected_len<F: OpenFile>(file: &F) -> usize {
    match file.metadata() {
        Ok(metadata) if metadata.is_file() => metadata.len().min(MAX_LEN) as usize,
        _ => 0,
    }
}

/// Reads a file up to its end. An `Err` is the answer if it can't be read.
pub(crate) fn read_file<H: Files, A: Allocator + Copy>(
    rt: &H,
    alloc: A,
    name: &str,
) -> Result<Vec<u8, A>, Answer> {
    let mut file = open(rt, name)?;
    let room = expected_len(&file);
    read_whole(alloc, &mut file, room)
}

/// Returns whether a folder has this name.
pub(crate) fn is_folder<H: Files>(rt: &H, name: &str) -> bool {
    match rt.metadata(name) {
        Ok(metadata) => metadata.is_dir(),
        Err(_) => false,
    }
}

/// Writes bytes into a file, which is created if it doesn't exist, and truncated if it does.
pub(crate) fn write_file<H: Files>(rt: &H, name: &str, bytes: &[u8]) -> Result<(), ToolFault> {
    write_to(rt, name, bytes).map_err(|_| ToolFault::Unwritten)
}

fn write_to<H: Files>(rt: &H, name: &str, bytes: &[u8]) -> io::Result<()> {
    let mut file = File::create(rt, name)?;
    file.write_all(bytes)?;
    file.flush()
}

/// Returns the name of a channel's file, made from that of the main stream: `MAIN.0` and so on.
pub(crate) fn channel_name<A: Allocator>(
    alloc: A,
    main: &str,
    channel: usize,
) -> Result<String<A>, NoMemory>
    ensures { IfOk result (λ name. string_bytes name ≡ main.now ++ codes "." ++ decimal channel) }
{
    let mut name = String::new(alloc);
    let mut buffer = Buffer::new();
    name.push_str(main)?;
    name.push_str(".")?;
    name.push_str(buffer.format(channel))?;
    Ok(name)
}
