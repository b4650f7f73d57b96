//! Writes the file that a block is extracted into.

ghost use Rattle.std.specs.Prelude.{◌≡◌, ◌++◌, IfOk, codes, string_bytes};
ghost use Rattle.zimgasol_files.specs.Naming.{name_of};

use crate::digest::Digests;
use crate::target::{PARTIAL, sync};
use crate::trouble::Trouble;
use crate::{file_name, id_text, path_in};
use serde_json::{Map, Value, put};
use std::alloc::{AllocError, Global};
use std::fs::OpenFile;
use std::io::{self, Seek, SeekFrom, Write};

/// A file that a block is written into.
#[derive(Drop)]
pub struct BlockFile<F: Drop> {
    /// The block's number in the stream. A block that only the folder of `--since` has gets a
    /// number that no block of the stream has.
    pub block: usize,
    pub id: Vec<u8>,
    /// Its name in the folder once it is complete.
    pub name: String,
    pub partial_path: String,
    pub path: String,
    pub len: u64,
    pub file: F,
    pub digests: Digests,
}

/// The names of the file of a block.
#[derive(Drop)]
pub struct BlockNames {
    /// Its name in the folder once it is complete.
    pub name: String,
    /// Its path once it is complete.
    pub path: String,
    /// Its path until then.
    pub partial_path: String,
}

/// Returns the names of the file of the block `id`, which has the number `block`, in `folder`.
///
/// # Errors
///
/// `AllocError`: an allocation was refused.
pub fn names_in(
    alloc: Global,
    folder: &str,
    id: &[u8],
    block: usize,
) -> Result<BlockNames, AllocError>
    ensures name { IfOk result (λ names. string_bytes names.name ≡ name_of id.now block) }
    ensures path { IfOk result (λ names. string_bytes names.path ≡ folder.now ++ codes "/" ++ name_of id.now block) }
    ensures partial { IfOk result (λ names. string_bytes names.partial_path ≡ folder.now ++ codes "/" ++ name_of id.now block ++ codes ".partial") }
{
    let name = file_name(alloc, id, block)?;
    let path = path_in(alloc, folder, &name, "")?;
    let partial_path = path_in(alloc, folder, &name, PARTIAL)?;
    Ok(BlockNames {
        name,
        path,
        partial_path,
    })
}

/// Writes `bytes` to a file from its byte `at` on.
pub fn write_at<F: Write + Seek>(file: &mut F, at: u64, bytes: &[u8]) -> io::Result<()> {
    file.seek(SeekFrom::Start(at))?;
    file.write_all(bytes)
}

/// Writes `bytes` and a newline to a file, and syncs it to its disk.
pub fn write_text<F: Write + OpenFile>(file: &mut F, bytes: &[u8]) -> io::Result<()> {
    file.write_all(bytes)?;
    file.write_all(b"\n")?;
    sync(file)
}

// Puts a block's id, the name of its file and its length into `entry`.
fn put_block<F: Drop>(
    alloc: Global,
    entry: &mut Map<String, Value>,
    file: &BlockFile<F>,
) -> Result<(), AllocError> {
    put(entry, alloc, "id", Value::String(id_text(alloc, &file.id)?))?;
    let name = Value::try_from_str(alloc, &file.name)?;
    put(entry, alloc, "file", name)?;
    put(entry, alloc, "bytes", Value::from(file.len))
}

// Puts a digest of a block's file into `entry`, if there is one.
fn put_digest(
    alloc: Global,
    entry: &mut Map<String, Value>,
    member: &str,
    digest: &Option<[u8; 32]>,
) -> Result<(), AllocError> {
    let Some(digest) = digest else {
        return Ok(());
    };
    let text = Value::String(hex_digest(alloc, digest)?);
    put(entry, alloc, member, text)
}

/// Returns the entry of `blocks.json` about a block's file.
pub fn block_value<F: Drop>(alloc: Global, file: &BlockFile<F>) -> Result<Value, Trouble> {
    let mut entry = Map::new(alloc);
    put_block(alloc, &mut entry, file)?;
    put_digest(alloc, &mut entry, "sha256", &file.digests.plain)?;
    put_digest(alloc, &mut entry, "sha256_64k", &file.digests.pieces)?;
    Ok(Value::Object(entry))
}

/// Sets the length of a file, and its position to the first byte. If `durable`, syncs it to its
/// disk.
///
/// # Errors
///
/// `Trouble::Unread` if the file can't be set or synced.
pub fn complete_file<F: Write + Seek + OpenFile + Drop>(
    file: &mut BlockFile<F>,
    durable: bool,
) -> Result<(), Trouble> {
    let len = file.len;
    with_len(&mut file.file, len, durable).map_err(Trouble::Unread)
}

// Sets the length of a file, and its position to the first byte.
fn with_len<F: Write + Seek + OpenFile>(file: &mut F, len: u64, durable: bool) -> io::Result<()> {
    file.set_len(len)?;
    if durable {
        sync(file)?;
    }
    file.seek(SeekFrom::Start(0))?;
    Ok(())
}

// Returns a digest in hexadecimal digits.
fn hex_digest(alloc: Global, digest: &[u8; 32]) -> Result<String, AllocError> {
    let mut text = String::new(alloc);
    for byte in digest {
        write!(text, "{byte:02x}")?;
    }
    Ok(text)
}
