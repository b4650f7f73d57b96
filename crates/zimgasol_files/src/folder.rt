//! Reads `blocks.json`, the list of blocks in a folder that `extract` made.

use crate::opened::{open, unfit};
use crate::path_in;
use crate::target::unwritten;
use crate::trouble::{Trouble, Unfit};
use mig_mem::is_page_size;
use serde_json::{Category, Value};
use std::alloc::{AllocError, AllocGlobal, Global};
use std::fs::Files;
use std::str;

/// The name of the list of blocks.
pub const LIST_NAME: &str = "blocks.json";

/// The most bytes of a list that are read. A list of 256 blocks with the longest ids has fewer.
const MOST_LIST_LEN: usize = 1_048_576;

/// The most blocks of a list: a stream has at most as many.
const MOST_BLOCKS: usize = 256;

/// A block in the folder.
#[derive(Drop)]
pub struct FolderBlock {
    pub id: String,
    /// The path of its file.
    pub path: String,
    /// The block's length in bytes.
    pub len: u64,
}

/// The parsed list of a folder.
#[derive(Drop)]
pub struct Folder {
    pub page_size: u64,
    pub blocks: Vec<FolderBlock>,
    /// Whether the folder has the state of the machine beside its RAM.
    pub has_state: bool,
}

impl Folder {
    /// Returns the number of the block with an id.
    pub fn find(&self, id: &str) -> Option<usize> {
        self.blocks.iter().position(|block| block.id.as_str() == id)
    }

    /// Returns the block `id`, which has to have `len` bytes.
    ///
    /// # Errors
    ///
    /// `Trouble::Unfit`: of `name`, if the block has another length; of `id`, if there is no such
    /// block.
    pub fn block_like(
        &self,
        alloc: Global,
        id: &str,
        name: &str,
        len: u64,
    ) -> Result<&FolderBlock, Trouble> {
        match self.find(id).and_then(|number| self.blocks.get(number)) {
            Some(block) if block.len == len => Ok(block),
            Some(block) => Err(unfit(alloc, name, Unfit::OtherLen(len, block.len))),
            None => Err(unfit(alloc, id, Unfit::NoBlock)),
        }
    }

    /// Returns the sum of the blocks' lengths.
    pub fn total(&self) -> u64 {
        let mut total = 0u64;
        for block in &self.blocks {
            total = total.saturating_add(block.len);
        }
        total
    }

    // Returns whether two blocks have one id.
    fn has_id_twice(&self) -> bool {
        for (number, block) in self.blocks.iter().enumerate() {
            if self.find(&block.id) != Some(number) {
                return true;
            }
        }
        false
    }
}

// Returns whether `len` bytes are one or more pages.
fn is_block_len(len: u64, page_size: u64) -> bool {
    page_size != 0 && len != 0 && len % page_size == 0
}

// Returns the block that an entry of the list describes. None if `extract` writes no such entry, or
// if its file is outside of the folder.
fn block_in(
    alloc: Global,
    folder: &str,
    entry: &Value,
    page_size: u64,
) -> Result<Option<FolderBlock>, AllocError> {
    let Some(id) = entry.get("id").and_then(Value::as_str) else {
        return Ok(None);
    };
    let Some(file) = entry.get("file").and_then(Value::as_str) else {
        return Ok(None);
    };
    let Some(len) = entry.get("bytes").and_then(Value::as_u64) else {
        return Ok(None);
    };
    if file.contains('/') || !is_block_len(len, page_size) {
        return Ok(None);
    }
    Ok(Some(FolderBlock {
        id: String::from_str(alloc, id)?,
        path: path_in(alloc, folder, file, "")?,
        len,
    }))
}

// Returns the folder that a list describes. None if `extract` writes no such list.
fn folder_in(alloc: Global, folder: &str, list: &Value) -> Result<Option<Folder>, AllocError> {
    let Some(page_size) = list.get("page_size").and_then(Value::as_u64) else {
        return Ok(None);
    };
    let Some(entries) = list.get("blocks").and_then(Value::as_array) else {
        return Ok(None);
    };
    if !is_page_size(page_size) || entries.len() > MOST_BLOCKS {
        return Ok(None);
    }
    let mut blocks = Vec::new(alloc);
    for entry in entries {
        match block_in(alloc, folder, entry, page_size)? {
            Some(block) => blocks.push(block)?,
            None => return Ok(None),
        }
    }
    let has_state = list.get("state").and_then(Value::as_str).is_some();
    Ok(Some(Folder {
        page_size,
        blocks,
        has_state,
    }))
}

// Returns the folder that the bytes of a list describe. None if `extract` writes no such list.
fn folder_of(alloc: Global, folder: &str, bytes: &[u8]) -> Result<Option<Folder>, AllocError> {
    let Ok(text) = str::from_utf8(bytes) else {
        return Ok(None);
    };
    match Value::from_str(alloc, text) {
        Ok(list) => folder_in(alloc, folder, &list),
        Err(error) => match error.classify() {
            Category::Memory => Err(AllocError),
            _ => Ok(None),
        },
    }
}

// Reads and parses the list `path` of the folder `folder`.
fn read_list<H: AllocGlobal + Files>(rt: &H, folder: &str, path: &str) -> Result<Folder, Trouble> {
    let alloc = rt.alloc();
    let mut buffer = vec![in alloc; 0u8; MOST_LIST_LEN]?;
    let mut file = open(rt, alloc, path)?;
    let len = file.read(&mut buffer)?;
    match folder_of(alloc, folder, &buffer[..len])? {
        Some(folder) => Ok(folder),
        None => Err(unfit(alloc, path, Unfit::NoList)),
    }
}

// Refuses a block whose file has another length than the list says.
fn check_len<H: AllocGlobal + Files>(rt: &H, block: &FolderBlock) -> Result<(), Trouble> {
    let alloc = rt.alloc();
    let metadata = match rt.metadata(&block.path) {
        Ok(metadata) => metadata,
        Err(error) => return Err(unwritten(alloc, &block.path, error)),
    };
    if metadata.is_file() && metadata.len() != block.len {
        let why = Unfit::ListedLen(metadata.len(), block.len);
        return Err(unfit(alloc, &block.path, why));
    }
    Ok(())
}

/// Reads the list of the folder `folder`, and checks the lengths of its files.
///
/// # Errors
///
/// `Trouble::OfFile` if the list can't be opened or read, or the system doesn't report a file's
/// length. `Trouble::Unfit` if `extract` writes no such list, the list has an id twice, or a file
/// has another length than the list says. `Trouble::NoMemory`.
pub fn read_folder<H: AllocGlobal + Files>(rt: &H, folder: &str) -> Result<Folder, Trouble> {
    let alloc = rt.alloc();
    let path = path_in(alloc, folder, LIST_NAME, "")?;
    let list = read_list(rt, folder, &path)?;
    if list.has_id_twice() {
        return Err(unfit(alloc, &path, Unfit::IdTwice));
    }
    for block in &list.blocks {
        check_len(rt, block)?;
    }
    Ok(list)
}
