//! Makes a memory from a file's bytes.

ghost use Rattle.std.specs.Prelude.{◌≡◌, ◌<◌, ◌≤◌, ◌*◌, length, drop, IfOk};
ghost use Rattle.mig_mem.specs.RamTable.{block as ram_block};
ghost use Rattle.mig_image.specs.File.{file_len, memory_in, with_block};

use mig_mem::{Memory, NoMemory, Place, Table};
use mig_zero::is_zero;
use std::alloc::Allocator;

// Returns how many bytes the file of `table` has.
fn file_len<A: Allocator>(table: &Table<A>) -> u64
    ensures { result ≡ file_len table.now }
{
    let mut pages = 0;
    for i in 0..table.len() {
        pages += table.pages(i);
    }
    pages * table.page_size()
}

// Writes the pages of a block, one after another, and returns the rest of the bytes.
fn take_block<'b, A: Allocator>(memory: &mut Memory<A>, block: usize, bytes: &'b [u8]) -> &'b [u8]
    requires block { block < length memory.old.table.blocks }
    requires bytes { (ram_block memory.old.table.blocks block).pages * memory.old.table.page_size ≤ length bytes.now }
    ensures memory { memory.new ≡ with_block memory.old block bytes.now }
    ensures rest { result.now ≡ drop ((ram_block memory.old.table.blocks block).pages * memory.old.table.page_size) bytes.now }
{
    let size = memory.table().page_size() as usize;
    let mut left = bytes;
    for page in 0..memory.table().pages(block) {
        let place = Place { block, page };
        let (content, rest) = left.split_at(size);
        if is_zero(content) {
            memory.put_zero_page(place);
        } else {
            memory.put_page(place, content);
        }
        left = rest;
    }
    left
}

/// Makes the memory of `table` whose file has these bytes. Returns `None` if there are more or
/// fewer bytes than the blocks have.
///
/// # Errors
///
/// `NoMemory`: an allocation was refused.
pub fn memory_of<A: Allocator + Copy>(
    alloc: A,
    table: &Table<A>,
    bytes: &[u8],
) -> Result<Option<Memory<A>>, NoMemory>
    ensures { IfOk result (λ memory. memory ≡ memory_in table.now bytes.now) }
{
    if bytes.len() as u64 != file_len(table) {
        return Ok(None);
    }
    let mut memory = Memory::zeroed(alloc, table)?;
    let mut left = bytes;
    for block in 0..table.len() {
        left = take_block(&mut memory, block, left);
    }
    Ok(Some(memory))
}
