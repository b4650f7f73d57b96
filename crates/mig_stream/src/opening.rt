//! The bytes with which a written stream begins: file header and START. `StreamWriter::new` calls
//! it.

ghost use Rattle.std.specs.Prelude.{◌≡◌, ◌*◌, ◌<◌, ◌≤◌, ◌^◌, ◌++◌, length, Some, IfOk, OnOk};
ghost use Rattle.std.specs.List.{flat_map};
ghost use Rattle.mig_mem.specs.RamTable.{block};
ghost use Rattle.mig_stream.specs.Text.{entry, total_bytes, size_list, file_header, configuration};
ghost use Rattle.mig_stream.specs.Format.{most_name_bytes};
ghost use Rattle.mig_stream.specs.Written.{opening};

use crate::format::RAM_SAVE_FLAG_MEM_SIZE;
use mig_mem::{NoMemory, Table};
use std::alloc::Allocator;

// The file header, QEMU_VM_FILE_MAGIC and QEMU_VM_FILE_VERSION; and START's head:
// QEMU_VM_SECTION_START, the section id 1, the name, RAM_INSTANCE and RAM_VERSION.
const HEAD: [u8; 25] = [
    0x51, 0x45, 0x56, 0x4D, 0, 0, 0, 3, 0x01, 0, 0, 0, 1, 3, 0x72, 0x61, 0x6D, 0, 0, 0, 0, 0, 0, 0,
    4,
];

// The file header, and the type byte of a configuration, QEMU_VM_CONFIGURATION.
const CONFIGURATION_HEAD: [u8; 9] = [0x51, 0x45, 0x56, 0x4D, 0, 0, 0, 3, 0x07];

// START's head, as in `HEAD`.
const START_HEAD: [u8; 17] = [
    0x01, 0, 0, 0, 1, 3, 0x72, 0x61, 0x6D, 0, 0, 0, 0, 0, 0, 0, 4,
];

/// RAM_SAVE_FLAG_EOS, and QEMU_VM_SECTION_FOOTER with the section id, with which each section ends.
pub(crate) const SECTION_END: [u8; 13] = [0, 0, 0, 0, 0, 0, 0, 0x10, 0x7E, 0, 0, 0, 1];

/// Returns the stream's bytes up to the first part.
#[tactic(auto, unfolding(crate::specs::Written::opening, crate::specs::Text::file_header, crate::specs::Text::size_list))]
pub(crate) fn opening_of<A: Allocator, B: Allocator>(
    alloc: A,
    table: &Table<B>,
) -> Result<Vec<u8, A>, NoMemory>
    ensures { IfOk result (λ text. text.items ≡ opening table.now) }
{
    let mut text = Vec::new(alloc);
    text.extend_from_slice(&HEAD)?;
    let head = total_of(table) + u64::from(RAM_SAVE_FLAG_MEM_SIZE);
    text.extend_from_slice(&head.to_be_bytes())?;
    put_entries(&mut text, table)?;
    text.extend_from_slice(&SECTION_END)?;
    Ok(text)
}

/// Returns the file header, and a configuration with `name`.
#[tactic(auto, unfolding(crate::specs::Text::file_header))]
pub(crate) fn configuration_of<A: Allocator>(alloc: A, name: &[u8]) -> Result<Vec<u8, A>, NoMemory>
    requires { length name.now ≤ most_name_bytes }
    ensures { IfOk result (λ text. text.items ≡ file_header ++ configuration (Some name.now)) }
{
    let mut text = Vec::new(alloc);
    text.extend_from_slice(&CONFIGURATION_HEAD)?;
    let len = name.len() as u32;
    text.extend_from_slice(&len.to_be_bytes())?;
    text.extend_from_slice(name)?;
    Ok(text)
}

/// Returns the stream's bytes from START up to the first part.
#[tactic(auto, unfolding(crate::specs::Written::opening, crate::specs::Text::file_header, crate::specs::Text::size_list))]
pub(crate) fn start_of<A: Allocator, B: Allocator>(
    alloc: A,
    table: &Table<B>,
) -> Result<Vec<u8, A>, NoMemory>
    ensures { IfOk result (λ text. file_header ++ text.items ≡ opening table.now) }
{
    let mut text = Vec::new(alloc);
    text.extend_from_slice(&START_HEAD)?;
    let head = total_of(table) + u64::from(RAM_SAVE_FLAG_MEM_SIZE);
    text.extend_from_slice(&head.to_be_bytes())?;
    put_entries(&mut text, table)?;
    text.extend_from_slice(&SECTION_END)?;
    Ok(text)
}

// Returns the number of bytes of all blocks.
fn total_of<B: Allocator>(table: &Table<B>) -> u64
    ensures value { result ≡ total_bytes table.now }
    ensures room { result ≤ 2 ^ 40 }
{
    let mut pages = 0;
    for i in 0..table.len() {
        pages += table.pages(i);
    }
    pages * table.page_size()
}

// Appends an entry of the size list for each block.
fn put_entries<A: Allocator, B: Allocator>(
    text: &mut Vec<u8, A>,
    table: &Table<B>,
) -> Result<(), NoMemory>
    ensures { OnOk result (text.new.items ≡ text.old.items ++ flat_map (entry table.now.page_size) table.now.blocks) }
{
    for i in 0..table.len() {
        put_entry(text, table, i)?;
    }
    Ok(())
}

fn put_entry<A: Allocator, B: Allocator>(
    text: &mut Vec<u8, A>,
    table: &Table<B>,
    i: usize,
) -> Result<(), NoMemory>
    requires { i < length table.now.blocks }
    ensures { OnOk result (text.new.items ≡ text.old.items ++ entry table.now.page_size (block table.now.blocks i)) }
{
    let id = table.id(i);
    let len = table.pages(i) * table.page_size();
    text.push(id.len() as u8)?;
    text.extend_from_slice(id)?;
    text.extend_from_slice(&len.to_be_bytes())?;
    Ok(())
}
