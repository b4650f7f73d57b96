//! A RAM block as C passes it: its id in 256 bytes, as QEMU's `idstr`, and its number of pages.

ghost use Rattle.std.specs.Prelude.{◌≡◌, ◌++◌, ◌-◌, ◌==◌, ◌≤◌, IfOk, IsSome, map, length, replicate, take, drop};
ghost use Rattle.std.specs.List.{before_first, position};
ghost use Rattle.mig_mem.specs.RamTable.{RamTable, entry_block, block, table_from};
ghost use Rattle.mig_c_calls.specs.Blocks.{id_in, block_in};

use mig_mem::NoMemory;
use std::alloc::Global;

/// A RAM block: its id, which ends with a byte 0, and its number of pages.
#[repr(C)]
#[derive(Clone, Copy)]
pub struct NamedBlock {
    /// The id, then zeros.
    pub id: [u8; 256],
    /// The number of pages.
    pub pages: u64,
}

// Returns the bytes before the first byte 0, or all bytes.
fn up_to_zero(name: &[u8]) -> &[u8]
    ensures { result.now ≡ id_in name.now }
{
    match zero_at(name) {
        Some(len) => &name[..len],
        None => name,
    }
}

fn zero_at(name: &[u8]) -> Option<usize>
    ensures { result ≡ position (λ byte. byte == 0) name.now }
{
    name.iter().position(|byte| *byte == 0)
}

// Copies a block's id, and returns it with its number of pages.
fn entry(alloc: Global, named: &NamedBlock) -> Result<(Vec<u8>, u64), NoMemory>
    ensures { IfOk result (λ e. entry_block e ≡ block_in named.now) }
{
    let id = Vec::from_slice(alloc, up_to_zero(named.id.as_slice()))?;
    Ok((id, named.pages))
}

/// Returns the ids and pages of blocks, from which a table is created.
pub fn entries(alloc: Global, blocks: &[NamedBlock]) -> Result<Vec<(Vec<u8>, u64)>, NoMemory>
    ensures { IfOk result (λ list. map entry_block list.items ≡ map block_in blocks.now) }
{
    let mut list = Vec::new(alloc);
    for named in blocks {
        list.push(entry(alloc, named)?)?;
    }
    Ok(list)
}
