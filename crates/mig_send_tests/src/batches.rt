//! Batches of some places, and their memories.

ghost use Rattle.std.specs.Prelude.{◌≡◌, All, IfOk};
ghost use Rattle.mig_send.specs.Batches.{IsBatch};

use mig_fixtures::{places_of, set, zeroed};
use mig_mem::{Dirty, Memory, NoMemory, Place, Table};
use mig_send::{Batch, cut};
use std::alloc::{AllocGlobal, Allocator};
use std::process::Abort;

/// Cuts a set of a table, with a valid limit.
pub(crate) fn cut_at<A: Allocator + Copy, B: Allocator>(
    rt: &impl Abort,
    alloc: A,
    table: &Table<B>,
    dirty: &Dirty<B>,
    limit: usize,
) -> Result<Vec<Batch<A>, A>, NoMemory>
    ensures { IfOk result (λ v. All (IsBatch table.now) v.items) }
{
    table.keeps_limits();
    assert!(rt; dirty.table().same(table));
    assert!(rt; limit > 0);
    assert!(rt; limit <= (524_288 / table.page_size()) as usize);
    cut(alloc, table, dirty, limit)
}

/// Returns the batches of some places of a table.
pub(crate) fn batches_of(
    rt: &(impl AllocGlobal + Abort),
    table: &Table,
    places: &[Place],
    limit: usize,
) -> Vec<Batch>
    ensures { All (IsBatch table.now) result.items }
{
    let dirty = places_of(rt.alloc(), table, places).expect(rt, "a set");
    cut_at(rt, rt.alloc(), table, &dirty, limit).expect(rt, "batches")
}

/// Returns a memory of some blocks, whose page 1 of block 0 has the first byte 9.
pub(crate) fn memory_of(rt: &(impl AllocGlobal + Abort), entries: &[(&str, u64)]) -> Memory {
    let mut memory = zeroed(rt.alloc(), entries).expect(rt, "a memory");
    assert!(rt; set(&mut memory, 0, 4096, 9));
    memory
}
