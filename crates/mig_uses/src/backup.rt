//! Backs up a guest and restores it: all of its memory as one stream, which a backup tool keeps in
//! a file.

ghost use Rattle.std.specs.Prelude.{◌≡◌, ◌≤◌, ◌^◌, IfOk, IsTrue, MatchResult};
ghost use Rattle.mig_mem.specs.PageSize.{IsPageSize};
ghost use Rattle.mig_mem.specs.RamTable.{IsTable};
ghost use Rattle.mig_mem.specs.declared.place.Place.{Place as PlaceOf};
ghost use Rattle.mig_mem.specs.Place.{IsPlace, has_place};
ghost use Rattle.mig_mem.specs.Image.{Image};
ghost use Rattle.mig_mem.specs.PlaceSet.{IsPlaceSet};
ghost use Rattle.mig_stream.specs.Text.{total_bytes};
ghost use Rattle.mig_load_types.specs.declared.fault.Fault.TheVariants.{NoMemory as fault_no_memory};
ghost use Rattle.mig_uses.specs.Backup.{BringsMemory};

use std::alloc::Allocator;
use zimgasol::{
    Dirty, Fault, LoadFault, Memory, NoMemory, Origin, Place, SendFault, SingleSender, StreamFault,
    Table, load_single,
};

/// Creates the set of all pages of `table`: the pages to send of a guest that was never sent.
pub fn every_page<A: Allocator + Copy, B: Allocator>(
    alloc: A,
    table: &Table<B>,
) -> Result<Dirty<A>, NoMemory>
    ensures set { IfOk result (λ d. IsPlaceSet d × (d.table ≡ table.now)) }
    ensures all { IfOk result (λ d. (p : PlaceOf) → IsPlace table.now p → IsTrue (has_place d.marked p)) }
{
    let mut dirty = Dirty::none(alloc, table)?;
    for block in 0..table.len() {
        for page in 0..table.pages(block) {
            dirty.mark(Place { block, page })?;
        }
    }
    Ok(dirty)
}

/// Backs up a paused guest: returns a stream with all of its memory. A page of zeros costs about
/// ten bytes. The stream is built in memory.
///
/// # Errors
///
/// `NoMemory`, if there is no room for the stream.
pub fn back_up<A: Allocator + Copy>(alloc: A, memory: &Memory<A>) -> Result<Vec<u8, A>, SendFault>
    ensures { IfOk result (λ text. BringsMemory memory.now text.items) }
{
    let dirty = every_page(alloc, memory.table())?;
    let mut sender = SingleSender::new(alloc, memory.table())?;
    sender.round(memory, &dirty)?;
    match sender.finish() {
        Ok(text) => Ok(text),
        Err(_) => Err(SendFault::NoMemory),
    }
}

/// Restores a guest from a backup, or from any other single stream. `limit` is the most bytes that
/// its blocks may have together. A stream that declares more is refused before memory is reserved.
///
/// # Errors
///
/// The stream's fault and where it is, or fault 60 if an allocation was refused.
pub fn restore<A: Allocator + Copy>(
    alloc: A,
    page_size: u64,
    text: &[u8],
    limit: u64,
) -> Result<Memory<A>, LoadFault>
    requires page_size { IsPageSize page_size }
    requires limit { limit ≤ 2 ^ 40 }
    ensures { (m : Image) → IsTable m.table → m.table.page_size ≡ page_size → total_bytes m.table ≤ limit → BringsMemory m text.now
        → MatchResult result (λ there. there ≡ m) (λ fault. fault.fault ≡ fault_no_memory) }
{
    let loaded = load_single(alloc, page_size, text, limit);
    loaded.verdict?;
    match loaded.memory {
        Some(memory) => Ok(memory),
        // unreachable: the verdict isn't Ok here, but the checker doesn't know that
        None => Err(LoadFault {
            round: loaded.rounds,
            source: Origin::Main,
            fault: Fault::Stream(StreamFault::Truncated),
        }),
    }
}

#[cfg(test)]
mod tests {
    use super::*;
    use mig_fixtures::{at, has_byte, set, zeroed};
    use zimgasol::PAGE_SIZE_4K;

    // The first of the two pages is zeros, a record of 16 bytes. The second isn't, a record of
    // 4,104 bytes. The stream has 61 bytes before its round, 18 around the records, and 19 at its
    // end.
    #[test]
    fn restored(rt: HostRuntime) {
        let mut memory = zeroed(rt.alloc(), &[("pc.ram", 2)]).expect(&rt, "a memory");
        assert!(rt; set(&mut memory, 0, 4101, 7));
        let backup = back_up(rt.alloc(), &memory).expect(&rt, "a backup");
        assert_eq!(rt; backup.len(), 61 + 18 + 16 + 4104 + 19);
        let there = restore(rt.alloc(), PAGE_SIZE_4K, &backup, 1 << 20).expect(&rt, "a memory");
        assert!(rt; there.table().same(memory.table()));
        assert!(rt;
            has_byte(&there, at(0, 1), 5, 7) && there.page(at(0, 0)) == memory.page(at(0, 0))
        );
    }

    // Two pages of 4,096 bytes are more than 8,191. The total is at byte 25: fault 20, in round 0.
    #[test]
    fn too_large(rt: HostRuntime) {
        let memory = zeroed(rt.alloc(), &[("pc.ram", 2)]).expect(&rt, "a memory");
        let backup = back_up(rt.alloc(), &memory).expect(&rt, "a backup");
        let Err(fault) = restore(rt.alloc(), PAGE_SIZE_4K, &backup, 8191) else {
            panic!(rt; "a fault")
        };
        assert!(rt; fault.round == 0 && fault.source == Origin::Main && fault.fault.number() == 20);
    }
}
