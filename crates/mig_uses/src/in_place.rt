//! Loads a guest where it is to run: into the blocks that a hypervisor has mapped for it already.

ghost use Rattle.std.specs.Prelude.{◌≡◌, ◌≤◌, ◌^◌, List, All, MatchResult};
ghost use Rattle.mig_mem.specs.Image.{Page, zero_image};
ghost use Rattle.mig_mem.specs.Round.{IsRound, all_pages, with_rounds};
ghost use Rattle.mig_marking.specs.Marking.{IsPageOfBytes, missing, none_written, with_written};
ghost use Rattle.mig_stream.specs.Text.{total_bytes};
ghost use Rattle.mig_stream.specs.Written.{single};
ghost use Rattle.mig_load_types.specs.declared.fault.Fault.TheVariants.{NoMemory as fault_no_memory};

use std::alloc::Allocator;
use zimgasol::{
    Fault, Fresh, GuestTarget, InPlaceLoader, LoadFault, LoadSettings, Marking, Memory, Origin,
    Table,
};

// Returns the fault of an allocation that was refused before any round.
fn without_memory() -> LoadFault
    ensures { result.fault ≡ fault_no_memory }
{
    LoadFault {
        round: 0,
        source: Origin::Round,
        fault: Fault::NoMemory,
    }
}

/// Loads a complete stream into existing memory, such as a machine's mapped blocks
/// (`LentMemoryMut`). Pages that the stream doesn't name keep their contents.
///
/// # Errors
///
/// The stream's fault; 63, if its blocks aren't those of the memory. Some rounds may have been
/// applied by then, and the guest must not run.
pub fn load_onto<A: Allocator + Copy, M: GuestTarget + Drop>(
    alloc: A,
    memory: M,
    text: &[u8],
    limit: u64,
) -> Result<M, LoadFault>
    requires { limit ≤ 2 ^ 40 }
    ensures { (rounds : List (List Page)) → total_bytes (M.image memory).table ≤ limit → All (IsRound (M.image memory).table) rounds
        → text.now ≡ single (M.image memory).table rounds
        → MatchResult result (λ m. M.image m ≡ with_rounds (M.image memory) rounds) (λ fault. fault.fault ≡ fault_no_memory) }
{
    let settings = LoadSettings::new(memory.table().page_size(), limit);
    let Ok(mut loader) = InPlaceLoader::new(alloc, settings, memory) else {
        return Err(without_memory());
    };
    let Ok(()) = loader.feed(text) else {
        return Err(without_memory());
    };
    loader.end();
    loader.verdict()?;
    Ok(loader.into_memory())
}

/// Does the same, and returns also how many pages of the memory had no record. A stream of a whole
/// guest has one for each page.
///
/// # Errors
///
/// As of `load_onto`.
pub fn load_counted<A: Allocator + Copy, M: GuestTarget + Drop>(
    alloc: A,
    memory: M,
    text: &[u8],
    limit: u64,
) -> Result<(M, u64), LoadFault>
    requires { limit ≤ 2 ^ 40 }
    ensures { (rounds : List (List Page)) → total_bytes (M.image memory).table ≤ limit → All (IsRound (M.image memory).table) rounds
        → All (IsPageOfBytes (M.image memory).table.page_size) (all_pages rounds) → text.now ≡ single (M.image memory).table rounds
        → MatchResult result (λ r. (M.image r.0 ≡ with_rounds (M.image memory) rounds)
        × (r.1 ≡ missing (with_written (none_written (M.image memory)) (all_pages rounds)))) (λ fault. fault.fault ≡ fault_no_memory) }
{
    let Ok(marking) = Marking::new(alloc, memory) else {
        return Err(without_memory());
    };
    let marking = load_onto(alloc, marking, text, limit)?;
    let missing = marking.missing();
    let (memory, _) = marking.into_parts();
    Ok((memory, missing))
}

/// Loads a complete stream into new memory. No page of it is touched until the stream has a content
/// for it.
///
/// # Errors
///
/// As of `load_onto`.
pub fn load_fresh<A: Allocator + Copy>(
    alloc: A,
    table: &Table<A>,
    text: &[u8],
    limit: u64,
) -> Result<Memory<A>, LoadFault>
    requires { limit ≤ 2 ^ 40 }
    ensures { (rounds : List (List Page)) → total_bytes table.now ≤ limit → All (IsRound table.now) rounds → text.now ≡ single table.now rounds
        → MatchResult result (λ m. m ≡ with_rounds (zero_image table.now) rounds) (λ fault. fault.fault ≡ fault_no_memory) }
{
    let Ok(memory) = Memory::zeroed(alloc, table) else {
        return Err(without_memory());
    };
    let Ok(fresh) = Fresh::new(alloc, memory) else {
        return Err(without_memory());
    };
    let fresh = load_onto(alloc, fresh, text, limit)?;
    Ok(fresh.into_memory())
}

#[cfg(test)]
mod tests {
    use super::*;
    use crate::LiveGuest;
    use mig_fixtures::table;
    use std::alloc::AllocGlobal;
    use std::process::Abort;
    use zimgasol::LentMemoryMut;

    // Returns the values as an array.
    fn both<T: Drop>(one: T, other: T) -> [T; 2] {
        [one, other]
    }

    // The stream of a guest of two blocks, of one page and of two, that sent its last page.
    fn stream(rt: &(impl AllocGlobal + Abort), table: &Table) -> Vec<u8> {
        let mut guest = LiveGuest::new(rt.alloc(), table).expect(rt, "a guest");
        assert!(rt; guest.write(1, 4096, 7));
        guest.finish().expect(rt, "a stream")
    }

    // Returns the number of the load's fault, or 0.
    fn number_of<A: Allocator + Copy, M: GuestTarget + Drop>(
        alloc: A,
        memory: M,
        text: &[u8],
    ) -> u8 {
        match load_onto(alloc, memory, text, 1 << 20) {
            Ok(_) => 0,
            Err(fault) => fault.fault.number(),
        }
    }

    // Loads the stream over two blocks of bytes 9, of one page and of two.
    fn load(
        rt: &(impl AllocGlobal + Abort),
        table: &Table,
        text: &[u8],
        first: &mut [u8],
        second: &mut [u8],
    ) -> u8 {
        let mut blocks = both(first, second);
        let memory = LentMemoryMut::new(table, &mut blocks)
            .ok()
            .expect(rt, "a memory");
        number_of(rt.alloc(), memory, text)
    }

    // Returns how many pages had no record, if the stream loads over two blocks of zeros.
    fn missing_of(rt: &(impl AllocGlobal + Abort), table: &Table, text: &[u8]) -> u64 {
        let (mut first, mut second) = ([0u8; 4096], [0u8; 8192]);
        let mut blocks = both(first.as_mut_slice(), second.as_mut_slice());
        let memory = LentMemoryMut::new(table, &mut blocks)
            .ok()
            .expect(rt, "a memory");
        let loaded = load_counted(rt.alloc(), memory, text, 1 << 20);
        let (_, missing) = loaded.ok().expect(rt, "a guest");
        missing
    }

    // A page that is sent twice came once, and a page of zeros came, too.
    #[test]
    fn pages_without_a_record_are_counted(rt: HostRuntime) {
        let table = table(rt.alloc(), &[("a", 1), ("b", 2)]).expect(&rt, "a table");
        let mut guest = LiveGuest::new(rt.alloc(), &table).expect(&rt, "a guest");
        assert!(rt; guest.write(1, 4096, 7) && guest.send_round() == Ok(()));
        assert!(rt; guest.write(1, 4096, 8));
        let twice = guest.finish().expect(&rt, "a stream");
        assert_eq!(rt; missing_of(&rt, &table, &twice), 2);
        let mut guest = LiveGuest::new(rt.alloc(), &table).expect(&rt, "a guest");
        assert!(rt; guest.write(0, 0, 0) && guest.write(1, 0, 7) && guest.write(1, 4096, 7));
        let whole = guest.finish().expect(&rt, "a stream");
        assert_eq!(rt; missing_of(&rt, &table, &whole), 0);
    }

    #[test]
    fn onto_blocks(rt: HostRuntime) {
        let (mut first, mut second) = ([9u8; 4096], [9u8; 8192]);
        let of_two = table(rt.alloc(), &[("a", 1), ("b", 2)]).expect(&rt, "a table");
        let text = stream(&rt, &of_two);
        assert_eq!(rt; load(&rt, &of_two, &text, &mut first, &mut second), 0);
        assert!(rt; first == [9; 4096] && second.starts_with(&[9; 4096]));
        assert!(rt; second[4096] == 7 && second.ends_with(&[0; 4095]));
        // blocks of another machine
        let other = table(rt.alloc(), &[("a", 1), ("c", 2)]).expect(&rt, "a table");
        assert_eq!(rt; load(&rt, &other, &text, &mut first, &mut second), 63);
        assert!(rt; second[4096] == 7);
    }
}
