//! A memory into which a load writes round by round.

use mig_fixtures::{at, table};
use mig_mem::{GuestTarget, Memory, Place, Table};
use mig_staged::Staged;
use std::alloc::{AllocGlobal, Global};
use std::process::Abort;

const ZEROS: [u8; 4096] = [0; 4096];

fn staged_over(alloc: Global, table: &Table) -> Option<Staged<Memory>> {
    let memory = Memory::zeroed(alloc, table).ok()?;
    Staged::new(alloc, memory).ok()
}

// Puts a page of zeros, or of this byte. Returns whether there is such a page.
fn put(memory: &mut Staged<Memory>, place: Place, byte: Option<u8>) -> bool {
    let table = memory.table();
    if !table.holds(place) || table.page_size() != 4096 {
        return false;
    }
    match byte {
        None => memory.put_zero_page(place),
        Some(byte) => memory.put_page(place, &[byte; 4096]),
    }
    true
}

// Returns whether the memory has this byte all over a page.
fn has(memory: &Staged<Memory>, place: Place, byte: u8) -> bool {
    memory.memory().page(place) == Some([byte; 4096].as_slice())
}

#[test]
fn round_is_kept(rt: HostRuntime) {
    let table = table(rt.alloc(), &[("a", 2), ("b", 1)]).expect(&rt, "a table");
    let mut memory = staged_over(rt.alloc(), &table).expect(&rt, "a memory");
    assert!(rt; put(&mut memory, at(0, 1), Some(7)) && put(&mut memory, at(1, 0), Some(8)));
    assert!(rt; has(&memory, at(0, 1), 0) && has(&memory, at(1, 0), 0));
    memory.keep();
    assert!(rt;
        has(&memory, at(0, 0), 0) && has(&memory, at(0, 1), 7) && has(&memory, at(1, 0), 8)
    );
    assert!(rt; put(&mut memory, at(0, 1), None) && put(&mut memory, at(1, 0), Some(9)));
    memory.keep();
    assert!(rt; has(&memory, at(0, 1), 0) && has(&memory, at(1, 0), 9));
}

#[test]
fn round_is_dropped(rt: HostRuntime) {
    let table = table(rt.alloc(), &[("a", 2)]).expect(&rt, "a table");
    let mut memory = staged_over(rt.alloc(), &table).expect(&rt, "a memory");
    assert!(rt; put(&mut memory, at(0, 0), Some(7)));
    memory.keep();
    assert!(rt; put(&mut memory, at(0, 0), Some(8)) && put(&mut memory, at(0, 1), Some(9)));
    memory.drop_round();
    assert!(rt; has(&memory, at(0, 0), 7));
    // what was dropped isn't kept with a later round
    assert!(rt; put(&mut memory, at(0, 1), None));
    memory.keep();
    assert!(rt; has(&memory, at(0, 0), 7));
    assert!(rt; memory.memory().page(at(0, 1)) == Some(ZEROS.as_slice()));
}

#[test]
fn first_round_becomes_the_memory(rt: HostRuntime) {
    let table = table(rt.alloc(), &[("a", 2)]).expect(&rt, "a table");
    let mut memory = Staged::zeroed(rt.alloc(), &table).expect(&rt, "a memory");
    // a round without pages isn't the first one
    memory.keep_own();
    assert!(rt; put(&mut memory, at(0, 1), Some(7)));
    assert!(rt; has(&memory, at(0, 1), 0));
    memory.keep_own();
    assert!(rt; has(&memory, at(0, 0), 0) && has(&memory, at(0, 1), 7));
    assert!(rt; put(&mut memory, at(0, 0), Some(8)) && put(&mut memory, at(0, 1), None));
    assert!(rt; has(&memory, at(0, 0), 0) && has(&memory, at(0, 1), 7));
    memory.keep_own();
    assert!(rt; has(&memory, at(0, 0), 8) && has(&memory, at(0, 1), 0));
}
