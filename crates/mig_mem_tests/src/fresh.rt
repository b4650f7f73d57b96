//! A memory that was zeros: a page of zeros is passed on to it only where a content came before.

use mig_fixtures::{at, table};
use mig_marking::Fresh;
use mig_mem::{GuestTarget, Memory, Place, Table};
use std::alloc::{AllocGlobal, Global};
use std::marker::Model;
use std::process::Abort;

// A memory that counts how often it was asked to clear a page.
#[derive(Drop)]
struct Counting {
    memory: Memory,
    cleared: u64,
}

impl Model for Counting {
    ghost use Rattle.mig_mem.specs.Image.{Image};

    ghost Value = { Image };

    ghost view = { λ c. c.memory };
}

impl GuestTarget for Counting {
    type Alloc = Global;

    ghost image = { λ m. m };

    fn table(&self) -> &Table<Global> {
        self.memory.table()
    }

    fn put_page(&mut self, place: Place, bytes: &[u8]) {
        self.memory.put_page(place, bytes);
    }

    fn put_zero_page(&mut self, place: Place) {
        self.cleared = self.cleared.saturating_add(1);
        self.memory.put_zero_page(place);
    }
}

fn zeros_over(alloc: Global, table: &Table) -> Option<Fresh<Counting>> {
    let memory = Memory::zeroed(alloc, table).ok()?;
    Fresh::new(alloc, Counting { memory, cleared: 0 }).ok()
}

// Puts a page of zeros, or of a content. Returns whether there is such a page.
fn put(memory: &mut Fresh<Counting>, place: Place, content: Option<&[u8]>) -> bool {
    let table = memory.table();
    if !table.holds(place) {
        return false;
    }
    match content {
        None => memory.put_zero_page(place),
        Some(bytes) => {
            if bytes.len() as u64 != table.page_size() {
                return false;
            }
            memory.put_page(place, bytes);
        }
    }
    true
}

#[test]
fn zeros_are_left_alone(rt: HostRuntime) {
    let table = table(rt.alloc(), &[("a", 2)]).expect(&rt, "a table");
    let mut memory = zeros_over(rt.alloc(), &table).expect(&rt, "a memory");
    assert!(rt; put(&mut memory, at(0, 0), None) && put(&mut memory, at(0, 1), None));
    assert_eq!(rt; memory.memory().cleared, 0);
    assert!(rt; put(&mut memory, at(0, 1), Some(&[7; 4096])));
    assert_eq!(rt; memory.written().count(), 1);
    assert!(rt; put(&mut memory, at(0, 1), None) && put(&mut memory, at(0, 1), None));
    assert_eq!(rt; memory.memory().cleared, 1);
    assert_eq!(rt; memory.written().count(), 0);
    let zeros = [0; 4096];
    assert!(rt; memory.memory().memory.page(at(0, 1)) == Some(zeros.as_slice()));
}
