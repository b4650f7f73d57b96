//! How many pages of its table a set of places doesn't have.

ghost use Rattle.std.specs.Prelude.{◌≡◌, length, not};
ghost use Rattle.mig_mem.specs.Place.{has_place};
ghost use Rattle.mig_mem.specs.PlaceSet.{IsPlaceSet, places_where};
ghost use Rattle.mig_mem.specs.RamTable.{total_pages};

use mig_mem::{Dirty, Table};
use std::alloc::Allocator;

// Returns how many pages all blocks of a table have.
fn pages_of<A: Allocator>(table: &Table<A>) -> u64
    ensures { result ≡ total_pages table.now.blocks }
{
    let mut pages = 0;
    for i in 0..table.len() {
        pages += table.pages(i);
    }
    pages
}

/// Returns how many pages of its table `set` doesn't have.
pub fn lacking<A: Allocator>(set: &Dirty<A>) -> u64
    ensures value { result ≡ length (places_where set.now.table (λ p. not (has_place set.now.marked p))) }
    ensures set { IsPlaceSet set.now }
{
    pages_of(set.table()) - set.count()
}
