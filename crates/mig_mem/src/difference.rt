//! The first place where two memories differ.

ghost use Rattle.std.specs.Prelude.{◌≡◌, ℕ, ◌<◌, length, find, IfSome, IfNone, false, not};
ghost use Rattle.mig_mem.specs.RamTable.{block as block_of_number};
ghost use Rattle.mig_mem.specs.Place.{place_at, places, IsPlace};
ghost use Rattle.mig_mem.specs.Image.{differs, IsFirstDifference};

use crate::{Memory, Place};
use std::alloc::Allocator;

/// Returns the least place where two memories of one table have different contents. A caller tests
/// the tables by `Table::same`.
pub fn first_difference<A: Allocator, B: Allocator>(a: &Memory<A>, b: &Memory<B>) -> Option<Place>
    requires { a.now.table ≡ b.now.table }
    ensures { result ≡ find (differs a.now b.now) (places a.now.table) }
{
    for block in 0..a.table().len() {
        if let Some(page) = first_page(a, b, block) {
            return Some(Place { block, page });
        }
    }
    None
}

// Returns the first page of `block` where the two memories differ.
fn first_page<A: Allocator, B: Allocator>(a: &Memory<A>, b: &Memory<B>, block: usize) -> Option<u64>
    requires same { a.now.table ≡ b.now.table }
    requires has_block { block < length a.now.table.blocks }
    ensures some { IfSome result (λ page. IsFirstDifference a.now b.now block page) }
    ensures none { IfNone result ((page : ℕ) → page < (block_of_number a.now.table.blocks block).pages → differs a.now b.now (place_at block page) ≡ false) }
{
    for page in 0..a.table().pages(block) {
        let place = Place { block, page };
        if !is_same_at(a, b, place) {
            return Some(page);
        }
    }
    None
}

/// Returns whether two memories have the same content at `place`. If neither was written there, no
/// byte is read.
pub(crate) fn is_same_at<A: Allocator, B: Allocator>(
    a: &Memory<A>,
    b: &Memory<B>,
    place: Place,
) -> bool
    requires same { a.now.table ≡ b.now.table }
    requires place { IsPlace a.now.table place }
    ensures { differs a.now b.now place ≡ not result }
{
    if a.is_blank(place) && b.is_blank(place) {
        return true;
    }
    a.page_in(place) == b.page_in(place)
}
