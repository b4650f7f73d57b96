//! Tests the places of the pages of a round's packets, by their heads, for `Arrivals`. `doubles`
//! takes a page's place from it.

ghost use Rattle.std.specs.Prelude.{◌≡◌, ◌<◌, length, slice_index, position};
ghost use Rattle.mig_packet.specs.PacketHead.{offsets_in};
ghost use Rattle.mig_assemble.specs.Judging.{is_outside};
ghost use Rattle.mig_assemble.specs.HeadPlaces.{Lie};

use crate::RoundFault;
use mig_mem::Table;
use mig_packet::PacketHead;
use std::alloc::Allocator;

/// Where the pages of a packet are, by its head.
#[derive(Clone, Copy)]
pub enum Pages {
    /// The packet has no pages.
    Nowhere,
    /// In the block with this number, which has each of the pages.
    In(usize),
    /// Its id names no block, or an offset no page of the block.
    Misplaced(RoundFault),
}

/// Returns where the pages of a packet are. The id of a packet without pages isn't tested.
#[tactic(auto, using(crate::proofs::PacketPlaces::faults))]
pub fn pages_of<A: Allocator>(table: &Table<A>, head: &PacketHead<'_>) -> Pages
    requires { head.now.page_size ≡ table.now.page_size }
    ensures { Lie table.now head.now.bytes.now result }
{
    if page_count(head) == 0 {
        return Pages::Nowhere;
    }
    let number = head.number();
    let Some(block) = table.find(head.id()) else {
        return Pages::Misplaced(RoundFault::UnknownBlock(number));
    };
    match first_outside(table.pages(block), head) {
        Some(i) => Pages::Misplaced(RoundFault::Offset(number, i)),
        None => Pages::In(block),
    }
}

/// Returns the number of all pages of a packet.
#[tactic(auto, using(mig_packet::proofs::Heads::count))]
pub(crate) fn page_count(head: &PacketHead<'_>) -> usize
    ensures { result ≡ length (offsets_in head.now.bytes.now) }
{
    head.normal_len() + head.zero_len()
}

/// Returns offset `i` of a packet; those of the normal pages are first.
#[tactic(auto, using(mig_packet::proofs::Heads::count, mig_packet::proofs::Heads::offset_is))]
pub(crate) fn offset(head: &PacketHead<'_>, i: usize) -> u64
    requires { i < length (offsets_in head.now.bytes.now) }
    ensures { result ≡ slice_index (offsets_in head.now.bytes.now) i }
{
    head.offset(i)
}

// Returns the index of the first offset of a packet at which a block of `pages` pages has no page.
#[tactic(auto, using(mig_mem::proofs::Lists::position_at, mig_mem::proofs::Lists::position_past))]
fn first_outside(pages: u64, head: &PacketHead<'_>) -> Option<usize>
    ensures { result ≡ position (is_outside head.now.page_size pages) (offsets_in head.now.bytes.now) }
{
    for i in 0..page_count(head) {
        if is_outside(head.page_size(), pages, offset(head, i)) {
            return Some(i);
        }
    }
    None
}

// Returns whether no page of a block of `pages` pages begins at `offset`.
fn is_outside(page_size: u64, pages: u64, offset: u64) -> bool
    requires { 0 < page_size }
    ensures { result ≡ is_outside page_size pages offset }
{
    offset % page_size != 0 || pages <= offset / page_size
}
