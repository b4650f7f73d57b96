//! The places of the pages of a packet, which a load claims.

ghost use Rattle.std.specs.Prelude.{ℕ, ◌≡◌, ◌+◌, ◌/◌, ◌<◌, false, true, IsTrue, IsFalse};
ghost use Rattle.mig_mem.specs.Place.{place_at, has_place};
ghost use Rattle.mig_packet.specs.Packet.{normal_count, zero_count, offset_at};
ghost use Rattle.mig_assemble.specs.HeadPlaces.{LieIn};
ghost use Rattle.mig_apart.specs.Claims.{packet_places, ClaimsMore, ClaimsLess};

use mig_mem::{Dirty, Place};
use mig_packet::PacketHead;
use std::alloc::Allocator;

// Returns the place of page `i` of a packet in block `block`.
fn place(head: &PacketHead<'_>, block: usize, i: usize) -> Place
    requires { i < normal_count head.now.bytes.now + zero_count head.now.bytes.now }
    ensures { result ≡ place_at block (offset_at head.now.bytes.now i / head.now.page_size) }
{
    let page = head.offset(i) / head.page_size();
    Place { block, page }
}

/// Returns whether one of the places of a packet is claimed.
pub(crate) fn any_claimed<A: Allocator>(
    claimed: &Dirty<A>,
    head: &PacketHead<'_>,
    block: usize,
) -> bool
    requires page_size { head.now.page_size ≡ claimed.now.table.page_size }
    ensures some { IsTrue result → (i : ℕ) × (i < normal_count head.now.bytes.now + zero_count head.now.bytes.now) × (has_place claimed.now.marked (place_at block (offset_at head.now.bytes.now i / claimed.now.table.page_size)) ≡ true) }
    ensures none { IsFalse result → (i : ℕ) → i < normal_count head.now.bytes.now + zero_count head.now.bytes.now
        → has_place claimed.now.marked (place_at block (offset_at head.now.bytes.now i / claimed.now.table.page_size)) ≡ false }
{
    for i in 0..head.normal_len() + head.zero_len() {
        if claimed.has(place(head, block, i)) {
            return true;
        }
    }
    false
}

/// Claims the places of a packet.
pub(crate) fn claim_all<A: Allocator>(claimed: &mut Dirty<A>, head: &PacketHead<'_>, block: usize)
    requires page_size { head.now.page_size ≡ claimed.old.table.page_size }
    requires lies { LieIn claimed.old.table block head.now.bytes.now }
    ensures table { claimed.new.table ≡ claimed.old.table }
    ensures more { ClaimsMore claimed.old.table (packet_places claimed.old.table block head.now.bytes.now) claimed.old claimed.new }
{
    'places: for i in 0..head.normal_len() + head.zero_len() {
        let Ok(_) = claimed.mark(place(head, block, i)) else {
            unreachable!();
        };
    }
}

/// Returns whether all places of a packet are claimed.
pub(crate) fn all_claimed<A: Allocator>(
    claimed: &Dirty<A>,
    head: &PacketHead<'_>,
    block: usize,
) -> bool
    requires page_size { head.now.page_size ≡ claimed.now.table.page_size }
    ensures all { IsTrue result → (i : ℕ) → i < normal_count head.now.bytes.now + zero_count head.now.bytes.now
        → has_place claimed.now.marked (place_at block (offset_at head.now.bytes.now i / claimed.now.table.page_size)) ≡ true }
{
    for i in 0..head.normal_len() + head.zero_len() {
        if !claimed.has(place(head, block, i)) {
            return false;
        }
    }
    true
}

/// Ends the claim of the places of a packet.
pub(crate) fn free_all<A: Allocator>(claimed: &mut Dirty<A>, head: &PacketHead<'_>, block: usize)
    requires page_size { head.now.page_size ≡ claimed.old.table.page_size }
    requires lies { LieIn claimed.old.table block head.now.bytes.now }
    ensures table { claimed.new.table ≡ claimed.old.table }
    ensures less { ClaimsLess claimed.old.table (packet_places claimed.old.table block head.now.bytes.now) claimed.old claimed.new }
{
    'places: for i in 0..head.normal_len() + head.zero_len() {
        claimed.unmark(place(head, block, i));
    }
}
