//! Adds the places of a round to those that earlier rounds named, for `Arrivals`, `Target`, and
//! loads that keep this set themselves.

ghost use Rattle.std.specs.Prelude.{◌≡◌, ◌<◌, [], map, length, All, None, false};
ghost use Rattle.mig_mem.specs.RamTable.{block as block_at};
ghost use Rattle.mig_packet.specs.Lent.{fields};
ghost use Rattle.mig_packet.specs.PacketHead.{offsets_in, as_zeros};
ghost use Rattle.mig_assemble.specs.Judging.{is_outside, place_fault, pages_in, packet_pages, all_round_pages, places_of};
ghost use Rattle.mig_assemble.specs.NamedPlaces.{AddsPlaces, with_places};
ghost use Rattle.mig_assemble.specs.Target.{FitsTable, pages_of_round};
ghost use Rattle.mig_assemble.specs.HeadPlaces.{Lie};
ghost use Rattle.mig_assemble.specs.AtOnce.{head_of, packets_of, LieEach};

use crate::judge::Placed;
use crate::places::{Pages, offset, page_count};
use mig_mem::{Dirty, Place};
use mig_packet::PacketHead;
use mig_stream::StreamRound;
use std::alloc::Allocator;

/// Adds the places of `more` to `named`, a set of the same table. It takes a step for each of them.
pub(crate) fn add_places<A: Allocator, B: Allocator>(named: &mut Dirty<A>, more: &Dirty<B>)
    requires { named.old.table ≡ more.now.table }
    ensures adds { AddsPlaces more.now.marked named.old named.new }
    ensures table { named.new.table ≡ named.old.table }
{
    let mut from = Place { block: 0, page: 0 };
    for _ in 0..more.count() {
        let Some(place) = more.first_from(from) else {
            break;
        };
        let Ok(_) = named.mark(place) else {
            unreachable!();
        };
        from = Place {
            block: place.block,
            page: place.page + 1,
        };
    }
}

/// Adds the places of a round's records to `named`, a set of the same table. It is for a load that
/// keeps this set itself; `Target` does it.
pub fn name_records<A: Allocator, B: Allocator>(named: &mut Dirty<A>, round: &StreamRound<B>)
    requires fits { FitsTable named.old.table round.now }
    ensures table { named.new.table ≡ named.old.table }
    ensures named { named.new ≡ with_places named.old (places_of (pages_of_round round.now)) }
{
    for i in 0..round.len() {
        let Ok(_) = named.mark(round.place(i)) else {
            unreachable!();
        };
    }
}

/// Adds the places of packets' pages to `named`.
pub(crate) fn name_packets<A: Allocator>(named: &mut Dirty<A>, placed: &[Placed<'_>])
    requires page_sizes { All (λ x. x.packet.page_size ≡ named.old.table.page_size) placed.now }
    requires lie { LieEach named.old.table placed.now }
    requires lawful { All (λ x. place_fault named.old.table (fields x.packet) ≡ None) placed.now }
    ensures table { named.new.table ≡ named.old.table }
    ensures named { named.new ≡ with_places named.old (places_of (all_round_pages named.old.table [] (map fields (packets_of placed.now)))) }
{
    for one in placed {
        name_packet(named, one);
    }
}

// Adds the places of a packet's pages, in the block where they are.
fn name_packet<A: Allocator>(named: &mut Dirty<A>, placed: &Placed<'_>)
    requires page_size { placed.now.packet.page_size ≡ named.old.table.page_size }
    requires lie { Lie named.old.table (head_of placed.now.packet) placed.now.pages }
    requires lawful { place_fault named.old.table (fields placed.now.packet) ≡ None }
    ensures table { named.new.table ≡ named.old.table }
    ensures named { named.new ≡ with_places named.old (places_of (packet_pages named.old.table (fields placed.now.packet))) }
{
    // a packet of a lawful round is in a block, or has no pages
    if let Pages::In(block) = placed.pages {
        name_pages(named, &placed.packet.head(), block);
    }
}

// Adds the places of the pages of a packet, in block `block`.
fn name_pages<A: Allocator>(named: &mut Dirty<A>, head: &PacketHead<'_>, block: usize)
    requires page_size { head.now.page_size ≡ named.old.table.page_size }
    requires block { block < length named.old.table.blocks }
    requires lawful { All (λ offset. is_outside named.old.table.page_size (block_at named.old.table.blocks block).pages offset ≡ false) (offsets_in head.now.bytes.now) }
    ensures table { named.new.table ≡ named.old.table }
    ensures named { named.new ≡ with_places named.old (places_of (pages_in named.old.table (as_zeros head.now.bytes.now) block)) }
{
    for i in 0..page_count(head) {
        let page = offset(head, i) / head.page_size();
        let Ok(_) = named.mark(Place { block, page }) else {
            unreachable!();
        };
    }
}
