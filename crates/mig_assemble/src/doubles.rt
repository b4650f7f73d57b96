//! Finds places that occur twice in a round, for `Arrivals`, by marking each place of the round.

ghost use Rattle.std.specs.Prelude.{◌≡◌, ◌<◌, ◌∷◌, [], length, All, false};
ghost use Rattle.mig_mem.specs.RamTable.{block as block_at};
ghost use Rattle.mig_mem.specs.Place.{IsPlace, place_lt};
ghost use Rattle.mig_packet.specs.PacketHead.{offsets_in, as_zeros};
ghost use Rattle.mig_assemble.specs.Judging.{is_outside, pages_in, places_of, least, lesser, twice};
ghost use Rattle.mig_assemble.specs.Seen.{SeesMore};
ghost use Rattle.mig_assemble.specs.Target.{FitsTable, pages_of_round};

use crate::places::{offset, page_count};
use mig_mem::{Dirty, Place};
use mig_packet::PacketHead;
use mig_stream::StreamRound;
use std::alloc::Allocator;

/// Marks the places of records. `double` is the least place that occurred twice so far. Returns
/// that place with the records.
pub(crate) fn mark_records<A: Allocator, B: Allocator>(
    seen: &mut Dirty<A>,
    double: Option<Place>,
    round: &StreamRound<B>,
) -> Option<Place>
    requires fits { FitsTable seen.old.table round.now }
    ensures table { seen.new.table ≡ seen.old.table }
    ensures seen { SeesMore (places_of (pages_of_round round.now)) seen.old double seen.new result }
{
    let mut double = double;
    for i in 0..round.len() {
        double = mark(seen, double, round.place(i));
    }
    double
}

/// Marks the places of a packet's pages in block `block`. `double` is the least place that occurred
/// twice so far. Returns that place with the packet.
pub(crate) fn mark_pages<A: Allocator>(
    seen: &mut Dirty<A>,
    double: Option<Place>,
    head: &PacketHead<'_>,
    block: usize,
) -> Option<Place>
    requires page_size { head.now.page_size ≡ seen.old.table.page_size }
    requires block { block < length seen.old.table.blocks }
    requires lawful { All (λ offset. is_outside seen.old.table.page_size (block_at seen.old.table.blocks block).pages offset ≡ false) (offsets_in head.now.bytes.now) }
    ensures table { seen.new.table ≡ seen.old.table }
    ensures seen { SeesMore (places_of (pages_in seen.old.table (as_zeros head.now.bytes.now) block)) seen.old double seen.new result }
{
    let mut double = double;
    for i in 0..page_count(head) {
        let page = offset(head, i) / head.page_size();
        double = mark(seen, double, Place { block, page });
    }
    double
}

// Marks a place. `double` is the least place that occurred twice so far. Returns that place with
// this one.
fn mark<A: Allocator>(seen: &mut Dirty<A>, double: Option<Place>, place: Place) -> Option<Place>
    requires { IsPlace seen.old.table place }
    ensures table { seen.new.table ≡ seen.old.table }
    ensures seen { SeesMore (place ∷ []) seen.old double seen.new result }
{
    match seen.mark(place) {
        Ok(true) => double,
        Ok(false) => Some(lesser(place, double)),
        Err(_) => unreachable!(),
    }
}

// Returns the lesser of a place and `beside`, if there is one.
fn lesser(place: Place, beside: Option<Place>) -> Place
    ensures { result ≡ lesser place_lt place beside }
{
    match beside {
        Some(other) if other < place => other,
        _ => place,
    }
}
