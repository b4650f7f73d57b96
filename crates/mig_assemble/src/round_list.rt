//! Lists the pages of a round, for targets that take a round by several threads.

ghost use Rattle.std.specs.Prelude.{◌≡◌, None, All, map, OnOk, IfOk};
ghost use Rattle.mig_mem.specs.Puts.{round_page, HasPageSize};
ghost use Rattle.mig_packet.specs.Lent.{fields};
ghost use Rattle.mig_assemble.specs.Judging.{place_fault, packet_pages, all_round_pages};
ghost use Rattle.mig_assemble.specs.Target.{pages_of_round, FitsTable};
ghost use Rattle.mig_assemble.specs.PacketPages.{normal_pages, zero_pages};
ghost use Rattle.mig_assemble.specs.RoundList.{Adds};

use mig_mem::{NoMemory, Place, RoundPage, Table};
use mig_packet::Packet;
use mig_stream::StreamRound;
use std::alloc::Allocator;

/// Returns how many pages records and packets have together.
pub(crate) fn page_total<B: Allocator>(round: &StreamRound<B>, packets: &[Packet<'_>]) -> usize {
    let mut total = round.len();
    for packet in packets {
        total = total.saturating_add(packet.normal_len().saturating_add(packet.zero_len()));
    }
    total
}

/// Returns the pages of a round: those of its records, in the order of the stream, and then those
/// of its packets.
pub(crate) fn round_list<'x, A: Allocator, B: Allocator, C: Allocator>(
    alloc: A,
    table: &Table<C>,
    round: &'x StreamRound<B>,
    packets: &[Packet<'x>],
) -> Result<Vec<RoundPage<'x>, A>, NoMemory>
    requires fits { FitsTable table.now round.now }
    requires page_sizes { All (λ p. p.page_size ≡ table.now.page_size) packets.now }
    requires lawful { All (λ p. place_fault table.now (fields p) ≡ None) packets.now }
    ensures stands_for { IfOk result (λ v. map (round_page table.now.page_size) v.items ≡ all_round_pages table.now (pages_of_round round.now) (map fields packets.now)) }
    ensures has_sizes { IfOk result (λ v. All (HasPageSize table.now.page_size) v.items) }
{
    let mut list = Vec::with_capacity(alloc, page_total(round, packets))?;
    add_records(&mut list, round)?;
    for packet in packets {
        add_packet(&mut list, table, packet)?;
    }
    Ok(list)
}

// Adds the pages of a round's records.
fn add_records<'x, A: Allocator, B: Allocator>(
    list: &mut Vec<RoundPage<'x>, A>,
    round: &'x StreamRound<B>,
) -> Result<(), NoMemory>
    ensures { OnOk result (Adds round.now.page_size list.old.items list.new.items (pages_of_round round.now)) }
{
    for i in 0..round.len() {
        let (place, content) = round.record(i);
        list.push(RoundPage { place, content })?;
    }
    Ok(())
}

// Adds the pages of a packet. A packet that names no block has none.
fn add_packet<'x, A: Allocator, C: Allocator>(
    list: &mut Vec<RoundPage<'x>, A>,
    table: &Table<C>,
    packet: &Packet<'x>,
) -> Result<(), NoMemory>
    requires page_size { packet.now.page_size ≡ table.now.page_size }
    requires lawful { place_fault table.now (fields packet.now) ≡ None }
    ensures { OnOk result (Adds table.now.page_size list.old.items list.new.items (packet_pages table.now (fields packet.now))) }
{
    let Some(block) = table.find(packet.id()) else {
        return Ok(());
    };
    add_normal(list, table, block, packet)?;
    add_zeros(list, table, block, packet)?;
    Ok(())
}

// Adds the pages that a packet brings with their contents.
fn add_normal<'x, A: Allocator, C: Allocator>(
    list: &mut Vec<RoundPage<'x>, A>,
    table: &Table<C>,
    block: usize,
    packet: &Packet<'x>,
) -> Result<(), NoMemory>
    requires page_size { packet.now.page_size ≡ table.now.page_size }
    ensures { OnOk result (Adds table.now.page_size list.old.items list.new.items (normal_pages table.now block (fields packet.now))) }
{
    let page_size = table.page_size();
    let normal_count = packet.normal_len();
    for i in 0..normal_count {
        let page = packet.offset(i) / page_size;
        list.push(RoundPage {
            place: Place { block, page },
            content: Some(packet.page(i)),
        })?;
    }
    Ok(())
}

// Adds the pages that a packet says to be zeros.
fn add_zeros<'x, A: Allocator, C: Allocator>(
    list: &mut Vec<RoundPage<'x>, A>,
    table: &Table<C>,
    block: usize,
    packet: &Packet<'x>,
) -> Result<(), NoMemory>
    requires page_size { packet.now.page_size ≡ table.now.page_size }
    ensures { OnOk result (Adds table.now.page_size list.old.items list.new.items (zero_pages table.now block (fields packet.now))) }
{
    let page_size = table.page_size();
    let normal_count = packet.normal_len();
    let zero_count = packet.zero_len();
    for i in 0..zero_count {
        let page = packet.offset(normal_count + i) / page_size;
        list.push(RoundPage {
            place: Place { block, page },
            content: None,
        })?;
    }
    Ok(())
}
