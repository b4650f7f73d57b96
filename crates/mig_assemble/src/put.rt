//! Writes pages into a memory, each over what was there, for `Target` and for loads that write
//! pages themselves. It allocates nothing and can't fail: its callers have judged the pages.

ghost use Rattle.std.specs.Prelude.{◌≡◌, None, All, map, length, IfSome};
ghost use Rattle.std.specs.Option.{option_copied, unwrap_or};
ghost use Rattle.mig_mem.specs.Place.{IsPlace};
ghost use Rattle.std.specs.List.{flat_map};
ghost use Rattle.mig_mem.specs.Image.{zero_page, with_page};
ghost use Rattle.mig_mem.specs.Round.{with_round};
ghost use Rattle.mig_packet.specs.Lent.{fields};
ghost use Rattle.mig_assemble.specs.Judging.{place_fault, packet_pages};
ghost use Rattle.mig_assemble.specs.Target.{pages_of_round, FitsTable};
ghost use Rattle.mig_assemble.specs.PacketPages.{normal_pages, zero_pages, LiesIn};
ghost use Rattle.mig_assemble.specs.HeadPlaces.{Lie};
ghost use Rattle.mig_assemble.specs.AtOnce.{head_of, packets_of, LieEach};

use crate::judge::Placed;
use crate::places::Pages;
use mig_mem::{GuestTarget, Place};
use mig_packet::Packet;
use mig_stream::StreamRound;
use std::alloc::Allocator;

/// Writes a round of page records into a memory, in the order of the stream, as `Target::section`
/// does. It counts nothing: it is for a load whose memory is passed to each call. The round must be
/// of that memory, as `Target::fits` tests.
pub fn put_records<M: GuestTarget, B: Allocator>(memory: &mut M, round: &StreamRound<B>)
    requires { FitsTable (M.image memory.old).table round.now }
    ensures image { M.image memory.new ≡ with_round (M.image memory.old) (pages_of_round round.now) }
    ensures kept { M.kept memory.new ≡ M.kept memory.old }
{
    // shows that each content of the memory has the page size (`IsImage`)
    let _table = memory.table();
    let count = round.len();
    for i in 0..count {
        let (place, content) = round.record(i);
        put_record(memory, place, content);
    }
}

// Writes the page of a record: its content, or zeros.
fn put_record<M: GuestTarget>(memory: &mut M, place: Place, content: Option<&[u8]>)
    requires place { IsPlace (M.image memory.old).table place }
    requires size { IfSome content (λ bytes. length bytes.now ≡ (M.image memory.old).table.page_size) }
    ensures kept { M.kept memory.new ≡ M.kept memory.old }
    ensures image { M.image memory.new ≡ with_page (M.image memory.old) place (unwrap_or (option_copied content.entry) (zero_page (M.image memory.old).table.page_size)) }
{
    match content {
        Some(bytes) => memory.put_page(place, bytes),
        None => memory.put_zero_page(place),
    }
}

/// Writes the pages of packets, packet after packet.
pub(crate) fn put_packets<M: GuestTarget>(memory: &mut M, placed: &[Placed<'_>])
    requires page_sizes { All (λ x. x.packet.page_size ≡ (M.image memory.old).table.page_size) placed.now }
    requires lie { LieEach (M.image memory.old).table placed.now }
    requires lawful { All (λ x. place_fault (M.image memory.old).table (fields x.packet) ≡ None) placed.now }
    ensures { M.image memory.new ≡ with_round (M.image memory.old) (flat_map (packet_pages (M.image memory.old).table) (map fields (packets_of placed.now))) }
{
    // shows that each content of the memory has the page size (`IsImage`)
    let _table = memory.table();
    for one in placed {
        put_packet(memory, one);
    }
}

// Writes the pages of a packet into the block where they are.
fn put_packet<M: GuestTarget>(memory: &mut M, placed: &Placed<'_>)
    requires page_size { placed.now.packet.page_size ≡ (M.image memory.old).table.page_size }
    requires lie { Lie (M.image memory.old).table (head_of placed.now.packet) placed.now.pages }
    requires lawful { place_fault (M.image memory.old).table (fields placed.now.packet) ≡ None }
    ensures { M.image memory.new ≡ with_round (M.image memory.old) (packet_pages (M.image memory.old).table (fields placed.now.packet)) }
{
    // a packet of a lawful round is in a block, or has no pages
    let Pages::In(block) = placed.pages else {
        // shows that each content of the memory has the page size (`IsImage`)
        let _table = memory.table();
        return;
    };
    put_normal(memory, block, &placed.packet);
    put_zeros(memory, block, &placed.packet);
}

// Writes the normal pages of a packet.
fn put_normal<M: GuestTarget>(memory: &mut M, block: usize, packet: &Packet<'_>)
    requires page_size { packet.now.page_size ≡ (M.image memory.old).table.page_size }
    requires lies { LiesIn (M.image memory.old).table block packet.now.bytes.now }
    ensures { M.image memory.new ≡ with_round (M.image memory.old) (normal_pages (M.image memory.old).table block (fields packet.now)) }
{
    let page_size = memory.table().page_size();
    let normal_count = packet.normal_len();
    for i in 0..normal_count {
        let place = Place {
            block,
            page: packet.offset(i) / page_size,
        };
        memory.put_page(place, packet.page(i));
    }
}

// Writes the zero pages of a packet.
fn put_zeros<M: GuestTarget>(memory: &mut M, block: usize, packet: &Packet<'_>)
    requires page_size { packet.now.page_size ≡ (M.image memory.old).table.page_size }
    requires lies { LiesIn (M.image memory.old).table block packet.now.bytes.now }
    ensures { M.image memory.new ≡ with_round (M.image memory.old) (zero_pages (M.image memory.old).table block (fields packet.now)) }
{
    let page_size = memory.table().page_size();
    let normal_count = packet.normal_len();
    let zero_count = packet.zero_len();
    for i in 0..zero_count {
        let place = Place {
            block,
            page: packet.offset(normal_count + i) / page_size,
        };
        memory.put_zero_page(place);
    }
}
