//! The parts of a packet that is taken at once: its head, and the contents of its pages, which
//! others read to their places.

ghost use Rattle.std.specs.Prelude.{ℕ, ◌≡◌, ◌+◌, ◌*◌, ◌<◌, ◌^◌, ◌++◌, List, length, IsTrue};
ghost use Rattle.mig_mem.specs.Lent.{lent_bytes};
ghost use Rattle.mig_packet.specs.Packet.{normal_count, is_sync};
ghost use Rattle.mig_packet.specs.Reading.{Settings};
ghost use Rattle.mig_packet.specs.Paging.{Gives, GivenSoFar};
ghost use Rattle.mig_packet.specs.NextHead.{IsNextHead};
ghost use Rattle.mig_in_place.specs.TakenPackets.{TakesParts, ArePages, packet_bytes};

use mig_packet::PageReader;
use std::alloc::Allocator;

/// Returns whether there are `count` contents, each of `page_size` bytes.
pub(crate) fn are_pages(contents: &[&[u8]], count: usize, page_size: u64) -> bool
    ensures { IsTrue result → ArePages page_size count (lent_bytes contents.now) }
{
    if contents.len() != count {
        return false;
    }
    for i in 0..contents.len() {
        if contents[i].len() as u64 != page_size {
            return false;
        }
    }
    true
}

/// Takes the parts of a packet, one after another. Returns whether it ends the round.
pub(crate) fn take_parts<A: Allocator>(
    reader: &mut PageReader<A>,
    head: &[u8],
    contents: &[&[u8]],
) -> bool
    requires next { IsNextHead head.now reader.old }
    requires pages { ArePages reader.old.given.page_size (normal_count head.now) (lent_bytes contents.now) }
    requires room { reader.old.fed + length head.now + length contents.now * reader.old.given.page_size < 2 ^ 64 }
    ensures parts { TakesParts head.now (lent_bytes contents.now) reader.old reader.new result }
    ensures gives { (given : Settings) (text : List ℕ) (so_far : GivenSoFar) → Gives given text so_far reader.old
        → (gave : GivenSoFar) × Gives given (text ++ packet_bytes head.now (lent_bytes contents.now)) gave reader.new }
    ensures fed { reader.new.fed ≡ reader.old.fed + length head.now + length contents.now * reader.old.given.page_size }
    ensures ended { reader.new.ended ≡ reader.old.ended }
    ensures sync { result ≡ is_sync head.now }
{
    reader.take_head(head);
    'pages: for i in 0..contents.len() {
        reader.take_page(contents[i]);
    }
    reader.end_taken()
}
