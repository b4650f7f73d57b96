//! Writes the pages of zeros of a packet as soon as its head has arrived.

ghost use Rattle.std.specs.Prelude.{◌≡◌};
ghost use Rattle.mig_mem.specs.Round.{with_round};
ghost use Rattle.mig_packet.specs.Packet.{fields_of};
ghost use Rattle.mig_assemble.specs.PacketPages.{zero_pages, LiesIn};

use mig_mem::{GuestTarget, Place};
use mig_packet::PacketHead;

/// Writes the pages of zeros of a packet into block `block`.
pub(crate) fn put_zeros<M: GuestTarget>(memory: &mut M, block: usize, head: &PacketHead<'_>)
    requires page_size { head.now.page_size ≡ (M.image memory.old).table.page_size }
    requires lies { LiesIn (M.image memory.old).table block head.now.bytes.now }
    ensures kept { M.kept memory.new ≡ M.kept memory.old }
    ensures image { M.image memory.new ≡ with_round (M.image memory.old) (zero_pages (M.image memory.old).table block (fields_of head.now.page_size head.now.bytes.now)) }
{
    let page_size = memory.table().page_size();
    let normal_count = head.normal_len();
    let zero_count = head.zero_len();
    for i in 0..zero_count {
        let place = Place {
            block,
            page: head.offset(normal_count + i) / page_size,
        };
        memory.put_zero_page(place);
    }
}
