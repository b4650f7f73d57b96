//! The pages of a packet that a load claimed, as C sees them.

ghost use Rattle.std.specs.Prelude.{◌≡◌, ◌≢◌, ◌+◌, ◌≤◌};
ghost use Rattle.mig_packet.specs.Packet.{normal_count, zero_count};
ghost use Rattle.mig_c_loads.specs.Apart.{ListsPacket};

use mig_packet::PacketHead;

/// The pages of one packet, which C reads to their places.
#[repr(C)]
#[derive(Clone, Copy)]
pub struct ClaimedPages {
    /// The number of the block that all of them are of.
    pub block: usize,
    /// How many of them have their contents in the packet.
    pub normal: usize,
    /// How many are zeros, and have no contents in the packet.
    pub zero: usize,
    /// Their numbers in the block, first those with contents. The elements after the first
    /// `normal + zero` name no page.
    pub pages: [u64; 128],
}

// Returns how many pages a packet has.
fn count(head: &PacketHead<'_>) -> usize
    ensures count { result ≡ normal_count head.now.bytes.now + zero_count head.now.bytes.now }
    ensures few { result ≤ 128 }
{
    // the page size bounds the pages of a packet
    head.page_size();
    head.normal_len() + head.zero_len()
}

/// Writes the pages of a packet in a block to `seen`.
pub(crate) fn list_packet(
    head: &PacketHead<'_>,
    page_size: u64,
    block: usize,
    seen: &mut ClaimedPages,
)
    requires { page_size ≢ 0 }
    ensures { ListsPacket page_size block head.now.bytes.now seen.new }
{
    let count = count(head);
    seen.block = block;
    seen.normal = head.normal_len();
    seen.zero = head.zero_len();
    'pages: for i in 0..count {
        seen.pages[i] = head.offset(i) / page_size;
    }
}
