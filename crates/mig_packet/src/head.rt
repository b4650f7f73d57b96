//! The head of a packet, before its pages have arrived. A `PageReader` gives it first of each
//! packet.

ghost use Rattle.std.specs.Prelude.{◌≡◌, ◌+◌, ◌<◌};
ghost use Rattle.mig_packet.specs.PageSize.{IsPageSize, IsPageSize-prop};
ghost use Rattle.mig_packet.specs.Packet.{number_in, is_sync, id_in, normal_count, zero_count, offset_at};
ghost use Rattle.mig_packet.specs.PacketHead.{IsPacketHead};

use crate::packet::{id_of, normal_count_of, number_of, offset_of, sync_of, zero_count_of};

/// The head of one packet: QEMU's `MultiFDPacket_t` without the contents of its pages. It borrows
/// its bytes, and copies none of them.
#[derive(Clone, Copy, Debug)]
pub struct PacketHead<'a> {
    pub(crate) page_size: u64,
    pub(crate) bytes: &'a [u8],
    pub ghost has_page_size: { IsPageSize page_size } by { IsPageSize-prop page_size },
    pub ghost is_head: { IsPacketHead page_size bytes.now },
}

impl<'a> PacketHead<'a> {
    /// Returns the number of bytes of a page.
    pub fn page_size(&self) -> u64
        ensures value { result ≡ self.now.page_size }
        ensures page_size { IsPageSize result }
    {
        self.page_size
    }

    /// Returns the packet's number. One counter numbers the packets of all channels.
    pub fn number(&self) -> u64
        ensures { result ≡ number_in self.now.bytes.now }
    {
        number_of(self.bytes)
    }

    /// Returns whether the packet ends its channel's round: `MULTIFD_FLAG_SYNC`.
    pub fn sync(&self) -> bool
        ensures { result ≡ is_sync self.now.bytes.now }
    {
        sync_of(self.bytes)
    }

    /// Returns the id of the block of its pages. It may be any bytes but 0. The id of a packet
    /// without pages has no meaning.
    pub fn id(&self) -> &'a [u8]
        ensures { result.now ≡ id_in self.now.bytes.now }
    {
        id_of(self.bytes)
    }

    /// Returns the number of its pages that have their contents in the packet.
    pub fn normal_len(&self) -> usize
        ensures { result ≡ normal_count self.now.bytes.now }
    {
        normal_count_of(self.bytes)
    }

    /// Returns how many of its pages are zeros.
    pub fn zero_len(&self) -> usize
        ensures { result ≡ zero_count self.now.bytes.now }
    {
        zero_count_of(self.bytes)
    }

    /// Returns the offset of page `i` in its block, in bytes. The normal pages are first, then the
    /// zero pages. It may be any number.
    pub fn offset(&self, i: usize) -> u64
        requires { i < normal_count self.now.bytes.now + zero_count self.now.bytes.now }
        ensures { result ≡ offset_at self.now.bytes.now i }
    {
        offset_of(self.bytes, i)
    }
}
