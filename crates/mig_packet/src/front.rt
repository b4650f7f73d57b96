//! Reads a hello or a packet at the beginning of bytes. `progress` calls it, the feeder of a relay,
//! and callers that have all bytes of a channel.

ghost use Rattle.std.specs.Prelude.{◌≡◌, ◌+◌, ◌*◌, ◌<◌, ◌≤◌, ◌++◌, ℕ, List, length, None};
ghost use Rattle.mig_packet.specs.declared.front.HelloRead.TheVariants as hello_read;
ghost use Rattle.mig_packet.specs.PageSize.{IsPageSize, head_len};
ghost use Rattle.mig_packet.specs.Faults.{first_of};
ghost use Rattle.mig_packet.specs.Hello.{IsHello, hello_len, hello_faults};
ghost use Rattle.mig_packet.specs.Packet.{Fields, IsPacket, packet_faults, normal_count};
ghost use Rattle.mig_packet.specs.Waiting.{packet_faults_within};
ghost use Rattle.mig_packet.specs.FrontRead.{ReadsHello, ReadsPacket, ReadsPacketWithin, FindsPacket};

use crate::ChannelFault;
use crate::fields::be32;
use crate::format::{HELLO_LEN, MULTIFD_FLAG_SYNC, MULTIFD_MAGIC, MULTIFD_VERSION};
use crate::packet::{Packet, head_len, is_over, page_limit, weight_of};
use uuid::Uuid;

/// The result of reading a hello at the beginning of bytes.
#[derive(Clone, Copy, Debug, PartialEq, Eq)]
pub enum HelloRead {
    /// A complete hello, with its channel id.
    Whole(u8),
    /// Fewer than 64 bytes (`HELLO_LEN`), which aren't tested yet.
    Cut,
    /// The hello's first fault.
    Bad(ChannelFault),
}

/// The result of reading a packet at the beginning of bytes.
#[derive(Clone, Copy, Debug)]
pub enum PacketRead<'a> {
    /// A complete packet, and how many bytes it has.
    Whole(Packet<'a>, usize),
    /// The head isn't there yet, or it has no fault and pages are missing.
    Cut,
    /// The first fault of the packet's head. It is returned once the head is there, even if pages
    /// are missing.
    Bad(ChannelFault),
}

/// Reads the hello at the beginning of `bytes`, of one of `channels` channels under `uuid`.
pub fn read_hello(bytes: &[u8], uuid: &Uuid, channels: usize) -> HelloRead
    ensures reads { ReadsHello uuid.now channels bytes.now result }
    ensures found { (front more : List ℕ) (id : ℕ) → bytes.now ≡ front ++ more → IsHello uuid.now id front → id < channels → result ≡ hello_read.Whole id }
{
    if bytes.len() < HELLO_LEN {
        return HelloRead::Cut;
    }
    match hello_fault(bytes, uuid, channels) {
        None => HelloRead::Whole(bytes[24]),
        Some(fault) => HelloRead::Bad(fault),
    }
}

/// Returns the first fault of a hello, if it has one.
pub(crate) fn hello_fault(bytes: &[u8], uuid: &Uuid, channels: usize) -> Option<ChannelFault>
    requires { hello_len ≤ length bytes.now }
    ensures { result ≡ first_of (hello_faults uuid.now channels bytes.now) }
{
    if be32(bytes, 0) != MULTIFD_MAGIC {
        return Some(ChannelFault::HelloMagic);
    }
    if be32(bytes, 4) != MULTIFD_VERSION {
        return Some(ChannelFault::HelloVersion);
    }
    let theirs = &bytes[8..24];
    if theirs != uuid.as_bytes().as_slice() {
        return Some(ChannelFault::HelloUuid);
    }
    if bytes[24] as usize >= channels {
        return Some(ChannelFault::HelloId);
    }
    None
}

/// Reads the packet at the beginning of `bytes`, whose pages have `page_size` bytes.
pub fn read_packet<'a>(page_size: u64, bytes: &'a [u8]) -> PacketRead<'a>
    requires { IsPageSize page_size }
    ensures reads { ReadsPacket page_size bytes.now result }
    ensures found { (front more : List ℕ) (said : Fields) → bytes.now ≡ front ++ more → IsPacket page_size front said → FindsPacket front said result }
{
    read_front(page_size, bytes)
}

fn read_front<'a>(page_size: u64, bytes: &'a [u8]) -> PacketRead<'a>
    requires { IsPageSize page_size }
    ensures { ReadsPacket page_size bytes.now result }
{
    if bytes.len() < head_len(page_size) {
        return PacketRead::Cut;
    }
    if let Some(fault) = head_fault(page_size, bytes) {
        return PacketRead::Bad(fault);
    }
    read_judged(page_size, bytes)
}

// Reads the packet whose head is at the beginning of `bytes` and has no fault.
fn read_judged<'a>(page_size: u64, bytes: &'a [u8]) -> PacketRead<'a>
    requires page_size { IsPageSize page_size }
    requires head { head_len page_size ≤ length bytes.now }
    requires faultless { first_of (packet_faults page_size bytes.now) ≡ None }
    ensures { ReadsPacket page_size bytes.now result }
{
    let len = packet_len(page_size, bytes);
    if bytes.len() < len {
        return PacketRead::Cut;
    }
    let bytes = &bytes[..len];
    PacketRead::Whole(Packet { page_size, bytes }, len)
}

/// Reads the packet at the beginning of `bytes` as `read_packet` does, where its round has room for
/// packets that count `room` together. One that counts more is the fault `Waiting`, which is judged
/// after all others. `None` is no limit.
pub fn read_packet_with<'a>(page_size: u64, room: Option<u64>, bytes: &'a [u8]) -> PacketRead<'a>
    requires { IsPageSize page_size }
    ensures { ReadsPacketWithin page_size room bytes.now result }
{
    if bytes.len() < head_len(page_size) {
        return PacketRead::Cut;
    }
    if let Some(fault) = head_fault_within(page_size, room, bytes) {
        return PacketRead::Bad(fault);
    }
    read_judged(page_size, bytes)
}

/// Returns the first fault of a packet's head, if it has one, where its round has `room` left.
pub(crate) fn head_fault_within(
    page_size: u64,
    room: Option<u64>,
    bytes: &[u8],
) -> Option<ChannelFault>
    requires page_size { IsPageSize page_size }
    requires head { head_len page_size ≤ length bytes.now }
    ensures { result ≡ first_of (packet_faults_within page_size room bytes.now) }
{
    if let Some(fault) = head_fault(page_size, bytes) {
        return Some(fault);
    }
    if is_over(room, weight_of(bytes)) {
        return Some(ChannelFault::Waiting);
    }
    None
}

/// Returns the first fault of a packet's head, if it has one.
pub(crate) fn head_fault(page_size: u64, bytes: &[u8]) -> Option<ChannelFault>
    requires page_size { IsPageSize page_size }
    requires head { head_len page_size ≤ length bytes.now }
    ensures { result ≡ first_of (packet_faults page_size bytes.now) }
{
    if be32(bytes, 0) != MULTIFD_MAGIC {
        return Some(ChannelFault::PacketMagic);
    }
    if be32(bytes, 4) != MULTIFD_VERSION {
        return Some(ChannelFault::PacketVersion);
    }
    let flags = be32(bytes, 8);
    if flags > MULTIFD_FLAG_SYNC {
        return Some(ChannelFault::PacketFlags(flags));
    }
    let normal = u64::from(be32(bytes, 16));
    let zero = u64::from(be32(bytes, 32));
    if normal + zero > page_limit(page_size) as u64 {
        return Some(ChannelFault::PageCount);
    }
    if normal != 0 && u64::from(be32(bytes, 20)) != normal * page_size {
        return Some(ChannelFault::PacketSize);
    }
    None
}

/// Returns how many bytes a packet has, by its head.
pub(crate) fn packet_len(page_size: u64, bytes: &[u8]) -> usize
    requires page_size { IsPageSize page_size }
    requires head { head_len page_size ≤ length bytes.now }
    ensures { result ≡ head_len page_size + normal_count bytes.now * page_size }
{
    head_len(page_size) + be32(bytes, 16) as usize * page_size as usize
}
