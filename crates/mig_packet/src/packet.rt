//! A packet, in bytes that its reader owns. Readers and relays give packets, and `Target` applies
//! them.

ghost use Rattle.std.specs.Prelude.{◌≡◌, ◌+◌, ◌*◌, ◌<◌, ◌≤◌, ◌==◌, length, take};
ghost use Rattle.std.specs.List.{before_first, position};
ghost use Rattle.mig_packet.specs.PageSize.{IsPageSize, IsPageSize-prop, page_limit, head_len};
ghost use Rattle.mig_packet.specs.Packet.{IsPacketText, number_in, is_sync, id_in, normal_count, zero_count, offset_at, content_at};
ghost use Rattle.mig_packet.specs.Waiting.{weight, is_over, less_room, next_room};

use crate::PacketHead;
use crate::fields::{be32, be64};
use crate::format::{FIELDS_LEN, MULTIFD_FLAG_SYNC, MULTIFD_PACKET_SIZE};
use std::fmt;

/// One packet: QEMU's `MultiFDPacket_t` and its pages after it. It borrows its bytes, and copies
/// none of them.
#[derive(Clone, Copy)]
pub struct Packet<'a> {
    pub(crate) page_size: u64,
    pub(crate) bytes: &'a [u8],
    pub ghost has_page_size: { IsPageSize page_size } by { IsPageSize-prop page_size },
    pub ghost is_packet: { IsPacketText page_size bytes.now },
}

// Guest memory isn't printed.
impl fmt::Debug for Packet<'_> {
    fn fmt<W: fmt::Write>(&self, f: &mut fmt::Formatter<W>) -> fmt::Result {
        f.pad("Packet { .. }")
    }
}

impl<'a> Packet<'a> {
    /// Returns the number of bytes of a page.
    pub fn page_size(&self) -> u64
        ensures value { result ≡ self.now.page_size }
        ensures page_size { IsPageSize result }
    {
        self.page_size
    }

    /// Returns the packet's head: its bytes before the contents of its pages.
    pub fn head(&self) -> PacketHead<'a>
        ensures page_size { result.page_size ≡ self.now.page_size }
        ensures bytes { result.bytes.now ≡ take (head_len self.now.page_size) self.now.bytes.now }
    {
        PacketHead {
            page_size: self.page_size,
            bytes: &self.bytes[..head_len(self.page_size)],
        }
    }

    /// Returns the packet's number. One counter numbers the packets of all channels.
    pub fn number(&self) -> u64
        ensures { result ≡ number_in self.now.bytes.now }
    {
        number_of(self.bytes)
    }

    /// Returns whether the packet ends its channel's round: `MULTIFD_FLAG_SYNC`.
    pub fn sync(&self) -> bool
        ensures { result ≡ is_sync self.now.bytes.now }
    {
        sync_of(self.bytes)
    }

    /// Returns the id of the block of its pages. It may be any bytes but 0. The id of a packet
    /// without pages has no meaning.
    pub fn id(&self) -> &'a [u8]
        ensures { result.now ≡ id_in self.now.bytes.now }
    {
        id_of(self.bytes)
    }

    /// Returns the number of its pages that have their contents in the packet.
    pub fn normal_len(&self) -> usize
        ensures { result ≡ normal_count self.now.bytes.now }
    {
        normal_count_of(self.bytes)
    }

    /// Returns how many of its pages are zeros.
    pub fn zero_len(&self) -> usize
        ensures { result ≡ zero_count self.now.bytes.now }
    {
        zero_count_of(self.bytes)
    }

    /// Returns the room that is left after the packet, if `waiting` may wait in a round and the
    /// packet's round has `room` left. The packet counts one, and each of its pages counts one. A
    /// SYNC packet ends its round, so the next one has room for `waiting`. `None` is no limit.
    pub fn next_room(&self, waiting: Option<u64>, room: Option<u64>) -> Option<u64>
        ensures { result ≡ next_room waiting room self.now.bytes.now }
    {
        next_room(waiting, room, self.bytes)
    }

    /// Returns the offset of page `i` in its block, in bytes. The normal pages are first, then the
    /// zero pages. It may be any number.
    pub fn offset(&self, i: usize) -> u64
        requires { i < normal_count self.now.bytes.now + zero_count self.now.bytes.now }
        ensures { result ≡ offset_at self.now.bytes.now i }
    {
        offset_of(self.bytes, i)
    }

    /// Returns the content of normal page `i`.
    pub fn page(&self, i: usize) -> &'a [u8]
        requires { i < normal_count self.now.bytes.now }
        ensures content { result.now ≡ content_at self.now.page_size self.now.bytes.now i }
        ensures size { length result.now ≡ self.now.page_size }
    {
        let size = self.page_size as usize;
        let from = head_len(self.page_size) + i * size;
        &self.bytes[from..from + size]
    }
}

// ---- the fields of a head, for `Packet`, `PacketHead` and the readers

/// Returns the number of a packet.
pub(crate) fn number_of(head: &[u8]) -> u64
    requires { 320 ≤ length head.now }
    ensures { result ≡ number_in head.now }
{
    be64(head, 24)
}

/// Returns whether a packet ends its channel's round.
pub(crate) fn sync_of(head: &[u8]) -> bool
    requires { 320 ≤ length head.now }
    ensures { result ≡ is_sync head.now }
{
    be32(head, 8) == MULTIFD_FLAG_SYNC
}

/// Returns the id of the block that a packet's pages are of.
pub(crate) fn id_of(head: &[u8]) -> &[u8]
    requires { 320 ≤ length head.now }
    ensures { result.now ≡ id_in head.now }
{
    up_to_zero(&head[64..319])
}

/// Returns the number of a packet's pages with contents.
pub(crate) fn normal_count_of(head: &[u8]) -> usize
    requires { 320 ≤ length head.now }
    ensures { result ≡ normal_count head.now }
{
    be32(head, 16) as usize
}

/// Returns the number of a packet's pages of zeros.
pub(crate) fn zero_count_of(head: &[u8]) -> usize
    requires { 320 ≤ length head.now }
    ensures { result ≡ zero_count head.now }
{
    be32(head, 32) as usize
}

/// Returns the offset of a packet's page `i`.
pub(crate) fn offset_of(head: &[u8], i: usize) -> u64
    requires { 328 + 8 * i ≤ length head.now }
    ensures { result ≡ offset_at head.now i }
{
    be64(head, FIELDS_LEN + 8 * i)
}

/// Returns how much a packet counts of what may wait: one for itself, and one for each of its
/// pages.
pub(crate) fn weight_of(head: &[u8]) -> u64
    requires { 320 ≤ length head.now }
    ensures { result ≡ weight head.now }
{
    1 + u64::from(be32(head, 16)) + u64::from(be32(head, 32))
}

// Returns the bytes before the first byte 0, or all.
fn up_to_zero(name: &[u8]) -> &[u8]
    ensures { result.now ≡ before_first (λ byte. byte == 0) name.now }
{
    match zero_at(name) {
        Some(len) => &name[..len],
        None => name,
    }
}

fn zero_at(name: &[u8]) -> Option<usize>
    ensures { result ≡ position (λ byte. byte == 0) name.now }
{
    name.iter().position(|byte| *byte == 0)
}

/// Returns what there is room for after a packet, where its round has `room` left.
pub(crate) fn next_room(waiting: Option<u64>, room: Option<u64>, head: &[u8]) -> Option<u64>
    requires { 320 ≤ length head.now }
    ensures { result ≡ next_room waiting room head.now }
{
    if sync_of(head) {
        return waiting;
    }
    less_room(room, weight_of(head))
}

/// Returns what is left of `room` after a packet that counts `weight`. None is no limit.
pub(crate) fn less_room(room: Option<u64>, weight: u64) -> Option<u64>
    ensures { result ≡ less_room room weight }
{
    match room {
        Some(room) => Some(room.saturating_sub(weight)),
        None => None,
    }
}

/// Returns whether a packet that counts `weight` has no room.
pub(crate) fn is_over(room: Option<u64>, weight: u64) -> bool
    ensures { result ≡ is_over room weight }
{
    match room {
        Some(room) => room < weight,
        None => false,
    }
}

/// Returns how many pages a packet may have. A packet always has as many offsets.
pub fn page_limit(page_size: u64) -> usize
    requires { IsPageSize page_size }
    ensures { result ≡ page_limit page_size }
{
    (MULTIFD_PACKET_SIZE / page_size) as usize
}

/// Returns how many bytes a packet has before its pages.
pub fn head_len(page_size: u64) -> usize
    requires { IsPageSize page_size }
    ensures { result ≡ head_len page_size }
{
    FIELDS_LEN + 8 * page_limit(page_size)
}
