//! The rounds of a channel: their packets. `Progress` fills them, and a session gathers the packets
//! of each.

ghost use Rattle.std.specs.Prelude.{◌≡◌, ◌++◌, [], ◌∷◌, length, take, map, All, slice_get, IfOk, IfErr, OnOk, OnErr};
ghost use Rattle.mig_packet.specs.Reader.{IsPacketRound};
ghost use Rattle.mig_packet.specs.Waiting.{room_after};

use crate::NoMemory;
use crate::packet::{Packet, less_room, weight_of};
use std::alloc::{AllocFailed, Allocator, Global};
use std::fmt;
use std::marker::Model;

/// The bytes of a packet, in memory of its own.
#[derive(Drop)]
pub(crate) struct PacketText<A: Allocator> {
    pub(crate) bytes: Vec<u8, A>,
}

impl<A: Allocator> Model for PacketText<A> {
    ghost use Rattle.std.specs.Prelude.{ℕ, List};

    ghost Value = { List ℕ };

    ghost view = { λ p. p.bytes.items };
}

impl<A: Allocator> PacketText<A> {
    /// Copies `bytes`.
    pub(crate) fn copied(alloc: A, bytes: &[u8]) -> Result<PacketText<A>, NoMemory>
        ensures { IfOk result (λ p. p ≡ bytes.now) }
    {
        Ok(PacketText {
            bytes: Vec::from_slice(alloc, bytes)?,
        })
    }

    /// Takes `bytes` themselves, which aren't copied.
    pub(crate) fn of(bytes: Vec<u8, A>) -> PacketText<A>
        ensures { result ≡ bytes.items }
    {
        PacketText { bytes }
    }

    pub(crate) fn into_bytes(self) -> Vec<u8, A>
        ensures { result.items ≡ self }
    {
        let PacketText { bytes } = self;
        bytes
    }

    pub(crate) fn as_slice(&self) -> &[u8]
        ensures { result.now ≡ self.now }
    {
        self.bytes.as_slice()
    }
}

/// Packets, one after another.
pub(crate) struct Packets<A: Allocator> {
    items: Vec<PacketText<A>, A>,
}

// Written out, so that a caller's proof passes a call where a value is dropped.
impl<A: Allocator> Drop for Packets<A> {
    fn drop(self) {
        let Packets { items: _ } = self;
    }
}

impl<A: Allocator> Model for Packets<A> {
    ghost use Rattle.std.specs.Prelude.{ℕ, List};

    ghost Value = { List (List ℕ) };

    ghost view = { λ p. p.items.items };
}

impl<A: Allocator> Packets<A> {
    pub(crate) fn new(alloc: A) -> Packets<A>
        ensures { result ≡ [] }
    {
        Packets {
            items: Vec::new(alloc),
        }
    }

    pub(crate) fn len(&self) -> usize
        ensures { result ≡ length self.now }
    {
        self.items.len()
    }

    /// Adds a packet, whose bytes it keeps where they are. An `Err` changes nothing, and returns
    /// the packet.
    pub(crate) fn push(&mut self, packet: PacketText<A>) -> Result<(), PacketText<A>>
        ensures ok { OnOk result (self.new ≡ self.old ++ packet ∷ []) }
        ensures err { OnErr result (self.new ≡ self.old) }
        ensures back { IfErr result (λ p. p ≡ packet) }
    {
        match self.items.push(packet) {
            Ok(()) => Ok(()),
            Err(AllocFailed { value }) => Err(value),
        }
    }

    /// Keeps the first `n` packets alone, and returns the first one after them.
    pub(crate) fn cut(&mut self, n: usize) -> Option<PacketText<A>>
        ensures kept { self.new ≡ take n self.old }
        ensures first { result ≡ slice_get self.old n }
    {
        if n >= self.items.len() {
            return None;
        }
        self.items.truncate(n + 1);
        self.items.pop()
    }
}

impl<A: Allocator> Packets<A> {
    /// Returns what is left of `waiting` after the packets. None is no limit.
    pub(crate) fn room_after(&self, page_size: u64, waiting: Option<u64>) -> Option<u64>
        requires { IsPacketRound page_size self.now }
        ensures { result ≡ room_after waiting self.now }
    {
        let mut room = waiting;
        for text in &self.items {
            room = less_room(room, weight_of(text.as_slice()));
        }
        room
    }
}

impl<A: Allocator + Copy> Packets<A> {
    // Returns the packets, which borrow these bytes.
    fn lend(&self, page_size: u64) -> Result<Vec<Packet<'_>, A>, NoMemory>
        requires { IsPacketRound page_size self.now }
        ensures texts { IfOk result (λ v. map (λ p. p.bytes.now) v.items ≡ self.now) }
        ensures page_sizes { IfOk result (λ v. All (λ p. p.page_size ≡ page_size) v.items) }
    {
        let mut packets = Vec::with_capacity(*self.items.allocator(), self.items.len())?;
        for text in &self.items {
            packets.push(Packet {
                page_size,
                bytes: text.as_slice(),
            })?;
        }
        Ok(packets)
    }
}

/// A complete round of a channel: the packets up to and with a SYNC packet, in the order of the
/// channel.
pub struct PacketRound<A: Allocator = Global> {
    page_size: u64,
    packets: Packets<A>,
}

// Written out, so that a caller's proof passes a call where a value is dropped.
impl<A: Allocator> Drop for PacketRound<A> {
    fn drop(self) {
        let PacketRound {
            page_size: _,
            packets: _,
        } = self;
    }
}

impl<A: Allocator> Model for PacketRound<A> {
    ghost use Rattle.mig_packet.specs.Reader.{RoundOfPackets, IsPacketRound};

    ghost Value = { RoundOfPackets };

    ghost view = { λ r. record { page_size = r.page_size; packets = r.packets } };

    ghost invariant = { λ r. IsPacketRound r.page_size r.packets };
}

// Guest memory isn't printed.
impl<A: Allocator> fmt::Debug for PacketRound<A> {
    fn fmt<W: fmt::Write>(&self, f: &mut fmt::Formatter<W>) -> fmt::Result {
        f.pad("PacketRound { .. }")
    }
}

impl<A: Allocator> PacketRound<A> {
    pub(crate) fn new(page_size: u64, packets: Packets<A>) -> PacketRound<A>
        requires { IsPacketRound page_size packets }
        ensures { result ≡ record { page_size = page_size; packets = packets } }
    {
        PacketRound { page_size, packets }
    }
}

impl<A: Allocator + Copy> PacketRound<A> {
    /// Returns the packets. They borrow the round's bytes, and copy none.
    ///
    /// # Errors
    ///
    /// `NoMemory`: the list of packets could not be allocated.
    pub fn packets(&self) -> Result<Vec<Packet<'_>, A>, NoMemory>
        ensures texts { IfOk result (λ v. map (λ p. p.bytes.now) v.items ≡ self.now.packets) }
        ensures page_sizes { IfOk result (λ v. All (λ p. p.page_size ≡ self.now.page_size) v.items) }
    {
        self.packets.lend(self.page_size)
    }
}
