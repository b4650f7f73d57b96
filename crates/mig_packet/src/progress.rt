//! How far a channel has been read, and the loop over its items. `ChannelReader` keeps one.

ghost use Rattle.std.specs.Prelude.{◌≡◌, ◌≢◌, ◌≤◌, ◌<◌, [], ◌∷◌, List, ℕ, None, slice_get, length, IsTrue, IsFalse, IfOk, IfErr, IfSome, IfNone, OnOk, OnErr};
ghost use Rattle.mig_packet.specs.PageSize.{IsPageSize};
ghost use Rattle.mig_packet.specs.Packet.{IsPacketText};
ghost use Rattle.mig_packet.specs.Progress.{ChannelProgress, start, judged_len, item_len, first_fault, after, after_packet};
ghost use Rattle.mig_packet.specs.Reading.{IsItem, Reads};
ghost use Rattle.mig_packet.specs.Taking.{HasTaken};
ghost use Rattle.mig_packet.specs.Later.{checkpoint_of, IsLater, reopened};
ghost use Rattle.mig_packet.specs.Reader.{with_taken};

use crate::fields::be32;
use crate::format::{HELLO_LEN, MULTIFD_FLAG_SYNC};
use crate::front::{head_fault_within, hello_fault, packet_len};
use crate::packet::{head_len, less_room, weight_of};
use crate::round::{PacketRound, PacketText, Packets};
use crate::{ChannelFault, ChannelState, NoMemory};
use std::alloc::Allocator;
use std::collections::VecDeque;
use std::marker::Model;
use std::mem;
use uuid::Uuid;

/// How far a channel has been read.
pub(crate) struct Progress<A: Allocator> {
    alloc: A,
    page_size: u64,
    uuid: Uuid,
    channels: usize,
    // the most that may wait in a round, and what the open one has left of it: None is no limit
    waiting: Option<u64>,
    room: Option<u64>,
    hello: Option<u8>,
    // the packets of the open round, and the complete rounds that were not taken
    packets: Packets<A>,
    rounds: VecDeque<Packets<A>, A>,
}

// Written out, so that a caller's proof passes a call where a value is dropped.
impl<A: Allocator> Drop for Progress<A> {
    fn drop(self) {
        let Progress {
            alloc: _,
            page_size: _,
            uuid: _,
            channels: _,
            waiting: _,
            room: _,
            hello: _,
            packets: _,
            rounds: _,
        } = self;
    }
}

impl<A: Allocator> Model for Progress<A> {
    ghost use Rattle.std.specs.Prelude.{◌≡◌};
    ghost use Rattle.mig_packet.specs.Waiting.{room_after};
    ghost use Rattle.mig_packet.specs.Progress.{ChannelProgress, ArePackets};

    ghost Value = { ChannelProgress };

    ghost view = { λ c. record {
      page_size = c.page_size;
      uuid = c.uuid;
      channels = c.channels;
      waiting = c.waiting;
      hello = c.hello;
      packets = c.packets;
      rounds = c.rounds.items;
    } };

    ghost invariant = { λ c. ArePackets c.page_size c.packets c.rounds.items × (c.room ≡ room_after c.waiting c.packets) };
}

/// How far a channel had been read, to go back to. The lists of the progress only grow.
#[derive(Clone, Copy)]
pub(crate) struct Checkpoint {
    hello: Option<u8>,
    packets: usize,
    rounds: usize,
}

impl<A: Allocator + Copy> Progress<A> {
    /// Creates the progress of a channel before its first byte.
    pub(crate) fn new(
        alloc: A,
        page_size: u64,
        uuid: Uuid,
        channels: usize,
        waiting: Option<u64>,
    ) -> Progress<A>
        requires { IsPageSize page_size }
        ensures { result ≡ start page_size uuid channels waiting }
    {
        Progress {
            alloc,
            page_size,
            uuid,
            channels,
            waiting,
            room: waiting,
            hello: None,
            packets: Packets::new(alloc),
            rounds: VecDeque::new(alloc),
        }
    }

    /// Returns an empty buffer for bytes of this channel.
    pub(crate) fn buffer(&self) -> Vec<u8, A>
        ensures { result.items ≡ [] }
    {
        Vec::new(self.alloc)
    }

    /// Takes the next item, and copies what it keeps of it. An `Err` changes nothing.
    pub(crate) fn take(&mut self, item: &[u8]) -> Result<(), NoMemory>
        requires whole { IsItem self.old.page_size self.old.hello item.now }
        requires faultless { first_fault self.old item.now ≡ None }
        ensures ok { OnOk result (self.new ≡ after self.old item.now) }
        ensures err { OnErr result (self.new ≡ self.old) }
    {
        if self.hello.is_none() {
            self.hello = Some(item[24]);
            return Ok(());
        }
        let packet = PacketText::copied(self.alloc, item)?;
        match self.take_packet(packet) {
            Ok(()) => Ok(()),
            Err(_) => Err(NoMemory),
        }
    }

    /// Takes the next packet, whose bytes it keeps where they are. An `Err` changes nothing, and
    /// returns the packet.
    pub(crate) fn take_packet(&mut self, packet: PacketText<A>) -> Result<(), PacketText<A>>
        requires { IsPacketText self.old.page_size packet }
        ensures ok { OnOk result (self.new ≡ after_packet self.old packet) }
        ensures err { OnErr result (self.new ≡ self.old) }
        ensures back { IfErr result (λ p. p ≡ packet) }
    {
        let room = less_room(self.room, weight_of(packet.as_slice()));
        if be32(packet.as_slice(), 8) != MULTIFD_FLAG_SYNC {
            self.packets.push(packet)?;
            self.room = room;
            return Ok(());
        }
        if self.rounds.reserve(1).is_err() {
            return Err(packet);
        }
        self.packets.push(packet)?;
        let round = mem::replace(&mut self.packets, Packets::new(self.alloc));
        self.rounds.push_back(round).unwrap();
        self.room = self.waiting;
        Ok(())
    }

    /// Takes items from the beginning of `bytes`, as long as they are complete and without a fault.
    /// Returns the bytes that are left, and their state. After an `Err` some items were taken.
    pub(crate) fn run<'a>(&mut self, bytes: &'a [u8]) -> Result<(&'a [u8], ChannelState), NoMemory>
        ensures ok { IfOk result (λ r. Reads self.old bytes.now self.new r.0.now r.1) }
        ensures err { OnErr result (HasTaken self.old bytes.now self.new) }
    {
        let mut rest = bytes;
        'items: while rest.len() >= self.judged_len() {
            if let Some(fault) = self.fault(rest) {
                return Ok((rest, ChannelState::Bad(fault)));
            }
            let len = self.item_len(rest);
            if rest.len() < len {
                return Ok((rest, ChannelState::Reading));
            }
            let (item, behind) = rest.split_at(len);
            self.take(item)?;
            rest = behind;
        }
        Ok((rest, ChannelState::Reading))
    }
}

impl<A: Allocator> Progress<A> {
    /// Returns the id in the hello.
    pub(crate) fn hello(&self) -> Option<u8>
        ensures { result ≡ self.now.hello }
    {
        self.hello
    }

    /// Returns whether the open round has packets.
    pub(crate) fn has_packets(&self) -> bool
        ensures none { IsFalse result → self.now.packets ≡ [] }
        ensures some { IsTrue result → self.now.packets ≢ [] }
    {
        self.packets.len() != 0
    }

    /// Returns with how many bytes the next item is tested.
    pub(crate) fn judged_len(&self) -> usize
        ensures len { result ≡ judged_len self.now.page_size self.now.hello }
        ensures page_size { IsPageSize self.now.page_size }
    {
        match self.hello {
            None => HELLO_LEN,
            Some(_) => head_len(self.page_size),
        }
    }

    /// Returns the first fault of the next item, if it has one.
    pub(crate) fn fault(&self, bytes: &[u8]) -> Option<ChannelFault>
        requires { judged_len self.now.page_size self.now.hello ≤ length bytes.now }
        ensures { result ≡ first_fault self.now bytes.now }
    {
        match self.hello {
            None => hello_fault(bytes, &self.uuid, self.channels),
            Some(_) => head_fault_within(self.page_size, self.room, bytes),
        }
    }

    /// Returns how many bytes the next item has, by its first bytes.
    pub(crate) fn item_len(&self, bytes: &[u8]) -> usize
        requires { judged_len self.now.page_size self.now.hello ≤ length bytes.now }
        ensures { result ≡ item_len self.now.page_size self.now.hello bytes.now }
    {
        match self.hello {
            None => HELLO_LEN,
            Some(_) => packet_len(self.page_size, bytes),
        }
    }

    /// Returns how many bytes to reserve for an item that isn't complete: its length, if its first
    /// bytes have it.
    pub(crate) fn room(&self, bytes: &[u8]) -> usize
        ensures judged { length bytes.now < judged_len self.now.page_size self.now.hello → result ≡ judged_len self.now.page_size self.now.hello }
        ensures whole { judged_len self.now.page_size self.now.hello ≤ length bytes.now → result ≡ item_len self.now.page_size self.now.hello bytes.now }
    {
        let judged = self.judged_len();
        if bytes.len() < judged {
            return judged;
        }
        self.item_len(bytes)
    }

    /// Takes the first complete round that was not taken.
    pub(crate) fn take_round(&mut self) -> Option<PacketRound<A>>
        ensures none { IfNone result ((self.old.rounds ≡ []) × (self.new ≡ self.old)) }
        ensures some { IfSome result (λ r. self.old ≡ with_taken (r.packets ∷ []) self.new) }
        ensures page_size { IfSome result (λ r. r.page_size ≡ self.old.page_size) }
    {
        match self.rounds.pop_front() {
            Some(packets) => Some(PacketRound::new(self.page_size, packets)),
            None => None,
        }
    }

    /// Returns a checkpoint of how far the channel was read.
    pub(crate) fn checkpoint(&self) -> Checkpoint
        ensures { result ≡ checkpoint_of self.now }
    {
        Checkpoint {
            hello: self.hello,
            packets: self.packets.len(),
            rounds: self.rounds.len(),
        }
    }

    /// Goes back to where `checkpoint` was made. Returns the first of the packets that had
    /// followed.
    pub(crate) fn undo(&mut self, checkpoint: Checkpoint) -> Option<PacketText<A>>
        ensures back { (c : ChannelProgress) (more : List (List ℕ)) → checkpoint ≡ checkpoint_of c → IsLater c more self.old → self.new ≡ c }
        ensures first { (c : ChannelProgress) (more : List (List ℕ)) → checkpoint ≡ checkpoint_of c → IsLater c more self.old → result ≡ slice_get more 0 }
    {
        self.hello = checkpoint.hello;
        self.reopen(checkpoint.rounds);
        let first = self.packets.cut(checkpoint.packets);
        self.room = self.packets.room_after(self.page_size, self.waiting);
        first
    }

    // Drops the complete rounds from number `n` on. The first of them is open again.
    fn reopen(&mut self, n: usize)
        ensures whole { n < length self.old.rounds → self.new ≡ reopened self.old n }
        ensures open { length self.old.rounds ≤ n → self.new ≡ self.old }
    {
        if let Some(round) = self.rounds.remove(n) {
            self.packets = round;
            self.rounds.truncate(n);
            self.room = self.packets.room_after(self.page_size, self.waiting);
        }
    }
}
