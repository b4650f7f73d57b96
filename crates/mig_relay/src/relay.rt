//! A relay: a queue for each channel of a load, between a feeder and the one collector.
//! `load_multi` starts one, and `load_relayed` takes from it.

ghost use Rattle.std.specs.Prelude.{◌≡◌, ◌<◌, ◌≤◌, false, [], map, length, slice_get, All, IfOk, IfSome, OnErr};
ghost use Rattle.mig_packet.specs.PageSize.{IsPageSize};
ghost use Rattle.mig_packet.specs.Reading.{settings, with_waiting};
ghost use Rattle.mig_relay.specs.RelayItems.{as_channel_item, BeginsItems, IsOfPageSize};
ghost use Rattle.mig_relay.specs.Cursor.{text_of};
ghost use Rattle.mig_relay.specs.Relay.{at_start, so_far, TakesAt};
ghost use Rattle.mig_relay.specs.Relayed.{IsRelay};

use crate::channel::Channel;
use crate::cursor::Cursor;
use crate::feeder::Feeder;
use crate::item::Item;
use crate::queue::queue_for;
use mig_mem::NoMemory;
use std::alloc::{Allocator, Global};
use std::fmt::{self, Debug, Formatter};
use std::marker::Model;
use std::sync::Wait;
use uuid::Uuid;

/// The items of all channels, in the order of each channel. Contracts see each channel's queue, its
/// bytes, and the items that were taken from it.
pub struct Collector<'a, A: Allocator = Global> {
    channels: Vec<Channel<'a, A>, A>,
}

// Written out, so that a caller's proof passes a call where a value is dropped.
impl<'a, A: Allocator> Drop for Collector<'a, A> {
    fn drop(self) {
        let Collector { channels: _ } = self;
    }
}

impl<'a, A: Allocator> Model for Collector<'a, A> {
    ghost use Rattle.std.specs.Prelude.{List};
    ghost use Rattle.mig_relay.specs.RelayItems.{QueueEnd};

    ghost Value = { List QueueEnd };

    ghost view = { λ a. a.channels.items };

    ghost use Rattle.mig_relay.specs.Relayed.{IsRelay};

    ghost invariant = { λ a. IsRelay a.channels.items };
}

/// Prints an opaque value: its items borrow guest memory.
impl<'a, A: Allocator> Debug for Collector<'a, A> {
    fn fmt<W: fmt::Write>(&self, f: &mut Formatter<W>) -> fmt::Result {
        f.write_str("Collector { .. }")
    }
}

/// Creates feeders and their collector.
#[derive(Debug)]
pub struct Relay;

impl Relay {
    /// Creates a feeder for each complete channel of `texts`, and the collector of their items. The
    /// pages of packets have `page_size` bytes, and hellos name `uuid`. Each channel has a queue of
    /// its own, which holds up to `capacity` items.
    ///
    /// # Errors
    ///
    /// `NoMemory`: an allocation was refused.
    pub fn start<'a, A: Allocator + Copy, B: Allocator>(
        alloc: A,
        page_size: u64,
        uuid: &Uuid,
        texts: &'a [Vec<u8, B>],
        capacity: usize,
    ) -> Result<(Vec<Feeder<'a, A>, A>, Collector<'a, A>), NoMemory>
        requires page_size { IsPageSize page_size }
        requires texts { (1 ≤ length texts.now) × (length texts.now ≤ 255) }
        requires capacity { (1 ≤ capacity) × (capacity ≤ 1024) }
        ensures start { IfOk result (λ r. map so_far r.1 ≡ map (at_start (settings page_size uuid.now (length texts.now))) texts.now) }
        ensures same { IfOk result (λ r. r.0.items ≡ r.1) }
    {
        Relay::start_with(alloc, page_size, uuid, texts, capacity, None)
    }

    /// Creates the feeders and their collector as `start` does, with the limit that
    /// `ChannelReader::new_with` takes: the packets of a round of each channel may count `waiting`
    /// together. The stop of a channel that passes it is the fault `Waiting`. `None` is no limit.
    ///
    /// # Errors
    ///
    /// `NoMemory`: an allocation was refused.
    pub fn start_with<'a, A: Allocator + Copy, B: Allocator>(
        alloc: A,
        page_size: u64,
        uuid: &Uuid,
        texts: &'a [Vec<u8, B>],
        capacity: usize,
        waiting: Option<u64>,
    ) -> Result<(Vec<Feeder<'a, A>, A>, Collector<'a, A>), NoMemory>
        requires page_size { IsPageSize page_size }
        requires texts { (1 ≤ length texts.now) × (length texts.now ≤ 255) }
        requires capacity { (1 ≤ capacity) × (capacity ≤ 1024) }
        ensures start { IfOk result (λ r. map so_far r.1 ≡ map (at_start (with_waiting waiting (settings page_size uuid.now (length texts.now)))) texts.now) }
        ensures same { IfOk result (λ r. r.0.items ≡ r.1) }
    {
        let mut feeders = Vec::new(alloc);
        let mut channels = Vec::new(alloc);
        for (j, text) in texts.iter().enumerate() {
            let cursor = Cursor {
                page_size,
                uuid: *uuid,
                channels: texts.len(),
                waiting,
                room: waiting,
                at: 0,
                greeted: false,
                unsynced: false,
            };
            let (feeder, channel) = open(alloc, j, cursor, text.as_slice(), capacity)?;
            feeders.push(feeder)?;
            channels.push(channel)?;
        }
        Ok((feeders, Collector { channels }))
    }
}

// Creates the two ends of one channel, whose cursor is at the start of its bytes.
fn open<'a, A: Allocator + Copy>(
    alloc: A,
    j: usize,
    cursor: Cursor,
    text: &'a [u8],
    capacity: usize,
) -> Result<(Feeder<'a, A>, Channel<'a, A>), NoMemory>
    requires page_size { IsPageSize cursor.page_size }
    requires start { (cursor.at ≡ 0) × (cursor.greeted ≡ false) × (cursor.unsynced ≡ false) × (cursor.room ≡ cursor.waiting) }
    requires capacity { 0 < capacity }
    ensures start { IfOk result (λ r. so_far r.1 ≡ (text_of cursor text.now, [])) }
    ensures same { IfOk result (λ r. r.0 ≡ r.1) }
{
    let (sender, feeding, receiver, collecting) = queue_for(alloc, &cursor, text, capacity)?;
    let feeder = Feeder {
        channel: j,
        count: 0,
        text,
        cursor,
        sender,
        pass: feeding,
    };
    let channel = Channel {
        page_size: cursor.page_size,
        waiting: cursor.waiting,
        text,
        items: Vec::new(alloc),
        over: false,
        receiver,
        pass: collecting,
    };
    Ok((feeder, channel))
}

impl<'a, A: Allocator> Collector<'a, A> {
    /// Returns how many channels there are.
    pub fn len(&self) -> usize
        ensures { result ≡ length self.now }
    {
        self.channels.len()
    }

    /// The number of bytes of a page of the channels' packets.
    pub fn page_size(&self) -> u64
        ensures value { All (λ p. p.source.page_size ≡ result) self.now }
        ensures page_size { IsPageSize result }
        ensures relay { IsRelay self.now }
    {
        self.channels[0].page_size()
    }

    /// Returns the most that may wait in a round of each channel, as the relay was started with it.
    pub fn waiting(&self) -> Option<u64>
        ensures { All (λ p. p.source.waiting ≡ result) self.now }
    {
        self.channels[0].waiting()
    }

    /// Returns the items that were taken from channel `j`: its first ones, in order and complete.
    pub fn received(&self, j: usize) -> &[Item<'a>]
        requires { j < length self.now }
        ensures items { IfSome (slice_get self.now j) (λ p. map as_channel_item result.now ≡ p.passed) }
        ensures begun { IfSome (slice_get self.now j) (λ p. BeginsItems p.source p.passed) }
        ensures page_size { IfSome (slice_get self.now j) (λ p. IsPageSize p.source.page_size) }
        ensures page_sizes { IfSome (slice_get self.now j) (λ p. All (IsOfPageSize p.source.page_size) result.now) }
    {
        let channel = &self.channels[j];
        channel.received()
    }

    /// Takes the next item of channel `j`, and waits for it. If its stop was taken before, returns
    /// false and doesn't wait. If the channel's feeder was dropped before its stop, the call may
    /// wait for ever.
    ///
    /// # Errors
    ///
    /// `NoMemory`: an allocation was refused. Nothing was taken.
    pub fn next<R: Wait>(&mut self, wait: &R, j: usize) -> Result<bool, NoMemory>
        requires { j < length self.old }
        ensures ok { IfOk result (λ more. TakesAt j self.old self.new more) }
        ensures err { OnErr result (self.new ≡ self.old) }
    {
        let channel = &mut self.channels[j];
        channel.next(wait)
    }

    /// Takes and drops all further items of channels 0 to `started` - 1, up to their stops. It
    /// allocates nothing.
    pub fn drain<R: Wait>(self, wait: &R, started: usize)
        requires { started ≤ length self }
    {
        let Collector { channels } = self;
        for (j, channel) in channels.into_iter().enumerate() {
            if j < started {
                channel.drain(wait);
            }
        }
    }
}
