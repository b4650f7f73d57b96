//! A relay as tests make it, steps of its feeders, and the items that it passes on.

use mig_packet::Gate;
use mig_relay::{ChannelEnd, Collector, Feeder, FeederStep, Item, Relay};
use std::alloc::AllocGlobal;
use std::process::Abort;
use std::sync::Wait;
use uuid::Uuid;

/// The two sides of a relay.
pub(crate) type Sides<'a> = (Vec<Feeder<'a>>, Collector<'a>);

/// Returns a relay of channels, whose queues have room for `capacity` items.
pub(crate) fn relay_of<'a>(
    rt: &(impl AllocGlobal + Abort),
    texts: &'a [Vec<u8>],
    capacity: usize,
) -> Sides<'a> {
    assert!(rt; 1 <= texts.len() && texts.len() <= 255);
    assert!(rt; 1 <= capacity && capacity <= 1024);
    Relay::start(rt.alloc(), 4096, &Uuid::nil(), texts, capacity).expect(rt, "a relay")
}

/// An item as tests compare it: a packet by its number, and whether it is a SYNC packet.
#[derive(Clone, Copy, PartialEq, Eq)]
pub(crate) enum Seen {
    Hello(u8),
    Page(u64),
    Sync(u64),
    Stop(ChannelEnd),
}

fn what_is(item: &Item<'_>) -> Seen {
    match item {
        Item::Hello(id) => Seen::Hello(*id),
        Item::Page(packet) if packet.sync() => Seen::Sync(packet.number()),
        Item::Page(packet) => Seen::Page(packet.number()),
        Item::Stop(end) => Seen::Stop(*end),
    }
}

/// Returns whether these are the items that were taken from a channel.
pub(crate) fn has_received(collector: &Collector<'_>, channel: usize, wanted: &[Seen]) -> bool {
    if channel >= collector.len() {
        return false;
    }
    let items = collector.received(channel);
    for (item, wanted) in items.iter().zip(wanted) {
        if what_is(item) != *wanted {
            return false;
        }
    }
    items.len() == wanted.len()
}

/// Steps until the stop is pushed.
pub(crate) fn feed<R: Wait, G: Gate>(rt: &R, feeder: Feeder<'_>, gate: &G) {
    let mut feeder = feeder;
    for _ in rt.forever() {
        match feeder.step(rt, gate) {
            FeederStep::More(next) => feeder = next,
            FeederStep::Ended(_) => return,
        }
    }
}

/// Takes `count` items of a channel.
pub(crate) fn takes<R: Wait>(
    rt: &R,
    collector: &mut Collector<'_>,
    channel: usize,
    count: usize,
) -> bool {
    for _ in 0..count {
        if channel >= collector.len() || collector.next(rt, channel) != Ok(true) {
            return false;
        }
    }
    true
}

/// Returns whether a channel's stop was taken: a further take returns nothing.
pub(crate) fn is_over<R: Wait>(rt: &R, collector: &mut Collector<'_>, channel: usize) -> bool {
    if channel >= collector.len() {
        return false;
    }
    collector.next(rt, channel) == Ok(false)
}

/// Drains the first `started` channels.
pub(crate) fn drain<R: Wait + Abort>(rt: &R, collector: Collector<'_>, started: usize) {
    assert!(rt; started <= collector.len());
    collector.drain(rt, started);
}
