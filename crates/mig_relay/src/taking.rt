//! Takes the items of a round from a relay, of one channel and of all, for `load_relayed`.

ghost use Rattle.std.specs.Prelude.{ℕ, ◌≡◌, ◌<◌, ◌^◌, ◌++◌, [], List, length, map, slice_get, All, IfSome, IfOk, OnOk};
ghost use Rattle.std.specs.List.{AllZip};
ghost use Rattle.mig_packet.specs.Lent.{fields};
ghost use Rattle.mig_packet.specs.declared.packet.Packet.{Packet as PacketValue};
ghost use Rattle.mig_relay.specs.Relayed.{Continues, IsOpenAt, GivesItem, GoesThrough, AreAtRound, HaveGone, IsAtRound, stop_status};

use crate::item::{ChannelEnd, Item};
use crate::relay::Collector;
use mig_answer::Status;
use mig_assemble::Gathered;
use mig_load_types::Fault;
use mig_mem::NoMemory;
use std::alloc::Allocator;
use std::sync::Wait;

// Returns item `at` of channel `j`, and takes it if it wasn't taken yet.
fn item_at<'a, R: Wait, A: Allocator>(
    wait: &R,
    collector: &mut Collector<'a, A>,
    j: usize,
    at: usize,
) -> Result<Item<'a>, NoMemory>
    requires j { j < length collector.old }
    requires open { IfSome (slice_get collector.old j) (IsOpenAt at) }
    ensures item { IfOk result (GivesItem j at collector.old collector.new) }
    ensures few { OnOk result (at < 2 ^ 63) }
    ensures continues { AllZip Continues collector.old collector.new }
{
    if at == collector.received(j).len() {
        collector.next(wait, j)?;
    }
    Ok(collector.received(j)[at])
}

// Takes the items of channel `j` from item `at` on, up to the SYNC packet that ends its round, or
// to its stop. Gathers the packets. Returns the channel's status for the round, and the next item's
// index.
fn take_of_channel<'a, R: Wait, A: Allocator, B: Allocator>(
    wait: &R,
    collector: &mut Collector<'a, A>,
    j: usize,
    at: usize,
    gathered: &mut Gathered<'a, B>,
) -> Result<(Status, usize), NoMemory>
    requires j { j < length collector.old }
    requires at { (k : ℕ) × IfSome (slice_get collector.old j) (λ p. IsAtRound k at p.passed) }
    ensures ok { IfOk result (λ r. (packets : List PacketValue) × (gathered.new ≡ gathered.old ++ packets)
        × GoesThrough j at collector.old collector.new r.1 r.0 packets) }
    ensures continues { AllZip Continues collector.old collector.new }
{
    let mut at = at;
    for _ in wait.forever() {
        let item = item_at(wait, collector, j, at)?;
        at += 1;
        match item {
            Item::Hello(_) => {}
            Item::Stop(end) => return Ok((stop_status(end), at)),
            Item::Page(packet) => {
                gathered.push(packet)?;
                if packet.sync() {
                    return Ok((Status::Whole, at));
                }
            }
        }
    }
    unreachable!()
}

/// Takes a round of every channel, each from its next item on. Gathers the packets, and appends
/// each channel's status. After an `Err` some channels were processed.
pub(crate) fn take_of_all<'a, R: Wait, A: Allocator, B: Allocator>(
    wait: &R,
    collector: &mut Collector<'a, A>,
    places: &mut Vec<usize, B>,
    gathered: &mut Gathered<'a, B>,
    statuses: &mut Vec<Status, B>,
) -> Result<(), NoMemory>
    requires empty { (gathered.old ≡ []) × (statuses.old.items ≡ []) }
    requires places { (k : ℕ) × AreAtRound k places.old.items collector.old }
    ensures ok { OnOk result ((k : ℕ) → AreAtRound k places.old.items collector.old
        → HaveGone k places.new.items collector.new statuses.new.items (map fields gathered.new)) }
    ensures page_size { OnOk result ((page_size : ℕ) → All (λ p. p.source.page_size ≡ page_size) collector.old
        → All (λ packet. packet.page_size ≡ page_size) gathered.new) }
    ensures continues { AllZip Continues collector.old collector.new }
{
    for j in 0..collector.len() {
        let (status, to) = take_of_channel(wait, collector, j, places[j], gathered)?;
        places[j] = to;
        statuses.push(status)?;
    }
    Ok(())
}

// Returns the status of a channel after its complete rounds, by its stop.
fn stop_status(end: ChannelEnd) -> Status
    ensures { result ≡ stop_status end }
{
    match end {
        ChannelEnd::Clean => Status::Clean,
        ChannelEnd::Bad(fault) => Status::Bad(Fault::Channel(fault)),
    }
}
