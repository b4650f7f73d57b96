//! The workers of a round, each with a seat of its own and on a thread of its own, and what they
//! write together. `MultiSender::round` runs them.

ghost use Rattle.std.specs.Prelude.{◌≡◌, ◌+◌, ◌<◌, ◌≤◌, ◌∷◌, ◌++◌, [], All, IsOk, OnOk, length, map, vec_len, vec_capacity};
ghost use Rattle.std.specs.List.{AllZip};
ghost use Rattle.mig_deal.specs.Deal.{IsWithinLimits, new_seat};
ghost use Rattle.mig_send.specs.Batches.{IsBatch};
ghost use Rattle.mig_send.specs.Packing.{IsPrefix};
ghost use Rattle.mig_send.specs.Work.{ClaimsBatches};
ghost use Rattle.mig_send.specs.MultiSending.{texts_of};
ghost use Rattle.mig_send.specs.Workers.{IsReady, IsDone, IsAnswer, HadMemory, HasSpent, CarryDealing, slot_text};

use crate::Batch;
use crate::share::{Written, write_share};
use mig_deal::{Deal, Seat, Spent};
use mig_mem::{GuestPages, NoMemory};
use mig_packet::Gate;
use std::alloc::{AllocFailed, Allocator};
use std::mem;
use std::thread::{Threads, for_each_mut};

/// A seat and the bytes of its channel before its worker ran, and what the worker left afterwards.
pub(crate) enum Slot<A: Allocator> {
    Waiting(Seat, Vec<u8, A>),
    Running,
    Done(Written<A>),
}

// Runs the worker of a slot.
fn run_one<A: Allocator + Copy, M: GuestPages, G: Gate>(
    alloc: A,
    deal: &Deal<A>,
    channel: usize,
    memory: &M,
    batches: &[Batch<A>],
    gate: &G,
    slot: &mut Slot<A>,
)
    requires ready { IsReady deal.now slot.old }
    requires batches { ClaimsBatches deal.now (M.image memory.now).table batches.now }
    ensures { IsDone deal.now (M.image memory.now) batches.now (slot_text slot.old) slot.new }
{
    match mem::replace(slot, Slot::Running) {
        Slot::Waiting(seat, text) => {
            let written = write_share(alloc, deal, seat, channel, memory, batches, gate, text);
            match mem::replace(slot, Slot::Done(written)) {
                Slot::Running => {}
                Slot::Waiting(_seat, _text) => unreachable!(),
                Slot::Done(_written) => unreachable!(),
            }
        }
        Slot::Running => unreachable!(),
        Slot::Done(_written) => unreachable!(),
    }
}

// Runs the workers of all slots, each on a thread of its own. A slot's index is its worker's
// channel.
fn run_all<
    R: Threads + Sync,
    A: Allocator + Copy + Send + Sync,
    M: GuestPages<Alloc: Sync> + Sync,
    G: Gate + Sync,
>(
    rt: &R,
    alloc: A,
    deal: &Deal<A>,
    memory: &M,
    batches: &[Batch<A>],
    gate: &G,
    slots: &mut [Slot<A>],
)
    requires some { 0 < length slots.old }
    requires ready { All (IsReady deal.now) slots.old }
    requires batches { ClaimsBatches deal.now (M.image memory.now).table batches.now }
    ensures { AllZip (IsDone deal.now (M.image memory.now) batches.now) (map slot_text slots.old) slots.new }
{
    let workers = slots.len();
    for_each_mut(
        rt,
        slots,
        workers,
        &|channel, slot|
            requires { IsReady deal.now slot.old × ClaimsBatches deal.now (M.image memory.now).table batches.now }
            ensures { IsDone deal.entry.now (M.image memory.entry.now) batches.entry.now (slot_text slot.old) slot.new }
        { run_one(alloc, deal, channel, memory, batches, gate, slot) },
    );
}

// Appends to a list that has room, so it allocates nothing.
fn put<T, A: Allocator>(list: &mut Vec<T, A>, item: T)
    requires { vec_len list.old < vec_capacity list.old }
    ensures items { list.new.items ≡ list.old.items ++ item ∷ [] }
    ensures len { vec_len list.new ≡ vec_len list.old + 1 }
    ensures capacity { vec_capacity list.old ≤ vec_capacity list.new }
{
    match list.push(item) {
        Ok(()) => {}
        Err(AllocFailed { value: _item }) => unreachable!(),
    }
}

// Puts each seat into a slot, with the bytes of its channel.
fn seat_all<A: Allocator>(
    deal: &Deal<A>,
    mut seats: Vec<Seat, A>,
    channels: &mut Vec<Vec<u8, A>, A>,
    slots: &mut Vec<Slot<A>, A>,
)
    requires new { All (λ seat. seat ≡ new_seat deal.now) seats.items }
    requires as_many { vec_len seats ≡ vec_len channels.old }
    requires room { (slots.old.items ≡ []) × (vec_len seats ≤ vec_capacity slots.old) }
    ensures ready { All (IsReady deal.now) slots.new.items }
    ensures texts { map slot_text slots.new.items ≡ texts_of channels.old.items }
    ensures count { vec_len slots.new ≡ vec_len channels.old }
    ensures none { channels.new.items ≡ [] }
    ensures capacity { vec_capacity channels.new ≡ vec_capacity channels.old }
{
    channels.reverse();
    'texts: while let Some(text) = channels.pop() {
        let Some(seat) = seats.pop() else {
            unreachable!()
        };
        put(slots, Slot::Waiting(seat, text));
    }
    seats.destroy_empty();
}

// Returns whether two workers had memory.
fn both(made: Result<(), NoMemory>, other: Result<(), NoMemory>) -> Result<(), NoMemory>
    ensures { OnOk result (IsOk made × IsOk other) }
{
    made?;
    other
}

// Puts the bytes that all workers left back, in the order of the slots, and what is left of their
// seats into `spents`. Returns whether all had memory.
fn put_back<A: Allocator>(
    mut slots: Vec<Slot<A>, A>,
    channels: &mut Vec<Vec<u8, A>, A>,
    spents: &mut Vec<Spent, A>,
) -> Result<(), NoMemory>
    requires done { All IsAnswer slots.items }
    requires channels { (channels.old.items ≡ []) × (vec_len slots ≤ vec_capacity channels.old) }
    requires spents { (spents.old.items ≡ []) × (vec_len slots ≤ vec_capacity spents.old) }
    ensures texts { texts_of channels.new.items ≡ map slot_text slots.items }
    ensures spents { AllZip HasSpent slots.items spents.new.items }
    ensures made { OnOk result (All HadMemory slots.items) }
{
    slots.reverse();
    let mut all_made = Ok(());
    'slots: while let Some(slot) = slots.pop() {
        match slot {
            Slot::Done(written) => {
                let Written { text, made, spent } = written;
                put(channels, text);
                put(spents, spent);
                all_made = both(all_made, made);
            }
            Slot::Waiting(_seat, _text) => unreachable!(),
            Slot::Running => unreachable!(),
        }
    }
    slots.destroy_empty();
    all_made
}

// Runs the workers of the slots in a list.
fn run_slots<
    R: Threads + Sync,
    A: Allocator + Copy + Send + Sync,
    M: GuestPages<Alloc: Sync> + Sync,
    G: Gate + Sync,
>(
    rt: &R,
    alloc: A,
    deal: &Deal<A>,
    memory: &M,
    batches: &[Batch<A>],
    gate: &G,
    slots: &mut Vec<Slot<A>, A>,
)
    requires some { 0 < vec_len slots.old }
    requires ready { All (IsReady deal.now) slots.old.items }
    requires batches { ClaimsBatches deal.now (M.image memory.now).table batches.now }
    ensures count { vec_len slots.new ≡ vec_len slots.old }
    ensures done { AllZip (IsDone deal.now (M.image memory.now) batches.now) (map slot_text slots.old.items) slots.new.items }
{
    run_all(rt, alloc, deal, memory, batches, gate, slots.as_mut_slice());
}

/// Deals the batches of a round to as many workers as there are channels, each on a thread of its
/// own. The workers append what they draw to the channels. After an `Err` parts of it may have been
/// appended.
pub(crate) fn deal_round<
    R: Threads + Sync,
    A: Allocator + Copy + Send + Sync,
    M: GuestPages<Alloc: Sync> + Sync,
    G: Gate + Sync,
>(
    rt: &R,
    alloc: A,
    base: u64,
    memory: &M,
    batches: &[Batch<A>],
    channels: &mut Vec<Vec<u8, A>, A>,
    gate: &G,
) -> Result<(), NoMemory>
    requires limits { IsWithinLimits base (length batches.now) (vec_len channels.old) }
    requires batches { All (IsBatch (M.image memory.now).table) batches.now }
    ensures prefix { AllZip IsPrefix (texts_of channels.old.items) (texts_of channels.new.items) }
    ensures ok { OnOk result (CarryDealing base (M.image memory.now) batches.now (texts_of channels.old.items) (texts_of channels.new.items)) }
{
    let count = channels.len();
    let mut slots = Vec::with_capacity(alloc, count)?;
    let Ok(mut spents) = Vec::with_capacity(alloc, count) else {
        slots.destroy_empty();
        return Err(NoMemory);
    };
    let Ok((deal, seats)) = Deal::new(alloc, base, batches.len() as u64, count) else {
        slots.destroy_empty();
        spents.destroy_empty();
        return Err(NoMemory);
    };
    seat_all(&deal, seats, channels, &mut slots);
    run_slots(rt, alloc, &deal, memory, batches, gate, &mut slots);
    let made = put_back(slots, channels, &mut spents);
    let _next = deal.close(spents);
    made
}
