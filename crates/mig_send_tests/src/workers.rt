//! Many workers that draw from one deal, each on a thread of its own. Only tests run them.

ghost use Rattle.std.specs.Prelude.{◌≡◌, ◌+◌, ◌<◌, ◌≤◌, ◌++◌, ◌∷◌, [], All, IfOk, length, vec_len, vec_capacity};
ghost use Rattle.mig_send_tests.specs.Slots.{IsWaiting, IsDone};

use crate::slots::Slot;
use mig_deal::{Deal, Drawn, Seat, Spent};
use std::alloc::{AllocError, AllocFailed, Global};
use std::mem;
use std::sync::atomic::{AtomicU64, Ordering};
use std::thread::{Threads, for_each_mut, yield_now};

/// What all workers share, in addition to the deal: the number of workers that have started, the
/// number that continued alone, and how often each number was drawn, from the base on.
#[derive(Drop)]
pub struct Hall {
    come: AtomicU64,
    pub alone: AtomicU64,
    pub times: Vec<AtomicU64>,
}

impl Hall {
    pub fn new(alloc: Global, numbers: usize) -> Result<Hall, AllocError>
        ensures { IfOk result (λ hall. vec_len hall.times ≡ numbers) }
    {
        let mut times = Vec::with_capacity(alloc, numbers)?;
        for _ in 0..numbers {
            times.push(AtomicU64::new(0))?;
        }
        Ok(Hall {
            come: AtomicU64::new(0),
            alone: AtomicU64::new(0),
            times,
        })
    }

    // Waits until `seats` workers have started, and gives up after a while.
    fn meet(&self, seats: u64) {
        self.come.fetch_add(1, Ordering::SeqCst);
        for _ in 0..10_000_000u64 {
            if self.come.load(Ordering::SeqCst) == seats {
                return;
            }
            yield_now();
        }
        self.alone.fetch_add(1, Ordering::SeqCst);
    }

    fn count(&self, place: u64)
        requires { place < vec_len self.now.times }
    {
        self.times[place as usize].fetch_add(1, Ordering::SeqCst);
    }
}

// Draws until the seat's last number.
fn draw_all(deal: &Deal, seat: Seat, hall: &Hall) -> Spent
    requires own { seat.deal ≡ deal.now }
    requires places { vec_len hall.now.times ≡ deal.now.batches + deal.now.seats }
    ensures { result.deal ≡ deal.now }
{
    let mut seat = seat;
    loop {
        match deal.draw(seat) {
            Drawn::Work(number, next) => {
                hall.count(number - deal.base());
                seat = next;
            }
            Drawn::Last(number, spent) => {
                hall.count(number - deal.base());
                return spent;
            }
        }
    }
}

// A worker: it draws when all have started.
fn work(deal: &Deal, hall: &Hall, workers: u64, slot: &mut Slot)
    requires own { IsWaiting deal.now slot.old }
    requires places { vec_len hall.now.times ≡ deal.now.batches + deal.now.seats }
    ensures { IsDone deal.now slot.new }
{
    match mem::replace(slot, Slot::Running) {
        Slot::Waiting(seat) => {
            hall.meet(workers);
            let spent = draw_all(deal, seat, hall);
            match mem::replace(slot, Slot::Done(spent)) {
                Slot::Running => {}
                Slot::Waiting(_seat) => unreachable!(),
                Slot::Done(_spent) => unreachable!(),
            }
        }
        Slot::Running => unreachable!(),
        Slot::Done(_spent) => unreachable!(),
    }
}

/// Runs a worker on each slot, all at once.
pub fn work_all<R: Threads + Sync>(rt: &R, deal: &Deal, hall: &Hall, slots: &mut [Slot])
    requires some { 0 < length slots.old }
    requires own { All (IsWaiting deal.now) slots.old }
    requires places { vec_len hall.now.times ≡ deal.now.batches + deal.now.seats }
    ensures { All (IsDone deal.now) slots.new }
{
    let workers = slots.len();
    for_each_mut(
        rt,
        slots,
        workers,
        &|_, slot|
            requires { IsWaiting deal.now slot.old × (vec_len hall.now.times ≡ deal.now.batches + deal.now.seats) }
            ensures { IsDone deal.entry.now slot.new }
        { work(deal, hall, workers as u64, slot) },
    );
}

/// Adds a spent seat to a list that has room for it.
pub fn put(spents: &mut Vec<Spent>, spent: Spent)
    requires { vec_len spents.old < vec_capacity spents.old }
    ensures items { spents.new.items ≡ spents.old.items ++ spent ∷ [] }
    ensures capacity { vec_capacity spents.old ≤ vec_capacity spents.new }
{
    match spents.push(spent) {
        Ok(()) => {}
        Err(AllocFailed { value: _spent }) => unreachable!(),
    }
}

fn put_slot(slots: &mut Vec<Slot>, slot: Slot)
    requires { vec_len slots.old < vec_capacity slots.old }
    ensures items { slots.new.items ≡ slots.old.items ++ slot ∷ [] }
    ensures capacity { vec_capacity slots.old ≤ vec_capacity slots.new }
{
    match slots.push(slot) {
        Ok(()) => {}
        Err(AllocFailed { value: _slot }) => unreachable!(),
    }
}

/// Moves each seat into a slot.
pub fn seat_all(deal: &Deal, mut seats: Vec<Seat>, slots: &mut Vec<Slot>)
    requires own { All (λ seat. seat.deal ≡ deal.now) seats.items }
    requires room { (slots.old.items ≡ []) × (vec_len seats ≤ vec_capacity slots.old) }
    ensures count { vec_len slots.new ≡ vec_len seats }
    ensures waiting { All (IsWaiting deal.now) slots.new.items }
{
    while let Some(seat) = seats.pop() {
        put_slot(slots, Slot::Waiting(seat));
    }
    seats.destroy_empty();
}

/// Takes the spent seats out of the slots.
pub fn gather(deal: &Deal, mut slots: Vec<Slot>, spents: &mut Vec<Spent>)
    requires done { All (IsDone deal.now) slots.items }
    requires room { (spents.old.items ≡ []) × (vec_len slots ≤ vec_capacity spents.old) }
    ensures count { vec_len spents.new ≡ vec_len slots }
    ensures own { All (λ spent. spent.deal ≡ deal.now) spents.new.items }
{
    while let Some(slot) = slots.pop() {
        match slot {
            Slot::Done(spent) => put(spents, spent),
            Slot::Waiting(_seat) => unreachable!(),
            Slot::Running => unreachable!(),
        }
    }
    slots.destroy_empty();
}
