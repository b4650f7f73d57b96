//! The deal: numbers drawn in turn by one thread, and by 255 threads at once, of a deal in an
//! `Arc`.

ghost use Rattle.std.specs.Prelude.{◌≡◌, ◌+◌, ◌<◌, ◌≤◌, [], All, vec_len, vec_capacity};

use crate::workers::{Hall, gather, put, seat_all, work_all};
use mig_deal::{Deal, Drawn, Seat, Spent};
use std::alloc::AllocGlobal;
use std::process::Abort;
use std::sync::Arc;
use std::sync::atomic::{AtomicU64, Ordering};
use std::test::Fail;
use std::thread::Threads;

/// Returns a list with room for `count` spent seats.
pub(crate) fn room(rt: &(impl AllocGlobal + Abort), count: usize) -> Vec<Spent>
    ensures none { result.items ≡ [] }
    ensures room { count ≤ vec_capacity result }
{
    match Vec::with_capacity(rt.alloc(), count) {
        Ok(spents) => spents,
        Err(_) => panic!(rt; "memory"),
    }
}

// Draws a number that has to be this one, and work.
fn draw_work(rt: &impl Abort, deal: &Deal, seat: Seat, number: u64) -> Seat
    requires { seat.deal ≡ deal.now }
    ensures { result.deal ≡ deal.now }
{
    match deal.draw(seat) {
        Drawn::Work(drawn, seat) if drawn == number => seat,
        _ => panic!(rt; "it isn't {number}, and work"),
    }
}

// Draws a number that has to be this one, and the seat's last.
fn draw_last(rt: &impl Abort, deal: &Deal, seat: Seat, number: u64) -> Spent
    requires { seat.deal ≡ deal.now }
    ensures { result.deal ≡ deal.now }
{
    match deal.draw(seat) {
        Drawn::Last(drawn, spent) if drawn == number => spent,
        _ => panic!(rt; "it isn't {number}, and the last one"),
    }
}

// Seat a draws 5 as work, seat b draws 6 as its last number, and seat a 7.
fn play(rt: &(impl AllocGlobal + Abort), deal: &Deal, mut seats: Vec<Seat>) -> Vec<Spent>
    requires own { All (λ seat. seat.deal ≡ deal.now) seats.items }
    requires both { vec_len seats ≡ 2 }
    ensures own { All (λ spent. spent.deal ≡ deal.now) result.items }
    ensures both { vec_len result ≡ 2 }
{
    let Some(b) = seats.pop() else {
        panic!(rt; "a seat")
    };
    let Some(a) = seats.pop() else {
        panic!(rt; "a seat")
    };
    seats.destroy_empty();
    let mut spents = room(rt, 2);
    let a = draw_work(rt, deal, a, 5);
    put(&mut spents, draw_last(rt, deal, b, 6));
    put(&mut spents, draw_last(rt, deal, a, 7));
    spents
}

#[test]
fn two_seats_and_one_batch(rt: HostRuntime) {
    let Ok((deal, seats)) = Deal::new(rt.alloc(), 5, 1, 2) else {
        panic!(rt; "memory")
    };
    let spents = play(&rt, &deal, seats);
    assert!(rt; deal.base() == 5 && deal.close(spents) == 8);
}

// Runs a worker for each seat of a deal, all at once.
fn draw_on_threads<R: AllocGlobal + Abort + Threads + Sync>(
    rt: &R,
    deal: &Deal,
    seats: Vec<Seat>,
    hall: &Hall,
) -> Vec<Spent>
    requires some { 0 < vec_len seats }
    requires own { All (λ seat. seat.deal ≡ deal.now) seats.items }
    requires places { vec_len hall.now.times ≡ deal.now.batches + deal.now.seats }
    ensures own { All (λ spent. spent.deal ≡ deal.now) result.items }
    ensures count { vec_len result ≡ vec_len seats }
{
    let count = seats.len();
    let Ok(mut slots) = Vec::with_capacity(rt.alloc(), count) else {
        panic!(rt; "memory")
    };
    seat_all(deal, seats, &mut slots);
    work_all(rt, deal, hall, slots.as_mut_slice());
    let mut spents = room(rt, count);
    gather(deal, slots, &mut spents);
    spents
}

// Returns whether each number was drawn once.
fn are_drawn_once(times: &[AtomicU64]) -> bool {
    for count in times {
        if count.load(Ordering::SeqCst) != 1 {
            return false;
        }
    }
    true
}

// Returns whether all workers drew at once, and each number was drawn once.
fn drew_at_once(hall: &Hall) -> bool {
    hall.alone.load(Ordering::SeqCst) == 0 && are_drawn_once(&hall.times)
}

// Gives the deal two owners: the workers draw through the first, and the second returns the end.
fn end_in_an_arc<R: AllocGlobal + Abort + Threads + Sync>(
    rt: &R,
    deal: Deal,
    seats: Vec<Seat>,
    hall: &Hall,
) -> u64
    requires some { (0 < vec_len seats) × (vec_len seats ≡ deal.seats) }
    requires own { All (λ seat. seat.deal ≡ deal) seats.items }
    requires places { vec_len hall.now.times ≡ deal.batches + deal.seats }
{
    let Ok(deal) = Arc::new(rt.alloc(), deal) else {
        panic!(rt; "memory")
    };
    let Ok(other) = Arc::try_clone(&deal) else {
        panic!(rt; "an owner more")
    };
    let spents = draw_on_threads(rt, &deal, seats, hall);
    other.end_number(spents)
}

// The numbers begin with 7, and 1,000 of them claim a batch.
#[test]
fn end_of_a_deal_in_an_arc(rt: HostRuntime) -> Result<(), Fail> {
    let hall = Hall::new(rt.alloc(), 1255)?;
    let Ok((deal, seats)) = Deal::new(rt.alloc(), 7, 1000, 255) else {
        panic!(rt; "memory")
    };
    let next = end_in_an_arc(&rt, deal, seats, &hall);
    assert!(rt; next == 1262 && drew_at_once(&hall));
    Ok(())
}
