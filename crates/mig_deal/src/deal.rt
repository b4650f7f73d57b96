//! The shared word that workers draw numbers from. `MultiSender::round` creates one for each round,
//! from which the workers of its channels draw. A caller with threads of its own creates one for
//! its calls of `work`.

ghost use Rattle.std.specs.Prelude.{◌≡◌, ◌<◌, ◌≤◌, [], ◌∷◌, ◌++◌, All, IfOk, vec_len, replicate, vec_capacity};
ghost use Rattle.mig_deal.specs.Deal.{new_seat, all_drawn, IsWithinLimits, HasEachOnce, end_of_deal};
ghost use Rattle.mig_deal.specs.Drawn.{IsDraw};
ghost use Rattle.mig_deal.specs.Rule.{holding, deal_view};

use crate::fault::NoMemory;
use crate::rule::{DealRule, DrawNumber, FindEnd, Holding, JoinSeats, SplitSeat, Terms};
use crate::seat::{Drawn, Seat, Spent};
use atomic_table::{Seat as TableSeat, Table};
use std::alloc::{AllocFailed, Allocator, Global};
use std::fmt;
use std::marker::Model;

/// One shared word that numbers packets and claims batches. Threads share it by reference or in an
/// `Arc`, each with a seat of its own. When all seats are spent, `close` ends the deal, and
/// `end_number` returns the end of a deal that is still shared. A deal may also be dropped: its
/// memory is freed, and the numbers that are left are never drawn.
#[derive(Drop)]
pub struct Deal<A: Allocator = Global> {
    table: Table<(), Holding, Terms, DealRule, A>,
    terms: Terms,
}

impl<A: Allocator> Model for Deal<A> {
    ghost use Rattle.std.specs.Prelude.{◌≡◌};
    ghost use Rattle.mig_deal.specs.Deal.{DealView, IsWithinLimits};

    ghost Value = { DealView };

    ghost use Rattle.mig_deal.specs.Rule.{deal_view};

    ghost view = { λ d. deal_view d.table.shared.table_id d.terms };

    ghost invariant = { λ d. (d.table.shared.key ≡ d.terms) × (d.table.shared.table_id.words ≡ 1) × (d.table.shared.table_id.slots ≡ 0)
        × IsWithinLimits d.terms.base d.terms.batches d.terms.seats };
}

impl<A: Allocator> fmt::Debug for Deal<A> {
    fn fmt<W: fmt::Write>(&self, f: &mut fmt::Formatter<W>) -> fmt::Result {
        f.pad("Deal { .. }")
    }
}

// Adds a seat to a list that has room for it, so it allocates nothing.
fn put<A: Allocator>(list: &mut Vec<Seat, A>, seat: Seat)
    requires { vec_len list.old < vec_capacity list.old }
    ensures items { list.new.items ≡ list.old.items ++ seat ∷ [] }
    ensures capacity { vec_capacity list.old ≤ vec_capacity list.new }
{
    if let Err(AllocFailed { value }) = list.push(seat) {
        let Seat { inner: _ } = value;
        unreachable!()
    }
}

// Splits one seat after another off the first, which represents all of them. The first seat is put
// last.
fn split_seats<A: Allocator>(
    table: &Table<(), Holding, Terms, DealRule, A>,
    terms: Terms,
    first: TableSeat<(), Holding>,
    list: &mut Vec<Seat, A>,
)
    requires table { (table.now.shared.key ≡ terms) × (table.now.shared.table_id.words ≡ 1) × IsWithinLimits terms.base terms.batches terms.seats }
    requires first { (first.table_id ≡ table.now.shared.table_id) × (first.me ≡ (holding terms terms.seats [] [], [])) }
    requires room { (list.old.items ≡ []) × (terms.seats ≤ vec_capacity list.old) }
    ensures { list.new.items ≡ replicate terms.seats (new_seat (deal_view table.now.shared.table_id terms)) }
{
    let mut rest = first;
    for _ in 1..terms.seats {
        let inner = table.shared.split_seat::<SplitSeat>(&mut rest);
        put(list, Seat { inner });
    }
    put(list, Seat { inner: rest });
}

impl<A: Allocator + Copy> Deal<A> {
    /// Creates a deal of `batches` batches whose packets are numbered from `base` on. It has
    /// `seats` seats, none of which has drawn.
    ///
    /// # Errors
    ///
    /// `NoMemory`: an allocation was refused.
    pub fn new(
        alloc: A,
        base: u64,
        batches: u64,
        seats: usize,
    ) -> Result<(Deal<A>, Vec<Seat, A>), NoMemory>
        requires { IsWithinLimits base batches seats }
        ensures terms { IfOk result (λ made. (made.0.base ≡ base) × (made.0.batches ≡ batches) × (made.0.seats ≡ seats)) }
        ensures seats { IfOk result (λ made. made.1.items ≡ replicate seats (new_seat made.0)) }
    {
        let mut list = Vec::with_capacity(alloc, seats)?;
        let terms = Terms {
            base,
            batches,
            seats,
        };
        let made = Table::<(), Holding, Terms, DealRule, A>::of_words(alloc, &[base], &terms);
        let Ok((table, first)) = made else {
            list.destroy_empty();
            return Err(NoMemory);
        };
        split_seats(&table, terms, first, &mut list);
        Ok((Deal { table, terms }, list))
    }
}

impl<A: Allocator> Deal<A> {
    /// Returns the first number.
    pub fn base(&self) -> u64
        ensures { result ≡ self.now.base }
    {
        self.terms.base
    }

    /// Draws the next number for a seat of this deal. The call waits for no other thread, allocates
    /// nothing, and always succeeds. The schedule decides which seat draws which number.
    pub fn draw(&self, seat: Seat) -> Drawn
        requires { seat.deal ≡ self.now }
        ensures { IsDraw self.now seat result }
    {
        let Seat { mut inner } = seat;
        let number = self.table.shared.fetch_add::<DrawNumber>(&mut inner, 0, 1);
        if number < self.terms.base + self.terms.batches {
            Drawn::Work(number, Seat { inner })
        } else {
            Drawn::Last(number, Spent { inner })
        }
    }

    /// Returns the number after all that were drawn, as `close` does, without ending the deal. It
    /// is for a deal in an `Arc`, which doesn't give the deal by value.
    ///
    /// It takes a spent seat for each of the deal's seats and uses them up. So nothing is drawn any
    /// more, and the deal is dropped afterwards, not closed. The call reads the word once, waits
    /// for nobody and allocates nothing.
    pub fn end_number<B: Allocator>(&self, mut spents: Vec<Spent, B>) -> u64
        requires all { vec_len spents ≡ self.now.seats }
        requires own { All (λ spent. spent.deal ≡ self.now) spents.items }
        ensures next { result ≡ end_of_deal self.now }
        ensures once { HasEachOnce self.now.base result (all_drawn spents.items) }
    {
        // Shows the prover that the deal has a seat.
        let _base = self.terms.base;
        let Some(last) = spents.pop() else {
            unreachable!()
        };
        let mut all = last.into_inner();
        while let Some(next) = spents.pop() {
            let given = next.into_inner();
            self.table.shared.join_seat::<JoinSeats>(&mut all, given);
        }
        spents.destroy_empty();
        self.table.shared.load::<FindEnd>(&mut all, 0)
    }

    /// Ends the deal, frees its memory, and returns the number after all that were drawn. It takes
    /// a spent seat for each of the deal's seats: these are all, since none can be copied. It
    /// allocates nothing.
    pub fn close<B: Allocator>(self, mut spents: Vec<Spent, B>) -> u64
        requires all { vec_len spents ≡ self.seats }
        requires own { All (λ spent. spent.deal ≡ self) spents.items }
        ensures next { result ≡ end_of_deal self }
        ensures once { HasEachOnce self.base result (all_drawn spents.items) }
    {
        let Deal { table, terms: _ } = self;
        let Some(last) = spents.pop() else {
            unreachable!()
        };
        let mut all = last.into_inner();
        while let Some(next) = spents.pop() {
            let given = next.into_inner();
            table.shared.join_seat::<JoinSeats>(&mut all, given);
        }
        spents.destroy_empty();
        let closed = table.close_with(all);
        let next = closed.word(0);
        closed.free();
        next
    }
}
