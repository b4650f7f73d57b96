//! Judges a round as its parts arrive, for a load that writes each page as it arrives and keeps
//! none.
//!
//! `Target::round` takes a complete round and writes it only after judging it. `Arrivals` takes
//! each group of page records and each packet, in any order, and returns the verdict of
//! `Target::round` once the last one is there. Its caller writes the pages.

ghost use Rattle.std.specs.Prelude.{◌≡◌, ◌+◌, ◌≤◌, ◌^◌, ◌↔◌, [], ◌∷◌, length, None, Some, IsTrue, OnOk, OnErr, IfOk, IfErr};
ghost use Rattle.std.specs.Option.{option_map};
ghost use Rattle.mig_mem.specs.First.{first_some};
ghost use Rattle.mig_packet.specs.PacketHead.{as_zeros};
ghost use Rattle.mig_assemble.specs.declared.fault.RoundFault.TheVariants.{DoublePage};
ghost use Rattle.mig_assemble.specs.Target.{FitsTable, pages_of_round};
ghost use Rattle.mig_assemble.specs.HeadPlaces.{Lie};
ghost use Rattle.mig_assemble.specs.Arrivals.{Records, OnePacket, lesser_misplaced, HasCome, AlsoHas, HasSame, IsJudged};
ghost use Rattle.mig_assemble.specs.Arrivals.{ArrivalsMakeTheRound, OtherPlacesStay, HeadsAreJudged};
ghost use Rattle.mig_assemble.specs.NamedPlaces.{AddsArrivals};

use crate::RoundFault;
use crate::doubles::{mark_pages, mark_records};
use crate::named::add_places;
use crate::numbers::unsorted_fault;
use crate::places::{Pages, pages_of};
use crate::target::fits;
use mig_mem::{Dirty, NoMemory, Place, Table};
use mig_packet::PacketHead;
use mig_stream::StreamRound;
use std::alloc::{Allocator, Global};
use std::marker::Model;
use std::{fmt, mem};

// A packet with a misplaced page: its number, and what is wrong.
#[derive(Clone, Copy)]
pub(crate) struct WrongPacket {
    pub(crate) number: u64,
    pub(crate) fault: RoundFault,
}

/// The arrivals so far of a round that isn't judged yet, without the pages' contents: a mark for
/// each page of the table, and a number for each packet.
pub struct Arrivals<A: Allocator = Global> {
    numbers: Vec<u64, A>,
    // the packet of least number with a misplaced page
    misplaced: Option<WrongPacket>,
    // the least place that arrived twice
    double: Option<Place>,
    seen: Dirty<A>,
}

// Written out, so that a caller's proof passes a call where a value is dropped.
impl<A: Allocator> Drop for Arrivals<A> {
    fn drop(self) {
        let Arrivals {
            numbers: _,
            misplaced: _,
            double: _,
            seen: _,
        } = self;
    }
}

impl<A: Allocator> Model for Arrivals<A> {
    ghost use Rattle.mig_assemble.specs.Arrivals.{RoundSoFar};

    ghost Value = { RoundSoFar };

    ghost view = { λ a. record { numbers = a.numbers.items; misplaced = a.misplaced; double = a.double; seen = a.seen } };
}

impl<A: Allocator> fmt::Debug for Arrivals<A> {
    fn fmt<W: fmt::Write>(&self, f: &mut fmt::Formatter<W>) -> fmt::Result {
        f.pad("Arrivals { .. }")
    }
}

impl<A: Allocator + Copy> Arrivals<A> {
    /// Creates an empty list of arrivals, for rounds of `table`. It takes a bit for each page of
    /// the table.
    ///
    /// # Errors
    ///
    /// `NoMemory`: an allocation was refused.
    pub fn new<B: Allocator>(alloc: A, table: &Table<B>) -> Result<Arrivals<A>, NoMemory>
        ensures { IfOk result (λ a. HasCome table.now [] a) }
    {
        Ok(Arrivals {
            numbers: Vec::new(alloc),
            misplaced: None,
            double: None,
            seen: Dirty::none(alloc, table)?,
        })
    }
}

impl<A: Allocator> Arrivals<A> {
    /// Returns the table of the rounds.
    pub fn table(&self) -> &Table<A>
        ensures { result.now ≡ self.now.seen.table }
    {
        self.seen.table()
    }

    /// Returns the number of packets that arrived, which may be 0.
    #[allow(clippy::len_without_is_empty)]
    pub fn len(&self) -> usize
        ensures { result ≡ length self.now.numbers }
    {
        self.numbers.len()
    }

    /// Returns whether the records of `round` have the table's page size and places of the table.
    pub fn fits<B: Allocator>(&self, round: &StreamRound<B>) -> bool
        ensures { IsTrue result ↔ FitsTable self.now.seen.table round.now }
    {
        fits(self.seen.table(), round)
    }

    /// Adds the page records of `round`. A caller tests them by `fits`.
    pub fn records<B: Allocator>(&mut self, round: &StreamRound<B>)
        requires fits { FitsTable self.old.seen.table round.now }
        ensures come { AlsoHas (Records (pages_of_round round.now)) self.old self.new }
    {
        self.double = mark_records(&mut self.seen, self.double, round);
    }

    /// Adds the packet of a head, whatever its number and the places of its pages. Returns where
    /// they are.
    ///
    /// # Errors
    ///
    /// `NoMemory`: an allocation was refused. Nothing changes.
    pub fn packet(&mut self, head: &PacketHead<'_>) -> Result<Pages, NoMemory>
        requires page_size { head.now.page_size ≡ self.old.seen.table.page_size }
        ensures come { OnOk result (AlsoHas (OnePacket (as_zeros head.now.bytes.now)) self.old self.new) }
        ensures lie { IfOk result (Lie self.old.seen.table head.now.bytes.now) }
        ensures err { OnErr result (self.new ≡ self.old) }
    {
        let number = head.number();
        self.numbers.push(number)?;
        let pages = pages_of(self.seen.table(), head);
        match pages {
            Pages::Nowhere => {}
            Pages::In(block) => self.double = mark_pages(&mut self.seen, self.double, head, block),
            Pages::Misplaced(fault) => {
                let new = WrongPacket { number, fault };
                self.misplaced = lesser_misplaced(self.misplaced, new);
            }
        }
        Ok(pages)
    }

    /// Judges all that arrived as one complete round, whose packets must be numbered from `base`
    /// on. It may be called again, also after more has arrived: judging keeps what arrived. It
    /// allocates nothing.
    ///
    /// # Errors
    ///
    /// The first that applies of `Foreign`, `Doubled` and `Missing`, each with the least such
    /// number; `UnknownBlock` or `Offset` of the packet of least number with a misplaced page;
    /// `DoublePage` with the least place that arrived twice. It is never `NoMemory`.
    pub fn judge(&mut self, base: u64) -> Result<(), RoundFault>
        requires room { base + length self.old.numbers ≤ 2 ^ 63 }
        ensures lawful { OnOk result (IsJudged base self.old None) }
        ensures refused { IfErr result (λ fault. IsJudged base self.old (Some fault)) }
        ensures same { HasSame self.old self.new }
    {
        let wrong_number = unsorted_fault(&mut self.numbers, base);
        match first_fault(wrong_number, self.misplaced, self.double) {
            Some(fault) => Err(fault),
            None => Ok(()),
        }
    }

    /// Clears all that arrived, for the next round. If a page arrived it walks the marks of the
    /// complete table.
    pub fn clear(&mut self)
        ensures { HasCome self.old.seen.table [] self.new }
    {
        self.numbers.clear();
        self.misplaced = None;
        self.double = None;
        clear_places(&mut self.seen);
    }

    /// Adds the places of all that arrived to `named`, a set of the same table, and clears all that
    /// arrived, for the next round. It takes a step for each place, and none if `named` is empty.
    pub fn clear_into(&mut self, named: &mut Dirty<A>)
        requires table { named.old.table ≡ self.old.seen.table }
        ensures adds { AddsArrivals self.old named.old named.new }
        ensures cleared { HasCome self.old.seen.table [] self.new }
        ensures table { named.new.table ≡ named.old.table }
    {
        if named.count() == 0 {
            mem::swap(named, &mut self.seen);
        } else {
            add_places(named, &self.seen);
        }
        self.clear();
    }
}

// Removes all places of a set. It takes no step if there are none.
fn clear_places<A: Allocator>(set: &mut Dirty<A>)
    ensures { set.new ≡ record set.old { marked = [] } }
{
    if set.count() > 0 {
        set.clear();
    }
}

// Returns the first fault of a round: of its numbers, of the places of a packet's pages, or of what
// arrived twice.
fn first_fault(
    wrong_number: Option<RoundFault>,
    misplaced: Option<WrongPacket>,
    double: Option<Place>,
) -> Option<RoundFault>
    ensures { result ≡ first_some (
        wrong_number ∷ option_map (λ m. m.fault) misplaced ∷ option_map DoublePage double ∷ []) }
{
    match (wrong_number, misplaced, double) {
        (Some(fault), _, _) => Some(fault),
        (None, Some(packet), _) => Some(packet.fault),
        (None, None, Some(place)) => Some(RoundFault::DoublePage(place)),
        (None, None, None) => None,
    }
}

// Returns the packet with the lesser number.
fn lesser_misplaced(found: Option<WrongPacket>, new: WrongPacket) -> Option<WrongPacket>
    ensures { result ≡ lesser_misplaced found new }
{
    match found {
        None => Some(new),
        Some(old) => {
            if new.number < old.number {
                Some(new)
            } else {
                Some(old)
            }
        }
    }
}

/// Pages of a lawful round that are written in the order in which they arrived make the same memory
/// as the round.
pub fn arrivals_make_the_round()
    ensures { ArrivalsMakeTheRound }
{}

/// Pages that are written as they arrive, of a lawful round or of another, change no place but
/// their own.
pub fn other_places_stay()
    ensures { OtherPlacesStay }
{}

/// A round is judged by the heads of its packets alone: the contents of their pages don't matter.
pub fn heads_are_judged()
    ensures { HeadsAreJudged }
{}
