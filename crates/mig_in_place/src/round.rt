//! The current round of a load in place: its arrivals so far, without the pages' contents.

ghost use Rattle.std.specs.Prelude.{◌≡◌, ◌+◌, ◌≤◌, ◌^◌, [], length, None, Some, IfOk, IfErr, OnOk, OnErr, IfSome, IsSome, IsTrue, IsFalse};
ghost use Rattle.mig_assemble.specs.declared.fault.RoundFault.{RoundFault};
ghost use Rattle.mig_assemble.specs.Target.{FitsTable, pages_of_round};
ghost use Rattle.mig_assemble.specs.Arrivals.{Records, OnePacket, AlsoHas, IsJudged};
ghost use Rattle.mig_assemble.specs.NamedPlaces.{AddsArrivals};
ghost use Rattle.mig_assemble.specs.declared.places.Pages.TheVariants as pages;
ghost use Rattle.mig_packet.specs.PacketHead.{as_zeros};
ghost use Rattle.mig_assemble.specs.HeadPlaces.{Lie, LieIn};
ghost use Rattle.mig_assemble.specs.Judging.{place_fault};
ghost use Rattle.mig_in_place.specs.Round.{Keeps, AlsoKeeps, KeepsSame, with_pages};

use mig_assemble::{Arrivals, Pages, RoundFault, pages_of};
use mig_mem::{Dirty, NoMemory, Table};
use mig_packet::PacketHead;
use mig_stream::StreamRound;
use std::alloc::{Allocator, Global};
use std::marker::Model;

/// The arrivals of the current round: its numbers, its places, and whether pages are misplaced.
#[derive(Drop)]
pub(crate) struct RoundInHand<A: Allocator = Global> {
    arrivals: Arrivals<A>,
    has_misplaced: bool,
}

impl<A: Allocator> Model for RoundInHand<A> {
    ghost use Rattle.mig_in_place.specs.Round.{KeptRound};

    ghost Value = { KeptRound };

    ghost view = { λ r. record { arrivals = r.arrivals; has_misplaced = r.has_misplaced } };
}

impl<A: Allocator + Copy> RoundInHand<A> {
    /// Creates the round of `table`, without arrivals.
    ///
    /// # Errors
    ///
    /// `NoMemory`: an allocation was refused.
    pub(crate) fn new<B: Allocator>(alloc: A, table: &Table<B>) -> Result<RoundInHand<A>, NoMemory>
        ensures keeps { IfOk result (λ r. Keeps table.now [] r) }
        ensures table { IfOk result (λ r. r.arrivals.seen.table ≡ table.now) }
    {
        Ok(RoundInHand {
            arrivals: Arrivals::new(alloc, table)?,
            has_misplaced: false,
        })
    }
}

impl<A: Allocator> RoundInHand<A> {
    /// Returns the number of packets so far.
    pub(crate) fn len(&self) -> usize
        ensures { result ≡ length self.now.arrivals.numbers }
    {
        self.arrivals.len()
    }

    /// Returns whether pages of a packet are misplaced. Then the round will be refused.
    pub(crate) fn has_misplaced(&self) -> bool
        ensures { result ≡ self.now.has_misplaced }
    {
        self.has_misplaced
    }

    /// Adds the records of the main stream.
    pub(crate) fn records<B: Allocator>(&mut self, round: &StreamRound<B>)
        requires { FitsTable self.old.arrivals.seen.table round.now }
        ensures keeps { AlsoKeeps (Records (pages_of_round round.now)) self.old self.new }
        ensures misplaced { self.new.has_misplaced ≡ self.old.has_misplaced }
    {
        self.arrivals.records(round);
    }

    /// Adds the packet of a head. Returns where its pages are.
    ///
    /// # Errors
    ///
    /// `NoMemory`: an allocation was refused. Nothing was added.
    pub(crate) fn packet(&mut self, head: &PacketHead<'_>) -> Result<Pages, NoMemory>
        requires { head.now.page_size ≡ self.old.arrivals.seen.table.page_size }
        ensures keeps { OnOk result (AlsoKeeps (OnePacket (as_zeros head.now.bytes.now)) self.old self.new) }
        ensures lie { IfOk result (Lie self.old.arrivals.seen.table head.now.bytes.now) }
        ensures noted { IfOk result (λ found. (fault : RoundFault) → found ≡ pages.Misplaced fault → IsTrue self.new.has_misplaced) }
        ensures stays { IsTrue self.old.has_misplaced → IsTrue self.new.has_misplaced }
        ensures right { OnOk result (place_fault self.old.arrivals.seen.table (as_zeros head.now.bytes.now) ≡ None → self.new.has_misplaced ≡ self.old.has_misplaced) }
        ensures err { OnErr result (self.new ≡ self.old) }
    {
        let pages = self.arrivals.packet(head)?;
        self.note(pages);
        Ok(pages)
    }

    /// Returns the block of the pages of a packet, if no page of the round is misplaced. None for a
    /// packet without pages, and for one with a misplaced page.
    pub(crate) fn block_for(&self, head: &PacketHead<'_>) -> Option<usize>
        requires { head.now.page_size ≡ self.now.arrivals.seen.table.page_size }
        ensures right { IsSome result → IsFalse self.now.has_misplaced }
        ensures lies { IfSome result (λ b. LieIn self.now.arrivals.seen.table b head.now.bytes.now) }
    {
        if self.has_misplaced {
            return None;
        }
        match pages_of(self.arrivals.table(), head) {
            Pages::In(block) => Some(block),
            Pages::Nowhere | Pages::Misplaced(_) => None,
        }
    }

    // Notes where the pages of a packet are.
    fn note(&mut self, pages: Pages)
        ensures { self.new ≡ with_pages pages self.old }
    {
        match pages {
            Pages::Misplaced(_) => self.has_misplaced = true,
            Pages::Nowhere | Pages::In(_) => {}
        }
    }

    /// Judges the arrivals as the complete round, whose packets are numbered from `base` on.
    pub(crate) fn judge(&mut self, base: u64) -> Result<(), RoundFault>
        requires { base + length self.old.arrivals.numbers ≤ 2 ^ 63 }
        ensures lawful { OnOk result (IsJudged base self.old.arrivals None) }
        ensures refused { IfErr result (λ fault. IsJudged base self.old.arrivals (Some fault)) }
        ensures same { KeepsSame self.old self.new }
        ensures misplaced { self.new.has_misplaced ≡ self.old.has_misplaced }
    {
        self.arrivals.judge(base)
    }

    /// Adds the places of the round to `named`, a set of the same table, and begins the next round,
    /// without arrivals.
    pub(crate) fn clear_into(&mut self, named: &mut Dirty<A>)
        requires table { named.old.table ≡ self.old.arrivals.seen.table }
        ensures keeps { Keeps self.old.arrivals.seen.table [] self.new }
        ensures adds { AddsArrivals self.old.arrivals named.old named.new }
        ensures table { named.new.table ≡ named.old.table }
    {
        self.arrivals.clear_into(named);
        self.has_misplaced = false;
    }
}
