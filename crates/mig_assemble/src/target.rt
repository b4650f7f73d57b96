//! The memory of a guest that is being loaded. `mig_relay` and `mig_session` apply their rounds to
//! one.

ghost use Rattle.std.specs.Prelude.{◌≡◌, ◌+◌, ◌<◌, ◌≤◌, ◌^◌, ◌↔◌, ◌⊎◌, IsTrue, IfOk, IfErr, OnOk, OnErr, None, Some, All, length, map};
ghost use Rattle.mig_mem.specs.Round.{with_round};
ghost use Rattle.mig_packet.specs.Lent.{fields};
ghost use Rattle.mig_assemble.specs.declared.fault.RoundFault.TheVariants.{NoMemory as fault_no_memory};
ghost use Rattle.mig_assemble.specs.Judging.{refusal, places_of};
ghost use Rattle.mig_assemble.specs.NamedPlaces.{with_places};
ghost use Rattle.mig_assemble.specs.Target.{new_target, target_over, pages_of_round, FitsTable, after_round};

use crate::judge::judge;
use crate::named::{name_packets, name_records};
use crate::put::{put_packets, put_records};
use crate::round_list::{page_total, round_list};
use crate::{Arrivals, Gathered, RoundFault};
use mig_mem::{Dirty, GuestTarget, Memory, NoMemory, Table};
use mig_stream::StreamRound;
use std::alloc::{Allocator, Global};
use std::fmt;
use std::marker::Model;
use std::thread::Threads;

// For fewer pages than these a round isn't put by threads: their list and the threads' start take
// longer than they save.
const FEWEST: usize = 4096;

/// The memory of a guest that is being loaded: its first contents, which are zeros if `new` creates
/// it, with the rounds so far applied.
pub struct Target<A: Allocator = Global, M: GuestTarget = Memory<A>> {
    memory: M,
    // the places that the rounds named
    named: Dirty<A>,
    // what came of a round, while it is judged: none between two calls
    arrivals: Arrivals<A>,
    alloc: A,
    rounds: u64,
    base: u64,
}

// Written out, so that a caller's proof passes a call where a value is dropped.
impl<A: Allocator, M: GuestTarget + Drop> Drop for Target<A, M> {
    fn drop(self) {
        let Target {
            memory: _,
            named: _,
            arrivals: _,
            alloc: _,
            rounds: _,
            base: _,
        } = self;
    }
}

impl<A: Allocator, M: GuestTarget> Model for Target<A, M> {
    ghost use Rattle.mig_assemble.specs.Target.{LoadTarget};

    ghost Value = { LoadTarget };

    ghost view = { λ t. record { memory = M.image t.memory; named = t.named; rounds = t.rounds; base = t.base } };

    ghost use Rattle.mig_assemble.specs.Target.{HasSets};

    ghost invariant = { λ t. HasSets (M.image t.memory) t.named t.arrivals };
}

impl<A: Allocator, M: GuestTarget> fmt::Debug for Target<A, M> {
    fn fmt<W: fmt::Write>(&self, f: &mut fmt::Formatter<W>) -> fmt::Result {
        f.pad("Target { .. }")
    }
}

impl<A: Allocator + Copy> Target<A> {
    /// Creates a memory of zeros, without a round. It allocates the guest's complete memory at
    /// once, and two bits for each page.
    ///
    /// # Errors
    ///
    /// `NoMemory`: an allocation was refused.
    pub fn new<B: Allocator>(alloc: A, table: &Table<B>) -> Result<Target<A>, NoMemory>
        ensures { IfOk result (λ t. t ≡ new_target table.now) }
    {
        match Target::over(alloc, Memory::zeroed(alloc, table)?) {
            Ok(target) => Ok(target),
            Err(_) => Err(NoMemory),
        }
    }
}

impl<A: Allocator + Copy, M: GuestTarget> Target<A, M> {
    /// Takes existing memory, with its contents, without a round. It allocates two bits for each
    /// page.
    ///
    /// # Errors
    ///
    /// The memory, as it was: an allocation was refused.
    pub fn over(alloc: A, memory: M) -> Result<Target<A, M>, M>
        ensures ok { IfOk result (λ t. t ≡ target_over (M.image memory)) }
        ensures err { IfErr result (λ m. M.image m ≡ M.image memory) }
    {
        let Ok(arrivals) = Arrivals::new(alloc, memory.table()) else {
            return Err(memory);
        };
        let Ok(named) = Dirty::none(alloc, memory.table()) else {
            return Err(memory);
        };
        Ok(Target {
            memory,
            named,
            arrivals,
            alloc,
            rounds: 0,
            base: 0,
        })
    }

    /// Judges a round of page records and packets, and applies it. The packets may have been
    /// gathered in any order. A caller tests the records by `fits`.
    ///
    /// # Errors
    ///
    /// The first refusal that applies, in the order of `RoundFault`. `NoMemory` may take the place
    /// of any: an allocation was refused. Nothing changes.
    pub fn round<B: Allocator, C: Allocator>(
        &mut self,
        round: &StreamRound<B>,
        gathered: &Gathered<'_, C>,
    ) -> Result<(), RoundFault>
        requires fits { FitsTable self.old.memory.table round.now }
        requires page_sizes { All (λ p. p.page_size ≡ self.old.memory.table.page_size) gathered.now }
        requires room { self.old.base + length gathered.now ≤ 2 ^ 63 }
        requires rounds { self.old.rounds < 2 ^ 63 }
        ensures lawful { OnOk result (refusal self.old.memory.table self.old.base (pages_of_round round.now) (map fields gathered.now) ≡ None) }
        ensures ok { OnOk result (self.new ≡ after_round self.old round.now (map fields gathered.now)) }
        ensures refused { IfErr result (λ fault. (fault ≡ fault_no_memory)
            ⊎ (refusal self.old.memory.table self.old.base (pages_of_round round.now) (map fields gathered.now) ≡ Some fault)) }
        ensures err { OnErr result (self.new ≡ self.old) }
    {
        let packets = gathered.packets();
        let placed = judge(self.alloc, &mut self.arrivals, self.base, round, packets)?;
        self.section(round);
        put_packets(&mut self.memory, &placed);
        name_packets(&mut self.named, &placed);
        self.base += packets.len() as u64;
        Ok(())
    }
}

impl<A: Allocator + Copy + Send> Target<A> {
    /// Judges a round and applies it, as `round` does, and writes its pages by at most `threads`
    /// threads, the caller's thread among them. All others have ended when the call returns. A
    /// round of fewer than 4,096 pages is written by the caller's thread.
    ///
    /// # Errors
    ///
    /// The first refusal that applies, in the order of `RoundFault`. `NoMemory` may take the place
    /// of any: an allocation was refused. Nothing changes.
    pub fn round_by<R: Threads + Sync, B: Allocator, C: Allocator>(
        &mut self,
        rt: &R,
        threads: u64,
        round: &StreamRound<B>,
        gathered: &Gathered<'_, C>,
    ) -> Result<(), RoundFault>
        requires threads { 0 < threads }
        requires fits { FitsTable self.old.memory.table round.now }
        requires page_sizes { All (λ p. p.page_size ≡ self.old.memory.table.page_size) gathered.now }
        requires room { self.old.base + length gathered.now ≤ 2 ^ 63 }
        requires rounds { self.old.rounds < 2 ^ 63 }
        ensures lawful { OnOk result (refusal self.old.memory.table self.old.base (pages_of_round round.now) (map fields gathered.now) ≡ None) }
        ensures ok { OnOk result (self.new ≡ after_round self.old round.now (map fields gathered.now)) }
        ensures refused { IfErr result (λ fault. (fault ≡ fault_no_memory)
            ⊎ (refusal self.old.memory.table self.old.base (pages_of_round round.now) (map fields gathered.now) ≡ Some fault)) }
        ensures err { OnErr result (self.new ≡ self.old) }
    {
        let packets = gathered.packets();
        if threads == 1 || page_total(round, packets) < FEWEST {
            return self.round(round, gathered);
        }
        let (rounds, base) = (self.rounds, self.base);
        let placed = judge(self.alloc, &mut self.arrivals, base, round, packets)?;
        let pages = round_list(self.alloc, self.memory.table(), round, packets)?;
        self.memory.put_pages(rt, threads, pages.as_slice());
        name_records(&mut self.named, round);
        name_packets(&mut self.named, &placed);
        self.rounds = rounds + 1;
        self.base = base + packets.len() as u64;
        Ok(())
    }
}

impl<A: Allocator, M: GuestTarget> Target<A, M> {
    /// Returns the memory after the rounds so far.
    pub fn memory(&self) -> &M
        ensures { M.image result.now ≡ self.now.memory }
    {
        &self.memory
    }

    /// Returns the places that the rounds named: those of their records and of their packets'
    /// pages.
    pub fn named(&self) -> &Dirty<A>
        ensures { result.now ≡ self.now.named }
    {
        &self.named
    }

    /// Returns how many rounds were applied.
    pub fn rounds(&self) -> u64
        ensures { result ≡ self.now.rounds }
    {
        self.rounds
    }

    /// Returns the number that the first packet of the next round must have: how many packets all
    /// rounds so far had together.
    pub fn base(&self) -> u64
        ensures { result ≡ self.now.base }
    {
        self.base
    }

    /// Returns the memory.
    pub fn into_memory(self) -> M
        ensures { M.image result ≡ self.memory }
    {
        let Target {
            memory,
            named: _,
            arrivals: _,
            alloc: _,
            rounds: _,
            base: _,
        } = self;
        memory
    }

    /// Returns whether a round is of this memory: its pages have the table's page size, and are in
    /// the table.
    pub fn fits<B: Allocator>(&self, round: &StreamRound<B>) -> bool
        ensures { IsTrue result ↔ FitsTable self.now.memory.table round.now }
    {
        fits(self.memory.table(), round)
    }

    /// Applies a round of page records, in the order of the stream. If a page occurs more than once
    /// the last one counts. A caller tests the round by `fits`.
    pub fn section<B: Allocator>(&mut self, round: &StreamRound<B>)
        requires fits { FitsTable self.old.memory.table round.now }
        requires room { self.old.rounds < 2 ^ 63 }
        ensures memory { self.new.memory ≡ with_round self.old.memory (pages_of_round round.now) }
        ensures named { self.new.named ≡ with_places self.old.named (places_of (pages_of_round round.now)) }
        ensures rounds { self.new.rounds ≡ self.old.rounds + 1 }
        ensures base { self.new.base ≡ self.old.base }
    {
        put_records(&mut self.memory, round);
        name_records(&mut self.named, round);
        self.rounds += 1;
    }
}

/// Returns whether a round of page records is of `table`: it has the table's page size, and its
/// places are the table's.
pub(crate) fn fits<A: Allocator, B: Allocator>(table: &Table<A>, round: &StreamRound<B>) -> bool
    ensures { IsTrue result ↔ FitsTable table.now round.now }
{
    if round.page_size() != table.page_size() {
        return false;
    }
    for i in 0..round.len() {
        if !table.holds(round.place(i)) {
            return false;
        }
    }
    true
}
