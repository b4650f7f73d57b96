//! Whole rounds alone: a load that writes a round into the memory once it was judged lawful.

ghost use Rattle.std.specs.Prelude.{◌≡◌, ◌≢◌, ◌⊎◌, ◌+◌, ◌<◌, ◌≤◌, ◌^◌, Err, IsFalse, IfOk, OnErr, length, take};
ghost use Rattle.mig_sources.specs.Sources.{HasSource, count_of, feed_step, with_fed};
ghost use Rattle.mig_load_types.specs.declared.fault.InPlaceFault.TheVariants as in_place_fault;
ghost use Rattle.mig_staged.specs.Staged.{staged};
ghost use Rattle.mig_in_place.specs.Sources.{counts_of};
ghost use Rattle.mig_load_types.specs.Settings.{for_table};
ghost use Rattle.mig_answer.specs.declared.verdict.Verdict.TheVariants.{Running as running};
ghost use Rattle.mig_sources.specs.declared.source.Source.TheVariants.{Main as main_source};
ghost use Rattle.mig_in_place.specs.Session.{StepsOn, RunsOut, Tells, TakesBytes};
ghost use Rattle.mig_in_place.specs.WholeRounds.{KeepsRounds};

use crate::InPlaceSession;
use mig_load_types::InPlaceFault;
use mig_mem::{GuestTarget, NoMemory};
use mig_sources::Source;
use mig_staged::{CopyKeeper, Keeper, Staged};
use std::alloc::Allocator;

impl<A: Allocator + Copy> InPlaceSession<A> {
    /// Takes bytes as `feed` does, into a memory that keeps the open round apart. So the memory has
    /// the rounds counted, and nothing else, whatever has come of the next one.
    ///
    /// # Errors
    ///
    /// Those of `feed`. The memory has the rounds counted, and nothing else, after them too.
    pub fn feed_rounds<M: GuestTarget, B: Allocator>(
        &mut self,
        memory: &mut Staged<M, B>,
        source: Source,
        piece: &[u8],
    ) -> Result<usize, InPlaceFault>
        requires source { HasSource (counts_of self.old.sources) source }
        requires open { IsFalse (count_of (counts_of self.old.sources) source).ended }
        requires room { (count_of (counts_of self.old.sources) source).fed + length piece.now < 2 ^ 64 }
        ensures taken { IfOk result (λ n. n ≤ length piece.now) }
        ensures ok { IfOk result (λ n. StepsOn (feed_step source (take n piece.now)) (staged memory.old) self.old (staged memory.new) self.new) }
        ensures kept { IfOk result (λ n. KeepsRounds (feed_step source (take n piece.now)) (staged memory.old) memory.old.kept self.old memory.new.kept self.new) }
        ensures other { result ≡ Err in_place_fault.OtherTable → (self.old.table ≢ memory.old.kept.table) × (self.new ≡ self.old) × (memory.new ≡ memory.old) }
        ensures err { result ≡ Err in_place_fault.NoMemory → KeepsRounds (feed_step source piece.now) (staged memory.old) memory.old.kept self.old memory.new.kept self.new }
        ensures failed { result ≡ Err in_place_fault.NoMemory → RunsOut source piece.now (staged memory.old) self.old (staged memory.new) self.new }
        ensures main { IfOk result (λ n. source ≡ main_source → (n ≡ 0) ⊎ (n ≡ length piece.now)) }
        ensures waits { IfOk result (λ n. n < length piece.now → (self.new.verdict ≢ running)
            ⊎ Tells (staged memory.new) self.new (λ given uuid first texts. TakesBytes (for_table first.table given) uuid self.new.rounds texts source → ⊥)) }
        ensures settled { IfOk result (λ n. self.old.verdict ≢ running → (n ≡ 0) × (self.new ≡ self.old) × (staged memory.new ≡ staged memory.old) × (memory.new.kept ≡ memory.old.kept)) }
        ensures runs { result ≡ Err in_place_fault.NoMemory → self.old.verdict ≡ running }
        ensures counts { IfOk result (λ n. counts_of self.new.sources ≡ with_fed (counts_of self.old.sources) source n) }
        ensures table { (self.new.table ≡ self.old.table) × (memory.new.kept.table ≡ memory.old.kept.table) }
        ensures rounds { self.old.rounds ≤ self.new.rounds }
    {
        if !self.table().same(memory.table()) {
            return Err(InPlaceFault::OtherTable);
        }
        match self.feed_rounds_by(&CopyKeeper, memory, source, piece) {
            Ok(taken) => Ok(taken),
            Err(NoMemory) => Err(InPlaceFault::NoMemory),
        }
    }

    /// Takes bytes of a source as `feed_rounds` does, into a memory of the load's table, whose
    /// rounds a `Keeper` keeps.
    ///
    /// # Errors
    ///
    /// `NoMemory`: an allocation was refused. The memory has the rounds counted, and nothing else.
    pub fn feed_rounds_by<K: Keeper<M, B>, M: GuestTarget, B: Allocator>(
        &mut self,
        keeper: &K,
        memory: &mut Staged<M, B>,
        source: Source,
        piece: &[u8],
    ) -> Result<usize, NoMemory>
        requires source { HasSource (counts_of self.old.sources) source }
        requires open { IsFalse (count_of (counts_of self.old.sources) source).ended }
        requires room { (count_of (counts_of self.old.sources) source).fed + length piece.now < 2 ^ 64 }
        requires table { memory.old.kept.table ≡ self.old.table }
        ensures taken { IfOk result (λ n. n ≤ length piece.now) }
        ensures ok { IfOk result (λ n. StepsOn (feed_step source (take n piece.now)) (staged memory.old) self.old (staged memory.new) self.new) }
        ensures kept { IfOk result (λ n. KeepsRounds (feed_step source (take n piece.now)) (staged memory.old) memory.old.kept self.old memory.new.kept self.new) }
        ensures err { OnErr result (KeepsRounds (feed_step source piece.now) (staged memory.old) memory.old.kept self.old memory.new.kept self.new) }
        ensures failed { OnErr result (RunsOut source piece.now (staged memory.old) self.old (staged memory.new) self.new) }
        ensures main { IfOk result (λ n. source ≡ main_source → (n ≡ 0) ⊎ (n ≡ length piece.now)) }
        ensures waits { IfOk result (λ n. n < length piece.now → (self.new.verdict ≢ running)
            ⊎ Tells (staged memory.new) self.new (λ given uuid first texts. TakesBytes (for_table first.table given) uuid self.new.rounds texts source → ⊥)) }
        ensures settled { IfOk result (λ n. self.old.verdict ≢ running → (n ≡ 0) × (self.new ≡ self.old) × (staged memory.new ≡ staged memory.old) × (memory.new.kept ≡ memory.old.kept)) }
        ensures runs { OnErr result (self.old.verdict ≡ running) }
        ensures counts { IfOk result (λ n. counts_of self.new.sources ≡ with_fed (counts_of self.old.sources) source n) }
        ensures table { (self.new.table ≡ self.old.table) × (memory.new.kept.table ≡ memory.old.kept.table) }
        ensures rounds { self.old.rounds ≤ self.new.rounds }
    {
        let mut taken = 0;
        'rounds: while taken < piece.len() {
            let (count, judged) = self.feed_round(memory, source, &piece[taken..])?;
            taken += count;
            if judged {
                keeper.keep(memory);
                self.next_round(memory);
            } else if count == 0 {
                return Ok(taken);
            }
        }
        Ok(taken)
    }
}
