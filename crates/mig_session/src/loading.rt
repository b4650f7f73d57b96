//! The load of a session, once the guest's table is known: an `InPlaceSession` into a memory that
//! keeps the open round apart.

ghost use Rattle.std.specs.Prelude.{ℕ, List, ◌≡◌, ◌≢◌, ◌+◌, ◌<◌, ◌≤◌, ◌^◌, ◌↔◌, IsTrue, IsFalse, IfOk, OnOk, OnErr, length, take};
ghost use Rattle.mig_load_types.specs.Settings.{for_table};
ghost use Rattle.mig_load_types.specs.declared.settings.LoadSettings.{LoadSettings};
ghost use Rattle.mig_answer.specs.declared.verdict.Verdict.TheVariants.{Running as running};
ghost use Rattle.mig_answer.specs.Texts.{Texts, no_texts};
ghost use Rattle.mig_sources.specs.Sources.{HasSource, count_of, with_end, feed_step, end_step};
ghost use Rattle.mig_in_place.specs.Sources.{counts_of};
ghost use Rattle.mig_in_place.specs.Session.{TakesBytes};
ghost use Rattle.mig_assemble.specs.NamedPlaces.{left_out};
ghost use Rattle.mig_session.specs.Session.{held_of};
ghost use Rattle.mig_session.specs.Loading.{round_load, Took, TakesOn, KeepsAlone};

use mig_answer::Verdict;
use mig_in_place::InPlaceSession;
use mig_load_types::LoadSettings;
use mig_mem::{Memory, NoMemory, Table};
use mig_sources::Source;
use mig_staged::{OwnKeeper, Staged};
use std::alloc::{Allocator, Global};
use std::marker::Model;
use uuid::Uuid;

/// A load with its memory.
#[derive(Drop)]
pub(crate) struct RoundLoad<A: Allocator = Global> {
    load: InPlaceSession<A>,
    memory: Staged<Memory<A>, A>,
}

impl<A: Allocator> Model for RoundLoad<A> {
    ghost use Rattle.std.specs.Prelude.{◌≡◌};
    ghost use Rattle.mig_session.specs.Loading.{RoundLoad};

    ghost Value = { RoundLoad };

    ghost view = { λ l. record { load = l.load; memory = l.memory } };

    ghost invariant = { λ l. l.memory.kept.table ≡ l.load.table };
}

/// What is left of a load that is over: its memory, how many rounds are in it, and how many pages
/// these don't name.
#[derive(Drop)]
pub(crate) struct Held<A: Allocator = Global> {
    memory: Memory<A>,
    rounds: u64,
    missing: u64,
}

impl<A: Allocator> Model for Held<A> {
    ghost use Rattle.mig_session.specs.Session.{Held};

    ghost Value = { Held };

    ghost view = { λ h. record { memory = h.memory; rounds = h.rounds; missing = h.missing } };
}

impl<A: Allocator> Held<A> {
    pub(crate) fn memory(&self) -> &Memory<A>
        ensures { result.now ≡ self.now.memory }
    {
        &self.memory
    }

    pub(crate) fn rounds(&self) -> u64
        ensures { result ≡ self.now.rounds }
    {
        self.rounds
    }

    pub(crate) fn missing(&self) -> u64
        ensures { result ≡ self.now.missing }
    {
        self.missing
    }
}

impl<A: Allocator + Copy> RoundLoad<A> {
    /// Creates the load of a guest of this table, into a memory of zeros.
    pub(crate) fn new(
        alloc: A,
        settings: LoadSettings,
        table: &Table<A>,
        uuid: &Uuid,
        channels: usize,
    ) -> Result<RoundLoad<A>, NoMemory>
        requires channels { (1 ≤ channels) × (channels ≤ 255) }
        requires limit { settings.limit ≤ 2 ^ 40 }
        requires page_size { table.now.page_size ≡ settings.page_size }
        ensures took { IfOk result (λ l. Took settings uuid.now (no_texts channels) l) }
        ensures table { IfOk result (λ l. l.load.table ≡ table.now) }
    {
        let memory = Staged::zeroed(alloc, table)?;
        let load = InPlaceSession::new(alloc, settings, table, uuid, channels)?;
        // shows that the memory has a content for each place (`IsImage`)
        let first = memory.memory();
        let _table = first.table();
        Ok(RoundLoad { load, memory })
    }

    /// Takes bytes of a source, round after round, and keeps each round that was judged lawful.
    /// Returns how many were taken.
    pub(crate) fn take(&mut self, source: Source, piece: &[u8]) -> Result<usize, NoMemory>
        requires source { HasSource (counts_of self.old.load.sources) source }
        requires open { IsFalse (count_of (counts_of self.old.load.sources) source).ended }
        requires room { (count_of (counts_of self.old.load.sources) source).fed + length piece.now < 2 ^ 64 }
        ensures taken { IfOk result (λ n. n ≤ length piece.now) }
        ensures ok { IfOk result (λ n. TakesOn (feed_step source (take n piece.now)) self.old self.new) }
        ensures err { OnErr result (KeepsAlone (feed_step source piece.now) self.old self.new) }
        ensures table { self.new.load.table ≡ self.old.load.table }
        ensures rounds { self.old.load.rounds ≤ self.new.load.rounds }
    {
        self.load
            .feed_rounds_by(&OwnKeeper, &mut self.memory, source, piece)
    }
}

impl<A: Allocator> RoundLoad<A> {
    /// Ends a source, all of whose bytes were taken.
    pub(crate) fn end(&mut self, source: Source)
        requires { HasSource (counts_of self.old.load.sources) source }
        ensures ok { TakesOn (end_step source) self.old self.new }
        ensures counts { counts_of self.new.load.sources ≡ with_end (counts_of self.old.load.sources) source }
        ensures table { self.new.load.table ≡ self.old.load.table }
        ensures memory { self.new.memory ≡ self.old.memory }
        ensures rounds { (self.new.load.rounds ≡ self.old.load.rounds) × (self.new.load.base ≡ self.old.load.base) × (self.new.load.named ≡ self.old.load.named) }
        ensures settled { self.old.load.verdict ≢ running → self.new.load.verdict ≡ self.old.load.verdict }
    {
        self.load.end(source);
    }

    /// Returns whether bytes of a source are taken now.
    pub(crate) fn takes(&self, source: Source) -> bool
        requires { HasSource (counts_of self.now.load.sources) source }
        ensures { IsFalse result → self.now.load.verdict ≡ running → (given : LoadSettings) (uuid : List ℕ) (taken : Texts) → Took given uuid taken self.now
            → TakesBytes (for_table self.now.load.table given) uuid self.now.load.rounds taken source → ⊥ }
    {
        self.load.takes(source)
    }

    /// Returns whether a source was ended.
    pub(crate) fn ended(&self, source: Source) -> bool
        requires { HasSource (counts_of self.now.load.sources) source }
        ensures { result ≡ (count_of (counts_of self.now.load.sources) source).ended }
    {
        self.load.ended(source)
    }

    /// Returns the memory after the rounds so far.
    pub(crate) fn memory(&self) -> &Memory<A>
        ensures { result.now ≡ self.now.memory.kept }
    {
        self.memory.memory()
    }

    /// Returns how many rounds are in the memory.
    pub(crate) fn rounds(&self) -> u64
        ensures value { result ≡ self.now.load.rounds }
        ensures few { result ≤ 2 ^ 63 }
    {
        self.load.rounds()
    }

    /// Returns the verdict on the bytes taken.
    pub(crate) fn verdict(&self) -> Verdict
        ensures { result ≡ self.now.load.verdict }
    {
        self.load.verdict()
    }

    /// Returns how many pages the rounds in the memory don't name.
    pub(crate) fn missing(&self) -> u64
        ensures { result ≡ left_out self.now.load.named.table self.now.load.named.marked }
    {
        self.load.missing()
    }

    /// Drops the load, and returns its memory.
    pub(crate) fn into_held(self) -> Held<A>
        ensures { result ≡ held_of self }
    {
        let rounds = self.load.rounds();
        let missing = self.load.missing();
        Held {
            memory: self.memory.into_memory(),
            rounds,
            missing,
        }
    }
}
