//! The load of several channels into existing memory, from pieces of their bytes.

ghost use Rattle.std.specs.Prelude.{ℕ, ◌≡◌, ◌≢◌, ◌⊎◌, ◌+◌, ◌*◌, ◌<◌, ◌≤◌, ◌^◌, ◌++◌, ◌↔◌, List, [], length, map, take, replicate, true, false, None, Some, Ok, Err, IsTrue, IsFalse, IfOk, IfErr, OnOk, OnErr, All, IfSome, slice_get, vec_capacity};
ghost use Rattle.std.specs.List.{AllZip};
ghost use Rattle.std.specs.Option.{IsSomeAnd, option_copied};
ghost use Rattle.mig_mem.specs.PageSize.{IsPageSize};
ghost use Rattle.mig_mem.specs.RamTable.{RamTable};
ghost use Rattle.mig_mem.specs.Image.{Image, IsImage};
ghost use Rattle.mig_packet.specs.Paging.{none_given};
ghost use Rattle.mig_load_types.specs.declared.fault.InPlaceFault.TheVariants as in_place_fault;
ghost use Rattle.mig_load_types.specs.declared.fault.Origin.TheVariants as origin;
ghost use Rattle.mig_load_types.specs.declared.settings.LoadSettings.{LoadSettings};
ghost use Rattle.mig_load_types.specs.declared.fault.Fault.TheVariants.{NoMemory as fault_no_memory};
ghost use Rattle.mig_load_types.specs.Settings.{for_table, main_of, channel_of};
ghost use Rattle.mig_answer.specs.declared.verdict.Verdict.TheVariants.{Running as running, Done as done};
ghost use Rattle.mig_answer.specs.Texts.{no_text, no_texts};
ghost use Rattle.mig_answer.specs.MultiLoad.{failed};
ghost use Rattle.mig_sources.specs.declared.source.Source.TheVariants as source;
ghost use Rattle.mig_sources.specs.declared.source.Source.TheVariants.{Main as main_source};
ghost use Rattle.mig_sources.specs.Sources.{HasSource, count_of, no_count, with_fed, with_end, feed_step, end_step};
ghost use Rattle.mig_sources.specs.Faults.{IsSourceValidUpTo, HasFault};
ghost use Rattle.mig_in_place.specs.Answer.{IsInPlaceAnswer};
ghost use Rattle.mig_in_place.specs.Missing.{HasMissing};
ghost use Rattle.mig_stream.specs.Reading.{Settings};
ghost use Rattle.mig_stream.specs.Reader.{HasTable, HasClosedAt};
ghost use Rattle.mig_answer.specs.Texts.{Text, Texts};
ghost use Rattle.mig_mem.specs.Lent.{lent_bytes};
ghost use Rattle.mig_mem.specs.Round.{with_round};
ghost use Rattle.mig_packet.specs.Packet.{normal_count};
ghost use Rattle.mig_in_place.specs.TakenPackets.{packet_bytes, pages_taken};
ghost use Rattle.mig_in_place.specs.Apart.{TakesApart};
ghost use Rattle.mig_assemble.specs.HeadPlaces.{LieIn};
ghost use Rattle.mig_assemble.specs.NamedPlaces.{left_out};
ghost use Rattle.mig_in_place.specs.Round.{KeepsSome};
ghost use Rattle.mig_in_place.specs.WholeRounds.{HasRoundsAlone, KeepsRounds};
ghost use Rattle.mig_in_place.specs.Sources.{counts_of, main_count, channel_count, at_next_round, StandsAt, HoldsChannel, TellsChannelStatus, TellsHello, HasTakenRecords};
ghost use Rattle.mig_in_place.specs.Session.{TakesBytes, StandsFor, LacksMemory, StepsOn, StillLacks, RunsOut, Tells, HasAllRounds, MoreMayCome, HaveTaken, Loading, Loads, Stands, IsDue, TellsVerdict, PassesAt, IsUnsettled, Lacks, LacksBehind, with_bytes, with_over, TakesNoMore, IsOpenAt, IsMainOf, IsJudged, HasNextRound, JudgesOn};

use crate::channel::Channel;
use crate::main_stream::{MainStream, is_clean, is_pending};
use crate::round::RoundInHand;
use mig_answer::{Status, Verdict, repeated_id, sources_verdict};
use mig_assemble::put_records;
use mig_load_types::{Fault, InPlaceFault, LoadFault, LoadSettings, Origin};
use mig_marking::lacking;
use mig_mem::{Dirty, GuestTarget, NoMemory, Table};
use mig_packet::PacketHead;
use mig_sources::Source;
use std::alloc::{Allocator, Global};
use std::fmt::{self, Debug, Formatter};
use std::marker::Model;
use uuid::Uuid;

// Packets are numbered below 2^63, and as many rounds are counted. More are refused with
// `NoMemory`. No stream in memory has that many.
const PACKET_LIMIT: u64 = 1 << 63;

const ROUND_LIMIT: u64 = 1 << 63;

/// Loads a guest from the pieces of a main stream and of its channels, into memory that is passed
/// with each piece. It writes each page once: a channel's when its bytes have arrived.
///
/// A channel takes bytes up to the end of the current round. What follows waits with the caller
/// until all sources have the round, and it was judged. The main stream takes a whole piece, and
/// its page records of later rounds are kept. Verdict and rounds are a `Session`'s on the bytes
/// taken.
///
/// Each call must be passed the memory as the call before left it. Nothing is promised of a page
/// that was written meanwhile.
///
/// # Examples
///
/// A guest is received over connections, into `memory`. `buffered` gives each a buffer:
///
/// <!-- quoted from crates/mig_uses/src/by_turns.rt -->
/// ```rust
/// let channels = connections.len() - 1;
/// let table = memory.table();
/// let settings = LoadSettings::new(table.page_size(), limit);
/// let Ok(mut load) = InPlaceSession::new(alloc, settings, table, uuid, channels) else {
///     return Err(TurnFault::NoMemory);
/// };
/// let Ok(mut sources) = buffered(alloc, connections) else {
///     return Err(TurnFault::NoMemory);
/// };
/// pump_by_turns(&mut sources, order, &mut load, memory, TURNS)
/// ```
pub struct InPlaceSession<A: Allocator = Global> {
    table: Table<A>,
    main: MainStream<A>,
    channels: Vec<Channel<A>, A>,
    round: RoundInHand<A>,
    // the channels' last statuses, with room for all of them
    statuses: Vec<Status, A>,
    hellos: Vec<Option<u8>, A>,
    // how many rounds were judged, how many packets they had, and the places that they named
    rounds: u64,
    base: u64,
    named: Dirty<A>,
    verdict: Verdict,
}

impl<A: Allocator> Model for InPlaceSession<A> {
    ghost use Rattle.std.specs.Prelude.{vec_capacity};
    ghost use Rattle.mig_in_place.specs.Session.{InPlaceLoad, IsLoad};

    ghost Value = { InPlaceLoad };

    ghost view = { λ s. record {
      table = s.table;
      sources = record { main = s.main; channels = s.channels.items };
      round = s.round;
      rounds = s.rounds;
      base = s.base;
      named = s.named;
      verdict = s.verdict;
    } };

    ghost invariant = { λ s. IsLoad (record {
      table = s.table;
      sources = record { main = s.main; channels = s.channels.items };
      round = s.round;
      rounds = s.rounds;
      base = s.base;
      named = s.named;
      verdict = s.verdict;
    }) (vec_capacity s.statuses) (vec_capacity s.hellos) };
}

// Written out, and not derived: a caller's proof then passes a call where a load is dropped, and
// not each of its fields.
impl<A: Allocator> Drop for InPlaceSession<A> {
    fn drop(self) {
        let InPlaceSession {
            table: _,
            main: _,
            channels: _,
            round: _,
            statuses: _,
            hellos: _,
            rounds: _,
            base: _,
            named: _,
            verdict: _,
        } = self;
    }
}

/// Prints an opaque value: it holds guest memory.
impl<A: Allocator> Debug for InPlaceSession<A> {
    fn fmt<W: fmt::Write>(&self, f: &mut Formatter<W>) -> fmt::Result {
        f.write_str("InPlaceSession { .. }")
    }
}

fn failed(round: u64, source: Origin, fault: Fault) -> Verdict
    ensures { result ≡ failed round source fault }
{
    Verdict::Failed(LoadFault {
        round,
        source,
        fault,
    })
}

// Creates channels before their first byte.
fn new_channels<A: Allocator + Copy>(
    alloc: A,
    settings: LoadSettings,
    uuid: &Uuid,
    channels: usize,
) -> Result<Vec<Channel<A>, A>, NoMemory>
    requires page_size { IsPageSize settings.page_size }
    ensures holds { IfOk result (λ v. (table : RamTable) → AllZip (λ text c. HoldsChannel (channel_of settings uuid.now channels) table 0 text (none_given (channel_of settings uuid.now channels)) c)
        (replicate channels no_text) v.items) }
    ensures counts { IfOk result (λ v. map channel_count v.items ≡ replicate channels no_count) }
{
    let mut made = Vec::with_capacity(alloc, channels)?;
    for _ in 0..channels {
        made.push_reserved(Channel::new(alloc, settings, *uuid, channels)?);
    }
    Ok(made)
}

// Returns whether the main stream's size list is complete, and names another table.
fn is_of_other_table<A: Allocator>(main: &MainStream<A>, table: &Table<A>) -> bool
    ensures other { IsTrue result → (given : Settings) (k : ℕ) (text : Text) → StandsAt given k text main.now
        → (other : RamTable) × HasTable given text.bytes (Some other) × (other ≢ table.now) }
    ensures own { IsFalse result → (given : Settings) (k : ℕ) (text : Text) → StandsAt given k text main.now
        → HasTable given text.bytes None ⊎ HasTable given text.bytes (Some table.now) }
{
    match main.table() {
        Some(found) => !found.same(table),
        None => false,
    }
}

// Takes the main stream's records of the current round, if they have arrived, adds them to the
// round, and writes them, as long as no page is known to be misplaced.
fn take_main_round<A: Allocator, M: GuestTarget>(
    main: &mut MainStream<A>,
    round: &mut RoundInHand<A>,
    memory: &mut M,
)
    requires main { IsMainOf (M.image memory.old).table main.old }
    requires round { KeepsSome (M.image memory.old).table round.old }
    ensures taken { (given : Settings) (k : ℕ) (text : Text) → StandsAt given k text main.old
        → HasTakenRecords given k text main.old round.old (M.image memory.old) main.new round.new (M.image memory.new) }
    ensures main { IsMainOf (M.image memory.old).table main.new }
    ensures round { KeepsSome (M.image memory.old).table round.new }
    ensures kept { M.kept memory.new ≡ M.kept memory.old }
    ensures table { (M.image memory.new).table ≡ (M.image memory.old).table }
    ensures count { main_count main.new ≡ main_count main.old }
{
    if let Some(records) = main.take_round() {
        round.records(&records);
        if !round.has_misplaced() {
            put_records(memory, &records);
        }
    }
}

// Goes on to the next round of each channel.
fn advance_channels<A: Allocator>(channels: &mut [Channel<A>])
    ensures { channels.new ≡ map at_next_round channels.old }
{
    for channel in channels.iter_mut() {
        channel.advance();
    }
}

// Puts the channels' statuses at the current round into `statuses`.
fn look_at_statuses<A: Allocator>(channels: &[Channel<A>], statuses: &mut Vec<Status, A>)
    requires room { length channels.now ≤ vec_capacity statuses.old }
    ensures told { AllZip TellsChannelStatus channels.now statuses.new.items }
    ensures room { vec_capacity statuses.old ≤ vec_capacity statuses.new }
{
    statuses.clear();
    for channel in channels {
        statuses.push_reserved(channel.status());
    }
}

// Puts the ids of the channels' hellos into `hellos`.
fn look_at_hellos<A: Allocator>(channels: &[Channel<A>], hellos: &mut Vec<Option<u8>, A>)
    requires room { length channels.now ≤ vec_capacity hellos.old }
    ensures told { AllZip TellsHello channels.now hellos.new.items }
    ensures room { vec_capacity hellos.old ≤ vec_capacity hellos.new }
{
    hellos.clear();
    for channel in channels {
        hellos.push_reserved(channel.hello());
    }
}

impl<A: Allocator + Copy> InPlaceSession<A> {
    /// Creates a load into memory of `table`, which it copies, from `channels` channels under
    /// `uuid`, with `settings`. Their page size doesn't count: pages have the size that `table`
    /// has. The limit must be at least the table's own total.
    ///
    /// # Errors
    ///
    /// `NoMemory`: an allocation was refused.
    pub fn new<B: Allocator>(
        alloc: A,
        settings: LoadSettings,
        table: &Table<B>,
        uuid: &Uuid,
        channels: usize,
    ) -> Result<InPlaceSession<A>, NoMemory>
        requires channels { (1 ≤ channels) × (channels ≤ 255) }
        requires limit { settings.limit ≤ 2 ^ 40 }
        ensures stands { IfOk result (λ s. (first : Image) → IsImage first → first.table ≡ table.now → StandsFor settings uuid.now first (no_texts channels) first s) }
        ensures alone { IfOk result (λ s. (first : Image) → IsImage first → first.table ≡ table.now
            → HasRoundsAlone (for_table first.table settings) uuid.now first (no_texts channels) s.rounds first) }
        ensures table { IfOk result (λ s. s.table ≡ table.now) }
        ensures counts { IfOk result (λ s. counts_of s.sources ≡ record { main = no_count; channels = replicate channels no_count }) }
    {
        table.keeps_limits();
        let page_size = table.page_size();
        let settings = LoadSettings {
            page_size,
            ..settings
        };
        Ok(InPlaceSession {
            table: table.copy_in(alloc)?,
            main: MainStream::new(alloc, settings),
            channels: new_channels(alloc, settings, uuid, channels)?,
            round: RoundInHand::new(alloc, table)?,
            statuses: Vec::with_capacity(alloc, channels)?,
            hellos: Vec::with_capacity(alloc, channels)?,
            rounds: 0,
            base: 0,
            named: Dirty::none(alloc, table)?,
            verdict: Verdict::Running,
        })
    }

    /// Takes the first bytes of `piece`, the next of `source`, and writes their pages into the
    /// memory. Of a channel it takes those of the current round, of the main stream all. Returns
    /// how many bytes it took. Feed the others again once `takes` returns true for the source.
    ///
    /// # Errors
    ///
    /// - `OtherTable`: `memory` has another table than the load. Nothing has changed.
    /// - `NoMemory`: an allocation was refused. The load has failed for good: the verdict is
    ///   `NoMemory` from now on. The bytes of the piece that were taken are counted.
    pub fn feed<M: GuestTarget>(
        &mut self,
        memory: &mut M,
        source: Source,
        piece: &[u8],
    ) -> Result<usize, InPlaceFault>
        requires source { HasSource (counts_of self.old.sources) source }
        requires open { IsFalse (count_of (counts_of self.old.sources) source).ended }
        requires room { (count_of (counts_of self.old.sources) source).fed + length piece.now < 2 ^ 64 }
        ensures taken { IfOk result (λ n. n ≤ length piece.now) }
        ensures ok { IfOk result (λ n. StepsOn (feed_step source (take n piece.now)) (M.image memory.old) self.old (M.image memory.new) self.new) }
        ensures main { IfOk result (λ n. source ≡ main_source → (n ≡ 0) ⊎ (n ≡ length piece.now)) }
        ensures waits { IfOk result (λ n. n < length piece.now → (self.new.verdict ≢ running)
            ⊎ Tells (M.image memory.new) self.new (λ given uuid first texts. TakesBytes (for_table first.table given) uuid self.new.rounds texts source → ⊥)) }
        ensures other { (result ≡ Err in_place_fault.OtherTable) ↔ ((M.image memory.old).table ≢ self.old.table) }
        ensures unchanged { result ≡ Err in_place_fault.OtherTable → (self.new ≡ self.old) × (M.image memory.new ≡ M.image memory.old) }
        ensures failed { result ≡ Err in_place_fault.NoMemory → RunsOut source piece.now (M.image memory.old) self.old (M.image memory.new) self.new }
        ensures settled { self.old.verdict ≢ running → result ≢ Err in_place_fault.OtherTable
            → (result ≡ Ok 0) × (self.new ≡ self.old) × (M.image memory.new ≡ M.image memory.old) }
        ensures counts { IfOk result (λ n. counts_of self.new.sources ≡ with_fed (counts_of self.old.sources) source n) }
        ensures kept { M.kept memory.new ≡ M.kept memory.old }
        ensures table { (self.new.table ≡ self.old.table) × ((M.image memory.new).table ≡ (M.image memory.old).table) }
        ensures rounds { self.old.rounds ≤ self.new.rounds }
    {
        if !self.table.same(memory.table()) {
            return Err(InPlaceFault::OtherTable);
        }
        match self.take(memory, source, piece) {
            Ok(taken) => Ok(taken),
            Err(NoMemory) => Err(InPlaceFault::NoMemory),
        }
    }

    /// Takes the first bytes of `piece`, the next of `source`, as `feed` does, but none of a round
    /// after the current one. Returns how many it took, and whether all sources have the current
    /// round now, and it is lawful. Then the memory has the round. Call `next_round` next: between
    /// the two the caller may keep the round, as one does that passes on whole rounds alone.
    ///
    /// # Errors
    ///
    /// `NoMemory`, as of `feed`.
    pub fn feed_round<M: GuestTarget>(
        &mut self,
        memory: &mut M,
        source: Source,
        piece: &[u8],
    ) -> Result<(usize, bool), NoMemory>
        requires source { HasSource (counts_of self.old.sources) source }
        requires open { IsFalse (count_of (counts_of self.old.sources) source).ended }
        requires room { (count_of (counts_of self.old.sources) source).fed + length piece.now < 2 ^ 64 }
        requires table { (M.image memory.old).table ≡ self.old.table }
        ensures taken { IfOk result (λ found. found.0 ≤ length piece.now) }
        ensures ok { IfOk result (λ found. IsFalse found.1 → StepsOn (feed_step source (take found.0 piece.now)) (M.image memory.old) self.old (M.image memory.new) self.new) }
        ensures judged { IfOk result (λ found. IsTrue found.1 → JudgesOn (feed_step source (take found.0 piece.now)) (M.image memory.old) self.old (M.image memory.new) self.new) }
        ensures next { IfOk result (λ found. IsTrue found.1 → HasNextRound self.new) }
        ensures main { IfOk result (λ found. source ≡ main_source → (found.0 ≡ 0) ⊎ (found.0 ≡ length piece.now)) }
        ensures waits { IfOk result (λ found. IsFalse found.1 → found.0 < length piece.now → (self.new.verdict ≢ running)
            ⊎ Tells (M.image memory.new) self.new (λ given uuid first texts. TakesBytes (for_table first.table given) uuid self.new.rounds texts source → ⊥)) }
        ensures failed { OnErr result (RunsOut source piece.now (M.image memory.old) self.old (M.image memory.new) self.new) }
        ensures settled { IfOk result (λ found. self.old.verdict ≢ running → (found.0 ≡ 0) × IsFalse found.1 × (self.new ≡ self.old) × (M.image memory.new ≡ M.image memory.old)) }
        ensures runs { OnErr result (self.old.verdict ≡ running) }
        ensures counts { IfOk result (λ found. counts_of self.new.sources ≡ with_fed (counts_of self.old.sources) source found.0) }
        ensures kept { M.kept memory.new ≡ M.kept memory.old }
        ensures table { (self.new.table ≡ self.old.table) × ((M.image memory.new).table ≡ (M.image memory.old).table) }
        ensures rounds { self.new.rounds ≡ self.old.rounds }
    {
        if !self.is_taking(source) {
            return Ok((0, false));
        }
        match self.read_round(memory, source, piece) {
            Ok(found) => Ok(found),
            Err(NoMemory) => {
                self.verdict = failed(self.rounds, Origin::Round, Fault::NoMemory);
                Err(NoMemory)
            }
        }
    }

    // Takes bytes of a source for the current round, and judges the bytes so far.
    fn read_round<M: GuestTarget>(
        &mut self,
        memory: &mut M,
        source: Source,
        piece: &[u8],
    ) -> Result<(usize, bool), NoMemory>
        requires source { HasSource (counts_of self.old.sources) source }
        requires open { IsFalse (count_of (counts_of self.old.sources) source).ended }
        requires room { (count_of (counts_of self.old.sources) source).fed + length piece.now < 2 ^ 64 }
        requires table { (M.image memory.old).table ≡ self.old.table }
        requires runs { self.old.verdict ≡ running }
        requires here { IsOpenAt source self.old.sources }
        ensures taken { IfOk result (λ found. found.0 ≤ length piece.now) }
        ensures stands { IfOk result (λ found. IsFalse found.1 → (f : Loading) → Loads f (M.image memory.old) self.old
            → Stands (with_bytes source (take found.0 piece.now) f) (M.image memory.new) self.new) }
        ensures judged { IfOk result (λ found. IsTrue found.1 → (f : Loading) → Loads f (M.image memory.old) self.old
            → IsJudged (with_bytes source (take found.0 piece.now) f) (M.image memory.new) self.new) }
        ensures next { IfOk result (λ found. IsTrue found.1 → HasNextRound self.new) }
        ensures lacks { OnErr result (LacksBehind source piece.now (λ f. Loads f (M.image memory.old) self.old) self.old (M.image memory.new) self.new) }
        ensures main { IfOk result (λ found. source ≡ main_source → found.0 ≡ length piece.now) }
        ensures waits { IfOk result (λ found. found.0 < length piece.now → TakesNoMore source self.new.sources) }
        ensures counts { IfOk result (λ found. counts_of self.new.sources ≡ with_fed (counts_of self.old.sources) source found.0) }
        ensures kept { M.kept memory.new ≡ M.kept memory.old }
        ensures table { (self.new.table ≡ self.old.table) × ((M.image memory.new).table ≡ (M.image memory.old).table) }
        ensures rounds { self.new.rounds ≡ self.old.rounds }
    {
        let count = self.read(memory, source, piece)?;
        let judged = self.judge_round()?;
        Ok((count, judged))
    }

    // Takes bytes of a source, round after round, as long as some are taken.
    fn take<M: GuestTarget>(
        &mut self,
        memory: &mut M,
        source: Source,
        piece: &[u8],
    ) -> Result<usize, NoMemory>
        requires source { HasSource (counts_of self.old.sources) source }
        requires open { IsFalse (count_of (counts_of self.old.sources) source).ended }
        requires room { (count_of (counts_of self.old.sources) source).fed + length piece.now < 2 ^ 64 }
        requires table { (M.image memory.old).table ≡ self.old.table }
        ensures taken { IfOk result (λ n. n ≤ length piece.now) }
        ensures steps { IfOk result (λ n. StepsOn (feed_step source (take n piece.now)) (M.image memory.old) self.old (M.image memory.new) self.new) }
        ensures failed { OnErr result (RunsOut source piece.now (M.image memory.old) self.old (M.image memory.new) self.new) }
        ensures main { IfOk result (λ n. source ≡ main_source → (n ≡ 0) ⊎ (n ≡ length piece.now)) }
        ensures waits { IfOk result (λ n. n < length piece.now → (self.new.verdict ≢ running)
            ⊎ Tells (M.image memory.new) self.new (λ given uuid first texts. TakesBytes (for_table first.table given) uuid self.new.rounds texts source → ⊥)) }
        ensures settled { IfOk result (λ n. self.old.verdict ≢ running → (n ≡ 0) × (self.new ≡ self.old) × (M.image memory.new ≡ M.image memory.old)) }
        ensures runs { OnErr result (self.old.verdict ≡ running) }
        ensures counts { IfOk result (λ n. counts_of self.new.sources ≡ with_fed (counts_of self.old.sources) source n) }
        ensures kept { M.kept memory.new ≡ M.kept memory.old }
        ensures table { (self.new.table ≡ self.old.table) × ((M.image memory.new).table ≡ (M.image memory.old).table) }
        ensures rounds { self.old.rounds ≤ self.new.rounds }
    {
        let mut taken = 0;
        'rounds: while taken < piece.len() {
            let (count, judged) = self.feed_round(memory, source, &piece[taken..])?;
            taken += count;
            if judged {
                self.next_round(memory);
            } else if count == 0 {
                return Ok(taken);
            }
        }
        Ok(taken)
    }

    // Takes bytes of a source for the current round.
    fn read<M: GuestTarget>(
        &mut self,
        memory: &mut M,
        source: Source,
        piece: &[u8],
    ) -> Result<usize, NoMemory>
        requires source { HasSource (counts_of self.old.sources) source }
        requires open { IsFalse (count_of (counts_of self.old.sources) source).ended }
        requires room { (count_of (counts_of self.old.sources) source).fed + length piece.now < 2 ^ 64 }
        requires table { (M.image memory.old).table ≡ self.old.table }
        requires runs { self.old.verdict ≡ running }
        requires here { IsOpenAt source self.old.sources }
        ensures taken { IfOk result (λ n. n ≤ length piece.now) }
        ensures read { IfOk result (λ n. (f : Loading) → Loads f (M.image memory.old) self.old
            → IsUnsettled (with_bytes source (take n piece.now) f) (M.image memory.new) self.new) }
        ensures lacks { OnErr result (LacksBehind source piece.now (λ f. Loads f (M.image memory.old) self.old) self.old (M.image memory.new) self.new) }
        ensures main { IfOk result (λ n. source ≡ main_source → n ≡ length piece.now) }
        ensures waits { IfOk result (λ n. n < length piece.now → TakesNoMore source self.new.sources) }
        ensures counts { IfOk result (λ n. counts_of self.new.sources ≡ with_fed (counts_of self.old.sources) source n) }
        ensures kept { M.kept memory.new ≡ M.kept memory.old }
        ensures table { (self.new.table ≡ self.old.table) × ((M.image memory.new).table ≡ (M.image memory.old).table) }
        ensures rounds { self.new.rounds ≡ self.old.rounds }
    {
        match source {
            Source::Main => {
                self.read_main(memory, piece)?;
                Ok(piece.len())
            }
            Source::Channel(j) => self.read_channel(memory, j, piece),
        }
    }

    // Takes bytes of a channel.
    fn read_channel<M: GuestTarget>(
        &mut self,
        memory: &mut M,
        j: usize,
        piece: &[u8],
    ) -> Result<usize, NoMemory>
        requires source { j < length self.old.sources.channels }
        requires open { IsFalse (count_of (counts_of self.old.sources) (source.Channel j)).ended }
        requires room { (count_of (counts_of self.old.sources) (source.Channel j)).fed + length piece.now < 2 ^ 64 }
        requires table { (M.image memory.old).table ≡ self.old.table }
        ensures taken { IfOk result (λ n. n ≤ length piece.now) }
        ensures read { IfOk result (λ n. (f : Loading) → Loads f (M.image memory.old) self.old
            → Loads (with_bytes (source.Channel j) (take n piece.now) f) (M.image memory.new) self.new) }
        ensures lacks { OnErr result (LacksBehind (source.Channel j) piece.now (λ f. Loads f (M.image memory.old) self.old) self.old (M.image memory.new) self.new) }
        ensures waits { IfOk result (λ n. n < length piece.now → TakesNoMore (source.Channel j) self.new.sources) }
        ensures counts { IfOk result (λ n. counts_of self.new.sources ≡ with_fed (counts_of self.old.sources) (source.Channel j) n) }
        ensures kept { M.kept memory.new ≡ M.kept memory.old }
        ensures table { (self.new.table ≡ self.old.table) × ((M.image memory.new).table ≡ (M.image memory.old).table) }
        ensures others { (self.new.rounds ≡ self.old.rounds) × (self.new.verdict ≡ self.old.verdict) }
    {
        let list = self.main.size_list();
        let channel = &mut self.channels[j];
        channel.read(list, &mut self.round, memory, piece)
    }

    /// Returns the head of the next packet of a channel, and the number of the block of its pages,
    /// if `head` is its head and `take_packet` takes it: the channel takes bytes, and it is a
    /// packet without a fault and without SYNC, whose pages are in a block, in a round of which no
    /// page is misplaced.
    pub fn next_packet<'h>(&self, channel: usize, head: &'h [u8]) -> Option<(PacketHead<'h>, usize)>
        requires source { HasSource (counts_of self.now.sources) (source.Channel channel) }
        ensures head { IfSome result (λ found. (found.0.bytes.now ≡ head.now) × (found.0.page_size ≡ self.now.table.page_size)) }
        ensures lies { IfSome result (λ found. LieIn self.now.table found.1 head.now) }
    {
        if self.verdict != Verdict::Running {
            return None;
        }
        let list = self.main.size_list();
        self.channels[channel].next_packet(list, &self.round, head)
    }

    // Takes a packet of a channel at once, and judges nothing. Its clause is of any memory that the
    // load ran with.
    fn take_apart(&mut self, j: usize, head: &[u8], contents: &[&[u8]]) -> Result<bool, NoMemory>
        requires source { j < length self.old.sources.channels }
        requires room { (count_of (counts_of self.old.sources) (source.Channel j)).fed + length head.now + length contents.now * self.old.table.page_size < 2 ^ 64 }
        ensures took { IfOk result (λ took. IsTrue took → (f : Loading) (memory : Image) → memory.table ≡ self.old.table → Loads f memory self.old
            → Loads (with_bytes (source.Channel j) (packet_bytes head.now (lent_bytes contents.now)) f) (with_round memory (pages_taken memory.table head.now (lent_bytes contents.now))) self.new) }
        ensures open { IfOk result (λ took. IsTrue took → IsSomeAnd (slice_get self.new.sources.channels j) (λ c. IsFalse c.is_whole)) }
        ensures count { IfOk result (λ took. IsTrue took → length contents.now ≡ normal_count head.now) }
        ensures left { IfOk result (λ took. IsFalse took → self.new ≡ self.old) }
        ensures err { OnErr result (self.new ≡ self.old) }
        ensures counts { IfOk result (λ took. IsTrue took → counts_of self.new.sources ≡ with_fed (counts_of self.old.sources) (source.Channel j) (length (packet_bytes head.now (lent_bytes contents.now)))) }
        ensures others { (self.new.table ≡ self.old.table) × (self.new.rounds ≡ self.old.rounds) × (self.new.verdict ≡ self.old.verdict) }
    {
        let list = self.main.size_list();
        let channel = &mut self.channels[j];
        channel.take_packet(list, &mut self.round, head, contents)
    }

    /// Takes a packet of a channel at once: its head, and the contents of its normal pages, which
    /// others read to their places in the memory. The caller also clears there its pages of zeros.
    /// The load stands for that memory with the pages, whatever memory it stood for before: so
    /// this call isn't passed it.
    ///
    /// Returns false, and takes nothing, if the next item of the channel isn't a packet of this
    /// kind: complete and without a fault, without SYNC, whose pages are in a block, in a round of
    /// which no page is misplaced, and which the channel takes now. Any bytes can be fed.
    ///
    /// # Errors
    ///
    /// `NoMemory`: an allocation was refused. Nothing was taken, and the call can be made again.
    pub fn take_packet(
        &mut self,
        channel: usize,
        head: &[u8],
        contents: &[&[u8]],
    ) -> Result<bool, NoMemory>
        requires source { HasSource (counts_of self.old.sources) (source.Channel channel) }
        requires room { (count_of (counts_of self.old.sources) (source.Channel channel)).fed + length head.now + length contents.now * self.old.table.page_size < 2 ^ 64 }
        ensures took { IfOk result (λ took. IsTrue took → TakesApart channel head.now (lent_bytes contents.now) self.old self.new) }
        ensures count { IfOk result (λ took. IsTrue took → length contents.now ≡ normal_count head.now) }
        ensures left { IfOk result (λ took. IsFalse took → self.new ≡ self.old) }
        ensures err { OnErr result (self.new ≡ self.old) }
        ensures counts { IfOk result (λ took. IsTrue took → counts_of self.new.sources ≡ with_fed (counts_of self.old.sources) (source.Channel channel) (length (packet_bytes head.now (lent_bytes contents.now)))) }
        ensures table { (self.new.table ≡ self.old.table) × (self.new.rounds ≡ self.old.rounds) }
    {
        if self.verdict != Verdict::Running || !self.take_apart(channel, head, contents)? {
            return Ok(false);
        }
        // it isn't due, since the channel lacks its SYNC
        let _found = self.tell();
        Ok(true)
    }

    // Takes a piece of the main stream, and writes the records of the current round once it is
    // complete. If the stream has another table, none is written.
    fn read_main<M: GuestTarget>(&mut self, memory: &mut M, piece: &[u8]) -> Result<(), NoMemory>
        requires open { IsFalse self.old.sources.main.reader.ended }
        requires room { self.old.sources.main.reader.fed + length piece.now < 2 ^ 64 }
        requires table { (M.image memory.old).table ≡ self.old.table }
        requires runs { self.old.verdict ≡ running }
        requires here { IsFalse self.old.sources.main.is_whole }
        ensures read { OnOk result ((f : Loading) → Loads f (M.image memory.old) self.old → IsUnsettled (with_bytes source.Main piece.now f) (M.image memory.new) self.new) }
        ensures lacks { OnErr result ((self.new ≡ self.old) × (M.image memory.new ≡ M.image memory.old)) }
        ensures counts { OnOk result (counts_of self.new.sources ≡ with_fed (counts_of self.old.sources) source.Main (length piece.now)) }
        ensures kept { M.kept memory.new ≡ M.kept memory.old }
        ensures table { (self.new.table ≡ self.old.table) × ((M.image memory.new).table ≡ (M.image memory.old).table) }
        ensures rounds { self.new.rounds ≡ self.old.rounds }
    {
        self.main.feed(piece)?;
        if is_of_other_table(&self.main, &self.table) {
            self.verdict = failed(0, Origin::Main, Fault::OtherTable);
            return Ok(());
        }
        take_main_round(&mut self.main, &mut self.round, memory);
        Ok(())
    }
}

impl<A: Allocator> InPlaceSession<A> {
    // Judges the bytes so far. Returns whether all sources have the current round, and it is
    // lawful.
    fn judge_round(&mut self) -> Result<bool, NoMemory>
        ensures stands { IfOk result (λ judged. IsFalse judged → (f : Loading) (memory : Image) → IsUnsettled f memory self.old → Stands f memory self.new) }
        ensures judged { IfOk result (λ judged. IsTrue judged → (f : Loading) (memory : Image) → IsUnsettled f memory self.old → IsJudged f memory self.new) }
        ensures next { IfOk result (λ judged. IsTrue judged → HasNextRound self.new) }
        ensures lacks { OnErr result ((f : Loading) (memory : Image) → IsUnsettled f memory self.old → Lacks f memory self.new) }
        ensures others { self.new ≡ record self.old { round = self.new.round; verdict = self.new.verdict } }
    {
        if self.verdict != Verdict::Running || self.tell() {
            return Ok(false);
        }
        self.judge()
    }

    /// Goes on to the next round, after `feed_round` returned that the current one is lawful, and
    /// before any other call. It counts that round, and writes the main stream's records of the
    /// next one if they have come.
    pub fn next_round<M: GuestTarget>(&mut self, memory: &mut M)
        requires table { (M.image memory.old).table ≡ self.old.table }
        requires next { HasNextRound self.old }
        ensures stands { (f : Loading) → IsJudged f (M.image memory.old) self.old → Stands f (M.image memory.new) self.new }
        ensures counts { counts_of self.new.sources ≡ counts_of self.old.sources }
        ensures kept { M.kept memory.new ≡ M.kept memory.old }
        ensures table { (self.new.table ≡ self.old.table) × ((M.image memory.new).table ≡ (M.image memory.old).table) }
        ensures rounds { self.new.rounds ≡ self.old.rounds + 1 }
    {
        self.advance(memory);
        self.tell();
    }

    // Returns the verdict of the sources at the current round, or None if all have the round.
    fn sources_verdict(&mut self) -> Option<Verdict>
        ensures told { (f : Loading) (memory : Image) → Loads f memory self.old → TellsVerdict result f self.old.rounds }
        ensures same { self.new ≡ self.old }
    {
        look_at_statuses(&self.channels, &mut self.statuses);
        look_at_hellos(&self.channels, &mut self.hellos);
        let repeated = repeated_id(&self.hellos);
        sources_verdict(self.rounds, self.main.status(), &self.statuses, repeated)
    }

    // Sets that verdict. Returns false, and sets none, if all sources have the round.
    fn tell(&mut self) -> bool
        requires { self.old.verdict ≡ running }
        ensures told { IsTrue result → (f : Loading) (memory : Image) → Loads f memory self.old → Stands f memory self.new }
        ensures due { IsFalse result → (f : Loading) (memory : Image) → Loads f memory self.old → IsDue f self.old.rounds }
        ensures same { IsFalse result → self.new ≡ self.old }
        ensures others { self.new ≡ record self.old { verdict = self.new.verdict } }
    {
        match self.sources_verdict() {
            Some(verdict) => {
                self.verdict = verdict;
                true
            }
            None => false,
        }
    }

    // Judges the current round, which all sources have. Returns whether it is lawful.
    fn judge(&mut self) -> Result<bool, NoMemory>
        requires { self.old.verdict ≡ running }
        ensures lawful { IfOk result (λ lawful. IsTrue lawful → (f : Loading) (memory : Image) → Loads f memory self.old → IsDue f self.old.rounds
            → Loads f memory self.new × PassesAt f self.old.rounds) }
        ensures refused { IfOk result (λ lawful. IsFalse lawful → (f : Loading) (memory : Image) → Loads f memory self.old → IsDue f self.old.rounds → Stands f memory self.new) }
        ensures room { IfOk result (λ lawful. IsTrue lawful → (self.new.base + length self.new.round.arrivals.numbers ≤ 2 ^ 63) × (self.new.rounds < 2 ^ 63)) }
        ensures runs { IfOk result (λ lawful. IsTrue lawful → self.new.verdict ≡ running) }
        ensures err { OnErr result (self.new ≡ self.old) }
        ensures others { self.new ≡ record self.old { round = self.new.round; verdict = self.new.verdict } }
    {
        if self.rounds >= ROUND_LIMIT || self.round.len() as u64 > PACKET_LIMIT - self.base {
            return Err(NoMemory);
        }
        match self.round.judge(self.base) {
            Ok(()) => Ok(true),
            Err(fault) => {
                self.verdict = failed(self.rounds, Origin::Round, Fault::Round(fault));
                Ok(false)
            }
        }
    }

    // Counts the current round, which is lawful, and begins the next one.
    fn advance<M: GuestTarget>(&mut self, memory: &mut M)
        requires table { (M.image memory.old).table ≡ self.old.table }
        requires runs { self.old.verdict ≡ running }
        requires room { self.old.base + length self.old.round.arrivals.numbers ≤ 2 ^ 63 }
        requires rounds { self.old.rounds < 2 ^ 63 }
        ensures loads { (f : Loading) → Loads f (M.image memory.old) self.old → IsDue f self.old.rounds → PassesAt f self.old.rounds → Loads f (M.image memory.new) self.new }
        ensures counts { counts_of self.new.sources ≡ counts_of self.old.sources }
        ensures kept { M.kept memory.new ≡ M.kept memory.old }
        ensures table { (self.new.table ≡ self.old.table) × ((M.image memory.new).table ≡ (M.image memory.old).table) }
        ensures rounds { self.new.rounds ≡ self.old.rounds + 1 }
        ensures runs { self.new.verdict ≡ running }
        ensures open { All (λ c. IsFalse c.is_whole) self.new.sources.channels }
    {
        self.rounds += 1;
        self.base += self.round.len() as u64;
        self.round.clear_into(&mut self.named);
        self.main.advance();
        advance_channels(&mut self.channels);
        take_main_round(&mut self.main, &mut self.round, memory);
    }

    /// Ends a source, all of whose bytes were taken. A second call changes nothing. A verdict that
    /// is there stays.
    pub fn end(&mut self, source: Source)
        requires { HasSource (counts_of self.old.sources) source }
        ensures steps { (memory : Image) → StepsOn (end_step source) memory self.old memory self.new }
        ensures lacking { (memory : Image) → StillLacks (end_step source) memory self.old memory self.new }
        ensures settled { self.old.verdict ≢ running → (self.new.verdict ≡ self.old.verdict) × (self.new.rounds ≡ self.old.rounds) }
        ensures keeps { (memory kept : Image) → KeepsRounds (end_step source) memory kept self.old kept self.new }
        ensures counts { counts_of self.new.sources ≡ with_end (counts_of self.old.sources) source }
        ensures table { self.new.table ≡ self.old.table }
        ensures others { self.new ≡ record self.old { sources = self.new.sources; verdict = self.new.verdict } }
    {
        self.end_source(source);
        if self.verdict == Verdict::Running {
            self.tell();
        }
    }

    // Ends a source, and judges nothing.
    fn end_source(&mut self, source: Source)
        requires { HasSource (counts_of self.old.sources) source }
        ensures loads { (f : Loading) (memory : Image) → Loads f memory self.old → Loads (with_over source f) memory self.new }
        ensures taken { (given : LoadSettings) (uuid : List ℕ) (texts : Texts) → HaveTaken given uuid texts self.old.sources → HaveTaken given uuid (end_step source texts) self.new.sources }
        ensures counts { counts_of self.new.sources ≡ with_end (counts_of self.old.sources) source }
        ensures others { self.new ≡ record self.old { sources = self.new.sources } }
    {
        match source {
            Source::Main => self.main.end(),
            Source::Channel(j) => {
                let channel = &mut self.channels[j];
                channel.end();
            }
        }
    }

    /// Returns whether bytes of `source` are taken now. They aren't once the verdict is there, nor
    /// if the source has the current round, is closed, or has a fault. Those of a channel wait
    /// after its hello until the main stream's size list is complete.
    pub fn takes(&self, source: Source) -> bool
        requires { HasSource (counts_of self.now.sources) source }
        ensures takes { (memory : Image) → self.now.verdict ≡ running
            → Tells memory self.now (λ given uuid first texts. IsTrue result ↔ TakesBytes (for_table first.table given) uuid self.now.rounds texts source) }
        ensures settled { self.now.verdict ≢ running → IsFalse result }
    {
        self.is_taking(source)
    }

    // Returns what `takes` does. If it is true of the main stream, that doesn't have the current
    // round, and may be read on.
    pub(crate) fn is_taking(&self, source: Source) -> bool
        requires { HasSource (counts_of self.now.sources) source }
        ensures takes { (memory : Image) → self.now.verdict ≡ running
            → Tells memory self.now (λ given uuid first texts. IsTrue result ↔ TakesBytes (for_table first.table given) uuid self.now.rounds texts source) }
        ensures runs { IsTrue result → self.now.verdict ≡ running }
        ensures open { IsTrue result → IsOpenAt source self.now.sources }
    {
        if self.verdict != Verdict::Running {
            return false;
        }
        match source {
            Source::Main => is_pending(self.main.status()),
            Source::Channel(j) => self.channels[j].takes(self.main.size_list()),
        }
    }

    /// Returns the table of the memory.
    pub fn table(&self) -> &Table<A>
        ensures { result.now ≡ self.now.table }
    {
        &self.table
    }

    /// Returns the number of channels.
    pub fn channels(&self) -> usize
        ensures { result ≡ length (counts_of self.now.sources).channels }
    {
        self.channels.len()
    }

    /// Returns whether the load has `source`: the main stream, or one of its channels.
    pub fn has(&self, source: Source) -> bool
        ensures { IsTrue result ↔ HasSource (counts_of self.now.sources) source }
    {
        match source {
            Source::Main => true,
            Source::Channel(j) => j < self.channels.len(),
        }
    }

    /// Returns whether a piece of `len` bytes of `source` has room: fewer than 2^64 bytes of it are
    /// taken with that piece.
    pub fn has_room(&self, source: Source, len: usize) -> bool
        requires { HasSource (counts_of self.now.sources) source }
        ensures { IsTrue result ↔ (count_of (counts_of self.now.sources) source).fed + len < 2 ^ 64 }
    {
        len as u64 <= u64::MAX - self.fed(source)
    }

    /// Returns how many bytes of `source` were taken.
    pub fn fed(&self, source: Source) -> u64
        requires { HasSource (counts_of self.now.sources) source }
        ensures { result ≡ (count_of (counts_of self.now.sources) source).fed }
    {
        match source {
            Source::Main => self.main.fed(),
            Source::Channel(j) => self.channels[j].fed(),
        }
    }

    /// Returns whether `source` was ended.
    pub fn ended(&self, source: Source) -> bool
        requires { HasSource (counts_of self.now.sources) source }
        ensures { result ≡ (count_of (counts_of self.now.sources) source).ended }
    {
        match source {
            Source::Main => self.main.ended(),
            Source::Channel(j) => self.channels[j].ended(),
        }
    }

    /// Returns how many bytes of the main stream close it, once it is closed: those up to its end
    /// byte, or in a machine's stream up to the footer of RAM's END. The bytes taken after them are
    /// left to the caller. None after a refused allocation.
    pub fn closed_at(&self) -> Option<u64>
        ensures stands { (memory : Image) → Tells memory self.now (λ given uuid first texts. HasClosedAt (main_of (for_table first.table given)) texts.main.bytes result) }
        ensures lacking { (memory : Image) (given : LoadSettings) (uuid : List ℕ) (first : Image) (texts : Texts) → LacksMemory given uuid first texts memory self.now → result ≡ None }
    {
        if self.lacks_memory() {
            return None;
        }
        self.main.closed_at()
    }

    /// Returns how many of the bytes taken of `source` are complete items without a fault, from the
    /// first byte on. If the verdict is a fault of that source (`Fault::Stream`, `Fault::Channel`),
    /// the item at fault begins after them. `OtherTable`, `HelloTwice`, `Extra` and `Short` belong
    /// to no item, nor do the faults 54 to 59 of a round.
    ///
    /// A channel's page counts with its packet, once all its pages were taken: it was written
    /// before. None after a refused allocation.
    pub fn valid_up_to(&self, source: Source) -> Option<u64>
        requires { HasSource (counts_of self.now.sources) source }
        ensures stands { (memory : Image) → Tells memory self.now (λ given uuid first texts. IsSourceValidUpTo (for_table first.table given) uuid texts source result) }
        ensures lacking { (memory : Image) (given : LoadSettings) (uuid : List ℕ) (first : Image) (texts : Texts) → LacksMemory given uuid first texts memory self.now → result ≡ None }
    {
        if self.lacks_memory() {
            return None;
        }
        match source {
            Source::Main => Some(self.main.valid_up_to()),
            Source::Channel(j) => Some(self.channels[j].valid_up_to()),
        }
    }

    /// Returns the fault of the bytes taken of `source` by themselves, whatever other sources have:
    /// a `Fault::Stream` or a `Fault::Channel`. It is known at once, while the verdict waits for
    /// the other sources, and names the first one with a fault. A source that was ended too early
    /// has `Truncated`, or a channel after a packet without SYNC `Unsynced`: so it says which
    /// connection broke. None after a refused allocation.
    pub fn fault_of(&self, source: Source) -> Option<Fault>
        requires { HasSource (counts_of self.now.sources) source }
        ensures stands { (memory : Image) → Tells memory self.now (λ given uuid first texts. HasFault (for_table first.table given) uuid texts source result) }
        ensures lacking { (memory : Image) (given : LoadSettings) (uuid : List ℕ) (first : Image) (texts : Texts) → LacksMemory given uuid first texts memory self.now → result ≡ None }
    {
        if self.lacks_memory() {
            return None;
        }
        match source {
            Source::Main => self.main.fault(),
            Source::Channel(j) => self.channels[j].fault(),
        }
    }

    /// Returns whether all rounds are in: the main stream is closed, each of its rounds was judged
    /// lawful, and no packet of a further round has begun. The memory has all rounds on top of what
    /// it held, and nothing else, though the channels may not have ended yet.
    ///
    /// QEMU with a return path ends its channels only after the answer, and `Verdict::Done` waits
    /// for their ends. So answer where this is true. Then the channels end, and the verdict is
    /// `Done`.
    pub fn has_all_rounds(&self) -> bool
        ensures all { IsTrue result → (memory : Image) → IsImage memory
            → Tells memory self.now (λ given uuid first texts. HasAllRounds (for_table first.table given) uuid first texts memory self.now.rounds) }
        ensures more { IsFalse result → self.now.verdict ≡ running → (memory : Image)
            → Tells memory self.now (λ given uuid first texts. MoreMayCome (for_table first.table given) uuid texts self.now.rounds) }
        ensures done { self.now.verdict ≡ done → IsTrue result }
        ensures failed { IsTrue result → (self.now.verdict ≡ running) ⊎ (self.now.verdict ≡ done) }
    {
        match self.verdict {
            Verdict::Running => self.lacks_ends(),
            Verdict::Done => true,
            Verdict::Failed(_) => false,
        }
    }

    /// Returns how many pages of the memory no record and no packet of the rounds counted named. At
    /// `Verdict::Done` these are the pages that the streams don't have: the memory holds there what
    /// it held before. A load of a whole guest has none; a load of changes alone has many. It is
    /// also 0 or more while the load runs, and nothing is promised of it after a refused
    /// allocation.
    pub fn missing(&self) -> u64
        ensures told { (memory : Image) → Tells memory self.now (λ given uuid first texts. HasMissing (for_table first.table given) uuid first texts self.now.rounds result) }
        ensures value { result ≡ left_out self.now.named.table self.now.named.marked }
    {
        lacking(&self.named)
    }

    // Returns whether a load that runs has all rounds: the main stream is closed at the current
    // round, and no packet of that round has begun.
    fn lacks_ends(&self) -> bool
        ensures all { IsTrue result → (f : Loading) (memory : Image) → Loads f memory self.now → HasAllRounds (for_table f.first.table f.given) f.uuid f.first f.texts memory self.now.rounds }
        ensures more { IsFalse result → (f : Loading) (memory : Image) → Loads f memory self.now → MoreMayCome (for_table f.first.table f.given) f.uuid f.texts self.now.rounds }
    {
        if self.round.len() != 0 {
            return false;
        }
        is_clean(self.main.status())
    }

    // Returns whether an allocation was refused.
    fn lacks_memory(&self) -> bool
        ensures { IsTrue result ↔ (self.now.verdict ≡ failed self.now.rounds origin.Round fault_no_memory) }
    {
        self.verdict == failed(self.rounds, Origin::Round, Fault::NoMemory)
    }

    /// Returns the verdict on the bytes taken.
    pub fn verdict(&self) -> Verdict
        ensures value { result ≡ self.now.verdict }
        ensures answer { (memory : Image) → Tells memory self.now (λ given uuid first texts. IsInPlaceAnswer given uuid first texts memory self.now.rounds result) }
    {
        self.verdict
    }

    /// Returns how many rounds were judged lawful. The memory has all of them.
    pub fn rounds(&self) -> u64
        ensures value { result ≡ self.now.rounds }
        ensures few { result ≤ 2 ^ 63 }
    {
        self.rounds
    }
}
