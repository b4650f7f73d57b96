//! The load of streams on several channels that are fed in pieces, in any order: for callers that
//! read from connections, and for `pump`.

ghost use Rattle.std.specs.Prelude.{ℕ, ◌≡◌, ◌≢◌, ◌+◌, ◌<◌, ◌≤◌, ◌^◌, ◌↔◌, ◌⊎◌, IsTrue, List, Option, None, Some, IsOk, IsFalse, IfOk, IfSome, OnOk, OnErr, length, map, replicate};
ghost use Rattle.std.specs.Option.{option_copied, option_map};
ghost use Rattle.mig_mem.specs.PageSize.{IsPageSize};
ghost use Rattle.mig_load_types.specs.declared.settings.LoadSettings.{LoadSettings};
ghost use Rattle.mig_load_types.specs.Settings.{ram_settings, main_of};
ghost use Rattle.mig_answer.specs.declared.verdict.Verdict.TheVariants.{Running as running, Done as done};
ghost use Rattle.mig_answer.specs.declared.verdict.Verdict.{Verdict};
ghost use Rattle.mig_stream.specs.Reader.{HasTable, HasClosedAt, IsClosedAt};
ghost use Rattle.mig_answer.specs.Texts.{Text, Texts, no_texts};
ghost use Rattle.mig_session.specs.Sources.{Waits, Holds};
ghost use Rattle.mig_session.specs.Loading.{Feeding, fed as fed_with, over as over_with, HasRoom, TakesOrWaits, HasAloneIfAny};
ghost use Rattle.mig_session.specs.Session.{answer_in, held_of, target_in, rounds_loaded, missing_in, HavePlaces, HasAllRounds, HasMissing, AsRead, LoadsWith, IsRunning, StandsFor, LacksMemory, StepsOn, RunsOut, StillLacks, KeepsRounds};
ghost use Rattle.mig_sources.specs.Sources.{HasSource, count_of, counts_in, no_count, with_fed, with_end, at_source, feed_step, end_step};
ghost use Rattle.mig_sources.specs.Faults.{IsSourceValidUpTo, HasFault};
ghost use Rattle.mig_session.specs.Advancing.{IsMadeWith, IsReady, IsFedNext, IsTold, LoadsAfter, failed_without_memory};

use crate::loading::{Held, RoundLoad};
use crate::places::SourcePlaces;
use crate::sources::Sources;
use crate::taking::{pump, put};
use crate::waiting::Waiting;
use mig_answer::Verdict;
use mig_load_types::{Fault, LoadFault, LoadSettings, Origin};
use mig_mem::{Memory, NoMemory};
use mig_sources::{Source, SourceCounts};
use std::alloc::{Allocator, Global};
use std::fmt::{self, Debug, Formatter};
use std::marker::Model;
use uuid::Uuid;

/// Loads a guest from the pieces of a main stream and of its channels, in any order.
///
/// A round is checked and applied when its last source completes it. Until then its pages are kept
/// apart from the memory, which has the rounds before. So between calls a session holds the guest,
/// and the pages of the round that has begun. Bytes of a source that has this round wait until the
/// others have it.
///
/// Until an allocation is refused, what it returns depends on the bytes so far, and on which
/// sources have ended. It doesn't depend on where the streams were cut, nor on the order in which
/// the sources were fed.
///
/// # Examples
///
/// All bytes of a source are fed in pieces of `len` bytes, and the source is ended:
///
/// <!-- quoted from crates/mig_uses/src/machine.rt -->
/// ```rust
/// for piece in text.chunks(len.max(1)) {
///     if !session.has(source) {
///         return Err(Trouble::Input);
///     }
///     if session.ended(source) || !session.has_room(source, piece.len()) {
///         return Err(Trouble::Input);
///     }
///     session.feed(source, piece)?;
/// }
/// if !session.has(source) {
///     return Err(Trouble::Input);
/// }
/// session.end(source);
/// ```
pub struct Session<A: Allocator = Global> {
    alloc: A,
    settings: LoadSettings,
    uuid: Uuid,
    counts: SourceCounts<A>,
    // what is noted of each source, as far as it was read; None after a refused allocation
    places: Option<SourcePlaces<A>>,
    // while it runs
    sources: Option<Fed<A>>,
    // while it runs, once the table is there
    load: Option<RoundLoad<A>>,
    // after that, what is left of the load
    over: Option<Held<A>>,
    verdict: Verdict,
}

impl<A: Allocator> Model for Session<A> {
    ghost use Rattle.mig_session.specs.Session.{LoadSession, IsSession, target_in};

    ghost Value = { LoadSession };

    ghost view = { λ s. record {
      settings = s.settings;
      uuid = s.uuid;
      counts = s.counts;
      places = s.places;
      sources = s.sources;
      load = s.load;
      over = s.over;
      target = target_in s.load s.over;
      verdict = s.verdict;
    } };

    ghost invariant = { λ s. IsSession (record {
      settings = s.settings;
      uuid = s.uuid;
      counts = s.counts;
      places = s.places;
      sources = s.sources;
      load = s.load;
      over = s.over;
      target = target_in s.load s.over;
      verdict = s.verdict;
    }) };
}

// Written out, and not derived: a caller's proof then passes a call where a session is dropped, and
// not each of its fields.
impl<A: Allocator> Drop for Session<A> {
    fn drop(self) {
        let Session {
            alloc: _,
            settings: _,
            uuid: _,
            counts: _,
            places: _,
            sources: _,
            load: _,
            over: _,
            verdict: _,
        } = self;
    }
}

/// The sources while a session runs, and their bytes that wait.
#[derive(Drop)]
struct Fed<A: Allocator = Global> {
    sources: Sources<A>,
    waiting: Waiting<A>,
}

impl<A: Allocator> Model for Fed<A> {
    ghost use Rattle.mig_session.specs.Session.{Fed};

    ghost Value = { Fed };

    ghost view = { λ f. record { read = f.sources; waiting = f.waiting } };
}

fn wants_memory(round: u64) -> Verdict
    ensures { result ≡ failed_without_memory round }
{
    Verdict::Failed(LoadFault {
        round,
        source: Origin::Round,
        fault: Fault::NoMemory,
    })
}

// Returns how many rounds a load has judged, if there is one.
fn rounds_now<A: Allocator>(load: &Option<RoundLoad<A>>) -> u64
    ensures value { result ≡ rounds_loaded (option_map held_of load.now) }
    ensures few { result ≤ 2 ^ 63 }
{
    match load {
        Some(load) => load.rounds(),
        None => 0,
    }
}

// Returns how many rounds are in the memory.
fn rounds_of<A: Allocator>(load: &Option<RoundLoad<A>>, over: &Option<Held<A>>) -> u64
    ensures { result ≡ rounds_loaded (target_in load.now over.now) }
{
    match load {
        Some(load) => load.rounds(),
        None => match over {
            Some(over) => over.rounds(),
            None => 0,
        },
    }
}

// Returns the memory after them, if there is one.
fn memory_of<'m, A: Allocator>(
    load: &'m Option<RoundLoad<A>>,
    over: &'m Option<Held<A>>,
) -> Option<&'m Memory<A>>
    ensures { option_copied result ≡ option_map (λ t. t.memory) (target_in load.now over.now) }
{
    match load {
        Some(load) => Some(load.memory()),
        None => match over {
            Some(over) => Some(over.memory()),
            None => None,
        },
    }
}

// Returns how many of its pages they don't name.
fn missing_of<A: Allocator>(load: &Option<RoundLoad<A>>, over: &Option<Held<A>>) -> Option<u64>
    ensures { result ≡ missing_in (target_in load.now over.now) }
{
    match load {
        Some(load) => Some(load.missing()),
        None => match over {
            Some(over) => Some(over.missing()),
            None => None,
        },
    }
}

fn is_done(verdict: Verdict) -> bool
    ensures { IsTrue result ↔ verdict ≡ done }
{
    matches!(verdict, Verdict::Done)
}

// Has the load take a piece, if there is one. What isn't taken waits. `Err` is `NoMemory`.
fn put_any<A: Allocator + Copy>(
    load: &mut Option<RoundLoad<A>>,
    waiting: &mut Waiting<A>,
    source: Source,
    piece: &[u8],
) -> Result<(), NoMemory>
    requires { (f : Feeding) × TakesOrWaits f waiting.old load.old × HasRoom f.texts source (length piece.now) }
    ensures ok { OnOk result ((f : Feeding) → TakesOrWaits f waiting.old load.old → HasRoom f.texts source (length piece.now)
        → TakesOrWaits (fed_with source piece.now f) waiting.new load.new) }
    ensures err { OnErr result ((f : Feeding) → TakesOrWaits f waiting.old load.old → HasRoom f.texts source (length piece.now)
        → HasAloneIfAny (fed_with source piece.now f) load.new) }
    ensures rounds { rounds_loaded (option_map held_of load.old) ≤ rounds_loaded (option_map held_of load.new) }
    ensures stays { load.old ≢ None → load.new ≢ None }
{
    match load {
        Some(load) => put(load, waiting, source, piece),
        None => waiting.push(source, piece),
    }
}

// Creates the load once the table is there. `Err` is `NoMemory`, and changes nothing.
fn begin<A: Allocator + Copy>(
    alloc: A,
    settings: LoadSettings,
    uuid: &Uuid,
    sources: &Sources<A>,
    channels: usize,
    load: &mut Option<RoundLoad<A>>,
) -> Result<(), NoMemory>
    requires { (f : Feeding) × IsMadeWith settings uuid.now channels f × Holds f.given f.uuid f.texts sources.now }
    ensures ok { OnOk result ((f : Feeding) (w : Waits) → IsMadeWith settings uuid.now channels f → Holds f.given f.uuid f.texts sources.now → TakesOrWaits f w load.old
        → TakesOrWaits f w load.new × (load.new ≡ None → HasTable (main_of f.given) f.texts.main.bytes None)) }
    ensures err { OnErr result (load.new ≡ load.old) }
    ensures rounds { rounds_loaded (option_map held_of load.old) ≤ rounds_loaded (option_map held_of load.new) }
    ensures stays { load.old ≢ None → load.new ≢ None }
{
    if load.is_some() {
        return Ok(());
    }
    match sources.table() {
        None => Ok(()),
        Some(table) => {
            *load = Some(RoundLoad::new(alloc, settings, table, uuid, channels)?);
            Ok(())
        }
    }
}

// Returns the verdict before the table is there.
fn verdict_without_table<A: Allocator>(sources: &mut Sources<A>) -> Verdict
    requires { (f : Feeding) × IsPageSize f.given.page_size × Holds f.given f.uuid f.texts sources.old × HasTable (main_of f.given) f.texts.main.bytes None }
    ensures told { (f : Feeding) → IsPageSize f.given.page_size → Holds f.given f.uuid f.texts sources.old → HasTable (main_of f.given) f.texts.main.bytes None
        → IsTold f None result }
    ensures same { sources.new ≡ sources.old }
{
    match sources.first_verdict() {
        Some(verdict) => verdict,
        None => unreachable!(),
    }
}

// Has the load take what it can of the bytes so far. Returns the verdict. `Err` is `NoMemory`.
fn advance<A: Allocator + Copy>(
    fed: &mut Fed<A>,
    load: &mut Option<RoundLoad<A>>,
    counts: &SourceCounts<A>,
) -> Result<Verdict, NoMemory>
    requires { (f : Feeding) × IsReady f fed.old load.old × (counts.now ≡ counts_in f.texts) }
    ensures ok { IfOk result (λ verdict. (f : Feeding) → IsReady f fed.old load.old → counts.now ≡ counts_in f.texts
        → IsRunning f load.new verdict fed.new × IsTold f load.new verdict) }
    ensures err { OnErr result ((f : Feeding) → IsReady f fed.old load.old → counts.now ≡ counts_in f.texts → HasAloneIfAny f load.new) }
    ensures rounds { rounds_loaded (option_map held_of load.old) ≤ rounds_loaded (option_map held_of load.new) }
    ensures stays { load.old ≢ None → load.new ≢ None }
{
    match load {
        Some(load) => {
            pump(load, &mut fed.waiting, counts)?;
            Ok(load.verdict())
        }
        None => Ok(verdict_without_table(&mut fed.sources)),
    }
}

// Notes up to which byte `source` is valid, and its fault, unless an allocation was refused.
fn note<A: Allocator>(sources: &Sources<A>, source: Source, places: &mut Option<SourcePlaces<A>>)
    requires { (f : Feeding) × Holds f.given f.uuid f.texts sources.now × HasSource (counts_in f.texts) source }
    ensures { (given : LoadSettings) (uuid : List ℕ) (step : Text → Text) (texts : Texts) → Holds given uuid (at_source source step texts) sources.now
        → HavePlaces given uuid texts places.old → HavePlaces given uuid (at_source source step texts) places.new }
{
    match places {
        Some(places) => sources.note(source, places),
        None => {}
    }
}

// Takes a piece, which `counts` has, and judges the bytes so far. Returns the verdict. `Err` is
// `NoMemory`.
fn take<A: Allocator + Copy>(
    alloc: A,
    settings: LoadSettings,
    uuid: &Uuid,
    counts: &SourceCounts<A>,
    fed: &mut Fed<A>,
    load: &mut Option<RoundLoad<A>>,
    places: &mut Option<SourcePlaces<A>>,
    source: Source,
    piece: &[u8],
) -> Result<Verdict, NoMemory>
    requires { (f : Feeding) × IsFedNext settings uuid.now counts.now source piece.now f fed.old load.old }
    ensures ok { IfOk result (λ verdict. (f : Feeding) → IsFedNext settings uuid.now counts.now source piece.now f fed.old load.old
        → IsRunning (fed_with source piece.now f) load.new verdict fed.new × IsTold (fed_with source piece.now f) load.new verdict) }
    ensures err { OnErr result ((f : Feeding) → IsFedNext settings uuid.now counts.now source piece.now f fed.old load.old → HasAloneIfAny (fed_with source piece.now f) load.new) }
    ensures rounds { rounds_loaded (option_map held_of load.old) ≤ rounds_loaded (option_map held_of load.new) }
    ensures stays { load.old ≢ None → load.new ≢ None }
    ensures places { OnOk result ((f : Feeding) → IsFedNext settings uuid.now counts.now source piece.now f fed.old load.old
        → HavePlaces f.given f.uuid f.texts places.old → HavePlaces f.given f.uuid (feed_step source piece.now f.texts) places.new) }
{
    let Ok(()) = fed.sources.feed(source, piece) else {
        return Err(NoMemory);
    };
    note(&fed.sources, source, places);
    put_any(load, &mut fed.waiting, source, piece)?;
    begin(alloc, settings, uuid, &fed.sources, counts.channels(), load)?;
    advance(fed, load, counts)
}

// Ends a source of the load, if none of its bytes waits.
fn end_taken<A: Allocator>(load: &mut Option<RoundLoad<A>>, waiting: &Waiting<A>, source: Source)
    requires { (f : Feeding) × TakesOrWaits f waiting.now load.old × HasSource (counts_in f.texts) source }
    ensures ended { (f : Feeding) (verdict : Verdict) → LoadsWith f waiting.now load.old verdict → HasSource (counts_in f.texts) source
        → verdict ≡ running → LoadsAfter (over_with source f) waiting.now load.new }
    ensures same { option_map held_of load.new ≡ option_map held_of load.old }
{
    match load {
        Some(load) => {
            if waiting.none_of(source) {
                load.end(source);
            }
        }
        None => {}
    }
}

// Ends a source. Returns the verdict.
fn end_source<A: Allocator>(
    fed: &mut Fed<A>,
    load: &mut Option<RoundLoad<A>>,
    places: &mut Option<SourcePlaces<A>>,
    source: Source,
) -> Verdict
    requires { (f : Feeding) × IsPageSize f.given.page_size × IsRunning f load.old running fed.old × HasSource (counts_in f.texts) source }
    ensures told { (f : Feeding) → IsPageSize f.given.page_size → IsRunning f load.old running fed.old → HasSource (counts_in f.texts) source
        → IsRunning (over_with source f) load.new result fed.new × IsTold (over_with source f) load.new result }
    ensures places { (f : Feeding) → Holds f.given f.uuid f.texts fed.old.read
        → HavePlaces f.given f.uuid f.texts places.old → HavePlaces f.given f.uuid (end_step source f.texts) places.new }
    ensures same { option_map held_of load.new ≡ option_map held_of load.old }
{
    fed.sources.end(source);
    note(&fed.sources, source, places);
    end_taken(load, &fed.waiting, source);
    match load {
        Some(load) => load.verdict(),
        None => verdict_without_table(&mut fed.sources),
    }
}

// Drops the load, and keeps its memory.
fn settle<A: Allocator>(load: &mut Option<RoundLoad<A>>, over: &mut Option<Held<A>>)
    ensures none { load.new ≡ None }
    ensures kept { over.new ≡ target_in load.old over.old }
{
    if let Some(load) = load.take() {
        *over = Some(load.into_held());
    }
}

// Drops the sources and the load once there is a verdict, and keeps the load's memory.
fn keep<A: Allocator>(
    sources: &mut Option<Fed<A>>,
    load: &mut Option<RoundLoad<A>>,
    over: &mut Option<Held<A>>,
    verdict: Verdict,
)
    ensures running { verdict ≡ running → (sources.new ≡ sources.old) × (load.new ≡ load.old) × (over.new ≡ over.old) }
    ensures settled { verdict ≢ running → (sources.new ≡ None) × (load.new ≡ None) }
    ensures target { target_in load.new over.new ≡ target_in load.old over.old }
{
    match verdict {
        Verdict::Running => {}
        Verdict::Done | Verdict::Failed(_) => {
            *sources = None;
            settle(load, over);
        }
    }
}

/// Prints an opaque value: a session holds guest memory.
impl<A: Allocator> Debug for Session<A> {
    fn fmt<W: fmt::Write>(&self, f: &mut Formatter<W>) -> fmt::Result {
        f.write_str("Session { .. }")
    }
}

impl<A: Allocator + Copy> Session<A> {
    /// Creates a session that was fed nothing, of `channels` channels under `uuid`, with pages of
    /// `page_size` bytes. The guest's blocks may have `limit` bytes together.
    ///
    /// # Errors
    ///
    /// `NoMemory`: an allocation was refused.
    pub fn new(
        alloc: A,
        page_size: u64,
        uuid: &Uuid,
        channels: usize,
        limit: u64,
    ) -> Result<Session<A>, NoMemory>
        requires page_size { IsPageSize page_size }
        requires channels { (1 ≤ channels) × (channels ≤ 255) }
        requires limit { limit ≤ 2 ^ 40 }
        ensures stands { IfOk result (λ s. StandsFor (ram_settings page_size limit) uuid.now (no_texts channels) s) }
        ensures counts { IfOk result (λ s. s.counts ≡ record { main = no_count; channels = replicate channels no_count }) }
    {
        Session::new_with(alloc, LoadSettings::new(page_size, limit), uuid, channels)
    }

    /// Creates a session that was fed nothing, of `channels` channels under `uuid`. Its main stream
    /// is read with `settings`.
    ///
    /// # Errors
    ///
    /// `NoMemory`: an allocation was refused.
    pub fn new_with(
        alloc: A,
        settings: LoadSettings,
        uuid: &Uuid,
        channels: usize,
    ) -> Result<Session<A>, NoMemory>
        requires page_size { IsPageSize settings.page_size }
        requires channels { (1 ≤ channels) × (channels ≤ 255) }
        requires limit { settings.limit ≤ 2 ^ 40 }
        ensures stands { IfOk result (λ s. StandsFor settings uuid.now (no_texts channels) s) }
        ensures counts { IfOk result (λ s. s.counts ≡ record { main = no_count; channels = replicate channels no_count }) }
    {
        let sources = Sources::new(alloc, settings, uuid, channels)?;
        let waiting = Waiting::new(alloc, channels)?;
        let counts = SourceCounts::new(alloc, channels)?;
        let places = SourcePlaces::new(alloc, channels)?;
        Ok(Session {
            alloc,
            settings,
            uuid: *uuid,
            counts,
            places: Some(places),
            sources: Some(Fed { sources, waiting }),
            load: None,
            over: None,
            verdict: Verdict::Running,
        })
    }

    /// Takes the next piece of a source, and applies the rounds that it completes. If the verdict
    /// isn't `Running`, the piece's bytes are only counted, and the call never fails.
    ///
    /// # Errors
    ///
    /// `NoMemory`: an allocation was refused. The bytes are counted, and the session has failed
    /// with `NoMemory` from then on. The memory is that after the rounds counted.
    pub fn feed(&mut self, source: Source, piece: &[u8]) -> Result<(), NoMemory>
        requires source { HasSource self.old.counts source }
        requires open { IsFalse (count_of self.old.counts source).ended }
        requires room { (count_of self.old.counts source).fed + length piece.now < 2 ^ 64 }
        ensures ok { OnOk result (StepsOn (feed_step source piece.now) self.old self.new) }
        ensures err { OnErr result (RunsOut (feed_step source piece.now) self.old self.new) }
        ensures failed { OnErr result (self.new.verdict ≡ failed_without_memory (answer_in self.new).rounds) }
        ensures lacking { StillLacks (feed_step source piece.now) self.old self.new }
        ensures settled { self.old.verdict ≢ running → IsOk result × (answer_in self.new ≡ answer_in self.old) }
        ensures counts { self.new.counts ≡ with_fed self.old.counts source (length piece.now) }
        ensures keeps { KeepsRounds self.old self.new }
    {
        self.counts.add(source, piece.len());
        let taken = match &mut self.sources {
            None => return Ok(()),
            Some(fed) => take(
                self.alloc,
                self.settings,
                &self.uuid,
                &self.counts,
                fed,
                &mut self.load,
                &mut self.places,
                source,
                piece,
            ),
        };
        match taken {
            Ok(verdict) => {
                self.verdict = verdict;
                keep(&mut self.sources, &mut self.load, &mut self.over, verdict);
                Ok(())
            }
            Err(NoMemory) => {
                self.verdict = wants_memory(rounds_of(&self.load, &self.over));
                settle(&mut self.load, &mut self.over);
                self.sources = None;
                self.places = None;
                Err(NoMemory)
            }
        }
    }
}

impl<A: Allocator> Session<A> {
    /// Ends a source: no piece of it is fed from now on. A second call changes nothing.
    pub fn end(&mut self, source: Source)
        requires { HasSource self.old.counts source }
        ensures steps { StepsOn (end_step source) self.old self.new }
        ensures lacking { StillLacks (end_step source) self.old self.new }
        ensures settled { self.old.verdict ≢ running → answer_in self.new ≡ answer_in self.old }
        ensures counts { self.new.counts ≡ with_end self.old.counts source }
        ensures same { self.new.target ≡ self.old.target }
    {
        self.counts.end(source);
        let verdict = match &mut self.sources {
            None => return,
            Some(fed) => end_source(fed, &mut self.load, &mut self.places, source),
        };
        self.verdict = verdict;
        keep(&mut self.sources, &mut self.load, &mut self.over, verdict);
    }

    /// Returns the number of channels.
    pub fn channels(&self) -> usize
        ensures { result ≡ length self.now.counts.channels }
    {
        self.counts.channels()
    }

    /// Returns whether the session has `source`: the main stream, or a channel that exists.
    pub fn has(&self, source: Source) -> bool
        ensures { IsTrue result ↔ HasSource self.now.counts source }
    {
        match source {
            Source::Main => true,
            Source::Channel(j) => j < self.counts.channels(),
        }
    }

    /// Returns whether a piece of `len` bytes of `source` has room: with that piece fewer than 2^64
    /// of its bytes were fed.
    pub fn has_room(&self, source: Source, len: usize) -> bool
        requires { HasSource self.now.counts source }
        ensures { IsTrue result ↔ (count_of self.now.counts source).fed + len < 2 ^ 64 }
    {
        len as u64 <= u64::MAX - self.counts.of(source).fed
    }

    /// Returns whether a source was ended.
    pub fn ended(&self, source: Source) -> bool
        requires { HasSource self.now.counts source }
        ensures { result ≡ (count_of self.now.counts source).ended }
    {
        self.counts.of(source).ended
    }

    /// Returns how many bytes of a source were fed.
    pub fn fed(&self, source: Source) -> u64
        requires { HasSource self.now.counts source }
        ensures { result ≡ (count_of self.now.counts source).fed }
    {
        self.counts.of(source).fed
    }

    /// Returns how many bytes of the main stream close it, once it is closed: those up to its end
    /// byte, or in a machine's stream up to the footer of RAM's END. The bytes fed after them are
    /// left to the caller.
    ///
    /// A session reads no more of its sources once its verdict isn't `Running`: a main stream that
    /// wasn't closed by then is reported as open. None after a refused allocation.
    pub fn closed_at(&self) -> Option<u64>
        ensures stands { (given : LoadSettings) (uuid : List ℕ) (texts : Texts) → StandsFor given uuid texts self.now
            → AsRead given uuid texts self.now (λ read. HasClosedAt (main_of given) read.main.bytes result) }
        ensures closed { IfSome result (λ n. (given : LoadSettings) (uuid : List ℕ) (texts : Texts) → StandsFor given uuid texts self.now → IsClosedAt (main_of given) texts.main.bytes n) }
        ensures lacking { (given : LoadSettings) (uuid : List ℕ) (texts : Texts) → LacksMemory given uuid texts self.now → result ≡ None }
    {
        match &self.places {
            Some(places) => places.closed_at(),
            None => None,
        }
    }

    /// Returns how many bytes of `source` are complete items without a fault, from the first byte
    /// on. If the verdict is a fault of that source (`Fault::Stream`, `Fault::Channel`), the item
    /// at fault begins after them. `HelloTwice`, `Extra` and `Short` are faults of several sources
    /// together, and 54 to 59 of a round: they belong to no item.
    ///
    /// A session reads no more of its sources once its verdict isn't `Running`: the bytes after
    /// that aren't read. None after a refused allocation.
    pub fn valid_up_to(&self, source: Source) -> Option<u64>
        requires { HasSource self.now.counts source }
        ensures stands { (given : LoadSettings) (uuid : List ℕ) (texts : Texts) → StandsFor given uuid texts self.now
            → AsRead given uuid texts self.now (λ read. IsSourceValidUpTo given uuid read source result) }
        ensures lacking { (given : LoadSettings) (uuid : List ℕ) (texts : Texts) → LacksMemory given uuid texts self.now → result ≡ None }
    {
        match &self.places {
            Some(places) => places.valid_up_to(source),
            None => None,
        }
    }

    /// Returns the fault of the bytes of `source` by themselves, whatever other sources have: a
    /// `Fault::Stream` or a `Fault::Channel`. It is known at once, while the verdict waits for the
    /// other sources. So it says which connection broke: a source that was ended too early has
    /// `Truncated`, or a channel after a packet without SYNC `Unsynced`.
    ///
    /// A session reads no more of its sources once its verdict isn't `Running`: from then on each
    /// has the fault that it had. None after a refused allocation.
    pub fn fault_of(&self, source: Source) -> Option<Fault>
        requires { HasSource self.now.counts source }
        ensures stands { (given : LoadSettings) (uuid : List ℕ) (texts : Texts) → StandsFor given uuid texts self.now
            → AsRead given uuid texts self.now (λ read. HasFault given uuid read source result) }
        ensures lacking { (given : LoadSettings) (uuid : List ℕ) (texts : Texts) → LacksMemory given uuid texts self.now → result ≡ None }
    {
        match &self.places {
            Some(places) => places.fault_of(source),
            None => None,
        }
    }

    /// Returns whether all rounds are in: the main stream is closed, each of its rounds was judged
    /// lawful and is in the memory, and no channel has a further round or a fault. The channels may
    /// not have ended yet.
    ///
    /// QEMU with a return path ends its channels only after the answer, and `Verdict::Done` waits
    /// for their ends. So answer where this is true. Then the channels end, and the verdict is
    /// `Done`.
    ///
    /// A packet of a round that isn't complete isn't in the memory, and doesn't count here. If a
    /// channel ends with one, that is its fault.
    pub fn has_all_rounds(&self) -> bool
        ensures all { IsTrue result → (given : LoadSettings) (uuid : List ℕ) (texts : Texts) → StandsFor given uuid texts self.now
            → HasAllRounds given uuid texts (answer_in self.now) }
        ensures exact { self.now.verdict ≡ running → (given : LoadSettings) (uuid : List ℕ) (texts : Texts) → StandsFor given uuid texts self.now
            → HasAllRounds given uuid texts (answer_in self.now) → IsTrue result }
        ensures done { self.now.verdict ≡ done → IsTrue result }
        ensures failed { IsTrue result → (self.now.verdict ≡ running) ⊎ (self.now.verdict ≡ done) }
    {
        match &self.sources {
            Some(fed) => fed.sources.have_only(rounds_now(&self.load)),
            None => is_done(self.verdict),
        }
    }

    /// Returns the verdict on the bytes so far.
    ///
    /// The load of a sender's streams on several channels is done, with the memory after its
    /// rounds, once all sources were fed and ended. They may be fed in any pieces and in any order.
    /// The session must have the sender's page size and UUID, and a limit of at least the table's
    /// bytes.
    ///
    /// A `Failed` has one of these, and never `OtherTable`:
    ///
    /// - `Fault::Stream`: a fault of the main stream.
    /// - `Fault::Channel`, `HelloTwice`, `Extra` or `Short`: a fault of a channel.
    /// - `Fault::Round`: a refusal of a round (54 to 59).
    /// - `NoMemory`: an allocation was refused in a `feed`.
    pub fn verdict(&self) -> Verdict
        ensures { result ≡ self.now.verdict }
    {
        self.verdict
    }

    /// Returns the memory after the rounds so far. None before the size list is complete, or if the
    /// memory couldn't be allocated.
    pub fn memory(&self) -> Option<&Memory<A>>
        ensures { option_copied result ≡ (answer_in self.now).memory }
    {
        memory_of(&self.load, &self.over)
    }

    /// Returns how many pages of the guest no record and no packet of the rounds in the memory
    /// named: these are zeros, as the memory was at first. None before the size list is complete,
    /// and after a refused allocation.
    ///
    /// At `Verdict::Done` the streams don't have these pages. A load of a whole guest lacks none; a
    /// load of changes alone lacks many.
    pub fn missing(&self) -> Option<u64>
        ensures stands { (given : LoadSettings) (uuid : List ℕ) (texts : Texts) → StandsFor given uuid texts self.now
            → AsRead given uuid texts self.now (λ read. HasMissing given uuid read (answer_in self.now).rounds result) }
        ensures lacking { (given : LoadSettings) (uuid : List ℕ) (texts : Texts) → LacksMemory given uuid texts self.now → result ≡ None }
    {
        match &self.places {
            Some(_) => missing_of(&self.load, &self.over),
            None => None,
        }
    }

    /// Returns how many rounds are in the memory.
    pub fn rounds(&self) -> u64
        ensures { result ≡ (answer_in self.now).rounds }
    {
        rounds_of(&self.load, &self.over)
    }
}
