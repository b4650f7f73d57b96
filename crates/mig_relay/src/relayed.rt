//! The load of the items of a relay, round by round. `load_multi` calls it while its workers run,
//! and so may callers with a relay of their own.

ghost use Rattle.std.specs.Prelude.{ℕ, ◌≡◌, ◌≢◌, ◌<◌, ◌≤◌, ◌^◌, [], List, Option, map, replicate, is_ok, All, IfOk, IfErr, OnOk};
ghost use Rattle.std.specs.List.{AllZip};
ghost use Rattle.mig_packet.specs.Lent.{fields};
ghost use Rattle.mig_answer.specs.declared.verdict.Verdict.TheVariants.{Running as running};
ghost use Rattle.mig_answer.specs.Status.{main_status};
ghost use Rattle.mig_stream.specs.Reader.{waiting, Tells, HasClosedAt, IsValidUpTo};
ghost use Rattle.mig_load_types.specs.Settings.{ram_settings};
ghost use Rattle.mig_answer.specs.Texts.{ended_texts};
ghost use Rattle.mig_answer.specs.MultiLoad.{IsAnswerOrWithoutMemory, SaysOfStreamsOrNothing, as_verdict, answer_of};
ghost use Rattle.mig_relay.specs.RelayItems.{QueueEnd};
ghost use Rattle.mig_relay.specs.Relayed.{IsRelayOf, HasReceived, Continues, AreAtRound, Load, IsLoadOf, Loading, ToldAt, repeated_at, HasEnded, EndsAt, Goes, Ready, Ends, Begins, AreMainPlaces, IsAnswerOf};

use crate::hellos::repeated_hello;
use crate::relay::Collector;
use crate::taking::take_of_all;
use mig_answer::{Status, Verdict, apply, sources_verdict, stream_end};
use mig_assemble::{Gathered, Target};
use mig_load_types::{LoadFault, LoadSettings, Loaded, Origin};
use mig_marking::lacking;
use mig_mem::NoMemory;
use mig_single_load::{no_memory, without_memory};
use mig_stream::{StreamReader, StreamRound, StreamState};
use std::alloc::Allocator;
use std::sync::Wait;

// Returns the least channel whose hello names an earlier one's id. Only round 0 reports it.
fn repeated_at<A: Allocator>(round: u64, collector: &Collector<'_, A>) -> Option<usize>
    ensures { result ≡ repeated_at round collector.now }
{
    if round == 0 {
        return repeated_hello(collector);
    }
    None
}

// Takes a round of all channels, and gathers its packets. Returns the verdict of the sources there.
// If all have the round, and no hello is repeated, returns None.
fn verdict_at_round<'a, R: Wait, A: Allocator + Copy>(
    wait: &R,
    alloc: A,
    round: u64,
    main: Status,
    collector: &mut Collector<'a, A>,
    places: &mut Vec<usize, A>,
    gathered: &mut Gathered<'a, A>,
) -> Result<Option<Verdict>, NoMemory>
    requires empty { gathered.old ≡ [] }
    requires places { AreAtRound round places.old.items collector.old }
    ensures told { IfOk result (λ found. (l : Load) → Loading l round places.old.items collector.old → main ≡ main_status round l.readings.main
        → ToldAt l round main found places.new.items collector.new (map fields gathered.new)) }
    ensures page_size { OnOk result ((page_size : ℕ) → All (λ p. p.source.page_size ≡ page_size) collector.old
        → All (λ packet. packet.page_size ≡ page_size) gathered.new) }
    ensures continues { AllZip Continues collector.old collector.new }
{
    let mut statuses = Vec::with_capacity(alloc, collector.len())?;
    take_of_all(wait, collector, places, gathered, &mut statuses)?;
    let repeated = repeated_at(round, collector);
    Ok(sources_verdict(round, main, &statuses, repeated))
}

// Returns the verdict of a load as its answer.
fn answer_of(verdict: Verdict) -> Result<(), LoadFault>
    requires { verdict ≢ running }
    ensures { as_verdict result ≡ verdict }
{
    match verdict {
        Verdict::Done => Ok(()),
        Verdict::Failed(fault) => Err(fault),
        Verdict::Running => unreachable!(),
    }
}

// Returns the verdict after all rounds of a main stream whose state is `state`.
fn end<'a, R: Wait, A: Allocator + Copy>(
    wait: &R,
    alloc: A,
    rounds: u64,
    state: StreamState,
    collector: &mut Collector<'a, A>,
    places: &mut Vec<usize, A>,
) -> Result<(), LoadFault>
    requires { (l : Load) × EndsAt l rounds state places.old.items collector.old }
    ensures ended { (l : Load) → EndsAt l rounds state places.old.items collector.old → HasEnded l rounds result collector.new }
    ensures continues { AllZip Continues collector.old collector.new }
{
    let main = stream_end(state);
    if let Status::Bad(fault) = main {
        return Err(LoadFault {
            round: rounds,
            source: Origin::Main,
            fault,
        });
    }
    let mut gathered = Gathered::new(alloc);
    let Ok(found) = verdict_at_round(wait, alloc, rounds, main, collector, places, &mut gathered)
    else {
        return no_memory(rounds);
    };
    match found {
        Some(verdict) => answer_of(verdict),
        None => unreachable!(),
    }
}

/// A load that has its table: what is left of its sources, and its memory so far.
#[derive(Drop)]
pub(crate) struct Going<'t, A: Allocator> {
    reader: StreamReader<'t, A>,
    // the index of the next item of each channel
    places: Vec<usize, A>,
    pub(crate) target: Target<A>,
}

// Where the main stream of a load is closed, and how many of its bytes are complete items without a
// fault.
#[derive(Clone, Copy)]
pub(crate) struct MainPlaces {
    closed_at: Option<u64>,
    valid_up_to: u64,
}

// Returns the places of a main stream, from its reader.
fn main_places<A: Allocator>(reader: &StreamReader<'_, A>) -> MainPlaces
    ensures { Tells reader.now (λ given so_far. HasClosedAt given so_far.text result.closed_at × IsValidUpTo given so_far.text result.valid_up_to) }
{
    MainPlaces {
        closed_at: reader.closed_at(),
        valid_up_to: reader.valid_up_to(),
    }
}

impl<'t, A: Allocator> Going<'t, A> {
    /// Returns the places of the main stream.
    pub(crate) fn main_places(&self) -> MainPlaces
        ensures { (l : Load) (ends : List QueueEnd) → Goes l self.now.reader self.now.target self.now.places.items ends → AreMainPlaces l result }
    {
        main_places(&self.reader)
    }
}

/// Returns the next round if all sources have it: the records of the main stream, and the packets
/// of the channels. Otherwise returns the load's verdict. The memory is unchanged.
pub(crate) fn next_round<'t, 'a, R: Wait, A: Allocator + Copy>(
    wait: &R,
    alloc: A,
    collector: &mut Collector<'a, A>,
    going: &mut Going<'t, A>,
) -> Result<(StreamRound<'t, A>, Gathered<'a, A>), Result<(), LoadFault>>
    requires { (l : Load) × Goes l going.old.reader going.old.target going.old.places.items collector.old }
    ensures ok { IfOk result (λ next. (l : Load) → Goes l going.old.reader going.old.target going.old.places.items collector.old
        → Ready l going.new.reader going.new.target going.new.places.items collector.new next.0 next.1) }
    ensures err { IfErr result (λ verdict. (l : Load) → Goes l going.old.reader going.old.target going.old.places.items collector.old
        → HasEnded l going.old.target.rounds verdict collector.new) }
    ensures target { going.new.target ≡ going.old.target }
    ensures fewer { IfOk result (λ _. waiting going.new.reader < waiting going.old.reader) }
    ensures continues { AllZip Continues collector.old collector.new }
{
    let rounds = going.target.rounds();
    let Ok(Some(round)) = going.reader.take_round() else {
        let state = going.reader.state();
        return Err(end(wait, alloc, rounds, state, collector, &mut going.places));
    };
    let mut gathered = Gathered::new(alloc);
    let Ok(found) = verdict_at_round(
        wait,
        alloc,
        rounds,
        Status::Whole,
        collector,
        &mut going.places,
        &mut gathered,
    ) else {
        return Err(no_memory(rounds));
    };
    match found {
        Some(verdict) => Err(answer_of(verdict)),
        None => Ok((round, gathered)),
    }
}

// Applies the rounds that wait, up to the first that doesn't pass, and returns the load's verdict.
fn load_rounds<'a, R: Wait, A: Allocator + Copy>(
    wait: &R,
    alloc: A,
    collector: &mut Collector<'a, A>,
    going: &mut Going<'_, A>,
) -> Result<(), LoadFault>
    requires { (l : Load) × Goes l going.old.reader going.old.target going.old.places.items collector.old }
    ensures ended { (l : Load) → Goes l going.old.reader going.old.target going.old.places.items collector.old → Ends l going.new.target result collector.new }
    ensures continues { AllZip Continues collector.old collector.new }
{
    'rounds: loop {
        let (round, gathered) = match next_round(wait, alloc, collector, going) {
            Ok(next) => next,
            Err(verdict) => return verdict,
        };
        if let Err(fault) = apply(&mut going.target, &round, &gathered) {
            return Err(fault);
        }
    }
}

// Returns a list of indices, each of the first item of one of `channels` channels.
fn starts<A: Allocator>(alloc: A, channels: usize) -> Result<Vec<usize, A>, NoMemory>
    ensures { IfOk result (λ v. v.items ≡ replicate channels 0) }
{
    let mut places = Vec::with_capacity(alloc, channels)?;
    for _ in 0..channels {
        places.push_reserved(0);
    }
    Ok(places)
}

// Returns the load that begins with the table of the main stream, or the answer where there is
// none.
fn with_table<'t, 'a, R: Wait, A: Allocator + Copy>(
    wait: &R,
    alloc: A,
    collector: &mut Collector<'a, A>,
    mut places: Vec<usize, A>,
    mut reader: StreamReader<'t, A>,
) -> Result<Going<'t, A>, Loaded<A>>
    requires { (l : Load) × Begins l reader places.items collector.old }
    ensures going { IfOk result (λ g. (l : Load) → Begins l reader.entry places.items collector.old → Goes l g.reader g.target g.places.items collector.new) }
    ensures same { IfOk result (λ _. collector.new ≡ collector.old) }
    ensures answer { IfErr result (λ loaded. (l : Load) → Begins l reader.entry places.items collector.old → IsAnswerOf l loaded) }
    ensures received { IfErr result (λ loaded. AllZip (HasReceived loaded.rounds (is_ok loaded.verdict)) collector.old collector.new) }
{
    let Some(table) = reader.table() else {
        let at = main_places(&reader);
        return Err(Loaded {
            memory: None,
            rounds: 0,
            verdict: end(wait, alloc, 0, reader.state(), collector, &mut places),
            missing: None,
            closed_at: at.closed_at,
            valid_up_to: Some(at.valid_up_to),
        });
    };
    match Target::new(alloc, table) {
        Ok(target) => Ok(Going {
            reader,
            places,
            target,
        }),
        Err(_) => Err(without_memory()),
    }
}

/// Begins a load of a complete main stream and the channels of a relay. Without a table in the main
/// stream it has ended, and the answer is returned.
pub(crate) fn begin<'t, 'a, R: Wait, A: Allocator + Copy>(
    wait: &R,
    alloc: A,
    collector: &mut Collector<'a, A>,
    main: &'t [u8],
    settings: LoadSettings,
) -> Result<Going<'t, A>, Loaded<A>>
    requires limit { settings.limit ≤ 2 ^ 40 }
    ensures some { (l : Load) × IsLoadOf settings main.now collector.old l }
    ensures going { IfOk result (λ g. (l : Load) → IsLoadOf settings main.now collector.old l → Goes l g.reader g.target g.places.items collector.new) }
    ensures same { IfOk result (λ _. collector.new ≡ collector.old) }
    ensures answer { IfErr result (λ loaded. (l : Load) → IsLoadOf settings main.now collector.old l → IsAnswerOf l loaded) }
    ensures received { IfErr result (λ loaded. AllZip (HasReceived loaded.rounds (is_ok loaded.verdict)) collector.old collector.new) }
{
    let page_size = collector.page_size();
    let waiting = collector.waiting();
    let Ok(mut reader) = StreamReader::of_text_with(
        alloc,
        settings.frame,
        settings.main_mode(),
        page_size,
        settings.limit,
        waiting,
        main,
    ) else {
        return Err(without_memory());
    };
    reader.end();
    let Ok(places) = starts(alloc, collector.len()) else {
        return Err(without_memory());
    };
    with_table(wait, alloc, collector, places, reader)
}

/// Returns the answer of a load that has ended with a verdict. Its main stream has these places.
pub(crate) fn answered<A: Allocator>(
    going: Going<'_, A>,
    main: MainPlaces,
    verdict: Result<(), LoadFault>,
) -> Loaded<A>
    ensures answer { (l : Load) (ends : List QueueEnd) → Ends l going.entry.target verdict ends → AreMainPlaces l main → IsAnswerOf l result }
    ensures rounds { result.rounds ≡ going.entry.target.rounds }
    ensures verdict { result.verdict ≡ verdict }
{
    let rounds = going.target.rounds();
    let missing = lacking(going.target.named());
    Loaded {
        memory: Some(going.target.into_memory()),
        rounds,
        verdict,
        missing: Some(missing),
        closed_at: main.closed_at,
        valid_up_to: Some(main.valid_up_to),
    }
}

/// Loads a guest from a complete main stream and the channels of a relay. It takes the items of a
/// channel up to the round that is judged. It begins with those taken before, and waits for the
/// feeders. The blocks may have `limit` bytes together. The relay's limit on what waits in a round
/// is the main stream's too. If a feeder was dropped before its stop, the call may wait for ever.
///
/// # Errors
///
/// A failed verdict has one of these, and never `OtherTable`:
///
/// - `Fault::Stream`: a fault of the main stream.
/// - `Fault::Channel`, `HelloTwice`, `Extra` or `Short`: a fault of a channel.
/// - `Fault::Round`: a refusal of a round (54 to 59).
/// - `NoMemory`: an allocation was refused.
pub fn load_relayed<'a, R: Wait, A: Allocator + Copy>(
    wait: &R,
    alloc: A,
    collector: &mut Collector<'a, A>,
    main: &[u8],
    limit: u64,
) -> Loaded<A>
    requires limit { limit ≤ 2 ^ 40 }
    ensures answer { (page_size : ℕ) (waiting : Option ℕ) (uuid : List ℕ) (texts : List (List ℕ)) → IsRelayOf page_size waiting uuid texts collector.old
        → IsAnswerOrWithoutMemory (record (ram_settings page_size limit) { waiting = waiting }) uuid (ended_texts main.now texts) (answer_of result) }
    ensures streams { (page_size : ℕ) (waiting : Option ℕ) (uuid : List ℕ) (texts : List (List ℕ)) → IsRelayOf page_size waiting uuid texts collector.old
        → SaysOfStreamsOrNothing (record (ram_settings page_size limit) { waiting = waiting }) uuid (ended_texts main.now texts) result }
    ensures received { AllZip (HasReceived result.rounds (is_ok result.verdict)) collector.old collector.new }
{
    let page_size = collector.page_size();
    let settings = LoadSettings::new(page_size, limit);
    load_relayed_with(wait, alloc, settings, collector, main)
}

/// Loads a guest from a complete main stream, read with `settings`, and from the channels of a
/// relay, as `load_relayed` does. Of `settings` the frame and the limit on bytes count: the page
/// size and what may wait in a round are the relay's.
///
/// # Errors
///
/// A failed verdict has one of these, and never `OtherTable`:
///
/// - `Fault::Stream`: a fault of the main stream.
/// - `Fault::Channel`, `HelloTwice`, `Extra` or `Short`: a fault of a channel.
/// - `Fault::Round`: a refusal of a round (54 to 59).
/// - `NoMemory`: an allocation was refused.
pub fn load_relayed_with<'a, R: Wait, A: Allocator + Copy>(
    wait: &R,
    alloc: A,
    settings: LoadSettings,
    collector: &mut Collector<'a, A>,
    main: &[u8],
) -> Loaded<A>
    requires limit { settings.limit ≤ 2 ^ 40 }
    ensures answer { (page_size : ℕ) (waiting : Option ℕ) (uuid : List ℕ) (texts : List (List ℕ)) → IsRelayOf page_size waiting uuid texts collector.old
        → IsAnswerOrWithoutMemory (record settings { page_size = page_size; waiting = waiting }) uuid (ended_texts main.now texts) (answer_of result) }
    ensures streams { (page_size : ℕ) (waiting : Option ℕ) (uuid : List ℕ) (texts : List (List ℕ)) → IsRelayOf page_size waiting uuid texts collector.old
        → SaysOfStreamsOrNothing (record settings { page_size = page_size; waiting = waiting }) uuid (ended_texts main.now texts) result }
    ensures received { AllZip (HasReceived result.rounds (is_ok result.verdict)) collector.old collector.new }
{
    let mut going = match begin(wait, alloc, collector, main, settings) {
        Ok(going) => going,
        Err(loaded) => return loaded,
    };
    let at = going.main_places();
    let verdict = load_rounds(wait, alloc, collector, &mut going);
    answered(going, at, verdict)
}
