//! The load of complete streams on several channels: a relay, with a worker for each channel.

ghost use Rattle.mig_load_types.specs.declared.settings.RoundEnd.TheVariants.{Flush as by_flush};
ghost use Rattle.std.specs.Prelude.{◌≡◌, ◌<◌, ◌≤◌, ◌^◌, ◌⊎◌, List, length, is_ok, IfOk, vec_len, vec_capacity};
ghost use Rattle.std.specs.List.{AllZip};
ghost use Rattle.mig_mem.specs.PageSize.{IsPageSize};
ghost use Rattle.mig_mem.specs.RamTable.{RamTable};
ghost use Rattle.mig_stream.specs.declared.item.Frame.TheVariants.{Ram, Machine};
ghost use Rattle.mig_stream.specs.Text.{total_bytes};
ghost use Rattle.mig_send.specs.DealtRounds.{DealtRound};
ghost use Rattle.mig_load_types.specs.Settings.{ram_settings};
ghost use Rattle.mig_answer.specs.Texts.{ended_texts};
ghost use Rattle.mig_answer.specs.MultiLoad.{IsWithoutMemory, IsAnswerOrWithoutMemory, SaysOfStreamsOrNothing, answer_of, bytes_of};
ghost use Rattle.mig_answer.specs.Sent.{LetsChannelsThrough, IsSentBefore, IsSentInAnyOrder, IsMachineSentInAnyOrder, sent_answer};
ghost use Rattle.mig_relay.specs.RelayItems.{IsThrough};
ghost use Rattle.mig_relay.specs.Relayed.{HasReceived, Continues, Load, Goes, Ends};
ghost use Rattle.mig_relay.specs.Multi.{AnswersRelay};

use crate::feeder::{Fed, Feeder, FeederStep};
use crate::relay::{Collector, Relay};
use crate::relayed::{Going, answered, begin, next_round};
use mig_answer::apply_by;
use mig_load_types::{LoadFault, LoadSettings, Loaded};
use mig_mem::NoMemory;
use mig_packet::Gate;
use mig_single_load::without_memory;
use std::alloc::Allocator;
use std::sync::Wait;
use std::thread;
use std::thread::{JoinHandle, Scope, Threads};
use uuid::Uuid;

// how many items the queue of a channel holds
const QUEUE_CAPACITY: usize = 64;

/// Loads a guest from a complete main stream and complete channels, which may be in any order.
/// Pages have `page_size` bytes, and hellos name `uuid`. The blocks may have `limit` bytes
/// together.
///
/// Each channel is read by a worker on a thread of its own for the whole load. The worker passes
/// `gate` with each item that it found, and that it pushed. All workers have ended when the call
/// returns. A round of 4,096 pages or more is written into memory by as many threads as there are
/// channels, the caller's thread among them.
///
/// # Errors
///
/// A failed verdict has one of these, and never `OtherTable`:
///
/// - `Fault::Stream`: a fault of the main stream.
/// - `Fault::Channel`, `HelloTwice`, `Extra` or `Short`: a fault of a channel.
/// - `Fault::Round`: a refusal of a round (54 to 59).
/// - `NoMemory`: an allocation was refused, or a worker couldn't be started.
pub fn load_multi<
    R: Threads + Wait + Sync,
    A: Allocator + Copy + Send + Sync,
    B: Allocator + Sync,
    G: Gate + Sync,
>(
    rt: &R,
    alloc: A,
    page_size: u64,
    uuid: &Uuid,
    main: &[u8],
    channels: &[Vec<u8, B>],
    limit: u64,
    gate: &G,
) -> Loaded<A>
    requires page_size { IsPageSize page_size }
    requires channels { (1 ≤ length channels.now) × (length channels.now ≤ 255) }
    requires limit { limit ≤ 2 ^ 40 }
    ensures answer { IsAnswerOrWithoutMemory (ram_settings page_size limit) uuid.now (ended_texts main.now (bytes_of channels.now))
        (answer_of result) }
    ensures streams { SaysOfStreamsOrNothing (ram_settings page_size limit) uuid.now (ended_texts main.now (bytes_of channels.now)) result }
    ensures sent { (table : RamTable) (rounds : List DealtRound) → IsSentInAnyOrder table uuid.now rounds main.now (bytes_of channels.now)
        → table.page_size ≡ page_size → total_bytes table ≤ limit
        → (answer_of result ≡ sent_answer table rounds)
        ⊎ IsWithoutMemory (ram_settings page_size limit) uuid.now (ended_texts main.now (bytes_of channels.now)) (answer_of result) }
{
    let settings = LoadSettings::new(page_size, limit);
    load_multi_with(rt, alloc, settings, uuid, main, channels, gate)
}

/// Loads a guest from a complete main stream and complete channels, as `load_multi` does, with the
/// main stream read with `settings`. The streams of a sender with a machine's main stream are
/// loaded in the machine's frame, whatever follows RAM's END.
///
/// # Errors
///
/// A failed verdict has one of these, and never `OtherTable`:
///
/// - `Fault::Stream`: a fault of the main stream.
/// - `Fault::Channel`, `HelloTwice`, `Extra` or `Short`: a fault of a channel.
/// - `Fault::Round`: a refusal of a round (54 to 59).
/// - `NoMemory`: an allocation was refused, or a worker couldn't be started.
pub fn load_multi_with<
    R: Threads + Wait + Sync,
    A: Allocator + Copy + Send + Sync,
    B: Allocator + Sync,
    G: Gate + Sync,
>(
    rt: &R,
    alloc: A,
    settings: LoadSettings,
    uuid: &Uuid,
    main: &[u8],
    channels: &[Vec<u8, B>],
    gate: &G,
) -> Loaded<A>
    requires page_size { IsPageSize settings.page_size }
    requires channels { (1 ≤ length channels.now) × (length channels.now ≤ 255) }
    requires limit { settings.limit ≤ 2 ^ 40 }
    ensures answer { IsAnswerOrWithoutMemory settings uuid.now (ended_texts main.now (bytes_of channels.now)) (answer_of result) }
    ensures streams { SaysOfStreamsOrNothing settings uuid.now (ended_texts main.now (bytes_of channels.now)) result }
    ensures sent { (table : RamTable) (rounds : List DealtRound) → IsSentBefore table uuid.now rounds main.now (bytes_of channels.now)
        → settings.frame ≡ Ram → LetsChannelsThrough settings.waiting (length (bytes_of channels.now)) rounds → settings.round_end ≡ by_flush → table.page_size ≡ settings.page_size → total_bytes table ≤ settings.limit
        → (answer_of result ≡ sent_answer table rounds)
        ⊎ IsWithoutMemory settings uuid.now (ended_texts main.now (bytes_of channels.now)) (answer_of result) }
    ensures machine { (table : RamTable) (rounds : List DealtRound) → IsMachineSentInAnyOrder table uuid.now rounds main.now (bytes_of channels.now)
        → settings.frame ≡ Machine → LetsChannelsThrough settings.waiting (length (bytes_of channels.now)) rounds → settings.round_end ≡ by_flush → table.page_size ≡ settings.page_size → total_bytes table ≤ settings.limit
        → (answer_of result ≡ sent_answer table rounds)
        ⊎ IsWithoutMemory settings uuid.now (ended_texts main.now (bytes_of channels.now)) (answer_of result) }
{
    let page_size = settings.page_size;
    let waiting = settings.waiting;
    let Ok((feeders, collector)) = Relay::start_with(
        alloc,
        page_size,
        uuid,
        channels,
        QUEUE_CAPACITY,
        waiting,
    ) else {
        return without_memory();
    };
    load(rt, alloc, feeders, collector, main, settings, gate)
}

// Starts a worker for each feeder, loads their items, and ends them all.
fn load<'a, R: Threads + Wait + Sync, A: Allocator + Copy + Send + Sync, G: Gate + Sync>(
    rt: &R,
    alloc: A,
    feeders: Vec<Feeder<'a, A>, A>,
    mut collector: Collector<'a, A>,
    main: &[u8],
    settings: LoadSettings,
    gate: &G,
) -> Loaded<A>
    requires same { feeders.items ≡ collector }
    requires limit { settings.limit ≤ 2 ^ 40 }
    ensures { AnswersRelay settings main.now collector.entry result }
{
    thread::scope(
        thread::scope_env(),
        rt,
        move |scope| -> Loaded<A>
            requires same { feeders.items ≡ collector }
            requires limit { settings.limit ≤ 2 ^ 40 }
            ensures { AnswersRelay settings main.entry.now collector.entry result }
        {
            let Ok(mut workers) = Vec::with_capacity(alloc, feeders.len()) else {
                return without_memory();
            };
            let loaded = match start_workers(scope, rt, gate, feeders, &mut workers) {
                Ok(()) => {
                    let threads = workers.len().max(1) as u64;
                    load_together(rt, threads, alloc, &mut collector, main, settings)
                }
                Err(_) => without_memory(),
            };
            collector.drain(rt, workers.len());
            for worker in workers {
                worker.join(rt);
            }
            loaded
        },
    )
}

// Loads what the workers bring. At most `threads` threads write a round.
fn load_together<'a, R: Threads + Wait + Sync, A: Allocator + Copy + Send>(
    rt: &R,
    threads: u64,
    alloc: A,
    collector: &mut Collector<'a, A>,
    main: &[u8],
    settings: LoadSettings,
) -> Loaded<A>
    requires threads { 0 < threads }
    requires limit { settings.limit ≤ 2 ^ 40 }
    ensures answer { AnswersRelay settings main.now collector.old result }
    ensures received { AllZip (HasReceived result.rounds (is_ok result.verdict)) collector.old collector.new }
{
    let mut going = match begin(rt, alloc, collector, main, settings) {
        Ok(going) => going,
        Err(loaded) => return loaded,
    };
    let at = going.main_places();
    let verdict = load_rounds_by(rt, threads, alloc, collector, &mut going);
    answered(going, at, verdict)
}

// Applies rounds as `load_rounds` of `relayed` does, each by at most `threads` threads.
fn load_rounds_by<'a, R: Threads + Wait + Sync, A: Allocator + Copy + Send>(
    rt: &R,
    threads: u64,
    alloc: A,
    collector: &mut Collector<'a, A>,
    going: &mut Going<'_, A>,
) -> Result<(), LoadFault>
    requires threads { 0 < threads }
    requires goes { (l : Load) × Goes l going.old.reader going.old.target going.old.places.items collector.old }
    ensures ended { (l : Load) → Goes l going.old.reader going.old.target going.old.places.items collector.old → Ends l going.new.target result collector.new }
    ensures continues { AllZip Continues collector.old collector.new }
{
    'rounds: loop {
        let (round, gathered) = match next_round(rt, alloc, collector, going) {
            Ok(next) => next,
            Err(verdict) => return verdict,
        };
        if let Err(fault) = apply_by(rt, threads, &mut going.target, &round, &gathered) {
            return Err(fault);
        }
    }
}

// Starts a worker for each feeder, in order, up to the first that can't be started.
fn start_workers<
    's,
    'a: 's,
    E,
    R: Threads + Wait + Sync,
    A: Allocator + Copy + Send + Sync + 's,
    G: Gate + Sync,
>(
    scope: &'s Scope<'s, E>,
    rt: &'s R,
    gate: &'s G,
    feeders: Vec<Feeder<'a, A>, A>,
    workers: &mut Vec<JoinHandle<()>, A>,
) -> Result<(), NoMemory>
    requires empty { vec_len workers.old ≡ 0 }
    requires room { length feeders.items ≤ vec_capacity workers.old }
    ensures all { IfOk result (λ _. vec_len workers.new ≡ length feeders.entry.items) }
    ensures some { vec_len workers.new ≤ length feeders.entry.items }
{
    for feeder in feeders {
        match scope.spawn(move || drop(feed(rt, feeder, gate))) {
            Ok(worker) => workers.push_reserved(worker),
            Err(_) => return Err(NoMemory),
        }
    }
    Ok(())
}

// Pushes all items that a feeder has left.
fn feed<'a, R: Wait, A: Allocator, G: Gate>(rt: &R, mut feeder: Feeder<'a, A>, gate: &G) -> Fed<A>
    ensures queue { result.queue ≡ feeder.entry.queue }
    ensures source { result.source ≡ feeder.entry.source }
    ensures through { IsThrough result }
{
    for _ in rt.forever() {
        match feeder.step(rt, gate) {
            FeederStep::More(next) => feeder = next,
            FeederStep::Ended(fed) => return fed,
        }
    }
    unreachable!()
}
