//! How the load of a session takes bytes: those of a piece, those that wait, and a source's end
//! after them.

ghost use Rattle.std.specs.Prelude.{◌≡◌, ◌<◌, ◌≤◌, ◌^◌, IsTrue, IsFalse, OnOk, OnErr, length};
ghost use Rattle.mig_answer.specs.declared.verdict.Verdict.TheVariants.{Running as running};
ghost use Rattle.mig_sources.specs.declared.source.Source.{Source};
ghost use Rattle.mig_sources.specs.Sources.{HasSource, counts_in};
ghost use Rattle.mig_session.specs.Loading.{Feeding, fed, Takes, HasAlone, IsDone, Settles, HasRoom, Counted};

use crate::loading::RoundLoad;
use crate::waiting::Waiting;
use mig_mem::NoMemory;
use mig_sources::{Count, Source, SourceCounts};
use std::alloc::Allocator;

/// Has the load take a piece of a source, unless bytes of the source wait. What isn't taken waits.
/// `Err` is `NoMemory`.
pub(crate) fn put<A: Allocator + Copy>(
    load: &mut RoundLoad<A>,
    waiting: &mut Waiting<A>,
    source: Source,
    piece: &[u8],
) -> Result<(), NoMemory>
    requires { (f : Feeding) × Takes f waiting.old load.old × HasRoom f.texts source (length piece.now) }
    ensures ok { OnOk result ((f : Feeding) → Takes f waiting.old load.old → HasRoom f.texts source (length piece.now)
        → Takes (fed source piece.now f) waiting.new load.new) }
    ensures err { OnErr result ((f : Feeding) → Takes f waiting.old load.old → HasRoom f.texts source (length piece.now)
        → HasAlone (fed source piece.now f) load.new) }
    ensures rounds { load.old.load.rounds ≤ load.new.load.rounds }
{
    if waiting.none_of(source) {
        let taken = load.take(source, piece)?;
        return waiting.push(source, &piece[taken..]);
    }
    waiting.push(source, piece)
}

// Has the load take bytes of a source that wait, and its end after them. `Err` is `NoMemory`.
fn take_waiting<A: Allocator + Copy>(
    load: &mut RoundLoad<A>,
    waiting: &mut Waiting<A>,
    source: Source,
    count: Count,
) -> Result<(), NoMemory>
    requires streams { (f : Feeding) × Takes f waiting.old load.old × Counted f.texts source count }
    requires few { count.fed < 2 ^ 64 }
    ensures ok { OnOk result ((f : Feeding) → Takes f waiting.old load.old → Counted f.texts source count → Takes f waiting.new load.new) }
    ensures err { OnErr result ((f : Feeding) → Takes f waiting.old load.old → Counted f.texts source count → HasAlone f load.new) }
    ensures rounds { load.old.load.rounds ≤ load.new.load.rounds }
{
    if load.ended(source) || !load.takes(source) {
        return Ok(());
    }
    let taken = load.take(source, waiting.of(source))?;
    waiting.skip(source, taken);
    if count.ended && waiting.none_of(source) {
        load.end(source);
    }
    Ok(())
}

// Has the load take what waits of each source. `Err` is `NoMemory`.
fn take_all<A: Allocator + Copy>(
    load: &mut RoundLoad<A>,
    waiting: &mut Waiting<A>,
    counts: &SourceCounts<A>,
) -> Result<(), NoMemory>
    requires { (f : Feeding) × Takes f waiting.old load.old × (counts.now ≡ counts_in f.texts) }
    ensures ok { OnOk result ((f : Feeding) → Takes f waiting.old load.old → counts.now ≡ counts_in f.texts → Takes f waiting.new load.new) }
    ensures err { OnErr result ((f : Feeding) → Takes f waiting.old load.old → counts.now ≡ counts_in f.texts → HasAlone f load.new) }
    ensures rounds { load.old.load.rounds ≤ load.new.load.rounds }
{
    take_waiting(load, waiting, Source::Main, counts.of(Source::Main))?;
    for j in 0..counts.channels() {
        let source = Source::Channel(j);
        take_waiting(load, waiting, source, counts.of(source))?;
    }
    Ok(())
}

// Returns whether bytes of a source wait, or its end, and the load takes them now.
fn is_left<A: Allocator>(
    load: &RoundLoad<A>,
    waiting: &Waiting<A>,
    source: Source,
    count: Count,
) -> bool
    requires { (f : Feeding) × Takes f waiting.now load.now × Counted f.texts source count }
    ensures { IsFalse result → load.now.load.verdict ≡ running → (f : Feeding) (takes : Takes f waiting.now load.now) → Counted f.texts source count
        → IsDone load.now.load.rounds f takes.taken source }
{
    if waiting.none_of(source) {
        if load.ended(source) {
            return false;
        }
        if !count.ended {
            return false;
        }
    }
    load.takes(source)
}

// Returns whether the load takes nothing now of what waits.
fn none_left<A: Allocator>(
    load: &RoundLoad<A>,
    waiting: &Waiting<A>,
    counts: &SourceCounts<A>,
) -> bool
    requires { (f : Feeding) × Takes f waiting.now load.now × (counts.now ≡ counts_in f.texts) }
    ensures { IsTrue result → load.now.load.verdict ≡ running → (f : Feeding) (takes : Takes f waiting.now load.now) → counts.now ≡ counts_in f.texts
        → (from : Source) → HasSource (counts_in f.texts) from → IsDone load.now.load.rounds f takes.taken from }
{
    if is_left(load, waiting, Source::Main, counts.of(Source::Main)) {
        return false;
    }
    for j in 0..counts.channels() {
        let source = Source::Channel(j);
        if is_left(load, waiting, source, counts.of(source)) {
            return false;
        }
    }
    true
}

/// Has the load take what waits, as long as it takes some. `Err` is `NoMemory`: an allocation was
/// refused, or there are 2^64 rounds, which no stream in memory has.
pub(crate) fn pump<A: Allocator + Copy>(
    load: &mut RoundLoad<A>,
    waiting: &mut Waiting<A>,
    counts: &SourceCounts<A>,
) -> Result<(), NoMemory>
    requires { (f : Feeding) × Takes f waiting.old load.old × (counts.now ≡ counts_in f.texts) }
    ensures ok { OnOk result ((f : Feeding) → Takes f waiting.old load.old → counts.now ≡ counts_in f.texts → Settles f waiting.new load.new) }
    ensures err { OnErr result ((f : Feeding) → Takes f waiting.old load.old → counts.now ≡ counts_in f.texts → HasAlone f load.new) }
    ensures rounds { load.old.load.rounds ≤ load.new.load.rounds }
{
    for _ in 0..u64::MAX {
        take_all(load, waiting, counts)?;
        if none_left(load, waiting, counts) {
            return Ok(());
        }
    }
    Err(NoMemory)
}
