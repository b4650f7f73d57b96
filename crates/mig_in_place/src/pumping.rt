//! The pump of a load in place: it reads all sources in turn, and feeds the load the bytes that it
//! takes.

ghost use Rattle.std.specs.Prelude.{ℕ, ◌≡◌, ◌≢◌, ◌+◌, ◌<◌, ◌≤◌, ◌^◌, [], None, Ok, Err, length, slice_set, IfSome, IfNone, IsTrue, IsFalse};
ghost use Rattle.mig_mem.specs.Image.{Image};
ghost use Rattle.mig_in_place.specs.declared.source_reader.Turn.TheVariants as turn;
ghost use Rattle.mig_in_place.specs.declared.source_reader.TurnFault.TheVariants as fault;
ghost use Rattle.mig_in_place.specs.Turns.{Pumps, KeepsBytes, TurnsTo, number_of, source_in, HasRoom, Takes, TakesNone, IsNext, NoneIsNext};

use crate::source_reader::{PIECE_LIMIT, takes};
use crate::{InPlaceSession, SourceReader, Turn, TurnFault};
use mig_answer::Verdict;
use mig_mem::GuestTarget;
use mig_sources::{PieceReader, Source};
use std::alloc::Allocator;

/// Chooses the source to read next: among live connections one that has bytes, so that none waits
/// for another.
pub trait TurnOrder {
    ghost use Rattle.std.specs.Prelude.{ℕ, ⊤};
    ghost use Rattle.mig_in_place.specs.Session.{InPlaceLoad};

    // How it chooses: the order before, the load, the chosen number, and the order after. An order
    // that waits for connections promises nothing here.
    ghost chooses: { Self → InPlaceLoad → ℕ → Self → Type 0 } = { λ before load number after. ⊤ };

    /// Returns the number of the source to read next: 0 for the main stream, `j + 1` for channel
    /// `j`. It may wait until a source has bytes that `load` takes (`takes`). If the load takes
    /// none of the source that it returns, another source is read of which the load takes bytes.
    fn next_turn<A: Allocator>(&mut self, load: &InPlaceSession<A>) -> usize
        ensures { chooses self.old load.now result self.new };
}

/// All sources one after another, the main stream first: for files, and readers that always have
/// bytes.
#[derive(Clone, Copy, Debug, PartialEq, Eq)]
pub struct RoundRobin {
    /// The number of the source that was chosen last.
    pub last: Option<usize>,
}

impl RoundRobin {
    /// Creates the order before its first choice.
    pub fn new() -> RoundRobin
        ensures { result ≡ record { last = None } }
    {
        RoundRobin { last: None }
    }
}

impl TurnOrder for RoundRobin {
    ghost use Rattle.mig_in_place.specs.Turns.{IsInTurn};

    ghost chooses = { λ before load number after. IsInTurn before.last load number after.last };

    fn next_turn<A: Allocator>(&mut self, load: &InPlaceSession<A>) -> usize {
        let number = match self.last {
            Some(last) if last < load.channels() => last + 1,
            _ => 0,
        };
        self.last = Some(number);
        number
    }
}

// Returns the source with a number.
fn source_at(number: usize) -> Source
    ensures { number_of result ≡ number }
{
    match number.checked_sub(1) {
        None => Source::Main,
        Some(j) => Source::Channel(j),
    }
}

// Returns the number of a source.
fn number_of(source: Source) -> usize
    requires { number_of source < 2 ^ 64 }
    ensures { result ≡ number_of source }
{
    match source {
        Source::Main => 0,
        Source::Channel(j) => j + 1,
    }
}

// Returns whether a source can be read: the load takes bytes of it, and has room for a piece of it.
fn has_turn<A: Allocator + Copy>(load: &InPlaceSession<A>, source: Source) -> bool
    ensures room { IsTrue result → HasRoom load.now source }
    ensures takes { IsTrue result → (memory : Image) → Takes source memory load.now }
    ensures none { IsFalse result → HasRoom load.now source → (memory : Image) → TakesNone source memory load.now }
{
    load.has(source) && load.has_room(source, PIECE_LIMIT) && takes(load, source)
}

// Returns a source that has bytes waiting, and can be read.
fn first_waiting<P: PieceReader, A: Allocator, B: Allocator + Copy>(
    sources: &[SourceReader<P, A>],
    load: &InPlaceSession<B>,
) -> Option<Source>
    ensures some { IfSome result (λ from. (number_of from < length sources.now) × HasRoom load.now from × ((source_in sources.now from).waiting ≢ [])
        × ((memory : Image) → Takes from memory load.now)) }
    ensures none { IfNone result ((from : _) → (source_in sources.now from).waiting ≢ [] → HasRoom load.now from → (memory : Image) → TakesNone from memory load.now) }
{
    for number in 0..sources.len() {
        let source = source_at(number);
        if !sources[number].waiting().is_empty() && has_turn(load, source) {
            return Some(source);
        }
    }
    None
}

// Returns the first of `count` sources that can be read.
fn first_open<B: Allocator + Copy>(count: usize, load: &InPlaceSession<B>) -> Option<Source>
    ensures some { IfSome result (λ from. (number_of from < count) × HasRoom load.now from × ((memory : Image) → Takes from memory load.now)) }
    ensures none { IfNone result ((from : _) → number_of from < count → HasRoom load.now from → (memory : Image) → TakesNone from memory load.now) }
{
    for number in 0..count {
        let source = source_at(number);
        if has_turn(load, source) {
            return Some(source);
        }
    }
    None
}

// Returns the source to read: one that has bytes waiting, or else the next one in the order.
fn whose_turn<P: PieceReader, A: Allocator, B: Allocator + Copy, O: TurnOrder>(
    sources: &[SourceReader<P, A>],
    order: &mut O,
    load: &InPlaceSession<B>,
) -> Option<Source>
    ensures some { IfSome result (λ from. (memory : Image)
        → IsNext O.chooses (record { load = load.now; memory = memory; sources = sources.now; order = order.old }) order.new from) }
    ensures none { IfNone result ((memory : Image)
        → NoneIsNext O.chooses (record { load = load.now; memory = memory; sources = sources.now; order = order.old }) order.new) }
{
    if let Some(source) = first_waiting(sources, load) {
        return Some(source);
    }
    let number = order.next_turn(load);
    let source = source_at(number);
    if number < sources.len() && has_turn(load, source) {
        return Some(source);
    }
    first_open(sources.len(), load)
}

// Takes a turn of a source that can be read.
fn turn_of<P: PieceReader, A: Allocator, B: Allocator + Copy, M: GuestTarget>(
    sources: &mut [SourceReader<P, A>],
    load: &mut InPlaceSession<B>,
    memory: &mut M,
    source: Source,
) -> Result<Turn, TurnFault>
    requires there { number_of source < length sources.old }
    requires room { HasRoom load.old source }
    requires takes { Takes source (M.image memory.old) load.old }
    ensures turns { TurnsTo source result (record { load = load.old; memory = M.image memory.old; source = source_in sources.old source })
        (record { load = load.new; memory = M.image memory.new; source = source_in sources.new source }) }
    ensures some { result ≢ Ok turn.Waits }
    ensures others { sources.new ≡ slice_set sources.old (number_of source) (source_in sources.new source) }
{
    let reader = &mut sources[number_of(source)];
    reader.take_turn(load, memory, source)
}

/// Reads the sources of a load by at most `turns` turns, and feeds it the bytes that it takes, up
/// to the verdict. `sources` has the reader of the main stream first, and then those of the
/// channels. If a source is ahead of the others, its bytes wait in its buffer, and no more of it is
/// read. A source with waiting bytes that the load takes has the next turn. If there is none,
/// `order` chooses. The main stream isn't read on once it is closed: `SourceReader::unread` returns
/// what was read after its end.
///
/// Returns the verdict. It is `Running` after all the turns, or if only sources without a reader
/// can have a turn. Then it can be pumped on.
///
/// # Errors
///
/// Those of a turn, whose read or feed failed. After `Read` it can be pumped on.
pub fn pump_by_turns<
    P: PieceReader,
    A: Allocator,
    B: Allocator + Copy,
    M: GuestTarget,
    O: TurnOrder,
>(
    sources: &mut [SourceReader<P, A>],
    order: &mut O,
    load: &mut InPlaceSession<B>,
    memory: &mut M,
    turns: u64,
) -> Result<Verdict, TurnFault>
    ensures turns { Pumps O.chooses turns result (record { load = load.old; memory = M.image memory.old; sources = sources.old; order = order.old })
        (record { load = load.new; memory = M.image memory.new; sources = sources.new; order = order.new }) }
    ensures bytes { result ≢ Err fault.NoMemory → KeepsBytes (record { load = load.old; memory = M.image memory.old; sources = sources.old; order = order.old })
        (record { load = load.new; memory = M.image memory.new; sources = sources.new; order = order.new }) }
{
    for _ in 0..turns {
        let Some(source) = whose_turn(sources, order, load) else {
            return Ok(load.verdict());
        };
        if let Err(fault) = turn_of(sources, load, memory, source) {
            return Err(fault);
        }
    }
    Ok(load.verdict())
}
