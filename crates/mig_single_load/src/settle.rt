//! Applies the complete sections of a reader, and returns the answer of reader and memory: for
//! `SingleLoader`, and for `load_single` on a stream with a fault. Loads in place and on several
//! channels take their verdicts from here, and have loops of their own.

ghost use Rattle.std.specs.Prelude.{◌≡◌, ℕ, Bool, List, None, Some, OnOk, OnErr};
ghost use Rattle.mig_load_types.specs.declared.settings.LoadSettings.{LoadSettings};
ghost use Rattle.mig_load_types.specs.declared.fault.Fault.TheVariants.{OtherTable};
ghost use Rattle.mig_single_load.specs.SingleLoad.{at_main, no_memory_at, verdict_of, unloaded};
ghost use Rattle.mig_mem.specs.Image.{Image};
ghost use Rattle.mig_single_load.specs.Loader.{loader, HasAllSections, Waits, Loads, Judges, Answers, HasPutSections, HasPutSectionsSome, HasPutAllSections, WasFed, WasFedSome};

use crate::filling::Filling;
use mig_load_types::{Fault, LoadFault, Loaded, Origin};
use mig_marking::lacking;
use mig_mem::NoMemory;
use mig_stream::{StreamFault, StreamReader, StreamState};
use std::alloc::Allocator;

/// Applies each complete section that waits.
pub(crate) fn put_sections<A: Allocator>(reader: &mut StreamReader<'_, A>, target: &mut Filling<A>)
    requires { HasPutSectionsSome reader.old target.old }
    ensures all { (given : LoadSettings) (first : Image) (text : List ℕ) (ended : Bool) → HasPutSections given first text ended reader.old target.old
        → HasPutSections given first text ended reader.new target.new × HasPutAllSections given first text target.new }
    ensures fed { reader.new.fed ≡ reader.old.fed }
    ensures ended { reader.new.ended ≡ reader.old.ended }
{
    'sections: while let Ok(Some(section)) = reader.take_round() {
        target.section(&section);
    }
}

/// Applies the complete sections that wait to the memory, which is created once the table is there.
/// An `Err` changes nothing.
pub(crate) fn settle<A: Allocator + Copy>(
    alloc: A,
    reader: &mut StreamReader<'_, A>,
    target: &mut Option<Filling<A>>,
) -> Result<(), NoMemory>
    requires { WasFedSome (loader reader.old target.old) }
    ensures ok { OnOk result ((given : LoadSettings) (text : List ℕ) (ended : Bool) → WasFed given (loader reader.old target.old) text ended
        → Loads given (loader reader.new target.new) text ended × HasAllSections given (loader reader.new target.new) text) }
    ensures err { OnErr result ((reader.new ≡ reader.old) × (target.new ≡ target.old)) }
    ensures waits { OnErr result ((given : LoadSettings) (text : List ℕ) (ended : Bool) → WasFed given (loader reader.old target.old) text ended
        → Waits given (loader reader.old target.old) text) }
    ensures fed { reader.new.fed ≡ reader.old.fed }
    ensures ended { reader.new.ended ≡ reader.old.ended }
{
    if let Some(target) = target {
        put_sections(reader, target);
        return Ok(());
    }
    let Some(table) = reader.table() else {
        return Ok(());
    };
    let mut made = Filling::new(alloc, table)?;
    put_sections(reader, &mut made);
    *target = Some(made);
    Ok(())
}

/// Returns the state of a stream, as a verdict after `rounds` complete sections.
pub fn verdict_at(rounds: u64, state: StreamState) -> Result<(), LoadFault>
    ensures { result ≡ verdict_of rounds state }
{
    let fault = match state {
        StreamState::Closed => return Ok(()),
        StreamState::Bad(fault) => fault,
        StreamState::Reading => StreamFault::Truncated,
    };
    Err(LoadFault {
        round: rounds,
        source: Origin::Main,
        fault: Fault::Stream(fault),
    })
}

/// Returns the verdict on a stream of another table than the memory's.
pub fn other_table() -> Result<(), LoadFault>
    ensures { result ≡ at_main 0 OtherTable }
{
    Err(LoadFault {
        round: 0,
        source: Origin::Main,
        fault: Fault::OtherTable,
    })
}

/// Returns the verdict where an allocation was refused after `round` rounds.
pub fn no_memory(round: u64) -> Result<(), LoadFault>
    ensures { result ≡ no_memory_at round }
{
    Err(LoadFault {
        round,
        source: Origin::Round,
        fault: Fault::NoMemory,
    })
}

/// Returns the verdict on the stream so far, as if it ended here; `NoMemory` if its sections wait.
pub(crate) fn verdict<A: Allocator>(
    reader: &StreamReader<'_, A>,
    target: &Option<Filling<A>>,
) -> Result<(), LoadFault>
    ensures { (given : LoadSettings) (text : List ℕ) (ended : Bool) → Loads given (loader reader.now target.now) text ended
        → Judges given (loader reader.now target.now) text result }
{
    match (target, reader.table()) {
        (Some(target), _) => verdict_at(target.rounds(), reader.state()),
        (None, Some(_)) => no_memory(0),
        (None, None) => verdict_at(0, reader.state()),
    }
}

/// Returns the answer on the stream so far, as if it ended here; `NoMemory` if its sections wait.
pub(crate) fn answer<A: Allocator>(
    reader: &StreamReader<'_, A>,
    target: Option<Filling<A>>,
) -> Loaded<A>
    ensures { (given : LoadSettings) (text : List ℕ) (ended : Bool) → Loads given (loader reader.now target) text ended
        → Answers given (loader reader.now target) text result }
{
    let verdict = verdict(reader, &target);
    match (target, reader.table()) {
        (Some(target), _) => {
            let rounds = target.rounds();
            let missing = lacking(target.named());
            Loaded {
                memory: Some(target.into_memory()),
                rounds,
                verdict,
                missing: Some(missing),
                closed_at: reader.closed_at(),
                valid_up_to: Some(reader.valid_up_to()),
            }
        }
        (None, Some(_)) => without_memory(),
        (None, None) => Loaded {
            memory: None,
            rounds: 0,
            verdict,
            missing: None,
            closed_at: reader.closed_at(),
            valid_up_to: Some(reader.valid_up_to()),
        },
    }
}

/// Returns the answer without memory and without sections, whose verdict is `NoMemory`.
pub fn without_memory<A: Allocator>() -> Loaded<A>
    ensures { result ≡ unloaded }
{
    Loaded {
        memory: None,
        rounds: 0,
        verdict: no_memory(0),
        missing: None,
        closed_at: None,
        valid_up_to: None,
    }
}
