//! The load of a single stream without a fault in one pass over its bytes, for `load_single`.
//!
//! A page is copied once it was read, so that no record waits for its section to end. A stream with
//! a fault can't be loaded that way: `load_single` reads it again, section by section.

ghost use Rattle.std.specs.Prelude.{◌≡◌, ◌≤◌, ◌^◌, IfSome, IfOk};
ghost use Rattle.mig_mem.specs.PageSize.{IsPageSize};
ghost use Rattle.mig_stream.specs.declared.item.StreamState.TheVariants.{Closed};
ghost use Rattle.mig_single_load.specs.SingleLoad.{IsSingleAnswer, closed_answer};

use mig_assemble::{name_records, put_records};
use mig_load_types::{LoadSettings, Loaded};
use mig_marking::lacking;
use mig_mem::{Dirty, Memory, NoMemory};
use mig_stream::{RecordEvent, RecordReader, StreamState};
use std::alloc::Allocator;

/// Loads a guest from a stream that is read to its end byte. Returns None if the stream has a
/// fault.
pub(crate) fn load_at_once<A: Allocator + Copy>(
    alloc: A,
    settings: LoadSettings,
    text: &[u8],
) -> Result<Option<Loaded<A>>, NoMemory>
    requires page_size { IsPageSize settings.page_size }
    requires limit { settings.limit ≤ 2 ^ 40 }
    ensures { IfOk result (λ answer. IfSome answer (λ loaded. IsSingleAnswer settings text.now loaded)) }
{
    let mut reader = RecordReader::new(
        alloc,
        settings.frame,
        settings.page_size,
        settings.limit,
        settings.waiting,
        text,
    );
    let mut gave = reader.read_on()?;
    let Some(table) = reader.table() else {
        return Ok(None);
    };
    let mut memory = Memory::zeroed(alloc, table)?;
    let mut named = Dirty::none(alloc, table)?;
    let mut sections = 0;
    'pieces: loop {
        match gave {
            RecordEvent::Records => {}
            RecordEvent::Section => sections += 1,
            RecordEvent::End(found) => {
                let at = reader.valid_up_to();
                return Ok(answer_if_closed(found, at, memory, &named, sections));
            }
        }
        put_records(&mut memory, reader.given());
        name_records(&mut named, reader.given());
        gave = reader.read_on()?;
    }
}

// Returns the answer after `sections` sections, which named these places, if the stream is closed
// at `at`.
fn answer_if_closed<A: Allocator>(
    found: StreamState,
    at: u64,
    memory: Memory<A>,
    named: &Dirty<A>,
    sections: u64,
) -> Option<Loaded<A>>
    ensures { IfSome result (λ loaded. (found ≡ Closed) × (loaded ≡ closed_answer memory named.now sections at)) }
{
    match found {
        StreamState::Closed => Some(Loaded {
            memory: Some(memory),
            rounds: sections,
            verdict: Ok(()),
            missing: Some(lacking(named)),
            closed_at: Some(at),
            valid_up_to: Some(at),
        }),
        _ => None,
    }
}
