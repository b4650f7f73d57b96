//! Locates the fault of a single stream: byte, section and block.

ghost use Rattle.std.specs.Prelude.{◌≡◌, ◌↔◌, ◌<◌, ◌^◌, ℕ, List, All, IsNone, IsTrue, IfSome};
ghost use Rattle.mig_stream.specs.declared.fault.StreamFault.{StreamFault};
ghost use Rattle.mig_stream.specs.declared.fault.StreamFault.TheVariants as fault;
ghost use Rattle.mig_stream.specs.declared.item.StreamState.TheVariants as state;
ghost use Rattle.mig_stream.specs.Reading.{Settings};
ghost use Rattle.zimgasol_reading.specs.Coverage.{IsComplete};
ghost use Rattle.zimgasol_reading.specs.Surveyed.{IsSurveyed, IsCompleteStream};

use crate::notes::SectionKind;
use crate::survey::Survey;
use mig_stream::{StreamFault, StreamState};
use std::alloc::{AllocError, Global};
use zimgasol_files::shown;

/// A fault of a stream, and where in the file it is.
#[derive(Clone, Copy)]
pub struct FaultPlace {
    pub fault: StreamFault,
    /// The byte of the file at which the item with the fault begins; for a stream that was cut, the
    /// byte at which the file ends.
    pub byte: u64,
    /// The complete sections before it.
    pub sections: u64,
    /// The kind of the section that it is in; None between two sections.
    pub kind: Option<SectionKind>,
}

/// Returns the fault of a stream that was read to its end; None if the stream is whole.
pub fn fault_of(survey: &Survey) -> Option<FaultPlace>
    ensures complete { IsNone result ↔ (survey.now.state ≡ state.Closed) }
    ensures fault { (f : StreamFault) → survey.now.state ≡ state.Bad f → IfSome result (λ place. place.fault ≡ f) }
    ensures cut { survey.now.state ≡ state.Reading → IfSome result (λ place. (place.fault ≡ fault.Truncated) × (place.byte ≡ survey.now.len)) }
{
    let (fault, byte) = match survey.state {
        StreamState::Closed => return None,
        StreamState::Reading => (StreamFault::Truncated, survey.len),
        StreamState::Bad(fault) => (fault, survey.before().saturating_add(survey.valid)),
    };
    Some(FaultPlace {
        fault,
        byte,
        sections: survey.notes.sections,
        kind: survey.notes.open,
    })
}

/// Returns whether a stream that was read to its end is complete: it is closed, and each of its
/// pages has a record or needn't have one.
pub fn is_complete(survey: &Survey) -> bool
    ensures pages { IsTrue result ↔ IsComplete survey.now }
    ensures stream { (given : Settings) (text : List ℕ) (s : IsSurveyed given text survey.now.state survey.now.sections survey.now.valid survey.now.blocks)
        → All (λ byte. byte < 2 ^ 8) text → IsTrue result ↔ IsCompleteStream s.reading survey.now.is_laid_over survey.now.is_partial }
{
    match fault_of(survey) {
        Some(_) => false,
        None => survey.has_its_pages(),
    }
}

// Returns the id of the block of the last page record, as it is printed.
fn last_id(alloc: Global, survey: &Survey) -> Result<Option<String>, AllocError> {
    let Some(place) = survey.last else {
        return Ok(None);
    };
    let Some(blocks) = &survey.blocks else {
        return Ok(None);
    };
    if place.block >= blocks.table.len() {
        return Ok(None);
    }
    Ok(Some(shown(alloc, blocks.table.id(place.block))?))
}

/// Returns the id of the block at a fault, as it is printed: the block that the item with the fault
/// names, or else the block of the last page record. None outside the sections that have page
/// records.
pub fn block_at(alloc: Global, survey: &Survey) -> Result<Option<String>, AllocError> {
    match survey.notes.open {
        Some(SectionKind::Part | SectionKind::End) => {}
        _ => return Ok(None),
    }
    match survey.head.id() {
        Some(id) => Ok(Some(shown(alloc, id)?)),
        None => last_id(alloc, survey),
    }
}

/// Returns QEMU's name of a section's kind.
pub fn kind_name(kind: SectionKind) -> &'static str {
    match kind {
        SectionKind::Start => "START",
        SectionKind::Part => "PART",
        SectionKind::End => "END",
    }
}
