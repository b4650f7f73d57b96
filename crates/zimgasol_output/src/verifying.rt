//! `verify`: prints whether a single stream is complete, its fault, or the fault of what follows
//! RAM.

ghost use Rattle.std.specs.Prelude.{◌↔◌, IfOk, IsNone, IsTrue};
ghost use Rattle.zimgasol_reading.specs.Coverage.{IsComplete};

use crate::advice::{Met, advice};
use crate::missing::{coverage_word, put_missing};
use mig_stream::{Frame, StreamFault};
use std::alloc::Global;
use std::io::{self, Write};
use zimgasol_files::{Talk, Trouble};
use zimgasol_reading::{
    Ending, FaultPlace, SectionKind, Survey, TailFault, block_at, fault_of, is_complete, kind_name,
};

/// What is wrong with a stream that was cut after RAM.
const CUT: &str = "the stream ends early; the file was cut, or the save didn't come to its end";

/// Writes the id of the block at a fault, if there is one.
pub(crate) fn put_block<W: Write>(output: &mut W, block: &Option<String>) -> io::Result<()> {
    match block {
        Some(id) => write!(output, ", block \"{id}\""),
        None => Ok(()),
    }
}

/// Writes the section of a fault, after `sections` complete ones: a section of `kind`, or between
/// two sections.
pub(crate) fn put_section<W: Write>(
    output: &mut W,
    sections: u64,
    kind: Option<SectionKind>,
    block: &Option<String>,
) -> io::Result<()> {
    let section = sections.saturating_add(1);
    match kind {
        Some(kind) => {
            let name = kind_name(kind);
            write!(output, "section {section}, {name}")?;
            put_block(output, block)
        }
        None if sections == 0 => write!(output, "before section 1"),
        None => write!(output, "after section {sections}"),
    }
}

/// Writes the error line on a fault: the file, the place in it, the fault, and advice.
pub(crate) fn put_fault<W: Write>(
    output: &mut W,
    name: &str,
    place: &FaultPlace,
    block: &Option<String>,
    advice: &Option<String>,
) -> io::Result<()> {
    let byte = place.byte;
    let fault = place.fault;
    write!(output, "zimgasol: {name}: byte {byte} (")?;
    put_section(output, place.sections, place.kind, block)?;
    write!(output, "): fault {fault}")?;
    if let Some(advice) = advice {
        write!(output, "; {advice}")?;
    }
    writeln!(output)
}

// Returns `fault` of a stream, with what was met up to it.
fn met_of(survey: &Survey, fault: StreamFault) -> Met<'_> {
    Met {
        fault,
        frame: survey.frame,
        item: survey.head.bytes(),
        notes: survey.notes.notes.as_slice(),
    }
}

// Writes the line on a stream without a fault.
fn put_complete<W: Write>(output: &mut W, name: &str, survey: &Survey) -> io::Result<()> {
    let sections = survey.notes.sections;
    let word = coverage_word(survey.coverage());
    write!(output, "{name}: {word}: sections {sections}, ")?;
    if let Some(blocks) = &survey.blocks {
        let count = blocks.table.len();
        let total = blocks.total();
        write!(output, "blocks {count}, memory {total} bytes, ")?;
    }
    let end = survey.before().saturating_add(survey.valid);
    let after = survey.len.saturating_sub(end);
    let what = end_name(survey.frame);
    write!(output, "{what} ends at byte {end}, ")?;
    put_after(output, &survey.ending, after)
}

// Returns what is known of the devices' sections.
fn devices_state(ending: &Ending) -> &'static str {
    match ending.fault {
        Some(TailFault::Cut | TailFault::CutDescription) => "cut",
        Some(TailFault::Unknown) => "not known",
        Some(TailFault::Extra(_)) | None => { if ending.has_devices { "whole" } else { "none" } }
    }
}

/// Writes what is known of the `after` bytes that follow RAM, and the line's end.
pub(crate) fn put_after<W: Write>(output: &mut W, ending: &Ending, after: u64) -> io::Result<()> {
    if !ending.is_checked {
        return writeln!(output, "{after} bytes follow");
    }
    let state = devices_state(ending);
    write!(output, "devices: {state}, {after} bytes")?;
    if let Some(TailFault::Extra(extra)) = ending.fault {
        write!(output, ", {extra} of them unknown")?;
    }
    writeln!(output)
}

// Writes what is wrong with the bytes after RAM. The input has `len` bytes.
fn put_tail_found<W: Write>(output: &mut W, len: u64, fault: TailFault) -> io::Result<()> {
    match fault {
        TailFault::Cut => write!(output, "byte {len} (devices): {CUT}"),
        TailFault::CutDescription => {
            write!(output, "byte {len} (description of the devices): {CUT}")
        }
        TailFault::Unknown => write!(
            output,
            "byte {len} (devices): no valid description follows, so it isn't known whether their state is complete"
        ),
        TailFault::Extra(extra) => {
            let byte = len.saturating_sub(extra);
            write!(
                output,
                "byte {byte} (after the end): {extra} unknown bytes follow"
            )
        }
    }
}

// Writes the error line on the fault of the bytes after RAM.
fn put_tail_fault<W: Write>(
    output: &mut W,
    name: &str,
    len: u64,
    fault: TailFault,
) -> io::Result<()> {
    write!(output, "zimgasol: {name}: ")?;
    put_tail_found(output, len, fault)?;
    writeln!(output, "; `--ram-only` verifies RAM alone")
}

/// Writes what is wrong with the bytes after RAM to `errors`. The input has `len` bytes. Returns
/// whether nothing is.
pub(crate) fn put_tail_wrong<E: Write>(
    errors: &mut E,
    name: &str,
    len: u64,
    ending: &Ending,
) -> bool
    ensures { IsTrue result ↔ IsNone ending.now.fault }
{
    match ending.fault {
        Some(fault) => {
            let _ = put_tail_fault(errors, name, len, fault);
            false
        }
        None => true,
    }
}

/// Returns the name of what ends with a closed stream of `frame`.
pub(crate) fn end_name(frame: Frame) -> &'static str {
    match frame {
        Frame::Machine => "RAM",
        Frame::Ram => "the stream",
    }
}

/// Writes errors on a stream to `errors`: its fault, or which blocks have pages without a record.
/// Returns whether the stream is complete.
///
/// # Errors
///
/// `Trouble::NoMemory`.
pub fn put_wrongs<E: Write>(
    alloc: Global,
    errors: &mut E,
    name: &str,
    survey: &Survey,
) -> Result<bool, Trouble>
    ensures verdict { IfOk result (λ is_complete. IsTrue is_complete ↔ IsComplete survey.now) }
{
    match fault_of(survey) {
        Some(place) => {
            let block = block_at(alloc, survey)?;
            let advice = advice(alloc, &met_of(survey, place.fault))?;
            let _ = put_fault(errors, name, &place, &block, &advice);
            Ok(false)
        }
        None => {
            put_missing(alloc, errors, name, survey)?;
            Ok(is_complete(survey))
        }
    }
}

/// Writes errors on a stream and on what follows its RAM to `errors`. Returns whether both are
/// complete.
///
/// # Errors
///
/// `Trouble::NoMemory`.
pub fn put_all_wrongs<E: Write>(
    alloc: Global,
    errors: &mut E,
    name: &str,
    survey: &Survey,
) -> Result<bool, Trouble>
    ensures verdict { IfOk result (λ is_complete. IsTrue is_complete ↔ (IsComplete survey.now × IsNone survey.now.ending.fault)) }
{
    let is_complete = put_wrongs(alloc, errors, name, survey)?;
    let has_tail = put_tail_wrong(errors, name, survey.len, &survey.ending);
    Ok(is_complete && has_tail)
}

/// Writes the verdict on a stream and on what follows its RAM: success to `output`, unless
/// `--quiet` is set, and errors to `errors`. Returns whether both are complete.
///
/// # Errors
///
/// `Trouble::Output` if `output` can't be written, `Trouble::NoMemory`.
pub fn put_verdict<W: Write, E: Write>(
    alloc: Global,
    output: &mut W,
    errors: &mut E,
    name: &str,
    survey: &Survey,
    talk: Talk,
) -> Result<bool, Trouble>
    ensures verdict { IfOk result (λ is_complete. IsTrue is_complete ↔ (IsComplete survey.now × IsNone survey.now.ending.fault)) }
{
    let is_complete = fault_of(survey).is_none() && survey.ending.fault.is_none();
    if is_complete && !talk.quiet {
        put_complete(output, name, survey).map_err(Trouble::Output)?;
    }
    put_all_wrongs(alloc, errors, name, survey)
}

/// Writes the verdict on a stream, whatever follows its RAM: success to `output`, unless `--quiet`
/// is set, and errors to `errors`. Returns whether it is complete.
///
/// # Errors
///
/// `Trouble::Output` if `output` can't be written, `Trouble::NoMemory`.
pub fn put_judgement<W: Write, E: Write>(
    alloc: Global,
    output: &mut W,
    errors: &mut E,
    name: &str,
    survey: &Survey,
    talk: Talk,
) -> Result<bool, Trouble>
    ensures verdict { IfOk result (λ is_complete. IsTrue is_complete ↔ IsComplete survey.now) }
{
    if is_complete(survey) && !talk.quiet {
        put_complete(output, name, survey).map_err(Trouble::Output)?;
    }
    put_wrongs(alloc, errors, name, survey)
}
