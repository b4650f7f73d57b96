//! Prints the verdict on a main stream and its channels, and lists their contents in lines.

ghost use Rattle.std.specs.Prelude.{◌↔◌, ◌≤◌, IfOk, IsNone, IsTrue};
ghost use Rattle.zimgasol_reading.specs.Coverage.{AreComplete};

use crate::inspecting::{put_blocks, put_devices, put_file_line, put_note};
use crate::missing::{coverage_word, put_several_missing};
use crate::several_fault::{put_spotted, several_advice};
use crate::verifying::{end_name, put_after, put_tail_wrong};
use mig_load_types::{LoadFault, Origin};
use std::alloc::Global;
use std::fs::OpenFile;
use std::io::{self, Read, Write};
use zimgasol_files::{Talk, Trouble};
use zimgasol_page_packets::PassedOver;
use zimgasol_reading::{Blocks, Channel, ChannelCounts, Note, Several};

fn output_failed(error: io::Error) -> Trouble {
    Trouble::Output(error)
}

// Returns the name of the file that a fault is in; `name` is the main stream's.
fn source_name<'a, F: Drop>(several: &'a Several<F>, name: &'a str, fault: LoadFault) -> &'a str {
    match fault.source {
        Origin::Main | Origin::Round => name,
        Origin::Channel(number) => match several.channels.get(number) {
            Some(channel) => channel.inlet.name.as_str(),
            None => name,
        },
    }
}

// Writes what sources without a fault are, and how many rounds, channels and packets they have.
fn put_totals<F: Read + OpenFile + Drop, W: Write>(
    output: &mut W,
    name: &str,
    several: &Several<F>,
) -> io::Result<()> {
    let rounds = several.rounds;
    let channels = several.channels.len();
    let packets = several.packets();
    let word = coverage_word(several.coverage());
    write!(
        output,
        "{name}: {word}: rounds {rounds}, channels {channels}, packets {packets}, "
    )?;
    let passed_over = several.passed_over();
    if passed_over.packets == 0 {
        return Ok(());
    }
    put_passed_over(output, passed_over)?;
    write!(output, ", ")
}

// Writes how many packets of devices were passed over.
fn put_passed_over<W: Write>(output: &mut W, passed_over: PassedOver) -> io::Result<()> {
    let packets = passed_over.packets;
    let bytes = passed_over.bytes;
    write!(
        output,
        "device packets {packets} of {bytes} bytes passed over"
    )
}

// Writes how many blocks and bytes a guest has, if there is one.
fn put_guest<W: Write>(output: &mut W, blocks: &Option<Blocks>) -> io::Result<()> {
    let Some(blocks) = blocks else {
        return Ok(());
    };
    let count = blocks.table.len();
    let total = blocks.total();
    write!(output, "blocks {count}, memory {total} bytes, ")
}

// Writes the UUID of complete sources.
fn put_uuid<F: Drop, W: Write>(output: &mut W, several: &Several<F>) -> io::Result<()> {
    let uuid = several.uuid;
    write!(output, "UUID {uuid}, ")
}

// Writes the line of complete sources.
fn put_complete<F: Read + OpenFile + Drop, W: Write>(
    output: &mut W,
    name: &str,
    several: &Several<F>,
) -> io::Result<()> {
    put_totals(output, name, several)?;
    put_guest(output, &several.blocks)?;
    put_uuid(output, several)?;
    put_end(output, several)
}

// Writes where RAM ends.
fn put_end<F: Drop, W: Write>(output: &mut W, several: &Several<F>) -> io::Result<()> {
    let end = several.main.valid();
    let after = several.main.len().saturating_sub(end);
    let what = end_name(several.frame);
    write!(output, "{what} ends at byte {end}, ")?;
    put_after(output, &several.main.ending, after)
}

/// Writes what is wrong to `errors`: the fault, or which blocks have pages without a record.
/// Returns whether all sources are complete.
///
/// # Errors
///
/// `Trouble::NoMemory`.
pub fn put_several_wrongs<F: Read + OpenFile + Drop, E: Write>(
    alloc: Global,
    errors: &mut E,
    name: &str,
    several: &Several<F>,
) -> Result<bool, Trouble>
    ensures verdict { IfOk result (λ is_complete. IsTrue is_complete ↔ AreComplete several.now) }
{
    match several.fault() {
        Some(fault) => {
            let block = several.fault_block(alloc, fault)?;
            let source = source_name(several, name, fault);
            let spot = several.spot(fault);
            let advice = several_advice(alloc, several, fault.fault)?;
            let _ = put_spotted(errors, source, spot, fault, &block, &advice);
            Ok(false)
        }
        None => {
            put_several_missing(alloc, errors, name, several)?;
            Ok(several.is_complete())
        }
    }
}

/// Writes what is wrong with all sources and with what follows RAM to `errors`. Returns whether all
/// are complete.
///
/// # Errors
///
/// `Trouble::NoMemory`.
pub fn put_several_all_wrongs<F: Read + OpenFile + Drop, E: Write>(
    alloc: Global,
    errors: &mut E,
    name: &str,
    several: &Several<F>,
) -> Result<bool, Trouble>
    ensures verdict { IfOk result (λ is_complete. IsTrue is_complete ↔ (AreComplete several.now × IsNone several.now.main.ending.fault)) }
{
    let is_complete = put_several_wrongs(alloc, errors, name, several)?;
    let len = several.main.len();
    let has_tail = put_tail_wrong(errors, name, len, &several.main.ending);
    Ok(is_complete && has_tail)
}

/// Writes the verdict on all sources and on what follows RAM: to `output` that all are complete,
/// unless `--quiet` is set, and to `errors` what is wrong. Returns whether all are complete.
///
/// # Errors
///
/// `Trouble::Output` where `output` can't be written, `Trouble::NoMemory`.
pub fn put_several_verdict<F: Read + OpenFile + Drop, W: Write, E: Write>(
    alloc: Global,
    output: &mut W,
    errors: &mut E,
    name: &str,
    several: &Several<F>,
    talk: Talk,
) -> Result<bool, Trouble>
    ensures verdict { IfOk result (λ is_complete. IsTrue is_complete ↔ (AreComplete several.now × IsNone several.now.main.ending.fault)) }
{
    let is_complete = several.fault().is_none() && several.main.ending.fault.is_none();
    if is_complete && !talk.quiet {
        put_complete(output, name, several).map_err(output_failed)?;
    }
    put_several_all_wrongs(alloc, errors, name, several)
}

/// Writes the verdict, whatever follows RAM: to `output` that all sources are complete, unless
/// `--quiet` is set, and to `errors` what is wrong. Returns whether they are complete.
///
/// # Errors
///
/// `Trouble::Output` where `output` can't be written, `Trouble::NoMemory`.
pub fn put_several_judgement<F: Read + OpenFile + Drop, W: Write, E: Write>(
    alloc: Global,
    output: &mut W,
    errors: &mut E,
    name: &str,
    several: &Several<F>,
    talk: Talk,
) -> Result<bool, Trouble>
    ensures verdict { IfOk result (λ is_complete. IsTrue is_complete ↔ AreComplete several.now) }
{
    if several.is_complete() && !talk.quiet {
        put_complete(output, name, several).map_err(output_failed)?;
    }
    put_several_wrongs(alloc, errors, name, several)
}

// Writes the lines before those of the channels and blocks.
fn put_head<F: Drop, W: Write>(
    alloc: Global,
    output: &mut W,
    name: &str,
    several: &Several<F>,
) -> Result<(), Trouble> {
    put_file_line(output, name, several.main.input_len()).map_err(output_failed)?;
    put_notes(alloc, output, several.main.read_notes())?;
    put_settings(output, several).map_err(output_failed)
}

// Writes the lines on the items between the sections.
fn put_notes<W: Write>(alloc: Global, output: &mut W, notes: &[Note]) -> Result<(), Trouble> {
    for note in notes {
        put_note(alloc, output, note)?;
    }
    Ok(())
}

// Writes the lines on the page size and the UUID.
fn put_settings<F: Drop, W: Write>(output: &mut W, several: &Several<F>) -> io::Result<()> {
    let page_size = several.page_size;
    let uuid = several.uuid;
    writeln!(output, "page size {page_size}")?;
    writeln!(output, "UUID {uuid}")
}

/// Writes what the main stream and the channels have, in lines.
///
/// # Errors
///
/// `Trouble::Output` where `output` can't be written, `Trouble::NoMemory`.
pub fn put_several_lines<F: Read + OpenFile + Drop, W: Write>(
    alloc: Global,
    output: &mut W,
    name: &str,
    several: &Several<F>,
) -> Result<(), Trouble> {
    put_head(alloc, output, name, several)?;
    for channel in &several.channels {
        put_channel(output, channel).map_err(output_failed)?;
    }
    if let Some(blocks) = &several.blocks {
        put_blocks(alloc, output, blocks)?;
    }
    put_last(output, several).map_err(output_failed)?;
    put_devices(alloc, output, &several.main.ending.devices)?;
    if several.fault().is_none() && several.main.ending.fault.is_none() {
        let word = coverage_word(several.coverage());
        writeln!(output, "{word}").map_err(output_failed)?;
    }
    Ok(())
}

// Writes the number of rounds, and where RAM ends or up to where it was read.
fn put_last<F: Read + OpenFile + Drop, W: Write>(
    output: &mut W,
    several: &Several<F>,
) -> io::Result<()> {
    let rounds = several.rounds;
    writeln!(output, "rounds {rounds}")?;
    if several.fault().is_some() {
        let end = several.main.valid();
        return writeln!(output, "read up to byte {end}");
    }
    put_end(output, several)
}

// Writes the line on a channel.
fn put_channel<F: Read + OpenFile + Drop, W: Write>(
    output: &mut W,
    channel: &Channel<F>,
) -> io::Result<()> {
    let name = &channel.inlet.name;
    write!(output, "channel {name}")?;
    if let Some(len) = channel.inlet.input_len() {
        write!(output, ", {len} bytes")?;
    }
    match channel.lane.hello() {
        Some(id) => put_counts(output, id, channel.lane.counts)?,
        None => return writeln!(output),
    }
    let passed_over = channel.inlet.passed_over();
    if passed_over.packets != 0 {
        write!(output, ", ")?;
        put_passed_over(output, passed_over)?;
    }
    writeln!(output)
}

// Writes a channel's id and its counts.
fn put_counts<W: Write>(output: &mut W, id: u8, counts: ChannelCounts) -> io::Result<()> {
    let packets = counts.packets;
    write!(output, ", id {id}, packets {packets}")?;
    put_numbers(output, counts.first, counts.last)?;
    let pages = counts.pages;
    let zeros = counts.zeros;
    write!(output, ", {pages} pages, {zeros} zero pages")
}

// Writes the least and the greatest number of a channel's packets, if it has any.
fn put_numbers<W: Write>(output: &mut W, first: Option<u64>, last: Option<u64>) -> io::Result<()> {
    match (first, last) {
        (Some(first), Some(last)) => write!(output, ", numbers {first}-{last}"),
        _ => Ok(()),
    }
}
