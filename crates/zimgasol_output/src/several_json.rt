//! Lists the contents of a main stream and its channels as JSON.

ghost use Rattle.std.specs.Prelude.{◌≤◌};

use crate::inspecting::{Object, blocks_value, note_value, number_value, put_file, put_tail};
use mig_load_types::{Fault, LoadFault, Origin};
use serde_json::{Map, Value, json, put};
use std::alloc::{AllocError, Global};
use std::fs::OpenFile;
use std::io::{Read, Write};
use zimgasol_files::Trouble;
use zimgasol_page_packets::PassedOver;
use zimgasol_reading::{Blocks, Channel, ChannelCounts, Several, Spot, Within};

// Puts the file of a channel, and its id.
fn put_inlet<F: Read + OpenFile + Drop>(
    alloc: Global,
    object: &mut Object,
    channel: &Channel<F>,
) -> Result<(), AllocError> {
    put_file(
        alloc,
        object,
        &channel.inlet.name,
        channel.inlet.input_len(),
    )?;
    let id = channel.lane.hello().map(u64::from);
    put(object, alloc, "id", number_value(id))
}

// Puts the counts of a channel.
fn put_counts(alloc: Global, object: &mut Object, counts: ChannelCounts) -> Result<(), AllocError> {
    put(object, alloc, "packets", Value::from(counts.packets))?;
    put(object, alloc, "first_number", number_value(counts.first))?;
    put(object, alloc, "last_number", number_value(counts.last))?;
    put(object, alloc, "pages", Value::from(counts.pages))?;
    put(object, alloc, "zero_pages", Value::from(counts.zeros))?;
    put(object, alloc, "end", Value::from(counts.valid))
}

// Puts how many packets of devices were passed over, if there are some.
fn put_passed_over(
    alloc: Global,
    object: &mut Object,
    passed_over: PassedOver,
) -> Result<(), AllocError> {
    if passed_over.packets == 0 {
        return Ok(());
    }
    put(
        object,
        alloc,
        "device_packets",
        Value::from(passed_over.packets),
    )?;
    put(
        object,
        alloc,
        "device_bytes",
        Value::from(passed_over.bytes),
    )
}

// Returns the JSON of a channel.
fn channel_value<F: Read + OpenFile + Drop>(
    alloc: Global,
    channel: &Channel<F>,
) -> Result<Value, AllocError> {
    let mut object = Map::new(alloc);
    put_inlet(alloc, &mut object, channel)?;
    put_counts(alloc, &mut object, channel.lane.counts)?;
    put_passed_over(alloc, &mut object, channel.inlet.passed_over())?;
    Ok(Value::Object(object))
}

// Returns the JSON of the source that a fault is in.
fn source_value(alloc: Global, source: Origin) -> Result<Value, AllocError> {
    match source {
        Origin::Main => json!(in alloc; "main"),
        Origin::Round => json!(in alloc; "round"),
        Origin::Channel(number) => json!(in alloc; number as u64),
    }
}

// Returns the JSON of all channels.
fn channels_value<F: Read + OpenFile + Drop>(
    alloc: Global,
    several: &Several<F>,
) -> Result<Value, AllocError> {
    let mut list = Vec::new(alloc);
    for channel in &several.channels {
        list.push(channel_value(alloc, channel)?)?;
    }
    Ok(Value::Array(list))
}

// Returns the JSON of the items between the sections.
fn notes_value<F: Drop>(alloc: Global, several: &Several<F>) -> Result<Value, AllocError> {
    let mut list = Vec::new(alloc);
    for note in several.main.read_notes() {
        list.push(note_value(alloc, note)?)?;
    }
    Ok(Value::Array(list))
}

// Returns the JSON of the fault, or null.
fn fault_value<F: Read + OpenFile + Drop>(
    alloc: Global,
    several: &Several<F>,
) -> Result<Value, AllocError> {
    match several.fault() {
        Some(fault) => value_of(alloc, fault, several.spot(fault)),
        None => Ok(Value::Null),
    }
}

// Returns the JSON of `fault`, which is at `spot`.
fn value_of(alloc: Global, fault: LoadFault, spot: Spot) -> Result<Value, AllocError> {
    let mut object = Map::new(alloc);
    put_found(alloc, &mut object, fault.fault)?;
    put_source(alloc, &mut object, fault)?;
    put_spot(alloc, &mut object, spot)?;
    Ok(Value::Object(object))
}

// Puts the number, the name and the text of a fault.
fn put_found(alloc: Global, object: &mut Object, fault: Fault) -> Result<(), AllocError> {
    let name = format!(in alloc; "{fault:?}")?;
    put(object, alloc, "name", Value::String(name))?;
    let text = format!(in alloc; "{fault}")?;
    put(object, alloc, "text", Value::String(text))?;
    put(object, alloc, "number", Value::from(fault.number()))
}

// Puts the source of a fault, and the complete rounds.
fn put_source(alloc: Global, object: &mut Object, fault: LoadFault) -> Result<(), AllocError> {
    put(object, alloc, "source", source_value(alloc, fault.source)?)?;
    put(object, alloc, "complete_rounds", Value::from(fault.round))
}

// Returns how many sections of the main stream are complete before a fault there, and how many
// packets of a channel before a fault there.
fn complete_before(within: Within) -> (Option<u64>, Option<u64>) {
    match within {
        Within::Main(sections, _) => (Some(sections), None),
        Within::Hello => (None, Some(0)),
        Within::Channel(packets) => (None, Some(packets)),
        Within::Round => (None, None),
    }
}

// Puts the place of a fault.
fn put_spot(alloc: Global, object: &mut Object, spot: Spot) -> Result<(), AllocError> {
    let (sections, packets) = complete_before(spot.within);
    put(object, alloc, "byte", number_value(spot.byte))?;
    put(object, alloc, "complete_sections", number_value(sections))?;
    put(object, alloc, "complete_packets", number_value(packets))
}

// Returns the JSON of the blocks; an empty list while there is no guest.
fn guest_value(alloc: Global, blocks: &Option<Blocks>) -> Result<Value, AllocError> {
    match blocks {
        Some(blocks) => blocks_value(alloc, blocks),
        None => Ok(Value::Array(Vec::new(alloc))),
    }
}

// Puts the UUID.
fn put_uuid<F: Drop>(
    alloc: Global,
    object: &mut Object,
    several: &Several<F>,
) -> Result<(), AllocError> {
    let uuid = format!(in alloc; "{}", several.uuid)?;
    put(object, alloc, "uuid", Value::String(uuid))
}

// Puts the numbers of the main stream, and whether all sources are complete.
fn put_numbers<F: Read + OpenFile + Drop>(
    alloc: Global,
    object: &mut Object,
    several: &Several<F>,
) -> Result<(), AllocError> {
    put(object, alloc, "page_size", Value::from(several.page_size))?;
    put(object, alloc, "rounds", Value::from(several.rounds))?;
    let end = several.main.valid();
    put(object, alloc, "end", Value::from(end))?;
    let ending = &several.main.ending;
    put_tail(
        alloc,
        object,
        ending,
        several.main.len().saturating_sub(end),
    )?;
    let is_complete = several.is_complete() && ending.fault.is_none();
    put(object, alloc, "complete", Value::Bool(is_complete))
}

// Puts the items between the sections, the channels, the blocks, and the fault.
fn put_parts<F: Read + OpenFile + Drop>(
    alloc: Global,
    object: &mut Object,
    several: &Several<F>,
) -> Result<(), AllocError> {
    put(object, alloc, "notes", notes_value(alloc, several)?)?;
    put(object, alloc, "channels", channels_value(alloc, several)?)?;
    put(
        object,
        alloc,
        "blocks",
        guest_value(alloc, &several.blocks)?,
    )?;
    put(object, alloc, "fault", fault_value(alloc, several)?)
}

// Returns the JSON of what the main stream and the channels have.
fn several_value<F: Read + OpenFile + Drop>(
    alloc: Global,
    name: &str,
    several: &Several<F>,
) -> Result<Value, AllocError> {
    let mut object = Map::new(alloc);
    put_file(alloc, &mut object, name, several.main.input_len())?;
    put_uuid(alloc, &mut object, several)?;
    put_numbers(alloc, &mut object, several)?;
    put_parts(alloc, &mut object, several)?;
    Ok(Value::Object(object))
}

/// Writes what the main stream and the channels have, as JSON on one line.
///
/// # Errors
///
/// `Trouble::Output` where `output` can't be written, `Trouble::NoMemory`.
pub fn put_several_json_line<F: Read + OpenFile + Drop, W: Write>(
    alloc: Global,
    output: &mut W,
    name: &str,
    several: &Several<F>,
) -> Result<(), Trouble> {
    let text = several_value(alloc, name, several)?.to_string(alloc)?;
    match writeln!(output, "{text}") {
        Ok(()) => Ok(()),
        Err(error) => Err(Trouble::Output(error)),
    }
}

/// Writes what the main stream and the channels have, as JSON.
///
/// # Errors
///
/// `Trouble::Output` where `output` can't be written, `Trouble::NoMemory`.
pub fn put_several_json<F: Read + OpenFile + Drop, W: Write>(
    alloc: Global,
    output: &mut W,
    name: &str,
    several: &Several<F>,
) -> Result<(), Trouble> {
    let text = several_value(alloc, name, several)?.to_string_pretty(alloc)?;
    match writeln!(output, "{text}") {
        Ok(()) => Ok(()),
        Err(error) => Err(Trouble::Output(error)),
    }
}
