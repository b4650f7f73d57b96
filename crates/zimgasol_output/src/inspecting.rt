//! `inspect`: lists what a single stream has, in lines or as JSON.

use crate::missing::coverage_word;
use crate::verifying::{end_name, put_after};
use mig_stream::StreamFault;
use serde_json::{Map, Value, json, put};
use std::alloc::{AllocError, Global};
use std::io::{self, Write};
use zimgasol_files::{Trouble, id_text, shown};
use zimgasol_reading::{
    Blocks, Device, Ending, FaultPlace, Note, Noted, SectionKind, Survey, TailFault, block_at,
    fault_of, is_complete, kind_name,
};

// ---- lines

/// Returns QEMU's name of the COMMAND `number` (`enum qemu_vm_cmd` in `migration/savevm.c`).
fn command_name(number: u16) -> &'static str {
    match number {
        1 => "OPEN_RETURN_PATH",
        2 => "PING",
        3 => "POSTCOPY_ADVISE",
        4 => "POSTCOPY_LISTEN",
        5 => "POSTCOPY_RUN",
        6 => "POSTCOPY_RAM_DISCARD",
        7 => "PACKAGED",
        8 => "ENABLE_COLO",
        9 => "POSTCOPY_RESUME",
        10 => "RECV_BITMAP",
        11 => "SWITCHOVER_START",
        _ => "unknown",
    }
}

fn output_failed(error: io::Error) -> Trouble {
    Trouble::Output(error)
}

/// Writes the line on an item between the sections.
pub(crate) fn put_note<W: Write>(
    alloc: Global,
    output: &mut W,
    note: &Note,
) -> Result<(), Trouble> {
    let sections = note.sections;
    match &note.noted {
        Noted::Machine(name) => {
            let name = shown(alloc, name)?;
            writeln!(output, "machine \"{name}\"").map_err(output_failed)
        }
        Noted::Subsection(name, content) => {
            let name = shown(alloc, name)?;
            let content = hex_of(alloc, content)?;
            writeln!(output, "subsection \"{name}\" {content}").map_err(output_failed)
        }
        Noted::Command(number, _) => {
            let name = command_name(*number);
            writeln!(output, "command {number} {name} after section {sections}").map_err(
                output_failed,
            )
        }
        Noted::Device(name) => {
            let name = shown(alloc, name)?;
            writeln!(
                output,
                "device's section \"{name}\" after section {sections}"
            )
            .map_err(output_failed)
        }
    }
}

// Returns bytes in hexadecimal digits.
fn hex_of(alloc: Global, bytes: &[u8]) -> Result<String, AllocError> {
    let mut text = String::new(alloc);
    for byte in bytes {
        write!(text, "{byte:02x}")?;
    }
    Ok(text)
}

/// Writes a line for each block.
pub(crate) fn put_blocks<W: Write>(
    alloc: Global,
    output: &mut W,
    blocks: &Blocks,
) -> Result<(), Trouble> {
    for (block, counts) in blocks.counts.iter().enumerate() {
        if block < blocks.table.len() {
            let id = shown(alloc, blocks.table.id(block))?;
            let len = blocks.len(block);
            let pages = counts.pages;
            let zeros = counts.zeros;
            writeln!(
                output,
                "block \"{id}\" {len} bytes, {pages} pages, {zeros} zero pages"
            )
            .map_err(output_failed)?;
        }
    }
    Ok(())
}

/// Writes the line on a file, with its length if that is known.
pub(crate) fn put_file_line<W: Write>(
    output: &mut W,
    name: &str,
    len: Option<u64>,
) -> io::Result<()> {
    match len {
        Some(len) => writeln!(output, "file {name}, {len} bytes"),
        None => writeln!(output, "file {name}"),
    }
}

/// Writes a line for each device that the description names.
pub(crate) fn put_devices<W: Write>(
    alloc: Global,
    output: &mut W,
    devices: &Option<Vec<Device>>,
) -> Result<(), Trouble> {
    let Some(devices) = devices else {
        return Ok(());
    };
    for device in devices {
        let name = shown(alloc, device.name.as_bytes())?;
        put_device(output, &name, device).map_err(output_failed)?;
    }
    Ok(())
}

// Writes the line on a device; `name` is its name, as it is printed.
fn put_device<W: Write>(output: &mut W, name: &str, device: &Device) -> io::Result<()> {
    let instance = device.instance;
    write!(output, "device \"{name}\" instance {instance}")?;
    match device.bytes {
        Some(bytes) => writeln!(output, ", {bytes} bytes"),
        None => writeln!(output),
    }
}

// Writes the lines before those of the blocks.
fn put_head<W: Write>(
    alloc: Global,
    output: &mut W,
    name: &str,
    survey: &Survey,
) -> Result<(), Trouble> {
    put_file_line(output, name, survey.input_len()).map_err(output_failed)?;
    if let Some(header) = survey.libvirt {
        let len = header.len;
        let was = if header.was_running {
            "running"
        } else {
            "paused"
        };
        writeln!(output, "libvirt header {len} bytes, the guest was {was}").map_err(output_failed)?;
    }
    for note in &survey.notes.notes {
        put_note(alloc, output, note)?;
    }
    if survey.notes.unnoted != 0 {
        let more = survey.notes.unnoted;
        writeln!(output, "and {more} more of these").map_err(output_failed)?;
    }
    Ok(())
}

// Writes the byte at which the stream ends, or up to which it was read.
fn put_end<W: Write>(output: &mut W, survey: &Survey) -> io::Result<()> {
    let sections = survey.notes.sections;
    let end = survey.before().saturating_add(survey.valid);
    let after = survey.len.saturating_sub(end);
    writeln!(output, "sections {sections}")?;
    if fault_of(survey).is_some() {
        return writeln!(output, "read up to byte {end}");
    }
    let what = end_name(survey.frame);
    write!(output, "{what} ends at byte {end}, ")?;
    put_after(output, &survey.ending, after)
}

// Returns whether a stream and what follows its RAM are complete.
fn is_whole(survey: &Survey) -> bool {
    is_complete(survey) && survey.ending.fault.is_none()
}

/// Writes what a stream has, in lines. `name` is the file's, as it is printed.
///
/// # Errors
///
/// `Trouble::Output` if `output` can't be written, `Trouble::NoMemory`.
pub fn put_lines<W: Write>(
    alloc: Global,
    output: &mut W,
    name: &str,
    survey: &Survey,
) -> Result<(), Trouble> {
    put_head(alloc, output, name, survey)?;
    let page_size = survey.page_size;
    writeln!(output, "page size {page_size}").map_err(output_failed)?;
    if let Some(blocks) = &survey.blocks {
        put_blocks(alloc, output, blocks)?;
    }
    put_end(output, survey).map_err(output_failed)?;
    put_devices(alloc, output, &survey.ending.devices)?;
    if fault_of(survey).is_none() && survey.ending.fault.is_none() {
        let word = coverage_word(survey.coverage());
        writeln!(output, "{word}").map_err(output_failed)?;
    }
    Ok(())
}

// ---- JSON

/// The members of a JSON object.
pub(crate) type Object = Map<String, Value>;

/// Returns the JSON of a number, or null.
pub(crate) fn number_value(number: Option<u64>) -> Value {
    match number {
        Some(number) => Value::from(number),
        None => Value::Null,
    }
}

/// Puts the name of a file, as it is printed, and its length, if that is known.
pub(crate) fn put_file(
    alloc: Global,
    object: &mut Object,
    name: &str,
    len: Option<u64>,
) -> Result<(), AllocError> {
    put(object, alloc, "file", Value::try_from_str(alloc, name)?)?;
    put(object, alloc, "bytes", number_value(len))
}

// Returns the JSON of a device; its size is null if it isn't known.
fn device_value(alloc: Global, device: &Device) -> Result<Value, AllocError> {
    let name = shown(alloc, device.name.as_bytes())?;
    let mut object = Map::new(alloc);
    put(&mut object, alloc, "name", Value::String(name))?;
    put(
        &mut object,
        alloc,
        "instance_id",
        Value::from(device.instance),
    )?;
    put(&mut object, alloc, "bytes", number_value(device.bytes))?;
    Ok(Value::Object(object))
}

// Returns the JSON of the devices; null if there is no description.
fn devices_value(alloc: Global, devices: &Option<Vec<Device>>) -> Result<Value, AllocError> {
    let Some(devices) = devices else {
        return Ok(Value::Null);
    };
    let mut list = array(alloc);
    for device in devices {
        list.push(device_value(alloc, device)?)?;
    }
    Ok(Value::Array(list))
}

/// Returns what is known of the bytes after RAM, in a word.
pub fn tail_state(ending: &Ending) -> &'static str {
    match ending.fault {
        None => "whole",
        Some(TailFault::Cut | TailFault::CutDescription) => "cut",
        Some(TailFault::Unknown) => "unknown",
        Some(TailFault::Extra(_)) => "extra",
    }
}

// Returns the JSON of the `after` bytes that follow RAM; null if they weren't checked.
fn tail_value(alloc: Global, ending: &Ending, after: u64) -> Result<Value, AllocError> {
    if !ending.is_checked {
        return Ok(Value::Null);
    }
    let state = tail_state(ending);
    json!(in alloc; {"state": state, "bytes": after})
}

/// Puts the devices, and what is known of the `after` bytes that follow RAM.
pub(crate) fn put_tail(
    alloc: Global,
    object: &mut Object,
    ending: &Ending,
    after: u64,
) -> Result<(), AllocError> {
    put(
        object,
        alloc,
        "devices",
        devices_value(alloc, &ending.devices)?,
    )?;
    put(object, alloc, "tail", tail_value(alloc, ending, after)?)
}

fn array(alloc: Global) -> Vec<Value> {
    Vec::new(alloc)
}

/// Returns the JSON of an item between the sections.
pub(crate) fn note_value(alloc: Global, note: &Note) -> Result<Value, AllocError> {
    let at = note.at;
    let sections = note.sections;
    match &note.noted {
        Noted::Machine(name) => {
            let name = shown(alloc, name)?;
            json!(in alloc; {"machine": &name, "at": at})
        }
        Noted::Subsection(name, content) => {
            let name = shown(alloc, name)?;
            let content = hex_of(alloc, content)?;
            json!(in alloc; {"subsection": &name, "content": &content, "at": at})
        }
        Noted::Command(number, len) => {
            let name = command_name(*number);
            json!(in alloc; {
                "command": *number, "name": name, "bytes": *len, "at": at, "after_sections": sections
            })
        }
        Noted::Device(name) => {
            let name = shown(alloc, name)?;
            json!(in alloc; {"device": &name, "at": at, "after_sections": sections})
        }
    }
}

fn notes_value(alloc: Global, survey: &Survey) -> Result<Value, AllocError> {
    let mut notes = array(alloc);
    for note in &survey.notes.notes {
        notes.push(note_value(alloc, note)?)?;
    }
    Ok(Value::Array(notes))
}

/// Returns the JSON of the blocks.
pub(crate) fn blocks_value(alloc: Global, blocks: &Blocks) -> Result<Value, AllocError> {
    let mut list = array(alloc);
    for (block, counts) in blocks.counts.iter().enumerate() {
        if block < blocks.table.len() {
            let id = id_text(alloc, blocks.table.id(block))?;
            list.push(json!(in alloc; {
                "id": &id,
                "bytes": blocks.len(block),
                "pages": counts.pages,
                "zero_pages": counts.zeros,
                "pages_without_record": blocks.missing(block)
            })?)?;
        }
    }
    Ok(Value::Array(list))
}

// Puts the number, the name and the text of a fault.
fn put_found(alloc: Global, object: &mut Object, fault: StreamFault) -> Result<(), AllocError> {
    let name = format!(in alloc; "{fault:?}")?;
    put(object, alloc, "name", Value::String(name))?;
    let text = format!(in alloc; "{fault}")?;
    put(object, alloc, "text", Value::String(text))?;
    put(object, alloc, "number", Value::from(fault.number()))
}

// Returns the name of the section of a fault.
fn section_name(kind: Option<SectionKind>) -> &'static str {
    match kind {
        Some(kind) => kind_name(kind),
        None => "none",
    }
}

// Puts the place of a fault, but for its block.
fn put_place(alloc: Global, object: &mut Object, place: &FaultPlace) -> Result<(), AllocError> {
    let section = Value::try_from_str(alloc, section_name(place.kind))?;
    put(object, alloc, "section", section)?;
    put(object, alloc, "byte", Value::from(place.byte))?;
    let sections = Value::from(place.sections);
    put(object, alloc, "complete_sections", sections)
}

// Puts the block at a fault.
fn put_block(alloc: Global, object: &mut Object, survey: &Survey) -> Result<(), AllocError> {
    put(object, alloc, "block", block_value(alloc, survey)?)
}

// Returns the JSON of the fault at `place`.
fn value_at(alloc: Global, place: &FaultPlace, survey: &Survey) -> Result<Value, AllocError> {
    let mut object = Map::new(alloc);
    put_found(alloc, &mut object, place.fault)?;
    put_place(alloc, &mut object, place)?;
    put_block(alloc, &mut object, survey)?;
    Ok(Value::Object(object))
}

fn fault_value(alloc: Global, survey: &Survey) -> Result<Value, AllocError> {
    match fault_of(survey) {
        Some(place) => value_at(alloc, &place, survey),
        None => Ok(Value::Null),
    }
}

fn block_value(alloc: Global, survey: &Survey) -> Result<Value, AllocError> {
    match block_at(alloc, survey)? {
        Some(id) => json!(in alloc; &id),
        None => Ok(Value::Null),
    }
}

fn libvirt_value(alloc: Global, survey: &Survey) -> Result<Value, AllocError> {
    match survey.libvirt {
        Some(header) => json!(in alloc; {"bytes": header.len, "was_running": header.was_running}),
        None => Ok(Value::Null),
    }
}

// Returns the JSON of the blocks; an empty list while there is no table.
fn table_value(alloc: Global, blocks: &Option<Blocks>) -> Result<Value, AllocError> {
    match blocks {
        Some(blocks) => blocks_value(alloc, blocks),
        None => Ok(Value::Array(array(alloc))),
    }
}

// Puts the numbers of a stream, and whether it is complete.
fn put_numbers(alloc: Global, object: &mut Object, survey: &Survey) -> Result<(), AllocError> {
    let end = survey.before().saturating_add(survey.valid);
    put(object, alloc, "page_size", Value::from(survey.page_size))?;
    put(
        object,
        alloc,
        "sections",
        Value::from(survey.notes.sections),
    )?;
    put(object, alloc, "end", Value::from(end))?;
    put_tail(
        alloc,
        object,
        &survey.ending,
        survey.len.saturating_sub(end),
    )?;
    put(object, alloc, "complete", Value::Bool(is_whole(survey)))
}

// Puts libvirt's header, the items between the sections, the blocks, and the fault.
fn put_parts(alloc: Global, object: &mut Object, survey: &Survey) -> Result<(), AllocError> {
    put(object, alloc, "libvirt", libvirt_value(alloc, survey)?)?;
    put(object, alloc, "notes", notes_value(alloc, survey)?)?;
    put(object, alloc, "blocks", table_value(alloc, &survey.blocks)?)?;
    put(object, alloc, "fault", fault_value(alloc, survey)?)
}

fn survey_value(alloc: Global, name: &str, survey: &Survey) -> Result<Value, AllocError> {
    let mut object = Map::new(alloc);
    put_file(alloc, &mut object, name, survey.input_len())?;
    put_numbers(alloc, &mut object, survey)?;
    put_parts(alloc, &mut object, survey)?;
    Ok(Value::Object(object))
}

/// Writes what a stream has, as JSON on one line. `name` is the file's, as it is printed.
///
/// # Errors
///
/// `Trouble::Output` if `output` can't be written, `Trouble::NoMemory`.
pub fn put_json_line<W: Write>(
    alloc: Global,
    output: &mut W,
    name: &str,
    survey: &Survey,
) -> Result<(), Trouble> {
    let text = survey_value(alloc, name, survey)?.to_string(alloc)?;
    writeln!(output, "{text}").map_err(output_failed)
}

/// Writes what a stream has, as JSON. `name` is the file's, as it is printed.
///
/// # Errors
///
/// `Trouble::Output` if `output` can't be written, `Trouble::NoMemory`.
pub fn put_json<W: Write>(
    alloc: Global,
    output: &mut W,
    name: &str,
    survey: &Survey,
) -> Result<(), Trouble> {
    let text = survey_value(alloc, name, survey)?.to_string_pretty(alloc)?;
    writeln!(output, "{text}").map_err(output_failed)
}
