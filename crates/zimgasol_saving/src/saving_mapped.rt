//! `save --layout mapped-ram`: makes a file as QEMU does with the capability `mapped-ram`, in which
//! each page has a place of its own.

ghost use Rattle.std.specs.Prelude.{IsTrue};
ghost use Rattle.mig_mapped.specs.Front.{IsTotal};

use crate::blocks::send_blocks;
use crate::mapped::{MappedSending, put_at};
use crate::plan::Plan;
use crate::saving::{PlanFiles, Saved, watch_of};
use crate::section::{set_section_id, start_end};
use crate::send::MOST_NAME_LEN;
use crate::state::{State, refused_beginning, write_after};
use mig_mapped::{end_bytes, front_bytes, with_mapped_ram};
use mig_mem::{MAX_TOTAL, PAGE_SIZE_4K, Table};
use mig_stream::Frame;
use std::alloc::{AllocGlobal, Global};
use std::fs::Files;
use std::io::{self, Seek, Write};
use std::rt::Clock;
use zimgasol_files::{Layout, SaveWords, Trouble, wrong};

/// The flag of the number of bytes of the guest's memory in START, QEMU's `RAM_SAVE_FLAG_MEM_SIZE`.
const MEM_SIZE: u64 = 0x004;

/// The number of bytes of an entry of the size list, without its id.
const ENTRY_LEN: usize = 9;

/// The number of a stream's format in libvirt's header, if it has mapped-ram: `sparse`.
const SPARSE: u32 = 6;

/// Why an argument is refused that goes with another layout.
const OTHER_LAYOUT: &str = "doesn't go with `--layout mapped-ram`";

/// Refuses arguments that don't go with the layout.
///
/// # Errors
///
/// `Trouble::Words`: for mapped-ram for channels, for `--since`, for RAM's sections alone, for the
/// standard output, and without a machine that names the capability.
pub(crate) fn check_layout(alloc: Global, words: &SaveWords<'_>) -> Result<(), Trouble> {
    let Layout::MappedRam = words.layout else {
        return Ok(());
    };
    if let Some(word) = words.channels {
        return Err(wrong(alloc, "--channels", word, OTHER_LAYOUT));
    }
    if let Some(word) = words.since {
        return Err(wrong(alloc, "--since", word, OTHER_LAYOUT));
    }
    if let Frame::Ram = words.frame {
        return Err(wrong(alloc, "--frame", "ram", OTHER_LAYOUT));
    }
    check_target(alloc, words)
}

// Refuses mapped-ram to the standard output, and without a machine.
fn check_target(alloc: Global, words: &SaveWords<'_>) -> Result<(), Trouble> {
    if words.file == "-" {
        return Err(wrong(alloc, "--layout", "mapped-ram", "OUT has to be a file"));
    }
    if words.machine.is_none() && words.state.is_none() {
        let why = "goes with `--machine` or `--state`";
        return Err(wrong(alloc, "--layout", "mapped-ram", why));
    }
    Ok(())
}

// Returns the number of bytes of the size list of `table` in a stream.
fn list_len(table: &Table) -> usize {
    let mut len = 0usize;
    for block in 0..table.len() {
        len = len.saturating_add(ENTRY_LEN.saturating_add(table.id(block).len()));
    }
    len
}

// Returns `before` without the size list of `table`; None if the size list isn't all that follows
// the number of bytes of the guest's memory.
fn without_list<'a>(before: &'a [u8], table: &Table, total: u64) -> Option<&'a [u8]> {
    let len = before.len().checked_sub(list_len(table))?;
    let front = before.get(..len)?;
    let head = total.checked_add(MEM_SIZE)?;
    if !front.ends_with(&head.to_be_bytes()) {
        return None;
    }
    Some(front)
}

// Returns libvirt's header for a stream with mapped-ram. Its numbers are in the order of bytes of
// the header's version, 2.
fn sparse_header(alloc: Global, header: &[u8]) -> Result<Vec<u8>, Trouble> {
    let mut bytes = header.to_vec(alloc)?;
    if bytes.len() < 32 {
        return Ok(bytes);
    }
    let format = if bytes[16] == 2 {
        SPARSE.to_le_bytes()
    } else {
        SPARSE.to_be_bytes()
    };
    bytes[28..32].copy_from_slice(&format);
    Ok(bytes)
}

// Returns the bytes before the first entry of the size list, with the state in `folder`.
fn state_front(
    alloc: Global,
    folder: &str,
    plan: &Plan,
    state: &State,
) -> Result<Vec<u8>, Trouble> {
    if state.is_postcopy {
        let why = "the machine allows postcopy (`postcopy-ram`), with which QEMU has no mapped-ram";
        return Err(refused_beginning(alloc, folder, why));
    }
    let Some(front) = without_list(&state.before, &plan.table, plan.total()) else {
        let why = "the size list has more than the blocks' ids and lengths";
        return Err(refused_beginning(alloc, folder, why));
    };
    let Some(mapped) = with_mapped_ram(alloc, front)? else {
        let why = "there is no configuration to which the capability `mapped-ram` can be added";
        return Err(refused_beginning(alloc, folder, why));
    };
    let mut bytes = sparse_header(alloc, &state.libvirt)?;
    bytes.extend_from_slice(&mapped)?;
    Ok(bytes)
}

// Returns whether the blocks of a guest may have `total` bytes together.
fn is_total(total: u64) -> bool
    ensures { IsTrue result → IsTotal total }
{
    total != 0 && total % PAGE_SIZE_4K == 0 && total <= MAX_TOTAL
}

// Returns the bytes before the first entry of the size list, of a machine without devices.
fn named_front(alloc: Global, words: &SaveWords<'_>, total: u64) -> Result<Vec<u8>, Trouble> {
    let Some(name) = words.machine else {
        return Err(Trouble::NoMemory);
    };
    if name.len() > MOST_NAME_LEN || !is_total(total) {
        return Err(Trouble::TooLarge);
    }
    Ok(front_bytes(alloc, name.as_bytes(), total)?)
}

// Returns the bytes before the first entry of the size list.
fn front_of(alloc: Global, words: &SaveWords<'_>, plan: &Plan) -> Result<Vec<u8>, Trouble> {
    match (&plan.state, words.state) {
        (Some(state), Some(folder)) => state_front(alloc, folder, plan, state),
        _ => named_front(alloc, words, plan.total()),
    }
}

// Writes what follows the last block's pages, at the offset `end`: the ends of START and of END,
// and the state after RAM, or else the end byte. Returns the number of bytes.
fn write_end<H: AllocGlobal + Files>(
    rt: &H,
    plan: &Plan,
    file: &mut H::File,
    end: u64,
) -> Result<u64, Trouble> {
    let bytes = end_bytes();
    let Some(state) = &plan.state else {
        put_at(file, end, &bytes)?;
        return Ok(bytes.len() as u64);
    };
    let start = start_end(state.id);
    let mut last = [0; 18];
    last.copy_from_slice(&bytes[13..31]);
    set_section_id(&mut last, state.id);
    put_at(file, end, &start)?;
    put_at(file, end.saturating_add(13), &last)?;
    write_after(rt, state, file)?;
    Ok(31u64.saturating_add(state.after_len))
}

// Writes the pages of all blocks, and shows the progress.
fn send_all<H: AllocGlobal + Files + Clock, E: Write>(
    rt: &H,
    words: &SaveWords<'_>,
    plan: &Plan,
    sending: &mut MappedSending<'_, H::File>,
    errors: &mut E,
) -> Result<(), Trouble> {
    let mut watch = watch_of(rt, words, plan)?;
    let files = PlanFiles {
        rt,
        sources: &plan.sources,
    };
    let mut out = io::sink();
    let sent = send_blocks(
        rt,
        &plan.table,
        &files,
        sending,
        &mut out,
        &mut watch,
        errors,
    );
    watch.end(errors);
    sent
}

/// Writes the complete file. Returns how many pages were written, those that aren't zeros, and how
/// many bytes the file has.
///
/// # Errors
///
/// `Trouble::Refused` for a state that can't have mapped-ram, `Trouble::Output` if the file can't
/// be written, `Trouble::OfFile` if another one can't be read, and `Trouble::Unfit` if its length
/// has changed.
pub(crate) fn write_mapped<H: AllocGlobal + Files + Clock, E: Write>(
    rt: &H,
    words: &SaveWords<'_>,
    plan: &Plan,
    file: &mut H::File,
    errors: &mut E,
) -> Result<Saved, Trouble> {
    let alloc = rt.alloc();
    let front = front_of(alloc, words, plan)?;
    let mut sending = MappedSending::begin(alloc, file, &plan.table, &front)?;
    send_all(rt, words, plan, &mut sending, errors)?;
    let (pages, end) = sending.finish()?;
    let after = write_end(rt, plan, file, end)?;
    Ok(Saved {
        pages,
        bytes: end.saturating_add(after),
        channels: None,
    })
}
