//! Reads the state of a machine that `extract` kept, and checks it before anything is written: the
//! bytes before RAM's records have to be the beginning of a machine's stream, and those after RAM
//! complete.

ghost use Rattle.mig_mem.specs.PageSize.{IsPageSize};

use crate::section::start_end;
use crate::send::write;
use mig_mem::{MAX_TOTAL, Table};
use mig_stream::{Frame, Mode, Report, StreamReader, StreamState};
use std::alloc::{AllocGlobal, Global};
use std::fs::Files;
use std::io::{ErrorKind, Write};
use zimgasol_files::{
    AFTER_NAME, BEFORE_NAME, LIBVIRT_NAME, Trouble, Unfit, open, piece_buffer, shown_name,
    state_path, unwritten,
};
use zimgasol_reading::{MOST_FRONT_LEN, Noted, Notes, Tail, TailFault, header_of};

/// The number of the COMMAND `MIG_CMD_POSTCOPY_ADVISE`, and its length if a stream allows postcopy.
const POSTCOPY_ADVISE: u16 = 3;

const PAGE_SIZES_LEN: u16 = 16;

/// The state of a machine, which is written around RAM's sections.
#[derive(Drop)]
pub(crate) struct State {
    /// libvirt's header; empty if there is none.
    pub libvirt: Vec<u8>,
    /// The stream's bytes up to the end of RAM's size list.
    pub before: Vec<u8>,
    /// The id of RAM's section.
    pub id: u32,
    /// Whether the stream allows postcopy, so that QEMU loads it with `postcopy-ram` alone.
    pub is_postcopy: bool,
    /// The path of the file with the bytes after RAM, and its length.
    pub after: String,
    pub after_len: u64,
}

// Returns the error that the file `path` of a state is refused.
fn refused(alloc: Global, path: &str, why: &'static str) -> Trouble {
    match shown_name(alloc, path) {
        Ok(name) => Trouble::Refused(name, why),
        Err(_) => Trouble::NoMemory,
    }
}

// Reads the file `path`, of at most as many bytes as are kept before RAM.
fn read_front<H: AllocGlobal + Files>(rt: &H, path: &str) -> Result<Vec<u8>, Trouble> {
    let alloc = rt.alloc();
    let mut file = open(rt, alloc, path)?;
    let mut buffer = piece_buffer(alloc)?;
    let mut bytes = Vec::new(alloc);
    for _ in 0..u64::MAX {
        let len = file.read(&mut buffer)?;
        if len == 0 {
            break;
        }
        if len > MOST_FRONT_LEN.saturating_sub(bytes.len()) {
            return Err(refused(alloc, path, "has more than 67108864 bytes"));
        }
        bytes.extend_from_slice(&buffer[..len])?;
    }
    Ok(bytes)
}

// Returns whether there is a file `path`.
fn is_there<H: AllocGlobal + Files>(rt: &H, path: &str) -> Result<bool, Trouble> {
    match rt.symlink_metadata(path) {
        Ok(_) => Ok(true),
        Err(error) if error.kind() == ErrorKind::NotFound => Ok(false),
        Err(error) => Err(unwritten(rt.alloc(), path, error)),
    }
}

// Refuses `bytes` of the file `path`, unless they are a complete header of libvirt's, before a
// stream that it didn't compress.
fn check_libvirt(alloc: Global, path: &str, bytes: &[u8]) -> Result<(), Trouble> {
    match header_of(bytes) {
        Ok(Some(header)) if header.len == bytes.len() as u64 => Ok(()),
        Ok(_) => Err(refused(alloc, path, "isn't a complete header of libvirt's")),
        Err(Trouble::Libvirt(why)) => Err(refused(alloc, path, why)),
        Err(Trouble::Packed(_, _)) => {
            Err(refused(alloc, path, "is libvirt's header of a compressed stream"))
        }
        Err(trouble) => Err(trouble),
    }
}

// Reads libvirt's header in `folder`; empty if there is none.
fn libvirt_in<H: AllocGlobal + Files>(rt: &H, folder: &str) -> Result<Vec<u8>, Trouble> {
    let alloc = rt.alloc();
    let path = state_path(alloc, folder, LIBVIRT_NAME, "")?;
    if !is_there(rt, &path)? {
        return Ok(Vec::new(alloc));
    }
    let bytes = read_front(rt, &path)?;
    check_libvirt(alloc, &path, &bytes)?;
    Ok(bytes)
}

// What the bytes before RAM's records say.
#[derive(Drop)]
struct Beginning {
    id: u32,
    table: Table,
    leaves_shared_out: bool,
    is_postcopy: bool,
}

// Feeds `piece` to `reader`, and notes what it passes over. Returns whether the stream continues
// after it with the next item.
fn is_read(
    reader: &mut StreamReader<'static>,
    notes: &mut Notes,
    report: &mut Report,
    piece: &[u8],
) -> Result<bool, Trouble> {
    let fed = reader.fed();
    if reader.ended() || piece.len() as u64 > u64::MAX - fed {
        return Ok(false);
    }
    reader.feed_reporting(piece, report)?;
    notes.take(report)?;
    Ok(matches!(reader.state(), StreamState::Reading) && reader.valid_up_to() == reader.fed())
}

// Returns whether a COMMAND is noted by which a stream allows postcopy, which has the page sizes.
fn allows_postcopy(notes: &Notes) -> bool {
    for note in &notes.notes {
        if let Noted::Command(POSTCOPY_ADVISE, PAGE_SIZES_LEN) = &note.noted {
            return true;
        }
    }
    false
}

// Returns what `bytes` say; None unless they are the beginning of a machine's stream with pages of
// `page_size` bytes, up to the end of RAM's size list: START ends after them.
fn beginning_of(alloc: Global, bytes: &[u8], page_size: u64) -> Result<Option<Beginning>, Trouble>
    requires { IsPageSize page_size }
{
    let (frame, mode) = (Frame::Machine, Mode::Single);
    let mut reader = StreamReader::new_with(alloc, frame, mode, page_size, MAX_TOTAL, None);
    let mut notes = Notes::new(alloc);
    let mut report = Report::new(alloc);
    if !is_read(&mut reader, &mut notes, &mut report, bytes)? {
        return Ok(None);
    }
    let id = notes.section_id();
    let is_whole = is_read(&mut reader, &mut notes, &mut report, &start_end(id))?;
    if !is_whole || notes.sections != 1 || notes.list_end() != Some(bytes.len() as u64) {
        return Ok(None);
    }
    let leaves_shared_out = notes.leaves_shared_out();
    let is_postcopy = allows_postcopy(&notes);
    match reader.table() {
        Some(table) => Ok(Some(Beginning {
            id,
            table: table.try_copy()?,
            leaves_shared_out,
            is_postcopy,
        })),
        None => Ok(None),
    }
}

// Reads the bytes before RAM's records in `folder`. Returns them, and what they say.
fn beginning_in<H: AllocGlobal + Files>(
    rt: &H,
    folder: &str,
    page_size: u64,
) -> Result<(Vec<u8>, Beginning), Trouble>
    requires { IsPageSize page_size }
{
    let alloc = rt.alloc();
    let path = state_path(alloc, folder, BEFORE_NAME, "")?;
    let bytes = read_front(rt, &path)?;
    match beginning_of(alloc, &bytes, page_size)? {
        None => Err(refused(
            alloc,
            &path,
            "isn't a machine's stream up to the end of RAM's size list",
        )),
        Some(beginning) if beginning.leaves_shared_out => Err(refused(
            alloc,
            &path,
            "the machine left out shared memory (`x-ignore-shared`), which isn't written again",
        )),
        Some(beginning) => Ok((bytes, beginning)),
    }
}

/// Returns the error that the bytes before RAM in the state of `folder` are refused.
pub(crate) fn refused_beginning(alloc: Global, folder: &str, why: &'static str) -> Trouble {
    match state_path(alloc, folder, BEFORE_NAME, "") {
        Ok(path) => refused(alloc, &path, why),
        Err(_) => Trouble::NoMemory,
    }
}

// Returns why bytes after RAM with `fault` are refused.
fn tail_reason(fault: TailFault) -> &'static str {
    match fault {
        TailFault::Cut => "the state of the devices is cut",
        TailFault::CutDescription => "the description of the devices is cut",
        TailFault::Unknown => {
            "no valid description follows, so it isn't known whether the state of the devices is complete"
        }
        TailFault::Extra(_) => "other bytes follow the end of the stream; cut them off",
    }
}

// Checks the bytes after RAM in the file `path`. Returns their number.
fn after_len<H: AllocGlobal + Files>(rt: &H, path: &str) -> Result<u64, Trouble> {
    let alloc = rt.alloc();
    let mut file = open(rt, alloc, path)?;
    let mut buffer = piece_buffer(alloc)?;
    let mut tail = Tail::new(alloc, true);
    let mut all = 0u64;
    for _ in 0..u64::MAX {
        let len = file.read(&mut buffer)?;
        if len == 0 {
            break;
        }
        tail.look(&buffer[..len])?;
        all = all.saturating_add(len as u64);
    }
    match tail.ending()?.fault {
        None => Ok(all),
        Some(fault) => Err(refused(alloc, path, tail_reason(fault))),
    }
}

/// Reads and checks the state in `folder`, of a machine with pages of `page_size` bytes. Returns
/// it, and the table of the machine's blocks.
///
/// # Errors
///
/// `Trouble::OfFile` if a file can't be read, `Trouble::Refused` if the bytes before RAM aren't the
/// beginning of a machine's stream, those after RAM aren't complete, or libvirt's header isn't.
pub(crate) fn state_in<H: AllocGlobal + Files>(
    rt: &H,
    folder: &str,
    page_size: u64,
) -> Result<(State, Table), Trouble>
    requires { IsPageSize page_size }
{
    let libvirt = libvirt_in(rt, folder)?;
    let (before, beginning) = beginning_in(rt, folder, page_size)?;
    let after = state_path(rt.alloc(), folder, AFTER_NAME, "")?;
    let after_len = after_len(rt, &after)?;
    let Beginning {
        id,
        table,
        is_postcopy,
        ..
    } = beginning;
    let state = State {
        libvirt,
        before,
        id,
        is_postcopy,
        after,
        after_len,
    };
    Ok((state, table))
}

/// Writes the bytes after RAM to `out`.
///
/// # Errors
///
/// `Trouble::OfFile` if they can't be read, `Trouble::Unfit` if their number has changed,
/// `Trouble::Output` if `out` can't be written.
pub(crate) fn write_after<H: AllocGlobal + Files, W: Write>(
    rt: &H,
    state: &State,
    out: &mut W,
) -> Result<(), Trouble> {
    let alloc = rt.alloc();
    let mut file = open(rt, alloc, &state.after)?;
    let mut buffer = piece_buffer(alloc)?;
    let mut all = 0u64;
    for _ in 0..u64::MAX {
        let len = file.read(&mut buffer)?;
        if len == 0 {
            break;
        }
        write(out, &buffer[..len])?;
        all = all.saturating_add(len as u64);
    }
    if all != state.after_len {
        return Err(file.unfit(Unfit::Changed));
    }
    Ok(())
}
