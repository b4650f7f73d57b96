//! Names the incomplete files in a folder that earlier runs of `extract` left.

use std::alloc::{AllocError, AllocGlobal, Global};
use std::fs::Files;
use std::io::{Read, Write};
use std::str;
use zimgasol_files::{PARTIAL, STATE_NAME, Trouble, path_in, shown_name};

/// The bytes of names that are read at once: a name has at most 255, and a NUL.
const NAMES_LEN: usize = 4_096;

/// An incomplete file. Both names are made before other files are complete, so that noting it takes
/// no memory.
#[derive(Drop)]
pub(crate) struct Leftover {
    path: String,
    // the path as it is printed
    name: String,
}

// Adds the file `name` of `folder` to `found`, if it is incomplete. A name that isn't UTF-8 is no
// file of `extract`.
fn add_partial(
    alloc: Global,
    found: &mut Vec<Leftover>,
    folder: &str,
    name: &[u8],
) -> Result<(), AllocError> {
    let Ok(name) = str::from_utf8(name) else {
        return Ok(());
    };
    if !name.ends_with(PARTIAL) {
        return Ok(());
    }
    let path = path_in(alloc, folder, name, "")?;
    let name = shown_name(alloc, &path)?;
    found.push(Leftover { path, name })?;
    Ok(())
}

// Adds the incomplete files among `names`, each of which ends with a NUL.
fn add_partials(
    alloc: Global,
    found: &mut Vec<Leftover>,
    folder: &str,
    names: &[u8],
) -> Result<(), AllocError> {
    for name in names.split(|byte| *byte == 0) {
        add_partial(alloc, found, folder, name)?;
    }
    Ok(())
}

// Adds the incomplete files in `folder` to `found`. If the folder can't be listed, adds none.
fn add_leftovers<H: AllocGlobal + Files>(
    rt: &H,
    found: &mut Vec<Leftover>,
    folder: &str,
) -> Result<(), Trouble> {
    let alloc = rt.alloc();
    let mut buffer = vec![in alloc; 0u8; NAMES_LEN]?;
    let Ok(mut names) = rt.open_dir(folder) else {
        return Ok(());
    };
    for _ in 0..u64::MAX {
        match names.read(&mut buffer) {
            Ok(len) if len != 0 => add_partials(alloc, found, folder, &buffer[..len])?,
            _ => break,
        }
    }
    Ok(())
}

/// Returns the incomplete files in `folder`, and in its folder of the state. If a folder can't be
/// listed, returns none of it.
///
/// # Errors
///
/// `Trouble::NoMemory`.
pub(crate) fn leftovers<H: AllocGlobal + Files>(
    rt: &H,
    folder: &str,
) -> Result<Vec<Leftover>, Trouble> {
    let alloc = rt.alloc();
    let mut found = Vec::new(alloc);
    add_leftovers(rt, &mut found, folder)?;
    let state = path_in(alloc, folder, STATE_NAME, "")?;
    add_leftovers(rt, &mut found, &state)?;
    Ok(found)
}

/// Notes on the error output each file of `found` that still exists. Takes no memory.
pub(crate) fn put_leftovers<H: Files, E: Write>(rt: &H, errors: &mut E, found: &[Leftover]) {
    for leftover in found {
        if rt.symlink_metadata(&leftover.path).is_ok() {
            let name = &leftover.name;
            let _ = writeln!(
                errors,
                "zimgasol: {name}: note: another `extract` is running; if not, delete it"
            );
        }
    }
}
