//! Troubles as they are reported: the exit status of each, and its line on the error output.

ghost use Rattle.std.specs.Prelude.{◌≤◌};

use std::alloc::Global;
use std::io::{self, Write};
use zimgasol_files::{Packed, Trouble, Unfit, shown_name};

/// The exit status of success.
pub(crate) const WELL: u8 = 0;

/// The exit status for a stream with a fault, for memory that differs, and for memory that can't be
/// saved.
pub(crate) const REFUSED: u8 = 1;

/// The exit status for wrong arguments.
pub const WORDS: u8 = 2;

/// The exit status for a file or a stream that can't be read or written, and for a refused
/// allocation.
pub const FAILED: u8 = 3;

/// Returns the exit status for `trouble`.
pub(crate) fn trouble_status(trouble: &Trouble) -> u8
    ensures { result ≤ 3 }
{
    match trouble {
        Trouble::Libvirt(_) | Trouble::Refused(_, _) | Trouble::NoBlock(_) => REFUSED,
        Trouble::Fault(_, _, _) => REFUSED,
        Trouble::TooLarge | Trouble::LongFront(_) | Trouble::Packed(_, _) => REFUSED,
        Trouble::Unfit(_, why) => unfit_status(*why),
        Trouble::Words(_, _) => WORDS,
        _ => FAILED,
    }
}

// Returns the exit status for an unsuitable file or folder.
fn unfit_status(why: Unfit) -> u8
    ensures { result ≤ 3 }
{
    match why {
        Unfit::Pages(_, _) | Unfit::Empty | Unfit::NoBlock | Unfit::OtherLen(_, _) => REFUSED,
        Unfit::NotInState | Unfit::NoMemory | Unfit::StateLen(_, _) => REFUSED,
        _ => FAILED,
    }
}

/// Writes the error line for `trouble`, about the file `name`.
pub(crate) fn put_named_trouble<E: Write>(
    alloc: Global,
    errors: &mut E,
    name: &str,
    trouble: &Trouble,
) -> io::Result<()> {
    match shown_name(alloc, name) {
        Ok(name) => put_trouble(errors, &name, trouble),
        Err(_) => writeln!(errors, "zimgasol: no memory"),
    }
}

// Writes the error line for `trouble`; `name` is printable.
fn put_trouble<E: Write>(errors: &mut E, name: &str, trouble: &Trouble) -> io::Result<()> {
    write!(errors, "zimgasol: ")?;
    put_message(errors, name, trouble)?;
    writeln!(errors)
}

/// Writes the message of `trouble`, without a line's end. `name` is the file's, and printable.
pub(crate) fn put_message<E: Write>(
    errors: &mut E,
    name: &str,
    trouble: &Trouble,
) -> io::Result<()> {
    match trouble {
        Trouble::NoMemory => write!(errors, "no memory"),
        Trouble::Unread(error) => write!(errors, "{name}: {error}"),
        Trouble::Output(error) => write!(errors, "the output: {error}"),
        Trouble::OfFile(name, error) => write!(errors, "{name}: {error}"),
        Trouble::Exists(name) => {
            write!(errors, "{name}: is there already; `--replace` replaces it")
        }
        Trouble::Unfit(name, why) => put_unfit(errors, name, *why),
        Trouble::TooLarge => write!(errors, "the blocks have more than 2^40 bytes together"),
        Trouble::LongFront(len) => write!(
            errors,
            "{name}: has {len} bytes or more before RAM, and `extract` keeps at most 67108864; `--block` extracts without them"
        ),
        Trouble::Words(words, why) => write!(errors, "{words}: {why}"),
        Trouble::Refused(name, why) => write!(errors, "{name}: {why}"),
        Trouble::Fault(byte, number, why) => {
            write!(errors, "{name}: byte {byte}: fault {number}: {why}")
        }
        Trouble::NoBlock(id) => write!(errors, "{name}: has no block \"{id}\""),
        Trouble::Libvirt(why) => write!(errors, "{name}: {why}"),
        Trouble::Packed(Some(name), packed) => put_packed(errors, name, *packed),
        Trouble::Packed(None, packed) => put_packed(errors, name, *packed),
    }
}

// Writes the message for a stream that libvirt compressed, with the command that reads it.
fn put_packed<E: Write>(errors: &mut E, name: &str, packed: Packed) -> io::Result<()> {
    let packer = packed.packer;
    let first = packed.first;
    write!(
        errors,
        "{name}: libvirt compressed the stream with {packer}; "
    )?;
    write!(
        errors,
        "`tail -c +{first} FILE | {packer} -dc | zimgasol verify -` reads it, "
    )?;
    write!(errors, "or save it with save_image_format = \"raw\"")
}

// Writes the message for an unsuitable file or folder.
fn put_unfit<E: Write>(errors: &mut E, name: &str, why: Unfit) -> io::Result<()> {
    write!(errors, "{name}: ")?;
    match why {
        Unfit::Pages(len, size) => write!(
            errors,
            "has {len} bytes, which is no multiple of the page size {size} (`--page`)"
        ),
        Unfit::Empty => write!(errors, "empty; a block needs at least one page"),
        Unfit::OtherRun => write!(
            errors,
            "already exists: another `compare` is running; if not, delete it"
        ),
        Unfit::NoFile => write!(errors, "not a regular file; not replaced"),
        Unfit::Changed => write!(errors, "its length changed while it was read"),
        Unfit::NoList => write!(errors, "is no list of blocks that `extract` wrote"),
        Unfit::NoBlock => write!(errors, "isn't in the folder of `--since`"),
        Unfit::OtherLen(len, other) => write!(
            errors,
            "has {len} bytes, and in the folder of `--since` {other}"
        ),
        Unfit::OtherPages(size, other) => {
            write!(errors, "page size {size}, other operand {other}")
        }
        Unfit::SavedPages(size, other) => write!(
            errors,
            "has pages of {size} bytes, and the stream would have pages of {other}; save with `--page {size}`"
        ),
        Unfit::ListedLen(len, listed) => {
            write!(errors, "has {len} bytes, and `blocks.json` lists {listed}")
        }
        Unfit::IdTwice => write!(errors, "lists an id twice"),
        Unfit::NoState => write!(
            errors,
            "lists no state: `extract` keeps that of a machine's stream, without `--block`"
        ),
        Unfit::NotInState => write!(errors, "isn't a block of the machine in `--state`"),
        Unfit::NoMemory => write!(
            errors,
            "is a block of the machine in `--state`, and no file has its memory"
        ),
        Unfit::StateLen(len, other) => write!(
            errors,
            "has {len} bytes, and the block of the machine in `--state` {other}"
        ),
    }
}
