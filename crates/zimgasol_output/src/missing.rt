//! Writes which blocks of a complete stream have pages without a record, and what may be the cause.
//!
//! A main stream of an older QEMU whose pages were sent on multifd's channels has no fault, and no
//! records of those pages. So is a stream of the changes since another stream, and that of a
//! migration that leaves memory where it is.

use mig_stream::Frame;
use std::alloc::Global;
use std::fs::OpenFile;
use std::io::{Read, Write};
use zimgasol_files::{Trouble, shown};
use zimgasol_reading::{Blocks, Coverage, Several, Survey};

/// The sections of a stream without a PART: START and END.
const FEWEST_SECTIONS: u64 = 2;

/// The cause in RAM's sections alone.
const CHANGES: &str =
    "it may be the changes since another stream, which `extract --since` applies; `--partial` takes it as it is";

/// The cause if there is neither a record nor a PART: RAM wasn't sent.
const NOT_SENT: &str = "RAM isn't in the stream: a `cpr-transfer` migration keeps it outside";

/// The cause if there are PARTs, and none has a record.
const NOT_RECORDED: &str =
    "RAM isn't in the stream: its pages may have gone over multifd's channels (`--channel` names each)";

/// The cause if all records are of pages of zeros.
const NO_CONTENTS: &str =
    "all records are of pages of zeros: the other pages may have gone over multifd's channels (`--channel` names each)";

/// The cause if a block has no record, and the stream says that shared memory was left out.
const SHARED: &str =
    "the save left out shared memory (`x-ignore-shared`): a block without any record is in its own file; `--partial` takes the stream as it is";

/// The cause if other blocks have records.
const NONE_PLUGGED: &str =
    "a block without any record may be virtio-mem with nothing plugged; `--partial` takes the stream as it is";

/// The cause if each block has records.
const NOT_PLUGGED: &str =
    "they may be unplugged memory of virtio-mem, free pages of virtio-balloon, or the stream the changes since another one; `--partial` takes it as it is";

/// Returns what a stream is that has this much of the memory: the word for the first line of a
/// report, and for the last one of a listing.
pub(crate) fn coverage_word(coverage: Coverage) -> &'static str {
    match coverage {
        Coverage::Whole => "complete",
        Coverage::Partial | Coverage::Incomplete => "partial",
    }
}

// Returns whether a block has no record.
fn has_absent(blocks: &Blocks) -> bool {
    for block in 0..blocks.table.len() {
        if blocks.is_absent(block) {
            return true;
        }
    }
    false
}

// Returns what may be the cause if pages of a stream in `frame` have no record, and others have.
fn cause_in(frame: Frame, blocks: &Blocks) -> &'static str {
    if let Frame::Ram = frame {
        return CHANGES;
    }
    if has_absent(blocks) {
        NONE_PLUGGED
    } else {
        NOT_PLUGGED
    }
}

// Returns what may be the cause that a single stream has pages without a record.
fn cause_of(survey: &Survey, blocks: &Blocks) -> &'static str {
    let all = blocks.counts_of_all();
    if survey.notes.leaves_shared_out() && has_absent(blocks) {
        return SHARED;
    }
    if all.pages != 0 || matches!(survey.frame, Frame::Ram) {
        return cause_in(survey.frame, blocks);
    }
    if all.zeros != 0 {
        return NO_CONTENTS;
    }
    if survey.notes.sections <= FEWEST_SECTIONS {
        NOT_SENT
    } else {
        NOT_RECORDED
    }
}

// Returns what may be the cause that a main stream and its channels have pages without a record.
fn cause_of_several<F: Read + OpenFile + Drop>(
    several: &Several<F>,
    blocks: &Blocks,
) -> &'static str {
    if several.main.leaves_shared_out() && has_absent(blocks) {
        return SHARED;
    }
    cause_in(several.frame, blocks)
}

// Writes the line on a block; `mark` begins it.
fn put_block<E: Write>(
    alloc: Global,
    errors: &mut E,
    name: &str,
    blocks: &Blocks,
    block: usize,
    mark: &str,
) -> Result<(), Trouble> {
    if block >= blocks.table.len() {
        return Ok(());
    }
    let id = shown(alloc, blocks.table.id(block))?;
    let pages = blocks.pages(block);
    let missing = blocks.missing(block);
    let end = if missing == pages {
        ": it isn't in the stream"
    } else {
        ""
    };
    let _ = writeln!(
        errors,
        "zimgasol: {name}: {mark}: {missing} of {pages} pages of block \"{id}\" have no record{end}"
    );
    Ok(())
}

// Writes a line for each block that has pages without a record; `mark` begins it.
fn put_blocks<E: Write>(
    alloc: Global,
    errors: &mut E,
    name: &str,
    blocks: &Blocks,
    mark: &str,
) -> Result<(), Trouble> {
    for block in 0..blocks.table.len() {
        if blocks.missing(block) != 0 {
            put_block(alloc, errors, name, blocks, block, mark)?;
        }
    }
    Ok(())
}

// Writes a line for each block that has pages without a record: a note if that is meant, or else
// that the stream is incomplete, and then what may be the cause.
fn put_lacks<E: Write>(
    alloc: Global,
    errors: &mut E,
    name: &str,
    blocks: &Blocks,
    coverage: Coverage,
    cause: &str,
) -> Result<(), Trouble> {
    match coverage {
        Coverage::Whole => Ok(()),
        Coverage::Partial => put_blocks(alloc, errors, name, blocks, "note"),
        Coverage::Incomplete => {
            put_blocks(alloc, errors, name, blocks, "INCOMPLETE")?;
            let _ = writeln!(errors, "zimgasol: {name}: INCOMPLETE: {cause}");
            Ok(())
        }
    }
}

/// Writes which blocks of a single stream have pages without a record.
///
/// # Errors
///
/// `Trouble::NoMemory`.
pub(crate) fn put_missing<E: Write>(
    alloc: Global,
    errors: &mut E,
    name: &str,
    survey: &Survey,
) -> Result<(), Trouble> {
    let Some(blocks) = &survey.blocks else {
        return Ok(());
    };
    let cause = cause_of(survey, blocks);
    put_lacks(alloc, errors, name, blocks, survey.coverage(), cause)
}

/// Writes which blocks of a main stream and its channels have pages without a record.
///
/// # Errors
///
/// `Trouble::NoMemory`.
pub(crate) fn put_several_missing<F: Read + OpenFile + Drop, E: Write>(
    alloc: Global,
    errors: &mut E,
    name: &str,
    several: &Several<F>,
) -> Result<(), Trouble> {
    let Some(blocks) = &several.blocks else {
        return Ok(());
    };
    let cause = cause_of_several(several, blocks);
    put_lacks(alloc, errors, name, blocks, several.coverage(), cause)
}
