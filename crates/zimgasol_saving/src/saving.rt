//! `save`: makes a single stream from files with the memory of blocks.

ghost use Rattle.std.specs.Prelude.{None};

use crate::blocks::{BlockFiles, save_blocks, save_kept};
use crate::plan::{Plan, Source, plan_of};
use crate::saving_channels::{ChannelPlan, channel_plan, save_channels};
use crate::saving_mapped::{check_layout, write_mapped};
use crate::state::{State, write_after};
use std::alloc::AllocGlobal;
use std::fs::Files;
use std::io::{self, Write};
use std::rt::Clock;
use zimgasol_files::{
    Layout, Opened, PARTIAL, SaveWords, Trouble, Watch, create, is_free, open, rename, shown_name,
    sync, unwritten,
};

/// The totals of a save.
#[derive(Clone, Copy)]
pub(crate) struct Saved {
    /// The pages that were sent; with mapped-ram those that were written, which aren't zeros.
    pub pages: u64,
    /// The bytes of the stream, of the main stream if there are channels, or of the file with
    /// mapped-ram.
    pub bytes: u64,
    /// The number of channels, and the bytes of all of them.
    pub channels: Option<(usize, u64)>,
}

/// The files of a plan.
#[derive(Drop)]
pub(crate) struct PlanFiles<'a, H> {
    pub rt: &'a H,
    pub sources: &'a [Source],
}

impl<'a, H: AllocGlobal + Files> BlockFiles for PlanFiles<'a, H> {
    type File = H::File;

    // nothing is known of the system's files
    ghost source = { λ _ _. None };

    fn open(&self, block: usize) -> Result<(Opened<H::File>, Option<Opened<H::File>>), Trouble> {
        let alloc = self.rt.alloc();
        let Some(source) = self.sources.get(block) else {
            return Err(Trouble::NoMemory);
        };
        let file = open(self.rt, alloc, &source.file)?;
        let before = match &source.before {
            Some(path) => Some(open(self.rt, alloc, path)?),
            None => None,
        };
        Ok((file, before))
    }
}

/// Creates the watch of a save that begins now.
///
/// # Errors
///
/// `Trouble::NoMemory`.
pub(crate) fn watch_of<H: AllocGlobal + Clock>(
    rt: &H,
    words: &SaveWords<'_>,
    plan: &Plan,
) -> Result<Watch, Trouble> {
    let mut watch = Watch::new(rt, rt.alloc(), words.talk, words.file)?;
    watch.expect_total(plan.total());
    Ok(watch)
}

// Saves with the state: writes its bytes before RAM's records, these records, and its bytes after
// them. Returns how many pages were sent, and how many bytes were written.
fn save_state<H: AllocGlobal + Files + Clock, W: Write, E: Write>(
    rt: &H,
    plan: &Plan,
    state: &State,
    out: &mut W,
    watch: &mut Watch,
    errors: &mut E,
) -> Result<(u64, u64), Trouble> {
    let files = PlanFiles {
        rt,
        sources: &plan.sources,
    };
    let (table, libvirt, before) = (&plan.table, &state.libvirt, &state.before);
    let (pages, bytes) = save_kept(
        rt, table, libvirt, before, state.id, &files, out, watch, errors,
    )?;
    write_after(rt, state, out)?;
    Ok((pages, bytes.saturating_add(state.after_len)))
}

// Saves without a state. Returns how many pages were sent, and how many bytes were written.
fn save_plain<H: AllocGlobal + Files + Clock, W: Write, E: Write>(
    rt: &H,
    words: &SaveWords<'_>,
    plan: &Plan,
    out: &mut W,
    watch: &mut Watch,
    errors: &mut E,
) -> Result<(u64, u64), Trouble> {
    let files = PlanFiles {
        rt,
        sources: &plan.sources,
    };
    let name = match words.machine {
        Some(name) => Some(name.as_bytes()),
        None => None,
    };
    let (table, frame) = (&plan.table, words.frame);
    save_blocks(rt, table, name, frame, &files, out, watch, errors)
}

// Writes the complete stream to `out`.
fn write_stream<H: AllocGlobal + Files + Clock, W: Write, E: Write>(
    rt: &H,
    words: &SaveWords<'_>,
    plan: &Plan,
    out: &mut W,
    errors: &mut E,
) -> Result<Saved, Trouble> {
    let mut watch = watch_of(rt, words, plan)?;
    let written = write_watched(rt, words, plan, out, &mut watch, errors);
    watch.end(errors);
    written
}

// Writes the complete stream to `out`, and shows the progress by `watch`.
fn write_watched<H: AllocGlobal + Files + Clock, W: Write, E: Write>(
    rt: &H,
    words: &SaveWords<'_>,
    plan: &Plan,
    out: &mut W,
    watch: &mut Watch,
    errors: &mut E,
) -> Result<Saved, Trouble> {
    let (pages, bytes) = match &plan.state {
        Some(state) => save_state(rt, plan, state, out, watch, errors)?,
        None => save_plain(rt, words, plan, out, watch, errors)?,
    };
    Ok(Saved {
        pages,
        bytes,
        channels: None,
    })
}

// Writes the stream, or the file with mapped-ram, into `file`.
fn write_layout<H: AllocGlobal + Files + Clock, E: Write>(
    rt: &H,
    words: &SaveWords<'_>,
    plan: &Plan,
    file: &mut H::File,
    errors: &mut E,
) -> Result<Saved, Trouble> {
    match words.layout {
        Layout::Stream => write_stream(rt, words, plan, file, errors),
        Layout::MappedRam => write_mapped(rt, words, plan, file, errors),
    }
}

// Writes the stream into the file `partial`, and syncs it to its disk.
fn write_file<H: AllocGlobal + Files + Clock, E: Write>(
    rt: &H,
    words: &SaveWords<'_>,
    plan: &Plan,
    partial: &str,
    errors: &mut E,
) -> Result<Saved, Trouble> {
    let alloc = rt.alloc();
    let mut file = create(rt, alloc, partial)?;
    let saved = match write_layout(rt, words, plan, &mut file, errors) {
        Ok(saved) => saved,
        Err(Trouble::Output(error)) => return Err(unwritten(alloc, partial, error)),
        Err(trouble) => return Err(trouble),
    };
    match sync(&mut file) {
        Ok(()) => Ok(saved),
        Err(error) => Err(unwritten(alloc, partial, error)),
    }
}

// Saves into a file, which gets its final name when it is complete. After a failure the file is
// removed.
fn save_file<H: AllocGlobal + Files + Clock, E: Write>(
    rt: &H,
    words: &SaveWords<'_>,
    plan: &Plan,
    errors: &mut E,
) -> Result<Saved, Trouble> {
    let alloc = rt.alloc();
    is_free(rt, alloc, words.file, words.replace)?;
    let partial = format!(in alloc; "{}{PARTIAL}", words.file)?;
    let saved = match write_file(rt, words, plan, &partial, errors) {
        Ok(saved) => saved,
        Err(trouble) => {
            let _left = rt.remove_file(&partial);
            return Err(trouble);
        }
    };
    if let Err(trouble) = rename(rt, alloc, &partial, words.file) {
        let _left = rt.remove_file(&partial);
        return Err(trouble);
    }
    Ok(saved)
}

// Writes the line on what was saved; `name` is printable.
fn put_counts<W: Write>(
    output: &mut W,
    name: &str,
    blocks: usize,
    total: u64,
    layout: Layout,
    saved: Saved,
) -> io::Result<()> {
    let pages = saved.pages;
    let bytes = saved.bytes;
    write!(
        output,
        "{name}: saved: blocks {blocks}, memory {total} bytes, "
    )?;
    match (layout, saved.channels) {
        (Layout::MappedRam, _) => writeln!(output, "pages {pages}, file {bytes} bytes"),
        (Layout::Stream, Some((channels, all))) => writeln!(
            output,
            "pages {pages}, stream {bytes} bytes, channels {channels} of {all} bytes together"
        ),
        (Layout::Stream, None) => writeln!(output, "pages {pages}, stream {bytes} bytes"),
    }
}

// Writes the line on what was saved; `name` is printable.
fn put_saved<W: Write>(
    output: &mut W,
    name: &str,
    plan: &Plan,
    layout: Layout,
    saved: Saved,
) -> Result<(), Trouble> {
    let blocks = plan.sources.len();
    let total = plan.total();
    match put_counts(output, name, blocks, total, layout, saved) {
        Ok(()) => Ok(()),
        Err(error) => Err(Trouble::Output(error)),
    }
}

// Flushes the output.
fn flush<W: Write>(output: &mut W) -> Result<(), Trouble> {
    match output.flush() {
        Ok(()) => Ok(()),
        Err(error) => Err(Trouble::Output(error)),
    }
}

// Saves `plan` to the standard output.
fn save_output<H: AllocGlobal + Files + Clock, W: Write, E: Write>(
    rt: &H,
    words: &SaveWords<'_>,
    plan: &Plan,
    output: &mut W,
    errors: &mut E,
) -> Result<(), Trouble> {
    let _saved = write_stream(rt, words, plan, output, errors)?;
    flush(output)
}

// Saves `plan` into files, and writes the line on it.
fn save_files<H: AllocGlobal + Files + Clock, W: Write, E: Write>(
    rt: &H,
    words: &SaveWords<'_>,
    plan: &Plan,
    channels: Option<ChannelPlan>,
    output: &mut W,
    errors: &mut E,
) -> Result<(), Trouble> {
    // made first: nothing takes memory after the files are complete
    let name = shown_name(rt.alloc(), words.file)?;
    let saved = match channels {
        Some(channels) => save_channels(rt, words, plan, channels, errors)?,
        None => save_file(rt, words, plan, errors)?,
    };
    if words.talk.quiet {
        return Ok(());
    }
    put_saved(output, &name, plan, words.layout, saved)
}

/// Saves the memory of blocks as a stream, with channels if the arguments ask for them. Returns
/// true.
///
/// # Errors
///
/// Those of `check_layout`, `channel_plan` and `plan_of`, `Trouble::Exists` and `Trouble::Unfit` of
/// OUT, `Trouble::OfFile` if a file can't be read or written: then all files are removed.
/// `Trouble::Output` if `output` can't be written: a stream that was saved in a file stays.
pub fn save<H: AllocGlobal + Files + Clock, W: Write, E: Write>(
    rt: &H,
    words: &SaveWords<'_>,
    output: &mut W,
    errors: &mut E,
) -> Result<bool, Trouble> {
    check_layout(rt.alloc(), words)?;
    let channels = channel_plan(rt.alloc(), words)?;
    let plan = plan_of(rt, words)?;
    if words.file == "-" {
        save_output(rt, words, &plan, output, errors)?;
    } else {
        save_files(rt, words, &plan, channels, output, errors)?;
    }
    Ok(true)
}
