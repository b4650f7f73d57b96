//! `save --channels`: makes a main stream and channels, each in a file.

use crate::packets::save_packets;
use crate::plan::Plan;
use crate::saving::{PlanFiles, Saved, watch_of};
use std::alloc::{AllocError, AllocGlobal, Global};
use std::fs::{Files, OpenFile};
use std::io::Write;
use std::rt::Clock;
use uuid::Uuid;
use zimgasol_files::{
    Outlet, PARTIAL, SaveWords, Trouble, count_word, create, is_free, remove_old, unwritten,
    uuid_word, wrong,
};

/// The number of channels that are written, and their UUID.
#[derive(Clone, Copy)]
pub(crate) struct ChannelPlan {
    count: usize,
    uuid: Uuid,
}

/// Returns the channels that the arguments ask for; None if they ask for none.
///
/// # Errors
///
/// `Trouble::Words` for a UUID without channels, channels while OUT is the standard output, and
/// wrong values.
pub(crate) fn channel_plan(
    alloc: Global,
    words: &SaveWords<'_>,
) -> Result<Option<ChannelPlan>, Trouble> {
    match (words.channels, words.uuid) {
        (None, None) => Ok(None),
        (None, Some(word)) => Err(wrong(alloc, "--uuid", word, "goes with `--channels`")),
        (Some(word), _) if words.file == "-" => {
            Err(wrong(alloc, "--channels", word, "OUT has to be a file"))
        }
        (Some(word), uuid) => Ok(Some(ChannelPlan {
            count: count_word(alloc, word)?,
            uuid: match uuid {
                Some(word) => uuid_word(alloc, word)?,
                None => Uuid::nil(),
            },
        })),
    }
}

// Returns the path of a channel's file: the main stream's path, a dot, and `number`.
fn channel_path(alloc: Global, file: &str, number: usize) -> Result<String, AllocError> {
    format!(in alloc; "{file}.{number}")
}

// Returns the names that all files have until they are complete.
fn partial_paths(alloc: Global, file: &str, count: usize) -> Result<Vec<String>, AllocError> {
    let mut paths = Vec::new(alloc);
    paths.push(format!(in alloc; "{file}{PARTIAL}")?)?;
    for number in 0..count {
        paths.push(format!(in alloc; "{file}.{number}{PARTIAL}")?)?;
    }
    Ok(paths)
}

// Refuses files that exist, unless `--replace` is set and they are plain files.
fn check_free<H: AllocGlobal + Files>(
    rt: &H,
    words: &SaveWords<'_>,
    count: usize,
) -> Result<(), Trouble> {
    let alloc = rt.alloc();
    is_free(rt, alloc, words.file, words.replace)?;
    for number in 0..count {
        let path = channel_path(alloc, words.file, number)?;
        is_free(rt, alloc, &path, words.replace)?;
    }
    Ok(())
}

// Makes a file, which gets the name `path` when it is complete.
fn open_outlet<H: AllocGlobal + Files>(rt: &H, path: String) -> Result<Outlet<H::File>, Trouble> {
    let alloc = rt.alloc();
    let partial = format!(in alloc; "{path}{PARTIAL}")?;
    let file = create(rt, alloc, &partial)?;
    Ok(Outlet {
        alloc,
        path,
        partial,
        file,
        written: 0,
    })
}

// Makes the files of `count` channels.
fn open_channels<H: AllocGlobal + Files>(
    rt: &H,
    words: &SaveWords<'_>,
    count: usize,
) -> Result<Vec<Outlet<H::File>>, Trouble> {
    let alloc = rt.alloc();
    let mut outlets = Vec::new(alloc);
    for number in 0..count {
        let path = channel_path(alloc, words.file, number)?;
        outlets.push(open_outlet(rt, path)?)?;
    }
    Ok(outlets)
}

// Sends all blocks of `plan` to the main stream and the channels, and shows the progress. Returns
// the channels, the number of pages, and the bytes of the main stream.
fn send_all<H: AllocGlobal + Files + Clock, E: Write>(
    rt: &H,
    words: &SaveWords<'_>,
    plan: &Plan,
    uuid: Uuid,
    out: &mut H::File,
    outlets: Vec<Outlet<H::File>>,
    errors: &mut E,
) -> Result<(Vec<Outlet<H::File>>, u64, u64), Trouble> {
    let mut watch = watch_of(rt, words, plan)?;
    let files = PlanFiles {
        rt,
        sources: &plan.sources,
    };
    let name = match words.machine {
        Some(name) => Some(name.as_bytes()),
        None => None,
    };
    let (table, frame) = (&plan.table, words.frame);
    let sent = save_packets(
        rt, table, name, frame, uuid, &files, outlets, out, &mut watch, errors,
    );
    watch.end(errors);
    sent
}

// Syncs the main stream and the channels to their disk. Returns how many bytes the channels have.
fn sync_all<F: Write + OpenFile + Drop>(
    main: &mut Outlet<F>,
    outlets: &mut [Outlet<F>],
) -> Result<u64, Trouble> {
    let mut all = 0u64;
    for outlet in outlets.iter_mut() {
        outlet.sync()?;
        all = all.saturating_add(outlet.written);
    }
    main.sync()?;
    Ok(all)
}

// Writes the main stream and the channels, and syncs them to their disk. Returns the totals, and
// the channels.
fn write_all<H: AllocGlobal + Files + Clock, E: Write>(
    rt: &H,
    words: &SaveWords<'_>,
    plan: &Plan,
    channels: ChannelPlan,
    main: &mut Outlet<H::File>,
    outlets: Vec<Outlet<H::File>>,
    errors: &mut E,
) -> Result<(Saved, Vec<Outlet<H::File>>), Trouble> {
    let uuid = channels.uuid;
    let (mut outlets, pages, bytes) = send_all(
        rt,
        words,
        plan,
        uuid,
        &mut main.file,
        outlets,
        errors,
    )?;
    let all = sync_all(main, &mut outlets)?;
    let saved = Saved {
        pages,
        bytes,
        channels: Some((outlets.len(), all)),
    };
    Ok((saved, outlets))
}

// Removes files, as far as there are any. It takes no memory.
fn remove_all<H: Files>(rt: &H, paths: &[String]) {
    for path in paths {
        let _left = rt.remove_file(path);
    }
}

// Gives all files their final names, the main stream last. An old main stream is removed first, so
// that it never stands with the channels of another stream.
fn rename_all<H: Files>(
    rt: &H,
    main: &Outlet<H::File>,
    outlets: &[Outlet<H::File>],
) -> Result<(), Trouble> {
    remove_old(rt, main.alloc, &main.path)?;
    for outlet in outlets {
        outlet.rename(rt)?;
    }
    main.rename(rt)
}

// Adds the name of the main stream's file to an error of writing it.
fn of_main<F: Drop>(main: &Outlet<F>, trouble: Trouble) -> Trouble {
    match trouble {
        Trouble::Output(error) => unwritten(main.alloc, &main.partial, error),
        trouble => trouble,
    }
}

// Makes the channels' files, and writes all files. Returns the totals, and the channels.
fn write_named<H: AllocGlobal + Files + Clock, E: Write>(
    rt: &H,
    words: &SaveWords<'_>,
    plan: &Plan,
    channels: ChannelPlan,
    main: &mut Outlet<H::File>,
    errors: &mut E,
) -> Result<(Saved, Vec<Outlet<H::File>>), Trouble> {
    let outlets = open_channels(rt, words, channels.count)?;
    match write_all(rt, words, plan, channels, main, outlets, errors) {
        Ok(written) => Ok(written),
        Err(trouble) => Err(of_main(main, trouble)),
    }
}

// Writes all files, and renames them. That of the main stream is made.
fn save_into<H: AllocGlobal + Files + Clock, E: Write>(
    rt: &H,
    words: &SaveWords<'_>,
    plan: &Plan,
    channels: ChannelPlan,
    main: &mut Outlet<H::File>,
    errors: &mut E,
) -> Result<Saved, Trouble> {
    let (saved, outlets) = write_named(rt, words, plan, channels, main, errors)?;
    rename_all(rt, main, &outlets)?;
    Ok(saved)
}

// Makes and writes all files, and renames them.
fn save_all<H: AllocGlobal + Files + Clock, E: Write>(
    rt: &H,
    words: &SaveWords<'_>,
    plan: &Plan,
    channels: ChannelPlan,
    errors: &mut E,
) -> Result<Saved, Trouble> {
    let path = String::from_str(rt.alloc(), words.file)?;
    let mut main = open_outlet(rt, path)?;
    save_into(rt, words, plan, channels, &mut main, errors)
}

/// Saves into a main stream and channels, which get their final names when all are complete.
///
/// # Errors
///
/// `Trouble::Exists` and `Trouble::Unfit` of files that exist, `Trouble::OfFile` if one can't be
/// read or written. Files without their final names are removed.
pub(crate) fn save_channels<H: AllocGlobal + Files + Clock, E: Write>(
    rt: &H,
    words: &SaveWords<'_>,
    plan: &Plan,
    channels: ChannelPlan,
    errors: &mut E,
) -> Result<Saved, Trouble> {
    check_free(rt, words, channels.count)?;
    let partials = partial_paths(rt.alloc(), words.file, channels.count)?;
    let saved = save_all(rt, words, plan, channels, errors);
    if saved.is_err() {
        remove_all(rt, &partials);
    }
    saved
}
