//! `verify`: reports whether saved guests are complete, one file after another or some at once.

ghost use Rattle.std.specs.Prelude.{◌≡◌, ◌↔◌, ◌≤◌, ◌<◌, ◌^◌, ℕ, List, length, Some, All, IfOk, IsNone, IsTrue};
ghost use Rattle.zimgasol_reading.specs.Coverage.{IsComplete};
ghost use Rattle.zimgasol_reading.specs.Surveyed.{IsWholeSave};

use crate::opening::{OpenStream, open_stream, put_mapped_note};
use crate::troubles::{FAILED, REFUSED, WELL, put_message, put_named_trouble, trouble_status};
use rayon::prelude::*;
use serde_json::json;
use std::alloc::{AllocError, AllocGlobal, Global};
use std::fs::{Files, Metadata, OpenFile};
use std::io::{self, Read, Write};
use std::rt::Clock;
use std::str;
use std::thread::Threads;
use zimgasol_files::{StreamWords, Talk, Trouble, VerifyWords, shown_name, wrong};
use zimgasol_output::{
    put_all_wrongs, put_json_line, put_several_all_wrongs, put_several_json_line,
    put_several_verdict, put_verdict,
};
use zimgasol_reading::{NoSink, Several, Survey, read_input, read_several};

// How many files were verified, by their status.
#[derive(Clone, Copy)]
struct Tally {
    // complete, or partial with `--partial`
    passed: u64,
    // with a fault, or incomplete
    refused: u64,
    // that can't be read
    unread: u64,
}

impl Tally {
    // Creates the tally before the first file.
    fn new() -> Tally {
        Tally {
            passed: 0,
            refused: 0,
            unread: 0,
        }
    }

    // Counts a file with `status`.
    fn add(&mut self, status: u8) {
        match status {
            WELL => self.passed = self.passed.saturating_add(1),
            REFUSED => self.refused = self.refused.saturating_add(1),
            _ => self.unread = self.unread.saturating_add(1),
        }
    }

    // Returns the exit status: that of the worst file.
    fn status(&self) -> u8
        ensures unread { 0 < self.now.unread → result ≡ 3 }
        ensures refused { self.now.unread ≡ 0 → 0 < self.now.refused → result ≡ 1 }
        ensures passed { self.now.unread ≡ 0 → self.now.refused ≡ 0 → result ≡ 0 }
        ensures bound { result ≤ 3 }
    {
        if self.unread != 0 {
            return FAILED;
        }
        if self.refused != 0 {
            return REFUSED;
        }
        WELL
    }

    // Writes the sum of all files.
    fn put<W: Write>(&self, output: &mut W, files: usize) -> io::Result<()> {
        let passed = self.passed;
        let refused = self.refused;
        let unread = self.unread;
        writeln!(
            output,
            "{files} files: {passed} passed, {refused} refused, {unread} not read"
        )
    }
}

fn output_failed(error: io::Error) -> Trouble {
    Trouble::Output(error)
}

// Refuses channels of several files, the standard input twice, and beside other files at once.
fn check_words(alloc: Global, words: &VerifyWords<'_>) -> Result<(), Trouble> {
    let is_single = words.channels.is_single(alloc)?;
    if words.files.len() < 2 {
        return Ok(());
    }
    if !is_single {
        let channel = words.channels.files.first().unwrap_or(&"");
        return Err(wrong(alloc, "--channel", channel, "goes with one FILE"));
    }
    if words.files.iter().filter(|file| **file == "-").count() > 1 {
        return Err(wrong(
            alloc,
            "FILE",
            "-",
            "only one FILE can be the standard input",
        ));
    }
    if words.jobs > 1 && words.files.iter().any(|file| *file == "-") {
        return Err(wrong(
            alloc,
            "FILE",
            "-",
            "goes without `--jobs`, or is the only FILE",
        ));
    }
    Ok(())
}

// Prints whether a single stream is complete, with what follows its RAM. Returns whether it is;
// `name` is printable.
fn judge_single<W: Write, E: Write>(
    alloc: Global,
    talk: Talk,
    json: bool,
    name: &str,
    survey: &Survey,
    output: &mut W,
    errors: &mut E,
) -> Result<bool, Trouble>
    ensures verdict { IfOk result (λ is_whole. IsTrue is_whole ↔ (IsComplete survey.now × IsNone survey.now.ending.fault)) }
{
    if json {
        put_json_line(alloc, output, name, survey)?;
        return put_all_wrongs(alloc, errors, name, survey);
    }
    put_verdict(alloc, output, errors, name, survey, talk)
}

/// Reads the stream in `input`, prints whether it is complete, and returns whether it is. It is
/// complete exactly if, after libvirt's header, a closed stream with a record of each page is in
/// the bytes of `input`, and a whole ending after it. With `--partial` pages may lack a record; the
/// ending isn't checked with `--ram-only` or `--frame ram`. `metadata` is that of the file that
/// `input` is, if it is one; `name` is printable.
///
/// # Errors
///
/// Those of `read_input`, and `Trouble::Output`.
pub fn verify_input<H: AllocGlobal + Files + Clock, R: Read, W: Write, E: Write>(
    rt: &H,
    words: &StreamWords<'_>,
    metadata: Option<&Metadata>,
    json: bool,
    name: &str,
    input: &mut R,
    output: &mut W,
    errors: &mut E,
) -> Result<bool, Trouble>
    ensures exact { IfOk result (λ is_whole. (text : List ℕ) → R.remaining input.old ≡ Some text → length text < 2 ^ 63 → All (λ byte. byte < 2 ^ 8) text
        → IsTrue is_whole ↔ IsWholeSave words.now text) }
{
    let (read, _sink) = read_input(rt, words, metadata, input, NoSink, errors);
    let survey = read?;
    judge_single(rt.alloc(), words.talk, json, name, &survey, output, errors)
}

// Reads a single stream from its file or from `input`, and prints whether it is complete. Returns
// whether it is; `name` is printable.
fn verify_single<H: AllocGlobal + Files + Clock, R: Read, W: Write, E: Write>(
    rt: &H,
    words: &StreamWords<'_>,
    json: bool,
    name: &str,
    input: &mut R,
    output: &mut W,
    errors: &mut E,
) -> Result<bool, Trouble> {
    if words.file == "-" {
        return verify_input(rt, words, None, json, name, input, output, errors);
    }
    let mut opened = open_stream(rt, words)?;
    verify_opened(rt, words, &mut opened, json, name, output, errors)
}

// Reads the stream of `opened`, and prints whether it is complete. Returns whether it is; `name` is
// printable.
fn verify_opened<H: AllocGlobal + Files + Clock, W: Write, E: Write>(
    rt: &H,
    words: &StreamWords<'_>,
    opened: &mut OpenStream<H::File>,
    json: bool,
    name: &str,
    output: &mut W,
    errors: &mut E,
) -> Result<bool, Trouble> {
    let metadata = opened.metadata.as_ref();
    let input = &mut opened.input;
    let is_whole = verify_input(rt, words, metadata, json, name, input, output, errors)?;
    let is_told = !words.talk.quiet || !is_whole;
    put_mapped_note(errors, name, &opened.input, is_told);
    Ok(is_whole)
}

// Prints whether a main stream and its channels are complete. Returns whether they are; `name` is
// printable.
fn judge_several<F: Read + OpenFile + Drop, W: Write, E: Write>(
    alloc: Global,
    words: &VerifyWords<'_>,
    name: &str,
    several: &Several<F>,
    output: &mut W,
    errors: &mut E,
) -> Result<bool, Trouble> {
    if words.json {
        put_several_json_line(alloc, output, name, several)?;
        return put_several_all_wrongs(alloc, errors, name, several);
    }
    put_several_verdict(alloc, output, errors, name, several, words.stream.talk)
}

// Reads a main stream and its channels, and prints whether they are complete. Returns whether they
// are; `name` is printable.
fn verify_several<H: AllocGlobal + Files + Clock, R: Read, W: Write, E: Write>(
    rt: &H,
    words: &VerifyWords<'_>,
    name: &str,
    input: &mut R,
    output: &mut W,
    errors: &mut E,
) -> Result<bool, Trouble> {
    let (read, _) = read_several(rt, &words.stream, &words.channels, input, NoSink, errors);
    let several = read?;
    judge_several(rt.alloc(), words, name, &several, output, errors)
}

// Reads `stream`, with the channels if there are some, and prints whether it is complete. Returns
// whether it is.
fn verify_stream<H: AllocGlobal + Files + Clock, R: Read, W: Write, E: Write>(
    rt: &H,
    words: &VerifyWords<'_>,
    stream: &StreamWords<'_>,
    input: &mut R,
    output: &mut W,
    errors: &mut E,
) -> Result<bool, Trouble> {
    let name = shown_name(rt.alloc(), stream.file)?;
    if words.channels.files.is_empty() {
        return verify_single(rt, stream, words.json, &name, input, output, errors);
    }
    verify_several(rt, words, &name, input, output, errors)
}

// Returns whether `trouble` ends the command, whatever files follow.
fn is_of_all(trouble: &Trouble) -> bool {
    matches!(
        trouble,
        Trouble::NoMemory | Trouble::Output(_) | Trouble::Words(_, _)
    )
}

// Writes the object of JSON for a file that can't be verified.
fn put_unread<W: Write>(
    alloc: Global,
    output: &mut W,
    name: &str,
    trouble: &Trouble,
) -> Result<(), Trouble> {
    let mut text = Vec::new(alloc);
    if put_message(&mut text, name, trouble).is_err() {
        return Err(Trouble::NoMemory);
    }
    let error = str::from_utf8(&text).unwrap_or("");
    let status = trouble_status(trouble);
    let object = json!(in alloc; {
        "file": name, "complete": false, "error": error, "status": status
    })?;
    let line = object.to_string(alloc)?;
    writeln!(output, "{line}").map_err(output_failed)
}

// Reports `trouble` of `file`. Returns the file's status, or `trouble` if it ends the command.
fn report<W: Write, E: Write>(
    alloc: Global,
    words: &VerifyWords<'_>,
    file: &str,
    trouble: Trouble,
    output: &mut W,
    errors: &mut E,
) -> Result<u8, Trouble>
    ensures { IfOk result (λ status. status ≤ 3) }
{
    if is_of_all(&trouble) {
        return Err(trouble);
    }
    if words.json {
        let name = shown_name(alloc, file)?;
        put_unread(alloc, output, &name, &trouble)?;
    }
    let _ = put_named_trouble(alloc, errors, file, &trouble);
    Ok(trouble_status(&trouble))
}

// Returns the status of a file that was read.
fn whole_status(is_whole: bool) -> u8
    ensures passed { result ≡ 0 ↔ IsTrue is_whole }
    ensures bound { result ≤ 1 }
{
    if is_whole { WELL } else { REFUSED }
}

// Verifies `file`. Returns its status.
fn verify_file<'a, H: AllocGlobal + Files + Clock, R: Read, W: Write, E: Write>(
    rt: &H,
    words: &VerifyWords<'a>,
    file: &'a str,
    input: &mut R,
    output: &mut W,
    errors: &mut E,
) -> Result<u8, Trouble> {
    let stream = words.stream_in(file);
    match verify_stream(rt, words, &stream, input, output, errors) {
        Ok(is_whole) => Ok(whole_status(is_whole)),
        Err(trouble) => report(rt.alloc(), words, file, trouble, output, errors),
    }
}

// What was found of a file that was read beside others.
#[derive(Drop)]
struct Found {
    // its status, or trouble that ends the command
    status: Result<u8, Trouble>,
    // what is printed of it
    output: Vec<u8>,
    errors: Vec<u8>,
}

// Verifies the file `number` in the arguments, which isn't the standard input, and keeps what is
// printed.
fn found_of<H: AllocGlobal + Files + Clock>(
    rt: &H,
    words: &VerifyWords<'_>,
    number: usize,
) -> Found {
    let mut nothing: &[u8] = &[];
    let mut output = Vec::new(rt.alloc());
    let mut errors = Vec::new(rt.alloc());
    let status = match words.files.get(number) {
        Some(file) => verify_file(rt, words, *file, &mut nothing, &mut output, &mut errors),
        None => Ok(FAILED),
    };
    Found {
        status,
        output,
        errors,
    }
}

// Verifies `count` files at once, from the file `first` in the arguments on.
fn found_at_once<H: AllocGlobal + Files + Clock + Threads + Sync>(
    rt: &H,
    words: &VerifyWords<'_>,
    first: usize,
    count: usize,
) -> Result<Vec<Found>, AllocError>
where
    H::File: Send + Sync,
    H::Dir: Send + Sync,
{
    (0..count)
        .into_par_iter()
        .with_min_len(1)
        .map(|i: usize| -> Found { found_of(rt, words, first.saturating_add(i)) })
        .collect(rt, rt.alloc())
}

// Verifies `count` files at once, from the file `first` in the arguments on. Prints what it found
// of each, in their order, and counts them.
fn verify_at_once<H: AllocGlobal + Files + Clock + Threads + Sync, W: Write, E: Write>(
    rt: &H,
    words: &VerifyWords<'_>,
    first: usize,
    count: usize,
    tally: &mut Tally,
    output: &mut W,
    errors: &mut E,
) -> Result<(), Trouble>
where
    H::File: Send + Sync,
    H::Dir: Send + Sync,
{
    for found in found_at_once(rt, words, first, count)? {
        output.write_all(&found.output).map_err(output_failed)?;
        let _ = errors.write_all(&found.errors);
        tally.add(found.status?);
    }
    Ok(())
}

// Verifies all files, `jobs` at once, and counts them.
fn verify_by_jobs<H: AllocGlobal + Files + Clock + Threads + Sync, W: Write, E: Write>(
    rt: &H,
    words: &VerifyWords<'_>,
    tally: &mut Tally,
    output: &mut W,
    errors: &mut E,
) -> Result<(), Trouble>
where
    H::File: Send + Sync,
    H::Dir: Send + Sync,
{
    let files = words.files.len();
    let mut first = 0;
    for _ in 0..files {
        if first >= files {
            break;
        }
        let count = words.jobs.min(files - first);
        verify_at_once(rt, words, first, count, tally, output, errors)?;
        first = first.saturating_add(words.jobs);
    }
    Ok(())
}

// Verifies all files, and returns how many have which status.
fn tally_of<H: AllocGlobal + Files + Clock + Threads + Sync, R: Read, W: Write, E: Write>(
    rt: &H,
    words: &VerifyWords<'_>,
    input: &mut R,
    output: &mut W,
    errors: &mut E,
) -> Result<Tally, Trouble>
where
    H::File: Send + Sync,
    H::Dir: Send + Sync,
{
    let mut tally = Tally::new();
    if words.jobs > 1 && words.files.len() > 1 {
        verify_by_jobs(rt, words, &mut tally, output, errors)?;
        return Ok(tally);
    }
    for file in &words.files {
        tally.add(verify_file(rt, words, *file, input, output, errors)?);
    }
    Ok(tally)
}

/// Verifies each file, and prints what it found of it: of several files also their sum. Returns the
/// exit status, that of the worst file: 3 if one can't be read, else 1 if one isn't complete.
///
/// # Errors
///
/// `Trouble::Words` of channels of several files, or the standard input twice, `Trouble::Output`
/// and `Trouble::NoMemory`: then no more files are read.
pub(crate) fn verify<H: AllocGlobal + Files + Clock + Threads + Sync, R: Read, W: Write, E: Write>(
    rt: &H,
    words: &VerifyWords<'_>,
    input: &mut R,
    output: &mut W,
    errors: &mut E,
) -> Result<u8, Trouble>
where
    H::File: Send + Sync,
    H::Dir: Send + Sync,
    ensures { IfOk result (λ status. status ≤ 3) }
{
    check_words(rt.alloc(), words)?;
    let tally = tally_of(rt, words, input, output, errors)?;
    let files = words.files.len();
    if files > 1 && !words.json && !words.stream.talk.quiet {
        tally.put(output, files).map_err(output_failed)?;
    }
    Ok(tally.status())
}
