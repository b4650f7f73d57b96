//! The program as a function of its arguments and the standard streams.

ghost use Rattle.std.specs.Prelude.{◌≤◌, IfOk};

use crate::comparing::compare;
use crate::extracting::extract;
use crate::opening::read_stream;
use crate::screen::{Screen, fitted};
use crate::troubles::{FAILED, REFUSED, WELL, WORDS, put_named_trouble, trouble_status};
use crate::verifying::verify;
use clap::Error;
use clap::error::ErrorKind;
use std::alloc::{AllocError, AllocGlobal, Global};
use std::fs::{Files, OpenFile};
use std::io::{self, Read, Write};
use std::rt::Clock;
use std::thread::Threads;
use zimgasol_files::{
    ChannelWords, Request, SaveWords, StreamWords, Trouble, Unasked, asked, shown_name, wrong,
};
use zimgasol_output::{
    put_all_wrongs, put_json, put_lines, put_several_all_wrongs, put_several_json,
    put_several_lines,
};
use zimgasol_reading::{NoSink, Several, Survey, read_several};
use zimgasol_saving::save;

/// Runs the program on the arguments after its name, and returns the exit status: 0 for success, 1
/// if something is refused or differs, `WORDS` or `FAILED`. `screen` is what is known of `output`.
///
/// Errors are written to `errors`. A failure to write to `errors` doesn't change the status.
pub fn run<H: AllocGlobal + Files + Clock + Threads + Sync, R: Read, W: Write, E: Write>(
    rt: &H,
    words: &[String],
    screen: Screen,
    input: &mut R,
    output: &mut W,
    errors: &mut E,
) -> u8
where
    H::File: Send + Sync,
    H::Dir: Send + Sync,
    ensures status { result ≤ 3 }
{
    match asked(rt.alloc(), words, screen.has_error_terminal) {
        Ok(request) => done(rt, &request, screen, input, output, errors),
        Err(Unasked::Said(error)) => said(rt.alloc(), screen, output, errors, &error),
        Err(Unasked::Trouble(trouble)) => {
            let _ = put_named_trouble(rt.alloc(), errors, "", &trouble);
            trouble_status(&trouble)
        }
    }
}

// Returns the text of `error`, the help in it fitted to `screen`.
fn text_of(alloc: Global, screen: Screen, error: &Error) -> Result<String, AllocError> {
    let text = format!(in alloc; "{error}")?;
    match error.kind() {
        ErrorKind::DisplayHelp | ErrorKind::DisplayHelpOnMissingArgumentOrSubcommand => {
            fitted(alloc, &text, screen.columns)
        }
        _ => Ok(text),
    }
}

// Prints help, the version, or the error in the arguments, and returns the exit status.
fn said<W: Write, E: Write>(
    alloc: Global,
    screen: Screen,
    output: &mut W,
    errors: &mut E,
    error: &Error,
) -> u8
    ensures { result ≤ 3 }
{
    if error.kind() == ErrorKind::OutOfMemory {
        return put_no_memory(errors);
    }
    match text_of(alloc, screen, error) {
        Ok(text) if error.use_stderr() => {
            let _ = write!(errors, "{text}");
            WORDS
        }
        Ok(text) => put_text(output, errors, &text),
        Err(_) => put_no_memory(errors),
    }
}

// Prints `text` to the standard output, and returns the exit status. A closed pipe has no message.
fn put_text<W: Write, E: Write>(output: &mut W, errors: &mut E, text: &str) -> u8
    ensures { result ≤ 3 }
{
    match write!(output, "{text}") {
        Ok(()) => WELL,
        Err(failed) => {
            if failed.kind() != io::ErrorKind::BrokenPipe {
                let _ = writeln!(errors, "zimgasol: the output: {failed}");
            }
            FAILED
        }
    }
}

// Writes that an allocation was refused, and returns the exit status.
fn put_no_memory<E: Write>(errors: &mut E) -> u8
    ensures { result ≤ 3 }
{
    let _ = writeln!(errors, "zimgasol: no memory");
    FAILED
}

// Returns whether `trouble` has no message: the reader of the output has closed it. A stream that
// `save` writes is then cut, which has one.
fn is_quiet(request: &Request<'_>, trouble: &Trouble) -> bool {
    let Trouble::Output(error) = trouble else {
        return false;
    };
    error.kind() == io::ErrorKind::BrokenPipe && !matches!(request, Request::Save(_))
}

// Saves the memory of blocks as a stream, but not to a terminal. Returns true.
fn save_to<H: AllocGlobal + Files + Clock, W: Write, E: Write>(
    rt: &H,
    words: &SaveWords<'_>,
    screen: Screen,
    output: &mut W,
    errors: &mut E,
) -> Result<bool, Trouble> {
    if words.file == "-" && screen.is_terminal {
        let why = "the standard output is a terminal; redirect it, or name a file";
        return Err(wrong(rt.alloc(), "OUT", words.file, why));
    }
    save(rt, words, output, errors)
}

// Returns the exit status of a command that found what it read well, or refused it.
fn status_of(is_well: Result<bool, Trouble>) -> Result<u8, Trouble>
    ensures { IfOk result (λ status. status ≤ 3) }
{
    match is_well {
        Ok(true) => Ok(WELL),
        Ok(false) => Ok(REFUSED),
        Err(trouble) => Err(trouble),
    }
}

// Executes `request`. Returns the exit status.
fn executed<H: AllocGlobal + Files + Clock + Threads + Sync, R: Read, W: Write, E: Write>(
    rt: &H,
    request: &Request<'_>,
    screen: Screen,
    input: &mut R,
    output: &mut W,
    errors: &mut E,
) -> Result<u8, Trouble>
where
    H::File: Send + Sync,
    H::Dir: Send + Sync,
    ensures { IfOk result (λ status. status ≤ 3) }
{
    match request {
        Request::Verify(words) => verify(rt, words, input, output, errors),
        Request::Inspect(words, channels, json) => {
            status_of(inspect(rt, words, channels, *json, input, output, errors))
        }
        Request::Extract(words, channels) => {
            status_of(extract(rt, words, channels, input, output, errors))
        }
        Request::Save(words) => status_of(save_to(rt, words, screen, output, errors)),
        Request::Compare(words) => status_of(compare(rt, words, input, output, errors)),
    }
}

// Returns the name of the file that trouble is about, if it names none.
fn file_of<'a>(request: &Request<'a>) -> &'a str {
    match request {
        Request::Verify(words) => words.stream.file,
        Request::Inspect(words, _, _) => words.file,
        Request::Extract(words, _) => words.stream.file,
        Request::Save(words) => words.file,
        Request::Compare(words) => words.second.file,
    }
}

// Executes `request`, reports its trouble, and returns the exit status.
fn done<H: AllocGlobal + Files + Clock + Threads + Sync, R: Read, W: Write, E: Write>(
    rt: &H,
    request: &Request<'_>,
    screen: Screen,
    input: &mut R,
    output: &mut W,
    errors: &mut E,
) -> u8
where
    H::File: Send + Sync,
    H::Dir: Send + Sync,
    ensures { result ≤ 3 }
{
    match executed(rt, request, screen, input, output, errors) {
        Ok(status) => status,
        Err(trouble) => {
            if !is_quiet(request, &trouble) {
                let _ = put_named_trouble(rt.alloc(), errors, file_of(request), &trouble);
            }
            trouble_status(&trouble)
        }
    }
}

// How the contents of a stream are listed.
#[derive(Clone, Copy)]
struct Listing<'a> {
    // the file's name, as it is printed
    name: &'a str,
    // whether as JSON, in place of lines
    json: bool,
}

// Reads a stream, with its channels, and lists what it has. Returns whether it is complete.
fn inspect<H: AllocGlobal + Files + Clock, R: Read, W: Write, E: Write>(
    rt: &H,
    words: &StreamWords<'_>,
    channels: &ChannelWords<'_>,
    json: bool,
    input: &mut R,
    output: &mut W,
    errors: &mut E,
) -> Result<bool, Trouble> {
    let name = shown_name(rt.alloc(), words.file)?;
    let listing = Listing { name: &name, json };
    if channels.is_single(rt.alloc())? {
        return inspect_single(rt, words, listing, input, output, errors);
    }
    inspect_several(rt, words, channels, listing, input, output, errors)
}

// Reads a single stream, and lists what it has. Returns whether it is complete.
fn inspect_single<H: AllocGlobal + Files + Clock, R: Read, W: Write, E: Write>(
    rt: &H,
    words: &StreamWords<'_>,
    listing: Listing<'_>,
    input: &mut R,
    output: &mut W,
    errors: &mut E,
) -> Result<bool, Trouble> {
    let (read, _sink) = read_stream(rt, words, input, NoSink, errors);
    let survey = read?;
    list_single(rt.alloc(), listing, &survey, output, errors)
}

// Lists what a single stream has. Returns whether it is complete.
fn list_single<W: Write, E: Write>(
    alloc: Global,
    listing: Listing<'_>,
    survey: &Survey,
    output: &mut W,
    errors: &mut E,
) -> Result<bool, Trouble> {
    if listing.json {
        put_json(alloc, output, listing.name, survey)?;
    } else {
        put_lines(alloc, output, listing.name, survey)?;
    }
    put_all_wrongs(alloc, errors, listing.name, survey)
}

// Reads a main stream and its channels, and lists what they have. Returns whether they are
// complete.
fn inspect_several<H: AllocGlobal + Files + Clock, R: Read, W: Write, E: Write>(
    rt: &H,
    words: &StreamWords<'_>,
    channels: &ChannelWords<'_>,
    listing: Listing<'_>,
    input: &mut R,
    output: &mut W,
    errors: &mut E,
) -> Result<bool, Trouble> {
    let (read, _) = read_several(rt, words, channels, input, NoSink, errors);
    let several = read?;
    list_several(rt.alloc(), listing, &several, output, errors)
}

// Lists what a main stream and its channels have. Returns whether they are complete.
fn list_several<F: Read + OpenFile + Drop, W: Write, E: Write>(
    alloc: Global,
    listing: Listing<'_>,
    several: &Several<F>,
    output: &mut W,
    errors: &mut E,
) -> Result<bool, Trouble> {
    if listing.json {
        put_several_json(alloc, output, listing.name, several)?;
    } else {
        put_several_lines(alloc, output, listing.name, several)?;
    }
    put_several_all_wrongs(alloc, errors, listing.name, several)
}
