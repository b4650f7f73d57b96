//! Opens the file that a command reads, and reads the single stream in it. A file with mapped-ram is
//! read as the plain stream of the same memory.

ghost use Rattle.mig_mem.specs.PageSize.{IsPageSize};

use std::alloc::{AllocGlobal, Global};
use std::fs::{File, Files, Metadata, OpenFile};
use std::io::{Read, Seek, Write};
use std::rt::Clock;
use zimgasol_files::{StreamWords, Trouble, shown_name};
use zimgasol_mapped::{Input, Placed, PlacedFile, open_input};
use zimgasol_reading::{GuestSink, Survey, fault_of, read_input};

/// A file that is open as a stream.
#[derive(Drop)]
pub(crate) struct OpenStream<F: Read + Seek + Drop> {
    /// The bytes of the stream.
    pub(crate) input: Input<Placed<F>>,
    /// That of the file, if its bytes are those of the stream.
    pub(crate) metadata: Option<Metadata>,
}

// Opens `file` as a stream. `metadata` is its own.
fn opened<F: Read + Seek + Drop>(
    alloc: Global,
    file: F,
    page_size: u64,
    metadata: Option<Metadata>,
) -> Result<OpenStream<F>, Trouble>
    requires { IsPageSize page_size }
{
    match metadata {
        Some(metadata) if metadata.is_file() => {
            let file = Placed::new(file, metadata.len());
            let input = open_input(alloc, file, page_size)?;
            let metadata = if input.is_mapped() {
                None
            } else {
                Some(metadata)
            };
            Ok(OpenStream { input, metadata })
        }
        metadata => Ok(OpenStream {
            input: Input::AsItIs(Placed::new(file, 0)),
            metadata,
        }),
    }
}

/// Opens the file of `words` as a stream: that of a file with mapped-ram is the plain stream of the
/// same memory. A pipe is read as it is.
///
/// # Errors
///
/// `Trouble::Unread` if the file can't be opened or read, `Trouble::Fault` of a block's head, and
/// `Trouble::NoMemory`.
pub(crate) fn open_stream<H: AllocGlobal + Files>(
    rt: &H,
    words: &StreamWords<'_>,
) -> Result<OpenStream<H::File>, Trouble> {
    let file = File::open(rt, words.file).map_err(Trouble::Unread)?;
    let metadata = file.metadata().ok();
    opened(rt.alloc(), file, words.page_size.bytes(), metadata)
}

/// Notes that bytes of a file with mapped-ram are counted in its plain stream. It is written if
/// `is_told`: if the result names a byte.
pub(crate) fn put_mapped_note<F: PlacedFile + Drop, E: Write>(
    errors: &mut E,
    name: &str,
    input: &Input<F>,
    is_told: bool,
) {
    if input.is_mapped() && is_told {
        let _ = writeln!(
            errors,
            "zimgasol: {name}: note: a file with mapped-ram; bytes are counted in the plain stream of its memory"
        );
    }
}

// Reads the stream of `opened`, and passes its pages to `sink`, which it returns.
fn read_opened<H: AllocGlobal + Files + Clock, S: GuestSink<H> + Drop, E: Write>(
    rt: &H,
    words: &StreamWords<'_>,
    opened: &mut OpenStream<H::File>,
    sink: S,
    errors: &mut E,
) -> (Result<Survey, Trouble>, S) {
    let metadata = opened.metadata.as_ref();
    read_input(rt, words, metadata, &mut opened.input, sink, errors)
}

// Notes how bytes are counted, if the result on `survey` names one.
fn note_bytes<F: PlacedFile + Drop, E: Write>(
    alloc: Global,
    words: &StreamWords<'_>,
    input: &Input<F>,
    survey: &Survey,
    errors: &mut E,
) -> Result<(), Trouble> {
    let name = shown_name(alloc, words.file)?;
    let is_told = !words.talk.quiet || fault_of(survey).is_some();
    put_mapped_note(errors, &name, input, is_told);
    Ok(())
}

/// Reads the single stream in the file of `words`, or in `input` if that is its name, and passes
/// its pages to `sink`, which it returns. A fault of the stream is no error: the survey has it.
///
/// # Errors
///
/// Those of `open_stream` and `read_input`.
pub(crate) fn read_stream<
    H: AllocGlobal + Files + Clock,
    R: Read,
    S: GuestSink<H> + Drop,
    E: Write,
>(
    rt: &H,
    words: &StreamWords<'_>,
    input: &mut R,
    sink: S,
    errors: &mut E,
) -> (Result<Survey, Trouble>, S) {
    if words.file == "-" {
        return read_input(rt, words, None, input, sink, errors);
    }
    let mut opened = match open_stream(rt, words) {
        Ok(opened) => opened,
        Err(trouble) => return (Err(trouble), sink),
    };
    let (read, sink) = read_opened(rt, words, &mut opened, sink, errors);
    let survey = match read {
        Ok(survey) => survey,
        Err(trouble) => return (Err(trouble), sink),
    };
    match note_bytes(rt.alloc(), words, &opened.input, &survey, errors) {
        Ok(()) => (Ok(survey), sink),
        Err(trouble) => (Err(trouble), sink),
    }
}
