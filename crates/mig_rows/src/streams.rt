//! Questions about the last stream of a case.

use crate::show::{put_loaded, put_records, put_stream_state};
use mig_cases::{Case, Done, Trouble, again, agree, put_fed, put_table};
use mig_load_types::{Fault, FeedFault, LoadSettings};
use mig_mem::{MAX_TOTAL, is_page_size};
use mig_single_load::{SingleLoader, load_single, load_single_with};
use mig_stream::{Frame, Mode, StreamReader, StreamRound, StreamState};
use std::alloc::Global;

/// Writes the answer to such a question. Returns false if the question is another one.
pub fn ask_stream(out: &mut String, case: &Case, name: &str) -> Result<bool, Trouble> {
    let text: &[u8] = case.texts.last().ok_or(Trouble::Line)?;
    let answered = match name {
        "read_single" => read(out, case, Mode::Single, text),
        "read_main" => read(out, case, Mode::Main, text),
        "load_single" => load(out, case, text),
        "closed_single" => closed(out, case, text),
        _ => return Ok(false),
    };
    answered?;
    Ok(true)
}

fn load(out: &mut String, case: &Case, text: &[u8]) -> Done {
    if !is_page_size(case.page_size) || case.limit > MAX_TOTAL {
        return Err(Trouble::Line);
    }
    let loaded = if case.is_machine {
        let settings = LoadSettings::new(case.page_size, case.limit).with_frame(Frame::Machine);
        load_single_with(case.alloc, settings, text)
    } else {
        load_single(case.alloc, case.page_size, text, case.limit)
    };
    put_loaded(out, &loaded)
}

// Writes the byte at which the stream is closed as a single stream: by the complete bytes, and by a
// loader that is fed in pieces.
fn closed(out: &mut String, case: &Case, text: &[u8]) -> Done {
    for len in &case.pieces {
        let len = if *len == 0 { text.len().max(1) } else { *len };
        let mut answer = String::new(case.alloc);
        closed_in_pieces(&mut answer, case, text, len)?;
        agree(out, &answer, len)?;
    }
    if !is_page_size(case.page_size) || case.limit > MAX_TOTAL {
        return Err(Trouble::Line);
    }
    let settings = LoadSettings::new(case.page_size, case.limit).with_frame(frame_of(case));
    let mut answer = String::new(case.alloc);
    let loaded = load_single_with(case.alloc, settings, text);
    match loaded.verdict {
        Err(found) if found.fault == Fault::NoMemory => return Err(Trouble::NoMemory),
        _ => put_place_closed(&mut answer, loaded.closed_at)?,
    }
    agree_of_text(out, &answer)
}

// Writes the byte at which a loader that is fed in pieces of `len` bytes finds the stream closed.
fn closed_in_pieces(out: &mut String, case: &Case, text: &[u8], len: usize) -> Done {
    if !is_page_size(case.page_size) || case.limit > MAX_TOTAL {
        return Err(Trouble::Line);
    }
    let settings = LoadSettings::new(case.page_size, case.limit).with_frame(frame_of(case));
    let mut loader = SingleLoader::new(case.alloc, settings);
    for piece in text.chunks(len.max(1)) {
        feed_loader(&mut loader, piece)?;
    }
    put_place_closed(out, loader.closed_at())
}

// Feeds a piece to a loader, unless it has ended or the stream is too long. A piece that was
// refused is fed again, and what waits for the guest's memory is settled.
fn feed_loader(loader: &mut SingleLoader, piece: &[u8]) -> Done {
    for _ in 0..2 {
        if loader.ended() || loader.fed() > MAX_TOTAL || piece.len() as u64 > MAX_TOTAL {
            return Err(Trouble::Line);
        }
        match loader.feed(piece) {
            Ok(()) => return Ok(()),
            Err(FeedFault::NoMemory) => {}
            Err(FeedFault::NoGuestMemory) => return Ok(loader.settle()?),
        }
    }
    Err(Trouble::NoMemory)
}

// Writes the length of a stream, or `none`.
fn put_place_closed(out: &mut String, closed_at: Option<u64>) -> Done {
    match closed_at {
        Some(len) => Ok(write!(out, "{len}")?),
        None => Ok(out.push_str("none")?),
    }
}

// Returns the frame that a stream is read in.
fn frame_of(case: &Case) -> Frame {
    if case.is_machine {
        Frame::Machine
    } else {
        Frame::Ram
    }
}

/// Creates a reader with the settings of the case.
pub fn reader_of(case: &Case, mode: Mode) -> Result<StreamReader<'static>, Trouble> {
    if !is_page_size(case.page_size) || case.limit > MAX_TOTAL {
        return Err(Trouble::Line);
    }
    let frame = frame_of(case);
    Ok(StreamReader::new_with(case.alloc, frame, mode, case.page_size, case.limit, None))
}

/// Feeds a piece, unless the stream has ended or is too long.
pub fn feed(reader: &mut StreamReader, piece: &[u8]) -> Done {
    if reader.ended() || reader.fed().checked_add(piece.len() as u64).is_none() {
        return Err(Trouble::Line);
    }
    again!(reader.feed(piece))?;
    Ok(())
}

/// Returns the complete rounds that a reader has, START's first.
pub fn rounds_of<'a>(
    alloc: Global,
    reader: &mut StreamReader<'a>,
) -> Result<Vec<StreamRound<'a>>, Trouble> {
    let mut rounds = Vec::new(alloc);
    for _ in 0..u64::MAX {
        match again!(reader.take_round())? {
            Some(round) => rounds.push(round)?,
            None => return Ok(rounds),
        }
    }
    Err(Trouble::Line)
}

fn read(out: &mut String, case: &Case, mode: Mode, text: &[u8]) -> Done {
    for len in &case.pieces {
        let len = if *len == 0 { text.len().max(1) } else { *len };
        let mut answer = String::new(case.alloc);
        read_in_pieces(&mut answer, case, mode, text, len)?;
        agree(out, &answer, len)?;
    }
    let mut answer = String::new(case.alloc);
    read_of_text(&mut answer, case, mode, text)?;
    agree_of_text(out, &answer)
}

// Keeps the answer if a reader that is made of the complete stream returns it, too.
fn agree_of_text(wanted: &mut String, answer: &str) -> Done {
    if wanted.as_str() != answer {
        write!(wanted, ", but of the text itself {answer}")?;
    }
    Ok(())
}

// Writes the content found by a reader that is made of the complete stream, and whose rounds lend
// the stream's pages.
fn read_of_text(out: &mut String, case: &Case, mode: Mode, text: &[u8]) -> Done {
    if !is_page_size(case.page_size) || case.limit > MAX_TOTAL {
        return Err(Trouble::Line);
    }
    let frame = frame_of(case);
    let mut reader = StreamReader::of_text_with(
        case.alloc,
        frame,
        mode,
        case.page_size,
        case.limit,
        None,
        text,
    )?;
    put_reader(out, case, &mut reader, text)
}

// Writes the content found by a reader that is fed the stream in pieces of `len` bytes.
fn read_in_pieces(out: &mut String, case: &Case, mode: Mode, text: &[u8], len: usize) -> Done {
    let mut reader = reader_of(case, mode)?;
    for piece in text.chunks(len.max(1)) {
        feed(&mut reader, piece)?;
    }
    put_reader(out, case, &mut reader, text)
}

// Writes the content that a reader of a stream has found. The reader has ended if the case says so.
fn put_reader(out: &mut String, case: &Case, reader: &mut StreamReader, text: &[u8]) -> Done {
    if case.is_over {
        reader.end();
    }
    put_stream_state(out, reader.state())?;
    put_closed_at(out, reader, text)?;
    out.push_str(";")?;
    put_stream(out, reader)?;
    put_fed(out, reader.fed(), text)
}

// Writes the byte at which a reader closed a stream, unless that is after its last byte.
fn put_closed_at(out: &mut String, reader: &StreamReader, text: &[u8]) -> Done {
    let is_closed = reader.state() == StreamState::Closed;
    match reader.closed_at() {
        Some(at) if is_closed && at == text.len() as u64 => Ok(()),
        Some(at) => Ok(write!(out, " at {at}")?),
        None if is_closed => Ok(out.push_str(" nowhere")?),
        None => Ok(()),
    }
}

// Writes the table and the rounds that a reader of a stream has found.
fn put_stream(out: &mut String, reader: &mut StreamReader) -> Done {
    match reader.table() {
        Some(table) => put_table(out, table)?,
        None => out.push_str(" no table")?,
    }
    out.push_str(";")?;
    let rounds = rounds_of(*out.allocator(), reader)?;
    if rounds.is_empty() {
        out.push_str(" no round")?;
    }
    for (i, round) in rounds.iter().enumerate() {
        if i > 0 {
            out.push_str(" |")?;
        }
        put_records(out, round)?;
    }
    Ok(())
}
