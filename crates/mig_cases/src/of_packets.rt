//! Questions about the last stream as bytes, as a hello, a packet or a channel, as `mig_rows` asks
//! them.

use crate::again;
use crate::case::Case;
use crate::show::{put_bytes, put_channel_fault, put_channel_state, put_number, put_packet};
use crate::trouble::{Done, Trouble};
use mig_mem::is_page_size;
use mig_packet::{ChannelReader, HelloRead, PacketRead, read_hello, read_packet};

/// Writes the answer to such a question. Returns false if the question is another one.
pub fn ask_packets(out: &mut String, case: &Case, name: &str) -> Result<bool, Trouble> {
    let text: &[u8] = case.texts.last().ok_or(Trouble::Line)?;
    let answered = match name {
        "length" => put_number(out, text.len() as u64),
        "bytes" => put_bytes(out, text),
        "read_channel" => read_channel(out, case, text),
        "read_hello" => ask_hello(out, case, text),
        "read_packet" => ask_packet(out, case, text),
        _ => return Ok(false),
    };
    answered?;
    Ok(true)
}

/// Keeps the answer of a call, which has to be the same in all pieces in which a stream is fed.
pub fn agree(wanted: &mut String, answer: &str, len: usize) -> Done {
    if wanted.is_empty() {
        wanted.push_str(answer)?;
    } else if wanted.as_str() != answer {
        write!(wanted, ", but in pieces of {len} {answer}")?;
    }
    Ok(())
}

/// Writes the number of bytes fed, if it isn't the stream's length.
pub fn put_fed(out: &mut String, fed: u64, text: &[u8]) -> Done {
    if fed != text.len() as u64 {
        out.push_str("; fed ")?;
        put_number(out, fed)?;
    }
    Ok(())
}

/// Creates a reader, and feeds it a channel in pieces of `len` bytes, with the settings of the
/// case.
pub fn reader_of_channel(case: &Case, text: &[u8], len: usize) -> Result<ChannelReader, Trouble> {
    if !is_page_size(case.page_size) || case.channels < 1 || case.channels > 255 {
        return Err(Trouble::Line);
    }
    let mut reader = ChannelReader::new(case.alloc, case.page_size, case.uuid, case.channels);
    for piece in text.chunks(len.max(1)) {
        feed(&mut reader, piece)?;
    }
    if case.is_over {
        reader.end();
    }
    Ok(reader)
}

fn read_channel(out: &mut String, case: &Case, text: &[u8]) -> Done {
    for len in &case.pieces {
        let len = if *len == 0 { text.len() } else { *len };
        let mut reader = reader_of_channel(case, text, len)?;
        let mut answer = String::new(case.alloc);
        put_channel(&mut answer, &mut reader)?;
        put_fed(&mut answer, reader.fed(), text)?;
        agree(out, &answer, len)?;
    }
    Ok(())
}

// Feeds a piece, unless the channel has ended or is too long.
fn feed(reader: &mut ChannelReader, piece: &[u8]) -> Done {
    if reader.ended() || reader.fed().checked_add(piece.len() as u64).is_none() {
        return Err(Trouble::Line);
    }
    again!(reader.feed(piece))?;
    Ok(())
}

// Writes the content of a channel that a reader has read.
fn put_channel(out: &mut String, reader: &mut ChannelReader) -> Done {
    put_channel_state(out, reader.state())?;
    match reader.hello_id() {
        Some(id) => write!(out, "; hello {id};")?,
        None => out.push_str("; no hello;")?,
    }
    let mut before = "";
    for _ in 0..u64::MAX {
        let Some(round) = again!(reader.take_round())? else {
            break;
        };
        out.push_str(before)?;
        before = " |";
        for packet in &round.packets()? {
            put_packet(out, packet)?;
        }
    }
    if before.is_empty() {
        out.push_str(" no round")?;
    }
    Ok(())
}

fn ask_hello(out: &mut String, case: &Case, text: &[u8]) -> Done {
    match read_hello(text, &case.uuid, case.channels) {
        HelloRead::Whole(id) => write!(out, "whole {id}")?,
        HelloRead::Cut => out.push_str("cut")?,
        HelloRead::Bad(fault) => put_channel_fault(out, fault)?,
    }
    Ok(())
}

fn ask_packet(out: &mut String, case: &Case, text: &[u8]) -> Done {
    if !is_page_size(case.page_size) {
        return Err(Trouble::Line);
    }
    match read_packet(case.page_size, text) {
        PacketRead::Whole(packet, len) => {
            write!(out, "whole {len}")?;
            put_packet(out, &packet)?;
        }
        PacketRead::Cut => out.push_str("cut")?,
        PacketRead::Bad(fault) => put_channel_fault(out, fault)?,
    }
    Ok(())
}
