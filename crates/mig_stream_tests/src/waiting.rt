//! A limit on the page records that wait for the end of their section: the place of the first
//! record above it.

use crate::building::two_rounds;
use mig_mem::{MAX_TOTAL, NoMemory, PAGE_SIZE_4K};
use mig_stream::{Frame, Mode, StreamFault, StreamReader, StreamState};
use std::alloc::Global;

const WAITING: StreamState = StreamState::Bad(StreamFault::Waiting);

// The state of a stream, and its valid prefix.
type Read = (StreamState, u64);

// Reads a complete stream, a section of which may have `most` records.
fn read_at_once(alloc: Global, most: u64, stream: &[u8]) -> Result<Read, NoMemory> {
    let reader = StreamReader::of_text_with(
        alloc,
        Frame::Ram,
        Mode::Single,
        PAGE_SIZE_4K,
        MAX_TOTAL,
        Some(most),
        stream,
    )?;
    Ok((reader.state(), reader.valid_up_to()))
}

// Reads it in pieces of 7 bytes.
fn read_in_pieces(alloc: Global, most: u64, stream: &[u8]) -> Option<Read> {
    let mut reader = StreamReader::new_with(
        alloc,
        Frame::Ram,
        Mode::Single,
        PAGE_SIZE_4K,
        MAX_TOTAL,
        Some(most),
    );
    for piece in stream.chunks(7) {
        if reader.ended() || reader.fed() > MAX_TOTAL || piece.len() > 7 {
            return None;
        }
        reader.feed(piece).ok()?;
    }
    Some((reader.state(), reader.valid_up_to()))
}

// Returns whether a stream is read so, at once and in pieces.
fn is_read(alloc: Global, most: u64, stream: &[u8], wanted: Read) -> bool {
    read_at_once(alloc, most, stream) == Ok(wanted)
        && read_in_pieces(alloc, most, stream) == Some(wanted)
}

// The first section of pages begins with byte 71, and has three records, whose heads are at bytes
// 76, 87 and 4191; the second has one.
const LIMITS: [(u64, Read); 4] = [
    (0, (WAITING, 76)),
    (1, (WAITING, 87)),
    (2, (WAITING, 4191)),
    (3, (StreamState::Closed, 4266)),
];

#[test]
fn records_that_fit_and_one_more(rt: HostRuntime) {
    let stream = two_rounds(&rt);
    for (most, wanted) in LIMITS {
        assert!(rt; is_read(rt.alloc(), most, &stream, wanted));
    }
}
