//! The valid prefix of a stream's bytes, fed byte by byte. The lengths of its items are counted by
//! hand, as `docs/use/FORMATS.md` lists them.

use crate::building::{FRAMES, closed_at, followed};
use mig_load_types::LoadSettings;
use mig_mem::{MAX_TOTAL, PAGE_SIZE_4K};
use mig_single_load::load_single_with;
use mig_stream::{Frame, Mode, StreamReader};
use std::alloc::Global;

// The items of the stream of two rounds: the file header, and then a section in each line, except
// for the end byte. A section begins with its type byte and ends with EOS and a footer.
const OF_RAM: [usize; 31] = [
    8, //
    1, 16, 8, 10, 15, 8, 5, //
    1, 4, 8, 2, 1, 8, 4096, 8, 7, 1, 8, 5, //
    1, 4, 8, 1, 8, 5, //
    1, 4, 8, 5, //
    1,
];

// Those of a machine's stream. The configuration, its three subsections, the last of them with a
// capability, and a COMMAND precede START. Another COMMAND precedes END.
const OF_MACHINE: [usize; 47] = [
    8, //
    1, 4, 2, 1, 35, 4, 1, 23, 16, 1, 31, 4, 3, 1, 4, //
    1, 16, 8, 10, 15, 8, 5, //
    1, 4, 8, 2, 1, 8, 4096, 8, 7, 1, 8, 5, //
    1, 4, 8, 1, 8, 5, //
    1, 4, //
    1, 4, 8, 5,
];

// Returns the number of the first `len` bytes that are complete items.
fn whole(items: &[usize], len: usize) -> u64 {
    let mut sum = 0usize;
    for item in items {
        let next = sum.saturating_add(*item);
        if next > len {
            break;
        }
        sum = next;
    }
    sum as u64
}

// Returns whether the complete items of a stream are found after each of its bytes.
fn are_found(alloc: Global, frame: Frame, stream: &[u8], items: &[usize]) -> bool {
    let mut reader = StreamReader::new_with(
        alloc,
        frame,
        Mode::Single,
        PAGE_SIZE_4K,
        MAX_TOTAL,
        None,
    );
    for (i, byte) in stream.iter().enumerate() {
        if reader.ended() || reader.fed() > MAX_TOTAL || reader.feed(&[*byte]).is_err() {
            return false;
        }
        if reader.valid_up_to() != whole(items, i.saturating_add(1)) {
            return false;
        }
    }
    reader.closed_at() == Some(reader.valid_up_to())
}

#[test]
fn byte_by_byte(rt: HostRuntime) {
    assert!(rt; are_found(rt.alloc(), Frame::Ram, &followed(&rt, Frame::Ram), &OF_RAM));
    let stream = followed(&rt, Frame::Machine);
    assert!(rt; are_found(rt.alloc(), Frame::Machine, &stream, &OF_MACHINE));
}

// Returns whether a complete stream is valid up to `wanted`, in a frame.
fn is_valid_up_to(alloc: Global, frame: Frame, stream: &[u8], wanted: u64) -> bool {
    let settings = LoadSettings::new(PAGE_SIZE_4K, MAX_TOTAL).with_frame(frame);
    load_single_with(alloc, settings, stream).valid_up_to == Some(wanted)
}

// Returns whether a reader that is made of RAM's sections alone is closed at `wanted`.
fn is_closed_at(alloc: Global, stream: &[u8], wanted: u64) -> bool {
    match StreamReader::of_text(alloc, Mode::Single, PAGE_SIZE_4K, MAX_TOTAL, stream) {
        Ok(reader) => reader.closed_at() == Some(wanted) && reader.valid_up_to() == wanted,
        Err(_) => false,
    }
}

// Bytes after the stream don't count.
#[test]
fn of_the_complete_stream(rt: HostRuntime) {
    for frame in FRAMES {
        let stream = followed(&rt, frame);
        assert!(rt; is_valid_up_to(rt.alloc(), frame, &stream, closed_at(frame)));
    }
    assert!(rt; is_closed_at(rt.alloc(), &followed(&rt, Frame::Ram), 4266));
}
