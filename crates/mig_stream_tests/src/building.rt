//! Builds the streams of these tests. A test fails at once if something can't be built. The
//! prover's time for a function grows fast with the number of values that it owns, so each function
//! owns few.

use mig_fixtures::{at, places_of, set, zeroed};
use mig_mem::{Dirty, Memory, Place, Table};
use mig_send::SingleSender;
use mig_stream::Frame;
use std::alloc::{AllocGlobal, Global};
use std::process::Abort;

/// The blocks of most tests.
pub(crate) const BLOCKS: [(&str, u64); 2] = [("a", 2), ("pc.ram", 65)];

/// Both frames.
pub(crate) const FRAMES: [Frame; 2] = [Frame::Ram, Frame::Machine];

/// Returns a memory of those blocks with zeros, except for one byte, 7.
pub(crate) fn image_with(rt: &(impl AllocGlobal + Abort), block: usize, offset: u64) -> Memory {
    let mut image = zeroed(rt.alloc(), &BLOCKS).expect(rt, "a memory");
    assert!(rt; set(&mut image, block, offset, 7));
    image
}

/// Returns a set of some pages of a table.
pub(crate) fn dirty_of(rt: &(impl AllocGlobal + Abort), table: &Table, places: &[Place]) -> Dirty {
    places_of(rt.alloc(), table, places).expect(rt, "a set")
}

// Returns the stream of an image, with a section for each of these sets.
fn stream_of(alloc: Global, image: &Memory, rounds: &[Dirty]) -> Option<Vec<u8>> {
    let mut sender = SingleSender::new(alloc, image.table()).ok()?;
    for dirty in rounds {
        sender.round(image, dirty).ok()?;
    }
    sender.finish().ok()
}

/// Returns the stream of two rounds: page 0 of `a` as zeros, page 1 with the first byte 7 and page
/// 64 of `pc.ram` as zeros; and that page again. Its sections have 8, 63, 4149, 27 and 18 bytes,
/// and the end byte follows.
pub(crate) fn two_rounds(rt: &(impl AllocGlobal + Abort)) -> Vec<u8> {
    let image = image_with(rt, 0, 4096);
    let rounds = [
        dirty_of(rt, image.table(), &[at(0, 0), at(0, 1), at(1, 64)]),
        dirty_of(rt, image.table(), &[at(1, 64)]),
    ];
    stream_of(rt.alloc(), &image, &rounds).expect(rt, "a stream")
}

// What QEMU may write before START: the configuration `pc` with all its subsections, of which the
// last has one capability, and OPEN_RETURN_PATH.
const BEFORE_START: [&[u8]; 9] = [
    b"\x07\x00\x00\x00\x02pc",
    b"\x05\x1econfiguration/target-page-bits",
    b"\x00\x00\x00\x01\x00\x00\x00\x0c",
    b"\x05\x12configuration/uuid",
    b"\x00\x00\x00\x01\x01\x02\x03\x04\x05\x06\x07\x08\x09\x0a\x0b\x0c\x0d\x0e\x0f\x10",
    b"\x05\x1aconfiguration/capabilities",
    b"\x00\x00\x00\x01\x00\x00\x00\x01",
    b"\x02xy",
    b"\x08\x00\x01\x00\x00",
];

const SWITCHOVER_START: &[u8] = b"\x08\x00\x0b\x00\x00";

// The beginning of a device's section, after RAM's END.
const DEVICE: &[u8] = b"\x04\x00\x00\x00\x02\x05timer";

// What follows the end byte of RAM's sections alone.
const DESCRIPTION: &[u8] = b"\x06\x00\x00\x00\x02{}";

// Returns some bytes one after another.
fn joined(alloc: Global, parts: &[&[u8]]) -> Option<Vec<u8>> {
    let mut bytes = Vec::new(alloc);
    for part in parts {
        bytes.extend_from_slice(part).ok()?;
    }
    Some(bytes)
}

// Returns a stream in a frame with bytes after the place at which it is closed. A machine's stream
// has COMMANDs and a configuration, and a device's section in place of the end byte.
fn in_frame(alloc: Global, frame: Frame, ram: &[u8]) -> Option<Vec<u8>> {
    if frame == Frame::Ram {
        return joined(alloc, &[ram, DESCRIPTION]);
    }
    let (header, rest) = ram.split_at_checked(8)?;
    let (sections, end) = rest.split_at_checked(rest.len().checked_sub(19)?)?;
    let end = end.strip_suffix(b"\x00")?;
    let before = joined(alloc, &BEFORE_START)?;
    joined(
        alloc,
        &[header, &before, sections, SWITCHOVER_START, end, DEVICE],
    )
}

/// Returns the stream of two rounds in a frame, with bytes after the place at which it is closed.
pub(crate) fn followed(rt: &(impl AllocGlobal + Abort), frame: Frame) -> Vec<u8> {
    in_frame(rt.alloc(), frame, &two_rounds(rt)).expect(rt, "a stream")
}

/// Returns where that stream is closed. Before START of a machine are 131 bytes, and before END 5.
pub(crate) fn closed_at(frame: Frame) -> u64 {
    match frame {
        Frame::Ram => 8 + 63 + 4149 + 27 + 18 + 1,
        Frame::Machine => 8 + 131 + 63 + 4149 + 27 + 5 + 18,
    }
}
