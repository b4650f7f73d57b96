//! Reports of what a machine's stream has beside its page records, read in pieces. The bytes of the
//! items are counted by hand, as `docs/use/FORMATS.md` lists them.

ghost use Rattle.std.specs.Prelude.{IfSome};
ghost use Rattle.mig_stream.specs.Giving.{HasNoneLeft};

use crate::building::followed;
use mig_mem::{MAX_TOTAL, PAGE_SIZE_4K};
use mig_stream::{
    Frame, ItemKind, Mode, Pause, RecordEvent, RecordReader, Report, StreamReader, StreamState,
};
use std::alloc::Global;

// What the stream of two rounds has, a section in each line after the first two: the file header,
// the configuration with its three subsections, a COMMAND, START, two PARTs, a COMMAND and END.
const ITEMS: [(u64, ItemKind); 37] = [
    (0, ItemKind::FileHeader),
    (8, ItemKind::Configuration),
    (9, ItemKind::NameLength),
    (13, ItemKind::Name),
    (15, ItemKind::Subsection),
    (16, ItemKind::SubsectionName),
    (51, ItemKind::PageBits),
    (55, ItemKind::Subsection),
    (56, ItemKind::SubsectionName),
    (79, ItemKind::Uuid),
    (95, ItemKind::Subsection),
    (96, ItemKind::SubsectionName),
    (127, ItemKind::CapabilityCount),
    (131, ItemKind::Capability),
    (134, ItemKind::Command),
    (135, ItemKind::CommandBody),
    (139, ItemKind::Start),
    (140, ItemKind::StartHead),
    (156, ItemKind::SizeList),
    (164, ItemKind::ListEntry),
    (174, ItemKind::ListEntry),
    (189, ItemKind::EndOfSection),
    (197, ItemKind::Footer),
    (202, ItemKind::Part),
    (203, ItemKind::SectionHead),
    (4338, ItemKind::EndOfSection),
    (4346, ItemKind::Footer),
    (4351, ItemKind::Part),
    (4352, ItemKind::SectionHead),
    (4365, ItemKind::EndOfSection),
    (4373, ItemKind::Footer),
    (4378, ItemKind::Command),
    (4379, ItemKind::CommandBody),
    (4383, ItemKind::End),
    (4384, ItemKind::SectionHead),
    (4388, ItemKind::EndOfSection),
    (4396, ItemKind::Footer),
];

// Returns whether a report has these items, and the bytes of each as they are in the stream.
fn has_items(report: &Report, stream: &[u8], items: &[(u64, ItemKind)]) -> bool {
    if report.len() != items.len() {
        return false;
    }
    for (i, (at, kind)) in items.iter().enumerate() {
        if i >= report.len() {
            return false;
        }
        let item = report.item(i);
        let from = stream.get(item.at as usize..).unwrap_or(&[]);
        if item.at != *at || item.kind != *kind || !from.starts_with(item.bytes) {
            return false;
        }
    }
    true
}

// Returns whether a reader that is fed pieces of `len` bytes reports these items.
fn is_fed(alloc: Global, stream: &[u8], len: usize) -> bool {
    let mut report = Report::new(alloc);
    let mut reader = StreamReader::new_with(
        alloc,
        Frame::Machine,
        Mode::Single,
        PAGE_SIZE_4K,
        MAX_TOTAL,
        None,
    );
    for piece in stream.chunks(len.max(1)) {
        if reader.ended()
            || reader.fed() > MAX_TOTAL
            || piece.len() > 8192
            || reader.feed_reporting(piece, &mut report).is_err()
        {
            return false;
        }
    }
    report.at() == reader.valid_up_to() && has_items(&report, stream, &ITEMS)
}

// Reads on up to the end of a piece. Returns the state there; None without memory.
fn end_of_piece(reader: &mut RecordReader<'_>, report: &mut Report) -> Option<StreamState>
    ensures { IfSome result (λ found. HasNoneLeft found reader.new) }
{
    for _ in 0..u64::MAX {
        match reader.read_on_reporting(report) {
            Ok(RecordEvent::End(found)) => return Some(found),
            Ok(_) => {}
            Err(_) => return None,
        }
    }
    None
}

// Reads a stream in pieces of `len` bytes. Returns whether it is closed.
fn read_on(alloc: Global, stream: &[u8], len: usize, report: &mut Report) -> bool {
    let mut pause = Pause::new(alloc, Frame::Machine, PAGE_SIZE_4K, MAX_TOTAL, None);
    for piece in stream.chunks(len.max(1)) {
        let mut reader = pause.resume(piece);
        match end_of_piece(&mut reader, report) {
            Some(StreamState::Reading) => {}
            Some(StreamState::Closed) => return true,
            _ => return false,
        }
        match reader.pause() {
            Ok(next) => pause = next,
            Err(_) => return false,
        }
    }
    false
}

// Returns whether a reader that gives records reports these items.
fn is_given(alloc: Global, stream: &[u8], len: usize) -> bool {
    let mut report = Report::new(alloc);
    read_on(alloc, stream, len, &mut report) && has_items(&report, stream, &ITEMS)
}

#[test]
fn of_a_machine(rt: HostRuntime) {
    let stream = followed(&rt, Frame::Machine);
    for len in [1, 5, 64, 8192] {
        assert!(rt; is_fed(rt.alloc(), &stream, len));
        assert!(rt; is_given(rt.alloc(), &stream, len));
    }
}
