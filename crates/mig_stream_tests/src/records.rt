//! The reader that returns page records as they are read: of many zero pages in one section it
//! returns some at a time, so that they don't wait for each other.

use mig_fixtures::{set, zeroed};
use mig_mem::{Dirty, MAX_TOTAL, Memory, PAGE_SIZE_4K, Place};
use mig_send::SingleSender;
use mig_stream::{Frame, RecordEvent, RecordReader, StreamState};
use std::alloc::Global;

/// The number of pages of the block.
const PAGES: u64 = 3000;

// Returns the large block with a byte in its last page.
fn large(alloc: Global) -> Option<Memory> {
    let mut image = zeroed(alloc, &[("pc.ram", PAGES)])?;
    if set(&mut image, 0, PAGES * 4096 - 1, 7) {
        Some(image)
    } else {
        None
    }
}

// Returns all its pages, marked.
fn all(alloc: Global, image: &Memory) -> Option<Dirty> {
    let mut dirty = Dirty::none(alloc, image.table()).ok()?;
    for page in 0..PAGES {
        let place = Place { block: 0, page };
        if !dirty.table().holds(place) {
            return None;
        }
        dirty.mark(place).ok()?;
    }
    Some(dirty)
}

// Returns the stream of a round of all its pages.
fn sent(alloc: Global) -> Option<Vec<u8>> {
    let image = large(alloc)?;
    let mut sender = SingleSender::new(alloc, image.table()).ok()?;
    sender.round(&image, &all(alloc, &image)?).ok()?;
    sender.finish().ok()
}

// Reads a stream record by record. Returns the number of records, and the most that a call
// returned.
fn counts(alloc: Global, stream: &[u8]) -> Option<(usize, usize)> {
    let mut reader = RecordReader::new(alloc, Frame::Ram, PAGE_SIZE_4K, MAX_TOTAL, None, stream);
    let mut counts = (0usize, 0usize);
    for _ in 0..10_000u64 {
        match reader.read_on().ok()? {
            RecordEvent::Records | RecordEvent::Section => {
                let len = reader.given().len();
                counts = (counts.0.saturating_add(len), counts.1.max(len));
            }
            RecordEvent::End(StreamState::Closed) => return Some(counts),
            RecordEvent::End(_) => return None,
        }
    }
    None
}

#[test]
fn many_zero_pages_given(rt: HostRuntime) {
    let stream = sent(rt.alloc()).expect(&rt, "a stream");
    let (all, most) = counts(rt.alloc(), &stream).expect(&rt, "a closed stream");
    assert!(rt; all == 3000 && most < 2000);
}
