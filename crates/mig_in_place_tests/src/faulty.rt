//! Streams with a fault: the verdict, and the pages that a failed round leaves.

use crate::both::{failed, loaded};
use crate::texts::{channel_of, main_of, one, sevens_then_zeros, with_byte};
use mig_assemble::RoundFault;
use mig_fixtures::{Part, at, is_full, table};
use mig_load_types::{Fault, Origin};
use mig_send::Sent;
use mig_sources::Source;
use mig_stream::StreamFault;
use rand_pcg::Pcg32;
use std::alloc::AllocGlobal;
use std::process::Abort;

// A byte of a source that is changed, and the fault in round 0.
#[derive(Clone, Copy)]
struct Change {
    source: Source,
    at: usize,
    byte: u8,
    origin: Origin,
    fault: Fault,
}

// The type of the main stream's first section, the id in the second channel's hello, and the number
// of the first channel's SYNC packet.
const CHANGES: [Change; 3] = [
    Change {
        source: Source::Main,
        at: 8,
        byte: 0x20,
        origin: Origin::Main,
        fault: Fault::Stream(StreamFault::SectionType),
    },
    Change {
        source: Source::Channel(1),
        at: 24,
        byte: 0,
        origin: Origin::Channel(1),
        fault: Fault::HelloTwice,
    },
    Change {
        source: Source::Channel(0),
        at: 5535,
        byte: 0,
        origin: Origin::Round,
        fault: Fault::Round(RoundFault::Doubled(0)),
    },
];

// Loads streams of one page with a byte changed. Returns whether the load has its verdict.
fn has_fault(rt: &(impl AllocGlobal + Abort), change: Change, most: u64) -> bool {
    let sent = with_byte(
        rt,
        sevens_then_zeros(rt),
        change.source,
        change.at,
        change.byte,
    );
    let table = table(rt.alloc(), &[("a", 1)]).expect(rt, "a table");
    let both = loaded(rt, &table, &sent, most, &mut Pcg32::new(3, most));
    both.in_place.verdict() == failed(0, change.origin, change.fault)
}

#[test]
fn streams_with_a_byte_changed(rt: HostRuntime) {
    for change in CHANGES {
        for most in [50u64, 3000] {
            assert!(rt; has_fault(&rt, change, most));
        }
    }
}

// Returns a round of one channel, whose second packet has a page that the block lacks.
fn misplaced(rt: &(impl AllocGlobal + Abort)) -> Sent {
    let packets = [
        (0, Part::Page(0, 7)),
        (1, Part::Page(3, 7)),
        (2, Part::Page(1, 7)),
        (3, Part::Sync),
    ];
    one(rt, main_of(rt, 2, 1), channel_of(rt, 0, &packets))
}

// Loads it. Returns whether the page before the misplaced one was written, and no page after it.
fn writes_none_after(rt: &(impl AllocGlobal + Abort), most: u64) -> bool {
    let table = table(rt.alloc(), &[("a", 2)]).expect(rt, "a table");
    let both = loaded(rt, &table, &misplaced(rt), most, &mut Pcg32::new(4, most));
    let fault = Fault::Round(RoundFault::Offset(1, 0));
    both.in_place.verdict() == failed(0, Origin::Round, fault)
        && is_full(&both.memory, at(0, 0), 7)
        && is_full(&both.memory, at(0, 1), 0)
}

// Each page is written when its bytes have arrived, until a packet's pages are misplaced.
#[test]
fn page_after_a_misplaced_packet(rt: HostRuntime) {
    for most in [1000u64, 100_000] {
        assert!(rt; writes_none_after(&rt, most));
    }
}
