//! Loads from a relay of one channel, on one thread: of a machine's main stream, and with a limit
//! on what may wait in a round.

ghost use Rattle.std.specs.Prelude.{◌≤◌, ◌^◌};

use crate::pieces::feed;
use crate::texts::{LIMIT, channel_of, is_done, is_failed, is_read_to, main_of, one_channel};
use mig_fixtures::Part;
use mig_load_types::{Fault, LoadSettings, Loaded};
use mig_packet::{ChannelFault, OpenGate};
use mig_relay::{Collector, Relay, load_relayed, load_relayed_with};
use mig_stream::Frame;
use std::alloc::AllocGlobal;
use std::process::Abort;
use std::sync::Wait;
use uuid::Uuid;

// Returns two rounds of one page: filled with 7, and then with 9.
fn sevens_then_nines(rt: &(impl AllocGlobal + Abort)) -> Vec<Vec<u8>> {
    let packets = [
        (0, Part::Page(0, 7)),
        (1, Part::Sync),
        (2, Part::Page(0, 9)),
        (3, Part::Sync),
    ];
    one_channel(rt, channel_of(rt, 0, &packets))
}

// Returns the collector of a relay of one channel, where `most` may wait in a round. Its feeder has
// pushed all items.
fn relayed<'a, R: AllocGlobal + Wait + Abort>(
    rt: &R,
    texts: &'a [Vec<u8>],
    most: u64,
) -> Collector<'a> {
    assert!(rt; texts.len() == 1);
    let made = Relay::start_with(rt.alloc(), 4096, &Uuid::nil(), texts, 64, Some(most));
    let (feeders, collector) = made.expect(rt, "a relay");
    for feeder in feeders {
        feed(rt, feeder, &OpenGate);
    }
    collector
}

// Loads a relay where `most` may wait.
fn load_within<R: AllocGlobal + Wait + Abort>(rt: &R, texts: &[Vec<u8>], most: u64) -> Loaded {
    let mut collector = relayed(rt, texts, most);
    assert!(rt; collector.waiting() == Some(most));
    load_relayed(rt, rt.alloc(), &mut collector, &main_of(rt, 1, 2), LIMIT)
}

// A packet with one page counts 2, and the SYNC packet after it 1.
#[test]
fn packets_that_may_wait(rt: HostRuntime) {
    let texts = sevens_then_nines(&rt);
    assert!(rt; is_done(&load_within(&rt, &texts, 3), 2, 9));
    let fault = Fault::Channel(ChannelFault::Waiting);
    assert!(rt; is_failed(&load_within(&rt, &texts, 2), fault));
}

// ---- a machine's main stream

fn settings() -> LoadSettings
    ensures { result.limit ≤ 2 ^ 40 }
{
    LoadSettings::new(4096, LIMIT).with_frame(Frame::Machine)
}

// Returns the main stream of one page and two rounds as a machine's: with the configuration `pc`
// before START, and a device's section in place of the end byte.
fn machines_main(rt: &(impl AllocGlobal + Abort)) -> Vec<u8> {
    let ram = main_of(rt, 1, 2);
    let mut main = Vec::new(rt.alloc());
    for piece in [
        ram.get(..8).expect(rt, "a header"),
        b"\x07\x00\x00\x00\x02pc",
        ram.get(8..126).expect(rt, "sections"),
        b"\x04\x00\x00\x00\x02\x05timer",
    ] {
        assert!(rt; main.extend_from_slice(piece).is_ok());
    }
    main
}

#[test]
fn machines_main_stream(rt: HostRuntime) {
    let texts = sevens_then_nines(&rt);
    let main = machines_main(&rt);
    let mut collector = relayed(&rt, &texts, 3);
    let loaded = load_relayed_with(&rt, rt.alloc(), settings(), &mut collector, &main);
    assert!(rt; is_done(&loaded, 2, 9) && is_read_to(&loaded, 0, 133));
}
