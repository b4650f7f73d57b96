//! Up to which byte a channel of complete streams is valid, if few packets may wait in a round.

use crate::feeding::LIMIT;
use crate::texts::{main_of, one};
use mig_fixtures::Part;
use mig_load_types::LoadSettings;
use mig_relay::channel_valid_up_to;
use mig_send::Sent;
use std::alloc::AllocGlobal;
use std::process::Abort;
use uuid::Uuid;

// Returns whether the channel is valid up to byte `at`, if `most` may wait.
fn is_valid_up_to(rt: &(impl AllocGlobal + Abort), sent: &Sent, most: u64, at: u64) -> bool {
    let Some(channel) = sent.channels.first() else {
        return false;
    };
    let settings = LoadSettings::new(4096, LIMIT).with_waiting(Some(most));
    channel_valid_up_to(rt.alloc(), settings, &Uuid::nil(), 1, channel) == Ok(at)
}

// Two rounds of one channel: a SYNC packet, which counts 1, and then a packet of one page, which
// counts 2, and a SYNC packet.
#[test]
fn packets_that_may_wait(rt: HostRuntime) {
    let packets = [(0, Part::Sync), (1, Part::Page(0, 7)), (2, Part::Sync)];
    let sent = one(&rt, main_of(&rt, 1, 2), &packets);
    for (most, at) in [(3u64, 8192u64), (2, 6848), (1, 1408), (0, 64)] {
        assert!(rt; is_valid_up_to(&rt, &sent, most, at));
    }
}
