//! The messages of faults: the number first, then words.

use mig_assemble::RoundFault;
use mig_load_types::{Fault, FeedFault, LoadFault, Origin};
use mig_mem::{NoMemory, Place, TableFault};
use mig_packet::ChannelFault;
use mig_send::SendFault;
use mig_stream::StreamFault;
use std::alloc::Global;
use std::fmt::{Display, Write};

// Returns whether a fault has this message.
fn reads<F: Display + Drop>(alloc: Global, fault: F, wanted: &str) -> bool {
    let mut text = String::new(alloc);
    write!(text, "{fault}").is_ok() && text.as_str() == wanted
}

fn faults_of_calls_read(alloc: Global) -> bool {
    let double = RoundFault::DoublePage(Place { block: 1, page: 2 });
    reads(alloc, NoMemory, "60: an allocation was refused")
        && reads(alloc, TableFault::NoPages(4), "5: entry 4 has no page")
        && reads(
            alloc,
            StreamFault::Fill(9),
            "31: fill byte of a zero page isn't 0: 0x9",
        )
        && reads(alloc, ChannelFault::HelloUuid, "37: hello of another UUID")
        && reads(
            alloc,
            FeedFault::NoGuestMemory,
            "60: no memory for the guest",
        )
        && reads(alloc, double, "59: page 2 of block 1 comes twice")
}

fn faults_of_senders_read(alloc: Global) -> bool {
    let limit = "62: batch limit is 0 or above the pages of a packet";
    reads(
        alloc,
        SendFault::Channels,
        "61: no channel, or more than 255",
    ) && reads(alloc, SendFault::Limit, limit)
        && reads(
            alloc,
            SendFault::OtherTable,
            "63: memory or dirty set of another table",
        )
}

fn faults_of_loads_read(alloc: Global) -> bool {
    let of_main = LoadFault {
        round: 3,
        source: Origin::Main,
        fault: Fault::Stream(StreamFault::Version),
    };
    let of_a_channel = LoadFault {
        round: 0,
        source: Origin::Channel(7),
        fault: Fault::Extra,
    };
    let extra = "round 0, in channel 7: 52: the channel continues after the main stream";
    reads(
        alloc,
        of_main,
        "round 3, in the stream: 12: the stream's version isn't 3",
    ) && reads(alloc, of_a_channel, extra)
}

#[test]
fn texts_of_faults(rt: HostRuntime) {
    assert!(rt; faults_of_calls_read(rt.alloc()));
    assert!(rt; faults_of_senders_read(rt.alloc()));
    assert!(rt; faults_of_loads_read(rt.alloc()));
}
