//! A sender on several channels in a machine's stream: with a machine's name, and with the main
//! stream left open for the sections of devices.

use crate::multi::{BLOCKS, LIMIT, main_by_hand, numbers_in, packets_by_hand, send_both, uuid};
use mig_fixtures::table;
use mig_packet::OpenGate;
use mig_send::{MultiSender, Sent};
use std::alloc::AllocGlobal;
use std::process::Abort;
use std::thread::Threads;

// "QEVM", version 3, QEMU_VM_CONFIGURATION, and the name "q35" with its length.
const CONFIGURED: [u8; 16] = [
    0x51, 0x45, 0x56, 0x4D, 0, 0, 0, 3, 0x07, 0, 0, 0, 3, b'q', b'3', b'5',
];

// Sends both rounds on one channel, drains the main stream, and leaves it open. Returns its bytes
// in one, and the channel.
fn sent_open<R: AllocGlobal + Abort + Threads + Sync>(rt: &R) -> Option<Sent> {
    let alloc = rt.alloc();
    let table = table(alloc, &BLOCKS)?;
    let made = MultiSender::with_configuration(alloc, &table, uuid(), 1, LIMIT, b"q35");
    let (mut main, mut sender) = made.ok()?;
    send_both(rt, &mut sender, &OpenGate);
    let mut drained = Vec::new(alloc);
    sender.drain_main(&mut drained);
    main.extend_from_slice(&drained).ok()?;
    let mut sent = sender.finish_open().ok()?;
    main.extend_from_slice(&sent.main).ok()?;
    sent.main = main;
    Some(sent)
}

// Returns whether a main stream is the closed one with a configuration after its file header, and
// without its end byte.
fn is_configured(main: &[u8], closed: &[u8]) -> Option<bool> {
    let open = closed.strip_suffix(b"\x00")?;
    Some(main.strip_prefix(CONFIGURED.as_slice())? == open.get(8..)?)
}

// The channel has all eight packets.
#[test]
fn main_stream_with_a_name(rt: HostRuntime) {
    let sent = sent_open(&rt).expect(&rt, "streams");
    assert!(rt; is_configured(&sent.main, &main_by_hand(&rt)) == Some(true));
    assert!(rt; numbers_in(&sent, 0, &packets_by_hand(&rt, 1)) == Some(0b1111_1111));
}
