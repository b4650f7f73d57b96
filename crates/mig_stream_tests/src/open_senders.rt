//! A sender of a machine's stream: with a machine's name, drained, after a cancelled round, and
//! left open for the sections of devices.

use crate::building::{dirty_of, image_with};
use mig_fixtures::at;
use mig_mem::{Dirty, Memory};
use mig_send::SingleSender;
use std::alloc::Global;

// "QEVM", version 3, QEMU_VM_CONFIGURATION, and the name "pc" with its length.
const CONFIGURED: [u8; 15] = [
    0x51, 0x45, 0x56, 0x4D, 0, 0, 0, 3, 0x07, 0, 0, 0, 2, b'p', b'c',
];

// Returns the single stream of one round.
fn sent(alloc: Global, image: &Memory, dirty: &Dirty) -> Option<Vec<u8>> {
    let mut sender = SingleSender::new(alloc, image.table()).ok()?;
    sender.round(image, dirty).ok()?;
    sender.finish().ok()
}

// Returns what is drained of a sender with a machine's name that has sent one round, and what it
// returns when it is left open.
fn sent_open(alloc: Global, image: &Memory, dirty: &Dirty) -> Option<Vec<u8>> {
    let (mut stream, sender) = SingleSender::with_configuration(alloc, image.table(), b"pc").ok()?;
    let mut sender = sender.begin_round().ok()?.cancel();
    sender.round(image, dirty).ok()?;
    stream.extend_from_slice(&sender.drain()).ok()?;
    stream.extend_from_slice(&sender.finish_open().ok()?).ok()?;
    Some(stream)
}

// Returns whether a stream is the single one with a configuration after its file header, and
// without its end byte.
fn is_configured(stream: Option<Vec<u8>>, single: Option<Vec<u8>>) -> Option<bool> {
    let stream = stream?;
    let single = single?;
    let open = single.strip_suffix(b"\x00")?;
    Some(stream.strip_prefix(CONFIGURED.as_slice())? == open.get(8..)?)
}

#[test]
fn named_and_left_open(rt: HostRuntime) {
    let image = image_with(&rt, 0, 4096);
    let dirty = dirty_of(&rt, image.table(), &[at(0, 1), at(1, 64)]);
    let stream = sent_open(rt.alloc(), &image, &dirty);
    assert!(rt; is_configured(stream, sent(rt.alloc(), &image, &dirty)) == Some(true));
}
