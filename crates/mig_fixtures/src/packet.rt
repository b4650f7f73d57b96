//! One packet, with a page and a zero page, which several tests read.

use mig_packet::{NoMemory, PacketFields};
use std::alloc::Allocator;

/// Appends packet 0 of block `a`: page 1, all zeros except for its first byte 9, and page 0 as
/// zeros.
pub fn put_page_and_zeros<A: Allocator>(text: &mut Vec<u8, A>) -> Result<(), NoMemory> {
    let mut page = [0u8; 4096];
    page[0] = 9;
    let packet = PacketFields {
        number: 0,
        sync: false,
        id: b"a",
        normal: &[4096],
        contents: &page,
        zero: &[0],
    };
    packet.append(4096, text)
}
