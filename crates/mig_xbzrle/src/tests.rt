//! Tests of worked deltas, whose pages and faults an independent decoder made.
//! `tools/delta_facts.py` prints the rows.

use crate::{DeltaFault, decode};
use std::alloc::{AllocError, Global};
use std::test::Fail;

// The page's size, the delta, and the bytes of the page that change, with their positions.
const LAWFUL: [(usize, &[u8], &[(usize, u8)]); 11] = [
    // no runs
    (8, &[], &[]),
    // one byte after two
    (8, &[0x02, 0x01, 0xaa], &[(2, 0xaa)]),
    // the first run skips nothing
    (8, &[0x00, 0x01, 0xaa], &[(0, 0xaa)]),
    // the whole page
    (
        4,
        &[0x00, 0x04, 0xaa, 0xbb, 0xcc, 0xdd],
        &[(0, 0xaa), (1, 0xbb), (2, 0xcc), (3, 0xdd)],
    ),
    // two runs, the second up to the page's end
    (
        8,
        &[0x01, 0x02, 0xaa, 0xbb, 0x03, 0x02, 0xcc, 0xdd],
        &[(1, 0xaa), (2, 0xbb), (6, 0xcc), (7, 0xdd)],
    ),
    // a byte replaced by itself
    (8, &[0x03, 0x01, 0x03], &[]),
    // lengths below 128 in two bytes
    (8, &[0x82, 0x00, 0x81, 0x00, 0xaa], &[(2, 0xaa)]),
    // a first skip of 0 in two bytes
    (8, &[0x80, 0x00, 0x01, 0xaa], &[(0, 0xaa)]),
    // a skip of 127 and one of 128
    (
        257,
        &[0x7f, 0x01, 0xaa, 0x80, 0x01, 0x01, 0xbb],
        &[(127, 0xaa), (256, 0xbb)],
    ),
    // the longest skip
    (16384, &[0xff, 0x7f, 0x01, 0xaa], &[(16383, 0xaa)]),
    // a run of 128 bytes, the last of which changes
    (
        129,
        &[
            0x00, 0x80, 0x01, 0x00, 0x01, 0x02, 0x03, 0x04, 0x05, 0x06, 0x07, 0x08, 0x09, 0x0a,
            0x0b, 0x0c, 0x0d, 0x0e, 0x0f, 0x10, 0x11, 0x12, 0x13, 0x14, 0x15, 0x16, 0x17, 0x18,
            0x19, 0x1a, 0x1b, 0x1c, 0x1d, 0x1e, 0x1f, 0x20, 0x21, 0x22, 0x23, 0x24, 0x25, 0x26,
            0x27, 0x28, 0x29, 0x2a, 0x2b, 0x2c, 0x2d, 0x2e, 0x2f, 0x30, 0x31, 0x32, 0x33, 0x34,
            0x35, 0x36, 0x37, 0x38, 0x39, 0x3a, 0x3b, 0x3c, 0x3d, 0x3e, 0x3f, 0x40, 0x41, 0x42,
            0x43, 0x44, 0x45, 0x46, 0x47, 0x48, 0x49, 0x4a, 0x4b, 0x4c, 0x4d, 0x4e, 0x4f, 0x50,
            0x51, 0x52, 0x53, 0x54, 0x55, 0x56, 0x57, 0x58, 0x59, 0x5a, 0x5b, 0x5c, 0x5d, 0x5e,
            0x5f, 0x60, 0x61, 0x62, 0x63, 0x64, 0x65, 0x66, 0x67, 0x68, 0x69, 0x6a, 0x6b, 0x6c,
            0x6d, 0x6e, 0x6f, 0x70, 0x71, 0x72, 0x73, 0x74, 0x75, 0x76, 0x77, 0x78, 0x79, 0x7a,
            0x7b, 0x7c, 0x7d, 0x7e, 0x5a,
        ],
        &[(127, 0x5a)],
    ),
];

// The page's size, the delta, and its first fault.
const FAULTY: [(usize, &[u8], DeltaFault); 20] = [
    // one byte
    (8, &[0x00], DeltaFault::Cut(0)),
    // a skip alone
    (8, &[0x02], DeltaFault::Cut(0)),
    // a skip without a run
    (8, &[0x82, 0x00], DeltaFault::Cut(2)),
    // a second skip without a run
    (8, &[0x00, 0x01, 0xaa, 0x02], DeltaFault::Cut(3)),
    // a skip and half a run
    (8, &[0x02, 0x01], DeltaFault::Cut(1)),
    // a skip in three bytes
    (
        8,
        &[0x80, 0x80, 0x01, 0x01, 0xaa],
        DeltaFault::LongLength(0),
    ),
    // a run's length in three bytes
    (
        8,
        &[0x02, 0x81, 0x80, 0x00, 0xaa],
        DeltaFault::LongLength(1),
    ),
    // a second skip of 0
    (
        8,
        &[0x00, 0x01, 0xaa, 0x00, 0x01, 0xbb],
        DeltaFault::NoSkip(3),
    ),
    // a second skip of 0 in two bytes
    (
        8,
        &[0x00, 0x01, 0xaa, 0x80, 0x00, 0x01, 0xbb],
        DeltaFault::NoSkip(3),
    ),
    // a run of no bytes
    (8, &[0x02, 0x00, 0xaa], DeltaFault::NoBytes(1)),
    // a run of no bytes, in two
    (8, &[0x02, 0x80, 0x00, 0xaa], DeltaFault::NoBytes(1)),
    // a skip to behind the page
    (8, &[0x09, 0x01, 0xaa], DeltaFault::PastPage(0)),
    // a skip to the page's end, and a byte
    (8, &[0x08, 0x01, 0xaa], DeltaFault::PastPage(1)),
    // a second skip past the page
    (
        8,
        &[0x06, 0x01, 0xaa, 0x02, 0x01, 0xbb],
        DeltaFault::PastPage(3),
    ),
    // a run past the page
    (
        4,
        &[0x01, 0x04, 0xaa, 0xbb, 0xcc, 0xdd],
        DeltaFault::PastPage(1),
    ),
    // a run past the page whose bytes are missing too
    (4, &[0x01, 0x04, 0xaa], DeltaFault::PastPage(1)),
    // a byte missing
    (8, &[0x00, 0x03, 0xaa, 0xbb], DeltaFault::BytesMissing(1)),
    // all bytes of a run missing
    (8, &[0x02, 0x81, 0x00], DeltaFault::BytesMissing(1)),
    // a byte too many
    (8, &[0x00, 0x01, 0xaa, 0x01], DeltaFault::Cut(3)),
    // a run of no bytes after a lawful one
    (
        8,
        &[0x00, 0x01, 0xaa, 0x01, 0x00, 0xbb],
        DeltaFault::NoBytes(4),
    ),
];

// Returns a page with the byte `i % 251` at each position `i`.
fn page_of(alloc: Global, size: usize) -> Result<Vec<u8>, AllocError> {
    let mut page = vec![in alloc; 0u8; size]?;
    for (i, byte) in page.iter_mut().enumerate() {
        *byte = (i % 251) as u8;
    }
    Ok(page)
}

// Returns that page with other bytes at some positions.
fn changed(alloc: Global, size: usize, changes: &[(usize, u8)]) -> Result<Vec<u8>, AllocError> {
    let mut page = page_of(alloc, size)?;
    for (at, byte) in changes {
        if *at < page.len() {
            page[*at] = *byte;
        }
    }
    Ok(page)
}

#[test]
fn lawful_deltas_change_the_page(rt: HostRuntime) -> Result<(), Fail> {
    for (size, delta, changes) in LAWFUL {
        let mut page = page_of(rt.alloc(), size)?;
        assert_eq!(rt; decode(delta, &mut page), Ok(()));
        assert_eq!(rt; page, changed(rt.alloc(), size, changes)?);
    }
    Ok(())
}

#[test]
fn faulty_deltas_leave_the_page(rt: HostRuntime) -> Result<(), Fail> {
    for (size, delta, fault) in FAULTY {
        let mut page = page_of(rt.alloc(), size)?;
        assert_eq!(rt; decode(delta, &mut page), Err(fault));
        assert_eq!(rt; page, page_of(rt.alloc(), size)?);
    }
    Ok(())
}
