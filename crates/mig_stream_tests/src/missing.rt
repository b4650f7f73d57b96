//! How many pages of a guest the sections of a single stream don't name, as it is fed and in the
//! answer.

use crate::building::two_rounds;
use mig_load_types::LoadSettings;
use mig_mem::{MAX_TOTAL, PAGE_SIZE_4K};
use mig_single_load::{SingleLoader, load_single};
use std::alloc::Global;

// Loads the first `len` bytes of a stream. Returns how many pages are missing then.
fn missing_after(alloc: Global, stream: &[u8], len: usize) -> Option<Option<u64>> {
    let mut loader = SingleLoader::new(alloc, LoadSettings::new(PAGE_SIZE_4K, MAX_TOTAL));
    let piece = stream.get(..len)?;
    if piece.len() as u64 > MAX_TOTAL {
        return None;
    }
    loader.feed(piece).ok()?;
    let missing = loader.missing();
    let at_once = load_single(alloc, PAGE_SIZE_4K, piece, MAX_TOTAL).missing;
    (loader.finish().missing == missing && at_once == missing).then_some(missing)
}

// The size list is complete before START's footer, and the first round with byte 4220. It names 3
// of the 67 pages, and the second one a page of these.
#[test]
fn pages_that_no_section_named(rt: HostRuntime) {
    let stream = two_rounds(&rt);
    for (len, missing) in [
        (8usize, None),
        (71, Some(67)),
        (4219, Some(67)),
        (4220, Some(64)),
        (4266, Some(64)),
    ] {
        assert!(rt; missing_after(rt.alloc(), &stream, len) == Some(missing));
    }
}
