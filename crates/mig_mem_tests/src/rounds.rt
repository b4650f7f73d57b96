//! The page records of a round, as a reader of a stream returns them.

use mig_mem::{Dirty, MAX_TOTAL, Memory, PAGE_SIZE_4K};
use mig_stream::{Mode, StreamReader, StreamRound, StreamWriter};
use std::alloc::AllocGlobal;
use std::process::Abort;

// Returns a single stream whose second section has these pages of a memory.
fn stream(rt: &(impl AllocGlobal + Abort), image: Memory, dirty: Dirty) -> Vec<u8> {
    let mut writer = StreamWriter::new(rt.alloc(), image.table()).expect(rt, "a writer");
    assert!(rt; image.table().same(writer.table()));
    assert!(rt; dirty.table().same(writer.table()));
    assert!(rt; writer.part(&image, &dirty).is_ok());
    writer.finish().ok().expect(rt, "a stream")
}

// Returns the second round of a reader. The first is START's, without a record.
fn second_round<'a>(reader: &mut StreamReader<'a>) -> Option<StreamRound<'a>> {
    if reader.take_round().ok()??.len() != 0 {
        return None;
    }
    reader.take_round().ok()?
}

/// Returns a round of records of these pages of a memory.
pub(crate) fn records(
    rt: &(impl AllocGlobal + Abort),
    image: Memory,
    dirty: Dirty,
) -> StreamRound<'static> {
    let mut reader = StreamReader::new(rt.alloc(), Mode::Single, PAGE_SIZE_4K, MAX_TOTAL);
    assert!(rt; reader.feed(&stream(rt, image, dirty)).is_ok());
    second_round(&mut reader).expect(rt, "a round")
}
