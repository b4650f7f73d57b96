//! Pages of a file that follow each other, as C sees them.

ghost use Rattle.std.specs.Prelude.{◌≡◌, ◌<◌, length};
ghost use Rattle.mig_mapped.specs.Block.{mapped_block};
ghost use Rattle.mig_c_mapped.specs.Runs.{SeesRun};

use mig_mapped::MappedIndex;
use std::alloc::Global;

/// Pages of a block that follow each other in the file. Those before them are zeros.
#[repr(C)]
#[derive(Clone, Copy)]
pub struct FileRun {
    /// The first page, or the block's number of pages if there is none.
    pub page: u64,
    /// The number of pages; 0 if all pages up to the block's end are zeros.
    pub pages: u64,
    /// The offset in the file of the first page's content; 0 if there is none.
    pub offset: u64,
}

/// Returns the first pages of a block, from page `from` on, whose contents the file has.
pub(crate) fn run_from(index: &MappedIndex<Global>, block: usize, from: u64) -> FileRun
    requires { block < length index.now.blocks }
    ensures { SeesRun index.now.given (mapped_block index.now.blocks block) from result }
{
    match index.wanted(block, from) {
        Some(run) => FileRun {
            page: run.page,
            pages: run.pages,
            offset: run.offset,
        },
        None => FileRun {
            page: index.pages(block),
            pages: 0,
            offset: 0,
        },
    }
}
