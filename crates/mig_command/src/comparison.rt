//! Compares two memories.

ghost use Rattle.std.specs.Prelude.{◌≡◌, IfOk};
ghost use Rattle.mig_command.specs.Answer.{Compares};

use crate::answer::Comparison;
use mig_mem::{Memory, NoMemory, Place, differences};
use std::alloc::Allocator;
use std::thread::Threads;

/// Returns the number of pages in which two memories of one table differ, and the first of them.
/// Several threads compare a large block.
pub(crate) fn compared<H: Threads + Sync, A: Allocator + Copy + Send + Sync>(
    rt: &H,
    alloc: A,
    a: &Memory<A>,
    b: &Memory<A>,
) -> Result<Comparison, NoMemory>
    requires { a.now.table ≡ b.now.table }
    ensures { IfOk result (Compares a.now b.now) }
{
    let found = differences(rt, alloc, a, b)?;
    let start = Place { block: 0, page: 0 };
    match found.first_from(start) {
        None => Ok(Comparison::Same),
        Some(first) => Ok(Comparison::Differs(found.count(), first)),
    }
}
