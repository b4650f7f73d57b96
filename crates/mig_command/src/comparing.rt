//! Compares a scenario's file with the file of a memory.

ghost use Rattle.std.specs.Prelude.{◌≡◌, IfOk};
ghost use Rattle.mig_command.specs.Answer.{IsComparison};

use crate::answer::Answer;
use crate::comparison::compared;
use crate::fault::ToolFault;
use crate::files::read_file;
use crate::request::CompareRequest;
use mig_image::memory_of;
use mig_mem::{Memory, NoMemory, Table};
use mig_scenario::{PageSize, Senders, judge, play};
use std::alloc::Allocator;
use std::fs::Files;
use std::thread::Threads;

// Returns the answer on two memories of one table.
fn answer_on<H: Threads + Sync, A: Allocator + Copy + Send + Sync>(
    rt: &H,
    alloc: A,
    a: &Memory<A>,
    b: &Memory<A>,
) -> Result<Answer, NoMemory>
    requires { a.now.table ≡ b.now.table }
    ensures { IfOk result (IsComparison a.now b.now) }
{
    Ok(Answer::Compared(compared(rt, alloc, a, b)?))
}

// Compares a memory of `table` with that of a file, whose bytes are `bytes`.
fn compare_image<H: Threads + Sync, A: Allocator + Copy + Send + Sync>(
    rt: &H,
    alloc: A,
    table: &Table<A>,
    image: &Memory<A>,
    bytes: &[u8],
) -> Result<Answer, Answer>
    requires { image.now.table ≡ table.now }
{
    let Some(memory) = memory_of(alloc, table, bytes)? else {
        return Err(Answer::Failed(ToolFault::ImageLen));
    };
    Ok(answer_on(rt, alloc, image, &memory)?)
}

// Compares the memory that the scenario in `text` makes with that of a file, whose bytes are
// `bytes`.
fn compare_bytes<H: Threads + Sync, A: Allocator + Copy + Send + Sync>(
    rt: &H,
    alloc: A,
    page_size: PageSize,
    text: &[u8],
    bytes: &[u8],
) -> Result<Answer, Answer> {
    let scenario = judge(alloc, page_size.bytes(), text)?;
    let played = play(rt, alloc, &scenario.table, &scenario.lines, Senders::none())?;
    compare_image(rt, alloc, &scenario.table, &played.image, bytes)
}

/// Compares the memory that a scenario makes with that of a file, and returns the answer. An `Err`
/// is an answer, too: that of the first fault.
pub(crate) fn compare<H: Files + Threads + Sync, A: Allocator + Copy + Send + Sync>(
    rt: &H,
    alloc: A,
    request: &CompareRequest,
) -> Result<Answer, Answer> {
    let text = read_file(rt, alloc, request.scenario)?;
    let bytes = read_file(rt, alloc, request.image)?;
    compare_bytes(rt, alloc, request.page_size, &text, &bytes)
}
