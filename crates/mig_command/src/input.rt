//! Reads a complete input in at most `MAX_READS` reads, for `run`.

ghost use Rattle.std.specs.Prelude.{◌≡◌, ◌<◌, length, IfOk, IfErr};
ghost use Rattle.std.specs.Io.KnownBytes.{Consumes, IsAtEnd};
ghost use Rattle.mig_command.specs.Inputs.{HasRead};
ghost use Rattle.mig_command.specs.Answer.{IsUnread};

use crate::answer::Answer;
use crate::fault::ToolFault;
use mig_scenario::ScenarioFault;
use std::alloc::Allocator;
use std::io::{ErrorKind, Read};

/// The most reads of an input. The read that finds its end counts, and so do reads that a signal
/// interrupted.
const MAX_READS: usize = 65_536;

/// The most bytes of one read.
const MAX_READ_LEN: usize = 65_536;

/// The most bytes that an input can have.
pub(crate) const MAX_LEN: u64 = 65_535 * 65_536;

// Allocates a buffer of `len` bytes.
fn buffer_of<A: Allocator>(alloc: A, len: usize) -> Result<Vec<u8, A>, Answer>
    ensures ok { IfOk result (λ v. length v.items ≡ len) }
    ensures err { IfErr result IsUnread }
{
    match vec![in alloc; 0u8; len] {
        Ok(buffer) => Ok(buffer),
        Err(_) => Err(Answer::Refused(ScenarioFault::NoMemory)),
    }
}

// Reads once, and appends the bytes. Returns whether the input has ended. A read that a signal
// interrupted appends nothing.
fn read_more<A: Allocator, R: Read>(
    input: &mut R,
    buffer: &mut [u8],
    text: &mut Vec<u8, A>,
) -> Result<bool, Answer>
    requires { 0 < length buffer.old }
    ensures len { length buffer.new ≡ length buffer.old }
    ensures err { IfErr result IsUnread }
    ensures more { IfOk result (λ ended. HasRead (R.remaining input.old) (R.remaining input.new) text.old.items text.new.items ended) }
{
    let len = match input.read(buffer) {
        Ok(len) => len,
        Err(error) if error.kind() == ErrorKind::Interrupted => return Ok(false),
        Err(_) => return Err(Answer::Failed(ToolFault::Unread)),
    };
    match text.extend_from_slice(&buffer[..len]) {
        Ok(()) => Ok(len == 0),
        Err(_) => Err(Answer::Refused(ScenarioFault::NoMemory)),
    }
}

/// Reads an input up to its end, with room for `room` bytes from the start. An `Err` is the answer
/// if the input can't be read.
pub(crate) fn read_whole<A: Allocator + Copy, R: Read>(
    alloc: A,
    input: &mut R,
    room: usize,
) -> Result<Vec<u8, A>, Answer>
    ensures err { IfErr result IsUnread }
    ensures ok { IfOk result (λ text. Consumes (R.remaining input.old) (R.remaining input.new) text.items × IsAtEnd (R.remaining input.new)) }
{
    let mut buffer = buffer_of(alloc, MAX_READ_LEN)?;
    let Ok(mut text) = Vec::with_capacity(alloc, room) else {
        return Err(Answer::Refused(ScenarioFault::NoMemory));
    };
    for _ in 0..MAX_READS {
        if read_more(input, &mut buffer, &mut text)? {
            return Ok(text);
        }
    }
    Err(Answer::Failed(ToolFault::TooManyReads))
}
