//! Sends a scenario's file into files.

ghost use Rattle.std.specs.Prelude.{◌≡◌, ◌^◌, ◌-◌, min, sum_by, length};
ghost use Rattle.mig_send.specs.MultiSending.{texts_of};
ghost use Rattle.mig_scenario.specs.Layout.{HasRoom};

use crate::answer::Answer;
use crate::fault::ToolFault;
use crate::files::{channel_name, is_folder, read_file, write_file};
use crate::request::SendRequest;
use mig_scenario::{Played, Senders, Texts, judge, play};
use mig_send::Sent;
use std::alloc::Allocator;
use std::fs::Files;
use std::thread::Threads;

/// Returns the sum of the channels' lengths, at most `u64::MAX`.
pub(crate) fn total_len<A: Allocator>(channels: &[Vec<u8, A>]) -> u64
    ensures { result ≡ min (sum_by length (texts_of channels.now)) (2 ^ 64 - 1) }
{
    let mut total = 0u64;
    for text in channels {
        total = total.saturating_add(text.len() as u64);
    }
    total
}

// Refuses if a channel's file is a folder.
fn check_channel_files<H: Files, A: Allocator + Copy>(
    rt: &H,
    alloc: A,
    name: &str,
    channels: usize,
) -> Result<(), Answer> {
    for channel in 0..channels {
        let name = channel_name(alloc, name, channel)?;
        if is_folder(rt, &name) {
            return Err(Answer::Failed(ToolFault::Unwritten));
        }
    }
    Ok(())
}

// Writes the main stream, then each channel. Each file is opened just before it is written, since
// the reader of a pipe may open it only then. A folder in a file's place is found before the first
// file is truncated.
fn write_several<H: Files, A: Allocator + Copy>(
    rt: &H,
    alloc: A,
    name: &str,
    sent: &Sent<A>,
) -> Result<Answer, Answer> {
    check_channel_files(rt, alloc, name, sent.channels.len())?;
    write_file(rt, name, &sent.main)?;
    for (channel, text) in sent.channels.iter().enumerate() {
        let name = channel_name(alloc, name, channel)?;
        write_file(rt, &name, text)?;
    }
    Ok(Answer::Sent(sent.main.len(), total_len(&sent.channels)))
}

/// Executes a send request, writes its files, and returns the answer. An `Err` is an answer, too:
/// that of the first fault.
pub(crate) fn send<H: Files + Threads + Sync, A: Allocator + Copy + Send + Sync>(
    rt: &H,
    alloc: A,
    request: &SendRequest,
) -> Result<Answer, Answer>
    requires { HasRoom request.now.layout }
{
    let text = read_file(rt, alloc, request.scenario)?;
    let scenario = judge(alloc, request.layout.page_size.bytes(), &text)?;
    let senders = Senders::one(alloc, &scenario.table, request.layout, request.uuid)?;
    let Played { image: _, texts } = play(rt, alloc, &scenario.table, &scenario.lines, senders)?;
    let Texts { single, several } = texts;
    if let Some(sent) = several {
        return write_several(rt, alloc, request.output, &sent);
    }
    let text = single.unwrap_or(Vec::new(alloc));
    write_file(rt, request.output, &text)?;
    Ok(Answer::Sent(text.len(), 0))
}
