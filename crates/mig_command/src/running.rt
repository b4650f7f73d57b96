//! The tool as a function, which the program, its cases and its tests call. It takes the arguments,
//! the input and the output, and returns the exit status.

ghost use Rattle.std.specs.Prelude.{◌≡◌, ◌≢◌, ◌≤◌, ◌⊎◌};
ghost use Rattle.mig_scenario.specs.declared.layout.Layout.{Layout as Asked};
ghost use Rattle.mig_scenario.specs.Layout.{HasRoom};
ghost use Rattle.mig_command.specs.Answer.{AnswersInput, HasPrinted, HasReported, status_of};
ghost use Rattle.mig_command.specs.Words.{AskCheck, AskPlainCheck, IfCheck, KeepsLimits, plain_layout, texts_of};

use crate::answer::Answer;
use crate::check::check;
use crate::comparing::compare;
use crate::input::read_whole;
use crate::loading::load;
use crate::print::{print, status};
use crate::request::Request;
use crate::sending::send;
use crate::words::asked;
use mig_scenario::Layout;
use std::alloc::{AllocGlobal, Allocator};
use std::fs::Files;
use std::io::{Read, Write};
use std::sync::Wait;
use std::thread::Threads;

// The exit status if the output fails.
const OUTPUT_FAILED: u8 = 3;

/// Runs the tool: executes the command line, prints the answer, and returns the exit status.
/// `words` are the arguments after the program's name.
///
/// Without arguments, and with `check`, it reads a scenario from the input and sends its rounds on
/// a single stream, and on channels if the arguments name any. It loads what it sent, and compares
/// the memory with the guest's. If the output fails the status is 3, and nothing is promised of the
/// output.
pub fn run<
    H: AllocGlobal + Files + Threads + Wait + Sync,
    A: Allocator + Copy + Send + Sync,
    R: Read,
    W: Write,
>(rt: &H, alloc: A, words: &[String], input: &mut R, output: &mut W) -> u8
    ensures check { (layout : Asked) → AskCheck (texts_of words.now) layout → result ≢ 3
        → HasReported layout (R.remaining input.old) (R.remaining input.new) (W.contents output.old) (W.contents output.new) result }
    ensures plain { AskPlainCheck (texts_of words.now) → result ≢ 3
        → HasReported plain_layout (R.remaining input.old) (R.remaining input.new) (W.contents output.old) (W.contents output.new) result }
    ensures status { result ≤ 4 }
{
    let answer = match asked(rt.alloc(), words) {
        Ok(request) => answer_to(rt, alloc, &request, input),
        Err(answer) => answer,
    };
    end_with(output, answer)
}

/// Prints an answer, and returns its exit status, or 3 if the output fails.
pub fn end_with<W: Write>(output: &mut W, answer: Answer) -> u8
    ensures printed { result ≢ 3 → HasPrinted (W.contents output.old) (W.contents output.new) answer result }
    ensures status { (result ≡ status_of answer) ⊎ (result ≡ 3) }
{
    match print(output, answer) {
        Ok(()) => status(answer),
        Err(_) => OUTPUT_FAILED,
    }
}

// Returns the answer to a request.
fn answer_to<H: Files + Threads + Wait + Sync, A: Allocator + Copy + Send + Sync, R: Read>(
    rt: &H,
    alloc: A,
    request: &Request,
    input: &mut R,
) -> Answer
    requires { KeepsLimits request.now }
    ensures { IfCheck request.now (λ layout. AnswersInput layout (R.remaining input.old) (R.remaining input.new) result) }
{
    let answer = match request {
        Request::Check(layout) => return check_input(rt, alloc, *layout, input),
        Request::Send(request) => send(rt, alloc, request),
        Request::Load(request) => load(rt, alloc, request),
        Request::Compare(request) => compare(rt, alloc, request),
    };
    match answer {
        Ok(answer) | Err(answer) => answer,
    }
}

// Returns the answer on an input.
fn check_input<H: Threads + Wait + Sync, A: Allocator + Copy + Send + Sync, R: Read>(
    rt: &H,
    alloc: A,
    layout: Layout,
    input: &mut R,
) -> Answer
    requires { HasRoom layout }
    ensures { AnswersInput layout (R.remaining input.old) (R.remaining input.new) result }
{
    match read_whole(alloc, input, 0) {
        Ok(text) => check(rt, alloc, &text, layout),
        Err(answer) => answer,
    }
}
