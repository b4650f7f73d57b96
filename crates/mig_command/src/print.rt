//! Prints an answer, for `run`: its lines, and the program's status.

ghost use Rattle.std.specs.Prelude.{◌≡◌, ◌++◌, OnOk, IfSome, decimal};
ghost use Rattle.std.specs.Io.KnownBytes.{Appends};
ghost use Rattle.mig_command.specs.Report.{refused, scenario_place};
ghost use Rattle.mig_command.specs.Answer.{unloaded, in_origin, comparison_line, channels_line, checked_lines, sent_line, loaded_line, printed, comparison_status, tool_status, status_of};

use crate::answer::{Answer, ChannelsChecked, Checked, Comparison};
use crate::fault::ToolFault;
use arrayvec::ArrayVec;
use itoa::Buffer;
use mig_load_types::{LoadFault, Origin};
use mig_scenario::ScenarioFault;
use std::io::{self, Write};

/// The most bytes of an answer's lines. The longest are those of a check on channels whose memories
/// differ: with eight numbers of 20 digits they take 211.
const MAX_ANSWER_LEN: usize = 256;

// Writes a word and a number.
fn put_number<W: Write>(output: &mut W, word: &[u8], number: u64) -> io::Result<()>
    ensures { OnOk result (Appends (W.contents output.old) (W.contents output.new) (word.now ++ decimal number)) }
{
    output.write_all(word)?;
    let mut buffer = Buffer::new();
    output.write_all(buffer.format(number).as_bytes())
}

// Writes a scenario's fault.
fn put_refused<W: Write>(output: &mut W, fault: ScenarioFault) -> io::Result<()>
    ensures { OnOk result (Appends (W.contents output.old) (W.contents output.new) (refused fault)) }
{
    put_number(output, b"fault ", u64::from(fault.number()))?;
    put_place(output, fault)?;
    output.write_all(b"\n")
}

// Writes the place of a scenario's fault.
fn put_place<W: Write>(output: &mut W, fault: ScenarioFault) -> io::Result<()>
    ensures { OnOk result (Appends (W.contents output.old) (W.contents output.new) (scenario_place fault)) }
{
    match fault {
        ScenarioFault::Syntax(line)
        | ScenarioFault::Order(line)
        | ScenarioFault::Range(line)
        | ScenarioFault::Unsent(line) => put_number(output, b" line ", line as u64),
        ScenarioFault::Table(fault) => put_number(output, b" table ", u64::from(fault.number())),
        ScenarioFault::NoMemory => output.write_all(b""),
    }
}

// Writes a load's fault.
fn put_unloaded<W: Write>(output: &mut W, fault: LoadFault) -> io::Result<()>
    ensures { OnOk result (Appends (W.contents output.old) (W.contents output.new) (unloaded fault)) }
{
    put_number(output, b"fault ", u64::from(fault.fault.number()))?;
    put_number(output, b" round ", fault.round)?;
    put_origin(output, fault.source)?;
    output.write_all(b"\n")
}

// Writes the source of a load's fault.
fn put_origin<W: Write>(output: &mut W, source: Origin) -> io::Result<()>
    ensures { OnOk result (Appends (W.contents output.old) (W.contents output.new) (in_origin source)) }
{
    match source {
        Origin::Main => output.write_all(b" in main"),
        Origin::Channel(channel) => put_number(output, b" in channel ", channel as u64),
        Origin::Round => output.write_all(b" in round"),
    }
}

// Writes the result of comparing two memories.
fn put_comparison<W: Write>(output: &mut W, comparison: Comparison) -> io::Result<()>
    ensures { OnOk result (Appends (W.contents output.old) (W.contents output.new) (comparison_line comparison)) }
{
    match comparison {
        Comparison::Same => output.write_all(b"same\n"),
        Comparison::Differs(count, first) => {
            put_number(output, b"differs ", count)?;
            put_number(output, b" first ", first.block as u64)?;
            put_number(output, b" ", first.page)?;
            output.write_all(b"\n")
        }
    }
}

// Writes the line on what was sent on channels.
fn put_channels<W: Write>(output: &mut W, checked: ChannelsChecked) -> io::Result<()>
    ensures { OnOk result (Appends (W.contents output.old) (W.contents output.new) (channels_line checked)) }
{
    put_number(output, b"multi ", checked.main as u64)?;
    put_number(output, b" ", checked.channels)?;
    put_number(output, b" rounds ", checked.rounds)?;
    output.write_all(b"\n")
}

// Writes the lines of a scenario that was checked.
fn put_checked<W: Write>(output: &mut W, checked: Checked) -> io::Result<()>
    ensures { OnOk result (Appends (W.contents output.old) (W.contents output.new) (checked_lines checked)) }
{
    put_number(output, b"single ", checked.single as u64)?;
    put_number(output, b" sections ", checked.sections)?;
    output.write_all(b"\n")?;
    if let Some(several) = checked.several {
        put_channels(output, several)?;
    }
    put_comparison(output, checked.comparison)
}

// Writes the line on what was sent into files.
fn put_sent<W: Write>(output: &mut W, main: usize, channels: u64) -> io::Result<()>
    ensures { OnOk result (Appends (W.contents output.old) (W.contents output.new) (sent_line main channels)) }
{
    put_number(output, b"sent ", main as u64)?;
    put_number(output, b" ", channels)?;
    output.write_all(b"\n")
}

// Writes the line on what was loaded.
fn put_loaded<W: Write>(output: &mut W, kind: &[u8], count: u64) -> io::Result<()>
    ensures { OnOk result (Appends (W.contents output.old) (W.contents output.new) (loaded_line kind.now count)) }
{
    output.write_all(b"loaded ")?;
    put_number(output, kind, count)?;
    output.write_all(b"\n")
}

// Writes the lines of an answer.
fn put_answer<W: Write>(output: &mut W, answer: Answer) -> io::Result<()>
    ensures { OnOk result (IfSome (printed answer) (λ r. Appends (W.contents output.old) (W.contents output.new) r.text)) }
{
    match answer {
        Answer::Checked(checked) => put_checked(output, checked),
        Answer::Sent(main, channels) => put_sent(output, main, channels),
        Answer::LoadedSections(sections) => put_loaded(output, b"sections ", sections),
        Answer::LoadedRounds(rounds) => put_loaded(output, b"rounds ", rounds),
        Answer::Compared(comparison) => put_comparison(output, comparison),
        Answer::Refused(fault) => put_refused(output, fault),
        Answer::Unloaded(fault) => put_unloaded(output, fault),
        Answer::Failed(fault) => writeln!(output, "{fault}"),
    }
}

/// Writes an answer, and flushes the output. All its lines are passed to one write, so that lines
/// of two tools on one terminal don't mix.
pub(crate) fn print<W: Write>(output: &mut W, answer: Answer) -> io::Result<()>
    ensures { OnOk result (IfSome (printed answer) (λ r. Appends (W.contents output.old) (W.contents output.new) r.text)) }
{
    let mut lines = ArrayVec::<u8, MAX_ANSWER_LEN>::new();
    put_answer(&mut lines, answer)?;
    output.write_all(&lines)?;
    output.flush()
}

// Returns the exit status for the result of comparing two memories.
fn compared_status(comparison: Comparison) -> u8
    ensures { result ≡ comparison_status comparison }
{
    match comparison {
        Comparison::Same => 0,
        Comparison::Differs(_, _) => 4,
    }
}

// Returns the exit status for a fault of the tool's own.
fn failed_status(fault: ToolFault) -> u8
    ensures { result ≡ tool_status fault }
{
    match fault {
        ToolFault::ImageLen => 1,
        ToolFault::Batch | ToolFault::Uuid | ToolFault::Feed | ToolFault::Words => 2,
        ToolFault::TooManyReads | ToolFault::Unread | ToolFault::Unwritten => 3,
    }
}

/// Returns the exit status for an answer.
pub(crate) fn status(answer: Answer) -> u8
    ensures { result ≡ status_of answer }
{
    match answer {
        Answer::Checked(checked) => compared_status(checked.comparison),
        Answer::Compared(comparison) => compared_status(comparison),
        Answer::Sent(_, _) | Answer::LoadedSections(_) | Answer::LoadedRounds(_) => 0,
        Answer::Refused(_) | Answer::Unloaded(_) => 1,
        Answer::Failed(fault) => failed_status(fault),
    }
}
