//! Parses the lines of a scenario, for `judge` and `guest`.

ghost use Rattle.std.specs.Prelude.{◌≡◌, ◌<◌, ◌==◌, [], ◌∷◌, ◌⊎◌, length, map, Some, IfOk, IfErr, MatchOption, is_none};
ghost use Rattle.std.specs.List.{slice_split};
ghost use Rattle.std.specs.Option.{option_map, option_and_then};
ghost use Rattle.mig_scenario.specs.Line.{number as number_said, numbers, step_of as step_said, block_of as block_said, line_of as line_said};
ghost use Rattle.mig_scenario.specs.Scenario.{forms, first_line};
ghost use Rattle.mig_scenario.specs.Seen.{seen, words_of};

use crate::fault::ScenarioFault;
use std::alloc::Allocator;

/// A line's effect on the guest. The numbers are the line's, in its order; their ranges aren't
/// checked yet.
#[derive(Clone, Copy, Debug, PartialEq, Eq)]
pub enum Step {
    /// The block, the offset in the block, and the byte that is written.
    Set(u64, u64, u64),
    /// The block, the page, and the byte that the page is filled with.
    Fill(u64, u64, u64),
    /// The block and the page that is marked dirty.
    Touch(u64, u64),
    /// Sends the marked pages as a round.
    Round,
}

/// A parsed line.
#[derive(Clone, Copy, Debug, PartialEq, Eq)]
pub enum Line<'a> {
    Empty,
    /// A block's number of pages, and its id.
    Block(u64, &'a [u8]),
    Step(Step),
}

// Splits `bytes` at the first `byte`: returns what precedes it, and what follows it if there is
// one.
fn cut(bytes: &[u8], byte: u8) -> (&[u8], Option<&[u8]>)
    ensures { let pieces = slice_split (λ b. b == byte) in
        MatchOption result.1 (pieces bytes.now ≡ result.0.now ∷ [])
        (λ rest. (pieces bytes.now ≡ result.0.now ∷ pieces rest.now) × (length rest.now < length bytes.now)) }
{
    match bytes.iter().position(|b| *b == byte) {
        Some(at) => (&bytes[..at], Some(&bytes[at + 1..])),
        None => (bytes, None),
    }
}

// Parses a decimal number.
fn number(word: &[u8]) -> Option<u64>
    ensures { result ≡ number_said word.now }
{
    if word.is_empty() || word.len() > 18 {
        return None;
    }
    let mut value = 0;
    for digit in word {
        if !digit.is_ascii_digit() {
            return None;
        }
        value = value * 10 + u64::from(*digit - b'0');
    }
    Some(value)
}

// Returns the step with this name, two numbers and the optional third field.
fn step_with(name: &[u8], block: u64, second: u64, third: Option<&[u8]>) -> Option<Step>
    ensures { result ≡ option_and_then (λ ns. step_said name.now (block ∷ second ∷ ns)) (numbers (words_of third.entry)) }
{
    let Some(third) = third else {
        return if name == b"touch".as_slice() {
            Some(Step::Touch(block, second))
        } else {
            None
        };
    };
    let third = number(third)?;
    if name == b"set".as_slice() {
        return Some(Step::Set(block, second, third));
    }
    if name == b"fill".as_slice() {
        Some(Step::Fill(block, second, third))
    } else {
        None
    }
}

// Returns the step with this name and these fields.
fn step_of(name: &[u8], fields: Option<&[u8]>) -> Option<Step>
    ensures { result ≡ option_and_then (step_said name.now) (numbers (words_of fields.entry)) }
{
    let Some(fields) = fields else {
        return if name == b"round".as_slice() {
            Some(Step::Round)
        } else {
            None
        };
    };
    let (block, fields) = cut(fields, b' ');
    let (second, third) = cut(fields?, b' ');
    step_with(name, number(block)?, number(second)?, third)
}

// Returns the block line with these fields.
fn block_of(fields: Option<&[u8]>) -> Option<Line<'_>>
    ensures { option_map seen result ≡ block_said (words_of fields.entry) }
{
    let (pages, id) = cut(fields?, b' ');
    Some(Line::Block(number(pages)?, id?))
}

/// Parses a line. Returns `None` if it has none of the forms.
pub(crate) fn line_of(line: &[u8]) -> Option<Line<'_>>
    ensures { option_map seen result ≡ line_said line.now }
{
    if line.is_empty() {
        return Some(Line::Empty);
    }
    let (name, fields) = cut(line, b' ');
    if name == b"block".as_slice() {
        return block_of(fields);
    }
    Some(Line::Step(step_of(name, fields)?))
}

/// Parses all lines of an input. An `Err` has the number of the first line with none of the forms.
pub(crate) fn lines_of<A: Allocator>(
    alloc: A,
    text: &[u8],
) -> Result<Vec<Line<'_>, A>, ScenarioFault>
    ensures ok { IfOk result (λ v. forms text.now ≡ map Some (map seen v.items)) }
    ensures err { IfErr result (λ e. (e ≡ ScenarioFault.NoMemory) ⊎ (Some e ≡ option_map ScenarioFault.Syntax (first_line is_none (forms text.now)))) }
{
    let mut lines = Vec::new(alloc);
    let mut rest = Some(text);
    'lines: while let Some(left) = rest {
        let (line, behind) = cut(left, b'\n');
        let Some(line) = line_of(line) else {
            return Err(ScenarioFault::Syntax(lines.len() + 1));
        };
        if lines.push(line).is_err() {
            return Err(ScenarioFault::NoMemory);
        }
        rest = behind;
    }
    Ok(lines)
}
