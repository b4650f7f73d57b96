//! Judges a scenario, for `check`: its table and its lines, or the first fault that applies.

ghost use Rattle.std.specs.Prelude.{◌≡◌, ◌⊎◌, map, None, Some, IfOk, IfErr, OnOk, not, IsTrue, All};
ghost use Rattle.mig_mem.specs.PageSize.{IsPageSize};
ghost use Rattle.mig_mem.specs.Refusal.{refusal as table_refusal};
ghost use Rattle.mig_scenario.specs.Scenario.{lines_of as lines_said, table_of as table_said, late_block, is_within, is_step_within, first_line, unsent, refusal};
ghost use Rattle.mig_scenario.specs.Seen.{seen};

use crate::fault::ScenarioFault;
use crate::line::{Line, Step, lines_of};
use mig_mem::{NoMemory, Table, TableFault};
use std::alloc::{Allocator, Global};

/// A scenario without a fault.
pub struct Scenario<'a, A: Allocator = Global> {
    pub table: Table<A>,
    pub lines: Vec<Line<'a>, A>,
}

// Written out, so that a caller's proof passes a call where a value is dropped.
impl<'a, A: Allocator> Drop for Scenario<'a, A> {
    fn drop(self) {
        let Scenario { table: _, lines: _ } = self;
    }
}

// Returns the line number of the first block after a step.
fn late_block(lines: &[Line]) -> Option<usize>
    ensures { result ≡ late_block (map seen lines.now) }
{
    let mut has_step = false;
    for (i, line) in lines.iter().enumerate() {
        match line {
            Line::Empty => (),
            Line::Step(_) => has_step = true,
            Line::Block(_, _) if has_step => return Some(i + 1),
            Line::Block(_, _) => (),
        }
    }
    None
}

// Returns the table of the blocks.
fn table_of<A: Allocator + Copy>(
    alloc: A,
    page_size: u64,
    lines: &[Line],
) -> Result<Table<A>, TableFault>
    requires { IsPageSize page_size }
    ensures ok { IfOk result (λ t. t ≡ table_said page_size (map seen lines.now)) }
    ensures lawful { OnOk result (table_refusal (table_said page_size (map seen lines.now)) ≡ None) }
    ensures err { IfErr result (λ e. (e ≡ TableFault.NoMemory) ⊎ (table_refusal (table_said page_size (map seen lines.now)) ≡ Some e)) }
{
    let mut blocks = Vec::new(alloc);
    for line in lines {
        if let Line::Block(pages, id) = line {
            let id = copied(alloc, id)?;
            if blocks.push((id, *pages)).is_err() {
                return Err(TableFault::NoMemory);
            }
        }
    }
    Table::new(alloc, page_size, blocks)
}

// Copies some bytes.
fn copied<A: Allocator>(alloc: A, bytes: &[u8]) -> Result<Vec<u8, A>, NoMemory>
    ensures { IfOk result (λ v. v.items ≡ bytes.now) }
{
    Ok(Vec::from_slice(alloc, bytes)?)
}

// Returns whether a step's block, its page or offset in the block, and its byte are in range.
fn is_step_within<A: Allocator>(table: &Table<A>, step: Step) -> bool
    ensures { result ≡ is_step_within table.now step }
{
    match step {
        Step::Set(block, offset, byte) => {
            block < table.len() as u64
                && offset < table.pages(block as usize) * table.page_size()
                && byte < 256
        }
        Step::Fill(block, page, byte) => {
            block < table.len() as u64 && page < table.pages(block as usize) && byte < 256
        }
        Step::Touch(block, page) => {
            block < table.len() as u64 && page < table.pages(block as usize)
        }
        Step::Round => true,
    }
}

// Returns the number of the first line that isn't within the table.
fn out_of_range<A: Allocator>(table: &Table<A>, lines: &[Line]) -> Option<usize>
    ensures { result ≡ first_line (λ l. not (is_within table.now l)) (map seen lines.now) }
{
    for (i, line) in lines.iter().enumerate() {
        if let Line::Step(step) = line {
            if !is_step_within(table, *step) {
                return Some(i + 1);
            }
        }
    }
    None
}

// Returns the number of the first step after the last round.
fn unsent(lines: &[Line]) -> Option<usize>
    ensures { result ≡ unsent (map seen lines.now) }
{
    let mut first = None;
    for (i, line) in lines.iter().enumerate() {
        match line {
            Line::Step(Step::Round) => first = None,
            Line::Step(_) if first.is_none() => first = Some(i + 1),
            _ => (),
        }
    }
    first
}

// Returns the scenario's fault for a table's fault.
fn fault_of(fault: TableFault) -> ScenarioFault
    ensures memory { fault ≡ TableFault.NoMemory → result ≡ ScenarioFault.NoMemory }
    ensures other { (fault ≡ TableFault.NoMemory) ⊎ (result ≡ ScenarioFault.Table fault) }
{
    match fault {
        TableFault::NoMemory => ScenarioFault::NoMemory,
        _ => ScenarioFault::Table(fault),
    }
}

/// Parses `text` as a scenario with pages of `page_size` bytes.
///
/// # Errors
///
/// The first fault that applies, in the order of `refusal`, or in place of any `NoMemory`: an
/// allocation was refused.
pub fn judge<A: Allocator + Copy>(
    alloc: A,
    page_size: u64,
    text: &[u8],
) -> Result<Scenario<'_, A>, ScenarioFault>
    requires { IsPageSize page_size }
    ensures ok { IfOk result (λ s. (s.table ≡ table_said page_size (lines_said text.now)) × (map seen s.lines.items ≡ lines_said text.now)) }
    ensures within { IfOk result (λ s. All (λ l. IsTrue (is_within s.table l)) (map seen s.lines.items)) }
    ensures sent { OnOk result (unsent (lines_said text.now) ≡ None) }
    ensures lawful { OnOk result (refusal page_size text.now ≡ None) }
    ensures err { IfErr result (λ e. (e ≡ ScenarioFault.NoMemory) ⊎ (refusal page_size text.now ≡ Some e)) }
{
    let lines = lines_of(alloc, text)?;
    if let Some(line) = late_block(&lines) {
        return Err(ScenarioFault::Order(line));
    }
    let table = match table_of(alloc, page_size, &lines) {
        Ok(table) => table,
        Err(fault) => return Err(fault_of(fault)),
    };
    if let Some(line) = out_of_range(&table, &lines) {
        return Err(ScenarioFault::Range(line));
    }
    if let Some(line) = unsent(&lines) {
        return Err(ScenarioFault::Unsent(line));
    }
    Ok(Scenario { table, lines })
}
