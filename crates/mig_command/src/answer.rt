//! The tool's answer, before it is printed.

use crate::fault::ToolFault;
use mig_load_types::LoadFault;
use mig_mem::{NoMemory, Place};
use mig_scenario::ScenarioFault;

/// The result of comparing two memories of one table.
#[derive(Clone, Copy, Debug, PartialEq, Eq)]
pub enum Comparison {
    Same,
    /// The number of pages that differ, and the first of them.
    Differs(u64, Place),
}

/// The rounds that were sent on several channels with a main stream, and loaded again.
#[derive(Clone, Copy, Debug, PartialEq, Eq)]
pub struct ChannelsChecked {
    /// The length of the main stream.
    pub main: usize,
    /// The sum of the channels' lengths.
    pub channels: u64,
    /// The number of rounds that were loaded.
    pub rounds: u64,
}

/// The result of sending and loading a scenario's rounds.
#[derive(Clone, Copy, Debug, PartialEq, Eq)]
pub struct Checked {
    /// The length of the single stream.
    pub single: usize,
    /// The number of its sections that were loaded.
    pub sections: u64,
    /// The result on channels, if there are any.
    pub several: Option<ChannelsChecked>,
    /// The loaded memory compared with the guest's: that of the single stream if it differs, else
    /// that of the channels, if there are any.
    pub comparison: Comparison,
}

/// The tool's answer.
#[derive(Clone, Copy)]
pub enum Answer {
    /// The scenario's rounds were sent, loaded and compared.
    Checked(Checked),
    /// The length of the single or main stream that was written, and the sum of the channels'
    /// lengths.
    Sent(usize, u64),
    /// The number of sections of a single stream that were loaded; the memory was written.
    LoadedSections(u64),
    /// The number of rounds of several channels that were loaded; the memory was written.
    LoadedRounds(u64),
    /// A scenario's memory was compared with a file's.
    Compared(Comparison),
    /// The input isn't a scenario, or an allocation was refused.
    Refused(ScenarioFault),
    /// The load failed.
    Unloaded(LoadFault),
    /// The arguments, the input or a file were refused.
    Failed(ToolFault),
}

impl From<NoMemory> for Answer {
    ghost use Rattle.std.specs.Prelude.{◌≡◌};
    ghost use Rattle.mig_command.specs.declared.answer.Answer.TheVariants.{Refused as answer_refused};
    ghost use Rattle.mig_scenario.specs.declared.fault.ScenarioFault.TheVariants.{NoMemory as fault_no_memory};

    ghost from_gives = { λ _ a. a ≡ answer_refused fault_no_memory };

    fn from(_: NoMemory) -> Answer {
        Answer::Refused(ScenarioFault::NoMemory)
    }
}

impl From<ScenarioFault> for Answer {
    fn from(fault: ScenarioFault) -> Answer {
        Answer::Refused(fault)
    }
}

impl From<ToolFault> for Answer {
    fn from(fault: ToolFault) -> Answer {
        Answer::Failed(fault)
    }
}
