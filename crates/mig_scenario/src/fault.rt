//! Why an input isn't a scenario, by name and number.

ghost use Rattle.std.specs.Prelude.{◌≡◌};
ghost use Rattle.mig_scenario.specs.FaultNumber.{scenario_number};

use mig_mem::{NoMemory, TableFault};

/// Why an input isn't a scenario. A line is reported by its number, from 1.
#[derive(Clone, Copy, Debug, PartialEq, Eq)]
pub enum ScenarioFault {
    /// A line has none of the forms.
    Syntax(usize),
    /// A block's line follows a step.
    Order(usize),
    /// The blocks don't make a table.
    Table(TableFault),
    /// A line names a block, a page, an offset or a byte that is out of range.
    Range(usize),
    /// A step follows the last round.
    Unsent(usize),
    /// An allocation was refused.
    NoMemory,
}

impl ScenarioFault {
    /// Returns the fault's number, which documents and the tool's output use.
    pub fn number(self) -> u8
        ensures { result ≡ scenario_number self }
    {
        match self {
            ScenarioFault::Unsent(_) => 80,
            ScenarioFault::Syntax(_) => 81,
            ScenarioFault::Table(_) => 82,
            ScenarioFault::Range(_) => 83,
            ScenarioFault::Order(_) => 84,
            ScenarioFault::NoMemory => NoMemory.number(),
        }
    }
}

impl From<NoMemory> for ScenarioFault {
    ghost use Rattle.std.specs.Prelude.{◌≡◌};
    ghost use Rattle.mig_scenario.specs.declared.fault.ScenarioFault.TheVariants.{NoMemory as fault_no_memory};

    ghost from_gives = { λ _ e. e ≡ fault_no_memory };

    fn from(_: NoMemory) -> ScenarioFault {
        ScenarioFault::NoMemory
    }
}
