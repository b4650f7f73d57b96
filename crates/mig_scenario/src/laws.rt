//! A law of the definitions alone: it follows from what a scenario is, whatever code executes it.

ghost use Rattle.mig_scenario.specs.Law.{ScenariosMakeTheirImage};

/// Loading the rounds of a valid scenario gives the memory that its guest has at the end. So its
/// report may say that the memory is the same.
pub fn scenarios_make_their_image()
    ensures { ScenariosMakeTheirImage }
{}
