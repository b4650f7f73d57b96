//! Laws of the definitions alone: properties of rounds, whatever code judges them.
//!
//! Each law is the clause of a function that does nothing. So it is proved with the crate, and a
//! caller who calls the function may use it.

ghost use Rattle.mig_assemble.specs.Law.{RoundIsLawful, PacketsComeInAnyOrder, LawfulRoundsLieInTheTable};

/// A round has no refusal exactly if it is lawful. So `Target::round` refuses a lawful round with
/// `NoMemory` alone.
pub fn round_is_lawful()
    ensures { RoundIsLawful }
{}

/// The order of a round's packets changes neither whether it is refused, and why, nor the memory
/// that it leaves. So neither the channels nor the times of their arrival matter.
pub fn packets_come_in_any_order()
    ensures { PacketsComeInAnyOrder }
{}

/// The pages of a lawful round are in the table, if its records are.
pub fn lawful_rounds_lie_in_the_table()
    ensures { LawfulRoundsLieInTheTable }
{}
