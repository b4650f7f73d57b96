//! Laws of the rule alone: what is true of a deal between any two steps, since each step keeps the
//! rule.
//!
//! Each law is the clause of a function that does nothing. So it is proved with the crate, and a
//! caller who calls the function may use it.

ghost use Rattle.mig_deal.specs.History.{EachNumberOnce, EachNumberHasOneSeat, WordStaysBelow, SeatsStopAtLast};

/// Between any two steps of any number of seats, the lists of all seats hold each number from the
/// base up to the word (exclusive) exactly once. So the history of the draws can be read from the
/// word and the lists. Its entry i, from 0, has the number base + i, and belongs to the one seat
/// that holds this number.
///
/// The word is at most the base plus all batches and all seats, so it never wraps. A seat has drawn
/// at most one last number, which claims no batch, and no number after it.
pub fn numbers_between_steps()
    ensures once { EachNumberOnce }
    ensures one_seat { EachNumberHasOneSeat }
    ensures bounded { WordStaysBelow }
    ensures stops { SeatsStopAtLast }
{}
