//! The rule of a deal's word, and the kinds of steps under it, for `deal` and `seat`.
//!
//! Nothing here runs. `atomic_table` requires of each step that it keeps the rule, for any value of
//! the word and of all seats. In return the step has what its kind promises.
//!
//! The steps are: the word is made with one seat; one seat is split in two; a draw; one seat is
//! joined into another; a read by the seat that all others were joined into; the end.

use atomic_table::{Join, Play, Split, TableRule};
use std::collections::LinkedList;

/// The first number, how many batches there are, and how many seats.
#[derive(Clone, Copy)]
pub struct Terms {
    pub base: u64,
    pub batches: u64,
    pub seats: usize,
}

/// The seats that a seat represents. No value of this type is made: only proofs know it.
pub struct Holding {
    /// The terms of the seat's deal.
    pub terms: Terms,
    /// The number of the deal's seats that it represents: one, except for the first seat until it
    /// is split, and for the seats that are joined at the end.
    pub seats: usize,
    /// The numbers that it drew, in order.
    pub drawn: LinkedList<u64>,
    /// The numbers of the seats that were joined into it.
    pub joined: LinkedList<u64>,
}

/// The invariant of a deal's word and of all seats between any two steps.
pub struct DealRule;

impl TableRule<(), Holding, Terms> for DealRule {
    ghost use Rattle.std.specs.Prelude.{[]};
    ghost use Rattle.mig_deal.specs.Rule.{IsDealt, holding};

    ghost holds = { λ terms table. IsDealt terms table };

    ghost first = { λ terms. holding terms terms.seats [] [] };
}

/// The step of a draw: the seat gets the word's number, and the word is incremented.
pub struct DrawNumber;

impl Play<(), Holding> for DrawNumber {
    ghost use Rattle.mig_deal.specs.Rule.{TellsNumber};

    ghost then = { TellsNumber };
}

/// The step that splits a new seat off one that represents several.
pub struct SplitSeat;

impl Split<Holding> for SplitSeat {
    ghost use Rattle.mig_deal.specs.Rule.{without_one_seat, one_new_seat};

    ghost left = { without_one_seat };

    ghost right = { one_new_seat };
}

/// The step by which a seat takes in another with its numbers.
pub struct JoinSeats;

impl Join<Holding> for JoinSeats {
    ghost use Rattle.mig_deal.specs.Rule.{together, nothing_held};

    ghost both = { together };

    ghost spent = { nothing_held };
}

/// The step by which a seat that represents all reads the word.
pub struct FindEnd;

impl Play<(), Holding> for FindEnd {
    ghost use Rattle.mig_deal.specs.Rule.{TellsEnd};

    ghost then = { TellsEnd };
}
