//! The slots of a deal's seats. Definitions in the specs name them, so they are built without the
//! tests too.

use mig_deal::{Seat, Spent};

/// A seat before its worker ran, and the spent seat afterwards.
pub enum Slot {
    Waiting(Seat),
    Running,
    Done(Spent),
}
