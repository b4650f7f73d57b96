//! The seats of a deal, and what a draw returns. Each worker of `mig_send` owns one.

ghost use Rattle.std.specs.Prelude.{◌≡◌, []};
ghost use Rattle.mig_deal.specs.Rule.{holding, terms_of, last_count};

use crate::rule::Holding;
use atomic_table::Seat as TableSeat;
use std::fmt;
use std::marker::Model;

/// One worker's right to draw. It has no bytes, and it can't be copied. Its worker draws until the
/// last number. If a seat is dropped before, its deal can only be dropped too: `close` and
/// `end_number` take a spent seat for each seat.
#[derive(Drop)]
pub struct Seat {
    pub(crate) inner: TableSeat<(), Holding>,
}

impl Model for Seat {
    ghost use Rattle.std.specs.Prelude.{◌≡◌, []};
    ghost use Rattle.mig_deal.specs.Deal.{SeatView};

    ghost Value = { SeatView };

    ghost use Rattle.mig_deal.specs.Rule.{seat_view, IsSeatWithLasts};

    ghost view = { λ s. seat_view s.inner.table_id s.inner.me.0 };

    ghost invariant = { λ s. (s.inner.me.1 ≡ []) × IsSeatWithLasts 0 s.inner.me.0 };
}

impl fmt::Debug for Seat {
    fn fmt<W: fmt::Write>(&self, f: &mut fmt::Formatter<W>) -> fmt::Result {
        f.pad("Seat { .. }")
    }
}

/// A spent seat, which has drawn its last number. It can't be copied. `Deal::close` and
/// `Deal::end_number` take one for each seat of the deal. If one is dropped, neither can be called.
#[derive(Drop)]
pub struct Spent {
    pub(crate) inner: TableSeat<(), Holding>,
}

impl Model for Spent {
    ghost use Rattle.std.specs.Prelude.{◌≡◌, []};
    ghost use Rattle.mig_deal.specs.Deal.{SeatView};

    ghost Value = { SeatView };

    ghost use Rattle.mig_deal.specs.Rule.{seat_view, IsSeatWithLasts};

    ghost view = { λ s. seat_view s.inner.table_id s.inner.me.0 };

    ghost invariant = { λ s. (s.inner.me.1 ≡ []) × IsSeatWithLasts 1 s.inner.me.0 };
}

impl fmt::Debug for Spent {
    fn fmt<W: fmt::Write>(&self, f: &mut fmt::Formatter<W>) -> fmt::Result {
        f.pad("Spent { .. }")
    }
}

impl Spent {
    pub(crate) fn into_inner(self) -> TableSeat<(), Holding>
        ensures deal { result.table_id ≡ self.deal.id }
        ensures drawn { result.me ≡ (holding (terms_of self.deal) 1 self.drawn [], []) }
        ensures last { last_count (terms_of self.deal) self.drawn ≡ 1 }
    {
        let Spent { inner } = self;
        inner
    }
}

/// The result of a draw: a number that claims a batch, and the seat for further draws; or the
/// seat's last number, which claims none.
#[derive(Debug)]
pub enum Drawn {
    Work(u64, Seat),
    Last(u64, Spent),
}
