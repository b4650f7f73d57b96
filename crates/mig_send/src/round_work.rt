//! The values that a round's workers share, if they run on threads of the caller's
//! (`channel_worker`).

ghost use Rattle.std.specs.Prelude.{◌≡◌, ◌<◌, length};
ghost use Rattle.mig_mem.specs.PlaceSet.{IsPlaceSet};
ghost use Rattle.mig_send.specs.Batches.{IsCut};
ghost use Rattle.mig_send.specs.Work.{ClaimsBatches};
ghost use Rattle.mig_send.specs.Finding.{places_of, set_of_work};

use mig_deal::Deal;
use mig_mem::{Dirty, Table};
use std::alloc::Allocator;
use std::marker::Model;

/// The deal of a round, and the dirty pages whose batches its numbers claim. A worker finds them in
/// the set (`finder`), so there is no list of them.
pub(crate) struct RoundWork<A: Allocator> {
    pub(crate) deal: Deal<A>,
    pub(crate) dirty: Dirty<A>,
    // the most pages of a batch
    pub(crate) limit: usize,
    // how many batches there are
    pub(crate) count: u64,
}

// Written out, so that a caller's proof passes a call where a value is dropped.
impl<A: Allocator> Drop for RoundWork<A> {
    fn drop(self) {
        let RoundWork {
            deal: _,
            dirty: _,
            limit: _,
            count: _,
        } = self;
    }
}

impl<A: Allocator> Model for RoundWork<A> {
    ghost use Rattle.std.specs.Prelude.{◌≡◌, length};
    ghost use Rattle.mig_send.specs.ChannelWork.{RoundTerms};
    ghost use Rattle.mig_send.specs.Finding.{IsRoundWork, cut_of};

    ghost Value = { RoundTerms };

    ghost view = { λ w. record { deal = w.deal; table = w.dirty.table; batches = cut_of w.limit w.dirty.marked } };

    ghost invariant = { λ w. IsRoundWork w.dirty w.limit (record { deal = w.deal; table = w.dirty.table; batches = cut_of w.limit w.dirty.marked })
        × (w.count ≡ length (cut_of w.limit w.dirty.marked)) };
}

impl<A: Allocator> RoundWork<A> {
    /// Returns the round's dirty set.
    pub(crate) fn dirty(&self) -> &Dirty<A>
        ensures value { result.now ≡ set_of_work self.now }
        ensures set { IsPlaceSet result.now }
    {
        &self.dirty
    }

    /// Returns the table whose pages the round sends.
    pub(crate) fn table(&self) -> &Table<A>
        ensures { result.now ≡ self.now.table }
    {
        self.dirty.table()
    }

    /// Returns the most pages that a batch has.
    pub(crate) fn limit(&self) -> usize
        ensures some { 0 < result }
        ensures cut { IsCut result (places_of self.now) self.now.batches }
    {
        self.limit
    }

    /// Returns the number of batches.
    pub(crate) fn len(&self) -> u64
        ensures value { result ≡ length self.now.batches }
        ensures claims { ClaimsBatches self.now.deal self.now.table self.now.batches }
    {
        self.count
    }
}
