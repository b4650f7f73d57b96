//! Where a page is: its block, and its number in the block. Every crate names pages by it.

ghost use Rattle.std.specs.Prelude.{◌≡◌};

/// A page of a guest, by the number of its RAM block and its number in the block, both from 0.
/// Places order by block, then page.
#[derive(Clone, Copy, Debug, PartialEq, Eq, PartialOrd, Ord, Hash)]
pub struct Place {
    pub block: usize,
    pub page: u64,
}

impl Place {
    ghost use Rattle.mig_mem.specs.Place.{place_lt};

    /// Returns whether this place comes before `other`: the order of `<`.
    pub fn is_before(self, other: Place) -> bool
        ensures { result ≡ place_lt self other }
    {
        self < other
    }
}
