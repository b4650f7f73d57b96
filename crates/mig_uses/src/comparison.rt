//! Compares two memories: tests a migration before the guest at the old host is let go.

ghost use Rattle.mig_uses.specs.Comparison.{IsComparison};

use std::alloc::Allocator;
use zimgasol::{Memory, Place, first_difference};

/// The outcome of a comparison.
#[derive(Clone, Copy, Debug, PartialEq, Eq)]
pub enum Comparison {
    /// The memories have the same table and the same contents.
    Same,
    /// The page sizes or the blocks differ, and no page was compared.
    OtherTable,
    /// The first page where they differ.
    Differ(Place),
}

/// Compares a guest's memory at the old host with that at the new one. If they are the same, it
/// reads both whole, but for pages that neither has written.
pub fn compare<A: Allocator, B: Allocator>(here: &Memory<A>, there: &Memory<B>) -> Comparison
    ensures { IsComparison here.now there.now result }
{
    if !here.table().same(there.table()) {
        return Comparison::OtherTable;
    }
    match first_difference(here, there) {
        Some(place) => Comparison::Differ(place),
        None => Comparison::Same,
    }
}

#[cfg(test)]
mod tests {
    use super::*;
    use mig_fixtures::{at, set, zeroed};

    #[test]
    fn compared(rt: HostRuntime) {
        let mut here = zeroed(rt.alloc(), &[("a", 1), ("b", 3)]).expect(&rt, "a memory");
        let mut there = zeroed(rt.alloc(), &[("a", 1), ("b", 3)]).expect(&rt, "a memory");
        assert!(rt; compare(&here, &there) == Comparison::Same);
        // bytes 4100 and 8192 of block 1 lie in its pages 1 and 2
        assert!(rt; set(&mut here, 1, 4100, 5) && set(&mut there, 1, 8192, 5));
        assert!(rt; compare(&here, &there) == Comparison::Differ(at(1, 1)));
        assert!(rt; set(&mut there, 1, 4100, 5));
        assert!(rt; compare(&here, &there) == Comparison::Differ(at(1, 2)));
        let other = zeroed(rt.alloc(), &[("a", 1), ("c", 3)]).expect(&rt, "a memory");
        assert!(rt; compare(&here, &other) == Comparison::OtherTable);
    }
}
