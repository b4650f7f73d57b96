//! Counts the pages of a block that differ, and lists them as ranges.

ghost use Rattle.std.specs.Prelude.{◌≡◌, ◌+◌, ◌↔◌, ◌<◌, ◌≤◌, ◌^◌, IfOk, IsSome, IfSome};

use std::alloc::{AllocError, Global};
use std::io::{self, Write};

/// The most ranges that are listed for a block.
const MOST_RANGES: usize = 16;

/// Consecutive pages, from the first to the last one.
#[derive(Clone, Copy, Debug, PartialEq, Eq)]
pub(crate) struct PageRange {
    pub first: u64,
    pub last: u64,
}

impl PageRange {
    /// Returns the range with `page` added at its end; None if `page` doesn't follow it.
    pub(crate) fn with(self, page: u64) -> Option<PageRange>
        ensures follows { IsSome result ↔ (self.last + 1 ≡ page) }
        ensures value { IfSome result (λ range. range ≡ record { first = self.first; last = page }) }
    {
        if self.last < page && page - self.last == 1 {
            return Some(PageRange {
                first: self.first,
                last: page,
            });
        }
        None
    }
}

/// The pages of a block that differ.
#[derive(Drop)]
pub(crate) struct Differing {
    /// The number of pages.
    pub count: u64,
    /// The first ranges of pages.
    pub ranges: Vec<PageRange>,
    /// Whether there are more ranges.
    pub has_more: bool,
}

impl Differing {
    /// Creates an empty list.
    pub(crate) fn new(alloc: Global) -> Differing {
        Differing {
            count: 0,
            ranges: Vec::new(alloc),
            has_more: false,
        }
    }

    /// Adds `page`, which follows all pages added before.
    pub(crate) fn add(&mut self, page: u64) -> Result<(), AllocError>
        ensures count { IfOk result (λ _. self.old.count + 1 < 2 ^ 64 → self.new.count ≡ self.old.count + 1) }
    {
        self.count = self.count.saturating_add(1);
        if let Some(last) = self.ranges.last_mut()
            && let Some(longer) = last.with(page)
        {
            *last = longer;
            return Ok(());
        }
        if self.ranges.len() < MOST_RANGES {
            self.ranges.push(PageRange {
                first: page,
                last: page,
            })?;
        } else {
            self.has_more = true;
        }
        Ok(())
    }

    /// Writes the ranges, as `0-3, 7`.
    pub(crate) fn put<W: Write>(&self, output: &mut W) -> io::Result<()> {
        let mut before = "";
        for range in &self.ranges {
            let first = range.first;
            let last = range.last;
            write!(output, "{before}{first}")?;
            if first != last {
                write!(output, "-{last}")?;
            }
            before = ", ";
        }
        if self.has_more {
            write!(output, ", ..")?;
        }
        Ok(())
    }
}
