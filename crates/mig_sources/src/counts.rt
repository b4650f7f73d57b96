//! The counts of each source's bytes.

ghost use Rattle.std.specs.Prelude.{◌≡◌, ◌+◌, ◌<◌, ◌≤◌, ◌^◌, IfOk, length, replicate};
ghost use Rattle.mig_sources.specs.Sources.{HasSource, count_of, no_count, with_fed, with_end};

use crate::Source;
use mig_mem::NoMemory;
use std::alloc::{Allocator, Global};
use std::marker::Model;

/// The count of a source's bytes, and whether it has ended.
#[derive(Clone, Copy)]
pub struct Count {
    /// The number of bytes.
    pub fed: u64,
    /// Whether the source has ended.
    pub ended: bool,
}

const NOTHING: Count = Count {
    fed: 0,
    ended: false,
};

/// The counts of all sources.
pub struct SourceCounts<A: Allocator = Global> {
    main: Count,
    channels: Vec<Count, A>,
}

// Written out, so that a caller's proof passes a call where a value is dropped.
impl<A: Allocator> Drop for SourceCounts<A> {
    fn drop(self) {
        let SourceCounts {
            main: _,
            channels: _,
        } = self;
    }
}

impl<A: Allocator> Model for SourceCounts<A> {
    ghost use Rattle.mig_sources.specs.Sources.{Counts};

    ghost Value = { Counts };

    ghost view = { λ c. record { main = c.main; channels = c.channels.items } };
}

impl<A: Allocator> SourceCounts<A> {
    /// Creates zero counts for a main stream and `channels` channels.
    pub fn new(alloc: A, channels: usize) -> Result<SourceCounts<A>, NoMemory>
        ensures { IfOk result (λ c. c ≡ record { main = no_count; channels = replicate channels no_count }) }
    {
        let mut counts = Vec::with_capacity(alloc, channels)?;
        for _ in 0..channels {
            counts.push_reserved(NOTHING);
        }
        Ok(SourceCounts {
            main: NOTHING,
            channels: counts,
        })
    }

    /// Returns the number of channels.
    pub fn channels(&self) -> usize
        ensures { result ≡ length self.now.channels }
    {
        self.channels.len()
    }

    /// Returns the count of a source.
    pub fn of(&self, source: Source) -> Count
        requires { HasSource self.now source }
        ensures { result ≡ count_of self.now source }
    {
        match source {
            Source::Main => self.main,
            Source::Channel(j) => self.channels[j],
        }
    }

    /// Counts a piece of `len` bytes of `source`.
    pub fn add(&mut self, source: Source, len: usize)
        requires source { HasSource self.old source }
        requires room { (count_of self.old source).fed + len < 2 ^ 64 }
        ensures { self.new ≡ with_fed self.old source len }
    {
        match source {
            Source::Main => self.main.fed += len as u64,
            Source::Channel(j) => self.channels[j].fed += len as u64,
        }
    }

    /// Notes that `source` has ended.
    pub fn end(&mut self, source: Source)
        requires { HasSource self.old source }
        ensures { self.new ≡ with_end self.old source }
    {
        match source {
            Source::Main => self.main.ended = true,
            Source::Channel(j) => self.channels[j].ended = true,
        }
    }
}
