//! Up to which byte each source is valid, and the fault of its bytes, for `Session`. It also
//! returns them after it has dropped its readers.

ghost use Rattle.std.specs.Prelude.{◌≡◌, None, IfOk, replicate, slice_set};
ghost use Rattle.mig_answer.specs.Status.{fault_of};
ghost use Rattle.mig_session.specs.Session.{place_of, noted_fault, nothing_noted};

use mig_answer::Status;
use mig_load_types::Fault;
use mig_mem::NoMemory;
use mig_sources::Source;
use std::alloc::{Allocator, Global};
use std::marker::Model;

/// What is noted of a source.
#[derive(Clone, Copy)]
pub struct Noted {
    /// How many of its bytes are complete items without a fault, from the first byte on.
    pub(crate) valid_up_to: u64,
    /// The fault of its own bytes.
    pub(crate) fault: Option<Fault>,
}

const NOTHING: Noted = Noted {
    valid_up_to: 0,
    fault: None,
};

/// Returns the fault of a source that has one.
pub(crate) fn fault_of(status: Status) -> Option<Fault>
    ensures { result ≡ fault_of status }
{
    match status {
        Status::Bad(fault) => Some(fault),
        Status::Whole | Status::Clean | Status::Pending => None,
    }
}

/// What is noted of each source, and where the main stream is closed.
#[derive(Drop)]
pub(crate) struct SourcePlaces<A: Allocator = Global> {
    main: Noted,
    closed_at: Option<u64>,
    channels: Vec<Noted, A>,
}

impl<A: Allocator> Model for SourcePlaces<A> {
    ghost use Rattle.mig_session.specs.Sources.{Places};

    ghost Value = { Places };

    ghost view = { λ p. record { main = p.main; closed_at = p.closed_at; channels = p.channels.items } };
}

impl<A: Allocator> SourcePlaces<A> {
    /// Creates what is noted of a main stream and `channels` channels of which nothing was read.
    pub(crate) fn new(alloc: A, channels: usize) -> Result<SourcePlaces<A>, NoMemory>
        ensures { IfOk result (λ p. p ≡ record { main = nothing_noted; closed_at = None; channels = replicate channels nothing_noted }) }
    {
        let mut noted = Vec::with_capacity(alloc, channels)?;
        for _ in 0..channels {
            noted.push_reserved(NOTHING);
        }
        Ok(SourcePlaces {
            main: NOTHING,
            closed_at: None,
            channels: noted,
        })
    }

    /// Notes the main stream, and where it is closed.
    pub(crate) fn set_main(&mut self, noted: Noted, closed_at: Option<u64>)
        ensures { self.new ≡ record self.old { main = noted; closed_at = closed_at } }
    {
        self.main = noted;
        self.closed_at = closed_at;
    }

    /// Notes channel `j`, if there is one.
    #[tactic(auto, using(crate::proofs::FedSources::set_beyond))]
    pub(crate) fn set_channel(&mut self, j: usize, noted: Noted)
        ensures { self.new ≡ record self.old { channels = slice_set self.old.channels j noted } }
    {
        if j < self.channels.len() {
            self.channels[j] = noted;
        }
    }

    /// Returns up to which byte `source` is valid. None for a channel that doesn't exist.
    pub(crate) fn valid_up_to(&self, source: Source) -> Option<u64>
        ensures { result ≡ place_of self.now source }
    {
        match source {
            Source::Main => Some(self.main.valid_up_to),
            Source::Channel(j) => match self.channels.get(j) {
                Some(noted) => Some(noted.valid_up_to),
                None => None,
            },
        }
    }

    /// Returns the fault of `source`. None for a channel that doesn't exist.
    pub(crate) fn fault_of(&self, source: Source) -> Option<Fault>
        ensures { result ≡ noted_fault self.now source }
    {
        match source {
            Source::Main => self.main.fault,
            Source::Channel(j) => match self.channels.get(j) {
                Some(noted) => noted.fault,
                None => None,
            },
        }
    }

    /// Returns where the main stream is closed.
    pub(crate) fn closed_at(&self) -> Option<u64>
        ensures { result ≡ self.now.closed_at }
    {
        self.closed_at
    }
}
