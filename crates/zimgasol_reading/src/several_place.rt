//! Locates the fault of a main stream and its channels.

ghost use Rattle.std.specs.Prelude.{◌≤◌};

use crate::notes::SectionKind;
use crate::several::Several;
use mig_assemble::RoundFault;
use mig_load_types::{Fault, LoadFault, Origin};
use mig_packet::ChannelFault;
use mig_stream::StreamFault;
use std::alloc::Global;
use std::fs::OpenFile;
use std::io::Read;
use zimgasol_files::{Trouble, shown};

/// The source that a fault is in, and where in it.
#[derive(Clone, Copy)]
pub enum Within {
    /// The main stream: the complete sections before the fault, and the kind of the section that it
    /// is in; None between two.
    Main(u64, Option<SectionKind>),
    /// A channel's hello.
    Hello,
    /// A channel: the complete packets before the fault.
    Channel(u64),
    /// The round of all sources.
    Round,
}

/// The place of a fault.
#[derive(Clone, Copy)]
pub struct Spot {
    /// The byte of the source at which the item with the fault begins; of a source that was cut,
    /// the byte at which it ends. None of a round's fault.
    pub byte: Option<u64>,
    pub within: Within,
}

impl Spot {
    const ROUND: Spot = Spot {
        byte: None,
        within: Within::Round,
    };
}

// Returns whether a fault of a channel is in its hello.
fn is_of_hello(fault: Fault) -> bool {
    match fault {
        Fault::HelloTwice => true,
        Fault::Channel(fault) => matches!(
            fault,
            ChannelFault::HelloMagic
                | ChannelFault::HelloVersion
                | ChannelFault::HelloUuid
                | ChannelFault::HelloId
        ),
        _ => false,
    }
}

// Returns whether the fault is a source that ended too early.
fn is_cut(fault: Fault) -> bool {
    match fault {
        Fault::Stream(StreamFault::Truncated) => true,
        Fault::Channel(ChannelFault::Truncated | ChannelFault::Unsynced) => true,
        Fault::Short => true,
        _ => false,
    }
}

impl<F: Read + OpenFile + Drop> Several<F> {
    /// Returns the place of `fault`.
    pub fn spot(&self, fault: LoadFault) -> Spot {
        match fault.source {
            Origin::Main => self.main_spot(fault.fault),
            Origin::Channel(number) => self.channel_spot(number, fault.fault),
            Origin::Round => Spot::ROUND,
        }
    }

    // Returns the place of a fault of the main stream.
    fn main_spot(&self, fault: Fault) -> Spot {
        let (count, kind) = self.main.section();
        let byte = if is_cut(fault) {
            self.main.len()
        } else {
            self.main.valid()
        };
        Spot {
            byte: Some(byte),
            within: Within::Main(count, kind),
        }
    }

    // Returns the place of a fault of the channel `number`.
    fn channel_spot(&self, number: usize, fault: Fault) -> Spot {
        let Some(channel) = self.channels.get(number) else {
            return Spot::ROUND;
        };
        let counts = channel.lane.counts;
        let byte = match fault {
            fault if is_cut(fault) => channel.inlet.read(),
            Fault::HelloTwice => 0,
            Fault::Extra => counts.round_start.unwrap_or(counts.valid),
            _ => counts.valid,
        };
        let within = if is_of_hello(fault) || channel.lane.hello().is_none() {
            Within::Hello
        } else {
            Within::Channel(counts.packets)
        };
        Spot {
            byte: Some(byte),
            within,
        }
    }

    /// Returns the id of the block that a round's fault is in, as it is printed.
    pub fn fault_block(&self, alloc: Global, fault: LoadFault) -> Result<Option<String>, Trouble> {
        let Fault::Round(RoundFault::DoublePage(place)) = fault.fault else {
            return Ok(None);
        };
        match &self.blocks {
            Some(blocks) if place.block < blocks.table.len() => {
                Ok(Some(shown(alloc, blocks.table.id(place.block))?))
            }
            _ => Ok(None),
        }
    }
}
