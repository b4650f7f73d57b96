//! Reads a saved guest in pieces, for the program `zimgasol`: a single stream, or a main stream
//! with its channels.
//!
//! Pages are passed to a `PageSink` as they come, so that no guest is kept. The libraries read the
//! bytes, and define their faults (`mig_stream`, `mig_packet`); here is what a person wants to know
//! beside: what is between the sections, how many pages each block has, and where a fault is.
//!
//! | Modules | What they do |
//! |---|---|
//! | `survey`, `noting`, `beside` | read a single stream |
//! | `libvirt`, `heads`, `place` | read libvirt's header, and locate a fault |
//! | `several`, `main_stream`, `channel`, `lane`, `several_place` | the same of channels |
//! | `inlet` | reads the file of a channel, and passes over the packets of devices |
//! | `load`, `passing`, `shadow` | load the channels, and pass the pages on |
//! | `notes` | notes what is between RAM's sections |
//! | `tail`, `description` | check what follows RAM, and list the devices |
//! | `blocks` | counts the page records of each block, and the pages without any |
//! | `front` | keeps the bytes before RAM's records |
//! | `sink` | takes the pages, and the bytes before and after RAM |
//! | `laws` | laws of the memory that a stream leaves |
#![tactic(auto)]

mod beside;
mod blocks;
mod channel;
mod description;
mod front;
mod heads;
mod inlet;
mod lane;
mod laws;
mod libvirt;
mod load;
mod main_stream;
mod notes;
mod noting;
mod passing;
mod place;
mod several;
mod several_place;
mod shadow;
mod sink;
mod survey;
mod tail;

pub use blocks::{Blocks, Coverage, PageCounts};
pub use channel::Channel;
pub use description::Device;
pub use front::MOST_FRONT_LEN;
pub use heads::{Head, section_id, section_name};
pub use inlet::Inlet;
pub use lane::{ChannelCounts, Lane};
pub use laws::{records_make_the_rounds, streams_over_zeros_make_loads};
pub use libvirt::{LibvirtHeader, header_of};
pub use load::{Load, Reporting};
pub use main_stream::MainStream;
pub use notes::{Note, Noted, Notes, SectionKind};
pub use place::{FaultPlace, block_at, fault_of, is_complete, kind_name};
pub use several::{Several, read_inputs, read_several};
pub use several_place::{Spot, Within};
pub use sink::{GuestSink, NoSink, PageSink, SinkTrouble};
pub use survey::{Survey, read_input};
pub use tail::{Ending, Tail, TailFault};
