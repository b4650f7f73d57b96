//! A load's fault as C sees it.

ghost use Rattle.std.specs.Prelude.{◌≡◌};
ghost use Rattle.mig_c_loads.specs.Found.{source_number, carried_of_stream, carried_of_round, carried, found_of, origin_of, seen_of_source, no_fault, so_far, seen_so_far, goes_on};

use mig_assemble::RoundFault;
use mig_c_calls::status::{RUNNING, STREAM_TRUNCATED};
use mig_load_types::{Fault, LoadFault, Origin};
use mig_packet::ChannelFault;
use mig_sources::Source;
use mig_stream::StreamFault;

/// Where a load ended, and why.
#[repr(C)]
#[derive(Clone, Copy)]
pub struct FoundFault {
    /// How many rounds were counted before the fault.
    pub round: u64,
    /// The source: 0 is the main stream, 1 + j is channel j. The largest number is the round
    /// itself.
    pub source: u64,
    /// The fault's number.
    pub number: u32,
    /// The fault's detail: flags, a byte, the number of a packet or of a block.
    pub first: u64,
    /// The fault's second detail: the number of an offset, or of a page.
    pub second: u64,
    /// Zeros, reserved for later versions.
    pub reserved: [u64; 3],
}

// The value for no fault.
const NONE: FoundFault = FoundFault {
    round: 0,
    source: 0,
    number: 0,
    first: 0,
    second: 0,
    reserved: [0; 3],
};

fn source_number(origin: Origin) -> u64
    ensures { result ≡ source_number origin }
{
    match origin {
        Origin::Main => 0,
        Origin::Channel(channel) => (channel as u64).saturating_add(1),
        Origin::Round => u64::MAX,
    }
}

// Returns what a fault of a stream carries.
fn of_stream(fault: StreamFault) -> (u64, u64)
    ensures { result ≡ carried_of_stream fault }
{
    match fault {
        StreamFault::Flags(flags) => (u64::from(flags), 0),
        StreamFault::Fill(byte) => (u64::from(byte), 0),
        _ => (0, 0),
    }
}

// Returns what a fault of a round carries.
fn of_round(fault: RoundFault) -> (u64, u64)
    ensures { result ≡ carried_of_round fault }
{
    match fault {
        RoundFault::Foreign(number)
        | RoundFault::Doubled(number)
        | RoundFault::Missing(number)
        | RoundFault::UnknownBlock(number) => (number, 0),
        RoundFault::Offset(number, i) => (number, i as u64),
        RoundFault::DoublePage(place) => (place.block as u64, place.page),
        RoundFault::NoMemory => (0, 0),
    }
}

// Returns what a fault carries.
fn carried(fault: Fault) -> (u64, u64)
    ensures { result ≡ carried fault }
{
    match fault {
        Fault::Stream(fault) => of_stream(fault),
        Fault::Channel(ChannelFault::PacketFlags(flags)) => (u64::from(flags), 0),
        Fault::Round(fault) => of_round(fault),
        _ => (0, 0),
    }
}

/// Returns the fault as C sees it.
pub(crate) fn found(fault: LoadFault) -> FoundFault
    ensures { result ≡ found_of fault }
{
    let (first, second) = carried(fault.fault);
    FoundFault {
        round: fault.round,
        source: source_number(fault.source),
        number: u32::from(fault.fault.number()),
        first,
        second,
        ..NONE
    }
}

/// Returns the value for no fault.
pub(crate) fn none() -> FoundFault
    ensures { result ≡ no_fault }
{
    NONE
}

// Returns the source as a fault names it.
fn origin_of(source: Source) -> Origin
    ensures { result ≡ origin_of source }
{
    match source {
        Source::Main => Origin::Main,
        Source::Channel(j) => Origin::Channel(j),
    }
}

/// Returns the fault of a source as C sees it, after `rounds` rounds, or that it has none.
pub(crate) fn of_source(rounds: u64, source: Source, fault: Option<Fault>) -> FoundFault
    ensures { result ≡ seen_of_source rounds source fault }
{
    match fault {
        None => none(),
        Some(fault) => found(LoadFault {
            round: rounds,
            source: origin_of(source),
            fault,
        }),
    }
}

// Returns the fault of a stream so far. If the stream hasn't ended, missing bytes aren't a fault.
fn so_far(fault: FoundFault, ended: bool) -> FoundFault
    ensures { result ≡ so_far ended fault }
{
    if !ended && fault.number == STREAM_TRUNCATED {
        return running(fault.round);
    }
    fault
}

/// Returns the verdict on one stream as C sees it. `ended` says whether the stream has ended.
pub(crate) fn of_verdict(verdict: Result<(), LoadFault>, ended: bool) -> FoundFault
    ensures { result ≡ seen_so_far ended verdict }
{
    match verdict {
        Ok(()) => none(),
        Err(fault) => so_far(found(fault), ended),
    }
}

/// Returns the value for a load that continues after `rounds` rounds.
pub(crate) fn running(rounds: u64) -> FoundFault
    ensures { result ≡ goes_on rounds }
{
    FoundFault {
        round: rounds,
        number: RUNNING,
        ..NONE
    }
}
