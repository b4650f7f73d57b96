//! Writes the fault of a main stream and its channels, with its place and what a user may do about
//! it.

ghost use Rattle.std.specs.Prelude.{◌≤◌};

use crate::advice::{Met, advice, owned};
use crate::verifying::{put_block, put_section};
use mig_assemble::RoundFault;
use mig_load_types::{Fault, LoadFault};
use mig_packet::ChannelFault;
use std::alloc::{AllocError, Global};
use std::fs::OpenFile;
use std::io::{self, Read, Write};
use zimgasol_reading::{Several, Spot, Within};

/// The flag of a packet that ends a round (`MULTIFD_FLAG_SYNC` in QEMU's `migration/multifd.h`).
const FLAG_SYNC: u32 = 0x01;

// Returns advice on a packet's flags, which aren't read.
fn flags_advice(flags: u32) -> &'static str {
    match flags & !FLAG_SYNC {
        0x02 => "zlib compressed the pages; migrate with multifd-compression none",
        0x04 => "zstd compressed the pages; migrate with multifd-compression none",
        0x08 => "qpl compressed the pages; migrate with multifd-compression none",
        0x10 => "uadk compressed the pages; migrate with multifd-compression none",
        0x20 => "qatzip compressed the pages; migrate with multifd-compression none",
        0x40 => "a packet with the state of a VFIO device has no other flag",
        _ => "the pages may be compressed; migrate with multifd-compression none",
    }
}

// Returns advice on a fault of a channel.
fn channel_advice(fault: ChannelFault) -> Option<&'static str> {
    match fault {
        ChannelFault::HelloMagic => Some("this is no channel of multifd's"),
        ChannelFault::HelloUuid => Some(
            "this channel belongs to another migration; pick one with `--uuid`",
        ),
        ChannelFault::HelloId => Some(
            "name every channel with `--channel`; one seems to be missing",
        ),
        ChannelFault::PacketFlags(flags) => Some(flags_advice(flags)),
        ChannelFault::PacketMagic | ChannelFault::PageCount | ChannelFault::PacketSize => {
            Some("the page size may be the other one (`--page`)")
        }
        ChannelFault::Truncated | ChannelFault::Unsynced => Some(
            "the file was cut, or the migration didn't come to its end",
        ),
        _ => None,
    }
}

// Returns advice on a fault, unless it is the main stream's.
fn advice_of(fault: Fault) -> Option<&'static str> {
    match fault {
        Fault::Channel(fault) => channel_advice(fault),
        Fault::HelloTwice => Some("two of these files are the same channel"),
        Fault::Round(RoundFault::Missing(_)) => Some(
            "each channel is named by `--channel`, and one may be missing or another migration's",
        ),
        Fault::Extra | Fault::Short => Some("the files may be of different migrations"),
        _ => None,
    }
}

/// Returns advice for the user on `fault`; None if there is none.
///
/// # Errors
///
/// `AllocError`: an allocation was refused.
pub(crate) fn several_advice<F: Read + OpenFile + Drop>(
    alloc: Global,
    several: &Several<F>,
    fault: Fault,
) -> Result<Option<String>, AllocError> {
    let Fault::Stream(fault) = fault else {
        return owned(alloc, advice_of(fault));
    };
    let met = Met {
        fault,
        frame: several.frame,
        item: several.main.item(),
        notes: several.main.read_notes(),
    };
    advice(alloc, &met)
}

// Writes a fault's place in its source.
fn put_within<W: Write>(
    output: &mut W,
    round: u64,
    within: Within,
    block: &Option<String>,
) -> io::Result<()> {
    let round = round.saturating_add(1);
    match within {
        Within::Hello => write!(output, "hello"),
        Within::Channel(packets) => write!(output, "round {round}, complete packets {packets}"),
        Within::Main(sections, kind) => {
            write!(output, "round {round}, ")?;
            put_section(output, sections, kind, block)
        }
        Within::Round => {
            write!(output, "round {round}")?;
            put_block(output, block)
        }
    }
}

/// Writes the error line on a fault: the file, the place in it, the fault, and advice.
pub(crate) fn put_spotted<W: Write>(
    output: &mut W,
    name: &str,
    spot: Spot,
    fault: LoadFault,
    block: &Option<String>,
    advice: &Option<String>,
) -> io::Result<()> {
    write!(output, "zimgasol: {name}: ")?;
    put_spot(output, fault.round, spot, block)?;
    put_found(output, fault.fault, advice)
}

// Writes a fault's place: the byte, if it has one, and where that is.
fn put_spot<W: Write>(
    output: &mut W,
    round: u64,
    spot: Spot,
    block: &Option<String>,
) -> io::Result<()> {
    let Some(byte) = spot.byte else {
        return put_within(output, round, spot.within, block);
    };
    write!(output, "byte {byte} (")?;
    put_within(output, round, spot.within, block)?;
    write!(output, ")")
}

// Writes the fault, and advice on it.
fn put_found<W: Write>(output: &mut W, fault: Fault, advice: &Option<String>) -> io::Result<()> {
    write!(output, ": fault {fault}")?;
    match advice {
        Some(advice) => writeln!(output, "; {advice}"),
        None => writeln!(output),
    }
}
