//! Gives advice on a fault of a stream, by what was met there.

use mig_stream::{Frame, StreamFault};
use std::alloc::{AllocError, Global};
use zimgasol_files::shown;
use zimgasol_reading::{Note, Noted, section_id, section_name};

/// Type bytes of sections and other items (`migration/savevm.h` of QEMU).
const VM_EOF: u8 = 0x00;

const SECTION_START: u8 = 0x01;

const SECTION_PART: u8 = 0x02;

const SECTION_END: u8 = 0x03;

const SECTION_FULL: u8 = 0x04;

const SUBSECTION: u8 = 0x05;

const COMMAND: u8 = 0x08;

/// Flags of a page record (`migration/ram.c` of QEMU).
const FLAG_CONTINUE: u16 = 0x20;

const FLAG_XBZRLE: u16 = 0x40;

const FLAG_COMPRESS_PAGE: u16 = 0x100;

/// The end of a section's name: the state of virtio-mem that comes before RAM's pages. It is read
/// there in version 1.
const VIRTIO_MEM_EARLY: &[u8] = b"/virtio-mem-device-early";

/// The names of sections that a setting of the migration adds.
const DIRTY_BITMAP: &[u8] = b"dirty-bitmap";

const BLOCK_MIGRATION: &[u8] = b"block";

/// What the section of any other device is.
const OTHER_DEVICE: &str = "a device that saves its state before RAM's END, which isn't read";

/// The first bytes of files that aren't a stream, and what they are.
const KNOWN_FILES: [(&[u8], &str); 8] = [
    (
        b"\x1f\x8b",
        "gzip compressed it: `gzip -dc FILE | zimgasol verify -`",
    ),
    (
        b"\xfd7zXZ\0",
        "xz compressed it: `xz -dc FILE | zimgasol verify -`",
    ),
    (
        b"\x28\xb5\x2f\xfd",
        "zstd compressed it: `zstd -dc FILE | zimgasol verify -`",
    ),
    (
        b"\x89LZO",
        "lzop compressed it: `lzop -dc FILE | zimgasol verify -`",
    ),
    (
        b"BZh",
        "bzip2 compressed it: `bzip2 -dc FILE | zimgasol verify -`",
    ),
    (
        b"\x16\x03",
        "these are bytes of TLS, which hide the stream: migrate without `tls-creds`",
    ),
    (
        b"\x7fELF",
        "this is an ELF file, as `dump-guest-memory` writes it: save by `migrate`",
    ),
    (
        b"QFI\xfb",
        "this is a qcow2 image, and a snapshot in it isn't read: save by `migrate`",
    ),
];

const NO_STREAM: &str =
    "not a QEMU migration stream; if compressed: `zstd -dc FILE | zimgasol verify -`";

const OTHER_PAGE_SIZE: &str = "the page size may be the other one (`--page`)";

const OTHER_FRAME: &str = "this looks like a full machine stream; drop `--frame ram`";

/// A fault of a stream, and what was met up to it.
#[derive(Clone, Copy)]
pub(crate) struct Met<'a> {
    pub fault: StreamFault,
    pub frame: Frame,
    /// The first bytes of the item with the fault.
    pub item: &'a [u8],
    /// The items between the sections.
    pub notes: &'a [Note],
}

/// Returns advice for the user on a fault; None if there is none.
///
/// # Errors
///
/// `AllocError`: an allocation was refused.
pub(crate) fn advice(alloc: Global, met: &Met<'_>) -> Result<Option<String>, AllocError> {
    match met.fault {
        StreamFault::SectionType => type_advice(alloc, met),
        StreamFault::SectionName => name_advice(alloc, met, 0),
        StreamFault::SectionId => id_advice(alloc, met, 0),
        _ => owned(alloc, plain_advice(met)),
    }
}

/// Returns a copy of `text`, if there is one.
///
/// # Errors
///
/// `AllocError`: an allocation was refused.
pub(crate) fn owned(alloc: Global, text: Option<&str>) -> Result<Option<String>, AllocError> {
    match text {
        Some(text) => Ok(Some(String::from_str(alloc, text)?)),
        None => Ok(None),
    }
}

// Returns advice on an unexpected section type.
fn type_advice(alloc: Global, met: &Met<'_>) -> Result<Option<String>, AllocError> {
    let Some(byte) = met.item.first() else {
        return Ok(None);
    };
    match *byte {
        SECTION_START | SECTION_FULL | SUBSECTION | COMMAND if matches!(met.frame, Frame::Ram) => {
            owned(alloc, Some(OTHER_FRAME))
        }
        SECTION_FULL | SECTION_START => name_advice(alloc, met, 1),
        SECTION_PART | SECTION_END => id_advice(alloc, met, 1),
        VM_EOF => owned(alloc, Some("the stream ends before RAM's END")),
        _ => Ok(None),
    }
}

// Returns advice on a section that isn't RAM's, whose head begins at the byte `at` of the item.
fn name_advice(alloc: Global, met: &Met<'_>, at: usize) -> Result<Option<String>, AllocError> {
    let Some(name) = section_name(met.item, at) else {
        return owned(alloc, Some(OTHER_DEVICE));
    };
    let why = device_advice(name);
    let name = shown(alloc, name)?;
    Ok(Some(format!(in alloc; "the section of \"{name}\": {why}")?))
}

// Returns what the section `name` is.
fn device_advice(name: &[u8]) -> &'static str {
    if name.ends_with(VIRTIO_MEM_EARLY) {
        return "virtio-mem's state, which is read in version 1 and before RAM's first PART alone";
    }
    if name == DIRTY_BITMAP {
        return "bitmaps of disks, which aren't read: save without `dirty-bitmaps`";
    }
    if name == BLOCK_MIGRATION {
        return "the contents of disks, which aren't read: save without block migration";
    }
    OTHER_DEVICE
}

// Returns advice on a section that goes on or ends, and isn't RAM's. Its head begins at the byte
// `at` of the item.
fn id_advice(alloc: Global, met: &Met<'_>, at: usize) -> Result<Option<String>, AllocError> {
    let Some(id) = section_id(met.item, at) else {
        return Ok(None);
    };
    Ok(Some(format!(in alloc; "the section with the id {id}: {OTHER_DEVICE}")?))
}

// Returns advice on any other fault.
fn plain_advice(met: &Met<'_>) -> Option<&'static str> {
    match met.fault {
        StreamFault::Magic => Some(file_advice(met.item)),
        StreamFault::Flags(flags) => Some(flags_advice(flags)),
        StreamFault::PageBits | StreamFault::Length => Some(OTHER_PAGE_SIZE),
        StreamFault::Flush => Some(
            "the pages of this stream went over multifd's channels; name each by `--channel`",
        ),
        StreamFault::Tail => Some(
            "QEMU ends each round by a FLUSH or an EOS; this stream has both, and no FLUSH at its end",
        ),
        StreamFault::Truncated => Some("the file was cut, or the save didn't come to its end"),
        StreamFault::Capability => Some(
            "give the file by its name, not through a pipe; or save without mapped-ram",
        ),
        StreamFault::Command => Some(
            "a migration that went over to postcopy isn't complete in a file",
        ),
        _ => None,
    }
}

// Returns what a file is that begins with `item`.
fn file_advice(item: &[u8]) -> &'static str {
    for (front, what) in KNOWN_FILES {
        if item.starts_with(front) {
            return what;
        }
    }
    NO_STREAM
}

// Returns advice on a record's flags.
fn flags_advice(flags: u16) -> &'static str {
    match flags & !FLAG_CONTINUE {
        FLAG_XBZRLE => "the save used xbzrle, which isn't read: save without it",
        FLAG_COMPRESS_PAGE => {
            "the save used the capability compress, which isn't read: save without it"
        }
        _ => "the page size may be the other one (`--page`), or the save used mapped-ram",
    }
}
