//! The head of a block: its entry, the header after it and its bitmap. `MappedIndex` takes one
//! after another.

ghost use Rattle.std.specs.Prelude.{◌≡◌, ◌+◌, ◌≤◌, length};
ghost use Rattle.mig_mapped.specs.Head.{entry_len, bitmap_start, version_in, page_size_in, bitmap_offset_in, pages_offset_in};
ghost use Rattle.mig_stream.specs.Items.{id_in, length_in};

use crate::fields::{be32, be64};

/// The version of a header: `MAPPED_RAM_HDR_VERSION`.
pub(crate) const HEADER_VERSION: u32 = 1;

/// The number of bytes of a header: `sizeof(MappedRamHeader)`.
pub(crate) const HEADER_LEN: usize = 28;

/// Returns the number of bytes of the entry at the front of `bytes`.
pub(crate) fn entry_len(bytes: &[u8]) -> usize
    ensures value { result ≡ entry_len bytes.now }
    ensures short { result ≤ 264 }
{
    match bytes.first() {
        Some(len) => 9 + *len as usize,
        None => 9,
    }
}

/// Returns the id in the entry.
pub(crate) fn id_in(bytes: &[u8]) -> &[u8]
    requires { entry_len bytes.now ≤ length bytes.now }
    ensures { result.now ≡ id_in bytes.now }
{
    &bytes[1..1 + bytes[0] as usize]
}

/// Returns the block's used length in the entry.
pub(crate) fn length_in(bytes: &[u8]) -> u64
    requires { entry_len bytes.now ≤ length bytes.now }
    ensures { result ≡ length_in bytes.now }
{
    be64(bytes, 1 + bytes[0] as usize)
}

/// The fields of a header.
#[derive(Clone, Copy)]
pub(crate) struct Header {
    pub(crate) version: u32,
    pub(crate) page_size: u64,
    pub(crate) bitmap_offset: u64,
    pub(crate) pages_offset: u64,
}

/// Returns the header after the entry.
pub(crate) fn header_in(bytes: &[u8]) -> Header
    requires { bitmap_start bytes.now ≤ length bytes.now }
    ensures { result ≡ record { version = version_in bytes.now; page_size = page_size_in bytes.now; bitmap_offset = bitmap_offset_in bytes.now; pages_offset = pages_offset_in bytes.now } }
{
    let at = entry_len(bytes);
    Header {
        version: be32(bytes, at),
        page_size: be64(bytes, at + 4),
        bitmap_offset: be64(bytes, at + 12),
        pages_offset: be64(bytes, at + 20),
    }
}
