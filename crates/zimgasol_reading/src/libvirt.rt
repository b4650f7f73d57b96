//! Reads the header that libvirt puts before QEMU's stream in the file of `virsh save`
//! (`virQEMUSaveHeader` in libvirt's `src/qemu/qemu_saveimage.h`).

ghost use Rattle.std.specs.Prelude.{◌≡◌, ◌≢◌, ◌+◌, ◌≤◌, Bool, length, take, codes, IfOk, IfSome, IsNone};
ghost use Rattle.zimgasol_reading.specs.Libvirt.{IsHeader, field_at};

use zimgasol_files::{Packed, Trouble};

/// The bytes of the header, before its XML.
const HEADER_LEN: usize = 92;

/// The first bytes of a file whose save was completed.
const MAGIC: &[u8] = b"LibvirtQemudSave";

/// The first bytes of a file until its save is completed.
const PARTIAL_MAGIC: &[u8] = b"LibvirtQemudPart";

/// The version of the header.
const VERSION: u32 = 2;

/// A header of libvirt's. QEMU's stream follows it unchanged.
#[derive(Clone, Copy)]
pub struct LibvirtHeader {
    /// The bytes before QEMU's stream: the header, the XML and the cookie.
    pub len: u64,
    /// Whether the guest was running when it was saved.
    pub was_running: bool,
}

// Returns the number of 4 bytes at the byte `at`, little-endian if `is_little`.
#[tactic(auto, unfolding(crate::specs::Libvirt::field_at))]
fn field(bytes: &[u8], at: usize, is_little: bool) -> u32
    requires { at + 4 ≤ length bytes.now }
    ensures { result ≡ field_at is_little at bytes.now }
{
    let part = &bytes[at..at + 4];
    let number = [part[0], part[1], part[2], part[3]];
    if is_little {
        return u32::from_le_bytes(number);
    }
    u32::from_be_bytes(number)
}

// Returns why a stream in the format `format`, after a header of `len` bytes, can't be read.
fn format_trouble(format: u32, len: u64) -> Trouble {
    let packer = match format {
        1 => "gzip",
        2 => "bzip2",
        3 => "xz",
        4 => "lzop",
        5 => "zstd",
        6 => {
            return Trouble::Libvirt(
                "libvirt saved it sparse (mapped-ram); save it with save_image_format = \"raw\"",
            );
        }
        _ => {
            return Trouble::Libvirt(
                "libvirt's header names a format of the stream that isn't known",
            );
        }
    };
    let first = len.saturating_add(1);
    Trouble::Packed(None, Packed { packer, first })
}

// Returns the header whose bytes are `header`: those of a save that was completed.
fn read_header(header: &[u8]) -> Result<LibvirtHeader, Trouble>
    requires { 92 ≤ length header.now }
    ensures { IfOk result (λ found. (is_little : Bool) × (field_at is_little 16 header.now ≡ 2) × (field_at is_little 28 header.now ≡ 0)
        × (found.len ≡ 92 + field_at is_little 20 header.now)) }
{
    let is_little = field(header, 16, true) == VERSION;
    if !is_little && field(header, 16, false) != VERSION {
        return Err(Trouble::Libvirt("libvirt's header has a version other than 2"));
    }
    let len = HEADER_LEN as u64 + u64::from(field(header, 20, is_little));
    let format = field(header, 28, is_little);
    if format != 0 {
        return Err(format_trouble(format, len));
    }
    Ok(LibvirtHeader {
        len,
        was_running: field(header, 24, is_little) != 0,
    })
}

/// Returns the header at the beginning of a file; None if the file isn't libvirt's.
///
/// # Errors
///
/// `Trouble::Libvirt` if the save was never completed, the header is cut or has another version, or
/// the stream is sparse. `Trouble::Packed` if the stream is compressed.
pub fn header_of(bytes: &[u8]) -> Result<Option<LibvirtHeader>, Trouble>
    ensures header { IfOk result (λ found. IfSome found (λ header. IsHeader bytes.now header.len)) }
    ensures none { IfOk result (λ found. IsNone found → take 16 bytes.now ≢ codes "LibvirtQemudSave") }
{
    if bytes.starts_with(PARTIAL_MAGIC) {
        return Err(Trouble::Libvirt("libvirt never completed this save"));
    }
    if !bytes.starts_with(MAGIC) {
        return Ok(None);
    }
    if bytes.len() < HEADER_LEN {
        return Err(Trouble::Libvirt("libvirt's header is cut"));
    }
    Ok(Some(read_header(&bytes[..HEADER_LEN])?))
}
