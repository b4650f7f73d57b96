//! Finds QEMU's stream in a file that libvirt saved sparse, with mapped-ram (`virQEMUSaveHeader` in
//! libvirt's `src/qemu/qemu_saveimage.h`).

ghost use Rattle.std.specs.Prelude.{◌≡◌, ◌+◌, ◌<◌, ◌≤◌, ◌^◌, length, take, IfSome, IfNone, codes};
ghost use Rattle.zimgasol_mapped.specs.Sparse.{field_at, is_little, IsSparseAt, IsNotSparse, with_raw_format};

/// The bytes of the header, before its XML.
const HEADER_LEN: usize = 92;

/// The first bytes of a file whose save was completed.
const MAGIC: &[u8] = b"LibvirtQemudSave";

/// The version of the header.
const VERSION: u32 = 2;

/// The format of a stream with mapped-ram: `QEMU_SAVE_FORMAT_SPARSE`.
const SPARSE: u32 = 6;

/// The offset of the format in the header.
const FORMAT_AT: usize = 28;

/// The number of bytes of the format.
const FORMAT_LEN: usize = 4;

// Returns the number of 4 bytes at the byte `at`, little-endian if `is_little`.
#[tactic(auto, unfolding(crate::specs::Sparse::field_at))]
fn field(bytes: &[u8], at: usize, is_little: bool) -> u32
    requires { at + 4 ≤ length bytes.now }
    ensures { result ≡ field_at is_little at bytes.now }
{
    let part = &bytes[at..at + 4];
    let number = [part[0], part[1], part[2], part[3]];
    if is_little {
        return u32::from_le_bytes(number);
    }
    u32::from_be_bytes(number)
}

// Returns the byte of the file at which the stream begins, if the header in `bytes` is one of a
// save with the format `SPARSE`.
fn stream_place(bytes: &[u8]) -> Option<u64>
    requires len { 92 ≤ length bytes.now }
    requires magic { take 16 bytes.now ≡ codes "LibvirtQemudSave" }
    ensures small { IfSome result (λ place. place < 2 ^ 33) }
    ensures found { IfSome result (λ place. IsSparseAt bytes.now place) }
    ensures none { IfNone result (IsNotSparse bytes.now) }
{
    let is_little = field(bytes, 16, true) == VERSION;
    if field(bytes, 16, is_little) != VERSION || field(bytes, FORMAT_AT, is_little) != SPARSE {
        return None;
    }
    Some(HEADER_LEN as u64 + u64::from(field(bytes, 20, is_little)))
}

/// Returns the byte of the file at which QEMU's stream begins, if the file begins with `bytes` and
/// libvirt saved it sparse.
pub(crate) fn sparse_place(bytes: &[u8]) -> Option<u64>
    ensures small { IfSome result (λ place. place < 2 ^ 33) }
    ensures found { IfSome result (λ place. IsSparseAt bytes.now place) }
    ensures none { IfNone result (IsNotSparse bytes.now) }
{
    if bytes.len() < HEADER_LEN || !bytes.starts_with(MAGIC) {
        return None;
    }
    stream_place(bytes)
}

/// Sets the format in libvirt's header, with which `bytes` begin, to that of a stream that isn't
/// packed.
pub(crate) fn set_raw(bytes: &mut [u8])
    ensures { bytes.new ≡ with_raw_format bytes.old }
{
    if bytes.len() >= FORMAT_AT + FORMAT_LEN {
        bytes[FORMAT_AT..FORMAT_AT + FORMAT_LEN].copy_from_slice(&[0, 0, 0, 0]);
    }
}
