//! A part of a file that isn't a page, copied out to C.

ghost use Rattle.std.specs.Prelude.{◌≡◌};
ghost use Rattle.mig_c_mapped.specs.Sends.{CopiesPart};

use mig_c_calls::status::{BAD_LENGTH, DONE};

/// Where a part of a file lies.
#[repr(C)]
#[derive(Clone, Copy)]
pub struct FilePart {
    /// The offset in the file of its first byte.
    pub offset: u64,
    /// The number of its bytes.
    pub len: usize,
}

/// Copies a part, which lies at `offset`, to the front of a buffer that has room for it. Reports
/// where it lies.
pub(crate) fn copy_part(bytes: &[u8], offset: u64, out: &mut [u8], at: &mut FilePart) -> u32
    ensures { CopiesPart bytes.now offset result out.old out.new at.new }
{
    *at = FilePart {
        offset,
        len: bytes.len(),
    };
    if out.len() < bytes.len() {
        return BAD_LENGTH;
    }
    out[..bytes.len()].copy_from_slice(bytes);
    DONE
}
