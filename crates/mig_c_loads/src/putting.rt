//! Writes a page into the bytes of its block.

ghost use Rattle.std.specs.Prelude.{◌≡◌, ◌+◌, ◌*◌, ◌≤◌, length, replicate};
ghost use Rattle.mig_mem.specs.PageSize.{IsPageSize};
ghost use Rattle.mig_mem.specs.Image.{zero_page};
ghost use Rattle.mig_mem.specs.Parts.{part_at};
ghost use Rattle.mig_c_loads.specs.InPlace.{with_content};

// A page of zeros, of the larger page size.
static ZEROS: [u8; 8192] = [0; 8192];

// Returns the first `len` bytes of `zeros`.
fn front(zeros: &[u8], len: u64) -> &[u8]
    requires zeros { zeros.now ≡ replicate (length zeros.now) 0 }
    requires len { len ≤ length zeros.now }
    ensures { result.now ≡ replicate len 0 }
{
    &zeros[..len as usize]
}

fn zeros(size: u64) -> &'static [u8]
    requires { IsPageSize size }
    ensures { result.now ≡ zero_page size }
{
    front(&ZEROS, size)
}

/// Returns the content of a page.
pub(crate) fn page_of(bytes: &[u8], size: u64, page: u64) -> &[u8]
    requires { page * size + size ≤ length bytes.now }
    ensures { result.now ≡ part_at size bytes.now page }
{
    let start = (page * size) as usize;
    &bytes[start..start + size as usize]
}

/// Writes a page's content.
pub(crate) fn write_page(bytes: &mut [u8], size: u64, page: u64, content: &[u8])
    requires room { page * size + size ≤ length bytes.old }
    requires len { length content.now ≡ size }
    ensures { bytes.new ≡ with_content size bytes.old page content.now }
{
    let start = (page * size) as usize;
    bytes[start..start + size as usize].copy_from_slice(content);
}

/// Sets a page to zeros. A page that is zeros isn't written, so that the system need not back it.
pub(crate) fn clear_page(bytes: &mut [u8], size: u64, page: u64)
    requires size { IsPageSize size }
    requires room { page * size + size ≤ length bytes.old }
    ensures { bytes.new ≡ with_content size bytes.old page (zero_page size) }
{
    if page_of(bytes, size, page) != zeros(size) {
        write_page(bytes, size, page, zeros(size));
    }
}
