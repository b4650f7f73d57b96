//! The sizes that a guest's page may have, for all crates above. `mig_packet` uses no crate of this
//! repository, and has a module of its own for them.

ghost use Rattle.std.specs.Prelude.{◌↔◌, IsTrue};
ghost use Rattle.mig_mem.specs.PageSize.{IsPageSize};

/// A page of 4 KiB, in bytes: QEMU's `TARGET_PAGE_SIZE` for x86 and most other guests.
pub const PAGE_SIZE_4K: u64 = 4096;

/// A page of 8 KiB, in bytes: QEMU's `TARGET_PAGE_SIZE` for Alpha and SPARC64 guests.
pub const PAGE_SIZE_8K: u64 = 8192;

const _: () = prove!(PAGE_SIZE_4K == 4096 && PAGE_SIZE_8K == 8192);

/// Returns whether `size` bytes are a page size that is handled: 4096 or 8192.
pub fn is_page_size(size: u64) -> bool
    ensures { IsTrue result ↔ IsPageSize size }
{
    size == PAGE_SIZE_4K || size == PAGE_SIZE_8K
}
