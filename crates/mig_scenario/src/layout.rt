//! How a scenario's rounds are sent: on how many channels, with how many pages to a packet, and how
//! large the pages are.

ghost use Rattle.std.specs.Prelude.{◌≡◌};
ghost use Rattle.mig_mem.specs.PageSize.{IsPageSize};
ghost use Rattle.mig_packet.specs.PageSize.{page_limit};
ghost use Rattle.mig_scenario.specs.Layout.{bytes_in};

use mig_mem::{PAGE_SIZE_4K, PAGE_SIZE_8K};
use mig_packet::page_limit;

/// The size of the guest's pages.
#[derive(Clone, Copy, Debug, PartialEq, Eq)]
pub enum PageSize {
    /// 4096 bytes.
    Small,
    /// 8192 bytes.
    Large,
}

impl PageSize {
    /// Returns the number of bytes of a page.
    pub fn bytes(self) -> u64
        ensures value { result ≡ bytes_in self }
        ensures size { IsPageSize result }
    {
        match self {
            PageSize::Small => PAGE_SIZE_4K,
            PageSize::Large => PAGE_SIZE_8K,
        }
    }

    /// Returns the most pages of a packet.
    pub fn pages_of_a_packet(self) -> usize
        ensures { result ≡ page_limit (bytes_in self) }
    {
        page_limit(self.bytes())
    }
}

/// The number of channels, the most pages of a packet, and the page size. With 0 channels there is
/// a single stream.
#[derive(Clone, Copy, Debug, PartialEq, Eq)]
pub struct Layout {
    pub page_size: PageSize,
    pub channels: u8,
    pub batch: usize,
}
