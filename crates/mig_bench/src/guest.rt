//! The guest that is sent and loaded: one block, all of whose pages are dirty.

use crate::measure::PAGE_SIZE;
use mig_mem::{Dirty, Memory, PAGE_SIZE_4K, Place, Table};
use mig_packet::OpenGate;
use mig_send::{MultiSender, Sent, SingleSender};
use std::alloc::Global;
use std::thread::Threads;
use uuid::Uuid;

/// How many pages the guest has: 1 GiB.
pub const PAGES: u64 = 1 << 18;

// How many pages a packet may have, at this page size.
const LIMIT: usize = 524_288 / PAGE_SIZE;

/// How many of ten pages are zeros, in the order in which they are measured, each with a name.
pub const ZERO_TENTHS: [(u64, &str); 3] = [
    (0, "no zeros"),
    (5, "half zeros"),
    (9, "nine tenths zeros"),
];

/// The memory, and the set of all its pages.
#[derive(Drop)]
pub struct Guest {
    image: Memory,
    dirty: Dirty,
}

// Creates the table of one block.
fn table(alloc: Global) -> Option<Table> {
    let mut list = Vec::new(alloc);
    list.push((Vec::from_slice(alloc, b"pc.ram").ok()?, PAGES))
        .ok()?;
    Table::new(alloc, PAGE_SIZE_4K, list).ok()
}

impl Guest {
    /// Creates a guest of zeros. Returns None if an allocation is refused.
    pub fn new(alloc: Global) -> Option<Guest> {
        let table = table(alloc)?;
        let mut guest = Guest {
            image: Memory::zeroed(alloc, &table).ok()?,
            dirty: Dirty::none(alloc, &table).ok()?,
        };
        guest.mark_all()?;
        Some(guest)
    }

    fn mark_all(&mut self) -> Option<()> {
        for page in 0..PAGES {
            let place = Place { block: 0, page };
            if self.dirty.table().holds(place) {
                self.dirty.mark(place).ok()?;
            }
        }
        Some(())
    }

    /// Fills `zero_tenths` of ten pages with zeros, and the others with ones.
    pub fn fill(&mut self, zero_tenths: u64) {
        for page in 0..PAGES {
            let place = Place { block: 0, page };
            let content = [u8::from(page % 10 >= zero_tenths); PAGE_SIZE];
            let table = self.image.table();
            if table.holds(place) && table.page_size() == PAGE_SIZE as u64 {
                self.image.put_page(place, &content);
            }
        }
    }

    /// Sends all pages in one round. Returns the stream, or None if an allocation is refused.
    pub fn sent(&self, alloc: Global) -> Option<Vec<u8>> {
        let mut sender = SingleSender::new(alloc, self.image.table()).ok()?;
        sender.round(&self.image, &self.dirty).ok()?;
        sender.finish().ok()
    }

    /// Sends all pages in one round on several channels. Returns the streams, or None if an
    /// allocation is refused.
    pub fn sent_on<R: Threads + Sync>(
        &self,
        rt: &R,
        alloc: Global,
        channels: usize,
    ) -> Option<Sent> {
        let table = self.image.table();
        let mut sender = MultiSender::new(alloc, table, Uuid::nil(), channels, LIMIT).ok()?;
        sender.round(rt, &self.image, &self.dirty, &OpenGate).ok()?;
        sender.finish().ok()
    }
}
