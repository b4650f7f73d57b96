//! Counts the packets and pages of one channel, as the load takes its bytes. It judges nothing.
//! Bytes of a channel's file that the load doesn't take are those of devices' packets.

ghost use Rattle.std.specs.Prelude.{◌≡◌, ◌+◌, ◌<◌, ◌≤◌, ◌^◌, length};

use crate::blocks::Blocks;
use mig_packet::{ChannelEvent, PacketHead, PageReader};
use std::alloc::Global;
use uuid::Uuid;
use zimgasol_files::{PageSize, Trouble};

/// The counts of a channel.
#[derive(Clone, Copy)]
pub struct ChannelCounts {
    /// The complete packets.
    pub packets: u64,
    /// The least number of a complete packet.
    pub first: Option<u64>,
    /// The greatest number of a complete packet.
    pub last: Option<u64>,
    /// The pages with contents.
    pub pages: u64,
    /// The pages of zeros.
    pub zeros: u64,
    /// The bytes of the file before the first item that isn't complete: the hello, the packets,
    /// and the packets of devices.
    pub valid: u64,
    /// The byte of the file at which the current round begins. None before its first packet.
    pub round_start: Option<u64>,
}

impl ChannelCounts {
    const NONE: ChannelCounts = ChannelCounts {
        packets: 0,
        first: None,
        last: None,
        pages: 0,
        zeros: 0,
        valid: 0,
        round_start: Some(0),
    };

    // Counts the packet `number`, which ends at the byte `end`.
    fn add(&mut self, number: u64, end: u64) {
        self.packets = self.packets.saturating_add(1);
        self.first = Some(self.first.unwrap_or(number).min(number));
        self.last = Some(self.last.unwrap_or(number).max(number));
        self.valid = end;
    }
}

/// The counting of one channel.
#[derive(Drop)]
pub struct Lane {
    reader: PageReader,
    // the number of the packet that was begun, and the block of its pages
    number: u64,
    block: Option<usize>,
    // the bytes of the devices' packets before the bytes that are counted
    passed: u64,
    pub counts: ChannelCounts,
}

impl Lane {
    /// Creates the counting of one of `channels` channels, whose hello has to name `uuid`.
    ///
    /// # Errors
    ///
    /// `Trouble::NoMemory`.
    pub fn new(
        alloc: Global,
        page_size: PageSize,
        uuid: Uuid,
        channels: usize,
    ) -> Result<Lane, Trouble> {
        let Ok(reader) = PageReader::new(alloc, page_size.bytes(), uuid, channels, None) else {
            return Err(Trouble::NoMemory);
        };
        Ok(Lane {
            reader,
            number: 0,
            block: None,
            passed: 0,
            counts: ChannelCounts::NONE,
        })
    }

    /// Returns the id that the hello names; None until the hello is complete.
    pub fn hello(&self) -> Option<u8> {
        self.reader.hello_id()
    }

    /// Begins the next round.
    pub fn advance(&mut self) {
        self.counts.round_start = None;
    }

    // Returns how many bytes of the file were counted or passed over.
    fn position(&self) -> u64 {
        self.reader.fed().saturating_add(self.passed)
    }

    /// Sets how many bytes of devices' packets the file has before the bytes that are counted next.
    pub fn pass_over(&mut self, passed: u64) {
        self.passed = passed;
        if self.reader.valid_up_to() == self.reader.fed() {
            self.counts.valid = self.position();
        }
    }

    /// Counts the packets and pages of `piece`, which the load took. Counts the pages in `blocks`,
    /// too.
    ///
    /// # Errors
    ///
    /// `Trouble::NoMemory`.
    pub fn count(&mut self, piece: &[u8], blocks: &mut Option<Blocks>) -> Result<(), Trouble> {
        let mut rest = piece;
        if self.counts.round_start.is_none() && !piece.is_empty() {
            self.counts.round_start = Some(self.counts.valid);
        }
        for _ in 0..u64::MAX {
            if rest.len() as u64 > u64::MAX - self.reader.fed() {
                return Err(Trouble::NoMemory);
            }
            let (event, taken) = self.reader.read_on(rest);
            rest = &rest[taken..];
            match event {
                ChannelEvent::More | ChannelEvent::Over => break,
                ChannelEvent::Hello(_) => self.counts.valid = self.position(),
                ChannelEvent::Head => self.begin_packet(blocks)?,
                ChannelEvent::Page(offset, _) => self.count_page(offset, blocks)?,
                ChannelEvent::Packet(_) => self.end_packet(),
            }
        }
        Ok(())
    }

    // Begins the packet whose head was read, and counts its pages of zeros.
    fn begin_packet(&mut self, blocks: &mut Option<Blocks>) -> Result<(), Trouble> {
        let Some(head) = self.reader.head() else {
            return Ok(());
        };
        self.number = head.number();
        self.counts.zeros = self.counts.zeros.saturating_add(head.zero_len() as u64);
        let Some(blocks) = blocks else {
            return Ok(());
        };
        self.block = blocks.table.find(head.id());
        match self.block {
            Some(block) => count_zeros(&head, block, blocks),
            None => Ok(()),
        }
    }

    // Counts a page of the packet that was begun.
    fn count_page(&mut self, offset: u64, blocks: &mut Option<Blocks>) -> Result<(), Trouble> {
        self.counts.pages = self.counts.pages.saturating_add(1);
        let (Some(blocks), Some(block)) = (blocks, self.block) else {
            return Ok(());
        };
        match blocks.place(block, offset) {
            Some(place) => blocks.count(place, false),
            None => Ok(()),
        }
    }

    // Ends the packet that was begun.
    fn end_packet(&mut self) {
        self.block = None;
        let end = self.position();
        self.counts.add(self.number, end);
    }
}

// Counts the pages of zeros of a packet of a block.
fn count_zeros(head: &PacketHead<'_>, block: usize, blocks: &mut Blocks) -> Result<(), Trouble> {
    let normal = head.normal_len();
    for i in normal..normal.saturating_add(head.zero_len()) {
        if let Some(place) = blocks.place(block, head.offset(i)) {
            blocks.count(place, true)?;
        }
    }
    Ok(())
}
