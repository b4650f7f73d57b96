//! The fields of a packet, for the lines of `texts` that write one.

use crate::again;
use crate::trouble::{Done, Trouble};
use crate::words::{Words, id_of, offsets_of};
use mig_mem::{PAGE_SIZE_4K, is_page_size};
use mig_packet::put_packet;
use std::alloc::Global;

/// The fields of a packet. Each of its pages has the byte `first` first, and is filled with the
/// other.
#[derive(Drop)]
pub(crate) struct Fields {
    number: u64,
    sync: bool,
    id: Vec<u8>,
    normal: Vec<u64>,
    zero: Vec<u64>,
    first: Option<u8>,
    fill: u8,
}

impl Fields {
    /// `NUMBER`, and then any of `sync`, `id ID`, `normal OFFSETS`, `zero OFFSETS`, `first BYTE`
    /// and `fill BYTE`
    pub fn read(alloc: Global, page_size: u64, words: &mut Words) -> Result<Fields, Trouble> {
        let mut packet = Fields {
            number: words.number()?,
            sync: false,
            id: Vec::new(alloc),
            normal: Vec::new(alloc),
            zero: Vec::new(alloc),
            first: None,
            fill: 0,
        };
        for _ in 0..6 {
            if words.is_empty() {
                break;
            }
            packet.read_field(alloc, page_size, words)?;
        }
        Ok(packet)
    }

    fn read_field(&mut self, alloc: Global, page_size: u64, words: &mut Words) -> Done {
        match words.word()? {
            "sync" => self.sync = true,
            "id" => self.id = id_of(alloc, words.word()?)?,
            "normal" => self.normal = offsets_of(alloc, words.word()?, page_size)?,
            "zero" => self.zero = offsets_of(alloc, words.word()?, page_size)?,
            "first" => self.first = Some(words.byte()?),
            "fill" => self.fill = words.byte()?,
            _ => return Err(Trouble::Line),
        }
        Ok(())
    }

    /// Returns the contents of its normal pages.
    pub fn contents(&self, alloc: Global, page_size: u64) -> Result<Vec<u8>, Trouble> {
        let mut page = vec![in alloc; self.fill; page_size as usize]?;
        if let (Some(first), Some(place)) = (self.first, page.first_mut()) {
            *place = first;
        }
        let mut contents = Vec::new(alloc);
        for _ in &self.normal {
            contents.extend_from_slice(&page)?;
        }
        Ok(contents)
    }

    /// Appends the packet to `text`.
    pub fn append(&self, page_size: u64, text: &mut Vec<u8>, contents: &[u8]) -> Done {
        if !is_page_size(page_size) {
            return Err(Trouble::Line);
        }
        let most = if page_size == PAGE_SIZE_4K { 128 } else { 64 };
        let has_room = most >= self.normal.len() && most - self.normal.len() >= self.zero.len();
        let is_whole = Some(contents.len() as u64)
            == (self.normal.len() as u64).checked_mul(page_size);
        if !has_room || !is_whole || self.id.len() > 255 {
            return Err(Trouble::Line);
        }
        let (normal, zero) = (self.normal.as_slice(), self.zero.as_slice());
        let (number, sync, id) = (self.number, self.sync, self.id.as_slice());
        again!(put_packet(page_size, text, number, sync, id, normal, contents, zero))?;
        Ok(())
    }
}
