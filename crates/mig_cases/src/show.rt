//! Formats answers about guest memory and packets.

use crate::trouble::Done;
use crate::words::bytes_of;
use mig_mem::{Memory, Place, Table, TableFault};
use mig_packet::{ChannelFault, ChannelState, Packet};
use sha1::Sha1;
use std::alloc::Global;

// Bytes with more runs of one byte than this are written as a sum.
const MOST_RUNS: usize = 4;

/// Writes a number.
pub fn put_number(out: &mut String, number: u64) -> Done {
    write!(out, "{number}")?;
    Ok(())
}

fn put_hex(out: &mut String, byte: u8) -> Done {
    write!(out, "{byte:02x}")?;
    Ok(())
}

/// Writes bytes as runs of one byte, `09,00*4095`, or as the beginning of their SHA-1 sum in
/// hexadecimal digits.
pub fn put_bytes(out: &mut String, bytes: &[u8]) -> Done {
    let mut runs = String::new(*out.allocator());
    let mut rest = bytes;
    for i in 0..MOST_RUNS {
        let Some(byte) = rest.first() else {
            break;
        };
        let len = rest
            .iter()
            .position(|other| other != byte)
            .unwrap_or(rest.len());
        if i > 0 {
            runs.push_str(",")?;
        }
        put_hex(&mut runs, *byte)?;
        if len > 1 {
            runs.push_str("*")?;
            put_number(&mut runs, len as u64)?;
        }
        rest = rest.get(len..).unwrap_or(&[]);
    }
    if !rest.is_empty() {
        return put_sum(out, bytes);
    }
    out.push_str(&runs)?;
    Ok(())
}

fn put_sum(out: &mut String, bytes: &[u8]) -> Done {
    out.push_str("sha1:")?;
    for byte in Sha1::digest(bytes).iter().take(4) {
        put_hex(out, *byte)?;
    }
    Ok(())
}

/// Compares bytes with the expected ones, in hexadecimal digits. Writes the expected ones if they
/// are equal, or else the first difference.
pub fn same_bytes(out: &mut String, bytes: &[u8], wanted: &str) -> Done {
    let other = bytes_of(*out.allocator(), wanted)?;
    if bytes == other.as_slice() {
        return Ok(out.push_str(wanted)?);
    }
    put_other_bytes(out, bytes, &other)
}

// Writes the first difference of bytes from the expected ones.
fn put_other_bytes(out: &mut String, bytes: &[u8], wanted: &[u8]) -> Done {
    for (i, (one, other)) in bytes.iter().zip(wanted).enumerate() {
        if one != other {
            write!(out, "{} bytes, of which byte {i} is {one:02x}", bytes.len())?;
            return Ok(());
        }
    }
    write!(out, "{} bytes in place of {}", bytes.len(), wanted.len())?;
    Ok(())
}

/// Writes an id: as it is, or `0x` and its bytes if it is long or isn't UTF-8.
fn put_id(out: &mut String, id: &[u8]) -> Done {
    match str::from_utf8(id) {
        Ok(text) if id.len() <= 16 => Ok(out.push_str(text)?),
        _ => {
            out.push_str("0x")?;
            put_bytes(out, id)
        }
    }
}

/// A list of pages. Consecutive pages with one content are one entry, `0-127=07*4096`, and so is
/// one page that is repeated with one content, `2 of 0=zero`.
#[derive(Drop)]
pub struct Pages {
    before: String,
    first: u64,
    last: u64,
    times: u64,
    content: String,
    /// The step from one page to the next.
    step: u64,
    has_entry: bool,
}

impl Pages {
    pub fn new(alloc: Global, step: u64) -> Pages {
        Pages {
            before: String::new(alloc),
            first: 0,
            last: 0,
            times: 0,
            content: String::new(alloc),
            step,
            has_entry: false,
        }
    }

    /// Adds a page, whose number is written after `before`. No content is a zero record.
    pub fn add(&mut self, out: &mut String, before: &str, page: u64, bytes: Option<&[u8]>) -> Done {
        let mut content = String::new(*out.allocator());
        match bytes {
            Some(bytes) => put_bytes(&mut content, bytes)?,
            None => content.push_str("zero")?,
        }
        let is_alike = self.has_entry
            && self.before.as_str() == before
            && self.content.as_str() == content.as_str();
        if is_alike && self.times == 1 && self.last.checked_add(self.step) == Some(page) {
            self.last = page;
        } else if is_alike && self.first == self.last && self.last == page {
            self.times = self.times.saturating_add(1);
        } else {
            self.end(out)?;
            self.before.clear();
            self.before.push_str(before)?;
            self.first = page;
            self.last = page;
            self.times = 1;
            self.content = content;
            self.has_entry = true;
        }
        Ok(())
    }

    /// Writes the last entry.
    pub fn end(&mut self, out: &mut String) -> Done {
        if !self.has_entry {
            return Ok(());
        }
        self.has_entry = false;
        out.push_str(" ")?;
        if self.times > 1 {
            put_number(out, self.times)?;
            out.push_str(" of ")?;
        }
        out.push_str(&self.before)?;
        put_number(out, self.first)?;
        if self.first != self.last {
            out.push_str("-")?;
            put_number(out, self.last)?;
        }
        out.push_str("=")?;
        out.push_str(&self.content)?;
        Ok(())
    }
}

/// Writes a memory: its pages that aren't zeros.
pub fn put_memory(out: &mut String, memory: &Memory) -> Done {
    let alloc = *out.allocator();
    let mut pages = Pages::new(alloc, 1);
    let table = memory.table();
    for block in 0..table.len() {
        let before = format!(in alloc; "{block}.")?;
        for page in 0..table.pages(block) {
            match memory.page(Place { block, page }) {
                Some(bytes) if bytes.iter().any(|byte| *byte != 0) => {
                    pages.add(out, &before, page, Some(bytes))?;
                }
                _ => {}
            }
        }
    }
    if !pages.has_entry {
        out.push_str(" zeros")?;
    }
    pages.end(out)
}

/// Writes a table: each block's id and pages.
pub fn put_table(out: &mut String, table: &Table) -> Done {
    for block in 0..table.len() {
        if block > 0 {
            out.push_str(",")?;
        }
        out.push_str(" ")?;
        put_id(out, table.id(block))?;
        out.push_str(" ")?;
        put_number(out, table.pages(block))?;
    }
    Ok(())
}

pub(crate) fn put_table_fault(out: &mut String, fault: TableFault) -> Done {
    write!(out, "fault {}", fault.number())?;
    if let TableFault::Id(i) | TableFault::IdTwice(i) | TableFault::NoPages(i) = fault {
        write!(out, "({i})")?;
    }
    Ok(())
}

/// Writes a place, as `0.3`, or `none`.
pub fn put_place(out: &mut String, place: Option<Place>) -> Done {
    match place {
        Some(place) => write!(out, "{}.{}", place.block, place.page)?,
        None => out.push_str("none")?,
    }
    Ok(())
}

pub(crate) fn put_channel_fault(out: &mut String, fault: ChannelFault) -> Done {
    write!(out, "fault {}", fault.number())?;
    if let ChannelFault::PacketFlags(flags) = fault {
        write!(out, "({flags})")?;
    }
    Ok(())
}

pub(crate) fn put_channel_state(out: &mut String, state: ChannelState) -> Done {
    match state {
        ChannelState::Reading => out.push_str("reading")?,
        ChannelState::Closed => out.push_str("closed")?,
        ChannelState::Bad(fault) => put_channel_fault(out, fault)?,
    }
    Ok(())
}

/// Writes a packet: its number, `sync`, its block's id, and its pages by their offsets.
pub fn put_packet(out: &mut String, packet: &Packet<'_>) -> Done {
    out.push_str(" #")?;
    put_number(out, packet.number())?;
    if packet.sync() {
        out.push_str(" sync")?;
    }
    if !packet.id().is_empty() {
        out.push_str(" ")?;
        put_id(out, packet.id())?;
    }
    let mut pages = Pages::new(*out.allocator(), packet.page_size());
    for i in 0..packet.normal_len() {
        pages.add(out, "", packet.offset(i), Some(packet.page(i)))?;
    }
    for i in 0..packet.zero_len() {
        pages.add(out, "", packet.offset(packet.normal_len() + i), None)?;
    }
    pages.end(out)
}
