//! Notes what is between RAM's sections for printing: the machine's name, the configuration's
//! subsections, COMMANDs and devices' sections. Also which section is open. It takes this from the report of the
//! stream's reader, which checks these items and passes them over.

use crate::front::FrontPlaces;
use mig_stream::{ItemKind, Report, ReportedItem};
use std::alloc::{AllocError, Global};

/// The most items that are noted, which limits the memory for a stream with many.
const MOST_NOTED: usize = 64;

/// The most bytes of a subsection that are noted.
const MOST_CONTENT_LEN: usize = 4096;

/// The capability with which shared memory is left out of the stream.
const IGNORE_SHARED: &[u8] = b"x-ignore-shared";

/// The kinds of RAM's sections.
#[derive(Clone, Copy, Debug, PartialEq, Eq)]
pub enum SectionKind {
    Start,
    Part,
    End,
}

/// An item between the sections.
#[derive(Debug, Drop)]
pub enum Noted {
    /// The machine's name.
    Machine(Vec<u8>),
    /// A subsection of the configuration: its name and content.
    Subsection(Vec<u8>, Vec<u8>),
    /// A COMMAND: its number and its length.
    Command(u16, u16),
    /// A device's section before RAM's pages: its name.
    Device(Vec<u8>),
}

/// An item with its place.
#[derive(Debug, Drop)]
pub struct Note {
    /// The byte of the stream at which it begins.
    pub at: u64,
    /// The complete sections before it.
    pub sections: u64,
    /// The item.
    pub noted: Noted,
}

/// Notes the items between the sections of one stream.
#[derive(Drop)]
pub struct Notes {
    /// The items that were noted, in their order.
    pub notes: Vec<Note>,
    /// The number of items after the first 64, which aren't noted.
    pub unnoted: u64,
    /// The complete sections.
    pub sections: u64,
    /// The kind of the section that is open.
    pub open: Option<SectionKind>,
    // whether shared memory was left out of the stream
    leaves_shared_out: bool,
    // the id of RAM's section
    section_id: u32,
    // where the bytes before RAM's records stand so far; whether an item after the size list was
    // read, and the type byte of a PART or of END
    front: FrontPlaces,
    is_list_over: bool,
    has_pages: bool,
    // the byte at which the last item of these began
    at: u64,
    // the subsection that is read: its name, its content so far, and how many capabilities follow
    name: Vec<u8>,
    content: Vec<u8>,
    capabilities: u32,
}

// Returns the big-endian number of the first 4 bytes; 0 if there is none.
fn number_of(bytes: &[u8]) -> u32 {
    match bytes.first_chunk::<4>() {
        Some(bytes) => u32::from_be_bytes(*bytes),
        None => 0,
    }
}

// Returns the big-endian number of 2 bytes at the byte `at`; 0 if there is none.
fn short_at(bytes: &[u8], at: usize) -> u16 {
    match bytes.get(at..) {
        Some(rest) => match rest.first_chunk::<2>() {
            Some(bytes) => u16::from_be_bytes(*bytes),
            None => 0,
        },
        None => 0,
    }
}

// Returns the name after a length byte.
fn name_of(bytes: &[u8]) -> &[u8] {
    match bytes.first() {
        Some(len) => bytes.get(1..usize::from(*len) + 1).unwrap_or(&[]),
        None => &[],
    }
}

impl Notes {
    /// Creates the notes of a stream.
    pub fn new(alloc: Global) -> Notes {
        Notes {
            notes: Vec::new(alloc),
            unnoted: 0,
            sections: 0,
            open: None,
            leaves_shared_out: false,
            section_id: 0,
            front: FrontPlaces::none(),
            is_list_over: false,
            has_pages: false,
            at: 0,
            name: Vec::new(alloc),
            content: Vec::new(alloc),
            capabilities: 0,
        }
    }

    /// Takes the items of `report`, and clears it.
    pub fn take(&mut self, report: &mut Report) -> Result<(), AllocError> {
        for i in 0..report.len() {
            self.take_item(report.item(i))?;
        }
        report.clear();
        Ok(())
    }

    // Takes an item.
    fn take_item(&mut self, item: ReportedItem<'_>) -> Result<(), AllocError> {
        match item.kind {
            ItemKind::Configuration | ItemKind::Subsection | ItemKind::Command | ItemKind::Device =>
                self.at = item.at,
            ItemKind::Start => {
                self.front.start = item.at;
                self.open = Some(SectionKind::Start);
            }
            ItemKind::Part => self.open_pages(SectionKind::Part),
            ItemKind::End => self.open_pages(SectionKind::End),
            ItemKind::Footer => {
                self.open = None;
                self.sections = self.sections.saturating_add(1);
            }
            ItemKind::NameLength if number_of(item.bytes) == 0 => self.note_machine(&[])?,
            ItemKind::Name => self.note_machine(item.bytes)?,
            ItemKind::CommandBody => self.note_command(item.bytes)?,
            ItemKind::DeviceHead => self.note_device(item.bytes)?,
            ItemKind::DeviceFooter => self.end_device(item),
            ItemKind::StartHead => self.section_id = number_of(item.bytes),
            ItemKind::ListEntry | ItemKind::BlockAddress | ItemKind::BlockPageSize => {
                self.front.list_end = item.at.saturating_add(item.bytes.len() as u64);
            }
            ItemKind::EndOfSection | ItemKind::Flush => self.is_list_over = true,
            _ => self.take_part(item)?,
        }
        Ok(())
    }

    // Opens a section that has pages.
    fn open_pages(&mut self, kind: SectionKind) {
        self.has_pages = true;
        self.open = Some(kind);
    }

    // Ends a device's section. If it stands behind START, it is one of those that do.
    fn end_device(&mut self, footer: ReportedItem<'_>) {
        if !self.is_list_over {
            return;
        }
        if self.front.behind_end == 0 {
            self.front.behind = self.at;
        }
        self.front.behind_end = footer.at.saturating_add(footer.bytes.len() as u64);
    }

    // Takes a part of a subsection.
    fn take_part(&mut self, item: ReportedItem<'_>) -> Result<(), AllocError> {
        match item.kind {
            ItemKind::SubsectionName => {
                self.name.clear();
                self.name.extend_from_slice(name_of(item.bytes))?;
                self.content.clear();
                Ok(())
            }
            ItemKind::PageBits | ItemKind::Uuid => {
                self.add(item.bytes)?;
                self.note_subsection()
            }
            ItemKind::CapabilityCount => {
                self.capabilities = number_of(item.bytes);
                self.add(item.bytes)?;
                self.end_capabilities()
            }
            ItemKind::Capability => {
                if name_of(item.bytes) == IGNORE_SHARED {
                    self.leaves_shared_out = true;
                }
                self.capabilities = self.capabilities.saturating_sub(1);
                self.add(item.bytes)?;
                self.end_capabilities()
            }
            _ => Ok(()),
        }
    }

    // Adds bytes to the content of the subsection, as far as there is room.
    fn add(&mut self, bytes: &[u8]) -> Result<(), AllocError> {
        let room = MOST_CONTENT_LEN.saturating_sub(self.content.len());
        self.content
            .extend_from_slice(&bytes[..room.min(bytes.len())])?;
        Ok(())
    }

    // Notes the subsection, if no capability follows.
    fn end_capabilities(&mut self) -> Result<(), AllocError> {
        if self.capabilities != 0 {
            return Ok(());
        }
        self.note_subsection()
    }

    fn note_machine(&mut self, name: &[u8]) -> Result<(), AllocError> {
        let name = name.to_vec(*self.notes.allocator())?;
        self.note(Noted::Machine(name))
    }

    fn note_subsection(&mut self) -> Result<(), AllocError> {
        let alloc = *self.notes.allocator();
        let name = self.name.as_slice().to_vec(alloc)?;
        let content = self.content.as_slice().to_vec(alloc)?;
        self.note(Noted::Subsection(name, content))
    }

    fn note_command(&mut self, body: &[u8]) -> Result<(), AllocError> {
        self.note(Noted::Command(short_at(body, 0), short_at(body, 2)))
    }

    // Notes a device's section by its head: an id of 4 bytes, and the name after its length.
    fn note_device(&mut self, head: &[u8]) -> Result<(), AllocError> {
        let name = name_of(head.get(4..).unwrap_or(&[]));
        let name = name.to_vec(*self.notes.allocator())?;
        self.note(Noted::Device(name))
    }

    // Notes an item.
    fn note(&mut self, noted: Noted) -> Result<(), AllocError> {
        if self.notes.len() >= MOST_NOTED {
            self.unnoted = self.unnoted.saturating_add(1);
            return Ok(());
        }
        let (at, sections) = (self.at, self.sections);
        self.notes.push(Note {
            at,
            sections,
            noted,
        })?;
        Ok(())
    }

    /// Returns whether shared memory was left out of the stream (`x-ignore-shared`).
    pub fn leaves_shared_out(&self) -> bool {
        self.leaves_shared_out
    }

    /// Returns the id of RAM's section, once the head of START was read.
    pub fn section_id(&self) -> u32 {
        self.section_id
    }

    /// Returns the byte of the stream after RAM's size list; None until an item after it was read.
    pub fn list_end(&self) -> Option<u64> {
        if self.is_list_over {
            Some(self.front.list_end)
        } else {
            None
        }
    }

    /// Returns where the bytes before RAM's records stand in the stream; None until the type byte
    /// of a PART or of END was read.
    pub(crate) fn front(&self) -> Option<FrontPlaces> {
        if self.is_list_over && self.has_pages {
            Some(self.front)
        } else {
            None
        }
    }

    /// Returns the machine's name, if the stream has it.
    pub fn machine(&self) -> Option<&[u8]> {
        for note in &self.notes {
            if let Noted::Machine(name) = &note.noted {
                return Some(name.as_slice());
            }
        }
        None
    }
}
