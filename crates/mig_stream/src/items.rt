//! Takes each kind of item of a stream. `Progress::run` calls it for the next kind.
//!
//! Each function takes one complete item of one kind: it tests it, in the order of the item's
//! faults, and notes its values.

ghost use Rattle.std.specs.Prelude.{◌≡◌, ◌≢◌, ◌+◌, ◌/◌, ◌%◌, ◌^◌, ◌≤◌, ◌==◌, true, false, length, slice_index, OnOk, OnErr, Some};
ghost use Rattle.mig_mem.specs.PageSize.{IsPageSize};
ghost use Rattle.mig_mem.specs.First.{first_of};
ghost use Rattle.mig_stream.specs.declared.item.Due.TheVariants as due;
ghost use Rattle.mig_stream.specs.declared.item.RecordKind.TheVariants as kind;
ghost use Rattle.mig_stream.specs.declared.item.Filling.TheVariants as filling;
ghost use Rattle.mig_stream.specs.Items.{size, is_page_size, entry_faults, is_allowed, is_passed, closes, early_size, is_early, plugged_words, plugged_due, passed_size, passed_by, is_passed_command, advises, after_command, subsection_of, capabilities_due, list_due, entry_due, passed_form, after_footer, record_kind, end_round, is_start, flush_mode, flush_ends, flush_records, eos_mode, is_full, less_room, open_room};
ghost use Rattle.std.specs.Str.{bytes_eq};
ghost use Rattle.mig_stream.specs.Format.{ignore_shared, mapped_ram};
ghost use Rattle.mig_stream.specs.Taking.{TakesAs, TakesHead, TellsBody, TellsEarly};
ghost use Rattle.mig_stream.specs.Kept.{bytes_of, IsShort};

use crate::StreamFault;
use crate::fields::{be16, be32, be64};
use crate::format::{
    CAPABILITIES_NAME, CONTINUED_PAGE, CONTINUED_ZERO, EARLY_NAME, EARLY_VERSION, IGNORE_SHARED,
    MAPPED_RAM, MAX_NAME_LEN, MIG_CMD_ENABLE_COLO, MIG_CMD_OPEN_RETURN_PATH, MIG_CMD_PING,
    MIG_CMD_POSTCOPY_ADVISE, MIG_CMD_SWITCHOVER_START, PAGE_BITS_NAME, POSTCOPY_ADVISE_LEN,
    QEMU_VM_COMMAND, QEMU_VM_CONFIGURATION, QEMU_VM_EOF, QEMU_VM_FILE_MAGIC, QEMU_VM_FILE_VERSION,
    QEMU_VM_SECTION_END, QEMU_VM_SECTION_FOOTER, QEMU_VM_SECTION_FULL, QEMU_VM_SECTION_PART,
    QEMU_VM_SECTION_START, QEMU_VM_SUBSECTION, RAM_INSTANCE, RAM_SAVE_FLAG_EOS,
    RAM_SAVE_FLAG_MEM_SIZE, RAM_SAVE_FLAG_MULTIFD_FLUSH, RAM_SAVE_FLAG_PAGE, RAM_SAVE_FLAG_ZERO,
    RAM_SECTION_NAME, RAM_VERSION, SUBSECTION_VERSION, UUID_NAME,
};
use crate::item::{
    Before, Due, EarlyPart, EntryForm, Filling, Frame, Mode, PassedItem, RecordKind, Section,
    Subsection,
};
use crate::piece::Piece;
use crate::progress::Progress;
use crate::round::Records;
use crate::stop::Stop;
use mig_mem::{MAX_BLOCKS, NoMemory, PAGE_SIZE_4K, PAGE_SIZE_8K, Place, is_id};
use std::alloc::Allocator;
use std::mem;

impl<'a, A: Allocator> Progress<'a, A> {
    pub(crate) fn file_header(&mut self, item: &[u8]) -> Result<(), Stop>
        requires { length item.now ≡ 8 }
        ensures { TakesAs self.old due.FileHeader item.now self.new result }
    {
        if be32(item, 0) != QEMU_VM_FILE_MAGIC {
            return Err(Stop::Fault(StreamFault::Magic));
        }
        if be32(item, 4) != QEMU_VM_FILE_VERSION {
            return Err(Stop::Fault(StreamFault::Version));
        }
        self.due = Due::TypeByte(Before::FileHeader);
        Ok(())
    }

    pub(crate) fn type_byte(&mut self, before: Before, item: &[u8]) -> Result<(), Stop>
        requires { length item.now ≡ 1 }
        ensures { TakesAs self.old (due.TypeByte before) item.now self.new result }
    {
        let byte = item[0];
        let passed = is_passed(self.frame, self.section, before, byte);
        if !passed && !is_allowed(before, byte) {
            return Err(Stop::Fault(StreamFault::SectionType));
        }
        if passed {
            self.due = Due::Passed(passed_by(before, byte));
            return Ok(());
        }
        if byte == QEMU_VM_EOF && self.mode != Mode::Single && self.records.len() != 0 {
            return Err(Stop::Fault(StreamFault::Tail));
        }
        match byte {
            QEMU_VM_CONFIGURATION => self.due = Due::ConfigLength,
            QEMU_VM_SECTION_START => {
                self.due = Due::StartHead;
                self.section = Section::Start;
            }
            QEMU_VM_SECTION_PART => {
                self.due = Due::SectionHead;
                self.section = Section::Part;
            }
            QEMU_VM_SECTION_END => {
                self.due = Due::SectionHead;
                self.section = Section::End;
            }
            _ => self.due = Due::Nothing,
        }
        Ok(())
    }

    pub(crate) fn config_length(&mut self, item: &[u8]) -> Result<(), Stop>
        requires { length item.now ≡ 4 }
        ensures { TakesAs self.old due.ConfigLength item.now self.new result }
    {
        let len = be32(item, 0);
        if len > MAX_NAME_LEN {
            return Err(Stop::Fault(StreamFault::ConfigLength));
        }
        self.due = if len == 0 {
            Due::TypeByte(Before::Configuration)
        } else {
            Due::ConfigName(len)
        };
        Ok(())
    }

    pub(crate) fn config_name(&mut self, len: u32, _item: &[u8]) -> Result<(), Stop>
        ensures { TakesAs self.old (due.ConfigName len) _item.now self.new result }
    {
        self.due = Due::TypeByte(Before::Configuration);
        Ok(())
    }

    pub(crate) fn start_head(&mut self, item: &[u8]) -> Result<(), Stop>
        requires long { 13 ≤ length item.now }
        requires whole { length item.now ≡ 13 + slice_index item.now 4 }
        ensures { TakesAs self.old due.StartHead item.now self.new result }
    {
        let len = item[4] as usize;
        let name = &item[5..5 + len];
        if name != RAM_SECTION_NAME {
            return Err(Stop::Fault(StreamFault::SectionName));
        }
        if be32(item, 5 + len) != RAM_INSTANCE {
            return Err(Stop::Fault(StreamFault::Instance));
        }
        if be32(item, 9 + len) != RAM_VERSION {
            return Err(Stop::Fault(StreamFault::RamVersion));
        }
        self.section_id = be32(item, 0);
        self.due = Due::RecordHead;
        Ok(())
    }

    pub(crate) fn section_head(&mut self, item: &[u8]) -> Result<(), Stop>
        requires { length item.now ≡ 4 }
        ensures { TakesAs self.old due.SectionHead item.now self.new result }
    {
        if be32(item, 0) != self.section_id {
            return Err(Stop::Fault(StreamFault::SectionId));
        }
        self.due = Due::RecordHead;
        Ok(())
    }

    fn size_list(&mut self, page: u64) -> Result<(), Stop>
        ensures { TakesHead self.old kind.SizeList page self.new result }
    {
        if self.entries.left().is_some() {
            return Err(Stop::Fault(StreamFault::SizePlace));
        }
        let page_size = self.entries.page_size();
        if page == 0 || page > self.entries.limit() / page_size {
            return Err(Stop::Fault(StreamFault::Total));
        }
        self.entries.begin(page * page_size);
        self.due = Due::ListEntry;
        Ok(())
    }

    fn named(&mut self, filling: Filling, page: u64) -> Result<(), Stop>
        ensures { TakesHead self.old (kind.Named filling) page self.new result }
    {
        if self.entries.left().is_none() {
            return Err(Stop::Fault(StreamFault::SizePlace));
        }
        if is_full(self.room) {
            return Err(Stop::Fault(StreamFault::Waiting));
        }
        self.due = Due::BlockName(filling, page);
        Ok(())
    }

    fn continued(&mut self, filling: Filling, page: u64) -> Result<(), Stop>
        ensures { TakesHead self.old (kind.Continued filling) page self.new result }
    {
        if self.entries.left().is_none() {
            return Err(Stop::Fault(StreamFault::SizePlace));
        }
        if is_full(self.room) {
            return Err(Stop::Fault(StreamFault::Waiting));
        }
        let Some(block) = self.named else {
            return Err(Stop::Fault(StreamFault::NoBlock));
        };
        if page >= self.entries.pages(block) {
            return Err(Stop::Fault(StreamFault::OffsetOut));
        }
        self.due = Due::Content(filling, Place { block, page });
        Ok(())
    }

    pub(crate) fn block_name(
        &mut self,
        filling: Filling,
        page: u64,
        item: &[u8],
    ) -> Result<(), Stop>
        requires { length item.now ≡ 1 + slice_index item.now 0 }
        ensures { TakesAs self.old (due.BlockName filling page) item.now self.new result }
    {
        let len = item[0] as usize;
        let Some(block) = self.entries.find(&item[1..1 + len]) else {
            return Err(Stop::Fault(StreamFault::UnknownBlock));
        };
        if page >= self.entries.pages(block) {
            return Err(Stop::Fault(StreamFault::OffsetOut));
        }
        self.named = Some(block);
        self.due = Due::Content(filling, Place { block, page });
        Ok(())
    }

    #[inline(always)]
    pub(crate) fn fill_byte(&mut self, place: Place, item: &[u8]) -> Result<(), Stop>
        requires place { IsShort place }
        requires size { length item.now ≡ 1 }
        ensures { TakesAs self.old (due.Content filling.Zero place) item.now self.new result }
    {
        if item[0] != 0 {
            return Err(Stop::Fault(StreamFault::Fill(item[0])));
        }
        self.records.push_zeros(place)?;
        self.room = less_room(self.room);
        self.due = Due::RecordHead;
        Ok(())
    }
}

impl<'a, A: Allocator + Copy> Progress<'a, A> {
    fn flush(&mut self, page: u64) -> Result<(), Stop>
        ensures { TakesHead self.old kind.Flush page self.new result }
    {
        if self.entries.left().is_none() {
            return Err(Stop::Fault(StreamFault::SizePlace));
        }
        if self.mode == Mode::Single {
            return Err(Stop::Fault(StreamFault::Flush));
        }
        if page != 0 {
            return Err(Stop::Fault(StreamFault::OffsetOut));
        }
        self.flush_records()?;
        Ok(())
    }

    // Ends the open round by a FLUSH, or takes the FLUSH as a mark that shows what ends a round. An
    // `Err` changes nothing.
    fn flush_records(&mut self) -> Result<(), NoMemory>
        ensures ok { OnOk result (self.new ≡ flush_records self.old) }
        ensures err { OnErr result (self.new ≡ self.old) }
    {
        let in_start = is_start(self.section);
        let none = self.records.is_empty();
        let mode = flush_mode(self.mode, in_start, none);
        if flush_ends(self.mode, in_start, none) {
            self.end_round()?;
        } else {
            self.room = self.waiting;
        }
        self.mode = mode;
        self.due = Due::RecordHead;
        Ok(())
    }

    fn end_of_section(&mut self, page: u64) -> Result<(), Stop>
        ensures { TakesHead self.old kind.EndOfSection page self.new result }
    {
        if self.entries.left().is_none() {
            return Err(Stop::Fault(StreamFault::SizePlace));
        }
        if page != 0 {
            return Err(Stop::Fault(StreamFault::OffsetOut));
        }
        match self.mode {
            Mode::MainBySection | Mode::MainAsShown => self.end_round()?,
            Mode::Single | Mode::Main => {}
        }
        self.mode = eos_mode(self.mode, is_start(self.section));
        self.due = Due::Footer;
        Ok(())
    }

    // Makes a complete round of the records so far. An `Err` changes nothing.
    fn end_round(&mut self) -> Result<(), NoMemory>
        ensures ok { OnOk result (self.new ≡ end_round self.old) }
        ensures err { OnErr result (self.new ≡ self.old) }
    {
        self.rounds.reserve(1)?;
        self.records.fit();
        let none = Records::new(*self.rounds.allocator());
        let records = mem::replace(&mut self.records, none);
        self.rounds.push_back_reserved(records);
        self.room = self.waiting;
        self.filling = 0;
        Ok(())
    }

    #[inline(always)]
    pub(crate) fn record_head(&mut self, item: &[u8]) -> Result<(), Stop>
        requires { length item.now ≡ 8 }
        ensures { TakesAs self.old due.RecordHead item.now self.new result }
    {
        let (page, flags) = split_head(be64(item, 0), self.entries.page_size());
        match record_kind(flags) {
            None => Err(Stop::Fault(StreamFault::Flags(flags))),
            Some(RecordKind::SizeList) => self.size_list(page),
            Some(RecordKind::Named(filling)) => self.named(filling, page),
            Some(RecordKind::Continued(filling)) => self.continued(filling, page),
            Some(RecordKind::EndOfSection) => self.end_of_section(page),
            Some(RecordKind::Flush) => self.flush(page),
        }
    }

    pub(crate) fn list_entry(&mut self, item: &[u8]) -> Result<(), Stop>
        requires { length item.now ≡ 9 + slice_index item.now 0 }
        ensures { TakesAs self.old due.ListEntry item.now self.new result }
    {
        let id_len = item[0] as usize;
        let id = &item[1..1 + id_len];
        let len = be64(item, 1 + id_len);
        if self.entries.len() >= MAX_BLOCKS {
            return Err(Stop::Fault(StreamFault::TooManyBlocks));
        }
        if !is_id(id) {
            return Err(Stop::Fault(StreamFault::Id));
        }
        if self.entries.find(id).is_some() {
            return Err(Stop::Fault(StreamFault::IdTwice));
        }
        if len == 0 || len % self.entries.page_size() != 0 {
            return Err(Stop::Fault(StreamFault::Length));
        }
        let left = self.entries.left().unwrap_or(0);
        if len > left {
            return Err(Stop::Fault(StreamFault::SizeSum));
        }
        self.entries.push(id, len)?;
        self.due = entry_due(self.form, left - len == 0);
        Ok(())
    }

    /// Takes the page size of the last entry's block, or a record's head if that page size isn't
    /// there.
    pub(crate) fn last_page_size(&mut self, item: &[u8]) -> Result<(), Stop>
        requires { length item.now ≡ 8 }
        ensures { TakesAs self.old (due.PageSize true) item.now self.new result }
    {
        if !is_page_size(item) {
            return self.record_head(item);
        }
        self.due = Due::RecordHead;
        Ok(())
    }

    /// Takes the page size of an entry's block, or the next entry if that page size isn't there.
    pub(crate) fn next_page_size(&mut self, item: &[u8]) -> Result<(), Stop>
        requires { length item.now ≡ size self.old.page_size (due.PageSize false) item.now }
        ensures { TakesAs self.old (due.PageSize false) item.now self.new result }
    {
        if is_page_size(item) {
            self.due = Due::ListEntry;
            return Ok(());
        }
        if item[0] == 0 {
            return Err(Stop::Fault(self.no_id(item)));
        }
        self.list_entry(item)
    }

    // Returns the fault of an entry whose id has no bytes.
    #[tactic(auto, using(crate::proofs::NoPageSize::empty_id))]
    fn no_id(&self, _item: &[u8]) -> StreamFault
        requires some { 1 ≤ length _item.now }
        requires none { slice_index _item.now 0 ≡ 0 }
        ensures { first_of (entry_faults self.now _item.now) ≡ Some result }
    {
        if self.entries.len() >= MAX_BLOCKS {
            StreamFault::TooManyBlocks
        } else {
            StreamFault::Id
        }
    }

    #[inline(always)]
    pub(crate) fn page(&mut self, place: Place, item: Piece<'a, '_>) -> Result<(), Stop>
        requires place { IsShort place }
        requires size { length (bytes_of item) ≡ self.old.page_size }
        ensures { TakesAs self.old (due.Content filling.Normal place) (bytes_of item.entry) self.new result }
    {
        // shows that the page size is at most 8,192
        let _page_size = self.entries.page_size();
        self.filling = self.records.push_page(self.filling, place, item)?;
        self.room = less_room(self.room);
        self.due = Due::RecordHead;
        Ok(())
    }

    pub(crate) fn footer(&mut self, item: &[u8]) -> Result<(), Stop>
        requires { length item.now ≡ 5 }
        ensures { TakesAs self.old due.Footer item.now self.new result }
    {
        if item[0] != QEMU_VM_SECTION_FOOTER || be32(item, 1) != self.section_id {
            return Err(Stop::Fault(StreamFault::Footer));
        }
        let closes = closes(self.frame, self.section);
        if closes && self.mode != Mode::Single && self.records.len() != 0 {
            return Err(Stop::Fault(StreamFault::Tail));
        }
        if self.mode == Mode::Single {
            self.end_round()?;
        }
        self.room = open_room(self.mode, self.waiting, self.room);
        self.due = after_footer(self.frame, self.section);
        Ok(())
    }
}

impl<'a, A: Allocator> Progress<'a, A> {
    /// Passes over an item of a machine's stream that doesn't concern RAM.
    pub(crate) fn pass(&mut self, passed: PassedItem, item: &[u8]) -> Result<(), Stop>
        requires { length item.now ≡ passed_size passed item.now }
        ensures { TakesAs self.old (due.Passed passed) item.now self.new result }
    {
        let form = passed_form(self.form, passed, item);
        self.due = match passed {
            PassedItem::Command(before) => {
                let clashes = self.form == EntryForm::Addressed && advises(before, item);
                if !is_passed_command(be16(item, 0)) || clashes {
                    return Err(Stop::Fault(StreamFault::Command));
                }
                Due::TypeByte(before)
            }
            PassedItem::SubsectionHead => subsection_head(item)?,
            PassedItem::SubsectionBody(Subsection::PageBits) => {
                if !are_page_bits(be32(item, 0), self.entries.page_size()) {
                    return Err(Stop::Fault(StreamFault::PageBits));
                }
                Due::TypeByte(Before::Configuration)
            }
            PassedItem::SubsectionBody(Subsection::Uuid) => Due::TypeByte(Before::Configuration),
            PassedItem::SubsectionBody(Subsection::Capabilities) => capabilities_due(be32(item, 0)),
            PassedItem::Capability(others) => {
                if is_mapped_ram(&item[1..1 + item[0] as usize]) {
                    return Err(Stop::Fault(StreamFault::Capability));
                }
                capabilities_due(others)
            }
            PassedItem::Address(last) => list_due(last),
            PassedItem::Early(before, part) => behind_early(before, part, item)?,
        };
        self.form = form;
        Ok(())
    }
}

// Returns the form of the size list after an item that is passed over.
fn passed_form(form: EntryForm, passed: PassedItem, item: &[u8]) -> EntryForm
    requires { length item.now ≡ passed_size passed item.now }
    ensures { result ≡ passed_form form passed item.now }
{
    match passed {
        PassedItem::Command(before) => {
            if advises(before, item) {
                EntryForm::Sized
            } else {
                form
            }
        }
        PassedItem::Capability(_) => {
            if is_ignore_shared(&item[1..1 + item[0] as usize]) {
                EntryForm::Addressed
            } else {
                form
            }
        }
        _ => form,
    }
}

// Returns whether a COMMAND, before START, allows postcopy of RAM.
fn advises(before: Before, item: &[u8]) -> bool
    requires { 4 ≤ length item.now }
    ensures { result ≡ advises before item.now }
{
    match before {
        Before::Command => {
            be16(item, 0) == MIG_CMD_POSTCOPY_ADVISE && be16(item, 2) == POSTCOPY_ADVISE_LEN
        }
        _ => false,
    }
}

// Returns the item after the name and the version of a subsection.
fn subsection_head(item: &[u8]) -> Result<Due, Stop>
    requires { length item.now ≡ 5 + slice_index item.now 0 }
    ensures { TellsBody item.now result }
{
    let len = item[0] as usize;
    let Some(subsection) = subsection_of(&item[1..1 + len]) else {
        return Err(Stop::Fault(StreamFault::Subsection));
    };
    if be32(item, 1 + len) != SUBSECTION_VERSION {
        return Err(Stop::Fault(StreamFault::Subsection));
    }
    Ok(Due::Passed(PassedItem::SubsectionBody(subsection)))
}

// Returns the item after a part of virtio-mem's early state.
fn behind_early(before: Before, part: EarlyPart, item: &[u8]) -> Result<Due, Stop>
    requires { length item.now ≡ early_size part item.now }
    ensures { TellsEarly before part item.now result }
{
    match part {
        EarlyPart::Head => {
            if !is_early(item) {
                return Err(Stop::Fault(StreamFault::SectionName));
            }
            let numbers = EarlyPart::Numbers(be32(item, 0));
            Ok(Due::Passed(PassedItem::Early(before, numbers)))
        }
        EarlyPart::Numbers(id) => {
            let block_size = be64(item, 16);
            if block_size == 0 {
                return Err(Stop::Fault(StreamFault::Length));
            }
            let words = plugged_words(be64(item, 8), block_size);
            Ok(plugged_due(before, id, words))
        }
        EarlyPart::Plugged(id, others) => Ok(plugged_due(before, id, others)),
        EarlyPart::Footer(id) => {
            if item[0] != QEMU_VM_SECTION_FOOTER || be32(item, 1) != id {
                return Err(Stop::Fault(StreamFault::Footer));
            }
            Ok(Due::TypeByte(before))
        }
    }
}

// Returns whether this head of a device's section is that of virtio-mem's early state.
#[tactic(auto, unfolding(crate::specs::Format::early_name))]
fn is_early(item: &[u8]) -> bool
    requires { length item.now ≡ 13 + slice_index item.now 4 }
    ensures { result ≡ is_early item.now }
{
    let len = item[4] as usize;
    let name = &item[5..5 + len];
    name.ends_with(EARLY_NAME) && be32(item, 9 + len) == EARLY_VERSION
}

// Returns how many words have a bit for each block of a region.
fn plugged_words(region: u64, block_size: u64) -> u64
    requires { block_size ≢ 0 }
    ensures { result ≡ plugged_words region block_size }
{
    (region / block_size).div_ceil(64)
}

// Returns the item after the numbers of virtio-mem's early state, or after one of its words, if
// `others` more follow.
fn plugged_due(before: Before, id: u32, others: u64) -> Due
    ensures { result ≡ plugged_due before id others }
{
    let part = if others == 0 {
        EarlyPart::Footer(id)
    } else {
        EarlyPart::Plugged(id, others - 1)
    };
    Due::Passed(PassedItem::Early(before, part))
}

// Returns the subsection with this name.
#[tactic(auto, unfolding(crate::specs::Format::subsection_name))]
fn subsection_of(name: &[u8]) -> Option<Subsection>
    ensures { result ≡ subsection_of name.now }
{
    if name == PAGE_BITS_NAME {
        return Some(Subsection::PageBits);
    }
    if name == UUID_NAME {
        return Some(Subsection::Uuid);
    }
    if name == CAPABILITIES_NAME {
        return Some(Subsection::Capabilities);
    }
    None
}

// Returns whether a COMMAND with this number is passed over.
fn is_passed_command(number: u16) -> bool
    ensures { result ≡ is_passed_command number }
{
    match number {
        MIG_CMD_OPEN_RETURN_PATH
        | MIG_CMD_PING
        | MIG_CMD_POSTCOPY_ADVISE
        | MIG_CMD_ENABLE_COLO
        | MIG_CMD_SWITCHOVER_START => true,
        _ => false,
    }
}

// Returns whether a page has 2^`bits` bytes.
fn are_page_bits(bits: u32, page_size: u64) -> bool
    ensures { result ≡ (2 ^ bits == page_size) }
{
    2u64.checked_pow(bits) == Some(page_size)
}

// Returns whether the capability `name` adds guest addresses to the size list.
#[tactic(auto, unfolding(crate::specs::Format::ignore_shared))]
fn is_ignore_shared(name: &[u8]) -> bool
    ensures { result ≡ bytes_eq name.now ignore_shared }
{
    name == IGNORE_SHARED
}

// Returns whether pages are at fixed places of a file, with the capability `name`.
#[tactic(auto, unfolding(crate::specs::Format::mapped_ram))]
fn is_mapped_ram(name: &[u8]) -> bool
    ensures { result ≡ bytes_eq name.now mapped_ram }
{
    name == MAPPED_RAM
}

// Returns the item after the count of capabilities, or after one of them, if `others` more follow.
fn capabilities_due(others: u32) -> Due
    ensures { result ≡ capabilities_due others }
{
    if others == 0 {
        Due::TypeByte(Before::Configuration)
    } else {
        Due::Passed(PassedItem::Capability(others - 1))
    }
}

// Returns the item after the type byte of one that is passed over.
fn passed_by(before: Before, byte: u8) -> PassedItem
    ensures { result ≡ passed_by before byte }
{
    match byte {
        QEMU_VM_COMMAND => PassedItem::Command(after_command(before)),
        QEMU_VM_SECTION_FULL => PassedItem::Early(after_command(before), EarlyPart::Head),
        _ => PassedItem::SubsectionHead,
    }
}

// Returns what the type byte after a COMMAND, or after a device's section, follows.
fn after_command(before: Before) -> Before
    ensures { result ≡ after_command before }
{
    match before {
        Before::FileHeader | Before::Configuration | Before::Command => Before::Command,
        Before::Footer => Before::Footer,
        Before::LastFooter => Before::LastFooter,
    }
}

// Returns whether what begins with this type byte is passed over after `before`. `section` is the
// last one of RAM so far.
fn is_passed(frame: Frame, section: Section, before: Before, byte: u8) -> bool
    ensures { result ≡ is_passed frame section before byte }
{
    let is_command = byte == QEMU_VM_COMMAND;
    let is_full = byte == QEMU_VM_SECTION_FULL;
    let may_pass = match before {
        Before::FileHeader | Before::Command => is_command || is_full,
        Before::Configuration => is_command || is_full || byte == QEMU_VM_SUBSECTION,
        Before::Footer => is_command || (is_full && is_start(section)),
        Before::LastFooter => false,
    };
    may_pass && frame == Frame::Machine
}

// Returns whether the footer of this section closes the stream.
fn closes(frame: Frame, section: Section) -> bool
    ensures { result ≡ closes frame section }
{
    match section {
        Section::End => frame == Frame::Machine,
        _ => false,
    }
}

fn after_footer(frame: Frame, section: Section) -> Due
    ensures { result ≡ after_footer frame section }
{
    if closes(frame, section) {
        return Due::Nothing;
    }
    Due::TypeByte(match section {
        Section::End => Before::LastFooter,
        _ => Before::Footer,
    })
}

// Returns whether this type byte is accepted after `before`.
fn is_allowed(before: Before, byte: u8) -> bool
    ensures { result ≡ is_allowed before byte }
{
    match before {
        Before::FileHeader => byte == QEMU_VM_CONFIGURATION || byte == QEMU_VM_SECTION_START,
        Before::Configuration | Before::Command => byte == QEMU_VM_SECTION_START,
        Before::Footer => byte == QEMU_VM_SECTION_PART || byte == QEMU_VM_SECTION_END,
        Before::LastFooter => byte == QEMU_VM_EOF,
    }
}

// Returns whether bytes after an entry of the size list are the page size of its block.
pub(crate) fn is_page_size(bytes: &[u8]) -> bool
    requires { 8 ≤ length bytes.now }
    ensures { result ≡ is_page_size bytes.now }
{
    let size = be64(bytes, 0);
    bytes[0] == 0 && (size != 0 && size % PAGE_SIZE_4K == 0)
}

// Returns the item after an entry of the size list and all that belongs to it.
fn list_due(last: bool) -> Due
    ensures { result ≡ list_due last }
{
    if last {
        Due::RecordHead
    } else {
        Due::ListEntry
    }
}

// Returns the item after the length of the block in an entry of this form.
fn entry_due(form: EntryForm, last: bool) -> Due
    ensures { result ≡ entry_due form last }
{
    match form {
        EntryForm::Plain => list_due(last),
        EntryForm::Addressed => Due::Passed(PassedItem::Address(last)),
        EntryForm::Sized => Due::PageSize(last),
    }
}

// Returns the page number and the flags of a record's head. The page sizes are constants here, so
// that no division is left at run time.
pub(crate) fn split_head(head: u64, page_size: u64) -> (u64, u16)
    requires { IsPageSize page_size }
    ensures page { result.0 ≡ head / page_size }
    ensures flags { result.1 ≡ head % page_size }
{
    if page_size == PAGE_SIZE_4K {
        (head / PAGE_SIZE_4K, (head % PAGE_SIZE_4K) as u16)
    } else {
        (head / PAGE_SIZE_8K, (head % PAGE_SIZE_8K) as u16)
    }
}

// Returns whether the open round takes no more page records.
#[inline(always)]
pub(crate) fn is_full(room: Option<u64>) -> bool
    ensures { result ≡ is_full room }
{
    match room {
        Some(room) => room == 0,
        None => false,
    }
}

fn is_start(section: Section) -> bool
    ensures { result ≡ is_start section }
{
    match section {
        Section::Start => true,
        Section::Part | Section::End => false,
    }
}

// Returns the mode that a FLUSH shows, in START or after it, given whether the open round has no
// page record.
fn flush_mode(mode: Mode, in_start: bool, none: bool) -> Mode
    ensures { result ≡ flush_mode mode in_start none }
{
    match mode {
        Mode::MainAsShown if in_start || none => Mode::Main,
        Mode::MainAsShown => Mode::MainBySection,
        Mode::Single | Mode::Main | Mode::MainBySection => mode,
    }
}

// Returns whether that FLUSH ends a round.
fn flush_ends(mode: Mode, in_start: bool, none: bool) -> bool
    ensures { result ≡ flush_ends mode in_start none }
{
    match mode {
        Mode::MainAsShown => in_start || !none,
        Mode::Single | Mode::Main | Mode::MainBySection => true,
    }
}

// Returns the mode that an EOS shows, in START or after it.
fn eos_mode(mode: Mode, in_start: bool) -> Mode
    ensures { result ≡ eos_mode mode in_start }
{
    match mode {
        Mode::MainAsShown if !in_start => Mode::MainBySection,
        _ => mode,
    }
}

// Returns the room for page records after a footer: that of a main stream's round stays.
fn open_room(mode: Mode, waiting: Option<u64>, room: Option<u64>) -> Option<u64>
    ensures { result ≡ open_room mode waiting room }
{
    match (waiting, mode) {
        (None, _) => None,
        (Some(waiting), Mode::Single) => Some(waiting),
        (Some(_), Mode::Main | Mode::MainBySection | Mode::MainAsShown) => room,
    }
}

// Returns the room for page records after one more.
#[inline(always)]
pub(crate) fn less_room(room: Option<u64>) -> Option<u64>
    ensures { result ≡ less_room room }
{
    match room {
        Some(room) => Some(room.saturating_sub(1)),
        None => None,
    }
}

// Returns the kind of a record by its flags.
pub(crate) fn record_kind(flags: u16) -> Option<RecordKind>
    ensures { result ≡ record_kind flags }
{
    match flags {
        RAM_SAVE_FLAG_MEM_SIZE => Some(RecordKind::SizeList),
        RAM_SAVE_FLAG_ZERO => Some(RecordKind::Named(Filling::Zero)),
        RAM_SAVE_FLAG_PAGE => Some(RecordKind::Named(Filling::Normal)),
        CONTINUED_ZERO => Some(RecordKind::Continued(Filling::Zero)),
        CONTINUED_PAGE => Some(RecordKind::Continued(Filling::Normal)),
        RAM_SAVE_FLAG_EOS => Some(RecordKind::EndOfSection),
        RAM_SAVE_FLAG_MULTIFD_FLUSH => Some(RecordKind::Flush),
        _ => None,
    }
}
