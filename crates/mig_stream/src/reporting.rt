//! Reading with a report: each item that is taken is added to it, unless it is a part of a page
//! record. `StreamReader::feed_reporting` and `RecordReader::read_on_reporting` call it.
//!
//! These are the loops of `progress`, `record_reader` and `reader` once more, so that a reader
//! without a report does nothing for it.

ghost use Rattle.std.specs.Prelude.{◌≡◌, ◌≢◌, ◌+◌, ◌<◌, ◌≤◌, ◌^◌, ◌++◌, [], false, length, take, None, Some, IfOk, IfSome, IfNone, IsSome, OnOk, OnErr};
ghost use Rattle.mig_stream.specs.declared.item.StreamState.TheVariants as state;
ghost use Rattle.mig_stream.specs.declared.item.Due.TheVariants as due;
ghost use Rattle.mig_stream.specs.Items.{size};
ghost use Rattle.mig_stream.specs.Reading.{IsItem, Ends};
ghost use Rattle.mig_stream.specs.Taking.{TakesAs, HasTaken};
ghost use Rattle.mig_stream.specs.Kept.{bytes_of};
ghost use Rattle.mig_stream.specs.Reader.{IsUnfinished};
ghost use Rattle.mig_stream.specs.Giving.{IsUnread};
ghost use Rattle.mig_stream.specs.Report.{begun_by, kind_of_head, kind_of_record, kind_of_passed, kind_of, with_item, ReportsTo, ReadsReporting, KeepsItems};

use crate::fields::be64;
use crate::format::{
    QEMU_VM_COMMAND, QEMU_VM_CONFIGURATION, QEMU_VM_SECTION_END, QEMU_VM_SECTION_FULL,
    QEMU_VM_SECTION_PART, QEMU_VM_SECTION_START, QEMU_VM_SUBSECTION,
};
use crate::item::{Due, EarlyPart, PassedItem, RecordKind, StreamState, Subsection};
use crate::items::{is_page_size, record_kind, split_head};
use crate::piece::Piece;
use crate::progress::Progress;
use crate::reader::{complete, keep};
use crate::report::{ItemKind, Report};
use crate::stop::Stop;
use mig_mem::NoMemory;
use std::alloc::Allocator;

// Returns what a type byte begins.
fn begun_by(byte: u8) -> ItemKind
    ensures { result ≡ begun_by byte }
{
    match byte {
        QEMU_VM_CONFIGURATION => ItemKind::Configuration,
        QEMU_VM_SECTION_START => ItemKind::Start,
        QEMU_VM_SECTION_PART => ItemKind::Part,
        QEMU_VM_SECTION_END => ItemKind::End,
        QEMU_VM_SUBSECTION => ItemKind::Subsection,
        QEMU_VM_COMMAND => ItemKind::Command,
        QEMU_VM_SECTION_FULL => ItemKind::Device,
        _ => ItemKind::EndByte,
    }
}

// Returns what a record's head of this kind is.
fn kind_of_head(kind: Option<RecordKind>) -> Option<ItemKind>
    ensures { result ≡ kind_of_head kind }
{
    match kind {
        Some(RecordKind::SizeList) => Some(ItemKind::SizeList),
        Some(RecordKind::EndOfSection) => Some(ItemKind::EndOfSection),
        Some(RecordKind::Flush) => Some(ItemKind::Flush),
        _ => None,
    }
}

// Returns what an item is that is passed over.
fn kind_of_passed(passed: PassedItem) -> ItemKind
    ensures { result ≡ kind_of_passed passed }
{
    match passed {
        PassedItem::Command(_) => ItemKind::CommandBody,
        PassedItem::SubsectionHead => ItemKind::SubsectionName,
        PassedItem::SubsectionBody(Subsection::PageBits) => ItemKind::PageBits,
        PassedItem::SubsectionBody(Subsection::Uuid) => ItemKind::Uuid,
        PassedItem::SubsectionBody(Subsection::Capabilities) => ItemKind::CapabilityCount,
        PassedItem::Capability(_) => ItemKind::Capability,
        PassedItem::Address(_) => ItemKind::BlockAddress,
        PassedItem::Early(_, EarlyPart::Head) => ItemKind::DeviceHead,
        PassedItem::Early(_, EarlyPart::Numbers(_)) => ItemKind::VirtioMem,
        PassedItem::Early(_, EarlyPart::Plugged(_, _)) => ItemKind::PluggedBlocks,
        PassedItem::Early(_, EarlyPart::Footer(_)) => ItemKind::DeviceFooter,
    }
}

impl<'a, A: Allocator> Progress<'a, A> {
    // Returns what a record's head is.
    fn kind_of_record(&self, item: &[u8]) -> Option<ItemKind>
        requires { 8 ≤ length item.now }
        ensures { result ≡ kind_of_record self.now.page_size item.now }
    {
        let (_, flags) = split_head(be64(item, 0), self.entries.page_size());
        kind_of_head(record_kind(flags))
    }

    // Returns what the item that is due is.
    fn kind_of(&self, item: &[u8]) -> Option<ItemKind>
        requires { length item.now ≡ size self.now.page_size self.now.due item.now }
        ensures { result ≡ kind_of self.now.page_size self.now.due item.now }
    {
        match self.due {
            Due::FileHeader => Some(ItemKind::FileHeader),
            Due::TypeByte(_) => Some(begun_by(item[0])),
            Due::ConfigLength => Some(ItemKind::NameLength),
            Due::ConfigName(_) => Some(ItemKind::Name),
            Due::StartHead => Some(ItemKind::StartHead),
            Due::SectionHead => Some(ItemKind::SectionHead),
            Due::RecordHead => self.kind_of_record(item),
            Due::ListEntry => Some(ItemKind::ListEntry),
            Due::PageSize(last) => self.kind_of_page_size(last, item),
            Due::BlockName(_, _) | Due::Content(_, _) | Due::Nothing => None,
            Due::Footer => Some(ItemKind::Footer),
            Due::Passed(passed) => Some(kind_of_passed(passed)),
        }
    }

    // Returns what the item is after an entry of the size list: the page size of its block, or what
    // follows if that isn't there.
    fn kind_of_page_size(&self, last: bool, item: &[u8]) -> Option<ItemKind>
        requires { length item.now ≡ size self.now.page_size (due.PageSize last) item.now }
        ensures { result ≡ kind_of self.now.page_size (due.PageSize last) item.now }
    {
        if is_page_size(item) {
            return Some(ItemKind::BlockPageSize);
        }
        if last {
            return self.kind_of_record(item);
        }
        Some(ItemKind::ListEntry)
    }
}

impl<'a, A: Allocator + Copy> Progress<'a, A> {
    /// Takes the item that is due, and adds it to `report`. An `Err` changes nothing.
    pub(crate) fn take_reporting(
        &mut self,
        item: Piece<'a, '_>,
        report: &mut Report<A>,
    ) -> Result<(), Stop>
        requires { IsItem self.old.page_size self.old.due (bytes_of item) }
        ensures takes { TakesAs self.old self.old.due (bytes_of item.entry) self.new result }
        ensures ok { OnOk result (report.old.at + length (bytes_of item.entry) < 2 ^ 64
            → report.new ≡ with_item (kind_of self.old.page_size self.old.due (bytes_of item.entry)) (bytes_of item.entry) report.old) }
        ensures kept { KeepsItems report.old report.new }
        ensures err { OnErr result (report.new ≡ report.old) }
    {
        let bytes = item.bytes();
        let mark = report.mark();
        report.add(self.kind_of(bytes), bytes)?;
        match self.take(item) {
            Ok(()) => Ok(()),
            Err(stop) => {
                report.go_back(mark);
                Err(stop)
            }
        }
    }

    /// Takes items as `run_on` does, and adds them to `report`. After an `Err` some may have been
    /// added.
    pub(crate) fn run_reporting<'b>(
        &mut self,
        text: Piece<'a, 'b>,
        pauses: bool,
        report: &mut Report<A>,
    ) -> Result<(Piece<'a, 'b>, Option<StreamState>), NoMemory>
        ensures reports { IfOk result (λ r. ReportsTo self.old (bytes_of text.entry) (bytes_of r.0) self.new report.old report.new) }
        ensures stands { IfOk result (λ r. IfSome r.1 (λ found. Ends self.new (bytes_of r.0) found)) }
        ensures told { pauses ≡ false → IfOk result (λ r. IsSome r.1) }
        ensures moves { IfOk result (λ r. IfNone r.1 (length (bytes_of r.0) < length (bytes_of text.entry))) }
        ensures err { OnErr result (HasTaken self.old (bytes_of text.entry) self.new) }
        ensures kept { KeepsItems report.old report.new }
    {
        let mut rest = text;
        'items: while !self.is_closed() {
            let bytes = rest.bytes();
            let size = self.size(bytes);
            if bytes.len() < size {
                return Ok((rest, Some(StreamState::Reading)));
            }
            let pause = pauses && size > 0 && self.ends_piece();
            let (item, behind) = rest.split_at(size);
            match self.take_reporting(item, report) {
                Ok(()) => {
                    if pause {
                        return Ok((behind, None));
                    }
                    let len = behind.bytes().len();
                    rest = self.pass_zeros(behind)?;
                    report.skip(len - rest.bytes().len());
                }
                Err(Stop::Fault(fault)) => return Ok((rest, Some(self.stopped(item, fault)))),
                Err(Stop::Memory) => return Err(NoMemory),
            }
        }
        Ok((rest, Some(StreamState::Closed)))
    }
}

/// Reads the item whose first bytes are pending as `read_pending` does, and adds it to `report`. An
/// `Err` takes no item.
pub(crate) fn read_pending_reporting<'b, A: Allocator + Copy>(
    progress: &mut Progress<'_, A>,
    pending: &mut Vec<u8, A>,
    piece: &'b [u8],
    report: &mut Report<A>,
) -> Result<(&'b [u8], Option<StreamState>), NoMemory>
    requires part { IsUnfinished progress.old pending.old.items }
    requires some { 0 < length pending.old.items }
    ensures reports { IfOk result (λ r. ReportsTo progress.old (pending.old.items ++ piece.now) (pending.new.items ++ r.0.now) progress.new report.old report.new) }
    ensures stands { IfOk result (λ r. IfSome r.1 (λ found. Ends progress.new (pending.new.items ++ r.0.now) found)) }
    ensures moves { IfOk result (λ r. IfNone r.1 (length (pending.new.items ++ r.0.now) < length (pending.old.items ++ piece.now))) }
    ensures none { IfOk result (λ r. IfNone r.1 (pending.new.items ≡ [])) }
    ensures closed { IfOk result (λ r. r.1 ≢ Some state.Closed) }
    ensures err { OnErr result (progress.new ≡ progress.old) }
    ensures kept { OnErr result (take (length pending.old.items) pending.new.items ≡ pending.old.items) }
    ensures same { OnErr result (report.new ≡ report.old) }
{
    let Some(rest) = complete(progress, pending, piece)? else {
        return Ok((&[], Some(StreamState::Reading)));
    };
    match progress.take_reporting(Piece::Passing(pending), report) {
        Ok(()) => {
            pending.clear();
            Ok((rest, None))
        }
        Err(Stop::Fault(fault)) => Ok((rest, Some(StreamState::Bad(fault)))),
        Err(Stop::Memory) => Err(NoMemory),
    }
}

/// Reads up to the next pause as `read_to_pause` does, and adds the items to `report`. After an
/// `Err` some may have been added.
pub(crate) fn read_to_pause_reporting<'a, A: Allocator + Copy>(
    progress: &mut Progress<'a, A>,
    pending: &mut Vec<u8, A>,
    rest: Piece<'a, 'a>,
    report: &mut Report<A>,
) -> Result<(Piece<'a, 'a>, Option<StreamState>), NoMemory>
    requires { IsUnread None progress.old pending.old.items (bytes_of rest) }
    ensures reports { IfOk result (λ r. ReportsTo progress.old (pending.old.items ++ bytes_of rest.entry) (pending.new.items ++ bytes_of r.0) progress.new report.old report.new) }
    ensures stands { IfOk result (λ r. IfSome r.1 (λ found. Ends progress.new (pending.new.items ++ bytes_of r.0) found)) }
    ensures moves { IfOk result (λ r. IfNone r.1 (length (pending.new.items ++ bytes_of r.0) < length (pending.old.items ++ bytes_of rest.entry))) }
    ensures none { IfOk result (λ r. IfNone r.1 (pending.new.items ≡ [])) }
    ensures closed { IfOk result (λ r. r.1 ≡ Some state.Closed → pending.new.items ≡ []) }
    ensures err { OnErr result (HasTaken progress.old (pending.old.items ++ bytes_of rest.entry) progress.new) }
    ensures kept { OnErr result (take (length pending.old.items) pending.new.items ≡ pending.old.items) }
    ensures items { OnErr result (KeepsItems report.old report.new) }
{
    if pending.is_empty() {
        return progress.run_reporting(rest, true, report);
    }
    let (rest, found) = read_pending_reporting(progress, pending, rest.into_bytes(), report)?;
    Ok((Piece::Staying(rest), found))
}

// Reads bytes of one call in place as `read_in_place` does, and adds the items to `report`. After
// an `Err` some may have been added.
fn read_in_place_reporting<A: Allocator + Copy>(
    progress: &mut Progress<'_, A>,
    pending: &mut Vec<u8, A>,
    bytes: &[u8],
    report: &mut Report<A>,
) -> Result<(StreamState, usize), NoMemory>
    ensures ok { IfOk result (λ r. ReadsReporting progress.old bytes.now progress.new pending.new.items r.1 r.0 report.old report.new) }
    ensures err { OnErr result (HasTaken progress.old bytes.now progress.new) }
    ensures kept { OnErr result (pending.new.items ≡ pending.old.items) }
    ensures items { OnErr result (KeepsItems report.old report.new) }
{
    match progress.run_reporting(Piece::Passing(bytes), false, report)? {
        (rest, Some(found)) => {
            match found {
                StreamState::Reading => keep(pending, rest.bytes())?,
                _ => pending.clear(),
            }
            Ok((found, rest.bytes().len()))
        }
        (_, None) => unreachable!(),
    }
}

/// Reads a piece that follows the pending bytes as `read` does, and adds the items to `report`.
/// After an `Err` some may have been added.
pub(crate) fn read_reporting<A: Allocator + Copy>(
    progress: &mut Progress<'_, A>,
    pending: &mut Vec<u8, A>,
    piece: &[u8],
    report: &mut Report<A>,
) -> Result<(StreamState, usize), NoMemory>
    requires { IsUnfinished progress.old pending.old.items }
    ensures ok { IfOk result (λ r. ReadsReporting progress.old (pending.old.items ++ piece.now) progress.new pending.new.items r.1 r.0 report.old report.new) }
    ensures err { OnErr result (HasTaken progress.old (pending.old.items ++ piece.now) progress.new) }
    ensures kept { OnErr result (take (length pending.old.items) pending.new.items ≡ pending.old.items) }
    ensures items { OnErr result (KeepsItems report.old report.new) }
{
    if pending.is_empty() {
        return read_in_place_reporting(progress, pending, piece, report);
    }
    let Some(rest) = complete(progress, pending, piece)? else {
        return Ok((StreamState::Reading, pending.len()));
    };
    match progress.take_reporting(Piece::Passing(pending), report) {
        Ok(()) => read_in_place_reporting(progress, pending, rest, report),
        Err(Stop::Fault(fault)) => Ok((StreamState::Bad(fault), pending.len() + rest.len())),
        Err(Stop::Memory) => Err(NoMemory),
    }
}
