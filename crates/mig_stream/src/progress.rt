//! How far a stream has been read, and the loop over its items. `StreamReader` keeps one.

ghost use Rattle.std.specs.Prelude.{◌≡◌, ◌≢◌, ◌<◌, ◌≤◌, ◌^◌, false, length, OnErr, IfOk, IfSome, IfNone, [], ◌∷◌, IsTrue, IsFalse, IsSome};
ghost use Rattle.std.specs.Option.{option_copied};
ghost use Rattle.mig_mem.specs.PageSize.{IsPageSize};
ghost use Rattle.mig_stream.specs.declared.item.Due.TheVariants as due;
ghost use Rattle.mig_stream.specs.Progress.{StreamProgress, start, whole_table};
ghost use Rattle.mig_stream.specs.Items.{size, early_size, passed_size, less_room, is_over};
ghost use Rattle.mig_stream.specs.Reading.{IsItem, Ends, Reads, stopped};
ghost use Rattle.mig_stream.specs.Taking.{TakesAs, HasTaken, HasTakenTo};
ghost use Rattle.mig_stream.specs.Entries.{AreListed};
ghost use Rattle.mig_stream.specs.Kept.{bytes_of, HasShortPlace};
ghost use Rattle.mig_stream.specs.Later.{checkpoint_of, IsLater, WasSaved};
ghost use Rattle.mig_stream.specs.Reader.{with_taken};

use crate::StreamFault;
use crate::entries::Entries;
use crate::format::QEMU_VM_SECTION_FULL;
use crate::item::{
    Before, Due, EarlyPart, EntryForm, Filling, Frame, Mode, PassedItem, Section, StreamState,
    Subsection,
};
use crate::items::less_room;
use crate::piece::Piece;
use crate::round::{Records, StreamRound};
use crate::stop::Stop;
use mig_mem::{NoMemory, Table};
use std::alloc::Allocator;
use std::collections::VecDeque;
use std::marker::Model;
use std::mem;

/// How many records are given before others are read.
const MANY: usize = 1 << 10;

/// How far a stream has been read.
pub(crate) struct Progress<'a, A: Allocator> {
    pub(crate) frame: Frame,
    pub(crate) mode: Mode,
    pub(crate) entries: Entries<A>,
    pub(crate) due: Due,
    pub(crate) section: Section,
    pub(crate) section_id: u32,
    pub(crate) form: EntryForm,
    pub(crate) named: Option<usize>,
    // the most page records of a round, and how many more the open one takes: None is any number
    pub(crate) waiting: Option<u64>,
    pub(crate) room: Option<u64>,
    // the records of the open round, and the complete rounds that were not given away
    pub(crate) records: Records<'a, A>,
    // the record whose buffer is being filled, if there is one
    pub(crate) filling: usize,
    pub(crate) rounds: VecDeque<Records<'a, A>, A>,
}

// Written out, so that a caller's proof passes a call where a value is dropped.
impl<'a, A: Allocator> Drop for Progress<'a, A> {
    fn drop(self) {
        let Progress {
            frame: _,
            mode: _,
            entries: _,
            due: _,
            section: _,
            section_id: _,
            form: _,
            named: _,
            waiting: _,
            room: _,
            records: _,
            filling: _,
            rounds: _,
        } = self;
    }
}

impl<'a, A: Allocator> Model for Progress<'a, A> {
    ghost use Rattle.std.specs.Prelude.{All};
    ghost use Rattle.mig_stream.specs.Progress.{StreamProgress};
    ghost use Rattle.mig_stream.specs.Round.{AreWhole};
    ghost use Rattle.mig_stream.specs.Kept.{HasShortPlace};

    ghost Value = { StreamProgress };

    ghost view = { λ c. record {
      frame = c.frame;
      mode = c.mode;
      page_size = c.entries.page_size;
      limit = c.entries.limit;
      waiting = c.waiting;
      due = c.due;
      section = c.section;
      section_id = c.section_id;
      form = c.form;
      left = c.entries.left;
      blocks = c.entries.blocks;
      named = c.named;
      room = c.room;
      records = c.records;
      rounds = c.rounds.items;
    } };

    ghost invariant = { λ c. (AreWhole c.entries.page_size c.records × All (AreWhole c.entries.page_size) c.rounds.items)
        × HasShortPlace c.due };
}

/// How far a stream had been read, to go back to. The lists of the progress only grow.
#[derive(Clone, Copy)]
pub(crate) struct Checkpoint {
    mode: Mode,
    due: Due,
    section: Section,
    section_id: u32,
    form: EntryForm,
    left: Option<u64>,
    blocks: usize,
    named: Option<usize>,
    room: Option<u64>,
    records: usize,
    rounds: usize,
}

impl<'a, A: Allocator + Copy> Progress<'a, A> {
    /// Creates the progress before the first byte.
    pub(crate) fn new(
        alloc: A,
        frame: Frame,
        mode: Mode,
        page_size: u64,
        limit: u64,
        waiting: Option<u64>,
    ) -> Progress<'a, A>
        requires page_size { IsPageSize page_size }
        requires limit { limit ≤ 2 ^ 40 }
        ensures { result ≡ start frame mode page_size limit waiting }
    {
        Progress {
            frame,
            mode,
            entries: Entries::new(alloc, page_size, limit),
            due: Due::FileHeader,
            section: Section::Start,
            section_id: 0,
            form: EntryForm::Plain,
            named: None,
            waiting,
            room: waiting,
            records: Records::new(alloc),
            filling: 0,
            rounds: VecDeque::new(alloc),
        }
    }

    /// Goes on after the content of a page, whose record isn't kept here.
    pub(crate) fn pass_page(&mut self)
        ensures { self.new ≡ record self.old { due = due.RecordHead; room = less_room self.old.room } }
    {
        self.room = less_room(self.room);
        self.due = Due::RecordHead;
    }

    /// Drops the bytes read so far. No record lends them.
    pub(crate) fn without_records<'b>(self) -> Progress<'b, A>
        requires records { self.records ≡ [] }
        requires rounds { self.rounds ≡ [] }
        ensures { result ≡ self.entry }
    {
        let alloc = self.records.alloc();
        let Progress {
            frame,
            mode,
            entries,
            due,
            section,
            section_id,
            form,
            named,
            waiting,
            room,
            records: _,
            filling: _,
            rounds: _,
        } = self;
        Progress {
            frame,
            mode,
            entries,
            due,
            section,
            section_id,
            form,
            named,
            waiting,
            room,
            records: Records::new(alloc),
            filling: 0,
            rounds: VecDeque::new(alloc),
        }
    }

    /// Returns a round of no records.
    pub(crate) fn no_round(&self) -> StreamRound<'a, A>
        ensures { result ≡ record { page_size = self.now.page_size; records = [] } }
    {
        StreamRound::new(self.entries.page_size(), Records::new(self.records.alloc()))
    }
}

impl<'a, A: Allocator + Copy> Progress<'a, A> {
    /// Takes the item that is due. An `Err` changes nothing.
    #[inline(always)]
    pub(crate) fn take(&mut self, item: Piece<'a, '_>) -> Result<(), Stop>
        requires { IsItem self.old.page_size self.old.due (bytes_of item) }
        ensures { TakesAs self.old self.old.due (bytes_of item.entry) self.new result }
    {
        let bytes = item.bytes();
        match self.due {
            Due::FileHeader => self.file_header(bytes),
            Due::TypeByte(before) => self.type_byte(before, bytes),
            Due::ConfigLength => self.config_length(bytes),
            Due::ConfigName(len) => self.config_name(len, bytes),
            Due::StartHead => self.start_head(bytes),
            Due::SectionHead => self.section_head(bytes),
            Due::RecordHead => self.record_head(bytes),
            Due::ListEntry => self.list_entry(bytes),
            Due::PageSize(true) => self.last_page_size(bytes),
            Due::PageSize(false) => self.next_page_size(bytes),
            Due::BlockName(filling, page) => self.block_name(filling, page, bytes),
            Due::Content(Filling::Zero, place) => self.fill_byte(place, bytes),
            Due::Content(Filling::Normal, place) => self.page(place, item),
            Due::Footer => self.footer(bytes),
            Due::Passed(passed) => self.pass(passed, bytes),
            Due::Nothing => Ok(()),
        }
    }

    /// Takes items from the beginning of the bytes, as long as they are complete and without a
    /// fault. Returns the bytes that are left, and their state. After an `Err` some items were
    /// taken.
    pub(crate) fn run<'b>(
        &mut self,
        text: Piece<'a, 'b>,
    ) -> Result<(Piece<'a, 'b>, StreamState), NoMemory>
        ensures ok { IfOk result (λ r. Reads self.old (bytes_of text.entry) self.new (bytes_of r.0) r.1) }
        ensures err { OnErr result (HasTaken self.old (bytes_of text.entry) self.new) }
    {
        match self.run_on(text, false)? {
            (rest, Some(found)) => Ok((rest, found)),
            (_, None) => unreachable!(),
        }
    }

    /// Takes items as `run` does. If `pauses` is true, it may pause after any item: then the state
    /// of the remaining bytes is not reported.
    pub(crate) fn run_on<'b>(
        &mut self,
        text: Piece<'a, 'b>,
        pauses: bool,
    ) -> Result<(Piece<'a, 'b>, Option<StreamState>), NoMemory>
        ensures taken { IfOk result (λ r. HasTakenTo self.old (bytes_of text.entry) (bytes_of r.0) self.new) }
        ensures stands { IfOk result (λ r. IfSome r.1 (λ found. Ends self.new (bytes_of r.0) found)) }
        ensures told { pauses ≡ false → IfOk result (λ r. IsSome r.1) }
        ensures moves { IfOk result (λ r. IfNone r.1 (length (bytes_of r.0) < length (bytes_of text.entry))) }
        ensures err { OnErr result (HasTaken self.old (bytes_of text.entry) self.new) }
    {
        let mut rest = text;
        'items: while !self.is_closed() {
            let bytes = rest.bytes();
            let size = self.size(bytes);
            if bytes.len() < size {
                return Ok((rest, Some(StreamState::Reading)));
            }
            let pause = pauses && size > 0 && self.ends_piece();
            let (item, behind) = rest.split_at(size);
            match self.take(item) {
                Ok(()) => {
                    if pause {
                        return Ok((behind, None));
                    }
                    rest = self.pass_zeros(behind)?;
                }
                Err(Stop::Fault(fault)) => return Ok((rest, Some(self.stopped(item, fault)))),
                Err(Stop::Memory) => return Err(NoMemory),
            }
        }
        Ok((rest, Some(StreamState::Closed)))
    }
}

// Returns how many bytes an item that is passed over has, by its first bytes.
fn passed_size(passed: PassedItem, bytes: &[u8]) -> usize
    ensures { result ≡ passed_size passed bytes.now }
{
    let byte = |at: usize| match bytes.get(at) {
        Some(byte) => *byte as usize,
        None => 0,
    };
    match passed {
        PassedItem::Command(_) => 4 + byte(2) * 0x100 + byte(3),
        PassedItem::SubsectionHead => 5 + byte(0),
        PassedItem::SubsectionBody(Subsection::Uuid) => 16,
        PassedItem::SubsectionBody(_) => 4,
        PassedItem::Capability(_) => 1 + byte(0),
        PassedItem::Address(_) => 8,
        PassedItem::Early(_, part) => early_size(part, bytes),
    }
}

// Returns how many bytes a part of virtio-mem's early state has, by its first bytes.
fn early_size(part: EarlyPart, bytes: &[u8]) -> usize
    ensures { result ≡ early_size part bytes.now }
{
    match part {
        EarlyPart::Head => {
            13 + match bytes.get(4) {
                Some(byte) => *byte as usize,
                None => 0,
            }
        }
        EarlyPart::Numbers(_) => 36,
        EarlyPart::Plugged(_, _) => 8,
        EarlyPart::Footer(_) => 5,
    }
}

impl<'a, A: Allocator> Progress<'a, A> {
    /// Returns how many bytes the next item has, by its first bytes.
    pub(crate) fn size(&self, bytes: &[u8]) -> usize
        ensures size { result ≡ size self.now.page_size self.now.due bytes.now }
        ensures page_size { IsPageSize self.now.page_size }
    {
        let page_size = self.entries.page_size() as usize;
        let byte = |at: usize| match bytes.get(at) {
            Some(byte) => *byte as usize,
            None => 0,
        };
        match self.due {
            Due::FileHeader | Due::RecordHead | Due::PageSize(true) => 8,
            Due::TypeByte(_) => 1,
            Due::ConfigLength | Due::SectionHead => 4,
            Due::ConfigName(len) => len as usize,
            Due::StartHead => 13 + byte(4),
            Due::ListEntry => 9 + byte(0),
            Due::PageSize(false) => { if byte(0) == 0 { 8 } else { 9 + byte(0) } }
            Due::BlockName(_, _) => 1 + byte(0),
            Due::Content(Filling::Zero, _) => 1,
            Due::Content(Filling::Normal, _) => page_size,
            Due::Footer => 5,
            Due::Passed(passed) => passed_size(passed, bytes),
            Due::Nothing => 0,
        }
    }

    // Returns whether the records so far are given, after the next item. They are at the end of a
    // section, and if they are many. They also are after a page: its bytes were just read, and are
    // followed by the next head.
    pub(crate) fn ends_piece(&self) -> bool {
        match self.due {
            Due::Content(Filling::Normal, _) | Due::Footer => true,
            _ => self.records.len() >= MANY,
        }
    }

    // Returns whether the stream is closed: no item follows.
    pub(crate) fn is_closed(&self) -> bool
        ensures closed { IsTrue result → self.now.due ≡ due.Nothing }
        ensures open { IsFalse result → self.now.due ≢ due.Nothing }
    {
        match self.due {
            Due::Nothing => true,
            _ => false,
        }
    }

    // Returns whether RAM is over before `item`: it is the type byte of a device's section, after a
    // PART of a background snapshot.
    pub(crate) fn is_over(&self, item: &[u8]) -> bool
        ensures { result ≡ is_over self.now item.now }
    {
        let is_full = match item.first() {
            Some(byte) => *byte == QEMU_VM_SECTION_FULL,
            None => false,
        };
        match (self.due, self.section) {
            (Due::TypeByte(Before::Footer), Section::Part) => {
                is_full && self.frame == Frame::Machine && self.mode == Mode::Single
            }
            _ => false,
        }
    }

    // Returns the state of the stream where the next item has this fault: bad, or closed if RAM is
    // over before that item.
    pub(crate) fn stopped(&self, item: Piece<'a, '_>, fault: StreamFault) -> StreamState
        ensures { result ≡ stopped self.now (bytes_of item.entry) fault }
    {
        if self.is_over(item.bytes()) {
            StreamState::Closed
        } else {
            StreamState::Bad(fault)
        }
    }

    /// Returns the table, once the size list is complete.
    pub(crate) fn table(&self) -> Option<&Table<A>>
        ensures { option_copied result ≡ whole_table self.now }
    {
        self.entries.table()
    }

    /// Takes the first complete round that was not given away.
    pub(crate) fn take_round(&mut self) -> Option<StreamRound<'a, A>>
        ensures none { IfNone result ((self.old.rounds ≡ []) × (self.new ≡ self.old)) }
        ensures some { IfSome result (λ r. self.old ≡ with_taken (r.records ∷ []) self.new) }
        ensures page_size { IfSome result (λ r. r.page_size ≡ self.old.page_size) }
    {
        match self.rounds.pop_front() {
            Some(records) => Some(StreamRound::new(self.entries.page_size(), records)),
            None => None,
        }
    }

    /// Gives the records of the open round, in place of those that `given` had.
    pub(crate) fn give_records(&mut self, given: &mut StreamRound<'a, A>)
        ensures given { given.new ≡ record { page_size = self.old.page_size; records = self.old.records } }
        ensures same { self.new ≡ record self.old { records = [] } }
    {
        given.fill(self.entries.page_size(), &mut self.records);
        self.filling = 0;
    }

    /// Returns a checkpoint of how far the stream was read.
    pub(crate) fn checkpoint(&self) -> Checkpoint
        ensures value { result ≡ checkpoint_of self.now }
        ensures listed { AreListed self.now.page_size self.now.limit self.now.left self.now.blocks }
        ensures short { HasShortPlace self.now.due }
    {
        Checkpoint {
            mode: self.mode,
            due: self.due,
            section: self.section,
            section_id: self.section_id,
            form: self.form,
            left: self.entries.left(),
            blocks: self.entries.len(),
            named: self.named,
            room: self.room,
            records: self.records.len(),
            rounds: self.rounds.len(),
        }
    }

    /// Goes back to a checkpoint.
    pub(crate) fn undo(&mut self, checkpoint: Checkpoint)
        requires { WasSaved checkpoint self.old }
        ensures { (c : StreamProgress) → checkpoint ≡ checkpoint_of c → IsLater c self.old → self.new ≡ c }
    {
        self.mode = checkpoint.mode;
        self.due = checkpoint.due;
        self.section = checkpoint.section;
        self.section_id = checkpoint.section_id;
        self.form = checkpoint.form;
        self.named = checkpoint.named;
        self.room = checkpoint.room;
        self.entries.go_back(checkpoint.left, checkpoint.blocks);
        if let Some(records) = self.rounds.remove(checkpoint.rounds) {
            let _others = mem::replace(&mut self.records, records);
            self.rounds.truncate(checkpoint.rounds);
        }
        self.records.truncate(checkpoint.records);
    }
}
