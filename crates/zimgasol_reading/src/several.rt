//! Reads a main stream and its channels, round by round: each source up to the end of the round.
//! Passes each page on as it is read.
//!
//! No page is kept, only bits for each page, and the number of each packet of the current round.
//! The verdict is that of the library's load (`mig_in_place`), which is fed all bytes but those of
//! devices' packets.

ghost use Rattle.std.specs.Prelude.{◌≡◌, ◌≢◌, ◌↔◌, ◌≤◌, ◌^◌, ⊤, ℕ, List, [], length, map, Option, Some, IsNone, IsSome, IfSome, IfOk, OnOk, IsTrue};
ghost use Rattle.mig_mem.specs.PageSize.{IsPageSize};
ghost use Rattle.mig_load_types.specs.declared.fault.LoadFault.{LoadFault};
ghost use Rattle.mig_answer.specs.declared.verdict.Verdict.TheVariants as verdict;
ghost use Rattle.zimgasol_reading.specs.Answered.{IsAnswered, StaysAsked, BeginsLoad, HasLoadedAll};
ghost use Rattle.zimgasol_reading.specs.Coverage.{IsWhole, HasItsPages, AreComplete};
ghost use Rattle.zimgasol_reading.specs.Consumed.{Bytes};
ghost use Rattle.zimgasol_reading.specs.Inlets.{inlet_left};
ghost use Rattle.zimgasol_reading.specs.Left.{inlets_of, channels_left, sources_left, sources_held, IsOver, IsBegun};
ghost use Rattle.zimgasol_reading.specs.Loaded.{TakesOn, settings_for};
ghost use Rattle.zimgasol_reading.specs.Recorded.{StillHolds};

use crate::blocks::{Blocks, Coverage};
use crate::channel::{Channel, channels_of};
use crate::inlet::{Inlet, hello_uuid, open_inlets};
use crate::load::{Load, Reporting, judge_of};
use crate::main_stream::MainStream;
use crate::passing::Passing;
use crate::sink::{GuestSink, NoSink, PageSink};
use mig_answer::Verdict;
use mig_in_place::InPlaceSession;
use mig_load_types::{Fault, LoadFault, LoadSettings, Origin, RoundEnd};
use mig_mem::Table;
use mig_sources::Source;
use mig_stream::Frame;
use std::alloc::{AllocGlobal, Global};
use std::fs::{File, Files, Metadata, OpenFile};
use std::io::{Read, Write};
use std::rt::Clock;
use uuid::Uuid;
use zimgasol_files::{ChannelWords, PageSize, StreamWords, Trouble, Watch, wanted_uuid};
use zimgasol_page_packets::PassedOver;

/// The survey of a main stream and its channels.
#[derive(Drop)]
pub struct Several<F: Drop> {
    alloc: Global,
    pub frame: Frame,
    pub page_size: u64,
    /// The most bytes of guest memory that the size list may have.
    pub limit: u64,
    /// The UUID that each hello has to have.
    pub uuid: Uuid,
    pub main: MainStream,
    pub channels: Vec<Channel<F>>,
    /// The blocks and their records, once the size list is complete.
    pub blocks: Option<Blocks>,
    /// The complete rounds.
    pub rounds: u64,
    pub verdict: Verdict,
    /// Whether it is applied to existing memory, so that it needn't have a record of each page.
    pub is_laid_over: bool,
    /// Whether pages without a record are meant (`--partial`).
    pub is_partial: bool,
}

impl<F: Read + OpenFile + Drop> Several<F> {
    /// Creates the survey of a main stream, of which no byte was read, and of the channels of
    /// `inlets`. Their hellos have to have the UUID `wanted`, or that of the first hello.
    ///
    /// # Errors
    ///
    /// `Trouble::NoMemory`.
    pub fn new(
        alloc: Global,
        words: &StreamWords<'_>,
        wanted: Option<Uuid>,
        inlets: Vec<Inlet<F>>,
    ) -> Result<Several<F>, Trouble>
        ensures frame { IfOk result (λ s. s.frame ≡ words.now.frame) }
        ensures bounds { IfOk result (λ s. IsPageSize s.page_size × (s.limit ≤ 2 ^ 40)) }
        ensures begun { IfOk result (λ s. (left : Option (List ℕ))
            → IsBegun F.remaining (record { main = left; channels = map (inlet_left F.remaining) inlets.items }) left s) }
    {
        let uuid = match wanted {
            Some(uuid) => uuid,
            None => hello_uuid(&inlets),
        };
        Ok(Several {
            alloc,
            frame: words.frame,
            page_size: words.page_size.bytes(),
            limit: words.limit(),
            uuid,
            main: MainStream::new(alloc, words)?,
            channels: channels_of(alloc, inlets, words.page_size, uuid)?,
            blocks: None,
            rounds: 0,
            verdict: Verdict::Running,
            is_laid_over: false,
            is_partial: words.partial,
        })
    }

    /// Returns the fault; None if all sources are complete.
    pub fn fault(&self) -> Option<LoadFault>
        ensures whole { IsNone result ↔ (self.now.verdict ≡ verdict.Done) }
        ensures fault { (fault : LoadFault) → self.now.verdict ≡ verdict.Failed fault → result ≡ Some fault }
    {
        match self.verdict {
            Verdict::Done => None,
            Verdict::Failed(fault) => Some(fault),
            Verdict::Running => Some(LoadFault {
                round: self.rounds,
                source: Origin::Round,
                fault: Fault::NoMemory,
            }),
        }
    }

    /// Returns whether each page has a record or needn't have one, after the sources were read.
    pub fn has_its_pages(&self) -> bool
        ensures { IsTrue result ↔ HasItsPages self.now.is_laid_over self.now.is_partial (IfSome self.now.blocks IsWhole) }
    {
        if self.is_laid_over || self.is_partial {
            return true;
        }
        match &self.blocks {
            Some(blocks) => blocks.is_whole(),
            None => true,
        }
    }

    /// Returns how much of the memory the sources have, after they were read.
    pub fn coverage(&self) -> Coverage {
        match &self.blocks {
            Some(blocks) if !self.is_laid_over => blocks.coverage(self.is_partial),
            _ => Coverage::Whole,
        }
    }

    /// Returns whether all sources are complete, and each page has a record or needn't have one.
    pub fn is_complete(&self) -> bool
        ensures { IsTrue result ↔ AreComplete self.now }
    {
        match self.fault() {
            Some(_) => false,
            None => self.has_its_pages(),
        }
    }

    /// Returns how many complete packets all channels have.
    pub fn packets(&self) -> u64 {
        let mut packets = 0u64;
        for channel in &self.channels {
            packets = packets.saturating_add(channel.lane.counts.packets);
        }
        packets
    }

    /// Returns the packets of devices that were passed over, of all channels.
    pub fn passed_over(&self) -> PassedOver {
        let mut all = PassedOver {
            packets: 0,
            bytes: 0,
        };
        for channel in &self.channels {
            let passed_over = channel.inlet.passed_over();
            all.packets = all.packets.saturating_add(passed_over.packets);
            all.bytes = all.bytes.saturating_add(passed_over.bytes);
        }
        all
    }

    // Returns how many bytes were read.
    fn read_len(&self) -> u64 {
        let mut len = self.main.len();
        for channel in &self.channels {
            len = len.saturating_add(channel.inlet.read());
        }
        len
    }

    // Takes the lengths of the files for the progress, if the main stream is a file.
    fn expect(&self, main: &Metadata, watch: &mut Watch) {
        if !main.is_file() {
            return;
        }
        let mut total = main.len();
        for channel in &self.channels {
            total = total.saturating_add(channel.inlet.len());
        }
        watch.expect_total(total);
    }

    // Takes the lengths of the files; `metadata` is that of the main stream's, if it is a file.
    fn expect_file(&mut self, metadata: Option<&Metadata>, watch: &mut Watch)
        ensures asked { StaysAsked self.old self.new }
        ensures begun { (all : Bytes) (left : Option (List ℕ)) → IsBegun F.remaining all left self.old → IsBegun F.remaining all left self.new }
    {
        let Some(metadata) = metadata else {
            return;
        };
        self.main.expect_file(metadata);
        self.expect(metadata, watch);
    }

    // Reads all sources, round by round, up to the verdict. Reads the rest of the main stream,
    // unless there is a fault. Returns the sink, too. The streams of the answer are what was
    // consumed of the sources.
    fn read<H: AllocGlobal + Files + Clock, R: Read, S: GuestSink<H> + Drop, E: Write>(
        &mut self,
        rt: &H,
        input: &mut R,
        sink: S,
        watch: &mut Watch,
        errors: &mut E,
    ) -> (Result<(), Trouble>, S)
        requires page_size { IsPageSize self.old.page_size }
        requires limit { self.old.limit ≤ 2 ^ 40 }
        ensures asked { OnOk result.0 (StaysAsked self.old self.new) }
        ensures answered { OnOk result.0 ((all : Bytes) → IsBegun F.remaining all (R.remaining input.old) self.old → IsAnswered all (S.holds result.1) self.new) }
    {
        let (read, mut sink) = self.load_all(rt, input, sink, watch, errors);
        match read {
            Ok(()) => (self.pass_state(rt, input, &mut sink), sink),
            Err(trouble) => (Err(trouble), sink),
        }
    }

    // Passes the bytes before and after RAM to `sink`, unless there is a fault.
    fn pass_state<H: Files, R: Read, S: GuestSink<H>>(
        &mut self,
        rt: &H,
        input: &mut R,
        sink: &mut S,
    ) -> Result<(), Trouble>
        ensures others { self.new ≡ record self.old { main = self.new.main } }
        ensures kept { OnOk result (StillHolds (S.holds sink.old) (S.holds sink.new)) }
    {
        if self.fault().is_some() {
            return Ok(());
        }
        self.main.pass_front(rt, sink)?;
        self.main.read_rest::<H, R, S>(input, sink)?;
        Ok(())
    }

    // Loads all sources, round by round, up to the verdict, and passes the pages to `sink`. Returns
    // the sink, too.
    fn load_all<H: AllocGlobal + Files + Clock, R: Read, S: GuestSink<H> + Drop, E: Write>(
        &mut self,
        rt: &H,
        input: &mut R,
        sink: S,
        watch: &mut Watch,
        errors: &mut E,
    ) -> (Result<(), Trouble>, S)
        requires page_size { IsPageSize self.old.page_size }
        requires limit { self.old.limit ≤ 2 ^ 40 }
        ensures asked { OnOk result.0 (StaysAsked self.old self.new) }
        ensures answered { OnOk result.0 ((all : Bytes) → IsBegun F.remaining all (R.remaining input.old) self.old → IsAnswered all (S.holds result.1) self.new) }
    {
        let mut sink = sink;
        let (judge, table) = match self.begin(rt, input, &mut sink) {
            Ok(begun) => begun,
            Err(trouble) => return (Err(trouble), sink),
        };
        if self.blocks.is_some() {
            return self.load_to(rt, input, judge, table, sink, watch, errors);
        }
        (self.load_none(rt, input, judge, table, watch, errors), sink)
    }

    // Loads all sources by `judge`, if the main stream has no table. No page is passed, and no such
    // load is done.
    fn load_none<H: AllocGlobal + Files + Clock, R: Read, E: Write>(
        &mut self,
        rt: &H,
        input: &mut R,
        judge: InPlaceSession,
        table: Table,
        watch: &mut Watch,
        errors: &mut E,
    ) -> Result<(), Trouble>
        requires { judge.table ≡ table }
        ensures asked { OnOk result (StaysAsked self.old self.new) }
        ensures loaded { OnOk result ((all : Bytes) → IsBegun F.remaining all (R.remaining input.old) self.old → BeginsLoad self.old table judge
            → HasLoadedAll all (λ _ _. ⊤) table self.new) }
        ensures open { OnOk result (self.new.verdict ≢ verdict.Done) }
    {
        let (read, _) = self.load_to(rt, input, judge, table, NoSink, watch, errors);
        read?;
        match self.verdict {
            Verdict::Done => Err(Trouble::NoMemory),
            _ => Ok(()),
        }
    }

    // Returns the settings of the load.
    fn settings(&self) -> LoadSettings
        ensures { result ≡ settings_for self.now.frame self.now.page_size self.now.limit }
    {
        LoadSettings::new(self.page_size, self.limit)
            .with_frame(self.frame)
            .with_round_end(RoundEnd::AsShown)
    }

    // Reads the main stream up to its table. Begins the guest, if the table is known. Returns the
    // judge of the load, and its table: that one, or one that nothing is written by.
    fn begin<H: AllocGlobal + Files, R: Read, S: GuestSink<H>>(
        &mut self,
        rt: &H,
        input: &mut R,
        sink: &mut S,
    ) -> Result<(InPlaceSession, Table), Trouble>
        requires page_size { IsPageSize self.old.page_size }
        requires limit { self.old.limit ≤ 2 ^ 40 }
        ensures table { IfOk result (λ begun. begun.0.table ≡ begun.1) }
        ensures begun { IfOk result (λ begun. IsSome self.new.blocks → S.holds sink.new begun.1 []) }
        ensures stands { IfOk result (λ begun. BeginsLoad self.new begun.1 begun.0) }
        ensures asked { OnOk result (StaysAsked self.old self.new) }
        ensures still { OnOk result ((all : Bytes) → IsBegun F.remaining all (R.remaining input.old) self.old
            → IsBegun F.remaining all (R.remaining input.new) self.new) }
    {
        self.main.keep_front(sink.keeps_state());
        self.main.read_head(input)?;
        let table = self.begin_guest(rt, sink)?;
        let settings = self.settings();
        let judge = judge_of(self.alloc, settings, &table, self.uuid, self.channels.len())?;
        Ok((judge, table))
    }

    // Begins the guest, if the table is known. Returns that table, or one that nothing is written
    // by.
    fn begin_guest<H: AllocGlobal + Files, S: GuestSink<H>>(
        &mut self,
        rt: &H,
        sink: &mut S,
    ) -> Result<Table, Trouble>
        requires page_size { IsPageSize self.old.page_size }
        ensures begun { IfOk result (λ table. IsSome self.new.blocks → S.holds sink.new table []) }
        ensures others { self.new ≡ record self.old { blocks = self.new.blocks } }
    {
        let Some(table) = self.main.table() else {
            self.blocks = None;
            return one_page(self.alloc, self.page_size);
        };
        sink.begin(rt, table)?;
        let copied = table.try_copy()?;
        self.blocks = Some(Blocks::new(self.alloc, table.try_copy()?)?);
        Ok(copied)
    }

    // Loads all sources by `judge` into memory of `table`, and passes the pages to `sink`, which
    // has the table. Returns the sink, too.
    fn load_to<H: AllocGlobal + Files + Clock, R: Read, S: PageSink + Drop, E: Write>(
        &mut self,
        rt: &H,
        input: &mut R,
        judge: InPlaceSession,
        table: Table,
        sink: S,
        watch: &mut Watch,
        errors: &mut E,
    ) -> (Result<(), Trouble>, S)
        requires table { judge.table ≡ table }
        requires begun { S.holds sink table [] }
        ensures asked { OnOk result.0 (StaysAsked self.old self.new) }
        ensures loaded { OnOk result.0 ((all : Bytes) → IsBegun F.remaining all (R.remaining input.old) self.old → BeginsLoad self.old table judge
            → HasLoadedAll all (S.holds result.1) table self.new) }
    {
        let mut load = Load::new(judge, Passing::new(table, sink));
        let read = self.load(rt, input, &mut load, watch, errors);
        let (trouble, sink) = load.into_memory().into_sink();
        match (read, trouble) {
            (Ok(()), None) => (Ok(()), sink),
            (Ok(()), Some(trouble)) => (Err(trouble.into()), sink),
            (Err(trouble), _) => (Err(trouble), sink),
        }
    }

    // Loads all sources by `load`.
    fn load<H: AllocGlobal + Files + Clock, R: Read, M: Reporting, E: Write>(
        &mut self,
        rt: &H,
        input: &mut R,
        load: &mut Load<M>,
        watch: &mut Watch,
        errors: &mut E,
    ) -> Result<(), Trouble>
        ensures takes { OnOk result (IsOver (R.remaining input.old) self.old.main
            → TakesOn (sources_held F.remaining (R.remaining input.old) self.old) (sources_left F.remaining (R.remaining input.new) self.new) load.old load.new) }
        ensures told { OnOk result ((self.new.rounds ≡ load.new.load.rounds) × (self.new.verdict ≡ load.new.load.verdict)) }
        ensures asked { OnOk result (StaysAsked self.old self.new) }
    {
        self.main.begin(load)?;
        self.read_rounds(rt, input, load, watch, errors)?;
        self.rounds = load.rounds();
        self.verdict = load.verdict();
        Ok(())
    }

    // Reads all sources, round by round, up to the verdict of `load`.
    fn read_rounds<H: AllocGlobal + Files + Clock, R: Read, M: Reporting, E: Write>(
        &mut self,
        rt: &H,
        input: &mut R,
        load: &mut Load<M>,
        watch: &mut Watch,
        errors: &mut E,
    ) -> Result<(), Trouble>
        ensures takes { OnOk result (TakesOn (sources_left F.remaining (R.remaining input.old) self.old)
            (sources_left F.remaining (R.remaining input.new) self.new) load.old load.new) }
        ensures asked { OnOk result (StaysAsked self.old self.new) }
    {
        'rounds: for _ in 0..u64::MAX {
            self.read_round(input, load)?;
            watch.show(rt, errors, self.read_len());
            if load.verdict() != Verdict::Running {
                return Ok(());
            }
            self.advance(load);
        }
        Ok(())
    }

    // Begins the next round.
    fn advance<M: Reporting>(&mut self, load: &mut Load<M>)
        ensures load { load.new ≡ load.old }
        ensures asked { StaysAsked self.old self.new }
        ensures left { (left : Option (List ℕ)) → sources_left F.remaining left self.new ≡ sources_left F.remaining left self.old }
    {
        load.advance();
        advance_lanes(&mut self.channels);
    }

    // Reads each source up to the end of the current round.
    fn read_round<R: Read, M: Reporting>(
        &mut self,
        input: &mut R,
        load: &mut Load<M>,
    ) -> Result<(), Trouble>
        ensures takes { OnOk result (TakesOn (sources_left F.remaining (R.remaining input.old) self.old)
            (sources_left F.remaining (R.remaining input.new) self.new) load.old load.new) }
        ensures asked { OnOk result (StaysAsked self.old self.new) }
    {
        self.main.read_round(input, &mut self.blocks, load)?;
        read_channels(&mut self.channels, &mut self.blocks, load)?;
        Ok(())
    }
}

// Reads each channel up to the end of the current round.
fn read_channels<F: Read + OpenFile + Drop, M: Reporting>(
    channels: &mut [Channel<F>],
    blocks: &mut Option<Blocks>,
    load: &mut Load<M>,
) -> Result<(), Trouble>
    ensures takes { OnOk result ((main : Option (List ℕ)) → TakesOn (record { main = main; channels = channels_left F.remaining channels.old })
        (record { main = main; channels = channels_left F.remaining channels.new }) load.old load.new) }
    ensures count { length channels.new ≡ length channels.old }
{
    for i in 0..channels.len() {
        channels[i].read_round(Source::Channel(i), blocks, load)?;
    }
    Ok(())
}

// Begins the next round of each channel.
fn advance_lanes<F: Drop>(channels: &mut [Channel<F>])
    ensures count { length channels.new ≡ length channels.old }
    ensures inlets { inlets_of channels.new ≡ inlets_of channels.old }
{
    for i in 0..channels.len() {
        channels[i].lane.advance();
    }
}

// Returns a table of one page, for the load of a stream that names none.
fn one_page(alloc: Global, page_size: u64) -> Result<Table, Trouble>
    requires { IsPageSize page_size }
{
    let mut list = Vec::new(alloc);
    list.push((b"none".to_vec(alloc)?, 1))?;
    match Table::new(alloc, page_size, list) {
        Ok(table) => Ok(table),
        Err(_) => Err(Trouble::NoMemory),
    }
}

// Opens the channels, and reads the first piece of each. Their pages have `page_size`. Returns the
// UUID that their hellos have to have, too, if it is known.
fn opened<H: AllocGlobal + Files>(
    rt: &H,
    channels: &ChannelWords<'_>,
    page_size: PageSize,
) -> Result<(Option<Uuid>, Vec<Inlet<H::File>>), Trouble> {
    let wanted = wanted_uuid(rt.alloc(), channels)?;
    let inlets = open_inlets(rt, &channels.files, page_size)?;
    Ok((wanted, inlets))
}

/// Reads the main stream in `input` and the channels of `inlets`. Passes the pages to `sink`, and
/// returns it. The hellos have to have the UUID `wanted`, or that of the first hello. `metadata` is
/// that of the file that `input` is, if it is one. A fault isn't an error: the survey that it
/// returns has it.
///
/// The rounds and the verdict are those of the answer of a load on several channels, on streams
/// that are what was consumed of `input` and of each channel: a front of its bytes, in their order,
/// and all of them where the stream has ended. A channel's bytes are those of its file without the
/// packets of devices, or all of them if it has no such packet (`Inlet::new`). If the load is done,
/// the sink has taken records that make the answer's memory.
///
/// # Errors
///
/// `Trouble::Unread` and `Trouble::OfFile` if a read fails, `Trouble::NoMemory`, and those of
/// `sink`.
pub fn read_inputs<
    H: AllocGlobal + Files + Clock,
    F: Read + OpenFile + Drop,
    R: Read,
    S: GuestSink<H> + Drop,
    E: Write,
>(
    rt: &H,
    words: &StreamWords<'_>,
    wanted: Option<Uuid>,
    inlets: Vec<Inlet<F>>,
    metadata: Option<&Metadata>,
    input: &mut R,
    sink: S,
    errors: &mut E,
) -> (Result<Several<F>, Trouble>, S)
    ensures frame { IfOk result.0 (λ s. s.frame ≡ words.now.frame) }
    ensures answered { IfOk result.0 (λ s. IsAnswered (record { main = R.remaining input.old; channels = map (inlet_left F.remaining) inlets.items })
        (S.holds result.1) s) }
{
    let mut several = match Several::new(rt.alloc(), words, wanted, inlets) {
        Ok(several) => several,
        Err(trouble) => return (Err(trouble), sink),
    };
    let mut watch = match Watch::new(rt, rt.alloc(), words.talk, words.file) {
        Ok(watch) => watch,
        Err(error) => return (Err(error.into()), sink),
    };
    several.expect_file(metadata, &mut watch);
    let (read, sink) = several.read(rt, input, sink, &mut watch, errors);
    watch.end(errors);
    match read {
        Ok(()) => (Ok(several), sink),
        Err(trouble) => (Err(trouble), sink),
    }
}

// Reads the main stream from its file, and the channels of `inlets`. Returns the sink, too.
fn read_named<H: AllocGlobal + Files + Clock, S: GuestSink<H> + Drop, E: Write>(
    rt: &H,
    words: &StreamWords<'_>,
    wanted: Option<Uuid>,
    inlets: Vec<Inlet<H::File>>,
    sink: S,
    errors: &mut E,
) -> (Result<Several<H::File>, Trouble>, S)
    ensures frame { IfOk result.0 (λ s. s.frame ≡ words.now.frame) }
    ensures answered { IfOk result.0 (λ s. (all : Bytes) × IsAnswered all (S.holds result.1) s) }
{
    let mut file = match File::open(rt, words.file) {
        Ok(file) => file,
        Err(error) => return (Err(Trouble::Unread(error)), sink),
    };
    match file.metadata() {
        Ok(metadata) => {
            let known = Some(&metadata);
            read_inputs(rt, words, wanted, inlets, known, &mut file, sink, errors)
        }
        Err(_) => read_inputs(rt, words, wanted, inlets, None, &mut file, sink, errors),
    }
}

/// Reads a main stream, from its file or from `input`, and its channels from their files. Passes
/// the pages to `sink`, and returns it. A fault isn't an error: the survey that it returns has it.
///
/// The survey is that of `read_inputs`. Of the bytes of the system's files nothing is known here.
///
/// # Errors
///
/// `Trouble::Words` for wrong arguments, `Trouble::Unread` and `Trouble::OfFile` if a file can't be
/// opened or read, `Trouble::NoMemory`, and those of `sink`.
pub fn read_several<H: AllocGlobal + Files + Clock, R: Read, S: GuestSink<H> + Drop, E: Write>(
    rt: &H,
    words: &StreamWords<'_>,
    channels: &ChannelWords<'_>,
    input: &mut R,
    sink: S,
    errors: &mut E,
) -> (Result<Several<H::File>, Trouble>, S)
    ensures frame { IfOk result.0 (λ s. s.frame ≡ words.now.frame) }
    ensures answered { IfOk result.0 (λ s. (all : Bytes) × IsAnswered all (S.holds result.1) s) }
{
    let (wanted, inlets) = match opened(rt, channels, words.page_size) {
        Ok(opened) => opened,
        Err(trouble) => return (Err(trouble), sink),
    };
    if words.file == "-" {
        return read_inputs(rt, words, wanted, inlets, None, input, sink, errors);
    }
    read_named(rt, words, wanted, inlets, sink, errors)
}
