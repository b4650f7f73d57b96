//! A load into blocks of C, of each kind: of one stream with each page as it comes or by whole
//! sections, or of several channels with each page as it comes or by whole rounds.

ghost use Rattle.std.specs.Prelude.{◌≡◌, ◌≢◌, ◌↔◌, None, Some, IfOk, IfErr};
ghost use Rattle.mig_mem.specs.Lent.{mut_lent_bytes, lent_bytes};
ghost use Rattle.mig_c_calls.specs.Status.{done};
ghost use Rattle.mig_c_loads.specs.Frames.{waiting_of as most_waiting, are_zeros};
ghost use Rattle.mig_c_loads.specs.InPlace as stream;
ghost use Rattle.mig_c_loads.specs.Apart.{OpensApart};
ghost use Rattle.mig_c_loads.specs.ByRounds.{OpensRounds};
ghost use Rattle.mig_c_loads.specs.BySections.{OpensSections};
ghost use Rattle.mig_c_loads.specs.ZeroBlocks.{AreZerosBut, filled_at_first};
ghost use Rattle.mig_c_loads.specs.Standing.{TellsStanding, TellsSource};
ghost use Rattle.mig_c_loads.specs.Loads.{filled_of, OpensLoad, Feeds, Ends, ReadsPage, Claims, Takes, TellsTakesOf, TellsWanted, TellsClaimed, TellsVerdict, TellsFaultOf, TellsAllIn, TellsRounds, TellsMissingOf, TellsFed, TellsClosed, TellsValid};

use crate::claimed_pages::ClaimedPages;
use crate::fault::FoundFault;
use crate::frame::frame_of;
use crate::held_apart::HeldApart;
use crate::held_load::HeldLoad;
use crate::held_rounds::HeldRounds;
use crate::held_sections::HeldSections;
use crate::next_bytes::NextBytes;
use crate::round_end::round_end_of;
use crate::settings::{AskedSettings, waiting_of};
use crate::standing::{Fed, SourceBytes, Standing, flag};
use mig_c_calls::status::{
    BAD_CHANNELS, BAD_FRAME, BAD_LENGTH, BAD_ROUND_END, BAD_SOURCE, DONE, NO_MEMORY, OUT_OF_TURN,
};
use mig_mem::{NoMemory, Table};
use mig_sources::Source;
use std::alloc::Global;
use uuid::Uuid;

/// A load into blocks of C.
#[derive(Drop)]
pub enum Load {
    /// Of one stream, with each page as it comes.
    One(HeldLoad),
    /// Of one stream, by whole sections.
    Sections(HeldSections),
    /// Of several channels, with each page as it comes.
    Several(HeldApart),
    /// Of several channels, by whole rounds.
    Rounds(HeldRounds),
}

// Makes a load of one stream into blocks of a table, or returns why there is none.
fn open_one(alloc: Global, table: &Table<Global>, settings: &AskedSettings) -> Result<HeldLoad, u32>
    ensures ok { IfOk result (λ s. stream.OpensInPlace (Some table.now) settings.now.frame (most_waiting settings.now.waiting) done (Some s.load)) }
    ensures filled { IfOk result (λ s. s.filled ≡ filled_at_first (are_zeros settings.now.zero_blocks) table.now) }
    ensures err { IfErr result (λ status. stream.OpensInPlace (Some table.now) settings.now.frame (most_waiting settings.now.waiting) status None) }
    ensures refused { IfErr result (λ status. status ≢ done) }
{
    let Some(frame) = frame_of(settings.frame) else {
        return Err(BAD_FRAME);
    };
    let waiting = waiting_of(settings.waiting);
    match HeldLoad::new(alloc, table, frame, waiting, settings.zero_blocks != 0) {
        Ok(load) => Ok(load),
        Err(NoMemory) => Err(NO_MEMORY),
    }
}

// Makes a load of one stream into blocks of a table by whole sections, or returns why there is
// none.
fn open_sections(
    alloc: Global,
    table: &Table<Global>,
    settings: &AskedSettings,
) -> Result<HeldSections, u32>
    ensures ok { IfOk result (λ s. OpensSections table.now settings.now.frame (most_waiting settings.now.waiting) done (Some s.load)) }
    ensures filled { IfOk result (λ s. s.filled ≡ filled_at_first (are_zeros settings.now.zero_blocks) table.now) }
    ensures err { IfErr result (λ status. OpensSections table.now settings.now.frame (most_waiting settings.now.waiting) status None) }
    ensures refused { IfErr result (λ status. status ≢ done) }
{
    let Some(frame) = frame_of(settings.frame) else {
        return Err(BAD_FRAME);
    };
    let waiting = waiting_of(settings.waiting);
    match HeldSections::new(alloc, table, frame, waiting, settings.zero_blocks != 0) {
        Ok(load) => Ok(load),
        Err(NoMemory) => Err(NO_MEMORY),
    }
}

// Makes a load of one stream, by the kind that the settings ask for.
fn open_stream(
    alloc: Global,
    table: &Table<Global>,
    uuid: &[u8],
    settings: &AskedSettings,
) -> Result<Load, u32>
    ensures ok { IfOk result (λ l. OpensLoad table.now uuid.now 0 settings.now done (Some l)) }
    ensures err { IfErr result (λ status. OpensLoad table.now uuid.now 0 settings.now status None) }
    ensures refused { IfErr result (λ status. status ≢ done) }
{
    if settings.whole_rounds != 0 {
        return match open_sections(alloc, table, settings) {
            Ok(load) => Ok(Load::Sections(load)),
            Err(status) => Err(status),
        };
    }
    match open_one(alloc, table, settings) {
        Ok(load) => Ok(Load::One(load)),
        Err(status) => Err(status),
    }
}

// Makes a load of several channels into blocks of a table, with each page as it comes, or returns
// why there is none.
fn open_several(
    alloc: Global,
    table: &Table<Global>,
    uuid: &[u8],
    channels: usize,
    settings: &AskedSettings,
) -> Result<HeldApart, u32>
    ensures ok { IfOk result (λ s. OpensApart (Some table.now) uuid.now channels settings.now.frame (most_waiting settings.now.waiting) settings.now.round_end done (Some s.load)) }
    ensures filled { IfOk result (λ s. s.filled ≡ filled_at_first (are_zeros settings.now.zero_blocks) table.now) }
    ensures err { IfErr result (λ status. OpensApart (Some table.now) uuid.now channels settings.now.frame (most_waiting settings.now.waiting) settings.now.round_end status None) }
    ensures refused { IfErr result (λ status. status ≢ done) }
{
    if channels == 0 || channels > 255 {
        return Err(BAD_CHANNELS);
    }
    let Ok(uuid) = Uuid::from_slice(uuid) else {
        return Err(BAD_LENGTH);
    };
    let Some(frame) = frame_of(settings.frame) else {
        return Err(BAD_FRAME);
    };
    let Some(round_end) = round_end_of(settings.round_end) else {
        return Err(BAD_ROUND_END);
    };
    let waiting = waiting_of(settings.waiting);
    let zeros = settings.zero_blocks != 0;
    match HeldApart::new(
        alloc, table, &uuid, channels, frame, waiting, round_end, zeros,
    ) {
        Ok(load) => Ok(load),
        Err(NoMemory) => Err(NO_MEMORY),
    }
}

// Makes a load of several channels into blocks of a table, by whole rounds, or returns why there is
// none.
fn open_rounds(
    alloc: Global,
    table: &Table<Global>,
    uuid: &[u8],
    channels: usize,
    settings: &AskedSettings,
) -> Result<HeldRounds, u32>
    ensures ok { IfOk result (λ s. OpensRounds (Some table.now) uuid.now channels settings.now.frame (most_waiting settings.now.waiting) settings.now.round_end done (Some s.load)) }
    ensures filled { IfOk result (λ s. s.filled ≡ filled_at_first (are_zeros settings.now.zero_blocks) table.now) }
    ensures err { IfErr result (λ status. OpensRounds (Some table.now) uuid.now channels settings.now.frame (most_waiting settings.now.waiting) settings.now.round_end status None) }
    ensures refused { IfErr result (λ status. status ≢ done) }
{
    if channels == 0 || channels > 255 {
        return Err(BAD_CHANNELS);
    }
    let Ok(uuid) = Uuid::from_slice(uuid) else {
        return Err(BAD_LENGTH);
    };
    let Some(frame) = frame_of(settings.frame) else {
        return Err(BAD_FRAME);
    };
    let Some(round_end) = round_end_of(settings.round_end) else {
        return Err(BAD_ROUND_END);
    };
    let waiting = waiting_of(settings.waiting);
    let zeros = settings.zero_blocks != 0;
    match HeldRounds::new(
        alloc, table, &uuid, channels, frame, waiting, round_end, zeros,
    ) {
        Ok(load) => Ok(load),
        Err(NoMemory) => Err(NO_MEMORY),
    }
}

// Makes a load of several channels, by the kind that the settings ask for.
fn open_channels(
    alloc: Global,
    table: &Table<Global>,
    uuid: &[u8],
    channels: usize,
    settings: &AskedSettings,
) -> Result<Load, u32>
    requires { channels ≢ 0 }
    ensures ok { IfOk result (λ l. OpensLoad table.now uuid.now channels settings.now done (Some l)) }
    ensures err { IfErr result (λ status. OpensLoad table.now uuid.now channels settings.now status None) }
    ensures refused { IfErr result (λ status. status ≢ done) }
{
    if settings.whole_rounds != 0 {
        return match open_rounds(alloc, table, uuid, channels, settings) {
            Ok(load) => Ok(Load::Rounds(load)),
            Err(status) => Err(status),
        };
    }
    match open_several(alloc, table, uuid, channels, settings) {
        Ok(load) => Ok(Load::Several(load)),
        Err(status) => Err(status),
    }
}

impl Load {
    /// Makes a load that took nothing, into blocks of a table, of which it keeps copies, with these
    /// settings: of one stream if there are no channels, or of so many channels under a UUID of 16
    /// bytes. Returns the status where there is none.
    pub fn new(
        alloc: Global,
        table: &Table<Global>,
        uuid: &[u8],
        channels: usize,
        settings: &AskedSettings,
    ) -> Result<Load, u32>
        ensures ok { IfOk result (λ l. OpensLoad table.now uuid.now channels settings.now done (Some l)) }
        ensures err { IfErr result (λ status. OpensLoad table.now uuid.now channels settings.now status None) }
        ensures refused { IfErr result (λ status. status ≢ done) }
    {
        if channels == 0 {
            return open_stream(alloc, table, uuid, settings);
        }
        open_channels(alloc, table, uuid, channels, settings)
    }

    // Takes the first bytes of a piece of a source, and writes pages into C's blocks, while nothing
    // is claimed.
    fn take_piece(
        &mut self,
        alloc: Global,
        blocks: &mut [&mut [u8]],
        source: Source,
        piece: &[u8],
        taken: &mut usize,
    ) -> u32
        requires zeros { AreZerosBut (filled_of self.old) (mut_lent_bytes blocks.old) }
        ensures feeds { Feeds source piece.now (mut_lent_bytes blocks.old) (mut_lent_bytes blocks.new) taken.new result self.old self.new }
        ensures zeros { AreZerosBut (filled_of self.new) (mut_lent_bytes blocks.new) }
    {
        match self {
            Load::One(load) => load.feed_source(alloc, blocks, source, piece, taken),
            Load::Sections(load) => load.feed(alloc, blocks, source, piece, taken),
            Load::Several(load) => load.feed(alloc, blocks, source, piece, taken),
            Load::Rounds(load) => load.feed(alloc, blocks, source, piece, taken),
        }
    }

    /// Takes the first bytes of a piece of a source, and writes pages into C's blocks, while
    /// nothing is claimed. Reports how many bytes it took, and how many rounds are counted then.
    pub fn feed(
        &mut self,
        alloc: Global,
        blocks: &mut [&mut [u8]],
        source: Source,
        piece: &[u8],
        fed: &mut Fed,
    ) -> u32
        requires zeros { AreZerosBut (filled_of self.old) (mut_lent_bytes blocks.old) }
        ensures feeds { Feeds source piece.now (mut_lent_bytes blocks.old) (mut_lent_bytes blocks.new) fed.new.taken result self.old self.new }
        ensures rounds { TellsRounds fed.new.rounds self.new }
        ensures zeros { AreZerosBut (filled_of self.new) (mut_lent_bytes blocks.new) }
    {
        let mut taken = 0;
        let status = self.take_piece(alloc, blocks, source, piece, &mut taken);
        *fed = Fed {
            taken,
            rounds: self.rounds(),
        };
        status
    }

    /// Returns whether bytes of a source are taken now.
    pub fn takes(&self, source: Source) -> bool
        ensures { TellsTakesOf source result self.now }
    {
        match self {
            Load::One(load) => load.takes(source),
            Load::Sections(load) => load.takes(source),
            Load::Several(load) => load.takes(source),
            Load::Rounds(load) => load.takes(source),
        }
    }

    /// Ends a source.
    pub fn end(&mut self, source: Source) -> u32
        ensures { Ends source result self.old self.new }
    {
        match self {
            Load::One(load) => load.end_source(source),
            Load::Sections(load) => load.end(source),
            Load::Several(load) => load.end(source),
            Load::Rounds(load) => load.end(source),
        }
    }

    /// Reports what the next bytes of one stream are. Returns false if no more of it is read, by
    /// whole sections, and of several channels.
    pub fn wanted(&self, next: &mut NextBytes) -> bool
        ensures { TellsWanted result next.old next.new self.now }
    {
        match self {
            Load::One(load) => load.wanted(next),
            Load::Sections(_) | Load::Several(_) | Load::Rounds(_) => false,
        }
    }

    /// Takes the page that comes next in one stream, which was read into its block.
    pub fn page_read(&mut self, blocks: &[&mut [u8]]) -> u32
        ensures { ReadsPage (mut_lent_bytes blocks.now) result self.old self.new }
    {
        match self {
            Load::One(load) => load.page_read(blocks),
            Load::Sections(_) | Load::Several(_) | Load::Rounds(_) => OUT_OF_TURN,
        }
    }

    /// Claims the places of the next packet of a channel, by its head, and reports its pages.
    pub fn claim(&mut self, channel: usize, head: &[u8], pages: &mut ClaimedPages) -> u32
        ensures { Claims channel head.now result pages.old pages.new self.old self.new }
    {
        match self {
            Load::One(_) | Load::Sections(_) => BAD_SOURCE,
            Load::Several(load) => load.claim(channel, head, pages),
            Load::Rounds(load) => load.claim(channel),
        }
    }

    /// Takes the packet of a channel whose places were claimed, once its pages are there.
    pub fn take(&mut self, channel: usize, head: &[u8], contents: &[&[u8]]) -> u32
        ensures { Takes channel head.now (lent_bytes contents.now) result self.old self.new }
    {
        match self {
            Load::One(_) | Load::Sections(_) => BAD_SOURCE,
            Load::Several(load) => load.take(channel, head, contents),
            Load::Rounds(load) => load.take(channel),
        }
    }

    // Returns how many pages are claimed.
    fn claimed(&self) -> u64
        ensures { TellsClaimed result self.now }
    {
        match self {
            Load::One(_) | Load::Sections(_) | Load::Rounds(_) => 0,
            Load::Several(load) => load.claimed(),
        }
    }

    /// Returns the verdict on the bytes taken, as C sees it.
    pub fn verdict(&self) -> FoundFault
        ensures { TellsVerdict result self.now }
    {
        match self {
            Load::One(load) => load.fault(),
            Load::Sections(load) => load.verdict(),
            Load::Several(load) => load.verdict(),
            Load::Rounds(load) => load.verdict(),
        }
    }

    /// Reports the fault of a source's own bytes, or that they have none.
    pub fn fault_of(&self, source: Source, found: &mut FoundFault) -> u32
        ensures { TellsFaultOf source result found.old found.new self.now }
    {
        match self {
            Load::One(load) => load.fault_of(source, found),
            Load::Sections(load) => load.fault_of(source, found),
            Load::Several(load) => load.fault_of(source, found),
            Load::Rounds(load) => load.fault_of(source, found),
        }
    }

    // Returns whether all rounds are in.
    fn has_all_rounds(&self) -> bool
        ensures { TellsAllIn result self.now }
    {
        match self {
            Load::One(load) => load.has_all_rounds(),
            Load::Sections(load) => load.has_all_rounds(),
            Load::Several(load) => load.has_all_rounds(),
            Load::Rounds(load) => load.has_all_rounds(),
        }
    }

    // Returns how many rounds of several channels were found lawful, or how many sections of one
    // stream are complete.
    fn rounds(&self) -> u64
        ensures { TellsRounds result self.now }
    {
        match self {
            Load::One(load) => load.rounds(),
            Load::Sections(load) => load.rounds(),
            Load::Several(load) => load.rounds(),
            Load::Rounds(load) => load.rounds(),
        }
    }

    // Returns how many pages of the blocks no record and no packet of these rounds, or of the
    // stream so far, named; by whole sections those that no complete section named.
    fn missing(&self) -> u64
        ensures { TellsMissingOf result self.now }
    {
        match self {
            Load::One(load) => load.missing(),
            Load::Sections(load) => load.missing(),
            Load::Several(load) => load.missing(),
            Load::Rounds(load) => load.missing(),
        }
    }

    // Returns how many bytes of a source were taken, or 0 if there is no such source.
    fn fed(&self, source: Source) -> u64
        ensures { TellsFed source result self.now }
    {
        match self {
            Load::One(load) => load.fed_of(source),
            Load::Sections(load) => load.fed(source),
            Load::Several(load) => load.fed(source),
            Load::Rounds(load) => load.fed(source),
        }
    }

    // Reports how many of the bytes taken the main stream has, once it is closed.
    fn closed_at(&self, at: &mut u64) -> u32
        ensures { TellsClosed result at.old at.new self.now }
    {
        match self {
            Load::One(load) => load.closed_at(at),
            Load::Sections(load) => load.closed_at(at),
            Load::Several(load) => load.closed_at(at),
            Load::Rounds(load) => load.closed_at(at),
        }
    }

    // Returns whether it is known how many of the bytes taken of a source are complete items
    // without a fault, and reports how many.
    fn valid_up_to(&self, source: Source, at: &mut u64) -> bool
        ensures { TellsValid source result at.old at.new self.now }
    {
        match self {
            Load::One(load) => load.valid_of(source, at),
            Load::Sections(load) => load.valid_up_to(source, at),
            Load::Several(load) => load.valid_up_to(source, at),
            Load::Rounds(load) => load.valid_up_to(source, at),
        }
    }

    /// Returns how the load stands.
    pub fn standing(&self) -> Standing
        ensures { TellsStanding result self.now }
    {
        let mut closed_at = 0;
        let status = self.closed_at(&mut closed_at);
        let closed = status == DONE;
        let all_in = self.has_all_rounds();
        Standing {
            rounds: self.rounds(),
            missing: self.missing(),
            claimed: self.claimed(),
            has_all_rounds: flag(all_in),
            is_closed: flag(closed),
            closed_at,
            reserved: [0; 4],
        }
    }

    /// Returns how much the load has of a source: nothing, if there is no such source.
    pub fn source(&self, source: Source) -> SourceBytes
        ensures { TellsSource source result self.now }
    {
        let mut valid_up_to = 0;
        let known = self.valid_up_to(source, &mut valid_up_to);
        SourceBytes {
            fed: self.fed(source),
            is_known: flag(known),
            valid_up_to,
            reserved: [0; 4],
        }
    }
}
