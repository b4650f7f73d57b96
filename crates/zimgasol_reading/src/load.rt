//! Loads a main stream and its channels, and passes the pages to a sink. The judge is the
//! library's: an `InPlaceSession` over a memory that isn't kept.

ghost use Rattle.std.specs.Prelude.{◌≡◌, ◌≤◌, ◌^◌, length, take, IfOk};
ghost use Rattle.mig_mem.specs.Image.{zero_image};
ghost use Rattle.mig_answer.specs.Texts.{no_texts};
ghost use Rattle.mig_sources.specs.Sources.{feed_step, end_step};
ghost use Rattle.mig_in_place.specs.Session.{StandsFor, StepsOn};
ghost use Rattle.zimgasol_reading.specs.Loaded.{LoadInto, Takes};

use crate::sink::SinkTrouble;
use mig_answer::Verdict;
use mig_in_place::InPlaceSession;
use mig_load_types::LoadSettings;
use mig_mem::{GuestTarget, NoMemory, Table};
use mig_sources::Source;
use std::alloc::Global;
use std::marker::Model;
use uuid::Uuid;
use zimgasol_files::Trouble;

/// The most channels of a load.
const MOST_CHANNELS: usize = 255;

/// A memory whose writes may fail. The first trouble is kept until it is taken.
pub trait Reporting: GuestTarget + Drop {
    /// Takes the first trouble of the writes, if they had one.
    ///
    /// # Errors
    ///
    /// That trouble.
    fn check(&mut self) -> Result<(), SinkTrouble>
        ensures { Self.image self.new ≡ Self.image self.old };
}

/// The load of a main stream and its channels into a memory.
#[derive(Drop)]
pub struct Load<M: Reporting> {
    session: InPlaceSession,
    memory: M,
    // whether all sources have the current round, and it is lawful
    has_round: bool,
}

impl<M: Reporting> Model for Load<M> {
    ghost use Rattle.std.specs.Prelude.{◌≡◌};
    ghost use Rattle.zimgasol_reading.specs.Loaded.{LoadInto};

    ghost Value = { LoadInto };

    ghost view = { λ l. record { load = l.session; memory = M.image l.memory } };

    ghost invariant = { λ l. (M.image l.memory).table ≡ l.session.table };
}

/// Creates the judge of a guest of `table` from `channels` channels, whose hellos have to have
/// `uuid`.
///
/// # Errors
///
/// `Trouble::NoMemory`.
pub(crate) fn judge_of(
    alloc: Global,
    settings: LoadSettings,
    table: &Table,
    uuid: Uuid,
    channels: usize,
) -> Result<InPlaceSession, Trouble>
    requires limit { settings.limit ≤ 2 ^ 40 }
    ensures table { IfOk result (λ s. s.table ≡ table.now) }
    ensures stands { IfOk result (λ s. StandsFor settings uuid (zero_image table.now) (no_texts channels) (zero_image table.now) s) }
{
    if channels == 0 || channels > MOST_CHANNELS {
        return Err(Trouble::NoMemory);
    }
    Ok(InPlaceSession::new(alloc, settings, table, &uuid, channels)?)
}

// Takes bytes of `piece`, the next of `source`. Returns how many it took, and whether all sources
// have the round then, and it is lawful, so that it was counted.
fn take_bytes<M: GuestTarget>(
    session: &mut InPlaceSession,
    memory: &mut M,
    source: Source,
    piece: &[u8],
) -> Result<(usize, bool), NoMemory>
    requires table { (M.image memory.old).table ≡ session.old.table }
    ensures taken { IfOk result (λ found. found.0 ≤ length piece.now) }
    ensures steps { IfOk result (λ found. StepsOn (feed_step source (take found.0 piece.now)) (M.image memory.old) session.old (M.image memory.new) session.new) }
    ensures table { (M.image memory.new).table ≡ session.new.table }
{
    if !session.has(source) {
        return Ok((0, false));
    }
    if session.ended(source) {
        return Ok((0, false));
    }
    if !session.has_room(source, piece.len()) {
        return Err(NoMemory);
    }
    let (taken, has_round) = session.feed_round(memory, source, piece)?;
    if has_round {
        session.next_round(memory);
    }
    Ok((taken, has_round))
}

impl<M: Reporting> Load<M> {
    /// Creates a load into `memory`, which `session` judges.
    pub(crate) fn new(session: InPlaceSession, memory: M) -> Load<M>
        requires { (M.image memory).table ≡ session.table }
        ensures { result ≡ record { load = session; memory = M.image memory } }
    {
        Load {
            session,
            memory,
            has_round: false,
        }
    }

    /// Returns the memory.
    pub(crate) fn into_memory(self) -> M
        ensures { M.image result ≡ self.memory }
    {
        self.memory
    }

    /// Returns whether bytes of `source` are taken, of the current round.
    pub fn takes(&self, source: Source) -> bool {
        !self.has_round && self.session.has(source) && self.session.takes(source)
    }

    /// Takes bytes of `piece`, the next of `source`: of a channel those of the current round, of
    /// the main stream all. Returns how many it took.
    ///
    /// # Errors
    ///
    /// `Trouble::NoMemory`, and those of the memory.
    pub fn feed(&mut self, source: Source, piece: &[u8]) -> Result<usize, Trouble>
        ensures taken { IfOk result (λ n. n ≤ length piece.now) }
        ensures takes { IfOk result (λ n. Takes (feed_step source (take n piece.now)) self.old self.new) }
    {
        let found = take_bytes(&mut self.session, &mut self.memory, source, piece);
        self.memory.check()?;
        let (taken, has_round) = found?;
        self.has_round = self.has_round || has_round;
        Ok(taken)
    }

    /// Ends `source`: no more bytes follow.
    pub fn end(&mut self, source: Source)
        ensures { Takes (end_step source) self.old self.new }
    {
        if self.session.has(source) {
            self.session.end(source);
        }
    }

    /// Begins the next round.
    pub fn advance(&mut self)
        ensures { self.new ≡ self.old }
    {
        self.has_round = false;
    }

    /// Returns the verdict so far.
    pub fn verdict(&self) -> Verdict
        ensures { result ≡ self.now.load.verdict }
    {
        self.session.verdict()
    }

    /// Returns how many rounds are complete.
    pub fn rounds(&self) -> u64
        ensures { result ≡ self.now.load.rounds }
    {
        self.session.rounds()
    }
}
