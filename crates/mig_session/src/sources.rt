//! A session's state of its sources while it runs: what the bytes of each say by themselves.

ghost use Rattle.std.specs.Prelude.{ℕ, ◌≡◌, ◌≢◌, ◌+◌, ◌<◌, ◌≤◌, ◌^◌, ◌↔◌, Bool, List, IsTrue, IsFalse, IfOk, OnOk, length, map, replicate, vec_capacity};
ghost use Rattle.std.specs.List.{AllZip, list_all};
ghost use Rattle.std.specs.Option.{option_copied};
ghost use Rattle.mig_mem.specs.PageSize.{IsPageSize};
ghost use Rattle.mig_stream.specs.Reader.{HasTable};
ghost use Rattle.mig_load_types.specs.declared.settings.LoadSettings.{LoadSettings};
ghost use Rattle.mig_load_types.specs.Settings.{main_of, channel_of};
ghost use Rattle.mig_answer.specs.Texts.{Text, Texts, no_text, no_texts};
ghost use Rattle.mig_session.specs.Scan.{Scans, TellsFirstStatus, TellsHello, TellsOnly};
ghost use Rattle.mig_session.specs.Sources.{FedSources, Holds, TellsFirst};
ghost use Rattle.mig_session.specs.Session.{HasPlaces, TellAllIn};
ghost use Rattle.mig_session.specs.Loading.{Feeding, HasRoom};
ghost use Rattle.mig_sources.specs.Sources.{HasSource, count_of, counts_in, at_source, feed_step, end_step};

use crate::main_scan::MainScan;
use crate::places::{Noted, SourcePlaces};
use crate::scan::ChannelScan;
use mig_answer::{Status, Verdict, repeated_id, sources_verdict};
use mig_load_types::LoadSettings;
use mig_mem::{NoMemory, Table};
use mig_sources::Source;
use std::alloc::{Allocator, Global};
use std::marker::Model;
use uuid::Uuid;

/// All sources, with their bytes so far.
#[derive(Drop)]
pub(crate) struct Sources<A: Allocator = Global> {
    main: MainScan<A>,
    channels: Vec<ChannelScan<A>, A>,
    // the channels' statuses at the first round, with room for all of them
    statuses: Vec<Status, A>,
    hellos: Vec<Option<u8>, A>,
}

impl<A: Allocator> Model for Sources<A> {
    ghost use Rattle.std.specs.Prelude.{length, ◌≤◌, vec_capacity};
    ghost use Rattle.mig_session.specs.Sources.{FedSources};

    ghost Value = { FedSources };

    ghost view = { λ s. record { main = s.main; channels = s.channels.items } };

    ghost invariant = { λ s. (length s.channels.items ≤ vec_capacity s.statuses) × (length s.channels.items ≤ vec_capacity s.hellos) };
}

// Creates channels before their first bytes.
fn no_channels<A: Allocator + Copy>(
    alloc: A,
    settings: LoadSettings,
    uuid: &Uuid,
    channels: usize,
) -> Result<Vec<ChannelScan<A>, A>, NoMemory>
    requires page_size { IsPageSize settings.page_size }
    requires channels { (1 ≤ channels) × (channels ≤ 255) }
    ensures scans { IfOk result (λ v. AllZip (Scans (channel_of settings uuid.now channels)) (replicate channels no_text) v.items) }
    ensures len { IfOk result (λ v. length v.items ≡ channels) }
{
    let mut scans = Vec::with_capacity(alloc, channels)?;
    for _ in 0..channels {
        scans.push_reserved(ChannelScan::new(alloc, settings, *uuid, channels)?);
    }
    Ok(scans)
}

// Puts the channels' statuses at the first round into `statuses`.
fn look_at_statuses<A: Allocator>(channels: &[ChannelScan<A>], statuses: &mut Vec<Status, A>)
    requires room { length channels.now ≤ vec_capacity statuses.old }
    ensures told { AllZip TellsFirstStatus channels.now statuses.new.items }
    ensures room { vec_capacity statuses.old ≤ vec_capacity statuses.new }
{
    statuses.clear();
    for channel in channels {
        statuses.push_reserved(channel.first_status());
    }
}

// Puts the ids in the channels' hellos into `hellos`.
fn look_at_hellos<A: Allocator>(channels: &[ChannelScan<A>], hellos: &mut Vec<Option<u8>, A>)
    requires room { length channels.now ≤ vec_capacity hellos.old }
    ensures told { AllZip TellsHello channels.now hellos.new.items }
    ensures room { vec_capacity hellos.old ≤ vec_capacity hellos.new }
{
    hellos.clear();
    for channel in channels {
        hellos.push_reserved(channel.hello());
    }
}

// Returns whether each channel has `rounds` rounds, no further one, and no fault.
fn have_only<A: Allocator>(channels: &[ChannelScan<A>], rounds: u64) -> bool
    requires { rounds ≤ 2 ^ 63 }
    ensures { (found : List Bool) × AllZip (TellsOnly rounds) channels.now found × (result ≡ list_all (λ t. t) found) }
{
    let mut all = true;
    for channel in channels {
        if !channel.has_only(rounds) {
            all = false;
        }
    }
    all
}

impl<A: Allocator + Copy> Sources<A> {
    /// Creates sources before their first bytes.
    pub(crate) fn new(
        alloc: A,
        settings: LoadSettings,
        uuid: &Uuid,
        channels: usize,
    ) -> Result<Sources<A>, NoMemory>
        requires page_size { IsPageSize settings.page_size }
        requires channels { (1 ≤ channels) × (channels ≤ 255) }
        requires limit { settings.limit ≤ 2 ^ 40 }
        ensures { IfOk result (λ s. Holds settings uuid.now (no_texts channels) s) }
    {
        let scans = no_channels(alloc, settings, uuid, channels)?;
        Ok(Sources {
            main: MainScan::new(alloc, settings),
            channels: scans,
            statuses: Vec::with_capacity(alloc, channels)?,
            hellos: Vec::with_capacity(alloc, channels)?,
        })
    }

    /// Reads a piece of a source. `Err` is `NoMemory`.
    pub(crate) fn feed(&mut self, source: Source, piece: &[u8]) -> Result<(), NoMemory>
        requires { (f : Feeding) × Holds f.given f.uuid f.texts self.old × HasRoom f.texts source (length piece.now) }
        ensures { OnOk result ((given : LoadSettings) (uuid : List ℕ) (texts : Texts) → Holds given uuid texts self.old → Holds given uuid (feed_step source piece.now texts) self.new) }
    {
        match source {
            Source::Main => self.main.feed(piece),
            Source::Channel(j) => {
                let channel = &mut self.channels[j];
                channel.feed(piece);
                Ok(())
            }
        }
    }
}

impl<A: Allocator> Sources<A> {
    /// Ends a source.
    pub(crate) fn end(&mut self, source: Source)
        requires { (f : Feeding) × Holds f.given f.uuid f.texts self.old × HasSource (counts_in f.texts) source }
        ensures { (given : LoadSettings) (uuid : List ℕ) (texts : Texts) → Holds given uuid texts self.old → Holds given uuid (end_step source texts) self.new }
    {
        match source {
            Source::Main => self.main.end(),
            Source::Channel(j) => {
                let channel = &mut self.channels[j];
                channel.end();
            }
        }
    }

    /// Returns the sources' verdict before the main stream's table is known. None if all have the
    /// first round, and no hello is repeated.
    pub(crate) fn first_verdict(&mut self) -> Option<Verdict>
        ensures told { TellsFirst self.old result }
        ensures same { self.new ≡ self.old }
    {
        let main = self.main.first_status();
        look_at_statuses(&self.channels, &mut self.statuses);
        look_at_hellos(&self.channels, &mut self.hellos);
        sources_verdict(0, main, &self.statuses, repeated_id(&self.hellos))
    }

    /// Returns whether the main stream is closed after `rounds` rounds, and each channel has as
    /// many, no further one, and no fault.
    pub(crate) fn have_only(&self, rounds: u64) -> bool
        requires { rounds ≤ 2 ^ 63 }
        ensures { TellAllIn rounds self.now result }
    {
        if self.main.is_closed_after(rounds) {
            have_only(&self.channels, rounds)
        } else {
            false
        }
    }

    /// Notes up to which byte `source` is valid, its fault, and where a main stream is closed.
    pub(crate) fn note(&self, source: Source, places: &mut SourcePlaces<A>)
        requires { (f : Feeding) × Holds f.given f.uuid f.texts self.now × HasSource (counts_in f.texts) source }
        ensures { (given : LoadSettings) (uuid : List ℕ) (step : Text → Text) (texts : Texts) → Holds given uuid (at_source source step texts) self.now
            → HasPlaces given uuid texts places.old → HasPlaces given uuid (at_source source step texts) places.new }
    {
        match source {
            Source::Main => {
                let noted = Noted {
                    valid_up_to: self.main.valid_up_to(),
                    fault: self.main.fault(),
                };
                places.set_main(noted, self.main.closed_at());
            }
            Source::Channel(j) => {
                let channel = &self.channels[j];
                let noted = Noted {
                    valid_up_to: channel.valid_up_to(),
                    fault: channel.fault(),
                };
                places.set_channel(j, noted);
            }
        }
    }

    /// Returns the main stream's table, once the size list is complete.
    pub(crate) fn table(&self) -> Option<&Table<A>>
        ensures { (given : LoadSettings) (uuid : List ℕ) (texts : Texts) → Holds given uuid texts self.now → HasTable (main_of given) texts.main.bytes (option_copied result) }
    {
        self.main.table()
    }
}
