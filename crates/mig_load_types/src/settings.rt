//! The settings that a caller passes to a load with its streams.

ghost use Rattle.std.specs.Prelude.{◌≡◌};
ghost use Rattle.mig_load_types.specs.Settings.{ram_settings, mode_of};

use mig_stream::{Frame, Mode};

/// What ends a round of a main stream.
#[derive(Clone, Copy, Debug, PartialEq, Eq)]
pub enum RoundEnd {
    /// Each FLUSH record, as the senders here write it, and QEMU for machine types of 8.1 and
    /// newer.
    Flush,
    /// Each EOS of a section, START's and END's too, and each FLUSH record. QEMU writes it so, with
    /// no FLUSH, for machine types of 8.0 and older (`multifd-flush-after-each-section`).
    Eos,
    /// As the stream shows: `Flush` where START has a FLUSH, or where the first record after START
    /// is one, and otherwise `Eos`. So it needs no setting, and nothing waits for it: START's EOS
    /// ends the first round, and a FLUSH that is the first record after START ends none.
    AsShown,
}

/// The settings of a load. The caller passes them, since they aren't in the stream.
///
/// # Examples
///
/// A machine's stream is loaded at once. It ends at `closed_at` of what is returned:
///
/// <!-- quoted from crates/mig_uses/src/machine.rt -->
/// ```rust
/// let settings = LoadSettings::new(PAGE_SIZE_4K, MAX_TOTAL).with_frame(Frame::Machine);
/// load_single_with(alloc, settings, text)
/// ```
#[derive(Clone, Copy, Debug, PartialEq, Eq)]
pub struct LoadSettings {
    /// The number of bytes of a page.
    pub page_size: u64,
    /// The most bytes that the guest's blocks may have together. A stream that declares more is
    /// refused.
    pub limit: u64,
    /// The stream's frame: RAM's sections alone, or a machine's stream.
    pub frame: Frame,
    /// The most page records that a section of a single stream may have, or a round of a main
    /// stream: these wait until it is complete. One more is the fault `StreamFault::Waiting`. Each
    /// channel may have as many pages and packets together in a round. One more is the fault
    /// `ChannelFault::Waiting`. `None` is any number. Every load tests it, also one that keeps no
    /// records or packets, so that all have one result.
    pub waiting: Option<u64>,
    /// What ends a round of a main stream. A single stream's rounds are its sections.
    pub round_end: RoundEnd,
}

impl LoadSettings {
    /// Creates the settings for a stream of RAM's sections alone (`Frame::Ram`), whose sections may
    /// have any number of page records.
    pub fn new(page_size: u64, limit: u64) -> LoadSettings
        ensures { result ≡ ram_settings page_size limit }
    {
        LoadSettings {
            page_size,
            limit,
            frame: Frame::Ram,
            waiting: None,
            round_end: RoundEnd::Flush,
        }
    }

    /// Returns the settings with another frame.
    pub fn with_frame(self, frame: Frame) -> LoadSettings
        ensures { result ≡ record self { frame = frame } }
    {
        LoadSettings { frame, ..self }
    }

    /// Returns the settings with at most `waiting` page records in a section or a round, and as
    /// many pages and packets in a round of a channel.
    pub fn with_waiting(self, waiting: Option<u64>) -> LoadSettings
        ensures { result ≡ record self { waiting = waiting } }
    {
        LoadSettings { waiting, ..self }
    }

    /// Returns the settings for a main stream whose rounds end with other records.
    pub fn with_round_end(self, round_end: RoundEnd) -> LoadSettings
        ensures { result ≡ record self { round_end = round_end } }
    {
        LoadSettings { round_end, ..self }
    }

    /// Returns the mode of the reader of a main stream.
    pub fn main_mode(&self) -> Mode
        ensures { result ≡ mode_of self.now.round_end }
    {
        match self.round_end {
            RoundEnd::Flush => Mode::Main,
            RoundEnd::Eos => Mode::MainBySection,
            RoundEnd::AsShown => Mode::MainAsShown,
        }
    }
}
