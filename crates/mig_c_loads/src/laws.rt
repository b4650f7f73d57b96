//! The headline in C, as clauses of functions that do nothing: C's loads load what C's sends
//! sent. It joins the clauses of the calls of `mig_c_calls` and of this crate.

ghost use Rattle.mig_c_loads.specs.Headline.{DrainedIsLoaded, DrainedMachineStreamIsLoaded, DrainedIsLoadedBySections, DrainedMachineStreamIsLoadedBySections, DrainedChannelsAreLoaded, DrainedChannelsAreLoadedByRounds, DrainedMachineIsLoaded};
ghost use Rattle.mig_c_loads.specs.Filling.{PagesReadAreNoted};

/// What was copied out of a send of one stream is loaded into blocks, in whatever pieces it was
/// fed.
pub fn drained_is_loaded()
    ensures { DrainedIsLoaded }
{}

/// So it is with a machine's stream, whatever follows RAM's END.
pub fn drained_machine_stream_is_loaded()
    ensures { DrainedMachineStreamIsLoaded }
{}

/// What was copied out of a send of one stream is loaded so by whole sections, too.
pub fn drained_is_loaded_by_sections()
    ensures { DrainedIsLoadedBySections }
{}

/// And so is a machine's stream, whatever follows RAM's END.
pub fn drained_machine_stream_is_loaded_by_sections()
    ensures { DrainedMachineStreamIsLoadedBySections }
{}

/// What was copied out of a send on several channels is loaded into blocks, in whatever pieces it
/// was fed, and in whatever order of the sources. Pages that were sent after the head of their
/// packet, and not copied out, count among it.
pub fn drained_channels_are_loaded()
    ensures { DrainedChannelsAreLoaded }
{}

/// So it is by whole rounds.
pub fn drained_channels_are_loaded_by_rounds()
    ensures { DrainedChannelsAreLoadedByRounds }
{}

/// So it is with a machine's main stream, whatever follows RAM's END.
pub fn drained_machine_is_loaded()
    ensures { DrainedMachineIsLoaded }
{}

/// Blocks that are zeros but for the pages that a load notes stay so, as C reads a page of a stream
/// to its place, and as it reads the pages of a packet to theirs and clears its pages of zeros. So
/// the blocks are as the next call asks.
pub fn pages_read_are_noted()
    ensures { PagesReadAreNoted }
{}
