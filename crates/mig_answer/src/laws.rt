//! Laws of the definitions alone: properties of the answers of loads on several channels, whatever
//! code returns them.
//!
//! Each law is the clause of a function whose body at most names another law that its proof uses.
//! So it is proved with the crate, and a caller who calls the function may use it.

ghost use Rattle.mig_answer.specs.Law.{HasOneAnswer, EndedTextsAreJudged, DoneByOneRoundEnd};
ghost use Rattle.mig_answer.specs.Growing.{AnswersStay, WithoutMemoryStays, RoundsStay};
ghost use Rattle.mig_answer.specs.Received.{FrontTellsChannel, StopIsLast, RoundsAreCounted, FrontsTellAllChannels};
ghost use Rattle.mig_answer.specs.Dealt.{DealtRoundsAreLawful};
ghost use Rattle.mig_answer.specs.Sent.{SendingsAreLoaded, SendingsAreLoadedWithin, TwiceThePagesLetThrough, MachineSendingsAreLoaded, ChannelsLoadAsOneStream};

use std::alloc::Allocator;

/// The bytes of any streams so far have exactly one answer. So the answer doesn't depend on the
/// pieces into which the streams are cut, on their order, or on the reader. If all streams have
/// ended, it isn't `Running`.
pub fn texts_have_one_answer()
    ensures one { HasOneAnswer }
    ensures ended { EndedTextsAreJudged }
{}

/// Streams that are done where a FLUSH alone ends the rounds of the main stream aren't done where
/// each EOS ends one too. So a wrong `RoundEnd` is never taken for a complete load.
pub fn done_by_one_round_end()
    ensures { DoneByOneRoundEnd }
{}

/// An answer that isn't `Running` stays, whatever bytes follow in the streams, and whichever of
/// them end: the memory, the rounds and the verdict. So does an answer without memory. A round that
/// was counted stays counted. So a load can return its answer before its streams have ended.
pub fn answers_stay()
    ensures settled { AnswersStay }
    ensures wanting { WithoutMemoryStays }
    ensures rounds { RoundsStay }
{}

/// The first items of a channel say of a round what the complete channel says, once they have the
/// round's SYNC packet, or the stop: the hello, the channel's status at the round, and its packets
/// of each round up to it. So a load can judge a round by what it has received of each channel,
/// before the channels have ended. The stop is the last item. There are as many complete rounds as
/// SYNC packets.
pub fn received_tells_status()
    ensures channel { FrontTellsChannel }
    ensures stop { StopIsLast }
    ensures counted { RoundsAreCounted }
    ensures all_channels { FrontsTellAllChannels }
{}

/// However a round was dealt, its packets are a lawful round from its base on, as many as it
/// counts. They have the round's pages.
pub fn dealt_rounds_are_lawful()
    ensures { DealtRoundsAreLawful }
{}

/// The load of the streams of a sender on several channels is done, with all its rounds and the
/// memory after them. That holds for any table, rounds, batch limit and number of channels,
/// whichever worker sent what, and in any order of the channels. So it agrees with the load of the
/// single stream of these rounds.
pub fn sendings_are_loaded<A: Allocator>()
    ensures done { SendingsAreLoaded }
    ensures within { SendingsAreLoadedWithin }
    ensures twice { TwiceThePagesLetThrough }
    ensures same { ChannelsLoadAsOneStream A }
{
    mig_send::sendings_are_read_back();
}

/// The load, in a machine's frame, of the streams of a sender on several channels with a machine's
/// main stream (`MultiSender::finish_open`) is done, with all its rounds and the memory after them,
/// whatever follows RAM's END. So its answer is that of a load of the streams without a machine.
pub fn machine_sendings_are_loaded()
    ensures { MachineSendingsAreLoaded }
{
    mig_send::machine_sendings_are_read_back();
}
