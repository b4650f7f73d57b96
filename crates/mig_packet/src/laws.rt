//! Laws of the definitions alone: properties of hellos, packets and channels, whatever code writes
//! and reads them.
//!
//! Each law is the clause of a function that does nothing. So it is proved with the crate, and a
//! caller who calls the function may use it.

ghost use Rattle.mig_packet.specs.Law.{WrittenHellosAreHellos, WrittenPacketsArePackets, NoPacketBeginsAnother};
ghost use Rattle.mig_packet.specs.Law.{HasOneReading, HasOneListOfItems, ReadingsKeepLimits};
ghost use Rattle.mig_packet.specs.Law.{WaitingIsBounded, WaitingBytesAreBounded, LimitOnlyRefuses, LimitLetsThrough, RefusedIsOver};
ghost use Rattle.mig_packet.specs.Law.{IsValidUpToOnePlace, LongerTextsStayValid, ClosedIsValid, BadIsValidBefore};

/// The bytes that are written for a UUID and an id are a hello with them. So `read_hello` finds it,
/// whatever bytes follow.
pub fn written_hellos_are_hellos()
    ensures { WrittenHellosAreHellos }
{}

/// The bytes that are written for some fields are a packet with these fields, within these limits:
/// an id of at most 255 bytes without a byte 0, offsets and a number below 2^64, complete contents.
/// So `read_packet` returns them, whatever bytes follow.
pub fn written_packets_are_packets()
    ensures { WrittenPacketsArePackets }
{}

/// No packet is a proper prefix of another.
pub fn no_packet_begins_another()
    ensures { NoPacketBeginsAnother }
{}

/// The bytes of a channel, ended or not, have exactly one reading. So every reader of them, in any
/// pieces, finds the same hello, rounds and first fault.
pub fn text_has_one_reading()
    ensures { HasOneReading }
{}

/// The bytes of a channel that has ended have exactly one list of items.
pub fn text_has_one_list_of_items()
    ensures { HasOneListOfItems }
{}

/// Each complete round of a channel is packets, and the last one alone has SYNC. No round is
/// complete before the hello is. A channel is closed by its end alone.
pub fn readings_keep_limits()
    ensures { ReadingsKeepLimits }
{}

/// What waits in a channel's round is within the caller's limit, and has at most as many bytes as
/// the limit times a page. A limit only refuses the packet that would exceed it: without that fault
/// the reading is the one without a limit. A closed channel none of whose rounds passes the limit
/// is read as without it.
pub fn waiting_is_bounded()
    ensures bounded { WaitingIsBounded }
    ensures bytes { WaitingBytesAreBounded }
    ensures only { LimitOnlyRefuses }
    ensures through { LimitLetsThrough }
    ensures over { RefusedIsOver }
{}

/// A channel's bytes are valid up to exactly one offset, which `ChannelReader::valid_up_to`
/// returns. That many of its bytes are complete items without a fault, and no more are. More bytes
/// can only increase the offset. Once the bytes have a fault, it stays where the item at fault
/// begins. If the channel has ended and is closed, it is the end.
pub fn text_is_valid_up_to_one_place()
    ensures one { IsValidUpToOnePlace }
    ensures longer { LongerTextsStayValid }
    ensures closed { ClosedIsValid }
    ensures bad { BadIsValidBefore }
{}
