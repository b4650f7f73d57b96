//! The laws of a channel's bytes without the packets of devices. Their functions do nothing: the
//! clauses are the laws.

ghost use Rattle.zimgasol_page_packets.specs.Law.{PacketsOfPagesStay, OthersStay, CutsStay, ChannelsWithoutDevicesStay};

/// Of a channel's packets those of pages are passed on, in their order, with the hello. Bytes that
/// begin no packet are passed on, and of a device's packet that is cut its first bytes.
pub fn bytes_without_devices_are_passed_on()
    ensures packets { PacketsOfPagesStay }
    ensures others { OthersStay }
    ensures cut { CutsStay }
{}

/// A channel without packets of devices is passed on whole.
pub fn channels_without_devices_stay()
    ensures { ChannelsWithoutDevicesStay }
{}
