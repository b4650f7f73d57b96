//! A channel of multifd without the packets of devices, for `zimgasol`: these are passed over by
//! their lengths and counted, and all other bytes are passed on.
//!
//! QEMU 10.0 and later write the state of VFIO's devices to channels, in packets of their own
//! (`MultiFDPacketDeviceState_t` in `migration/multifd.h`). They may be on any channel, between
//! packets of pages and after the last SYNC. They take no packet number, and a reader of RAM needs
//! nothing of them. `mig_packet` reads what is passed on.
//!
//! Definitions (`specs/`): `Packets`, of the two kinds of packet by their first bytes; `Parted`, of
//! a channel's bytes in two parts; `Passing`, of a channel that is read in pieces; `Law`.
#![tactic(auto)]

mod fields;
mod format;
mod front;
mod laws;
mod page_packets;

pub use laws::{bytes_without_devices_are_passed_on, channels_without_devices_stay};
pub use page_packets::{Next, PagePackets, PassedOver};
