//! The numbers of multifd's format, by QEMU's names if it has them (`migration/multifd.h`).

/// The first four bytes of a packet.
pub(crate) const MULTIFD_MAGIC: u32 = 0x1122_3344;

pub(crate) const MULTIFD_VERSION: u32 = 1;

/// The flag of a packet of pages that ends its channel's part of a round.
pub(crate) const MULTIFD_FLAG_SYNC: u32 = 1;

/// The flags of a packet of a device's state.
pub(crate) const MULTIFD_FLAG_DEVICE_STATE: u32 = 64;

/// The bytes of a hello, `MultiFDInit_t`.
pub(crate) const HELLO_LEN: u64 = 64;

/// The bytes of a device's packet before its state, the fields of `MultiFDPacketDeviceState_t`.
/// They are fewer than the head of a packet of pages has.
pub(crate) const FRONT_LEN: usize = 276;
