//! The numbers of multifd's format, by QEMU's names if it has them (`migration/multifd.h`).
//! `specs/Hello`, `specs/Packet` and `specs/PageSize` have them for contracts, which relate the
//! two.

/// The first four bytes of a hello and of a packet.
pub(crate) const MULTIFD_MAGIC: u32 = 0x1122_3344;

pub(crate) const MULTIFD_VERSION: u32 = 1;

/// The one flag of a packet: it ends its channel's part of a round.
pub(crate) const MULTIFD_FLAG_SYNC: u32 = 1;

/// The most bytes that the pages of a packet may have: 512 KiB.
pub(crate) const MULTIFD_PACKET_SIZE: u64 = 524_288;

/// The bytes of a hello, `MultiFDInit_t`.
pub(crate) const HELLO_LEN: usize = 64;

/// The bytes of a packet before its offsets, the fields of `MultiFDPacket_t`.
pub(crate) const FIELDS_LEN: usize = 320;
