//! Tells the two kinds of packet apart by their first bytes, and how long they are.

ghost use Rattle.std.specs.Prelude.{◌≡◌, ◌+◌, ◌≤◌, length, IsTrue};
ghost use Rattle.mig_packet.specs.PageSize.{IsPageSize};
ghost use Rattle.zimgasol_page_packets.specs.Packets.{front_len, is_device, is_of_pages, state_len, rest_len};

use crate::fields::be32;
use crate::format::{
    FRONT_LEN, MULTIFD_FLAG_DEVICE_STATE, MULTIFD_FLAG_SYNC, MULTIFD_MAGIC, MULTIFD_VERSION,
};
use mig_packet::{head_len, page_limit};

/// Returns whether `front` begins a packet of a device.
pub(crate) fn is_device(front: &[u8]) -> bool
    requires { front_len ≤ length front.now }
    ensures { result ≡ is_device front.now }
{
    be32(front, 0) == MULTIFD_MAGIC
        && be32(front, 4) == MULTIFD_VERSION
        && be32(front, 8) == MULTIFD_FLAG_DEVICE_STATE
}

/// Returns how many bytes of state follow the front of a device's packet.
pub(crate) fn state_len(front: &[u8]) -> u32
    requires { front_len ≤ length front.now }
    ensures { result ≡ state_len front.now }
{
    be32(front, 272)
}

/// Returns whether `front` begins a packet of pages without a fault.
pub(crate) fn is_of_pages(page_size: u64, front: &[u8]) -> bool
    requires page_size { IsPageSize page_size }
    requires front { front_len ≤ length front.now }
    ensures { result ≡ is_of_pages page_size front.now }
{
    if be32(front, 0) != MULTIFD_MAGIC || be32(front, 4) != MULTIFD_VERSION {
        return false;
    }
    if be32(front, 8) > MULTIFD_FLAG_SYNC {
        return false;
    }
    let normal = u64::from(be32(front, 16));
    let zero = u64::from(be32(front, 32));
    if normal + zero > page_limit(page_size) as u64 {
        return false;
    }
    normal == 0 || u64::from(be32(front, 20)) == normal * page_size
}

/// Returns how many bytes follow the front of a packet of pages.
pub(crate) fn rest_len(page_size: u64, front: &[u8]) -> u64
    requires page_size { IsPageSize page_size }
    requires front { front_len ≤ length front.now }
    requires pages { IsTrue (is_of_pages page_size front.now) }
    ensures { result ≡ rest_len page_size front.now }
{
    let head = head_len(page_size) - FRONT_LEN;
    head as u64 + u64::from(be32(front, 16)) * page_size
}
