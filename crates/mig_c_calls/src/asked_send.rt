//! What C passes to a send beside its table.

ghost use Rattle.std.specs.Prelude.{◌≡◌, ◌≤◌, ◌<◌, ◌↔◌, IsTrue, take};
ghost use Rattle.mig_c_calls.specs.Send.{IsLong};

use crate::status::MOST_NAME_BYTES;

/// The settings of a send. All zeros are those of a single stream without a name.
#[repr(C)]
#[derive(Clone, Copy)]
pub struct AskedSend {
    /// How many channels there are. With 0 it is a single stream, and `limit` and `uuid` aren't
    /// used.
    pub channels: usize,
    /// The most pages of a packet.
    pub limit: usize,
    /// The UUID of the channels' hellos.
    pub uuid: [u8; 16],
    /// Whether the stream is that of a machine with a name: not if it is 0.
    pub named: u64,
    /// The length of the name.
    pub name_len: usize,
    /// The name's bytes.
    pub name: [u8; 1024],
    /// Zeros, as room for what may come.
    pub reserved: [u64; 4],
}

/// Returns whether the name is longer than a configuration has room for.
pub(crate) fn is_long(asked: &AskedSend) -> bool
    ensures { IsTrue result ↔ IsLong asked.now }
{
    asked.named != 0 && asked.name_len > MOST_NAME_BYTES
}

/// Returns the bytes of the name.
pub(crate) fn name_bytes(asked: &AskedSend) -> &[u8]
    requires { asked.now.name_len ≤ 1024 }
    ensures { result.now ≡ take asked.now.name_len asked.now.name }
{
    let name = asked.name.as_slice();
    &name[..asked.name_len]
}
