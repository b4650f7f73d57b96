//! Big-endian numbers at their offsets in a packet.

ghost use Rattle.std.specs.Prelude.{◌≡◌, ◌+◌, ◌≤◌, length};
ghost use Rattle.mig_packet.specs.Fields.{be32_at};

#[tactic(auto, unfolding(mig_packet::specs::Fields::be32_at))]
pub(crate) fn be32(bytes: &[u8], at: usize) -> u32
    requires { at + 4 ≤ length bytes.now }
    ensures { result ≡ be32_at at bytes.now }
{
    let part = &bytes[at..at + 4];
    u32::from_be_bytes([part[0], part[1], part[2], part[3]])
}
