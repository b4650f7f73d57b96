//! Big-endian numbers at their offsets in some bytes, for `head` and `front`.

ghost use Rattle.std.specs.Prelude.{◌≡◌, ◌+◌, ◌≤◌, length};
ghost use Rattle.mig_stream.specs.Fields.{be16_at, be32_at, be64_at};

pub(crate) fn be16(bytes: &[u8], at: usize) -> u16
    requires { at + 2 ≤ length bytes.now }
    ensures { result ≡ be16_at at bytes.now }
{
    bytes[at] as u16 * 0x100 + bytes[at + 1] as u16
}

#[tactic(auto, unfolding(mig_stream::specs::Fields::be32_at))]
pub(crate) fn be32(bytes: &[u8], at: usize) -> u32
    requires { at + 4 ≤ length bytes.now }
    ensures { result ≡ be32_at at bytes.now }
{
    let part = &bytes[at..at + 4];
    u32::from_be_bytes([part[0], part[1], part[2], part[3]])
}

#[tactic(auto, unfolding(mig_stream::specs::Fields::be64_at))]
pub(crate) fn be64(bytes: &[u8], at: usize) -> u64
    requires { at + 8 ≤ length bytes.now }
    ensures { result ≡ be64_at at bytes.now }
{
    let part = &bytes[at..at + 8];
    u64::from_be_bytes([
        part[0], part[1], part[2], part[3], part[4], part[5], part[6], part[7],
    ])
}
