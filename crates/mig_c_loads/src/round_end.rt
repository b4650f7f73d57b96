//! What ends a round of a main stream, by its number for C.

ghost use Rattle.std.specs.Prelude.{◌≡◌};
ghost use Rattle.mig_c_loads.specs.Frames.{round_end_of};

use mig_load_types::RoundEnd;

/// Each FLUSH.
pub(crate) const BY_FLUSH: u32 = 0;

/// Each EOS.
pub(crate) const BY_EOS: u32 = 1;

/// As the stream shows.
pub(crate) const AS_SHOWN: u32 = 2;

/// Returns the end of rounds with this number, if there is one.
pub fn round_end_of(number: u32) -> Option<RoundEnd>
    ensures { result ≡ round_end_of number }
{
    match number {
        BY_FLUSH => Some(RoundEnd::Flush),
        BY_EOS => Some(RoundEnd::Eos),
        AS_SHOWN => Some(RoundEnd::AsShown),
        _ => None,
    }
}
