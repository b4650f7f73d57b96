//! The sources of a load, as C names them.

ghost use Rattle.std.specs.Prelude.{◌≡◌};
ghost use Rattle.mig_c_loads.specs.Frames.{source_of};

use mig_sources::Source;

/// Returns the source with this number: 0 is the main stream, 1 + j is channel j.
pub fn source_of(number: usize) -> Source
    ensures { result ≡ source_of number }
{
    if number == 0 {
        return Source::Main;
    }
    Source::Channel(number - 1)
}
