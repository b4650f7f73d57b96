//! The law of a memory that marks its pages.

ghost use Rattle.mig_marking.specs.Marking.{WrittenIsSeen};

/// Whatever wrote into the memory, its image says which pages it wrote. Where a load's contract
/// gives the image after some pages, the memory has these pages, and they are marked, besides those
/// that were marked before. No other page is.
pub fn written_is_seen()
    ensures { WrittenIsSeen }
{}
