//! A law of the definitions alone, the clause of a function that does nothing.

ghost use Rattle.zimgasol_mapped.specs.Law.{PlainLoadsTheMemory, WrittenIsOfThisKind};

/// The plain stream of a file without a fault is a machine's stream. Loading it gives the memory
/// that the file stands for, if no page records follow the last block's pages. So it is with the
/// front and the end that `mig_mapped` writes for a machine without devices.
pub fn plain_stream_loads_the_memory()
    ensures memory { PlainLoadsTheMemory }
    ensures written { WrittenIsOfThisKind }
{}
