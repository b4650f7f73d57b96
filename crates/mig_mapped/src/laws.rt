//! Laws of the definitions alone, each the clause of a function that does nothing.

ghost use Rattle.mig_mapped.specs.Law.{HasOneMappedReading, FaultlessIsMemory};
ghost use Rattle.mig_mapped.specs.Load.{LoadedIsMemory};

/// A file has exactly one reading: its blocks, and its first fault if it has one.
pub fn file_has_one_reading()
    ensures { HasOneMappedReading }
{}

/// A file without a fault stands for a memory of a lawful table.
pub fn faultless_file_is_a_memory()
    ensures { FaultlessIsMemory }
{}

/// A load that ends with all blocks of the memory's table has read a file without a fault, and the
/// memory is the one that the file stands for.
pub fn loaded_is_the_memory()
    ensures { LoadedIsMemory }
{}
