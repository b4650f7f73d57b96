//! Laws of the definitions alone, each the clause of a function that does nothing.

ghost use Rattle.mig_c_mapped.specs.Law.{HeadsAreTaken, FileIsRead};

/// A load of a file that takes each head from where it lies in the file has the blocks of the
/// file's reading.
pub fn taken_heads_are_the_files()
    ensures { HeadsAreTaken }
{}

/// Once a load has taken all heads of a file that has all pages, the file's reading has no fault,
/// and the blocks of the load. So the pages that `run` reports, read from the file, and zeros for
/// the others are the memory that the file stands for.
pub fn taken_file_is_read()
    ensures { FileIsRead }
{}
