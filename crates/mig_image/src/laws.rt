//! Laws of the definitions alone: that a memory's file stands for the memory, whatever code writes
//! and reads it.
//!
//! Each law is the clause of a function that does nothing. So it is proved with the crate, and a
//! caller who calls the function may use it.

ghost use Rattle.mig_image.specs.File.{ImageIsReadBack, FileIsWrittenBack};

/// The bytes that [`put_image`](crate::put_image) writes of a memory are read by
/// [`memory_of`](crate::memory_of) as that memory.
pub fn image_is_read_back()
    ensures { ImageIsReadBack }
{}

/// A memory that [`memory_of`](crate::memory_of) read of some bytes is written as these bytes. So
/// no two files are read as one memory.
pub fn file_is_written_back()
    ensures { FileIsWrittenBack }
{}
