//! Laws of the memory that a stream leaves in what takes its pages.
//!
//! Each law is the clause of a function that does nothing. So it is proved with the crate, and a
//! caller who calls the function may use it.

ghost use Rattle.zimgasol_reading.specs.Recorded.{RecordsMakeTheRounds, StreamsOverZerosMakeLoads};

/// The records of a stream, written in their order, make the memory of its rounds, whatever was
/// there before. So a sink that writes each page as it takes it has that memory after a closed
/// stream (`Survey::read`).
pub fn records_make_the_rounds()
    ensures { RecordsMakeTheRounds }
{}

/// Over zeros the rounds of a stream make the memory of a load: `after` of these rounds.
pub fn streams_over_zeros_make_loads()
    ensures { StreamsOverZerosMakeLoads }
{}
