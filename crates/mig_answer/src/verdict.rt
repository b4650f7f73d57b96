//! The verdict on a load on several channels, on the bytes so far: the result of
//! `Session::verdict`.

use mig_load_types::LoadFault;

/// The verdict on a load on several channels, on the bytes so far.
#[derive(Clone, Copy, Debug, PartialEq, Eq)]
pub enum Verdict {
    /// More bytes of a source are needed.
    Running,
    /// All sources ended after the same number of rounds. The memory holds them.
    Done,
    /// The fault of the first round that doesn't pass, or `NoMemory`, with the number of rounds
    /// before it.
    Failed(LoadFault),
}
