//! The tool's own faults: of its arguments, its input and its files. `print` prints them.

use thiserror::Error;

/// A fault of the tool's own. Its message is the line that is printed.
#[derive(Clone, Copy, Debug, Drop, Error)]
pub enum ToolFault {
    /// `--batch` is more than a packet of this page size holds.
    #[error("fault 62")]
    Batch,
    /// An input hadn't ended after 65,536 reads.
    #[error("fault 71")]
    TooManyReads,
    /// The length of a memory's file isn't the sum of the scenario's blocks.
    #[error("fault 85")]
    ImageLen,
    /// The UUID has none of the forms of one.
    #[error("fault 86")]
    Uuid,
    /// The streams were to be loaded as they are read, but there are no channels.
    #[error("fault 87")]
    Feed,
    /// The command line isn't one of the tool's.
    #[error("fault 88")]
    Words,
    /// The input or a file can't be read.
    #[error("fault 90")]
    Unread,
    /// A file can't be written.
    #[error("fault 91")]
    Unwritten,
}
