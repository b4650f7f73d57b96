//! What C passes to a load beside its streams.

ghost use Rattle.std.specs.Prelude.{◌≡◌};
ghost use Rattle.mig_c_loads.specs.Frames.{waiting_of};

/// The settings of a load. All zeros are those of a stream of RAM's sections alone, whose rounds
/// end with FLUSH, with no limit on the page records that wait, into blocks that hold anything,
/// with each page as it comes.
#[repr(C)]
#[derive(Clone, Copy)]
pub struct AskedSettings {
    /// What the stream is read as, by its number.
    pub frame: u32,
    /// What ends a round of a main stream, by its number. A single stream doesn't use it.
    pub round_end: u32,
    /// The most page records of a section, or of a round of a main stream; 0 sets no limit.
    pub waiting: u64,
    /// Whether the blocks of C hold zeros when the load begins: not if it is 0.
    pub zero_blocks: u64,
    /// Whether the blocks of C get whole rounds alone, of several channels: not if it is 0.
    pub whole_rounds: u64,
    /// Zeros, as room for what may come.
    pub reserved: [u64; 4],
}

/// Returns the limit on the page records that wait, if C sets one.
pub fn waiting_of(count: u64) -> Option<u64>
    ensures { result ≡ waiting_of count }
{
    if count == 0 {
        return None;
    }
    Some(count)
}
