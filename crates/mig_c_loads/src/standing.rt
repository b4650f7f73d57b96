//! What C reads of a load: what a piece came to, how the load stands, and how much it has of a
//! source.

ghost use Rattle.std.specs.Prelude.{◌≡◌};
ghost use Rattle.mig_c_loads.specs.Standing.{flag};

/// What a call that feeds came to.
#[repr(C)]
#[derive(Clone, Copy)]
pub struct Fed {
    /// How many bytes of the piece were taken.
    pub taken: usize,
    /// How many rounds of several channels, or sections of one stream, the load has counted now.
    pub rounds: u64,
}

/// How a load stands.
#[repr(C)]
#[derive(Clone, Copy)]
pub struct Standing {
    /// How many rounds of several channels were found lawful, or how many sections of one stream
    /// are complete.
    pub rounds: u64,
    /// How many pages of the blocks nothing named.
    pub missing: u64,
    /// How many pages are claimed.
    pub claimed: u64,
    /// 1 if all rounds are in, else 0.
    pub has_all_rounds: u64,
    /// 1 if the main stream is closed, else 0.
    pub is_closed: u64,
    /// How many of the bytes taken the main stream has, if it is closed, else 0.
    pub closed_at: u64,
    /// Zeros, as room for what may come.
    pub reserved: [u64; 4],
}

/// How much a load has of a source.
#[repr(C)]
#[derive(Clone, Copy)]
pub struct SourceBytes {
    /// How many bytes were taken.
    pub fed: u64,
    /// 1 if it is known how many of them are complete items without a fault, else 0.
    pub is_known: u64,
    /// How many of them are complete items without a fault, if it is known, else 0.
    pub valid_up_to: u64,
    /// Zeros, as room for what may come.
    pub reserved: [u64; 4],
}

/// Returns what C reads of an answer: 1 or 0.
pub(crate) fn flag(told: bool) -> u64
    ensures { result ≡ flag told }
{
    if told { 1 } else { 0 }
}
