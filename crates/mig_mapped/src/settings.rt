//! What a caller passes to a reader of a file with mapped-ram, since the file doesn't have it.

/// The order of the eight bytes of a bitmap's word: that of the host that wrote the file, which the
/// file doesn't name.
#[derive(Clone, Copy, Debug, PartialEq, Eq)]
pub enum WordOrder {
    /// The lowest byte first, as on x86, Arm and RISC-V.
    Little,
    /// The highest byte first, as on s390x.
    Big,
}

/// The settings of a reader of a file with mapped-ram.
#[derive(Clone, Copy, Debug, PartialEq, Eq)]
pub struct MappedSettings {
    /// The number of bytes of a page.
    pub page_size: u64,
    /// The order of the bytes of a bitmap's word.
    pub order: WordOrder,
}
