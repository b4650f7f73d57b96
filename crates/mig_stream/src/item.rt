//! The items that a stream is read by, as plain names, for the definitions and for `items`,
//! `progress` and `reader`. `specs/` has the format of each.

use crate::StreamFault;
use mig_mem::Place;

/// Which kind of stream bytes are.
#[derive(Clone, Copy, Debug, PartialEq, Eq)]
pub enum Mode {
    /// All pages are in this stream; each section is a round.
    Single,
    /// The main stream of multifd: a round ends with each FLUSH, and its other pages are on the
    /// channels.
    Main,
    /// The main stream of multifd as QEMU writes it with `multifd-flush-after-each-section`, which
    /// machine types of 8.0 and older have: a round ends with each EOS too, before the footer of
    /// its section.
    MainBySection,
    /// The main stream of multifd, which shows by its first FLUSH or EOS what ends a round. With a
    /// FLUSH in START it is as `Main`. Otherwise START's EOS ends the first round. If a FLUSH is
    /// the first record after START, as the senders of this project write it, it only shows that
    /// FLUSHes end the rounds from there on. If the first one is a page record or an EOS, the
    /// stream is as `MainBySection`.
    MainAsShown,
}

/// The sections that a stream has in addition to RAM's.
#[derive(Clone, Copy, Debug, PartialEq, Eq)]
pub enum Frame {
    /// None: the stream is RAM's sections between the file header and the end byte.
    Ram,
    /// Those of a machine's stream, as QEMU writes it (`migration/savevm.c`). COMMANDs and the
    /// configuration's subsections are checked and passed over. Before RAM's first PART so is the
    /// section of a virtio-mem with its early state. The capability `x-ignore-shared` and a COMMAND
    /// that allows postcopy of RAM add to the entries of the size list what is passed over, too. A
    /// capability or a COMMAND with which RAM's sections aren't read is a fault. The stream is
    /// closed by the footer of RAM's END, and the bytes after it, the devices' sections, are left
    /// to the caller.
    ///
    /// A background snapshot has no END. So a single stream with at least one PART is closed, too,
    /// where the type byte of a device's section stands in place of a PART's or END's
    /// (`QEMU_VM_SECTION_FULL`). That byte is left to the caller with those after it.
    ///
    /// A COMMAND has up to 65,539 bytes after its type byte. If pieces cut it, a reader keeps the
    /// bytes so far.
    Machine,
}

/// The state of a stream.
#[derive(Clone, Copy, Debug, PartialEq, Eq)]
pub enum StreamState {
    /// More bytes are needed.
    Reading,
    /// The end byte was read, or in a machine's stream the footer of RAM's END; or a background
    /// snapshot has come to its first device's section.
    Closed,
    /// The stream has a fault.
    Bad(StreamFault),
}

/// The kinds of a section: `QEMU_VM_SECTION_START`, `QEMU_VM_SECTION_PART` and
/// `QEMU_VM_SECTION_END`.
#[derive(Clone, Copy)]
pub enum Section {
    Start,
    Part,
    End,
}

/// The item before a type byte.
#[derive(Clone, Copy)]
pub enum Before {
    FileHeader,
    /// The configuration, or a subsection of it.
    Configuration,
    /// A COMMAND or a device's section before START.
    Command,
    /// The footer of START or of a PART.
    Footer,
    /// The footer of END.
    LastFooter,
}

/// How a page record holds its page: as a zero record, or with its bytes.
#[derive(Clone, Copy)]
pub enum Filling {
    /// `RAM_SAVE_FLAG_ZERO`.
    Zero,
    /// `RAM_SAVE_FLAG_PAGE`.
    Normal,
}

/// The kinds of a record, which its flags name.
#[derive(Clone, Copy)]
pub enum RecordKind {
    /// `RAM_SAVE_FLAG_MEM_SIZE`.
    SizeList,
    /// A page record with its block's id.
    Named(Filling),
    /// A page record without it: `RAM_SAVE_FLAG_CONTINUE`.
    Continued(Filling),
    /// `RAM_SAVE_FLAG_EOS`.
    EndOfSection,
    /// `RAM_SAVE_FLAG_MULTIFD_FLUSH`.
    Flush,
}

/// The subsections of the configuration that are passed over (`vmstate_configuration` in
/// `migration/savevm.c`).
#[derive(Clone, Copy)]
pub enum Subsection {
    /// `configuration/target-page-bits`.
    PageBits,
    /// `configuration/uuid`.
    Uuid,
    /// `configuration/capabilities`.
    Capabilities,
}

/// What follows the length of a block in an entry of the size list (`ram_save_setup` in
/// `migration/ram.c`).
#[derive(Clone, Copy, Debug, PartialEq, Eq)]
pub enum EntryForm {
    /// Nothing.
    Plain,
    /// The guest address of the block: the configuration names the capability `x-ignore-shared`.
    Addressed,
    /// The page size of the block, unless it is the host's: a COMMAND before START allows postcopy
    /// of RAM.
    Sized,
}

/// The parts of a device's section that QEMU writes whole before RAM's pages, after its type byte:
/// what virtio-mem says of its memory (`vmstate_virtio_mem_device_early` in
/// `hw/virtio/virtio-mem.c`).
#[derive(Clone, Copy)]
pub enum EarlyPart {
    /// The section's id, name, instance and version.
    Head,
    /// The address and the size of its region, the size of its blocks, its node, and how many bytes
    /// are plugged. The value is the section's id.
    Numbers(u32),
    /// 64 bits, one for each block: whether it is plugged. The values are the section's id, and how
    /// many such words follow.
    Plugged(u32, u64),
    /// The footer. The value is the section's id.
    Footer(u32),
}

/// An item of a machine's stream that is checked and passed over, since it has nothing on pages.
#[derive(Clone, Copy)]
pub enum PassedItem {
    /// A COMMAND after its type byte, and what the next type byte follows.
    Command(Before),
    /// The name and the version of a subsection, after its type byte.
    SubsectionHead,
    /// The content of a subsection; for capabilities only their number.
    SubsectionBody(Subsection),
    /// The name of a capability, and the number of others after it.
    Capability(u32),
    /// The guest address of a block, after its entry, and whether that is the last entry.
    Address(bool),
    /// A part of virtio-mem's early state, and what the next type byte follows.
    Early(Before, EarlyPart),
}

/// The next item of a stream.
#[derive(Clone, Copy)]
pub enum Due {
    /// The magic and the version.
    FileHeader,
    TypeByte(Before),
    ConfigLength,
    /// The configuration's name, with its length in bytes.
    ConfigName(u32),
    /// START's head after its type byte.
    StartHead,
    /// A PART's or END's head after its type byte.
    SectionHead,
    RecordHead,
    /// An entry of the size list.
    ListEntry,
    /// The page size of a block, after its entry, and whether that is the last entry. If it isn't
    /// there, the item is the one after it: a record's head, or another entry.
    PageSize(bool),
    /// The length byte and the id of a page record, of a page with this number in its block.
    BlockName(Filling, u64),
    /// The content in a page record, for the page at this place.
    Content(Filling, Place),
    Footer,
    /// An item of a machine's stream that is passed over.
    Passed(PassedItem),
    /// None: the stream was closed.
    Nothing,
}
