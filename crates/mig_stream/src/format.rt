//! The numbers of QEMU's migration stream, by their names there. `specs/Format` has them for
//! contracts, which relate the two.

/// The first four bytes of a stream, "QEVM" (`migration/savevm.h`).
pub(crate) const QEMU_VM_FILE_MAGIC: u32 = 0x5145_564D;

pub(crate) const QEMU_VM_FILE_VERSION: u32 = 3;

// ---- type bytes (`migration/savevm.h`)

/// The end byte.
pub(crate) const QEMU_VM_EOF: u8 = 0x00;

pub(crate) const QEMU_VM_SECTION_START: u8 = 0x01;

pub(crate) const QEMU_VM_SECTION_PART: u8 = 0x02;

pub(crate) const QEMU_VM_SECTION_END: u8 = 0x03;

pub(crate) const QEMU_VM_SECTION_FULL: u8 = 0x04;

pub(crate) const QEMU_VM_SUBSECTION: u8 = 0x05;

pub(crate) const QEMU_VM_CONFIGURATION: u8 = 0x07;

pub(crate) const QEMU_VM_COMMAND: u8 = 0x08;

pub(crate) const QEMU_VM_SECTION_FOOTER: u8 = 0x7E;

// ---- subsections of the configuration (`vmstate_configuration` in `migration/savevm.c`)

pub(crate) const PAGE_BITS_NAME: &[u8] = b"configuration/target-page-bits";

pub(crate) const UUID_NAME: &[u8] = b"configuration/uuid";

pub(crate) const CAPABILITIES_NAME: &[u8] = b"configuration/capabilities";

pub(crate) const SUBSECTION_VERSION: u32 = 1;

// ---- capabilities that change the layout of RAM's section, the only ones that QEMU writes
// (`should_validate_capability`)

/// Each entry of the size list has its block's guest address.
pub(crate) const IGNORE_SHARED: &[u8] = b"x-ignore-shared";

/// Pages are at fixed places of a file.
pub(crate) const MAPPED_RAM: &[u8] = b"mapped-ram";

// ---- COMMANDs that are passed over (`enum qemu_vm_cmd` in `migration/savevm.c`)

pub(crate) const MIG_CMD_OPEN_RETURN_PATH: u16 = 1;

pub(crate) const MIG_CMD_PING: u16 = 2;

pub(crate) const MIG_CMD_POSTCOPY_ADVISE: u16 = 3;

/// How many bytes of data it has if it allows postcopy of RAM.
pub(crate) const POSTCOPY_ADVISE_LEN: u16 = 16;

pub(crate) const MIG_CMD_ENABLE_COLO: u16 = 8;

pub(crate) const MIG_CMD_SWITCHOVER_START: u16 = 11;

// ---- a device's section before RAM's pages (`vmstate_virtio_mem_device_early` in
// `hw/virtio/virtio-mem.c`)

/// How its name ends, after the path of the device.
pub(crate) const EARLY_NAME: &[u8] = b"/virtio-mem-device-early";

pub(crate) const EARLY_VERSION: u32 = 1;

// ---- RAM's section (`ram_mig_init` in `migration/ram.c`)

pub(crate) const RAM_SECTION_NAME: &[u8] = b"ram";

pub(crate) const RAM_INSTANCE: u32 = 0;

pub(crate) const RAM_VERSION: u32 = 4;

// ---- flags of a record's head (`migration/ram.c`, in newer versions `ram.h`)

pub(crate) const RAM_SAVE_FLAG_ZERO: u16 = 0x002;

pub(crate) const RAM_SAVE_FLAG_MEM_SIZE: u16 = 0x004;

pub(crate) const RAM_SAVE_FLAG_PAGE: u16 = 0x008;

pub(crate) const RAM_SAVE_FLAG_EOS: u16 = 0x010;

/// The block is the one that the last page record named.
pub(crate) const RAM_SAVE_FLAG_CONTINUE: u16 = 0x020;

pub(crate) const RAM_SAVE_FLAG_MULTIFD_FLUSH: u16 = 0x200;

/// Zeros, and a page, of the block named last.
pub(crate) const CONTINUED_ZERO: u16 = 0x022;

pub(crate) const CONTINUED_PAGE: u16 = 0x028;

// ---- a limit of this project

/// The most bytes of the name in a configuration.
pub(crate) const MAX_NAME_LEN: u32 = 1024;

const _: () = prove!(
    CONTINUED_ZERO == RAM_SAVE_FLAG_ZERO + RAM_SAVE_FLAG_CONTINUE
        && CONTINUED_PAGE == RAM_SAVE_FLAG_PAGE + RAM_SAVE_FLAG_CONTINUE
);
