//! The front of a file with mapped-ram: what comes before the first entry of the size list. It is
//! that of a plain stream, but for the capability `mapped-ram` in the configuration.

ghost use Rattle.std.specs.Prelude.{ℕ, ◌≡◌, ◌+◌, ◌-◌, ◌<◌, ◌≤◌, ◌^◌, ◌++◌, ◌≢◌, length, take, drop, slice_index, slice_range, true, false, List, [], ◌∷◌, Some, IfOk, IfSome, IfNone};
ghost use Rattle.mig_mem.specs.RamTable.{RamTable};
ghost use Rattle.mig_stream.specs.Fields.{be32, counted};
ghost use Rattle.mig_stream.specs.Format.{most_name_bytes, subsection_type, mapped_ram};
ghost use Rattle.mig_stream.specs.Items.{is_passed_command};
ghost use Rattle.mig_stream.specs.Machine.{Command, command, IsCommand, SubsectionBody, Capabilities, subsection};
ghost use Rattle.mig_mapped.specs.declared.front.MappedFront.{MappedFront};
ghost use Rattle.mig_mapped.specs.Front.{Front, IsOther, IsTotal, IsFront, BeginsWith, HasFront, AddsCapability, HasNoPlace, mapped_front, plain_front as plain_bytes, alone, end_bytes as end_of};
ghost use Rattle.mig_mapped.specs.FrontParts.{Begins, BeginsWithNone, BeginsWithAll, machine_bytes, IsMachine, Start, started, IsStart, HasTotal, LiesIn, names_at, HasNames, HasNoNames, HasCapabilities, HasNoCapabilities};

use crate::fields::{be16, be32, be64};
use mig_mem::NoMemory;
use std::alloc::Allocator;

// The file header, QEMU_VM_FILE_MAGIC and QEMU_VM_FILE_VERSION, and the type byte of a
// configuration, QEMU_VM_CONFIGURATION.
const CONFIGURATION_HEAD: &[u8] = b"QEVM\x00\x00\x00\x03\x07";

// QEMU_VM_SUBSECTION
const SUBSECTION: u8 = 0x05;

// The heads of subsections: QEMU_VM_SUBSECTION, the name after its length, and the version 1.
const PAGE_BITS_HEAD: &[u8] = b"\x05\x1econfiguration/target-page-bits\x00\x00\x00\x01";

const UUID_HEAD: &[u8] = b"\x05\x12configuration/uuid\x00\x00\x00\x01";

const CAPABILITIES_HEAD: &[u8] = b"\x05\x1aconfiguration/capabilities\x00\x00\x00\x01";

// The number of bytes of a subsection of page bits or of a UUID.
const OTHER_LEN: usize = 40;

// The place of the number of capabilities in their subsection, and that of the first name.
const COUNT_AT: usize = 32;

const NAMES_AT: usize = 36;

// The capability; the same after its length; and one capability, which is it.
const MAPPED_RAM: &[u8] = b"mapped-ram";

const COUNTED_MAPPED_RAM: &[u8] = b"\x0amapped-ram";

const ONE_MAPPED_RAM: &[u8] = b"\x00\x00\x00\x01\x0amapped-ram";

// The number of bytes of the capability after its length.
const NAME_LEN: usize = 11;

// QEMU_VM_COMMAND
const COMMAND: u8 = 0x08;

// QEMU_VM_SECTION_START
const START: u8 = 0x01;

// START's name "ram" after its length, instance 0 and version 4: what follows the section's id.
const RAM_HEAD: &[u8] = b"\x03ram\x00\x00\x00\x00\x00\x00\x00\x04";

// START's head with the section id that a writer writes.
const WRITTEN_START: &[u8] = b"\x01\x00\x00\x00\x01\x03ram\x00\x00\x00\x00\x00\x00\x00\x04";

// The number of bytes of START's head and the total.
const START_LEN: usize = 25;

// RAM_SAVE_FLAG_MEM_SIZE, and the number below which the flags of a record's head are.
const MEM_SIZE: u64 = 0x004;

const LEAST_PAGE_SIZE: u64 = 0x1000;

// The most bytes that the blocks of a guest have together.
const MAX_TOTAL: u64 = 1 << 40;

// The place of the machine's name, and the most bytes that it has.
const MACHINE_AT: usize = 13;

const MAX_NAME_LEN: usize = 1024;

/// Where the parts of a file's front are, as offsets in the stream. The front is what comes before
/// the first entry of the size list.
#[derive(Clone, Copy, Debug, PartialEq, Eq)]
pub struct MappedFront {
    /// The offset of the first entry, which is the length of the front.
    pub place: usize,
    /// The number of bytes that the entries' blocks have together.
    pub total: u64,
    /// The offset of the subsection with the capabilities, at its type byte.
    pub subsection: usize,
    /// The offset of the number of capabilities.
    pub count: usize,
    /// The number of capabilities, at least 1.
    pub capabilities: u32,
    /// The offset of the length byte before the name `mapped-ram`.
    pub name: usize,
}

// The subsection with the capabilities: the number of its bytes, the number of capabilities, and
// the place of `mapped-ram` in it.
#[derive(Clone, Copy)]
struct NameList {
    len: usize,
    count: u32,
    mapped: Option<usize>,
}

/// Finds the front of a file whose configuration names `mapped-ram`. Returns None if `bytes` don't
/// begin with one, or end inside it.
pub fn front_in(bytes: &[u8]) -> Option<MappedFront>
    ensures found { IfSome result (λ front. HasFront bytes.now front) }
    ensures all { (front : MappedFront) → HasFront bytes.now front → result ≡ Some front }
{
    let before = machine_end(bytes)?;
    let subsection = before + others_len(&bytes[before..]);
    let capabilities = capabilities_in(&bytes[subsection..])?;
    let mapped = capabilities.mapped?;
    let after = subsection + capabilities.len;
    let commands = after + others_len(&bytes[after..]);
    let start = commands + commands_len(&bytes[commands..]);
    let total = total_in(&bytes[start..])?;
    Some(MappedFront {
        place: start + START_LEN,
        total,
        subsection,
        count: subsection + COUNT_AT,
        capabilities: capabilities.count,
        name: subsection + mapped,
    })
}

// Returns whether `bytes` begin with `front`.
fn begins(bytes: &[u8], front: &[u8]) -> bool
    ensures found { result ≡ true → bytes.now ≡ front.now ++ drop (length front.now) bytes.now }
    ensures all { (rest : List ℕ) → bytes.now ≡ front.now ++ rest → result ≡ true }
{
    bytes.starts_with(front)
}

// Returns the place after the machine's name in the configuration, which follows the file header.
fn machine_end(bytes: &[u8]) -> Option<usize>
    ensures found { IfSome result (λ n. Begins (List ℕ) machine_bytes IsMachine bytes.now n) }
    ensures none { IfNone result (BeginsWithNone (List ℕ) machine_bytes IsMachine bytes.now) }
{
    if bytes.len() < MACHINE_AT || !begins(bytes, CONFIGURATION_HEAD) {
        return None;
    }
    let len = be32(bytes, 9) as usize;
    if len > MAX_NAME_LEN || bytes.len() - MACHINE_AT < len {
        return None;
    }
    Some(MACHINE_AT + len)
}

// Returns the number of bytes of the subsections at the front of `bytes`, up to the first one that
// has capabilities.
fn others_len(bytes: &[u8]) -> usize
    ensures { BeginsWithAll SubsectionBody subsection IsOther bytes.now result }
{
    let mut len = 0;
    while is_other(&bytes[len..]) {
        len += OTHER_LEN;
    }
    len
}

// Returns whether a subsection of page bits or of a UUID is at the front of `bytes`.
fn is_other(bytes: &[u8]) -> bool
    ensures found { result ≡ true → Begins SubsectionBody subsection IsOther bytes.now 40 }
    ensures none { result ≡ false → BeginsWithNone SubsectionBody subsection IsOther bytes.now }
{
    bytes.len() >= OTHER_LEN && (begins(bytes, PAGE_BITS_HEAD) || begins(bytes, UUID_HEAD))
}

// Finds the subsection with the capabilities at the front of `bytes`.
fn capabilities_in(bytes: &[u8]) -> Option<NameList>
    ensures found { IfSome result (λ found. HasCapabilities bytes.now found) }
    ensures none { IfNone result (HasNoCapabilities bytes.now) }
{
    if bytes.len() < NAMES_AT || !begins(bytes, CAPABILITIES_HEAD) {
        return None;
    }
    names_in(&bytes[NAMES_AT..], be32(bytes, COUNT_AT))
}

// Finds `count` names at the front of `bytes`, of which at most one is `mapped-ram`. Places are
// those in the subsection.
fn names_in(bytes: &[u8], count: u32) -> Option<NameList>
    ensures found { IfSome result (λ found. HasNames count bytes.now found) }
    ensures none { IfNone result (HasNoNames count bytes.now) }
{
    let mut len = 0;
    let mut mapped = None;
    for _ in 0..count {
        let name = name_in(&bytes[len..])?;
        if name == MAPPED_RAM {
            if mapped.is_some() {
                return None;
            }
            mapped = Some(NAMES_AT + len);
        }
        len += 1 + name.len();
    }
    Some(NameList {
        len: NAMES_AT + len,
        count,
        mapped,
    })
}

// Returns the name at the front of `bytes`, after its length.
fn name_in(bytes: &[u8]) -> Option<&[u8]>
    ensures found { IfSome result (λ name. bytes.now ≡ counted name.now ++ drop (1 + length name.now) bytes.now) }
    ensures short { IfSome result (λ name. length name.now < 2 ^ 8) }
    ensures none { IfNone result ((name : List ℕ) (rest : List ℕ) → bytes.now ≡ counted name ++ rest → ⊥) }
{
    let len = *bytes.first()? as usize;
    if bytes.len() - 1 < len {
        return None;
    }
    Some(&bytes[1..1 + len])
}

// Returns the number of bytes of the COMMANDs at the front of `bytes`.
fn commands_len(bytes: &[u8]) -> usize
    ensures { BeginsWithAll Command command IsCommand bytes.now result }
{
    let mut len = 0;
    while let Some(command) = command_len(&bytes[len..]) {
        len += command;
    }
    len
}

// Returns the number of bytes of the COMMAND at the front of `bytes`, if it is passed over.
fn command_len(bytes: &[u8]) -> Option<usize>
    ensures found { IfSome result (λ n. Begins Command command IsCommand bytes.now n) }
    ensures none { IfNone result (BeginsWithNone Command command IsCommand bytes.now) }
{
    if bytes.len() < 5 || bytes[0] != COMMAND || !is_passed(be16(bytes, 1)) {
        return None;
    }
    let len = be16(bytes, 3) as usize;
    if bytes.len() - 5 < len {
        return None;
    }
    Some(5 + len)
}

// Returns whether a COMMAND with this number is passed over: MIG_CMD_OPEN_RETURN_PATH,
// MIG_CMD_PING, MIG_CMD_POSTCOPY_ADVISE, MIG_CMD_ENABLE_COLO and MIG_CMD_SWITCHOVER_START.
fn is_passed(number: u16) -> bool
    ensures { result ≡ is_passed_command number }
{
    match number {
        1 | 2 | 3 | 8 | 11 => true,
        _ => false,
    }
}

// Returns the total in RAM's START at the front of `bytes`.
fn total_in(bytes: &[u8]) -> Option<u64>
    ensures found { IfSome result (λ total. HasTotal bytes.now total) }
    ensures none { IfNone result (BeginsWithNone Start started IsStart bytes.now) }
{
    if bytes.len() < START_LEN || bytes[0] != START || !begins(&bytes[5..], RAM_HEAD) {
        return None;
    }
    let head = be64(bytes, 17);
    let total = head / LEAST_PAGE_SIZE * LEAST_PAGE_SIZE;
    if head % LEAST_PAGE_SIZE != MEM_SIZE || total == 0 || total > MAX_TOTAL {
        return None;
    }
    Some(total)
}

/// Copies the front without the capability: the front of a plain stream of the same guest. If it is
/// the only capability the whole subsection isn't copied.
///
/// # Errors
///
/// `NoMemory`: an allocation was refused.
pub fn plain_front<A: Allocator>(
    alloc: A,
    bytes: &[u8],
    front: MappedFront,
) -> Result<Vec<u8, A>, NoMemory>
    requires { HasFront bytes.now front }
    ensures { IfOk result (λ v. (f : Front) → BeginsWith f bytes.now front → v.items ≡ plain_bytes f) }
{
    if front.capabilities == 1 {
        return without_list(alloc, bytes, front);
    }
    without_name(alloc, bytes, front)
}

// Copies the front without the subsection with the capabilities.
fn without_list<A: Allocator>(
    alloc: A,
    bytes: &[u8],
    front: MappedFront,
) -> Result<Vec<u8, A>, NoMemory>
    requires { LiesIn bytes.now front }
    ensures { IfOk result (λ v. v.items ≡ take front.subsection bytes.now ++ slice_range bytes.now (front.name + 11) front.place) }
{
    let mut plain = Vec::new(alloc);
    plain.extend_from_slice(&bytes[..front.subsection])?;
    plain.extend_from_slice(&bytes[front.name + NAME_LEN..front.place])?;
    Ok(plain)
}

// Copies the front without the name.
fn without_name<A: Allocator>(
    alloc: A,
    bytes: &[u8],
    front: MappedFront,
) -> Result<Vec<u8, A>, NoMemory>
    requires { LiesIn bytes.now front }
    ensures { IfOk result (λ v. v.items ≡ take front.count bytes.now ++ be32 (front.capabilities - 1) ++ slice_range bytes.now (front.count + 4) front.name ++ slice_range bytes.now (front.name + 11) front.place) }
{
    let mut plain = Vec::new(alloc);
    plain.extend_from_slice(&bytes[..front.count])?;
    plain.extend_from_slice(&(front.capabilities - 1).to_be_bytes())?;
    plain.extend_from_slice(&bytes[front.count + 4..front.name])?;
    plain.extend_from_slice(&bytes[front.name + NAME_LEN..front.place])?;
    Ok(plain)
}

/// Copies the beginning of a machine's plain stream with the capability added. `bytes` go up to the
/// end of the configuration or further. Returns None if they don't begin with a complete
/// configuration, or if it names `mapped-ram` already.
///
/// # Errors
///
/// `NoMemory`: an allocation was refused.
pub fn with_mapped_ram<A: Allocator>(alloc: A, bytes: &[u8]) -> Result<Option<Vec<u8, A>>, NoMemory>
    ensures added { IfOk result (λ r. IfSome r (λ v. AddsCapability bytes.now v.items)) }
    ensures none { IfOk result (λ r. IfNone r (HasNoPlace bytes.now)) }
{
    let Some(before) = machine_end(bytes) else {
        return Ok(None);
    };
    let subsection = before + others_len(&bytes[before..]);
    let Some(list) = capabilities_in(&bytes[subsection..]) else {
        if is_subsection(&bytes[subsection..]) {
            return Ok(None);
        }
        return Ok(Some(with_subsection(alloc, bytes, subsection)?));
    };
    let end = subsection + list.len;
    let after = end + others_len(&bytes[end..]);
    if is_subsection(&bytes[after..]) || list.mapped.is_some() || list.count == u32::MAX {
        return Ok(None);
    }
    Ok(Some(with_name(alloc, bytes, subsection, end, list.count + 1)?))
}

// Returns whether a subsection of any content begins at the front of `bytes`, complete or not.
fn is_subsection(bytes: &[u8]) -> bool
    ensures found { result ≡ true → slice_index bytes.now 0 ≡ subsection_type }
    ensures none { result ≡ false → slice_index bytes.now 0 ≢ subsection_type }
{
    !bytes.is_empty() && bytes[0] == SUBSECTION
}

// Copies `bytes` with a subsection of the one capability at `end`.
#[tactic(auto, unfolding(mig_stream::specs::Format::subsection_name, mig_stream::specs::Format::mapped_ram))]
fn with_subsection<A: Allocator>(alloc: A, bytes: &[u8], end: usize) -> Result<Vec<u8, A>, NoMemory>
    requires { end ≤ length bytes.now }
    ensures { IfOk result (λ v. v.items ≡ take end bytes.now ++ subsection (Capabilities (mapped_ram ∷ [])) ++ drop end bytes.now) }
{
    let mut mapped = Vec::new(alloc);
    mapped.extend_from_slice(&bytes[..end])?;
    mapped.extend_from_slice(CAPABILITIES_HEAD)?;
    mapped.extend_from_slice(ONE_MAPPED_RAM)?;
    mapped.extend_from_slice(&bytes[end..])?;
    Ok(mapped)
}

// Copies `bytes` with the name at `end`. The subsection with the capabilities is at `at`, and gets
// `count` for their number.
#[tactic(auto, unfolding(mig_stream::specs::Format::mapped_ram))]
fn with_name<A: Allocator>(
    alloc: A,
    bytes: &[u8],
    at: usize,
    end: usize,
    count: u32,
) -> Result<Vec<u8, A>, NoMemory>
    requires names { at + names_at ≤ end }
    requires end { end ≤ length bytes.now }
    ensures { IfOk result (λ v. v.items ≡ take (at + 32) bytes.now ++ be32 count ++ slice_range bytes.now (at + names_at) end ++ counted mapped_ram ++ drop end bytes.now) }
{
    let mut mapped = Vec::new(alloc);
    mapped.extend_from_slice(&bytes[..at + COUNT_AT])?;
    mapped.extend_from_slice(&count.to_be_bytes())?;
    mapped.extend_from_slice(&bytes[at + NAMES_AT..end])?;
    mapped.extend_from_slice(COUNTED_MAPPED_RAM)?;
    mapped.extend_from_slice(&bytes[end..])?;
    Ok(mapped)
}

/// Returns the front of a machine's file that has no other state: the file header, a configuration
/// with the name and the one capability, and RAM's START up to the total.
///
/// # Errors
///
/// `NoMemory`: an allocation was refused.
pub fn front_bytes<A: Allocator>(
    alloc: A,
    machine: &[u8],
    total: u64,
) -> Result<Vec<u8, A>, NoMemory>
    requires machine { length machine.now ≤ most_name_bytes }
    requires total { IsTotal total }
    ensures bytes { IfOk result (λ v. v.items ≡ mapped_front (alone machine.now total)) }
    ensures front { IsFront (alone machine.now total) }
{
    let mut front = Vec::new(alloc);
    front.extend_from_slice(CONFIGURATION_HEAD)?;
    front.extend_from_slice(&(machine.len() as u32).to_be_bytes())?;
    front.extend_from_slice(machine)?;
    front.extend_from_slice(CAPABILITIES_HEAD)?;
    front.extend_from_slice(ONE_MAPPED_RAM)?;
    front.extend_from_slice(WRITTEN_START)?;
    front.extend_from_slice(&(total + MEM_SIZE).to_be_bytes())?;
    Ok(front)
}

/// Returns what follows the last block's pages in a file without devices: EOS and footer of START,
/// END with EOS and footer, and the end byte, QEMU_VM_EOF.
pub fn end_bytes() -> [u8; 32]
    ensures { (table : RamTable) → result ≡ end_of table }
{
    [
        0, 0, 0, 0, 0, 0, 0, 0x10, 0x7E, 0, 0, 0, 1, 0x03, 0, 0, 0, 1, 0, 0, 0, 0, 0, 0, 0, 0x10,
        0x7E, 0, 0, 0, 1, 0,
    ]
}
