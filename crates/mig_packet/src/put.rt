//! Writes hellos and packets, for the senders of `mig_send` and for callers with pages of their
//! own.

ghost use Rattle.std.specs.Prelude.{◌≡◌, ◌+◌, ◌-◌, ◌*◌, ◌<◌, ◌≤◌, ◌++◌, length, OnOk, OnErr, replicate, vec_len, vec_capacity};
ghost use Rattle.std.specs.List.{flat_map};
ghost use Rattle.mig_packet.specs.PageSize.{IsPageSize, page_limit, head_len};
ghost use Rattle.mig_packet.specs.Fields.{be32, be64};
ghost use Rattle.mig_packet.specs.Hello.{written_hello};
ghost use Rattle.mig_packet.specs.Written.{written_packet, written_head, written_counts, written_offsets, written_id, flags_of};

use crate::NoMemory;
use crate::format::{MULTIFD_FLAG_SYNC, MULTIFD_MAGIC, MULTIFD_VERSION};
use crate::packet::{head_len, page_limit};
use std::alloc::Allocator;
use uuid::Uuid;

// A hello of a UUID of zeros and the id 0: MULTIFD_MAGIC, MULTIFD_VERSION, and zeros.
const HELLO: [u8; 64] = [
    0x11, 0x22, 0x33, 0x44, 0, 0, 0, 1, 0, 0, 0, 0, 0, 0, 0, 0, 0, 0, 0, 0, 0, 0, 0, 0, 0, 0, 0, 0,
    0, 0, 0, 0, 0, 0, 0, 0, 0, 0, 0, 0, 0, 0, 0, 0, 0, 0, 0, 0, 0, 0, 0, 0, 0, 0, 0, 0, 0, 0, 0, 0,
    0, 0, 0, 0,
];

static ZEROS: [u8; 1024] = [0; 1024];

/// Returns the hello of a channel: QEMU's `MultiFDInit_t`, with zeros in its reserved bytes.
#[tactic(auto, unfolding(crate::specs::Fields::be32))]
pub fn hello(uuid: &Uuid, id: u8) -> [u8; 64]
    ensures hello { result ≡ written_hello uuid.now id }
    ensures uuid { length uuid.now ≡ 16 }
{
    let mut bytes = HELLO;
    bytes[24] = id;
    bytes[8..24].copy_from_slice(uuid.as_bytes());
    bytes
}

/// Appends one packet: a block's id, the offsets of its normal pages with their contents one after
/// another, and the offsets of its zero pages. All offsets are in bytes. The contents are copied
/// once.
///
/// A byte 0 in the id would cut it short for a reader of the packet.
///
/// # Errors
///
/// `NoMemory`: `out` has too little room, and its growth was refused. It keeps its bytes.
pub fn put_packet<A: Allocator>(
    page_size: u64,
    out: &mut Vec<u8, A>,
    number: u64,
    sync: bool,
    id: &[u8],
    normal: &[u64],
    contents: &[u8],
    zero: &[u64],
) -> Result<(), NoMemory>
    requires page_size { IsPageSize page_size }
    requires few { length normal.now + length zero.now ≤ page_limit page_size }
    requires contents { length contents.now ≡ length normal.now * page_size }
    requires id { length id.now ≤ 255 }
    ensures ok { OnOk result (out.new.items ≡ out.old.items ++ written_packet page_size number sync id.now normal.now contents.now zero.now) }
    ensures err { OnErr result (out.new.items ≡ out.old.items) }
    ensures full { OnErr result (vec_capacity out.old < vec_len out.old + (head_len page_size + length contents.now)) }
    ensures capacity { vec_capacity out.old ≤ vec_capacity out.new }
{
    out.reserve(head_len(page_size) + contents.len())?;
    append_head(page_size, out, number, sync, id, normal, zero);
    append(out, contents);
    Ok(())
}

/// Appends the bytes before the pages of a packet. The caller appends the contents of its normal
/// pages, in the order of their offsets.
///
/// # Errors
///
/// `NoMemory`: `out` has too little room, and its growth was refused. It keeps its bytes.
pub fn put_packet_head<A: Allocator>(
    page_size: u64,
    out: &mut Vec<u8, A>,
    number: u64,
    sync: bool,
    id: &[u8],
    normal: &[u64],
    zero: &[u64],
) -> Result<(), NoMemory>
    requires page_size { IsPageSize page_size }
    requires few { length normal.now + length zero.now ≤ page_limit page_size }
    requires id { length id.now ≤ 255 }
    ensures ok { OnOk result (out.new.items ≡ out.old.items ++ written_head page_size number sync id.now normal.now zero.now) }
    ensures err { OnErr result (out.new.items ≡ out.old.items) }
    ensures full { OnErr result (vec_capacity out.old < vec_len out.old + head_len page_size) }
    ensures capacity { vec_capacity out.old ≤ vec_capacity out.new }
{
    out.reserve(head_len(page_size))?;
    append_head(page_size, out, number, sync, id, normal, zero);
    Ok(())
}

// Appends the bytes before the pages. Here and in each function below the room is there.
fn append_head<A: Allocator>(
    page_size: u64,
    out: &mut Vec<u8, A>,
    number: u64,
    sync: bool,
    id: &[u8],
    normal: &[u64],
    zero: &[u64],
)
    requires page_size { IsPageSize page_size }
    requires few { length normal.now + length zero.now ≤ page_limit page_size }
    requires id { length id.now ≤ 255 }
    requires room { vec_len out.old + head_len page_size ≤ vec_capacity out.old }
    ensures items { out.new.items ≡ out.old.items ++ written_head page_size number sync id.now normal.now zero.now }
    ensures len { vec_len out.new ≡ vec_len out.old + head_len page_size }
    ensures capacity { vec_capacity out.old ≤ vec_capacity out.new }
{
    let normals = normal.len() as u32;
    let zeros = zero.len() as u32;
    append_counts(page_size, out, number, sync, normals, zeros);
    append_id(out, id);
    append_all_offsets(page_size, out, normal, zero);
}

// Appends the first 64 bytes.
#[tactic(auto, unfolding(crate::specs::Written::written_counts))]
fn append_counts<A: Allocator>(
    page_size: u64,
    out: &mut Vec<u8, A>,
    number: u64,
    sync: bool,
    normals: u32,
    zeros: u32,
)
    requires page_size { IsPageSize page_size }
    requires few { normals ≤ page_limit page_size }
    requires room { vec_len out.old + 64 ≤ vec_capacity out.old }
    ensures items { out.new.items ≡ out.old.items ++ written_counts page_size number sync normals zeros }
    ensures len { vec_len out.new ≡ vec_len out.old + 64 }
    ensures capacity { vec_capacity out.old ≤ vec_capacity out.new }
{
    append_be32(out, MULTIFD_MAGIC);
    append_be32(out, MULTIFD_VERSION);
    append_be32(out, flags_of(sync));
    append_be32(out, page_limit(page_size) as u32);
    append_be32(out, normals);
    append_be32(out, normals * page_size as u32);
    append_be64(out, number);
    append_be32(out, zeros);
    append(out, zeros_of(28));
}

fn flags_of(sync: bool) -> u32
    ensures { result ≡ flags_of sync }
{
    if sync { MULTIFD_FLAG_SYNC } else { 0 }
}

fn zeros_of(n: usize) -> &'static [u8]
    requires { n ≤ 1024 }
    ensures { result.now ≡ replicate n 0 }
{
    &ZEROS[..n]
}

// Appends the id, and zeros up to 256 bytes.
#[tactic(auto, unfolding(crate::specs::Written::written_id))]
fn append_id<A: Allocator>(out: &mut Vec<u8, A>, id: &[u8])
    requires id { length id.now ≤ 255 }
    requires room { vec_len out.old + 256 ≤ vec_capacity out.old }
    ensures items { out.new.items ≡ out.old.items ++ written_id id.now }
    ensures len { vec_len out.new ≡ vec_len out.old + 256 }
    ensures capacity { vec_capacity out.old ≤ vec_capacity out.new }
{
    append(out, id);
    append(out, zeros_of(256 - id.len()));
}

// Appends all offsets, and zeros up to the most offsets of a packet.
#[tactic(auto, unfolding(crate::specs::Written::written_offsets))]
fn append_all_offsets<A: Allocator>(
    page_size: u64,
    out: &mut Vec<u8, A>,
    normal: &[u64],
    zero: &[u64],
)
    requires page_size { IsPageSize page_size }
    requires few { length normal.now + length zero.now ≤ page_limit page_size }
    requires room { vec_len out.old + 8 * page_limit page_size ≤ vec_capacity out.old }
    ensures items { out.new.items ≡ out.old.items ++ written_offsets page_size (normal.now ++ zero.now) }
    ensures len { vec_len out.new ≡ vec_len out.old + 8 * page_limit page_size }
    ensures capacity { vec_capacity out.old ≤ vec_capacity out.new }
{
    append_offsets(out, normal);
    append_offsets(out, zero);
    let room = page_limit(page_size) - normal.len() - zero.len();
    append(out, zeros_of(8 * room));
}

fn append_offsets<A: Allocator>(out: &mut Vec<u8, A>, offsets: &[u64])
    requires { vec_len out.old + 8 * length offsets.now ≤ vec_capacity out.old }
    ensures items { out.new.items ≡ out.old.items ++ flat_map be64 offsets.now }
    ensures len { vec_len out.new ≡ vec_len out.old + 8 * length offsets.now }
    ensures capacity { vec_capacity out.old ≤ vec_capacity out.new }
{
    for offset in offsets {
        append_be64(out, *offset);
    }
}

#[tactic(auto, unfolding(crate::specs::Fields::be32))]
fn append_be32<A: Allocator>(out: &mut Vec<u8, A>, n: u32)
    requires { vec_len out.old + 4 ≤ vec_capacity out.old }
    ensures items { out.new.items ≡ out.old.items ++ be32 n }
    ensures len { vec_len out.new ≡ vec_len out.old + 4 }
    ensures capacity { vec_capacity out.old ≤ vec_capacity out.new }
{
    append(out, &n.to_be_bytes());
}

#[tactic(auto, unfolding(crate::specs::Fields::be64))]
fn append_be64<A: Allocator>(out: &mut Vec<u8, A>, n: u64)
    requires { vec_len out.old + 8 ≤ vec_capacity out.old }
    ensures items { out.new.items ≡ out.old.items ++ be64 n }
    ensures len { vec_len out.new ≡ vec_len out.old + 8 }
    ensures capacity { vec_capacity out.old ≤ vec_capacity out.new }
{
    append(out, &n.to_be_bytes());
}

fn append<A: Allocator>(out: &mut Vec<u8, A>, bytes: &[u8])
    requires { vec_len out.old + length bytes.now ≤ vec_capacity out.old }
    ensures items { out.new.items ≡ out.old.items ++ bytes.now }
    ensures len { vec_len out.new ≡ vec_len out.old + length bytes.now }
    ensures capacity { vec_capacity out.old ≤ vec_capacity out.new }
{
    out.extend_from_slice(bytes).unwrap();
}
