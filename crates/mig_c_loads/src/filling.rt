//! The pages of packets that C reads to their places, in blocks that were zeros when the load
//! began.

ghost use Rattle.std.specs.Prelude.{ℕ, ◌≡◌, ◌+◌, ◌/◌, ◌<◌, ◌≤◌};
ghost use Rattle.mig_mem.specs.Place.{IsPlace, place_at};
ghost use Rattle.mig_packet.specs.Packet.{normal_count, zero_count, offset_at};
ghost use Rattle.mig_assemble.specs.HeadPlaces.{LieIn};
ghost use Rattle.mig_c_loads.specs.Filling.{normal_places, zero_places, FillsPages, LeavesOut};
ghost use Rattle.mig_apart.specs.Claims.{ClaimsMore, ClaimsLess};

use crate::claimed_pages::ClaimedPages;
use mig_mem::{Dirty, Place};
use mig_packet::PacketHead;
use std::alloc::Global;

// Returns the place of page `i` of a packet in block `block`.
fn place(head: &PacketHead<'_>, block: usize, i: usize) -> Place
    requires { i < normal_count head.now.bytes.now + zero_count head.now.bytes.now }
    ensures { result ≡ place_at block (offset_at head.now.bytes.now i / head.now.page_size) }
{
    let page = head.offset(i) / head.page_size();
    Place { block, page }
}

// Unmarks the pages of zeros of a packet.
fn unmark_zeros(filled: &mut Dirty<Global>, head: &PacketHead<'_>, block: usize)
    requires page_size { head.now.page_size ≡ filled.old.table.page_size }
    requires lies { LieIn filled.old.table block head.now.bytes.now }
    ensures table { filled.new.table ≡ filled.old.table }
    ensures less { ClaimsLess filled.old.table (zero_places filled.old.table block head.now.bytes.now) filled.old filled.new }
{
    let normals = head.normal_len();
    'zeros: for i in 0..head.zero_len() {
        filled.unmark(place(head, block, normals + i));
    }
}

// Marks the normal pages of a packet.
fn mark_normals(filled: &mut Dirty<Global>, head: &PacketHead<'_>, block: usize)
    requires page_size { head.now.page_size ≡ filled.old.table.page_size }
    requires lies { LieIn filled.old.table block head.now.bytes.now }
    ensures table { filled.new.table ≡ filled.old.table }
    ensures more { ClaimsMore filled.old.table (normal_places filled.old.table block head.now.bytes.now) filled.old filled.new }
{
    'normals: for i in 0..head.normal_len() {
        let Ok(_) = filled.mark(place(head, block, i)) else {
            unreachable!();
        };
    }
}

/// Notes the pages of a packet that was taken: its normal pages may hold something else than zeros
/// now, and its pages of zeros don't.
pub(crate) fn fill_packet(filled: &mut Dirty<Global>, head: &PacketHead<'_>, block: usize)
    requires page_size { head.now.page_size ≡ filled.old.table.page_size }
    requires lies { LieIn filled.old.table block head.now.bytes.now }
    ensures table { filled.new.table ≡ filled.old.table }
    ensures fills { FillsPages filled.old.table block head.now.bytes.now filled.old filled.new }
{
    unmark_zeros(filled, head, block);
    mark_normals(filled, head, block);
}

/// Leaves out of `seen` the pages of zeros that hold nothing else already.
pub(crate) fn leave_out_zeros(filled: &Dirty<Global>, block: usize, seen: &mut ClaimedPages)
    requires { seen.old.normal + seen.old.zero ≤ 128 }
    ensures { LeavesOut filled.now block seen.old seen.new }
{
    let all = *seen;
    let mut left = 0;
    'zeros: for i in 0..all.zero {
        let page = all.pages[all.normal + i];
        if filled.has(Place { block, page }) {
            seen.pages[all.normal + left] = page;
            left += 1;
        }
    }
    seen.zero = left;
}
