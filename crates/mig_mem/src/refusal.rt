//! Tests the list that `Table::new` is passed, and a block's id, which readers of streams test too.

ghost use Rattle.std.specs.Prelude.{◌≡◌, ◌≤◌, ◌*◌, ◌^◌, length, map};
ghost use Rattle.std.specs.List.{list_any, list_all, range_with_len};
ghost use Rattle.std.specs.Str.{bytes_eq};
ghost use Rattle.mig_mem.specs.First.{first_some};
ghost use Rattle.mig_mem.specs.PageSize.{IsPageSize};
ghost use Rattle.mig_mem.specs.RamTable.{is_id, is_printable, max_blocks, total_pages, table_from, entry_block};
ghost use Rattle.mig_mem.specs.Refusal.{block_refusal, entry_refusal, refusal};

use crate::TableFault;
use crate::table::{MAX_BLOCKS, MAX_ID_LEN, MAX_TOTAL};
use std::alloc::Allocator;

fn is_printable(bytes: &[u8]) -> bool
    ensures { result ≡ list_all is_printable bytes.now }
{
    bytes.iter().all(|b| 0x20 <= *b && *b <= 0x7E)
}

/// Returns whether `id` may be a block's id: 1 to 255 bytes, each from 0x20 to 0x7E.
#[tactic(auto, unfolding(crate::specs::RamTable::is_id))]
pub fn is_id(id: &[u8]) -> bool
    ensures { result ≡ is_id id.now }
{
    if id.is_empty() || id.len() > MAX_ID_LEN {
        return false;
    }
    is_printable(id)
}

fn has_entry<A: Allocator>(list: &[(Vec<u8, A>, u64)], id: &[u8]) -> bool
    ensures { result ≡ list_any (λ e. bytes_eq e.0.items id.now) list.now }
{
    list.iter().any(|e| e.0.as_slice() == id)
}

fn has_id<A: Allocator>(list: &[(Vec<u8, A>, u64)], id: &[u8]) -> bool
    ensures { result ≡ list_any (λ e. bytes_eq e.id id.now) (map entry_block list.now) }
{
    has_entry(list, id)
}

// Returns what is wrong with an entry, given the entries before it.
#[tactic(auto, unfolding(crate::specs::Refusal::block_refusal))]
fn block_fault<A: Allocator>(
    before: &[(Vec<u8, A>, u64)],
    id: &[u8],
    pages: u64,
) -> Option<TableFault>
    ensures { result ≡ block_refusal (map entry_block before.now) (record { id = id.now; pages = pages }) }
{
    if !is_id(id) {
        return Some(TableFault::Id(before.len()));
    }
    if has_id(before, id) {
        return Some(TableFault::IdTwice(before.len()));
    }
    if pages == 0 {
        return Some(TableFault::NoPages(before.len()));
    }
    None
}

// Returns what is wrong with the first bad entry.
fn entries_fault<A: Allocator>(list: &[(Vec<u8, A>, u64)]) -> Option<TableFault>
    ensures { result ≡ first_some (map (entry_refusal (map entry_block list.now)) (range_with_len 0 (length list.now))) }
{
    for (i, (id, pages)) in list.iter().enumerate() {
        if let Some(fault) = block_fault(&list[..i], id, *pages) {
            return Some(fault);
        }
    }
    None
}

// Returns the number of pages of all blocks together.
fn total_pages<A: Allocator>(list: &[(Vec<u8, A>, u64)]) -> u128
    requires { length list.now ≤ max_blocks }
    ensures sum { result ≡ total_pages (map entry_block list.now) }
    ensures bound { result ≤ length list.now * 2 ^ 64 }
{
    let mut total = 0u128;
    for (_, pages) in list {
        total += u128::from(*pages);
    }
    total
}

/// Returns the first reason why the list is no table, or None. It doesn't look at memory.
#[tactic(auto, unfolding(crate::specs::Refusal::refusal))]
pub(crate) fn fault<A: Allocator>(page_size: u64, list: &[(Vec<u8, A>, u64)]) -> Option<TableFault>
    requires { IsPageSize page_size }
    ensures { result ≡ refusal (table_from page_size list.now) }
{
    if list.is_empty() {
        return Some(TableFault::NoBlocks);
    }
    if list.len() > MAX_BLOCKS {
        return Some(TableFault::TooManyBlocks);
    }
    if let Some(fault) = entries_fault(list) {
        return Some(fault);
    }
    if total_pages(list) * u128::from(page_size) > u128::from(MAX_TOTAL) {
        return Some(TableFault::TooLarge);
    }
    None
}
