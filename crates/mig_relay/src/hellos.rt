//! Finds the first channel of a relay whose hello has an earlier channel's id, for `load_relayed`.

ghost use Rattle.std.specs.Prelude.{◌≡◌, map, None};
ghost use Rattle.mig_answer.specs.MultiLoad.{repeated_hello};
ghost use Rattle.mig_answer.specs.Received.{hello_in};
ghost use Rattle.mig_relay.specs.RelayItems.{as_channel_item};
ghost use Rattle.mig_relay.specs.Relayed.{received_of};

use crate::item::Item;
use crate::relay::Collector;
use std::alloc::Allocator;

// How many ids there are.
const ID_COUNT: usize = 256;

/// Returns the least channel whose hello names the id of an earlier one.
pub(crate) fn repeated_hello<A: Allocator>(collector: &Collector<'_, A>) -> Option<usize>
    ensures { result ≡ repeated_hello (map hello_in (received_of collector.now)) }
{
    let mut seen = [false; ID_COUNT];
    for j in 0..collector.len() {
        if let Some(id) = first_hello(collector.received(j)) {
            if seen[id as usize] {
                return Some(j);
            }
            seen[id as usize] = true;
        }
    }
    None
}

// Returns the id that the hello names, which is the first of `items`.
fn first_hello(items: &[Item<'_>]) -> Option<u8>
    ensures { result ≡ hello_in (map as_channel_item items.now) }
{
    match items.first() {
        Some(Item::Hello(id)) => Some(*id),
        _ => None,
    }
}
