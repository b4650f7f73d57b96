//! The memory that a load builds: rounds are applied to it one after another, each in one step.
//!
//! A `Target` takes rounds as readers give them. A round of a single stream is a section, applied
//! when it is read. A round of multifd is the page records of the main stream and the packets of
//! all channels, `Gathered` in any order. It is judged in one step (`specs/Judging`), and a round
//! that isn't lawful (`specs/Lawful`) changes nothing. The crates above have the streams that
//! rounds come from, and the result of a complete load.
//!
//! `Arrivals` is for a load that keeps no round: its caller writes each page as it arrives, and
//! `Arrivals` judges the round as `Target::round` would.
//!
//! Definitions to read first, in this order: `Judging`, `Lawful`, `NamedPlaces`, `Target`, `Law`,
//! `Arrivals` (`specs/`). Only contracts of private functions name `Sorted`, `Seen` and
//! `PacketPages`.
#![tactic(auto)]

mod arrivals;
mod doubles;
mod fault;
mod gathered;
mod judge;
mod laws;
mod named;
mod numbers;
mod places;
mod put;
mod round_list;
mod target;

pub use arrivals::{Arrivals, arrivals_make_the_round, heads_are_judged, other_places_stay};
pub use fault::RoundFault;
pub use gathered::Gathered;
pub use laws::{lawful_rounds_lie_in_the_table, packets_come_in_any_order, round_is_lawful};
pub use named::name_records;
pub use places::{Pages, pages_of};
pub use put::put_records;
pub use target::Target;
