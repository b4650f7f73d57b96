//! Re-exports the loaders under one name. It has no code of its own.
//!
//! - `mig_load_types`: settings, answers and faults of every load
//! - `mig_single_load`: the loaders of single streams
//! - `mig_answer`: the verdict of a load on several channels, and the laws of its answer
//! - `mig_relay`: the load of whole streams on several channels
//! - `mig_session`: the load on several channels that is fed in pieces, and its sources
//!
//! A crate whose clauses cite definitions of loads lists the crate that has them, too.
#![tactic(auto)]

pub use mig_answer::{
    Verdict, answers_stay, dealt_rounds_are_lawful, machine_sendings_are_loaded,
    received_tells_status, sendings_are_loaded, texts_have_one_answer,
};
pub use mig_load_types::{Fault, FeedFault, InPlaceFault, LoadFault, LoadSettings, Loaded, Origin};
pub use mig_relay::{
    ChannelEnd, Collector, Fed, Feeder, FeederStep, Item, Relay, channel_valid_up_to, load_multi,
    load_multi_with, load_relayed, load_relayed_with,
};
pub use mig_session::{Counted, PieceReader, PumpFault, ReadFailed, Session, Source, pump};
pub use mig_single_load::{
    InPlaceLoader, InPlaceState, SingleLoader, in_place_keeps_other_places, in_place_ok_is_whole,
    load_single, load_single_with, machine_sent_is_loaded_in_place, sent_is_loaded_in_place,
};
