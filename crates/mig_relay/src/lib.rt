//! Loads complete streams on several channels, through a relay between threads.
//!
//! A relay passes the items of each channel from a thread that reads them to the one that loads.
//! Each channel has a `Feeder`, a queue, and an entry in the one `Collector`. `mig_packet` defines
//! the items, and `specs/Relay.antt` what the two ends promise. `load_relayed` loads the items of a
//! relay. `load_multi` also starts the relay and its workers. `mig_answer` defines what they
//! return.
//!
//! Definitions, in reading order: `RelayItems`, `Relay`, `Relayed`, `Multi` (`specs/`). Only
//! contracts of private functions name `Messages`, `Queue`, `Cursor` and `Ends`.
#![tactic(auto)]

mod channel;
mod cursor;
mod feeder;
mod hellos;
mod item;
mod log;
mod message;
mod multi;
mod queue;
mod relay;
mod relayed;
mod taking;
mod valid;

pub use feeder::{Fed, Feeder, FeederStep};
pub use item::{ChannelEnd, Item};
pub use multi::{load_multi, load_multi_with};
pub use relay::{Collector, Relay};
pub use relayed::{load_relayed, load_relayed_with};
pub use valid::channel_valid_up_to;
