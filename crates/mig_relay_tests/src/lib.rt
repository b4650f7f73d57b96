//! Tests of the relay and of the load on several channels, on one thread and on a thread for each
//! channel. Beside them one of the load in place of one stream.
#![tactic(auto)]

#[cfg(test)]
mod in_place;
#[cfg(test)]
mod load_sent;
#[cfg(test)]
mod loads;
#[cfg(test)]
mod meeting;
#[cfg(test)]
mod pieces;
#[cfg(test)]
mod relay_left;
#[cfg(test)]
mod relayed;
#[cfg(test)]
mod steps;
#[cfg(test)]
mod texts;
#[cfg(test)]
mod workers;
