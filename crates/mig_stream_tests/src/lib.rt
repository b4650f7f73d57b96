//! Tests of the stream and of the complete path, from senders to loads: what is held while a guest
//! is sent and loaded in pieces, sections that wait for the guest's memory, loads by whole
//! sections, and one example each of calls that no other test and no program makes.
//!
//! The worked examples are cases of `mig_rows`.
#![tactic(auto)]

#[cfg(test)]
mod building;
#[cfg(test)]
mod by_sections;
#[cfg(test)]
mod in_place;
#[cfg(test)]
mod lent;
#[cfg(test)]
mod missing;
#[cfg(test)]
mod open_senders;
#[cfg(test)]
mod parts;
#[cfg(test)]
mod pieces;
#[cfg(test)]
mod records;
#[cfg(test)]
mod reports;
#[cfg(test)]
mod texts;
#[cfg(test)]
mod valid;
#[cfg(test)]
mod waiting;
#[cfg(test)]
mod wanted_in_place;
