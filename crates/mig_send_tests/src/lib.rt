//! Tests of the deal, of the workers that draw from it, on real threads if they share it, and of
//! the sender that runs them on several channels: what each worker reports to its gate, and which
//! workers run at once.
//!
//! The worked examples of batches and packets are cases of `mig_rows`.
#![tactic(auto)]

#[cfg(test)]
mod alone;
#[cfg(test)]
mod batches;
#[cfg(test)]
mod deal;
#[cfg(test)]
mod gates;
#[cfg(test)]
mod multi;
#[cfg(test)]
mod open_end;
#[cfg(test)]
mod shown;
pub mod slots;
#[cfg(test)]
mod stepped;
#[cfg(test)]
mod workers;
#[cfg(test)]
mod working;
