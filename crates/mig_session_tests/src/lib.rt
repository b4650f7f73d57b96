//! Tests of a load on several channels that is fed in pieces: worked streams, guests from a seeded
//! generator in random pieces, readers that fail, and the bytes that are held meanwhile. Also tests
//! of guests from the same generator whose complete streams are loaded. Streams with a fault are in
//! `mig_in_place_tests`, whose tests feed a session too.
#![tactic(auto)]

#[cfg(test)]
mod drawn;
#[cfg(test)]
mod ends;
#[cfg(test)]
mod feeding;
#[cfg(test)]
mod guests;
#[cfg(test)]
mod held;
#[cfg(test)]
mod pumping;
#[cfg(test)]
mod texts;
#[cfg(test)]
mod waiting;
#[cfg(test)]
mod worked;
