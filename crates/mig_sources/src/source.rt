//! The sources of a load on several channels, as callers name them to loads and pumps.

/// One of the sources of a load on several channels.
#[derive(Clone, Copy, Debug, PartialEq, Eq)]
pub enum Source {
    /// The main stream.
    Main,
    /// A channel, by its index among the channels, from 0. Its hello may have another id.
    Channel(usize),
}
