//! The tool's requests: one for each command.

use mig_scenario::{Layout, PageSize};
use uuid::Uuid;

/// Sends a scenario's file into a file, or into one file for each source.
#[derive(Clone, Copy, Debug)]
pub struct SendRequest<'a> {
    pub scenario: &'a str,
    pub output: &'a str,
    pub layout: Layout,
    pub uuid: Uuid,
}

/// Loads a migration's files, and writes the memory into a file.
#[derive(Clone, Copy, Debug)]
pub struct LoadRequest<'a> {
    pub main: &'a str,
    pub image: &'a str,
    pub page_size: PageSize,
    pub channels: u8,
    pub uuid: Uuid,
    /// The largest sum of the blocks' lengths.
    pub limit: u64,
    /// Whether each stream is loaded as it is read, one stream after another.
    pub is_fed: bool,
}

/// Compares a scenario's file with a memory's file.
#[derive(Clone, Copy, Debug)]
pub struct CompareRequest<'a> {
    pub scenario: &'a str,
    pub image: &'a str,
    pub page_size: PageSize,
}

/// A parsed command line.
#[derive(Clone, Copy, Debug)]
pub enum Request<'a> {
    /// Sends the scenario in the input, loads it and compares it.
    Check(Layout),
    Send(SendRequest<'a>),
    Load(LoadRequest<'a>),
    Compare(CompareRequest<'a>),
}
