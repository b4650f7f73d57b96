//! Tests of the tool: inputs that are read byte by byte, don't end or fail at each read; outputs
//! that fail at each write; files whose reads and changes fail in turn; the order in which files
//! are opened; pipes between two tools; and the bytes that a load holds.
//!
//! They call `run` of `mig_command`, as `mig_tool` does, with readers and writers in memory, and
//! files in a folder of each test's own. The worked examples are cases of `mig_tool_cases`.
#![tactic(auto)]

#[cfg(test)]
mod failing_files;
#[cfg(test)]
mod fake_files;
#[cfg(test)]
mod folder;
#[cfg(test)]
mod held;
#[cfg(test)]
mod order;
#[cfg(test)]
mod pipes;
#[cfg(test)]
mod reads;
#[cfg(test)]
mod script;
#[cfg(test)]
mod writes;
