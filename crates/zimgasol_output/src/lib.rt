//! Prints what was read of a saved guest, for the program `zimgasol`: whether it is complete, its
//! fault with its place and what to do, and what it has, in lines or as JSON.
//!
//! | Modules | What they do |
//! |---|---|
//! | `verifying`, `missing`, `advice` | print the verdict on a single stream |
//! | `inspecting` | lists what a single stream has |
//! | `several_lines`, `several_json`, `several_fault` | print what channels have, and their fault |
#![tactic(auto)]

mod advice;
mod inspecting;
mod missing;
mod several_fault;
mod several_json;
mod several_lines;
mod verifying;

pub use inspecting::{put_json, put_json_line, put_lines, tail_state};
pub use several_json::{put_several_json, put_several_json_line};
pub use several_lines::{
    put_several_all_wrongs, put_several_judgement, put_several_lines, put_several_verdict,
    put_several_wrongs,
};
pub use verifying::{put_all_wrongs, put_judgement, put_verdict, put_wrongs};
