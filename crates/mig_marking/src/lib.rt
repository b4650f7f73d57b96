//! Guest memories that mark what a load writes, whatever load it is: which pages of a guest came
//! (`Marking`), and which pages of blocks of zeros may hold something else (`Fresh`).
#![tactic(auto)]

mod counting;
mod fresh;
mod laws;
mod marking;

pub use counting::lacking;
pub use fresh::Fresh;
pub use laws::written_is_seen;
pub use marking::Marking;
