//! A guest memory that keeps the pages of a round apart until the round was judged: so the memory
//! has whole rounds alone, whatever load writes into it.
#![tactic(auto)]

mod open_pages;
mod staged;

pub use open_pages::OpenPages;
pub use staged::{CopyKeeper, Keeper, OwnKeeper, Staged};
