//! A memory with a store buffer for each processor. `README.md` says what is proved.
#![tactic(auto)]

pub use buffers::Buffers;
pub use entries::StoreEntry;

mod buffers;
mod entries;
