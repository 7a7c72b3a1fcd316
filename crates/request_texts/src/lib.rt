//! The texts of a request: files that are opened by their names, standard input, and what is told of both on standard error.
//!
//! `Environment` is what is around a program, `SystemFiles` that of the system, whose failures `Diagnostics` tells. `README.md` says
//! what is proved.
#![tactic(auto)]

pub use diagnostics::{Diagnostics, WatchedReader};
pub use files::{Environment, SystemFiles, open};
pub use hints::{SEEDS_LIMITS, SHAPE_LIMITS};
pub use named_texts::{OpenedPair, open_named, open_pair, read_asked, read_named, read_text};

mod diagnostics;
mod files;
mod hints;
mod named_texts;
