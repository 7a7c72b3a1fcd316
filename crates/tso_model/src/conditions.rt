//! What each rule asks for, tested on the events of a trace: the condition of a base rule, and for an inferred rule the
//! condition and the ends of the path that it asks for. Nothing here knows of paths.

pub use base::{first_base_rule, is_base_pair};
pub use inferred::{Ends, inferred_ends};

mod base;
mod inferred;
mod own;
