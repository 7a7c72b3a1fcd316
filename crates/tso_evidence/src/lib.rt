//! Evidence on traces: orders of their events, refutations by cases, and unwritten loads; and their texts.
//!
//! Evidence has one text, and a text spells one evidence or gets one refusal. `README.md` says what is proved.
#![tactic(auto)]

pub use evidence::Evidence;
pub use faults::{EvidenceFault, EvidenceTextFault};
pub use printers::print_evidence;
pub use readers::read_evidence;
pub use refutations::{LineList, RefutationLine};

mod evidence;
mod faults;
pub mod laws;
mod lines;
mod printers;
mod readers;
mod refutations;
