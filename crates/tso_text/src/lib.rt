//! The texts of traces, programs and schedules: bytes in, values out, and back.
//!
//! A value has one text, and a text spells one value or gets one refusal. `README.md` says what is proved.
#![tactic(auto)]

pub use faults::{TextFault, Why, fault_of};
pub use forms::print_outcome;
pub use numbers::{no_number, one_number, three_numbers, two_numbers};
pub use printers::{print_program, print_schedule, print_trace};
pub use readers::{MAX_TEXT_BYTES, read_program, read_schedule, read_trace};
pub use tso_ops::Act;

mod faults;
mod forms;
pub mod laws;
mod lines;
mod numbers;
mod preambles;
mod printers;
mod readers;
mod readings;
pub mod words;
