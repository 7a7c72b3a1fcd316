//! Certificates of violations: rules, steps, and the lists that they are made of; and their texts.
//!
//! A certificate has one text, and a text spells one certificate or gets one refusal. `README.md` says what is proved.
#![tactic(auto)]

pub use faults::{CertificateRefusal, CertificateTextFault, OutOfMemory};
pub use lists::NumList;
pub use printers::print_cert;
pub use readers::read_cert;
pub use rules::{BaseRule, InferredRule};
pub use steps::{CertStep, Certificate, Reason, StepList};

mod faults;
pub mod laws;
mod lines;
mod lists;
pub mod parts;
mod printers;
mod readers;
mod rules;
mod steps;
pub mod tokens;
