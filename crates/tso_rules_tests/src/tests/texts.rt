//! Texts, the names of faults, the conditions of rules, programs that lists and words make, and what is left of logs.

mod conditions;
mod faults;
mod making;
mod programs;
mod reading;
mod texts;
mod thinning;
