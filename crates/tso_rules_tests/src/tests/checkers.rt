//! The checkers of certificates, of orders, of refutations and of evidence by values, and its texts: long texts, refused allocations, and what faults display.
//! `program-cases/` has short texts.

mod faults;
mod log_orders;
mod long;
mod refused_allocations;
mod value_lines;
mod value_refutations;
mod values;
