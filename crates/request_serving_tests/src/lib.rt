//! Tests of `request_serving`, by its public calls. `README.md` says why they stand apart.
#![tactic(auto)]

#[cfg(test)]
mod tests;
