//! Reductions and what logs have, and explanations: what no text of a trace shows, what searches by values find, and what shares libraries.

mod decided_logs;
mod explanations;
mod log_checks;
mod reductions;
mod values;
