//! Of the crates of theorems. A caller of a law knows its clauses from there on.

use completeness::closed_orders::closed_orders_are_enough;
use completeness::evidence::evidence_decides;
use completeness::outcomes::outcomes_are_consistent_traces;
use completeness::runs::consistent_traces_have_runs;
use embedding::laws::complete_runs_have_orders;
use order_paths::laws::edge_is_path;
use run_orders::laws::{runs_have_orders, split_runs_have_orders};
use run_text_orders::laws::texts_of_runs_have_orders;
use unit_runs::laws::unit_runs_are_runs;
use wide_orders::laws::{location_orders_are_wide, split_logs_keep_orders, texts_keep_orders};

/// A law of each crate.
pub fn cite_the_theorems() {
    edge_is_path();
    closed_orders_are_enough();
    complete_runs_have_orders();
    evidence_decides();
    consistent_traces_have_runs();
    outcomes_are_consistent_traces();
    unit_runs_are_runs();
    runs_have_orders();
    split_runs_have_orders();
    split_logs_keep_orders();
    location_orders_are_wide();
    texts_keep_orders();
    texts_of_runs_have_orders();
}
