use tso_ops::{Outcome, Trace};
use unit_core::Recorded;

/// Whether these are the processors of a trace, each of which did and read this.
fn has_rows(trace: &Trace, rows: &[&[Outcome]]) -> bool {
    let processors = trace.processors();
    if processors != rows.len() {
        return false;
    }
    for p in 0..processors {
        if trace.ops(p) != rows[p] {
            return false;
        }
    }
    true
}

/// Whether a record is lawful or not, as is said, and its processors did and read this.
pub fn is_record(recorded: &Recorded, lawful: bool, rows: &[&[Outcome]]) -> bool {
    recorded.lawful() == lawful && has_rows(recorded.trace(), rows)
}
