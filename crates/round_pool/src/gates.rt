//! Gates: what a worker passes before each row.

/// What a worker calls before it computes a row: a test's or a bench's means to see or to hold back the workers.
///
/// It may wait. The answer of `rounds` doesn't depend on it.
pub trait PoolGate {
    /// Called by worker `worker`, from 0, before it computes row `row`, from 1.
    fn row(&self, worker: usize, row: usize);
}

/// The gate that never waits.
#[derive(Clone, Copy, Debug, Drop)]
pub struct OpenPoolGate;

impl PoolGate for OpenPoolGate {
    fn row(&self, _worker: usize, _row: usize) {}
}
