//! Gates: what an issuer passes before each operation.

/// What an issuer calls before it issues an operation: a test's or a bench's means to see or to hold back the issuers.
///
/// It may wait. It is called outside the lock of the desk, also before the call of `Desk::issue` that answers false.
pub trait Gate {
    /// Called by the issuer of processor `p`, which has `done` answers.
    fn before(&self, p: usize, done: usize);
}

/// The gate that never waits.
#[derive(Clone, Copy, Debug, Drop)]
pub struct OpenGate;

impl Gate for OpenGate {
    fn before(&self, _p: usize, _done: usize) {}
}
