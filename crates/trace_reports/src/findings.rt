//! What is found of a trace.
use tso_cert::Certificate;

/// What is found of a trace.
#[derive(Drop)]
pub struct Finding {
    /// The trace's rounds number; 0 where a load is unwritten.
    pub rounds: u64,
    /// The trace's certificate where it is a violation, else None.
    pub certificate: Option<Certificate>,
}
