//! From the bytes of a trace's text to the bytes of an answer about it.
//!
//! Each input has one report, and `judge` writes it; `check_texts` writes that of a trace and a certificate. `answer_reader`
//! answers any `Question` about a trace, as `ByRules`, by any rendering, as an explanation; `answer_text` and `answer_trace` do so
//! without streams. `is_violation` says whether a trace is a violation, and no more. `README.md` says what is proved.
#![tactic(auto)]

pub use cert_rendering::Certificates;
pub use certificates::build_cert;
pub use checking::check_texts;
pub use evidence::{
    EvidenceKind, MAX_CERTIFICATE_BYTES, check_evidence, read_evidence_text, report_text,
};
pub use findings::{ByRules, least_unwritten};
pub use judging::judge;
pub use questions::{Question, answer_reader, answer_text, answer_trace};
pub use rankings::rank_edges;
pub use round_pool::MAX_WORKERS;
pub use violations::{Trial, is_violation, try_trace};

mod cert_rendering;
mod certificates;
mod checking;
mod evidence;
mod findings;
mod judging;
pub mod laws;
mod questions;
mod rankings;
mod violations;
