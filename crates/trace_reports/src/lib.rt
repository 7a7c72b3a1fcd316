//! Reports on traces, and other texts that follow from what is found of a trace.
//!
//! A `Rendering` says what is written of a trace by what is found of it, as its `Finding`, and of a text that is no trace: `AsReport` is
//! that of reports. `README.md` says what is proved.
#![tactic(auto)]

pub use answers::Answer;
pub use findings::Finding;
pub use refusal_lines::render_refusal;
pub use renderings::{Rendering, Report, render_refused};
pub use reports::{AsReport, render_head};
pub use statuses::{DONE, FAULT, NOT_ALL_JUDGED, REFUSED, VIOLATION, status_of, status_of_answer};
pub use verdicts::{Verdict, verdict_line};

mod answers;
mod findings;
mod refusal_lines;
mod renderings;
mod reports;
mod statuses;
mod verdicts;
