//! Reports on traces, on the records of memory units, and on campaigns.
//!
//! `judge_recorded` writes the report of a unit's record, and `campaign` that of many seeds' programs, each run or replayed on
//! a unit of its own. What judges the text of a trace is here, too, from `trace_judging`.
//! `README.md` says what is proved.
#![tactic(auto)]

pub use account_rendering::print_account;
pub use campaigns::schedules::seeded_schedule;
pub use campaigns::seeds::{seeded_program, seeded_program_with_order};
pub use campaigns::{CampaignPlan, MAX_SEEDS, campaign, campaign_over};
pub use record_judging::{judge_recorded, report_of_record};
pub use text_streams::{Fault, read_all, write_text};
pub use trace_judging::{
    ByRules, MAX_CERTIFICATE_BYTES, MAX_WORKERS, Question, answer_reader, answer_trace, build_cert,
    check_texts, judge,
};
pub use trace_reports::{
    AsReport, Finding, Rendering, Report, Verdict, render_head, render_refusal,
};

mod account_rendering;
mod campaigns;
mod record_judging;
