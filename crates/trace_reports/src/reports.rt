//! The texts of reports on traces.
ghost use Rattle.std.specs.Prelude.{◌≡◌, refl, string_bytes, IfOk};
ghost use Rattle.trace_reports.specs.Reports.{head_text, rendered_refusal, reported};

use crate::findings::Finding;
use crate::refusal_lines::refusal_line;
use crate::renderings::Rendering;
use crate::verdicts::verdict_line;
use std::alloc::Global;
use tso_cert::print_cert;
use tso_ops::{OutOfMemory, Trace};
use tso_text::TextFault;

/// The report: its head, the verdict, and the certificate of a violation; or the line of a refusal.
#[derive(Clone, Copy)]
pub struct AsReport;

impl Rendering<Trace, Finding> for AsReport {
    ghost rendered = { λ form. reported };

    ghost refused = { λ form. rendered_refusal };

    fn text_of_found(
        &self,
        alloc: Global,
        trace: &Trace,
        finding: &Finding,
    ) -> Result<String, OutOfMemory> {
        let mut text = render_head(alloc, trace, finding)?;
        if let Some(certificate) = &finding.certificate {
            let lines = print_cert(alloc, certificate)?;
            text.push_str(&lines)?;
        }
        Ok(text)
    }

    fn text_of_refusal(
        &self,
        alloc: Global,
        _input: &[u8],
        fault: TextFault,
    ) -> Result<String, OutOfMemory> {
        refusal_line(alloc, fault)
    }

    ghost whole = { λ form a b why. refl };
}

/// The first lines of a report on a trace, also of its explanation: how many processors and events it has, its rounds
/// number, and the verdict. OutOfMemory where an allocation was refused.
pub fn render_head(alloc: Global, trace: &Trace, finding: &Finding) -> Result<String, OutOfMemory>
    ensures { IfOk result (λ text. string_bytes text ≡ head_text trace.now finding.now) }
{
    let processors = trace.processors();
    let events = trace.events();
    let rounds = finding.rounds;
    let mut text = format!(in alloc;
        "TSO REPORT 1\nprocessors {processors} events {events} rounds {rounds}\n"
    )?;
    text.push_str(verdict_line(finding.certificate.is_some()))?;
    Ok(text)
}
