//! What is rendered of a trace, or of a text that is no trace: what all such texts have in common.
ghost use Rattle.std.specs.Prelude.{◌≡◌, ◌≢◌, ℕ, List, string_bytes, IfOk, IsErr};
ghost use Rattle.tso_text.specs.declared.faults.Why.{Why};
ghost use Rattle.trace_reports.specs.Renderings.{RendersRefusal};

use std::alloc::Global;
use tso_ops::OutOfMemory;
use tso_text::{TextFault, Why};

/// A whole text, and what it says.
#[derive(Drop)]
pub struct Report<V> {
    /// What the text says.
    pub verdict: V,
    /// The lines, each of which ends with a line feed.
    pub text: String,
}

/// A form in which is rendered what is found of a subject, as of a trace: as a report, as an explanation, as a picture.
pub trait Rendering<S, F> {
    /// What is rendered of a subject by what is found of it.
    ghost rendered: { Self → S → F → List ℕ };

    /// What is rendered of a text that is refused.
    ghost refused: { Self → RendersRefusal };

    /// What is rendered of a subject, of which this was found. OutOfMemory where an allocation was refused.
    fn text_of_found(&self, alloc: Global, subject: &S, found: &F) -> Result<String, OutOfMemory>
        ensures { IfOk result (λ text. string_bytes text ≡ rendered self.now subject.now found.now) };

    /// What is rendered of a text that is refused for this fault. OutOfMemory where an allocation was refused.
    fn text_of_refusal(
        &self,
        alloc: Global,
        input: &[u8],
        fault: TextFault,
    ) -> Result<String, OutOfMemory>
        ensures { IfOk result (λ text. string_bytes text ≡ refused self.now input.now fault.line fault.why) };

    /// What is rendered of a text that is refused as a whole, at line 0, is the same for all texts.
    ghost whole: { (form : Self) (a b : List ℕ) (why : Why) → refused form a 0 why ≡ refused form b 0 why };
}

/// What is rendered of a text that is refused for this fault, with the verdict that says so. OutOfMemory where an allocation was
/// refused, also where the fault says that one of its reader was.
pub fn render_refused<S, F, V: Drop, P: Rendering<S, F>>(
    alloc: Global,
    input: &[u8],
    fault: TextFault,
    rendering: &P,
    refusing: V,
) -> Result<Report<V>, OutOfMemory>
    ensures refused { IfOk result (λ report. fault.why ≢ Why.OutOfMemory × (string_bytes report.text ≡ P.refused rendering.now input.now fault.line fault.why) ×
        (report.verdict ≡ refusing)) }
    ensures memory { fault.why ≡ Why.OutOfMemory → IsErr result }
{
    if fault.why == Why::OutOfMemory {
        return Err(OutOfMemory);
    }
    Ok(Report {
        verdict: refusing,
        text: rendering.text_of_refusal(alloc, input, fault)?,
    })
}
