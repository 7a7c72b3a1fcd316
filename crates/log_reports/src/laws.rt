//! What reports on logs say.
ghost use Rattle.std.specs.Prelude.{◌≡◌, ℕ, List};
ghost use Rattle.line_text.specs.Lines.{parts_of};
ghost use Rattle.tso_model.specs.Axioms.{IsConsistent};
ghost use Rattle.log_text.specs.LogTexts.{SpellsLog};
ghost use Rattle.log_text.specs.LogValues.{NumberedLog, log_operations};
ghost use Rattle.log_text.specs.Tags.{AreTagsOf, tag_at, tag_in};
ghost use Rattle.log_text.specs.declared.tags.LineTags.{LineTags};
ghost use Rattle.log_selections.specs.Shown.{log_of_shown};
ghost use Rattle.log_reports.specs.Findings.{IsListed};
ghost use Rattle.log_reports.specs.Lines.{repeated};
ghost use Rattle.log_reports.specs.LogReports.{IsLogReport, RendersLog};
ghost use Rattle.log_selections.specs.declared.selecting.Selected.{Selected};
ghost use Rattle.trace_reports.specs.declared.findings.Finding.{Finding};
ghost use Rattle.log_reports.specs.declared.findings.LogViolation.{LogViolation};
ghost use Rattle.log_reports.specs.declared.findings.LogViolation.TheVariants.{Selection};
ghost use Rattle.request_options.specs.declared.logs.LogOptions.{LogOptions};
ghost use Rattle.trace_reports.specs.Renderings.{RendersRefusal};
ghost use Rattle.trace_reports.specs.declared.answers.Answer.TheVariants.{Violation};

/// A log of which a violation is listed has no order of its memory model, nor have a violation's lines alone.
pub fn violations()
    ensures log { (log : NumberedLog) (violation : LogViolation) → IsListed log violation → IsConsistent (log_operations log) → ⊥ }
    ensures report { (said : RendersLog) (refused : RendersRefusal) (options : LogOptions) (bytes text : List ℕ) →
        IsLogReport said refused options bytes text Violation → (log : NumberedLog) → SpellsLog bytes log → IsConsistent (log_operations log) → ⊥ }
    ensures lines { (log : NumberedLog) (selected : Selected) (finding : Finding) → IsListed log (Selection selected finding) →
        IsConsistent (log_operations (log_of_shown log selected.shown.items)) → ⊥ }
{}

/// All of each line's tag is repeated.
pub fn tags()
    ensures { (bytes : List ℕ) (log : NumberedLog) (tags : LineTags) → SpellsLog bytes log → AreTagsOf bytes tags → (number : ℕ) →
        repeated (tag_in tags number) ≡ tag_at (parts_of bytes) number }
{}
