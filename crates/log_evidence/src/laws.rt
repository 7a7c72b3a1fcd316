//! What the definitions of checks of logs say, proved of all texts.

ghost use Rattle.std.specs.Prelude.{◌≡◌, ◌⊎◌, ◌↔◌, ℕ, List};
ghost use Rattle.tso_model.specs.Axioms.{IsConsistent};
ghost use Rattle.log_text.specs.LogTexts.{SpellsLog};
ghost use Rattle.log_text.specs.LogValues.{NumberedLog, log_operations};
ghost use Rattle.trace_reports.specs.declared.answers.Answer.{Answer};
ghost use Rattle.log_evidence.specs.LogChecks.{IsLogCheck, SpellOrderedLog, SpellRefutedLog};

/// Two texts have one report at most. It says Violation exactly where the first spells a log and the second a refutation that holds of
/// it, and then the log has no order of its memory model. It says Clear exactly where the second spells an order of the log, which then
/// has one. Else it says Refused.
pub fn checks()
    ensures one { (log evidence text other : List ℕ) (a b : Answer) → IsLogCheck log evidence text a → IsLogCheck log evidence other b →
        (text ≡ other) × (a ≡ b) }
    ensures violation { (log evidence text : List ℕ) (answer : Answer) → IsLogCheck log evidence text answer →
        (answer ≡ Answer.Violation) ↔ SpellRefutedLog log evidence }
    ensures consistent { (log evidence text : List ℕ) (answer : Answer) → IsLogCheck log evidence text answer →
        (answer ≡ Answer.Clear) ↔ SpellOrderedLog log evidence }
    ensures otherwise { (log evidence text : List ℕ) (answer : Answer) → IsLogCheck log evidence text answer →
        (answer ≡ Answer.Violation) ⊎ (answer ≡ Answer.Clear) ⊎ (answer ≡ Answer.Refused) }
    ensures no_order { (log evidence : List ℕ) → SpellRefutedLog log evidence → (read : NumberedLog) → SpellsLog log read →
        IsConsistent (log_operations read) → ⊥ }
    ensures some_order { (log evidence : List ℕ) → SpellOrderedLog log evidence → (read : NumberedLog) → SpellsLog log read →
        IsConsistent (log_operations read) }
{}
