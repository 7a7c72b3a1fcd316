//! What the definitions of spelling say of each other, proved of all texts.

ghost use Rattle.std.specs.Prelude.{◌≡◌, ◌⊎◌, ℕ, List, map};
ghost use Rattle.tso_ops.specs.Events.{events_of};
ghost use Rattle.log_text.specs.LogTexts.{SpellsLog};
ghost use Rattle.log_text.specs.LogValues.{NumberedLog, log_operations};
ghost use Rattle.value_texts.specs.declared.names.EventName.{EventName};
ghost use Rattle.value_texts.specs.declared.refusals.ValueTextRefusal.{ValueTextRefusal};
ghost use Rattle.value_texts.specs.Names.{AreNamesDistinct, IsNumbered, NamesFit, event_names, is_store_of_swap};
ghost use Rattle.value_texts.specs.Printed.{LogEvidenceValue, OfAllEvents, evidence_text_of_log};
ghost use Rattle.value_texts.specs.Spelling.{SpellsLogEvidence, IsValueTextRefusal, IsSpelledLogEvidence, IsRefusedLogEvidence};

/// Each text spells evidence or is refused, never both; it spells one evidence, and gets one refusal; what spells evidence is its
/// printed text, and the printed text of evidence spells it, where no two events have one name.
pub fn texts_of_value_evidence()
    ensures spelled_or_refused { (names : List EventName) (text : List ℕ) → IsSpelledLogEvidence names text ⊎ IsRefusedLogEvidence names text }
    ensures never_both { (names : List EventName) (text : List ℕ) → IsSpelledLogEvidence names text → IsRefusedLogEvidence names text → ⊥ }
    ensures one_value { (names : List EventName) (text : List ℕ) (d e : LogEvidenceValue) → SpellsLogEvidence names text d →
        SpellsLogEvidence names text e → d ≡ e }
    ensures one_refusal { (names : List EventName) (text : List ℕ) (j k : ℕ) (v w : ValueTextRefusal) → IsValueTextRefusal names text j v →
        IsValueTextRefusal names text k w → (j ≡ k) × (v ≡ w) }
    ensures printed { (names : List EventName) (e : LogEvidenceValue) → AreNamesDistinct names → NamesFit names → OfAllEvents (IsNumbered names) e →
        SpellsLogEvidence names (evidence_text_of_log names e) e }
{}

/// A log has as many names as events, and the names of the stores of swaps have their numbers. No two events of a log that a text
/// spells have one name.
pub fn names_of_logs()
    ensures halves { (log : NumberedLog) → map (λ (name : EventName). name.is_swap_store) (event_names log) ≡
        map is_store_of_swap (events_of (log_operations log)) }
    ensures distinct { (text : List ℕ) (log : NumberedLog) → SpellsLog text log → AreNamesDistinct (event_names log) }
{}
