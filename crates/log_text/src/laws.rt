//! What the definitions of the texts of logs say of each other, proved of all texts.

ghost use Rattle.std.specs.Str.{IsAscii};
ghost use Rattle.std.specs.Prelude.{◌≡◌, ◌∷◌, ◌++◌, [], ℕ, Bool, List};
ghost use Rattle.line_text.specs.Lines.{parts_of};
ghost use Rattle.tso_ops.specs.Settings.{first_value};
ghost use Rattle.run_lines.specs.Tags.{before_tag};
ghost use Rattle.log_text.specs.declared.lines.LogLine.{LogLine};
ghost use Rattle.log_text.specs.LogValues.{NumberedLog};
ghost use Rattle.tso_text.specs.declared.faults.Why.{Why};
ghost use Rattle.log_text.specs.LogTexts.{IsEndedAsNeeded, SpellsLog, IsLogRefusal, first_values};
ghost use Rattle.log_text.specs.Tags.{tag_at, tag_of};

/// A text spells one log at most, and one that is refused spells none, or lacks the line `end` that it needs.
pub fn texts()
    ensures one_log { (text : List ℕ) (t u : NumberedLog) → SpellsLog text t → SpellsLog text u → t ≡ u }
    ensures never_both { (needs_end : Bool) (text : List ℕ) (t : NumberedLog) (line : ℕ) (why : Why) → SpellsLog text t →
        IsEndedAsNeeded needs_end text → IsLogRefusal needs_end text line why → ⊥ }
{}

/// One more line with a first value gives its address that value, whatever lines before it said, and leaves those of other addresses.
pub fn first_values_of_lines()
    ensures last { (lines : List LogLine) (a v : ℕ) → first_value (first_values (lines ++ LogLine.First a v ∷ [])) a ≡ v }
    ensures others { (lines : List LogLine) (a v b : ℕ) → (b ≡ a → ⊥) →
        first_value (first_values (lines ++ LogLine.First a v ∷ [])) b ≡ first_value (first_values lines) b }
{}

/// A line is what stands before its tag, and its tag; those of a text that spells a log are ASCII.
pub fn tags()
    ensures whole { (line : List ℕ) → before_tag line ++ tag_of line ≡ line }
    ensures ascii { (text : List ℕ) (log : NumberedLog) → SpellsLog text log → (number : ℕ) → IsAscii (tag_at (parts_of text) number) }
{}
