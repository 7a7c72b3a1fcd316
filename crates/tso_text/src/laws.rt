//! What the definitions of spelling say of each other, proved of all texts.

ghost use Rattle.std.specs.Prelude.{◌≡◌, ◌⊎◌, ◌≤◌, ◌++◌, ◌∷◌, [], ℕ, List, All, length};
ghost use Rattle.line_text.specs.Lines.{parts_of};
ghost use Rattle.tso_ops.specs.declared.settings.Version.TheVariants.{One};
ghost use Rattle.tso_ops.specs.Settings.{version_one_tso};
ghost use Rattle.tso_ops.specs.Limits.{IsTrace, IsProgram};
ghost use Rattle.tso_ops.specs.Values.{TraceValue, ProgramValue};
ghost use Rattle.tso_text.specs.Texts.{processor_of, SpellsTrace, SpellsProgram, SpellsSchedule, IsSpelledTrace, IsSpelledProgram, IsSpelledSchedule, text_byte_limit};
ghost use Rattle.tso_text.specs.Printed.{program_header, trace_header, trace_text, program_text, schedule_text};
ghost use Rattle.tso_text.specs.Refusals.{IsTraceRefusal, IsProgramRefusal, IsScheduleRefusal, IsRefusedTrace, IsRefusedProgram, IsRefusedSchedule};
ghost use Rattle.tso_text.specs.Lines.{model_line_in, whole_lines};
ghost use Rattle.tso_ops.specs.declared.acts.Act.{Act};
ghost use Rattle.tso_text.specs.declared.faults.Why.{Why};

/// Each text spells a trace or is refused, never both; it spells one trace, and gets one refusal;
/// what it spells keeps the limits of a trace; what spells a trace is its printed text, and the printed text of each trace
/// spells it.
pub fn traces()
    ensures spelled_or_refused { (text : List ℕ) → IsSpelledTrace text ⊎ IsRefusedTrace text }
    ensures never_both { (text : List ℕ) → IsSpelledTrace text → IsRefusedTrace text → ⊥ }
    ensures one_value { (text : List ℕ) (t u : TraceValue) → SpellsTrace text t → SpellsTrace text u → t ≡ u }
    ensures one_text { (text : List ℕ) (t : TraceValue) → SpellsTrace text t → text ≡ trace_text t }
    ensures lawful { (text : List ℕ) (t : TraceValue) → SpellsTrace text t → IsTrace t }
    ensures printed { (t : TraceValue) → IsTrace t → SpellsTrace (trace_text t) t }
    ensures one_refusal { (text : List ℕ) (j k : ℕ) (v w : Why) → IsTraceRefusal text j v → IsTraceRefusal text k w → (j ≡ k) × (v ≡ w) }
{}

/// Each text spells a program or is refused, never both; it spells one program, and gets one refusal;
/// what it spells keeps the limits of a program; what spells a program is its printed text, and the printed text of each
/// program spells it.
pub fn programs()
    ensures spelled_or_refused { (text : List ℕ) → IsSpelledProgram text ⊎ IsRefusedProgram text }
    ensures never_both { (text : List ℕ) → IsSpelledProgram text → IsRefusedProgram text → ⊥ }
    ensures one_value { (text : List ℕ) (p q : ProgramValue) → SpellsProgram text p → SpellsProgram text q → p ≡ q }
    ensures one_text { (text : List ℕ) (p : ProgramValue) → SpellsProgram text p → text ≡ program_text p }
    ensures lawful { (text : List ℕ) (p : ProgramValue) → SpellsProgram text p → IsProgram p }
    ensures printed { (p : ProgramValue) → IsProgram p → SpellsProgram (program_text p) p }
    ensures one_refusal { (text : List ℕ) (j k : ℕ) (v w : Why) → IsProgramRefusal text j v → IsProgramRefusal text k w → (j ≡ k) × (v ≡ w) }
{}

/// Each text spells a schedule or is refused, never both; it spells one schedule, and gets one refusal;
/// what spells a schedule is its printed text. That text spells it where no act names a processor above 15 and the text
/// is within the limit.
pub fn schedules()
    ensures spelled_or_refused { (text : List ℕ) → IsSpelledSchedule text ⊎ IsRefusedSchedule text }
    ensures never_both { (text : List ℕ) → IsSpelledSchedule text → IsRefusedSchedule text → ⊥ }
    ensures one_value { (text : List ℕ) (acts others : List Act) → SpellsSchedule text acts → SpellsSchedule text others → acts ≡ others }
    ensures one_text { (text : List ℕ) (acts : List Act) → SpellsSchedule text acts → text ≡ schedule_text acts }
    ensures printed { (acts : List Act) → All (λ act. processor_of act ≤ 15) acts → length (schedule_text acts) ≤ text_byte_limit →
        SpellsSchedule (schedule_text acts) acts }
    ensures one_refusal { (text : List ℕ) (j k : ℕ) (v w : Why) → IsScheduleRefusal text j v → IsScheduleRefusal text k w → (j ≡ k) × (v ≡ w) }
{}

/// A trace or a program of version 1 whose text has no line `model` is of version 1 under TSO, without first values: so what
/// is said of such values holds of all texts that have neither.
pub fn texts_without_a_model()
    ensures traces { (rest : List ℕ) (t : TraceValue) → model_line_in (whole_lines (parts_of rest)) ≡ [] →
        SpellsTrace (trace_header One ++ 10 ∷ rest) t → t.setting ≡ version_one_tso }
    ensures programs { (rest : List ℕ) (p : ProgramValue) → model_line_in (whole_lines (parts_of rest)) ≡ [] →
        SpellsProgram (program_header One ++ 10 ∷ rest) p → p.setting ≡ version_one_tso }
{}
