ghost use Rattle.std.specs.Prelude.{◌≡◌, ◌⊎◌, ◌<◌, ◌^◌, ◌++◌, [], ◌∷◌, All, List, map, string_bytes, IfErr, OnOk};
ghost use Rattle.std.specs.List.{flat_map};
ghost use Rattle.line_text.specs.Lines.{line_text};
ghost use Rattle.value_evidence.specs.declared.refutations.ValueRefutationLine.{ValueRefutationLine};
ghost use Rattle.value_texts.specs.Names.{AreNamesDistinct, IsNumbered, event_name_text};
ghost use Rattle.value_texts.specs.Printed.{evidence_value, log_evidence_value, without_cases, event_token, source_token, value_step_tokens, value_end_tokens, refutation_line_tokens, log_order_tokens, evidence_text_of_log, value_evidence_text, OfEachEvent, OfEndEvent, OfLineEvents, OfAllEvents};
ghost use Rattle.value_texts.specs.Spelling.{SpellsLogEvidence};
ghost use Rattle.value_texts.specs.declared.refusals.ValuePrintRefusal.{ValuePrintRefusal};
ghost use Rattle.value_texts.specs.Internal.LineValues.{word_token};
ghost use Rattle.value_texts.specs.Internal.Names.{IsNameable};

use crate::names::EventName;
use crate::refusals::ValuePrintRefusal;
use crate::words::{StepWord, Word};
use std::fmt::Write;
use tso_ops::OutOfMemory;
use value_evidence::{LogEvidence, ValueEnd, ValueEvidence, ValueRefutationLine, ValueStep};

/// Appends the text of evidence about a log, whose events have these names. Where no two events have one name, it spells the evidence,
/// so `read_log_evidence` reads it back.
///
/// NoEvent where a number in the evidence is that of no event, and OutOfMemory where an allocation was refused: what the text holds
/// then isn't said.
pub fn print_log_evidence(
    text: &mut String,
    names: &[EventName],
    evidence: &LogEvidence,
) -> Result<(), ValuePrintRefusal>
    ensures lines { OnOk result (string_bytes text.new ≡ string_bytes text.old ++ evidence_text_of_log names.now (log_evidence_value evidence.now)) }
    ensures numbered { OnOk result (OfAllEvents (IsNumbered names.now) (log_evidence_value evidence.now)) }
    ensures spells { OnOk result (AreNamesDistinct names.now →
        SpellsLogEvidence names.now (evidence_text_of_log names.now (log_evidence_value evidence.now)) (log_evidence_value evidence.now)) }
    ensures refused { IfErr result (λ why. why ≡ ValuePrintRefusal.NoEvent → OfAllEvents (IsNumbered names.now) (log_evidence_value evidence.now) → ⊥) }
{
    match evidence {
        LogEvidence::Order(numbers) => print_order(text, names, numbers),
        LogEvidence::Refutation(lines) => print_lines(text, names, lines),
    }
}

/// Appends the text of evidence without cases, which is that of the refutation with its steps and its end. The errors are those of
/// `print_log_evidence`.
pub fn print_value_evidence(
    text: &mut String,
    names: &[EventName],
    evidence: &ValueEvidence,
) -> Result<(), ValuePrintRefusal>
    ensures lines { OnOk result (string_bytes text.new ≡ string_bytes text.old ++ value_evidence_text names.now (evidence_value evidence.now)) }
    ensures numbered { OnOk result (OfAllEvents (IsNumbered names.now) (without_cases (evidence_value evidence.now))) }
    ensures spells { OnOk result (AreNamesDistinct names.now →
        SpellsLogEvidence names.now (value_evidence_text names.now (evidence_value evidence.now)) (without_cases (evidence_value evidence.now))) }
    ensures refused { IfErr result (λ why. why ≡ ValuePrintRefusal.NoEvent →
        OfAllEvents (IsNumbered names.now) (without_cases (evidence_value evidence.now)) → ⊥) }
{
    print_steps(text, names, &evidence.steps)?;
    print_end(text, names, evidence.end)
}

/// Appends the line of an order.
fn print_order(
    text: &mut String,
    names: &[EventName],
    numbers: &[usize],
) -> Result<(), ValuePrintRefusal>
    ensures line { OnOk result (string_bytes text.new ≡ string_bytes text.old ++ line_text (log_order_tokens names.now numbers.now)) }
    ensures nameable { OnOk result (All (IsNameable names.now) numbers.now) }
    ensures refused { IfErr result (λ why. why ≡ ValuePrintRefusal.NoEvent → All (IsNumbered names.now) numbers.now → ⊥) }
{
    text.push_str("order")?;
    print_events(text, names, numbers)?;
    text.push_str("\n")?;
    Ok(())
}

/// Appends a space and the name of an event, for each of them.
fn print_events(
    text: &mut String,
    names: &[EventName],
    numbers: &[usize],
) -> Result<(), ValuePrintRefusal>
    ensures tokens { OnOk result (string_bytes text.new ≡ string_bytes text.old ++ flat_map (λ n. 32 ∷ event_token names.now n) numbers.now) }
    ensures nameable { OnOk result (All (IsNameable names.now) numbers.now) }
    ensures refused { IfErr result (λ why. why ≡ ValuePrintRefusal.NoEvent → All (IsNumbered names.now) numbers.now → ⊥) }
{
    for number in numbers {
        print_event(text, names, *number)?;
    }
    Ok(())
}

/// Appends lines of a refutation.
fn print_lines(
    text: &mut String,
    names: &[EventName],
    lines: &[ValueRefutationLine],
) -> Result<(), ValuePrintRefusal>
    ensures lines { OnOk result (string_bytes text.new ≡ string_bytes text.old ++ flat_map line_text (map (refutation_line_tokens names.now) lines.now)) }
    ensures nameable { OnOk result (All (OfLineEvents (IsNameable names.now)) lines.now) }
    ensures refused { IfErr result (λ why. why ≡ ValuePrintRefusal.NoEvent → All (OfLineEvents (IsNumbered names.now)) lines.now → ⊥) }
{
    for line in lines {
        print_line(text, names, *line)?;
    }
    Ok(())
}

/// Appends the lines of steps.
fn print_steps(
    text: &mut String,
    names: &[EventName],
    steps: &[ValueStep],
) -> Result<(), ValuePrintRefusal>
    ensures lines { OnOk result (string_bytes text.new ≡ string_bytes text.old ++ flat_map line_text (map (value_step_tokens names.now) steps.now)) }
    ensures nameable { OnOk result (All (OfEachEvent (IsNameable names.now)) steps.now) }
    ensures refused { IfErr result (λ why. why ≡ ValuePrintRefusal.NoEvent → All (OfEachEvent (IsNumbered names.now)) steps.now → ⊥) }
{
    for step in steps {
        print_step(text, names, *step)?;
    }
    Ok(())
}

/// Appends a line of a refutation.
fn print_line(
    text: &mut String,
    names: &[EventName],
    line: ValueRefutationLine,
) -> Result<(), ValuePrintRefusal>
    ensures line { OnOk result (string_bytes text.new ≡ string_bytes text.old ++ line_text (refutation_line_tokens names.now line)) }
    ensures nameable { OnOk result (OfLineEvents (IsNameable names.now) line) }
    ensures refused { IfErr result (λ why. why ≡ ValuePrintRefusal.NoEvent → OfLineEvents (IsNumbered names.now) line → ⊥) }
{
    match line {
        ValueRefutationLine::Step(step) => print_step(text, names, step),
        ValueRefutationLine::ReadCase { load, source } => {
            print_read(text, names, Word::CaseRead, load, source)
        }
        ValueRefutationLine::BeforeCase { first, second } => {
            print_pair(text, names, Word::CaseBefore, first, second)
        }
        ValueRefutationLine::Else => print_else(text),
        ValueRefutationLine::End(end) => print_end(text, names, end),
    }
}

/// Appends the line of a step.
fn print_step(
    text: &mut String,
    names: &[EventName],
    step: ValueStep,
) -> Result<(), ValuePrintRefusal>
    ensures line { OnOk result (string_bytes text.new ≡ string_bytes text.old ++ line_text (value_step_tokens names.now step)) }
    ensures nameable { OnOk result (OfEachEvent (IsNameable names.now) step) }
    ensures refused { IfErr result (λ why. why ≡ ValuePrintRefusal.NoEvent → OfEachEvent (IsNumbered names.now) step → ⊥) }
{
    match step {
        ValueStep::Read { load, source } => {
            print_read(text, names, Word::Step(StepWord::Read), load, source)
        }
        ValueStep::In { from, load } => {
            print_pair(text, names, Word::Step(StepWord::In), from, load)
        }
        ValueStep::Out { load, to } => {
            print_pair(text, names, Word::Step(StepWord::Out), load, to)
        }
        ValueStep::Over { from, to, load } => print_over(text, names, from, to, load),
        ValueStep::SwapAfter { swap, to } => {
            print_pair(text, names, Word::Step(StepWord::After), swap, to)
        }
        ValueStep::SwapBefore { from, swap } => {
            print_pair(text, names, Word::Step(StepWord::Before), from, swap)
        }
    }
}

/// Appends the line of the second part of a case.
fn print_else(text: &mut String) -> Result<(), ValuePrintRefusal>
    ensures line { OnOk result (string_bytes text.new ≡ string_bytes text.old ++ line_text (word_token Word.Else ∷ [])) }
    ensures memory { IfErr result (λ why. why ≡ ValuePrintRefusal.OutOfMemory) }
{
    text.push_str(Word::Else.token())?;
    text.push_str("\n")?;
    Ok(())
}

/// Appends the line of an end.
fn print_end(text: &mut String, names: &[EventName], end: ValueEnd) -> Result<(), ValuePrintRefusal>
    ensures line { OnOk result (string_bytes text.new ≡ string_bytes text.old ++ line_text (value_end_tokens names.now end)) }
    ensures nameable { OnOk result (OfEndEvent (IsNameable names.now) end) }
    ensures refused { IfErr result (λ why. why ≡ ValuePrintRefusal.NoEvent → OfEndEvent (IsNumbered names.now) end → ⊥) }
{
    let (word, event) = match end {
        ValueEnd::NoSource(load) => (Word::NoSource, load),
        ValueEnd::Cycle(n) => (Word::Cycle, n),
    };
    text.push_str(word.token())?;
    print_event(text, names, event)?;
    text.push_str("\n")?;
    Ok(())
}

/// Appends the line of a word, a load and a source.
fn print_read(
    text: &mut String,
    names: &[EventName],
    word: Word,
    load: usize,
    source: usize,
) -> Result<(), ValuePrintRefusal>
    ensures line { OnOk result (string_bytes text.new ≡
        string_bytes text.old ++ line_text (word_token word ∷ event_token names.now load ∷ source_token names.now source ∷ [])) }
    ensures nameable { OnOk result (IsNameable names.now load × ((source ≡ 0) ⊎ IsNameable names.now source)) }
    ensures refused { IfErr result (λ why. why ≡ ValuePrintRefusal.NoEvent →
        IsNumbered names.now load × ((source ≡ 0) ⊎ IsNumbered names.now source) → ⊥) }
{
    text.push_str(word.token())?;
    print_event(text, names, load)?;
    if source == 0 {
        text.push_str(" init")?;
    } else {
        print_event(text, names, source)?;
    }
    text.push_str("\n")?;
    Ok(())
}

/// Appends the line of a word and two events.
fn print_pair(
    text: &mut String,
    names: &[EventName],
    word: Word,
    first: usize,
    second: usize,
) -> Result<(), ValuePrintRefusal>
    ensures line { OnOk result (string_bytes text.new ≡
        string_bytes text.old ++ line_text (word_token word ∷ event_token names.now first ∷ event_token names.now second ∷ [])) }
    ensures nameable { OnOk result (IsNameable names.now first × IsNameable names.now second) }
    ensures refused { IfErr result (λ why. why ≡ ValuePrintRefusal.NoEvent → IsNumbered names.now first × IsNumbered names.now second → ⊥) }
{
    text.push_str(word.token())?;
    print_event(text, names, first)?;
    print_event(text, names, second)?;
    text.push_str("\n")?;
    Ok(())
}

/// Appends the line of a step `over`.
fn print_over(
    text: &mut String,
    names: &[EventName],
    from: usize,
    to: usize,
    load: usize,
) -> Result<(), ValuePrintRefusal>
    ensures line { OnOk result (string_bytes text.new ≡ string_bytes text.old ++ line_text (value_step_tokens names.now (ValueStep.Over from to load))) }
    ensures nameable { OnOk result (OfEachEvent (IsNameable names.now) (ValueStep.Over from to load)) }
    ensures refused { IfErr result (λ why. why ≡ ValuePrintRefusal.NoEvent → OfEachEvent (IsNumbered names.now) (ValueStep.Over from to load) → ⊥) }
{
    text.push_str(Word::Step(StepWord::Over).token())?;
    print_event(text, names, from)?;
    print_event(text, names, to)?;
    print_event(text, names, load)?;
    text.push_str("\n")?;
    Ok(())
}

/// Appends a space and the name of an event.
fn print_event(text: &mut String, names: &[EventName], n: usize) -> Result<(), ValuePrintRefusal>
    ensures token { OnOk result (string_bytes text.new ≡ string_bytes text.old ++ 32 ∷ event_token names.now n) }
    ensures nameable { OnOk result (IsNameable names.now n) }
    ensures refused { IfErr result (λ why. why ≡ ValuePrintRefusal.NoEvent → IsNumbered names.now n → ⊥) }
{
    if n == 0 || n > names.len() {
        return Err(ValuePrintRefusal::NoEvent);
    }
    text.push_str(" ")?;
    print_name(text, names[n - 1])?;
    Ok(())
}

/// Appends a name.
fn print_name(text: &mut String, name: EventName) -> Result<(), OutOfMemory>
    ensures token { OnOk result (string_bytes text.new ≡ string_bytes text.old ++ event_name_text name) }
    ensures fits { name.line < 2 ^ 64 }
{
    write!(text, "{}", name.line)?;
    if name.is_swap_store {
        text.push_str("'")?;
    }
    Ok(())
}
