ghost use Rattle.std.specs.Prelude.{◌≡◌, ◌++◌, ◌≤◌, All, length, string_bytes, OnOk, IfOk};
ghost use Rattle.line_text.specs.Lines.{line_text};
ghost use Rattle.tso_ops.specs.Settings.{setting_of};
ghost use Rattle.tso_text.specs.Texts.{processor_of, SpellsTrace, SpellsProgram, SpellsSchedule, text_byte_limit};
ghost use Rattle.tso_text.specs.Printed.{entry_tokens, items_text, model_text, processor_text, setting_text, trace_text, program_text, schedule_text};

use crate::forms::Form;
use crate::words::{END, PROC};
use std::alloc::{AllocError, Global};
use std::fmt::Write;
use tso_ops::{Act, Order, OutOfMemory, Program, Setting, Trace, Version};

/// The text of a trace, which spells it. OutOfMemory where an allocation was refused.
pub fn print_trace(alloc: Global, trace: &Trace) -> Result<String, OutOfMemory>
    ensures lines { IfOk result (λ text. string_bytes text ≡ trace_text trace.now) }
    ensures spelled { IfOk result (λ text. SpellsTrace (string_bytes text) trace.now) }
{
    let mut text = match trace.version() {
        Version::One => String::from_str(alloc, "tso trace 1\n")?,
        Version::Two => String::from_str(alloc, "tso trace 2\n")?,
    };
    print_setting(&mut text, trace.setting())?;
    for p in 0..trace.processors() {
        print_processor(&mut text, trace.ops(p))?;
    }
    writeln!(text, "{END}")?;
    Ok(text)
}

/// The text of a program, which spells it. OutOfMemory where an allocation was refused.
pub fn print_program(alloc: Global, program: &Program) -> Result<String, OutOfMemory>
    ensures lines { IfOk result (λ text. string_bytes text ≡ program_text program.now) }
    ensures spelled { IfOk result (λ text. SpellsProgram (string_bytes text) program.now) }
{
    let mut text = match program.version() {
        Version::One => String::from_str(alloc, "tso program 1\n")?,
        Version::Two => String::from_str(alloc, "tso program 2\n")?,
    };
    print_setting(&mut text, program.setting())?;
    for p in 0..program.processors() {
        print_processor(&mut text, program.ops(p))?;
    }
    writeln!(text, "{END}")?;
    Ok(text)
}

/// The text of a schedule. It spells the schedule where there is a spelling: where no act names a processor above 15,
/// and the text is within the limit. OutOfMemory where an allocation was refused.
pub fn print_schedule(alloc: Global, acts: &[Act]) -> Result<String, OutOfMemory>
    ensures lines { IfOk result (λ text. string_bytes text ≡ schedule_text acts.now) }
    ensures spelled { IfOk result (λ text. All (λ act. processor_of act ≤ 15) acts.now → length (string_bytes text) ≤ text_byte_limit →
        SpellsSchedule (string_bytes text) acts.now) }
{
    let mut text = String::from_str(alloc, "tso schedule 1\n")?;
    print_items(&mut text, acts)?;
    writeln!(text, "{END}")?;
    Ok(text)
}

/// Appends the lines that say the memory model and the first values.
fn print_setting(text: &mut String, setting: &Setting) -> Result<(), OutOfMemory>
    ensures { OnOk result (string_bytes text.new ≡ string_bytes text.old ++ setting_text (setting_of setting.now)) }
{
    print_model(text, setting.order)?;
    print_entries(text, &setting.first)
}

/// Appends the line that says the memory model: TSO has none.
fn print_model(text: &mut String, order: Order) -> Result<(), OutOfMemory>
    ensures { OnOk result (string_bytes text.new ≡ string_bytes text.old ++ model_text order) }
{
    match order {
        Order::Tso => Ok(()),
        Order::Pso => Ok(text.push_str("model pso\n")?),
    }
}

/// Appends the lines of first values.
fn print_entries(text: &mut String, first: &[(u16, u64)]) -> Result<(), OutOfMemory>
    ensures { OnOk result (string_bytes text.new ≡ string_bytes text.old ++ items_text entry_tokens first.now) }
{
    for entry in first {
        print_entry(text, entry.0, entry.1)?;
    }
    Ok(())
}

/// Appends the line of a first value.
fn print_entry(text: &mut String, a: u16, v: u64) -> Result<(), AllocError>
    ensures { OnOk result (string_bytes text.new ≡ string_bytes text.old ++ line_text (entry_tokens (a, v))) }
{
    writeln!(text, "init {a} {v}")
}

/// Appends the lines of a processor.
fn print_processor<T: Form>(text: &mut String, items: &[T]) -> Result<(), OutOfMemory>
    ensures { OnOk result (string_bytes text.new ≡ string_bytes text.old ++ processor_text T.tokens items.now) }
{
    writeln!(text, "{PROC}")?;
    print_items(text, items)
}

/// Appends the lines of items.
fn print_items<T: Form>(text: &mut String, items: &[T]) -> Result<(), OutOfMemory>
    ensures { OnOk result (string_bytes text.new ≡ string_bytes text.old ++ items_text T.tokens items.now) }
{
    for item in items {
        item.print(text)?;
    }
    Ok(())
}
