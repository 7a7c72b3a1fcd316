ghost use Rattle.std.specs.Prelude.{◌≡◌, ◌≢◌, ◌++◌, ◌∷◌, [], ◌≤◌, true, false, ℕ, List, map, length, All, None, string_bytes, OnOk, IfOk, IfErr};
ghost use Rattle.std.specs.List.{join_with_byte};
ghost use Rattle.line_text.specs.Lines.{line_text};
ghost use Rattle.tso_ops.specs.declared.limits.Tally.{Tally};
ghost use Rattle.tso_ops.specs.Settings.{SettingValue, setting_of};
ghost use Rattle.tso_ops.specs.Tally.{Admitted};
ghost use Rattle.tso_ops.specs.Values.{rows, op_of, ReadFits};
ghost use Rattle.tso_text.specs.Internal.Grammars.{trace_format, program_format, schedule_format};
ghost use Rattle.tso_text.specs.Internal.LineReadings.{has_stbar};
ghost use Rattle.tso_text.specs.Texts.{processor_of, text_byte_limit};
ghost use Rattle.tso_text.specs.Printed.{outcome_tokens, op_tokens, act_tokens};
ghost use Rattle.tso_text.specs.Internal.Spelling.{Format, preamble_of, said, items_of};
ghost use Rattle.tso_text.specs.Internal.Accepted.{CanSay, IsItemRefusedFor};
ghost use Rattle.tso_text.specs.Internal.Begun.{HasBegun, IsPreambleRefusal};
ghost use Rattle.tso_text.specs.declared.lines.Line.TheVariants.{Item};
ghost use Rattle.tso_text.specs.declared.faults.Why.{Why};

use crate::faults::{TextFault, Why, why_of};
use crate::lines::Line;
use crate::numbers::{address, no_number, one_number, three_numbers, two_numbers};
use crate::preambles::{read_header, read_setting};
use crate::words::{END, LD, MB, PROC, ST, STBAR, SW};
use line_text::next_token;
use std::alloc::{AllocError, Global};
use std::fmt::Write;
use tso_ops::{Act, Op, Order, Outcome, Setting, Tally};

/// The greatest processor that a schedule may name.
const MAX_PROCESSOR: usize = 15;

/// What the lines of a text are made of: the items of its lists, with the text's format.
pub(crate) trait Form: Copy {
    ghost format: { Format Self };

    ghost keeps: { SettingValue → Tally → List Self → Type 0 };

    ghost tokens: { Self → List (List ℕ) };

    /// Reads the preamble: its setting, the number of its lines, and what stands after it.
    fn read_preamble(alloc: Global, text: &[u8]) -> Result<(Setting, usize, &[u8]), TextFault>
        requires { length text.now ≤ text_byte_limit }
        ensures begun { IfOk result (λ begun. HasBegun (preamble_of format text.now) text.now (setting_of begun.0) begun.1 begun.2.now) }
        ensures refused { IfErr result (λ fault. fault.why ≢ Why.OutOfMemory → IsPreambleRefusal (preamble_of format text.now) fault.line fault.why) }
        ensures memory { IfErr result (λ fault. fault.why ≡ Why.OutOfMemory → fault.line ≡ 0) };

    /// The lists that no line makes, and the tally of them.
    fn start(alloc: Global, setting: &Setting) -> Result<(Vec<Vec<Self>>, Tally), Why>
        ensures start { IfOk result (λ start. rows start.0.items ≡ (format.grammar (setting_of setting.now)).start) }
        ensures keeps { IfOk result (λ start. keeps (setting_of setting.now) start.1 (items_of (format.grammar (setting_of setting.now)).start)) }
        ensures few { length (format.grammar (setting_of setting.now)).start ≤ 16 }
        ensures refused { IfErr result (λ why. why ≡ Why.OutOfMemory) };

    /// What a line says, or its fault.
    fn said_by(order: Order, line: &[u8]) -> Result<Line<Self>, Why>
        ensures { (setting : SettingValue) → setting.order ≡ order → result ≡ said (format.grammar setting) line.now };

    /// Appends the line of the item.
    fn print(self, text: &mut String) -> Result<(), AllocError>
        ensures { OnOk result (string_bytes text.new ≡ string_bytes text.old ++ line_text (tokens self)) };

    /// Admits the item that a line says, after those admitted before, or refuses it for its first fault.
    fn admit(self, setting: &Setting, tally: &mut Tally) -> Result<(), Why>
        requires said { CanSay (format.grammar (setting_of setting.now)) (Item self) }
        requires kept { (items : List Self) × keeps (setting_of setting.now) tally.old items }
        ensures admitted { (items : List Self) → keeps (setting_of setting.now) tally.old items →
            OnOk result (keeps (setting_of setting.now) tally.new (items ++ self ∷ [])) }
        ensures clean { (items : List Self) → keeps (setting_of setting.now) tally.old items →
            OnOk result ((format.grammar (setting_of setting.now)).item_fault items self ≡ None) }
        ensures refused { (items : List Self) → keeps (setting_of setting.now) tally.old items →
            IfErr result (IsItemRefusedFor (format.grammar (setting_of setting.now)) items self) };
}

impl Form for Outcome {
    ghost format = { trace_format };

    ghost keeps = { λ setting tally items. Admitted setting tally (map op_of items) × All ReadFits items };

    ghost tokens = { outcome_tokens };

    fn read_preamble(alloc: Global, text: &[u8]) -> Result<(Setting, usize, &[u8]), TextFault> {
        read_setting(alloc, b"tso trace 1", b"tso trace 2", text)
    }

    fn start(alloc: Global, setting: &Setting) -> Result<(Vec<Vec<Outcome>>, Tally), Why> {
        Ok((Vec::new(alloc), Tally::of_setting(alloc, setting)?))
    }

    #[tactic(auto, unfolding(crate::specs::Internal::LineReadings::trace_line))]
    fn said_by(order: Order, line: &[u8]) -> Result<Line<Outcome>, Why> {
        let (word, tokens) = next_token(line);
        if word == PROC.as_bytes() {
            no_number(tokens)?;
            Ok(Line::Proc)
        } else if word == LD.as_bytes() {
            let (a, r) = two_numbers(tokens)?;
            Ok(Line::Item(Outcome::Ld { a: address(a), r }))
        } else if word == ST.as_bytes() {
            let (a, v) = two_numbers(tokens)?;
            Ok(Line::Item(Outcome::St { a: address(a), v }))
        } else if word == SW.as_bytes() {
            let (a, r, v) = three_numbers(tokens)?;
            Ok(Line::Item(Outcome::Sw {
                a: address(a),
                r,
                v,
            }))
        } else if word == MB.as_bytes() {
            no_number(tokens)?;
            Ok(Line::Item(Outcome::Mb))
        } else if word == END.as_bytes() {
            no_number(tokens)?;
            Ok(Line::End)
        } else if has_stbar(order) && word == STBAR.as_bytes() {
            no_number(tokens)?;
            Ok(Line::Item(Outcome::Sb))
        } else {
            Err(Why::BadLine)
        }
    }

    fn print(self, text: &mut String) -> Result<(), AllocError> {
        print_outcome(text, self)?;
        text.push_str("\n")
    }

    fn admit(self, _setting: &Setting, tally: &mut Tally) -> Result<(), Why> {
        match tally.admit(self.op()) {
            Ok(()) => Ok(()),
            Err(fault) => Err(why_of(fault)),
        }
    }
}

impl Form for Op {
    ghost format = { program_format };

    ghost keeps = { λ setting tally items. Admitted setting tally items };

    ghost tokens = { op_tokens };

    fn read_preamble(alloc: Global, text: &[u8]) -> Result<(Setting, usize, &[u8]), TextFault> {
        read_setting(alloc, b"tso program 1", b"tso program 2", text)
    }

    fn start(alloc: Global, setting: &Setting) -> Result<(Vec<Vec<Op>>, Tally), Why> {
        Ok((Vec::new(alloc), Tally::of_setting(alloc, setting)?))
    }

    #[tactic(auto, unfolding(crate::specs::Internal::LineReadings::program_line))]
    fn said_by(order: Order, line: &[u8]) -> Result<Line<Op>, Why> {
        let (word, tokens) = next_token(line);
        if word == PROC.as_bytes() {
            no_number(tokens)?;
            Ok(Line::Proc)
        } else if word == LD.as_bytes() {
            let a = one_number(tokens)?;
            Ok(Line::Item(Op::Ld { a: address(a) }))
        } else if word == ST.as_bytes() {
            let (a, v) = two_numbers(tokens)?;
            Ok(Line::Item(Op::St { a: address(a), v }))
        } else if word == SW.as_bytes() {
            let (a, v) = two_numbers(tokens)?;
            Ok(Line::Item(Op::Sw { a: address(a), v }))
        } else if word == MB.as_bytes() {
            no_number(tokens)?;
            Ok(Line::Item(Op::Mb))
        } else if word == END.as_bytes() {
            no_number(tokens)?;
            Ok(Line::End)
        } else if has_stbar(order) && word == STBAR.as_bytes() {
            no_number(tokens)?;
            Ok(Line::Item(Op::Sb))
        } else {
            Err(Why::BadLine)
        }
    }

    fn print(self, text: &mut String) -> Result<(), AllocError> {
        match self {
            Op::Ld { a } => writeln!(text, "{LD} {a}"),
            Op::St { a, v } => writeln!(text, "{ST} {a} {v}"),
            Op::Sw { a, v } => writeln!(text, "{SW} {a} {v}"),
            Op::Mb => writeln!(text, "{MB}"),
            Op::Sb => writeln!(text, "{STBAR}"),
        }
    }

    fn admit(self, _setting: &Setting, tally: &mut Tally) -> Result<(), Why> {
        match tally.admit(self) {
            Ok(()) => Ok(()),
            Err(fault) => Err(why_of(fault)),
        }
    }
}

impl Form for Act {
    ghost format = { schedule_format };

    ghost keeps = { λ setting tally items. Unit {0} };

    ghost tokens = { act_tokens };

    fn read_preamble(alloc: Global, text: &[u8]) -> Result<(Setting, usize, &[u8]), TextFault> {
        read_header(alloc, b"tso schedule 1", text)
    }

    fn start(alloc: Global, _setting: &Setting) -> Result<(Vec<Vec<Act>>, Tally), Why> {
        let mut lists = Vec::new(alloc);
        lists.push(Vec::new(alloc))?;
        Ok((lists, Tally::new(alloc)))
    }

    #[tactic(auto, unfolding(crate::specs::Internal::LineReadings::schedule_line))]
    fn said_by(_order: Order, line: &[u8]) -> Result<Line<Act>, Why> {
        let (word, tokens) = next_token(line);
        if word == b"i".as_slice() {
            let p = one_number(tokens)?;
            Ok(Line::Item(Act::Issue(p as usize)))
        } else if word == b"d".as_slice() {
            let p = one_number(tokens)?;
            Ok(Line::Item(Act::Drain(p as usize)))
        } else if word == END.as_bytes() {
            no_number(tokens)?;
            Ok(Line::End)
        } else {
            Err(Why::BadLine)
        }
    }

    fn print(self, text: &mut String) -> Result<(), AllocError> {
        match self {
            Act::Issue(p) => writeln!(text, "i {p}"),
            Act::Drain(p) => writeln!(text, "d {p}"),
        }
    }

    fn admit(self, _setting: &Setting, _tally: &mut Tally) -> Result<(), Why> {
        if processor_of(self) > MAX_PROCESSOR {
            return Err(Why::ProcessorRange);
        }
        Ok(())
    }
}

/// Appends what a line of a trace says, without the line end.
pub fn print_outcome(text: &mut String, outcome: Outcome) -> Result<(), AllocError>
    ensures { OnOk result (string_bytes text.new ≡ string_bytes text.old ++ join_with_byte 32 (outcome_tokens outcome)) }
{
    match outcome {
        Outcome::Ld { a, r } => write!(text, "{LD} {a} {r}"),
        Outcome::St { a, v } => write!(text, "{ST} {a} {v}"),
        Outcome::Sw { a, r, v } => write!(text, "{SW} {a} {r} {v}"),
        Outcome::Mb => text.push_str(MB),
        Outcome::Sb => text.push_str(STBAR),
    }
}

/// Whether `stbar` is a keyword of texts of this memory model.
fn has_stbar(order: Order) -> bool
    ensures { result ≡ has_stbar order }
{
    match order {
        Order::Tso => false,
        Order::Pso => true,
    }
}

/// The processor that an act names.
fn processor_of(act: Act) -> usize
    ensures { result ≡ processor_of act }
{
    match act {
        Act::Issue(p) | Act::Drain(p) => p,
    }
}
