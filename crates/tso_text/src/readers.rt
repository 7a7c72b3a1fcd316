ghost use Rattle.std.specs.Prelude.{◌≡◌, ◌≢◌, List, ◌+◌, ◌≤◌, length, MatchResult, IfOk, IfErr};
ghost use Rattle.line_text.specs.Lines.{parts_of};
ghost use Rattle.tso_ops.specs.Settings.{setting_of};
ghost use Rattle.tso_ops.specs.Values.{TraceValue, ProgramValue, rows};
ghost use Rattle.tso_text.specs.Texts.{SpellsTrace, SpellsProgram, SpellsSchedule, text_byte_limit};
ghost use Rattle.tso_text.specs.Refusals.{IsTraceRefusal, IsProgramRefusal, IsScheduleRefusal};
ghost use Rattle.tso_text.specs.Internal.Spelling.{preamble_of, IsTextRefusal};
ghost use Rattle.tso_text.specs.Internal.Spelled.{SpellsLists};
ghost use Rattle.tso_text.specs.Internal.Accepted.{IsKept};
ghost use Rattle.tso_text.specs.Internal.Begun.{IsSetting, SpellsBody, IsBodyRefusedAfter};
ghost use Rattle.tso_ops.specs.declared.acts.Act.{Act};
ghost use Rattle.tso_text.specs.declared.faults.Why.{Why};

use crate::faults::{TextFault, Why, fault_of};
use crate::forms::Form;
use crate::lines::next_line;
use crate::readings::Reading;
use std::alloc::Global;
use tso_ops::{Act, Program, Setting, Trace};

/// The greatest number of bytes of the text of a trace, a program or a schedule.
pub const MAX_TEXT_BYTES: usize = 1_048_576;

/// OutOfMemory is a refusal of the whole text.
const NO_MEMORY: TextFault = TextFault {
    line: 0,
    why: Why::OutOfMemory,
};

/// Reads the text of a trace.
///
/// Refused: the least line that has a fault, and there the fault of the least number; or OutOfMemory where an allocation
/// was refused.
pub fn read_trace(alloc: Global, text: &[u8]) -> Result<Trace, TextFault>
    ensures found { IfOk result (SpellsTrace text.now) }
    ensures only { (t : TraceValue) → SpellsTrace text.now t → MatchResult result (λ u. u ≡ t) (λ fault. fault.why ≡ Why.OutOfMemory) }
    ensures refused { IfErr result (λ fault. fault.why ≢ Why.OutOfMemory → IsTraceRefusal text.now fault.line fault.why) }
    ensures memory { IfErr result (λ fault. fault.why ≡ Why.OutOfMemory → fault.line ≡ 0) }
{
    match read_lists(alloc, text) {
        Ok((setting, lists)) => match Trace::of_lists(alloc, setting, lists) {
            Ok(trace) => Ok(trace),
            Err(_) => Err(NO_MEMORY),
        },
        Err(fault) => Err(fault),
    }
}

/// Reads the text of a program. It is refused as the text of a trace is.
pub fn read_program(alloc: Global, text: &[u8]) -> Result<Program, TextFault>
    ensures found { IfOk result (SpellsProgram text.now) }
    ensures only { (p : ProgramValue) → SpellsProgram text.now p → MatchResult result (λ q. q ≡ p) (λ fault. fault.why ≡ Why.OutOfMemory) }
    ensures refused { IfErr result (λ fault. fault.why ≢ Why.OutOfMemory → IsProgramRefusal text.now fault.line fault.why) }
    ensures memory { IfErr result (λ fault. fault.why ≡ Why.OutOfMemory → fault.line ≡ 0) }
{
    match read_lists(alloc, text) {
        Ok((setting, lists)) => Ok(Program::of_lists(setting, lists)),
        Err(fault) => Err(fault),
    }
}

/// Reads the text of a schedule. It is refused as the text of a trace is.
pub fn read_schedule(alloc: Global, text: &[u8]) -> Result<Vec<Act>, TextFault>
    ensures found { IfOk result (λ acts. SpellsSchedule text.now acts.items) }
    ensures only { (acts : List Act) → SpellsSchedule text.now acts → MatchResult result (λ read. read.items ≡ acts) (λ fault. fault.why ≡ Why.OutOfMemory) }
    ensures refused { IfErr result (λ fault. fault.why ≢ Why.OutOfMemory → IsScheduleRefusal text.now fault.line fault.why) }
    ensures memory { IfErr result (λ fault. fault.why ≡ Why.OutOfMemory → fault.line ≡ 0) }
{
    match read_lists(alloc, text) {
        Ok((_, mut lists)) => Ok(lists.pop().unwrap_or(Vec::new(alloc))),
        Err(fault) => Err(fault),
    }
}

/// The setting and the lists that a text spells.
pub(crate) fn read_lists<T: Form>(
    alloc: Global,
    text: &[u8],
) -> Result<(Setting, Vec<Vec<T>>), TextFault>
    ensures says { IfOk result (λ read. (preamble_of T.format text.now).setting ≡ setting_of read.0) }
    ensures setting { IfOk result (λ read. IsSetting (setting_of read.0)) }
    ensures found { IfOk result (λ read. SpellsLists T.format text.now (rows read.1.items)) }
    ensures kept { IfOk result (λ read. IsKept (T.keeps (setting_of read.0)) (rows read.1.items)) }
    ensures refused { IfErr result (λ fault. fault.why ≢ Why.OutOfMemory → IsTextRefusal T.format text.now fault.line fault.why) }
    ensures memory { IfErr result (λ fault. fault.why ≡ Why.OutOfMemory → fault.line ≡ 0) }
{
    if text.len() > MAX_TEXT_BYTES {
        return Err(TextFault {
            line: 0,
            why: Why::TooLong,
        });
    }
    let (setting, lines, rest) = match T::read_preamble(alloc, text) {
        Ok(begun) => begun,
        Err(fault) => return Err(fault),
    };
    match read_body(alloc, &setting, lines, rest) {
        Ok(lists) => Ok((setting, lists)),
        Err(fault) => Err(fault),
    }
}

/// The lists that a text spells after so many lines of its preamble.
fn read_body<T: Form>(
    alloc: Global,
    setting: &Setting,
    lines: usize,
    text: &[u8],
) -> Result<Vec<Vec<T>>, TextFault>
    requires { lines + length text.now ≤ text_byte_limit }
    ensures found { IfOk result (λ lists. SpellsBody (T.format.grammar (setting_of setting.now)) (parts_of text.now) (rows lists.items)) }
    ensures kept { IfOk result (λ lists. IsKept (T.keeps (setting_of setting.now)) (rows lists.items)) }
    ensures refused { IfErr result (λ fault. fault.why ≢ Why.OutOfMemory →
        IsBodyRefusedAfter (T.format.grammar (setting_of setting.now)) (parts_of text.now) lines fault.line fault.why) }
    ensures memory { IfErr result (λ fault. fault.why ≡ Why.OutOfMemory → fault.line ≡ 0) }
{
    let mut rest = text;
    let mut reading = match Reading::new(alloc, setting) {
        Ok(reading) => reading,
        Err(why) => return Err(fault_of(0, why)),
    };
    let mut line = lines + 1;
    'lines: loop {
        let (prefix, after) = match next_line(rest) {
            Ok(parts) => parts,
            Err(why) => return Err(fault_of(line, why)),
        };
        let ended = match reading.accept_line(setting, prefix) {
            Ok(ended) => ended,
            Err(why) => return Err(fault_of(line, why)),
        };
        rest = after;
        line += 1;
        if ended {
            if !rest.is_empty() {
                return Err(fault_of(line, Why::AfterEnd));
            }
            let Reading { lists, tally: _ } = reading;
            return Ok(lists);
        }
    }
}
