ghost use Rattle.std.specs.Prelude.{◌≡◌, ◌≢◌, IfOk, IfErr, MatchResult};
ghost use Rattle.tso_text.specs.declared.faults.Why.{Why};
ghost use Rattle.log_text.specs.Internal.Cuts.{CutsText};
ghost use Rattle.log_text.specs.LogTexts.{IsEndedAsNeeded, SpellsLog, IsLogRefusal};
ghost use Rattle.log_text.specs.LogValues.{NumberedLog, log_value};

use crate::cutting::Cutting;
use crate::logs::Log;
use crate::readings::Reading;
use line_text::next_line;
use std::alloc::Global;
use tso_text::{TextFault, Why, fault_of};

/// Reads the text of a log, of any length.
///
/// The text consists of lines, each with its line end: an optional line `model pso`; then lines `init A V`, in any order, later
/// ones over earlier ones; then the steps, `P ld A R`, `P st A V`, `P sw A R V`, `P mb` and `P stbar`, where P is a processor, 0
/// to 4,095, A a place, R what was read and V what was stored. A line `P un A` says that something else was done there: the log
/// has no operation on what it names, whether before or after the line. All are numbers of 64 bits, decimal without leading zeros
/// or hexadecimal after `0x`, and single spaces stand between them. Without a line `model pso` the memory model is TSO. A last
/// line `end` may say that the text is whole. A line that begins with `#` says nothing, wherever it stands before `end`, and
/// neither does what follows ` #` on another line. An empty text is a log without operations.
///
/// A place is a location, which has one value, or some bytes, the lowest first: `A/N` are the N bytes from A on, where N is 1, 2, 4
/// or 8. All places of a text have a width, or none. Bytes are cut at each boundary of any place of the text, and an access is one
/// of each of its pieces, in ascending order and one after the other in its program. Operations are numbered as the pieces of all
/// lines are, which are the lines where none is cut; `LineTags` has the lines of these numbers.
///
/// The text of a run, which says when stores reach memory, is one of a log too: `P lr A R` is a load, `P wr A V` and `P sc A V`
/// are stores, and lines `dr` and `last` of a processor say nothing.
///
/// Where the end is needed, a text without the line `end` is refused, as one that was cut off.
///
/// The text is refused for its first line with a fault, counted from 1:
///
/// - BadLine: a line of another form, as with a first part that is no number of 64 bits, or with a byte above 127; a line without
///   a line end; a `model pso` after a line that says something; an `init` after a step; a line after `end`; the end of the text,
///   as the line after all others, where `end` is needed and missing.
/// - BadNumber: a processor above 4,095, or a part after a keyword that is no place, no number of 64 bits or no value of its place.
/// - Widths: a place with a width, as `0x20/4`, where the first place of the text has none.
/// - MixedWidths: a place without a width, where the first one has one.
///
/// Of several faults of a line the first part from the left counts, and a line that stands in a wrong place counts last.
/// OutOfMemory, where an allocation was refused, has line 0.
pub fn read_log(alloc: Global, text: &[u8], needs_end: bool) -> Result<Log, TextFault>
    ensures found { IfOk result (λ log. SpellsLog text.now (log_value log)) }
    ensures ended { IfOk result (λ _. IsEndedAsNeeded needs_end text.now) }
    ensures only { (t : NumberedLog) → SpellsLog text.now t → IsEndedAsNeeded needs_end text.now →
        MatchResult result (λ log. log_value log ≡ t) (λ fault. fault.why ≡ Why.OutOfMemory) }
    ensures refused { IfErr result (λ fault. fault.why ≢ Why.OutOfMemory → IsLogRefusal needs_end text.now fault.line fault.why) }
    ensures memory { IfErr result (λ fault. fault.why ≡ Why.OutOfMemory → fault.line ≡ 0) }
{
    match Cutting::new(alloc, text) {
        Ok(cutting) => read_cut(alloc, &cutting, text, needs_end),
        Err(_) => Err(fault_of(0, Why::OutOfMemory)),
    }
}

/// Reads the text of a log whose accesses are cut in this way.
fn read_cut(
    alloc: Global,
    cutting: &Cutting,
    text: &[u8],
    needs_end: bool,
) -> Result<Log, TextFault>
    requires { CutsText cutting.now text.now }
    ensures found { IfOk result (λ log. SpellsLog text.now (log_value log)) }
    ensures ended { IfOk result (λ _. IsEndedAsNeeded needs_end text.now) }
    ensures only { (t : NumberedLog) → SpellsLog text.now t → IsEndedAsNeeded needs_end text.now →
        MatchResult result (λ log. log_value log ≡ t) (λ fault. fault.why ≡ Why.OutOfMemory) }
    ensures refused { IfErr result (λ fault. fault.why ≢ Why.OutOfMemory → IsLogRefusal needs_end text.now fault.line fault.why) }
    ensures memory { IfErr result (λ fault. fault.why ≡ Why.OutOfMemory → fault.line ≡ 0) }
{
    let mut reading = Reading::new(alloc);
    let mut rest = text;
    let mut line: usize = 1;
    let mut number: usize = 1;
    'lines: loop {
        let Some((prefix, after)) = next_line(rest) else {
            if !rest.is_empty() {
                return Err(fault_of(line, Why::BadLine));
            }
            if reading.lacks_end(needs_end) {
                return Err(fault_of(line, Why::BadLine));
            }
            return match reading.log(alloc) {
                Ok(log) => Ok(log),
                Err(_) => Err(fault_of(0, Why::OutOfMemory)),
            };
        };
        match reading.accept_line(alloc, cutting, number, prefix) {
            Ok(next) => number = next,
            Err(why) => return Err(fault_of(line, why)),
        }
        rest = after;
        line += 1;
    }
}
