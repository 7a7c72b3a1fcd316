//! All that the program does, from its arguments on.
ghost use Rattle.std.specs.Prelude.{◌≡◌, ◌≢◌, ℕ, List, [], ◌∷◌, codes, None, true, false};
ghost use Rattle.std.specs.declared.io.ErrorKind.TheVariants.{OutOfMemory as NoMemory};
ghost use Rattle.command_line.specs.FileArguments.{NameFile, NameFiles};
ghost use Rattle.command_line.specs.Refusals.{Refuses};
ghost use Rattle.command_line.specs.Requests.{Asked, texts_in};
ghost use Rattle.command_line.specs.Spellings.{Asks, AsksHelp};
ghost use Rattle.text_streams.specs.Streams.{AppendsPrefix};
ghost use Rattle.text_streams.specs.declared.faults.Fault.TheVariants.{OutOfMemory};
ghost use Rattle.request_serving.specs.Endings.{LeadTo, WritesFaultLine, invalid_utf8_line, outputs};
ghost use Rattle.request_serving.specs.FileCommands.{EndsChecked, EndsDecided, EndsJudged, IsLogWithoutOrder};
ghost use Rattle.request_serving.specs.LawfulRequests.{RunsLawfully, runs_on_lawful_unit};
ghost use Rattle.request_texts.specs.OpenedFiles.{HasRefusedFirstText, OpensFirst, TakesInput, files_named, reads_input};

use crate::endings::end_by;
use crate::serving::{refuse, serve};
use command_line::read_arguments;
use request_texts::{Diagnostics, Environment, SystemFiles};
use std::io;
use std::io::{Read, Write};
use std::rt::{Clock, Files};
use std::sync::Wait;
use std::thread::Threads;
use text_streams::Fault;
use trace_reports::{FAULT, REFUSED};

/// Does what the arguments of a command line ask for, and answers the status that the program ends with.
///
/// Without arguments it judges what the reader has, with one worker, and writes its report; so it does, by the arguments
/// `judge [--workers N] [FILE]`, for a file; `explain` writes why, `draw` a picture, `batch` a line for each of many traces or
/// the texts of those that are violations, and `log` the violations of a log. `decide` writes an order of a trace that meets
/// the axioms of its memory model, or a refutation of all orders. `check TRACE CERT` checks a certificate against a trace, and
/// `verify TRACE EVIDENCE` an order or a refutation. `replay` and `run` execute a program on a memory unit and judge the record,
/// `make` draws a program from a seed, and `campaign` runs those of many seeds. A file `-` is what the reader has.
///
/// Status 0: no violation was found, a trace has an order or the order holds, or a text was asked for and written. 1: not all
/// of a log was judged, fewer traces of a batch than asked for, or nothing was decided. 2: a text, a certificate, evidence, a
/// shape or seeds were refused; or a log or the arguments were, whose refusal is written to `errors`. 3: a violation, or a
/// certificate or a refutation that holds. 4: a fault; one line, as `FAULT Read`, is written to `errors`. All files that the
/// arguments name are opened, in their order, before one is read; but those of `batch` each when its turn comes, and it goes on
/// where one can't be opened. At most 1,048,577 bytes of a trace, of a program and of a schedule are read, 67,108,865 of a
/// certificate and of evidence; of many traces and of a log all are.
///
/// With `--verbose`, or where the standard error of their runtime is a terminal, the diagnostics tell after the line of a fault
/// why a file can't be opened or read, or the reader where they watch it, and after a refusal what the text looks like or which
/// limits the numbers break; with `--progress` how much is done. All of this goes to that standard error, of which no clause
/// speaks.
pub fn drive<
    H: Threads + Wait + Sync + Files + AllocGlobal + Eprint + Clock,
    R: Read,
    W: Write,
    E: Write,
>(
    rt: &H,
    arguments: &[String],
    diagnostics: &Diagnostics<'_, H>,
    reader: &mut R,
    writer: &mut W,
    errors: &mut E,
) -> u8
    ensures ends { LeadTo (texts_in arguments.now) (R.remaining reader.old) (λ _. None)
        (outputs (W.contents writer.old) (W.contents writer.new) (E.contents errors.old) (E.contents errors.new)) result }
    ensures judges { texts_in arguments.now ≡ codes "judge" ∷ [] →
        EndsJudged (R.remaining reader.old) (outputs (W.contents writer.old) (W.contents writer.new) (E.contents errors.old) (E.contents errors.new)) result }
    ensures decides { texts_in arguments.now ≡ codes "decide" ∷ [] →
        EndsDecided (R.remaining reader.old) (outputs (W.contents writer.old) (W.contents writer.new) (E.contents errors.old) (E.contents errors.new)) result }
    ensures finds { texts_in arguments.now ≡ codes "log" ∷ [] → result ≡ 3 → IsLogWithoutOrder (R.remaining reader.old) }
    ensures no_false_alarm { (asked : Asked) → Asks (texts_in arguments.now) asked → runs_on_lawful_unit asked ≡ true → result ≢ 3 }
    ensures no_false_alarm_of_text { (asked : Asked) → Asks (texts_in arguments.now) asked → RunsLawfully asked (R.remaining reader.old) (λ _. None) →
        result ≢ 3 }
    ensures unread { (asked : Asked) → Asks (texts_in arguments.now) asked → reads_input asked ≡ false → reader.new ≡ reader.old }
    ensures unread_help { AsksHelp (texts_in arguments.now) → reader.new ≡ reader.old }
    ensures unread_refusal { Refuses (texts_in arguments.now) → reader.new ≡ reader.old }
    ensures taken { (asked : Asked) → Asks (texts_in arguments.now) asked → reads_input asked ≡ true → result ≢ 4 →
        TakesInput asked (R.remaining reader.old) (R.remaining reader.new) }
{
    let mut files = SystemFiles::new(rt, diagnostics);
    let status = drive_over(rt, arguments, &mut files, reader, writer, errors);
    if status == FAULT {
        diagnostics.tell_failure();
    }
    if status == REFUSED {
        diagnostics.tell_hint(subcommand_of(arguments));
    }
    status
}

/// The subcommand that the arguments name: without arguments what the reader has is judged.
fn subcommand_of(arguments: &[String]) -> &str {
    match arguments.first() {
        Some(word) => word.as_str(),
        None => "judge",
    }
}

/// Does the same over these files, which need not be the system's.
pub fn drive_over<
    H: Threads + Wait + Sync + AllocGlobal,
    O: Environment,
    R: Read,
    W: Write,
    E: Write,
>(rt: &H, arguments: &[String], files: &mut O, reader: &mut R, writer: &mut W, errors: &mut E) -> u8
    ensures ends { LeadTo (texts_in arguments.now) (R.remaining reader.old) (O.bytes files.old)
        (outputs (W.contents writer.old) (W.contents writer.new) (E.contents errors.old) (E.contents errors.new)) result }
    ensures judges { (file : List ℕ) → NameFile (codes "judge") file (texts_in arguments.now) →
        EndsJudged (O.bytes files.old file) (outputs (W.contents writer.old) (W.contents writer.new) (E.contents errors.old) (E.contents errors.new)) result }
    ensures decides { (file : List ℕ) → NameFile (codes "decide") file (texts_in arguments.now) →
        EndsDecided (O.bytes files.old file) (outputs (W.contents writer.old) (W.contents writer.new) (E.contents errors.old) (E.contents errors.new)) result }
    ensures checks { (trace cert : List ℕ) → NameFiles (codes "check") trace cert (texts_in arguments.now) →
        EndsChecked (O.bytes files.old trace) (O.bytes files.old cert)
        (outputs (W.contents writer.old) (W.contents writer.new) (E.contents errors.old) (E.contents errors.new)) result }
    ensures finds { (file : List ℕ) → NameFile (codes "log") file (texts_in arguments.now) → result ≡ 3 → IsLogWithoutOrder (O.bytes files.old file) }
    ensures no_false_alarm { (asked : Asked) → Asks (texts_in arguments.now) asked → runs_on_lawful_unit asked ≡ true → result ≢ 3 }
    ensures no_false_alarm_of_text { (asked : Asked) → Asks (texts_in arguments.now) asked → RunsLawfully asked (R.remaining reader.old) (O.bytes files.old) →
        result ≢ 3 }
    ensures opened { (asked : Asked) → Asks (texts_in arguments.now) asked → OpensFirst (O.opened files.old) (O.opened files.new) (files_named asked) }
    ensures unread { (asked : Asked) → Asks (texts_in arguments.now) asked → reads_input asked ≡ false → reader.new ≡ reader.old }
    ensures unread_after_refusal { (asked : Asked) → Asks (texts_in arguments.now) asked → HasRefusedFirstText asked (O.bytes files.old) →
        reader.new ≡ reader.old }
    ensures unread_help { AsksHelp (texts_in arguments.now) → reader.new ≡ reader.old }
    ensures unread_refusal { Refuses (texts_in arguments.now) → reader.new ≡ reader.old }
    ensures taken { (asked : Asked) → Asks (texts_in arguments.now) asked → reads_input asked ≡ true → result ≢ 4 →
        TakesInput asked (R.remaining reader.old) (R.remaining reader.new) }
{
    match read_arguments(rt.alloc(), arguments) {
        Ok(line) => {
            files.begin(line.notes);
            serve(rt, &line.request, files, reader, writer, errors)
        }
        Err(_) => end_by(Fault::OutOfMemory, errors),
    }
}

/// The status where the arguments could not be had, of which a line is written to `errors`: where memory ran out that of
/// a fault, else, where one of them isn't UTF-8, that of a refusal.
pub fn end_without_arguments<E: Write>(kind: io::ErrorKind, errors: &mut E) -> u8
    ensures memory { kind ≡ NoMemory → WritesFaultLine (E.contents errors.old) (E.contents errors.new) OutOfMemory × (result ≡ 4) }
    ensures other { kind ≢ NoMemory → AppendsPrefix (E.contents errors.old) (E.contents errors.new) invalid_utf8_line × (result ≡ 2) }
{
    if kind == io::ErrorKind::OutOfMemory {
        return end_by(Fault::OutOfMemory, errors);
    }
    let line = "error: invalid UTF-8 was detected in one or more arguments\n";
    refuse(line, errors)
}
