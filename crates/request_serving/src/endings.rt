//! Statuses, and the lines of faults.
ghost use Rattle.std.specs.Prelude.{◌≡◌, ◌++◌, ◌∷◌, [], IfOk, IfErr};
ghost use Rattle.std.specs.Fmt.{decimal};
ghost use Rattle.std.specs.Io.KnownBytes.{Keeps};
ghost use Rattle.text_streams.specs.Streams.{AppendsPrefix};
ghost use Rattle.request_serving.specs.Endings.{WritesFaultLine, WritesFailureLine};
ghost use Rattle.trace_reports.specs.Statuses.{status_of, status_of_answer};

use itoa::Buffer;
use run_serving::RunFailure;
use std::io::Write;
use text_streams::{Fault, write_text};
use trace_reports::{Answer, FAULT, Verdict, status_of, status_of_answer};

/// The status of a verdict; or that of a fault, whose line it writes.
pub(crate) fn end<E: Write>(outcome: Result<Verdict, Fault>, errors: &mut E) -> u8
    ensures verdict { IfOk outcome (λ verdict. (result ≡ status_of verdict) × Keeps (E.contents errors.old) (E.contents errors.new)) }
    ensures fault { IfErr outcome (λ fault. WritesFaultLine (E.contents errors.old) (E.contents errors.new) fault × (result ≡ 4)) }
{
    match outcome {
        Ok(verdict) => status_of(verdict),
        Err(fault) => end_by(fault, errors),
    }
}

/// The status of an answer; or that of a fault, whose line it writes.
pub(crate) fn end_answer<E: Write>(outcome: Result<Answer, Fault>, errors: &mut E) -> u8
    ensures answer { IfOk outcome (λ answer. (result ≡ status_of_answer answer) × Keeps (E.contents errors.old) (E.contents errors.new)) }
    ensures fault { IfErr outcome (λ fault. WritesFaultLine (E.contents errors.old) (E.contents errors.new) fault × (result ≡ 4)) }
{
    match outcome {
        Ok(answer) => status_of_answer(answer),
        Err(fault) => end_by(fault, errors),
    }
}

/// This status; or that of a fault, whose line it writes.
pub(crate) fn end_with<E: Write>(outcome: Result<u8, Fault>, errors: &mut E) -> u8
    ensures status { IfOk outcome (λ status. (result ≡ status) × Keeps (E.contents errors.old) (E.contents errors.new)) }
    ensures fault { IfErr outcome (λ fault. WritesFaultLine (E.contents errors.old) (E.contents errors.new) fault × (result ≡ 4)) }
{
    match outcome {
        Ok(status) => status,
        Err(fault) => end_by(fault, errors),
    }
}

/// This status; or that of a run that failed, whose line it writes.
pub fn end_run<E: Write>(outcome: Result<u8, RunFailure>, errors: &mut E) -> u8
    ensures status { IfOk outcome (λ status. (result ≡ status) × Keeps (E.contents errors.old) (E.contents errors.new)) }
    ensures failure { IfErr outcome (λ failure. WritesFailureLine (E.contents errors.old) (E.contents errors.new) failure × (result ≡ 4)) }
{
    match outcome {
        Ok(status) => status,
        Err(RunFailure::Fault(fault)) => end_by(fault, errors),
        Err(RunFailure::Torn { p }) => {
            let _ = write_numbered(errors, b"FAULT Torn ", p as u64);
            FAULT
        }
        Err(RunFailure::OtherProgram) => {
            let _ = write_text(errors, b"FAULT OtherProgram\n");
            FAULT
        }
    }
}

/// The status of a fault, whose line it writes. Nothing can be done where that line can't be written.
pub fn end_by<E: Write>(fault: Fault, errors: &mut E) -> u8
    ensures line { WritesFaultLine (E.contents errors.old) (E.contents errors.new) fault }
    ensures status { result ≡ 4 }
{
    let _ = match fault {
        Fault::OutOfMemory => write_text(errors, b"FAULT OutOfMemory\n"),
        Fault::Read => write_text(errors, b"FAULT Read\n"),
        Fault::Write => write_text(errors, b"FAULT Write\n"),
        Fault::NoThread => write_text(errors, b"FAULT NoThread\n"),
        Fault::Missing(seed) => write_numbered(errors, b"FAULT Missing ", seed),
    };
    FAULT
}

/// Writes a line of this name and a number.
fn write_numbered<E: Write>(errors: &mut E, name: &[u8], number: u64) -> Result<(), Fault>
    ensures { AppendsPrefix (E.contents errors.old) (E.contents errors.new) (name.now ++ decimal number ++ 10 ∷ []) }
{
    let mut digits = Buffer::new();
    write_text(errors, name)?;
    write_text(errors, digits.format(number).as_bytes())?;
    write_text(errors, b"\n")
}
