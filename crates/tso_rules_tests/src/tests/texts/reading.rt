//! What comes of a text that is read: its printed text, or the text of its fault.

use log_text::{Log, read_log};
use std::alloc::{AllocError, Global};
use std::fmt::Write;
use tso_cert::{print_cert, read_cert};
use tso_evidence::{print_evidence, read_evidence};
use tso_text::{
    print_program, print_schedule, print_trace, read_program, read_schedule, read_trace,
};
use value_texts::{EventName, ValuePrintRefusal, print_log_evidence, read_log_evidence};

/// What a text is read as.
#[derive(Clone, Copy, Debug)]
pub(super) enum Kind {
    Trace,
    Program,
    Schedule,
    Certificate,
    Evidence,
    /// Evidence about a log.
    LogEvidence,
    Log,
}

/// What comes of a text; of a log that is read, the number of processors, the memory model, the first values, and the lines
/// of its operations, processor by processor.
pub(super) fn text_back(alloc: Global, kind: Kind, text: &str) -> Result<String, AllocError> {
    match kind {
        Kind::Trace => trace_back(alloc, text),
        Kind::Program => program_back(alloc, text),
        Kind::Schedule => schedule_back(alloc, text),
        Kind::Certificate => certificate_back(alloc, text),
        Kind::Evidence => evidence_back(alloc, text),
        Kind::LogEvidence => log_evidence_back(alloc, text),
        Kind::Log => log_back(alloc, text),
    }
}

fn trace_back(alloc: Global, text: &str) -> Result<String, AllocError> {
    match read_trace(alloc, text.as_bytes()) {
        Ok(trace) => print_trace(alloc, &trace),
        Err(fault) => format!(in alloc; "{fault}"),
    }
}

fn program_back(alloc: Global, text: &str) -> Result<String, AllocError> {
    match read_program(alloc, text.as_bytes()) {
        Ok(program) => print_program(alloc, &program),
        Err(fault) => format!(in alloc; "{fault}"),
    }
}

fn schedule_back(alloc: Global, text: &str) -> Result<String, AllocError> {
    match read_schedule(alloc, text.as_bytes()) {
        Ok(acts) => print_schedule(alloc, &acts),
        Err(fault) => format!(in alloc; "{fault}"),
    }
}

fn certificate_back(alloc: Global, text: &str) -> Result<String, AllocError> {
    match read_cert(alloc, text.as_bytes()) {
        Ok(certificate) => print_cert(alloc, &certificate),
        Err(fault) => format!(in alloc; "{fault}"),
    }
}

fn evidence_back(alloc: Global, text: &str) -> Result<String, AllocError> {
    match read_evidence(alloc, text.as_bytes()) {
        Ok(evidence) => {
            let mut printed = String::new(alloc);
            print_evidence(&mut printed, &evidence)?;
            Ok(printed)
        }
        Err(fault) => format!(in alloc; "{fault}"),
    }
}

/// The names of a store of line 3, of a load of line 4, and of a swap of line 7.
static NAMES: [EventName; 4] = [
    EventName {
        line: 3,
        is_swap_store: false,
    },
    EventName {
        line: 4,
        is_swap_store: false,
    },
    EventName {
        line: 7,
        is_swap_store: false,
    },
    EventName {
        line: 7,
        is_swap_store: true,
    },
];

fn log_evidence_back(alloc: Global, text: &str) -> Result<String, AllocError> {
    match read_log_evidence(alloc, &NAMES, text.as_bytes()) {
        Ok(evidence) => {
            let mut printed = String::new(alloc);
            match print_log_evidence(&mut printed, &NAMES, &evidence) {
                Ok(()) => Ok(printed),
                Err(ValuePrintRefusal::NoEvent) => String::from_str(alloc, "NoEvent"),
                Err(ValuePrintRefusal::OutOfMemory) => Err(AllocError),
            }
        }
        Err(fault) => format!(in alloc; "{fault}"),
    }
}

fn log_back(alloc: Global, text: &str) -> Result<String, AllocError> {
    match read_log(alloc, text.as_bytes(), false) {
        Ok(log) => lines_of(alloc, &log),
        Err(fault) => format!(in alloc; "{fault}"),
    }
}

fn lines_of(alloc: Global, log: &Log) -> Result<String, AllocError> {
    let mut text = format!(in alloc; "{} {:?} {:?}:", log.lists.len(), log.order, log.first)?;
    for list in &log.lists {
        for logged in list {
            write!(text, " {}", logged.line)?;
        }
    }
    Ok(text)
}
