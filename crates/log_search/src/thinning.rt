//! Which loads are looked at of those whose sources the values alone don't tell.

use crate::lookups::{number_of, source_of};
use crate::surveys::Survey;
use log_selections::KnownLog;
use log_text::{LogOperation, LoggedOperation};

/// Loads of one processor, address and value, one after the other but for stores to other addresses.
#[derive(Clone, Copy)]
struct Run {
    address: u64,
    value: u64,
    /// The number of its last load, if that isn't its first one.
    last: Option<usize>,
}

impl Survey {
    /// Keeps loads whose sources the values don't tell: of a run the first and the last. A load between them fits right behind the
    /// first, in each order.
    pub(crate) fn keep_open(&mut self, known: &KnownLog) {
        for (processor, list) in known.log().lists.iter().enumerate() {
            self.keep_open_of(known, processor, list);
        }
    }

    fn keep_open_of(&mut self, known: &KnownLog, processor: usize, list: &[LoggedOperation]) {
        let mut run = None;
        for (operation, logged) in list.iter().enumerate() {
            let number = number_of(known, processor, operation).unwrap_or(0);
            run = match logged.operation {
                LogOperation::Ld { a, r } if source_of(known, number).is_none() => {
                    Some(self.keep_load(run, number, a, r))
                }
                LogOperation::St { a, .. } => run_past(run, a),
                _ => None,
            };
        }
    }

    /// Keeps a load for now, which may be the next of a run: the run then.
    fn keep_load(&mut self, run: Option<Run>, number: usize, address: u64, value: u64) -> Run {
        self.set_kept(number, true);
        match run {
            Some(run) if run.address == address && run.value == value => {
                if let Some(last) = run.last {
                    self.set_kept(last, false);
                }
                Run {
                    last: Some(number),
                    ..run
                }
            }
            _ => Run {
                address,
                value,
                last: None,
            },
        }
    }

    fn set_kept(&mut self, number: usize, is_kept: bool) {
        if let Some(slot) = self.kept.get_mut(number) {
            *slot = is_kept;
        }
    }
}

/// The run after a store to an address: none if it is the run's.
fn run_past(run: Option<Run>, address: u64) -> Option<Run> {
    match run {
        Some(run) if run.address != address => Some(run),
        _ => None,
    }
}
