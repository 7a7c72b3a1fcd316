//! The addresses and values that operations of a log have in a trace. Any choice is sound: `keeping` and `source_checks` see to
//! that.

use crate::keeping::KeptOutcome;
use crate::shown::Kept;
use log_text::{LogOperation, LoggedOperation};
use std::alloc::Global;
use std::collections::HashMap;
use tso_ops::{OutOfMemory, Outcome, Part};

/// How many addresses a trace has at most.
const MAX_ADDRESSES: usize = 256;

/// What a trace is to have: addresses of the log, which are the trace's addresses 0, 1, .., and operations of each processor.
#[derive(Drop)]
pub(crate) struct Named {
    pub(crate) addresses: Vec<u64>,
    pub(crate) outcomes: Vec<Vec<KeptOutcome>>,
}

/// The names so far: those of addresses, and the values of stores by their numbers in the log.
#[derive(Drop)]
struct Names {
    addresses: Vec<u64>,
    places: HashMap<u64, u16>,
    values: HashMap<usize, u64>,
}

/// Names these operations of a log with these lists, numbers of operations, and sources of loads: None where they aren't the
/// log's, one reads what isn't among them, or there are too many addresses.
pub(crate) fn name_kept(
    alloc: Global,
    lists: &[Vec<LoggedOperation>],
    numbers: &[Vec<usize>],
    sources: &[Option<usize>],
    kept: &[Vec<Kept>],
) -> Result<Option<Named>, OutOfMemory> {
    let mut names = Names {
        addresses: Vec::new(alloc),
        places: HashMap::new(alloc),
        values: HashMap::new(alloc),
    };
    for (p, row) in kept.iter().enumerate() {
        if let (Some(list), Some(numbers)) = (lists.get(p), numbers.get(p)) {
            names.add_row(list, numbers, row)?;
        }
    }
    if names.addresses.len() > MAX_ADDRESSES {
        return Ok(None);
    }
    let mut outcomes = Vec::new(alloc);
    for (p, row) in kept.iter().enumerate() {
        let (Some(list), Some(numbers)) = (lists.get(p), numbers.get(p)) else {
            return Ok(None);
        };
        match names.name_row(alloc, list, numbers, sources, row)? {
            Some(named) => outcomes.push(named)?,
            None => return Ok(None),
        }
    }
    Ok(Some(Named {
        addresses: names.addresses,
        outcomes,
    }))
}

impl Names {
    /// Names the addresses and the stores of a processor's operations.
    fn add_row(
        &mut self,
        list: &[LoggedOperation],
        numbers: &[usize],
        row: &[Kept],
    ) -> Result<(), OutOfMemory> {
        for kept in row {
            if let (Some(logged), Some(number)) = (list.get(kept.index), numbers.get(kept.index)) {
                if let Some(a) = address_of(logged.operation) {
                    self.add_address(a)?;
                }
                if let Some(store) = store_number(logged.operation, kept.part, *number) {
                    let value = (self.values.len() as u64).saturating_add(1);
                    self.values.insert(store, value)?;
                }
            }
        }
        Ok(())
    }

    /// Names an address, where it has no name.
    fn add_address(&mut self, a: u64) -> Result<(), OutOfMemory> {
        if !self.places.contains_key(&a) {
            let place = self.addresses.len().min(MAX_ADDRESSES) as u16;
            self.places.insert(a, place)?;
            self.addresses.push(a)?;
        }
        Ok(())
    }

    /// A processor's operations by their names; None where one has none.
    fn name_row(
        &self,
        alloc: Global,
        list: &[LoggedOperation],
        numbers: &[usize],
        sources: &[Option<usize>],
        row: &[Kept],
    ) -> Result<Option<Vec<KeptOutcome>>, OutOfMemory> {
        let mut named = Vec::new(alloc);
        for kept in row {
            let (Some(logged), Some(number)) = (list.get(kept.index), numbers.get(kept.index))
            else {
                return Ok(None);
            };
            let Some(outcome) = self.name(logged.operation, kept.part, *number, sources) else {
                return Ok(None);
            };
            named.push(KeptOutcome {
                index: kept.index,
                outcome,
            })?;
        }
        Ok(Some(named))
    }

    /// An operation, the first event of which has this number, by its names.
    fn name(
        &self,
        operation: LogOperation,
        part: Part,
        number: usize,
        sources: &[Option<usize>],
    ) -> Option<Outcome> {
        let place = address_of(operation).and_then(|a| self.places.get(&a).copied());
        let read = sources
            .get(number)
            .copied()
            .flatten()
            .and_then(|s| self.value_from(s));
        let stored = store_number(operation, part, number).and_then(|store| self
            .values
            .get(&store)
            .copied());
        match (operation, part) {
            (LogOperation::Mb, _) => Some(Outcome::Mb),
            (LogOperation::Sb, _) => Some(Outcome::Sb),
            (LogOperation::Ld { .. }, _) | (LogOperation::Sw { .. }, Part::SwapLoad) => {
                Some(Outcome::Ld {
                    a: place?,
                    r: read?,
                })
            }
            (LogOperation::St { .. }, _) | (LogOperation::Sw { .. }, Part::SwapStore) => {
                Some(Outcome::St {
                    a: place?,
                    v: stored?,
                })
            }
            (LogOperation::Sw { .. }, Part::Whole) => Some(Outcome::Sw {
                a: place?,
                r: read?,
                v: stored?,
            }),
        }
    }

    /// The value of what source `s` wrote: 0 for the first value.
    fn value_from(&self, s: usize) -> Option<u64> {
        if s == 0 {
            return Some(0);
        }
        self.values.get(&s).copied()
    }
}

fn address_of(operation: LogOperation) -> Option<u64> {
    match operation {
        LogOperation::Ld { a, .. } | LogOperation::St { a, .. } | LogOperation::Sw { a, .. } =>
            Some(a),
        LogOperation::Mb | LogOperation::Sb => None,
    }
}

/// The number of the store of an operation, the first event of which has this number, where it is kept.
fn store_number(operation: LogOperation, part: Part, number: usize) -> Option<usize> {
    match (operation, part) {
        (LogOperation::St { .. }, _) => Some(number),
        (LogOperation::Sw { .. }, Part::Whole | Part::SwapStore) => Some(number.saturating_add(1)),
        _ => None,
    }
}
