//! What of a log matters to the search: the numbers of addresses, and the loads that say something.

use crate::lookups::{number_of, source_of};
use crate::numbers::{NONE, count, item, narrow, put};
use log_selections::KnownLog;
use log_text::{LogOperation, LoggedOperation};
use search_memory::Memory;
use std::collections::HashMap;
use tso_ops::Order;

/// By the numbers of events: the number of each one's address, and which loads are kept.
#[derive(Drop)]
pub(crate) struct Survey {
    order: Order,
    addresses: Vec<u32>,
    pub(crate) kept: Vec<bool>,
    count: usize,
    processors: usize,
    /// Under PSO for each address how many processors store there.
    writers: Vec<u32>,
}

/// How many chains the nodes have that are looked at together, at most, unless one address has more.
const MAX_CHAINS: usize = 512;

/// Addresses that are looked at together, by their numbers: from one up to another.
#[derive(Clone, Copy)]
pub(crate) struct Addresses {
    pub(crate) from: usize,
    pub(crate) to: usize,
}

impl Addresses {
    /// How many there are.
    pub(crate) fn len(self) -> usize {
        self.to.saturating_sub(self.from)
    }

    /// The number of an address among these, if it is one of them.
    pub(crate) fn place(self, address: u32) -> Option<u32> {
        let address = address as usize;
        if address < self.from || address >= self.to {
            None
        } else {
            Some(narrow(address.saturating_sub(self.from)))
        }
    }
}

/// The first and the last reader of each source on one processor. First values have a source for each address.
#[derive(Drop)]
struct Readers {
    first: Vec<u32>,
    last: Vec<u32>,
    /// The least number of the processor's events.
    low: usize,
}

/// The address of an operation.
pub(crate) fn address_of(operation: LogOperation) -> Option<u64> {
    match operation {
        LogOperation::Ld { a, .. } | LogOperation::St { a, .. } | LogOperation::Sw { a, .. } =>
            Some(a),
        LogOperation::Mb | LogOperation::Sb => None,
    }
}

impl Survey {
    /// Looks at a log.
    pub(crate) fn new(memory: &Memory, known: &KnownLog) -> Survey {
        let events = known.sources().len();
        let mut survey = Survey {
            order: known.log().order,
            addresses: memory.filled(NONE, events),
            kept: memory.filled(false, events),
            count: 0,
            processors: known.log().lists.len(),
            writers: Vec::new(memory.alloc()),
        };
        survey.number_addresses(memory, known);
        survey.thin(memory, known);
        if survey.order == Order::Pso {
            survey.count_writers(memory, known);
        }
        survey
    }

    /// Counts for each address the processors that store there.
    fn count_writers(&mut self, memory: &Memory, known: &KnownLog) {
        self.writers = memory.filled(0, self.count);
        let mut last = memory.filled(NONE, self.count);
        for (processor, list) in known.log().lists.iter().enumerate() {
            self.count_stores(known, processor, list, &mut last);
        }
    }

    fn count_stores(
        &mut self,
        known: &KnownLog,
        processor: usize,
        list: &[LoggedOperation],
        last: &mut [u32],
    ) {
        for (operation, logged) in list.iter().enumerate() {
            if !matches!(
                logged.operation,
                LogOperation::St { .. } | LogOperation::Sw { .. }
            ) {
                continue;
            }
            let number = number_of(known, processor, operation).unwrap_or(0);
            let address = self.address(number);
            if item(last, address) != narrow(processor) {
                put(last, address, narrow(processor));
                count(&mut self.writers, address);
            }
        }
    }

    /// Addresses from this one on that are looked at together: under TSO all of them.
    pub(crate) fn addresses_from(&self, from: usize) -> Addresses {
        if self.order == Order::Tso {
            return Addresses {
                from,
                to: self.count,
            };
        }
        let mut chains = self.processors.saturating_mul(2);
        for address in from..self.count {
            chains = chains.saturating_add(item(&self.writers, narrow(address)) as usize);
            if chains > MAX_CHAINS && address > from {
                return Addresses { from, to: address };
            }
        }
        Addresses {
            from,
            to: self.count,
        }
    }

    /// All addresses.
    pub(crate) fn all_addresses(&self) -> Addresses {
        Addresses {
            from: 0,
            to: self.count,
        }
    }

    /// How many addresses there are.
    pub(crate) fn count(&self) -> usize {
        self.count
    }

    /// The number of the address of an event; of a swap's store that of its load is asked for.
    pub(crate) fn address(&self, number: usize) -> u32 {
        item(&self.addresses, narrow(number))
    }

    /// How many operations of a log aren't looked at by themselves: barriers, and the loads that aren't kept.
    pub(crate) fn passed_over(&self, known: &KnownLog) -> usize {
        let mut total: usize = 0;
        for (processor, list) in known.log().lists.iter().enumerate() {
            total = total.saturating_add(self.passed_over_in(known, processor, list));
        }
        total
    }

    /// How many of a processor's operations.
    fn passed_over_in(
        &self,
        known: &KnownLog,
        processor: usize,
        list: &[LoggedOperation],
    ) -> usize {
        let mut total: usize = 0;
        for (operation, logged) in list.iter().enumerate() {
            let number = number_of(known, processor, operation).unwrap_or(0);
            if !self.looks_at(number, logged.operation) {
                total = total.saturating_add(1);
            }
        }
        total
    }

    /// Whether an operation of this number is a store, a swap, or a load that is kept.
    fn looks_at(&self, number: usize, operation: LogOperation) -> bool {
        match operation {
            LogOperation::St { .. } | LogOperation::Sw { .. } => true,
            LogOperation::Ld { .. } => self.keeps(number),
            LogOperation::Mb | LogOperation::Sb => false,
        }
    }

    /// Whether the load of this number is kept.
    pub(crate) fn keeps(&self, number: usize) -> bool {
        self.kept.get(number).copied().unwrap_or(false)
    }

    fn number_addresses(&mut self, memory: &Memory, known: &KnownLog) {
        let mut numbers = HashMap::new(memory.alloc());
        for (processor, list) in known.log().lists.iter().enumerate() {
            self.number_list(memory, known, processor, list, &mut numbers);
        }
        self.count = numbers.len();
    }

    fn number_list(
        &mut self,
        memory: &Memory,
        known: &KnownLog,
        processor: usize,
        list: &[LoggedOperation],
        numbers: &mut HashMap<u64, u32>,
    ) {
        for (operation, logged) in list.iter().enumerate() {
            if let Some(a) = address_of(logged.operation)
                && let Some(number) = number_of(known, processor, operation)
            {
                let address = match numbers.get(&a).copied() {
                    Some(address) => address,
                    None => {
                        let address = narrow(numbers.len());
                        memory.note(numbers.insert(a, address).is_err());
                        address
                    }
                };
                put(&mut self.addresses, narrow(number), address);
            }
        }
    }

    /// Keeps of the loads of a processor with one source the last, and the first if the source isn't a store before it. Those
    /// between say nothing more: what comes before one of them comes before the last, and what comes after it after the first.
    fn thin(&mut self, memory: &Memory, known: &KnownLog) {
        let size = known.sources().len().saturating_add(self.count);
        let mut readers = Readers {
            first: memory.filled(0, size),
            last: memory.filled(0, size),
            low: 0,
        };
        for (processor, list) in known.log().lists.iter().enumerate() {
            readers.low = number_of(known, processor, 0).unwrap_or(0);
            self.find_readers(known, processor, list, &mut readers);
            self.keep_readers(known, processor, list, &readers);
        }
    }

    /// The number of a load, and the index of its source among `Readers`; None where the operation is no load, or its source
    /// isn't known.
    fn load_of(
        &self,
        known: &KnownLog,
        processor: usize,
        operation: usize,
        logged: &LoggedOperation,
    ) -> Option<(usize, u32)> {
        if !matches!(logged.operation, LogOperation::Ld { .. }) {
            return None;
        }
        let Some(number) = number_of(known, processor, operation) else {
            return None;
        };
        match source_of(known, number) {
            Some(0) => {
                let events = known.sources().len();
                let index = events.saturating_add(self.address(number) as usize);
                Some((number, narrow(index)))
            }
            Some(source) => Some((number, narrow(source))),
            None => None,
        }
    }

    fn find_readers(
        &self,
        known: &KnownLog,
        processor: usize,
        list: &[LoggedOperation],
        readers: &mut Readers,
    ) {
        for (operation, logged) in list.iter().enumerate() {
            if let Some((number, index)) = self.load_of(known, processor, operation, logged) {
                readers.add(number, index);
            }
        }
    }

    fn keep_readers(
        &mut self,
        known: &KnownLog,
        processor: usize,
        list: &[LoggedOperation],
        readers: &Readers,
    ) {
        // Under PSO a store comes by a load after a barrier before its processor's later stores.
        let mut follows = false;
        for (operation, logged) in list.iter().enumerate() {
            if logged.operation == LogOperation::Mb {
                follows = self.order == Order::Pso;
            }
            if let Some((number, index)) = self.load_of(known, processor, operation, logged) {
                let is_kept = follows || readers.needs(known, number, index);
                if let Some(slot) = self.kept.get_mut(number) {
                    *slot = is_kept;
                }
                follows = false;
            }
        }
    }
}

impl Readers {
    /// Adds a load of this number, whose source has this index.
    fn add(&mut self, number: usize, index: u32) {
        put(&mut self.last, index, narrow(number));
        if (item(&self.first, index) as usize) < self.low {
            put(&mut self.first, index, narrow(number));
        }
    }

    fn needs(&self, known: &KnownLog, number: usize, index: u32) -> bool {
        if item(&self.last, index) as usize == number {
            return true;
        }
        let source = source_of(known, number).unwrap_or(0);
        let is_own = self.low <= source && source < number;
        item(&self.first, index) as usize == number && source > 0 && !is_own
    }
}
