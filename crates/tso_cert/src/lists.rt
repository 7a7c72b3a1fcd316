ghost use Rattle.std.specs.Prelude.{◌≡◌, IfOk};

use crate::faults::OutOfMemory;
use std::alloc::Global;
use std::marker::Model;

/// A list of event numbers, with 0 for `init`: a path or a cycle.
#[derive(Debug, Drop)]
pub struct NumList {
    numbers: Vec<u64>,
}

impl Model for NumList {
    ghost use Rattle.std.specs.Prelude.{ℕ, List};

    ghost Value = { List ℕ };

    ghost view = { λ l. l.numbers.items };
}

impl NumList {
    /// The list that the vector holds.
    pub fn new(numbers: Vec<u64>) -> NumList
        ensures { result ≡ numbers.items }
    {
        NumList { numbers }
    }

    /// The list of these numbers. OutOfMemory where an allocation was refused.
    pub fn from_numbers(alloc: Global, numbers: &[usize]) -> Result<NumList, OutOfMemory>
        ensures { IfOk result (λ list. list ≡ numbers.now) }
    {
        let mut list = Vec::new(alloc);
        for number in numbers {
            list.push(*number as u64)?;
        }
        Ok(NumList::new(list))
    }

    /// The numbers, in their order.
    pub fn items(&self) -> &[u64]
        ensures { result.now ≡ self.now }
    {
        &self.numbers
    }
}
