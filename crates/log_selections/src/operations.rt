//! The operations of a log by the numbers of their events, or by their lines.
ghost use Rattle.std.specs.Prelude.{IfSome};
ghost use Rattle.log_selections.specs.Shown.{IsLineOf};

use crate::known::KnownLog;
use crate::shown::{Shown, logged_at};
use log_text::LogOperation;
use tso_ops::Part;

impl KnownLog {
    /// The operation that has the event of this number, from 1; which part of it, if it is a swap. None where there is no such
    /// event.
    pub fn operation_of(&self, number: usize) -> Option<Shown>
        ensures { IfSome result (IsLineOf self.now.lists) }
    {
        for (processor, numbers) in self.numbers().iter().enumerate() {
            // Barriers before the operation have the number of its first event too.
            let next = numbers.partition_point(|n| *n <= number);
            let Some(index) = next.checked_sub(1) else {
                continue;
            };
            if let Some(first) = numbers.get(index)
                && let Some(logged) = logged_at(&self.log().lists, processor, index)
                && let Some(part) = part_at(logged.operation, number.saturating_sub(*first))
            {
                return Some(Shown {
                    processor,
                    logged,
                    part,
                });
            }
        }
        None
    }

    /// The operation of a processor that stands at this line of the log's text.
    pub fn operation_at(&self, processor: usize, line: usize) -> Option<Shown>
        ensures { IfSome result (IsLineOf self.now.lists) }
    {
        let list = self.log().lists.get(processor)?;
        // Each processor's lines stand in program order.
        let index = list.partition_point(|logged| logged.line < line);
        let logged = logged_at(&self.log().lists, processor, index)?;
        if logged.line != line {
            return None;
        }
        Some(Shown {
            processor,
            logged,
            part: Part::Whole,
        })
    }
}

/// Which part of an operation its event of this number is, counted from 0.
fn part_at(operation: LogOperation, event: usize) -> Option<Part> {
    match (operation, event) {
        (LogOperation::Ld { .. } | LogOperation::St { .. }, 0) => Some(Part::Whole),
        (LogOperation::Sw { .. }, 0) => Some(Part::SwapLoad),
        (LogOperation::Sw { .. }, 1) => Some(Part::SwapStore),
        _ => None,
    }
}
