//! Memory units for tests, a way to run a program on one, a gate, and what the tests of units share. `README.md` says what is
//! proved.
#![tactic(auto)]

pub use accounts::OTHER_ACCOUNT;
pub use counting::{CallCounts, CountingUnit, drops_of, new_counts, numbers_of};
pub use forwarding::{Call, CallLog, ForwardingUnit, new_log};
pub use gates::AfterDrain;
pub use inventing::{INVENTED, InventingUnit};
pub use issuing::issue_program;
pub use passes::are_passes_of;
pub use records::is_record;
pub use refusing::RefusingUnit;

mod accounts;
mod counting;
mod forwarding;
mod gates;
mod inventing;
mod issuing;
mod passes;
mod records;
mod refusing;
