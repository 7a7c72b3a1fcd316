//! In which form the rounds over a trace are made.
ghost use Rattle.std.specs.Prelude.{◌≡◌, ◌↔◌, ◌≤◌, ◌/◌};
ghost use Rattle.tso_ops.specs.Events.{event_total};
ghost use Rattle.chain_rules.specs.Chains.{chain_total};

use crate::chains::chain_count;
use tso_ops::Trace;

/// In which form the rounds over a trace are made. Both give the same rounds.
#[derive(Clone, Copy, Debug, PartialEq, Eq)]
pub enum RoundForm {
    /// By chains: of what a number leads to, the first in each chain is kept.
    Chains,
    /// By rows of bits: a bit for each number.
    BitRows,
}

/// A trace has its rounds made by rows of bits, if it has fewer events for each chain.
const EVENTS_OF_A_CHAIN: usize = 128;

impl RoundForm {
    /// The form that takes less time: chains where a trace has at least EVENTS_OF_A_CHAIN events for each of its chains, else rows of
    /// bits.
    pub fn of(trace: &Trace) -> RoundForm
        ensures chains { result ≡ RoundForm.Chains ↔ (chain_total trace.now ≤ event_total trace.now / EVENTS_OF_A_CHAIN) }
    {
        if chain_count(trace) <= trace.events() / EVENTS_OF_A_CHAIN {
            RoundForm::Chains
        } else {
            RoundForm::BitRows
        }
    }
}
