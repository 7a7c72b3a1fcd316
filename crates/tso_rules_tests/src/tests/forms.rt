//! In which form the rounds over a trace are made.

use chain_rules::RoundForm;
use std::alloc::Global;
use std::test::Fail;
use traces_for_tests::{expect_equal, ld, trace_of};
use tso_ops::{Order, Trace};

/// A trace, by its memory model, the address of its loads and how many there are, and its form.
type Formed = (Order, u16, usize, RoundForm);

/// `init` is a chain, and so are the loads of a processor. Under TSO its stores are one; under PSO those to each address up to the
/// greatest are, so that there are three chains in all with address 0, and four with address 1. A chain wants 128 events.
static FORMED: [Formed; 6] = [
    (Order::Tso, 0, 383, RoundForm::BitRows),
    (Order::Tso, 0, 384, RoundForm::Chains),
    (Order::Tso, 255, 384, RoundForm::Chains),
    (Order::Pso, 0, 384, RoundForm::Chains),
    (Order::Pso, 1, 511, RoundForm::BitRows),
    (Order::Pso, 1, 512, RoundForm::Chains),
];

/// One processor's loads of an address.
fn loads(alloc: Global, order: Order, a: u16, count: usize) -> Result<Trace, Fail> {
    let list = vec![in alloc; ld(a, 0); count]?;
    Ok(trace_of(alloc, order, &[&list])?)
}

#[test]
fn forms_of_traces(rt: HostRuntime) -> Result<(), Fail> {
    for (order, a, count, form) in &FORMED {
        let trace = loads(rt.alloc(), *order, *a, *count)?;
        expect_equal((*order, *a, *count), RoundForm::of(&trace), *form)?;
    }
    Ok(())
}
