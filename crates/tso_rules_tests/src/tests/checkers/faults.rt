//! What faults of certificates, of orders and of refutations display.

use cert_check::CertFault;
use order_check::{Axiom, OrderFault};
use refutation_check::RefutationFault;
use std::alloc::Global;
use std::fmt::Display;
use std::test::Fail;
use traces_for_tests::expect_equal;

static OF_CERTIFICATES: [(CertFault, &str); 7] = [
    (CertFault::EventRange, "EventRange"),
    (CertFault::NotUnwritten, "NotUnwritten"),
    (CertFault::BaseRefused(1), "BaseRefused step 1"),
    (CertFault::SideRefused(20), "SideRefused step 20"),
    (CertFault::PathUnlisted(300), "PathUnlisted step 300"),
    (CertFault::CycleUnlisted, "CycleUnlisted"),
    (CertFault::EmptyCycle, "EmptyCycle"),
];

static OF_ORDERS: [(OrderFault, &str); 9] = [
    (OrderFault::NotAnEvent(1), "NotAnEvent place 1"),
    (OrderFault::Repeated(20), "Repeated place 20"),
    (OrderFault::Missing(300), "Missing event 300"),
    (
        OrderFault::Broken {
            axiom: Axiom::LoadOp,
            event: 2,
        },
        "LoadOp event 2",
    ),
    (
        OrderFault::Broken {
            axiom: Axiom::StoreStore,
            event: 3,
        },
        "StoreStore event 3",
    ),
    (
        OrderFault::Broken {
            axiom: Axiom::Stbar,
            event: 4,
        },
        "Stbar event 4",
    ),
    (
        OrderFault::Broken {
            axiom: Axiom::Membar,
            event: 5,
        },
        "Membar event 5",
    ),
    (
        OrderFault::Broken {
            axiom: Axiom::Atomicity,
            event: 60,
        },
        "Atomicity event 60",
    ),
    (
        OrderFault::Broken {
            axiom: Axiom::Value,
            event: 8_000,
        },
        "Value event 8000",
    ),
];

static OF_REFUTATIONS: [(RefutationFault, &str); 9] = [
    (RefutationFault::Misplaced(1), "Misplaced line 1"),
    (RefutationFault::Unfinished, "Unfinished"),
    (RefutationFault::EventRange, "EventRange"),
    (RefutationFault::BaseRefused(2), "BaseRefused line 2"),
    (RefutationFault::SideRefused(30), "SideRefused line 30"),
    (RefutationFault::PathUnlisted(400), "PathUnlisted line 400"),
    (RefutationFault::CaseRefused(5), "CaseRefused line 5"),
    (RefutationFault::CycleUnlisted(6), "CycleUnlisted line 6"),
    (RefutationFault::EmptyCycle(7), "EmptyCycle line 7"),
];

/// Compares what faults display with their texts.
fn expect_texts<T: Copy + Display>(alloc: Global, faults: &[(T, &str)]) -> Result<(), Fail> {
    for (fault, text) in faults {
        let displayed = format!(in alloc; "{fault}")?;
        expect_equal(text, displayed.as_str(), *text)?;
    }
    Ok(())
}

#[test]
fn texts_of_faults(rt: HostRuntime) -> Result<(), Fail> {
    expect_texts(rt.alloc(), &OF_CERTIFICATES)?;
    expect_texts(rt.alloc(), &OF_ORDERS)?;
    expect_texts(rt.alloc(), &OF_REFUTATIONS)
}
