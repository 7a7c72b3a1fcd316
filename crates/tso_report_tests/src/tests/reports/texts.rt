//! The texts of accounts and of faults.

use super::expect_bytes;
use std::test::Fail;
use tso_report::{Fault, print_account};
use unit_core::Account;

/// Accounts: of no steps, closed, and of the greatest numbers; and the text of each.
const ACCOUNTS: [(Account, &str); 3] = [
    (
        Account {
            loads: 0,
            stores: 0,
            swaps: 0,
            membars: 0,
            drains: 0,
            closed: false,
        },
        "account loads 0 stores 0 swaps 0 membars 0 drains 0 open\n",
    ),
    (
        Account {
            loads: 1,
            stores: 20,
            swaps: 300,
            membars: 4_000,
            drains: 50_000,
            closed: true,
        },
        "account loads 1 stores 20 swaps 300 membars 4000 drains 50000 closed\n",
    ),
    (
        Account {
            loads: usize::MAX,
            stores: usize::MAX,
            swaps: usize::MAX,
            membars: usize::MAX,
            drains: usize::MAX,
            closed: true,
        },
        "account loads 18446744073709551615 stores 18446744073709551615 swaps 18446744073709551615 membars 18446744073709551615 drains 18446744073709551615 closed\n",
    ),
];

#[test]
fn accounts(rt: HostRuntime) -> Result<(), Fail> {
    for (account, expected) in ACCOUNTS {
        let text = print_account(rt.alloc(), &account)?;
        expect_bytes(&rt, expected, text.as_slice(), expected.as_bytes());
    }
    Ok(())
}

const NAMES: [(Fault, &str); 5] = [
    (Fault::OutOfMemory, "OutOfMemory"),
    (Fault::Read, "Read"),
    (Fault::Write, "Write"),
    (Fault::NoThread, "NoThread"),
    (Fault::Missing(18), "Missing 18"),
];

#[test]
fn faults_have_names(rt: HostRuntime) -> Result<(), Fail> {
    let alloc = rt.alloc();
    for (fault, name) in NAMES {
        let text = format!(in alloc; "{fault}")?;
        expect_bytes(&rt, name, text.as_bytes(), name.as_bytes());
    }
    Ok(())
}
