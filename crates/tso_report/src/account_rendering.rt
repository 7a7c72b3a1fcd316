//! The text of a unit's account.
ghost use Rattle.std.specs.Prelude.{◌≡◌, IfOk, string_bytes};
ghost use Rattle.tso_report.specs.AccountTexts.{account_text, closed_name};

use std::alloc::Global;
use tso_ops::OutOfMemory;
use unit_core::Account;

/// The line of a unit's account: `account loads A stores B swaps C membars D drains E closed`, or `open` in place of
/// `closed`, with its line feed. OutOfMemory where an allocation was refused.
pub fn print_account(alloc: Global, account: &Account) -> Result<Vec<u8>, OutOfMemory>
    ensures { IfOk result (λ bytes. bytes.items ≡ account_text account.now) }
{
    Ok(account_text(alloc, account)?.into_bytes())
}

/// The line of an account.
fn account_text(alloc: Global, account: &Account) -> Result<String, OutOfMemory>
    ensures { IfOk result (λ text. string_bytes text ≡ account_text account.now) }
{
    let Account {
        loads,
        stores,
        swaps,
        membars,
        drains,
        closed,
    } = *account;
    let closed = closed_name(closed);
    format!(in alloc;
        "account loads {loads} stores {stores} swaps {swaps} membars {membars} drains {drains} {closed}\n"
    )
}

/// Whether an account is closed.
fn closed_name(closed: bool) -> &'static str
    ensures { result.now ≡ closed_name closed }
{
    if closed { "closed" } else { "open" }
}
