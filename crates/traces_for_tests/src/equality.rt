//! What is equal to what it has to be.

ghost use Rattle.std.specs.Prelude.{◌↔◌, IsOk, IsTrue};

use std::fmt::Debug;
use std::test::Fail;

/// Compares what a call gave in this case with what it has to give. The error names the case and both, up to 512 bytes.
pub fn expect_equal<C: Copy + Debug, T: Copy + Debug + PartialEq>(
    case: C,
    found: T,
    expected: T,
) -> Result<(), Fail>
    ensures equal { IsOk result ↔ IsTrue (T.eq found expected) }
{
    if found == expected {
        return Ok(());
    }
    Err(Fail::new(format_args!("{case:?}: found {found:?}, expected {expected:?}")))
}
