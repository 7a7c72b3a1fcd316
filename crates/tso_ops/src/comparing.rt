ghost use Rattle.std.specs.Prelude.{◌≡◌, Decides};
ghost use Rattle.tso_ops.specs.Settings.{setting_of};
ghost use Rattle.tso_ops.specs.Values.{rows};

use crate::ops::Op;
use crate::settings::Setting;

/// Whether the lists are the same.
pub(crate) fn are_same_lists(one: &[Vec<Op>], other: &[Vec<Op>]) -> bool
    ensures { Decides result (rows one.now ≡ rows other.now) }
{
    one == other
}

/// Whether the settings are the same.
pub(crate) fn is_same_setting(one: &Setting, other: &Setting) -> bool
    ensures { Decides result (setting_of one.now ≡ setting_of other.now) }
{
    one.version == other.version && one.order == other.order && one.first == other.first
}
