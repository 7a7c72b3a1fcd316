ghost use Rattle.std.specs.Prelude.{◌≡◌, ◌<◌};
ghost use Rattle.unit_kinds.specs.Internal.Buffer.{drained_times};

use store_buffers::Buffers;

/// Drains so many of the oldest entries of processor `p`.
pub(crate) fn drain_times(parts: &mut Buffers, p: usize, count: usize)
    requires { p < 16 }
    ensures { parts.new ≡ drained_times count parts.old p }
{
    for _done in 0..count {
        parts.drain_oldest(p);
    }
}
