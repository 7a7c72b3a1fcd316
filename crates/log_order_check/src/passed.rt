//! What is known of a processor's events, as they are gone through in the order of their numbers.
ghost use Rattle.std.specs.Prelude.{◌≡◌, ◌≤◌, ◌<◌, suc, ℕ, List, Some, slice_index};
ghost use Rattle.tso_ops.specs.Values.{TraceValue};
ghost use Rattle.tso_ops.specs.Events.{event_at};
ghost use Rattle.tso_ops.specs.declared.events.Event.{Event};
ghost use Rattle.program_chains.specs.LogEvents.{as_trace_event};
ghost use Rattle.log_order_check.specs.Internal.Most.{IsMost};
ghost use Rattle.log_order_check.specs.Internal.Passed.{IsFence, IsPassed, IsStoreUpTo};

use program_chains::LogEvent;

/// How many barriers of a kind stand before a processor's last event, and the greatest place of its stores that fewer of them stand
/// before; 0 where there is none.
#[derive(Clone, Copy, Debug)]
pub(crate) struct Fence {
    pub(crate) count: usize,
    pub(crate) before: usize,
}

/// The greatest places of a processor's loads and of its stores, 0 where there is none, and its fences.
#[derive(Clone, Copy, Debug)]
pub(crate) struct Passed {
    pub(crate) loads: usize,
    pub(crate) stores: usize,
    pub(crate) stbars: Fence,
    pub(crate) barriers: Fence,
}

/// The fence after the processor's next event, which this many barriers stand before, where the greatest place of its stores up to
/// now is `stores`.
fn next_fence(fence: Fence, count: usize, stores: usize) -> Fence
    ensures { (t : TraceValue) (places : List ℕ) (barriers : Event → ℕ) (x : ℕ) (e : Event) →
        ((u : ℕ) (d : Event) → event_at t u ≡ Some d → d.proc ≡ e.proc → u ≤ x → barriers d ≤ barriers e) → event_at t (suc x) ≡ Some e → count ≡ barriers e →
        IsMost (IsStoreUpTo t x e.proc) places stores → IsFence t places barriers x e.proc fence → IsFence t places barriers (suc x) e.proc result × (result.count ≡ count) }
{
    if fence.count < count {
        Fence {
            count,
            before: stores,
        }
    } else {
        fence
    }
}

impl Passed {
    /// That of a processor with no event.
    pub(crate) const NONE: Passed = Passed {
        loads: 0,
        stores: 0,
        stbars: Fence {
            count: 0,
            before: 0,
        },
        barriers: Fence {
            count: 0,
            before: 0,
        },
    };

    /// What is known after the processor's next event, which has this place.
    pub(crate) fn with(self, event: LogEvent, place: usize) -> Passed
        ensures { (t : TraceValue) (places : List ℕ) (x : ℕ) → event_at t (suc x) ≡ Some (as_trace_event event) → place ≡ slice_index places (suc x) →
            IsPassed t places x event.processor self →
            IsPassed t places (suc x) event.processor result × (result.stbars.count ≡ event.stbars) × (result.barriers.count ≡ event.barriers) }
    {
        let stbars = next_fence(self.stbars, event.stbars, self.stores);
        let barriers = next_fence(self.barriers, event.barriers, self.stores);
        if event.load {
            Passed {
                loads: self.loads.max(place),
                stores: self.stores,
                stbars,
                barriers,
            }
        } else {
            Passed {
                loads: self.loads,
                stores: self.stores.max(place),
                stbars,
                barriers,
            }
        }
    }
}
