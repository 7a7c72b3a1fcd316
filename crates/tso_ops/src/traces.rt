ghost use Rattle.std.specs.Prelude.{◌≡◌, ◌≢◌, ◌<◌, ◌↔◌, [], IsSome, IfSome, IfOk, IfErr, OnOk};
ghost use Rattle.tso_ops.specs.declared.faults.ValueFault.{ValueFault};
ghost use Rattle.tso_ops.specs.declared.settings.Version.TheVariants.{One};
ghost use Rattle.tso_ops.specs.Settings.{first_value, version_one_tso, setting_of, setting_of_first, setting_of_order};
ghost use Rattle.tso_ops.specs.Values.{rows, trace_of_lists, program_of};
ghost use Rattle.tso_ops.specs.Limits.{IsTrace, IsValueRefusal};
ghost use Rattle.tso_ops.specs.Events.{processor_count, outcomes_at, event_total, event_at, IsLoad, IsLoadAt, IsStore, IsStoreTo, IsSwapLoad, IsEventOf, HasBarriersBefore, HasStbarsBefore, HasSource, SourceIs};
ghost use Rattle.tso_ops.specs.Internal.Tables.{IsTabled};
ghost use Rattle.bitsets.specs.Rows.{IsMask};

use crate::checks::check_lists;
use crate::events::{Event, Source};
use crate::faults::{OutOfMemory, Refused, RefusedFirst, ValueFault};
use crate::masks::{Masks, list_masks, row_at};
use crate::ops::Outcome;
use crate::programs::Program;
use crate::settings::{Order, Setting, Version, first_at};
use crate::tables::{list_events, list_sources};
use std::alloc::Global;
use std::marker::Model;

/// A trace of up to 16 processors: its memory model, the first values of memory, and what each processor did and read,
/// within the limits of its version.
///
/// Its events are its loads and stores in file order, numbered from 1. A swap gives its load and then its store, a
/// barrier of either kind gives none. They and the sources of the loads are found once, when the trace is made.
#[derive(Debug, Drop)]
pub struct Trace {
    setting: Setting,
    lists: Vec<Vec<Outcome>>,
    events: Vec<Event>,
    sources: Vec<Option<Source>>,
    masks: Masks,
}

impl Model for Trace {
    ghost use Rattle.tso_ops.specs.Settings.{setting_of};
    ghost use Rattle.tso_ops.specs.Values.{TraceValue, rows, trace_of_lists};
    ghost use Rattle.tso_ops.specs.Internal.Tables.{IsTabled};

    ghost Value = { TraceValue };

    ghost view = { λ t. trace_of_lists (setting_of t.setting) (rows t.lists.items) };

    ghost invariant = { λ t. IsTabled (setting_of t.setting) t.lists.items t.events.items t.sources.items t.masks };
}

impl Trace {
    /// The trace of these lists, one for each processor: `with_order` under TSO.
    pub fn new(alloc: Global, lists: Vec<Vec<Outcome>>) -> Result<Trace, Refused<Outcome>>
        ensures made { IfOk result (λ t. t ≡ trace_of_lists version_one_tso (rows lists.items)) }
        ensures accepted { OnOk result ((why : ValueFault) → IsValueRefusal (program_of (trace_of_lists version_one_tso (rows lists.items))) why → ⊥) }
        ensures refused { IfErr result (λ r. r.why ≢ ValueFault.OutOfMemory →
            IsValueRefusal (program_of (trace_of_lists version_one_tso (rows lists.items))) r.why) }
        ensures handed_back { IfErr result (λ r. r.lists ≡ lists) }
    {
        Trace::with_order(alloc, Order::Tso, lists)
    }

    /// The trace of these lists under this memory model, of version 1: each location is 0 at first.
    ///
    /// Refused, with the lists handed back: TooManyProcessors above 16 lists; else the first operation in file
    /// order that has a fault decides, by the order TooManyEvents, AddressRange, ZeroValue, RepeatedValue, StbarInTso;
    /// or OutOfMemory where an allocation was refused.
    pub fn with_order(
        alloc: Global,
        order: Order,
        lists: Vec<Vec<Outcome>>,
    ) -> Result<Trace, Refused<Outcome>>
        ensures made { IfOk result (λ t. t ≡ trace_of_lists (setting_of_order order) (rows lists.items)) }
        ensures accepted { OnOk result ((why : ValueFault) → IsValueRefusal (program_of (trace_of_lists (setting_of_order order) (rows lists.items))) why → ⊥) }
        ensures refused { IfErr result (λ r. r.why ≢ ValueFault.OutOfMemory →
            IsValueRefusal (program_of (trace_of_lists (setting_of_order order) (rows lists.items))) r.why) }
        ensures handed_back { IfErr result (λ r. r.lists ≡ lists) }
    {
        match check_trace(alloc, Setting::of_order(alloc, order), lists) {
            Ok(trace) => Ok(trace),
            Err(refused) => Err(Refused {
                why: refused.why,
                lists: refused.lists,
            }),
        }
    }

    /// The trace of these lists under this memory model, of version 2: `first` has addresses, in ascending order, with
    /// their first values; each other location is 0 at first.
    ///
    /// Refused, with first values and lists handed back: TooManyProcessors above 16 lists; else the first entry of
    /// `first` that has a fault decides, by the order AddressRange, ZeroValue, InitOrder; else the first operation as for
    /// `with_order`, where RepeatedValue is also a store of a first value of any address; or OutOfMemory where an
    /// allocation was refused.
    pub fn with_first(
        alloc: Global,
        order: Order,
        first: Vec<(u16, u64)>,
        lists: Vec<Vec<Outcome>>,
    ) -> Result<Trace, RefusedFirst<Outcome>>
        ensures made { IfOk result (λ t. t ≡ trace_of_lists (setting_of_first order first.items) (rows lists.items)) }
        ensures accepted { OnOk result ((why : ValueFault) →
            IsValueRefusal (program_of (trace_of_lists (setting_of_first order first.items) (rows lists.items))) why → ⊥) }
        ensures refused { IfErr result (λ r. r.why ≢ ValueFault.OutOfMemory →
            IsValueRefusal (program_of (trace_of_lists (setting_of_first order first.items) (rows lists.items))) r.why) }
        ensures handed_back { IfErr result (λ r. r.lists ≡ lists) }
        ensures first_handed_back { IfErr result (λ r. r.first ≡ first) }
    {
        let setting = Setting {
            version: Version::Two,
            order,
            first,
        };
        check_trace(alloc, setting, lists)
    }

    /// The trace of a setting and lists that are known to keep the limits, or OutOfMemory where an allocation was refused.
    pub fn of_lists(
        alloc: Global,
        setting: Setting,
        lists: Vec<Vec<Outcome>>,
    ) -> Result<Trace, OutOfMemory>
        requires { IsTrace (trace_of_lists (setting_of setting) (rows lists.items)) }
        ensures { IfOk result (λ t. t ≡ trace_of_lists (setting_of setting) (rows lists.items)) }
    {
        let (events, sources, masks) = tables(alloc, &setting, &lists)?;
        Ok(Trace {
            setting,
            lists,
            events,
            sources,
            masks,
        })
    }

    /// The trace of a run of the program: these lists, which are known to keep the limits, with the program's version,
    /// memory model and first values, or OutOfMemory where an allocation was refused.
    pub fn of_program(
        alloc: Global,
        program: &Program,
        lists: Vec<Vec<Outcome>>,
    ) -> Result<Trace, OutOfMemory>
        requires { IsTrace (trace_of_lists program.now.setting (rows lists.items)) }
        ensures { IfOk result (λ t. t ≡ trace_of_lists program.now.setting (rows lists.items)) }
    {
        Trace::of_lists(alloc, program.setting().copy(alloc)?, lists)
    }

    /// Version, memory model and first values.
    pub fn setting(&self) -> &Setting
        ensures { setting_of result.now ≡ self.now.setting }
    {
        &self.setting
    }

    /// The memory model.
    #[inline]
    pub fn order(&self) -> Order
        ensures { result ≡ self.now.setting.order }
    {
        self.setting.order
    }

    /// The version.
    pub fn version(&self) -> Version
        ensures { result ≡ self.now.setting.version }
    {
        self.setting.version
    }

    /// The first value of address `a`: 0 where it has none of its own.
    pub fn first(&self, a: u16) -> u64
        ensures { result ≡ first_value self.now.setting.first a }
    {
        first_at(&self.setting.first, a)
    }

    /// The number of processors, from 0 to 16.
    pub fn processors(&self) -> usize
        ensures count { result ≡ processor_count self.now }
        ensures kept { IsTrace self.now }
    {
        self.lists.len()
    }

    /// What processor `p` did, in program order.
    pub fn ops(&self, p: usize) -> &[Outcome]
        requires { p < processor_count self.now }
        ensures { result.now ≡ outcomes_at self.now p }
    {
        &self.lists[p]
    }

    /// The number of events, from 0 to the limit of the version: 2,000, or 8,000 in version 2.
    #[inline]
    pub fn events(&self) -> usize
        ensures count { result ≡ event_total self.now }
        ensures kept { IsTrace self.now }
    {
        self.events.len()
    }

    /// Event number `n`, or None outside 1 to `events()`.
    #[inline]
    pub fn event(&self, n: usize) -> Option<Event>
        ensures { result ≡ event_at self.now n }
    {
        self.events.get(n.checked_sub(1)?).copied()
    }

    /// Where the value of load `n` comes from, or None where `n` is no load.
    #[inline]
    pub fn source(&self, n: usize) -> Option<Source>
        ensures load { IsSome result ↔ IsLoad self.now n }
        ensures read { IfSome result (SourceIs self.now n) }
    {
        *self.sources.get(n.checked_sub(1)?)?
    }

    /// The loads of address `a`, as a row of bits: that of the number n is bit `n % 64` of word `n / 64`.
    ///
    /// A row ends with the word of its last bit: it is empty where `a` is above 255.
    #[inline]
    pub fn load_words(&self, a: u16) -> &[u64]
        ensures { IsMask result.now (IsLoadAt self.now a) }
    {
        row_at(&self.masks.loads, a as usize)
    }

    /// The stores to address `a`, as such a row.
    #[inline]
    pub fn store_words(&self, a: u16) -> &[u64]
        ensures { IsMask result.now (IsStoreTo self.now a) }
    {
        row_at(&self.masks.stores, a as usize)
    }

    /// The stores of all addresses, as such a row.
    #[inline]
    pub fn all_store_words(&self) -> &[u64]
        ensures { IsMask result.now (IsStore self.now) }
    {
        row_at(&self.masks.all_stores, 0)
    }

    /// The loads of swaps, as such a row.
    #[inline]
    pub fn swap_load_words(&self) -> &[u64]
        ensures { IsMask result.now (IsSwapLoad self.now) }
    {
        row_at(&self.masks.swap_loads, 0)
    }

    /// The events of processor `p`, as such a row: empty where there is no such processor.
    #[inline]
    pub fn processor_words(&self, p: usize) -> &[u64]
        ensures { IsMask result.now (IsEventOf self.now p) }
    {
        row_at(&self.masks.processors, p)
    }

    /// The events that so many barriers stand before on their processors, as such a row.
    #[inline]
    pub fn barrier_words(&self, bars: usize) -> &[u64]
        ensures { IsMask result.now (HasBarriersBefore self.now bars) }
    {
        row_at(&self.masks.barriers, bars)
    }

    /// The events that so many STBARs stand before on their processors, as such a row.
    #[inline]
    pub fn stbar_words(&self, stbars: usize) -> &[u64]
        ensures { IsMask result.now (HasStbarsBefore self.now stbars) }
    {
        row_at(&self.masks.stbars, stbars)
    }

    /// The loads whose source is number `s`, 0 for `Init`, as such a row.
    #[inline]
    pub fn reader_words(&self, s: usize) -> &[u64]
        ensures { IsMask result.now (λ l. HasSource self.now l s) }
    {
        row_at(&self.masks.readers, s)
    }
}

/// The trace of this setting and these lists, if they keep the limits.
fn check_trace(
    alloc: Global,
    setting: Setting,
    lists: Vec<Vec<Outcome>>,
) -> Result<Trace, RefusedFirst<Outcome>>
    requires { setting.version ≡ One → setting.first.items ≡ [] }
    ensures made { IfOk result (λ t. t ≡ trace_of_lists (setting_of setting) (rows lists.items)) }
    ensures accepted { OnOk result ((why : ValueFault) → IsValueRefusal (program_of (trace_of_lists (setting_of setting) (rows lists.items))) why → ⊥) }
    ensures refused { IfErr result (λ r. r.why ≢ ValueFault.OutOfMemory →
        IsValueRefusal (program_of (trace_of_lists (setting_of setting) (rows lists.items))) r.why) }
    ensures handed_back { IfErr result (λ r. r.lists ≡ lists) }
    ensures first_handed_back { IfErr result (λ r. r.first ≡ setting.first) }
{
    if let Err(why) = check_lists(alloc, &setting, &lists) {
        return Err(RefusedFirst {
            why,
            first: setting.first,
            lists,
        });
    }
    match tables(alloc, &setting, &lists) {
        Ok((events, sources, masks)) => Ok(Trace {
            setting,
            lists,
            events,
            sources,
            masks,
        }),
        Err(_) => Err(RefusedFirst {
            why: ValueFault::OutOfMemory,
            first: setting.first,
            lists,
        }),
    }
}

/// The tables that a trace of this setting and these lists answers from: its events, their sources, and rows of bits.
fn tables(
    alloc: Global,
    setting: &Setting,
    lists: &[Vec<Outcome>],
) -> Result<(Vec<Event>, Vec<Option<Source>>, Masks), OutOfMemory>
    ensures { IsTrace (trace_of_lists (setting_of setting.now) (rows lists.now)) →
        IfOk result (λ tables. IsTabled (setting_of setting.now) lists.now tables.0.items tables.1.items tables.2) }
{
    let events = list_events(alloc, lists)?;
    let sources = list_sources(alloc, &setting.first, &events)?;
    let masks = list_masks(alloc, &events, &sources)?;
    Ok((events, sources, masks))
}
