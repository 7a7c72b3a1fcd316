//! Campaigns of the seeds 1, 2 and 3 on units of given kinds.
ghost use Rattle.std.specs.Prelude.{◌≡◌, ◌≤◌, [], All, IfOk, length};

use drawn_programs::Shape;
use progress_meters::Meter;
use request_options::{CampaignPrinting, Execution, FaultKind};
use std::alloc::Global;
use std::cell::Cell;
use std::sync::{Arc, Wait};
use std::test::Fail;
use std::thread::Threads;
use traces_for_tests::{Full, ShortWriter};
use tso_ops::{Order, OutOfMemory};
use tso_report::{CampaignPlan, Fault, Verdict, campaign, campaign_over};
use unit_core::MemoryUnit;
use unit_faulty::FaultyUnit;
use unit_kinds::{SerialUnit, StoreBufferUnit};
use units_for_tests::{
    CallCounts, CountingUnit, InventingUnit, RefusingUnit, new_counts, numbers_of,
};

/// A unit in a box.
type Boxed = Box<dyn MemoryUnit + Send>;

/// A kind of unit.
#[derive(Clone, Copy)]
pub(super) enum Kind {
    Serial,
    /// With store buffers of so many entries.
    Buffer(usize),
    /// With this fault, from this occasion on.
    Faulty(FaultKind, u64),
    /// One that invents its answers.
    Inventing,
    /// A serial one that refuses the call of this number.
    Refusing(u64),
    /// A serial one whose first call waits for that of another one of these.
    Meeting,
}

/// A unit of this kind, whose calls are counted.
fn unit_of(
    alloc: Global,
    kind: Kind,
    counts: &Arc<CallCounts, Global>,
) -> Result<Boxed, OutOfMemory>
    ensures { IfOk result (λ unit. (value_of unit).steps ≡ []) }
{
    let counts = Arc::try_clone(counts)?;
    match kind {
        Kind::Serial => {
            let unit = SerialUnit::new(alloc)?;
            Ok(Box::new(alloc, CountingUnit::new(unit, counts))?)
        }
        Kind::Buffer(capacity) => {
            let unit = StoreBufferUnit::new(alloc, capacity.clamp(1, 64))?;
            Ok(Box::new(alloc, CountingUnit::new(unit, counts))?)
        }
        Kind::Faulty(fault, trigger) => {
            let unit = FaultyUnit::new(alloc, fault, trigger.max(1), 8)?;
            Ok(Box::new(alloc, CountingUnit::new(unit, counts))?)
        }
        Kind::Inventing => {
            let unit = InventingUnit::new(alloc)?;
            Ok(Box::new(alloc, CountingUnit::new(unit, counts))?)
        }
        Kind::Refusing(call) => {
            let unit = RefusingUnit::new(SerialUnit::new(alloc)?, call);
            Ok(Box::new(alloc, CountingUnit::new(unit, counts))?)
        }
        Kind::Meeting => {
            let unit = SerialUnit::new(alloc)?;
            Ok(Box::new(alloc, CountingUnit::waiting(unit, counts))?)
        }
    }
}

/// How programs are executed and printed, of which memory model they are, and whether a meter hears of the seeds.
#[derive(Clone, Copy)]
pub(super) struct Way {
    pub(super) order: Order,
    pub(super) execution: Execution,
    pub(super) printing: CampaignPrinting,
    pub(super) is_heard: bool,
}

/// The kinds of the units, the numbers of a shape, and how programs of it are executed and printed.
pub(super) type Campaign = ([Kind; 3], (u64, u64, u64), Way);

/// Counts the seeds of which a campaign's meter hears.
#[derive(Drop)]
struct SeedCount(Cell<u64>);

impl Meter for SeedCount {
    fn advance(&self, count: u64) {
        self.0.set(self.0.get().saturating_add(count));
    }
}

/// What a campaign gave: its answer, what was written, of how many seeds the meter heard, how many calls of each kind the counted
/// units got, with their drops at last, and whether two of them met.
#[derive(Drop)]
pub(super) struct Ran {
    pub(super) answer: Result<Verdict, Fault>,
    pub(super) written: Vec<u8>,
    pub(super) heard: u64,
    pub(super) calls: [u64; 7],
    pub(super) met: bool,
}

/// These three units, in this order.
fn list_of<U: MemoryUnit>(
    alloc: Global,
    first: U,
    second: U,
    third: U,
) -> Result<Vec<U>, OutOfMemory>
    requires first { (U.value_of first).steps ≡ [] }
    requires second { (U.value_of second).steps ≡ [] }
    requires third { (U.value_of third).steps ≡ [] }
    ensures seeds { IfOk result (λ units. length units.items ≤ 3) }
    ensures untouched { IfOk result (λ units. All (λ unit. (U.value_of unit).steps ≡ []) units.items) }
{
    let mut units = Vec::new(alloc);
    units.push(first)?;
    units.push(second)?;
    units.push(third)?;
    Ok(units)
}

/// The units of these kinds: the calls of the counted one, or of all where none is named, are counted here, those of others
/// there.
fn units_of(
    alloc: Global,
    kinds: [Kind; 3],
    counted: Option<usize>,
    here: &Arc<CallCounts, Global>,
    there: &Arc<CallCounts, Global>,
) -> Result<Vec<Boxed>, OutOfMemory>
    ensures seeds { IfOk result (λ units. length units.items ≤ 3) }
    ensures untouched { IfOk result (λ units. All (λ unit. (value_of unit).steps ≡ []) units.items) }
{
    let [first, second, third] = kinds;
    let first_counts = if counted.unwrap_or(0) == 0 {
        here
    } else {
        there
    };
    let second_counts = if counted.unwrap_or(1) == 1 {
        here
    } else {
        there
    };
    let third_counts = if counted.unwrap_or(2) == 2 {
        here
    } else {
        there
    };
    let first = unit_of(alloc, first, first_counts)?;
    let second = unit_of(alloc, second, second_counts)?;
    let third = unit_of(alloc, third, third_counts)?;
    list_of(alloc, first, second, third)
}

/// Runs a campaign on so many workers, from 1 to 64, into a writer with so much room. The calls of one unit or of all are counted.
pub(super) fn run_campaign<H: Threads + Wait + Sync + AllocGlobal>(
    rt: &H,
    alloc: Global,
    (kinds, (processors, operations, addresses), way): Campaign,
    counted: Option<usize>,
    workers: usize,
    room: usize,
) -> Result<Ran, Fail> {
    let (here, there) = (new_counts(alloc)?, new_counts(alloc)?);
    let units = units_of(alloc, kinds, counted, &here, &there)?;
    let plan = CampaignPlan {
        first: 1,
        order: way.order,
        shape: Shape::new(processors, operations, addresses).ok_or("a shape")?,
        execution: way.execution,
        printing: way.printing,
    };
    let meter = SeedCount(Cell::new(0));
    let mut writer = ShortWriter::new(alloc, room, Full::TakesNothing);
    let workers = workers.clamp(1, 64);
    let answer = if way.is_heard {
        campaign_over(rt, plan, units, workers, &meter, &mut writer)
    } else {
        campaign(rt, plan, units, workers, &mut writer)
    };
    Ok(Ran {
        answer,
        written: writer.taken,
        heard: meter.0.get(),
        calls: numbers_of(&here),
        met: here.have_met(),
    })
}
