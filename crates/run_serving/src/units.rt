//! The memory units that options ask for, made in one place.
ghost use Rattle.std.specs.Prelude.{◌≡◌, IfOk, map, replicate};
ghost use Rattle.run_serving.specs.Ranges.{IsUnitInRange};
ghost use Rattle.run_serving.specs.BenchUnits.{bench_value};
ghost use Rattle.run_serving.specs.Printing.{unit_of};

use command_line::{UnitKind, UnitOptions};
use std::alloc::Global;
use tso_ops::{Order, OutOfMemory};
use unit_core::{MemoryUnit, Step};
use unit_faulty::FaultyUnit;
use unit_kinds::{PartialOrderUnit, SerialUnit, StoreBufferUnit};

/// A memory unit of one of the kinds that options name.
#[derive(Drop)]
pub(crate) enum BenchUnit {
    Serial(SerialUnit),
    Buffer(StoreBufferUnit),
    Partial(PartialOrderUnit),
    Faulty(FaultyUnit),
}

/// The unit that the options ask for, which has taken no step; or OutOfMemory where an allocation was refused.
pub(crate) fn make_unit(alloc: Global, options: UnitOptions) -> Result<BenchUnit, OutOfMemory>
    requires { IsUnitInRange options }
    ensures { IfOk result (λ unit. bench_value unit ≡ unit_of options) }
{
    Ok(match options.kind {
        UnitKind::Serial => BenchUnit::Serial(SerialUnit::new(alloc)?),
        UnitKind::Buffer => BenchUnit::Buffer(StoreBufferUnit::new(alloc, options.capacity)?),
        UnitKind::Partial => BenchUnit::Partial(PartialOrderUnit::new(alloc, options.capacity)?),
        UnitKind::Faulty(kind) => BenchUnit::Faulty(FaultyUnit::new(
            alloc,
            kind,
            options.trigger,
            options.capacity,
        )?),
    })
}

/// So many units that the options ask for.
pub(crate) fn make_units(
    alloc: Global,
    options: UnitOptions,
    count: u64,
) -> Result<Vec<BenchUnit>, OutOfMemory>
    requires { IsUnitInRange options }
    ensures { IfOk result (λ units. map bench_value units.items ≡ replicate count (unit_of options)) }
{
    let mut units = Vec::new(alloc);
    for _ in 0..count {
        units.push(make_unit(alloc, options)?)?;
    }
    Ok(units)
}

impl MemoryUnit for BenchUnit {
    ghost value_of = { bench_value };

    fn load(&mut self, p: usize, a: u16) -> Result<u64, OutOfMemory> {
        match self {
            BenchUnit::Serial(unit) => unit.load(p, a),
            BenchUnit::Buffer(unit) => unit.load(p, a),
            BenchUnit::Partial(unit) => unit.load(p, a),
            BenchUnit::Faulty(unit) => unit.load(p, a),
        }
    }

    fn store(&mut self, p: usize, a: u16, v: u64) -> Result<(), OutOfMemory> {
        match self {
            BenchUnit::Serial(unit) => unit.store(p, a, v),
            BenchUnit::Buffer(unit) => unit.store(p, a, v),
            BenchUnit::Partial(unit) => unit.store(p, a, v),
            BenchUnit::Faulty(unit) => unit.store(p, a, v),
        }
    }

    fn swap(&mut self, p: usize, a: u16, v: u64) -> Result<u64, OutOfMemory> {
        match self {
            BenchUnit::Serial(unit) => unit.swap(p, a, v),
            BenchUnit::Buffer(unit) => unit.swap(p, a, v),
            BenchUnit::Partial(unit) => unit.swap(p, a, v),
            BenchUnit::Faulty(unit) => unit.swap(p, a, v),
        }
    }

    fn membar(&mut self, p: usize) -> Result<(), OutOfMemory> {
        match self {
            BenchUnit::Serial(unit) => unit.membar(p),
            BenchUnit::Buffer(unit) => unit.membar(p),
            BenchUnit::Partial(unit) => unit.membar(p),
            BenchUnit::Faulty(unit) => unit.membar(p),
        }
    }

    fn stbar(&mut self, p: usize) -> Result<(), OutOfMemory> {
        match self {
            BenchUnit::Serial(unit) => unit.stbar(p),
            BenchUnit::Buffer(unit) => unit.stbar(p),
            BenchUnit::Partial(unit) => unit.stbar(p),
            BenchUnit::Faulty(unit) => unit.stbar(p),
        }
    }

    fn drain(&mut self, p: usize) -> Result<bool, OutOfMemory> {
        match self {
            BenchUnit::Serial(unit) => unit.drain(p),
            BenchUnit::Buffer(unit) => unit.drain(p),
            BenchUnit::Partial(unit) => unit.drain(p),
            BenchUnit::Faulty(unit) => unit.drain(p),
        }
    }

    fn preset(&mut self, a: u16, v: u64) {
        match self {
            BenchUnit::Serial(unit) => unit.preset(a, v),
            BenchUnit::Buffer(unit) => unit.preset(a, v),
            BenchUnit::Partial(unit) => unit.preset(a, v),
            BenchUnit::Faulty(unit) => unit.preset(a, v),
        }
    }

    fn waiting(&self, p: usize) -> usize {
        match self {
            BenchUnit::Serial(unit) => unit.waiting(p),
            BenchUnit::Buffer(unit) => unit.waiting(p),
            BenchUnit::Partial(unit) => unit.waiting(p),
            BenchUnit::Faulty(unit) => unit.waiting(p),
        }
    }

    fn steps(&self) -> &[Step] {
        match self {
            BenchUnit::Serial(unit) => unit.steps(),
            BenchUnit::Buffer(unit) => unit.steps(),
            BenchUnit::Partial(unit) => unit.steps(),
            BenchUnit::Faulty(unit) => unit.steps(),
        }
    }

    fn lawful(&self) -> bool {
        match self {
            BenchUnit::Serial(unit) => unit.lawful(),
            BenchUnit::Buffer(unit) => unit.lawful(),
            BenchUnit::Partial(unit) => unit.lawful(),
            BenchUnit::Faulty(unit) => unit.lawful(),
        }
    }

    fn order(&self) -> Order {
        match self {
            BenchUnit::Serial(unit) => unit.order(),
            BenchUnit::Buffer(unit) => unit.order(),
            BenchUnit::Partial(unit) => unit.order(),
            BenchUnit::Faulty(unit) => unit.order(),
        }
    }

    fn first(&self, a: u16) -> u64 {
        match self {
            BenchUnit::Serial(unit) => unit.first(a),
            BenchUnit::Buffer(unit) => unit.first(a),
            BenchUnit::Partial(unit) => unit.first(a),
            BenchUnit::Faulty(unit) => unit.first(a),
        }
    }
}
