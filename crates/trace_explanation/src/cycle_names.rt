//! The names of cycles that the literature knows.
ghost use Rattle.std.specs.Prelude.{◌≡◌, map, string_bytes, IfOk};
ghost use Rattle.std.specs.Option.{option_map};
ghost use Rattle.trace_explanation.specs.CycleNames.{cycle_names};
ghost use Rattle.trace_explanation.specs.CycleShapes.{name_of, shape_text};
ghost use Rattle.trace_explanation.specs.Internal.Tables.{row_of};

use std::alloc::{AllocError, Global};

/// A cycle that has a name.
#[derive(Clone, Copy)]
struct NamedCycle {
    shape: &'static str,
    name: &'static str,
}

/// All that have.
static NAMED_CYCLES: [NamedCycle; 40] = [
    NamedCycle {
        shape: "PodWW Rfe PodRR Fre",
        name: "message passing",
    },
    NamedCycle {
        shape: "PodWR Fre PodWR Fre",
        name: "store buffering",
    },
    NamedCycle {
        shape: "PodRW Rfe PodRW Rfe",
        name: "load buffering",
    },
    NamedCycle {
        shape: "Rfe PodRR Fre Rfe PodRR Fre",
        name: "independent reads of independent writes",
    },
    NamedCycle {
        shape: "Rfe PodRW Rfe PodRR Fre",
        name: "write-to-read causality",
    },
    NamedCycle {
        shape: "Rfe PodRR Fre PodWR Fre",
        name: "read-to-write causality",
    },
    NamedCycle {
        shape: "PodWR Fre Rfe PodRR Fre",
        name: "read-to-write causality",
    },
    NamedCycle {
        shape: "PodWW Coe PodWR Fre",
        name: "the litmus test R",
    },
    NamedCycle {
        shape: "PodWW Rfe PodRW Coe",
        name: "the litmus test S",
    },
    NamedCycle {
        shape: "PodWW Coe PodWW Coe",
        name: "the litmus test 2+2W",
    },
    NamedCycle {
        shape: "Rfe PodRW Rfe PodRW Coe",
        name: "the litmus test WWC",
    },
    NamedCycle {
        shape: "PodWW Rfe PodRW Rfe PodRR Fre",
        name: "the litmus test ISA2",
    },
    NamedCycle {
        shape: "PodWW Rfe PodRR Fre PodWR Fre",
        name: "the litmus test W+RWC",
    },
    NamedCycle {
        shape: "PodWR Fre PodWW Rfe PodRR Fre",
        name: "the litmus test W+RWC",
    },
    NamedCycle {
        shape: "PodWR Fre PodWR Fre PodWR Fre",
        name: "the litmus test 3.SB",
    },
    NamedCycle {
        shape: "PodRW Rfe PodRW Rfe PodRW Rfe",
        name: "the litmus test 3.LB",
    },
    NamedCycle {
        shape: "PodWW Coe PodWW Coe PodWW Coe",
        name: "the litmus test 3.2W",
    },
    NamedCycle {
        shape: "Rfe PodRW Coe PodWR Fre",
        name: "the litmus test WRW+WR",
    },
    NamedCycle {
        shape: "PodWW Coe Rfe PodRR Fre",
        name: "the litmus test WRR+2W",
    },
    NamedCycle {
        shape: "Rfe PodRW Coe Rfe PodRR Fre",
        name: "the litmus test IRRWIW",
    },
    NamedCycle {
        shape: "PodWW Rfe PodRW Coe PodWR Fre",
        name: "the litmus test Z6.0",
    },
    NamedCycle {
        shape: "PodWW Coe PodWW Rfe PodRR Fre",
        name: "the litmus test Z6.3",
    },
    NamedCycle {
        shape: "PodWW Coe PodWR Fre PodWR Fre",
        name: "the litmus test Z6.4",
    },
    NamedCycle {
        shape: "PodWR Fre PodWW Coe PodWR Fre",
        name: "the litmus test Z6.4",
    },
    NamedCycle {
        shape: "PodWW Coe PodWW Coe PodWR Fre",
        name: "the litmus test Z6.5",
    },
    NamedCycle {
        shape: "Rfe PodRW Coe PodWW Coe",
        name: "the litmus test WRW+2W",
    },
    NamedCycle {
        shape: "PodWW Coe Rfe PodRW Coe",
        name: "the litmus test WRW+2W",
    },
    NamedCycle {
        shape: "Rfe PodRW Coe Rfe PodRW Coe",
        name: "the litmus test IRWIW",
    },
    NamedCycle {
        shape: "PodWW Coe PodWW Rfe PodRW Coe",
        name: "the litmus test Z6.1",
    },
    NamedCycle {
        shape: "PodWW Rfe PodRW Coe PodWW Coe",
        name: "the litmus test Z6.1",
    },
    NamedCycle {
        shape: "PodWW Rfe PodRW Rfe PodRW Coe",
        name: "the litmus test Z6.2",
    },
    NamedCycle {
        shape: "Rfe PosRR Fre",
        name: "the litmus test CoRR",
    },
    NamedCycle {
        shape: "PosWR Fri",
        name: "the litmus test CoWR",
    },
    NamedCycle {
        shape: "PosRW Rfi",
        name: "the litmus test CoRW1",
    },
    NamedCycle {
        shape: "Rfe PosRW Coe",
        name: "the litmus test CoRW2",
    },
    NamedCycle {
        shape: "PosWW Coi",
        name: "the litmus test CoWW",
    },
    NamedCycle {
        shape: "PosRW Rfe PosRW Rfe",
        name: "the litmus test n4b",
    },
    NamedCycle {
        shape: "Fre Fre",
        name: "atomicity of swaps",
    },
    NamedCycle {
        shape: "Coe Fre",
        name: "atomicity of swaps",
    },
    NamedCycle {
        shape: "Rfi",
        name: "a swap that reads what it stores",
    },
];

/// What a cycle of this shape is called. OutOfMemory where an allocation was refused.
pub(crate) fn shape_text(alloc: Global, shape: &str) -> Result<String, AllocError>
    ensures { IfOk result (λ text. string_bytes text ≡ shape_text shape.now) }
{
    match name_of(shape) {
        Some(name) => String::from_str(alloc, name),
        None => format!(in alloc; "the cycle {shape}"),
    }
}

/// The name of a cycle of this shape.
fn name_of(shape: &str) -> Option<&'static str>
    ensures { option_map (λ name. name.now) result ≡ name_of shape.now cycle_names }
{
    name_among(shape, NAMED_CYCLES.as_slice())
}

/// The name of the first of these cycles that has this shape.
fn name_among(shape: &str, cycles: &[NamedCycle]) -> Option<&'static str>
    ensures { option_map (λ name. name.now) result ≡ name_of shape.now (map row_of cycles.now) }
{
    for cycle in cycles {
        if cycle.shape == shape {
            return Some(cycle.name);
        }
    }
    None
}
