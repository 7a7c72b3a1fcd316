//! What options say of a run on a memory unit, and of drawn programs.
ghost use Rattle.std.specs.Prelude.{◌≡◌};
ghost use Rattle.command_line.specs.Given.{value_named};
ghost use Rattle.command_line.specs.Commands.{HasKnownNames};
ghost use Rattle.command_line.specs.Names.{formats, models, pictures, run_formats, units};
ghost use Rattle.command_line.specs.Requests.{prints_trace};

use request_options::{BatchFormat, CampaignPrinting, Execution, FaultKind, RunFormat};
use tso_ops::Order;

/// The greatest number of workers.
pub const MAX_REQUESTED_WORKERS: usize = 64;

/// The greatest capacity of a unit's store buffers, in entries.
pub const MAX_CAPACITY: usize = 64;

/// The greatest number of turns that a drainer takes beside the issuers of a run.
pub const MAX_DRAIN_TURNS: u64 = 1_000_000;

/// The greatest number of times that a program is run.
pub const MAX_RUN_TIMES: u64 = 1_000_000;

/// The greatest number of violations of a log that are shown.
pub const MAX_LOG_VIOLATIONS: usize = 1_000_000;

/// The greatest effort of the search in a log.
pub const MAX_LOG_EFFORT: usize = 1_000_000;

/// All of a hundred.
pub const MAX_PERCENT: usize = 100;

/// A kind of memory unit.
#[derive(Clone, Copy)]
pub enum UnitKind {
    /// `serial`: lawful, of TSO; each store is drained within its call.
    Serial,
    /// `buffer`: lawful, of TSO; each processor has a store buffer, where its stores wait until they are drained.
    Buffer,
    /// `partial`: lawful, of PSO; each processor has a store buffer, whose stores may leave for different addresses in
    /// another order than they entered.
    Partial,
    /// Not lawful: as `buffer`, with one deviation, after whose kind it is named, as `newest-first`.
    Faulty(FaultKind),
}

/// The names of the kinds, as `--unit` takes them; `kind_named` knows each.
static UNIT_NAMES: [&str; 9] = [
    "serial",
    "buffer",
    "partial",
    "newest-first",
    "no-forward",
    "stale-load",
    "torn-swap",
    "idle-membar",
    "lost-drain",
];

/// The kind of this name.
pub(crate) fn kind_named(name: &str) -> Option<UnitKind>
    ensures { result ≡ value_named name.now units }
{
    match name {
        "serial" => Some(UnitKind::Serial),
        "buffer" => Some(UnitKind::Buffer),
        "partial" => Some(UnitKind::Partial),
        "newest-first" => Some(UnitKind::Faulty(FaultKind::NewestFirst)),
        "no-forward" => Some(UnitKind::Faulty(FaultKind::NoForward)),
        "stale-load" => Some(UnitKind::Faulty(FaultKind::StaleLoad)),
        "torn-swap" => Some(UnitKind::Faulty(FaultKind::TornSwap)),
        "idle-membar" => Some(UnitKind::Faulty(FaultKind::IdleMembar)),
        "lost-drain" => Some(UnitKind::Faulty(FaultKind::LostDrain)),
        _ => None,
    }
}

/// The names of the memory models, as `--model` takes them; `order_named` knows each.
static MODEL_NAMES: [&str; 2] = ["tso", "pso"];

/// The memory model of this name.
pub(crate) fn order_named(name: &str) -> Option<Order>
    ensures { result ≡ value_named name.now models }
{
    match name {
        "tso" => Some(Order::Tso),
        "pso" => Some(Order::Pso),
        _ => None,
    }
}

/// The names that options take which take one of a list.
#[derive(Clone, Copy)]
pub(crate) struct OptionNames<'a> {
    /// Those of the kinds of units.
    pub(crate) units: &'a [&'a str],
    /// Those of the memory models.
    pub(crate) models: &'a [&'a str],
    /// Those of the formats of a batch.
    pub(crate) formats: &'a [&'a str],
    /// Those of the formats of what is told of a run.
    pub(crate) run_formats: &'a [&'a str],
    /// Those of the names that the edges of a picture have.
    pub(crate) edges: &'a [&'a str],
}

/// The names of all kinds of units, of all memory models, of all formats of batches and of runs, and of all names of edges.
pub(crate) fn option_names() -> OptionNames<'static>
    ensures { HasKnownNames result }
{
    OptionNames {
        units: UNIT_NAMES.as_slice(),
        models: MODEL_NAMES.as_slice(),
        formats: FORMAT_NAMES.as_slice(),
        run_formats: RUN_FORMAT_NAMES.as_slice(),
        edges: EDGES_NAMES.as_slice(),
    }
}

/// Which memory unit to make.
#[derive(Clone, Copy)]
pub struct UnitOptions {
    /// Its kind.
    pub kind: UnitKind,
    /// How many entries each store buffer holds, 1 to 64. Kinds without buffers ignore it.
    pub capacity: usize,
    /// From which occasion on a faulty unit deviates, from 1. Other kinds ignore it.
    pub trigger: u64,
}

/// In which form the verdict or the decision on a trace is presented.
#[derive(Clone, Copy)]
pub enum Presentation {
    /// The report, with the certificate of a violation; or the decision, with its evidence.
    Report,
    /// What was found, and why it is so in words.
    Explanation,
    /// A picture of the trace and of what was found, as a text for Graphviz.
    Picture,
    /// Such a picture of a verdict, with the names of the field at the edges of the cycle. No decision is asked for in this form.
    FieldPicture,
}

/// The names of the names that the edges of a picture have, as `--edges` takes them; `picture_named` knows each.
static EDGES_NAMES: [&str; 2] = ["rules", "field"];

/// The form of a picture whose edges have the names of this name.
pub(crate) fn picture_named(name: &str) -> Option<Presentation>
    ensures { result ≡ value_named name.now pictures }
{
    match name {
        "rules" => Some(Presentation::Picture),
        "field" => Some(Presentation::FieldPicture),
        _ => None,
    }
}

/// What is printed of a run or a replay.
#[derive(Clone, Copy)]
pub enum Printing {
    /// The report of the recorded trace, and the account of the unit's steps.
    Report,
    /// The recorded trace alone.
    Trace,
    /// The explanation of the verdict on the recorded trace alone.
    Explanation,
}

impl Printing {
    /// Whether it is the recorded trace.
    pub(crate) fn is_trace(self) -> bool
        ensures { result ≡ prints_trace self }
    {
        match self {
            Printing::Trace => true,
            Printing::Report | Printing::Explanation => false,
        }
    }
}

/// How a program is run, and what is printed of it.
#[derive(Clone, Copy)]
pub struct RunOptions {
    /// The unit on which it is run.
    pub unit: UnitOptions,
    /// The number of workers that judge the recorded trace, 1 to 64.
    pub workers: usize,
    /// What is printed.
    pub printing: Printing,
    /// Whether the recorded trace follows a report or an explanation.
    pub with_trace: bool,
}

/// The names of the formats, as `--format` takes them; `format_named` knows each.
static FORMAT_NAMES: [&str; 3] = ["words", "json", "junit"];

/// The format of this name.
pub(crate) fn format_named(name: &str) -> Option<BatchFormat>
    ensures { result ≡ value_named name.now formats }
{
    match name {
        "words" => Some(BatchFormat::Words),
        "json" => Some(BatchFormat::Json),
        "junit" => Some(BatchFormat::Junit),
        _ => None,
    }
}

/// The names of the formats of what is told of a run, as `--format` of `follow` takes them; `run_format_named` knows each.
static RUN_FORMAT_NAMES: [&str; 2] = ["words", "json"];

/// The format of this name, of what is told of a run.
pub(crate) fn run_format_named(name: &str) -> Option<RunFormat>
    ensures { result ≡ value_named name.now run_formats }
{
    match name {
        "words" => Some(RunFormat::Words),
        "json" => Some(RunFormat::Json),
        _ => None,
    }
}

/// The shape of a drawn program, as numbers that no limit was compared with.
#[derive(Clone, Copy)]
pub struct ShapeNumbers {
    /// The number of processors.
    pub processors: u64,
    /// The number of operations of each processor.
    pub operations: u64,
    /// The number of addresses.
    pub addresses: u64,
}

/// What is drawn from a seed, and which of it is printed.
#[derive(Clone, Copy)]
pub struct MakeOptions {
    /// The memory model of the program.
    pub order: Order,
    /// The seed.
    pub seed: u64,
    /// The shape of the program.
    pub shape: ShapeNumbers,
    /// Whether the schedule of the seed is printed in place of its program.
    pub schedule: bool,
}

/// Which programs a campaign draws, and how each is run.
#[derive(Clone, Copy)]
pub struct CampaignOptions {
    /// The unit on which each is run.
    pub unit: UnitOptions,
    /// The number of workers that share the seeds, 1 to 64.
    pub workers: usize,
    /// How each is executed.
    pub execution: Execution,
    /// What is printed.
    pub printing: CampaignPrinting,
    /// The memory model of each program.
    pub order: Order,
    /// The seed of the first program; each further program has the next seed.
    pub first: u64,
    /// The number of seeds.
    pub count: u64,
    /// The shape of each program.
    pub shape: ShapeNumbers,
}
