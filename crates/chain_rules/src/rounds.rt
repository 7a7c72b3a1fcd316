//! How many rounds a trace takes.
ghost use Rattle.std.specs.Prelude.{◌≡◌, ◌↔◌, ◌<◌, ℕ, true, false, [], IsTrue, IfOk, length, get_or, Contains};
ghost use Rattle.order_paths.specs.Paths.{HasCycle};
ghost use Rattle.tso_ops.specs.Events.{IsUnwritten};
ghost use Rattle.tso_ops.specs.Values.{TraceValue, rows};
ghost use Rattle.tso_model.specs.Ranks.{RankSet, IsRounds};
ghost use Rattle.chain_reach.specs.Leading.{Leads};
ghost use Rattle.chain_rules.specs.Chains.{AreChainsOf};
ghost use Rattle.chain_rules.specs.Rounds.{IsInRowOf, IsRowList, AreRowsWithin, AreLeastRows, ClosesCycle, FollowsRound};
ghost use Rattle.chain_rules.specs.Internal.RoundEnds.{IsRoundEnd};
ghost use Rattle.chain_rules.specs.Rows.{IsRankReach};
ghost use Rattle.chain_rules.specs.Tables.{AreTablesOf};

use crate::base::base_reach;
use crate::chains::chains_of;
use crate::joining::{closes_cycle, join_rows};
use crate::rows::{RowTables, least_row};
use crate::types::RuleTables;
use crate::worksets::{all_rows, changed_rows};
use chain_reach::Reach;
use std::alloc::Global;
use tso_ops::{OutOfMemory, Trace};

/// How many rounds a trace takes, and whether its last rank set has a cycle.
#[derive(Clone, Copy, Debug, PartialEq, Eq)]
pub struct RoundCount {
    /// The number of rounds.
    pub rounds: u64,
    /// How many rows of new edges were computed, over all rounds.
    pub rows: u64,
    /// Whether the rank set after them has a cycle.
    pub is_cyclic: bool,
}

/// How a round ended.
#[derive(Clone, Copy, Debug, PartialEq, Eq)]
enum RoundEnd {
    /// It had nothing to add.
    Nothing,
    /// It closed a cycle.
    Cycle,
    /// It added edges, and there is no cycle yet.
    Open,
}

/// Makes the rounds over a trace in which no load is unwritten, in the caller's thread, and counts them. OutOfMemory where an
/// allocation was refused.
///
/// Each round adds the edges that an inferred rule gives by a path over the edges before it, and that have no path yet. The
/// rounds end with the first rank set that has a cycle, or to which the next round would add nothing. They end: a round that
/// adds edges makes a path between two numbers that had none.
pub fn count_rounds(alloc: Global, trace: &Trace) -> Result<RoundCount, OutOfMemory>
    requires written { (l : ℕ) → IsUnwritten trace.now l → ⊥ }
    ensures rounds { IfOk result (λ count. IsRounds trace.now count.rounds) }
    ensures cycle { IfOk result (λ count. IsTrue count.is_cyclic ↔ HasCycle (RankSet trace.now count.rounds)) }
{
    // The call is for the proof: its contract says that the trace keeps its limits.
    let _events = trace.events();
    let chains = chains_of(alloc, trace)?;
    let tables = RuleTables::new(alloc, trace, &chains)?;
    let mut reach = base_reach(alloc, trace, chains, &tables)?;
    let mut count = RoundCount {
        rounds: 0,
        rows: 0,
        is_cyclic: reach.has_cycle(),
    };
    if count.is_cyclic {
        return Ok(count);
    }
    let mut numbers = all_rows(alloc, trace)?;
    loop {
        count.rows = count.rows.saturating_add(numbers.len() as u64);
        match make_round(alloc, trace, &tables, &mut reach, &numbers)? {
            RoundEnd::Nothing => return Ok(count),
            RoundEnd::Cycle => {
                return Ok(RoundCount {
                    rounds: count.rounds + 1,
                    is_cyclic: true,
                    ..count
                });
            }
            RoundEnd::Open => count.rounds += 1,
        }
        numbers = changed_rows(alloc, trace, &reach)?;
    }
}

/// Makes a round: joins the least rows of these numbers, among which are all with new edges. OutOfMemory where an allocation
/// was refused.
fn make_round(
    alloc: Global,
    trace: &Trace,
    tables: &RuleTables,
    reach: &mut Reach,
    numbers: &[usize],
) -> Result<RoundEnd, OutOfMemory>
    requires chains { AreChainsOf trace.now reach.old.chains }
    requires tables { AreTablesOf trace.now reach.old.chains tables.now }
    requires acyclic { (x : ℕ) → Leads reach.old x x → ⊥ }
    requires numbers { IsRowList trace.now reach.old numbers.now }
    ensures { IfOk result (IsRoundEnd trace.now reach.old reach.new) }
{
    let input = RowTables {
        trace,
        tables,
        reach: &*reach,
    };
    let made = least_rows(alloc, input, numbers)?;
    if are_empty(&made) {
        return Ok(RoundEnd::Nothing);
    }
    add_round(reach, numbers, &made);
    if closes_cycle(reach, numbers, &made) {
        return Ok(RoundEnd::Cycle);
    }
    Ok(RoundEnd::Open)
}

/// The least rows of these numbers, in their order. OutOfMemory where an allocation was refused.
pub fn least_rows(
    alloc: Global,
    input: RowTables<'_>,
    numbers: &[usize],
) -> Result<Vec<Vec<u16>>, OutOfMemory>
    requires chains { AreChainsOf input.trace.now input.reach.now.chains }
    requires tables { AreTablesOf input.trace.now input.reach.now.chains input.tables.now }
    requires acyclic { (x : ℕ) → Leads input.reach.now x x → ⊥ }
    requires numbers { IsRowList input.trace.now input.reach.now numbers.now }
    ensures within { IfOk result (λ made. AreRowsWithin input.entry.reach.now numbers.now (rows made.items)) }
    ensures least { IfOk result (λ made. AreLeastRows input.entry.trace.now input.entry.reach.now numbers.now (rows made.items)) }
{
    let mut made = Vec::with_capacity(alloc, numbers.len())?;
    for number in numbers {
        made.push(least_row(alloc, input, *number)?)?;
    }
    Ok(made)
}

/// Whether each of these rows is empty.
fn are_empty(made: &[Vec<u16>]) -> bool
    ensures none { result ≡ true → (i v : ℕ) → Contains (get_or (rows made.now) i []) v → ⊥ }
    ensures some { result ≡ false → (i : ℕ) × (v : ℕ) × (i < length made.now) × Contains (get_or (rows made.now) i []) v }
{
    for row in made {
        if !row.is_empty() {
            return false;
        }
    }
    true
}

/// Joins the rows of a round; what leads to more by them has grown then, and nothing else.
fn add_round(reach: &mut Reach, numbers: &[usize], made: &[Vec<u16>])
    requires { AreRowsWithin reach.old numbers.now (rows made.now) }
    ensures chains { reach.new.chains ≡ reach.old.chains }
    ensures joined { (u v : ℕ) → IsInRowOf numbers.now (rows made.now) u v → Leads reach.new u v }
    ensures kept { (x y : ℕ) → Leads reach.old x y → Leads reach.new x y }
    ensures closes { ((x : ℕ) → Leads reach.old x x → ⊥) → (x : ℕ) → Leads reach.new x x → ClosesCycle reach.new numbers.now (rows made.now) }
    ensures transitive { (x y z : ℕ) → Leads reach.new x y → Leads reach.new y z → Leads reach.new x z }
    ensures follows { (t : TraceValue) (k : ℕ) → IsRankReach t k reach.old → AreLeastRows t reach.old numbers.now (rows made.now) →
        FollowsRound t k reach.old reach.new }
{
    reach.settle();
    join_rows(reach, numbers, made);
    // For the proof: what leads to what is transitive.
    let _chains = reach.chains();
}
