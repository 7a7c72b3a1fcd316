//! What a round adds by chains.
ghost use Rattle.std.specs.Prelude.{◌↔◌, ◌<◌, ℕ, suc, IsTrue, Contains};
ghost use Rattle.tso_ops.specs.Values.{TraceValue, rows};
ghost use Rattle.chain_reach.specs.Groups.{node_count};
ghost use Rattle.chain_reach.specs.Leading.{Leads};
ghost use Rattle.chain_rules.specs.Rows.{IsRankReach};
ghost use Rattle.chain_rules.specs.Rounds.{AreRowsWithin, AreLeastRows, ClosesCycle, JoinsListed};
ghost use Rattle.chain_rules.specs.Internal.Joined.{JoinsRow};

use chain_reach::Reach;

/// Lets each of these numbers lead to the numbers of its row. Where they lead to each other by the paths of a rank set, and the
/// rows are the least ones of all numbers with new edges, they do so by the paths of the next rank set then; what leads to more
/// has grown.
pub fn join_rows(reach: &mut Reach, numbers: &[usize], made: &[Vec<u16>])
    requires { AreRowsWithin reach.old numbers.now (rows made.now) }
    ensures joined { JoinsListed reach.old reach.new numbers.now (rows made.now) }
    ensures next { (t : TraceValue) (k : ℕ) → IsRankReach t k reach.old → AreLeastRows t reach.old numbers.now (rows made.now) →
        IsRankReach t (suc k) reach.new }
{
    for (i, row) in made.iter().enumerate() {
        join_row(reach, numbers[i], row);
    }
    // The call is for the proof: what leads to what is transitive, and each number leads to those after it in its chain.
    let _chains = reach.chains();
}

/// Lets number `u` lead to these numbers.
fn join_row(reach: &mut Reach, u: usize, row: &[u16])
    requires from { u < node_count reach.old.chains }
    requires to { (v : ℕ) → Contains row.now v → v < node_count reach.old.chains }
    ensures { JoinsRow reach.old reach.new u row.now }
{
    for v in row {
        // For the proof: what leads to what is transitive.
        let _chains = reach.chains();
        reach.join(u, *v as usize);
    }
}

/// Whether one of the numbers has a number in its row that leads to it.
///
/// Where the rows were joined, and nothing led to itself before, that says whether something does now.
pub fn closes_cycle(reach: &Reach, numbers: &[usize], made: &[Vec<u16>]) -> bool
    requires { AreRowsWithin reach.now numbers.now (rows made.now) }
    ensures closes { IsTrue result ↔ ClosesCycle reach.now numbers.now (rows made.now) }
{
    for (i, row) in made.iter().enumerate() {
        if one_leads_to(reach, row, numbers[i]) {
            return true;
        }
    }
    false
}

/// Whether one of these numbers leads to `u`.
fn one_leads_to(reach: &Reach, row: &[u16], u: usize) -> bool
    requires to { u < node_count reach.now.chains }
    requires from { (v : ℕ) → Contains row.now v → v < node_count reach.now.chains }
    ensures { IsTrue result ↔ ((v : ℕ) × Contains row.now v × Leads reach.now v u) }
{
    for v in row {
        if reach.leads(*v as usize, u) {
            return true;
        }
    }
    false
}
