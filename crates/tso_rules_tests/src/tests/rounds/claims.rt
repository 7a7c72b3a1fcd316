//! Rows that workers claim.
ghost use Rattle.std.specs.Prelude.{◌≡◌, ◌<◌, ◌≤◌, length, All, IfOk, IfSome};
ghost use Rattle.round_pool.specs.Claims.{IsOf};

use super::expect;
use round_pool::{Claimant, Claims};
use std::alloc::{AllocError, Global};
use std::process::Abort;
use std::sync::atomic::{AtomicU64, Ordering};
use std::test::Fail;
use std::thread;
use std::thread::Threads;
use tso_ops::OutOfMemory;

/// Claims of so many rows, 2, 4 and so on, and their claimants.
fn claims_of(
    alloc: Global,
    count: usize,
    seats: usize,
) -> Result<(Claims, Vec<Claimant>), OutOfMemory>
    requires count { count ≤ 1000 }
    requires some { 1 ≤ seats }
    requires most { seats ≤ 64 }
    ensures own { IfOk result (λ made. All (IsOf made.0) made.1.items) }
    ensures seats { IfOk result (λ made. length made.1.items ≡ seats) }
{
    let mut rows = Vec::new(alloc);
    for i in 0..count {
        rows.push(2 * i + 2)?;
    }
    Claims::new(alloc, rows, seats)
}

/// What the claimant at this place claims.
fn claim_at(claims: &Claims, claimants: &mut [Claimant], k: usize) -> Option<usize>
    requires own { All (IsOf claims.now) claimants.old }
    requires there { k < length claimants.old }
    ensures own { All (IsOf claims.now) claimants.new }
    ensures count { length claimants.new ≡ length claimants.old }
{
    claims.claim(&mut claimants[k])
}

#[test]
fn claims_by_turns(rt: HostRuntime) -> Result<(), Fail> {
    let (claims, mut claimants) = claims_of(rt.alloc(), 2, 2)?;
    let turns = claimants.as_mut_slice();
    let found = [
        claim_at(&claims, turns, 0),
        claim_at(&claims, turns, 1),
        claim_at(&claims, turns, 0),
        claim_at(&claims, turns, 1),
        claim_at(&claims, turns, 0),
    ];
    expect(&rt, "rows", found, [Some(2), Some(4), None, None, None]);
    Ok(())
}

/// Takes the last claimant.
fn popped(claims: &Claims, claimants: &mut Vec<Claimant>) -> Option<Claimant>
    requires own { All (IsOf claims.now) claimants.old.items }
    ensures rest { All (IsOf claims.now) claimants.new.items }
    ensures own { IfSome result (IsOf claims.now) }
{
    claimants.pop()
}

/// What the last two claimants, joined, claim.
fn joined_claim(claims: &Claims, claimants: &mut Vec<Claimant>) -> Option<usize>
    requires own { All (IsOf claims.now) claimants.old.items }
{
    let from = popped(claims, claimants)?;
    let mut into = popped(claims, claimants)?;
    claims.join(&mut into, from);
    claims.claim(&mut into)
}

#[test]
fn a_joined_claimant_goes_on(rt: HostRuntime) -> Result<(), Fail> {
    let (claims, mut claimants) = claims_of(rt.alloc(), 3, 2)?;
    let turns = claimants.as_mut_slice();
    let found = [claim_at(&claims, turns, 0), claim_at(&claims, turns, 1)];
    expect(&rt, "rows", found, [Some(2), Some(4)]);
    let row = joined_claim(&claims, &mut claimants);
    expect(&rt, "row after the join", row, Some(6));
    Ok(())
}

#[test]
fn no_rows(rt: HostRuntime) -> Result<(), Fail> {
    let (claims, mut claimants) = claims_of(rt.alloc(), 0, 1)?;
    let turns = claimants.as_mut_slice();
    let found = [claim_at(&claims, turns, 0), claim_at(&claims, turns, 0)];
    expect(&rt, "rows", found, [None, None]);
    Ok(())
}

/// Fails unless the claimants claim the rows 2, 4 and so on in turn.
fn expect_rows_in_turn(rt: &impl Abort, claims: &Claims, claimants: &mut [Claimant])
    requires own { All (IsOf claims.now) claimants.old }
    requires few { length claimants.old ≤ 64 }
    ensures own { All (IsOf claims.now) claimants.new }
    ensures count { length claimants.new ≡ length claimants.old }
{
    for k in 0..claimants.len() {
        expect(rt, "row", claim_at(claims, claimants, k), Some(2 * k + 2));
    }
}

#[test]
fn sixty_four_claimants(rt: HostRuntime) -> Result<(), Fail> {
    let (claims, mut claimants) = claims_of(rt.alloc(), 64, 64)?;
    let turns = claimants.as_mut_slice();
    expect_rows_in_turn(&rt, &claims, turns);
    expect(&rt, "row", claim_at(&claims, turns, 5), None);
    Ok(())
}

/// How many rows the threads share.
const ROWS: usize = 1000;

/// Claims rows until none is left, counts each of them in `seen` and says how many they were.
fn claim_all(claims: &Claims, mut claimant: Claimant, seen: &[AtomicU64]) -> usize
    requires own { IsOf claims.now claimant }
{
    for claimed in 0..ROWS {
        let Some(row) = claims.claim(&mut claimant) else {
            return claimed;
        };
        if let Some(count) = seen.get(row / 2) {
            count.fetch_add(1, Ordering::SeqCst);
        }
    }
    ROWS
}

/// How many rows each of the claimants claims, each in a thread.
fn claimed_by_threads<R: Threads + Sync>(
    rt: &R,
    claims: &Claims,
    claimants: Vec<Claimant>,
    seen: &[AtomicU64],
) -> Result<Vec<usize>, AllocError>
    requires own { All (IsOf claims.now) claimants.items }
{
    thread::map_vec(
        rt,
        claimants,
        &|claimant: Claimant| -> usize
            requires { IsOf claims.now claimant }
        { claim_all(claims, claimant, seen) },
    )
}

fn zeros(alloc: Global, count: usize) -> Result<Vec<AtomicU64>, AllocError> {
    let mut counts = Vec::new(alloc);
    for _ in 0..count {
        counts.push(AtomicU64::new(0))?;
    }
    Ok(counts)
}

#[test]
fn threads_claim_each_row_once(rt: HostRuntime) -> Result<(), Fail> {
    let alloc = rt.alloc();
    for seats in [1, 3, 8] {
        let (claims, claimants) = claims_of(alloc, ROWS, seats)?;
        let seen = zeros(alloc, ROWS + 1)?;
        let counts = claimed_by_threads(&rt, &claims, claimants, &seen)?;
        let claimed = counts
            .iter()
            .fold(0usize, |sum, count| sum.wrapping_add(*count));
        expect(&rt, "rows claimed", claimed, ROWS);
        for count in seen.iter().skip(1) {
            expect(&rt, "claims of a row", count.load(Ordering::SeqCst), 1);
        }
    }
    Ok(())
}

/// The Nth allocation is refused where the tests run so, and then the next call is answered.
#[test]
fn refused_allocations_of_claims(rt: HostRuntime) -> Result<(), Fail> {
    let alloc = rt.alloc();
    let (claims, mut claimants) = match claims_of(alloc, 2, 2) {
        Err(OutOfMemory) => claims_of(alloc, 2, 2)?,
        Ok(made) => made,
    };
    let turns = claimants.as_mut_slice();
    let found = [claim_at(&claims, turns, 0), claim_at(&claims, turns, 1)];
    expect(&rt, "rows", found, [Some(2), Some(4)]);
    Ok(())
}
