//! The issuers of a run, each in a thread of its own.
ghost use Rattle.std.specs.Prelude.{◌≡◌, ◌+◌, ◌-◌, ◌≤◌, ◌<◌, ℕ, IfOk};
ghost use Rattle.issue_desk.specs.Internal.Passes.{ArePassesFrom};

use crate::faults::RunFault;
use crate::gates::Gate;
use crate::passes::Pass;
use crate::run_desks::{RunDesign, RunDesk};
use rand_core::{Rng, SeedableRng};
use rand_pcg::Pcg64;
use std::alloc::Global;
use std::sync::{Mutex, Wait};
use std::thread::{Promise, PromisedHandle, Scope, Threads};
use tso_ops::OutOfMemory;
use unit_core::MemoryUnit;

/// How the issuers of a run go on: the gate that each passes before an operation, and the seed of the drains after it.
#[derive(Drop)]
pub struct Issuers<'a, G> {
    pub gate: &'a G,
    pub drain_seed: u64,
}

/// What the issuers of a run share; desk and gate are references.
#[derive(Clone, Copy)]
pub(crate) struct Shared<LockedDesk, OneGate> {
    pub(crate) desk: LockedDesk,
    pub(crate) gate: OneGate,
    pub(crate) drain_seed: u64,
    pub(crate) processors: usize,
}

/// The processor whose pass an issuer gives back.
#[derive(Clone, Copy)]
struct PassOf {
    processor: usize,
}

impl Promise<Result<Pass, OutOfMemory>> for PassOf {
    ghost use Rattle.std.specs.Prelude.{IfOk};

    ghost kept_by = { λ issuer r. IfOk r (λ pass. pass.processor ≡ issuer.processor) };
}

/// Drains processor `p` up to `count` times, each under a lock of its own taking, and stops where nothing waits.
fn drain_up_to<D: RunDesign + Send, U: MemoryUnit + Send, R: Wait>(
    rt: &R,
    desk: &Mutex<RunDesk<D, U>>,
    p: usize,
    count: u64,
) -> Result<(), OutOfMemory>
    requires { p < 16 }
{
    for _ in 0..count {
        if !desk.lock(rt).drain(p)? {
            break;
        }
    }
    Ok(())
}

/// Issues the operations of processor `p`, one after the other, with drains after each: their number is a word of the
/// processor's own generator, modulo 3. The processor's pass, or OutOfMemory where the unit answered it or an allocation
/// was refused.
fn issue_all<D: RunDesign + Send, U: MemoryUnit + Send, R: Wait, G: Gate>(
    rt: &R,
    alloc: Global,
    shared: Shared<&Mutex<RunDesk<D, U>>, &G>,
    p: usize,
) -> Result<Pass, OutOfMemory>
    requires { p < 16 }
    ensures { IfOk result (λ pass. pass.processor ≡ p) }
{
    let mut pass = Pass::new(alloc, p);
    let mut words = Pcg64::seed_from_u64(shared.drain_seed.wrapping_add(p as u64));
    for done in 0..usize::MAX {
        shared.gate.before(p, done);
        if !shared.desk.lock(rt).issue(&mut pass)? {
            break;
        }
        drain_up_to(rt, shared.desk, p, words.next_u64() % 3)?;
    }
    Ok(pass)
}

/// Starts the issuer of processor `p`. NoThread where the system refused the thread.
fn start_issuer<'s, E, D: RunDesign + Send, U: MemoryUnit + Send, R: Wait + Sync, G: Gate + Sync>(
    scope: &'s Scope<'s, E>,
    rt: &'s R,
    alloc: Global,
    shared: Shared<&'s Mutex<RunDesk<D, U>>, &'s G>,
    p: usize,
) -> Result<PromisedHandle<Result<Pass, OutOfMemory>, PassOf>, RunFault>
    requires { p < 16 }
    ensures { IfOk result (λ child. child.promise ≡ record { processor = p }) }
{
    let job = move || -> Result<Pass, OutOfMemory>
        requires { p < 16 }
        ensures { IfOk result (λ pass. pass.processor ≡ p) }
    { issue_all(rt, alloc, shared, p) };
    match scope.spawn_with(PassOf { processor: p }, job) {
        Ok(child) => Ok(child),
        Err(_) => Err(RunFault::NoThread),
    }
}

/// The passes of an issuer and of those after it in one list, or the one fault that is reported of both: OutOfMemory of the
/// first, else the fault of the others.
fn joined_passes(
    alloc: Global,
    own: Result<Pass, OutOfMemory>,
    rest: Result<Vec<Pass>, RunFault>,
) -> Result<Vec<Pass>, RunFault>
    ensures { (p count : ℕ) → IfOk own (λ pass. pass.processor ≡ p) → IfOk rest (λ passes. ArePassesFrom (p + 1) count passes.items) →
        IfOk result (λ passes. ArePassesFrom p (count + 1) passes.items) }
{
    let mut passes = vec![in alloc; own?]?;
    passes.append(&mut rest?)?;
    Ok(passes)
}

/// The passes of the processors from `p` on, each given back by an issuer in a thread of the scope. All threads that were
/// started are joined.
pub(crate) fn passes_from<
    's,
    E,
    D: RunDesign + Send,
    U: MemoryUnit + Send,
    R: Threads + Wait + Sync,
    G: Gate + Sync,
>(
    scope: &'s Scope<'s, E>,
    rt: &'s R,
    alloc: Global,
    shared: Shared<&'s Mutex<RunDesk<D, U>>, &'s G>,
    p: usize,
) -> Result<Vec<Pass>, RunFault>
    requires most { shared.processors ≤ 16 }
    requires within { p ≤ shared.processors }
    ensures { IfOk result (λ passes. ArePassesFrom p (shared.entry.processors - p) passes.items) }
{
    if p == shared.processors {
        return Ok(Vec::new(alloc));
    }
    let child = start_issuer(scope, rt, alloc, shared, p)?;
    let rest = passes_from(scope, rt, alloc, shared, p + 1);
    joined_passes(alloc, child.join(rt), rest)
}
