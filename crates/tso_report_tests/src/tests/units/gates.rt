//! When the issuers of a run call its gate, and gates at which they wait for each other.

use super::desk_runs::{run_past, threads_at};
use issue_desk::{Gate, RunFault};
use std::alloc::{AllocError, Global};
use std::sync::atomic::{AtomicUsize, Ordering};
use std::sync::{Arc, Wait};
use std::test::Fail;
use std::thread::{Threads, yield_now};
use traces_for_tests::expect_equal;
use tso_ops::{Op, ValueFault};
use units_for_tests::{CallCounts, new_counts};

/// A gate of one processor, whose calls have to come before each of its loads.
#[derive(Drop)]
struct CheckingGate {
    counts: Arc<CallCounts, Global>,
    calls: AtomicUsize,
    wrong: AtomicUsize,
}

impl Gate for CheckingGate {
    fn before(&self, p: usize, done: usize) {
        let calls = self.calls.fetch_add(1, Ordering::SeqCst);
        let loads = self.counts.loads.load(Ordering::SeqCst);
        if p != 0 || done != calls || loads != calls as u64 {
            self.wrong.fetch_add(1, Ordering::SeqCst);
        }
    }
}

const LOAD: Op = Op::Ld { a: 1 };

/// Whether three loads give a lawful record, how often they call the gate, and how many of these calls were wrong ones.
fn gate_calls<H: Threads + Wait + Sync>(
    rt: &H,
    alloc: Global,
) -> Result<(Result<bool, RunFault>, usize, usize), ValueFault> {
    let counts = new_counts(alloc)?;
    let gate = CheckingGate {
        counts: Arc::try_clone(&counts)?,
        calls: AtomicUsize::new(0),
        wrong: AtomicUsize::new(0),
    };
    let threads = threads_at(&gate, 1, 0);
    let ended = run_past(rt, alloc, &[&[LOAD; 3]], threads, &counts)?;
    let calls = gate.calls.load(Ordering::SeqCst);
    Ok((ended.answer, calls, gate.wrong.load(Ordering::SeqCst)))
}

/// The call with three answers comes before the issue that finds nothing left.
#[test]
fn gate_is_called_before_each_operation(rt: HostRuntime) -> Result<(), Fail> {
    let found = gate_calls(&rt, rt.alloc())?;
    expect_equal("calls of the gate", found, (Ok(true), 4, 0))
}

/// How often an issuer looks for the others.
const TURNS: u64 = 4_000_000;

/// A gate at which the calls with `at` answers wait for one another.
#[derive(Drop)]
pub(super) struct MeetingGate {
    at: usize,
    /// How often the call of each processor came.
    came: Vec<AtomicUsize>,
    gave_up: AtomicUsize,
}

impl Gate for MeetingGate {
    fn before(&self, p: usize, done: usize) {
        if done == self.at {
            if let Some(own) = self.came.get(p) {
                own.fetch_add(1, Ordering::SeqCst);
            }
            self.wait_for_all();
        }
    }
}

impl MeetingGate {
    /// A gate for so many processors.
    pub(super) fn new(
        alloc: Global,
        processors: usize,
        at: usize,
    ) -> Result<MeetingGate, AllocError> {
        let mut came = Vec::new(alloc);
        for _ in 0..processors {
            came.push(AtomicUsize::new(0))?;
        }
        Ok(MeetingGate {
            at,
            came,
            gave_up: AtomicUsize::new(0),
        })
    }

    /// Whether the call of each processor came.
    fn have_come(&self) -> bool {
        self.came.iter().all(|one| one.load(Ordering::SeqCst) > 0)
    }

    /// Whether a call gave up.
    fn has_given_up(&self) -> bool {
        self.gave_up.load(Ordering::SeqCst) > 0
    }

    fn wait_for_all(&self) {
        for _ in 0..TURNS {
            if self.have_come() || self.has_given_up() {
                return;
            }
            yield_now();
        }
        self.gave_up.fetch_add(1, Ordering::SeqCst);
    }

    /// Whether all calls came, and none gave up.
    pub(super) fn have_met(&self) -> bool {
        self.have_come() && !self.has_given_up()
    }
}

/// Whether issuers of these operations meet at their calls with `at` answers, and give a lawful record.
fn meet<H: Threads + Wait + Sync>(
    rt: &H,
    alloc: Global,
    ops: &[&[Op]],
    at: usize,
) -> Result<bool, ValueFault> {
    let gate = MeetingGate::new(alloc, ops.len(), at)?;
    let threads = threads_at(&gate, 1, 0);
    let ended = run_past(rt, alloc, ops, threads, &new_counts(alloc)?)?;
    Ok(ended.answer == Ok(true) && gate.have_met())
}

/// Two loads of each of two processors, and a load of each of sixteen; the last calls come before the issues that find
/// nothing left.
const MEETINGS: [(&[&[Op]], usize); 5] = [
    (&[&[LOAD; 2], &[LOAD; 2]], 0),
    (&[&[LOAD; 2], &[LOAD; 2]], 1),
    (&[&[LOAD; 2], &[LOAD; 2]], 2),
    (&SIXTEEN_ISSUERS, 0),
    (&SIXTEEN_ISSUERS, 1),
];

const SIXTEEN_ISSUERS: [&[Op]; 16] = [&[LOAD]; 16];

#[test]
fn issuers_meet_at_each_operation(rt: HostRuntime) -> Result<(), Fail> {
    for (ops, at) in MEETINGS {
        let have_met = meet(&rt, rt.alloc(), ops, at)?;
        expect_equal((ops.len(), at), have_met, true)?;
    }
    Ok(())
}
