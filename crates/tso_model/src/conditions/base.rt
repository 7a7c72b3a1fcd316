//! The conditions of the base rules.
ghost use Rattle.std.specs.Prelude.{◌↔◌, IsTrue, MatchOption};
ghost use Rattle.tso_model.specs.Rules.{BasePair};
ghost use Rattle.tso_model.specs.Certs.{IsFirstBase};

use super::own::is_own_pair;
use tso_cert::BaseRule;
use tso_ops::Trace;

/// Whether the rule gives the edge from `u` to `v`.
pub fn is_base_pair(trace: &Trace, rule: BaseRule, u: usize, v: usize) -> bool
    ensures { IsTrue result ↔ BasePair trace.now rule u v }
{
    match rule {
        BaseRule::Init => is_init_pair(trace, u, v),
        BaseRule::LoadOp => is_load_op_pair(trace, u, v),
        BaseRule::StoreStore => is_store_store_pair(trace, u, v),
        BaseRule::Stbar => is_stbar_pair(trace, u, v),
        BaseRule::Membar => is_membar_pair(trace, u, v),
        BaseRule::Read => is_read_pair(trace, u, v),
        BaseRule::Own => is_own_pair(trace, u, v),
    }
}

/// The first base rule that gives the edge from `u` to `v`, or None where no rule does.
pub fn first_base_rule(trace: &Trace, u: usize, v: usize) -> Option<BaseRule>
    ensures { MatchOption result ((rule : BaseRule) → BasePair trace.now rule u v → ⊥) (IsFirstBase trace.now u v) }
{
    for k in 0..BaseRule::ALL.len() {
        let rule = BaseRule::ALL[k];
        if is_base_pair(trace, rule, u, v) {
            return Some(rule);
        }
    }
    None
}

/// Whether `u` is `init` and `v` an event.
fn is_init_pair(trace: &Trace, u: usize, v: usize) -> bool
    ensures { IsTrue result ↔ BasePair trace.now BaseRule.Init u v }
{
    u == 0 && trace.is_event(v)
}

/// Whether `u` is a load and `v` program-later.
fn is_load_op_pair(trace: &Trace, u: usize, v: usize) -> bool
    ensures { IsTrue result ↔ BasePair trace.now BaseRule.LoadOp u v }
{
    trace.is_load(u) && trace.is_earlier(u, v)
}

/// Whether `u` is a store and `v` a program-later store, in the order that the memory model keeps without an STBAR.
fn is_store_store_pair(trace: &Trace, u: usize, v: usize) -> bool
    ensures { IsTrue result ↔ BasePair trace.now BaseRule.StoreStore u v }
{
    trace.is_store(u) && trace.is_store(v) && trace.is_earlier(u, v) && trace.keeps_stores(u, v)
}

/// Whether `u` is a store and `v` a program-later store after an STBAR.
fn is_stbar_pair(trace: &Trace, u: usize, v: usize) -> bool
    ensures { IsTrue result ↔ BasePair trace.now BaseRule.Stbar u v }
{
    trace.is_store(u)
        && trace.is_store(v)
        && trace.is_earlier(u, v)
        && trace.has_stbar_between(u, v)
}

/// Whether `u` is a store and `v` a program-later load after a barrier.
fn is_membar_pair(trace: &Trace, u: usize, v: usize) -> bool
    ensures { IsTrue result ↔ BasePair trace.now BaseRule.Membar u v }
{
    trace.is_store(u)
        && trace.is_load(v)
        && trace.is_earlier(u, v)
        && trace.has_barrier_between(u, v)
}

/// Whether load `v` read what store `u` wrote, which isn't program-earlier.
fn is_read_pair(trace: &Trace, u: usize, v: usize) -> bool
    ensures { IsTrue result ↔ BasePair trace.now BaseRule.Read u v }
{
    trace.is_store(u) && trace.has_source(v, u) && !trace.is_earlier(u, v)
}
