ghost use Rattle.std.specs.Prelude.{◌≡◌};

use crate::lists::NumList;
use crate::rules::{BaseRule, InferredRule};
use std::marker::Model;

/// Why an edge holds.
#[derive(Debug, Drop)]
pub enum Reason {
    /// By a base rule.
    Base(BaseRule),
    /// By an inferred rule, for the load of this number, with a path over earlier edges.
    Inferred {
        rule: InferredRule,
        load: u64,
        path: NumList,
    },
}

/// A step of a certificate: an edge between two event numbers, with 0 for `init`, and why it holds.
#[derive(Debug, Drop)]
pub struct CertStep {
    pub from: u64,
    pub to: u64,
    pub reason: Reason,
}

/// The steps of a certificate, in their order.
#[derive(Debug, Drop)]
pub struct StepList {
    steps: Vec<CertStep>,
}

impl Model for StepList {
    ghost use Rattle.std.specs.Prelude.{List};
    ghost use Rattle.tso_cert.specs.declared.steps.CertStep.{CertStep};

    ghost Value = { List CertStep };

    ghost view = { λ l. l.steps.items };
}

impl StepList {
    /// The list that the vector holds.
    pub fn new(steps: Vec<CertStep>) -> StepList
        ensures { result ≡ steps.items }
    {
        StepList { steps }
    }

    /// The steps, in their order.
    pub fn items(&self) -> &[CertStep]
        ensures { result.now ≡ self.now }
    {
        &self.steps
    }
}

/// Why a trace has no order that meets the axioms.
#[derive(Debug, Drop)]
pub enum Certificate {
    /// The load of this number read a value that nothing wrote.
    Unwritten(u64),
    /// Edges that every order has to keep, and a cycle of them.
    Cycle { steps: StepList, cycle: NumList },
}
