ghost use Rattle.std.specs.Prelude.{◌≡◌, IfNone, IfSome, Decides};
ghost use Rattle.drawn_programs.specs.Making.{IsShape, shape_of};

use std::marker::Model;
use tso_ops::{MAX_ADDRESS, MAX_PROCESSORS};

/// The greatest number of operations of a program of a shape, over all processors.
const MAX_OPERATIONS: u64 = 1_000;

/// The shape of made programs: how many processors they have, how many operations each of these, and how many addresses
/// they use, from address 0 on.
///
/// 1 to 16 processors, 1 to 256 addresses, and at most 1,000 operations over all processors; a processor may have none.
#[derive(Clone, Copy, Debug, PartialEq, Eq)]
pub struct Shape {
    processors: u64,
    operations: u64,
    addresses: u64,
}

impl Model for Shape {
    ghost use Rattle.drawn_programs.specs.Making.{ShapeValue, IsShape, shape_of};

    ghost Value = { ShapeValue };

    ghost view = { λ s. shape_of s.processors s.operations s.addresses };

    ghost invariant = { λ s. IsShape (shape_of s.processors s.operations s.addresses) };

    ghost inverse = { λ v. record { processors = v.processors; operations = v.operations; addresses = v.addresses } };
}

impl Shape {
    /// The shape of so many processors, so many operations for each of them, and so many addresses; None exactly where one
    /// of its limits is broken.
    pub fn new(processors: u64, operations: u64, addresses: u64) -> Option<Shape>
        ensures refused { IfNone result (IsShape (shape_of processors operations addresses) → ⊥) }
        ensures made { IfSome result (λ s. s ≡ shape_of processors operations addresses) }
        ensures within { IfSome result (λ s. IsShape s) }
    {
        let size = processors.checked_mul(operations)?;
        if processors == 0 || processors > MAX_PROCESSORS as u64 {
            return None;
        }
        if addresses == 0 || addresses > u64::from(MAX_ADDRESS) + 1 {
            return None;
        }
        if size > MAX_OPERATIONS {
            return None;
        }
        Some(Shape {
            processors,
            operations,
            addresses,
        })
    }

    /// The number of processors, from 1 to 16.
    pub fn processors(&self) -> u64
        ensures is { result ≡ self.now.processors }
        ensures kept { IsShape self.now }
    {
        self.processors
    }

    /// The number of operations of each processor, from 0 to 1,000.
    pub fn operations(&self) -> u64
        ensures is { result ≡ self.now.operations }
        ensures kept { IsShape self.now }
    {
        self.operations
    }

    /// The number of addresses, from 1 to 256.
    pub fn addresses(&self) -> u64
        ensures is { result ≡ self.now.addresses }
        ensures kept { IsShape self.now }
    {
        self.addresses
    }

    /// Whether the other is an equal shape.
    pub fn is_same(&self, other: &Shape) -> bool
        ensures { Decides result (self.now ≡ other.now) }
    {
        self == other
    }
}
