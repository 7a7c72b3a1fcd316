//! Which names the edges of a cycle have.

/// Which names the edges of a cycle have.
#[derive(Clone, Copy, Debug, PartialEq, Eq)]
pub(crate) enum EdgeNames {
    /// The numbers and rules of the steps that they are.
    Rules,
    /// Those of the field, as `po` and `rf`.
    Field,
}
