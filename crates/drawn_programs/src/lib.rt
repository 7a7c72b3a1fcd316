//! Programs drawn from the words of a generator, in a shape.
//!
//! `README.md` says what is proved.
#![tactic(auto)]

pub use making::{make_program, make_program_with_order};
pub use shapes::Shape;

mod making;
mod shapes;
