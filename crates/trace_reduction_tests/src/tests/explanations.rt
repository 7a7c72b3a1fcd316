//! Explanations and pictures where a reader, a writer or an allocation fails, explanations with a log's names, and what the field calls edges. Whole texts of
//! others are in `program-cases/` and `examples/`.

mod decided_pictures;
mod decisions;
mod failing;
mod fields;
mod named;
