//! What batches and outcomes write, and readers and writers that fail.

mod batches;
