//! Streams of trace texts, one after the other, split into these texts.
//!
//! `TraceTextReader` gives the trace texts one after the other, `read_trace_text` the one of a number; `StreamSplitter` cuts what is read
//! elsewhere. `README.md` says what is proved.
#![tactic(auto)]

pub use nth_trace_texts::read_trace_text;
pub use stream_splitters::StreamSplitter;
pub use trace_text_readers::TraceTextReader;

pub mod laws;
mod nth_trace_texts;
mod stream_splitters;
mod trace_text_readers;

/// How many bytes of a stream one call of `read` asks for.
pub const CHUNK: usize = 262_144;
