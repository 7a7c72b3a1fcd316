//! What the definition of trace texts says, proved of all streams.
ghost use Rattle.std.specs.Prelude.{◌≡◌, ◌↔◌, ℕ, List, map};
ghost use Rattle.std.specs.List.{concat, flat_map};
ghost use Rattle.trace_streams.specs.TraceTexts.{AreTraceTexts};
ghost use Rattle.tso_ops.specs.Values.{TraceValue};
ghost use Rattle.tso_text.specs.Printed.{trace_text};

/// Each stream has one list of trace texts, which joined are the stream.
pub fn trace_texts()
    ensures exists { (stream : List ℕ) → (pieces : List (List ℕ)) × AreTraceTexts stream pieces }
    ensures one { (stream : List ℕ) (pieces others : List (List ℕ)) → AreTraceTexts stream pieces → AreTraceTexts stream others → pieces ≡ others }
    ensures joined { (stream : List ℕ) (pieces : List (List ℕ)) → AreTraceTexts stream pieces → stream ≡ concat pieces }
{}

/// The texts of traces, printed one after another as `log --trace` prints them, are the trace texts of that stream.
pub fn printed_traces()
    ensures { (traces : List TraceValue) (pieces : List (List ℕ)) → AreTraceTexts (flat_map trace_text traces) pieces ↔ (pieces ≡ map trace_text traces) }
{}
