//! What a person is told whose request was refused: what the text looks like, and what reads such texts; or within which
//! limits numbers are taken.

use line_text::{next_line, next_token};
use run_lines::{Widths, line_read};

/// Told where a shape was refused.
pub const SHAPE_LIMITS: &str =
    "a program has 1 to 16 processors, 1 to 256 addresses and at most 1000 operations over all processors";

/// Told where seeds were refused.
pub const SEEDS_LIMITS: &str =
    "a campaign has at most 1000 seeds, the last of them at most 18446744073709551615";

/// What a text looks like by its first line.
#[derive(Clone, Copy)]
pub(crate) enum Likeness {
    /// It has no byte.
    Empty,
    /// Its first line ends with a carriage return before its line end.
    CarriageReturn,
    /// The text of a trace.
    Trace,
    /// The text of a program.
    Program,
    /// A log.
    Log,
    /// None of these.
    Other,
}

impl Likeness {
    /// What a text looks like that begins with these bytes.
    pub(crate) fn of(bytes: &[u8]) -> Likeness {
        if bytes.is_empty() {
            return Likeness::Empty;
        }
        match next_line(bytes) {
            Some((line, _)) if line.last() == Some(&b'\r') => Likeness::CarriageReturn,
            Some((line, _)) => Likeness::of_line(line),
            None => Likeness::Other,
        }
    }

    /// By the first line, without its line end.
    fn of_line(line: &[u8]) -> Likeness {
        if line_read(Widths::Unseen, line).is_ok() {
            return Likeness::Log;
        }
        let (_, rest) = next_token(line);
        let Some(rest) = rest else {
            return Likeness::Other;
        };
        let (second, _) = next_token(rest);
        if second == b"trace".as_slice() {
            Likeness::Trace
        } else if second == b"program".as_slice() {
            Likeness::Program
        } else {
            Likeness::Other
        }
    }

    /// What is told where a subcommand refused such a text; nothing where it reads such texts, or it isn't known what it is.
    pub(crate) fn hint(self, subcommand: &str) -> Option<&'static str> {
        let reads_logs = matches!(subcommand, "log" | "follow");
        let reads_programs = matches!(subcommand, "run" | "replay" | "campaign" | "outcomes");
        match self {
            Likeness::Empty => Some("the text is empty"),
            Likeness::CarriageReturn => Some(
                "lines end with a carriage return and a line feed: tr -d '\\r' removes the first",
            ),
            Likeness::Trace if reads_logs || reads_programs => Some(
                "this looks like a trace, which tsobench judge reads",
            ),
            Likeness::Program if !reads_programs => Some(
                "this looks like a program, which tsobench run executes",
            ),
            Likeness::Log if !reads_logs => Some("this looks like a log, which tsobench log reads"),
            _ => None,
        }
    }
}
