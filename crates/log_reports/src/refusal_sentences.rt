//! The rule that a log with each refusal breaks: `specs/LogRefusals.antt` cites these texts, so that each stands once.

pub(crate) const BAD_LINE: &str =
    "Lines are 'P ld A R', 'P st A V', 'P sw A R V', 'P mb', 'P stbar' and 'P un A', and of a run also 'P dr', 'P dr A', 'P dr A V', 'P wr A V', 'P lr A R', 'P sc A V' and 'P last A V', where P is a number, with single spaces, ended by a line feed alone.\nBefore them may stand 'model pso', and then lines 'init A V'; after them a last line 'end', which --ended asks for.\nA line may end with ' #' and any text, and before 'end' lines may begin with '#'; all of it is ASCII.\n";

pub(crate) const BAD_NUMBER: &str =
    "A number has decimal digits alone, without a leading zero, or '0x' and then digits 0 to 9 and a to f, and is at most 18446744073709551615; a processor is at most 4095.\n";

pub(crate) const WIDTHS: &str =
    "An address of a log has no width, as '/4' would be: each is a location of its own.\n";
