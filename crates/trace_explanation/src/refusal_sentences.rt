//! The rule that a text with each refusal breaks: `specs/Refusals.antt` cites these texts, so that each stands once.

pub(crate) const BAD_HEADER: &str =
    "The first line is 'tso trace 1' or 'tso trace 2', ended by a line feed alone.\n";

pub(crate) const BAD_LINE: &str =
    "Lines are 'proc', 'ld A R', 'st A V', 'sw A R V', 'mb' and 'end', under 'model pso' also 'stbar', with single spaces, ended by a line feed alone.\nIn version 2 'init A V' may stand before the first 'proc', after 'model pso' if there is one.\n";

pub(crate) const BAD_NUMBER: &str =
    "A number has digits alone, no leading zero, and is at most 18446744073709551615.\n";

pub(crate) const BEFORE_PROC: &str = "A processor's operations stand after its line 'proc'.\n";

pub(crate) const TOO_MANY_PROCESSORS: &str = "A trace has at most 16 processors.\n";

pub(crate) const TOO_MANY_EVENTS: &str =
    "A trace of version 1 has at most 2000 events and 2000 barriers, of version 2 at most 8000; a swap is two events.\n";

pub(crate) const ADDRESS_RANGE: &str = "An address is at most 255.\n";

pub(crate) const ZERO_VALUE: &str =
    "A value that is stored, or a first value of an 'init' line, is at least 1.\n";

pub(crate) const REPEATED_VALUE: &str =
    "Each store writes a value of its own, that no other stores and no 'init' line has.\n";

pub(crate) const MISSING_END: &str = "The last line must be 'end'.\n";

pub(crate) const AFTER_END: &str = "Nothing may stand after the line 'end'.\n";

pub(crate) const TOO_LONG: &str = "A text has at most 1048576 bytes.\n";

pub(crate) const BAD_MODEL: &str = "The model line is 'model pso'; without one the model is TSO.\n";

pub(crate) const INIT_ORDER: &str = "The addresses of 'init' lines rise.\n";
