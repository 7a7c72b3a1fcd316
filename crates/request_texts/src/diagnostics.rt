//! What is told on standard error beside what a request prints: how much is done, why a file can't be read, and what a refused
//! text looks like, or which limits refused numbers break.

use crate::hints::Likeness;
use command_line::Notes;
use progress_meters::{Meter, TotalMeter};
use std::cell::Cell;
use std::io;
use std::io::Read;
use std::rt::Clock;
use std::time::{Duration, Instant};

/// How many seconds pass until progress is told again.
const INTERVAL: u64 = 1;

/// What is told on the standard error of a runtime: what is asked for, and on a terminal, where a person reads it, also why a
/// file can't be read, what a refused text looks like, and which limits refused numbers break.
#[derive(Drop)]
pub struct Diagnostics<'h, H> {
    rt: &'h H,
    /// Whether the standard error is a terminal, where progress keeps to one line.
    is_terminal: bool,
    notes: Cell<Notes>,
    /// What is counted, and of how many where that is known.
    counted: Cell<(&'static str, Option<u64>)>,
    done: Cell<u64>,
    /// When progress was told last, or its counting began.
    told_at: Cell<Option<Instant>>,
    /// Whether a line of a terminal tells progress.
    has_line: Cell<bool>,
    /// The last failure of a file, as it is told.
    failure: Cell<Option<String>>,
    /// What the first text that was read looks like, or the last that is empty.
    likeness: Cell<Option<Likeness>>,
    /// The limits of the numbers that are asked for.
    limits: Cell<Option<&'static str>>,
}

impl<'h, H: Eprint + Clock + AllocGlobal> Diagnostics<'h, H> {
    /// Tells nothing until `begin`. It is to know whether the standard error is a terminal.
    pub fn new(rt: &'h H, is_terminal: bool) -> Diagnostics<'h, H> {
        Diagnostics {
            rt,
            is_terminal,
            notes: Cell::new(Notes {
                verbose: false,
                progress: false,
            }),
            counted: Cell::new(("", None)),
            done: Cell::new(0),
            told_at: Cell::new(None),
            has_line: Cell::new(false),
            failure: Cell::new(None),
            likeness: Cell::new(None),
            limits: Cell::new(None),
        }
    }

    /// From now on what these notes ask for is told.
    pub fn begin(&self, notes: Notes) {
        self.notes.set(notes);
    }

    /// From now on parts of this name are counted, of so many where that is known.
    pub fn count(&self, parts: &'static str, total: Option<u64>) {
        self.counted.set((parts, total));
        if self.notes.get().progress && self.told_at.get().is_none() {
            self.told_at.set(Instant::now(self.rt).ok());
        }
    }

    /// Tells progress, where it was told long enough ago.
    fn tell_progress(&self) {
        let Ok(now) = Instant::now(self.rt) else {
            return;
        };
        let is_due = match self.told_at.get() {
            Some(told_at) => now.saturating_duration_since(told_at)
                >= Duration::from_secs(INTERVAL),
            None => true,
        };
        if is_due {
            self.told_at.set(Some(now));
            self.print_progress();
        }
    }

    /// Prints how much is done: on a terminal over the line before.
    fn print_progress(&self) {
        let (before, after) = if self.is_terminal {
            ("\x1b[K", "\r")
        } else {
            ("", "\n")
        };
        let (parts, total) = self.counted.get();
        let done = self.done.get();
        // Nothing can be done where that can't be written.
        let _ = match total {
            Some(total) => eprint!(self.rt; "{before}{parts} {done} of {total}{after}"),
            None => eprint!(self.rt; "{before}{parts} {done}{after}"),
        };
        self.has_line.set(self.is_terminal);
    }

    /// Takes the line of progress from a terminal, before something else is written there.
    pub fn finish(&self) {
        if self.has_line.get() {
            let _ = eprint!(self.rt; "\x1b[K");
            self.has_line.set(false);
        }
    }

    /// Standard input, whose failures are told.
    pub fn watch_input<R: Read>(&'h self, reader: R) -> WatchedReader<'h, R, H> {
        WatchedReader {
            reader,
            name: String::new(self.rt.alloc()),
            is_input: true,
            is_begun: false,
            diagnostics: self,
        }
    }

    /// The file of this name, whose failures are told.
    pub(crate) fn watch_file<R: Read>(&'h self, reader: R, name: &str) -> WatchedReader<'h, R, H> {
        WatchedReader {
            reader,
            name: self.told_name(name),
            is_input: false,
            is_begun: false,
            diagnostics: self,
        }
    }

    /// Whether it is told why a file can't be read or a request was refused.
    fn tells_reasons(&self) -> bool {
        self.is_terminal || self.notes.get().verbose
    }

    /// The name of a file, where its failures are told. Without memory for it they are told without a name.
    fn told_name(&self, name: &str) -> String {
        let alloc = self.rt.alloc();
        if self.tells_reasons() {
            String::from_str(alloc, name).unwrap_or(String::new(alloc))
        } else {
            String::new(alloc)
        }
    }

    /// Notes why a file can't be opened or read, where that is to be told.
    pub(crate) fn note_failure(&self, name: &str, error: &io::Error) {
        if self.tells_reasons() {
            let text = format!(in self.rt.alloc(); "{name}: {error}\n");
            self.failure.set(text.ok());
        }
    }

    /// Notes what a text looks like that begins with these bytes, where it is the first or empty, and that may be told.
    fn note_start(&self, bytes: &[u8]) {
        if self.tells_reasons() && (bytes.is_empty() || self.likeness.get().is_none()) {
            self.likeness.set(Some(Likeness::of(bytes)));
        }
    }

    /// Notes the limits of the numbers that are asked for, where these may be told.
    pub(crate) fn note_limits(&self, limits: &'static str) {
        if self.tells_reasons() {
            self.limits.set(Some(limits));
        }
    }

    /// Tells the limits that refused numbers break, or what a text looks like that this subcommand refused, where it reads no
    /// such texts.
    pub fn tell_hint(&self, subcommand: &str) {
        let of_text = || self.likeness.get()?.hint(subcommand);
        if let Some(hint) = self.limits.get().or_else(of_text) {
            let _ = eprint!(self.rt; "{hint}\n");
        }
    }

    /// Tells the last failure that was noted, if there is one.
    pub fn tell_failure(&self) {
        if let Some(text) = self.failure.replace(None) {
            let _ = eprint!(self.rt; "{text}");
        }
    }
}

impl<H: Eprint + Clock + AllocGlobal> Meter for &Diagnostics<'_, H> {
    fn advance(&self, count: u64) {
        if self.notes.get().progress {
            self.done.set(self.done.get().saturating_add(count));
            self.tell_progress();
        }
    }
}

impl<H: Eprint + Clock + AllocGlobal> TotalMeter for &Diagnostics<'_, H> {
    fn expect_total(&self, count: u64) {
        let (parts, _) = self.counted.get();
        self.count(parts, Some(count));
    }
}

/// A reader whose failures are told.
#[derive(Drop)]
pub struct WatchedReader<'h, R, H> {
    reader: R,
    /// The name of a file, where its failures are told.
    name: String,
    /// Whether it is standard input, which has no name.
    is_input: bool,
    /// Whether something was read.
    is_begun: bool,
    diagnostics: &'h Diagnostics<'h, H>,
}

impl<R, H> WatchedReader<'_, R, H> {
    /// What it is called where a failure is told.
    fn told_name(&self) -> &str {
        if self.is_input {
            "standard input"
        } else {
            self.name.as_str()
        }
    }
}

impl<R: Read, H: Eprint + Clock + AllocGlobal> Read for WatchedReader<'_, R, H> {
    ghost remaining = { λ watched. R.remaining watched.reader };

    fn read(&mut self, buf: &mut [u8]) -> io::Result<usize> {
        match self.reader.read(buf) {
            Ok(count) => {
                if !self.is_begun {
                    self.is_begun = true;
                    self.diagnostics.note_start(buf.get(..count).unwrap_or(&[]));
                }
                Ok(count)
            }
            Err(error) => {
                if error.kind() != io::ErrorKind::Interrupted {
                    self.diagnostics.note_failure(self.told_name(), &error);
                }
                Err(error)
            }
        }
    }
}
