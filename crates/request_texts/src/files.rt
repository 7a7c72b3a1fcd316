//! What is around the program: files that are opened by their names, and who is told how much is done.
ghost use Rattle.std.specs.Prelude.{◌≡◌, [], ◌∷◌, IfOk, IfErr};
ghost use Rattle.text_streams.specs.declared.faults.Fault.{Fault};
ghost use Rattle.request_texts.specs.OpenedFiles.{HasKnown, OpensNext};

use crate::diagnostics::{Diagnostics, WatchedReader};
use command_line::Notes;
use progress_meters::TotalMeter;
use std::io::Read;
use std::rt::{Clock, Files};
use std::{fs, io};
use text_streams::Fault;

/// What is around the program: it opens files to be read, and hears how much is done.
///
/// Contracts know what a file has, and which were opened, where the implementation says it; of the system's files it
/// can say neither.
pub trait Environment {
    ghost use Rattle.std.specs.Prelude.{◌≡◌, ℕ, List, [], ◌∷◌, Option, None, IfOk};
    ghost use Rattle.request_texts.specs.OpenedFiles.{HasKnown, OpensNext};

    /// An opened file.
    type File: Read + Drop;

    /// What hears how much is done.
    type Meter: TotalMeter + Copy;

    // What the file of a name has, where it is known.
    ghost bytes: { Self → List ℕ → Option (List ℕ) } = { λ _ _. None };

    // The names of all files that were to be opened so far, in order, where they are known.
    ghost opened: { Self → Option (List (List ℕ)) } = { λ _. None };

    /// Opens the file of this name, or says why it can't be opened.
    fn open(&mut self, name: &str) -> io::Result<Self::File>
        ensures known { IfOk result (λ file. HasKnown (bytes self.old name.now) (Self.File.remaining file)) }
        ensures opened { OpensNext (opened self.old) (opened self.new) (name.now ∷ []) }
        ensures same { (other : List ℕ) → bytes self.new other ≡ bytes self.old other };

    /// Hears what is to be told, before a file is opened.
    fn begin(&self, notes: Notes);

    /// What hears how many parts of this name are done, of so many where that is known.
    fn meter(&self, parts: &'static str, total: Option<u64>) -> Self::Meter;

    /// Hears within which limits the numbers have to be that are asked for, which a person is told where they are refused.
    fn note_limits(&self, limits: &'static str);

    /// Hears that no more is done, before a fault is told.
    fn finish(&self);
}

/// The files of the system, and its standard error.
#[derive(Drop)]
pub struct SystemFiles<'h, H> {
    rt: &'h H,
    diagnostics: &'h Diagnostics<'h, H>,
}

impl<'h, H: Files> SystemFiles<'h, H> {
    /// The files that this runtime opens, whose failures are told so.
    pub fn new(rt: &'h H, diagnostics: &'h Diagnostics<'h, H>) -> SystemFiles<'h, H> {
        SystemFiles { rt, diagnostics }
    }
}

impl<'h, H: Files + Eprint + Clock + AllocGlobal> Environment for SystemFiles<'h, H> {
    type File = WatchedReader<'h, H::File, H>;

    type Meter = &'h Diagnostics<'h, H>;

    fn open(&mut self, name: &str) -> io::Result<WatchedReader<'h, H::File, H>> {
        match fs::open(self.rt, name) {
            Ok(file) => Ok(self.diagnostics.watch_file(file, name)),
            Err(error) => {
                self.diagnostics.note_failure(name, &error);
                Err(error)
            }
        }
    }

    fn begin(&self, notes: Notes) {
        self.diagnostics.begin(notes);
    }

    fn meter(&self, parts: &'static str, total: Option<u64>) -> &'h Diagnostics<'h, H> {
        self.diagnostics.count(parts, total);
        self.diagnostics
    }

    fn note_limits(&self, limits: &'static str) {
        self.diagnostics.note_limits(limits);
    }

    fn finish(&self) {
        self.diagnostics.finish();
    }
}

/// A file, to be read. One that can't be opened is the fault Read.
pub fn open<O: Environment>(files: &mut O, name: &str) -> Result<O::File, Fault>
    ensures known { IfOk result (λ file. HasKnown (O.bytes files.old name.now) (O.File.remaining file)) }
    ensures fault { IfErr result (λ fault. fault ≡ Fault.Read) }
    ensures opened { OpensNext (O.opened files.old) (O.opened files.new) (name.now ∷ []) }
    ensures same { O.bytes files.new ≡ O.bytes files.old }
{
    files.open(name).map_err(|_| Fault::Read)
}
