//! The calls that the READMEs of `command_line`, `request_texts`, `run_serving` and `request_serving` show, so that they compile and
//! are proved.

use command_line::{CommandLine, MakeOptions, Notes, Request, read_arguments};
use request_serving::drive;
use request_texts::{Diagnostics, Environment, read_named};
use run_serving::make;
use std::alloc::{AllocError, AllocGlobal, Global};
use std::io::{Read, Write};
use std::rt::{Clock, Files};
use std::sync::Wait;
use std::thread::Threads;
use text_streams::Fault;

/// `command_line`: what arguments ask for.
pub(super) fn request_of_arguments<'a>(
    alloc: Global,
    arguments: &'a [String],
) -> Result<(Request<'a>, Notes), AllocError> {
    let CommandLine { request, notes } = read_arguments(alloc, arguments)?;
    Ok((request, notes))
}

/// `request_texts`: reads the trace of a number in a file, or else on standard input.
pub(super) fn read_a_trace<O: Environment, R: Read>(
    alloc: Global,
    name: Option<&str>,
    nth: Option<u64>,
    files: &mut O,
    reader: &mut R,
) -> Result<Option<Vec<u8>>, Fault> {
    let text = read_named(alloc, name, nth, files, reader)?;
    Ok(text)
}

/// `run_serving`: writes the program of a seed.
pub(super) fn write_a_program<W: Write>(
    alloc: Global,
    options: &MakeOptions,
    writer: &mut W,
) -> Result<u8, Fault> {
    let status = make(alloc, options, writer)?;
    Ok(status)
}

/// `request_serving`: does what arguments ask for, and gives the status of the process.
pub(super) fn do_what_arguments_ask<
    H: Threads + Wait + Sync + Files + AllocGlobal + Eprint + Clock,
    R: Read,
    W: Write,
    E: Write,
>(rt: &H, arguments: &[String], input: &mut R, output: &mut W, errors: &mut E) -> u8 {
    let diagnostics = Diagnostics::new(rt, false);
    drive(rt, arguments, &diagnostics, input, output, errors)
}
