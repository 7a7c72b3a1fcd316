//! The program: hands its arguments and the standard streams to `request_serving`, which does what they ask for.
//!
//! `README.md` says how it is run, and `crates/request_serving/README.md` what is proved of it.
#![tactic(auto)]

use request_serving::{drive, end_without_arguments};
use request_texts::Diagnostics;
use std::io::IsTerminal;
use std::process::ExitCode;
use std::rt::Env;
use std::{env, io};

fn main(rt: HostRuntime) -> ExitCode {
    let mut errors = rt.stderr();
    let diagnostics = Diagnostics::new(&rt, errors.is_terminal());
    let status = match arguments(&rt) {
        Ok(arguments) => drive(
            &rt,
            &arguments,
            &diagnostics,
            &mut diagnostics.watch_input(rt.stdin()),
            &mut rt.stdout(),
            &mut errors,
        ),
        Err(error) => end_without_arguments(error.kind(), &mut errors),
    };
    ExitCode::from(status)
}

/// The arguments of the command line, after the program's name.
fn arguments(rt: &(impl Env + AllocGlobal)) -> io::Result<Vec<String>> {
    Ok(env::args(rt)?.skip(1).collect(rt.alloc())?)
}
