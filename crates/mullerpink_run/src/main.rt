//! The program: reads a module in the binary format on standard input, calls one of its exports, and writes the line of
//! the reply on standard output.
#![tactic(auto)]

use binary_run::{CountEpochs, Status, StdSink, StdSource, run_main};
use std::env;
use std::io::{ErrorKind, Input, Lock};
use std::process::ExitCode;

/// The words after the program's name. Words that are not text are as wrong as others.
fn words(rt: &HostRuntime) -> Result<Vec<String>, Status> {
    let mut arguments = match env::args(rt) {
        Ok(arguments) => arguments,
        Err(error) if error.kind() == ErrorKind::InvalidData => return Err(Status::BadWords),
        Err(_) => return Err(Status::OutOfMemory),
    };
    arguments.next();
    arguments
        .collect(rt.alloc())
        .map_err(|_| Status::OutOfMemory)
}

fn status(rt: &HostRuntime) -> Status {
    let words = match words(rt) {
        Ok(words) => words,
        Err(status) => return status,
    };
    let mut source = StdSource::new(rt.stdin().reader());
    let mut sink = StdSink::new(rt.stdout().lock());
    let mut epochs = CountEpochs::new();
    run_main(
        rt.alloc(),
        words.as_slice(),
        &mut source,
        &mut sink,
        &mut epochs,
    )
}

fn main(rt: HostRuntime) -> ExitCode {
    let status = status(&rt);
    if status != Status::Done {
        // The exit status stands whether its text could be written or not.
        let _ = eprintln!(rt; "{status}");
    }
    ExitCode::from(status.exit_code())
}
