//! The program: reads a session's script on standard input, and writes the tape of its run and its lines on standard output;
//! or reads a tape and a script, and writes the lines of the script's run by the tape.
#![tactic(auto)]

use replay_run::{CountEpochs, SessionStatus, Status, StdSink, StdSource, replay_main};
use std::env;
use std::io::{ErrorKind, Input, Lock};
use std::process::ExitCode;

/// The words after the program's name. Words that are not text are as wrong as others.
fn words(rt: &HostRuntime) -> Result<Vec<String>, SessionStatus> {
    let mut arguments = match env::args(rt) {
        Ok(arguments) => arguments,
        Err(error) if error.kind() == ErrorKind::InvalidData => return Err(SessionStatus::BadWords),
        Err(_) => return Err(SessionStatus::OutOfMemory),
    };
    arguments.next();
    arguments
        .collect(rt.alloc())
        .map_err(|_| SessionStatus::OutOfMemory)
}

/// Records or replays the session of standard input. Its epoch goes on by one with each reading.
fn status(rt: &HostRuntime) -> Status {
    let words = match words(rt) {
        Ok(words) => words,
        Err(status) => return Status::Session(status),
    };
    let mut source = StdSource::new(rt.stdin().reader());
    let mut sink = StdSink::new(rt.stdout().lock());
    let mut epochs = CountEpochs::new();
    replay_main(
        rt.alloc(),
        words.as_slice(),
        &mut source,
        &mut sink,
        &mut epochs,
    )
}

fn main(rt: HostRuntime) -> ExitCode {
    let status = status(&rt);
    if status != Status::Session(SessionStatus::Done) {
        // The exit status stands whether its text could be written or not.
        let _ = eprintln!(rt; "{status}");
    }
    ExitCode::from(status.exit_code())
}
