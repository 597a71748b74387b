//! The program: reads a session's script on standard input, and writes its lines on standard output.
#![tactic(auto)]

use std::alloc::AllocError;
use std::env;
use std::io::{ErrorKind, Input, Lock};
use std::process::ExitCode;
use wasm_run::{
    BehaviourCall, BehaviourFailed, CallHook, CountEpochs, HookCall, HookFailed, ScriptData,
    Session, Status, StdSink, StdSource, UpdateDeadline, session_main,
};

/// The words after the program's name. Words that are not text are as wrong as others.
fn words(rt: &HostRuntime) -> Result<Vec<String>, Status> {
    let mut arguments = match env::args(rt) {
        Ok(arguments) => arguments,
        Err(error) if error.kind() == ErrorKind::InvalidData => return Err(Status::BadWords),
        Err(_) => return Err(Status::OutOfMemory),
    };
    arguments.next();
    arguments
        .collect(rt.alloc())
        .map_err(|_| Status::OutOfMemory)
}

/// Runs the session of standard input. Its epoch goes on by one with each reading, and its hook and its deadline
/// behaviour answer as the script says.
fn run(rt: &HostRuntime, words: &[String]) -> Result<Status, AllocError> {
    let mut source = StdSource::new(rt.stdin().reader());
    let mut sink = StdSink::new(rt.stdout().lock());
    let mut epochs = CountEpochs::new();
    let hook: HookCall = Box::new(
        rt.alloc(),
        |data: &mut ScriptData, event: CallHook| -> Result<(), HookFailed> {
            data.hook_answer(event)
        },
    )?;
    let behaviour: BehaviourCall = Box::new(
        rt.alloc(),
        |data: &mut ScriptData| -> Result<UpdateDeadline, BehaviourFailed> {
            data.deadline_answer()
        },
    )?;
    let mut session = Session::new(rt.alloc());
    Ok(session_main(
        rt.alloc(),
        words,
        &mut source,
        &mut sink,
        &mut epochs,
        hook,
        behaviour,
        &mut session,
    ))
}

fn status(rt: &HostRuntime) -> Status {
    match words(rt) {
        Ok(words) => run(rt, words.as_slice()).unwrap_or(Status::OutOfMemory),
        Err(status) => status,
    }
}

fn main(rt: HostRuntime) -> ExitCode {
    let status = status(&rt);
    if status != Status::Done {
        // The exit status stands whether its name could be written or not.
        let _ = eprintln!(rt; "{status}");
    }
    ExitCode::from(status.exit_code())
}
