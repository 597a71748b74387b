//! The run of a script, wherever it comes from, and its text.
ghost use Rattle.std.specs.Prelude.{◌≡◌, ◌≢◌, ◌≤◌, ◌&&◌, true, IsErrOf, OnOk};
ghost use Rattle.law_scripts.specs.Literals.{AreByNames};
ghost use Rattle.spec_machine.specs.Machine.{are_engine_limits};
ghost use Rattle.wasm_run.specs.Buffers.{IsCutShort};
ghost use Rattle.wasm_run.specs.SessionViews.{parts_of};
ghost use Rattle.wasm_run.specs.Sessions.{empty, task_for};
ghost use Rattle.wasm_run.specs.Statuses.{Ends, IsQuiet, text_when};
ghost use Rattle.wasm_streams.specs.Streams.{after, Fronts, Rose};

use crate::lines::{LinesFault, write_lines};
use crate::modules::validate_all;
use crate::session::Session;
use crate::status::Status;
use crate::store::new_store;
use crate::summary::write_summary;
use script_commands::Script;
use script_data::{ScriptBehaviour, ScriptHook};
use script_generated::Origin;
use std::alloc::Global;
use wasm_meter::EpochSource;
use wasm_streams::Sink;

/// A script that is to be run, and where it comes from.
#[derive(Drop)]
pub(crate) struct Task {
    pub(crate) origin: Origin,
    pub(crate) script: Script,
}

/// Whether the line of a hook is due: behind the lines of a script that has a hook, where it was run to its end.
fn is_hook_due(finished: bool, hooked: bool) -> bool
    ensures { result ≡ (finished && hooked) }
{
    finished && hooked
}

/// Writes the text of a session that was run to its end, or to a stop, and flushes; of one that was generated and not run to
/// its end there is none. Where it fails, a front of this text was written, and for want of memory not all of it.
fn write_text<K: Sink>(
    alloc: Global,
    sink: &mut K,
    origin: Origin,
    finished: bool,
    hooked: bool,
    session: &Session,
) -> Result<(), LinesFault>
    ensures wrote { OnOk result (K.held sink.new
        ≡ after (text_when origin finished hooked (parts_of session.now)) (K.held sink.old)) }
    ensures flushed { finished ≡ true → OnOk result (K.flushed sink.new ≡ true) }
    ensures front { Fronts (text_when origin finished hooked (parts_of session.now)) (K.held sink.old) (K.held sink.new) }
    ensures short { IsErrOf result LinesFault.OutOfMemory
        → IsCutShort (text_when origin finished hooked (parts_of session.now)) (K.held sink.old) (K.held sink.new) }
    ensures cause { IsErrOf result LinesFault.WriteFault
        → Rose (K.faults sink.old) (K.faults sink.new) }
    ensures uncounted { ¬ IsErrOf result LinesFault.WriteFault
        → K.faults sink.new ≡ K.faults sink.old }
    ensures never_falls { K.faults sink.old ≤ K.faults sink.new }
{
    match origin {
        Origin::Input => {
            let (noted, due) = (session.noted(), is_hook_due(finished, hooked));
            write_lines(alloc, sink, noted, due, session.events())
        }
        Origin::Generated(n) => {
            if !finished {
                return Ok(());
            }
            write_summary(alloc, sink, n, session.replies().as_slice())
        }
    }
}

/// Runs a script, once its modules are validated, and writes its text.
pub(crate) fn run_task<K: Sink, E: EpochSource>(
    alloc: Global,
    task: Task,
    sink: &mut K,
    epochs: &mut E,
    hook: ScriptHook,
    behaviour: ScriptBehaviour,
    session: &mut Session,
) -> Status
    requires empty { parts_of session.old ≡ empty }
    requires limits { are_engine_limits task.script.engine.frames task.script.engine.turns ≡ true }
    requires bodies { AreByNames task.script.bodies }
    ensures ends { Ends E.readings epochs.old epochs.new
        (parts_of session.new)
        (K.held sink.old) (K.held sink.new) (task_for task.origin task.script) result }
    ensures flushed { result ≡ Status.Done → K.flushed sink.new ≡ true }
    ensures untouched { IsQuiet result → sink.new ≡ sink.old }
    ensures write_fault { result ≡ Status.WriteFault → Rose (K.faults sink.old) (K.faults sink.new) }
    ensures uncounted { result ≢ Status.WriteFault → K.faults sink.new ≡ K.faults sink.old }
    ensures never_falls { K.faults sink.old ≤ K.faults sink.new }
{
    let (origin, script) = (task.origin, task.script);
    let modules = match validate_all(alloc, script.modules) {
        Ok(modules) => modules,
        Err(status) => return status,
    };
    let Ok(notes_after) = Vec::with_capacity(alloc, script.commands.as_slice().len()) else {
        return Status::OutOfMemory;
    };
    let (hooked, bodies) = (script.answers.hook.is_some(), script.bodies);
    let Ok(store) = new_store(alloc, script.engine, script.answers, hook, behaviour) else {
        return Status::OutOfMemory;
    };
    let (modules, commands) = (modules.as_slice(), script.commands.as_slice());
    let finished = session
        .run(store, bodies, notes_after, epochs, modules, commands)
        .is_ok();
    match write_text(alloc, sink, origin, finished, hooked, session) {
        Ok(()) if finished => Status::Done,
        Ok(()) => Status::OutOfMemory,
        Err(LinesFault::OutOfMemory) => Status::OutOfMemory,
        Err(LinesFault::WriteFault) => Status::WriteFault,
    }
}
