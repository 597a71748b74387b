ghost use Rattle.std.specs.Prelude.{◌≡◌, ◌≢◌, ◌↔◌, ℕ, ◌≤◌, ◌⊎◌, List, map, true, string_bytes, None, Some};
ghost use Rattle.wasm_streams.specs.Streams.{before, HasNothing, Rose};
ghost use Rattle.wasm_run.specs.SessionViews.{parts_of};
ghost use Rattle.wasm_run.specs.Sessions.{HasInput, RunOf, empty, due, task_of, task_of_spelling};
ghost use Rattle.wasm_store.specs.Stores.{StoreParts};
ghost use Rattle.script_commands.specs.Scripts.{spelling};
ghost use Rattle.script_commands.specs.declared.script.Script.{Script};
ghost use Rattle.script_data.specs.Calls.{KeepsHook, KeepsBehaviour};
ghost use Rattle.script_data.specs.declared.script_data.ScriptData.{ScriptData};
ghost use Rattle.script_generated.specs.Scripts.{generated};
ghost use Rattle.script_generated.specs.Words.{origin_of};
ghost use Rattle.wasm_run.specs.Statuses.{Says, Ends, Finished, PartlyWritten, ShortOfMemory, Quiet, IsOfWhole, IsDecided, IsQuiet};

use crate::session::Session;
use crate::status::Status;
use crate::tasks::{Task, run_task};
use script_commands::{ScriptTextFault, read_script};
use script_data::{BehaviourCall, HookCall, ScriptBehaviour, ScriptHook};
use script_generated::{Origin, generated_script, origin_of};
use std::alloc::Global;
use wasm_meter::EpochSource;
use wasm_streams::{InputFault, Sink, Source, read_input};

/// Runs the script that the text spells, and writes its lines.
fn run_text<K: Sink, E: EpochSource>(
    alloc: Global,
    text: Vec<u8>,
    sink: &mut K,
    epochs: &mut E,
    hook: ScriptHook,
    behaviour: ScriptBehaviour,
    session: &mut Session,
) -> Status
    requires { parts_of session.old ≡ empty }
    ensures ends { Ends E.readings epochs.old epochs.new
        (parts_of session.new)
        (K.held sink.old) (K.held sink.new) (task_of_spelling (spelling text.items)) result }
    ensures flushed { result ≡ Status.Done → K.flushed sink.new ≡ true }
    ensures untouched { IsQuiet result → sink.new ≡ sink.old }
    ensures write_fault { result ≡ Status.WriteFault → Rose (K.faults sink.old) (K.faults sink.new) }
    ensures uncounted { result ≢ Status.WriteFault → K.faults sink.new ≡ K.faults sink.old }
    ensures never_falls { K.faults sink.old ≤ K.faults sink.new }
{
    let script = match read_script(alloc, text.as_slice()) {
        Ok(script) => script,
        Err(ScriptTextFault::BadJson) => return Status::BadJson,
        Err(ScriptTextFault::BadScript) => return Status::BadScript,
        Err(ScriptTextFault::OutOfMemory) => return Status::OutOfMemory,
    };
    drop(text);
    let origin = Origin::Input;
    let task = Task { origin, script };
    run_task(alloc, task, sink, epochs, hook, behaviour, session)
}

/// Runs the generated script of so many calls, and writes its summary.
fn run_generated<K: Sink, E: EpochSource>(
    alloc: Global,
    n: u32,
    sink: &mut K,
    epochs: &mut E,
    hook: ScriptHook,
    behaviour: ScriptBehaviour,
    session: &mut Session,
) -> Status
    requires empty { parts_of session.old ≡ empty }
    requires within { n ≤ 1000 }
    ensures ends { Ends E.readings epochs.old epochs.new
        (parts_of session.new)
        (K.held sink.old) (K.held sink.new) (RunOf (Origin.Generated n) (generated n)) result }
    ensures flushed { result ≡ Status.Done → K.flushed sink.new ≡ true }
    ensures untouched { IsQuiet result → sink.new ≡ sink.old }
    ensures write_fault { result ≡ Status.WriteFault → Rose (K.faults sink.old) (K.faults sink.new) }
    ensures uncounted { result ≢ Status.WriteFault → K.faults sink.new ≡ K.faults sink.old }
    ensures never_falls { K.faults sink.old ≤ K.faults sink.new }
{
    let Ok(script) = generated_script(alloc, n) else {
        return Status::OutOfMemory;
    };
    let origin = Origin::Generated(n);
    let task = Task { origin, script };
    run_task(alloc, task, sink, epochs, hook, behaviour, session)
}

/// Does what the words ask for, with what holds of the bytes that were taken.
fn session_in<S: Source, K: Sink, E: EpochSource>(
    alloc: Global,
    words: &[String],
    source: &mut S,
    sink: &mut K,
    epochs: &mut E,
    hook: ScriptHook,
    behaviour: ScriptBehaviour,
    session: &mut Session,
) -> Status
    requires { parts_of session.old ≡ empty }
    ensures says { (taken : List ℕ) × (S.left source.old ≡ before taken (S.left source.new))
        × Says E.readings epochs.old epochs.new
        (parts_of session.new)
        (K.held sink.old) (K.held sink.new) (map string_bytes words.now) taken result }
    ensures bad_words { (result ≡ Status.BadWords) ↔ (origin_of (map string_bytes words.now) ≡ None) }
    ensures unread { origin_of (map string_bytes words.now) ≢ Some Origin.Input → source.new ≡ source.old }
    ensures untouched { IsQuiet result → sink.new ≡ sink.old }
    ensures flushed { result ≡ Status.Done → K.flushed sink.new ≡ true }
    ensures ended { origin_of (map string_bytes words.now) ≡ Some Origin.Input → IsOfWhole result
        → (S.ended source.new ≡ true) × HasNothing (S.left source.new) }
    ensures store_after_end { (kept : StoreParts ScriptData) → (parts_of session.new).store ≡ Some kept
        → origin_of (map string_bytes words.now) ≡ Some Origin.Input
        → (S.ended source.new ≡ true) × HasNothing (S.left source.new) }
    ensures read_fault { result ≡ Status.ReadFault
        → Rose (S.faults source.old) (S.faults source.new) }
    ensures write_fault { result ≡ Status.WriteFault
        → Rose (K.faults sink.old) (K.faults sink.new) }
    ensures source_uncounted { result ≢ Status.ReadFault → S.faults source.new ≡ S.faults source.old }
    ensures sink_uncounted { result ≢ Status.WriteFault → K.faults sink.new ≡ K.faults sink.old }
    ensures source_never_falls { S.faults source.old ≤ S.faults source.new }
    ensures sink_never_falls { K.faults sink.old ≤ K.faults sink.new }
{
    match origin_of(words) {
        None => Status::BadWords,
        Some(Origin::Generated(n)) => {
            run_generated(alloc, n, sink, epochs, hook, behaviour, session)
        }
        Some(Origin::Input) => match read_input(alloc, source) {
            Ok(text) => run_text(alloc, text, sink, epochs, hook, behaviour, session),
            Err(InputFault::ReadFault) => Status::ReadFault,
            Err(InputFault::TooLong) => Status::TooLong,
            Err(InputFault::OutOfMemory) => Status::OutOfMemory,
        },
    }
}

/// The words are those after the program's name. For `run` a script is read to its end and run, and a line is written for
/// each command, behind those of the notes that the script's host took meanwhile, and, where the script has a hook, one of
/// the events that it was told of. For `gen` and a number from 1 to 1,000, in decimal without a leading zero, the generated
/// script of so many calls is run, its summary is written, or nothing where it was not run to its end, and nothing is read.
///
/// The status says how it ended: `Done` where all of the text was written and the sink was flushed after it; `BadWords`
/// exactly for other words, and then nothing is read; `ReadFault` and `WriteFault` only where the source or the sink counted
/// a fault; `TooLong`, `BadJson` and `BadScript` exactly where the input has more than 2^24 bytes, has no reading as JSON,
/// or is no script, and `InvalidModule` exactly where a module of the script breaks a rule, want of memory aside;
/// `OutOfMemory` where memory ran out, and never where all of the text was written. With `ReadFault` alone the source counts
/// a fault, with `WriteFault` alone the sink does, and before a script is run the sink is not touched. No command runs
/// before all modules are validated.
///
/// Each command, an unfinished one included, leaves every memory, table, global and segment as it was that nothing leads to
/// from the objects that it names.
///
/// `epochs` is read by the commands of a script whose engine reads epochs, and where a command moves the deadline. `hook`
/// and `behaviour` are told and asked where the script has answers of a hook and of a deadline behaviour, and dropped
/// where it has none.
pub fn session_main<S: Source, K: Sink, E: EpochSource>(
    alloc: Global,
    words: &[String],
    source: &mut S,
    sink: &mut K,
    epochs: &mut E,
    hook: HookCall,
    behaviour: BehaviourCall,
    session: &mut Session,
) -> Status
    requires empty { parts_of session.old ≡ empty }

    // The two closures may be called on any data of a script, and give the answers of its lists.
    requires hook_callable { HookCall.IsAlwaysCallable hook }
    requires hook_keeps { KeepsHook (λ old event answer new. HookCall.post hook old event answer new) }
    requires behaviour_callable { BehaviourCall.IsAlwaysCallable behaviour }
    requires behaviour_keeps { KeepsBehaviour (λ old answer new. BehaviourCall.post behaviour old answer new) }

    // Each status comes only by its cause.
    ensures bad_words { (result ≡ Status.BadWords) ↔ (origin_of (map string_bytes words.now) ≡ None) }
    ensures read_fault { result ≡ Status.ReadFault
        → Rose (S.faults source.old) (S.faults source.new) }
    ensures write_fault { result ≡ Status.WriteFault
        → Rose (K.faults sink.old) (K.faults sink.new) }
    ensures decided { (input : List ℕ) → HasInput (map string_bytes words.now) (S.left source.old) input → IsDecided result
        → result ≡ due (map string_bytes words.now) input }

    // Where nothing fails, the status is the one that is due for the words and the input.
    ensures complete { (input : List ℕ) → HasInput (map string_bytes words.now) (S.left source.old) input
        → ¬ Rose (S.faults source.old) (S.faults source.new)
        → ¬ Rose (K.faults sink.old) (K.faults sink.new)
        → (result ≡ due (map string_bytes words.now) input) ⊎ (result ≡ Status.OutOfMemory) }

    // The program can't choose to stop before the end of the input, where it is to be read, and else reads nothing.
    ensures ended { origin_of (map string_bytes words.now) ≡ Some Origin.Input → IsOfWhole result
        → (S.ended source.new ≡ true) × HasNothing (S.left source.new) }
    ensures store_after_end { (kept : StoreParts ScriptData) → (parts_of session.new).store ≡ Some kept
        → origin_of (map string_bytes words.now) ≡ Some Origin.Input
        → (S.ended source.new ≡ true) × HasNothing (S.left source.new) }
    ensures unread { origin_of (map string_bytes words.now) ≢ Some Origin.Input → source.new ≡ source.old }

    // What the session holds, and what was written.
    ensures done { (input : List ℕ) (origin : Origin) (script : Script)
        → HasInput (map string_bytes words.now) (S.left source.old) input
        → task_of (map string_bytes words.now) input ≡ RunOf origin script → result ≡ Status.Done
        → Finished E.readings epochs.old epochs.new
        (parts_of session.new)
        (K.held sink.old) (K.held sink.new) origin script }
    ensures write_failed { (input : List ℕ) (origin : Origin) (script : Script)
        → HasInput (map string_bytes words.now) (S.left source.old) input
        → task_of (map string_bytes words.now) input ≡ RunOf origin script → result ≡ Status.WriteFault
        → PartlyWritten E.readings epochs.old epochs.new
        (parts_of session.new)
        (K.held sink.old) (K.held sink.new) origin script }
    ensures out_of_memory { (input : List ℕ) (origin : Origin) (script : Script)
        → HasInput (map string_bytes words.now) (S.left source.old) input
        → task_of (map string_bytes words.now) input ≡ RunOf origin script → result ≡ Status.OutOfMemory
        → Quiet epochs.old epochs.new
        (parts_of session.new)
        (K.held sink.old) (K.held sink.new)
        ⊎ ShortOfMemory E.readings epochs.old epochs.new
        (parts_of session.new)
        (K.held sink.old) (K.held sink.new) origin script }
    ensures flushed { result ≡ Status.Done → K.flushed sink.new ≡ true }
    ensures quiet { IsQuiet result → Quiet epochs.old epochs.new
        (parts_of session.new)
        (K.held sink.old) (K.held sink.new) }
    ensures untouched { IsQuiet result → sink.new ≡ sink.old }

    // The same of the bytes that were taken, where the source tells what it has left; of one that does not, only
    // that there are bytes, within the limit, of which it holds.
    ensures says { (taken : List ℕ) × (S.left source.old ≡ before taken (S.left source.new))
        × Says E.readings epochs.old epochs.new
        (parts_of session.new)
        (K.held sink.old) (K.held sink.new) (map string_bytes words.now) taken result }
    ensures source_uncounted { result ≢ Status.ReadFault → S.faults source.new ≡ S.faults source.old }
    ensures sink_uncounted { result ≢ Status.WriteFault → K.faults sink.new ≡ K.faults sink.old }
    ensures source_never_falls { S.faults source.old ≤ S.faults source.new }
    ensures sink_never_falls { K.faults sink.old ≤ K.faults sink.new }
{
    let (hook, behaviour) = (ScriptHook::new(hook), ScriptBehaviour::new(behaviour));
    session_in(alloc, words, source, sink, epochs, hook, behaviour, session)
}
