ghost use Rattle.std.specs.List.{list_all};
ghost use Rattle.std.specs.Prelude.{◌≡◌, length, Err, IfOk, IfErr, true};
ghost use Rattle.spec_machine.specs.FunctionCalls.{is_count, called};
ghost use Rattle.spec_machine.specs.Values.{owns_val};
ghost use Rattle.wasm_call.specs.Calls.{call_row, Returned, Failed, ResultsFit};
ghost use Rattle.wasm_call.specs.Outside.{asked, surrounded};

use crate::invocations::run_function;
use store_objects::Objects;
use wasm_host::HostBody;
use wasm_meter::{CallHooks, DeadlineBehaviour, EpochSource, HostData};
use wasm_store::Store;
use wasm_store::parts::{may_call, put_objects, set_turns, take_objects};
use wasm_values::{Func, Refusal, Val};

/// Calls a function on these values, where `results` may say how many results there are to be: its conditions, and
/// then its code. A refusal that is due is told; `OutOfMemory` may come after any turn.
pub(crate) fn call_values<
    T: HostData,
    K: CallHooks<T>,
    B: DeadlineBehaviour<T>,
    H: HostBody<T>,
    E: EpochSource,
>(
    store: &mut Store<T, K, B>,
    host: &mut H,
    epochs: &mut E,
    func: Func,
    args: &[Val],
    results: Option<u64>,
) -> Result<Vec<Val>, Refusal>
    requires ready { H.ready host.old }
    requires fresh { store.old.turns ≡ 0 }
    ensures ready { H.ready host.new }
    ensures returned { IfOk result (λ vals. Returned (asked T.growths H.has K.hooks B.behaves E.readings H.steps)
        (call_row store.old.machine func args.now results)
        (surrounded store.old host.old epochs.old) vals.items (surrounded store.new host.new epochs.new)) }
    ensures failed { IfErr result (λ why. Failed (asked T.growths H.has K.hooks B.behaves E.readings H.steps)
        (call_row store.old.machine func args.now results)
        (surrounded store.old host.old epochs.old) why (surrounded store.new host.new epochs.new)) }
    ensures refused { IfErr (called store.old.machine func args.now results) (λ why. result ≡ Err why) }
    ensures fit { IfOk result (λ vals. ResultsFit store.old.machine func store.new.machine vals.items) }
    ensures owned { IfOk result (λ vals. list_all (owns_val store.new.machine) vals.items ≡ true) }
    ensures counted { IfOk result (λ vals. is_count results (length vals.items) ≡ true) }
    ensures engine { store.new.machine.engine ≡ store.old.machine.engine }
{
    may_call(store, func, args, results)?;
    let mut parts = take_objects(store).into_parts();
    let ended = run_function(&mut parts, store, host, epochs, func, args);
    set_turns(store, ended.turns);
    put_objects(store, Objects::from_parts(parts));
    ended.results
}
