ghost use Rattle.std.specs.Prelude.{◌≡◌, [], ◌∷◌, ◌++◌, None, slice_get, option_copied, IfOk, IsSome, OnErr};
ghost use Rattle.spec_machine.specs.declared.command.Command.TheVariants as command;
ghost use Rattle.spec_machine.specs.declared.reply.Reply.TheVariants.{Refused};
ghost use Rattle.code_hosts.specs.Asked.{outside_by};
ghost use Rattle.law_causes.specs.Causes.{GrowsInVain};
ghost use Rattle.law_causes.specs.Tallies.{RepliedByCounts};
ghost use Rattle.spec_machine.specs.Commands.{row};
ghost use Rattle.spec_machine.specs.Names.{outermost};
ghost use Rattle.wasm_call.specs.Outside.{asked, surrounded};
ghost use Rattle.wasm_call.specs.Runs.{Steps, Breaks};
ghost use Rattle.wasm_instance.specs.Instances.{NamedRanShort};

use crate::instance_calls::InstanceCalls;
use spec_machine::{Name, Reply};
use wasm_call::laws::law_failures_are_counted;
use wasm_call::{HostBody, begin_turns, outermost_objects};
use wasm_meter::{CallHooks, DeadlineBehaviour, EpochSource, HostData};
use wasm_module::Module;
use wasm_store::Store;
use wasm_store::parts::allocator;
use wasm_types::OutOfMemory;
use wasm_values::{Instance, Refusal};

// The module of this number, lent.
fn module_at(modules: &[Module], number: usize) -> Option<&Module>
    ensures { option_copied result ≡ slice_get modules.now number }
{
    modules.get(number)
}

// The reply of an instantiation that was refused, but for want of memory.
fn refused(why: Refusal) -> Result<Reply, OutOfMemory>
    ensures short { OnErr result (why ≡ Refusal.OutOfMemory) }
    ensures refused { IfOk result (λ reply. (reply ≡ Refused why) × ¬ (why ≡ Refusal.OutOfMemory)) }
{
    match why {
        Refusal::OutOfMemory => Err(OutOfMemory),
        why => Ok(Reply::Refused(why)),
    }
}

// The reply where there is no memory for a list of the objects that names stand for: one that there is no module.
fn unlisted(modules: &[Module], number: usize) -> Result<Reply, OutOfMemory>
    ensures refused { IfOk result (λ reply. (reply ≡ Refused Refusal.NoReply) × (slice_get modules.now number ≡ None)) }
    ensures short { OnErr result (IsSome (slice_get modules.now number)) }
{
    match module_at(modules, number) {
        Some(_) => Err(OutOfMemory),
        None => Ok(Reply::Refused(Refusal::NoReply)),
    }
}

/// Instantiates the module of this number as an outermost command, over the imports that these names stand for, and
/// answers its reply; `replies` are what the names speak of. `NoReply` where a name stands for no object, and then
/// where there is no module of this number, whatever memory there is; what is refused behind that is told at
/// `InstanceCalls::new`.
///
/// `Store::turns` tells the turns that it made. After `OutOfMemory` it is stopped after so many turns, or before its
/// counts were raised, as there was no memory for a list of the objects; no object was made or changed then, or memory
/// ran out in the start function. A refusal by what is outside comes only where the count of what gave it rose.
pub fn run_instantiate<
    T: HostData,
    K: CallHooks<T>,
    B: DeadlineBehaviour<T>,
    H: HostBody<T>,
    E: EpochSource,
>(
    store: &mut Store<T, K, B>,
    modules: &[Module],
    host: &mut H,
    epochs: &mut E,
    replies: &[Reply],
    number: usize,
    imports: &[Name],
) -> Result<Reply, OutOfMemory>
    requires ready { H.ready host.old }
    ensures ready { H.ready host.new }
    ensures answered { IfOk result (λ reply. Steps (asked T.growths H.has K.hooks B.behaves E.readings H.steps) modules.now
        (command.Instantiate number imports.now) (surrounded store.old host.old epochs.old) replies.now
        (surrounded store.new host.new epochs.new) (replies.now ++ reply ∷ [])) }
    ensures cut { OnErr result (Breaks (asked T.growths H.has K.hooks B.behaves E.readings H.steps) modules.now
        (command.Instantiate number imports.now) store.new.turns (surrounded store.old host.old epochs.old) replies.now
        (surrounded store.new host.new epochs.new) replies.now) }
    ensures short { OnErr result (NamedRanShort (asked T.growths H.has K.hooks B.behaves E.readings H.steps) modules.now replies.now
        number imports.now (surrounded store.old host.old epochs.old) (surrounded store.new host.new epochs.new)) }
    ensures causes { IfOk result (λ reply. RepliedByCounts T.denials T.limiter_faults T.hook_faults T.behaviour_faults
        E.epoch_faults H.host_faults (outside_by store.old.host_data host.old epochs.old)
        (outside_by store.new.host_data host.new epochs.new)
        (GrowsInVain store.old.machine (row modules.now store.old.machine (outermost replies.now)
        (command.Instantiate number imports.now))) reply) }
    ensures engine { store.new.machine.engine ≡ store.old.machine.engine }
{
    law_failures_are_counted::<T, K, B, H, E>();
    begin_turns(store);
    let Ok(named) = outermost_objects(allocator(store), replies, imports) else {
        return unlisted(modules, number);
    };
    let Some(found) = named else {
        return Ok(Reply::Refused(Refusal::NoReply));
    };
    let Some(validated) = module_at(modules, number) else {
        return Ok(Reply::Refused(Refusal::NoReply));
    };
    match <Instance as InstanceCalls>::new(store, validated, found.as_slice(), host, epochs) {
        Ok(instance) => Ok(Reply::Instance(instance)),
        Err(why) => refused(why),
    }
}
