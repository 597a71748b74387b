ghost use Rattle.std.specs.Prelude.{◌≡◌, ◌≤◌, length, IfOk, OnErr, IsOk};
ghost use Rattle.spec_machine.specs.Commands.{operation};
ghost use Rattle.spec_machine.specs.MemoryCalls.{memory_read};
ghost use Rattle.spec_machine.specs.declared.operation.Op.TheVariants as op;
ghost use Rattle.wasm_call.specs.Alone.{AnsweredAtOnce, PerformedAtOnce, PerformedWithin};
ghost use Rattle.wasm_host.specs.Scopes.{scope_of};

use crate::growth::begin;
use crate::turns::{changed, count_act};
use spec_machine::{ByteList, Name, Reply};
use std::alloc::Global;
use wasm_host::{Scope, named_memory};
use wasm_meter::{CallHooks, DeadlineBehaviour, HostData};
use wasm_store::parts::allocator;
use wasm_store::{MemoryCalls, Store, parts};
use wasm_types::{MemoryType, OutOfMemory};
use wasm_values::{Extern, Memory, Refusal};

pub(crate) fn new_memory<T: HostData, K: CallHooks<T>, B: DeadlineBehaviour<T>>(
    store: &mut Store<T, K, B>,
    scope: &Scope<'_>,
    ty: &MemoryType,
    limit: u64,
) -> Result<Reply, OutOfMemory>
    requires fresh { store.old.turns ≡ 0 }
    requires some_turns { 1 ≤ limit }
    ensures { PerformedWithin T.growths limit (operation store.old.machine (scope_of scope.now) (op.MemoryNew ty.now))
        store.old result store.new }
{
    let _ = scope;
    let rule = parts::memory_new_rule(store, ty);
    if let Err(reply) = begin(store, &rule, limit) {
        return Ok(reply);
    }
    let memory = parts::memory_new(store, ty.clone()?)?;
    count_act(store);
    Ok(Reply::Object(Extern::Memory(memory)))
}

pub(crate) fn write_memory<T: HostData, K: CallHooks<T>, B: DeadlineBehaviour<T>>(
    store: &mut Store<T, K, B>,
    scope: &Scope<'_>,
    memory: Name,
    at: u64,
    bytes: &ByteList,
) -> Reply
    requires { store.old.turns ≡ 0 }
    ensures { AnsweredAtOnce T.growths
        (operation store.old.machine (scope_of scope.now) (op.MemoryWrite memory at bytes.now))
        store.old result store.new }
{
    let Some(memory) = named_memory(scope, memory) else {
        return Reply::Refused(Refusal::NoReply);
    };
    let answer = memory.write(store, at as usize, bytes.as_slice());
    changed(store, answer)
}

pub(crate) fn grow_memory<T: HostData, K: CallHooks<T>, B: DeadlineBehaviour<T>>(
    store: &mut Store<T, K, B>,
    scope: &Scope<'_>,
    memory: Name,
    delta: u64,
    limit: u64,
) -> Result<Reply, OutOfMemory>
    requires fresh { store.old.turns ≡ 0 }
    requires some_turns { 1 ≤ limit }
    ensures { PerformedWithin T.growths limit (operation store.old.machine (scope_of scope.now) (op.MemoryGrow memory delta))
        store.old result store.new }
{
    let Some(memory) = named_memory(scope, memory) else {
        return Ok(Reply::Refused(Refusal::NoReply));
    };
    let rule = match parts::memory_grow_rule(store, memory, delta) {
        Ok(rule) => rule,
        Err(why) => return Ok(Reply::Refused(why)),
    };
    if let Err(reply) = begin(store, &rule, limit) {
        return Ok(reply);
    }
    let pages = parts::memory_grow(store, memory, delta)?;
    count_act(store);
    Ok(Reply::Number(pages))
}

pub(crate) fn size_memory<T: HostData, K: CallHooks<T>, B: DeadlineBehaviour<T>>(
    store: &mut Store<T, K, B>,
    scope: &Scope<'_>,
    memory: Name,
) -> Reply
    requires { store.old.turns ≡ 0 }
    ensures { AnsweredAtOnce T.growths (operation store.old.machine (scope_of scope.now) (op.MemorySize memory))
        store.old result store.new }
{
    let Some(memory) = named_memory(scope, memory) else {
        return Reply::Refused(Refusal::NoReply);
    };
    match memory.size(store) {
        Ok(pages) => {
            count_act(store);
            Reply::Number(pages)
        }
        Err(why) => Reply::Refused(why),
    }
}

/// The bytes of a range of a memory. A range that passes the end is refused before room is taken.
fn bytes_of<T: HostData, K: CallHooks<T>, B: DeadlineBehaviour<T>>(
    store: &Store<T, K, B>,
    memory: Memory,
    at: u64,
    len: u64,
) -> Result<Result<ByteList, Refusal>, OutOfMemory>
    ensures read { IfOk result (λ bytes. bytes ≡ memory_read store.now.machine memory at len) }
    ensures due { OnErr result (IsOk (memory_read store.now.machine memory at len)) }
{
    let size = match memory.data_size(store) {
        Ok(size) => size as u64,
        Err(why) => return Ok(Err(why)),
    };
    if at > size || len > size - at {
        return Ok(Err(Refusal::MemoryAccessError));
    }
    let mut bytes = zeros(allocator(store), len as usize)?;
    match memory.read(store, at as usize, bytes.as_mut_slice()) {
        Ok(()) => Ok(Ok(ByteList(bytes))),
        Err(why) => Ok(Err(why)),
    }
}

/// So many zeros.
fn zeros(alloc: Global, len: usize) -> Result<Vec<u8>, OutOfMemory>
    ensures { IfOk result (λ bytes. length bytes.items ≡ len) }
{
    Ok(vec![in alloc; 0; len]?)
}

pub(crate) fn read_memory<T: HostData, K: CallHooks<T>, B: DeadlineBehaviour<T>>(
    store: &mut Store<T, K, B>,
    scope: &Scope<'_>,
    memory: Name,
    at: u64,
    len: u64,
) -> Result<Reply, OutOfMemory>
    requires { store.old.turns ≡ 0 }
    ensures { PerformedAtOnce T.growths (operation store.old.machine (scope_of scope.now) (op.MemoryRead memory at len))
        store.old result store.new }
{
    let Some(memory) = named_memory(scope, memory) else {
        return Ok(Reply::Refused(Refusal::NoReply));
    };
    match bytes_of(store, memory, at, len)? {
        Ok(bytes) => {
            count_act(store);
            Ok(Reply::Bytes(bytes))
        }
        Err(why) => Ok(Reply::Refused(why)),
    }
}
