//! The arguments of a call where there is no memory for a list of them: the refusal that is due is looked for in place,
//! so that it is told all the same.
ghost use Rattle.std.specs.Prelude.{◌≡◌, false, IfOk, OnErr, None, is_some};
ghost use Rattle.std.specs.List.{list_all};
ghost use Rattle.std.specs.Option.{option_copied};
ghost use Rattle.wasm_types.specs.FunctionParts.{ref_type};
ghost use Rattle.wasm_types.specs.Matching.{val_matches};
ghost use Rattle.wasm_types.specs.declared.value_types.ValType.TheVariants as kind;
ghost use Rattle.wasm_values.specs.Handles.{func_store, func_index};
ghost use Rattle.spec_machine.specs.Commands.{Refuse};
ghost use Rattle.spec_machine.specs.FunctionCalls.{is_count};
ghost use Rattle.spec_machine.specs.Machine.{Machine};
ghost use Rattle.spec_machine.specs.Names.{operand_value};
ghost use Rattle.spec_machine.specs.Values.{is_id, owns_val, concrete, least_type, val_fits};
ghost use Rattle.spec_machine.specs.declared.reply.Reply.TheVariants.{Refused};
ghost use Rattle.wasm_values.specs.declared.refusals.Refusal.{Refusal as Cause};
ghost use Rattle.store_state.specs.Machine.{run_machine, type_named};
ghost use Rattle.store_state.specs.Parts.{HeldParts};
ghost use Rattle.wasm_call.specs.Arguments.{call_on, InStores, own_type, is_owned, are_fitting};
ghost use Rattle.wasm_call.specs.Room.{refusal_of};
ghost use Rattle.wasm_host.specs.Scopes.{scope_of};

use spec_machine::{Operand, Reply};
use store_objects::Objects;
use store_state::{Program, func_fits};
use wasm_host::{Scope, operand_value};
use wasm_meter::{CallHooks, DeadlineBehaviour, HostData};
use wasm_store::Store;
use wasm_store::parts::{put_objects, take_objects};
use wasm_types::{FuncType, HeapType, OutOfMemory, RefType, ValType};
use wasm_values::{AnyRef, ExternRef, Func, Refusal, StoreId, Val};

/// Whether a function is of a store of this id.
fn is_own(func: Func, id: StoreId) -> bool
    ensures { result ≡ is_id (func_store func) id }
{
    func.store_id().as_raw().get() == id.as_raw().get()
}

/// The type of a function, where it is of the store.
fn own_type(program: &Program, id: StoreId, func: Func) -> Option<&FuncType>
    ensures { option_copied result ≡ own_type program.now id func }
{
    if !is_own(func, id) {
        return None;
    }
    program.function_type(func.index())
}

/// Whether a value is of the store.
fn owns_val(program: &Program, id: StoreId, val: Val) -> bool
    ensures { InStores program.now id (λ m. result ≡ owns_val m val) }
{
    match val {
        Val::FuncRef(Some(func)) => is_own(func, id) && func.index() < program.function_count(),
        _ => true,
    }
}

/// The least type of a reference to the host's data, in whatever store.
fn extern_type(host: Option<ExternRef>) -> ValType
    ensures { (m : Machine) → result ≡ least_type m (Val.ExternRef host) }
{
    match host {
        Some(_) => ValType::Ref(RefType::new(false, HeapType::Extern)),
        None => ValType::nullexternref(),
    }
}

/// The least type of a reference to WebAssembly's data, in whatever store.
fn any_type(any: Option<AnyRef>) -> ValType
    ensures { (m : Machine) → result ≡ least_type m (Val.AnyRef any) }
{
    match any {
        Some(_) => ValType::Ref(RefType::new(false, HeapType::I31)),
        None => ValType::nullref(),
    }
}

/// Whether a function may stand where one of the type is wanted.
fn function_fits(program: &Program, func: Func, ty: &ValType) -> bool
    ensures { result ≡ val_matches (kind.Ref (ref_type false (concrete (type_named program.now (func_index func))))) ty.now }
{
    let ValType::Ref(ty) = ty else {
        return false;
    };
    match program.function_type(func.index()) {
        Some(own) => func_fits(own, ty.heap_type()),
        None => matches!(ty.heap_type(), HeapType::Func),
    }
}

/// Whether a reference to a function may stand where one of the type is wanted.
fn reference_fits(program: &Program, func: Option<Func>, ty: &ValType) -> bool
    ensures { (base : Machine) (held : HeldParts) →
        result ≡ val_fits (run_machine base program.now held) (Val.FuncRef func) ty.now }
{
    match func {
        Some(func) => function_fits(program, func, ty),
        None => ValType::nullfuncref().matches(ty),
    }
}

/// Whether a value may stand where one of the type is wanted.
fn val_fits(program: &Program, val: Val, ty: &ValType) -> bool
    ensures { (base : Machine) (held : HeldParts) → result ≡ val_fits (run_machine base program.now held) val ty.now }
{
    match val {
        Val::I32(_) => ValType::I32.matches(ty),
        Val::I64(_) => ValType::I64.matches(ty),
        Val::F32(_) => ValType::F32.matches(ty),
        Val::F64(_) => ValType::F64.matches(ty),
        Val::V128(_) => ValType::V128.matches(ty),
        Val::FuncRef(func) => reference_fits(program, func, ty),
        Val::ExternRef(host) => extern_type(host).matches(ty),
        Val::AnyRef(any) => any_type(any).matches(ty),
    }
}

/// Whether each operand gives a value.
fn are_given(scope: &Scope<'_>, args: &[Operand]) -> bool
    ensures { result ≡ list_all (λ arg. is_some (operand_value (scope_of scope.now) arg)) args.now }
{
    for arg in args {
        if operand_value(scope, arg).is_none() {
            return false;
        }
    }
    true
}

/// Whether what an operand gives is of the store.
fn is_owned(program: &Program, id: StoreId, scope: &Scope<'_>, arg: &Operand) -> bool
    ensures { InStores program.now id (λ m. result ≡ is_owned m (operand_value (scope_of scope.now) arg.now)) }
{
    match operand_value(scope, arg) {
        Some(val) => owns_val(program, id, val),
        None => true,
    }
}

/// Whether all that operands give is of the store.
fn are_owned(program: &Program, id: StoreId, scope: &Scope<'_>, args: &[Operand]) -> bool
    ensures { InStores program.now id (λ m.
        result ≡ list_all (λ arg. is_owned m (operand_value (scope_of scope.now) arg)) args.now) }
{
    for arg in args {
        if !is_owned(program, id, scope, arg) {
            return false;
        }
    }
    true
}

/// Whether there are as many operands as types, and each gives a value that may stand where its type is wanted.
fn are_fitting(program: &Program, scope: &Scope<'_>, args: &[Operand], types: &[ValType]) -> bool
    ensures { (base : Machine) (held : HeldParts) →
        result ≡ are_fitting (run_machine base program.now held) (scope_of scope.now) args.now types.now }
{
    let mut rest = args;
    let mut wanted = types;
    while let [arg, tail @ ..] = rest {
        let [ty, after @ ..] = wanted else {
            return false;
        };
        let Some(val) = operand_value(scope, arg) else {
            return false;
        };
        if !val_fits(program, val, ty) {
            return false;
        }
        rest = tail;
        wanted = after;
    }
    wanted.is_empty()
}

/// Whether there are as many results as are wanted, where it is said how many.
fn is_count(wanted: Option<u64>, count: usize) -> bool
    ensures { result ≡ is_count wanted count }
{
    match wanted {
        Some(wanted) => wanted == count as u64,
        None => true,
    }
}

/// The refusal of a call that is due in a store of this id with these functions, where one is.
fn unmet(
    program: &Program,
    id: StoreId,
    scope: &Scope<'_>,
    func: Func,
    args: &[Operand],
    results: Option<u64>,
) -> Option<Refusal>
    ensures { InStores program.now id (λ m.
        result ≡ refusal_of (call_on m (scope_of scope.now) func args.now results)) }
{
    if !are_given(scope, args) {
        return Some(Refusal::NoReply);
    }
    let Some(ty) = own_type(program, id, func) else {
        return Some(Refusal::WrongStore);
    };
    if !are_owned(program, id, scope, args) {
        return Some(Refusal::WrongStore);
    }
    if args.len() != ty.params().len() {
        return Some(Refusal::ArgumentCount);
    }
    if !is_count(results, ty.results().len()) {
        return Some(Refusal::ResultCount);
    }
    if !are_fitting(program, scope, args, ty.params()) {
        return Some(Refusal::TypeMismatch);
    }
    None
}

/// The refusal of a call that is due, where one is. It takes no memory.
fn due_refusal<T: HostData, K: CallHooks<T>, B: DeadlineBehaviour<T>>(
    store: &mut Store<T, K, B>,
    scope: &Scope<'_>,
    func: Func,
    args: &[Operand],
    results: Option<u64>,
) -> Option<Refusal>
    ensures due { result ≡ refusal_of (call_on store.old.machine (scope_of scope.now) func args.now results) }
    ensures same { store.new ≡ store.old }
{
    let parts = take_objects(store).into_parts();
    let why = unmet(parts.program.get(), parts.id, scope, func, args, results);
    put_objects(store, Objects::from_parts(parts));
    why
}

/// What a call comes to where there is no memory for a list of its arguments: the refusal that is due is told, and where
/// none is, it is want of memory.
pub(crate) fn unlisted<T: HostData, K: CallHooks<T>, B: DeadlineBehaviour<T>>(
    store: &mut Store<T, K, B>,
    scope: &Scope<'_>,
    func: Func,
    args: &[Operand],
    results: Option<u64>,
) -> Result<Reply, OutOfMemory>
    ensures refused { IfOk result (λ reply. (why : Cause) × (reply ≡ Refused why)
        × (call_on store.old.machine (scope_of scope.now) func args.now results ≡ Refuse why)) }
    ensures met { OnErr result
        (refusal_of (call_on store.old.machine (scope_of scope.now) func args.now results) ≡ None) }
    ensures same { store.new ≡ store.old }
{
    match due_refusal(store, scope, func, args, results) {
        Some(why) => Ok(Reply::Refused(why)),
        None => Err(OutOfMemory),
    }
}
