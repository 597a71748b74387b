ghost use Rattle.std.specs.Prelude.{◌≡◌, IfOk, map, slice_get, option_and_then, option_map};
ghost use Rattle.std.specs.Option.{option_copied};
ghost use Rattle.spec_machine.specs.Names as names;
ghost use Rattle.wasm_host.specs.Scopes.{scope_of};

use spec_machine::{Name, Operand, Reply};
use wasm_values::{Extern, Func, Global, Instance, Memory, Table, Val};

/// Where names are looked up: the replies so far, and in a function of the host its arguments, the objects that were
/// stored with it, and the instance whose code called it.
#[derive(Clone, Copy)]
pub struct Scope<'a> {
    pub replies: &'a [Reply],
    pub arguments: &'a [Val],
    pub stored: &'a [Extern],
    pub caller: Option<Instance>,
}

/// The value at a place of a reply, both counted from 0.
fn reply_value(replies: &[Reply], place: usize, index: usize) -> Option<Val>
    ensures { result ≡ option_and_then (λ r. slice_get (names.reply_values r) index) (slice_get replies.now place) }
{
    match replies.get(place) {
        Some(Reply::Values(values)) => values.as_slice().get(index).copied(),
        _ => None,
    }
}

/// A function in a value, as an object.
fn val_object(val: Val) -> Option<Extern>
    ensures { result ≡ names.val_object val }
{
    match val {
        Val::FuncRef(Some(func)) => Some(Extern::Func(func)),
        _ => None,
    }
}

/// A function among objects, as a value.
fn object_value(object: Extern) -> Option<Val>
    ensures { result ≡ names.item_value (names.object object) }
{
    match object {
        Extern::Func(func) => Some(Val::FuncRef(Some(func))),
        _ => None,
    }
}

/// The object that a name stands for, of any kind.
pub fn named_object(scope: &Scope<'_>, name: Name) -> Option<Extern>
    ensures { result ≡ names.named_object (scope_of scope.now) name }
{
    match name {
        Name::Reply(place) => match scope.replies.get(place) {
            Some(Reply::Object(found)) => Some(*found),
            _ => None,
        },
        Name::Value(place, index) => match reply_value(scope.replies, place, index) {
            Some(val) => val_object(val),
            None => None,
        },
        Name::Arg(place) => match scope.arguments.get(place) {
            Some(val) => val_object(*val),
            None => None,
        },
        Name::Stored(place) => scope.stored.get(place).copied(),
        Name::Caller => None,
    }
}

/// The value that a name stands for.
pub fn named_value(scope: &Scope<'_>, name: Name) -> Option<Val>
    ensures { result ≡ option_and_then names.item_value (names.resolve (scope_of scope.now) name) }
{
    match name {
        Name::Reply(place) => match scope.replies.get(place) {
            Some(Reply::Object(found)) => object_value(*found),
            _ => None,
        },
        Name::Value(place, index) => reply_value(scope.replies, place, index),
        Name::Arg(place) => scope.arguments.get(place).copied(),
        Name::Stored(place) => match scope.stored.get(place) {
            Some(object) => object_value(*object),
            None => None,
        },
        Name::Caller => None,
    }
}

/// The function that a name stands for.
pub fn named_func(scope: &Scope<'_>, name: Name) -> Option<Func>
    ensures { result ≡ names.named_func (scope_of scope.now) name }
{
    match named_object(scope, name) {
        Some(object) => object.into_func(),
        None => None,
    }
}

/// The memory that a name stands for.
pub fn named_memory(scope: &Scope<'_>, name: Name) -> Option<Memory>
    ensures { result ≡ names.named_memory (scope_of scope.now) name }
{
    match named_object(scope, name) {
        Some(object) => object.into_memory(),
        None => None,
    }
}

/// The table that a name stands for.
pub fn named_table(scope: &Scope<'_>, name: Name) -> Option<Table>
    ensures { result ≡ names.named_table (scope_of scope.now) name }
{
    match named_object(scope, name) {
        Some(object) => object.into_table(),
        None => None,
    }
}

/// The global that a name stands for.
pub fn named_global(scope: &Scope<'_>, name: Name) -> Option<Global>
    ensures { result ≡ names.named_global (scope_of scope.now) name }
{
    match named_object(scope, name) {
        Some(object) => object.into_global(),
        None => None,
    }
}

/// The value that an operand gives.
pub fn operand_value(scope: &Scope<'_>, operand: &Operand) -> Option<Val>
    ensures { result ≡ names.operand_value (scope_of scope.now) operand.now }
{
    match operand {
        Operand::Val(val) => Some(*val),
        Operand::Named(name) => named_value(scope, *name),
    }
}

/// The instance that a name stands for.
pub fn named_instance(scope: &Scope<'_>, name: Name) -> Option<Instance>
    ensures { result ≡ names.named_instance (scope_of scope.now) name }
{
    match name {
        Name::Reply(place) => match scope.replies.get(place) {
            Some(Reply::Instance(found)) => Some(*found),
            _ => None,
        },
        Name::Caller => scope.caller,
        _ => None,
    }
}
