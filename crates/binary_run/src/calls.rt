//! The call that an input spells, where the words were read.
ghost use Rattle.std.specs.Prelude.{◌≡◌, ◌^◌, ◌<◌, length, None, Ok, Err, IfOk, IfErr, IfSome, OnOk};
ghost use Rattle.wasm_syntax.specs.FirstBroken.{first_broken};
ghost use Rattle.binary_run.specs.Calls as forms;
ghost use Rattle.binary_run.specs.Calls.{call_of, call_of_function, call_within, IsDue, IsFault};
ghost use Rattle.binary_run.specs.Exports.{exported_function as exported};
ghost use Rattle.binary_run.specs.Words.{asked_of};

use crate::arguments::arguments;
use crate::exports::exported_function;
use crate::status::{BytesPart, Status};
use crate::taking::taking_bytes;
use crate::words::CallWords;
use module_typing::Spaces;
use spec_machine::Operand;
use std::alloc::Global;
use wasm_binary::read_module;
use wasm_module::{Module, ModuleFault};
use wasm_syntax::ModuleDecl;
use wasm_types::{ByteList, EngineId, FuncType, ValType};

/// The engine of the module.
const ENGINE: EngineId = EngineId(1);

/// The number of the module.
const NUMBER: u64 = 0;

/// A module, the arguments of the call of one of its exports, and the bytes that the call is given, where it is given some.
#[derive(Drop)]
pub struct ReadCall {
    /// The module that was read: valid, of the engine 1, and with the number 0.
    pub guest: Module,
    /// One for each parameter but those that bytes take.
    pub arguments: Vec<Operand>,
    /// Fewer than 2^32.
    pub bytes: Option<ByteList>,
}

/// The types of the parameters that the words of the arguments are for, or what of the module takes no bytes.
fn word_types<'a>(
    guest: &Module,
    spaces: &Spaces<'a>,
    bytes: &Option<ByteList>,
    ty: &'a FuncType,
) -> Result<&'a [ValType], BytesPart>
    requires { spaces.now.decl.now ≡ guest.now }
    ensures types { IfOk result (λ types. forms.word_types guest.now bytes.now ty.now ≡ Ok types.now) }
    ensures none { IfErr result (λ part. forms.word_types guest.now bytes.now ty.now ≡ Err part) }
{
    match bytes {
        None => Ok(ty.params()),
        Some(_) => taking_bytes(guest, spaces, ty),
    }
}

/// The arguments of the call that is asked for, which is given these bytes, or none.
fn read_arguments(
    alloc: Global,
    guest: &Module,
    words: CallWords<'_>,
    bytes: &Option<ByteList>,
) -> Result<Vec<Operand>, Status>
    ensures found { IfOk result (λ operands. call_of_function (asked_of words.entry) guest.now bytes.now
        (exported guest.now words.entry.name.now)
        ≡ Ok (call_of (asked_of words.entry) guest.now bytes.now operands.items)) }
    ensures fault { IfErr result (λ status. IsDue (call_of_function (asked_of words.entry) guest.now bytes.now
        (exported guest.now words.entry.name.now)) status) }
{
    let Ok(spaces) = Spaces::new(alloc, guest.decl()) else {
        return Err(Status::OutOfMemory);
    };
    let Some(ty) = exported_function(guest, &spaces, words.name) else {
        return Err(Status::NoFunction);
    };
    let types = match word_types(guest, &spaces, bytes, ty) {
        Ok(types) => types,
        Err(part) => return Err(Status::TakesNoBytes(part)),
    };
    match arguments(alloc, types, words.arguments) {
        Ok(Some(operands)) => Ok(operands),
        Ok(None) => Err(Status::BadArguments),
        Err(_) => Err(Status::OutOfMemory),
    }
}

/// The module of a declaration.
fn validated(alloc: Global, decl: ModuleDecl) -> Result<Module, Status>
    ensures made { IfOk result (λ made. made ≡ decl) }
    ensures valid { OnOk result (first_broken decl ≡ None) }
    ensures fault { IfErr result (λ status. IsFault (first_broken decl) status) }
{
    match Module::validate(alloc, decl) {
        Ok(module) => Ok(module),
        Err(ModuleFault::InvalidModule { rule, place }) => {
            Err(Status::InvalidModule { rule, place })
        }
        Err(ModuleFault::OutOfMemory) => Err(Status::OutOfMemory),
    }
}

/// What stands in an input behind the bytes that the call is given.
fn behind_bytes(count: Option<u32>, input: &[u8]) -> &[u8]
    ensures { result.now ≡ forms.behind_bytes count input.now }
{
    match count {
        Some(count) if (count as usize) < input.len() => &input[count as usize..],
        Some(_) => &[],
        None => input,
    }
}

/// The bytes of an input that the call is given.
fn given_bytes(count: Option<u32>, input: Vec<u8>) -> Option<ByteList>
    ensures given { result ≡ forms.given_bytes count input.items }
    ensures counted { IfSome result (λ bytes. length bytes < 2 ^ 32) }
{
    let mut bytes = input;
    bytes.truncate(count? as usize);
    Some(ByteList(bytes))
}

/// The call that an input spells.
pub(crate) fn read_call(
    alloc: Global,
    words: CallWords<'_>,
    input: Vec<u8>,
) -> Result<ReadCall, Status>
    ensures found { IfOk result (λ read. call_within (asked_of words.entry) input.items
        ≡ Ok (call_of (asked_of words.entry) read.guest read.bytes read.arguments.items)) }
    ensures fault { IfErr result (λ status. IsDue (call_within (asked_of words.entry) input.items) status) }
    ensures counted { IfOk result (λ read. IfSome read.bytes (λ bytes. length bytes < 2 ^ 32)) }
{
    let count = words.options.bytes;
    let decl = match read_module(alloc, ENGINE, NUMBER, behind_bytes(count, input.as_slice())) {
        Ok(decl) => decl,
        Err(fault) => return Err(Status::from(fault)),
    };
    let bytes = given_bytes(count, input);
    let guest = validated(alloc, decl)?;
    let arguments = read_arguments(alloc, &guest, words, &bytes)?;
    Ok(ReadCall {
        guest,
        arguments,
        bytes,
    })
}
