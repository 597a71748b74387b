//! The commands of a call that is given bytes, and what stands in the replies to them.
ghost use Rattle.std.specs.Prelude.{◌≡◌, ◌^◌, ◌<◌, IfOk, length};
ghost use Rattle.binary_run.specs.Bytes as forms;

use crate::taking::{ALLOC, MEMORY};
use spec_machine::{Command, Name, NameList, Op, Operand, OperandList, Reply, TextName};
use std::alloc::Global;
use wasm_types::{ByteList, OutOfMemory};
use wasm_values::Val;

/// The places of the replies that a call with bytes names.
const MEMORY_REPLY: usize = 1;

const ALLOC_REPLY: usize = 2;

const FUNCTION_REPLY: usize = 3;

const POINTER_REPLY: usize = 4;

const ANSWER_REPLY: usize = 6;

/// Where bytes begin in a memory, and how many there are.
#[derive(Clone, Copy)]
pub(crate) struct Region {
    pub(crate) at: u64,
    pub(crate) len: u64,
}

/// The export of the instance under a name.
fn get_export(alloc: Global, name: &str) -> Result<Command, OutOfMemory>
    ensures { IfOk result (λ made. made ≡ forms.get_export name.now) }
{
    Ok(Command::Op(Op::GetExport {
        instance: Name::Reply(0),
        name: TextName(String::from_str(alloc, name)?),
    }))
}

/// The call of what a reply has.
fn call(place: usize, arguments: Vec<Operand>) -> Command
    ensures { result ≡ forms.call place arguments.items }
{
    Command::Op(Op::Call {
        func: Name::Reply(place),
        args: OperandList(arguments),
        results: None,
    })
}

/// A number of bytes as an argument.
fn count_operand(count: u32) -> Operand
    ensures { result ≡ forms.count_operand count }
{
    Operand::Val(Val::I32(count.cast_signed()))
}

/// An instance, its memory, its `alloc` and its export of the name, and the call of `alloc` for so many bytes.
pub(crate) fn first_part(alloc: Global, name: &str, count: u32) -> Result<Vec<Command>, OutOfMemory>
    ensures { IfOk result (λ made. made.items ≡ forms.first_part name.now count) }
{
    let mut arguments = Vec::with_capacity(alloc, 1)?;
    arguments.push(count_operand(count))?;
    let mut made = Vec::with_capacity(alloc, 5)?;
    made.push(Command::Instantiate {
        module: 0,
        imports: NameList(Vec::new(alloc)),
    })?;
    made.push(get_export(alloc, MEMORY)?)?;
    made.push(get_export(alloc, ALLOC)?)?;
    made.push(get_export(alloc, name)?)?;
    made.push(call(ALLOC_REPLY, arguments))?;
    Ok(made)
}

/// The bytes are written, and the function is called with pointer and length behind its arguments.
pub(crate) fn second_part(
    alloc: Global,
    at: u32,
    bytes: ByteList,
    arguments: Vec<Operand>,
) -> Result<Vec<Command>, OutOfMemory>
    requires { length bytes < 2 ^ 32 }
    ensures { IfOk result (λ made. made.items ≡ forms.second_part at bytes arguments.items) }
{
    let count = bytes.len() as u32;
    let mut arguments = arguments;
    arguments.push(Operand::Named(Name::Value(POINTER_REPLY, 0)))?;
    arguments.push(count_operand(count))?;
    let mut made = Vec::with_capacity(alloc, 2)?;
    made.push(Command::Op(Op::MemoryWrite {
        memory: Name::Reply(MEMORY_REPLY),
        at: at as u64,
        bytes,
    }))?;
    made.push(call(FUNCTION_REPLY, arguments))?;
    Ok(made)
}

/// The bytes of the answer are read.
pub(crate) fn third_part(alloc: Global, region: Region) -> Result<Vec<Command>, OutOfMemory>
    ensures { IfOk result (λ made. made.items ≡ forms.third_part region) }
{
    let mut made = Vec::with_capacity(alloc, 1)?;
    made.push(Command::Op(Op::MemoryRead {
        memory: Name::Reply(MEMORY_REPLY),
        at: region.at,
        len: region.len,
    }))?;
    Ok(made)
}

/// The first value of the reply at a place.
fn value_at(replies: &[Reply], place: usize) -> Option<Val>
    ensures { result ≡ forms.value_at replies.now place }
{
    match replies.get(place)? {
        Reply::Values(values) => values.as_slice().first().copied(),
        _ => None,
    }
}

fn pointer_of(value: Option<Val>) -> u32
    ensures { result ≡ forms.pointer_of value }
{
    match value {
        Some(Val::I32(pointer)) => pointer.cast_unsigned(),
        _ => 0,
    }
}

/// The halves of a number of 64 bits: where bytes begin, and how many there are.
fn halves(answer: i64) -> Region
    ensures { result ≡ forms.halves answer }
{
    let both = answer.cast_unsigned();
    Region {
        at: both / 4_294_967_296,
        len: both % 4_294_967_296,
    }
}

fn region_of(at: u32, value: Option<Val>) -> Region
    ensures { result ≡ forms.region_of at value }
{
    match value {
        Some(Val::I32(len)) => Region {
            at: at as u64,
            len: len.cast_unsigned() as u64,
        },
        Some(Val::I64(both)) => halves(both),
        _ => Region { at: 0, len: 0 },
    }
}

/// The pointer that `alloc` answered, and 0 where it answered none.
pub(crate) fn pointer_in(replies: &[Reply]) -> u32
    ensures { result ≡ forms.pointer_in replies.now }
{
    pointer_of(value_at(replies, POINTER_REPLY))
}

/// Where the bytes of the answer stand, and none where the function answered none.
pub(crate) fn region_in(replies: &[Reply]) -> Region
    ensures { result ≡ forms.region_in replies.now }
{
    region_of(pointer_in(replies), value_at(replies, ANSWER_REPLY))
}
