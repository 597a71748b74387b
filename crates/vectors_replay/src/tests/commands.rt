//! The commands of these tests.
use crate::tests::MEMORY;
use spec_machine::{Command, Name, NameList, Op, OperandList, TextName};
use std::alloc::Global as Heap;
use std::process::Abort;
use wasm_embedding::ENGINE;
use wasm_types::{FuncType, MemoryType, ValType};

fn text(rt: &impl Abort, alloc: Heap, name: &str) -> TextName {
    TextName(String::from_str(alloc, name).expect(rt, MEMORY))
}

/// The replies at these places, by name.
pub fn names(rt: &impl Abort, alloc: Heap, places: &[usize]) -> NameList {
    let mut list = Vec::new(alloc);
    for place in places {
        list.push(Name::Reply(*place)).expect(rt, MEMORY);
    }
    NameList(list)
}

/// A function of the host that takes a number, of this body.
fn func_new(rt: &impl Abort, alloc: Heap, body: usize) -> Command {
    let ty = FuncType::try_new(alloc, ENGINE, &[ValType::I32], &[]).expect(rt, "a type");
    Command::FuncNew {
        ty,
        body,
        stored: names(rt, alloc, &[]),
    }
}

/// The commands of the first session with a host: its function, an instance over it, its export, and a call.
pub fn hello(rt: &impl Abort, alloc: Heap, body: usize) -> Vec<Command> {
    let mut commands = Vec::new(alloc);
    commands.push(func_new(rt, alloc, body)).expect(rt, MEMORY);
    let imports = names(rt, alloc, &[0]);
    commands
        .push(Command::Instantiate { module: 0, imports })
        .expect(rt, MEMORY);
    let name = text(rt, alloc, "hello");
    let instance = Name::Reply(1);
    commands
        .push(Command::Op(Op::GetExport { instance, name }))
        .expect(rt, MEMORY);
    commands.push(call(alloc, 2)).expect(rt, MEMORY);
    commands
}

/// A call of the function in a reply.
pub fn call(alloc: Heap, place: usize) -> Command {
    Command::Op(Op::Call {
        func: Name::Reply(place),
        args: OperandList(Vec::new(alloc)),
        results: None,
    })
}

/// A memory of one page.
pub fn memory_new(rt: &impl Abort) -> Command {
    let ty = MemoryType::new(1, None, 16).expect(rt, "a type of memories");
    Command::Op(Op::MemoryNew { ty })
}
