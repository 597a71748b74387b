//! Commands in a row on a store, with ample memory: what each replies, and how many turns the last took.
use crate::tests::modules::{TWICE, module_in};
use crate::tests::{Meter, calls, check_same, new_store, no_epochs};
use spec_machine::{Command, Name, NameList, Op, Operand, OperandList, Reply, TextName, ValList};
use std::alloc::Global as Heap;
use std::process::Abort;
use wasm_session::Replies;
use wasm_types::MemoryType;
use wasm_values::{Extern, Refusal, Val};

/// What a test lacks where it can't be done.
const MEMORY: &str = "memory for the test";

/// A command as rows write it.
#[derive(Clone, Copy)]
enum Given {
    /// An instance of the module.
    Instance,
    /// What the instance in the reply 0 exports under this name.
    Export(&'static str),
    /// A call of the function in the reply 1.
    Call(i32),
    /// A memory of one page.
    Memory,
    /// The pages of the memory in the reply 4.
    Size,
}

/// A reply as rows write it.
#[derive(Clone, Copy, Debug, PartialEq)]
enum Came {
    Instance(usize),
    Func(usize),
    Memory(usize),
    Number(u64),
    /// How many values, and the first and the last of them.
    Values(usize, Option<i32>, Option<i32>),
    Refused(Refusal),
    Other,
}

/// Each command with its reply.
const ROWS: [(Given, Came); 6] = [
    (Given::Instance, Came::Instance(0)),
    (Given::Export("f"), Came::Func(0)),
    (Given::Call(-5), Came::Values(2, Some(-5), Some(-5))),
    (Given::Export("g"), Came::Refused(Refusal::NoExport)),
    (Given::Memory, Came::Memory(0)),
    (Given::Size, Came::Number(1)),
];

fn name_of(rt: &impl Abort, alloc: Heap, name: &str) -> TextName {
    TextName(String::from_str(alloc, name).expect(rt, MEMORY))
}

fn operands(rt: &impl Abort, alloc: Heap, number: i32) -> OperandList {
    OperandList(Vec::from_slice(alloc, &[Operand::Val(Val::I32(number))]).expect(rt, MEMORY))
}

fn command_of(rt: &impl Abort, alloc: Heap, given: Given) -> Command {
    match given {
        Given::Instance => Command::Instantiate {
            module: 0,
            imports: NameList(Vec::new(alloc)),
        },
        _ => Command::Op(op_of(rt, alloc, given)),
    }
}

fn memory_type(rt: &impl Abort) -> MemoryType {
    MemoryType::new(1, None, 16).expect(rt, "a type of memories")
}

/// The operation; a command that is none is a look at the memory.
fn op_of(rt: &impl Abort, alloc: Heap, given: Given) -> Op {
    match given {
        Given::Export(name) => Op::GetExport {
            instance: Name::Reply(0),
            name: name_of(rt, alloc, name),
        },
        Given::Call(number) => Op::Call {
            func: Name::Reply(1),
            args: operands(rt, alloc, number),
            results: Some(2),
        },
        Given::Memory => Op::MemoryNew {
            ty: memory_type(rt),
        },
        Given::Size | Given::Instance => Op::MemorySize {
            memory: Name::Reply(4),
        },
    }
}

fn integer_of(value: Option<&Val>) -> Option<i32> {
    match value {
        Some(value) => value.i32(),
        None => None,
    }
}

fn values_of(values: &ValList) -> Came {
    let list = values.as_slice();
    Came::Values(
        list.len(),
        integer_of(list.first()),
        integer_of(list.last()),
    )
}

fn came_of(reply: &Reply) -> Came {
    match reply {
        Reply::Instance(instance) => Came::Instance(instance.index()),
        Reply::Object(Extern::Func(func)) => Came::Func(func.index()),
        Reply::Object(Extern::Memory(memory)) => Came::Memory(memory.index()),
        Reply::Number(number) => Came::Number(*number),
        Reply::Values(values) => values_of(values),
        Reply::Refused(why) => Came::Refused(*why),
        _ => Came::Other,
    }
}

/// The reply at this place.
fn reply_at(rt: &impl Abort, replies: &Replies, place: usize) -> Came {
    came_of(replies.get(place).expect(rt, "a reply"))
}

/// All rows.
fn all_commands(rt: &impl Abort, alloc: Heap) -> Vec<Command> {
    let mut commands = Vec::new(alloc);
    for (given, _) in &ROWS {
        commands
            .push(command_of(rt, alloc, *given))
            .expect(rt, MEMORY);
    }
    commands
}

/// There is a reply for each row.
fn check_replies(rt: &impl Abort, replies: &Replies) {
    check_same(rt, replies.len(), ROWS.len());
    for (place, (_, came)) in ROWS.iter().enumerate() {
        check_same(rt, reply_at(rt, replies, place), *came);
    }
}

#[test]
fn commands_in_a_row_have_their_replies(rt: HostRuntime) {
    let alloc = rt.alloc();
    let store = new_store(&rt, alloc, Meter::Nothing);
    let module = module_in(&rt, alloc, TWICE);
    let commands = all_commands(&rt, alloc);
    let mut replies = Replies::new(alloc);
    let mut epochs = no_epochs(&rt, alloc);
    let ran = calls::commands(
        &rt,
        store,
        &mut epochs,
        &module,
        commands.as_slice(),
        &mut replies,
    );
    check_same(&rt, ran, Ok(()));
    check_replies(&rt, &replies);
    check_same(&rt, store.turns(), 1);
}
