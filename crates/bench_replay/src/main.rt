//! Does so many calls of a guest's function, of 10,000 rounds each, and prints the reply of the last one. It is timed from
//! outside, by bench/replays.py. The words are how the calls are run, `plain` or `recorded`; what a round does, `code` that
//! computes or `steps` of the host; and how many calls there are.
#![tactic(auto)]

use script_lines::append_line;
use spec_machine::Command;
use std::alloc::Global as Heap;
use std::{env, io};
use wasm_embedding::{
    Answer, Caller, CountEpochs, ENGINE, Event, Fault, FuncType, HostBody, HostData, Module, Name,
    NameList, Op, Operand, OperandList, OutOfMemory, Reply, StoreIds, TextName, Val, ValList,
    ValType, module_from_json, plain_store,
};
use wasm_replay::{Recorded, TapedHost, record_commands};
use wasm_session::{Replies, run_commands};

/// Each of its functions gives a sum over so many rounds: `code` of products, `steps` of what the host gives.
const GUEST: &str = r#"{
  "types": [{"results": ["i32"]}, {"params": ["i32"], "results": ["i32"]}, {}],
  "module": {
    "imports": [{"module": "host", "name": "next", "func": 0}],
    "functions": [
      {"type": 1, "locals": ["i32"], "code": [["loop", 2, [
        ["local.get", 1], ["local.get", 0], ["local.get", 0], ["i32.mul"], ["i32.add"], ["local.set", 1],
        ["local.get", 0], ["i32.const", 1], ["i32.sub"], ["local.tee", 0], ["br_if", 0]
      ]], ["local.get", 1]]},
      {"type": 1, "locals": ["i32"], "code": [["loop", 2, [
        ["local.get", 1], ["call", 0], ["i32.add"], ["local.set", 1],
        ["local.get", 0], ["i32.const", 1], ["i32.sub"], ["local.tee", 0], ["br_if", 0]
      ]], ["local.get", 1]]}
    ],
    "exports": [{"name": "code", "func": 1}, {"name": "steps", "func": 2}]
  }
}"#;

/// The rounds of a call: its turns are below the limit of the plain engine.
const ROUNDS: i32 = 10_000;

/// No limiter is asked, and no epoch is read.
const ROOM: usize = 1;

/// How many bodies the host has.
const BODIES: usize = 1;

/// The host: its body gives one number after another.
#[derive(Drop)]
struct Counter {
    next: i32,
}

impl<T: HostData> HostBody<T> for Counter {
    ghost use Rattle.std.specs.Prelude.{nat_lt};
    ghost use Rattle.wasm_host.specs.Hosts.{Harmless, harmless_keep, harmless_on};

    ghost ready = { λ _. Unit {0} };

    ghost has = { λ h body. nat_lt body 1 };

    ghost steps = { λ h s body state cause view after say k t. Harmless s say t };

    ghost host_faults = { λ _. 0 };

    ghost steps_keep = { λ h k s t body state after cause view say i.
        harmless_keep T.denials T.limiter_faults T.hook_faults T.behaviour_faults s t say i };

    ghost steps_fail = { λ h k s t body state after cause view i. harmless_on s t i };

    fn has(&self, body: usize) -> bool {
        body < BODIES
    }

    /// The next number.
    fn step(
        &mut self,
        alloc: Heap,
        _body: usize,
        _caller: &mut Caller<'_, T>,
        _state: &mut u64,
        _event: Event,
    ) -> Result<Answer, OutOfMemory> {
        let number = self.next;
        self.next = self.next.wrapping_add(1);
        Ok(Answer::Return(ValList(vec![in alloc; Val::I32(number)]?)))
    }
}

impl<T: HostData> TapedHost<T> for Counter {
    ghost use Rattle.std.proofs.Common.{ap};

    ghost keeps_record = { λ h k s t body state after cause view say g.
        (ap (λ x. x.kept) g.data_is, ap (λ x. x.past) g.data_is) };
}

/// Makes the function of the host, its instance and the function of this name.
fn push_first(alloc: Heap, commands: &mut Vec<Command>, name: &str) -> Result<(), Fault> {
    let ty = FuncType::try_new(alloc, ENGINE, &[], &[ValType::I32])?;
    let stored = NameList(Vec::new(alloc));
    commands.push(Command::FuncNew {
        ty,
        body: 0,
        stored,
    })?;
    let imports = NameList(vec![in alloc; Name::Reply(0)]?);
    commands.push(Command::Instantiate { module: 0, imports })?;
    let name = TextName(String::from_str(alloc, name)?);
    let instance = Name::Reply(1);
    commands.push(Command::Op(Op::GetExport { instance, name }))?;
    Ok(())
}

/// The commands of a session of so many calls.
fn commands_of(alloc: Heap, name: &str, calls: u32) -> Result<Vec<Command>, Fault> {
    let mut commands = Vec::new(alloc);
    push_first(alloc, &mut commands, name)?;
    for _ in 0..calls {
        let args = OperandList(vec![in alloc; Operand::Val(Val::I32(ROUNDS))]?);
        commands.push(Command::Op(Op::Call {
            func: Name::Reply(2),
            args,
            results: None,
        }))?;
    }
    Ok(commands)
}

fn run_plain(alloc: Heap, modules: &[Module], commands: &[Command]) -> Result<Replies, Fault> {
    let mut store = plain_store(alloc, &mut StoreIds::new(), ());
    let mut replies = Replies::new(alloc);
    let ended = run_commands(
        &mut store,
        modules,
        &mut Counter { next: 0 },
        &mut CountEpochs::new(),
        commands,
        &mut replies,
    );
    store.into_data();
    match ended {
        Ok(()) => Ok(replies),
        Err(_) => Err(Fault::OutOfMemory),
    }
}

fn run_recorded(alloc: Heap, modules: &[Module], commands: &[Command]) -> Result<Replies, Fault> {
    let host_data = Recorded::new(alloc, (), ROOM)?;
    let mut store = plain_store(alloc, &mut StoreIds::new(), host_data);
    let mut replies = Replies::new(alloc);
    let taped = record_commands(
        alloc,
        &mut store,
        modules,
        &mut Counter { next: 0 },
        BODIES,
        &mut CountEpochs::new(),
        ROOM,
        commands,
        &mut replies,
    );
    store.into_data();
    match taped {
        Ok(_) => Ok(replies),
        Err(_) => Err(Fault::OutOfMemory),
    }
}

/// The line of the last reply.
fn last_line(alloc: Heap, replies: &[Reply]) -> Result<String, Fault> {
    let mut line = String::new(alloc);
    if let Some(reply) = replies.last() {
        append_line(alloc, &mut line, reply)?;
    }
    Ok(line)
}

fn work(alloc: Heap, way: &str, name: &str, calls: u32) -> Result<String, Fault> {
    let modules = vec![in alloc; module_from_json(alloc, 0, GUEST)?]?;
    let commands = commands_of(alloc, name, calls)?;
    let replies = match way {
        "recorded" => run_recorded(alloc, modules.as_slice(), commands.as_slice())?,
        _ => run_plain(alloc, modules.as_slice(), commands.as_slice())?,
    };
    last_line(alloc, replies.as_slice())
}

/// The word at a place of the command line, or an empty one.
fn word_at(words: &[String], place: usize) -> &str {
    match words.get(place) {
        Some(word) => word.as_str(),
        None => "",
    }
}

fn main(rt: HostRuntime) -> io::Result<()> {
    let words: Vec<String> = env::args(&rt)?.collect(rt.alloc())?;
    let words = words.as_slice();
    let calls = word_at(words, 3).parse::<u32>().unwrap_or(0);
    match work(rt.alloc(), word_at(words, 1), word_at(words, 2), calls) {
        Ok(line) => print!(rt; "{line}"),
        Err(fault) => println!(rt; "{fault}"),
    }
}
