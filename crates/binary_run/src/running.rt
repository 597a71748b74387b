//! The commands of a call, run on a new store.
ghost use Rattle.std.specs.Prelude.{◌≡◌, ◌||◌, ◌+◌, ◌^◌, ◌<◌, true, nat_eq, length, is_some, Some, None, IfOk, IfSome, OnOk};
ghost use Rattle.std.specs.Option.{option_copied};
ghost use Rattle.spec_machine.specs.Machine.{are_engine_limits};
ghost use Rattle.store_state.specs.Engines.{engine_parts};
ghost use Rattle.wasm_call.specs.Outside.{surrounded};
ghost use Rattle.wasm_session.specs.Sessions.{Runs};
ghost use Rattle.binary_run.specs.Calls.{call_parts};
ghost use Rattle.binary_run.specs.Starts as starts;
ghost use Rattle.binary_run.specs.Starts.{command_count, engine_for, fuelled, pool_for, start, RunsBy};
ghost use Rattle.binary_run.specs.Statuses as statuses;
ghost use Rattle.binary_run.specs.Statuses.{no_host, relations, HasRun};
ghost use Rattle.binary_run.specs.Words.{frames};

use crate::calls::ReadCall;
use crate::options::Options;
use crate::parts::{first_part, pointer_in, region_in, second_part, third_part};
use spec_machine::{Command, Name, NameList, Op, Operand, OperandList, Reply, TextName};
use std::alloc::Global;
use wasm_host::NoHost;
use wasm_meter::EpochSource;
use wasm_module::Module;
use wasm_pool::Pooled;
use wasm_session::{Replies, run_commands};
use wasm_store::{Engine, Store};
use wasm_types::{ByteList, EngineId, OutOfMemory};
use wasm_values::StoreIds;

/// The number of the engine.
const ENGINE: u64 = 1;

/// How many functions may be open at once.
const FRAMES: u32 = 1_024;

/// How many bytes a page has.
const PAGE: usize = 65_536;

fn new_engine(options: Options) -> Engine
    requires { are_engine_limits frames options.turns ≡ true }
    ensures { engine_parts result ≡ engine_for options }
{
    let fuelled = options.fuel.is_some();
    match Engine::new(EngineId(ENGINE), fuelled, false, FRAMES, options.turns) {
        Some(engine) => engine,
        None => unreachable!(),
    }
}

/// Fills the fuel of a store, where there is some.
fn fill(store: &mut Store<Pooled<()>>, fuel: Option<u64>)
    requires { store.old.machine.engine.consumes_fuel ≡ is_some fuel }
    ensures { store.new ≡ record store.old { machine = fuelled fuel store.old.machine } }
{
    if let Some(fuel) = fuel {
        match store.set_fuel(fuel) {
            Ok(()) => {}
            Err(_) => unreachable!(),
        }
    }
}

/// What all memories together and all tables together may have.
fn new_pool(options: Options) -> Pooled<()>
    ensures { result ≡ pool_for options }
{
    Pooled {
        own: (),
        bytes_left: options.pages as usize * PAGE,
        elements_left: options.elements as usize,
        denials: 0,
    }
}

/// The store of a call before its first command.
fn new_store(alloc: Global, options: Options) -> Store<Pooled<()>>
    requires { are_engine_limits frames options.turns ≡ true }
    ensures { result ≡ start options }
{
    let mut ids = StoreIds::new();
    let pool = new_pool(options);
    let mut store = match Store::try_new(alloc, &mut ids, new_engine(options), pool) {
        Ok(store) => store,
        Err(_) => unreachable!(),
    };
    store.limiter();
    fill(&mut store, options.fuel);
    store
}

/// The commands of a call: an instance of the module, its export of the name, and the call of that.
fn commands(alloc: Global, name: &str, arguments: Vec<Operand>) -> Result<Vec<Command>, OutOfMemory>
    ensures { IfOk result (λ made. made.items ≡ starts.commands_of name.now arguments.items) }
{
    let name = TextName(String::from_str(alloc, name)?);
    let mut made = Vec::with_capacity(alloc, 3)?;
    made.push(Command::Instantiate {
        module: 0,
        imports: NameList(Vec::new(alloc)),
    })?;
    made.push(Command::Op(Op::GetExport {
        instance: Name::Reply(0),
        name,
    }))?;
    made.push(Command::Op(Op::Call {
        func: Name::Reply(1),
        args: OperandList(arguments),
        results: None,
    }))?;
    Ok(made)
}

/// Runs commands on a store, behind those that have these replies.
fn run_more<E: EpochSource>(
    store: &mut Store<Pooled<()>>,
    modules: &[Module],
    epochs: &mut E,
    commands: Vec<Command>,
    replies: &mut Replies,
) -> Result<(), OutOfMemory>
    ensures ran { OnOk result (Runs (relations E.readings) modules.now commands.items
        (surrounded store.old no_host epochs.old) replies.old
        (surrounded store.new no_host epochs.new) replies.new) }
    ensures answered { OnOk result (length replies.new ≡ length replies.old + length commands.items) }
{
    let mut host = NoHost;
    let ended = run_commands(
        store,
        modules,
        &mut host,
        epochs,
        commands.as_slice(),
        replies,
    );
    match ended {
        Ok(()) => Ok(()),
        Err(_) => Err(OutOfMemory),
    }
}

/// Runs a call that is given no bytes.
fn run_alone<E: EpochSource>(
    alloc: Global,
    store: &mut Store<Pooled<()>>,
    modules: &[Module],
    epochs: &mut E,
    name: &str,
    arguments: Vec<Operand>,
) -> Result<Replies, OutOfMemory>
    ensures ran { IfOk result (λ replies. RunsBy (relations E.readings) modules.now name.now arguments.items None
        (surrounded store.old no_host epochs.old) (surrounded store.new no_host epochs.new) replies) }
    ensures answered { IfOk result (λ replies. length replies ≡ command_count None) }
{
    let mut replies = Replies::new(alloc);
    let commands = commands(alloc, name, arguments)?;
    run_more(store, modules, epochs, commands, &mut replies)?;
    Ok(replies)
}

/// Runs a call that is given bytes, part by part.
fn run_with_bytes<E: EpochSource>(
    alloc: Global,
    store: &mut Store<Pooled<()>>,
    modules: &[Module],
    epochs: &mut E,
    name: &str,
    arguments: Vec<Operand>,
    bytes: ByteList,
) -> Result<Replies, OutOfMemory>
    requires { length bytes < 2 ^ 32 }
    ensures ran { IfOk result (λ replies. RunsBy (relations E.readings) modules.now name.now arguments.items (Some bytes)
        (surrounded store.old no_host epochs.old) (surrounded store.new no_host epochs.new) replies) }
    ensures answered { IfOk result (λ replies. length replies ≡ command_count (Some bytes)) }
{
    let mut replies = Replies::new(alloc);
    let makes_room = first_part(alloc, name, bytes.len() as u32)?;
    run_more(store, modules, epochs, makes_room, &mut replies)?;
    let calls = second_part(alloc, pointer_in(replies.as_slice()), bytes, arguments)?;
    run_more(store, modules, epochs, calls, &mut replies)?;
    let reads = third_part(alloc, region_in(replies.as_slice()))?;
    run_more(store, modules, epochs, reads, &mut replies)?;
    Ok(replies)
}

/// Runs a call on a store, over its module.
fn run_on<E: EpochSource>(
    alloc: Global,
    store: &mut Store<Pooled<()>>,
    modules: &[Module],
    epochs: &mut E,
    name: &str,
    arguments: Vec<Operand>,
    bytes: Option<ByteList>,
) -> Result<Replies, OutOfMemory>
    requires { IfSome bytes (λ given. length given < 2 ^ 32) }
    ensures ran { IfOk result (λ replies. RunsBy (relations E.readings) modules.now name.now arguments.items bytes
        (surrounded store.old no_host epochs.old) (surrounded store.new no_host epochs.new) replies) }
    ensures answered { IfOk result (λ replies. length replies ≡ command_count bytes) }
{
    match bytes {
        None => run_alone(alloc, store, modules, epochs, name, arguments),
        Some(bytes) => run_with_bytes(alloc, store, modules, epochs, name, arguments, bytes),
    }
}

/// Runs a call on a new store, whose engine has these turns, from 1 to 1,000,000,000: the replies to its commands, of which
/// there are three, and eight where the call is given bytes. The arguments are whatever the machine is to be given.
///
/// `OutOfMemory` alone where there is no reply to each.
pub fn run_call<E: EpochSource>(
    alloc: Global,
    options: Options,
    name: &str,
    call: ReadCall,
    epochs: &mut E,
) -> Result<Replies, OutOfMemory>
    requires limits { are_engine_limits frames options.turns ≡ true }
    requires counted { IfSome call.bytes (λ given. length given < 2 ^ 32) }
    ensures { IfOk result (λ replies. HasRun E.readings epochs.old epochs.new
        (call_parts options call.guest name.now call.arguments.items call.bytes) replies) }
{
    let modules = [call.guest];
    let mut store = new_store(alloc, options);
    let ended = run_on(
        alloc,
        &mut store,
        modules.as_slice(),
        epochs,
        name,
        call.arguments,
        call.bytes,
    );
    store.into_data();
    ended
}

fn is_refused(reply: &Reply) -> bool
    ensures { result ≡ statuses.is_refused reply.now }
{
    matches!(reply, Reply::Refused(_))
}

/// Whether a reply is the one that is told, where none before it is: it is a refusal, or the last one.
fn is_told(reply: &Reply, others: &[Reply]) -> bool
    ensures { result ≡ (nat_eq (length others.now) 0 || statuses.is_refused reply.now) }
{
    others.is_empty() || is_refused(reply)
}

/// The first reply that is a refusal, and where there is none the last one; `None` exactly where there is no reply.
pub fn verdict(replies: &[Reply]) -> Option<&Reply>
    ensures { option_copied result ≡ statuses.verdict replies.now }
{
    let mut rest = replies;
    'replies: while let [reply, others @ ..] = rest {
        if is_told(reply, others) {
            return Some(reply);
        }
        rest = others;
    }
    None
}
