//! A host with a function of its own: a guest calls it with a text in the guest's memory, and the host reads the text
//! from there and keeps it.
#![tactic(auto)]

use std::alloc::Global as Heap;
use wasm_embedding::{
    Answer, Caller, CountEpochs, ENGINE, Event, Extern, Fault, Func, FuncCalls, FuncRun, FuncType,
    Harmless, HarmlessBody, Instance, InstanceCalls, Module, Name, Op, OutOfMemory, Refusal, Reply,
    Store, StoreIds, TextName, Val, ValList, ValType, module_from_json, plain_store,
};

/// A function that hands a text to the one that it imports: where it begins in the memory, and how long it is.
const GREETER: &str = r#"{
  "types": [{"params": ["i32", "i32"]}, {}],
  "module": {
    "imports": [{"module": "host", "name": "say", "func": 0}],
    "memories": [{"min": 1}],
    "datas": [{"bytes": "48656c6c6f2066726f6d20746865206775657374", "memory": 0, "offset": ["i32.const", 8]}],
    "functions": [{"type": 1, "code": [["i32.const", 8], ["i32.const", 20], ["call", 0]]}],
    "exports": [{"name": "greet", "func": 1}, {"name": "memory", "memory": 0}]
  }
}"#;

/// The number of the body of `say`.
const SAY: usize = 0;

/// The bodies of the host's functions, and what they were told.
#[derive(Drop)]
struct Ear {
    heard: Vec<u8>,
}

/// The host: its bodies never fail.
type Listener = Harmless<Ear>;

/// The operation that looks up the memory of the instance whose code called.
fn memory_of_caller(alloc: Heap) -> Result<Op, OutOfMemory> {
    let name = TextName(String::from_str(alloc, "memory")?);
    Ok(Op::GetExport {
        instance: Name::Caller,
        name,
    })
}

/// The operation that reads the text of these arguments from the memory of the first reply; none where a number is
/// negative.
fn text_in_memory(args: &[Val]) -> Option<Op> {
    let [at, len] = args else {
        return None;
    };
    Some(Op::MemoryRead {
        memory: Name::Reply(0),
        at: u64::try_from(at.i32()?).ok()?,
        len: u64::try_from(len.i32()?).ok()?,
    })
}

impl Ear {
    /// Keeps the text of a reply, where it has one.
    fn hear(&mut self, reply: Option<&Reply>) -> Result<(), OutOfMemory> {
        if let Some(Reply::Bytes(bytes)) = reply {
            self.heard.extend_from_slice(bytes.0.as_slice())?;
        }
        Ok(())
    }
}

impl HarmlessBody<()> for Ear {
    /// First the memory of the caller is looked up, then the text is read from it, and then it is kept.
    fn step(
        &mut self,
        alloc: Heap,
        _body: usize,
        caller: &Caller<'_, ()>,
        state: &mut u64,
        _event: Event,
    ) -> Result<Answer, OutOfMemory> {
        if *state == 0 {
            *state = 1;
            return Ok(Answer::Call(memory_of_caller(alloc)?));
        }
        if *state == 1 {
            if let Some(read) = text_in_memory(caller.args()) {
                *state = 2;
                return Ok(Answer::Call(read));
            }
        }
        self.hear(caller.replies().get(1))?;
        Ok(Answer::Return(ValList(Vec::new(alloc))))
    }
}

/// The function of the host, for the guest to import: it takes two numbers, and has the body `SAY`.
fn say(alloc: Heap, store: &mut Store<()>) -> Result<Func, Fault> {
    let ty = FuncType::try_new(alloc, ENGINE, &[ValType::I32, ValType::I32], &[])?;
    Ok(Func::try_new(store, ty, SAY, &[])?)
}

/// Instantiates the module over the host's function, and calls what it exports. The engine reads no epochs, so that any
/// source of them will do.
fn greet(
    alloc: Heap,
    store: &mut Store<()>,
    listener: &mut Listener,
    greeter: &Module,
) -> Result<(), Fault> {
    let imports = [Extern::Func(say(alloc, store)?)];
    let mut epochs = CountEpochs::new();
    let instance = Instance::new(store, greeter, &imports, listener, &mut epochs)?;
    let greet = instance.get_func(store, "greet")?.ok_or(Refusal::NoExport)?;
    Ok(greet.call(store, listener, &mut epochs, &[], &mut [])?)
}

/// Makes a store, and greets in it. A call gives the store up in the end: a crate that drops one itself checks the
/// destructors of all its parts.
fn run(alloc: Heap, listener: &mut Listener) -> Result<(), Fault> {
    let greeter = module_from_json(alloc, 0, GREETER)?;
    let mut store = plain_store(alloc, &mut StoreIds::new(), ());
    let greeted = greet(alloc, &mut store, listener, &greeter);
    store.into_data();
    greeted
}

fn main(rt: HostRuntime) -> Result<(), Fault> {
    let alloc = rt.alloc();
    let mut listener = Harmless {
        count: 1,
        bodies: Ear {
            heard: Vec::new(alloc),
        },
    };
    run(alloc, &mut listener)?;
    println!(rt; "heard {:?}", listener.bodies.heard.as_slice())?;
    Ok(())
}
