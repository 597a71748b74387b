//! A host function that calls back: a guest hands a number to the host, and the host has the guest's own function work
//! on it twice before it returns.

use std::alloc::Global as Heap;
use wasm_embedding::{
    Answer, Caller, CountEpochs, ENGINE, Event, Extern, Fault, Func, FuncCalls, FuncType, Harmless,
    HarmlessBody, Instance, InstanceCalls, InstanceTyped, Module, Name, Op, Operand, OperandList,
    OutOfMemory, Refusal, Reply, Store, StoreIds, TextName, TypedFunc, ValList, ValType,
    module_from_json, plain_store,
};

/// A function that asks the host, and the function that the host calls for it: that one adds three, and traps where
/// the number is 100.
const GUEST: &str = r#"{
  "types": [{"params": ["i32"], "results": ["i32"]}, {}],
  "module": {
    "imports": [{"module": "host", "name": "twice", "func": 0}],
    "functions": [
      {"type": 0, "code": [["local.get", 0], ["call", 0]]},
      {"type": 0, "code": [
        ["local.get", 0], ["i32.const", 100], ["i32.eq"], ["if", 1, [["unreachable"]], []],
        ["local.get", 0], ["i32.const", 3], ["i32.add"]
      ]}
    ],
    "exports": [{"name": "ask", "func": 1}, {"name": "add_three", "func": 2}]
  }
}"#;

/// The body of `twice`: it calls the function `add_three` of its caller twice.
#[derive(Clone, Copy, Drop)]
struct CallsBack;

/// The operation that looks up the function of the instance whose code called.
fn function_of_caller(alloc: Heap) -> Result<Op, OutOfMemory> {
    let name = TextName(String::from_str(alloc, "add_three")?);
    Ok(Op::GetExport {
        instance: Name::Caller,
        name,
    })
}

/// The operation that calls the function of the first reply on this number.
fn call_on(alloc: Heap, number: Name) -> Result<Op, OutOfMemory> {
    let mut args = Vec::new(alloc);
    args.push(Operand::Named(number))?;
    Ok(Op::Call {
        func: Name::Reply(0),
        args: OperandList(args),
        results: Some(1),
    })
}

/// The values of a reply, to be returned; none where it is another reply, as where the guest trapped.
fn values_of(alloc: Heap, reply: Option<&Reply>) -> Result<ValList, OutOfMemory> {
    let mut vals = Vec::new(alloc);
    if let Some(Reply::Values(found)) = reply {
        vals.extend_from_slice(found.0.as_slice())?;
    }
    Ok(ValList(vals))
}

impl HarmlessBody<()> for CallsBack {
    /// The function is looked up, called on the argument, then on what it gave, and the second value is returned.
    fn step(
        &mut self,
        alloc: Heap,
        _body: usize,
        caller: &Caller<'_, ()>,
        state: &mut u64,
        _event: Event,
    ) -> Result<Answer, OutOfMemory> {
        let place = *state;
        *state = place.saturating_add(1);
        match place {
            0 => Ok(Answer::Call(function_of_caller(alloc)?)),
            1 => Ok(Answer::Call(call_on(alloc, Name::Arg(0))?)),
            2 => Ok(Answer::Call(call_on(alloc, Name::Value(1, 0))?)),
            _ => Ok(Answer::Return(values_of(alloc, caller.replies().get(2))?)),
        }
    }
}

/// The host: one body, with the number 0.
fn host() -> Harmless<CallsBack> {
    Harmless {
        count: 1,
        bodies: CallsBack,
    }
}

/// The guest's function over an instance of the module, which imports the host's. The engine reads no epochs, so that any
/// source of them will do.
fn prepare(
    alloc: Heap,
    store: &mut Store<()>,
    guest: &Module,
) -> Result<TypedFunc<i32, i32>, Fault> {
    let ty = FuncType::try_new(alloc, ENGINE, &[ValType::I32], &[ValType::I32])?;
    let imports = [Extern::Func(Func::try_new(store, ty, 0, &[])?)];
    let instance = Instance::new(store, guest, &imports, &mut host(), &mut CountEpochs::new())?;
    Ok(instance.get_typed_func(store, "ask")?)
}

/// What the guest's function gives for a number.
fn ask(store: &mut Store<()>, asking: &TypedFunc<i32, i32>, number: i32) -> Result<i32, Refusal> {
    asking.call(store, &mut host(), &mut CountEpochs::new(), number)
}

/// What the host saw.
#[derive(Debug, Drop)]
struct Seen {
    sum: Result<i32, Refusal>,
    trapped: Result<i32, Refusal>,
}

/// Makes an instance, and calls its function.
fn see(alloc: Heap, store: &mut Store<()>, guest: &Module) -> Result<Seen, Fault> {
    let asking = prepare(alloc, store, guest)?;
    Ok(Seen {
        sum: ask(store, &asking, 10),
        // The guest's trap is a reply to the body, which then has no value to return: a result of the wrong type.
        trapped: ask(store, &asking, 97),
    })
}

/// Makes a store, and works in it. A call gives the store up in the end: a crate that drops one itself checks the
/// destructors of all its parts.
fn run(alloc: Heap, guest: &Module) -> Result<Seen, Fault> {
    let mut store = plain_store(alloc, &mut StoreIds::new(), ());
    let seen = see(alloc, &mut store, guest);
    store.into_data();
    seen
}

pub(crate) fn show(rt: &impl Print, alloc: Heap) -> Result<(), Fault> {
    let seen = run(alloc, &module_from_json(alloc, 0, GUEST)?)?;
    println!(rt; "callback\n{seen:?}")?;
    Ok(())
}
