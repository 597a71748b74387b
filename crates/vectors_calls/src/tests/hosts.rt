//! What a step of a host function's body sees of its call (`Caller`).
use crate::tests::modules::{HOSTED, module_in};
use crate::tests::{Meter, TestStore, calls, check_same, done, found, new_store, no_epochs};
use std::alloc::Global as Heap;
use std::process::Abort;
use wasm_call::{Answer, Caller, Event, HostBody, ValList};
use wasm_meter::ListedData;
use wasm_module::{Module, ModuleExport};
use wasm_types::{FuncType, OutOfMemory, ValType};
use wasm_values::{Extern, Func, Memory, Refusal, Val};

/// A host whose one body puts down what it sees, and returns its argument and one more.
#[derive(Drop)]
struct Witness {
    /// The token of the export `m` of the module whose code calls.
    token: ModuleExport,
    seen: Seen,
}

#[derive(Clone, Copy, Debug, PartialEq, Eq)]
struct Seen {
    tables: usize,
    frames: u32,
    fuel: Result<u64, Refusal>,
    argument: Option<i32>,
    stored: usize,
    replies: usize,
    memory: bool,
    by_token: bool,
    nothing: bool,
}

const NOTHING_SEEN: Seen = Seen {
    tables: 0,
    frames: 0,
    fuel: Err(Refusal::FuelNotConfigured),
    argument: None,
    stored: 0,
    replies: 7,
    memory: false,
    by_token: false,
    nothing: false,
};

fn memory_in(object: Option<Extern>) -> Option<Memory> {
    match object {
        Some(object) => object.into_memory(),
        None => None,
    }
}

fn first_of(args: &[Val]) -> Option<i32> {
    args.first()?.i32()
}

fn seen_by(caller: &Caller<'_, ListedData>, token: &ModuleExport) -> Seen {
    let memory = memory_in(caller.get_export("m"));
    Seen {
        tables: caller.data().tables,
        frames: caller.engine().frames(),
        fuel: caller.get_fuel(),
        argument: first_of(caller.args()),
        stored: caller.stored().len(),
        replies: caller.replies().len(),
        memory: memory.is_some(),
        by_token: memory_in(caller.get_module_export(token)) == memory,
        nothing: caller.get_export("missing").is_none(),
    }
}

impl HostBody<ListedData> for Witness {
    ghost use Rattle.std.specs.Prelude.{nat_eq};
    ghost use Rattle.wasm_host.specs.Hosts.{Harmless, harmless_keep, harmless_on};
    ghost use Rattle.wasm_meter.specs.declared.lists.ListedData.{ListedData as Data};

    ghost ready = { λ _. Unit {0} };

    ghost has = { λ h body. nat_eq body 0 };

    ghost steps = { λ h s body state cause view after say k t. Harmless s say t };

    ghost host_faults = { λ _. 0 };

    ghost steps_keep = { λ h k s t body state after cause view say i.
        harmless_keep (λ (x : Data). x.denials) (λ (x : Data). x.limiter_faults) (λ (x : Data). x.hook_faults)
        (λ (x : Data). x.behaviour_faults) s t say i };

    ghost steps_fail = { λ h k s t body state after cause view i. harmless_on s t i };

    fn has(&self, body: usize) -> bool {
        body == 0
    }

    fn step(
        &mut self,
        alloc: Heap,
        _body: usize,
        caller: &mut Caller<'_, ListedData>,
        _state: &mut u64,
        _event: Event,
    ) -> Result<Answer, OutOfMemory> {
        let _data = caller.data_mut();
        self.seen = seen_by(caller, &self.token);
        let mut vals = Vec::new(alloc);
        vals.push(Val::I32(self.seen.argument.unwrap_or(0)))?;
        Ok(Answer::Return(ValList(vals)))
    }
}

/// A function of the host that takes a number and gives one, with itself as what is stored with another of its type.
fn host_function(rt: &impl Abort, alloc: Heap, store: &mut TestStore, stored: &[Extern]) -> Func {
    let i32 = [ValType::I32];
    let ty = FuncType::try_new(alloc, crate::tests::ENGINE, &i32, &i32).expect(rt, "a type");
    done(rt, calls::func_new(store, ty, stored))
}

fn new_witness(rt: &impl Abort, module: &Module) -> Witness {
    Witness {
        token: module.get_export_index("m").expect(rt, "an export"),
        seen: NOTHING_SEEN,
    }
}

#[test]
fn a_step_sees_its_call(rt: HostRuntime) {
    let alloc = rt.alloc();
    let store = new_store(&rt, alloc, Meter::Fuel);
    let stored = host_function(&rt, alloc, store, &[]);
    let imported = host_function(&rt, alloc, store, &[Extern::Func(stored)]);
    let module = module_in(&rt, alloc, HOSTED);
    let mut host = new_witness(&rt, &module);
    let mut epochs = no_epochs(&rt, alloc);
    let imports = [Extern::Func(imported)];
    let made = calls::instance_over(store, &mut host, &mut epochs, &module, &imports);
    let func = found(&rt, calls::get_func(store, done(&rt, made), "f"));
    done(&rt, calls::set_fuel(store, 100));
    let mut results = [Val::I32(0)];
    let answer = calls::hosted_call(
        store,
        &mut host,
        &mut epochs,
        func,
        &[Val::I32(5)],
        &mut results,
    );
    done(&rt, answer);
    check_same(&rt, results[0].i32(), Some(5));
    let seen = Seen {
        tables: 10_000,
        frames: 1_024,
        fuel: Ok(98),
        argument: Some(5),
        stored: 1,
        replies: 0,
        memory: true,
        by_token: true,
        nothing: true,
    };
    check_same(&rt, host.seen, seen);
}
