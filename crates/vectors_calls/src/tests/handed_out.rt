//! A body that hands out a function which it was not shown: the host kept it, and it is that of another guest. What the call
//! changes is then within what it reaches and what that function reaches.
use crate::tests::modules::{CALLS_WHAT_IT_IS_GIVEN, WRITES, module_in};
use crate::tests::{Meter, TestStore, calls, check_same, done, found, new_store, no_epochs};
use std::alloc::Global as Heap;
use std::process::Abort;
use wasm_call::{Answer, Caller, Event, HostBody, ValList};
use wasm_meter::ListedData;
use wasm_types::{FuncType, HeapType, OutOfMemory, RefType, ValType};
use wasm_values::{Extern, Func, Instance, Val};

/// A host whose one body returns the function that it keeps.
#[derive(Drop)]
struct Keeper {
    kept: Func,
}

impl HostBody<ListedData> for Keeper {
    ghost use Rattle.std.specs.Prelude.{nat_eq};
    ghost use Rattle.wasm_host.specs.Hosts.{Harmless, harmless_keep, harmless_on};
    ghost use Rattle.wasm_meter.specs.declared.lists.ListedData.{ListedData as Data};

    ghost ready = { λ _. Unit {0} };

    ghost has = { λ h body. nat_eq body 0 };

    ghost steps = { λ h s body state cause view after say k t. Harmless s say t };

    ghost host_faults = { λ _. 0 };

    ghost steps_keep = { λ h k s t body state after cause view say i.
        harmless_keep (λ (x : Data). x.denials) (λ (x : Data). x.limiter_faults) (λ (x : Data). x.hook_faults)
        (λ (x : Data). x.behaviour_faults) s t say i };

    ghost steps_fail = { λ h k s t body state after cause view i. harmless_on s t i };

    fn has(&self, body: usize) -> bool {
        body == 0
    }

    fn step(
        &mut self,
        alloc: Heap,
        _body: usize,
        _caller: &mut Caller<'_, ListedData>,
        _state: &mut u64,
        _event: Event,
    ) -> Result<Answer, OutOfMemory> {
        let mut vals = Vec::new(alloc);
        vals.push(Val::FuncRef(Some(self.kept)))?;
        Ok(Answer::Return(ValList(vals)))
    }
}

/// A function of the host that gives a reference to a function, with which nothing is stored.
fn giving_function(rt: &impl Abort, alloc: Heap, store: &mut TestStore) -> Func {
    let funcref = ValType::Ref(RefType::new(true, HeapType::Func));
    let ty = FuncType::try_new(alloc, crate::tests::ENGINE, &[], &[funcref]).expect(rt, "a type");
    done(rt, calls::func_new(store, ty, &[]))
}

/// An instance whose function writes a byte into its memory.
fn writing_guest(rt: &impl Abort, alloc: Heap, store: &mut TestStore) -> Instance {
    let mut epochs = no_epochs(rt, alloc);
    let module = module_in(rt, alloc, WRITES);
    done(rt, calls::instance_new(store, &mut epochs, &module))
}

/// The first byte of the memory that an instance exports.
fn byte_of(rt: &impl Abort, store: &TestStore, instance: Instance) -> u8 {
    let memory = found(rt, calls::get_memory(store, instance, "m"));
    done(rt, calls::first_byte(store, memory))
}

#[test]
fn a_function_that_is_handed_out_is_reached(rt: HostRuntime) {
    let alloc = rt.alloc();
    let store = new_store(&rt, alloc, Meter::Nothing);
    let other = writing_guest(&rt, alloc, store);
    let third = writing_guest(&rt, alloc, store);
    let kept = found(&rt, calls::get_func(store, other, "f"));
    let mut host = Keeper { kept };
    let mut epochs = no_epochs(&rt, alloc);
    let imports = [Extern::Func(giving_function(&rt, alloc, store))];
    let module = module_in(&rt, alloc, CALLS_WHAT_IT_IS_GIVEN);
    let made = calls::instance_over(store, &mut host, &mut epochs, &module, &imports);
    let guest = done(&rt, made);
    let func = found(&rt, calls::get_func(store, guest, "f"));
    let answer = calls::hosted_call(store, &mut host, &mut epochs, func, &[], &mut []);
    done(&rt, answer);
    check_same(&rt, byte_of(&rt, store, guest), 1);
    check_same(&rt, byte_of(&rt, store, other), 255);
    check_same(&rt, byte_of(&rt, store, third), 0);
}
