//! Bodies that do no harm, two of them: each call is one step of its own body, and what steps them is kept.
use crate::tests::{calls, check_same, done, new_store};
use std::alloc::Global as Heap;
use wasm_call::{Answer, Caller, Event, ValList};
use wasm_embedding::{Harmless, HarmlessBody};
use wasm_types::OutOfMemory;
use wasm_values::{Refusal, StoreIds, Val};

/// Bodies that give their own number, in hundreds, and how often they were stepped before.
#[derive(Drop)]
struct Counting {
    steps: i32,
}

impl HarmlessBody<()> for Counting {
    fn step(
        &mut self,
        alloc: Heap,
        body: usize,
        _caller: &Caller<'_, ()>,
        _state: &mut u64,
        _event: Event,
    ) -> Result<Answer, OutOfMemory> {
        let hundreds = if body == 0 { 100 } else { 200 };
        let number = self.steps.wrapping_add(hundreds);
        self.steps = self.steps.wrapping_add(1);
        Ok(Answer::Return(ValList(vec![in alloc; Val::I32(number)]?)))
    }
}

#[test]
fn each_call_steps_its_own_body_once(rt: HostRuntime) {
    let store = new_store(&rt, rt.alloc(), &mut StoreIds::new());
    let first = done(&rt, calls::wrap::<(), i32>(store, 0));
    let second = done(&rt, calls::wrap::<(), i32>(store, 1));
    let missing = done(&rt, calls::wrap::<(), i32>(store, 2));
    let mut host = Harmless {
        count: 2,
        bodies: Counting { steps: 0 },
    };
    check_same(
        &rt,
        calls::hosted_call(store, &mut host, second, ()),
        Ok(200),
    );
    check_same(
        &rt,
        calls::hosted_call(store, &mut host, first, ()),
        Ok(101),
    );
    check_same(
        &rt,
        calls::hosted_call(store, &mut host, second, ()),
        Ok(202),
    );
    check_same(
        &rt,
        calls::hosted_call::<_, (), i32>(store, &mut host, missing, ()),
        Err(Refusal::NoHostBody),
    );
}
