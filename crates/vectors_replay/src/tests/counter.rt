//! A host whose body counts its steps in the data that the host keeps in the store, and returns their number.
use std::alloc::Global as Heap;
use wasm_call::{Answer, Caller, Event, HostBody, ValList};
use wasm_embedding::Limited;
use wasm_replay::{Recorded, TapedHost};
use wasm_types::OutOfMemory;
use wasm_values::Val;

/// It has one body.
#[derive(Drop)]
pub struct Counter;

/// How many steps were made.
#[derive(Drop)]
pub struct Count {
    pub number: i32,
}

impl HostBody<Recorded<Limited<Count>>> for Counter {
    ghost use Rattle.std.proofs.Common.{sym, subst};
    ghost use Rattle.std.proofs.Math.Nat.{le_refl};
    ghost use Rattle.std.specs.Prelude.{◌≡◌, ◌≤◌, nat_eq, Ok, refl};
    ghost use Rattle.spec_execution.specs.declared.answer.Answer.TheVariants.{Fail};

    ghost ready = { λ _. Unit {0} };

    ghost has = { λ h body. nat_eq body 0 };

    ghost steps = { λ h s body state cause view after say k t.
        (t.kept ≡ s.kept) × (t.past ≡ s.past) × (t.faults ≡ s.faults) × (t.inner.limits ≡ s.inner.limits)
        × (say ≡ Ok Fail → ⊥) };

    ghost host_faults = { λ _. 0 };

    ghost steps_keep = { λ h k s t body state after cause view say i. (
      le_refl 0,
      (
        subst (λ limits. s.inner.limits.denials ≤ limits.denials) (sym i.3) (le_refl s.inner.limits.denials),
        subst (λ faults. s.faults ≤ faults) (sym i.2) (le_refl s.faults),
        le_refl 0,
        le_refl 0,
      ),
    ) };

    ghost steps_fail = { λ h k s t body state after cause view i. absurd (i.4 refl) };

    fn has(&self, body: usize) -> bool {
        body == 0
    }

    fn step(
        &mut self,
        alloc: Heap,
        _body: usize,
        caller: &mut Caller<'_, Recorded<Limited<Count>>>,
        _state: &mut u64,
        _event: Event,
    ) -> Result<Answer, OutOfMemory> {
        let number = caller.data().inner().own.number.saturating_add(1);
        caller.data_mut().inner_mut().own.number = number;
        let mut values = Vec::new(alloc);
        values.push(Val::I32(number))?;
        Ok(Answer::Return(ValList(values)))
    }
}

impl TapedHost<Limited<Count>> for Counter {
    ghost keeps_record = { λ h k s t body state after cause view say i. (i.0, i.1) };
}
