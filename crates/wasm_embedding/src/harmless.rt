ghost use Rattle.std.specs.Prelude.{◌≡◌, Ok};
ghost use Rattle.spec_execution.specs.declared.answer.Answer.TheVariants.{Fail};
ghost use Rattle.wasm_host.specs.Callers.{seen};
ghost use Rattle.wasm_embedding.specs.Bodies.{Goes};

use std::alloc::Global;
use wasm_host::{Answer, Caller, Event, HostBody};
use wasm_meter::HostData;
use wasm_types::OutOfMemory;

/// Bodies that never fail and leave the host's data alone: a host of them, as `Harmless` makes it, has no ghost items to
/// supply.
pub trait HarmlessBody<T: HostData> {
    /// A step may go so. Who writes nothing here says nothing of it.
    ghost goes: { Goes Self T } = { λ h s body state cause view after say k. Unit {0} };

    /// One step of a body, as `HostBody::step` has it: `state` is 0 at its first step in a call of the function, and then
    /// what the step before it left; `event` says why it is stepped. It does not answer `Fail`. `OutOfMemory` ends the
    /// outermost command.
    fn step(
        &mut self,
        alloc: Global,
        body: usize,
        caller: &Caller<'_, T>,
        state: &mut u64,
        event: Event,
    ) -> Result<Answer, OutOfMemory>
        ensures fails_not { result ≡ Ok Fail → ⊥ }
        ensures went { goes self.old caller.now.host_data.now body state.old event (seen caller.now) state.new result
            self.new };
}

/// A host whose bodies never fail: `count` of them, numbered from 0, and what steps them.
#[derive(Drop)]
pub struct Harmless<H> {
    pub count: usize,
    pub bodies: H,
}

impl<T: HostData, H: HarmlessBody<T>> HostBody<T> for Harmless<H> {
    ghost use Rattle.std.specs.Prelude.{nat_lt};
    ghost use Rattle.wasm_host.specs.Hosts.{harmless_keep, harmless_on};
    ghost use Rattle.wasm_embedding.specs.Bodies.{StepsBodies};

    ghost ready = { λ _. Unit {0} };

    ghost has = { λ h body. nat_lt body h.count };

    ghost steps = { λ h s body state cause view after say k t.
        StepsBodies H.goes h s body state cause view after say k t };

    ghost host_faults = { λ _. 0 };

    ghost steps_keep = { λ h k s t body state after cause view say i.
        harmless_keep T.denials T.limiter_faults T.hook_faults T.behaviour_faults s t say i.harmless };

    ghost steps_fail = { λ h k s t body state after cause view i. harmless_on s t i.harmless };

    fn has(&self, body: usize) -> bool {
        body < self.count
    }

    fn step(
        &mut self,
        alloc: Global,
        body: usize,
        caller: &mut Caller<'_, T>,
        state: &mut u64,
        event: Event,
    ) -> Result<Answer, OutOfMemory> {
        self.bodies.step(alloc, body, caller, state, event)
    }
}
