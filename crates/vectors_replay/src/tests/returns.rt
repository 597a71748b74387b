//! A host whose bodies return nothing, and leave the state 2.
use std::alloc::Global as Heap;
use wasm_call::{Answer, Caller, Event, HostBody, ValList};
use wasm_meter::ListedData;
use wasm_replay::{Recorded, TapedHost};
use wasm_types::OutOfMemory;

/// It has so many bodies, and counts their steps.
#[derive(Drop)]
pub struct Returns {
    pub bodies: usize,
    pub steps: u64,
}

impl HostBody<Recorded<ListedData>> for Returns {
    ghost use Rattle.std.specs.Prelude.{nat_lt};
    ghost use Rattle.wasm_host.specs.Hosts.{Harmless, harmless_keep, harmless_on};
    ghost use Rattle.wasm_meter.specs.declared.lists.ListedData.{ListedData as Data};
    ghost use Rattle.wasm_replay.specs.declared.recorded.Recorded.{Recorded as RecordedOf};

    ghost ready = { λ _. Unit {0} };

    ghost has = { λ h body. nat_lt body h.bodies };

    ghost steps = { λ h s body state cause view after say k t. Harmless s say t };

    ghost host_faults = { λ _. 0 };

    ghost steps_keep = { λ h k s t body state after cause view say i.
        harmless_keep (λ (x : RecordedOf Data). x.inner.denials) (λ (x : RecordedOf Data). x.faults)
        (λ (x : RecordedOf Data). x.inner.hook_faults) (λ (x : RecordedOf Data). x.inner.behaviour_faults) s t say i };

    ghost steps_fail = { λ h k s t body state after cause view i. harmless_on s t i };

    fn has(&self, body: usize) -> bool {
        body < self.bodies
    }

    fn step(
        &mut self,
        alloc: Heap,
        _body: usize,
        _caller: &mut Caller<'_, Recorded<ListedData>>,
        state: &mut u64,
        _event: Event,
    ) -> Result<Answer, OutOfMemory> {
        self.steps = self.steps.saturating_add(1);
        *state = 2;
        Ok(Answer::Return(ValList(Vec::new(alloc))))
    }
}

impl TapedHost<ListedData> for Returns {
    ghost use Rattle.std.proofs.Common.{ap};
    ghost use Rattle.wasm_meter.specs.declared.lists.ListedData.{ListedData as Data};
    ghost use Rattle.wasm_replay.specs.declared.recorded.Recorded.{Recorded as RecordedOf};

    ghost keeps_record = { λ h k s t body state after cause view say i.
        (ap (λ (x : RecordedOf Data). x.kept) i.data_is, ap (λ (x : RecordedOf Data). x.past) i.data_is) };
}
