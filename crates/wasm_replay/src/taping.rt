ghost use Rattle.std.specs.Prelude.{◌≡◌};

use crate::kept::Kept;
use crate::recorded::Recorded;
use crate::taped_host::TapedHost;
use law_replay::TapedStep;
use spec_execution::{Answer, Event};
use std::alloc::Global;
use wasm_host::{Caller, HostBody};
use wasm_meter::HostData;
use wasm_types::OutOfMemory;

/// A host that is lent, whose steps are kept. It has the bodies below a number; a step of one that the host has not fails.
#[derive(Drop)]
pub(crate) struct Taping<'h, H> {
    pub(crate) host: &'h mut H,
    pub(crate) bodies: usize,
    pub(crate) steps: &'h mut Kept<TapedStep>,
    pub(crate) faults: u64,
}

impl<'h, H> Taping<'h, H> {
    /// This host, of which no step was kept yet.
    pub(crate) fn new(
        host: &'h mut H,
        bodies: usize,
        steps: &'h mut Kept<TapedStep>,
    ) -> Taping<'h, H>
        ensures same_host { result.host.ghost_name ≡ host.entry.ghost_name }
        ensures host { result.host.now ≡ host.old }
        ensures bodies { result.bodies ≡ bodies }
        ensures same_steps { result.steps.ghost_name ≡ steps.entry.ghost_name }
        ensures steps { result.steps.now ≡ steps.old }
    {
        Taping {
            host,
            bodies,
            steps,
            faults: 0,
        }
    }
}

impl<T: HostData, H: TapedHost<T>> HostBody<Recorded<T>> for Taping<'_, H> {
    ghost use Rattle.std.specs.Prelude.{nat_lt};
    ghost use Rattle.wasm_replay.specs.Records.{Tapes};
    ghost use Rattle.wasm_replay.specs.RecordLaws.{steps_keep, steps_fail};

    ghost ready = { λ h. H.ready h.host.now };

    ghost has = { λ h body. nat_lt body h.bodies };

    ghost steps = { Tapes H.has H.steps };

    ghost host_faults = { λ h. h.faults };

    ghost steps_keep = { λ h k s t body state after cause view say g.
        steps_keep H.has H.steps H.host_faults T.denials T.hook_faults T.behaviour_faults H.steps_keep h k s t body state after cause view say g };

    ghost steps_fail = { λ h k s t body state after cause view g. steps_fail H.has H.steps h k s t body state after cause view g };

    fn has(&self, body: usize) -> bool {
        body < self.bodies
    }

    fn step(
        &mut self,
        alloc: Global,
        body: usize,
        caller: &mut Caller<'_, Recorded<T>>,
        state: &mut u64,
        event: Event,
    ) -> Result<Answer, OutOfMemory> {
        self.steps.make_room()?;
        let before = *state;
        let answer = if self.host.has(body) {
            self.host.step(alloc, body, caller, state, event)?
        } else {
            Answer::Fail
        };
        let copy = answer.copy(alloc)?;
        if matches!(&answer, Answer::Fail) {
            self.faults = self.faults.saturating_add(1);
        }
        self.steps.keep(TapedStep {
            body,
            state: before,
            event,
            answer: copy,
            next: *state,
        });
        Ok(answer)
    }
}
