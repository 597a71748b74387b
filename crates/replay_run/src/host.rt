ghost use Rattle.std.specs.Prelude.{◌≡◌};

use script_data::ScriptData;
use script_host::{ScriptHost, Sight};
use spec_execution::{Answer, Event};
use std::alloc::Global;
use wasm_host::{Caller, HostBody};
use wasm_replay::{Recorded, TapedHost};
use wasm_types::OutOfMemory;

/// The host of a script whose run is recorded: it steps as the script's host does.
#[derive(Drop)]
pub struct SessionHost {
    pub host: ScriptHost,
}

impl HostBody<Recorded<ScriptData>> for SessionHost {
    ghost use Rattle.std.specs.Prelude.{length, nat_lt};
    ghost use Rattle.replay_run.specs.SessionSteps.{Steps};
    ghost use Rattle.replay_run.specs.StepLaws.{steps_keep, steps_fail};

    ghost ready = { λ _. Unit {0} };

    ghost has = { λ h body. nat_lt body (length h.host.bodies) };

    ghost steps = { λ h s body place cause view after say k t. Steps h s body place view after say k t };

    ghost host_faults = { λ h. h.host.faults };

    ghost steps_keep = { λ h k s t body place after cause view say g. steps_keep h k s t body place after view say g };

    ghost steps_fail = { λ h k s t body place after cause view g. steps_fail h k s t body place after view g };

    /// Whether the script has so many bodies and one more.
    fn has(&self, body: usize) -> bool {
        self.host.has(body)
    }

    /// Steps the script's host over what it sees.
    fn step(
        &mut self,
        alloc: Global,
        body: usize,
        caller: &mut Caller<'_, Recorded<ScriptData>>,
        state: &mut u64,
        _event: Event,
    ) -> Result<Answer, OutOfMemory> {
        let sight = Sight {
            number: caller.data().inner().number(),
            arguments: caller.args(),
            replies: caller.replies(),
        };
        self.host
            .step_on(alloc, body, sight, caller.stored(), state)
    }
}

impl TapedHost<ScriptData> for SessionHost {
    ghost use Rattle.std.proofs.Common.{ap};

    ghost keeps_record = { λ h k s t body place after cause view say g.
        (ap (λ x. x.kept) g.data_is, ap (λ x. x.past) g.data_is) };
}
