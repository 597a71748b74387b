ghost use Rattle.std.specs.Prelude.{◌≡◌};

use crate::bodies::HostBody;
use crate::caller::Caller;
use spec_execution::{Answer, Event};
use spec_machine::ValList;
use std::alloc::Global;
use wasm_meter::HostData;
use wasm_types::OutOfMemory;

/// A host without bodies.
///
/// No run steps it: a function of the host, when it is entered, has no body there. A step that is asked for nevertheless
/// returns no values.
#[derive(Clone, Copy)]
pub struct NoHost;

impl<T: HostData> HostBody<T> for NoHost {
    ghost use Rattle.std.specs.Prelude.{false};
    ghost use Rattle.wasm_host.specs.Hosts.{Idles, idles_keep, idles_on};

    ghost ready = { λ _. Unit {0} };

    ghost has = { λ h body. false };

    ghost steps = { λ h s body state cause view after say k t. Idles h s state after say k t };

    ghost host_faults = { λ _. 0 };

    ghost steps_keep = { λ h k s t body state after cause view say i.
        idles_keep T.denials T.limiter_faults T.hook_faults T.behaviour_faults h k s t state after say i };

    ghost steps_fail = { λ h k s t body state after cause view i. idles_on h s state after k t i };

    /// There is none.
    fn has(&self, _body: usize) -> bool {
        false
    }

    /// Returns no values.
    fn step(
        &mut self,
        alloc: Global,
        _body: usize,
        _caller: &mut Caller<'_, T>,
        _state: &mut u64,
        _event: Event,
    ) -> Result<Answer, OutOfMemory> {
        Ok(Answer::Return(ValList(Vec::new(alloc))))
    }
}
