//! What a host can rely on of what is outside of its stores. The function does nothing: its contract is the law, and a
//! caller that names it has the law in its proof.
ghost use Rattle.code_hosts.specs.Asked.{asked};
ghost use Rattle.law_causes.specs.Tallies.{IsCounted};

use wasm_host::HostBody;
use wasm_meter::{CallHooks, DeadlineBehaviour, EpochSource, HostData};

/// No answer of a limiter, a hook, a deadline behaviour, a source of epochs or a host lowers a count, and each that fails,
/// and each no of the limiter, raises its own, where that does not stand at its last value.
pub fn law_failures_are_counted<
    T: HostData,
    K: CallHooks<T>,
    B: DeadlineBehaviour<T>,
    H: HostBody<T>,
    E: EpochSource,
>()
    ensures { IsCounted (asked T.growths H.has K.hooks B.behaves E.readings H.steps) T.denials T.limiter_faults
        T.hook_faults T.behaviour_faults E.epoch_faults H.host_faults }
{}
