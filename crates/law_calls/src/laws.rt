//! What a host can rely on of its calls. The functions do nothing: the contract of each is the law, and a caller that names
//! it has the law in its proof.
ghost use Rattle.std.specs.Prelude.{ℕ, false};
ghost use Rattle.code_hosts.specs.Asked as hosts;
ghost use Rattle.law_calls.specs.Alike.{CallsSeeAlike, InstantiationsSeeAlike};
ghost use Rattle.law_calls.specs.Plain.{GivesNoFunction, KeepsToNames, StepShows};
ghost use Rattle.law_plugins.specs.Showing.{ShowsAlone};
ghost use Rattle.wasm_call.specs.Outside.{asked};
ghost use Rattle.wasm_host.specs.Hosts.{Idles};
ghost use Rattle.wasm_host.specs.declared.no_host.NoHost.{NoHost};
ghost use Rattle.wasm_meter.specs.Counting.{NoneFell};
ghost use Rattle.wasm_typed.specs.Wraps.{WrapSteps};

use wasm_call::HostBody;
use wasm_meter::{CallHooks, DeadlineBehaviour, EpochSource, HostData};
use wasm_typed::{WasmRet, WasmTyList};

/// Two calls of one function on equal arguments, from two stores that are the same inside of what the call reaches, in which
/// the same answers were heard, give the same reply (results, a refusal or a trap), took the same turns, and leave stores that
/// are the same inside of what is reached there from the set and from all that is new (`calls`). So do two instantiations of
/// one module over equal imports (`instantiations`). What is asked of each is what its clauses `returned`, `failed` and
/// `instantiated` say, but for want of memory, which a store does not tell.
pub fn law_calls_see_alike()
    ensures calls { CallsSeeAlike }
    ensures instantiations { InstantiationsSeeAlike }
{}

/// Where all that the bodies of a host say hands out only functions that they were shown, a call keeps to what leads from
/// the function and the functions among its arguments, and an instantiation to what leads from its imports: the clause
/// `confined` of each, without the functions that were handed out.
pub fn law_shown_calls_keep_to_names<
    T: HostData,
    K: CallHooks<T>,
    B: DeadlineBehaviour<T>,
    H: HostBody<T>,
    E: EpochSource,
>()
    ensures { ShowsAlone (hosts.asked T.growths H.has K.hooks B.behaves E.readings H.steps) →
        KeepsToNames (asked T.growths H.has K.hooks B.behaves E.readings H.steps) }
{}

/// All that a host without bodies says hands out only functions that were shown, since it hands out none.
pub fn law_no_host_shows_alone<
    T: HostData,
    K: CallHooks<T>,
    B: DeadlineBehaviour<T>,
    E: EpochSource,
>()
    ensures { ShowsAlone {H = NoHost} (hosts.asked T.growths (λ h body. false) K.hooks B.behaves E.readings
        (λ h s body state cause seen after what k t. Idles h s state after what k t)) }
{}

/// So does each step of a closure whose results hold no function (`Wrap`).
pub fn law_wraps_show_alone<T: HostData, F: Fn(&mut T, P) -> R + Drop, P: WasmTyList, R: WasmRet>()
    ensures { GivesNoFunction R.given → (closure : F) (old new : ℕ) (s t : T) →
        StepShows (λ body state seen after what.
        WrapSteps R.given (λ x p r y. F.post closure x p r y)
        (NoneFell T.denials T.limiter_faults T.hook_faults T.behaviour_faults) P.of_vals old s body state seen.arguments after
        what new t) }
{}
