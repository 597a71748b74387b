ghost use Rattle.std.specs.Prelude.{◌≡◌, Option};
ghost use Rattle.wasm_host.specs.Callers.{seen};
ghost use Rattle.wasm_meter.specs.Counting.{NoneFell};
ghost use Rattle.wasm_typed.specs.Wraps.{Gives, KeepsCounts, Rises, taken};

use std::alloc::Global;
use std::marker::PhantomData;
use typed_closures::{WasmRet, WasmTyList};
use wasm_host::{Answer, Caller, Event, HostBody};
use wasm_meter::HostData;
use wasm_types::OutOfMemory;
use wasm_values::Val;

/// A host whose one body, of number 0, is a closure over the host's data: the body of the functions that
/// `FuncTyped::try_wrap` makes with the number 0.
///
/// Its one step answers `Return` of what the closure gives. It answers `Fail`, and its count of faults rises, exactly
/// where the number is not 0, the arguments are no `P`, or the closure gives `HostFailed`. `OutOfMemory` may come behind
/// a call of the closure, whose change of the host's data stays.
#[derive(Drop)]
pub struct Wrap<T, F, P, R> {
    pub closure: F,
    pub faults: u64,
    host_data: PhantomData<T>,
    params: PhantomData<P>,
    results: PhantomData<R>,
}

impl<T: HostData, F: Fn(&mut T, P) -> R + Drop, P: WasmTyList, R: WasmRet> Wrap<T, F, P, R> {
    /// The host of this closure, which may always be called, and no call of which lowers a count of the host's data. No
    /// fault was counted.
    pub fn new(closure: F) -> Wrap<T, F, P, R>
        requires callable { F.IsAlwaysCallable closure }
        requires keeps { KeepsCounts (NoneFell T.denials T.limiter_faults T.hook_faults T.behaviour_faults)
            (λ x p r y. F.post closure x p r y) }
        ensures closure { result.closure ≡ closure }
        ensures faults { result.faults ≡ 0 }
    {
        Wrap {
            closure,
            faults: 0,
            host_data: PhantomData,
            params: PhantomData,
            results: PhantomData,
        }
    }
}

/// The arguments of the closure, where the body is the closure and takes them.
fn taken<P: WasmTyList>(body: usize, args: &[Val]) -> Option<P>
    ensures { result ≡ taken P.of_vals body args.now }
{
    if body == 0 { P::from_vals(args) } else { None }
}

/// One fault more, up to the last value of the count.
fn one_more(faults: u64) -> u64
    ensures { Rises faults result }
{
    faults.saturating_add(1)
}

/// A call of the closure on the host's data.
fn call_by<T: HostData, F: Fn(&mut T, P) -> R, P: WasmTyList, R: WasmRet>(
    closure: &F,
    caller: &mut Caller<'_, T>,
    params: P,
) -> R
    requires { F.IsAlwaysCallable closure.now }
    ensures gives { Gives R.given (λ x p r y. F.post closure.now x p r y) caller.old.host_data.now params result caller.new.host_data.now }
    ensures same_reference { caller.new.host_data.ghost_name ≡ caller.old.host_data.ghost_name }
    ensures same_view { seen caller.new ≡ seen caller.old }
{
    closure(caller.data_mut(), params)
}

impl<T: HostData, F: Fn(&mut T, P) -> R + Drop, P: WasmTyList, R: WasmRet> HostBody<T>
    for Wrap<T, F, P, R> {
    ghost use Rattle.std.specs.Prelude.{◌≡◌, nat_eq};
    ghost use Rattle.wasm_meter.specs.Counting.{NoneFell};
    ghost use Rattle.wasm_typed.specs.Wraps.{KeepsCounts, WrapSteps};
    ghost use Rattle.wasm_typed.specs.WrapLaws.{keep, fail};

    ghost ready = { λ w. F.IsAlwaysCallable w.closure
        × KeepsCounts (NoneFell T.denials T.limiter_faults T.hook_faults T.behaviour_faults) (λ x p r y. F.post w.closure x p r y) };

    ghost has = { λ w body. nat_eq body 0 };

    ghost steps = { λ h s body state cause view after say k t. (k.closure ≡ h.closure)
        × WrapSteps R.given (λ x p r y. F.post h.closure x p r y) (NoneFell T.denials T.limiter_faults T.hook_faults T.behaviour_faults)
        P.of_vals h.faults s body state view.arguments after say k.faults t };

    ghost host_faults = { λ w. w.faults };

    ghost steps_keep = { λ h k s t body state after cause view say i.
        keep R.given (λ x p r y. F.post h.closure x p r y) (NoneFell T.denials T.limiter_faults T.hook_faults T.behaviour_faults)
        P.of_vals h.faults s body state view.arguments after say k.faults t i.1 };

    ghost steps_fail = { λ h k s t body state after cause view i.
        fail R.given (λ x p r y. F.post h.closure x p r y) (NoneFell T.denials T.limiter_faults T.hook_faults T.behaviour_faults)
        P.of_vals h.faults s body state view.arguments after k.faults t i.1 };

    /// Whether the number is 0.
    fn has(&self, body: usize) -> bool {
        body == 0
    }

    #[tactic(auto, using(crate::proofs::StepLemmas::steps_called, crate::proofs::StepLemmas::steps_untaken))]
    fn step(
        &mut self,
        alloc: Global,
        body: usize,
        caller: &mut Caller<'_, T>,
        state: &mut u64,
        event: Event,
    ) -> Result<Answer, OutOfMemory> {
        let Some(params) = taken(body, caller.args()) else {
            self.faults = one_more(self.faults);
            return Ok(Answer::Fail);
        };
        let given = call_by(&self.closure, caller, params);
        match given.into_fallible(alloc)? {
            Ok(values) => Ok(Answer::Return(values)),
            Err(_) => {
                self.faults = one_more(self.faults);
                Ok(Answer::Fail)
            }
        }
    }
}
