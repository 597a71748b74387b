ghost use Rattle.std.specs.Prelude.{◌≡◌, ℕ, ◌≤◌, Bool, Result, Ok};
ghost use Rattle.wasm_types.specs.declared.faults.OutOfMemory.{OutOfMemory as NoMemory};
ghost use Rattle.wasm_meter.specs.Counting.{Rose, NoneFell};
ghost use Rattle.spec_execution.specs.Askings.{View};
ghost use Rattle.spec_execution.specs.declared.answer.Answer.{Answer as Say};
ghost use Rattle.spec_execution.specs.declared.answer.Answer.TheVariants.{Fail};
ghost use Rattle.spec_execution.specs.declared.answer.Event.{Event as Cause};
ghost use Rattle.wasm_host.specs.Callers.{seen};
ghost use Rattle.wasm_host.specs.Hosts.{Steps};

use crate::caller::Caller;
use spec_execution::{Answer, Event};
use std::alloc::Global;
use wasm_meter::HostData;
use wasm_types::OutOfMemory;

/// The bodies of a host's functions, each known by its number. Its rules are this project's own, in place of the
/// wasmtime crate's closures.
///
/// A body is a dialogue: each step returns, fails, or asks for an operation, whose reply the next step sees.
pub trait HostBody<T: HostData> {
    /// What a step asks of the host and keeps, beside what its type says of it: that a closure in it may be called.
    /// Each call that is handed a host asks it, too, and keeps it.
    ghost ready: { Self → Type 0 };

    /// Whether there is a body of this number.
    ghost has: { Self → ℕ → Bool };

    /// A step may go so.
    ghost steps: { Steps Self T };

    /// How often a body has failed.
    ghost host_faults: { Self → ℕ };

    /// Whether there is a body of this number. It is asked each time one of its functions is entered.
    fn has(&self, body: usize) -> bool
        ensures { result ≡ has self.now body };

    /// One step of a body. `state` is 0 at its first step in a call of the function, and then what the step before it
    /// left; `event` says why it is stepped.
    ///
    /// `Fail` comes only where the host's count of faults rose, or stands at its last value, 2^64 - 1. `OutOfMemory`
    /// ends the outermost command.
    fn step(
        &mut self,
        alloc: Global,
        body: usize,
        caller: &mut Caller<'_, T>,
        state: &mut u64,
        event: Event,
    ) -> Result<Answer, OutOfMemory>
        requires { ready self.old }
        ensures ready { ready self.new }
        ensures stepped { steps self.old caller.old.host_data.now body state.old event (seen caller.old) state.new
            result self.new caller.new.host_data.now }
        ensures same_reference { caller.new.host_data.ghost_name ≡ caller.old.host_data.ghost_name }
        ensures same_view { seen caller.new ≡ seen caller.old };

    /// A step leaves neither the host's count of faults lower nor one of the host data's.
    ghost steps_keep: { (h k : Self) (s t : T) (body state after : ℕ) (cause : Cause) (view : View)
        (say : Result Say NoMemory) → steps h s body state cause view after say k t →
        (host_faults h ≤ host_faults k)
        × NoneFell T.denials T.limiter_faults T.hook_faults T.behaviour_faults s t };

    /// The count of faults rises where a body fails.
    ghost steps_fail: { (h k : Self) (s t : T) (body state after : ℕ) (cause : Cause) (view : View) →
        steps h s body state cause view after (Ok Fail) k t → Rose (host_faults h) (host_faults k) };
}
