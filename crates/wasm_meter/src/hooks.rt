ghost use Rattle.std.specs.Prelude.{⊤, Result, Err};
ghost use Rattle.wasm_meter.specs.Counting.{Rose, NoneFell};
ghost use Rattle.wasm_meter.specs.declared.call_hook.CallHook.{CallHook as Event};
ghost use Rattle.wasm_meter.specs.declared.faults.HookFailed.{HookFailed as Failure};

use crate::call_hook::CallHook;
use crate::faults::HookFailed;
use crate::host_data::HostData;

/// A kind of call hooks: a store keeps one, and tells it with the host data of each border between host and guest code
/// that a call passes. Its rules are this project's own.
pub trait CallHooks<T: HostData>: Drop {
    /// A hook that is told of this event may have this answer, and take the first host data to the second.
    ghost hooks: { T → Event → Result ⊤ Failure → T → Type 0 };

    /// Tells the hook that a call passes a border between host and guest code.
    ///
    /// `HookFailed` comes only where the host data's count of hook faults rose, or stands at its last value, 2^64 - 1.
    fn ask_hook(&self, host_data: &mut T, event: CallHook) -> Result<(), HookFailed>
        ensures { hooks host_data.old event result host_data.new };

    /// A hook leaves no count lower.
    ghost hooks_keep_all: { (s t : T) (event : Event) (answer : Result ⊤ Failure) →
        hooks s event answer t →
        NoneFell T.denials T.limiter_faults T.hook_faults T.behaviour_faults s t };

    /// The count of hook faults rises where a hook fails.
    ghost hooks_fail: { (s t : T) (event : Event) (fault : Failure) →
        hooks s event (Err fault) t → Rose (T.hook_faults s) (T.hook_faults t) };
}

/// The kind of a store without a hook.
///
/// It answers what leaves a store as if it had none: the call goes on, and the host data is as it was.
#[derive(Clone, Copy)]
pub struct NoHook;

impl<T: HostData> CallHooks<T> for NoHook {
    ghost use Rattle.wasm_meter.specs.Unhooked.{LetsPass, nothing_fell, passes};

    ghost hooks = { λ s event answer t. LetsPass s answer t };

    ghost hooks_keep_all = { λ s t event answer h. nothing_fell T.denials T.limiter_faults T.hook_faults T.behaviour_faults s t h.1 };

    ghost hooks_fail = { λ s t event fault h. passes s t fault h };

    /// Lets the call go on.
    fn ask_hook(&self, _host_data: &mut T, _event: CallHook) -> Result<(), HookFailed> {
        Ok(())
    }
}
