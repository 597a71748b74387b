ghost use Rattle.std.specs.Borrow.{MutBor};
ghost use Rattle.std.specs.Prelude.{◌≡◌};
ghost use Rattle.script_data.specs.Calls.{KeepsHook};
ghost use Rattle.script_data.specs.declared.script_data.ScriptData.{ScriptData as Data};

use crate::script_data::ScriptData;
use wasm_meter::{CallHook, CallHooks, HookFailed};

/// What a program calls where a hook is told of an event.
pub type HookCall = Box<dyn Fn(&mut ScriptData, CallHook) -> Result<(), HookFailed>>;

/// The kind of hooks of a script's store: it calls what the program gave, which answers as the script says.
#[derive(Drop)]
pub struct ScriptHook {
    /// What is called.
    pub call: HookCall,
    ghost callable: { HookCall.IsAlwaysCallable call },
    ghost keeps: { KeepsHook (λ old event answer new. HookCall.post call old event answer new) },
}

impl ScriptHook {
    /// The hook that calls this, which may be called with any data and event, and answers as the script says.
    pub fn new(call: Box<dyn Fn(&mut ScriptData, CallHook) -> Result<(), HookFailed>>) -> ScriptHook
        requires callable { HookCall.IsAlwaysCallable call }
        requires keeps { KeepsHook (λ old event answer new. HookCall.post call old event answer new) }
        ensures { result.call ≡ call }
    {
        ScriptHook { call }
    }
}

/// Calls what the program gave for the hook.
fn tell(call: &HookCall, host_data: &mut ScriptData, event: CallHook) -> Result<(), HookFailed>
    requires { HookCall.IsAlwaysCallable call.now }
    ensures { (old new : MutBor Data) × (old.now ≡ host_data.old)
        × HookCall.post call.now old event result new × (new.now ≡ host_data.new) }
{
    call(host_data, event)
}

// A method with a clause of its own says the trait's again.
impl CallHooks<ScriptData> for ScriptHook {
    ghost use Rattle.script_data.specs.HostData.{HooksByScript, hook_fails};

    ghost hooks = { HooksByScript };

    ghost hooks_keep_all = { λ s t event answer h. h.1.2 };

    ghost hooks_fail = { λ s t event fault h. hook_fails s t event fault h };

    /// Calls what the program gave.
    fn ask_hook(&self, host_data: &mut ScriptData, event: CallHook) -> Result<(), HookFailed>
        ensures answers { HooksByScript host_data.old event result host_data.new }
        ensures calls { (old new : MutBor Data) × (old.now ≡ host_data.old)
            × HookCall.post self.now.call old event result new × (new.now ≡ host_data.new) }
    {
        tell(&self.call, host_data, event)
    }
}
