ghost use Rattle.std.specs.Borrow.{MutBor};
ghost use Rattle.std.specs.Prelude.{◌≡◌};
ghost use Rattle.script_data.specs.Calls.{KeepsBehaviour};
ghost use Rattle.script_data.specs.declared.script_data.ScriptData.{ScriptData as Data};

use crate::script_data::ScriptData;
use wasm_meter::{BehaviourFailed, DeadlineBehaviour, UpdateDeadline};

/// What a program calls where a guest runs at or past the deadline.
pub type BehaviourCall = Box<dyn Fn(&mut ScriptData) -> Result<UpdateDeadline, BehaviourFailed>>;

/// The kind of deadline behaviours of a script's store: it calls what the program gave, which answers as the script says.
#[derive(Drop)]
pub struct ScriptBehaviour {
    /// What is called.
    pub call: BehaviourCall,
    ghost callable: { BehaviourCall.IsAlwaysCallable call },
    ghost keeps: { KeepsBehaviour (λ old answer new. BehaviourCall.post call old answer new) },
}

impl ScriptBehaviour {
    /// The deadline behaviour that calls this, which may be called with any data, and answers as the script says.
    pub fn new(
        call: Box<dyn Fn(&mut ScriptData) -> Result<UpdateDeadline, BehaviourFailed>>,
    ) -> ScriptBehaviour
        requires callable { BehaviourCall.IsAlwaysCallable call }
        requires keeps { KeepsBehaviour (λ old answer new. BehaviourCall.post call old answer new) }
        ensures { result.call ≡ call }
    {
        ScriptBehaviour { call }
    }
}

/// Calls what the program gave for the deadline behaviour.
fn decide(
    call: &BehaviourCall,
    host_data: &mut ScriptData,
) -> Result<UpdateDeadline, BehaviourFailed>
    requires { BehaviourCall.IsAlwaysCallable call.now }
    ensures { (old new : MutBor Data) × (old.now ≡ host_data.old)
        × BehaviourCall.post call.now old result new × (new.now ≡ host_data.new) }
{
    call(host_data)
}

// A method with a clause of its own says the trait's again.
impl DeadlineBehaviour<ScriptData> for ScriptBehaviour {
    ghost use Rattle.script_data.specs.HostData.{BehavesByScript, behaviour_fails};

    ghost behaves = { BehavesByScript };

    ghost behaves_keep_all = { λ s t answer h. h.1.2 };

    ghost behaves_fail = { λ s t fault h. behaviour_fails s t fault h };

    /// Calls what the program gave.
    fn ask_behaviour(&self, host_data: &mut ScriptData) -> Result<UpdateDeadline, BehaviourFailed>
        ensures answers { BehavesByScript host_data.old result host_data.new }
        ensures calls { (old new : MutBor Data) × (old.now ≡ host_data.old)
            × BehaviourCall.post self.now.call old result new × (new.now ≡ host_data.new) }
    {
        decide(&self.call, host_data)
    }
}
