ghost use Rattle.std.specs.Prelude.{Result, Err};
ghost use Rattle.wasm_meter.specs.Counting.{Rose, NoneFell};
ghost use Rattle.wasm_meter.specs.declared.deadline.UpdateDeadline.{UpdateDeadline as Update};
ghost use Rattle.wasm_meter.specs.declared.faults.BehaviourFailed.{BehaviourFailed as Failure};

use crate::deadline::UpdateDeadline;
use crate::faults::BehaviourFailed;
use crate::host_data::HostData;

/// A kind of deadline behaviours: a store keeps one, and asks it with the host data where a guest runs at or past the
/// deadline. Its rules are this project's own.
pub trait DeadlineBehaviour<T: HostData>: Drop {
    /// A deadline behaviour may have this answer, and take the first host data to the second.
    ghost behaves: { T → Result Update Failure → T → Type 0 };

    /// Asks what is done where a guest runs at or past the deadline.
    ///
    /// `BehaviourFailed` comes only where the host data's count of behaviour faults rose, or stands at its last value,
    /// 2^64 - 1.
    fn ask_behaviour(&self, host_data: &mut T) -> Result<UpdateDeadline, BehaviourFailed>
        ensures { behaves host_data.old result host_data.new };

    /// A deadline behaviour leaves no count lower.
    ghost behaves_keep_all: { (s t : T) (answer : Result Update Failure) →
        behaves s answer t →
        NoneFell T.denials T.limiter_faults T.hook_faults T.behaviour_faults s t };

    /// The count of behaviour faults rises where a deadline behaviour fails.
    ghost behaves_fail: { (s t : T) (fault : Failure) →
        behaves s (Err fault) t → Rose (T.behaviour_faults s) (T.behaviour_faults t) };
}

/// The kind of a store without a deadline behaviour.
///
/// It answers what leaves a store as if it had none: the guest is interrupted, and the host data is as it was.
#[derive(Clone, Copy)]
pub struct NoBehaviour;

impl<T: HostData> DeadlineBehaviour<T> for NoBehaviour {
    ghost use Rattle.wasm_meter.specs.Unhooked.{Interrupts, nothing_fell, interrupts};

    ghost behaves = { Interrupts };

    ghost behaves_keep_all = { λ s t answer h. nothing_fell T.denials T.limiter_faults T.hook_faults T.behaviour_faults s t h.1 };

    ghost behaves_fail = { λ s t fault h. interrupts s t fault h };

    /// Interrupts.
    fn ask_behaviour(&self, _host_data: &mut T) -> Result<UpdateDeadline, BehaviourFailed> {
        Ok(UpdateDeadline::Interrupt)
    }
}
