ghost use Rattle.spec_execution.specs.Askings.{Growing, Reading, Behaving, Grown, Read, Behaved};
ghost use Rattle.store_state.specs.Growing.{growth_of};
ghost use Rattle.code_run.specs.Asking.{Moving};

use store_state::GrowthQuestion;
use wasm_meter::{BehaviourFailed, EpochFailed, LimiterFailed, UpdateDeadline};

/// What is outside of a run of code, and whom it asks: whether a memory or a table may grow, the epoch, and what is done at
/// the deadline. A run asks nothing else.
pub trait Surroundings {
    /// A question may have this answer, and take what is outside from the first state to the second.
    ghost moves: { Moving Self };

    /// Whether a memory or a table may grow.
    fn ask_growth(&mut self, question: GrowthQuestion) -> Result<bool, LimiterFailed>
        ensures { moves self.old (Growing (growth_of question)) (Grown result) self.new };

    /// The present epoch, in ticks.
    fn read_epoch(&mut self) -> Result<u64, EpochFailed>
        ensures { moves self.old Reading (Read result) self.new };

    /// What is done where code runs at or past the deadline.
    fn ask_behaviour(&mut self) -> Result<UpdateDeadline, BehaviourFailed>
        ensures { moves self.old Behaving (Behaved result) self.new };
}
