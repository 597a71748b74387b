ghost use Rattle.std.specs.Prelude.{◌≡◌, ◌≢◌};
ghost use Rattle.spec_machine.specs.Growth.{answered_growth};
ghost use Rattle.store_state.specs.Growing.{growth_of};
ghost use Rattle.store_state.specs.declared.growth.GrowthRule.TheVariants as said;
ghost use Rattle.code_run.specs.Asking.{Asks};
ghost use Rattle.code_run.specs.Deciding.{choice_of, Decides};
ghost use Rattle.code_stack.specs.declared.rules.Rules.{Rules};
ghost use Rattle.code_run.specs.declared.decisions.Choice.TheVariants as choice;

use crate::surroundings::Surroundings;
use store_state::{GrowthQuestion, GrowthRule};
use wasm_meter::LimiterFailed;
use wasm_values::Refusal;

// What is chosen for a growth.
#[derive(Clone, Copy)]
pub(crate) enum Choice {
    Granted,
    Failed,
    // The limiter failed.
    Faulted,
    // No turn was left to ask it.
    Limit,
}

// What is chosen for a growth, and how many turns that took.
#[derive(Clone, Copy)]
pub(crate) struct Decided {
    pub(crate) choice: Choice,
    pub(crate) spent: u64,
}

// What the answer of the limiter comes to.
fn choose(question: GrowthQuestion, answer: Result<bool, LimiterFailed>) -> Choice
    ensures { result ≡ choice_of (answered_growth (growth_of question) answer) }
{
    match question.decide(answer) {
        Ok(()) => Choice::Granted,
        Err(Refusal::GrowFailed) => Choice::Failed,
        Err(_) => Choice::Faulted,
    }
}

// Decides a growth by what the rule says of it: the limiter is asked where it is to be, and where a turn is left for
// that.
pub(crate) fn decide<W: Surroundings>(world: &mut W, rule: GrowthRule, left: u64) -> Decided
    ensures decides { (rules : Rules) → Decides (Asks rules W.moves) rule world.old
        left result world.new }
    ensures granted { result.choice ≡ choice.Granted → rule ≢ said.Fails }
{
    match rule {
        GrowthRule::Grows => Decided {
            choice: Choice::Granted,
            spent: 0,
        },
        GrowthRule::Fails => Decided {
            choice: Choice::Failed,
            spent: 0,
        },
        GrowthRule::Asks(question) => {
            if left == 0 {
                return Decided {
                    choice: Choice::Limit,
                    spent: 0,
                };
            }
            let answer = world.ask_growth(question);
            Decided {
                choice: choose(question, answer),
                spent: 1,
            }
        }
    }
}
