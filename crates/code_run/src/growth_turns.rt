ghost use Rattle.std.specs.Prelude.{◌≡◌, ◌≤◌};
ghost use Rattle.code_run.specs.Asking.{Asks, ruled_in};
ghost use Rattle.code_leaps.specs.Running.{charged};
ghost use Rattle.code_run.specs.Spinning.{growth_instr};
ghost use Rattle.code_run.specs.Steps.{seen};
ghost use Rattle.code_leaps.specs.Turns.{passing, Turns};

use crate::context::CodeContext;
use crate::decisions::{Choice, decide};
use crate::growths::{due_growth, grow_object, rule_of, size_before};
use crate::spins::Growing;
use crate::surroundings::Surroundings;
use crate::thread::Thread;
use crate::turns::Turned;
use code_stack::{Ending, Fault, Turn};
use code_straight::{failed_growth, granted_growth};
use store_state::Held;
use wasm_values::Refusal;

impl<'p> Thread<'p> {
    // An instruction of growth, where all fuel that was consumed is taken. The limiter is asked before the turn.
    pub(crate) fn take_growth<W: Surroundings>(
        &mut self,
        context: &CodeContext<'_>,
        held: &mut Held,
        world: &mut W,
        left: u64,
        growing: Growing,
    ) -> Turned<'p>
        ensures turns { Turns (ruled_in context.now) (Asks context.now.rules W.moves)
            (passing (seen self.old) (growth_instr growing)) held.old world.old left result.what result.spent
            (seen self.new) (charged context.now.rules.consumes_fuel held.new result.owed) world.new }
        ensures fuel { held.new.fuel ≡ held.old.fuel }
        ensures owed { result.owed ≤ result.spent }
    {
        let instance = self.activation.instance;
        let Some(growth) = due_growth(
            context.program,
            instance,
            held,
            &mut self.values,
            growing,
            context.rules.limited,
        ) else {
            return Turned {
                what: Turn::Ends(Ending::Fails(Fault::Stuck)),
                spent: 0,
                owed: 0,
            };
        };
        let decided = decide(world, rule_of(growth), left);
        let spent = decided.spent;
        match decided.choice {
            Choice::Limit => Turned {
                what: Turn::Ends(Ending::Limit),
                spent,
                owed: 0,
            },
            Choice::Faulted => Turned {
                what: Turn::Ends(Ending::Fails(Fault::Refused(Refusal::LimiterFault))),
                spent,
                owed: 0,
            },
            Choice::Failed => {
                if spent == left {
                    return Turned {
                        what: Turn::Ends(Ending::Limit),
                        spent,
                        owed: 0,
                    };
                }
                self.values.push(failed_growth());
                Turned {
                    what: Turn::Goes,
                    spent: spent + 1,
                    owed: 1,
                }
            }
            Choice::Granted => {
                if spent == left {
                    return Turned {
                        what: Turn::Ends(Ending::Limit),
                        spent,
                        owed: 0,
                    };
                }
                let Ok(()) = grow_object(held, growth) else {
                    return Turned {
                        what: Turn::Ends(Ending::Exhausted),
                        spent,
                        owed: 0,
                    };
                };
                self.values.push(granted_growth(size_before(growth)));
                Turned {
                    what: Turn::Goes,
                    spent: spent + 1,
                    owed: 1,
                }
            }
        }
    }
}
