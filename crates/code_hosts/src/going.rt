//! A call goes on from where it stands.
ghost use Rattle.std.specs.Prelude.{◌≡◌, ◌≤◌, ◌+◌, ◌-◌, IfOk, IfErr, true};
ghost use Rattle.code_hosts.specs.Conditions.{IsPayable, StaysFormed};
ghost use Rattle.code_hosts.specs.Contexts.{HasRules, IsFormedIn, moves_in, opened_in};
ghost use Rattle.code_hosts.specs.Courses.{due_in, Goes, IfStands, MayStand};
ghost use Rattle.code_hosts.specs.Rounds.{Lacks};

use crate::context::RunContext;
use crate::courses::{Course, Stage, Staged};
use crate::parts::run_part;
use crate::replies::How;
use crate::rounds::{Lacking, Round};
use crate::states::Open;
use crate::surroundings::HostSurroundings;
use store_state::Held;

// Whether the call is to stand here, so many turns on.
fn is_to_stand(work: &Open<'_>, made: u64, slice: u64, asks: bool) -> bool
    ensures { result ≡ true → MayStand slice asks work.now made }
{
    match work {
        Open::Code(_) => made > 0 && made >= slice,
        Open::Body(_, _) => asks || (made > 0 && made >= slice),
    }
}

/// Goes on until the function of the call ended, no turn is left for another that is due, or `slice` turns were made, and
/// one at least; where it `asks`, it stands before each step of a body, too, which is to be answered by `say`.
///
/// So many turns lead from what is due of the call to what is due of it where it stands, or to its end, whatever the rest
/// of the store is, whatever was heard before, and however many turns and answers are left. The border behind the call is
/// not passed: `leave` does that.
///
/// Wherever it may stop the store is to be well formed (`kept`).
pub fn go<'p, W: HostSurroundings>(
    context: &RunContext<'p>,
    held: &mut Held,
    world: &mut W,
    course: Course<'p>,
    left: u64,
    slice: u64,
    asks: bool,
) -> Result<Staged<'p>, Lacking>
    requires few { left ≤ 1000000000 }
    requires fuel { IsPayable context.now.bounds held.old.fuel left }
    requires rules { HasRules context.now }
    requires kept { StaysFormed (moves_in context.now W.moves) world.old (opened_in context.now) (due_in course) held.old
        left (IsFormedIn context.now) }
    requires fits { W.fits world.old context.now }
    ensures goes { IfOk result (λ x. Goes (opened_in context.now) (moves_in context.now W.moves) (due_in course.entry)
        due_in held.old world.old left x held.new world.new) }
    ensures stands { IfOk result (λ x. IfStands x.stage (λ c. MayStand slice asks c.at_work x.turns)) }
    ensures fuel { IfOk result (λ x. IsPayable context.now.bounds held.new.fuel (left - x.turns)) }
    ensures fits { W.fits world.new context.now }
    ensures lacks { IfErr result (λ x. Lacks (opened_in context.now) (moves_in context.now W.moves)
        (due_in course.entry) held.old world.old left x.spent x.lack held.new world.new) }
{
    let mut around = course.around;
    let mut now = course.at_work;
    let mut made: u64 = 0;
    'parts: loop {
        if is_to_stand(&now, made, slice, asks) {
            let course = Course {
                at_work: now,
                around,
            };
            return Ok(Staged {
                stage: Stage::Stands(course),
                turns: made,
            });
        }
        match run_part(
            context,
            held,
            world,
            now,
            &mut around,
            left - made,
            slice.saturating_sub(made),
        ) {
            Err(lacking) => {
                return Err(Lacking {
                    lack: lacking.lack,
                    spent: made + lacking.spent,
                });
            }
            Ok(rounded) => {
                made += rounded.spent;
                let round = rounded.round;
                match round {
                    Round::Goes(next) => now = next,
                    Round::Ends(how) => {
                        return Ok(Staged {
                            stage: Stage::Ends(how),
                            turns: made,
                        });
                    }
                    Round::Limit => {
                        return Ok(Staged {
                            stage: Stage::Ends(How::TurnLimit),
                            turns: made,
                        });
                    }
                }
            }
        }
    }
}
