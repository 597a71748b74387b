//! What a host can rely on that lets a call pause and go on. The functions do nothing: the contract of each is the law,
//! and a caller that names it has the law in its proof.
ghost use Rattle.law_open.specs.Comings.{MoreAnswersComeBy};
ghost use Rattle.law_open.specs.OpenLaws.{PausesAreStops, PausesKeep, PausesConfine, PausesConfineToSets, PausesConfineNamed, PausesKeepReach, PausesSee, BeginningsStand, GoingOnStands, SlicesAreWhole, SlicesEndAlike, SlicesAreFew, StepsAreAsked, StepsRest, AnswersGoOn, OperationsGoOn, OperationsCome, CallsGoOn};

/// A run whose next command is a call that pauses is stopped there, after as many turns as the call made (`stops`), and
/// its store is well formed and a later one (`kept`). It has changed nothing outside of what leads from its function, its
/// arguments and the functions that bodies of the host handed out so far and were not shown (`confined`), nor outside of
/// any set that holds these and all that its members lead to (`sets`); where bodies handed out no function that they were
/// not shown, what leads from its function and its arguments is all that it reaches (`named`). What was out of reach is
/// out of reach (`reach`), and nothing there was read: from another store that is the same inside, the call with the same
/// answers pauses there too (`sees`).
pub fn law_pauses()
    ensures stops { PausesAreStops }
    ensures kept { PausesKeep }
    ensures confined { PausesConfine }
    ensures sets { PausesConfineToSets }
    ensures named { PausesConfineNamed }
    ensures reach { PausesKeepReach }
    ensures sees { PausesSee }
{}

/// Where a run waits that took all its answers, the same run with more of them comes by: it waits there for the same
/// question, or hears the first of the others as the answer to it. So of each call from outside of all code, each
/// instantiation and each command, whatever the store, the code and the turns.
pub fn law_more_answers_come_by()
    ensures comes_by { MoreAnswersComeBy }
{}

/// A call that begins is an open call (`begins`), and one that goes on is one of the same call (`goes_on`). A call in
/// slices ends as the call whole does with as many turns: in reply, store, turns that are left, and what was heard
/// (`whole`). However it is cut, the same answers give the same end (`alike`). There are no more slices than turns, since
/// each makes one (`few`).
pub fn law_slices()
    ensures begins { BeginningsStand }
    ensures goes_on { GoingOnStands }
    ensures whole { SlicesAreWhole }
    ensures alike { SlicesEndAlike }
    ensures few { SlicesAreFew }
{}

/// Where a step of a body is due, the call waits for it with what a step sees in the store as it is (`asked`), and is
/// stopped before it where no turn is left (`rests`). An answer from outside takes a turn and leads to what was said
/// (`answered`). Where that is an operation, the next step is due behind its reply, and sees it (`operations`), with the
/// turns and the questions that its row takes (`rows`). Where it is the call of a function, that function is called, and
/// its reply goes to the next step (`calls`).
pub fn law_steps()
    ensures asked { StepsAreAsked }
    ensures rests { StepsRest }
    ensures answered { AnswersGoOn }
    ensures operations { OperationsGoOn }
    ensures rows { OperationsCome }
    ensures calls { CallsGoOn }
{}
