//! What an interpreter, and a host, can rely on. Each function does nothing: its contract is the
//! law, and a caller that names it has the law in its proof.
ghost use Rattle.law_code.specs.RunLaws.{RunsFollow, EachHasAReply, RunKeepsWellFormed, StopKeepsWellFormed, PlainRunKeepsWellFormed, PlainStopKeepsWellFormed, CommandsAreNeverStuck, RunKeepsObjects, StopKeepsObjects, RefusedChangesNothing, ConditionsChangeNothing, NothingIsAsked, NothingIsAskedToAStop, StopBeforeATurn, StopBeforeAnyTurn};
ghost use Rattle.law_code.specs.Laws.{CodeIsSound, CallsReturn, HostCallsReturn, CallsAreNeverStuck, InstantiationsReturn, InstantiationsAreNeverStuck, ResultsAreOwned, HostsBeginOwned};

/// Code of every kind ends as its typing says: at its end with operands of these types, by a branch
/// with those of its label on top, by a return with the results on top, or early. It is never stuck,
/// and leaves a store that is well formed and later than the one before: constant globals keep their
/// values. A check found fuel before it runs, so each turn that is left may be charged one unit, and
/// at most 1,000,000,000 units are ever owed.
pub fn law_code_is_sound()
    ensures { CodeIsSound }
{}

/// A call on arguments of the parameters' types ends with results of the result types, or early, and
/// leaves a store that is well formed and later than the one before.
pub fn law_calls_return()
    ensures inner { CallsReturn }
    ensures outermost { HostCallsReturn }
{}

/// A call is never stuck.
pub fn law_calls_are_never_stuck()
    ensures { CallsAreNeverStuck }
{}

/// An instantiation of a module over any imports, which its checks test, ends with an instance of it behind those that
/// were there, or early: refused, by a trap, or where no turn is left. In each case it leaves a store that is well formed and later than the one before,
/// and it is never stuck.
pub fn law_instantiations_return()
    ensures returns { InstantiationsReturn }
    ensures unstuck { InstantiationsAreNeverStuck }
{}

/// What a host is given are values of the store, each of its type: the results of a call, and the
/// arguments with which a function of the host begins, whose stored objects are of the store too.
pub fn law_values_are_owned()
    ensures results { ResultsAreOwned }
    ensures begun { HostsBeginOwned }
{}

/// Commands over modules keep a store well formed, with every object, its type and each constant global's value, through
/// all code that they run and all instances that they make, also where the last one is stopped at any turn, at a step of
/// the host that had no memory, or before an instantiation's counts are raised. Of those that run no code this holds
/// whatever the outside answers.
pub fn law_stores_stay_well_formed()
    ensures run { RunKeepsWellFormed }
    ensures stop { StopKeepsWellFormed }
    ensures plain_run { PlainRunKeepsWellFormed }
    ensures plain_stop { PlainStopKeepsWellFormed }
{}

/// No command is ever stuck.
pub fn law_commands_are_never_stuck()
    ensures { CommandsAreNeverStuck }
{}

/// Commands that run no code leave every object with its type, constant globals as they were, and no memory or table
/// smaller.
pub fn law_objects_stay()
    ensures run { RunKeepsObjects }
    ensures stop { StopKeepsObjects }
{}

/// A command that runs no code and is refused leaves the store as it was; so does every command that one of its own
/// conditions refuses.
pub fn law_refused_changes_nothing()
    ensures refused { RefusedChangesNothing }
    ensures conditions { ConditionsChangeNothing }
{}

/// Commands run one after another, with a reply each; a stop before the first turn of one leaves what those before it
/// left, but that an instantiation has raised its counts; and a store without a limiter asks nothing where no code
/// runs and no command reads the epoch.
pub fn law_runs()
    ensures follow { RunsFollow }
    ensures replies { EachHasAReply }
    ensures stop { StopBeforeATurn }
    ensures any_stop { StopBeforeAnyTurn }
    ensures unasked { NothingIsAsked }
    ensures unasked_to_a_stop { NothingIsAskedToAStop }
{}
