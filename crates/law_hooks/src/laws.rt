//! What a host can rely on of its call hook, and of whom its store asks. Each function does nothing: its contract is the
//! law, and a caller that names it has the law in its proof.
ghost use Rattle.law_hooks.specs.HookLaws.{CallsAreBracketed, InstantiationsAreBracketed, CommandsAreBracketed, StopsAreBracketedSoFar, EventsAreBracketed};
ghost use Rattle.law_hooks.specs.Askers.{OnlyWhatIsSetIsAsked};

/// The events that a hook hears lie in brackets: `CallingWasm` and `CallingHost` open a call, `ReturningFromWasm` and
/// `ReturningFromHost` each close the newest call that is open, which is of the same kind. A hook that fails as a call
/// begins opens none, and no event follows for that call; one that fails as a call ends closes it all the same. Where a
/// call, an instantiation or a command ends by results, a trap or a refusal, none is left open. Where it is stopped,
/// waits for an answer or had no memory, some may be, but each that was closed was the newest. So where no hook failed,
/// and the call came to its end, the events of which the hook was told are themselves in brackets.
pub fn law_hook_events_are_bracketed()
    ensures calls { CallsAreBracketed }
    ensures instantiations { InstantiationsAreBracketed }
    ensures commands { CommandsAreBracketed }
    ensures stopped { StopsAreBracketedSoFar }
    ensures unfailed { EventsAreBracketed }
{}

/// A store asks no hook and no deadline behaviour that it does not have, each answer is of its question's kind, and a step
/// of the host that had no memory is not among what was heard: of each call and each instantiation that ends by results, a
/// trap or a refusal, and of each command that comes to a reply or is stopped at its last turn. Whether the store has a hook
/// and a deadline behaviour stays as it was.
pub fn law_only_what_is_set_is_asked()
    ensures asked { OnlyWhatIsSetIsAsked }
{}
