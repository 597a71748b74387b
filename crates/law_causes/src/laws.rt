//! What a host can rely on of refusals. The function does nothing: its contract is the law, and a caller that names it has
//! the law in its proof.
ghost use Rattle.law_causes.specs.CauseLaws.{CallsHaveCauses, InstantiationsHaveCauses, CommandsHaveCauses};

/// `LimiterFault`, `HookFault`, `EpochFault` and `HostFault` come only where, since the call, the instantiation or the
/// command began, the limiter, a hook, the source of epochs or the deadline behaviour, or a body of the host failed; and
/// `GrowFailed` only where a growth of the command was denied by the limiter, or fails without one, too.
///
/// Code is refused, these apart, by `NoHostBody` and `HostResultType` alone: so a call whose conditions hold never answers
/// `GrowFailed`, nor what a condition refuses by. An instantiation is refused, beside these and by its start function, by a
/// count past its limit, or by just that condition of its imports which does not hold.
pub fn law_refusals_have_causes()
    ensures calls { CallsHaveCauses }
    ensures instantiations { InstantiationsHaveCauses }
    ensures commands { CommandsHaveCauses }
{}
