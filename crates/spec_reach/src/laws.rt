//! What a host can rely on of reach. The function does nothing: its contract is the law, and a caller that names it has
//! the law in its proof.
ghost use Rattle.spec_reach.specs.ReachLaws.{ReachIsClosed, ReachIsLeast, ReachGrows};

/// Reach is the least set that holds its roots and all that its members lead to, as far as the store has them: it does
/// so, it is within each set that does, and it grows with its roots.
pub fn law_reach()
    ensures closed { ReachIsClosed }
    ensures least { ReachIsLeast }
    ensures grows { ReachGrows }
{}
