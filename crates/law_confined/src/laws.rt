//! What a host can rely on that runs code which it does not trust: what a command cannot change, and what it cannot see.
//! The functions do nothing: the contract of each is the law, and a caller that names it has the law in its proof.
ghost use Rattle.law_confined.specs.Laws.{LawC, LawCOfSets, LawG, LawGOfSets};
ghost use Rattle.law_confined.specs.RunLaws.{RunsConfine, StopsConfine, RunsConfineNamed, StopsConfineNamed};
ghost use Rattle.law_confined.specs.Kept.{LawK};
ghost use Rattle.law_confined.specs.Sight.{LawS, LawSOfSets, ReachIsSame};
ghost use Rattle.law_confined.specs.SightFronts.{LawSOfFronts};

/// A call from outside of all code, an instantiation or a command leaves each memory, table, global and segment outside
/// of what it reaches as it was, the length included: whatever the store, the code, the turns and the answers, and however
/// it ends, by results, a trap, a refusal, a stop, want of memory or an answer that is missing. It reaches what leads from
/// what it names or is given, and from the functions that bodies of the host handed out meanwhile and were not shown
/// (`reached`). The same holds of each set that has these and all that its members lead to (`sets`). So it is with each
/// command of a run (`runs`), and with one that is unfinished where a run stopped (`stops`). Where no body of the host
/// handed out a function that it was not shown, what leads from the objects that a command names is all that it reaches
/// (`named_runs`, `named_stops`).
pub fn law_c()
    ensures reached { LawC }
    ensures sets { LawCOfSets }
    ensures runs { RunsConfine }
    ensures stops { StopsConfine }
    ensures named_runs { RunsConfineNamed }
    ensures named_stops { StopsConfineNamed }
{}

/// What was out of reach stays out of reach: whatever is reached afterwards, from what was reached and from all that is
/// new, was reached before or is new. The same holds of each set as in [`law_c`].
pub fn law_g()
    ensures reached { LawG }
    ensures sets { LawGOfSets }
{}

/// From a well-formed store, valid code keeps each function and tag, each object's type, each instance's module and what
/// it names, and the value of each constant global, however it ends; no memory or table becomes smaller.
pub fn law_k()
    ensures kept { LawK }
{}

/// A call from outside of all code, an instantiation or a command reads nothing outside of what it reaches: from any other
/// store that is the same inside of that, with the same answers, it comes to the same reply or end, with the same turns,
/// questions and answers left; and the two stores that are left are the same inside of what is reached there from the set
/// and from all that is new (`reached`). The same holds of each set as in [`law_c`] (`sets`). What is reached is the same
/// list in both stores (`same`). Where the answers in the other store only begin alike, both come to the same all the
/// same, or ask the same question behind the common ones (`fronts`).
pub fn law_s()
    ensures reached { LawS }
    ensures sets { LawSOfSets }
    ensures same { ReachIsSame }
    ensures fronts { LawSOfFronts }
{}
