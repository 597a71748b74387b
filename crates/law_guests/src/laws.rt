//! What a host can rely on that runs several guests in one store. The functions do nothing: the contract of each is the law,
//! and a caller that names it has the law in its proof.
ghost use Rattle.law_guests.specs.Enclosed.{LinksAreThere, ReachIsEnclosed};
ghost use Rattle.law_guests.specs.Deeds.{UnreachedIsSame, UnreachedStaysEnclosed, UnreachedGuestIsKept};
ghost use Rattle.law_guests.specs.Visits.{VisitsKeepGuests};
ghost use Rattle.law_guests.specs.Depths.{CommandsConfine, CommandsConfineToSets, CommandsKeepReach, CommandsKeepReachOfSets, CommandsSeeReach, CommandsSeeSets};
ghost use Rattle.law_guests.specs.Segments.{SegmentsStayAsMany};

/// In a well-formed store what is there leads to what is there. So what is reached in it is all there, and leads to nothing
/// else.
pub fn law_links_are_there()
    ensures there { LinksAreThere }
    ensures enclosed { ReachIsEnclosed }
{}

/// Over any list of calls, instantiations and commands, each by its definition and however it ends, an object that is there
/// and that none of them reached is as it was (`objects`); so a set that leads to nothing else does so at the end, and all of
/// it is as it was, where none of them reached what is of it alone (`sets`); and a guest reaches at the end what it reached,
/// and each object of it is as it was, where none of them reached what it alone reaches (`guests`). What a call, an
/// instantiation or a command reaches is what leads from what it is given and from the functions that bodies of the host
/// handed out in it and were not shown.
pub fn law_deeds_keep_what_they_do_not_reach()
    ensures objects { UnreachedIsSame }
    ensures sets { UnreachedStaysEnclosed }
    ensures guests { UnreachedGuestIsKept }
{}

/// Guests that are apart stay so over any list of visits, with those that were loaded meanwhile: so one that is called first
/// cannot come to reach what one reaches that is made later. A guest changes only in the calls of it. A visit is a call of a
/// guest on what that guest reaches, or makes one more over imports that meet no guest; no body of the host hands out a
/// function that it was not shown.
pub fn law_visits_keep_guests()
    ensures { VisitsKeepGuests }
{}

/// `law_c`, `law_g` and `law_s` of `law_confined` hold of commands that a body of the host asks for, too, with any number of
/// functions open around them: nothing is changed outside of what is reached (`reached`), or outside of a set that holds the
/// roots and what its members lead to (`sets`); what was out of reach stays so (`kept`, `kept_of_sets`); and nothing outside
/// is read (`seen`, `seen_of_sets`).
pub fn law_commands_at_any_depth()
    ensures reached { CommandsConfine }
    ensures sets { CommandsConfineToSets }
    ensures kept { CommandsKeepReach }
    ensures kept_of_sets { CommandsKeepReachOfSets }
    ensures seen { CommandsSeeReach }
    ensures seen_of_sets { CommandsSeeSets }
{}

/// What `law_s` concludes of instances outside of reach is no less than what it asks: where they have as many segments in the
/// other store, they have as many in the stores that are left.
pub fn law_segments_stay_as_many()
    ensures { SegmentsStayAsMany }
{}
