//! What lists are made of, and where their members lead.

ghost use Rattle.law_reference.specs.Reference.ListRuns.{ListsEndInRuns};
ghost use Rattle.law_reference.specs.Reference.ListRingless.{ArrivalsCloseNoRing, NoticeStepsCloseNoRing, TurnsCloseNoRing};
ghost use Rattle.law_reference.specs.Reference.Lists.{ListsAreThere, MembersEndInRuns, ChangesCloseNoRing, NewListsCloseNoRing, NewNamesCloseNoRing, NoticesCloseNoRing, FollowingSuffices, RinglessListsEnd, ConditionsAreNeeded};

/// In each vat of every world of a run each list that stands in a value is there. A list that is a
/// member of another was made before it.
pub fn lists_are_there()
    ensures { ListsAreThere }
{}

/// By its members alone each list comes to an end: list number k after no more than k + 1 steps.
pub fn members_end()
    ensures { MembersEndInRuns }
{}

/// No change of what is known of a name makes a list lead back to itself by members, each followed:
/// where a name settles behind the test, a name is viewed, or it waits, and whatever else of it
/// changes. It is asked that a name which settles neither settled nor is viewed and is followed to
/// itself, so that its host was not noticed, and settles to no name that leads on; or that its view
/// settled to the same. Of a view it is asked that it leads nowhere. So it holds of every state of a
/// vat.
pub fn changes_close_no_ring()
    ensures { ChangesCloseNoRing }
{}

/// Nor does a new list, which is made of what is there.
pub fn new_lists_close_no_ring()
    ensures { NewListsCloseNoRing }
{}

/// Nor does a name that comes to be known.
pub fn new_names_close_no_ring()
    ensures { NewNamesCloseNoRing }
{}

/// Nor does the notice of a cut.
pub fn notices_close_no_ring()
    ensures { NoticesCloseNoRing }
{}

/// What is asked of a name that settles is needed: there is a state with a name that waits, whose
/// host was noticed, and one with a name that is viewed, which settles behind the test to a list that
/// leads back to itself from then on.
pub fn conditions_are_needed()
    ensures { ConditionsAreNeeded }
{}

/// Following looks far enough: where settlings and views lead from a value to a list, in any number
/// of steps, it is followed to that list. So it holds of every state of a vat.
pub fn following_suffices()
    ensures { FollowingSuffices }
{}

/// Where no list leads back to itself, one comes from each value by members, each followed, after no
/// more than as many steps as there are lists, to values without members.
pub fn ringless_lists_end()
    ensures { RinglessListsEnd }
{}

/// Every opening turn and every turn, from a state in which no list leads back to itself, ends in such
/// a state. A view is a gift of one of the given draws. Of the state it is asked too that each list that
/// stands in a value is there, that what waits has a host that was not noticed, that a name that is
/// viewed is of another vat and one of those given, that what waits on a name that is no view is the
/// vat's own and no view, that a name settles to no promise and no view to a list, that the vat answers
/// the messages that it has, that a gift that it hosts is named by its draw, that what it knows is no
/// object, and that the notes put tell truly of what settled; and all that holds of the state after. Of
/// the turn it is asked that the name which it resolves at its end is the vat's own and no view.
pub fn turns_close_no_ring()
    ensures { TurnsCloseNoRing }
{}

/// So does the arrival of every note. Of the note it is asked that it settles a name to no promise,
/// and to a list only a name that is neither viewed nor a view, that it opens under the draw of a view
/// only an object, and that a name which it tells to have settled elsewhere is of another vat and one
/// of those that may be viewed, where the gift of the next draw is new: that draw is then one of a
/// view. Where it may settle a name to a list, it must name nothing of a host that was noticed, but as
/// a gift.
pub fn arrivals_close_no_ring()
    ensures { ArrivalsCloseNoRing }
{}

/// So does the notice of a cut. Of the hosts of what waits nothing is asked, and nothing is said after.
pub fn notice_steps_close_no_ring()
    ensures { NoticeStepsCloseNoRing }
{}

/// In each vat of every world of every run no list leads back to itself, and from each value one comes
/// by members, each followed, after no more than as many steps as there are lists to values without
/// members: after any of the opening turns, and after all of them and any entries in which each notice
/// stands behind a cut of the same two vats. No vat of the script may be told twice that it knows a
/// vat, or that it knows itself.
pub fn lists_end_in_runs()
    ensures { ListsEndInRuns }
{}
