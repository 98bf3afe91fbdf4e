//! Chains of waits and views.

ghost use Rattle.law_reference.specs.Reference.Waits.{CycleTestsSuffice, ListTestsSuffice, WaitsEndInRuns, WaitsEndWhereNotesBringNew};

/// Waits and views end: from each name one comes, by no more waits and views than there are names
/// known, to a name that neither waits on another nor is viewed. So no chain of them has a ring.
///
/// It is said of each vat, in every world of a run, that knows no name twice. No vat of the script may be told twice that it
/// knows a vat, or that it knows itself.
pub fn waits_end()
    ensures { WaitsEndInRuns }
{}

/// They end in every vat after any of the opening turns, and after all of them and any entries of a
/// schedule by which each note that arrives brings each name once at most, and none that is claimed
/// at the receiver or that one of the two has not numbered yet: there each vat knows each name once.
/// No vat of the script may be told twice that it knows a vat, or that it knows itself.
pub fn waits_end_where_notes_bring_new()
    ensures { WaitsEndWhereNotesBringNew }
{}

/// The test for a cycle looks far enough: where a chain of waits and views leads from one name to
/// another in any number of steps, it does so in no more than there are names known. So it holds of
/// every state of a vat.
pub fn cycle_tests_suffice()
    ensures { CycleTestsSuffice }
{}

/// The test that keeps a name from settling to a list that leads back to it looks far enough: where
/// members, each followed, lead from a value to a name in any number of steps, they do so in no more
/// than there are lists, and one. So it holds of every state of a vat.
pub fn list_tests_suffice()
    ensures { ListTestsSuffice }
{}
