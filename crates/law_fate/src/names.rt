//! What holds of names in every world of every run: after any of the opening turns of a script, and
//! after all of them and any entries of a schedule. No vat of the script may be told twice that it
//! knows a vat, or that it knows itself, which the reading of scripts refuses.

ghost use Rattle.law_fate.specs.Name.Runs.{NamesWereMade};
ghost use Rattle.law_fate.specs.Name.Runs.{NotesNameWhatWasMade};
ghost use Rattle.law_fate.specs.Name.Runs.{NamesAreKnown};
ghost use Rattle.law_fate.specs.Name.Runs.{HostsAreTrue};
ghost use Rattle.law_fate.specs.Name.Runs.{RootsAndPromisesAreKnownOnce};
ghost use Rattle.law_fate.specs.Name.Runs.{OwnPromisesAreKnown};
ghost use Rattle.law_fate.specs.Name.Runs.{NextNamesAreNew};
ghost use Rattle.law_fate.specs.Name.Runs.{NamesAndMessagesAreApart};
ghost use Rattle.law_fate.specs.Name.Runs.{TablesAreApart};
ghost use Rattle.law_fate.specs.Name.Runs.{SeveredObjectsStayBroken};
ghost use Rattle.law_fate.specs.Name.Runs.{FollowedBreaksStayBroken};

/// Every name in what a vat has was made: a promise is numbered below the count of its vat's
/// promises, an answer is of a message numbered below the count of its sender's messages, and a
/// gift is of a draw that was made.
pub fn names_were_made()
    ensures { NamesWereMade }
{}

/// Every name in a note under way was made.
pub fn notes_name_what_was_made()
    ensures { NotesNameWhatWasMade }
{}

/// Every name in what a vat has is known to it, or is an object, and every message in what it has
/// is one that it has had.
pub fn names_are_known()
    ensures { NamesAreKnown }
{}

/// A vat takes as the host of each name that it knows the host that the name has.
pub fn hosts_are_true()
    ensures { HostsAreTrue }
{}

/// A vat knows no root twice, and no promise that was made by `Ref.promise()`, its own or
/// another's.
pub fn roots_and_promises_are_known_once()
    ensures { RootsAndPromisesAreKnownOnce }
{}

/// A vat knows each promise that it has made.
pub fn own_promises_are_known()
    ensures { OwnPromisesAreKnown }
{}

/// The next promise of a vat, the answer of its next message at any host, and the gift of the next
/// draw at any host are known to no vat.
pub fn next_names_are_new()
    ensures { NextNamesAreNew }
{}

/// What a vat knows are roots, promises, answers and gifts, and what it has had are messages: no
/// object is among the names known, and no name is both.
pub fn names_and_messages_are_apart()
    ensures { NamesAndMessagesAreApart }
{}

/// In the table of a vat, which reads its own numbers, a promise and a message are no objects, and
/// no name is both. The theorem on a vat's numbers asks this of its table, and that no name is there
/// twice.
pub fn tables_are_apart()
    ensures { TablesAreApart }
{}

/// From any world of a run on, what settlings led, at a vat, to an object of a vat whose cut it
/// noticed is followed there to broken `partition`.
pub fn severed_objects_stay_broken()
    ensures { SeveredObjectsStayBroken }
{}

/// From any world of a run on, what a vat that is at rest follows to a broken reference is followed
/// there to it.
pub fn followed_breaks_stay_broken()
    ensures { FollowedBreaksStayBroken }
{}
