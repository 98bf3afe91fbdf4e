//! What stands once in the tables by which the numbers of a vat are read, in every world of every
//! run: after any of the opening turns of a script, and after all of them and any entries of a
//! schedule; and what does not.

ghost use Rattle.law_reference.specs.Reference.Exports.{ExportsAreDistinct, PositionsAreOfOneName};
ghost use Rattle.law_reference.specs.Reference.Knowing.{StepsKnowOnce};
ghost use Rattle.law_reference.specs.Reference.Returns.{AMessageReturns};
ghost use Rattle.law_reference.specs.Reference.NameTableRuns.{NamesAreKnownOnce};
ghost use Rattle.law_reference.specs.Reference.Tables.{TablesTellThingsApart};

/// The names that a vat exported to another, in the order of their positions, differ pairwise, and
/// the exporter is the host of each.
pub fn positions_are_of_one_name()
    ensures { PositionsAreOfOneName }
{}

/// Each object that a vat has a position for is one of another vat, and no two positions are of one
/// object: what the theorem on numbers asks of the exports of a table.
pub fn exports_are_distinct()
    ensures { ExportsAreDistinct }
{}

/// A message may come back to its sender, which has it twice from then on, by computing.
///
/// It was sent to a promise of another vat, which settled to an object of the sender.
/// The two vats know the answers of it at both, each once.
#[tactic(auto, unfolding(def_run::specs::World::opened_world, crate::specs::Reference::Returns::opened_returns))]
pub fn a_message_returns()
    ensures { AMessageReturns }
{}

/// A step of a vat makes a name known only in three ways, and each as often as it happens: the vat
/// numbers it in this step (its next promise, the answer of its next message, a gift of a draw that
/// it makes), the note that arrives brings it, or a message is sent on that was held.
///
/// The claims on a name at a vat are how often it is known there, and how often it may come to be
/// known where what is held is sent on. From any state, however the step ends: the claims after it
/// are no more than those before, one where the name was numbered in the step, and what the note
/// brings. A note brings each name in it that is new, each gift that it passes, the answers of its
/// message, and the gift that it opens or asks for where that is absent.
pub fn steps_know_once()
    ensures { StepsKnowOnce }
{}

/// The names that each vat knows differ pairwise: after any of the opening turns, and after all of
/// them and any entries of a schedule by which each note that arrives brings each name once at most,
/// and none that is claimed at the receiver or that one of the two has not numbered yet.
///
/// No vat of the script may be told twice that it knows a vat, or that it knows itself. That the
/// notes of every run bring what is new is proved in `apart`.
pub fn names_are_known_once()
    ensures { NamesAreKnownOnce }
{}

/// The table of each vat, by which its numbers are read, tells things apart: the names that it knows are roots, promises,
/// answers and gifts and differ pairwise, the messages that it has had are messages, what other vats exported to it is
/// theirs, and no two positions are of one object. So the theorem on numbers can be applied to it.
///
/// It is so after any of the opening turns, and after all of them and any entries of a schedule by which each note that
/// arrives brings what is new. No vat of the script may be told twice that it knows a vat, or that it knows itself.
pub fn tables_tell_things_apart()
    ensures { TablesTellThingsApart }
{}
