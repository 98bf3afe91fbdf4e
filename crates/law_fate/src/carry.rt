//! Each message is carried at most twice.

ghost use Rattle.law_fate.specs.Fates.CarryExample.{IsCarriedTwice};
ghost use Rattle.law_fate.specs.Fates.CarryLaws.{StepsLighten};
ghost use Rattle.law_fate.specs.Fates.CarryRuns.{CarriesAndWeight, MessagesGoToHosts, TwoCarriesAtMost};

/// No step of a vat lets a message be carried more often than twice for each time that it is sent.
///
/// A message in a queue, or one that reacts, is carried no more; one that is held at a name once
/// more; one in a deliver note once where the target is an object, and twice at most where it is a
/// promise. This is its weight. However the step ends, unless it stops, what it weighs after the
/// step, at the vat and in the notes that the vat put, is no more than before, and twice its sends
/// in this step, and what a note that arrives leaves it: one where it comes on a promise, and
/// nothing where it comes on an object.
///
/// It asks that all is in place in the state before (`Sound`), and of a note that arrives what
/// `steps_keep_places` asks, that a deliver note comes to the host of its target, and that no note
/// tells a host of its own name where that settled. All is in place after it.
pub fn steps_lighten()
    ensures { StepsLighten }
{}

/// In every world of a run the carries of a message, and what it weighs there, are together no more
/// than twice its sends, and of these there is one at most.
///
/// It is said of the world after any opening turns and after any entries, and of the world at which
/// a run stopped. So a message that was carried twice stands in no deliver note on a link, and is
/// held at no name.
pub fn carries_and_weight()
    ensures { CarriesAndWeight }
{}

/// In every run each message is carried at most twice, whatever the script and the schedule: to the
/// host of its target, and, where that was a promise, on to the host of the object to which it
/// settled.
///
/// A carry is the line of an entry that brings a deliver note of the message to the other end of its
/// link. It is said of every world of a run, also of one at which it stopped, and of the whole
/// history with its closing list.
pub fn two_carries_at_most()
    ensures { TwoCarriesAtMost }
{}

/// In every world of a run each message under way is on a link to the host of its target; each vat
/// knows the host of each name, has no view of a name of its own, and tells others of its own names
/// alone. So what `steps_lighten` asks holds of each step of a run, with `runs_stay_well`.
pub fn messages_go_to_hosts()
    ensures { MessagesGoToHosts }
{}

/// A run by computing in which one message is carried twice: to the host of a promise, and on to
/// the host of the object to which it settled.
#[tactic(auto, unfolding(def_run::specs::World::opened_world, crate::specs::Fates::Carry::opened_carry, crate::specs::Fates::CarryExample::opened_example))]
pub fn one_is_carried_twice()
    ensures { IsCarriedTwice }
{}
