//! What is ahead of what on the ways that messages have before them, and that single changes keep it.

ghost use Rattle.law_order.specs.Ordering.Changes.{GoingOnKeeps, GrowingKeeps, HeadsAreFree, LosingKeeps, SentIsAhead, TakingKeeps};
ghost use Rattle.law_order.specs.Ordering.Example.{FirstIsAhead, HeldOrder, PassedOrder, PlacesAreTold};
ghost use Rattle.law_order.specs.Ordering.Turns.{CuttingKeeps, NoticingKeeps, PassingByKeeps, TurningKeeps};
ghost use Rattle.law_order.specs.Ordering.Worlds.{AddingGrows, BeginningChangesNoWay, ComingGrows, FirstIsTaken, IdleChangesNoWay, QueuesAreFree, SentMessagesAreAhead};

/// Nothing is ahead of what stands first in a queue, and it is not doomed. So where each message that
/// is to be taken before another, and is neither taken nor lost, is ahead of it, the other is taken
/// after it; and where one was lost, what is doomed for that is not taken.
///
/// It is said of all ways in which a queue leads on to nothing.
pub fn heads_are_free()
    ensures { HeadsAreFree }
{}

/// A message is ahead of all that comes to its lane behind it on the same name.
pub fn sent_is_ahead()
    ensures { SentIsAhead }
{}

/// What is ahead stays ahead, and what is doomed stays doomed, where messages come to the ends of lanes
/// and where a name goes on of which nothing was said: the ways grow.
pub fn growing_keeps()
    ensures { GrowingKeeps }
{}

/// What is ahead stays ahead, and what is doomed stays doomed, where a message leaves a lane and comes to
/// the end of the lane to which that one leads: by an arrival, or where what a name held is sent on.
///
/// It holds of the message itself and of all others, and of each place, in front of which the message
/// may have stood.
pub fn going_on_keeps()
    ensures { GoingOnKeeps }
{}

/// Where a message leaves a lane that leads nowhere from its name, all that it was ahead of is doomed.
/// All others stay ahead of what they were ahead of, and what is doomed stays doomed.
///
/// It asks that the message stood nowhere else.
pub fn losing_keeps()
    ensures { LosingKeeps }
{}

/// Where a message is taken from a queue, all others stay ahead of what they were ahead of, and what is
/// doomed stays doomed.
pub fn taking_keeps()
    ensures { TakingKeeps }
{}

/// What is ahead stays ahead, and what is doomed stays doomed, where held messages come to wait for
/// something else: for a place of another name that leads on alike, for one in the same lane behind all
/// that stood there, or for what comes next where nothing stood in front.
pub fn turning_keeps()
    ensures { TurningKeeps }
{}

/// What is ahead stays ahead, and what is doomed stays doomed, where a name that holds no message is
/// passed by: what would have been held there goes at once to where the name leads.
pub fn passing_by_keeps()
    ensures { PassingByKeeps }
{}

/// Where a link is cut, what is doomed stays doomed, and a message that did not stand on the link stays
/// ahead. All that a message was ahead of which stood there alone is doomed.
pub fn cutting_keeps()
    ensures { CuttingKeeps }
{}

/// Which messages are before which in a run, by computing: two that are held for a promise, and one that is
/// sent on the object that the first brings, to which the promise settled.
#[tactic(auto, unfolding(crate::specs::Ordering::Order::opened_order, crate::specs::Ordering::Example::opened_example))]
pub fn held_messages_keep_order()
    ensures { HeldOrder }
{}

/// Which messages are before which in a run, by computing: a reference passes to another vat, which sends
/// on it what comes first to the host of the object, and is taken second. The history in which the two are
/// exchanged is refused.
#[tactic(auto, unfolding(crate::specs::Ordering::Order::opened_order, crate::specs::Ordering::Example::opened_example))]
pub fn passed_references_keep_order()
    ensures { PassedOrder }
{}

/// In every world nothing is ahead of the place in front of a queue, and it is not doomed, whichever vats
/// are honest.
pub fn queues_are_free()
    ensures { QueuesAreFree }
{}

/// The ways of a world do not hang on its history, its fuel or its draws. So an entry that is idle changes
/// none.
pub fn idle_changes_no_way()
    ensures { IdleChangesNoWay }
{}

/// Where a vat sends a message on a followed value, the message is ahead of the place of that value from
/// then on, in the middle of the step: it stands there, or all that is sent there is lost.
///
/// It is said of every act that sends a message which has an answer: of one that is held, that arrives, or
/// that is new and does not go out at once. It asks that the vat and the host of the value are honest, and
/// that a promise of the vat to which the value is followed is known and waits.
pub fn sent_messages_are_ahead()
    ensures { SentMessagesAreAhead }
{}

/// In the middle of a step of a vat the ways only grow by what only adds: by messages that come to its queue
/// or to what names hold, by vats that are to be told, by reactions and names that wait, and by notes that
/// let no gift go. So by `growing_keeps` what is ahead stays ahead.
///
/// It asks that no name comes to be known and none stands otherwise than it stood. Of the link of a note it
/// asks nothing: it may be cut, or not be there.
pub fn adding_grows()
    ensures { AddingGrows }
{}

/// A step of a vat begins in the ways of its world: the same stands in each lane, and each leads to the
/// same places.
pub fn beginning_changes_no_way()
    ensures { BeginningChangesNoWay }
{}

/// As the first message of a queue is taken, if it is on an object, it leaves the queue and nothing else
/// changes. So by `taking_keeps` what is ahead stays ahead, and by `heads_are_free` nothing was ahead of it.
pub fn first_is_taken()
    ensures { FirstIsTaken }
{}

/// What is ahead stays ahead, and what is doomed stays doomed, where what leads over a link that is cut
/// leads nowhere from then on, as the vat has it that notices the cut.
pub fn noticing_keeps()
    ensures { NoticingKeeps }
{}

/// The places in a world, by computing: a message waits at the host of a gift for the note that lets the
/// gift go, which is under way behind another message.
#[tactic(auto, unfolding(crate::specs::Ordering::Example::opened_example))]
pub fn places_are_told()
    ensures { PlacesAreTold }
{}

/// So the other message is ahead of it in that world.
pub fn first_is_ahead()
    ensures { FirstIsAhead }
{}

/// In the middle of a step the ways only grow as a name comes to be known with its host: what was sent on it
/// would have stood there before. So by `growing_keeps` what is ahead stays ahead.
///
/// It asks that the vat has its own number, that the name is no object and was not known, that no object is
/// among the names known, and that what is known is followed to data, to an object, or to a name that is
/// known and waits.
pub fn coming_grows()
    ensures { ComingGrows }
{}
