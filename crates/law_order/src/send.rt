//! What sends and passings do to what is ahead of what, and what a whole turn does.

ghost use Rattle.law_order.specs.Ordering.Steps.{CoursesKeep, DeliveringGrows, GrownKeeps, PassingGrows, ReactingGrows, SendingGoesSo, SendingGrows, SendsAreAhead, TurnsGoSo};

/// As a value passes to a vat the ways only grow, in the middle of a step, and each reference leads where
/// it led: notes that let gifts go are put, and of those gifts nothing was said before.
///
/// So by `law_order::growing_keeps` what is ahead stays ahead, and what is doomed stays doomed. It
/// asks that the vat is ready: it has its own number, what it knows is followed to an end, and what it
/// will make is new. It is ready after it too.
pub fn passing_grows()
    ensures { PassingGrows }
{}

/// So they do as a message is delivered to another vat with all its arguments.
pub fn delivering_grows()
    ensures { DeliveringGrows }
{}

/// So they do as an object reacts on a value: the message of the reaction is new, and its answer comes to
/// be known.
pub fn reacting_grows()
    ensures { ReactingGrows }
{}

/// A whole send by an activation goes by such changes, with the new message, its answer and its
/// arguments; where the value is broken, the answer settles at the end.
pub fn sending_goes_so()
    ensures { SendingGoesSo }
{}

/// Whatever trees say, a whole turn, that takes a message or opens a vat, goes by changes that keep the
/// vat ready, by which the ways only grow and each reference leads where it led, and by settlings and
/// resolvings, each whole.
///
/// It is said of each end of the turn. So where each settling keeps what is ahead, the turn does.
pub fn turns_go_so()
    ensures { TurnsGoSo }
{}

/// By changes by which the ways only grow, messages come to the ends of lanes alone, and each reference leads
/// where it led, what is ahead of a reference or a message stays ahead of it, and what is doomed stays
/// doomed. Each message stands where it stood, behind the same.
pub fn grown_keeps()
    ensures { GrownKeeps }
{}

/// So a course keeps the order of each reference and each message, and keeps the vat ready, where each settling
/// in it does.
///
/// By `turns_go_so` each turn is such a course, so of a turn only its settlings are open. A message that the vat
/// held stands there still at its end; or it is in a queue or on a link, where all is ahead of it that was
/// ahead of it; or what was held there is doomed.
pub fn courses_keep()
    ensures { CoursesKeep }
{}

/// A whole send by an activation, with the new message, its answer and all its arguments, makes the ways
/// only grow, and each reference leads where it led.
///
/// It asks that the vat is ready and that the value is followed to no broken reference.
pub fn sending_grows()
    ensures { SendingGrows }
{}

/// After a whole send on a value that a vat has in hand, the new message is ahead of the place to which the
/// value led: it stands there, or what is sent there is lost.
///
/// It asks that the vat is ready, that it and the host of what the value is followed to are honest, and
/// that the value is data, an object or a name that the vat knows. Of a broken reference it is said of the
/// place to which that led before its answer settled.
pub fn sends_are_ahead()
    ensures { SendsAreAhead }
{}
