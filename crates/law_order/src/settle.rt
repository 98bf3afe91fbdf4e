//! What is ahead stays ahead as names settle.

ghost use Rattle.law_order.specs.Ordering.Settle.{SendingOnKeeps, SettledIsPassed, SettlingHereKeeps, SettlingKeeps, SettlingToNothingKeeps};
ghost use Rattle.law_order.specs.Ordering.Settlings.{SettlingsKeep};
ghost use Rattle.law_order.specs.Ordering.Resolve.{ResolvingKeeps, SettledCoursesKeep, WaitOnKeeps, WaitingKeeps};

/// What is ahead stays ahead, and what is doomed stays doomed, where what a name held is sent on: each
/// message that stood there is ahead of the place to which that lane leads.
///
/// Else messages may come to the ends of lanes, and a lane may lead on of which nothing was said.
pub fn sending_on_keeps()
    ensures { SendingOnKeeps }
{}

/// As a name settles that holds no message and leads to the place of what it settles to, it is passed by:
/// each reference to it leads to that place, and so does each name that waits for it. All other
/// references lead where they led, in every vat.
///
/// It asks that the name is a promise of the vat itself, which did not notice itself, that it settles to
/// data or to an object, and that what is known afterwards is followed to data, to an object, or to a
/// name that is known and waits.
pub fn settled_names_are_passed()
    ensures { SettledIsPassed }
{}

/// What is ahead stays ahead, and what is doomed stays doomed, as what a name held is sent on and the name
/// settles: each place stays, but what would have been held for the name goes to the place of what it
/// settled to.
///
/// It is said of the three states between which that happens, the second as if the name had not settled
/// yet. It asks what `settled_names_are_passed` asks, and that nothing was said of where the name led,
/// or that it led there already, or that no object takes what is sent there.
pub fn settling_keeps()
    ensures { SettlingKeeps }
{}

/// What is ahead stays ahead, and what is doomed stays doomed, as a name settles to what is nowhere: to data,
/// or to what is broken. What it held is lost, or comes to data, and with it all that was behind it is
/// doomed: so what one of these messages was ahead of is doomed.
///
/// It asks what `settling_keeps` asks.
pub fn settling_to_nothing_keeps()
    ensures { SettlingToNothingKeeps }
{}

/// What is ahead stays ahead, and what is doomed stays doomed, as a name settles to an object of its vat, or
/// to data that is not broken, and the machine sends on the messages that it held.
///
/// It asks what `settling_keeps` asks, and that what the name held was sent on that name.
pub fn settling_here_keeps()
    ensures { SettlingHereKeeps }
{}

/// What is ahead stays ahead, and what is doomed stays doomed, through a whole settling as the machine does it,
/// in the middle of a step: the held messages are sent on, then the names that wait settle, then the
/// reactions are queued, then the vats that are to be told are told; and where a message is lost its
/// answer settles.
///
/// It is said of each thing from the place that it had to the place that it has. Each reference of each vat is
/// where it leads then. A message in a queue, on a link, or held by another vat stands where it stood, behind
/// the same. One that the vat held stands there still; or it is in the vat's queue, where all is ahead of it
/// that was ahead of it; or what was held there is doomed. If the vat was ready it is ready after it: so by
/// `courses_keep` a turn of which all settlings are such keeps order.
///
/// It is said of settlings to data, to an object, and to what is broken. It asks of each name that settles in
/// it, in the state in which it does, what `settling_keeps` asks, and that what it held was sent on it; and
/// that the name is followed to what it settled to when the vats are told, as is the target of each message
/// that is lost or goes out. Where it settles to a list it asks too that the vat is ready. Where the object is
/// of another vat it asks that both vats are honest, that this one is ready and did not notice the other, and
/// that each message that goes out gets a new answer, for which its answer here, unsettled till then, may
/// wait.
pub fn settlings_keep()
    ensures { SettlingsKeep }
{}

/// What is ahead stays ahead, and what is doomed stays doomed, as a name waits for another of which nothing was
/// said: each reference leads where it led, each message stands where it stood, and what the name holds goes
/// on to where the other leads.
///
/// It asks that nothing else changed that tells where messages go.
pub fn waiting_keeps()
    ensures { WaitingKeeps }
{}

/// So it is as the machine has a name wait for another, and a vat that was ready stays so. It asks that the name is
/// known and unsettled, waits for none, and that nothing was said of where it leads.
pub fn wait_on_keeps()
    ensures { WaitOnKeeps }
{}

/// What is ahead stays ahead, what is doomed stays doomed, and a vat that was ready stays so, as the machine
/// resolves a name in the middle of a step: the name waits for another, breaks where the waits lead back to
/// it, or settles.
///
/// It asks what `wait_on_keeps` asks where it waits, and what `settlings_keep` asks where it settles.
pub fn resolving_keeps()
    ensures { ResolvingKeeps }
{}

/// A course keeps the order of each reference and each message, and keeps the vat ready, where each settling in it
/// can go so. By `turns_go_so` each turn is a course.
///
/// It asks of each settling, in the state in which it begins, what `settlings_keep` or `resolving_keeps` asks, and
/// that it comes to its end.
pub fn settled_courses_keep()
    ensures { SettledCoursesKeep }
{}
