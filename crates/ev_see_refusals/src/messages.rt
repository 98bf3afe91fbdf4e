//! What fails of messages.

ghost use Rattle.std.specs.Prelude.{◌≡◌, Some, option_map};
ghost use Rattle.def_why.specs.Faults.{answered, came, came_as, came_in, carried, is_answer_of, sent, taken_once, whereabouts};
ghost use Rattle.ev_see_refusals.specs.Table.{last_in};

use crate::faults::{or_else, place_of, unless};
use crate::marks::Marks;
use crate::values::may_all_be;
use def_event::{Event, Shown, ShownNote};
use def_why::{About, Fault, Mark, Reason};
use ev_base::{Msg, Name, VatId};
use std::slice::from_ref;

/// The place to which a line brings a message.
#[tactic(auto, unfolding(def_why::specs::Faults::whereabouts))]
fn brought_to(message: &Msg, event: &Event) -> u64
    ensures { result ≡ whereabouts message.now (Some event.now) }
{
    match event {
        Event::Carry(_, _, vat, _) => place_of(*vat),
        _ => place_of(message.sender),
    }
}

/// The place where a message is, by the last line that moves it.
#[tactic(auto, unfolding(def_why::specs::Faults::whereabouts))]
fn whereabouts(message: &Msg, last: Option<&Event>) -> u64
    ensures { result ≡ whereabouts message.now (option_map (λ e. e.now) last.entry) }
{
    match last {
        Some(event) => brought_to(message, event),
        None => place_of(message.sender),
    }
}

/// Whether a message is taken again, or elsewhere.
pub fn taken_once(marks: &Marks, events: &[Event], at: u64, message: &Msg) -> Option<Fault>
    ensures { result ≡ taken_once (last_in marks.now events.now) at message.now }
{
    let again = marks.has(events, Mark::Taken(*message));
    let place = whereabouts(message, marks.last(events, Mark::Moved(*message)));
    or_else(
        unless(!again, Reason::TakenAgain, About::Message(*message)),
        unless(
            place == at,
            Reason::TakenElsewhere,
            About::Message(*message),
        ),
    )
}

/// Whether a message comes with another verb, or with other data.
fn came_as(message: &Msg, verb: &str, args: &[Shown], was: &str, had: &[Shown]) -> Option<Fault>
    ensures { result ≡ came_as message.now verb.now args.now was.now had.now }
{
    or_else(
        unless(was == verb, Reason::OtherVerb, About::Message(*message)),
        unless(
            may_all_be(had, args),
            Reason::OtherData,
            About::Message(*message),
        ),
    )
}

/// The same by a note.
#[tactic(auto, unfolding(def_why::specs::Faults::came_in))]
fn came_in(message: &Msg, verb: &str, args: &[Shown], note: &ShownNote) -> Option<Fault>
    ensures { result ≡ came_in message.now verb.now args.now note.now }
{
    match note {
        ShownNote::Deliver {
            message: _,
            target: _,
            verb: was,
            args: had,
        } => came_as(message, verb, args, was.as_str(), had.as_slice()),
        ShownNote::DeliverOnly {
            message: _,
            target: _,
            verb: was,
            args: had,
        } => came_as(message, verb, args, was.as_str(), had.as_slice()),
        _ => unless(false, Reason::NotSent, About::Message(*message)),
    }
}

/// The same by a line.
#[tactic(auto, unfolding(def_why::specs::Faults::came))]
fn came_by(message: &Msg, verb: &str, args: &[Shown], event: &Event) -> Option<Fault>
    ensures { result ≡ came message.now verb.now args.now (Some event.now) }
{
    match event {
        Event::Send(sent) => {
            let sent = sent.get();
            came_as(
                message,
                verb,
                args,
                sent.verb.as_str(),
                sent.args.as_slice(),
            )
        }
        Event::SendOnly(sent) => {
            let sent = sent.get();
            came_as(
                message,
                verb,
                args,
                sent.verb.as_str(),
                sent.args.as_slice(),
            )
        }
        Event::When(when) => came_as(message, verb, args, "run", from_ref(&when.get().value)),
        Event::Carry(_, _, _, note) => came_in(message, verb, args, note.get()),
        _ => unless(false, Reason::NotSent, About::Message(*message)),
    }
}

/// Whether a message was not moved by the last line that is about it, or comes with another verb or with other data.
#[tactic(auto, unfolding(def_why::specs::Faults::came))]
pub fn came(message: &Msg, verb: &str, args: &[Shown], last: Option<&Event>) -> Option<Fault>
    ensures { result ≡ came message.now verb.now args.now (option_map (λ e. e.now) last.entry) }
{
    match last {
        Some(event) => came_by(message, verb, args, event),
        None => unless(false, Reason::NotSent, About::Message(*message)),
    }
}

/// Whether a message is not carried as it was moved before, or from elsewhere.
pub fn carried(
    marks: &Marks,
    events: &[Event],
    vat: VatId,
    message: &Msg,
    verb: &str,
    args: &[Shown],
) -> Option<Fault>
    ensures { result ≡ carried (last_in marks.now events.now) vat message.now verb.now args.now }
{
    let place = whereabouts(message, marks.last(events, Mark::Moved(*message)));
    or_else(
        came(
            message,
            verb,
            args,
            marks.last(events, Mark::Moved(*message)),
        ),
        unless(
            place == place_of(vat),
            Reason::CarriedElsewhere,
            About::Message(*message),
        ),
    )
}

/// Whether a message is sent again, or by another vat.
pub fn sent(marks: &Marks, events: &[Event], at: u64, message: &Msg) -> Option<Fault>
    ensures { result ≡ sent (last_in marks.now events.now) at message.now }
{
    let again = marks.has(events, Mark::Moved(*message));
    or_else(
        unless(
            place_of(message.sender) == at,
            Reason::NotOfItsVat,
            About::Message(*message),
        ),
        unless(!again, Reason::SentAgain, About::Message(*message)),
    )
}

#[tactic(auto, unfolding(def_why::specs::Faults::is_answer_of))]
fn is_answer_of(message: &Msg, answer: &Name) -> bool
    ensures { result ≡ is_answer_of message.now answer.now }
{
    match answer {
        Name::Answer(_, other) => message == other,
        _ => false,
    }
}

/// The same of one with an answer, which has the name of that message.
pub fn answered(
    marks: &Marks,
    events: &[Event],
    at: u64,
    message: &Msg,
    answer: &Name,
) -> Option<Fault>
    ensures { result ≡ answered (last_in marks.now events.now) at message.now answer.now }
{
    or_else(
        sent(marks, events, at, message),
        unless(
            is_answer_of(message, answer),
            Reason::OtherAnswer,
            About::Name(*answer),
        ),
    )
}
