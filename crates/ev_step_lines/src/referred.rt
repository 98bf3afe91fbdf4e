//! The lines of what references do.

ghost use Rattle.std.specs.Prelude.{◌≡◌, ◌++◌, ◌∷◌, [], None, Some, IfOk, OnOk};
ghost use Rattle.def_event.specs.declared.event.Event.TheVariants.{Arrived, Done, Settle, Take, Threw, When};
ghost use Rattle.def_event.specs.declared.shown.Shown as shown_as;
ghost use Rattle.ev_base.specs.declared.names.Msg.{Msg};
ghost use Rattle.ev_step_lines.specs.Lines.{all_held, mail_at, name_at, posted_lines, problem_at, promise_lines, referred, sent_line, shown_held};

use crate::shown::{problem, shown, shown_all};
use crate::teller::Teller;
use def_event::{Addressed, Boxed, Event, Reacting, Sent, Shown};
use ev_base::{ActId, ListId, Memory, MsgId, Name, PromId, Str, Value, VatId};
use ev_event::History;
use ev_heap::Happened;

/// A message with its target, verb and arguments, in an activation.
fn addressed(
    teller: &Teller<'_>,
    activation: ActId,
    message: MsgId,
    target: Value,
    verb: &str,
    args: &[Value],
) -> Result<Boxed<Addressed>, Memory>
    ensures { IfOk result (λ a. a ≡ record { activation = activation; message = mail_at teller.now.naming message; target = shown_held teller.now target; verb = verb.now; args = all_held teller.now args.now }) }
{
    Boxed::new(
        teller.alloc,
        Addressed {
            activation: activation.0,
            message: teller.table.message(message),
            target: shown(teller, target)?,
            verb: Str::copy_of(teller.alloc, verb)?,
            args: shown_all(teller, args)?,
        },
    )
}

/// The line of a send that asks for no answer.
fn sent_only(
    teller: &Teller<'_>,
    activation: ActId,
    message: MsgId,
    target: Value,
    verb: &str,
    args: &[Value],
) -> Result<Event, Memory>
    ensures { IfOk result (λ line. line ≡ sent_line teller.now activation message target verb.now args.now None) }
{
    let sent = addressed(teller, activation, message, target, verb, args)?;
    Ok(Event::SendOnly(sent))
}

/// The line of a send that asks for an answer.
fn sent_for(
    teller: &Teller<'_>,
    activation: ActId,
    message: MsgId,
    target: Value,
    verb: &str,
    args: &[Value],
    answer: PromId,
) -> Result<Event, Memory>
    ensures { IfOk result (λ line. line ≡ sent_line teller.now activation message target verb.now args.now (Some answer)) }
{
    let sent = Sent {
        activation: activation.0,
        message: teller.table.message(message),
        target: shown(teller, target)?,
        verb: Str::copy_of(teller.alloc, verb)?,
        args: shown_all(teller, args)?,
        answer: teller.table.name(answer),
    };
    Ok(Event::Send(Boxed::new(teller.alloc, sent)?))
}

/// The line of a send, by the answer that it asks for.
fn sent(
    teller: &Teller<'_>,
    activation: ActId,
    message: MsgId,
    target: Value,
    verb: &str,
    args: &[Value],
    answer: Option<PromId>,
) -> Result<Event, Memory>
    ensures { IfOk result (λ line. line ≡ sent_line teller.now activation message target verb.now args.now answer) }
{
    match answer {
        None => sent_only(teller, activation, message, target, verb, args),
        Some(answer) => sent_for(teller, activation, message, target, verb, args, answer),
    }
}

/// The line of a reaction that was asked for.
fn reacting(
    teller: &Teller<'_>,
    activation: ActId,
    message: MsgId,
    value: Value,
    reaction: Value,
    answer: PromId,
) -> Result<Event, Memory>
    ensures { IfOk result (λ line. line ≡ When (record { activation = activation; message = mail_at teller.now.naming message; value = shown_held teller.now value; reaction = shown_held teller.now reaction; answer = name_at teller.now.naming answer })) }
{
    let reacting = Reacting {
        activation: activation.0,
        message: teller.table.message(message),
        value: shown(teller, value)?,
        reaction: shown(teller, reaction)?,
        answer: teller.table.name(answer),
    };
    Ok(Event::When(Boxed::new(teller.alloc, reacting)?))
}

/// Adds the line of a promise, whose resolver is an object.
fn push_promise(
    teller: &Teller<'_>,
    activation: ActId,
    promise: PromId,
    resolver: Value,
    history: &mut History,
) -> Result<(), Memory>
    ensures { OnOk result (history.new ≡ history.old ++ promise_lines teller.now activation promise resolver) }
{
    match resolver {
        Value::Obj(id) => history.push(Event::Promise(
            activation.0,
            teller.table.name(promise),
            Shown::Name(Name::Object(teller.vat(), id.0)),
        )),
        _ => Ok(()),
    }
}

/// Adds the line of a message that was put, where the link is cut.
fn push_posted(
    teller: &Teller<'_>,
    to: VatId,
    message: MsgId,
    history: &mut History,
) -> Result<(), Memory>
    ensures { OnOk result (history.new ≡ history.old ++ posted_lines teller.now to message) }
{
    if teller.is_cut(to) {
        history.push(Event::LostCut(teller.table.message(message)))
    } else {
        Ok(())
    }
}

/// Adds the line of a message that is delivered.
fn push_take(
    teller: &Teller<'_>,
    activation: ActId,
    message: MsgId,
    target: Value,
    verb: &str,
    args: &[Value],
    history: &mut History,
) -> Result<(), Memory>
    ensures { OnOk result (history.new ≡ history.old ++ Take (record { activation = activation; message = mail_at teller.now.naming message; target = shown_held teller.now target; verb = verb.now; args = all_held teller.now args.now }) ∷ []) }
{
    let taken = addressed(teller, activation, message, target, verb, args)?;
    history.push(Event::Take(taken))
}

/// Adds the line of a list that arrived.
fn push_arrived(
    teller: &Teller<'_>,
    list: ListId,
    values: &[Value],
    history: &mut History,
) -> Result<(), Memory>
    ensures { OnOk result (history.new ≡ history.old ++ Arrived (teller.now.naming.vat, list) (all_held teller.now values.now) ∷ []) }
{
    let members = shown_all(teller, values)?;
    history.push(Event::Arrived((teller.vat(), list.0), members))
}

/// Adds the line of a send.
fn push_sent(
    teller: &Teller<'_>,
    activation: ActId,
    message: MsgId,
    target: Value,
    verb: &str,
    args: &[Value],
    answer: Option<PromId>,
    history: &mut History,
) -> Result<(), Memory>
    ensures { OnOk result (history.new ≡ history.old ++ sent_line teller.now activation message target verb.now args.now answer ∷ []) }
{
    let line = sent(teller, activation, message, target, verb, args, answer)?;
    history.push(line)
}

/// Adds the line of a reaction that was asked for.
fn push_reacting(
    teller: &Teller<'_>,
    activation: ActId,
    message: MsgId,
    value: Value,
    reaction: Value,
    answer: PromId,
    history: &mut History,
) -> Result<(), Memory>
    ensures { OnOk result (history.new ≡ history.old ++ When (record { activation = activation; message = mail_at teller.now.naming message; value = shown_held teller.now value; reaction = shown_held teller.now reaction; answer = name_at teller.now.naming answer }) ∷ []) }
{
    let line = reacting(teller, activation, message, value, reaction, answer)?;
    history.push(line)
}

/// Adds the line of a turn that ended with a value.
fn push_done(
    teller: &Teller<'_>,
    activation: ActId,
    value: Value,
    history: &mut History,
) -> Result<(), Memory>
    ensures { OnOk result (history.new ≡ history.old ++ Done activation (shown_held teller.now value) ∷ []) }
{
    let value = shown(teller, value)?;
    history.push(Event::Done(activation.0, value))
}

/// Adds the line of a turn that ended with a problem.
fn push_threw(
    teller: &Teller<'_>,
    activation: ActId,
    value: Value,
    history: &mut History,
) -> Result<(), Memory>
    ensures { OnOk result (history.new ≡ history.old ++ Threw activation (shown_as.Text (problem_at teller.now value)) ∷ []) }
{
    let problem = problem(teller, value)?;
    history.push(Event::Threw(activation.0, Shown::Text(problem)))
}

/// Adds the line of a name that settled.
fn push_settle(
    teller: &Teller<'_>,
    name: PromId,
    value: Value,
    history: &mut History,
) -> Result<(), Memory>
    ensures { OnOk result (history.new ≡ history.old ++ Settle (name_at teller.now.naming name) (shown_held teller.now value) ∷ []) }
{
    let value = shown(teller, value)?;
    history.push(Event::Settle(teller.table.name(name), value))
}

/// Adds the line of what references do, and none of anything else.
pub(crate) fn push_referred(
    teller: &Teller<'_>,
    event: &Happened,
    history: &mut History,
) -> Result<(), Memory>
    ensures { OnOk result (history.new ≡ history.old ++ referred teller.now event.now) }
{
    let table = teller.table;
    match event {
        Happened::Take {
            activation,
            message,
            target,
            verb,
            args,
            answer: _,
        } => push_take(
            teller,
            *activation,
            *message,
            *target,
            verb.as_str(),
            args.as_slice(),
            history,
        ),
        Happened::Arrived(id, values) => push_arrived(teller, *id, values.as_slice(), history),
        Happened::Promise(act, promise, resolver) => {
            push_promise(teller, *act, *promise, *resolver, history)
        }
        Happened::Send {
            activation,
            message,
            target,
            verb,
            args,
            answer,
        } => push_sent(
            teller,
            *activation,
            *message,
            *target,
            verb.as_str(),
            args.as_slice(),
            *answer,
            history,
        ),
        Happened::When {
            activation,
            message,
            value,
            reaction,
            near: _,
            answer,
        } => push_reacting(
            teller,
            *activation,
            *message,
            *value,
            *reaction,
            *answer,
            history,
        ),
        Happened::Done(act, value) => push_done(teller, *act, *value, history),
        Happened::Threw(act, value) => push_threw(teller, *act, *value, history),
        Happened::Settle(name, value) => push_settle(teller, *name, *value, history),
        Happened::Wait(name, other) => {
            history.push(Event::Wait(table.name(*name), table.name(*other)))
        }
        Happened::View(name, other) => {
            history.push(Event::View(table.name(*name), table.name(*other)))
        }
        Happened::LostBroken(message) => history.push(Event::LostBroken(table.message(*message))),
        Happened::Posted(to, message) => push_posted(teller, *to, *message, history),
        _ => Ok(()),
    }
}
