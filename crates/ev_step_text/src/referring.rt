//! The lines of what references do, written straight into a text.

ghost use Rattle.std.specs.Prelude.{◌≡◌, ◌++◌, ◌∷◌, [], None, Some, OnOk, codes, string_bytes};
ghost use Rattle.def_event.specs.Lines.{activation as act_word, message as message_word, name, render, spaced, value, values};
ghost use Rattle.def_text.specs.Keywords.{printed_verb};
ghost use Rattle.ev_heap.specs.declared.happened.Happened.TheVariants as event;
ghost use Rattle.ev_step_lines.specs.Lines.{all_held, mail_at, name_at, posted_lines, referred, shown_held};

use crate::held::{add_all, add_held};
use crate::write::{write_problem_act, write_value_act};
use ev_base::{ActId, ListId, MsgId, PromId, Str, Value, VatId};
use ev_event::line::{add_answer, push_act, push_lost, push_message_act};
use ev_event::words::{add_name, add_numbered, add_verb};
use ev_heap::Happened;
use ev_step_lines::Teller;
use std::alloc::AllocError;

/// Appends the words of a message with its target, verb and arguments, in an activation.
fn push_request(
    teller: &Teller<'_>,
    names: &[Str],
    activation: ActId,
    word: &str,
    message: MsgId,
    target: Value,
    verb: &str,
    args: &[Value],
    out: &mut String,
) -> Result<(), AllocError>
    ensures { OnOk result (string_bytes out.new ≡ string_bytes out.old ++ spaced (act_word activation ∷ word.now ∷ message_word names.now (mail_at teller.now.naming message) ∷ value names.now (shown_held teller.now target) ∷ printed_verb verb.now ∷ values names.now (all_held teller.now args.now))) }
{
    push_message_act(
        out,
        names,
        activation.0,
        word,
        &teller.table.message(message),
    )?;
    add_held(teller, names, target, out)?;
    add_verb(out, verb)?;
    add_all(teller, names, args, out)
}

/// Appends the line of a message that is delivered.
fn write_take(
    teller: &Teller<'_>,
    names: &[Str],
    activation: ActId,
    message: MsgId,
    target: Value,
    verb: &str,
    args: &[Value],
    answer: Option<PromId>,
    out: &mut String,
) -> Result<(), AllocError>
    ensures { OnOk result (string_bytes out.new ≡ string_bytes out.old ++ render names.now (referred teller.now (event.Take activation message target verb.now args.now answer))) }
{
    push_request(
        teller, names, activation, "take", message, target, verb, args, out,
    )?;
    out.push('\n')
}

/// Appends the line of a send that asks for no answer.
fn write_sent_only(
    teller: &Teller<'_>,
    names: &[Str],
    activation: ActId,
    message: MsgId,
    target: Value,
    verb: &str,
    args: &[Value],
    out: &mut String,
) -> Result<(), AllocError>
    ensures { OnOk result (string_bytes out.new ≡ string_bytes out.old ++ render names.now (referred teller.now (event.Send activation message target verb.now args.now None))) }
{
    push_request(
        teller, names, activation, "sendonly", message, target, verb, args, out,
    )?;
    out.push('\n')
}

/// Appends the line of a send that asks for an answer.
fn write_sent_for(
    teller: &Teller<'_>,
    names: &[Str],
    activation: ActId,
    message: MsgId,
    target: Value,
    verb: &str,
    args: &[Value],
    answer: PromId,
    out: &mut String,
) -> Result<(), AllocError>
    ensures { OnOk result (string_bytes out.new ≡ string_bytes out.old ++ render names.now (referred teller.now (event.Send activation message target verb.now args.now (Some answer)))) }
{
    push_request(
        teller, names, activation, "send", message, target, verb, args, out,
    )?;
    add_answer(out, names, &teller.table.name(answer))?;
    out.push('\n')
}

/// Appends the line of a send, by the answer that it asks for.
fn write_sent(
    teller: &Teller<'_>,
    names: &[Str],
    activation: ActId,
    message: MsgId,
    target: Value,
    verb: &str,
    args: &[Value],
    answer: Option<PromId>,
    out: &mut String,
) -> Result<(), AllocError>
    ensures { OnOk result (string_bytes out.new ≡ string_bytes out.old ++ render names.now (referred teller.now (event.Send activation message target verb.now args.now answer))) }
{
    match answer {
        None => write_sent_only(teller, names, activation, message, target, verb, args, out),
        Some(answer) => write_sent_for(
            teller, names, activation, message, target, verb, args, answer, out,
        ),
    }
}

/// Appends the words of a reaction that was asked for.
fn push_reacting(
    teller: &Teller<'_>,
    names: &[Str],
    activation: ActId,
    message: MsgId,
    held: Value,
    reaction: Value,
    answer: PromId,
    out: &mut String,
) -> Result<(), AllocError>
    ensures { OnOk result (string_bytes out.new ≡ string_bytes out.old ++ spaced (act_word activation ∷ codes "when" ∷ message_word names.now (mail_at teller.now.naming message) ∷ value names.now (shown_held teller.now held) ∷ value names.now (shown_held teller.now reaction) ∷ codes "->" ∷ name names.now (name_at teller.now.naming answer) ∷ [])) }
{
    push_message_act(
        out,
        names,
        activation.0,
        "when",
        &teller.table.message(message),
    )?;
    add_held(teller, names, held, out)?;
    add_held(teller, names, reaction, out)?;
    add_answer(out, names, &teller.table.name(answer))
}

/// Appends the line of a reaction that was asked for.
fn write_reacting(
    teller: &Teller<'_>,
    names: &[Str],
    activation: ActId,
    message: MsgId,
    held: Value,
    reaction: Value,
    near: Value,
    answer: PromId,
    out: &mut String,
) -> Result<(), AllocError>
    ensures { OnOk result (string_bytes out.new ≡ string_bytes out.old ++ render names.now (referred teller.now (event.When activation message held reaction near answer))) }
{
    push_reacting(
        teller, names, activation, message, held, reaction, answer, out,
    )?;
    out.push('\n')
}

/// Appends the line of a promise, whose resolver is an object, and nothing where that is another value.
fn write_promise(
    teller: &Teller<'_>,
    names: &[Str],
    activation: ActId,
    promise: PromId,
    resolver: Value,
    out: &mut String,
) -> Result<(), AllocError>
    ensures { OnOk result (string_bytes out.new ≡ string_bytes out.old ++ render names.now (referred teller.now (event.Promise activation promise resolver))) }
{
    let Value::Obj(id) = resolver else {
        return Ok(());
    };
    push_act(out, activation.0, "promise")?;
    add_name(out, names, &teller.table.name(promise))?;
    add_numbered(out, names, (teller.vat(), id.0), '.')?;
    out.push('\n')
}

/// Appends the line of a list that arrived.
fn write_arrived(
    teller: &Teller<'_>,
    names: &[Str],
    list: ListId,
    members: &[Value],
    out: &mut String,
) -> Result<(), AllocError>
    ensures { OnOk result (string_bytes out.new ≡ string_bytes out.old ++ render names.now (referred teller.now (event.Arrived list members.now))) }
{
    out.push_str("list")?;
    add_numbered(out, names, (teller.vat(), list.0), '%')?;
    add_all(teller, names, members, out)?;
    out.push('\n')
}

/// Appends the line of a name that settled.
fn write_settle(
    teller: &Teller<'_>,
    names: &[Str],
    settled: PromId,
    held: Value,
    out: &mut String,
) -> Result<(), AllocError>
    ensures { OnOk result (string_bytes out.new ≡ string_bytes out.old ++ render names.now (referred teller.now (event.Settle settled held))) }
{
    out.push_str("settle")?;
    add_name(out, names, &teller.table.name(settled))?;
    add_held(teller, names, held, out)?;
    out.push('\n')
}

/// Appends the line of a name and another.
fn write_names(
    teller: &Teller<'_>,
    names: &[Str],
    word: &str,
    first: PromId,
    second: PromId,
    out: &mut String,
) -> Result<(), AllocError>
    ensures { OnOk result (string_bytes out.new ≡ string_bytes out.old ++ (spaced (word.now ∷ name names.now (name_at teller.now.naming first) ∷ name names.now (name_at teller.now.naming second) ∷ []) ++ 10 ∷ [])) }
{
    out.push_str(word)?;
    add_name(out, names, &teller.table.name(first))?;
    add_name(out, names, &teller.table.name(second))?;
    out.push('\n')
}

/// Appends the line of a message that was lost.
fn write_lost(
    teller: &Teller<'_>,
    names: &[Str],
    message: MsgId,
    word: &str,
    out: &mut String,
) -> Result<(), AllocError>
    ensures { OnOk result (string_bytes out.new ≡ string_bytes out.old ++ (spaced (codes "lost" ∷ message_word names.now (mail_at teller.now.naming message) ∷ word.now ∷ []) ++ 10 ∷ [])) }
{
    push_lost(out, names, &teller.table.message(message), word)?;
    out.push('\n')
}

/// Appends the line of a message that was put, where the link is cut.
fn write_posted(
    teller: &Teller<'_>,
    names: &[Str],
    to: VatId,
    message: MsgId,
    out: &mut String,
) -> Result<(), AllocError>
    ensures { OnOk result (string_bytes out.new ≡ string_bytes out.old ++ render names.now (posted_lines teller.now to message)) }
{
    if teller.is_cut(to) {
        write_lost(teller, names, message, "cut", out)
    } else {
        Ok(())
    }
}

/// Appends the line of what references do, and nothing of anything else.
pub(crate) fn write_referred(
    teller: &Teller<'_>,
    names: &[Str],
    happened: &Happened,
    out: &mut String,
) -> Result<(), AllocError>
    ensures { OnOk result (string_bytes out.new ≡ string_bytes out.old ++ render names.now (referred teller.now happened.now)) }
{
    match happened {
        Happened::Take {
            activation,
            message,
            target,
            verb,
            args,
            answer,
        } => write_take(
            teller,
            names,
            *activation,
            *message,
            *target,
            verb.as_str(),
            args.as_slice(),
            *answer,
            out,
        ),
        Happened::Arrived(id, members) => {
            write_arrived(teller, names, *id, members.as_slice(), out)
        }
        Happened::Promise(act, promise, resolver) => {
            write_promise(teller, names, *act, *promise, *resolver, out)
        }
        Happened::Send {
            activation,
            message,
            target,
            verb,
            args,
            answer,
        } => write_sent(
            teller,
            names,
            *activation,
            *message,
            *target,
            verb.as_str(),
            args.as_slice(),
            *answer,
            out,
        ),
        Happened::When {
            activation,
            message,
            value,
            reaction,
            near,
            answer,
        } => write_reacting(
            teller,
            names,
            *activation,
            *message,
            *value,
            *reaction,
            *near,
            *answer,
            out,
        ),
        Happened::Done(act, held) => write_value_act(teller, names, *act, "done", *held, out),
        Happened::Threw(act, held) => write_problem_act(teller, *act, "threw", *held, out),
        Happened::Settle(settled, held) => write_settle(teller, names, *settled, *held, out),
        Happened::Wait(first, second) => write_names(teller, names, "wait", *first, *second, out),
        Happened::View(first, second) => write_names(teller, names, "view", *first, *second, out),
        Happened::LostBroken(message) => write_lost(teller, names, *message, "broken", out),
        Happened::Posted(to, message) => write_posted(teller, names, *to, *message, out),
        _ => Ok(()),
    }
}
