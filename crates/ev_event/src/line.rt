//! The lines of events.

ghost use Rattle.std.specs.Prelude.{◌≡◌, ◌++◌, ◌∷◌, [], IfOk, OnOk, string_bytes, decimal, codes, flat_map};
ghost use Rattle.def_text.specs.Keywords.{printed_verb};
ghost use Rattle.def_event.specs.declared.event.Event.TheVariants.{Call, Made, Send, When};
ghost use Rattle.def_event.specs.Lines.{activation, vat, numbered, name, message, value, note_words, begun_words, values, spaced, hex, line_of, render};
ghost use Rattle.ev_event.specs.Kinds.{referred_line, run_line};

use crate::hex::push_hex;
use crate::names::{push_activation, push_number};
use crate::notes::add_note;
use crate::raw::push_raw;
use crate::words::{
    add_message, add_name, add_numbered, add_part, add_value, add_values, add_vat, add_verb,
    add_word, push_name_and_value, push_names,
};
use def_event::event::{Addressed, Called, Event, MadeObject, Reacting, Sent};
use def_event::note::ShownNote;
use def_event::shown::Shown;
use ev_base::{Memory, Msg, Name, Seq, Str, VatId};
use std::alloc::{AllocError, Global};

/// What an activation does, or how a line begins that says more of it.
pub fn push_act(out: &mut String, id: u64, word: &str) -> Result<(), AllocError>
    ensures { OnOk result (string_bytes out.new ≡ string_bytes out.old ++ spaced (activation id ∷ word.now ∷ [])) }
{
    push_activation(out, id)?;
    add_word(out, word)
}

/// What an activation does with a value.
fn push_value_act(
    alloc: Global,
    out: &mut String,
    names: &[Str],
    id: u64,
    word: &str,
    x: &Shown,
) -> Result<(), AllocError>
    ensures { OnOk result (string_bytes out.new ≡ string_bytes out.old ++ spaced (activation id ∷ word.now ∷ value names.now x.now ∷ [])) }
{
    push_act(out, id, word)?;
    add_value(alloc, out, names, x)
}

/// What an activation does with a var slot.
fn push_slot(
    alloc: Global,
    out: &mut String,
    names: &[Str],
    id: u64,
    word: &str,
    slot: (VatId, u64),
    x: &Shown,
) -> Result<(), AllocError>
    ensures { OnOk result (string_bytes out.new ≡ string_bytes out.old ++ spaced (activation id ∷ word.now ∷ numbered names.now slot.0 38 slot.1 ∷ value names.now x.now ∷ [])) }
{
    push_act(out, id, word)?;
    add_numbered(out, names, slot, '&')?;
    add_value(alloc, out, names, x)
}

/// An entry of no vat, or how the line of another begins.
fn push_entry(out: &mut String, entry: u64, word: &str) -> Result<(), AllocError>
    ensures { OnOk result (string_bytes out.new ≡ string_bytes out.old ++ spaced (decimal entry ∷ word.now ∷ [])) }
{
    push_number(out, entry)?;
    add_word(out, word)
}

/// An entry that begins a turn of a vat.
fn push_turn(out: &mut String, names: &[Str], entry: u64, host: VatId) -> Result<(), AllocError>
    ensures { OnOk result (string_bytes out.new ≡ string_bytes out.old ++ spaced (decimal entry ∷ codes "turn" ∷ vat names.now host ∷ [])) }
{
    push_entry(out, entry, "turn")?;
    add_vat(out, names, host)
}

/// An entry of two vats.
pub(crate) fn push_link_entry(
    out: &mut String,
    names: &[Str],
    entry: u64,
    word: &str,
    from: VatId,
    to: VatId,
) -> Result<(), AllocError>
    ensures { OnOk result (string_bytes out.new ≡ string_bytes out.old ++ spaced (decimal entry ∷ word.now ∷ vat names.now from ∷ vat names.now to ∷ [])) }
{
    push_entry(out, entry, word)?;
    add_vat(out, names, from)?;
    add_vat(out, names, to)
}

/// A note that is carried.
fn push_carry(
    alloc: Global,
    out: &mut String,
    names: &[Str],
    entry: u64,
    from: VatId,
    to: VatId,
    note: &ShownNote,
) -> Result<(), AllocError>
    ensures { OnOk result (string_bytes out.new ≡ string_bytes out.old ++ spaced (decimal entry ∷ codes "carry" ∷ vat names.now from ∷ vat names.now to ∷ note_words names.now note.now)) }
{
    push_link_entry(out, names, entry, "carry", from, to)?;
    add_note(alloc, out, names, note)
}

/// An opening turn of a vat, or how the line begins of what is left at a vat.
pub(crate) fn push_at_vat(
    out: &mut String,
    names: &[Str],
    word: &str,
    host: VatId,
) -> Result<(), AllocError>
    ensures { OnOk result (string_bytes out.new ≡ string_bytes out.old ++ spaced (word.now ∷ vat names.now host ∷ [])) }
{
    out.push_str(word)?;
    add_vat(out, names, host)
}

/// A note that is left on a link.
fn push_left_link(
    alloc: Global,
    out: &mut String,
    names: &[Str],
    from: VatId,
    to: VatId,
    note: &ShownNote,
) -> Result<(), AllocError>
    ensures { OnOk result (string_bytes out.new ≡ string_bytes out.old ++ spaced (codes "left" ∷ codes "link" ∷ vat names.now from ∷ vat names.now to ∷ note_words names.now note.now)) }
{
    push_at_vat(out, names, "left link", from)?;
    add_vat(out, names, to)?;
    add_note(alloc, out, names, note)
}

/// A message that is lost.
pub fn push_lost(out: &mut String, names: &[Str], id: &Msg, word: &str) -> Result<(), AllocError>
    ensures { OnOk result (string_bytes out.new ≡ string_bytes out.old ++ spaced (codes "lost" ∷ message names.now id.now ∷ word.now ∷ [])) }
{
    out.push_str("lost")?;
    add_message(out, names, id)?;
    add_word(out, word)
}

/// What an activation does with a message.
pub fn push_message_act(
    out: &mut String,
    names: &[Str],
    id: u64,
    word: &str,
    m: &Msg,
) -> Result<(), AllocError>
    ensures { OnOk result (string_bytes out.new ≡ string_bytes out.old ++ spaced (activation id ∷ word.now ∷ message names.now m.now ∷ [])) }
{
    push_act(out, id, word)?;
    add_message(out, names, m)
}

/// The target, verb and arguments of a message.
fn add_request(
    alloc: Global,
    out: &mut String,
    names: &[Str],
    target: &Shown,
    verb: &str,
    args: &[Shown],
) -> Result<(), AllocError>
    ensures { OnOk result (string_bytes out.new ≡ string_bytes out.old ++ flat_map (λ v. 32 ∷ v) (value names.now target.now ∷ printed_verb verb.now ∷ values names.now args.now)) }
{
    add_value(alloc, out, names, target)?;
    add_verb(out, verb)?;
    add_values(alloc, out, names, args)
}

/// A message with its target, verb and arguments: one that is taken, or that is sent without an answer.
fn push_addressed(
    alloc: Global,
    out: &mut String,
    names: &[Str],
    word: &str,
    m: &Addressed,
) -> Result<(), AllocError>
    ensures { OnOk result (string_bytes out.new ≡ string_bytes out.old ++ spaced (activation m.now.activation ∷ word.now ∷ message names.now m.now.message ∷ value names.now m.now.target ∷ printed_verb m.now.verb ∷ values names.now m.now.args)) }
{
    push_message_act(out, names, m.activation, word, &m.message)?;
    add_request(
        alloc,
        out,
        names,
        &m.target,
        m.verb.as_str(),
        m.args.as_slice(),
    )
}

/// The activation that a call begins.
pub fn add_begun(out: &mut String, begun: Option<u64>) -> Result<(), AllocError>
    ensures { OnOk result (string_bytes out.new ≡ string_bytes out.old ++ flat_map (λ v. 32 ∷ v) (begun_words begun)) }
{
    match begun {
        None => Ok(()),
        Some(id) => {
            out.push_str(" as ")?;
            push_activation(out, id)
        }
    }
}

/// A call as far as its arguments.
pub fn begin_call(
    alloc: Global,
    out: &mut String,
    names: &[Str],
    id: u64,
    target: &Shown,
    verb: &str,
) -> Result<(), AllocError>
    ensures { OnOk result (string_bytes out.new ≡ string_bytes out.old ++ spaced (activation id ∷ codes "call" ∷ value names.now target.now ∷ printed_verb verb.now ∷ [])) }
{
    push_value_act(alloc, out, names, id, "call", target)?;
    add_verb(out, verb)
}

/// A call.
fn push_call(
    alloc: Global,
    out: &mut String,
    names: &[Str],
    called: &Called,
) -> Result<(), AllocError>
    ensures { OnOk result (string_bytes out.new ≡ string_bytes out.old ++ line_of names.now (Call called.now)) }
{
    begin_call(
        alloc,
        out,
        names,
        called.activation,
        &called.target,
        called.verb.as_str(),
    )?;
    add_values(alloc, out, names, called.args.as_slice())?;
    add_begun(out, called.begun)
}

/// An object that is made.
fn push_made(
    alloc: Global,
    out: &mut String,
    names: &[Str],
    made: &MadeObject,
) -> Result<(), AllocError>
    ensures { OnOk result (string_bytes out.new ≡ string_bytes out.old ++ line_of names.now (Made made.now)) }
{
    push_value_act(alloc, out, names, made.activation, "made", &made.object)?;
    add_word(out, made.name.as_str())?;
    add_part(alloc, out, names, "caps", made.caps.as_slice())?;
    add_part(alloc, out, names, "stamps", made.stamps.as_slice())
}

/// An answer.
pub fn add_answer(out: &mut String, names: &[Str], answer: &Name) -> Result<(), AllocError>
    ensures { OnOk result (string_bytes out.new ≡ string_bytes out.old ++ flat_map (λ v. 32 ∷ v) (codes "->" ∷ name names.now answer.now ∷ [])) }
{
    add_word(out, "->")?;
    add_name(out, names, answer)
}

/// A send.
fn push_send(alloc: Global, out: &mut String, names: &[Str], sent: &Sent) -> Result<(), AllocError>
    ensures { OnOk result (string_bytes out.new ≡ string_bytes out.old ++ line_of names.now (Send sent.now)) }
{
    push_message_act(out, names, sent.activation, "send", &sent.message)?;
    add_request(
        alloc,
        out,
        names,
        &sent.target,
        sent.verb.as_str(),
        sent.args.as_slice(),
    )?;
    add_answer(out, names, &sent.answer)
}

/// A reaction.
fn push_when(
    alloc: Global,
    out: &mut String,
    names: &[Str],
    reacting: &Reacting,
) -> Result<(), AllocError>
    ensures { OnOk result (string_bytes out.new ≡ string_bytes out.old ++ line_of names.now (When reacting.now)) }
{
    push_message_act(out, names, reacting.activation, "when", &reacting.message)?;
    add_value(alloc, out, names, &reacting.value)?;
    add_value(alloc, out, names, &reacting.reaction)?;
    add_answer(out, names, &reacting.answer)
}

/// A promise that an activation makes, and its resolver.
fn push_promise(
    alloc: Global,
    out: &mut String,
    names: &[Str],
    id: u64,
    made: &Name,
    resolver: &Shown,
) -> Result<(), AllocError>
    ensures { OnOk result (string_bytes out.new ≡ string_bytes out.old ++ spaced (activation id ∷ codes "promise" ∷ name names.now made.now ∷ value names.now resolver.now ∷ [])) }
{
    push_activation(out, id)?;
    out.push(' ')?;
    push_name_and_value(alloc, out, names, "promise", made, resolver)
}

/// A message that is left in the queue of a vat.
fn push_left_queue(out: &mut String, names: &[Str], host: VatId, id: &Msg) -> Result<(), AllocError>
    ensures { OnOk result (string_bytes out.new ≡ string_bytes out.old ++ spaced (codes "left" ∷ codes "queue" ∷ vat names.now host ∷ message names.now id.now ∷ [])) }
{
    push_at_vat(out, names, "left queue", host)?;
    add_message(out, names, id)
}

/// The bytes of the note that was carried.
fn push_frame(out: &mut String, bytes: &[u8]) -> Result<(), AllocError>
    ensures { OnOk result (string_bytes out.new ≡ string_bytes out.old ++ spaced (codes "frame" ∷ hex bytes.now ∷ [])) }
{
    out.push_str("frame ")?;
    push_hex(out, bytes)
}

/// A list that arrives.
fn push_arrived(
    alloc: Global,
    out: &mut String,
    names: &[Str],
    list: (VatId, u64),
    members: &[Shown],
) -> Result<(), AllocError>
    ensures { OnOk result (string_bytes out.new ≡ string_bytes out.old ++ spaced (codes "list" ∷ numbered names.now list.0 37 list.1 ∷ values names.now members.now)) }
{
    out.push_str("list")?;
    add_numbered(out, names, list, '%')?;
    add_values(alloc, out, names, members)
}

/// A list that an activation makes.
fn push_list(
    alloc: Global,
    out: &mut String,
    names: &[Str],
    id: u64,
    list: (VatId, u64),
    members: &[Shown],
) -> Result<(), AllocError>
    ensures { OnOk result (string_bytes out.new ≡ string_bytes out.old ++ spaced (activation id ∷ codes "list" ∷ numbered names.now list.0 37 list.1 ∷ values names.now members.now)) }
{
    push_activation(out, id)?;
    out.push(' ')?;
    push_arrived(alloc, out, names, list, members)
}

/// A message that is left held on a name.
fn push_left_held(
    out: &mut String,
    names: &[Str],
    host: VatId,
    held: &Name,
    id: &Msg,
) -> Result<(), AllocError>
    ensures { OnOk result (string_bytes out.new ≡ string_bytes out.old ++ spaced (codes "left" ∷ codes "held" ∷ vat names.now host ∷ name names.now held.now ∷ message names.now id.now ∷ [])) }
{
    push_at_vat(out, names, "left held", host)?;
    add_name(out, names, held)?;
    add_message(out, names, id)
}

/// A reaction that is left waiting.
fn push_left_wait(
    alloc: Global,
    out: &mut String,
    names: &[Str],
    host: VatId,
    x: &Shown,
    id: &Msg,
) -> Result<(), AllocError>
    ensures { OnOk result (string_bytes out.new ≡ string_bytes out.old ++ spaced (codes "left" ∷ codes "wait" ∷ vat names.now host ∷ value names.now x.now ∷ message names.now id.now ∷ [])) }
{
    push_at_vat(out, names, "left wait", host)?;
    add_value(alloc, out, names, x)?;
    add_message(out, names, id)
}

/// Appends the line of an entry of a run, of what is left at its end or of the end, and nothing of another event.
fn push_run(alloc: Global, out: &mut String, names: &[Str], event: &Event) -> Result<(), AllocError>
    ensures { OnOk result (string_bytes out.new ≡ string_bytes out.old ++ run_line names.now event.now) }
{
    match event {
        Event::Open(host) => push_at_vat(out, names, "open", *host),
        Event::Turn(entry, host) => push_turn(out, names, *entry, *host),
        Event::Idle(entry) => push_entry(out, *entry, "idle"),
        Event::Carry(entry, v, w, note) => push_carry(
            alloc,
            out,
            names,
            *entry,
            *v,
            *w,
            note.get(),
        ),
        Event::Cut(entry, v, w) => push_link_entry(out, names, *entry, "cut", *v, *w),
        Event::Notice(entry, v, w) => push_link_entry(out, names, *entry, "notice", *v, *w),
        Event::Frame(bytes) => push_frame(out, bytes.as_slice()),
        Event::LeftQueue(host, id) => push_left_queue(out, names, *host, id),
        Event::LeftHeld(host, held, id) => push_left_held(out, names, *host, held, id),
        Event::LeftWait(host, x, id) => push_left_wait(alloc, out, names, *host, x, id),
        Event::LeftLink(v, w, note) => push_left_link(alloc, out, names, *v, *w, note.get()),
        Event::End => out.push_str("end"),
        Event::Raw(line) => push_raw(out, names, line),
        _ => Ok(()),
    }
}

/// Appends the line of what references do, or of a run, and nothing of a step of evaluation.
fn push_referred(
    alloc: Global,
    out: &mut String,
    names: &[Str],
    event: &Event,
) -> Result<(), AllocError>
    ensures { OnOk result (string_bytes out.new ≡ string_bytes out.old ++ referred_line names.now event.now) }
{
    match event {
        Event::Take(taken) => push_addressed(alloc, out, names, "take", taken.get()),
        Event::Arrived(list, xs) => push_arrived(alloc, out, names, *list, xs.as_slice()),
        Event::Promise(id, made, x) => push_promise(alloc, out, names, *id, made, x),
        Event::Send(sent) => push_send(alloc, out, names, sent.get()),
        Event::SendOnly(sent) => push_addressed(alloc, out, names, "sendonly", sent.get()),
        Event::When(reacting) => push_when(alloc, out, names, reacting.get()),
        Event::Done(id, x) => push_value_act(alloc, out, names, *id, "done", x),
        Event::Threw(id, x) => push_value_act(alloc, out, names, *id, "threw", x),
        Event::Settle(subject, x) => push_name_and_value(alloc, out, names, "settle", subject, x),
        Event::Wait(p, q) => push_names(out, names, "wait", p, q),
        Event::View(p, q) => push_names(out, names, "view", p, q),
        Event::LostCut(id) => push_lost(out, names, id, "cut"),
        Event::LostBroken(id) => push_lost(out, names, id, "broken"),
        other => push_run(alloc, out, names, other),
    }
}

/// Appends the line of an event.
pub fn push_event(
    alloc: Global,
    out: &mut String,
    names: &[Str],
    event: &Event,
) -> Result<(), AllocError>
    ensures { OnOk result (string_bytes out.new ≡ string_bytes out.old ++ line_of names.now event.now) }
{
    match event {
        Event::Call(called) => push_call(alloc, out, names, called.get()),
        Event::Back(id, x) => push_value_act(alloc, out, names, *id, "back", x),
        Event::Thrown(id, x) => push_value_act(alloc, out, names, *id, "thrown", x),
        Event::Gone(id) => push_act(out, *id, "gone"),
        Event::Got(id, x) => push_value_act(alloc, out, names, *id, "got", x),
        Event::Slot(id, slot, x) => push_slot(alloc, out, names, *id, "slot", *slot, x),
        Event::Read(id, slot, x) => push_slot(alloc, out, names, *id, "read", *slot, x),
        Event::Wrote(id, slot, x) => push_slot(alloc, out, names, *id, "wrote", *slot, x),
        Event::List(id, list, xs) => push_list(alloc, out, names, *id, *list, xs.as_slice()),
        Event::Ejector(id, x) => push_value_act(alloc, out, names, *id, "ejector", x),
        Event::Audition(id, x) => push_value_act(alloc, out, names, *id, "audition", x),
        Event::Made(made) => push_made(alloc, out, names, made.get()),
        other => push_referred(alloc, out, names, other),
    }
}

/// About how many bytes a line has.
const LINE: usize = 32;

/// The lines of events, each with its line feed. They are written into one text, which begins with room for lines of the usual length.
pub(crate) fn render_all(alloc: Global, events: &[Event], names: &Seq<Str>) -> Result<Str, Memory>
    ensures { IfOk result (λ text. text ≡ render names.now events.now) }
{
    let mut text = String::with_capacity(alloc, events.len().saturating_mul(LINE))?;
    for event in events {
        push_event(alloc, &mut text, names.as_slice(), event)?;
        text.push('\n')?;
    }
    Ok(Str::of(text))
}
