//! The lines of what happened, written straight into a text from the small lines in which it is told: no line is kept between.

ghost use Rattle.std.specs.Prelude.{◌≡◌, ◌++◌, ◌∷◌, ℕ, List, [], OnOk, codes, flat_map, map, string_bytes};
ghost use Rattle.def_event.specs.Lines.{activation as act_word, begun_words, numbered, part, render, spaced, value, values};
ghost use Rattle.def_text.specs.Keywords.{is_identifier, printed_verb};
ghost use Rattle.def_text.specs.Quoting.{shortened};
ghost use Rattle.ev_heap.specs.declared.happened.Happened.TheVariants as event;
ghost use Rattle.ev_heap.specs.Told.{Fits, first, others, told};
ghost use Rattle.ev_step_text.specs.Spelled.{IsKnown};
ghost use Rattle.ev_step_lines.specs.Lines.{all_held, lines, lines_of, problem_at, shown_capture, shown_held};

use crate::held::{add_all, add_captures, add_held, add_lent, add_problem};
use crate::referring::write_referred;
use crate::spelled::{add_verb, is_plain};
use ev_base::{ActId, ListId, ObjId, SlotId, Str, Value};
use ev_event::line::{add_begun, push_act};
use ev_event::words::{add_numbered, add_word};
use ev_heap::lines::Line;
use ev_heap::{Capture, Cursor, Happened, Held, Lines};
use ev_step_lines::Teller;
use ev_text::is_identifier;
use std::alloc::AllocError;

/// An activation, by its number in four bytes.
fn activation(number: u32) -> ActId
    ensures { result ≡ number }
{
    ActId(u64::from(number))
}

/// A slot, by its number in four bytes.
fn slot(number: u32) -> SlotId
    ensures { result ≡ number }
{
    SlotId(u64::from(number))
}

/// The number of an activation.
fn number(activation: Option<ActId>) -> Option<u64>
    ensures { result ≡ activation }
{
    match activation {
        None => None,
        Some(id) => Some(id.0),
    }
}

/// Appends the line of what an activation does with a value.
pub(crate) fn write_value_act(
    teller: &Teller<'_>,
    names: &[Str],
    activation: ActId,
    word: &str,
    held: Value,
    out: &mut String,
) -> Result<(), AllocError>
    ensures { OnOk result (string_bytes out.new ≡ string_bytes out.old ++ (spaced (act_word activation ∷ word.now ∷ value names.now (shown_held teller.now held) ∷ []) ++ 10 ∷ [])) }
{
    push_act(out, activation.0, word)?;
    add_held(teller, names, held, out)?;
    out.push('\n')
}

/// Appends the line of what an activation does with a problem.
pub(crate) fn write_problem_act(
    teller: &Teller<'_>,
    activation: ActId,
    word: &str,
    held: Value,
    out: &mut String,
) -> Result<(), AllocError>
    ensures { OnOk result (string_bytes out.new ≡ string_bytes out.old ++ (spaced (act_word activation ∷ word.now ∷ shortened (problem_at teller.now held) ∷ []) ++ 10 ∷ [])) }
{
    push_act(out, activation.0, word)?;
    add_problem(teller, held, out)?;
    out.push('\n')
}

/// Appends the line of what an activation does with a var slot.
fn write_slot_act(
    teller: &Teller<'_>,
    names: &[Str],
    activation: ActId,
    word: &str,
    slot: SlotId,
    held: Value,
    out: &mut String,
) -> Result<(), AllocError>
    ensures { OnOk result (string_bytes out.new ≡ string_bytes out.old ++ (spaced (act_word activation ∷ word.now ∷ numbered names.now teller.now.naming.vat 38 slot ∷ value names.now (shown_held teller.now held) ∷ []) ++ 10 ∷ [])) }
{
    push_act(out, activation.0, word)?;
    add_numbered(out, names, (teller.vat(), slot.0), '&')?;
    add_held(teller, names, held, out)?;
    out.push('\n')
}

/// Appends the line of an activation that was left.
fn write_gone(activation: ActId, out: &mut String) -> Result<(), AllocError>
    ensures { OnOk result (string_bytes out.new ≡ string_bytes out.old ++ (spaced (act_word activation ∷ codes "gone" ∷ []) ++ 10 ∷ [])) }
{
    push_act(out, activation.0, "gone")?;
    out.push('\n')
}

/// Appends the line of what an activation does with an object, which is no other value: of another there is none.
pub(crate) fn write_object_act(
    teller: &Teller<'_>,
    names: &[Str],
    activation: ActId,
    word: &str,
    object: ObjId,
    out: &mut String,
) -> Result<(), AllocError>
    ensures { OnOk result (string_bytes out.new ≡ string_bytes out.old ++ (spaced (act_word activation ∷ word.now ∷ numbered names.now teller.now.naming.vat 46 object ∷ []) ++ 10 ∷ [])) }
{
    push_act(out, activation.0, word)?;
    add_numbered(out, names, (teller.vat(), object.0), '.')?;
    out.push('\n')
}

/// Appends a call as far as its arguments.
fn begin_call(
    teller: &Teller<'_>,
    names: &[Str],
    activation: ActId,
    target: Value,
    verb: &str,
    plain: bool,
    out: &mut String,
) -> Result<(), AllocError>
    requires { plain ≡ is_identifier verb.now }
    ensures { OnOk result (string_bytes out.new ≡ string_bytes out.old ++ spaced (act_word activation ∷ codes "call" ∷ value names.now (shown_held teller.now target) ∷ printed_verb verb.now ∷ [])) }
{
    push_act(out, activation.0, "call")?;
    add_held(teller, names, target, out)?;
    add_verb(out, verb, plain)
}

/// Appends the line of a call whose values are its target and its arguments.
fn write_call(
    teller: &Teller<'_>,
    names: &[Str],
    activation: ActId,
    verb: &str,
    plain: bool,
    values: &Held<'_>,
    begun: Option<ActId>,
    out: &mut String,
) -> Result<(), AllocError>
    requires { plain ≡ is_identifier verb.now }
    ensures { OnOk result (string_bytes out.new ≡ string_bytes out.old ++ render names.now (lines teller.now (event.Call activation (first values.now) verb.now (others values.now) begun))) }
{
    begin_call(teller, names, activation, values.first(), verb, plain, out)?;
    add_lent(teller, names, &values.others(), out)?;
    add_begun(out, number(begun))?;
    out.push('\n')
}

/// Appends the line of a call that is told whole.
fn write_whole_call(
    teller: &Teller<'_>,
    names: &[Str],
    activation: ActId,
    target: Value,
    verb: &str,
    args: &[Value],
    begun: Option<ActId>,
    out: &mut String,
) -> Result<(), AllocError>
    ensures { OnOk result (string_bytes out.new ≡ string_bytes out.old ++ render names.now (lines teller.now (event.Call activation target verb.now args.now begun))) }
{
    begin_call(
        teller,
        names,
        activation,
        target,
        verb,
        is_identifier(verb),
        out,
    )?;
    add_all(teller, names, args, out)?;
    add_begun(out, number(begun))?;
    out.push('\n')
}

/// Appends a list that an activation makes, as far as its members.
fn begin_list(
    teller: &Teller<'_>,
    names: &[Str],
    activation: ActId,
    list: ListId,
    out: &mut String,
) -> Result<(), AllocError>
    ensures { OnOk result (string_bytes out.new ≡ string_bytes out.old ++ spaced (act_word activation ∷ codes "list" ∷ numbered names.now teller.now.naming.vat 37 list ∷ [])) }
{
    push_act(out, activation.0, "list")?;
    add_numbered(out, names, (teller.vat(), list.0), '%')
}

/// Appends the line of a list, by the members that it was made with.
fn write_list(
    teller: &Teller<'_>,
    names: &[Str],
    activation: ActId,
    list: ListId,
    members: &Held<'_>,
    out: &mut String,
) -> Result<(), AllocError>
    ensures { OnOk result (string_bytes out.new ≡ string_bytes out.old ++ render names.now (lines teller.now (event.List activation list members.now))) }
{
    begin_list(teller, names, activation, list, out)?;
    add_lent(teller, names, members, out)?;
    out.push('\n')
}

/// Appends the line of a list that is told whole.
fn write_whole_list(
    teller: &Teller<'_>,
    names: &[Str],
    activation: ActId,
    list: ListId,
    members: &[Value],
    out: &mut String,
) -> Result<(), AllocError>
    ensures { OnOk result (string_bytes out.new ≡ string_bytes out.old ++ render names.now (lines teller.now (event.List activation list members.now))) }
{
    begin_list(teller, names, activation, list, out)?;
    add_all(teller, names, members, out)?;
    out.push('\n')
}

/// Appends the line of an ejector, which is an object, and nothing of another value.
fn write_ejector(
    teller: &Teller<'_>,
    names: &[Str],
    activation: ActId,
    ejector: Value,
    out: &mut String,
) -> Result<(), AllocError>
    ensures { OnOk result (string_bytes out.new ≡ string_bytes out.old ++ render names.now (lines teller.now (event.Ejector activation ejector))) }
{
    match ejector {
        Value::Obj(id) => write_object_act(teller, names, activation, "ejector", id, out),
        _ => Ok(()),
    }
}

/// Appends the line of an audition, which is an object, and nothing of another value.
fn write_audition(
    teller: &Teller<'_>,
    names: &[Str],
    activation: ActId,
    audition: Value,
    out: &mut String,
) -> Result<(), AllocError>
    ensures { OnOk result (string_bytes out.new ≡ string_bytes out.old ++ render names.now (lines teller.now (event.Audition activation audition))) }
{
    match audition {
        Value::Obj(id) => write_object_act(teller, names, activation, "audition", id, out),
        _ => Ok(()),
    }
}

/// Appends what an object captured, behind a word, and nothing where it captured nothing.
fn add_caps(
    teller: &Teller<'_>,
    names: &[Str],
    caps: &[Capture],
    out: &mut String,
) -> Result<(), AllocError>
    ensures { OnOk result (string_bytes out.new ≡ string_bytes out.old ++ flat_map (λ v. 32 ∷ v) (part names.now (codes "caps") (map (shown_capture teller.now) caps.now))) }
{
    if caps.is_empty() {
        return Ok(());
    }
    add_word(out, "caps")?;
    add_captures(teller, names, caps, out)
}

/// Appends the stamps of an object, behind a word, and nothing where it has none.
fn add_stamps(
    teller: &Teller<'_>,
    names: &[Str],
    stamps: &[Value],
    out: &mut String,
) -> Result<(), AllocError>
    ensures { OnOk result (string_bytes out.new ≡ string_bytes out.old ++ flat_map (λ v. 32 ∷ v) (part names.now (codes "stamps") (all_held teller.now stamps.now))) }
{
    if stamps.is_empty() {
        return Ok(());
    }
    add_word(out, "stamps")?;
    add_all(teller, names, stamps, out)
}

/// Appends the line of an object that was made, which is no other value: of another there is none.
fn write_made(
    teller: &Teller<'_>,
    names: &[Str],
    activation: ActId,
    object: Value,
    name: &str,
    caps: &[Capture],
    stamps: &[Value],
    out: &mut String,
) -> Result<(), AllocError>
    ensures { OnOk result (string_bytes out.new ≡ string_bytes out.old ++ render names.now (lines teller.now (event.Made activation object name.now caps.now stamps.now))) }
{
    let Value::Obj(id) = object else {
        return Ok(());
    };
    push_act(out, activation.0, "made")?;
    add_numbered(out, names, (teller.vat(), id.0), '.')?;
    add_word(out, name)?;
    add_caps(teller, names, caps, out)?;
    add_stamps(teller, names, stamps, out)?;
    out.push('\n')
}

/// Appends the line of what is told whole, where it has one.
fn write_rare(
    teller: &Teller<'_>,
    names: &[Str],
    happened: &Happened,
    out: &mut String,
) -> Result<(), AllocError>
    ensures { OnOk result (string_bytes out.new ≡ string_bytes out.old ++ render names.now (lines teller.now happened.now)) }
{
    match happened {
        Happened::Call {
            activation,
            target,
            verb,
            args,
            begun,
        } => write_whole_call(
            teller,
            names,
            *activation,
            *target,
            verb.as_str(),
            args.as_slice(),
            *begun,
            out,
        ),
        Happened::Back(act, value) => write_value_act(teller, names, *act, "back", *value, out),
        Happened::Thrown(act, value) => write_problem_act(teller, *act, "thrown", *value, out),
        Happened::Gone(act) => write_gone(*act, out),
        Happened::Got(act, value) => write_value_act(teller, names, *act, "got", *value, out),
        Happened::Ejector(act, ejector) => write_ejector(teller, names, *act, *ejector, out),
        Happened::Audition(act, audition) => write_audition(teller, names, *act, *audition, out),
        Happened::Slot(act, id, value) => write_slot_act(
            teller, names, *act, "slot", *id, *value, out,
        ),
        Happened::Read(act, id, value) => write_slot_act(
            teller, names, *act, "read", *id, *value, out,
        ),
        Happened::Wrote(act, id, value) => write_slot_act(
            teller, names, *act, "wrote", *id, *value, out,
        ),
        Happened::List(act, id, members) => write_whole_list(
            teller,
            names,
            *act,
            *id,
            members.as_slice(),
            out,
        ),
        Happened::Made {
            activation,
            object,
            name,
            caps,
            stamps,
        } => write_made(
            teller,
            names,
            *activation,
            *object,
            name.as_str(),
            caps.as_slice(),
            stamps.as_slice(),
            out,
        ),
        other => write_referred(teller, names, other, out),
    }
}

/// Appends the line of what a small line tells with its values.
fn write_entry(
    teller: &Teller<'_>,
    names: &[Str],
    read: &Cursor<'_>,
    known: &mut [Option<bool>],
    line: Line,
    values: &Held<'_>,
    out: &mut String,
) -> Result<(), AllocError>
    requires fits { Fits read.now.verbs read.now.rare line }
    requires known { IsKnown read.now.verbs known.old }
    ensures known { IsKnown read.now.verbs known.new }
    ensures text { OnOk result (string_bytes out.new ≡ string_bytes out.old ++ render names.now (lines teller.now (told read.now.verbs read.now.rare line values.now))) }
{
    match line {
        Line::Call(_, act, verb) => write_call(
            teller,
            names,
            activation(act),
            read.verb(verb).as_str(),
            is_plain(read, known, verb),
            values,
            None,
            out,
        ),
        Line::Begins(_, act, verb, begun) => write_call(
            teller,
            names,
            activation(act),
            read.verb(verb).as_str(),
            is_plain(read, known, verb),
            values,
            Some(activation(begun)),
            out,
        ),
        Line::Back(act) => {
            write_value_act(teller, names, activation(act), "back", values.first(), out)
        }
        Line::Thrown(act) => {
            write_problem_act(teller, activation(act), "thrown", values.first(), out)
        }
        Line::Gone(act) => write_gone(activation(act), out),
        Line::Got(act) => {
            write_value_act(teller, names, activation(act), "got", values.first(), out)
        }
        Line::Slot(act, id) => write_slot_act(
            teller,
            names,
            activation(act),
            "slot",
            slot(id),
            values.first(),
            out,
        ),
        Line::Read(act, id) => write_slot_act(
            teller,
            names,
            activation(act),
            "read",
            slot(id),
            values.first(),
            out,
        ),
        Line::Wrote(act, id) => write_slot_act(
            teller,
            names,
            activation(act),
            "wrote",
            slot(id),
            values.first(),
            out,
        ),
        Line::List(_, act, id) => write_list(
            teller,
            names,
            activation(act),
            ListId(u64::from(id)),
            values,
            out,
        ),
        Line::Ejector(act) => write_ejector(teller, names, activation(act), values.first(), out),
        Line::Rare(place) => write_rare(teller, names, read.rare(place), out),
    }
}

/// Of how many verbs it is kept whether they are identifiers: the first of a log.
const VERBS: usize = 64;

/// Appends the lines of all that is left to read.
#[tactic(auto, using(crate::proofs::SpelledLemmas::none_known))]
fn write_all(
    teller: &Teller<'_>,
    names: &[Str],
    read: Cursor<'_>,
    out: &mut String,
) -> Result<(), AllocError>
    ensures { OnOk result (string_bytes out.new ≡ string_bytes out.old ++ render names.now (lines_of teller.now read.entry.left)) }
{
    let mut read = read;
    let mut known = [None; VERBS];
    while let Some(entry) = read.next() {
        write_entry(
            teller,
            names,
            &read,
            &mut known,
            entry.line,
            &entry.values,
            out,
        )?;
    }
    Ok(())
}

/// Appends the lines of all that happened, in order, each with its line feed: the text of the events that `ev_step_lines::push_lines` adds. It refuses for
/// want of memory alone.
pub fn write_lines(
    teller: &Teller<'_>,
    names: &[Str],
    events: &Lines,
    out: &mut String,
) -> Result<(), AllocError>
    ensures { OnOk result (string_bytes out.new ≡ string_bytes out.old ++ render names.now (lines_of teller.now events.now)) }
{
    write_all(teller, names, events.read_on(), out)
}
