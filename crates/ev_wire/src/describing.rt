//! What describes to the peer what a note tells.

ghost use Rattle.std.specs.Prelude.{◌≡◌, IfOk, length};
ghost use Rattle.ev_base.specs.declared.values.Value.TheVariants as value;
ghost use Rattle.def_op.specs.Frames.{ListOf};
ghost use Rattle.def_op.specs.Views.{all_described, described, operation};
ghost use Rattle.def_machine.specs.Values.{word_of};
ghost use Rattle.ev_pass.specs.Notes.{all_parcels, key_of, noted, parcel};
ghost use Rattle.ev_prims.specs.Reading.{text_in};
ghost use Rattle.ev_wire.specs.Writing.{described_note, described_parcel, described_parcels, described_reference, described_value, message_op, value_of};

use crate::numbering::{is_ours, value_of};
use def_op::{Desc, Op, Plain, Resolved};
use ev_base::{Memory, PromId, Seq, Str, TextId, Value};
use ev_heap::Heap;
use ev_pass::{Interior, Note, Passed, Reference, Swiss};
use ev_tables::{Connection, describe};

/// The text of a number, and the empty one where there is none.
fn text_of(heap: &Heap, id: TextId) -> &str
    ensures { result.now ≡ text_in heap.now id }
{
    match heap.find_text(id) {
        Some(text) => text,
        None => "",
    }
}

/// A copy of it.
fn copy_of(inside: &Interior, id: TextId) -> Result<Str, Memory>
    ensures { IfOk result (λ text. text ≡ text_in inside.now.heap id) }
{
    Str::copy_of(inside.alloc, text_of(&inside.heap, id))
}

/// What describes a reference.
#[tactic(auto, unfolding(crate::specs::Writing::described_reference))]
fn describe_reference(inside: &Interior, connection: &Connection, value: &Value) -> Desc
    ensures { described result ≡ described_reference inside.now value.now connection.now }
{
    describe(connection, *value, is_ours(&inside.refs, value))
}

/// What describes a value.
#[tactic(auto, unfolding(crate::specs::Writing::described_value))]
fn describe_value(inside: &Interior, connection: &Connection, value: &Value) -> Result<Desc, Memory>
    ensures { IfOk result (λ d. described d ≡ described_value inside.now value.now connection.now) }
{
    match value {
        Value::Null => Ok(Desc::Plain(Plain::Null)),
        Value::Bool(truth) => Ok(Desc::Plain(Plain::Bool(*truth))),
        Value::Int(integer) => Ok(Desc::Plain(Plain::Int(*integer))),
        Value::Char(character) => Ok(Desc::Plain(Plain::Char(*character))),
        Value::Text(id) => Ok(Desc::Plain(Plain::Text(copy_of(inside, *id)?))),
        Value::List(_) => Ok(Desc::ListOf(Vec::new(inside.alloc))),
        Value::Prim(primitive) => Ok(Desc::Plain(Plain::Prim(*primitive))),
        Value::Broken(id) => Ok(Desc::Broken(copy_of(inside, *id)?)),
        Value::Obj(_) | Value::Prom(_) | Value::Far(_, _) => {
            Ok(describe_reference(inside, connection, value))
        }
    }
}

/// The word of a gift.
fn word_of(swiss: &Swiss) -> u128
    ensures { result ≡ word_of (key_of swiss.now) }
{
    swiss.word
}

/// A list of these members.
fn listed(members: Vec<Desc>) -> Desc
    ensures { described result ≡ ListOf (all_described members.items) }
{
    Desc::ListOf(members)
}

/// What describes a value that passes.
#[cycle(describing)]
#[tactic(auto, unfolding(crate::specs::Writing::described_parcel))]
fn describe_passed(
    inside: &Interior,
    connection: &Connection,
    passed: &Passed,
) -> Result<Desc, Memory>
    ensures { IfOk result (λ d. described d ≡ described_parcel inside.now (parcel passed.now) connection.now) }
{
    match passed {
        Passed::Plain(value) => describe_value(inside, connection, value),
        Passed::Gift(host, swiss) => Ok(Desc::Third {
            host: *host,
            swiss: word_of(swiss),
        }),
        Passed::List(members) => match describe_all(inside, connection, members.as_slice()) {
            Ok(members) => Ok(listed(members)),
            Err(memory) => Err(memory),
        },
    }
}

/// What describes values that pass, from left to right.
#[cycle(describing)]
fn describe_all(
    inside: &Interior,
    connection: &Connection,
    passed: &[Passed],
) -> Result<Vec<Desc>, Memory>
    ensures { IfOk result (λ ds. all_described ds.items ≡ described_parcels inside.now (all_parcels passed.now) connection.now) }
{
    let mut descs = Vec::new(inside.alloc);
    for part in passed {
        match describe_passed(inside, connection, part) {
            Ok(desc) => descs.push(desc)?,
            Err(memory) => return Err(memory),
        }
    }
    Ok(descs)
}

/// A message, which asks the next question where it asks for an answer.
#[tactic(auto, unfolding(crate::specs::Writing::message_op))]
fn message_op(asks: bool, question: u64, target: Desc, verb: Str, args: Vec<Desc>) -> Op
    ensures { operation result ≡ message_op asks question (described target) verb (all_described args.items) }
{
    let args = Seq::of(args);
    if asks {
        return Op::Deliver {
            question,
            target,
            verb,
            args,
        };
    }
    Op::DeliverOnly { target, verb, args }
}

/// What a message says.
fn describe_message(
    inside: &Interior,
    connection: &Connection,
    asks: bool,
    target: Reference,
    verb: &str,
    args: &[Passed],
) -> Result<Op, Memory>
    ensures { IfOk result (λ op. operation op ≡ message_op asks (length connection.now.asked) (described_reference inside.now (value_of target) connection.now) verb.now (described_parcels inside.now (all_parcels args.now) connection.now)) }
{
    let args = describe_all(inside, connection, args)?;
    let verb = Str::copy_of(inside.alloc, verb)?;
    let target = describe_reference(inside, connection, &value_of(target));
    Ok(message_op(asks, connection.next_question(), target, verb, args))
}

/// What describes a promise.
fn describe_name(inside: &Interior, connection: &Connection, name: PromId) -> Desc
    ensures { described result ≡ described_reference inside.now (value.Prom name) connection.now }
{
    describe_reference(inside, connection, &Value::Prom(name))
}

/// What a note says to the peer, once each thing that it tells has its number.
#[tactic(auto, unfolding(crate::specs::Writing::described_note))]
pub(crate) fn describe_note(
    inside: &Interior,
    connection: &Connection,
    note: &Note,
) -> Result<Op, Memory>
    ensures { IfOk result (λ op. operation op ≡ described_note inside.now (noted note.now) connection.now) }
{
    match note {
        Note::Deliver {
            message: _,
            answer,
            target,
            verb,
            args,
        } => describe_message(
            inside,
            connection,
            answer.is_some(),
            *target,
            verb.as_str(),
            args.as_slice(),
        ),
        Note::Open(swiss, reference) => Ok(Op::Provide {
            target: describe_reference(inside, connection, &value_of(*reference)),
            swiss: word_of(swiss),
        }),
        Note::Ask(provider, swiss, _) => Ok(Op::Accept {
            question: connection.next_question(),
            provider: *provider,
            swiss: word_of(swiss),
        }),
        Note::Settled(name, passed) => Ok(Op::Resolve {
            to: Resolved::To(describe_passed(inside, connection, passed)?),
            subject: describe_name(inside, connection, *name),
        }),
        Note::Elsewhere(name, vat) => Ok(Op::Resolve {
            subject: describe_name(inside, connection, *name),
            to: Resolved::Elsewhere(*vat),
        }),
        Note::Shorten(name, _, swiss) => Ok(Op::Shorten {
            subject: describe_name(inside, connection, *name),
            swiss: word_of(swiss),
        }),
    }
}
