//! Notes as the lines of a history print them.

ghost use Rattle.std.specs.Prelude.{◌≡◌, IfOk};
ghost use Rattle.def_event.specs.Lines.{members};
ghost use Rattle.ev_resident.specs.Noting.{delivered, noted_line, shown_parcel, shown_parcels, shown_plain, shown_reference};
ghost use Rattle.ev_pass.specs.Notes.{all_parcels, noted, parcel};

use crate::names::name_of_gift;
use def_event::{Shown, ShownNote};
use ev_base::{Memory, Msg, Name, PromId, Seq, Str, Value, VatId};
use ev_intro::Words;
use ev_pass::note::{Note, Passed, Reference};
use ev_step_lines::Teller;
use ev_step_lines::shown::shown;
use std::marker::Model;

/// A vat that puts a note, as its lines are told, and the words of the run.
#[derive(Drop)]
pub struct Noting<'a> {
    pub teller: &'a Teller<'a>,
    pub words: &'a Words,
}

impl<'a> Model for Noting<'a> {
    ghost use Rattle.ev_resident.specs.Noting.{Noting};

    ghost Value = { Noting };

    ghost view = { λ n. record { telling = n.teller.now; drawn = n.words.now } };
}

/// What a note is about.
fn shown_reference(teller: &Teller<'_>, reference: Reference) -> Name
    ensures { result ≡ shown_reference teller.now reference }
{
    match reference {
        Reference::Object(id) => Name::Object(teller.vat(), id.0),
        Reference::Promise(name) => teller.table.name(name),
        Reference::Far(host, position) => {
            Name::Object(host, teller.table.object(host, position))
        }
    }
}

/// A value that passes alone.
fn shown_plain(teller: &Teller<'_>, value: Value) -> Result<Shown, Memory>
    ensures { IfOk result (λ s. s ≡ shown_plain teller.now value) }
{
    match value {
        Value::List(id) => Ok(Shown::List(VatId(0), id.0)),
        other => shown(teller, other),
    }
}

/// A list of these members.
fn listed(all: Seq<Shown>) -> Shown
    ensures { result ≡ members all }
{
    Shown::Members(all)
}

/// A value that passes.
#[cycle(noting)]
#[tactic(auto, unfolding(crate::specs::Noting::shown_parcel))]
fn shown_passed(noting: &Noting<'_>, passed: &Passed) -> Result<Shown, Memory>
    ensures { IfOk result (λ s. s ≡ shown_parcel noting.now (parcel passed.now)) }
{
    match passed {
        Passed::Plain(value) => shown_plain(noting.teller, *value),
        Passed::Gift(host, swiss) => Ok(Shown::Name(name_of_gift(*host, *swiss, noting.words))),
        Passed::List(members) => match shown_all(noting, members.as_slice()) {
            Ok(members) => Ok(listed(members)),
            Err(memory) => Err(memory),
        },
    }
}

/// Values that pass, in order.
#[cycle(noting)]
fn shown_all(noting: &Noting<'_>, passed: &[Passed]) -> Result<Seq<Shown>, Memory>
    ensures { IfOk result (λ all. all ≡ shown_parcels noting.now (all_parcels passed.now)) }
{
    let teller = noting.teller;
    let mut all = Seq::new(teller.alloc);
    for part in passed {
        match shown_passed(noting, part) {
            Ok(value) => all.push(value)?,
            Err(memory) => return Err(memory),
        }
    }
    Ok(all)
}

/// A message, by whether it asks for an answer.
#[tactic(auto, unfolding(crate::specs::Noting::delivered))]
fn delivered(
    answer: Option<PromId>,
    message: Msg,
    target: Name,
    verb: Str,
    args: Seq<Shown>,
) -> ShownNote
    ensures { result ≡ delivered answer message target verb args }
{
    match answer {
        Some(_) => ShownNote::Deliver {
            message,
            target,
            verb,
            args,
        },
        None => ShownNote::DeliverOnly {
            message,
            target,
            verb,
            args,
        },
    }
}

/// A note to that vat.
#[tactic(auto, unfolding(crate::specs::Noting::noted_line))]
pub fn shown_note(noting: &Noting<'_>, to: VatId, note: &Note) -> Result<ShownNote, Memory>
    ensures { IfOk result (λ s. s ≡ noted_line noting.now to (noted note.now)) }
{
    let teller = noting.teller;
    let table = teller.table;
    match note {
        Note::Deliver {
            message,
            answer,
            target,
            verb,
            args,
        } => {
            let args = shown_all(noting, args.as_slice())?;
            let verb = Str::copy_of(teller.alloc, verb.as_str())?;
            let target = shown_reference(teller, *target);
            Ok(delivered(*answer, table.message(*message), target, verb, args))
        }
        Note::Open(swiss, target) => Ok(ShownNote::Open(
            name_of_gift(to, *swiss, noting.words),
            shown_reference(teller, *target),
        )),
        Note::Ask(provider, _, name) => Ok(ShownNote::Ask(table.name(*name), *provider)),
        Note::Settled(name, value) => {
            let value = shown_passed(noting, value)?;
            Ok(ShownNote::Settled(table.name(*name), value))
        }
        Note::Elsewhere(name, host) => Ok(ShownNote::Elsewhere(table.name(*name), *host)),
        Note::Shorten(name, host, swiss) => Ok(ShownNote::Shorten(
            table.name(*name),
            name_of_gift(*host, *swiss, noting.words),
        )),
    }
}
