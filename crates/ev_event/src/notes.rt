//! The words of notes.

ghost use Rattle.std.specs.Prelude.{◌≡◌, ◌++◌, ◌∷◌, [], OnOk, codes, string_bytes, flat_map};
ghost use Rattle.def_text.specs.Keywords.{printed_verb};
ghost use Rattle.def_event.specs.Lines.{note_words, message, name, values, vat, spaced};

use crate::words::{
    add_message, add_name, add_values, add_vat, add_verb, push_name_and_value, push_names,
};
use def_event::note::ShownNote;
use def_event::shown::Shown;
use ev_base::{Msg, Name, Str, VatId};
use std::alloc::{AllocError, Global};

/// A note that delivers a message.
fn push_delivery(
    alloc: Global,
    out: &mut String,
    names: &[Str],
    word: &str,
    id: &Msg,
    target: &Name,
    verb: &str,
    args: &[Shown],
) -> Result<(), AllocError>
    ensures { OnOk result (string_bytes out.new ≡ string_bytes out.old ++ spaced (word.now ∷ message names.now id.now ∷ name names.now target.now ∷ printed_verb verb.now ∷ values names.now args.now)) }
{
    out.push_str(word)?;
    add_message(out, names, id)?;
    add_name(out, names, target)?;
    add_verb(out, verb)?;
    add_values(alloc, out, names, args)
}

/// A note of a name and a vat.
fn push_name_and_vat(
    out: &mut String,
    names: &[Str],
    word: &str,
    subject: &Name,
    host: VatId,
) -> Result<(), AllocError>
    ensures { OnOk result (string_bytes out.new ≡ string_bytes out.old ++ spaced (word.now ∷ name names.now subject.now ∷ vat names.now host ∷ [])) }
{
    out.push_str(word)?;
    add_name(out, names, subject)?;
    add_vat(out, names, host)
}

/// Appends the words of a note.
pub(crate) fn add_note(
    alloc: Global,
    out: &mut String,
    names: &[Str],
    note: &ShownNote,
) -> Result<(), AllocError>
    ensures { OnOk result (string_bytes out.new ≡ string_bytes out.old ++ flat_map (λ v. 32 ∷ v) (note_words names.now note.now)) }
{
    out.push(' ')?;
    match note {
        ShownNote::Deliver {
            message,
            target,
            verb,
            args,
        } => {
            let (verb, args) = (verb.as_str(), args.as_slice());
            push_delivery(alloc, out, names, "deliver", message, target, verb, args)
        }
        ShownNote::DeliverOnly {
            message,
            target,
            verb,
            args,
        } => {
            let (verb, args) = (verb.as_str(), args.as_slice());
            push_delivery(
                alloc,
                out,
                names,
                "deliveronly",
                message,
                target,
                verb,
                args,
            )
        }
        ShownNote::Settled(subject, x) => push_name_and_value(
            alloc, out, names, "settled", subject, x,
        ),
        ShownNote::Elsewhere(subject, host) => {
            push_name_and_vat(out, names, "elsewhere", subject, *host)
        }
        ShownNote::Open(gift, target) => push_names(out, names, "open", gift, target),
        ShownNote::Ask(gift, provider) => push_name_and_vat(out, names, "ask", gift, *provider),
        ShownNote::Shorten(subject, gift) => push_names(out, names, "shorten", subject, gift),
    }
}
