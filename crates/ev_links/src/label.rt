//! Names and lists as keys of tables.

ghost use Rattle.std.specs.Prelude.{◌≡◌};
ghost use Rattle.def_event.specs.Uses.{AList, AName};
ghost use Rattle.ev_links.specs.Label.{label};

use ev_base::{Name, VatId};

/// What a label stands for.
#[derive(Clone, Copy, PartialEq, Eq, Hash)]
pub enum Kind {
    Object,
    Own,
    Answer,
    Gift,
    Root,
    Claimed,
    List,
}

/// A name or a list, by its parts: the vat before its mark, the vat that sent the message of an answer or that provides a claimed gift, and its number or word.
/// What a kind has not is 0.
#[derive(Clone, Copy, PartialEq, Eq, Hash)]
pub struct Label {
    pub kind: Kind,
    pub host: u8,
    pub sender: u8,
    pub number: u128,
}

/// The label of a name.
#[tactic(auto, unfolding(crate::specs::Label::label))]
pub fn name_label(name: &Name) -> Label
    ensures { result ≡ label (AName name.now) }
{
    match name {
        Name::Object(vat, number) => Label {
            kind: Kind::Object,
            host: vat.0,
            sender: 0,
            number: u128::from(*number),
        },
        Name::Own(vat, number) => Label {
            kind: Kind::Own,
            host: vat.0,
            sender: 0,
            number: u128::from(*number),
        },
        Name::Answer(vat, message) => Label {
            kind: Kind::Answer,
            host: vat.0,
            sender: message.sender.0,
            number: u128::from(message.number),
        },
        Name::Gift(vat, number) => Label {
            kind: Kind::Gift,
            host: vat.0,
            sender: 0,
            number: u128::from(*number),
        },
        Name::Root(vat) => Label {
            kind: Kind::Root,
            host: vat.0,
            sender: 0,
            number: 0,
        },
        Name::Claimed(vat, provider, word) => Label {
            kind: Kind::Claimed,
            host: vat.0,
            sender: provider.0,
            number: *word,
        },
    }
}

/// The label of a list, by its vat and its number there.
#[tactic(auto, unfolding(crate::specs::Label::label))]
pub fn list_label(vat: &VatId, number: u64) -> Label
    ensures { result ≡ label (AList vat.now number) }
{
    Label {
        kind: Kind::List,
        host: vat.0,
        sender: 0,
        number: u128::from(number),
    }
}
