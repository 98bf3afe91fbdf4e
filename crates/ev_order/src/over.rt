//! Places of arguments that lead over to where the arguments come.

ghost use Rattle.std.specs.Prelude.{◌≡◌, ◌+◌, ◌≤◌, length, slice_get};
ghost use Rattle.ev_order.specs.Over.{AreSingle, FitIn, IsJoin, IsJoined, IsPair, Joins, is_reference};

use crate::mentions::{Mention, Mentions};
use crate::spread::Place;
use def_event::Reference;

/// Whether a reference stands at a place.
fn is_reference(references: &[Option<Reference>], place: usize) -> bool
    ensures { result ≡ is_reference (slice_get references.now place) }
{
    matches!(references.get(place), Some(Some(_)))
}

/// A place leads over to another, where a reference stands at both, if it leads nowhere yet.
fn join(places: &mut [Place], references: &[Option<Reference>], from: usize, to: usize)
    requires { length places.old ≡ length references.now }
    ensures { Joins (IsPair references.now from to) places.old places.new }
{
    if !is_reference(references, from) || !is_reference(references, to) {
        return;
    }
    if places[from].over.is_none() {
        places[from].over = Some(to);
    }
}

/// The arguments of a message lead over to where they come, where its first carry leaves the vat that sent it.
fn join_arguments(
    places: &mut [Place],
    references: &[Option<Reference>],
    sent: Mention,
    carried: Mention,
)
    requires same_length { length places.old ≡ length references.now }
    requires sent { sent.first + sent.args ≤ length references.now }
    requires carried { carried.first + carried.args ≤ length references.now }
    ensures { Joins (IsJoin references.now sent carried) places.old places.new }
{
    if sent.vat != carried.vat {
        return;
    }
    let count = sent.args.min(carried.args);
    for k in 0..count {
        join(places, references, sent.first + k, carried.first + k);
    }
}

/// The arguments of the message that is mentioned as a number lead over.
fn join_message(
    places: &mut [Place],
    references: &[Option<Reference>],
    sent: &Mentions,
    carried: &Mentions,
    number: usize,
)
    requires same_length { length places.old ≡ length references.now }
    requires sent { FitIn references.now sent.now }
    requires carried { FitIn references.now carried.now }
    requires single { AreSingle carried.now }
    ensures { Joins (λ i j. (o : IsJoined references.now sent.now carried.now i j) × (o.number ≡ number)) places.old places.new }
{
    let Some((message, send)) = sent.get(number) else {
        return;
    };
    let Some(carry) = carried.find(message) else {
        return;
    };
    join_arguments(places, references, send, carry);
}

/// The arguments of all messages lead over. Time grows with the messages and their arguments.
pub fn join_all(
    places: &mut [Place],
    references: &[Option<Reference>],
    sent: &Mentions,
    carried: &Mentions,
)
    requires same_length { length places.old ≡ length references.now }
    requires sent { FitIn references.now sent.now }
    requires carried { FitIn references.now carried.now }
    requires single { AreSingle carried.now }
    ensures { Joins (IsJoined references.now sent.now carried.now) places.old places.new }
{
    for number in 0..sent.len() {
        join_message(places, references, sent, carried, number);
    }
}
