//! The lines of what evaluation does.

ghost use Rattle.std.specs.Prelude.{◌≡◌, ◌++◌, ◌∷◌, [], IfOk, OnOk, map};
ghost use Rattle.def_event.specs.declared.event.Event.TheVariants.{Call, Got, Made};
ghost use Rattle.def_event.specs.declared.shown.Shown as shown_as;
ghost use Rattle.ev_base.specs.declared.names.Name.TheVariants as name_as;
ghost use Rattle.ev_step_lines.specs.Lines.{all_held, audition_lines, ejector_lines, lines, made_lines, shown_capture, shown_held};

use crate::referred::push_referred;
use crate::shown::{caught_all, shown, shown_all};
use crate::single::{push_back, push_list, push_read, push_slot, push_thrown, push_wrote};
use crate::teller::Teller;
use def_event::{Boxed, Called, Event, MadeObject, Shown};
use ev_base::{ActId, Memory, Name, ObjId, Seq, Str, Value};
use ev_event::History;
use ev_heap::{Capture, Happened};

/// The number of an activation.
pub(crate) fn number(activation: Option<ActId>) -> Option<u64>
    ensures { result ≡ activation }
{
    match activation {
        None => None,
        Some(id) => Some(id.0),
    }
}

/// The line of a call.
pub(crate) fn call_line(
    teller: &Teller<'_>,
    activation: ActId,
    target: Value,
    verb: &str,
    args: Seq<Shown>,
    begun: Option<ActId>,
) -> Result<Event, Memory>
    ensures { IfOk result (λ line. line ≡ Call (record { activation = activation; target = shown_held teller.now target; verb = verb.now; args = args; begun = begun })) }
{
    let called = Called {
        activation: activation.0,
        target: shown(teller, target)?,
        verb: Str::copy_of(teller.alloc, verb)?,
        args,
        begun: number(begun),
    };
    Ok(Event::Call(Boxed::new(teller.alloc, called)?))
}

/// Adds the line of a call.
fn push_call(
    teller: &Teller<'_>,
    activation: ActId,
    target: Value,
    verb: &str,
    args: &[Value],
    begun: Option<ActId>,
    history: &mut History,
) -> Result<(), Memory>
    ensures { OnOk result (history.new ≡ history.old ++ Call (record { activation = activation; target = shown_held teller.now target; verb = verb.now; args = all_held teller.now args.now; begun = begun }) ∷ []) }
{
    let args = shown_all(teller, args)?;
    let line = call_line(teller, activation, target, verb, args, begun)?;
    history.push(line)
}

/// Adds the line of a value that an ejector gave.
pub(crate) fn push_got(
    teller: &Teller<'_>,
    activation: ActId,
    value: Value,
    history: &mut History,
) -> Result<(), Memory>
    ensures { OnOk result (history.new ≡ history.old ++ Got activation (shown_held teller.now value) ∷ []) }
{
    let value = shown(teller, value)?;
    history.push(Event::Got(activation.0, value))
}

/// The line of an object that was made, from what it holds.
fn made_line(
    teller: &Teller<'_>,
    activation: ActId,
    object: ObjId,
    name: Str,
    caps: Seq<Shown>,
    stamps: Seq<Shown>,
) -> Result<Event, Memory>
    ensures { IfOk result (λ line. line ≡ Made (record { activation = activation; object = shown_as.Name (name_as.Object teller.now.naming.vat object); name = name; caps = caps; stamps = stamps })) }
{
    let made = MadeObject {
        activation: activation.0,
        object: Shown::Name(Name::Object(teller.vat(), object.0)),
        name,
        caps,
        stamps,
    };
    Ok(Event::Made(Boxed::new(teller.alloc, made)?))
}

/// The line of an object that was made.
fn object_line(
    teller: &Teller<'_>,
    activation: ActId,
    object: ObjId,
    name: &str,
    caps: &[Capture],
    stamps: &[Value],
) -> Result<Event, Memory>
    ensures { IfOk result (λ line. line ≡ Made (record { activation = activation; object = shown_as.Name (name_as.Object teller.now.naming.vat object); name = name.now; caps = map (shown_capture teller.now) caps.now; stamps = all_held teller.now stamps.now })) }
{
    let name = Str::copy_of(teller.alloc, name)?;
    let caps = caught_all(teller, caps)?;
    let stamps = shown_all(teller, stamps)?;
    made_line(teller, activation, object, name, caps, stamps)
}

/// Adds the line of an object, which is no other value.
fn push_made(
    teller: &Teller<'_>,
    activation: ActId,
    object: Value,
    name: &str,
    caps: &[Capture],
    stamps: &[Value],
    history: &mut History,
) -> Result<(), Memory>
    ensures { OnOk result (history.new ≡ history.old ++ made_lines teller.now activation object name.now caps.now stamps.now) }
{
    match object {
        Value::Obj(id) => history.push(object_line(teller, activation, id, name, caps, stamps)?),
        _ => Ok(()),
    }
}

/// Adds the line of an ejector, which is no other value.
pub(crate) fn push_ejector(
    teller: &Teller<'_>,
    activation: ActId,
    ejector: Value,
    history: &mut History,
) -> Result<(), Memory>
    ensures { OnOk result (history.new ≡ history.old ++ ejector_lines teller.now activation ejector) }
{
    match ejector {
        Value::Obj(id) => history.push(Event::Ejector(
            activation.0,
            Shown::Name(Name::Object(teller.vat(), id.0)),
        )),
        _ => Ok(()),
    }
}

/// Adds the line of an audition, which is no other value.
fn push_audition(
    teller: &Teller<'_>,
    activation: ActId,
    audition: Value,
    history: &mut History,
) -> Result<(), Memory>
    ensures { OnOk result (history.new ≡ history.old ++ audition_lines teller.now activation audition) }
{
    match audition {
        Value::Obj(id) => history.push(Event::Audition(
            activation.0,
            Shown::Name(Name::Object(teller.vat(), id.0)),
        )),
        _ => Ok(()),
    }
}

/// Adds the line of what happened, where it has one.
pub(crate) fn push_line(
    teller: &Teller<'_>,
    event: &Happened,
    history: &mut History,
) -> Result<(), Memory>
    ensures { OnOk result (history.new ≡ history.old ++ lines teller.now event.now) }
{
    match event {
        Happened::Call {
            activation,
            target,
            verb,
            args,
            begun,
        } => push_call(
            teller,
            *activation,
            *target,
            verb.as_str(),
            args.as_slice(),
            *begun,
            history,
        ),
        Happened::Back(act, value) => push_back(teller, *act, *value, history),
        Happened::Thrown(act, value) => push_thrown(teller, *act, *value, history),
        Happened::Gone(act) => history.push(Event::Gone(act.0)),
        Happened::Got(act, value) => push_got(teller, *act, *value, history),
        Happened::Ejector(act, ejector) => push_ejector(teller, *act, *ejector, history),
        Happened::Audition(act, audition) => push_audition(teller, *act, *audition, history),
        Happened::Slot(act, id, value) => push_slot(teller, *act, *id, *value, history),
        Happened::Read(act, id, value) => push_read(teller, *act, *id, *value, history),
        Happened::Wrote(act, id, value) => push_wrote(teller, *act, *id, *value, history),
        Happened::List(act, id, values) => push_list(teller, *act, *id, values.as_slice(), history),
        Happened::Made {
            activation,
            object,
            name,
            caps,
            stamps,
        } => push_made(
            teller,
            *activation,
            *object,
            name.as_str(),
            caps.as_slice(),
            stamps.as_slice(),
            history,
        ),
        other => push_referred(teller, other, history),
    }
}
