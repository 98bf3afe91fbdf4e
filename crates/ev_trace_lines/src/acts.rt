//! Lines that say what an activation does.

ghost use Rattle.std.specs.Prelude.{◌≡◌, ◌≤◌, Ok, length, option_map};
ghost use Rattle.ev_script.specs.Script.{Reads, rule};
ghost use Rattle.ev_trace_lines.specs.Events.{act, act_of, act_on_value, addressed, answered, arrow_name, asked, asked_with, before_word, begun, behind_word, call_of, called, captures, gone, list_and_members, listed, made, made_with, name_and_value, part_behind, place_of_word, promised, reacting, send_of, sent, sent_only, slotted, some_values, taken, two_values, valued, when_of};

use crate::notes::{message, name, two_words};
use def_event::boxed::Boxed;
use def_event::event::{Addressed, Called, Event, MadeObject, Reacting, Sent};
use def_event::shown::Shown;
use ev_base::{Msg, Name, Seq, Str, VatId};
use ev_script::ScriptFault;
use ev_trace_words::parts::{activation, numbered};
use ev_trace_words::texts::{object_name, verb};
use ev_trace_words::values::{value, values};
use std::alloc::Global;

/// The place of the first such word, or the count of the words.
fn place_of_word(words: &[Str], word: &str) -> usize
    ensures { result ≡ place_of_word word.now words.now }
{
    let mut place: usize = 0;
    for found in words {
        if found.as_str() == word {
            return place;
        }
        place += 1;
    }
    place
}

/// The words before the first such word.
fn before_word<'w>(words: &'w [Str], word: &str) -> &'w [Str]
    ensures { result.now ≡ before_word word.now words.now }
{
    &words[..place_of_word(words, word)]
}

/// The words behind the first such word, where there is one.
fn behind_word<'w>(words: &'w [Str], word: &str) -> Option<&'w [Str]>
    ensures { option_map (λ ws. ws.now) result ≡ behind_word word.now words.now }
{
    let place = place_of_word(words, word);
    if place < words.len() {
        Some(&words[place + 1..])
    } else {
        None
    }
}

/// A list by its number, and its members.
pub(crate) fn list_and_members(
    alloc: Global,
    names: &[Str],
    words: &[Str],
) -> Result<((VatId, u64), Seq<Shown>), ScriptFault>
    requires { length names.now ≤ 16 }
    ensures { Reads result (list_and_members names.now words.now) }
{
    match words {
        [] => Err(ScriptFault::Rule(42)),
        [list, members @ ..] => {
            let Some(list) = numbered(names, list.as_str(), '%') else {
                return Err(ScriptFault::Rule(42));
            };
            let found = values(alloc, names, members)?;
            Ok((list, found))
        }
    }
}

/// An object or a promise, and a value.
pub(crate) fn name_and_value(
    alloc: Global,
    names: &[Str],
    words: &[Str],
) -> Result<(Name, Shown), ScriptFault>
    requires { length names.now ≤ 16 }
    ensures { Reads result (name_and_value names.now words.now) }
{
    match two_words(words) {
        Some((first, second)) => {
            let subject = name(names, first)?;
            let x = value(alloc, names, second)?;
            Ok((subject, x))
        }
        None => Err(ScriptFault::Rule(42)),
    }
}

/// What a message or a call asks: of whom, by which verb and with which values.
#[derive(Drop)]
struct Request {
    target: Shown,
    verb: Str,
    args: Seq<Shown>,
}

/// What is asked of a target.
#[tactic(auto, unfolding(crate::specs::Events::asked_with))]
fn asked_with(
    alloc: Global,
    names: &[Str],
    target: Shown,
    word: &str,
    args: &[Str],
) -> Result<Request, ScriptFault>
    requires { length names.now ≤ 16 }
    ensures { Reads result (asked_with names.now target word.now args.now) }
{
    let verb = verb(alloc, word)?;
    let args = values(alloc, names, args)?;
    Ok(Request { target, verb, args })
}

#[tactic(auto, unfolding(crate::specs::Events::asked))]
fn asked(
    alloc: Global,
    names: &[Str],
    target: &str,
    word: &str,
    args: &[Str],
) -> Result<Request, ScriptFault>
    requires { length names.now ≤ 16 }
    ensures { Reads result (asked names.now target.now word.now args.now) }
{
    let target = value(alloc, names, target)?;
    asked_with(alloc, names, target, word, args)
}

fn addressed(alloc: Global, names: &[Str], a: u64, words: &[Str]) -> Result<Addressed, ScriptFault>
    requires { length names.now ≤ 16 }
    ensures { Reads result (addressed names.now a words.now) }
{
    match words {
        [id, target, verb, args @ ..] => {
            let message = message(names, id.as_str())?;
            let Request { target, verb, args } = asked(
                alloc,
                names,
                target.as_str(),
                verb.as_str(),
                args,
            )?;
            Ok(Addressed {
                activation: a,
                message,
                target,
                verb,
                args,
            })
        }
        _ => Err(ScriptFault::Rule(42)),
    }
}

/// The activation that a call begins.
fn begun(words: Option<&[Str]>) -> Result<Option<u64>, ScriptFault>
    ensures { Reads result (begun (option_map (λ ws. ws.now) words.entry)) }
{
    match words {
        None => Ok(None),
        Some([id]) => match activation(id.as_str()) {
            Some(id) => Ok(Some(id)),
            None => Err(ScriptFault::Rule(42)),
        },
        Some(_) => Err(ScriptFault::Rule(42)),
    }
}

fn call_of(
    alloc: Global,
    activation: u64,
    call: Request,
    begun: Option<u64>,
) -> Result<Event, ScriptFault>
    ensures { Reads result (Ok (call_of activation call begun)) }
{
    let Request { target, verb, args } = call;
    let call = Called {
        activation,
        target,
        verb,
        args,
        begun,
    };
    Ok(Event::Call(Boxed::new(alloc, call)?))
}

fn called(alloc: Global, names: &[Str], a: u64, words: &[Str]) -> Result<Event, ScriptFault>
    requires { length names.now ≤ 16 }
    ensures { Reads result (called names.now a words.now) }
{
    match words {
        [target, verb, rest @ ..] => {
            let args = before_word(rest, "as");
            let call = asked(alloc, names, target.as_str(), verb.as_str(), args)?;
            let begun = begun(behind_word(rest, "as"))?;
            call_of(alloc, a, call, begun)
        }
        _ => Err(ScriptFault::Rule(42)),
    }
}

/// Values, at least one.
fn some_values(alloc: Global, names: &[Str], words: &[Str]) -> Result<Seq<Shown>, ScriptFault>
    requires { length names.now ≤ 16 }
    ensures { Reads result (some_values names.now words.now) }
{
    match words {
        [] => Err(ScriptFault::Rule(42)),
        _ => values(alloc, names, words),
    }
}

fn part_behind(
    alloc: Global,
    names: &[Str],
    words: Option<&[Str]>,
) -> Result<Seq<Shown>, ScriptFault>
    requires { length names.now ≤ 16 }
    ensures { Reads result (part_behind names.now (option_map (λ ws. ws.now) words.entry)) }
{
    match words {
        None => Ok(Seq::new(alloc)),
        Some(words) => some_values(alloc, names, words),
    }
}

fn captures(alloc: Global, names: &[Str], words: &[Str]) -> Result<Seq<Shown>, ScriptFault>
    requires { length names.now ≤ 16 }
    ensures { Reads result (captures names.now words.now) }
{
    match words {
        [] => Ok(Seq::new(alloc)),
        [word, rest @ ..] => {
            if word.as_str() == "caps" {
                some_values(alloc, names, rest)
            } else {
                Err(ScriptFault::Rule(42))
            }
        }
    }
}

/// An object of a name is made.
#[tactic(auto, unfolding(crate::specs::Events::made_with))]
fn made_with(
    alloc: Global,
    names: &[Str],
    a: u64,
    object: Shown,
    name: Str,
    rest: &[Str],
) -> Result<MadeObject, ScriptFault>
    requires { length names.now ≤ 16 }
    ensures { Reads result (made_with names.now a object name rest.now) }
{
    let caps = captures(alloc, names, before_word(rest, "stamps"))?;
    let stamps = part_behind(alloc, names, behind_word(rest, "stamps"))?;
    Ok(MadeObject {
        activation: a,
        object,
        name,
        caps,
        stamps,
    })
}

fn made(alloc: Global, names: &[Str], a: u64, words: &[Str]) -> Result<Event, ScriptFault>
    requires { length names.now ≤ 16 }
    ensures { Reads result (made names.now a words.now) }
{
    match words {
        [object, called, rest @ ..] => {
            let object = value(alloc, names, object.as_str())?;
            let name = object_name(alloc, called.as_str())?;
            let made = made_with(alloc, names, a, object, name, rest)?;
            Ok(Event::Made(Boxed::new(alloc, made)?))
        }
        _ => Err(ScriptFault::Rule(42)),
    }
}

/// The answer of a send.
fn answered(names: &[Str], words: Option<&[Str]>) -> Result<Name, ScriptFault>
    requires { length names.now ≤ 16 }
    ensures { Reads result (answered names.now (option_map (λ ws. ws.now) words.entry)) }
{
    match words {
        Some([answer]) => name(names, answer.as_str()),
        _ => Err(ScriptFault::Rule(42)),
    }
}

fn send_of(
    alloc: Global,
    activation: u64,
    message: Msg,
    send: Request,
    answer: Name,
) -> Result<Event, ScriptFault>
    ensures { Reads result (Ok (send_of activation message send answer)) }
{
    let Request { target, verb, args } = send;
    let sent = Sent {
        activation,
        message,
        target,
        verb,
        args,
        answer,
    };
    Ok(Event::Send(Boxed::new(alloc, sent)?))
}

fn sent(alloc: Global, names: &[Str], a: u64, words: &[Str]) -> Result<Event, ScriptFault>
    requires { length names.now ≤ 16 }
    ensures { Reads result (sent names.now a words.now) }
{
    match words {
        [id, target, verb, rest @ ..] => {
            let message = message(names, id.as_str())?;
            let args = before_word(rest, "->");
            let send = asked(alloc, names, target.as_str(), verb.as_str(), args)?;
            let answer = answered(names, behind_word(rest, "->"))?;
            send_of(alloc, a, message, send, answer)
        }
        _ => Err(ScriptFault::Rule(42)),
    }
}

/// A name behind an arrow.
fn arrow_name(names: &[Str], words: &[Str]) -> Result<Name, ScriptFault>
    requires { length names.now ≤ 16 }
    ensures { Reads result (arrow_name names.now words.now) }
{
    match two_words(words) {
        Some((arrow, answer)) => {
            if arrow == "->" {
                name(names, answer)
            } else {
                Err(ScriptFault::Rule(42))
            }
        }
        None => Err(ScriptFault::Rule(42)),
    }
}

#[tactic(auto, unfolding(crate::specs::Events::two_values))]
fn two_values(
    alloc: Global,
    names: &[Str],
    first: &str,
    second: &str,
) -> Result<(Shown, Shown), ScriptFault>
    requires { length names.now ≤ 16 }
    ensures { Reads result (two_values names.now first.now second.now) }
{
    let first = value(alloc, names, first)?;
    let second = value(alloc, names, second)?;
    Ok((first, second))
}

fn when_of(
    alloc: Global,
    activation: u64,
    message: Msg,
    values: (Shown, Shown),
    answer: Name,
) -> Result<Event, ScriptFault>
    ensures { Reads result (Ok (when_of activation message values answer)) }
{
    let (value, reaction) = values;
    let reacting = Reacting {
        activation,
        message,
        value,
        reaction,
        answer,
    };
    Ok(Event::When(Boxed::new(alloc, reacting)?))
}

fn reacting(alloc: Global, names: &[Str], a: u64, words: &[Str]) -> Result<Event, ScriptFault>
    requires { length names.now ≤ 16 }
    ensures { Reads result (reacting names.now a words.now) }
{
    match words {
        [id, awaited, reaction, rest @ ..] => {
            let message = message(names, id.as_str())?;
            let values = two_values(alloc, names, awaited.as_str(), reaction.as_str())?;
            let answer = arrow_name(names, rest)?;
            when_of(alloc, a, message, values, answer)
        }
        _ => Err(ScriptFault::Rule(42)),
    }
}

/// What an activation does with a value.
fn valued(a: u64, word: &str, x: Shown) -> Result<Event, ScriptFault>
    ensures { Reads result (rule 42 (valued a word.now x)) }
{
    match word {
        "back" => Ok(Event::Back(a, x)),
        "thrown" => Ok(Event::Thrown(a, x)),
        "got" => Ok(Event::Got(a, x)),
        "ejector" => Ok(Event::Ejector(a, x)),
        "audition" => Ok(Event::Audition(a, x)),
        "done" => Ok(Event::Done(a, x)),
        "threw" => Ok(Event::Threw(a, x)),
        _ => Err(ScriptFault::Rule(42)),
    }
}

/// What an activation does with a var slot and a value.
fn slotted(a: u64, word: &str, slot: (VatId, u64), x: Shown) -> Result<Event, ScriptFault>
    ensures { Reads result (rule 42 (slotted a word.now slot x)) }
{
    match word {
        "slot" => Ok(Event::Slot(a, slot, x)),
        "read" => Ok(Event::Read(a, slot, x)),
        "wrote" => Ok(Event::Wrote(a, slot, x)),
        _ => Err(ScriptFault::Rule(42)),
    }
}

/// What an activation does with a value, which may be that of a var slot.
fn act_on_value(
    alloc: Global,
    names: &[Str],
    a: u64,
    word: &str,
    rest: &[Str],
) -> Result<Event, ScriptFault>
    requires { length names.now ≤ 16 }
    ensures { Reads result (act_on_value names.now a word.now rest.now) }
{
    match rest {
        [x] => {
            let x = value(alloc, names, x.as_str())?;
            valued(a, word, x)
        }
        [slot, x] => {
            let Some(slot) = numbered(names, slot.as_str(), '&') else {
                return Err(ScriptFault::Rule(42));
            };
            let x = value(alloc, names, x.as_str())?;
            slotted(a, word, slot, x)
        }
        _ => Err(ScriptFault::Rule(42)),
    }
}

fn taken(alloc: Global, names: &[Str], a: u64, words: &[Str]) -> Result<Event, ScriptFault>
    requires { length names.now ≤ 16 }
    ensures { Reads result (taken names.now a words.now) }
{
    let taken = addressed(alloc, names, a, words)?;
    Ok(Event::Take(Boxed::new(alloc, taken)?))
}

fn sent_only(alloc: Global, names: &[Str], a: u64, words: &[Str]) -> Result<Event, ScriptFault>
    requires { length names.now ≤ 16 }
    ensures { Reads result (sent_only names.now a words.now) }
{
    let sent = addressed(alloc, names, a, words)?;
    Ok(Event::SendOnly(Boxed::new(alloc, sent)?))
}

fn gone(a: u64, words: &[Str]) -> Result<Event, ScriptFault>
    ensures { Reads result (gone a words.now) }
{
    match words {
        [] => Ok(Event::Gone(a)),
        _ => Err(ScriptFault::Rule(42)),
    }
}

fn listed(alloc: Global, names: &[Str], a: u64, words: &[Str]) -> Result<Event, ScriptFault>
    requires { length names.now ≤ 16 }
    ensures { Reads result (listed names.now a words.now) }
{
    let (list, members) = list_and_members(alloc, names, words)?;
    Ok(Event::List(a, list, members))
}

fn promised(alloc: Global, names: &[Str], a: u64, words: &[Str]) -> Result<Event, ScriptFault>
    requires { length names.now ≤ 16 }
    ensures { Reads result (promised names.now a words.now) }
{
    let (promise, resolver) = name_and_value(alloc, names, words)?;
    Ok(Event::Promise(a, promise, resolver))
}

/// What an activation does, by the word and the words behind it.
fn act_of(
    alloc: Global,
    names: &[Str],
    a: u64,
    word: &str,
    rest: &[Str],
) -> Result<Event, ScriptFault>
    requires { length names.now ≤ 16 }
    ensures { Reads result (act_of names.now a word.now rest.now) }
{
    match word {
        "take" => taken(alloc, names, a, rest),
        "call" => called(alloc, names, a, rest),
        "gone" => gone(a, rest),
        "list" => listed(alloc, names, a, rest),
        "promise" => promised(alloc, names, a, rest),
        "made" => made(alloc, names, a, rest),
        "send" => sent(alloc, names, a, rest),
        "sendonly" => sent_only(alloc, names, a, rest),
        "when" => reacting(alloc, names, a, rest),
        _ => act_on_value(alloc, names, a, word, rest),
    }
}

/// What an activation does.
pub(crate) fn act(alloc: Global, names: &[Str], a: u64, words: &[Str]) -> Result<Event, ScriptFault>
    requires { length names.now ≤ 16 }
    ensures { Reads result (act names.now a words.now) }
{
    match words {
        [] => Err(ScriptFault::Rule(42)),
        [word, rest @ ..] => act_of(alloc, names, a, word.as_str(), rest),
    }
}
