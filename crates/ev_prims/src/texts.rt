//! What texts answer.

ghost use Rattle.std.specs.Prelude.{◌≡◌, ◌∷◌, [], All, IfOk, chars, codes, encode_utf8, length, map, slice_get, string_bytes, ◌++◌};
ghost use Rattle.ev_base.specs.declared.values.Value.TheVariants.{Char, Int};
ghost use Rattle.ev_heap.specs.Contents.{IsWeighable};
ghost use Rattle.def_machine.specs.Native as native;
ghost use Rattle.ev_prims.specs.Answers.{got_letter, text_and, text_answer, text_ran, text_with};
ghost use Rattle.ev_prims.specs.Reading.{text_in};
ghost use Rattle.ev_prims.specs.Verbs.{picked, text_verb_named};
ghost use Rattle.ev_prims.specs.declared.problem.Problem.TheVariants.{NoMethod};
ghost use Rattle.ev_prims.specs.declared.reply.Reply.TheVariants as reply;

use crate::forms::{Form, form_of};
use crate::places::{index_in, range_in};
use crate::problem::Problem;
use crate::reply::Reply;
use crate::sizes::size_reply;
use crate::verbs::{SeqVerb, text_verb};
use ev_base::{Memory, Seq, Str, Value};
use ev_heap::Heap;
use ev_integer::print;
use std::alloc::Global;

/// How many characters a text has.
#[tactic(auto, using(std::proofs::lemmas::Str::chars_from_encodes))]
fn count_of(text: &str) -> usize
    ensures { result ≡ length (chars text.now) }
{
    text.chars().count()
}

/// The character at a place.
fn character_at(text: &str, place: usize) -> Option<char>
    ensures { result ≡ slice_get (chars text.now) place }
{
    let mut left = place;
    for c in text.chars() {
        if left == 0 {
            return Some(c);
        }
        left -= 1;
    }
    None
}

/// The characters of a text, as values.
fn letters_of(alloc: Global, text: &str) -> Result<Seq<Value>, Memory>
    ensures { IfOk result (λ all. all ≡ map Char (chars text.now)) }
{
    let mut all = Seq::new(alloc);
    for c in text.chars() {
        all.push(Value::Char(c))?;
    }
    Ok(all)
}

/// So many characters from a place on.
fn part(alloc: Global, text: &str, start: usize, count: usize) -> Result<String, Memory>
    ensures { IfOk result (λ part. string_bytes part ≡ native.encoded (native.part_of start count (chars text.now))) }
{
    let mut out = String::new(alloc);
    let mut before = start;
    let mut left = count;
    for c in text.chars() {
        if before > 0 {
            before -= 1;
            continue;
        }
        if left == 0 {
            return Ok(out);
        }
        out.push(c)?;
        left -= 1;
    }
    Ok(out)
}

/// The character at an index.
#[tactic(auto, unfolding(crate::specs::Answers::got_letter))]
fn got_at(text: &str, index: i128) -> Reply
    ensures { result ≡ got_letter (chars text.now) (Int index) }
{
    match index_in(count_of(text), index) {
        Some(place) => match character_at(text, place) {
            Some(c) => Reply::Says(Value::Char(c)),
            None => Reply::Fails(Problem::OutOfRange),
        },
        None => Reply::Fails(Problem::OutOfRange),
    }
}

/// The character at what is to be an index.
#[tactic(auto, unfolding(crate::specs::Answers::got_letter))]
fn got(text: &str, index: Value) -> Reply
    ensures { result ≡ got_letter (chars text.now) index }
{
    match index {
        Value::Int(index) => got_at(text, index),
        _ => Reply::Fails(Problem::BadArgument),
    }
}

/// The characters of a text, one by one.
fn iterated(alloc: Global, text: &str, held: Value) -> Result<Reply, Memory>
    ensures { IfOk result (λ r. r ≡ reply.Iterates held (map Char (chars text.now))) }
{
    Ok(Reply::Iterates(held, letters_of(alloc, text)?))
}

/// The characters from an index to before another, as a text.
#[tactic(auto, unfolding(crate::specs::Answers::text_ran))]
fn ran(alloc: Global, text: &str, start: Value, end: Value) -> Result<Reply, Memory>
    ensures { IfOk result (λ r. r ≡ text_ran (chars text.now) start end) }
{
    match start {
        Value::Int(start) => match end {
            Value::Int(end) => match range_in(count_of(text), start, end) {
                Some((first, count)) => Ok(Reply::Writes(Str::of(part(
                    alloc, text, first, count,
                )?))),
                None => Ok(Reply::Fails(Problem::OutOfRange)),
            },
            _ => Ok(Reply::Fails(Problem::BadArgument)),
        },
        _ => Ok(Reply::Fails(Problem::BadArgument)),
    }
}

/// A text with another behind it.
fn joined(alloc: Global, text: &str, more: &str) -> Result<Reply, Memory>
    ensures { IfOk result (λ r. r ≡ reply.Writes (text.now ++ more.now)) }
{
    let mut all = Str::copy_of(alloc, text)?;
    all.push(more)?;
    Ok(Reply::Writes(all))
}

/// A text with a character behind it.
fn with_letter(alloc: Global, text: &str, letter: char) -> Result<Reply, Memory>
    ensures { IfOk result (λ r. r ≡ reply.Writes (text.now ++ encode_utf8 letter)) }
{
    let mut all = String::from_str(alloc, text)?;
    all.push(letter)?;
    Ok(Reply::Writes(Str::of(all)))
}

/// A text with a value behind it, printed without quotes.
#[tactic(auto, unfolding(crate::specs::Answers::text_and))]
fn text_and(alloc: Global, heap: &Heap, text: &str, argument: Value) -> Result<Reply, Memory>
    requires { IsWeighable heap.now argument }
    ensures { IfOk result (λ r. r ≡ text_and (text_in heap.now) text.now argument) }
{
    match argument {
        Value::Text(id) => joined(alloc, text, heap.text(id)),
        Value::Int(number) => {
            let digits = print(alloc, number)?;
            joined(alloc, text, digits.as_str())
        }
        Value::Char(letter) => with_letter(alloc, text, letter),
        Value::Bool(true) => joined(alloc, text, "true"),
        Value::Bool(false) => joined(alloc, text, "false"),
        Value::Null => joined(alloc, text, "null"),
        _ => Ok(Reply::Fails(Problem::NotText)),
    }
}

/// What a text answers to a verb with one argument.
#[tactic(auto, unfolding(crate::specs::Answers::text_with))]
fn with_one(
    alloc: Global,
    heap: &Heap,
    text: &str,
    verb: &str,
    held: Value,
    argument: Value,
) -> Result<Reply, Memory>
    requires { IsWeighable heap.now argument }
    ensures { IfOk result (λ r. r ≡ text_with (text_in heap.now) (text_verb_named verb.now) text.now held argument) }
{
    match text_verb(verb) {
        Some(SeqVerb::Get) => Ok(got(text, argument)),
        Some(SeqVerb::Add) => text_and(alloc, heap, text, argument),
        Some(SeqVerb::Iterate) => iterated(alloc, text, held),
        Some(SeqVerb::With) => Ok(Reply::Fails(Problem::NoMethod)),
        None => Ok(Reply::Fails(Problem::NoMethod)),
    }
}

/// What a text answers to a verb with two arguments.
fn with_two(
    alloc: Global,
    text: &str,
    verb: &str,
    start: Value,
    end: Value,
) -> Result<Reply, Memory>
    ensures { IfOk result (λ r. r ≡ picked ((codes "run", text_ran (chars text.now) start end) ∷ []) (reply.Fails NoMethod) verb.now) }
{
    if verb == "run" {
        ran(alloc, text, start, end)
    } else {
        Ok(Reply::Fails(Problem::NoMethod))
    }
}

/// What a text answers to a verb, with its arguments as they are held and as they are followed.
#[tactic(auto, using(crate::proofs::FormLemmas::good_one), unfolding(crate::specs::Answers::text_formed))]
pub(crate) fn text_reply(
    alloc: Global,
    heap: &Heap,
    text: &str,
    verb: &str,
    held: &[Value],
    args: &[Value],
) -> Result<Reply, Memory>
    requires { All (IsWeighable heap.now) args.now }
    ensures { IfOk result (λ r. r ≡ text_answer (text_in heap.now) text.now verb.now held.now args.now) }
{
    match form_of(held, args) {
        Form::Alone => Ok(size_reply(count_of(text), verb)),
        Form::One(held, argument) => with_one(alloc, heap, text, verb, held, argument),
        Form::Two(start, end) => with_two(alloc, text, verb, start, end),
        Form::Other => Ok(Reply::Fails(Problem::NoMethod)),
    }
}
