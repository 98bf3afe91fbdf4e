//! The expansion of each node, by those of the nodes before it.

ghost use Rattle.std.specs.Prelude.{◌≡◌, [], IfOk};
ghost use Rattle.def_kernel.specs.declared.node.Literal.TheVariants.{Char, Int, Text};
ghost use Rattle.ev_piece.specs.Pieces.{lit, noun};
ghost use Rattle.ev_desugar.specs.Words.{character, number, text};
ghost use Rattle.ev_expand.specs.Table.{expanded_behind, form_part, form_piece, is_block};

use crate::exits::{escape_piece, for_piece, function_piece, try_piece, when_piece, while_piece};
use crate::expressions::{
    assign_piece, binary_piece, block_piece, call_piece, if_piece, leave_piece, list_piece,
    match_piece, prefix_piece, put_piece, send_piece, verb_call_piece,
};
use crate::marks::Marks;
use crate::objects::{
    any_piece, def_function_piece, define_piece, final_piece, guard_piece, list_pattern_piece,
    matcher_piece, method_piece, object_piece, to_piece, var_piece, variable_piece, via_piece,
};
use crate::part::Part;
use crate::reads::value_at;
use def_kernel::{Literal, Node};
use def_syntax::{Form, SugarNode};
use ev_base::{Memory, Seq, Str, Text as Shared};
use ev_desugar::{character, number, text};
use ev_piece::{lit, noun};
use std::alloc::Global;

/// A number.
fn number_piece(alloc: Global, digits: &str) -> Result<Seq<Node>, Memory>
    ensures { IfOk result (λ piece. piece ≡ lit (Int (number digits.now))) }
{
    lit(alloc, Literal::Int(number(digits)))
}

/// A text.
fn text_piece(alloc: Global, spelling: &str) -> Result<Seq<Node>, Memory>
    ensures { IfOk result (λ piece. piece ≡ lit (Text (text spelling.now))) }
{
    let value = text(alloc, spelling)?;
    lit(alloc, Literal::Text(Shared::of(alloc, value)?))
}

/// A character.
fn character_piece(alloc: Global, spelling: &str) -> Result<Seq<Node>, Memory>
    ensures { IfOk result (λ piece. piece ≡ lit (Char (character spelling.now))) }
{
    let value = character(alloc, spelling)?;
    lit(alloc, Literal::Char(value))
}

/// A noun.
fn noun_piece(alloc: Global, name: &str) -> Result<Seq<Node>, Memory>
    ensures { IfOk result (λ piece. piece ≡ noun name.now) }
{
    noun(alloc, Str::copy_of(alloc, name)?)
}

/// What a form expands to; a block as the block of a form.
#[tactic(auto, unfolding(crate::specs::Table::form_piece))]
fn form_piece(
    alloc: Global,
    marks: &[Marks],
    done: &[Part],
    form: &Form,
) -> Result<Seq<Node>, Memory>
    ensures { IfOk result (λ piece. piece ≡ form_piece marks.now done.now form.now) }
{
    match form {
        Form::Number(digits) => number_piece(alloc, digits.as_str()),
        Form::Text(spelling) => text_piece(alloc, spelling.as_str()),
        Form::Character(spelling) => character_piece(alloc, spelling.as_str()),
        Form::Noun(name) => noun_piece(alloc, name.as_str()),
        Form::List(members) => list_piece(alloc, done, members.as_slice()),
        Form::Group(value) => value_at(alloc, done, *value),
        Form::Block(items) => block_piece(alloc, done, items.as_slice()),
        Form::If(test, yes, no) => if_piece(alloc, done, *test, *yes, no),
        Form::While(test, block) => while_piece(alloc, marks, done, form, *test, *block),
        Form::For(key, value, whole, block) => {
            for_piece(alloc, marks, done, form, key, *value, *whole, *block)
        }
        Form::Escape(pattern, block, caught) => escape_piece(alloc, done, *pattern, *block, caught),
        Form::Try(block, catches, last) => try_piece(alloc, done, *block, catches.as_slice(), last),
        Form::When(value, block, caught) => when_piece(alloc, done, *value, *block, caught),
        Form::Function(patterns, block) => function_piece(alloc, done, patterns.as_slice(), *block),
        Form::Call(function, args) => call_piece(alloc, done, *function, "run", args.as_slice()),
        Form::Index(object, args) => call_piece(alloc, done, *object, "get", args.as_slice()),
        Form::VerbCall(object, verb, args) => {
            verb_call_piece(alloc, done, *object, verb.as_str(), args.as_slice())
        }
        Form::Send(target, verb, args) => send_piece(alloc, done, *target, verb, args.as_slice()),
        Form::Prefix(operator, value) => prefix_piece(alloc, done, operator.as_str(), *value),
        Form::Binary(left, operator, right) => {
            binary_piece(alloc, done, *left, operator.as_str(), *right)
        }
        Form::MatchBind(value, pattern) => match_piece(alloc, done, *value, *pattern),
        Form::Assign(name, operator, value) => {
            assign_piece(alloc, done, name.as_str(), operator.as_str(), *value)
        }
        Form::AssignIndex(object, args, value) => {
            put_piece(alloc, done, *object, args.as_slice(), *value)
        }
        Form::Leave(word, value) => leave_piece(alloc, done, word.as_str(), value),
        Form::DefineObject(name, auditors, members) => {
            object_piece(alloc, done, name, auditors.as_slice(), members.as_slice())
        }
        Form::DefineFunction(name, patterns, guard, auditors, block) => def_function_piece(
            alloc,
            marks,
            done,
            form,
            name.as_str(),
            patterns.as_slice(),
            guard,
            auditors.as_slice(),
            *block,
        ),
        Form::Define(pattern, exit, value) => define_piece(alloc, done, *pattern, exit, *value),
        Form::DefineVar(name, guard, exit, value) => {
            var_piece(alloc, done, name.as_str(), guard, exit, *value)
        }
        Form::AnyPattern(guard) => any_piece(alloc, done, guard),
        Form::FinalPattern(name, guard) => final_piece(alloc, done, name.as_str(), guard),
        Form::VarPattern(name, guard) => variable_piece(alloc, done, name.as_str(), guard),
        Form::ListPattern(patterns) => list_pattern_piece(alloc, done, patterns.as_slice()),
        Form::ViaPattern(value, pattern) => via_piece(alloc, done, *value, *pattern),
        Form::NounGuard(name, args) => guard_piece(alloc, done, name.as_str(), args.as_slice()),
        Form::ExprGuard(value) => value_at(alloc, done, *value),
        Form::To(verb, patterns, guard, block) => to_piece(
            alloc,
            marks,
            done,
            form,
            verb.as_str(),
            patterns.as_slice(),
            guard,
            *block,
        ),
        Form::Method(verb, patterns, guard, block) => method_piece(
            alloc,
            done,
            verb.as_str(),
            patterns.as_slice(),
            guard,
            *block,
        ),
        Form::Matcher(pattern, block) => matcher_piece(alloc, done, *pattern, *block),
        Form::Program(items) => block_piece(alloc, done, items.as_slice()),
    }
}

#[tactic(auto, unfolding(crate::specs::Table::is_block))]
fn is_block(form: &Form) -> bool
    ensures { result ≡ is_block form.now }
{
    match form {
        Form::Block(_) => true,
        _ => false,
    }
}

#[tactic(auto, unfolding(crate::specs::Table::form_part))]
fn form_part(alloc: Global, marks: &[Marks], done: &[Part], form: &Form) -> Result<Part, Memory>
    ensures { IfOk result (λ part. part ≡ form_part marks.now done.now form.now) }
{
    let piece = form_piece(alloc, marks, done, form)?;
    Ok(Part {
        piece,
        is_block: is_block(form),
    })
}

/// The expansion of each node.
#[tactic(auto, unfolding(crate::specs::Table::expanded_behind))]
pub(crate) fn expanded(
    alloc: Global,
    marks: &[Marks],
    nodes: &[SugarNode],
) -> Result<Seq<Part>, Memory>
    ensures { IfOk result (λ parts. parts ≡ expanded_behind marks.now [] nodes.now) }
{
    let mut done = Seq::new(alloc);
    for node in nodes {
        let part = form_part(alloc, marks, done.as_slice(), &node.form)?;
        done.push(part)?;
    }
    Ok(done)
}
