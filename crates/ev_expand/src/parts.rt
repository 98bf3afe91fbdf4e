//! The parts of a surface form.

ghost use Rattle.std.specs.Prelude.{◌≡◌, ◌++◌, ◌∷◌, [], option_to_list, IfOk, OnOk};
ghost use Rattle.ev_expand.specs.Marked.{catch_parts, pair_parts, parts};

use def_syntax::Form;
use ev_base::{Memory, NodeId, Seq};
use std::alloc::Global;

fn add(found: &mut Vec<NodeId>, ids: &[NodeId]) -> Result<(), Memory>
    ensures { OnOk result (found.new.items ≡ found.old.items ++ ids.now) }
{
    found.extend_from_slice(ids)?;
    Ok(())
}

fn add_if(found: &mut Vec<NodeId>, id: &Option<NodeId>) -> Result<(), Memory>
    ensures { OnOk result (found.new.items ≡ found.old.items ++ option_to_list id.now) }
{
    match id {
        None => Ok(()),
        Some(id) => {
            found.push(*id)?;
            Ok(())
        }
    }
}

#[tactic(auto, unfolding(crate::specs::Marked::pair_parts))]
fn add_pair(found: &mut Vec<NodeId>, pair: &Option<(NodeId, NodeId)>) -> Result<(), Memory>
    ensures { OnOk result (found.new.items ≡ found.old.items ++ pair_parts pair.now) }
{
    match pair {
        None => Ok(()),
        Some((pattern, block)) => add(found, &[*pattern, *block]),
    }
}

#[tactic(auto, using(std::proofs::Common::append_assoc), unfolding(crate::specs::Marked::catch_parts))]
fn add_catches(found: &mut Vec<NodeId>, catches: &[(NodeId, NodeId)]) -> Result<(), Memory>
    ensures { OnOk result (found.new.items ≡ found.old.items ++ catch_parts catches.now) }
{
    for (pattern, block) in catches {
        add(found, &[*pattern, *block])?;
    }
    Ok(())
}

/// A list and what may be there behind it.
fn then_if(alloc: Global, ids: &[NodeId], id: &Option<NodeId>) -> Result<Seq<NodeId>, Memory>
    ensures { IfOk result (λ found. found ≡ ids.now ++ option_to_list id.now) }
{
    let mut found = Vec::new(alloc);
    add(&mut found, ids)?;
    add_if(&mut found, id)?;
    Ok(Seq::of(found))
}

/// What may be there, and a list behind it.
fn if_then(alloc: Global, id: &Option<NodeId>, ids: &[NodeId]) -> Result<Seq<NodeId>, Memory>
    ensures { IfOk result (λ found. found ≡ option_to_list id.now ++ ids.now) }
{
    let mut found = Vec::new(alloc);
    add_if(&mut found, id)?;
    add(&mut found, ids)?;
    Ok(Seq::of(found))
}

/// One list behind another.
fn lists(alloc: Global, ids: &[NodeId], more: &[NodeId]) -> Result<Seq<NodeId>, Memory>
    ensures { IfOk result (λ found. found ≡ ids.now ++ more.now) }
{
    let mut found = Vec::new(alloc);
    add(&mut found, ids)?;
    add(&mut found, more)?;
    Ok(Seq::of(found))
}

/// A list with a pair that may be there behind it.
fn then_pair(
    alloc: Global,
    ids: &[NodeId],
    pair: &Option<(NodeId, NodeId)>,
) -> Result<Seq<NodeId>, Memory>
    ensures { IfOk result (λ found. found ≡ ids.now ++ pair_parts pair.now) }
{
    let mut found = Vec::new(alloc);
    add(&mut found, ids)?;
    add_pair(&mut found, pair)?;
    Ok(Seq::of(found))
}

/// The parts of a `try`.
fn tried(
    alloc: Global,
    block: NodeId,
    catches: &[(NodeId, NodeId)],
    last: &Option<NodeId>,
) -> Result<Seq<NodeId>, Memory>
    ensures { IfOk result (λ found. found ≡ block ∷ catch_parts catches.now ++ option_to_list last.now) }
{
    let mut found = Vec::new(alloc);
    add(&mut found, &[block])?;
    add_catches(&mut found, catches)?;
    add_if(&mut found, last)?;
    Ok(Seq::of(found))
}

/// The parts of an assignment to an index form.
fn assigned(
    alloc: Global,
    object: NodeId,
    arguments: &[NodeId],
    value: NodeId,
) -> Result<Seq<NodeId>, Memory>
    ensures { IfOk result (λ found. found ≡ object ∷ arguments.now ++ value ∷ []) }
{
    let mut found = Vec::new(alloc);
    add(&mut found, &[object])?;
    add(&mut found, arguments)?;
    add(&mut found, &[value])?;
    Ok(Seq::of(found))
}

/// The parts of a member with patterns.
fn member(
    alloc: Global,
    patterns: &[NodeId],
    guard: &Option<NodeId>,
    block: NodeId,
) -> Result<Seq<NodeId>, Memory>
    ensures { IfOk result (λ found. found ≡ patterns.now ++ option_to_list guard.now ++ block ∷ []) }
{
    let mut found = Vec::new(alloc);
    add(&mut found, patterns)?;
    add_if(&mut found, guard)?;
    add(&mut found, &[block])?;
    Ok(Seq::of(found))
}

/// The parts of a `def f()`.
fn function(
    alloc: Global,
    patterns: &[NodeId],
    guard: &Option<NodeId>,
    auditors: &[NodeId],
    block: NodeId,
) -> Result<Seq<NodeId>, Memory>
    ensures { IfOk result (λ found. found ≡ patterns.now ++ option_to_list guard.now ++ auditors.now ++ block ∷ []) }
{
    let mut found = Vec::new(alloc);
    add(&mut found, patterns)?;
    add_if(&mut found, guard)?;
    add(&mut found, auditors)?;
    add(&mut found, &[block])?;
    Ok(Seq::of(found))
}

/// The parts of a definition.
fn defined(
    alloc: Global,
    pattern: NodeId,
    exit: &Option<NodeId>,
    value: NodeId,
) -> Result<Seq<NodeId>, Memory>
    ensures { IfOk result (λ found. found ≡ pattern ∷ option_to_list exit.now ++ value ∷ []) }
{
    let mut found = Vec::new(alloc);
    add(&mut found, &[pattern])?;
    add_if(&mut found, exit)?;
    add(&mut found, &[value])?;
    Ok(Seq::of(found))
}

/// The parts of a definition by `var`.
fn variable(
    alloc: Global,
    guard: &Option<NodeId>,
    exit: &Option<NodeId>,
    value: NodeId,
) -> Result<Seq<NodeId>, Memory>
    ensures { IfOk result (λ found. found ≡ option_to_list guard.now ++ option_to_list exit.now ++ value ∷ []) }
{
    let mut found = Vec::new(alloc);
    add_if(&mut found, guard)?;
    add_if(&mut found, exit)?;
    add(&mut found, &[value])?;
    Ok(Seq::of(found))
}

/// The nodes that are parts of a form, from left to right.
#[tactic(auto, unfolding(crate::specs::Marked::parts))]
pub(crate) fn parts(alloc: Global, form: &Form) -> Result<Seq<NodeId>, Memory>
    ensures { IfOk result (λ found. found ≡ parts form.now) }
{
    match form {
        Form::Number(_) => Ok(Seq::new(alloc)),
        Form::Text(_) => Ok(Seq::new(alloc)),
        Form::Character(_) => Ok(Seq::new(alloc)),
        Form::Noun(_) => Ok(Seq::new(alloc)),
        Form::List(members) => lists(alloc, &[], members.as_slice()),
        Form::Group(value) => lists(alloc, &[*value], &[]),
        Form::Block(items) => lists(alloc, &[], items.as_slice()),
        Form::If(test, yes, no) => then_if(alloc, &[*test, *yes], no),
        Form::While(test, block) => lists(alloc, &[*test, *block], &[]),
        Form::For(key, value, whole, block) => if_then(alloc, key, &[*value, *whole, *block]),
        Form::Escape(pattern, block, caught) => then_pair(alloc, &[*pattern, *block], caught),
        Form::Try(block, catches, last) => tried(alloc, *block, catches.as_slice(), last),
        Form::When(value, block, caught) => then_pair(alloc, &[*value, *block], caught),
        Form::Function(patterns, block) => lists(alloc, patterns.as_slice(), &[*block]),
        Form::Call(function, args) => lists(alloc, &[*function], args.as_slice()),
        Form::Index(object, args) => lists(alloc, &[*object], args.as_slice()),
        Form::VerbCall(object, _, args) => lists(alloc, &[*object], args.as_slice()),
        Form::Send(target, _, args) => lists(alloc, &[*target], args.as_slice()),
        Form::Prefix(_, value) => lists(alloc, &[*value], &[]),
        Form::Binary(left, _, right) => lists(alloc, &[*left, *right], &[]),
        Form::MatchBind(value, pattern) => lists(alloc, &[*value, *pattern], &[]),
        Form::Assign(_, _, value) => lists(alloc, &[*value], &[]),
        Form::AssignIndex(object, args, value) => assigned(alloc, *object, args.as_slice(), *value),
        Form::Leave(_, value) => then_if(alloc, &[], value),
        Form::DefineObject(_, auditors, members) => {
            lists(alloc, auditors.as_slice(), members.as_slice())
        }
        Form::DefineFunction(_, patterns, guard, auditors, block) => {
            function(
                alloc,
                patterns.as_slice(),
                guard,
                auditors.as_slice(),
                *block,
            )
        }
        Form::Define(pattern, exit, value) => defined(alloc, *pattern, exit, *value),
        Form::DefineVar(_, guard, exit, value) => variable(alloc, guard, exit, *value),
        Form::AnyPattern(guard) => then_if(alloc, &[], guard),
        Form::FinalPattern(_, guard) => then_if(alloc, &[], guard),
        Form::VarPattern(_, guard) => then_if(alloc, &[], guard),
        Form::ListPattern(patterns) => lists(alloc, &[], patterns.as_slice()),
        Form::ViaPattern(value, pattern) => lists(alloc, &[*value, *pattern], &[]),
        Form::NounGuard(_, args) => lists(alloc, &[], args.as_slice()),
        Form::ExprGuard(value) => lists(alloc, &[*value], &[]),
        Form::To(_, patterns, guard, block) => member(alloc, patterns.as_slice(), guard, *block),
        Form::Method(_, patterns, guard, block) => {
            member(alloc, patterns.as_slice(), guard, *block)
        }
        Form::Matcher(pattern, block) => lists(alloc, &[*pattern, *block], &[]),
        Form::Program(items) => lists(alloc, &[], items.as_slice()),
    }
}
