//! Patterns that are bound at once, since nothing is evaluated in them.

ghost use Rattle.std.specs.Prelude.{◌≡◌, None, OnOk, Some, slice_get};
ghost use Rattle.def_kernel.specs.declared.node.Node.TheVariants.{Any, Final, Var};
ghost use Rattle.ev_steps.specs.AtOnce.{BindsAtOnce, BindsFrom, EndsWhereLeft, LeavesOthers};
ghost use Rattle.ev_steps.specs.Steps.{bind_coerced, evaluator};
ghost use Rattle.ev_steps.specs.declared.target.Target.TheVariants as target;
ghost use Rattle.ev_room.specs.Acts.{Binds, Extends, with_noun};
ghost use Rattle.ev_room.specs.declared.scope.Bound.TheVariants.{Fixed};

use crate::target::Target;
use def_kernel::Node;
use ev_base::{Memory, NodeId, Value, Word};
use ev_heap::{GuardKind, Happened};
use ev_room::Program;
use ev_room::exit::Exit;
use ev_room::room::{Room, spend, tell};
use ev_room::scope::{Binding, Bound, NO_GUARD, Scope};
use ev_room::slots::new_slot;
use ev_room::tree::node_at;

/// Whether a pattern was bound at once, or is to be bound later.
#[derive(Clone, Copy)]
pub enum Early {
    Bound,
    Later,
}

/// The part of that place, if there are so many.
pub fn part_at(parts: &[NodeId], place: usize) -> Option<NodeId>
    ensures { result ≡ slice_get parts.now place }
{
    match parts.get(place) {
        None => None,
        Some(part) => Some(*part),
    }
}

/// The value of that place, if there are so many.
pub fn value_at(values: &[Value], place: usize) -> Option<Value>
    ensures { result ≡ slice_get values.now place }
{
    match values.get(place) {
        None => None,
        Some(value) => Some(*value),
    }
}

/// Binds a noun finally to a value that this guard has coerced.
#[tactic(auto, using(ev_room::proofs::Fronts::itself_in_front, ev_room::proofs::Fronts::more_in_front, ev_room::proofs::Fronts::kept_in_front))]
pub fn final_step(
    noun: &Word,
    guard: GuardKind,
    value: Value,
    here: &mut Scope,
) -> Result<(), Memory>
    ensures outcome { OnOk result (here.new ≡ with_noun noun.now (Fixed value guard) here.old) }
    ensures front { Extends here.old here.new }
{
    let noun = noun.share()?;
    here.nouns.push(Binding {
        noun,
        bound: Bound::Fixed { value, guard },
    })
}

/// Binds a noun to a new var slot with a value that this guard has coerced.
#[tactic(auto, using(ev_room::proofs::Exits::ends, ev_room::proofs::Fronts::itself_in_front, ev_room::proofs::Fronts::more_in_front, ev_room::proofs::Fronts::kept_in_front), unfolding(crate::specs::Steps::opened_steps))]
pub fn var_step(
    noun: &Word,
    guard: GuardKind,
    value: Value,
    here: &mut Scope,
    room: &mut Room,
) -> Result<(), Exit>
    ensures outcome { Binds result here.new room.new (bind_coerced here.old.act (target.Var noun.now) guard value here.old room.old) }
    ensures front { Extends here.old here.new }
{
    let told = value;
    let slot = new_slot(guard, value, room)?;
    tell(room, Happened::Slot(here.act, slot, told))?;
    let noun = noun.share()?;
    here.nouns.push(Binding {
        noun,
        bound: Bound::Slot(slot),
    })?;
    Ok(())
}

/// Binds what a pattern binds to a value that this guard has coerced.
#[tactic(auto, using(ev_room::proofs::Exits::ends, ev_room::proofs::Fronts::itself_in_front), unfolding(crate::specs::Steps::opened_steps))]
pub fn bind_coerced(
    target: &Target,
    guard: GuardKind,
    value: Value,
    here: &mut Scope,
    room: &mut Room,
) -> Result<(), Exit>
    ensures outcome { Binds result here.new room.new (bind_coerced here.old.act target.now guard value here.old room.old) }
    ensures front { Extends here.old here.new }
{
    match target {
        Target::Final(noun) => {
            final_step(noun, guard, value, here)?;
            Ok(())
        }
        Target::Var(noun) => var_step(noun, guard, value, here, room),
        Target::Nothing => Ok(()),
    }
}

/// Binds a noun finally to a value, in a pattern without guard.
#[tactic(auto, using(crate::proofs::Depth::pattern_deep, crate::proofs::Depth::pattern_goes, ev_room::proofs::Exits::ends, ev_room::proofs::Fronts::itself_in_front, ev_room::proofs::Fronts::more_in_front, ev_room::proofs::Fronts::kept_in_front), unfolding(crate::specs::Steps::opened_steps))]
fn bind_final(
    program: &Program,
    depth: u32,
    id: NodeId,
    noun: &Word,
    value: Value,
    ejector: Value,
    here: &mut Scope,
    room: &mut Room,
) -> Result<(), Exit>
    requires { slice_get program.now id ≡ Some (Final noun.now None) }
    ensures outcome { Binds result here.new room.new ((evaluator program.now depth).pattern id value ejector here.old room.old) }
    ensures front { Extends here.old here.new }
{
    if depth == 0 {
        return Err(Exit::Deep);
    }
    spend(room, 1)?;
    final_step(noun, NO_GUARD, value, here)?;
    Ok(())
}

/// Binds a noun to a new var slot with a value.
#[tactic(auto, using(crate::proofs::Depth::pattern_deep, crate::proofs::Depth::pattern_goes, ev_room::proofs::Exits::ends, ev_room::proofs::Fronts::itself_in_front, ev_room::proofs::Fronts::more_in_front, ev_room::proofs::Fronts::kept_in_front), unfolding(crate::specs::Steps::opened_steps))]
fn bind_var(
    program: &Program,
    depth: u32,
    id: NodeId,
    noun: &Word,
    value: Value,
    ejector: Value,
    here: &mut Scope,
    room: &mut Room,
) -> Result<(), Exit>
    requires { slice_get program.now id ≡ Some (Var noun.now None) }
    ensures outcome { Binds result here.new room.new ((evaluator program.now depth).pattern id value ejector here.old room.old) }
    ensures front { Extends here.old here.new }
{
    if depth == 0 {
        return Err(Exit::Deep);
    }
    spend(room, 1)?;
    var_step(noun, NO_GUARD, value, here, room)
}

/// Binds nothing.
#[tactic(auto, using(crate::proofs::Depth::pattern_deep, crate::proofs::Depth::pattern_goes, ev_room::proofs::Exits::ends, ev_room::proofs::Fronts::itself_in_front), unfolding(crate::specs::Steps::opened_steps))]
fn bind_any(
    program: &Program,
    depth: u32,
    id: NodeId,
    value: Value,
    ejector: Value,
    here: &Scope,
    room: &mut Room,
) -> Result<(), Exit>
    requires { slice_get program.now id ≡ Some (Any None) }
    ensures outcome { Binds result here.now room.new ((evaluator program.now depth).pattern id value ejector here.now room.old) }
{
    if depth == 0 {
        return Err(Exit::Deep);
    }
    spend(room, 1)?;
    Ok(())
}

/// Binds a pattern that is a name or nothing without a guard, and does nothing at any other.
#[tactic(auto, using(ev_room::proofs::Fronts::itself_in_front))]
fn bind_in(
    program: &Program,
    depth: u32,
    id: NodeId,
    node: &Node,
    value: Value,
    ejector: Value,
    here: &mut Scope,
    room: &mut Room,
) -> Result<Early, Exit>
    requires { slice_get program.now id ≡ Some node.now }
    ensures bound { BindsAtOnce program.now depth id value ejector here.old room.old result here.new room.new }
    ensures later { LeavesOthers program.now id result }
    ensures front { Extends here.old here.new }
{
    match node {
        Node::Final(noun, None) => {
            bind_final(program, depth, id, noun, value, ejector, here, room)?;
            Ok(Early::Bound)
        }
        Node::Var(noun, None) => {
            bind_var(program, depth, id, noun, value, ejector, here, room)?;
            Ok(Early::Bound)
        }
        Node::Any(None) => {
            bind_any(program, depth, id, value, ejector, here, room)?;
            Ok(Early::Bound)
        }
        _ => Ok(Early::Later),
    }
}

/// The same of the node of a number.
#[tactic(auto, using(ev_room::proofs::Fronts::itself_in_front))]
pub fn bind_at_once(
    program: &Program,
    depth: u32,
    id: NodeId,
    value: Value,
    ejector: Value,
    here: &mut Scope,
    room: &mut Room,
) -> Result<Early, Exit>
    ensures bound { BindsAtOnce program.now depth id value ejector here.old room.old result here.new room.new }
    ensures later { LeavesOthers program.now id result }
    ensures front { Extends here.old here.new }
{
    match node_at(program.nodes(), id) {
        None => Ok(Early::Later),
        Some(node) => bind_in(program, depth, id, node, value, ejector, here, room),
    }
}

/// Binds patterns to values from a place on, as far as they can be bound at once: the place behind them.
#[tactic(auto, using(crate::proofs::Binding::one_bound, crate::proofs::Binding::one_ends, std::proofs::lemmas::Option::slice_get_within, ev_room::proofs::Fronts::itself_in_front, ev_room::proofs::Fronts::in_front))]
pub fn bind_from(
    program: &Program,
    depth: u32,
    patterns: &[NodeId],
    values: &[Value],
    ejector: Value,
    begun: usize,
    here: &mut Scope,
    room: &mut Room,
) -> Result<usize, Exit>
    ensures bound { BindsFrom program.now depth begun patterns.now values.now ejector here.old room.old result here.new room.new }
    ensures far { EndsWhereLeft program.now patterns.now values.now result }
    ensures front { Extends here.old here.new }
{
    let mut place = begun;
    while let Some(pattern) = part_at(patterns, place) {
        let Some(value) = value_at(values, place) else {
            return Ok(place);
        };
        let by = ejector;
        match bind_at_once(program, depth, pattern, value, by, here, room)? {
            Early::Bound => place += 1,
            Early::Later => return Ok(place),
        }
    }
    Ok(place)
}
