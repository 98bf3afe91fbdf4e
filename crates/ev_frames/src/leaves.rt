//! Parts that are literals and nouns are evaluated at once, without a frame.

ghost use Rattle.std.specs.Prelude.{◌≡◌, Some, drop, length, slice_get};
ghost use Rattle.ev_steps.specs.Steps.{evaluator, gathered, last_of, literal_node, literal_value, noun_node};
ghost use Rattle.def_kernel.specs.declared.node.Node.TheVariants.{Lit, Noun};
ghost use Rattle.ev_room.specs.Acts.{Gives, GivesIn};
ghost use Rattle.ev_frames.specs.Leaves.{Gathers, GathersAll, LeafGives, LeavesNodes, Passes, PassesAll};
ghost use Rattle.ev_room.specs.declared.scope.Scope.{Scope as Surroundings};

use def_kernel::{Literal, Node};
use ev_base::{NodeId, Seq, Value, Word};
use ev_room::Program;
use ev_room::data::text_kept;
use ev_room::exit::Exit;
use ev_room::nouns::read_bound;
use ev_room::room::{Room, spend};
use ev_room::scope::Scope;
use ev_room::tree::node_at;
use ev_steps::pattern::part_at;

/// The value of a literal.
#[tactic(auto, unfolding(ev_steps::specs::Steps::literal_value, ev_room::specs::Acts::give))]
#[inline(always)]
fn literal_value(literal: &Literal, room: &mut Room) -> Result<Value, Exit>
    ensures outcome { Gives result room.new (literal_value literal.now room.old) }
{
    match literal {
        Literal::Int(number) => Ok(Value::Int(*number)),
        Literal::Char(letter) => Ok(Value::Char(*letter)),
        Literal::Text(text) => text_kept(text, room),
    }
}

/// Evaluates a literal.
#[tactic(auto, using(ev_room::proofs::Exits::ends), unfolding(ev_steps::specs::Steps::opened_steps))]
#[inline(always)]
pub fn literal_node(literal: &Literal, here: &Scope, room: &mut Room) -> Result<Value, Exit>
    ensures outcome { GivesIn result here.now room.new (literal_node literal.now here.now room.old) }
{
    let value = literal_value(literal, room)?;
    Ok(value)
}

/// The value of a noun.
#[tactic(auto, using(ev_room::proofs::Exits::ends), unfolding(ev_steps::specs::Steps::opened_steps))]
#[inline(always)]
pub fn noun_node(noun: &Word, here: &Scope, room: &mut Room) -> Result<Value, Exit>
    ensures outcome { GivesIn result here.now room.new (noun_node noun.now here.now room.old) }
{
    let bound = here.nouns.found(noun);
    let value = read_bound(here.act, bound, noun.as_str(), room)?;
    Ok(value)
}

/// Evaluates a literal.
#[tactic(auto, using(ev_steps::proofs::Depth::expression_deep, ev_steps::proofs::Depth::expression_goes, ev_room::proofs::Exits::ends), unfolding(ev_steps::specs::Steps::opened_steps))]
#[inline(always)]
fn literal_leaf(
    program: &Program,
    depth: u32,
    id: NodeId,
    literal: &Literal,
    here: &Scope,
    room: &mut Room,
) -> Result<Value, Exit>
    requires { slice_get program.now id ≡ Some (Lit literal.now) }
    ensures outcome { GivesIn result here.now room.new ((evaluator program.now depth).expression id here.now room.old) }
{
    if depth == 0 {
        return Err(Exit::Deep);
    }
    spend(room, 1)?;
    literal_node(literal, here, room)
}

/// Evaluates a noun.
#[tactic(auto, using(ev_steps::proofs::Depth::expression_deep, ev_steps::proofs::Depth::expression_goes, ev_room::proofs::Exits::ends), unfolding(ev_steps::specs::Steps::opened_steps))]
#[inline(always)]
fn noun_leaf(
    program: &Program,
    depth: u32,
    id: NodeId,
    noun: &Word,
    here: &Scope,
    room: &mut Room,
) -> Result<Value, Exit>
    requires { slice_get program.now id ≡ Some (Noun noun.now) }
    ensures outcome { GivesIn result here.now room.new ((evaluator program.now depth).expression id here.now room.old) }
{
    if depth == 0 {
        return Err(Exit::Deep);
    }
    spend(room, 1)?;
    noun_node(noun, here, room)
}

/// Evaluates a node that is a literal or a noun, and does nothing at any other.
#[inline(always)]
fn leaf_in(
    program: &Program,
    depth: u32,
    id: NodeId,
    node: &Node,
    here: &Scope,
    room: &mut Room,
) -> Result<Option<Value>, Exit>
    requires { slice_get program.now id ≡ Some node.now }
    ensures gives { LeafGives program.now depth id here.now room.old result room.new }
    ensures others { LeavesNodes program.now id result }
{
    match node {
        Node::Lit(literal) => {
            let value = literal_leaf(program, depth, id, literal, here, room)?;
            Ok(Some(value))
        }
        Node::Noun(noun) => {
            let value = noun_leaf(program, depth, id, noun, here, room)?;
            Ok(Some(value))
        }
        _ => Ok(None),
    }
}

/// The same of the node of a number.
#[inline(always)]
pub fn leaf(
    program: &Program,
    depth: u32,
    id: NodeId,
    here: &Scope,
    room: &mut Room,
) -> Result<Option<Value>, Exit>
    ensures gives { LeafGives program.now depth id here.now room.old result room.new }
    ensures others { LeavesNodes program.now id result }
{
    match node_at(program.nodes(), id) {
        None => Ok(None),
        Some(node) => leaf_in(program, depth, id, node, here, room),
    }
}

/// Evaluates the parts of a sequence from a place on, as far as they are literals and nouns: the place behind them, and the value of
/// the last of them, or the one before.
#[tactic(auto, using(crate::proofs::Leafy::leaf_passes, crate::proofs::Leafy::leaf_ends, std::proofs::lemmas::Option::slice_get_within))]
#[inline(always)]
pub fn leaves(
    program: &Program,
    depth: u32,
    begun: usize,
    value: Value,
    parts: &[NodeId],
    here: &Scope,
    room: &mut Room,
) -> Result<(usize, Value), Exit>
    ensures passes { Passes program.now depth begun value parts.now here.now room.old result room.new }
    ensures all { PassesAll program.now parts.now result }
{
    let mut place = begun;
    let mut last = value;
    while let Some(part) = part_at(parts, place) {
        match leaf(program, depth, part, here, room)? {
            Some(given) => last = given,
            None => return Ok((place, last)),
        }
        place += 1;
    }
    Ok((place, last))
}

/// Evaluates the arguments of a call behind those so far, as far as they are literals and nouns.
#[tactic(auto, using(crate::proofs::Leafy::leaf_gathers, crate::proofs::Leafy::leaf_gathers_not, std::proofs::lemmas::Option::slice_get_within))]
#[inline(always)]
pub fn leaf_args(
    program: &Program,
    depth: u32,
    so_far: Seq<Value>,
    args: &[NodeId],
    here: &Scope,
    room: &mut Room,
) -> Result<Seq<Value>, Exit>
    ensures gathers { Gathers program.now depth so_far args.now here.now room.old result room.new }
    ensures all { GathersAll program.now args.now result }
{
    let mut values = so_far;
    while let Some(part) = part_at(args, values.len()) {
        match leaf(program, depth, part, here, room)? {
            Some(given) => values.push(given)?,
            None => return Ok(values),
        }
    }
    Ok(values)
}
