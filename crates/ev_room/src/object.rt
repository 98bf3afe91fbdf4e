//! Objects: what they hold, and which method answers.

ghost use Rattle.std.specs.Prelude.{◌≡◌, [], IfOk, OnOk, Some, map, option_map, reverse};
ghost use Rattle.ev_base.specs.declared.values.Value.TheVariants.{Obj};
ghost use Rattle.ev_heap.specs.declared.happened.Happened.TheVariants.{Made};
ghost use Rattle.ev_kernel_printer.specs.FreeNames.{free_names};
ghost use Rattle.def_machine.specs.Scopes.{name_of};
ghost use Rattle.ev_room.specs.Sound.{capture_of, caught_of};
ghost use Rattle.ev_room.specs.Acts.{Answers, Extends, Gives, GivesIn, captures, code_of, look_code, named, new_object, object_as, object_at, object_made};

use crate::audition::view_copy;
use crate::bindings::Nouns;
use crate::data::copied_values;
use crate::exit::Exit;
use crate::room::{Room, tell};
use crate::scope::{Binding, Bound, NO_GUARD, Scope};
use crate::tree::node_at;
use def_kernel::Node;
use ev_base::{ActId, Memory, NodeId, ObjId, PromId, Seq, Str, Value, Word};
use ev_heap::{AuditView, Capture, Caught, Happened, Shape, Shared};
use ev_kernel_printer::{Program, free_names};
use std::alloc::Global;
use std::marker::Model;

/// What an object holds of its free names, which it shares. Contracts see what they are bound to.
#[derive(Drop)]
pub struct Held {
    caught: Shared<Caught>,
}

impl Model for Held {
    ghost use Rattle.std.specs.Prelude.{List, map};
    ghost use Rattle.ev_room.specs.Held.{binding_back};
    ghost use Rattle.ev_room.specs.declared.scope.Binding.{Binding};

    ghost Value = { List Binding };

    ghost view = { λ h. map binding_back h.caught };
}

impl Held {
    /// The scope of a call, in which the first of the names stands last, as the innermost.
    pub fn scope(self, alloc: Global) -> Nouns
        ensures { result ≡ reverse self }
    {
        let Held { caught } = self;
        Nouns::inside(alloc, caught)
    }
}

/// An object: the node of its object expression, and what its free names are bound to, in order of first use.
#[derive(Drop)]
pub struct Object {
    pub node: NodeId,
    pub nouns: Held,
}

/// What a call on something that bears a number runs.
#[derive(Drop)]
pub enum Code {
    /// The code of an object of the program.
    Runs(Object),
    /// An ejector, and whether it is alive.
    Leaves(bool),
    /// The resolver of a promise.
    Resolves(PromId),
    /// An audition, whether it is alive, and what it may tell.
    Audits(bool, AuditView),
}

/// What an object holds of a name that is bound so.
pub(crate) fn capture_of(bound: Bound) -> Capture
    ensures { result ≡ capture_of bound }
{
    match bound {
        Bound::Fixed { value, guard } => Capture::Fixed { value, guard },
        Bound::Slot(slot) => Capture::Slot(slot),
    }
}

/// The code of a shape that is alive or dead.
#[tactic(auto, unfolding(crate::specs::Acts::opened_acts))]
fn shape_code(alloc: Global, shape: &Shape, alive: bool) -> Result<Code, Exit>
    ensures { Answers result (code_of shape.now alive) }
{
    match shape {
        Shape::Made { node, captures, .. } => {
            let caught = captures.share()?;
            let nouns = Held { caught };
            Ok(Code::Runs(Object { node: *node, nouns }))
        }
        Shape::Ejector => Ok(Code::Leaves(alive)),
        Shape::Resolver(promise) => Ok(Code::Resolves(*promise)),
        Shape::Audition(view) => {
            let view = view_copy(alloc, view)?;
            Ok(Code::Audits(alive, view))
        }
    }
}

/// The code of an object, an ejector, a resolver or an audition.
#[tactic(auto, using(crate::proofs::Things::code_goes, crate::proofs::Things::code_astray))]
pub fn look_code(object: ObjId, room: &Room) -> Result<Code, Exit>
    ensures { Gives result room.now (look_code object room.now) }
{
    if object.0 >= room.heap.object_count() {
        return Err(Exit::Astray);
    }
    let alive = room.heap.is_alive(object);
    shape_code(room.alloc, room.heap.shape(object), alive)
}

/// What is bound of these names.
#[tactic(auto, unfolding(crate::specs::Acts::captures, crate::specs::Acts::with_bound))]
fn captures(alloc: Global, nouns: &Nouns, free: &[Str]) -> Result<Seq<Binding>, Memory>
    ensures { IfOk result (λ all. all ≡ captures [] nouns.now free.now) }
{
    let mut all = Seq::new(alloc);
    for noun in free {
        let noun = Word::copy_of(alloc, noun.as_str())?;
        if let Some(bound) = nouns.found(&noun) {
            all.push(Binding { noun, bound })?;
        }
    }
    Ok(all)
}

/// What an object keeps of its captures.
fn kept(alloc: Global, nouns: &[Binding]) -> Result<Seq<Caught>, Memory>
    ensures { IfOk result (λ all. all ≡ map caught_of nouns.now) }
{
    let mut all = Seq::new(alloc);
    for binding in nouns {
        let noun = binding.noun.share()?;
        let capture = capture_of(binding.bound);
        all.push(Caught { noun, capture })?;
    }
    Ok(all)
}

/// The line of an object.
fn made_line(
    alloc: Global,
    act: ActId,
    object: ObjId,
    name: &str,
    nouns: &[Binding],
    stamps: &[Value],
) -> Result<Happened, Memory>
    ensures { IfOk result (λ line. line ≡ Made act (Obj object) name.now (map (λ b. capture_of b.bound) nouns.now) stamps.now) }
{
    let mut caps = Seq::new(alloc);
    for binding in nouns {
        caps.push(capture_of(binding.bound))?;
    }
    let name = Word::copy_of(alloc, name)?;
    let stamps = copied_values(alloc, stamps)?;
    Ok(Happened::Made {
        activation: act,
        object: Value::Obj(object),
        name,
        caps,
        stamps,
    })
}

/// Keeps an object with these stamps.
#[tactic(auto, unfolding(crate::specs::Acts::opened_acts))]
fn new_object(
    node: NodeId,
    nouns: &[Binding],
    stamps: &[Value],
    room: &mut Room,
) -> Result<ObjId, Exit>
    ensures outcome { Gives result room.new (new_object node nouns.now stamps.now room.old) }
{
    let captures = kept(room.alloc, nouns)?;
    let captures = Shared::of(room.alloc, captures)?;
    let stamps = copied_values(room.alloc, stamps)?;
    let shape = Shape::Made {
        node,
        captures,
        stamps,
    };
    match room.heap.make_object(shape) {
        Ok(object) => Ok(object),
        Err(Memory) => Err(Exit::Memory),
    }
}

#[tactic(auto, unfolding(def_machine::specs::Scopes::name_of))]
fn name_in(pattern: &Node) -> &str
    ensures { result.now ≡ name_of (Some pattern.now) }
{
    match pattern {
        Node::Final(noun, _) => noun.as_str(),
        _ => "_",
    }
}

/// The name of an object, by its pattern.
#[tactic(auto, unfolding(def_machine::specs::Scopes::name_of))]
fn name_of(pattern: Option<&Node>) -> &str
    ensures { result.now ≡ name_of (option_map (λ node. node.now) pattern.entry) }
{
    match pattern {
        Some(pattern) => name_in(pattern),
        None => "_",
    }
}

#[tactic(auto, using(crate::proofs::Fronts::itself_in_front, crate::proofs::Fronts::noun_behind), unfolding(crate::specs::Acts::named))]
fn bind_name_in(
    alloc: Global,
    pattern: &Node,
    object: ObjId,
    here: &mut Scope,
) -> Result<(), Memory>
    ensures named { OnOk result (here.new ≡ named (Some pattern.now) object here.old) }
    ensures front { Extends here.old here.new }
{
    match pattern {
        Node::Final(noun, _) => {
            let noun = noun.share()?;
            here.nouns.push(Binding {
                noun,
                bound: Bound::Fixed {
                    value: Value::Obj(object),
                    guard: NO_GUARD,
                },
            })
        }
        _ => Ok(()),
    }
}

/// Binds the name of an object to it.
#[tactic(auto, using(crate::proofs::Fronts::itself_in_front, crate::proofs::Fronts::noun_behind), unfolding(crate::specs::Acts::named))]
fn bind_name(
    alloc: Global,
    pattern: Option<&Node>,
    object: ObjId,
    here: &mut Scope,
) -> Result<(), Memory>
    ensures named { OnOk result (here.new ≡ named (option_map (λ node. node.now) pattern.entry) object here.old) }
    ensures front { Extends here.old here.new }
{
    match pattern {
        Some(pattern) => bind_name_in(alloc, pattern, object, here),
        None => Ok(()),
    }
}

/// Keeps an object with these captures and stamps, and tells it.
#[tactic(auto, using(crate::proofs::Exits::ends), unfolding(crate::specs::Acts::opened_acts))]
fn object_made(
    node: NodeId,
    name: &str,
    nouns: &[Binding],
    stamps: &[Value],
    object: ObjId,
    here: &Scope,
    room: &mut Room,
) -> Result<Value, Exit>
    ensures outcome { GivesIn result here.now room.new (object_made node name.now nouns.now stamps.now object here.now room.old) }
{
    new_object(node, nouns, stamps, room)?;
    let line = made_line(room.alloc, here.act, object, name, nouns, stamps)?;
    tell(room, line)?;
    Ok(Value::Obj(object))
}

/// Makes an object whose free names and stamps are these, in the scope after its own name is bound.
#[tactic(auto, using(crate::proofs::Exits::ends), unfolding(crate::specs::Acts::opened_acts))]
fn object_as(
    node: NodeId,
    pattern: Option<&Node>,
    free: &[Str],
    stamps: &[Value],
    here: &mut Scope,
    room: &mut Room,
) -> Result<Value, Exit>
    ensures outcome { GivesIn result here.new room.new (object_as node (option_map (λ node. node.now) pattern.entry) free.now stamps.now here.old room.old) }
    ensures front { Extends here.old here.new }
{
    let object = ObjId(room.heap.object_count());
    bind_name(room.alloc, pattern, object, here)?;
    let nouns = captures(room.alloc, &here.nouns, free)?;
    object_made(
        node,
        name_of(pattern),
        nouns.as_slice(),
        stamps,
        object,
        here,
        room,
    )
}

/// Makes an object of the expression at a node, with the stamps of the auditors that approved.
#[tactic(auto, using(crate::proofs::Exits::ends, crate::proofs::Fronts::itself_in_front), unfolding(crate::specs::Acts::opened_acts))]
pub fn object_at(
    program: &Program,
    id: NodeId,
    pattern: NodeId,
    stamps: &[Value],
    here: &mut Scope,
    room: &mut Room,
) -> Result<Value, Exit>
    ensures outcome { GivesIn result here.new room.new (object_at program.now id pattern stamps.now here.old room.old) }
    ensures front { Extends here.old here.new }
{
    let pattern = node_at(program.nodes(), pattern);
    if let Some(free) = program.captured(id) {
        return object_as(id, pattern, free, stamps, here, room);
    }
    let free = free_names(room.alloc, program.tree(), id)?;
    object_as(id, pattern, free.as_slice(), stamps, here, room)
}
