//! What auditors may know of an object that is being made, and what they are told of it.

ghost use Rattle.std.specs.Prelude.{◌≡◌, IfOk, Some, map, option_map};
ghost use Rattle.def_machine.specs.Scopes.{own_noun};
ghost use Rattle.ev_room.specs.Acts.{Gives, guard_asked, is_stamped, keep_audition, name_seen, new_audition, prim_verdict, view_at, view_of};

use crate::bindings::Nouns;
use crate::data::{problem_id, text_of};
use crate::exit::Exit;
use crate::object::capture_of;
use crate::room::{Room, tell};
use crate::scope::Scope;
use crate::tree::node_at;
use def_kernel::Node;
use ev_audit::{
    AuditView, AuditorSet, FreeName, NativeAuditor, Rule, audited_by, deep_frozen_test, free_name,
    functional_test, guard_at, selfless_test,
};
use ev_base::{ActId, Memory, NodeId, ObjId, PrimId, Seq, Str, TextId, Value, Word};
use ev_heap::{Happened, Heap, Shape};
use ev_kernel_printer::{Program, free_names};
use ev_prims::Problem;
use std::alloc::Global;

/// The problem where what judges is no auditor.
pub const NOT_AN_AUDITOR: TextId = TextId(18);

/// The problem of an audition whose time is over.
pub const DEAD_AUDITION: TextId = TextId(19);

/// The problem of a name that is not free in the object.
const NOT_FREE: TextId = TextId(20);

/// The same view.
pub(crate) fn view_copy(alloc: Global, view: &AuditView) -> Result<AuditView, Memory>
    ensures { IfOk result (λ copy. copy ≡ view.now) }
{
    let mut names = Seq::new(alloc);
    for name in view.names.as_slice() {
        let noun = name.noun.share()?;
        names.push(FreeName {
            noun,
            bound: name.bound,
        })?;
    }
    Ok(AuditView {
        node: view.node,
        names,
    })
}

#[tactic(auto, unfolding(def_machine::specs::Scopes::own_noun))]
fn own_in(pattern: &Node) -> Option<&str>
    ensures { option_map (λ x. x.now) result ≡ own_noun (Some pattern.now) }
{
    match pattern {
        Node::Final(noun, _) => Some(noun.as_str()),
        _ => None,
    }
}

/// The noun by which an object calls itself, where its pattern binds one.
#[tactic(auto, unfolding(def_machine::specs::Scopes::own_noun))]
fn own_noun(pattern: Option<&Node>) -> Option<&str>
    ensures { option_map (λ x. x.now) result ≡ own_noun (option_map (λ node. node.now) pattern.entry) }
{
    match pattern {
        Some(pattern) => own_in(pattern),
        None => None,
    }
}

/// What an auditor may know of a name.
fn name_seen(
    alloc: Global,
    own: Option<&str>,
    nouns: &Nouns,
    noun: &str,
) -> Result<FreeName, Memory>
    ensures { IfOk result (λ name. name ≡ name_seen (option_map (λ x. x.now) own.entry) nouns.now noun.now) }
{
    let sought = Word::copy_of(alloc, noun)?;
    match nouns.found(&sought) {
        Some(bound) => free_name(alloc, own, noun, Some(capture_of(bound))),
        None => free_name(alloc, own, noun, None),
    }
}

/// What an auditor may know of an object with these free names, in a scope.
fn view_of(
    alloc: Global,
    node: NodeId,
    pattern: Option<&Node>,
    free: &[Str],
    nouns: &Nouns,
) -> Result<AuditView, Memory>
    ensures { IfOk result (λ view. view ≡ view_of node (option_map (λ node. node.now) pattern.entry) free.now nouns.now) }
{
    let own = own_noun(pattern);
    let mut names = Seq::new(alloc);
    for noun in free {
        names.push(name_seen(alloc, own, nouns, noun.as_str())?)?;
    }
    Ok(AuditView { node, names })
}

/// What an auditor may know of an object of the expression at a node, in the scope in which it is made.
#[tactic(auto, unfolding(crate::specs::Acts::view_at))]
pub fn view_at(
    alloc: Global,
    program: &Program,
    id: NodeId,
    pattern: NodeId,
    here: &Scope,
) -> Result<AuditView, Memory>
    ensures { IfOk result (λ view. view ≡ view_at program.now id pattern here.now) }
{
    let pattern = node_at(program.nodes(), pattern);
    if let Some(free) = program.captured(id) {
        return view_of(alloc, id, pattern, free, &here.nouns);
    }
    let free = free_names(alloc, program.tree(), id)?;
    view_of(alloc, id, pattern, free.as_slice(), &here.nouns)
}

/// Keeps an audition, which is alive.
#[tactic(auto, unfolding(crate::specs::Acts::opened_acts))]
fn keep_audition(view: &AuditView, room: &mut Room) -> Result<ObjId, Exit>
    ensures outcome { Gives result room.new (keep_audition view.now room.old) }
{
    let view = view_copy(room.alloc, view)?;
    match room.heap.make_object(Shape::Audition(view)) {
        Ok(audition) => Ok(audition),
        Err(Memory) => Err(Exit::Memory),
    }
}

/// Makes an audition, which is alive.
#[tactic(auto, using(crate::proofs::Exits::ends), unfolding(crate::specs::Acts::opened_acts))]
pub fn new_audition(act: ActId, view: &AuditView, room: &mut Room) -> Result<ObjId, Exit>
    ensures outcome { Gives result room.new (new_audition act view.now room.old) }
{
    let audition = keep_audition(view, room)?;
    tell(room, Happened::Audition(act, Value::Obj(audition)))?;
    Ok(audition)
}

/// What an audition answers where the guard of a name is asked, which is followed.
#[tactic(auto, unfolding(crate::specs::Acts::guard_asked))]
pub fn guard_asked(heap: &Heap, view: &AuditView, name: Value) -> Result<Value, Exit>
    ensures { result ≡ guard_asked heap.now view.now name }
{
    match name {
        Value::Text(id) => match guard_at(view, text_of(heap, id)) {
            Some(guard) => Ok(guard),
            None => Err(Exit::Thrown(NOT_FREE)),
        },
        _ => Err(Exit::Thrown(problem_id(Problem::BadArgument))),
    }
}

/// Whether a followed value is an object that bears the stamp of a followed auditor.
#[tactic(auto, using(crate::proofs::Stamped::stamped, crate::proofs::Stamped::no_stamps), unfolding(crate::specs::Acts::is_stamped))]
pub fn is_stamped(heap: &Heap, auditor: Value, value: Value) -> bool
    ensures { result ≡ is_stamped heap.now auditor value }
{
    match value {
        Value::Obj(object) => object.0 < heap.object_count() && audited_by(heap, object, auditor),
        _ => false,
    }
}

/// The verdict of a primitive on an object of that view.
#[tactic(auto, using(crate::proofs::Stamped::judged, crate::proofs::Stamped::not_judged))]
pub fn prim_verdict(number: PrimId, view: &AuditView) -> Result<Value, Exit>
    ensures { result ≡ prim_verdict number view.now }
{
    let auditors = AuditorSet::new(
        NativeAuditor::new(Rule::DeepFrozen, deep_frozen_test),
        NativeAuditor::new(Rule::Selfless, selfless_test),
        NativeAuditor::new(Rule::Functional, functional_test),
    );
    match auditors.judge(number, view) {
        Some(approves) => Ok(Value::Bool(approves)),
        None => Err(Exit::Thrown(NOT_AN_AUDITOR)),
    }
}
