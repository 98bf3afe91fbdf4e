//! Where a `return`, a `break` or a `continue` belongs, and the first fault of a tree.

ghost use Rattle.std.specs.Prelude.{◌≡◌, ◌+◌, IfOk};
ghost use Rattle.ev_expand.specs.Marked.{bounded, both, closed, earlier, earlier_fault, fault_if, form_marks, inside, is_hidden, is_reserved, leaving, looped, marked, marks_at, named, no_marks, node_marks, object_named, returning, together, with_fault};
ghost use Rattle.ev_expand.specs.declared.marks.FaultKind.TheVariants.{Name};

use crate::parts::parts;
use def_syntax::{Form, SugarNode};
use ev_base::{Memory, NodeId, Seq, Str, safe_value};
use std::alloc::Global;

/// What is wrong with a source that spells a tree.
#[derive(Clone, Copy)]
pub enum FaultKind {
    /// A `return` that belongs to no `to` and to no `def f()`.
    Return,
    /// A `break` or `continue` that belongs to no loop.
    Break,
    /// A noun that begins with `__`, or a safe name that is bound or assigned.
    Name,
}

/// A fault and the number of its token.
#[derive(Clone, Copy)]
pub struct Fault {
    pub kind: FaultKind,
    pub token: u64,
}

/// What is known of a node: the first `return`, `break` and `continue` in it that belong to something round it, each by
/// the number of its token, and the first fault in it.
#[derive(Clone, Copy)]
pub struct Marks {
    pub returns: Option<u64>,
    pub breaks: Option<u64>,
    pub continues: Option<u64>,
    pub fault: Option<Fault>,
}

#[tactic(auto, unfolding(crate::specs::Marked::no_marks))]
fn no_marks() -> Marks
    ensures { result ≡ no_marks }
{
    Marks {
        returns: None,
        breaks: None,
        continues: None,
        fault: None,
    }
}

/// The earlier of two tokens that may be none.
#[tactic(auto, unfolding(crate::specs::Marked::earlier))]
fn earlier(a: Option<u64>, b: Option<u64>) -> Option<u64>
    ensures { result ≡ earlier a b }
{
    match a {
        None => b,
        Some(t) => match b {
            None => Some(t),
            Some(u) => Some(t.min(u)),
        },
    }
}

/// The earlier of two faults that may be none.
#[tactic(auto, unfolding(crate::specs::Marked::earlier_fault))]
fn earlier_fault(a: Option<Fault>, b: Option<Fault>) -> Option<Fault>
    ensures { result ≡ earlier_fault a b }
{
    match a {
        None => b,
        Some(f) => match b {
            None => Some(f),
            Some(g) => { if g.token < f.token { Some(g) } else { Some(f) } }
        },
    }
}

#[tactic(auto, unfolding(crate::specs::Marked::both))]
fn both(a: Marks, b: Marks) -> Marks
    ensures { result ≡ both a b }
{
    Marks {
        returns: earlier(a.returns, b.returns),
        breaks: earlier(a.breaks, b.breaks),
        continues: earlier(a.continues, b.continues),
        fault: earlier_fault(a.fault, b.fault),
    }
}

/// What is known of a node among those that have been looked at.
#[tactic(auto, unfolding(crate::specs::Marked::marks_at, crate::specs::Marked::marks_found))]
pub(crate) fn marks_at(done: &[Marks], id: NodeId) -> Marks
    ensures { result ≡ marks_at done.now id }
{
    match done.get(id.0 as usize) {
        None => no_marks(),
        Some(marks) => *marks,
    }
}

/// What is known of some nodes.
#[tactic(auto, unfolding(crate::specs::Marked::together))]
fn together(done: &[Marks], ids: &[NodeId]) -> Marks
    ensures { result ≡ together done.now no_marks ids.now }
{
    let mut found = no_marks();
    for id in ids {
        found = both(found, marks_at(done, *id));
    }
    found
}

/// Whether the noun begins with `__`.
#[tactic(auto, unfolding(crate::specs::Marked::is_hidden))]
fn is_hidden(noun: &str) -> bool
    ensures { result ≡ is_hidden noun.now }
{
    noun.as_bytes().starts_with("__".as_bytes())
}

/// Whether the noun may not be bound or assigned.
#[tactic(auto, unfolding(crate::specs::Marked::is_reserved))]
fn is_reserved(noun: &str) -> bool
    ensures { result ≡ is_reserved noun.now }
{
    if is_hidden(noun) {
        return true;
    }
    safe_value(noun).is_some()
}

#[tactic(auto, unfolding(crate::specs::Marked::fault_if))]
fn fault_if(kind: FaultKind, token: Option<u64>) -> Option<Fault>
    ensures { result ≡ fault_if kind token }
{
    match token {
        None => None,
        Some(token) => Some(Fault { kind, token }),
    }
}

#[tactic(auto, unfolding(crate::specs::Marked::with_fault))]
fn with_fault(fault: Option<Fault>, mut marks: Marks) -> Marks
    ensures { result ≡ with_fault fault marks }
{
    marks.fault = earlier_fault(marks.fault, fault);
    marks
}

/// A loop is round these parts.
#[tactic(auto, unfolding(crate::specs::Marked::looped))]
fn looped(mut marks: Marks) -> Marks
    ensures { result ≡ looped marks }
{
    marks.breaks = None;
    marks.continues = None;
    marks
}

/// A `to`, `def f()`, `method`, `match`, `fn` or `when` is round these parts.
#[tactic(auto, unfolding(crate::specs::Marked::bounded))]
fn bounded(marks: Marks) -> Marks
    ensures { result ≡ bounded marks }
{
    let stray = earlier(marks.breaks, marks.continues);
    with_fault(fault_if(FaultKind::Break, stray), looped(marks))
}

/// It is a `to` or a `def f()`, to which a `return` belongs.
#[tactic(auto, unfolding(crate::specs::Marked::returning))]
fn returning(marks: Marks) -> Marks
    ensures { result ≡ returning marks }
{
    let mut marks = bounded(marks);
    marks.returns = None;
    marks
}

/// It is another one, or the whole program.
#[tactic(auto, unfolding(crate::specs::Marked::closed))]
pub(crate) fn closed(marks: Marks) -> Marks
    ensures { result ≡ closed marks }
{
    let stray = fault_if(FaultKind::Return, marks.returns);
    with_fault(stray, returning(marks))
}

/// A noun stands at this token, and may not.
#[tactic(auto, unfolding(crate::specs::Marked::named))]
fn named(wrong: bool, token: u64, marks: Marks) -> Marks
    ensures { result ≡ named wrong token marks }
{
    let place = if wrong { Some(token) } else { None };
    with_fault(fault_if(FaultKind::Name, place), marks)
}

/// The same of the noun behind this token.
fn named_behind(wrong: bool, token: u64, marks: Marks) -> Result<Marks, Memory>
    ensures { IfOk result (λ made. made ≡ named wrong (token + 1) marks) }
{
    let token = token.checked_add(1).ok_or(Memory)?;
    Ok(named(wrong, token, marks))
}

/// A `return`, `break` or `continue` at this token.
#[tactic(auto, unfolding(crate::specs::Marked::leaving))]
fn leaving(word: &str, token: u64, mut marks: Marks) -> Marks
    ensures { result ≡ leaving word.now token marks }
{
    match word {
        "return" => marks.returns = earlier(Some(token), marks.returns),
        "break" => marks.breaks = earlier(Some(token), marks.breaks),
        _ => marks.continues = earlier(Some(token), marks.continues),
    }
    marks
}

/// An object that may have a name, behind the token `def`.
#[tactic(auto, unfolding(crate::specs::Marked::object_named))]
fn object_named(name: &Option<Str>, token: u64, marks: Marks) -> Result<Marks, Memory>
    ensures { IfOk result (λ made. made ≡ object_named name.now token marks) }
{
    match name {
        None => Ok(marks),
        Some(name) => named_behind(is_reserved(name.as_str()), token, marks),
    }
}

/// What is known of a form whose first token this is, by what is known of its parts.
#[tactic(auto, unfolding(crate::specs::Marked::form_marks))]
fn form_marks(form: &Form, token: u64, marks: Marks) -> Result<Marks, Memory>
    ensures { IfOk result (λ made. made ≡ form_marks form.now token marks) }
{
    match form {
        Form::Noun(noun) => Ok(named(is_hidden(noun.as_str()), token, marks)),
        Form::While(_, _) => Ok(looped(marks)),
        Form::For(_, _, _, _) => Ok(looped(marks)),
        Form::When(_, _, _) => Ok(closed(marks)),
        Form::Function(_, _) => Ok(closed(marks)),
        Form::Assign(noun, _, _) => Ok(named(is_reserved(noun.as_str()), token, marks)),
        Form::Leave(word, _) => Ok(leaving(word.as_str(), token, marks)),
        Form::DefineObject(name, _, _) => object_named(name, token, marks),
        Form::DefineFunction(noun, _, _, _, _) => {
            named_behind(is_reserved(noun.as_str()), token, returning(marks))
        }
        Form::DefineVar(noun, _, _, _) => named_behind(is_reserved(noun.as_str()), token, marks),
        Form::FinalPattern(noun, _) => Ok(named(is_reserved(noun.as_str()), token, marks)),
        Form::VarPattern(noun, _) => named_behind(is_reserved(noun.as_str()), token, marks),
        Form::NounGuard(noun, _) => Ok(named(is_hidden(noun.as_str()), token, marks)),
        Form::To(_, _, _, _) => Ok(returning(marks)),
        Form::Method(_, _, _, _) => Ok(closed(marks)),
        Form::Matcher(_, _) => Ok(closed(marks)),
        _ => Ok(marks),
    }
}

/// What is known of the parts of a form.
#[tactic(auto, unfolding(crate::specs::Marked::inside))]
pub(crate) fn inside(alloc: Global, done: &[Marks], form: &Form) -> Result<Marks, Memory>
    ensures { IfOk result (λ made. made ≡ inside done.now form.now) }
{
    let ids = parts(alloc, form)?;
    Ok(together(done, ids.as_slice()))
}

#[tactic(auto, unfolding(crate::specs::Marked::node_marks))]
fn node_marks(alloc: Global, done: &[Marks], node: &SugarNode) -> Result<Marks, Memory>
    ensures { IfOk result (λ made. made ≡ node_marks done.now node.now) }
{
    let marks = inside(alloc, done, &node.form)?;
    form_marks(&node.form, node.first, marks)
}

/// What is known of each node.
#[tactic(auto, unfolding(crate::specs::Marked::marked, crate::specs::Marked::marked_behind))]
pub(crate) fn marked(alloc: Global, nodes: &[SugarNode]) -> Result<Seq<Marks>, Memory>
    ensures { IfOk result (λ made. made ≡ marked nodes.now) }
{
    let mut done = Seq::new(alloc);
    for node in nodes {
        let marks = node_marks(alloc, done.as_slice(), node)?;
        done.push(marks)?;
    }
    Ok(done)
}
