//! Pieces that are objects, their members, and patterns.

ghost use Rattle.std.specs.Prelude.{◌≡◌, IfOk};
ghost use Rattle.ev_piece.specs.Pieces.{any, final_pattern, list, matcher, method, object, variable, via};

use crate::build::{add, add_all, add_if, headed};
use def_kernel::Node;
use ev_base::{Memory, Seq, Str, Word};
use std::alloc::Global;

/// `(object P (E ..) M ..)`
#[tactic(auto, unfolding(crate::specs::Pieces::object))]
pub fn object(
    alloc: Global,
    pattern: Seq<Node>,
    auditors: Seq<Seq<Node>>,
    members: Seq<Seq<Node>>,
) -> Result<Seq<Node>, Memory>
    ensures { IfOk result (λ piece. piece ≡ object pattern auditors members) }
{
    let mut parts = Vec::new(alloc);
    let pattern = add(&mut parts, pattern)?;
    let auditors = add_all(alloc, &mut parts, auditors)?;
    let members = add_all(alloc, &mut parts, members)?;
    let node = Node::Object {
        pattern,
        auditors,
        members,
    };
    headed(node, parts)
}

/// `(method verb (P ..) E)`
#[tactic(auto, unfolding(crate::specs::Pieces::method))]
pub fn method(
    alloc: Global,
    verb: Str,
    patterns: Seq<Seq<Node>>,
    body: Seq<Node>,
) -> Result<Seq<Node>, Memory>
    ensures { IfOk result (λ piece. piece ≡ method verb patterns body) }
{
    let mut parts = Vec::new(alloc);
    let patterns = add_all(alloc, &mut parts, patterns)?;
    let body = add(&mut parts, body)?;
    let verb = Word::of(alloc, verb)?;
    let node = Node::Method {
        verb,
        patterns,
        body,
    };
    headed(node, parts)
}

/// `(matcher P E)`
#[tactic(auto, unfolding(crate::specs::Pieces::matcher))]
pub fn matcher(alloc: Global, pattern: Seq<Node>, body: Seq<Node>) -> Result<Seq<Node>, Memory>
    ensures { IfOk result (λ piece. piece ≡ matcher pattern body) }
{
    let mut parts = Vec::new(alloc);
    let pattern = add(&mut parts, pattern)?;
    let body = add(&mut parts, body)?;
    headed(Node::Matcher { pattern, body }, parts)
}

/// `(final x G)`, the guard being left out where there is none
#[tactic(auto, unfolding(crate::specs::Pieces::final_pattern))]
pub fn final_pattern(
    alloc: Global,
    name: Str,
    guard: Option<Seq<Node>>,
) -> Result<Seq<Node>, Memory>
    ensures { IfOk result (λ piece. piece ≡ final_pattern name guard) }
{
    let mut parts = Vec::new(alloc);
    let guard = add_if(&mut parts, guard)?;
    headed(Node::Final(Word::of(alloc, name)?, guard), parts)
}

/// `(var x G)`
#[tactic(auto, unfolding(crate::specs::Pieces::variable))]
pub fn variable(alloc: Global, name: Str, guard: Option<Seq<Node>>) -> Result<Seq<Node>, Memory>
    ensures { IfOk result (λ piece. piece ≡ variable name guard) }
{
    let mut parts = Vec::new(alloc);
    let guard = add_if(&mut parts, guard)?;
    headed(Node::Var(Word::of(alloc, name)?, guard), parts)
}

/// `(any G)`
#[tactic(auto, unfolding(crate::specs::Pieces::any))]
pub fn any(alloc: Global, guard: Option<Seq<Node>>) -> Result<Seq<Node>, Memory>
    ensures { IfOk result (λ piece. piece ≡ any guard) }
{
    let mut parts = Vec::new(alloc);
    let guard = add_if(&mut parts, guard)?;
    headed(Node::Any(guard), parts)
}

/// `(list P ..)`
#[tactic(auto, unfolding(crate::specs::Pieces::list))]
pub fn list(alloc: Global, patterns: Seq<Seq<Node>>) -> Result<Seq<Node>, Memory>
    ensures { IfOk result (λ piece. piece ≡ list patterns) }
{
    let mut parts = Vec::new(alloc);
    let patterns = add_all(alloc, &mut parts, patterns)?;
    headed(Node::ListPattern(patterns), parts)
}

/// `(via E P)`
#[tactic(auto, unfolding(crate::specs::Pieces::via))]
pub fn via(alloc: Global, value: Seq<Node>, pattern: Seq<Node>) -> Result<Seq<Node>, Memory>
    ensures { IfOk result (λ piece. piece ≡ via value pattern) }
{
    let mut parts = Vec::new(alloc);
    let value = add(&mut parts, value)?;
    let pattern = add(&mut parts, pattern)?;
    headed(Node::Via(value, pattern), parts)
}
