//! Pieces that are expressions.

ghost use Rattle.std.specs.Prelude.{◌≡◌, IfOk};
ghost use Rattle.ev_piece.specs.Pieces.{call, def, escape, escape_catch, finally, hide, if_, lit, match_bind, noun, seq, set, try_catch};

use crate::build::{add, add_all, add_if, headed};
use def_kernel::{Literal, Node};
use ev_base::{Memory, Seq, Str, Word};
use std::alloc::Global;

/// `(lit L)`
#[tactic(auto, unfolding(crate::specs::Pieces::lit))]
pub fn lit(alloc: Global, literal: Literal) -> Result<Seq<Node>, Memory>
    ensures { IfOk result (λ piece. piece ≡ lit literal) }
{
    let parts = Vec::new(alloc);
    headed(Node::Lit(literal), parts)
}

/// `(noun x)`
#[tactic(auto, unfolding(crate::specs::Pieces::noun))]
pub fn noun(alloc: Global, name: Str) -> Result<Seq<Node>, Memory>
    ensures { IfOk result (λ piece. piece ≡ noun name) }
{
    let parts = Vec::new(alloc);
    headed(Node::Noun(Word::of(alloc, name)?), parts)
}

/// `(set x E)`
#[tactic(auto, unfolding(crate::specs::Pieces::set))]
pub fn set(alloc: Global, name: Str, value: Seq<Node>) -> Result<Seq<Node>, Memory>
    ensures { IfOk result (λ piece. piece ≡ set name value) }
{
    let mut parts = Vec::new(alloc);
    let value = add(&mut parts, value)?;
    headed(Node::Set(Word::of(alloc, name)?, value), parts)
}

/// `(def P E)`, and with an ejector `(def P exit J E)`
#[tactic(auto, unfolding(crate::specs::Pieces::def))]
pub fn def(
    alloc: Global,
    pattern: Seq<Node>,
    exit: Option<Seq<Node>>,
    value: Seq<Node>,
) -> Result<Seq<Node>, Memory>
    ensures { IfOk result (λ piece. piece ≡ def pattern exit value) }
{
    let mut parts = Vec::new(alloc);
    let pattern = add(&mut parts, pattern)?;
    let exit = add_if(&mut parts, exit)?;
    let value = add(&mut parts, value)?;
    let node = Node::Def {
        pattern,
        exit,
        value,
    };
    headed(node, parts)
}

/// `(call E verb E ..)`
#[tactic(auto, unfolding(crate::specs::Pieces::call))]
pub fn call(
    alloc: Global,
    receiver: Seq<Node>,
    verb: Str,
    args: Seq<Seq<Node>>,
) -> Result<Seq<Node>, Memory>
    ensures { IfOk result (λ piece. piece ≡ call receiver verb args) }
{
    let mut parts = Vec::new(alloc);
    let receiver = add(&mut parts, receiver)?;
    let args = add_all(alloc, &mut parts, args)?;
    let verb = Word::of(alloc, verb)?;
    let node = Node::Call {
        receiver,
        verb,
        args,
    };
    headed(node, parts)
}

/// `(seq E ..)`
#[tactic(auto, unfolding(crate::specs::Pieces::seq))]
pub fn seq(alloc: Global, items: Seq<Seq<Node>>) -> Result<Seq<Node>, Memory>
    ensures { IfOk result (λ piece. piece ≡ seq items) }
{
    let mut parts = Vec::new(alloc);
    let items = add_all(alloc, &mut parts, items)?;
    headed(Node::Sequence(items), parts)
}

/// `(if E E E)`
#[tactic(auto, unfolding(crate::specs::Pieces::if_))]
pub fn if_(
    alloc: Global,
    test: Seq<Node>,
    yes: Seq<Node>,
    no: Seq<Node>,
) -> Result<Seq<Node>, Memory>
    ensures { IfOk result (λ piece. piece ≡ if_ test yes no) }
{
    let mut parts = Vec::new(alloc);
    let test = add(&mut parts, test)?;
    let yes = add(&mut parts, yes)?;
    let no = add(&mut parts, no)?;
    headed(Node::If(test, yes, no), parts)
}

/// `(escape P E)`
#[tactic(auto, unfolding(crate::specs::Pieces::escape))]
pub fn escape(alloc: Global, pattern: Seq<Node>, body: Seq<Node>) -> Result<Seq<Node>, Memory>
    ensures { IfOk result (λ piece. piece ≡ escape pattern body) }
{
    let mut parts = Vec::new(alloc);
    let pattern = add(&mut parts, pattern)?;
    let body = add(&mut parts, body)?;
    let node = Node::Escape {
        pattern,
        body,
        caught: None,
    };
    headed(node, parts)
}

/// `(escape P E P E)`
#[tactic(auto, unfolding(crate::specs::Pieces::escape_catch))]
pub fn escape_catch(
    alloc: Global,
    pattern: Seq<Node>,
    body: Seq<Node>,
    caught: Seq<Node>,
    handler: Seq<Node>,
) -> Result<Seq<Node>, Memory>
    ensures { IfOk result (λ piece. piece ≡ escape_catch pattern body caught handler) }
{
    let mut parts = Vec::new(alloc);
    let pattern = add(&mut parts, pattern)?;
    let body = add(&mut parts, body)?;
    let caught = add(&mut parts, caught)?;
    let handler = add(&mut parts, handler)?;
    let node = Node::Escape {
        pattern,
        body,
        caught: Some((caught, handler)),
    };
    headed(node, parts)
}

/// `(try E P E)`
#[tactic(auto, unfolding(crate::specs::Pieces::try_catch))]
pub fn try_catch(
    alloc: Global,
    body: Seq<Node>,
    pattern: Seq<Node>,
    handler: Seq<Node>,
) -> Result<Seq<Node>, Memory>
    ensures { IfOk result (λ piece. piece ≡ try_catch body pattern handler) }
{
    let mut parts = Vec::new(alloc);
    let body = add(&mut parts, body)?;
    let pattern = add(&mut parts, pattern)?;
    let handler = add(&mut parts, handler)?;
    let node = Node::Try {
        body,
        pattern,
        handler,
    };
    headed(node, parts)
}

/// `(finally E E)`
#[tactic(auto, unfolding(crate::specs::Pieces::finally))]
pub fn finally(alloc: Global, body: Seq<Node>, after_all: Seq<Node>) -> Result<Seq<Node>, Memory>
    ensures { IfOk result (λ piece. piece ≡ finally body after_all) }
{
    let mut parts = Vec::new(alloc);
    let body = add(&mut parts, body)?;
    let after_all = add(&mut parts, after_all)?;
    headed(Node::Finally(body, after_all), parts)
}

/// `(hide E)`
#[tactic(auto, unfolding(crate::specs::Pieces::hide))]
pub fn hide(alloc: Global, body: Seq<Node>) -> Result<Seq<Node>, Memory>
    ensures { IfOk result (λ piece. piece ≡ hide body) }
{
    let mut parts = Vec::new(alloc);
    let body = add(&mut parts, body)?;
    headed(Node::Hide(body), parts)
}

/// `(match E P)`
#[tactic(auto, unfolding(crate::specs::Pieces::match_bind))]
pub fn match_bind(alloc: Global, value: Seq<Node>, pattern: Seq<Node>) -> Result<Seq<Node>, Memory>
    ensures { IfOk result (λ piece. piece ≡ match_bind value pattern) }
{
    let mut parts = Vec::new(alloc);
    let value = add(&mut parts, value)?;
    let pattern = add(&mut parts, pattern)?;
    headed(Node::MatchBind(value, pattern), parts)
}
