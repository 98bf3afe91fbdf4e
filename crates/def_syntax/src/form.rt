//! The nodes of a surface tree.

use ev_base::{NodeId, Seq, Str};

/// A node of a surface tree: one kind for each line of the grammar that makes a node, with the parts of the line in
/// their order. A part that is a node is named by its number in the tree. A noun, an operator, a verb and a literal are
/// the text of their token, so a text, a character and a verb that is a text stand with their quotes and escapes.
pub enum Form {
    Number(Str),
    Text(Str),
    Character(Str),
    Noun(Str),
    /// `[a, b]`
    List(Seq<NodeId>),
    /// `(a)`
    Group(NodeId),
    /// `{a; b}`
    Block(Seq<NodeId>),
    /// The test, the block, and what stands behind `else`.
    If(NodeId, NodeId, Option<NodeId>),
    /// The test and the block.
    While(NodeId, NodeId),
    /// The key, the value, the collection and the block.
    For(Option<NodeId>, NodeId, NodeId, NodeId),
    /// The pattern, the block, and pattern and block of the catch.
    Escape(NodeId, NodeId, Option<(NodeId, NodeId)>),
    /// The block, pattern and block of each catch, and the block of `finally`.
    Try(NodeId, Seq<(NodeId, NodeId)>, Option<NodeId>),
    /// The expression, the block, and pattern and block of the catch.
    When(NodeId, NodeId, Option<(NodeId, NodeId)>),
    /// The patterns and the block of `fn`.
    Function(Seq<NodeId>, NodeId),
    /// The function and the arguments.
    Call(NodeId, Seq<NodeId>),
    /// The object and the arguments.
    Index(NodeId, Seq<NodeId>),
    /// The object, the verb and the arguments.
    VerbCall(NodeId, Str, Seq<NodeId>),
    /// The target, the verb and the arguments.
    Send(NodeId, Option<Str>, Seq<NodeId>),
    /// The operator and the expression.
    Prefix(Str, NodeId),
    /// The left side, the operator and the right side.
    Binary(NodeId, Str, NodeId),
    /// The expression and the pattern.
    MatchBind(NodeId, NodeId),
    /// The noun, the operator, which is `:=` or another one with `=`, and the value.
    Assign(Str, Str, NodeId),
    /// The object, the arguments and the value.
    AssignIndex(NodeId, Seq<NodeId>, NodeId),
    /// `return`, `break` or `continue`, and the expression.
    Leave(Str, Option<NodeId>),
    /// The noun, or none for `_`, the auditors and the members.
    DefineObject(Option<Str>, Seq<NodeId>, Seq<NodeId>),
    /// The noun, the patterns, the guard of the result, the auditors and the block.
    DefineFunction(Str, Seq<NodeId>, Option<NodeId>, Seq<NodeId>, NodeId),
    /// The pattern, the ejector and the value.
    Define(NodeId, Option<NodeId>, NodeId),
    /// The noun, the guard, the ejector and the value.
    DefineVar(Str, Option<NodeId>, Option<NodeId>, NodeId),
    /// The pattern `_` with its guard.
    AnyPattern(Option<NodeId>),
    /// A noun as a pattern with its guard.
    FinalPattern(Str, Option<NodeId>),
    /// The noun of a `var` pattern with its guard.
    VarPattern(Str, Option<NodeId>),
    /// `[p, q]`
    ListPattern(Seq<NodeId>),
    /// The expression and the pattern.
    ViaPattern(NodeId, NodeId),
    /// The noun and the arguments, none of them where there is no bracket.
    NounGuard(Str, Seq<NodeId>),
    /// `(a)`
    ExprGuard(NodeId),
    /// The verb, the patterns, the guard of the result and the block.
    To(Str, Seq<NodeId>, Option<NodeId>, NodeId),
    /// The verb, the patterns, the guard of the result and the block.
    Method(Str, Seq<NodeId>, Option<NodeId>, NodeId),
    /// The pattern and the block of `match`.
    Matcher(NodeId, NodeId),
    /// The expressions of the whole.
    Program(Seq<NodeId>),
}

impl Drop for Form {
    fn drop(self) {
        match self {
            Self::Number(_text) => {}
            Self::Text(_text) => {}
            Self::Character(_text) => {}
            Self::Noun(_text) => {}
            Self::List(_items) => {}
            Self::Group(_) => {}
            Self::Block(_items) => {}
            Self::If(_, _, _) => {}
            Self::While(_, _) => {}
            Self::For(_, _, _, _) => {}
            Self::Escape(_, _, _) => {}
            Self::Try(_, _items, _) => {}
            Self::When(_, _, _) => {}
            Self::Function(_items, _) => {}
            Self::Call(_, _items) => {}
            Self::Index(_, _items) => {}
            Self::VerbCall(_, _text, _items) => {}
            Self::Send(_, _text, _items) => {}
            Self::Prefix(_text, _) => {}
            Self::Binary(_, _text, _) => {}
            Self::MatchBind(_, _) => {}
            Self::Assign(_text, _text_2, _) => {}
            Self::AssignIndex(_, _items, _) => {}
            Self::Leave(_text, _) => {}
            Self::DefineObject(_text, _items, _items_2) => {}
            Self::DefineFunction(_text, _items, _, _items_2, _) => {}
            Self::Define(_, _, _) => {}
            Self::DefineVar(_text, _, _, _) => {}
            Self::AnyPattern(_) => {}
            Self::FinalPattern(_text, _) => {}
            Self::VarPattern(_text, _) => {}
            Self::ListPattern(_items) => {}
            Self::ViaPattern(_, _) => {}
            Self::NounGuard(_text, _items) => {}
            Self::ExprGuard(_) => {}
            Self::To(_text, _items, _, _) => {}
            Self::Method(_text, _items, _, _) => {}
            Self::Matcher(_, _) => {}
            Self::Program(_items) => {}
        }
    }
}
