//! Lines of the grammar, and the nodes that they make.

use crate::TokenKind;

/// A token of a token list, by its kind and its number there.
#[derive(Clone, Copy, PartialEq, Eq)]
pub struct Word {
    pub kind: TokenKind,
    pub number: u64,
}

/// What a node of a surface tree is.
#[derive(Clone, Copy, PartialEq, Eq)]
pub enum Shape {
    /// A number, a text or a character.
    Literal,
    /// A noun as an expression.
    Noun,
    /// `[a, b]`
    List,
    /// `(a)`
    Group,
    /// `{a; b}`
    Block,
    If,
    While,
    For,
    Escape,
    Try,
    When,
    /// `fn p, q { .. }`
    Function,
    /// `f(a)`
    Call,
    /// `o[i]`
    Index,
    /// `o.v(a)`
    VerbCall,
    /// `o <- v(a)`
    Send,
    /// `-a`, `!a`
    Prefix,
    /// Two expressions with an operator between.
    Binary,
    /// `a =~ p`
    MatchBind,
    /// `x := a`, `x += a`
    Assign,
    /// `o[i] := a`
    AssignIndex,
    /// `return a`, `break a`, `continue a`
    Leave,
    /// `def x { .. }`
    DefineObject,
    /// `def f(p) { .. }`
    DefineFunction,
    /// `def p := a`
    Define,
    /// `var x := a`
    DefineVar,
    /// The pattern `_`.
    AnyPattern,
    /// A noun as a pattern.
    FinalPattern,
    /// The pattern `var x`.
    VarPattern,
    /// The pattern `[p, q]`.
    ListPattern,
    /// The pattern `via (a) p`.
    ViaPattern,
    /// A noun as a guard, with an index or none.
    NounGuard,
    /// `(a)` as a guard.
    ExprGuard,
    /// `to v(p) { .. }`
    To,
    /// `method v(p) { .. }`
    Method,
    /// `match p { .. }`
    Matcher,
    /// The whole.
    Program,
}

/// A line of the grammar. Where it has a prefix, a chain or a postfix, it is named by what it adds to the next one.
#[derive(Clone, Copy)]
pub enum Line {
    Expr,
    /// An expression behind which a block comes: `return` has its expression there.
    ExprBeforeBlock,
    Or,
    And,
    Equality,
    Bits,
    Relation,
    Range,
    Sum,
    Product,
    Power,
    Prefix,
    Postfix,
    Prim,
    Block,
    /// What stands behind `else`: a block or an `if`.
    Branch,
    Pattern,
    /// A pattern that begins with neither a noun nor `_`.
    OtherPattern,
    Guard,
    Member,
}

/// What may follow a tree inside a line.
#[derive(Clone, Copy)]
pub enum Tail {
    Becomes,
    BecomesBeforeBlock,
    Ors,
    Ands,
    Equality,
    Bits,
    Relation,
    Range,
    Sums,
    Products,
    Power,
    Suffixes,
    Nothing,
}
