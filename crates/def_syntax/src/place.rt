//! Places in the lines of the grammar: how far a node has been read.

use crate::TokenKind;
use crate::syntax::{Line, Shape};

/// Whether a block comes behind an expression.
#[derive(Clone, Copy)]
pub enum Context {
    Plain,
    BeforeBlock,
}

/// A list with commas between its members.
#[derive(Clone, Copy)]
pub enum Series {
    Arguments,
    Members,
    Index,
    VerbArguments,
    SendArguments,
    GuardArguments,
    Parameters,
    FunctionParameters,
    ToParameters,
    MethodParameters,
    ListPattern,
}

/// A form with an expression in parentheses.
#[derive(Clone, Copy)]
pub enum Head {
    If,
    While,
    When,
    Via,
    Group,
    Guard,
}

/// A form with one catch or none.
#[derive(Clone, Copy)]
pub enum Caught {
    Escape,
    When,
}

/// What stands behind `def`, where that is a noun or `_`.
#[derive(Clone, Copy)]
pub enum Named {
    Noun,
    Ignore,
}

/// A definition with `:=`.
#[derive(Clone, Copy)]
pub enum Definition {
    Def,
    Var,
}

/// A member with a verb.
#[derive(Clone, Copy)]
pub enum Role {
    To,
    Method,
}

/// A place in a line: what has been read of a node, and so what may come next.
#[derive(Clone, Copy)]
pub enum Place {
    /// The node ends here.
    Done(Shape),
    /// One more tree, and the node ends.
    Last(Line, Shape),
    /// Before an expression of a program, or at its end.
    Program,
    /// Behind an expression of a program.
    ProgramMore,
    /// Before an expression of a block, or at its end.
    Block,
    /// Behind an expression of a block.
    BlockMore,
    /// Behind `return`, `break` or `continue`.
    Leave,
    /// Before the first member of a list, which may be empty.
    First(Series),
    /// Before a member, behind which so many more may come.
    Item(u8, Series),
    /// Behind a member.
    More(u8, Series),
    /// Before the `(` of a form.
    Open(Head),
    /// Behind it.
    Test(Head),
    /// Before the `)`.
    Close(Head),
    IfThen,
    IfElse,
    WhenArrow,
    WhenBlock,
    /// Before a `catch`, if there is one.
    Caught(Caught),
    CatchPattern(Caught),
    CatchBlock(Caught),
    Escape,
    EscapeBlock,
    Try,
    /// Behind a block of `try`, before `catch` or `finally`.
    TryMore,
    TryPattern,
    TryBlock,
    For,
    ForKey,
    ForValue,
    ForIn,
    ForList,
    /// Behind `.`.
    Verb,
    VerbOpen,
    /// Behind `<-`.
    Send,
    SendOpen,
    /// Behind `def`.
    Def(Context),
    /// Behind `def` and a noun or `_`.
    Name(Context, Named),
    /// Behind the `:` of a pattern of `def`.
    NameGuard(Context, Named),
    NameGuarded(Context, Named),
    /// Before `exit` or `:=`.
    Bound(Context, Definition),
    Exit(Context, Definition),
    Ejector(Context, Definition),
    /// Behind `:=`.
    Value(Context, Definition),
    /// Behind `var` where a definition begins.
    Var(Context),
    VarName(Context),
    VarGuard(Context),
    /// Before an auditor of an object.
    Auditor,
    AuditorMore,
    /// Between the members of an object.
    Script,
    /// Behind the patterns of a function.
    Result,
    ResultGuard,
    ResultGuarded,
    FunctionAuditor,
    FunctionAuditorMore,
    MemberVerb(Role),
    MemberOpen(Role),
    /// Behind the patterns of a member.
    MemberResult(Role),
    MemberGuard(Role),
    Matcher,
    /// Behind the name of a pattern, before `:` if there is one.
    PatternGuard(Shape),
    /// Behind the `var` of a pattern.
    VarPattern,
    /// Behind the noun of a guard.
    NounGuard,
}

/// How a place is left.
#[derive(Clone, Copy)]
pub enum Move {
    /// This token comes.
    Takes(TokenKind, Place),
    /// A tree of this line comes.
    Reads(Line, Place),
    /// This token comes, and what has been read of the node is a node of its own.
    Wraps(TokenKind, Shape, Place),
}

/// Whether the node may end at a place.
#[derive(Clone, Copy)]
pub enum Ending {
    Never,
    Ends(Shape),
    /// Where a separator, a closing bracket or the end comes.
    BeforeStop(Shape),
}

/// The moves at a place.
#[derive(Clone, Copy)]
pub enum Moves {
    None,
    One(Move),
    Two(Move, Move),
    Three(Move, Move, Move),
    Four(Move, Move, Move, Move),
    Five(Move, Move, Move, Move, Move),
    Six(Move, Move, Move, Move, Move, Move),
}
