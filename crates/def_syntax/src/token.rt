//! Tokens and their kinds.

/// What a token is.
#[derive(Clone, Copy, PartialEq, Eq)]
pub enum TokenKind {
    /// A line feed that ends an expression.
    LineEnd,
    Number,
    Text,
    Character,
    Identifier,
    /// A lone `_`.
    Ignore,

    Break,
    Catch,
    Continue,
    Def,
    Else,
    Escape,
    Exit,
    Finally,
    Fn,
    For,
    If,
    Implements,
    In,
    Match,
    Method,
    Return,
    To,
    Try,
    Var,
    Via,
    When,
    While,

    /// `:=`
    Assign,
    /// `+=`
    AddAssign,
    /// `-=`
    SubtractAssign,
    /// `*=`
    MultiplyAssign,
    /// `//=`
    FloorDivideAssign,
    /// `%=`
    RemainderAssign,
    /// `%%=`
    ModAssign,
    /// `**=`
    PowAssign,
    /// `&=`
    AndAssign,
    /// `|=`
    OrAssign,
    /// `^=`
    XorAssign,
    /// `&&`
    LogicalAnd,
    /// `||`
    LogicalOr,
    /// `==`
    Same,
    /// `!=`
    NotSame,
    /// `=~`
    Matches,
    /// `<=>`
    AsBigAs,
    /// `<=`
    AtMost,
    /// `>=`
    AtLeast,
    /// `<-`
    Send,
    /// `->`
    Arrow,
    /// `=>`
    FatArrow,
    /// `..!`
    Till,
    /// `..`
    Through,
    /// `**`
    Pow,
    /// `//`
    FloorDivide,
    /// `%%`
    Mod,
    /// `+`
    Plus,
    /// `-`
    Minus,
    /// `*`
    Times,
    /// `%`
    Remainder,
    /// `<`
    Less,
    /// `>`
    Greater,
    /// `!`
    Not,
    /// `&`
    And,
    /// `|`
    Or,
    /// `^`
    Xor,
    /// `.`
    Dot,
    /// `,`
    Comma,
    /// `;`
    Semicolon,
    /// `:`
    Colon,
    /// `(`
    OpenParen,
    /// `)`
    CloseParen,
    /// `[`
    OpenBracket,
    /// `]`
    CloseBracket,
    /// `{`
    OpenBrace,
    /// `}`
    CloseBrace,
}

/// A token: its kind, and the bytes of the text from `start` to before `end` that it is.
#[derive(Clone, Copy, PartialEq, Eq)]
pub struct Token {
    pub kind: TokenKind,
    pub start: u64,
    pub end: u64,
}
