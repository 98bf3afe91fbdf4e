//! Keywords and operators by their spelling.

ghost use Rattle.std.specs.Prelude.{◌≡◌, map};
ghost use Rattle.ev_lexer.specs.Words.{kind_among, operators, word_kind};

use def_syntax::TokenKind;

/// The words that are no identifiers.
const RESERVED: [(&str, TokenKind); 23] = [
    ("_", TokenKind::Ignore),
    ("break", TokenKind::Break),
    ("catch", TokenKind::Catch),
    ("continue", TokenKind::Continue),
    ("def", TokenKind::Def),
    ("else", TokenKind::Else),
    ("escape", TokenKind::Escape),
    ("exit", TokenKind::Exit),
    ("finally", TokenKind::Finally),
    ("fn", TokenKind::Fn),
    ("for", TokenKind::For),
    ("if", TokenKind::If),
    ("implements", TokenKind::Implements),
    ("in", TokenKind::In),
    ("match", TokenKind::Match),
    ("method", TokenKind::Method),
    ("return", TokenKind::Return),
    ("to", TokenKind::To),
    ("try", TokenKind::Try),
    ("var", TokenKind::Var),
    ("via", TokenKind::Via),
    ("when", TokenKind::When),
    ("while", TokenKind::While),
];

/// The operators.
const OPERATORS: [(&str, TokenKind); 47] = [
    ("//=", TokenKind::FloorDivideAssign),
    ("%%=", TokenKind::ModAssign),
    ("**=", TokenKind::PowAssign),
    ("<=>", TokenKind::AsBigAs),
    ("..!", TokenKind::Till),
    (":=", TokenKind::Assign),
    ("+=", TokenKind::AddAssign),
    ("-=", TokenKind::SubtractAssign),
    ("*=", TokenKind::MultiplyAssign),
    ("%=", TokenKind::RemainderAssign),
    ("&=", TokenKind::AndAssign),
    ("|=", TokenKind::OrAssign),
    ("^=", TokenKind::XorAssign),
    ("&&", TokenKind::LogicalAnd),
    ("||", TokenKind::LogicalOr),
    ("==", TokenKind::Same),
    ("!=", TokenKind::NotSame),
    ("=~", TokenKind::Matches),
    ("<=", TokenKind::AtMost),
    (">=", TokenKind::AtLeast),
    ("<-", TokenKind::Send),
    ("->", TokenKind::Arrow),
    ("=>", TokenKind::FatArrow),
    ("..", TokenKind::Through),
    ("**", TokenKind::Pow),
    ("//", TokenKind::FloorDivide),
    ("%%", TokenKind::Mod),
    ("+", TokenKind::Plus),
    ("-", TokenKind::Minus),
    ("*", TokenKind::Times),
    ("%", TokenKind::Remainder),
    ("<", TokenKind::Less),
    (">", TokenKind::Greater),
    ("!", TokenKind::Not),
    ("&", TokenKind::And),
    ("|", TokenKind::Or),
    ("^", TokenKind::Xor),
    (".", TokenKind::Dot),
    (",", TokenKind::Comma),
    (";", TokenKind::Semicolon),
    (":", TokenKind::Colon),
    ("(", TokenKind::OpenParen),
    (")", TokenKind::CloseParen),
    ("[", TokenKind::OpenBracket),
    ("]", TokenKind::CloseBracket),
    ("{", TokenKind::OpenBrace),
    ("}", TokenKind::CloseBrace),
];

/// The kind of the first of these spellings that is the word.
fn kind_in(mut table: &[(&str, TokenKind)], word: &str) -> Option<TokenKind>
    ensures { result ≡ kind_among (map (λ e. (e.0.now, e.1)) table.entry.now) word.now }
{
    while let [entry, rest @ ..] = table {
        if word == entry.0 {
            return Some(entry.1);
        }
        table = rest;
    }
    None
}

/// The kind of a word: that of a keyword or of a lone `_`, else an identifier.
pub fn word_kind(word: &str) -> TokenKind
    ensures { result ≡ word_kind word.now }
{
    match kind_in(&RESERVED, word) {
        None => TokenKind::Identifier,
        Some(kind) => kind,
    }
}

/// The operator that is spelled so.
pub fn operator(spelling: &str) -> Option<TokenKind>
    ensures { result ≡ kind_among operators spelling.now }
{
    kind_in(&OPERATORS, spelling)
}
