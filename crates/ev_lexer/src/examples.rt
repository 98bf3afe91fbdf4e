//! Small texts, each with the tokens that the definition gives it.

ghost use Rattle.ev_lexer.specs.Examples.{Accents, Broken, Comments, Greatest, LineEnds, Literals, Numbers, Operators, Stray, Words};

/// A character that begins no token is a fault of kind 1, at that character.
#[tactic(auto, unfolding(crate::specs::Examples::opened_lexer))]
pub fn stray_characters()
    ensures { Stray }
{}

/// A literal without an end is a fault of kind 2 at its opening quote. A bad escape is one of kind 3 at its backslash, a
/// character literal that is not one character one of kind 3 at its opening quote.
#[tactic(auto, unfolding(crate::specs::Examples::opened_lexer))]
pub fn broken_literals()
    ensures { Broken }
{}

/// A comment without an end is a fault of kind 5 at its beginning.
#[tactic(auto, unfolding(crate::specs::Examples::opened_lexer))]
pub fn comments()
    ensures { Comments }
{}

/// A number is a longest row of digits.
#[tactic(auto, unfolding(crate::specs::Examples::opened_lexer))]
pub fn numbers()
    ensures { Numbers }
{}

/// A number above the greatest integer is a fault of kind 4 at its first digit.
pub fn greatest_number()
    ensures { Greatest }
{}

/// A literal stands between its quotes, and may hold a line feed.
#[tactic(auto, unfolding(crate::specs::Examples::opened_lexer))]
pub fn literals()
    ensures { Literals }
{}

/// A keyword and a lone `_` are no identifiers.
#[tactic(auto, unfolding(crate::specs::Examples::opened_lexer))]
pub fn words()
    ensures { Words }
{}

/// A word may have characters outside ASCII.
pub fn accents()
    ensures { Accents }
{}

/// The longest operator counts.
#[tactic(auto, unfolding(crate::specs::Examples::opened_lexer))]
pub fn operators()
    ensures { Operators }
{}

/// Line ends are dropped behind what goes on, and in `(` and `[`.
#[tactic(auto, unfolding(crate::specs::Examples::opened_lexer))]
pub fn line_ends()
    ensures { LineEnds }
{}
