//! What is read in a text of E is spelled as it should be, and is a kernel tree.

ghost use Rattle.law_reading.specs.Expansion.Tokens.{TokensAreSpelled, WhatIsReadIsATree};

/// Law: the tokens of a text in UTF-8 are spelled as their kinds say. The text of an identifier token is an identifier, and
/// that of `return`, `break` or `continue` makes the name of an ejector.
pub fn tokens_are_spelled()
    ensures { TokensAreSpelled }
{}

/// Law: a text in UTF-8 that is read as a program is a kernel tree, whatever names it is given.
pub fn what_is_read_is_a_tree()
    ensures { WhatIsReadIsATree }
{}
