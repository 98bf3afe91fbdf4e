//! Small texts of E, each with the form that it expands to, or with its fault and the token at which that stands.

ghost use Rattle.test_expand.specs.Examples.{Arithmetic, Assignments, Blocks, Calls, Comparisons, Definitions, Exits, Functions, Iterations, Literals, Loops, Objects, ReservedNames, Sends, StrayBreaks, StrayReturns, Waits};

/// Numbers, texts, characters and verbs.
#[tactic(auto, unfolding(crate::specs::Sources::opened_sources))]
pub fn literals()
    ensures { Literals }
{}

/// Lists, calls and look-ups.
#[tactic(auto, unfolding(crate::specs::Sources::opened_sources))]
pub fn calls()
    ensures { Calls }
{}

/// Sends, with a verb and without one.
#[tactic(auto, unfolding(crate::specs::Sources::opened_sources))]
pub fn sends()
    ensures { Sends }
{}

/// Assignments.
#[tactic(auto, unfolding(crate::specs::Sources::opened_sources))]
pub fn assignments()
    ensures { Assignments }
{}

/// Operators that are verbs of their left side.
#[tactic(auto, unfolding(crate::specs::Sources::opened_sources))]
pub fn arithmetic()
    ensures { Arithmetic }
{}

/// Operators that compare, ranges, `&&`, `||` and `=~`.
#[tactic(auto, unfolding(crate::specs::Sources::opened_sources))]
pub fn comparisons()
    ensures { Comparisons }
{}

/// Blocks and `if`.
#[tactic(auto, unfolding(crate::specs::Sources::opened_sources))]
pub fn blocks()
    ensures { Blocks }
{}

/// `while`, with a `break` and a `continue` of its own and without.
#[tactic(auto, unfolding(crate::specs::Sources::opened_sources))]
pub fn loops()
    ensures { Loops }
{}

/// `for`, with a key and without one.
#[tactic(auto, unfolding(crate::specs::Sources::opened_sources))]
pub fn iterations()
    ensures { Iterations }
{}

/// `escape` and `try`.
#[tactic(auto, unfolding(crate::specs::Sources::opened_sources))]
pub fn exits()
    ensures { Exits }
{}

/// `when` and `fn`.
#[tactic(auto, unfolding(crate::specs::Sources::opened_sources))]
pub fn waits()
    ensures { Waits }
{}

/// Objects with their members, guards of results, and `return`.
#[tactic(auto, unfolding(crate::specs::Sources::opened_sources))]
pub fn objects()
    ensures { Objects }
{}

/// `def f()`.
#[tactic(auto, unfolding(crate::specs::Sources::opened_sources))]
pub fn functions()
    ensures { Functions }
{}

/// `def` and `var`, patterns and guards.
#[tactic(auto, unfolding(crate::specs::Sources::opened_sources))]
pub fn definitions()
    ensures { Definitions }
{}

/// A `return` that belongs to no `to` and to no `def f()`.
#[tactic(auto, unfolding(crate::specs::Sources::opened_sources))]
pub fn stray_returns()
    ensures { StrayReturns }
{}

/// A `break` or `continue` that belongs to no loop.
#[tactic(auto, unfolding(crate::specs::Sources::opened_sources))]
pub fn stray_breaks()
    ensures { StrayBreaks }
{}

/// Nouns that begin with `__`, and safe names that are bound or assigned.
#[tactic(auto, unfolding(crate::specs::Sources::opened_sources))]
pub fn reserved_names()
    ensures { ReservedNames }
{}
