//! The levels of a call, in which primitives call again.

ghost use Rattle.law_never_astray.specs.Levels.{CallsEnd};

/// No call uses up its levels from a state in which one comes from each value, by no more members (each followed) than
/// there are lists, to values without members: whatever is called where they are used up, it comes out the same. It is
/// said of every evaluator, however things are named.
pub fn calls_end()
    ensures { CallsEnd }
{}
