//! What the check of scopes says of a tree.

ghost use Rattle.law_never_astray.specs.Scoped.{AcceptedTreesAreScoped};

/// In a tree in which the check of scopes finds no fault each noun that is used is bound where it stands, each that
/// is assigned is bound by a `var` pattern, and none is bound twice in a scope: node by node, with the scopes that each
/// stands in and leaves.
pub fn accepted_trees_are_scoped()
    ensures { AcceptedTreesAreScoped }
{}
