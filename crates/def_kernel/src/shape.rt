//! The shapes of nodes: what stands in a form, and in which order.

/// What a tree in a form is.
#[derive(Clone, Copy, PartialEq, Eq)]
pub enum Kind {
    Expression,
    Pattern,
    /// A method or a matcher.
    Member,
    /// The name of an object: a final pattern or an ignoring one, without a guard.
    Naming,
}

/// An item of a form.
#[derive(Clone, Copy, PartialEq, Eq)]
pub enum Want {
    Tree(Kind),
    /// Trees between brackets.
    Group(Kind),
    Name,
    Verb,
    Literal,
}

/// What may stand behind the items that must be there.
#[derive(Clone, Copy, PartialEq, Eq)]
pub enum Tail {
    Nothing,
    /// Any number of trees.
    Many(Kind),
    /// A guard or none.
    Guard,
    /// A pattern and an expression, or neither.
    Caught,
}

/// The word with which a form begins, where one word stands for two shapes the shape.
#[derive(Clone, Copy, PartialEq, Eq)]
pub enum Head {
    Lit,
    Noun,
    Set,
    Def,
    /// `def` with an ejector.
    DefExit,
    Call,
    Seq,
    If,
    Escape,
    Try,
    Finally,
    Hide,
    Match,
    Object,
    Method,
    Matcher,
    Final,
    Var,
    Any,
    List,
    Via,
    /// The final pattern that names an object, without a guard.
    FinalName,
    /// The ignoring pattern of an object without a name, without a guard.
    NoName,
    /// Trees between brackets, which are no node.
    Group(Kind),
}
