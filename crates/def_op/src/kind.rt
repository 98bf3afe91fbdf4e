//! The kinds of description, by the first byte.

/// What the first byte of a description tells. Each stands at its code.
#[derive(Clone, Copy)]
pub enum Kind {
    Null,
    False,
    True,
    Integer,
    Character,
    Text,
    List,
    Primitive,
    Broken,
    YourExport,
    YourAnswer,
    MyExport,
    MyPromise,
    Third,
    MyAnswer,
}
