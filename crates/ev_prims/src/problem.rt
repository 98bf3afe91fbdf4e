//! Why a native method gives no value.

use ev_integer::NumFault;

/// Why a native method gives no value. What a program is told of it is its text (`problem_words`, in `specs/Problems.antt`).
#[derive(Clone, Copy)]
pub enum Problem {
    /// The value answers no such verb with so many arguments.
    NoMethod,
    /// An operation on integers has no answer.
    Arithmetic(NumFault),
    NotInt,
    /// An integer is the code of no character.
    NotChar,
    NotBoolean,
    /// What is to be added to a text has no text of its own.
    NotText,
    NotList,
    /// There is nothing at that place.
    OutOfRange,
    BadArgument,
    NotComparable,
    /// A list or a text would be above the limits.
    TooHeavy,
    /// What is to be thrown is no text.
    Unthrowable,
    /// A call on an ejector that was left.
    DeadEjector,
}
