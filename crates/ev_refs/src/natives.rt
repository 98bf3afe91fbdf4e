//! What `Ref` tells of a value.

ghost use Rattle.std.specs.Prelude.{◌≡◌};
ghost use Rattle.ev_refs.specs.Follow.{followed, place_of};
ghost use Rattle.ev_refs.specs.Telling.{BreaksAsTheMachine, TellsAsTheMachine, broken_of, far_at, fulfilled_at, gone_at, near_at, problem_at, resolved_at, told_at};

use crate::follow::Place;
use crate::refs::Refs;
use ev_base::{TextId, Value};
use ev_prims::RefTest;

/// What `Ref` answers of a value.
#[derive(Clone, Copy)]
pub enum RefReply {
    Says(Value),
    /// It throws this problem, of a broken value.
    Problem(TextId),
    /// It throws `not resolved`.
    NotResolved,
}

impl Place {
    /// Whether it is data that is not broken, or an object of this vat.
    pub fn is_near(&self) -> bool
        ensures { result ≡ near_at self.now }
    {
        match *self {
            Place::Near => true,
            Place::Mine(_) | Place::FarPromise(_, _) | Place::FarObject(_, _) | Place::Gone(_) => {
                false
            }
        }
    }

    /// Whether it is an object of another vat.
    pub fn is_far(&self) -> bool
        ensures { result ≡ far_at self.now }
    {
        match *self {
            Place::FarObject(_, _) => true,
            Place::Near | Place::Mine(_) | Place::FarPromise(_, _) | Place::Gone(_) => false,
        }
    }

    /// Whether it is no unsettled promise.
    pub fn is_resolved(&self) -> bool
        ensures { result ≡ resolved_at self.now }
    {
        match *self {
            Place::Mine(_) | Place::FarPromise(_, _) => false,
            Place::Near | Place::FarObject(_, _) | Place::Gone(_) => true,
        }
    }

    /// Whether it is broken.
    pub fn is_broken(&self) -> bool
        ensures { result ≡ gone_at self.now }
    {
        match *self {
            Place::Gone(_) => true,
            Place::Near | Place::Mine(_) | Place::FarPromise(_, _) | Place::FarObject(_, _) => {
                false
            }
        }
    }

    /// The problem of what is broken, and else null.
    pub fn problem(&self) -> Value
        ensures { result ≡ problem_at self.now }
    {
        match *self {
            Place::Gone(problem) => Value::Text(problem),
            Place::Near | Place::Mine(_) | Place::FarPromise(_, _) | Place::FarObject(_, _) => {
                Value::Null
            }
        }
    }
}

/// A value that is at this place, where it is resolved and not broken.
fn fulfilled(value: &Value, place: Place) -> RefReply
    ensures { result ≡ fulfilled_at value.now place }
{
    match place {
        Place::Near | Place::FarObject(_, _) => RefReply::Says(*value),
        Place::Gone(problem) => RefReply::Problem(problem),
        Place::Mine(_) | Place::FarPromise(_, _) => RefReply::NotResolved,
    }
}

/// What is told of a value that is followed to this place.
fn told(test: RefTest, value: &Value, place: Place) -> RefReply
    ensures { result ≡ told_at test value.now place }
{
    match test {
        RefTest::IsNear => RefReply::Says(Value::Bool(place.is_near())),
        RefTest::IsFar => RefReply::Says(Value::Bool(place.is_far())),
        RefTest::IsResolved => RefReply::Says(Value::Bool(place.is_resolved())),
        RefTest::IsBroken => RefReply::Says(Value::Bool(place.is_broken())),
        RefTest::OptProblem => RefReply::Says(place.problem()),
        RefTest::Fulfillment => fulfilled(value, place),
    }
}

impl Refs {
    /// What `Ref` tells of a value: whether it is near, far, resolved or broken, its problem or null, or the value itself once it is
    /// resolved and not broken. A resolved value is given as it is held.
    pub fn ask_ref(&self, test: RefTest, value: Value) -> RefReply
        ensures is { result ≡ told_at test value (place_of self.now (followed self.now value)) }
        ensures means { TellsAsTheMachine self.now test value result }
    {
        let held = value;
        let end = self.deref(value);
        told(test, &held, self.place(end))
    }
}

/// A text as it is broken.
fn broken_of(value: Value) -> Option<Value>
    ensures { result ≡ broken_of value }
{
    match value {
        Value::Text(problem) => Some(Value::Broken(problem)),
        _ => None,
    }
}

impl Refs {
    /// What `Ref.broken` gives: a broken value with a problem, which has to be a text; none where it is none.
    pub fn broken(&self, value: Value) -> Option<Value>
        ensures is { result ≡ broken_of (followed self.now value) }
        ensures means { BreaksAsTheMachine self.now value result }
    {
        broken_of(self.deref(value))
    }
}
