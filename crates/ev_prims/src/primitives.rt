//! The primitives of the safe scope, by their numbers.

ghost use Rattle.std.specs.Prelude.{◌≡◌};
ghost use Rattle.def_machine.specs.Native as native;
ghost use Rattle.ev_prims.specs.Asks.{bare, numbered, primitive_at, with_null};
ghost use Rattle.ev_prims.specs.Primitives.{IsBare, kind_in, primitive_in};

use ev_base::PrimId;

/// The first number of a guard that takes null as well.
const FIRST_WITH_NULL: u8 = 32;

/// What a native guard wants.
#[derive(Clone, Copy)]
pub enum Kind {
    Any,
    Void,
    Int,
    Boolean,
    Char,
    Text,
    List,
    Null,
    Near,
    Frozen,
}

/// A native guard: what it wants, and whether null will do as well.
#[derive(Clone, Copy)]
pub struct Guard {
    pub kind: Kind,
    pub or_null: bool,
}

/// By what a native auditor judges an object: by the object's free names.
#[derive(Clone, Copy)]
pub enum Rule {
    /// Each is a safe name, the object's own name, or bound finally under a frozen guard.
    DeepFrozen,
    /// None is the object's own name.
    Selfless,
    /// Each is a safe name other than `E` and `Ref`, the object's own name, or bound finally under a guard of data.
    Functional,
}

/// A primitive of the safe scope.
#[derive(Clone, Copy)]
pub enum Primitive {
    MakeList,
    Equalizer,
    Comparer,
    Looper,
    Sender,
    References,
    Thrower,
    StampReader,
    Guarding(Guard),
    /// An auditor that is no guard.
    Judging(Rule),
    /// No primitive has that number.
    NoPrimitive,
}

/// A native guard that takes null only where its kind does.
fn guarding(kind: Kind) -> Primitive
    ensures is { result ≡ bare kind }
    ensures guard { primitive_in result ≡ native.Guarding (kind_in kind) }
    ensures bare { IsBare result }
{
    Primitive::Guarding(Guard {
        kind,
        or_null: false,
    })
}

/// The primitive that stands at a place of the safe scope.
#[tactic(auto, using(crate::proofs::PrimitiveLemmas::numbered_past, crate::proofs::PrimitiveLemmas::none_past), unfolding(crate::specs::Asks::numbered, def_machine::specs::Native::numbered, def_machine::specs::Native::primitives))]
fn numbered(place: u8) -> Primitive
    ensures is { result ≡ numbered place }
    ensures number { primitive_in result ≡ native.numbered place }
    ensures bare { IsBare result }
{
    match place {
        0 => Primitive::MakeList,
        1 => Primitive::Equalizer,
        2 => Primitive::Comparer,
        3 => Primitive::Looper,
        4 => Primitive::Sender,
        5 => Primitive::References,
        6 => Primitive::Thrower,
        7 => Primitive::StampReader,
        8 => guarding(Kind::Any),
        9 => guarding(Kind::Void),
        10 => guarding(Kind::Int),
        11 => guarding(Kind::Boolean),
        12 => guarding(Kind::Char),
        13 => guarding(Kind::Text),
        14 => guarding(Kind::List),
        15 => guarding(Kind::Null),
        16 => guarding(Kind::Near),
        17 => guarding(Kind::Frozen),
        18 => Primitive::Judging(Rule::Selfless),
        19 => Primitive::Judging(Rule::Functional),
        _ => Primitive::NoPrimitive,
    }
}

/// The guard that takes null as well, of a guard that does not.
#[tactic(auto, unfolding(def_machine::specs::Native::with_null))]
fn with_null(primitive: Primitive) -> Primitive
    requires { IsBare primitive }
    ensures is { result ≡ with_null primitive }
    ensures means { primitive_in result ≡ native.with_null (primitive_in primitive) }
{
    match primitive {
        Primitive::Guarding(guard) => match guard.kind {
            Kind::Null => Primitive::NoPrimitive,
            kind => Primitive::Guarding(Guard {
                kind,
                or_null: true,
            }),
        },
        _ => Primitive::NoPrimitive,
    }
}

/// The primitive of that number. From 32 on they are the guards that take null as well, each by the number of its guard.
#[tactic(auto, using(crate::proofs::PrimitiveLemmas::primitive_low, crate::proofs::PrimitiveLemmas::primitive_high, crate::proofs::PrimitiveLemmas::low_is, crate::proofs::PrimitiveLemmas::high_is))]
pub fn primitive_of(number: PrimId) -> Primitive
    ensures is { result ≡ primitive_at number }
    ensures means { primitive_in result ≡ native.primitive number }
{
    if number.0 < FIRST_WITH_NULL {
        numbered(number.0)
    } else {
        with_null(numbered(number.0 - FIRST_WITH_NULL))
    }
}
