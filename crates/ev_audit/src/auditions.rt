//! What an audition is asked and answers, and what it knows of the names of an object.

ghost use Rattle.std.specs.Prelude.{◌≡◌, ◌∷◌, [], ℕ, codes, option_map};
ghost use Rattle.def_machine.specs.Scopes as scopes;
ghost use Rattle.def_machine.specs.Values.{Words};
ghost use Rattle.ev_prims.specs.Reading.{value_by, values_by};
ghost use Rattle.ev_audit.specs.Asks.{ask_by, asking, asking_one};
ghost use Rattle.ev_audit.specs.Views.{bound_at, bound_by, bound_so, bound_told, capture_by, freedom_by, freedom_of, guard_held, guard_of, told_at, told_by, view_of};

use crate::words::is_word;
use ev_base::{PrimId, Value};
use ev_heap::{AuditView, Bound, Capture, FreeName, GuardKind};

/// The guard of a name that has none.
const ANY: PrimId = PrimId(8);

/// What an audition is asked.
#[derive(Clone, Copy)]
pub enum AuditionAsk {
    /// The form of the object expression.
    GetsForm,
    /// The guard of a free name.
    GetsGuard(Value),
    /// The verdict of another auditor.
    Asks(Value),
    /// It has no such method.
    NoMethod,
}

/// What an audition is asked without arguments.
#[tactic(auto, unfolding(def_machine::specs::Free::entry, def_machine::specs::Scopes::audition_ask, crate::specs::Asks::asking))]
fn ask_none(verb: &str) -> AuditionAsk
    ensures is { result ≡ asking verb.now [] }
    ensures means { (t : ℕ → Words) → ask_by t result ≡ scopes.audition_ask verb.now [] }
{
    if is_word(verb, "getObjectExpr") {
        AuditionAsk::GetsForm
    } else {
        AuditionAsk::NoMethod
    }
}

/// What an audition is asked with one argument.
#[tactic(auto, unfolding(def_machine::specs::Free::entry, def_machine::specs::Scopes::audition_ask))]
fn ask_one(verb: &str, x: Value) -> AuditionAsk
    ensures is { result ≡ asking_one verb.now x }
    ensures means { (t : ℕ → Words) → ask_by t result ≡ scopes.audition_ask verb.now (value_by t x ∷ []) }
{
    if is_word(verb, "getGuard") {
        AuditionAsk::GetsGuard(x)
    } else if is_word(verb, "ask") {
        AuditionAsk::Asks(x)
    } else {
        AuditionAsk::NoMethod
    }
}

/// What an audition is asked by a verb and arguments as they are held.
#[tactic(auto, unfolding(def_machine::specs::Scopes::audition_ask, crate::specs::Asks::asking))]
pub fn audition_ask(verb: &str, args: &[Value]) -> AuditionAsk
    ensures is { result ≡ asking verb.now args.now }
    ensures means { (t : ℕ → Words) → ask_by t result ≡ scopes.audition_ask verb.now (values_by t args.now) }
{
    match args {
        [] => ask_none(verb),
        [x] => ask_one(verb, *x),
        _ => AuditionAsk::NoMethod,
    }
}

/// A guard as a value.
pub fn guard_value(guard: GuardKind) -> Value
    ensures is { result ≡ guard_held guard }
    ensures means { (t : ℕ → Words) → value_by t result ≡ guard_of guard }
{
    match guard {
        GuardKind::Native(number) => Value::Prim(number),
        GuardKind::User(object) => Value::Obj(object),
    }
}

/// The guard that an audition tells of a name that is bound so: null for a var slot.
#[tactic(auto, unfolding(def_machine::specs::Scopes::guard_told, def_machine::specs::Scopes::any_guard))]
fn guard_told(bound: Bound) -> Value
    ensures is { result ≡ bound_told bound }
    ensures means { (t : ℕ → Words) → value_by t result ≡ scopes.guard_told (freedom_of bound) }
{
    match bound {
        Bound::Safe | Bound::Itself => Value::Prim(ANY),
        Bound::Final(guard) => guard_value(guard),
        Bound::Mutable => Value::Null,
    }
}

/// How a free name is bound.
#[tactic(auto, unfolding(crate::specs::Views::bound_at))]
fn bound_at(names: &[FreeName], noun: &str) -> Option<Bound>
    ensures { result ≡ bound_at names.now noun.now }
{
    for name in names {
        if noun == name.noun.as_str() {
            return Some(name.bound);
        }
    }
    None
}

/// The guard of a free name, null for one that is bound to a var slot, and none where no name is free so.
#[tactic(auto, using(crate::proofs::Told::guard_found))]
pub fn guard_at(view: &AuditView, noun: &str) -> Option<Value>
    ensures is { result ≡ told_at view.now.names noun.now }
    ensures means { (t : ℕ → Words) → told_by t result ≡ scopes.guard_at (view_of view.now).free noun.now }
{
    match bound_at(view.names.as_slice(), noun) {
        None => None,
        Some(bound) => Some(guard_told(bound)),
    }
}

/// How a name is bound that is not an object's own, by what its scope binds it to.
#[tactic(auto, unfolding(def_machine::specs::Scopes::freedom_of_bound))]
fn bound_so(capture: Option<Capture>) -> Bound
    ensures is { result ≡ bound_so capture }
    ensures means { (t : ℕ → Words) (noun : Words) → freedom_of result ≡ scopes.freedom_of_bound (option_map (capture_by t) capture) noun }
{
    match capture {
        None => Bound::Safe,
        Some(Capture::Fixed { guard, .. }) => Bound::Final(guard),
        Some(Capture::Slot(_)) => Bound::Mutable,
    }
}

/// Whether a noun is an object's own name.
#[tactic(auto, unfolding(def_machine::specs::Scopes::is_own))]
fn is_own(own: Option<&str>, noun: &str) -> bool
    ensures { result ≡ scopes.is_own (option_map (λ x. x.now) own.entry) noun.now }
{
    match own {
        None => false,
        Some(own) => is_word(noun, own),
    }
}

/// How a free name of an object is bound, by the object's own name and by what the scope of the object expression binds it to.
#[tactic(auto, using(crate::proofs::Told::is_itself, crate::proofs::Told::is_bound))]
pub fn bound_of(own: Option<&str>, noun: &str, capture: Option<Capture>) -> Bound
    ensures is { result ≡ bound_by (option_map (λ x. x.now) own.entry) noun.now capture }
    ensures means { (t : ℕ → Words) → freedom_of result ≡ freedom_by (option_map (λ x. x.now) own.entry) noun.now (option_map (capture_by t) capture) }
{
    if is_own(own, noun) {
        Bound::Itself
    } else {
        bound_so(capture)
    }
}
