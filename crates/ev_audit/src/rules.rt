//! The rules by which native auditors judge.

ghost use Rattle.std.specs.Prelude.{◌≡◌, ◌∷◌, [], codes};
ghost use Rattle.def_machine.specs.Free.{has_words};
ghost use Rattle.def_machine.specs.Native as native;
ghost use Rattle.def_machine.specs.Scopes as scopes;
ghost use Rattle.ev_prims.specs.Primitives.{primitive_in, rule_in};
ghost use Rattle.ev_audit.specs.Views.{all_fit, free_name, freedom_of, guard_of, view_of};

use crate::words::is_word;
use ev_heap::{AuditView, Bound, FreeName, GuardKind};
use ev_prims::{Guard, Kind, Primitive, Rule, primitive_of};

/// Whether what a native guard takes is an integer, a boolean, a character, a text or null.
#[tactic(auto, unfolding(def_machine::specs::Scopes::guards_data))]
fn guards_data(primitive: Primitive) -> bool
    ensures { result ≡ scopes.guards_data (primitive_in primitive) }
{
    match primitive {
        Primitive::Guarding(
            Guard {
                kind: Kind::Int | Kind::Boolean | Kind::Char | Kind::Text | Kind::Void,
                or_null: false,
            },
        ) => true,
        _ => false,
    }
}

/// Whether what a native guard takes is frozen.
#[tactic(auto, unfolding(def_machine::specs::Scopes::freezes))]
fn freezes(primitive: Primitive) -> bool
    ensures { result ≡ scopes.freezes (primitive_in primitive) }
{
    match primitive {
        Primitive::Guarding(
            Guard {
                kind: Kind::Frozen
                | Kind::Int
                | Kind::Boolean
                | Kind::Char
                | Kind::Text
                | Kind::Void,
                or_null: false,
            },
        ) => true,
        _ => false,
    }
}

/// Whether what is bound under a guard is frozen.
#[tactic(auto, unfolding(def_machine::specs::Scopes::frozen_guard))]
fn frozen_guard(guard: GuardKind) -> bool
    ensures { result ≡ scopes.frozen_guard (guard_of guard) }
{
    match guard {
        GuardKind::Native(number) => freezes(primitive_of(number)),
        GuardKind::User(_) => false,
    }
}

/// Whether what is bound under a guard is an integer, a boolean, a character, a text or null.
#[tactic(auto, unfolding(def_machine::specs::Scopes::data_guard))]
fn data_guard(guard: GuardKind) -> bool
    ensures { result ≡ scopes.data_guard (guard_of guard) }
{
    match guard {
        GuardKind::Native(number) => guards_data(primitive_of(number)),
        GuardKind::User(_) => false,
    }
}

#[tactic(auto, unfolding(def_machine::specs::Scopes::frozen_freedom))]
fn is_frozen(bound: Bound) -> bool
    ensures { result ≡ scopes.frozen_freedom (freedom_of bound) }
{
    match bound {
        Bound::Safe | Bound::Itself => true,
        Bound::Final(guard) => frozen_guard(guard),
        Bound::Mutable => false,
    }
}

#[tactic(auto, unfolding(def_machine::specs::Scopes::not_itself))]
fn is_other(bound: Bound) -> bool
    ensures { result ≡ scopes.not_itself (freedom_of bound) }
{
    !matches!(bound, Bound::Itself)
}

/// Whether a noun of the safe scope leads out of the computation that names it.
#[tactic(auto, using(crate::proofs::Told::among_two))]
fn leads_out(noun: &str) -> bool
    ensures { result ≡ has_words noun.now (codes "E" ∷ codes "Ref" ∷ []) }
{
    is_word("E", noun) || is_word("Ref", noun)
}

#[tactic(auto, unfolding(def_machine::specs::Scopes::functional_freedom))]
fn is_functional(noun: &str, bound: Bound) -> bool
    ensures { result ≡ scopes.functional_freedom noun.now (freedom_of bound) }
{
    match bound {
        Bound::Safe => !leads_out(noun),
        Bound::Itself => true,
        Bound::Final(guard) => data_guard(guard),
        Bound::Mutable => false,
    }
}

/// Whether a free name is as a rule wants it.
#[tactic(auto, unfolding(def_machine::specs::Scopes::fits))]
fn fits(rule: Rule, name: &FreeName) -> bool
    ensures { result ≡ scopes.fits (rule_in rule) (free_name name.now) }
{
    match rule {
        Rule::DeepFrozen => is_frozen(name.bound),
        Rule::Selfless => is_other(name.bound),
        Rule::Functional => is_functional(name.noun.as_str(), name.bound),
    }
}

/// Whether each free name is as a rule wants it.
#[tactic(auto, unfolding(crate::specs::Views::all_fit))]
fn all_fit(rule: Rule, names: &[FreeName]) -> bool
    ensures { result ≡ all_fit rule names.now }
{
    for name in names {
        if !fits(rule, name) {
            return false;
        }
    }
    true
}

/// Whether an object of this view meets a rule.
#[tactic(auto, using(crate::proofs::Told::all_meet))]
fn meets(rule: Rule, view: &AuditView) -> bool
    ensures { result ≡ scopes.meets (rule_in rule) (view_of view.now).free }
{
    all_fit(rule, view.names.as_slice())
}

/// Whether an object is deeply frozen: each of its free names is of the safe scope, its own name, or bound finally under
/// DeepFrozen, int, boolean, char, String or void.
pub fn deep_frozen_test(view: &AuditView) -> bool
    ensures { result ≡ scopes.meets native.DeepFrozen (view_of view.now).free }
{
    meets(Rule::DeepFrozen, view)
}

/// Whether an object does not name itself.
pub fn selfless_test(view: &AuditView) -> bool
    ensures { result ≡ scopes.meets native.Selfless (view_of view.now).free }
{
    meets(Rule::Selfless, view)
}

/// Whether an object computes from its arguments alone: each of its free names is of the safe scope other than `E` and `Ref`,
/// its own name, or bound finally under int, boolean, char, String or void.
pub fn functional_test(view: &AuditView) -> bool
    ensures { result ≡ scopes.meets native.Functional (view_of view.now).free }
{
    meets(Rule::Functional, view)
}
