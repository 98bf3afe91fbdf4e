//! What is asked of a primitive.

ghost use Rattle.std.specs.Prelude.{◌≡◌, List, [], ◌∷◌, codes};
ghost use Rattle.ev_base.specs.declared.values.Value.{Value as Held};
ghost use Rattle.ev_heap.specs.Contents.{Contents};
ghost use Rattle.def_machine.specs.Native as native;
ghost use Rattle.ev_prims.specs.Asking.{asked_in, list_asked};
ghost use Rattle.ev_prims.specs.Asks.{asked_of, asks_more, asks_none, asks_one, asks_three, asks_two, compares, guard_one, list_two, ref_one, ref_two, send_three, where_named};
ghost use Rattle.ev_prims.specs.Forms.{args_of};
ghost use Rattle.ev_prims.specs.Primitives.{guard_in, primitive_in};
ghost use Rattle.ev_prims.specs.Reading.{value_in, values_in};
ghost use Rattle.ev_prims.specs.Verbs.{range_named, ref_test_named, test_named};
ghost use Rattle.ev_prims.specs.declared.asking.Asked.TheVariants as ask;
ghost use Rattle.ev_prims.specs.declared.forms.Args.TheVariants.{More};

use crate::forms::{Args, args_of};
use crate::order::Test;
use crate::primitives::{Guard, Kind, Primitive, primitive_of};
use crate::verbs::is_verb;
use ev_base::{PrimId, Value};

/// What `Ref` tells of a value.
#[derive(Clone, Copy)]
pub enum RefTest {
    IsNear,
    IsFar,
    IsResolved,
    IsBroken,
    OptProblem,
    Fulfillment,
}

/// What is asked of a primitive. Its values are the arguments, as they are held.
#[derive(Clone, Copy)]
pub enum Asked {
    /// The list of all the arguments.
    MakesList,
    /// The integers from one to another, by whether the last is among them.
    Ranges(bool, Value, Value),
    /// Whether two are the same.
    Same(Value, Value),
    Compares(Test, Value, Value),
    Loops(Value),
    /// Whether without an answer; a target, a verb and a list of arguments.
    SendsTo(bool, Value, Value, Value),
    /// A target, a verb and a list of arguments.
    CallsTo(Value, Value, Value),
    MakesPromise,
    Breaks(Value),
    Tells(RefTest, Value),
    /// A value, and what reacts once it is settled.
    Whens(Value, Value),
    ThrowsIt(Value),
    /// An auditor, and what may bear its stamp.
    IsStamped(Value, Value),
    /// A specimen and an ejector.
    Coerces(Guard, Value, Value),
    AddsNull(Value),
    NoMethod,
}

/// The list of all arguments, of `__makeList`.
#[tactic(auto, using(crate::proofs::VerbLemmas::entry_is))]
fn makes_list(verb: &str) -> Asked
    ensures is { result ≡ where_named (codes "run") ask.MakesList verb.now }
    ensures means { (h : Contents) (args : List Held) → asked_in h args result ≡ list_asked verb.now (values_in h args) }
{
    if verb == "run" {
        Asked::MakesList
    } else {
        Asked::NoMethod
    }
}

/// Whether the last is among the integers of the range that a verb of `__makeList` names.
#[tactic(auto, unfolding(crate::specs::Verbs::range_named))]
fn range_of(verb: &str) -> Option<bool>
    ensures { result ≡ range_named verb.now }
{
    match verb {
        "through" => Some(true),
        "till" => Some(false),
        _ => None,
    }
}

/// What `__makeList` is asked of two values.
#[tactic(auto, using(crate::proofs::VerbLemmas::list_ask_run, crate::proofs::VerbLemmas::list_ask_range, crate::proofs::VerbLemmas::list_ask_none))]
fn list_two(verb: &str, a: Value, b: Value) -> Asked
    ensures is { result ≡ list_two verb.now a b }
    ensures means { (h : Contents) → asked_in h (a ∷ b ∷ []) result ≡ native.list_ask verb.now (value_in h a ∷ value_in h b ∷ []) }
{
    if verb == "run" {
        return Asked::MakesList;
    }
    match range_of(verb) {
        Some(last) => Asked::Ranges(last, a, b),
        None => Asked::NoMethod,
    }
}

/// What `__equalizer` is asked of two values.
#[tactic(auto, using(crate::proofs::VerbLemmas::entry_is), unfolding(def_machine::specs::Native::equalizer_ask))]
fn same(verb: &str, a: Value, b: Value) -> Asked
    ensures is { result ≡ where_named (codes "sameEver") (ask.Same a b) verb.now }
    ensures means { (h : Contents) (args : List Held) → asked_in h args result ≡ native.equalizer_ask verb.now (value_in h a ∷ value_in h b ∷ []) }
{
    if verb == "sameEver" {
        Asked::Same(a, b)
    } else {
        Asked::NoMethod
    }
}

/// The test that a verb of `__comparer` names.
#[tactic(auto, unfolding(crate::specs::Verbs::test_named))]
fn test_of(verb: &str) -> Option<Test>
    ensures { result ≡ test_named verb.now }
{
    match verb {
        "lessThan" => Some(Test::LessThan),
        "leq" => Some(Test::AtMost),
        "asBigAs" => Some(Test::AsBigAs),
        "geq" => Some(Test::AtLeast),
        "greaterThan" => Some(Test::GreaterThan),
        _ => None,
    }
}

/// What `__comparer` is asked of two values.
#[tactic(auto, using(crate::proofs::VerbLemmas::comparer_test, crate::proofs::VerbLemmas::comparer_none))]
fn compares(verb: &str, a: Value, b: Value) -> Asked
    ensures is { result ≡ compares (test_named verb.now) a b }
    ensures means { (h : Contents) (args : List Held) → asked_in h args result ≡ native.comparer_ask verb.now (value_in h a ∷ value_in h b ∷ []) }
{
    match test_of(verb) {
        Some(test) => Asked::Compares(test, a, b),
        None => Asked::NoMethod,
    }
}

/// What `__loop` is asked of one value.
#[tactic(auto, using(crate::proofs::VerbLemmas::entry_is), unfolding(def_machine::specs::Native::run_ask))]
fn loops(verb: &str, a: Value) -> Asked
    ensures is { result ≡ where_named (codes "run") (ask.Loops a) verb.now }
    ensures means { (h : Contents) (args : List Held) → asked_in h args result ≡ native.run_ask native.Loops verb.now (value_in h a ∷ []) }
{
    if verb == "run" {
        Asked::Loops(a)
    } else {
        Asked::NoMethod
    }
}

/// What `throw` is asked of one value.
#[tactic(auto, using(crate::proofs::VerbLemmas::entry_is), unfolding(def_machine::specs::Native::run_ask))]
fn throws(verb: &str, a: Value) -> Asked
    ensures is { result ≡ where_named (codes "run") (ask.ThrowsIt a) verb.now }
    ensures means { (h : Contents) (args : List Held) → asked_in h args result ≡ native.run_ask native.ThrowsIt verb.now (value_in h a ∷ []) }
{
    if verb == "run" {
        Asked::ThrowsIt(a)
    } else {
        Asked::NoMethod
    }
}

/// What `E` is asked of three values.
#[tactic(auto, unfolding(def_machine::specs::Free::entry, def_machine::specs::Native::send_ask))]
fn sends(verb: &str, a: Value, b: Value, c: Value) -> Asked
    ensures is { result ≡ send_three verb.now a b c }
    ensures means { (h : Contents) (args : List Held) → asked_in h args result ≡ native.send_ask verb.now (value_in h a ∷ value_in h b ∷ value_in h c ∷ []) }
{
    if is_verb(verb, "send") {
        Asked::SendsTo(false, a, b, c)
    } else if is_verb(verb, "sendOnly") {
        Asked::SendsTo(true, a, b, c)
    } else if is_verb(verb, "call") {
        Asked::CallsTo(a, b, c)
    } else {
        Asked::NoMethod
    }
}

/// What `auditedBy` is asked of two values.
#[tactic(auto, using(crate::proofs::VerbLemmas::entry_is), unfolding(def_machine::specs::Native::stamp_ask))]
fn stamped(verb: &str, a: Value, b: Value) -> Asked
    ensures is { result ≡ where_named (codes "run") (ask.IsStamped a b) verb.now }
    ensures means { (h : Contents) (args : List Held) → asked_in h args result ≡ native.stamp_ask verb.now (value_in h a ∷ value_in h b ∷ []) }
{
    if verb == "run" {
        Asked::IsStamped(a, b)
    } else {
        Asked::NoMethod
    }
}

/// What `Ref` is asked without arguments.
#[tactic(auto, using(crate::proofs::VerbLemmas::entry_is), unfolding(def_machine::specs::Native::ref_ask))]
fn promises(verb: &str) -> Asked
    ensures is { result ≡ where_named (codes "promise") ask.MakesPromise verb.now }
    ensures means { (h : Contents) (args : List Held) → asked_in h args result ≡ native.ref_ask verb.now [] }
{
    if verb == "promise" {
        Asked::MakesPromise
    } else {
        Asked::NoMethod
    }
}

/// The test that a verb of `Ref` names.
#[tactic(auto, unfolding(crate::specs::Verbs::ref_test_named))]
fn ref_test_of(verb: &str) -> Option<RefTest>
    ensures { result ≡ ref_test_named verb.now }
{
    match verb {
        "isNear" => Some(RefTest::IsNear),
        "isFar" => Some(RefTest::IsFar),
        "isResolved" => Some(RefTest::IsResolved),
        "isBroken" => Some(RefTest::IsBroken),
        "optProblem" => Some(RefTest::OptProblem),
        "fulfillment" => Some(RefTest::Fulfillment),
        _ => None,
    }
}

/// What `Ref` is asked of one value.
#[tactic(auto, using(crate::proofs::VerbLemmas::ref_ask_breaks, crate::proofs::VerbLemmas::ref_ask_test, crate::proofs::VerbLemmas::ref_ask_none))]
fn tells(verb: &str, a: Value) -> Asked
    ensures is { result ≡ ref_one verb.now a }
    ensures means { (h : Contents) (args : List Held) → asked_in h args result ≡ native.ref_ask verb.now (value_in h a ∷ []) }
{
    if verb == "broken" {
        return Asked::Breaks(a);
    }
    match ref_test_of(verb) {
        Some(test) => Asked::Tells(test, a),
        None => Asked::NoMethod,
    }
}

/// What `Ref` is asked of a value and a reaction.
#[tactic(auto, unfolding(def_machine::specs::Free::entry, def_machine::specs::Native::ref_ask))]
fn whens(verb: &str, a: Value, b: Value) -> Asked
    ensures is { result ≡ ref_two verb.now a b }
    ensures means { (h : Contents) (args : List Held) → asked_in h args result ≡ native.ref_ask verb.now (value_in h a ∷ value_in h b ∷ []) }
{
    if is_verb(verb, "whenResolved") {
        Asked::Whens(a, b)
    } else {
        Asked::NoMethod
    }
}

/// What `nullOk` is asked of one value.
#[tactic(auto, using(crate::proofs::VerbLemmas::entry_is), unfolding(def_machine::specs::Native::guard_ask))]
fn adds_null(verb: &str, a: Value) -> Asked
    ensures is { result ≡ where_named (codes "get") (ask.AddsNull a) verb.now }
    ensures means { (h : Contents) (args : List Held) → asked_in h args result ≡ native.guard_ask native.NullGuard verb.now (value_in h a ∷ []) }
{
    if verb == "get" {
        Asked::AddsNull(a)
    } else {
        Asked::NoMethod
    }
}

/// What a native guard is asked of one value: `nullOk` alone has such a method.
#[tactic(auto, unfolding(def_machine::specs::Native::guard_ask))]
fn guard_one(guard: Guard, verb: &str, a: Value) -> Asked
    ensures is { result ≡ guard_one guard verb.now a }
    ensures means { (h : Contents) (args : List Held) → asked_in h args result ≡ native.guard_ask (guard_in guard) verb.now (value_in h a ∷ []) }
{
    if guard.or_null {
        return Asked::NoMethod;
    }
    match guard.kind {
        Kind::Null => adds_null(verb, a),
        _ => Asked::NoMethod,
    }
}

/// What a native guard is asked of a specimen and an ejector.
#[tactic(auto, using(crate::proofs::VerbLemmas::entry_is), unfolding(def_machine::specs::Native::guard_ask))]
fn coerces(guard: Guard, verb: &str, a: Value, b: Value) -> Asked
    ensures is { result ≡ where_named (codes "coerce") (ask.Coerces guard a b) verb.now }
    ensures means { (h : Contents) (args : List Held) → asked_in h args result ≡ native.guard_ask (guard_in guard) verb.now (value_in h a ∷ value_in h b ∷ []) }
{
    if verb == "coerce" {
        Asked::Coerces(guard, a, b)
    } else {
        Asked::NoMethod
    }
}

/// What is asked of a primitive without arguments.
#[tactic(auto, unfolding(crate::specs::Asks::asks_none, def_machine::specs::Native::asked, def_machine::specs::Native::list_ask, def_machine::specs::Native::equalizer_ask, def_machine::specs::Native::comparer_ask, def_machine::specs::Native::run_ask, def_machine::specs::Native::send_ask, def_machine::specs::Native::ref_ask, def_machine::specs::Native::stamp_ask, def_machine::specs::Native::guard_ask))]
fn ask_none(primitive: Primitive, verb: &str) -> Asked
    ensures is { result ≡ asks_none primitive verb.now }
    ensures means { (h : Contents) → asked_in h [] result ≡ native.asked (primitive_in primitive) verb.now [] }
{
    match primitive {
        Primitive::MakeList => makes_list(verb),
        Primitive::References => promises(verb),
        _ => Asked::NoMethod,
    }
}

/// What is asked of a primitive with one argument.
#[tactic(auto, unfolding(crate::specs::Asks::asks_one, def_machine::specs::Native::asked, def_machine::specs::Native::list_ask, def_machine::specs::Native::equalizer_ask, def_machine::specs::Native::comparer_ask, def_machine::specs::Native::run_ask, def_machine::specs::Native::send_ask, def_machine::specs::Native::ref_ask, def_machine::specs::Native::stamp_ask, def_machine::specs::Native::guard_ask))]
fn ask_one(primitive: Primitive, verb: &str, a: Value) -> Asked
    ensures is { result ≡ asks_one primitive verb.now a }
    ensures means { (h : Contents) → asked_in h (a ∷ []) result ≡ native.asked (primitive_in primitive) verb.now (value_in h a ∷ []) }
{
    match primitive {
        Primitive::MakeList => makes_list(verb),
        Primitive::Looper => loops(verb, a),
        Primitive::References => tells(verb, a),
        Primitive::Thrower => throws(verb, a),
        Primitive::Guarding(guard) => guard_one(guard, verb, a),
        _ => Asked::NoMethod,
    }
}

/// What is asked of a primitive with two arguments.
#[tactic(auto, unfolding(crate::specs::Asks::asks_two, def_machine::specs::Native::asked, def_machine::specs::Native::run_ask, def_machine::specs::Native::send_ask))]
fn ask_two(primitive: Primitive, verb: &str, a: Value, b: Value) -> Asked
    ensures is { result ≡ asks_two primitive verb.now a b }
    ensures means { (h : Contents) → asked_in h (a ∷ b ∷ []) result ≡ native.asked (primitive_in primitive) verb.now (value_in h a ∷ value_in h b ∷ []) }
{
    match primitive {
        Primitive::MakeList => list_two(verb, a, b),
        Primitive::Equalizer => same(verb, a, b),
        Primitive::Comparer => compares(verb, a, b),
        Primitive::References => whens(verb, a, b),
        Primitive::StampReader => stamped(verb, a, b),
        Primitive::Guarding(guard) => coerces(guard, verb, a, b),
        _ => Asked::NoMethod,
    }
}

/// What is asked of a primitive with three arguments.
#[tactic(auto, unfolding(crate::specs::Asks::asks_three, def_machine::specs::Native::asked, def_machine::specs::Native::list_ask, def_machine::specs::Native::equalizer_ask, def_machine::specs::Native::comparer_ask, def_machine::specs::Native::run_ask, def_machine::specs::Native::ref_ask, def_machine::specs::Native::stamp_ask, def_machine::specs::Native::guard_ask))]
fn ask_three(primitive: Primitive, verb: &str, a: Value, b: Value, c: Value) -> Asked
    ensures is { result ≡ asks_three primitive verb.now a b c }
    ensures means { (h : Contents) → asked_in h (a ∷ b ∷ c ∷ []) result ≡ native.asked (primitive_in primitive) verb.now (value_in h a ∷ value_in h b ∷ value_in h c ∷ []) }
{
    match primitive {
        Primitive::MakeList => makes_list(verb),
        Primitive::Sender => sends(verb, a, b, c),
        _ => Asked::NoMethod,
    }
}

/// What is asked of a primitive with more arguments.
#[tactic(auto, using(crate::proofs::AskLemmas::more_of_list, crate::proofs::AskLemmas::more_of_other), unfolding(crate::specs::Asks::asks_more))]
fn ask_more(primitive: Primitive, verb: &str) -> Asked
    ensures is { result ≡ asks_more primitive verb.now }
    ensures means { (h : Contents) (args : List Held) → args_of args ≡ More → asked_in h args result ≡ native.asked (primitive_in primitive) verb.now (values_in h args) }
{
    match primitive {
        Primitive::MakeList => makes_list(verb),
        _ => Asked::NoMethod,
    }
}

/// What is asked of the primitive of that number by a verb and arguments as they are held. A primitive that has no such method
/// is asked nothing, and a number of no primitive has none.
#[tactic(auto, using(crate::proofs::FormLemmas::none_of_args, crate::proofs::FormLemmas::one_of_args, crate::proofs::FormLemmas::two_of_args, crate::proofs::FormLemmas::three_of_args), unfolding(crate::specs::Asks::asked_by))]
pub fn ask(number: PrimId, verb: &str, args: &[Value]) -> Asked
    ensures is { result ≡ asked_of number verb.now args.now }
    ensures means { (h : Contents) → asked_in h args.now result ≡ native.asked (native.primitive number) verb.now (values_in h args.now) }
{
    let primitive = primitive_of(number);
    match args_of(args) {
        Args::Empty => ask_none(primitive, verb),
        Args::One(a) => ask_one(primitive, verb, a),
        Args::Two(a, b) => ask_two(primitive, verb, a, b),
        Args::Three(a, b, c) => ask_three(primitive, verb, a, b, c),
        Args::More => ask_more(primitive, verb),
    }
}
