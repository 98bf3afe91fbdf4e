//! Native auditors.

ghost use Rattle.std.specs.Prelude.{◌≡◌, IfSome, is_some, option_map};
ghost use Rattle.def_machine.specs.Native as native;
ghost use Rattle.def_machine.specs.Scopes as scopes;
ghost use Rattle.ev_prims.specs.Primitives.{primitive_in, rule_in};
ghost use Rattle.ev_prims.specs.declared.primitives.Rule.TheVariants as rule;
ghost use Rattle.ev_audit.specs.Views.{view_of};

use ev_base::PrimId;
use ev_heap::AuditView;
use ev_prims::{Guard, Kind, Primitive, Rule, primitive_of};

type Test = fn(&AuditView) -> bool;

/// A native auditor: its rule, and a test that answers true exactly where an object meets the rule.
#[derive(Clone, Copy)]
pub struct NativeAuditor {
    rule: Rule,
    test: Test,
    ghost callable: { Test.IsAlwaysCallable test },
    ghost exact: { (view : _) (answer : _) → Test.post test view answer → answer ≡ scopes.meets (rule_in rule) (view_of view.now).free },
}

impl NativeAuditor {
    /// The auditor of a rule, which judges by this test.
    pub fn new(rule: Rule, test: fn(&AuditView) -> bool) -> NativeAuditor
        requires callable { Test.IsAlwaysCallable test }
        requires exact { (view : _) (answer : _) → Test.post test view answer → answer ≡ scopes.meets (rule_in rule) (view_of view.now).free }
        ensures rule { result.rule ≡ rule }
        ensures test { result.test ≡ test }
    {
        NativeAuditor { rule, test }
    }

    /// Whether an object meets the auditor's rule.
    pub fn approves(&self, view: &AuditView) -> bool
        ensures { result ≡ scopes.meets (rule_in self.now.rule) (view_of view.now).free }
    {
        (self.test)(view)
    }
}

/// The native auditors, one for each rule.
#[derive(Drop)]
pub struct AuditorSet {
    deep: NativeAuditor,
    selfless: NativeAuditor,
    functional: NativeAuditor,
    ghost of_rules: { (deep.rule ≡ rule.DeepFrozen) × (selfless.rule ≡ rule.Selfless) × (functional.rule ≡ rule.Functional) },
}

/// The rule of a native auditor. The guard `DeepFrozen` is one too.
#[tactic(auto, unfolding(def_machine::specs::Scopes::rule_of))]
fn rule_of(primitive: Primitive) -> Option<Rule>
    ensures { option_map rule_in result ≡ scopes.rule_of (primitive_in primitive) }
{
    match primitive {
        Primitive::Guarding(
            Guard {
                kind: Kind::Frozen,
                or_null: false,
            },
        ) => Some(Rule::DeepFrozen),
        Primitive::Judging(rule) => Some(rule),
        _ => None,
    }
}

impl AuditorSet {
    /// These auditors, each of its rule.
    pub fn new(
        deep: NativeAuditor,
        selfless: NativeAuditor,
        functional: NativeAuditor,
    ) -> AuditorSet
        requires deep { deep.rule ≡ rule.DeepFrozen }
        requires selfless { selfless.rule ≡ rule.Selfless }
        requires functional { functional.rule ≡ rule.Functional }
        ensures deep { result.deep ≡ deep }
        ensures selfless { result.selfless ≡ selfless }
        ensures functional { result.functional ≡ functional }
    {
        AuditorSet {
            deep,
            selfless,
            functional,
        }
    }

    /// The auditor of a rule.
    fn auditor(&self, rule: Rule) -> &NativeAuditor
        ensures { result.now.rule ≡ rule }
    {
        match rule {
            Rule::DeepFrozen => &self.deep,
            Rule::Selfless => &self.selfless,
            Rule::Functional => &self.functional,
        }
    }

    /// The verdict of a primitive on an object: whether it approves, or none where it is no native auditor.
    #[tactic(auto, unfolding(def_machine::specs::Scopes::is_auditor, def_machine::specs::Scopes::approves))]
    pub fn judge(&self, auditor: PrimId, view: &AuditView) -> Option<bool>
        ensures auditor { is_some result ≡ scopes.is_auditor (native.primitive auditor) }
        ensures verdict { IfSome result (λ answer. answer ≡ scopes.approves (native.primitive auditor) (view_of view.now).free) }
    {
        match rule_of(primitive_of(auditor)) {
            None => None,
            Some(rule) => Some(self.auditor(rule).approves(view)),
        }
    }
}
