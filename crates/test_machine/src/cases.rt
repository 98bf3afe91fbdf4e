//! Small programs from the corners of the language, and how each ends.

ghost use Rattle.test_machine.specs.Guards.{GuardsHold, GuardsRead};
ghost use Rattle.test_machine.specs.Natives.{NativesHold, NativesRead};
ghost use Rattle.test_machine.specs.References.{ReferencesHold, ReferencesRead};
ghost use Rattle.test_machine.specs.Audits.{AuditsHold, AuditsRead};
ghost use Rattle.test_machine.specs.Rules.{RulesHold, RulesRead};
ghost use Rattle.test_machine.specs.Bounds.{BoundsHold, BoundsRead};
ghost use Rattle.test_machine.specs.Heavy.{HeavyHolds};

/// Guards, ejectors and patterns.
#[tactic(auto, unfolding(crate::specs::Endings::opened_endings, def_kernel::specs::Reading::opened_reading, crate::specs::Guards::opened_guards))]
pub fn guards_hold()
    ensures ends { GuardsHold }
    ensures trees { GuardsRead }
{}

/// What data and primitives answer.
#[tactic(auto, unfolding(crate::specs::Endings::opened_endings, def_kernel::specs::Reading::opened_reading, crate::specs::Natives::opened_natives))]
pub fn natives_hold()
    ensures ends { NativesHold }
    ensures trees { NativesRead }
{}

/// References inside a vat.
#[tactic(auto, unfolding(crate::specs::Endings::opened_endings, def_kernel::specs::Reading::opened_reading, crate::specs::References::opened_references))]
pub fn references_hold()
    ensures ends { ReferencesHold }
    ensures trees { ReferencesRead }
{}

/// Auditors and auditions.
#[tactic(auto, unfolding(crate::specs::Endings::opened_endings, def_kernel::specs::Reading::opened_reading, crate::specs::Audits::opened_audits))]
pub fn audits_hold()
    ensures ends { AuditsHold }
    ensures trees { AuditsRead }
{}

/// The auditors Selfless and Functional.
#[tactic(auto, unfolding(crate::specs::Endings::opened_endings, def_kernel::specs::Reading::opened_reading, crate::specs::Rules::opened_rules))]
pub fn rules_hold()
    ensures ends { RulesHold }
    ensures trees { RulesRead }
{}

/// The least fuel and the depth of small programs.
#[tactic(auto, unfolding(crate::specs::Endings::opened_endings, def_kernel::specs::Reading::opened_reading, crate::specs::Bounds::opened_bounds))]
pub fn bounds_hold()
    ensures ends { BoundsHold }
    ensures trees { BoundsRead }
{}

/// A list that is too high passes to another vat as broken, and draws nothing.
#[tactic(auto, unfolding(crate::specs::Heavy::opened_heavy))]
pub fn heavy_lists_break()
    ensures { HeavyHolds }
{}
