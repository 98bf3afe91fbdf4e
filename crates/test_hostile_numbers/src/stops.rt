//! Runs that stop, and a run without hostile vats.

ghost use Rattle.std.specs.Prelude.{◌≡◌, true};
ghost use Rattle.def_hostile.specs.Numbers.{performs};
ghost use Rattle.test_hostile.specs.GiftKnownTwice.{play as gift_known_twice};
ghost use Rattle.test_hostile.specs.MalformedThenPartition.{play as malformed_then_partition};
ghost use Rattle.test_hostile.specs.Random26.{play as random};
ghost use Rattle.test_hostile_numbers.specs.Agrees.{TextsAgree};
ghost use Rattle.test_hostile_numbers.specs.Introduction.{RunsAgree, introduction};
ghost use Rattle.test_hostile_numbers.specs.Stops.{stops, with_fuel};

/// With 5 units of fuel it stops, in both, with one text.
#[tactic(auto, unfolding(def_hostile::specs::NumbersText::opened_numbers_text, test_hostile::specs::Lines::opened_more, crate::specs::Stops::opened_stops, test_hostile::specs::GiftKnownTwice::opened))]
pub fn gift_known_twice_stops_with_5()
    ensures stops { stops (performs (with_fuel 5 gift_known_twice)) ≡ true }
    ensures agree { TextsAgree (with_fuel 5 gift_known_twice) }
{}

/// With 20 units of fuel it stops, in both, with one text.
#[tactic(auto, unfolding(def_hostile::specs::NumbersText::opened_numbers_text, test_hostile::specs::Lines::opened_more, crate::specs::Stops::opened_stops, test_hostile::specs::GiftKnownTwice::opened))]
pub fn gift_known_twice_stops_with_20()
    ensures stops { stops (performs (with_fuel 20 gift_known_twice)) ≡ true }
    ensures agree { TextsAgree (with_fuel 20 gift_known_twice) }
{}

/// With 26 units of fuel it has one text in both.
#[tactic(auto, unfolding(def_hostile::specs::NumbersText::opened_numbers_text, test_hostile::specs::Lines::opened_more, crate::specs::Stops::opened_stops, test_hostile::specs::GiftKnownTwice::opened))]
pub fn gift_known_twice_with_26()
    ensures agree { TextsAgree (with_fuel 26 gift_known_twice) }
{}

/// With 32 units of fuel it has one text in both.
#[tactic(auto, unfolding(def_hostile::specs::NumbersText::opened_numbers_text, test_hostile::specs::Lines::opened_more, crate::specs::Stops::opened_stops, test_hostile::specs::GiftKnownTwice::opened))]
pub fn gift_known_twice_with_32()
    ensures agree { TextsAgree (with_fuel 32 gift_known_twice) }
{}

/// With 38 units of fuel it has one text in both.
#[tactic(auto, unfolding(def_hostile::specs::NumbersText::opened_numbers_text, test_hostile::specs::Lines::opened_more, crate::specs::Stops::opened_stops, test_hostile::specs::GiftKnownTwice::opened))]
pub fn gift_known_twice_with_38()
    ensures agree { TextsAgree (with_fuel 38 gift_known_twice) }
{}

/// With 44 units of fuel it has one text in both.
#[tactic(auto, unfolding(def_hostile::specs::NumbersText::opened_numbers_text, test_hostile::specs::Lines::opened_more, crate::specs::Stops::opened_stops, test_hostile::specs::GiftKnownTwice::opened))]
pub fn gift_known_twice_with_44()
    ensures agree { TextsAgree (with_fuel 44 gift_known_twice) }
{}

/// With 5 units of fuel it has one text in both.
#[tactic(auto, unfolding(def_hostile::specs::NumbersText::opened_numbers_text, test_hostile::specs::Lines::opened_more, crate::specs::Stops::opened_stops, test_hostile::specs::MalformedThenPartition::opened))]
pub fn malformed_then_partition_with_5()
    ensures agree { TextsAgree (with_fuel 5 malformed_then_partition) }
{}

/// With 20 units of fuel it has one text in both.
#[tactic(auto, unfolding(def_hostile::specs::NumbersText::opened_numbers_text, test_hostile::specs::Lines::opened_more, crate::specs::Stops::opened_stops, test_hostile::specs::Random26::opened))]
pub fn random_with_20()
    ensures agree { TextsAgree (with_fuel 20 random) }
{}

/// A run without hostile vats has the text of the run in numbers, to its end and to a stop.
#[tactic(auto, unfolding(def_hostile::specs::NumbersText::opened_numbers_text, def_run::specs::LocalText::opened_text_by_numbers, test_hostile::specs::Lines::opened_more, crate::specs::Introduction::opened_introduction))]
pub fn introduction_agrees()
    ensures whole { RunsAgree (introduction 1000000) }
    ensures stops { RunsAgree (introduction 30) }
{}
