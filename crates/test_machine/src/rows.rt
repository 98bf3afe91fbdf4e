//! The worked rows.

ghost use Rattle.test_machine.specs.Row01.{Row01Holds};
ghost use Rattle.test_machine.specs.Row02.{Row02Holds, Row02Reads};
ghost use Rattle.test_machine.specs.Row03.{Row03Holds, Row03Reads};
ghost use Rattle.test_machine.specs.Row04.{Row04Holds, Row04Reads};
ghost use Rattle.test_machine.specs.Row05.{Row05Holds, Row05Reads};
ghost use Rattle.test_machine.specs.Row06a.{Row06aHolds, Row06aReads};
ghost use Rattle.test_machine.specs.Row06b.{Row06bHolds, Row06bReads};
ghost use Rattle.test_machine.specs.Row07.{Row07Holds, Row07Reads};
ghost use Rattle.test_machine.specs.Row08a.{Row08aHolds, Row08aReads};
ghost use Rattle.test_machine.specs.Row08b.{Row08bHolds, Row08bReads};
ghost use Rattle.test_machine.specs.Row08c.{Row08cHolds, Row08cReads};
ghost use Rattle.test_machine.specs.Row09.{Row09Holds, Row09Reads};
ghost use Rattle.test_machine.specs.Row10.{Row10Holds, Row10Reads};
ghost use Rattle.test_machine.specs.Row11.{Row11Holds, Row11Reads};
ghost use Rattle.test_machine.specs.Row12.{Row12Holds, Row12Reads};
ghost use Rattle.test_machine.specs.Row13.{Row13Holds, Row13Reads};
ghost use Rattle.test_machine.specs.Row14.{Row14Holds, Row14Reads};
ghost use Rattle.test_machine.specs.Row15a.{Row15aHolds, Row15aReads};
ghost use Rattle.test_machine.specs.Row15b.{Row15bHolds, Row15bReads};
ghost use Rattle.test_machine.specs.Row16.{Row16Holds, Row16Reads};
ghost use Rattle.test_machine.specs.Row17.{Row17Holds, Row17Reads};
ghost use Rattle.test_machine.specs.SecondCut.{SecondCutHolds, SecondCutReads};
ghost use Rattle.test_machine.specs.OrderOverACut.{OrderOverACutHolds, OrderOverACutReads};
ghost use Rattle.test_machine.specs.AuditorThrows.{AuditorThrowsHolds, AuditorThrowsReads};
ghost use Rattle.test_machine.specs.Row21.{Row21Holds, Row21Reads};
ghost use Rattle.test_machine.specs.NativeAuditors.{NativeAuditorsHolds, NativeAuditorsReads};
ghost use Rattle.test_machine.specs.Row11Wire.{Row11WireHolds, Row11WireReads};
ghost use Rattle.test_machine.specs.Row14Wire.{Row14WireHolds, Row14WireReads};
ghost use Rattle.test_machine.specs.Row19.{Row19Holds, Row19Reads};
ghost use Rattle.test_machine.specs.Tally.{TallyHolds, TallyReads, TallyStops};
ghost use Rattle.test_machine.specs.SendOnly.{SendOnlyHolds, SendOnlyReads};
ghost use Rattle.test_machine.specs.EjectorHandedNull.{EjectorHandedNullHolds, EjectorHandedNullReads};
ghost use Rattle.test_machine.specs.TextAndCharacter.{TextAndCharacterHolds, TextAndCharacterReads};

/// A run of no vats.
#[tactic(auto, unfolding(def_run::specs::Text::opened_text, crate::specs::Endings::lines, def_kernel::specs::Reading::opened_reading, crate::specs::Row01::opened_row01))]
pub fn row_01()
    ensures { Row01Holds }
{}

/// An integer that answers.
#[tactic(auto, unfolding(def_run::specs::Text::opened_text, crate::specs::Endings::lines, def_kernel::specs::Reading::opened_reading, crate::specs::Row02::opened_row02))]
pub fn row_02()
    ensures text { Row02Holds }
    ensures trees { Row02Reads }
{}

/// A sum that is out of range.
#[tactic(auto, unfolding(def_run::specs::Text::opened_text, crate::specs::Endings::lines, def_kernel::specs::Reading::opened_reading, crate::specs::Row03::opened_row03))]
pub fn row_03()
    ensures text { Row03Holds }
    ensures trees { Row03Reads }
{}

/// Two objects share a var slot.
#[tactic(auto, unfolding(def_run::specs::Text::opened_text, crate::specs::Endings::lines, def_kernel::specs::Reading::opened_reading, crate::specs::Row04::opened_row04))]
pub fn row_04()
    ensures text { Row04Holds }
    ensures trees { Row04Reads }
{}

/// A dead ejector, and a matcher.
#[tactic(auto, unfolding(def_run::specs::Text::opened_text, crate::specs::Endings::lines, def_kernel::specs::Reading::opened_reading, crate::specs::Row05::opened_row05))]
pub fn row_05()
    ensures text { Row05Holds }
    ensures trees { Row05Reads }
{}

/// A guard that fails.
#[tactic(auto, unfolding(def_run::specs::Text::opened_text, crate::specs::Endings::lines, def_kernel::specs::Reading::opened_reading, crate::specs::Row06a::opened_row06a))]
pub fn row_06a()
    ensures text { Row06aHolds }
    ensures trees { Row06aReads }
{}

/// A guard that fails with an ejector.
#[tactic(auto, unfolding(def_run::specs::Text::opened_text, crate::specs::Endings::lines, def_kernel::specs::Reading::opened_reading, crate::specs::Row06b::opened_row06b))]
pub fn row_06b()
    ensures text { Row06bHolds }
    ensures trees { Row06bReads }
{}

/// What DeepFrozen approves.
#[tactic(auto, unfolding(def_run::specs::Text::opened_text, crate::specs::Endings::lines, def_kernel::specs::Reading::opened_reading, crate::specs::Row07::opened_row07))]
pub fn row_07()
    ensures text { Row07Holds }
    ensures trees { Row07Reads }
{}

/// Fuel that just suffices.
#[tactic(auto, unfolding(def_run::specs::Text::opened_text, crate::specs::Endings::lines, def_kernel::specs::Reading::opened_reading, crate::specs::Row08a::opened_row08a))]
pub fn row_08a()
    ensures text { Row08aHolds }
    ensures trees { Row08aReads }
{}

/// Fuel that does not suffice.
#[tactic(auto, unfolding(def_run::specs::Text::opened_text, crate::specs::Endings::lines, def_kernel::specs::Reading::opened_reading, crate::specs::Row08b::opened_row08b))]
pub fn row_08b()
    ensures text { Row08bHolds }
    ensures trees { Row08bReads }
{}

/// A recursion without end.
#[tactic(auto, unfolding(def_run::specs::Text::opened_text, crate::specs::Endings::lines, def_kernel::specs::Reading::opened_reading, crate::specs::Row08c::opened_row08c))]
pub fn row_08c()
    ensures text { Row08cHolds }
    ensures trees { Row08cReads }
{}

/// Messages are taken in order.
#[tactic(auto, unfolding(def_run::specs::Text::opened_text, crate::specs::Endings::lines, def_kernel::specs::Reading::opened_reading, crate::specs::Row09::opened_row09))]
pub fn row_09()
    ensures text { Row09Holds }
    ensures trees { Row09Reads }
{}

/// A message sent on an answer that is not there yet.
#[tactic(auto, unfolding(def_run::specs::Text::opened_text, crate::specs::Endings::lines, def_kernel::specs::Reading::opened_reading, crate::specs::Row10::opened_row10))]
pub fn row_10()
    ensures text { Row10Holds }
    ensures trees { Row10Reads }
{}

/// A vat introduces another to a third.
#[tactic(auto, unfolding(def_run::specs::Text::opened_text, crate::specs::Endings::lines, def_kernel::specs::Reading::opened_reading, crate::specs::Row11::opened_row11))]
pub fn row_11()
    ensures text { Row11Holds }
    ensures trees { Row11Reads }
{}

/// A partition breaks a gift.
#[tactic(auto, unfolding(def_run::specs::Text::opened_text, crate::specs::Endings::lines, def_kernel::specs::Reading::opened_reading, crate::specs::Row12::opened_row12))]
pub fn row_12()
    ensures text { Row12Holds }
    ensures trees { Row12Reads }
{}

/// A reference shortened to its own vat.
#[tactic(auto, unfolding(def_run::specs::Text::opened_text, crate::specs::Endings::lines, def_kernel::specs::Reading::opened_reading, crate::specs::Row13::opened_row13))]
pub fn row_13()
    ensures text { Row13Holds }
    ensures trees { Row13Reads }
{}

/// A reference shortened to a third vat.
#[tactic(auto, unfolding(def_run::specs::Text::opened_text, crate::specs::Endings::lines, def_kernel::specs::Reading::opened_reading, crate::specs::Row14::opened_row14))]
pub fn row_14()
    ensures text { Row14Holds }
    ensures trees { Row14Reads }
{}

/// Two promises that wait on each other in two vats.
#[tactic(auto, unfolding(def_run::specs::Text::opened_text, crate::specs::Endings::lines, def_kernel::specs::Reading::opened_reading, crate::specs::Row15a::opened_row15a))]
pub fn row_15a()
    ensures text { Row15aHolds }
    ensures trees { Row15aReads }
{}

/// A promise that is resolved to itself.
#[tactic(auto, unfolding(def_run::specs::Text::opened_text, crate::specs::Endings::lines, def_kernel::specs::Reading::opened_reading, crate::specs::Row15b::opened_row15b))]
pub fn row_15b()
    ensures text { Row15bHolds }
    ensures trees { Row15bReads }
{}

/// Two gifts that are one object.
#[tactic(auto, unfolding(def_run::specs::Text::opened_text, crate::specs::Endings::lines, def_kernel::specs::Reading::opened_reading, crate::specs::Row16::opened_row16))]
pub fn row_16()
    ensures text { Row16Holds }
    ensures trees { Row16Reads }
{}

/// A cut that each side notices.
#[tactic(auto, unfolding(def_run::specs::Text::opened_text, crate::specs::Endings::lines, def_kernel::specs::Reading::opened_reading, crate::specs::Row17::opened_row17))]
pub fn row_17()
    ensures text { Row17Holds }
    ensures trees { Row17Reads }
{}

/// A second cut and a second notice.
#[tactic(auto, unfolding(def_run::specs::Text::opened_text, crate::specs::Endings::lines, def_kernel::specs::Reading::opened_reading, crate::specs::SecondCut::opened_secondcut))]
pub fn second_cut()
    ensures text { SecondCutHolds }
    ensures trees { SecondCutReads }
{}

/// A message behind one that a cut lost is lost too.
#[tactic(auto, unfolding(def_run::specs::Text::opened_text, crate::specs::Endings::lines, def_kernel::specs::Reading::opened_reading, crate::specs::OrderOverACut::opened_orderoveracut))]
pub fn order_over_a_cut()
    ensures text { OrderOverACutHolds }
    ensures trees { OrderOverACutReads }
{}

/// An auditor that throws leaves the making.
#[tactic(auto, unfolding(def_run::specs::Text::opened_text, crate::specs::Endings::lines, def_kernel::specs::Reading::opened_reading, crate::specs::AuditorThrows::opened_auditorthrows))]
pub fn auditor_throws()
    ensures text { AuditorThrowsHolds }
    ensures trees { AuditorThrowsReads }
{}

/// An auditor written in E.
#[tactic(auto, unfolding(def_run::specs::Text::opened_text, crate::specs::Endings::lines, def_kernel::specs::Reading::opened_reading, crate::specs::Row21::opened_row21))]
pub fn row_21()
    ensures text { Row21Holds }
    ensures trees { Row21Reads }
{}

/// An object that names itself is not selfless; one that names nothing is functional.
#[tactic(auto, unfolding(def_run::specs::Text::opened_text, crate::specs::Endings::lines, def_kernel::specs::Reading::opened_reading, crate::specs::NativeAuditors::opened_native_auditors))]
pub fn native_auditors()
    ensures text { NativeAuditorsHolds }
    ensures trees { NativeAuditorsReads }
{}

/// An introduction, with its frames.
#[tactic(auto, unfolding(def_run::specs::Text::opened_text, crate::specs::Endings::lines, def_kernel::specs::Reading::opened_reading, crate::specs::Row11Wire::opened_row11wire))]
pub fn row_11_wire()
    ensures text { Row11WireHolds }
    ensures trees { Row11WireReads }
{}

/// A shortening, with its frames.
#[tactic(auto, unfolding(def_run::specs::Text::opened_text, crate::specs::Endings::lines, def_kernel::specs::Reading::opened_reading, crate::specs::Row14Wire::opened_row14wire))]
pub fn row_14_wire()
    ensures text { Row14WireHolds }
    ensures trees { Row14WireReads }
{}

/// A purchase over three vats.
#[tactic(auto, unfolding(def_run::specs::Text::opened_text, crate::specs::Endings::lines, def_kernel::specs::Reading::opened_reading, crate::specs::Row19::opened_row19))]
pub fn row_19()
    ensures text { Row19Holds }
    ensures trees { Row19Reads }
{}

/// A message without an answer, with its frame.
#[tactic(auto, unfolding(def_run::specs::Text::opened_text, crate::specs::Endings::lines, def_kernel::specs::Reading::opened_reading, crate::specs::SendOnly::opened_sendonly))]
pub fn send_only()
    ensures text { SendOnlyHolds }
    ensures trees { SendOnlyReads }
{}

/// An ejector that follows to null.
#[tactic(auto, unfolding(def_run::specs::Text::opened_text, crate::specs::Endings::lines, def_kernel::specs::Reading::opened_reading, crate::specs::EjectorHandedNull::opened_ejectorhandednull))]
pub fn ejector_handed_null()
    ensures text { EjectorHandedNullHolds }
    ensures trees { EjectorHandedNullReads }
{}

/// A text with a character behind it.
#[tactic(auto, unfolding(def_run::specs::Text::opened_text, crate::specs::Endings::lines, def_kernel::specs::Reading::opened_reading, crate::specs::TextAndCharacter::opened_textandcharacter))]
pub fn text_and_character()
    ensures text { TextAndCharacterHolds }
    ensures trees { TextAndCharacterReads }
{}

/// A counter that is sent two messages, and a reaction that waits for the second answer.
#[tactic(auto, unfolding(def_run::specs::Text::opened_text, crate::specs::Endings::lines, def_kernel::specs::Reading::opened_reading, crate::specs::Tally::opened_tally))]
pub fn tally()
    ensures text { TallyHolds }
    ensures stops { TallyStops }
    ensures trees { TallyReads }
{}
