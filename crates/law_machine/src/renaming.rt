//! The steps of a vat in its own numbers stand for its steps in the one global state.

ghost use Rattle.law_machine.specs.Renamed.Renaming.{ArrivalsStand, NoticesStand, OpeningsStand, TurnsStand};
ghost use Rattle.law_machine.specs.Renamed.Example.{SampleIsTable, SampleSends};

/// The arrival of a note of any kind.
pub fn arrivals_stand()
    ensures { ArrivalsStand }
{}

/// The notice of a cut.
pub fn notices_stand()
    ensures { NoticesStand }
{}

/// A turn that takes a message.
pub fn turns_stand()
    ensures { TurnsStand }
{}

/// The opening turn.
pub fn openings_stand()
    ensures { OpeningsStand }
{}

/// A table that meets its laws.
pub fn sample_is_table()
    ensures { SampleIsTable }
{}

/// A send by that table, by computing.
pub fn sample_sends()
    ensures { SampleSends }
{}
