//! Runs in which each note that is carried is read alike by the numbers of its receiver and in names, by computing.

ghost use Rattle.test_machine.specs.Row10 as row_10;
ghost use Rattle.test_machine.specs.Row11Wire as row_11;
ghost use Rattle.test_machine.specs.Row14Wire as row_14;
ghost use Rattle.law_frame.specs.Frame.Alike.{ReadsAlike};

/// A message is sent to the answer of another, and the answer of that comes back.
#[tactic(auto, unfolding(law_reference::specs::Reference::Logs::opened_logs, def_run::specs::World::opened_world, law_machine::specs::Renamed::Stands::found, law_machine::specs::Renamed::Stands::prom_found, law_machine::specs::Renamed::Stands::far_found, law_machine::specs::Renamed::Stands::mess_found, law_reference::specs::Reference::Exports::opened_exports, test_machine::specs::Row10::opened_row10, law_frame::specs::Frame::Alike::opened_alike))]
pub fn pipelining_is_read_alike()
    ensures { ReadsAlike row_10.script }
{}

/// A reference is passed to a third vat as a gift.
#[tactic(auto, unfolding(law_reference::specs::Reference::Logs::opened_logs, def_run::specs::World::opened_world, law_machine::specs::Renamed::Stands::found, law_machine::specs::Renamed::Stands::prom_found, law_machine::specs::Renamed::Stands::far_found, law_machine::specs::Renamed::Stands::mess_found, law_reference::specs::Reference::Exports::opened_exports, test_machine::specs::Row11Wire::opened_row11wire, law_frame::specs::Frame::Alike::opened_alike))]
pub fn an_introduction_is_read_alike()
    ensures { ReadsAlike row_11.script }
{}

/// A promise settles to an object of a third vat, and the way to it is shortened.
#[tactic(auto, unfolding(law_reference::specs::Reference::Logs::opened_logs, def_run::specs::World::opened_world, law_machine::specs::Renamed::Stands::found, law_machine::specs::Renamed::Stands::prom_found, law_machine::specs::Renamed::Stands::far_found, law_machine::specs::Renamed::Stands::mess_found, law_reference::specs::Reference::Exports::opened_exports, test_machine::specs::Row14Wire::opened_row14wire, law_frame::specs::Frame::Alike::opened_alike))]
pub fn a_shortening_is_read_alike()
    ensures { ReadsAlike row_14.script }
{}
