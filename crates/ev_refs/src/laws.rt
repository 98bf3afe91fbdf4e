//! What references mean in the machine, in local numbers.

ghost use Rattle.ev_refs.specs.Statements.{FollowsAsTheMachine, LeadsBackAsTheMachine, PlacesAsTheMachine};

/// What a value is followed to (`Refs::deref`) is what the machine follows it to, where the texts `partition` and `cycle` have
/// the numbers that the references have for them.
pub fn follows_as_the_machine()
    ensures { FollowsAsTheMachine }
{}

/// Where a followed value is (`Refs::place`) is its place in the machine.
pub fn places_as_the_machine()
    ensures { PlacesAsTheMachine }
{}

/// Whether the members of a list lead back to a name (`Refs::list_leads_back`) is what the machine finds, where the lists of the vat
/// are those of the heap.
pub fn leads_back_as_the_machine()
    ensures { LeadsBackAsTheMachine }
{}
