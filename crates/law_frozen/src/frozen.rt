//! What is reached from objects that bear DeepFrozen's stamp.

ghost use Rattle.law_frozen.specs.Laws.{ReachIsFrozen, StepsStaySound};
ghost use Rattle.law_frozen.specs.Receiving.{ReceivingStaysSound};
ghost use Rattle.law_frozen.specs.Runs.{ReachIsFrozenAtTheEnd, ReachIsFrozenInRuns};

/// Every step of a vat from a sound state ends in a sound state.
///
/// In a sound state each object with DeepFrozen's stamp has captures that are frozen and no var
/// slot, what is bound under a frozen guard is frozen, and each list that stands in a value is
/// there, and is made of what was there before it. The step's message, note or given names must
/// hold no list but those that are there.
pub fn steps_stay_sound()
    ensures { StepsStaySound }
{}

/// What a vat receives of a peer, whatever that says and whoever sent it, leaves a sound state sound. No list may stand by its number
/// in the note.
#[tactic(auto, using(crate::proofs::FineReceive::receiving_stays_sound))]
pub fn receiving_stays_sound()
    ensures { ReceivingStaysSound }
{}

/// In a sound state, from an object with DeepFrozen's stamp, by captures and members of lists any
/// number of times, one meets only frozen values and no var slot: data in which no name occurs,
/// primitives, and objects of that vat with DeepFrozen's stamp.
pub fn reach_is_frozen()
    ensures { ReachIsFrozen }
{}

/// In every vat of every world of a run, after any of its opening turns and after any entries of
/// a schedule, what is reached from an object with DeepFrozen's stamp is frozen: of every script,
/// whatever its sources and names.
pub fn reach_is_frozen_in_runs()
    ensures { ReachIsFrozenInRuns }
{}

/// The same of the world in which a whole run ends, behind its closing list.
pub fn reach_is_frozen_at_the_end()
    ensures { ReachIsFrozenAtTheEnd }
{}
