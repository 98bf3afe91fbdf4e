//! Laws of each step of the machine and of each run: what a step keeps, what no primitive adds, what renaming leaves alone, and what fuel pays for.
#![tactic(auto)]

pub mod keys;
pub mod moves;
pub mod opening;
pub mod renaming;
pub mod runs;
pub mod steps;

ghost use Rattle.law_machine.specs.Costs.Laws.{FuelPays, NumbersAreLow};
ghost use Rattle.law_machine.specs.Halting.Halted.{StoppedRunsLeave};
ghost use Rattle.law_machine.specs.Natives.Natives.{DataAddsNothing, PrimitivesAddNothing};

// Machine.

// Natives.

/// What data answers to a call holds nothing but what it is made of and what it is called with: a
/// set of values that has all data in which no name and no list stands, each list's members, the
/// data and what it is called with has each value that it gives back, the members of a list that is
/// made, and what it calls in turn.
pub fn data_adds_nothing()
    ensures { DataAddsNothing }
{}

/// What primitives answer from data alone holds nothing but data in which no name and no list
/// stands; and what a primitive is asked is about what it is called with.
pub fn primitives_add_nothing()
    ensures { PrimitivesAddNothing }
{}

// Costs.

// Costs.

/// What a vat has made by the end of a run, and the words that the run drew, are together no more than
/// the fuel of its script and its steps pay for. A vat makes things, var slots, lists with their
/// members, activations, messages and promises.
///
/// The prices are those of the script: a step costs no more than twice its fuel and twice the nodes of
/// its greatest tree, and a unit of fuel pays for little more than twice that. The programs are kernel trees.
pub fn fuel_pays()
    ensures { FuelPays }
{}

/// So no vat makes 2^64 things, and fewer words are drawn, where a script has no more than 10,000,000
/// units of fuel, 65,536 vats and 100,000 entries, and no tree of more than 2^32 nodes.
pub fn numbers_are_low()
    ensures { NumbersAreLow }
{}

// Halt.

/// Where a run stops, it leaves the vats, the history, the draws, the fuel and the connections of the
/// world that it came to before the step that stopped: after the opening turns of some of its vats, or
/// after all of them and some entries. Links are that world's too, but for the note that the step
/// took off its link. So its text tells nothing of the step that stopped.
pub fn stopped_runs_leave()
    ensures { StoppedRunsLeave }
{}
