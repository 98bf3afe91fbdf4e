//! The integer operations of the code and those of the machine.

ghost use Rattle.ev_prims.specs.Same.{SameArithmetic};

/// Each integer operation of `ev_integer` answers what the machine's does, and fails with the problem that the machine throws.
#[tactic(auto, using(crate::proofs::Sames::same))]
pub fn same_arithmetic()
    ensures { SameArithmetic }
{}
