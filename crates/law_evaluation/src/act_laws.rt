//! What the inside of a vat means to evaluation is what it means to references.

ghost use Rattle.law_evaluation.specs.Acts.Inside.{FollowsAsReferences, PlacesAsReferences, ReadsAsReferences, StandsAsReferences};

/// Where the texts `partition`, `cycle` and `too heavy` have the numbers that they have among the problems, and the texts of the heap are
/// a front of those of the end, the inside is read as the laws of references ask (`ev_pass`).
pub fn reads_as_references()
    ensures { ReadsAsReferences }
{}

/// What leaves the heap as it is leaves what stands beside the references: so what references do in the inside of a vat by their laws
/// is done in the vat that evaluation works in.
pub fn stands_as_references()
    ensures { StandsAsReferences }
{}

/// The machine follows a value in the vat that evaluation works in to what the references follow it to (`Refs::deref`).
pub fn follows_as_references()
    ensures { FollowsAsReferences }
{}

/// Where a followed value is in the vat that evaluation works in is where the references have it (`Refs::place`).
pub fn places_as_references()
    ensures { PlacesAsReferences }
{}
