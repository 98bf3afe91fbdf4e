//! Connectivity in runs with hostile vats: whatever frames are injected, an activation of an honest vat uses only what it knows.
#![tactic(auto)]

ghost use Rattle.law_hostile_connected.specs.Connected.{LinesAreConnectedInPlays, NothingLiveInPlays, ReceivingIsConnectedInPlays, StepsAreConnectedInPlays};

/// In each configuration to which a run with a hostile vat comes nothing is live in any vat: no frame hands out an ejector or an audition of a
/// turn that ended.
pub fn nothing_is_live_in_plays()
    ensures { NothingLiveInPlays }
{}

/// The lines of each step that a vat of such a configuration may begin are connected, be it an opening turn, a turn, the arrival of a note, or a
/// notice: each activation uses only what it knows, and gives back only what it knows.
pub fn steps_are_connected_in_plays()
    ensures { StepsAreConnectedInPlays }
{}

/// What a vat tells of a note that it receives is connected, whoever put the note: it tells nothing, or what the arrival of the note tells; or, where
/// a name would lead it back to a gift that it has, what the arrival of a note tells by which that name is broken.
pub fn receiving_is_connected_in_plays()
    ensures { ReceivingIsConnectedInPlays }
{}

/// Each line of a vat in the history of such a configuration is of an honest vat, stands in a step that the vat took in an earlier world of the
/// run, and is connected: what it uses was known to the activation that used it, by the lines of the step before it and by what the vat had.
/// Nothing is asked of the script or of the frames.
///
/// It does not say where the messages come from that a frame brings.
pub fn lines_are_connected_in_plays()
    ensures { LinesAreConnectedInPlays }
{}
