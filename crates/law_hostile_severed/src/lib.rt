//! What stays severed in runs with hostile vats, and what a malformed frame breaks.
#![tactic(auto)]

ghost use Rattle.law_hostile_severed.specs.Severed.{MalformedFramesBreak, NoticesBreakInPlays, SeveredStaysInPlays};

/// From each configuration of a run with hostile vats to each later one, at each vat: what settled to a broken reference stays so, once a
/// cut was noticed nothing that is followed has that host, what had settled to an object there is broken, and gifts stay, opened ones opened.
///
/// Of what was followed to a broken reference by a view it asks that the vat was at rest; `law_machine::rest_is_needed` says why.
pub fn severed_stays_in_plays()
    ensures { SeveredStaysInPlays }
{}

/// Where an honest vat notices a cut for the first time, in a run with hostile vats, each name of that host that waited there, and each gift
/// of that provider that was not opened and waited, is broken in each later configuration.
pub fn notices_break_in_plays()
    ensures { NoticesBreakInPlays }
{}

/// A malformed frame is such a notice: where an honest vat's judge refuses a frame of a hostile vat, of which it had noticed no cut, each name
/// of that vat's that waited there, and each gift that it provides and that was not opened and waited, is broken in each later configuration.
pub fn malformed_frames_break()
    ensures { MalformedFramesBreak }
{}
