//! Plays that are read, as the machine's plays: what the laws of runs with hostile vats ask of them.
#![tactic(auto)]

ghost use Rattle.law_play.specs.Statements.{HonestPlaysAreOfScripts, HonestPlaysHaveTheirTexts, PlaysAreLawful};

/// The script of a play that is read is one of which the laws of runs speak: no vat knows itself, nor another twice, each knows vats of the
/// script alone, each notice stands behind a cut, and there are at most 16 vats. Its hostile vats are vats of the script, each once; at most
/// 100,000 things are done, by vats of the script; and a hostile vat alone injects, to another vat, a frame of 1 to 4,096 bytes.
pub fn plays_are_lawful()
    ensures { PlaysAreLawful }
{}

/// The machine's play of a play in which no vat is hostile is that of its script.
pub fn honest_plays_are_of_scripts()
    ensures { HonestPlaysAreOfScripts }
{}

/// And its text is that of the script's run, without frames and with them.
pub fn honest_plays_have_their_texts()
    ensures { HonestPlaysHaveTheirTexts }
{}
