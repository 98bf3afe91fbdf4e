//! What each script that is read has.

ghost use Rattle.law_read.specs.ReadScripts.Accepted.{AcceptedScriptsMeetTheLaws, AcceptedVatsAreNamed};
ghost use Rattle.law_read.specs.ReadScripts.Sources.{SourcesAreTexts};

/// Each script that is read, as the machine's script whatever the trees of its programs, meets what
/// the laws of runs ask: no vat is told twice that it knows a vat, or that it knows itself; each vat
/// knows only vats of the script; and each notice in its schedule stands behind a cut of the same
/// two vats, which are not one.
pub fn accepted_scripts_meet_the_laws()
    ensures { AcceptedScriptsMeetTheLaws }
{}

/// And the names of its vats differ and are of letters and digits, as `law_text` asks of them: so
/// a text of its run tells which vat is meant.
pub fn accepted_vats_are_named()
    ensures { AcceptedVatsAreNamed }
{}

/// Law: the program of each vat of a script that is read is in UTF-8.
pub fn sources_are_texts()
    ensures { SourcesAreTexts }
{}
