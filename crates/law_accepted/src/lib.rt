//! What the laws of runs ask of a script.
#![tactic(auto)]

ghost use Rattle.law_accepted.specs.Accepted.{AdmittedScriptsMeetTheLaws};

/// A script that is as the rules of reading say (`IsAdmitted` of `ev_script`) is one of which the laws of runs speak, whatever the greatest
/// depth and the trees of its programs: no vat knows itself, nor another twice, each knows vats of the script alone, and each notice stands
/// behind a cut of its two vats.
pub fn admitted_scripts_meet_the_laws()
    ensures { AdmittedScriptsMeetTheLaws }
{}
