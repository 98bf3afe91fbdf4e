//! That no run of a script that is read goes astray.

ghost use Rattle.law_read.specs.ReadScripts.Checked.{NoCheckedScriptGoesAstray};
ghost use Rattle.law_read.specs.ReadScripts.Runs.{NoReadScriptGoesAstray};

/// The run of a script that is read does not stop as `Astray`, whatever its greatest depth, if the program of each vat is a
/// tree in which the check of scopes finds no fault. It is checked inside names of the safe scope and of vats that this vat
/// knows, all of them or some. What the laws of runs ask of a script, each that is read has.
pub fn no_checked_script_goes_astray()
    ensures { NoCheckedScriptGoesAstray }
{}

/// Law: the run of a script that is read does not stop as `Astray`, whatever its greatest depth, where the program of each
/// vat is read under names of the safe scope and of vats that this vat knows, all of them or some.
pub fn no_read_script_goes_astray()
    ensures { NoReadScriptGoesAstray }
{}
